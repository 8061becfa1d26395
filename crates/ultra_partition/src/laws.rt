//! What all blocks of a machine together do to the whole of it in each half of a cycle, and what
//! they list in it. Laws are the contracts of functions that do nothing.

ghost use Rattle.ultra_partition.specs.Halves.{CanMakeLaw, HalfLaw, MergedLaw};

/// The laws of the halves: a half of all blocks is that half of the whole machine. Messages leave
/// where none is on a link, and are taken where each is in the block to which it leads. That a half
/// can be made needs no more than that the whole machine can make it, and that each block has
/// memory for the events. What the blocks have listed in the halves of a cycle is merged by rank
/// into what has happened in them to the whole machine. A block's events ascend by rank, and its
/// stops by processing element.
pub fn half_laws()
    ensures made { HalfLaw }
    ensures can_make { CanMakeLaw }
    ensures merged { MergedLaw }
{}
