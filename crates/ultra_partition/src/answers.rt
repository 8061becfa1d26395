//! What is asked of all blocks of a machine: where there is no room, which units hold something,
//! and whether anything is left to do.

ghost use Rattle.std.specs.Prelude.{◌≡◌};
ghost use Rattle.ultra_partition.specs.{Prelude.list_all, Holding.IsSetOfAll, Moments.{AreRoomsOfAll, IsQuietOfAll}};
ghost use Rattle.ultra_block_core.specs.Quiet.{quiet_block};

use ultra_block_core::{Block, Held, Rooms};
use ultra_topology::UnitSet;

/// Each block notes which of its switches, queues and modules have no room. The rooms are those of
/// the whole machine, however it is cut.
#[inline(always)]
#[tactic(auto, using(crate::proofs::Questions::next_noted))]
pub fn note_rooms(blocks: &[Block]) -> Rooms
    ensures { AreRoomsOfAll blocks.now result }
{
    let mut rooms = Rooms::all_open();
    for block in blocks {
        block.rooms(&mut rooms);
    }
    rooms
}

/// The units of the machine that hold what is asked for, however it is cut.
#[inline(always)]
pub fn holders(blocks: &[Block], held: Held) -> UnitSet
    ensures { IsSetOfAll blocks.now held result }
{
    let mut all = UnitSet::empty();
    for block in blocks {
        all.add_all(block.holding(held));
    }
    all
}

/// Whether each block is quiet.
#[cold]
#[inline(never)]
fn is_each_quiet(blocks: &[Block]) -> bool
    ensures { result ≡ list_all quiet_block blocks.now }
{
    blocks.iter().all(|block| block.is_quiet())
}

/// Whether nothing is left to do in the whole machine, however it is cut. It first asks whether
/// some processing element has yet to stop, which is quick and mostly true.
#[inline(always)]
#[tactic(auto, using(crate::proofs::Questions::quiet_is, std::proofs::lemmas::List::Folds::list_all_at))]
pub fn are_quiet(blocks: &[Block]) -> bool
    ensures { IsQuietOfAll blocks.now result }
{
    for block in blocks {
        if block.is_stepping() {
            return false;
        }
    }
    is_each_quiet(blocks)
}
