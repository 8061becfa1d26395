//! A cycle of all blocks.

ghost use Rattle.std.specs.Prelude.{◌≡◌, true, ℕ, ◌-◌, ◌^◌, ◌<◌, ◌∷◌, [], List};
ghost use Rattle.ultra_isa.specs.declared.Instr.{Instr};
ghost use Rattle.ultra_model.specs.Machine.{Settings};
ghost use Rattle.ultra_topology.specs.Numbers.{IsSmall};
ghost use Rattle.ultra_partition.specs.{Halves.{AllCanMake, all_after_own_half}, Moments.AreWhole};
ghost use Rattle.ultra_block.specs.State.{MakesCycle};

use ultra_block_core::{Block, Half, Rooms};
use ultra_model::Config;
use ultra_partition::{MessageKind, exchange, note_rooms};
use ultra_topology::is_small;

/// The blocks of a machine, which has made `done` cycles, make one more: replies, memory, requests,
/// processors.
pub(crate) fn make_cycle(blocks: &mut [Block], config: &Config, partition: &[u8], done: u32)
    requires whole { (program : List Instr) ×
        AreWhole config.now program partition.now done blocks.old }
    requires counted { done < 2 ^ 32 - 1 }
    ensures { MakesCycle config.now partition.now done blocks.old blocks.new }
{
    match blocks {
        [block] if is_small(config.net()) => make_cycle_of_one::<true>(block),
        [block] => make_cycle_of_one::<false>(block),
        _ => make_cycle_of_several(blocks, config, partition, done),
    }
}

/// Blocks, however many, make a cycle. All make a half before any makes the next, and between the
/// two halves of a phase each message goes to the block of the unit to which it leads. It is a
/// separate function, so that a cycle of one block needs no stack space for what is noted here.
#[inline(never)]
fn make_cycle_of_several(blocks: &mut [Block], config: &Config, partition: &[u8], done: u32)
    requires whole { (program : List Instr) ×
        AreWhole config.now program partition.now done blocks.old }
    requires counted { done < 2 ^ 32 - 1 }
    ensures { MakesCycle config.now partition.now done blocks.old blocks.new }
{
    let net = config.net();
    let rooms = note_rooms(blocks);
    make(blocks, Half::SendReplies, &rooms);
    exchange(blocks, partition, MessageKind::Replies, net);
    make(blocks, Half::TakeReplies, &rooms);
    make(blocks, Half::Serve, &rooms);
    let rooms = note_rooms(blocks);
    make(blocks, Half::SendRequests, &rooms);
    exchange(blocks, partition, MessageKind::Requests, net);
    make(blocks, Half::TakeRequests, &rooms);
    make(blocks, Half::Execute, &rooms);
}

/// The one block of a whole machine makes a cycle. It knows all rooms, and its messages lead to its
/// own units. The code for a `SMALL` machine is compiled as a specialised copy.
#[inline(never)]
fn make_cycle_of_one<const SMALL: bool>(block: &mut Block)
    requires small { SMALL ≡ true → IsSmall block.old.stages }
    requires whole { (c : Settings) × (program : List Instr) × (partition : List ℕ) × (n : ℕ) ×
        AreWhole c program partition n (block.old ∷ []) × (n < 2 ^ 32 - 1) }
    ensures { (c : Settings) (partition : List ℕ) (n : ℕ) → n < 2 ^ 32 - 1 →
        MakesCycle c partition n (block.old ∷ []) (block.new ∷ []) }
{
    block.send_replies_by_own_rooms::<SMALL>();
    block.take_replies_sized::<SMALL>();
    block.serve_sized::<SMALL>();
    block.send_requests_by_own_rooms::<SMALL>();
    block.take_requests_sized::<SMALL>();
    block.execute_sized::<SMALL>();
}

/// Every block makes this half of a cycle, with the rooms that were noted before it. Each block has
/// to meet the half's conditions.
#[inline(always)]
#[tactic(auto, using(ultra_block_core::proofs::OwnProgram::can_by_own, std::proofs::lemmas::List::get_or_default, std::proofs::lemmas::Grind::common_steps))]
fn make(blocks: &mut [Block], half: Half, rooms: &Rooms)
    requires { (program : List Instr) × AllCanMake program half blocks.old }
    ensures { blocks.new ≡ all_after_own_half half rooms.now blocks.old }
{
    for block in blocks.iter_mut() {
        block.make(half, rooms);
    }
}
