//! Messages go from the block in which they were sent to the block of the unit to which they lead.

ghost use Rattle.std.specs.Prelude.{◌≡◌, ℕ, ◌<◌, IfNone, IfSome, length};
ghost use Rattle.ultra_partition.specs.{Prelude.{AllStayWithin, IsNextAway}, Cut.{IsCut, block_at, home}};
ghost use Rattle.ultra_partition.specs.Exchange.{AreSingle, AreThere, HasNoneFor, OnlyMove, inlets, link_table};
ghost use Rattle.ultra_topology.specs.declared.TheConstants.{MOST_UNITS};

use crate::kind::MessageKind;
use ultra_block_core::{Block, reply_inlets, request_inlets};
use ultra_route::Net;

/// The first unit from `from` on that isn't in this block and to which messages may lead from it.
#[inline(always)]
fn next_target_elsewhere(block: &Block, kind: MessageKind, from: usize) -> Option<usize>
    ensures some { IfSome result (λ n.
        IsNextAway (link_table kind block.now) (inlets kind block.now.stages) block.now from n) }
    ensures none { IfNone result (AllStayWithin (link_table kind block.now)
        (inlets kind block.now.stages) block.now from MOST_UNITS) }
{
    match kind {
        MessageKind::Replies => block.next_reply_target_elsewhere(from),
        MessageKind::Requests => block.next_request_target_elsewhere(from),
    }
}

/// Moves the messages in block `from` that lead to a unit of another block to that block.
#[inline(never)]
#[tactic(auto, using(crate::proofs::Moved::nothing_moved))]
fn move_messages(
    blocks: &mut [Block],
    partition: &[u8],
    kind: MessageKind,
    net: Net,
    from: usize,
    unit: usize,
)
    requires from { from < length blocks.old }
    requires unit { unit < MOST_UNITS }
    requires home { unit < length partition.now → home partition.now unit < length blocks.old }
    requires from_stages { (block_at blocks.old from).stages ≡ net }
    requires home_stages { unit < length partition.now →
        (block_at blocks.old (home partition.now unit)).stages ≡ net }
    requires single { AreSingle kind blocks.old }
    ensures only { OnlyMove kind blocks.old blocks.new }
    ensures gone { unit < length partition.now →
        HasNoneFor kind net partition.now blocks.new from unit }
    ensures kept { (k n : ℕ) → HasNoneFor kind net partition.now blocks.old k n →
        HasNoneFor kind net partition.now blocks.new k n }
{
    // for the prover: a network has 1 to `MOST_STAGES` stages
    let _stages = net.stages();
    if unit >= partition.len() {
        return;
    }
    let home = partition[unit] as usize;
    if home == from {
        return;
    }
    match kind {
        MessageKind::Replies => {
            if let Some(inlets) = reply_inlets(net, unit) {
                let replies = blocks[from].remove_replies_to(unit, inlets);
                blocks[home].add_replies_to(unit, inlets, replies);
            }
        }
        MessageKind::Requests => {
            if let Some(inlets) = request_inlets(net, unit) {
                let requests = blocks[from].remove_requests_to(unit, inlets);
                blocks[home].add_requests_to(unit, inlets, requests);
            }
        }
    }
}

/// Moves each message of a kind to the block of the unit to which it leads; nothing else changes. A
/// block whose messages all lead to its own units is skipped.
///
/// The blocks have to be those of the partition, and no link may have messages in two blocks.
#[inline(always)]
#[tactic(auto, using(crate::proofs::Moved::nothing_moved))]
pub fn exchange(blocks: &mut [Block], partition: &[u8], kind: MessageKind, net: Net)
    requires cut { IsCut net partition.now blocks.old }
    requires single { AreSingle kind blocks.old }
    ensures only { OnlyMove kind blocks.old blocks.new }
    ensures there { AreThere kind net partition.now blocks.new }
{
    // for the prover: a network has 1 to `MOST_STAGES` stages
    let _stages = net.stages();
    for from in 0..blocks.len() {
        let mut next = 0;
        while let Some(unit) = next_target_elsewhere(&blocks[from], kind, next) {
            move_messages(blocks, partition, kind, net, from, unit);
            next = unit + 1;
        }
    }
}
