//! What passes between the blocks of a machine, as lists that workers are dealt and give back.

ghost use Rattle.ultra_crew.specs.Exchanged.{AreExchanged, CanBeExchanged};

use ultra_block_core::Block;
use ultra_partition::{MessageKind, exchange};
use ultra_route::Net;

/// The blocks, each with the messages of a kind that lead to its units.
pub(crate) fn with_exchanged(
    mut blocks: Vec<Block>,
    partition: &[u8],
    kind: MessageKind,
    net: Net,
) -> Vec<Block>
    requires { CanBeExchanged kind net partition.now blocks.items }
    ensures { AreExchanged kind net partition.now blocks.items result.items }
{
    exchange(blocks.as_mut_slice(), partition, kind, net);
    blocks
}
