//! A whole machine cut into blocks, which makes cycles.
#![tactic(auto)]

mod blocks;
mod building;
mod cycle;
mod partition;
mod ranks;

pub use blocks::{Blocks, Parts};
pub use partition::{MOST_BLOCKS, PartitionFault, unit_count};
pub use ranks::{ByElement, ByRules};
pub use ultra_block_core::{Block, Half, Held, Rooms};
pub use ultra_partition::{MessageKind, exchange, note_rooms};
