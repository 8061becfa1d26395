//! The machine, from 1 to 6 stages: all its units in one block.
#![tactic(auto)]

mod machine;

pub use machine::Machine;
pub use ultra_block::{Blocks, PartitionFault};
pub use ultra_model::{Config, ConfigFault, Field, RawSettings, Stop};
pub use ultra_route::MOST_STAGES;
pub use ultra_unit_steps::ProcessingElement;
