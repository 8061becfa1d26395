//! A run in the caller's thread, and its trace, whole or in part; and what a run by several workers
//! shares with it.
#![tactic(auto)]

mod alone;
mod fault;
mod part;
mod running;
mod start;
mod text;

pub use alone::{is_over, most_cycles};
pub use fault::RunFault;
pub use part::{CycleLines, TracePart};
pub use running::{run_alone, run_part_alone, write_run};
pub use start::new_blocks;
pub use text::RunText;
