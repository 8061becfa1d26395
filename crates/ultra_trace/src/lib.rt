//! A run by several workers, each in its own thread, and its trace, whole or in part. The run in
//! the caller's thread, and what both share, is in `ultra_trace_alone`.
#![tactic(auto)]

mod running;
mod together;

pub use running::{run, run_part};
pub use ultra_crew::{Gate, Half};
pub use ultra_trace_alone::{CycleLines, RunFault, TracePart, run_alone};
pub use ultra_trace_text::write_cycle;
