//! The command `explain`: it writes the combining tree of each memory act of a run.
#![tactic(auto)]

mod acts;
mod explaining;
mod line_buffer;

pub use explaining::explain;
