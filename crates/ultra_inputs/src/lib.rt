//! The files that the program's commands read, each accepted or refused, and how a command that
//! fails ends.
#![tactic(auto)]

mod failure;
mod inputs;

pub use failure::{Failure, failure_of_arguments, report_failure};
pub use inputs::{Inputs, read_file, read_inputs, read_program};
