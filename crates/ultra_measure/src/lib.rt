//! Measures of a run: numbers over the events and the states of a window of its cycles.
#![tactic(auto)]

mod columns;
mod depths;
mod element_states;
mod elements;
mod event_sums;
mod measuring;
mod pe_set;
mod queues;
mod registers;
mod tally;
mod window;

pub use columns::measure_names;
pub use measuring::{Layout, measure};
