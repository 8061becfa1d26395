//! What several modules of tests share, and what asserts nothing: settings, programs, messages,
//! events, gates and traces.

mod gates;
mod messages;
mod programs;
mod settings;
mod traces;

pub(crate) use gates::{Counter, Holdup, Meeting};
pub(crate) use messages::{
    answer, answered_event, combined_event, issued_event, record_of_pair, served_event,
};
pub(crate) use programs::{add_number, add_one};
pub(crate) use settings::{config, defaults};
pub(crate) use traces::{COMBINED_PAIR, TWO_LEVEL_TREE};
