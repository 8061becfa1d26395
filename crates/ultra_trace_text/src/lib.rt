//! The lines of a trace, of a machine's last cycle and of its end. What they say and in which order
//! is this project's profile.
#![tactic(auto)]

mod cycle;
mod ending;
mod entries;
mod events;
mod places;
mod state;
mod texts;

pub use cycle::{put_cycle, put_cycle_events, write_cycle};
pub use ending::{put_cell, put_end, put_pe};
