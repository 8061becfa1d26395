//! Runs of the paracomputer: their schedules, read from a text or drawn from a number, and the text
//! that is written of them. The text forms are this project's profile.
#![tactic(auto)]

mod drawing;
mod ending;
mod reading;
mod running;
mod steps;

pub use reading::{ScheduleFault, read_schedule};
pub use running::{write_para, write_seeded};
