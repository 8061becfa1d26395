//! What the processing elements of a run did: a line for each step, and one for each value that
//! comes to a register. The form of these lines is this project's profile.
#![tactic(auto)]

mod copies;
mod cycle;
mod instruction;
mod law;
mod lines;
mod setting;
mod steps;

pub use law::register_law;
pub use setting::Setting;
pub use steps::write_steps;
