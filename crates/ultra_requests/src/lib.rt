//! The events of a run, a line each, and its requests as a table.
#![tactic(auto)]

mod cycle;
mod events;
mod law;
mod lines;
mod requests;
mod rows;
mod texts;

pub use events::write_events;
pub use law::request_law;
pub use requests::write_requests;
