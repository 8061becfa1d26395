//! The open requests of a run with the cycles of their issues, and the latencies of its deliveries.
#![tactic(auto)]

mod law;
mod open;
mod summary;

pub use law::{law_of_few_events, law_of_open_requests};
pub use open::{OpenRequest, OpenRow, OpenTable};
pub use summary::Latencies;
