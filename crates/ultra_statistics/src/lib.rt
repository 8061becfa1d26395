//! What the queues of a run held and what moved in them, by port; and how long its requests took.
#![tactic(auto)]

mod counts;
mod latencies;
mod law;
mod moves;
mod observer;
mod queues;
mod rows;

pub use latencies::write_latencies;
pub use law::{law_of_latencies, law_of_ports};
pub use queues::write_queues;
