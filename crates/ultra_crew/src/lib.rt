//! Host workers: a cycle of a machine in blocks, each half of it made by several threads.
#![tactic(auto)]

mod assignment;
mod crew;
mod expected_results;
mod fault;
mod gate;
mod moves;
mod task;
mod teams;
mod worker_pool;
mod worker_thread;

pub use crew::{Crew, MOST_WORKERS, cycle_alone};
pub use expected_results::ExpectedResults;
pub use fault::CrewFault;
pub use gate::Gate;
pub use ultra_block::{Blocks, Half, PartitionFault};
pub use worker_pool::WorkerPool;
