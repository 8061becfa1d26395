//! A sweep: many jobs by threads of the host, and one report whose bytes depend neither on the
//! number of threads nor on how many jobs run at once.
//!
//! A job is a run of a machine. A file of jobs names the settings and the program of each
//! ([`jobs_from`], [`settings_from`]). Threads draw the jobs from a board (`ultra_board`). Each has
//! its own seat, and runs each job that it draws under a pass by a [`JobGate`]. The gate says what
//! text a job gives: its trace, or the rows of its measures. [`gather`] puts the threads' results
//! together, and [`report`] or [`write_job_table`] writes them.
#![tactic(auto)]

mod gathering;
mod job;
mod law;
mod reporting;
mod working;

pub use gathering::{GatherFault, Gathered, close_and_gather, gather};
pub use job::{Job, JobGate, JobOutcome, JobResult};
pub use law::sweep_law;
pub use reporting::{report, write_job_table};
pub use ultra_settings::{JobsFault, SettingsFault, jobs_from, settings_from};
pub use working::{WorkFault, work};
