//! Jobs, what becomes of them, and who runs them.

ghost use Rattle.std.specs.Prelude.{◌<◌, ℕ, List, Contains};
ghost use Rattle.ultra_sweep.specs.{declared.job.Job.Job as JobOf, Job.IsResultOf};

use std::alloc::Global;
use std::sync::Wait;
use ultra_board::Seat;
use ultra_isa::Program;
use ultra_model::Config;

/// A job: the run of a program on a machine of these settings. Its number is its place in the list
/// of jobs, from 0.
#[derive(Drop)]
pub struct Job {
    /// The settings.
    pub config: Config,
    /// The program.
    pub program: Program,
}

/// What became of a job.
#[derive(Drop)]
pub enum JobOutcome {
    /// The text that it gives, as the trace of its run.
    Text(Vec<u8>),
    /// Memory was refused, to its run or to its text.
    NoMemory,
}

/// A job's result.
#[derive(Drop)]
pub struct JobResult {
    /// The job's number.
    pub number: u64,
    /// What became of it.
    pub outcome: JobOutcome,
}

/// Who runs the jobs that are drawn.
pub trait JobGate {
    /// The text that a job gives, by its number.
    ghost text: { Self → ℕ → JobOf → List ℕ };

    /// Runs a job, which the seat has drawn and hasn't finished, under the pass that the seat
    /// holds. It may wait, for another job too. The result has the job's number, and its text or
    /// that memory was refused.
    fn run<R: Wait>(&self, rt: &R, alloc: Global, seat: &Seat, number: u64, job: &Job) -> JobResult
        requires pass { 0 < seat.now.view.held }
        requires drawn { Contains seat.now.view.drawn number }
        requires unfinished { ¬ Contains seat.now.view.finished number }
        ensures { IsResultOf (text self.now) number job.now result };
}
