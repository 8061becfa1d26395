//! What one thread of a sweep does.

ghost use Rattle.std.specs.Prelude.{◌≡◌};
ghost use Rattle.ultra_sweep_command.specs.{Output.job_output, SeatResults.{IsFresh, HasTakenPart, IsSweepTask}};

use crate::gate::OutputGate;
use crate::seat_results::SeatResults;
use crate::signal::DoneSignal;
use std::alloc::Global;
use std::sync::Wait;
use std::thread::Promise;
use ultra_args::SweepOutput;
use ultra_board::{Board, Seat};
use ultra_sweep::{Job, JobGate, JobResult, WorkFault, work};

/// The task of all threads. Each has a seat of one place. It promises the results of that seat, once
/// no job is left; or the seat as it was, where memory for the results was refused.
#[derive(Clone, Copy, Drop)]
pub struct SweepTask<'a> {
    /// The board that the jobs are drawn from.
    pub board: &'a Board,
    /// The jobs.
    pub jobs: &'a [Job],
    /// What is written of them.
    pub output: &'a SweepOutput,
    /// What each thread notifies when a job is done and when it ends.
    pub signal: &'a DoneSignal,
}

impl<'a> Promise<Result<SeatResults, Seat>> for SweepTask<'a> {
    ghost use Rattle.ultra_sweep_command.specs.SeatResults.{HasTakenPart};

    ghost kept_by = { λ task given.
        HasTakenPart task.output.now task.board.now task.jobs.now given };
}

impl SweepTask<'_> {
    /// Does jobs until none is left. Where memory for the results is refused, it leaves all jobs to
    /// the others, and gives its seat back as it was.
    pub(crate) fn take_part<R: Wait>(
        &self,
        rt: &R,
        alloc: Global,
        seat: Seat,
    ) -> Result<SeatResults, Seat>
        requires task { IsSweepTask self.now }
        requires fresh { IsFresh self.now.board.now 1 seat }
        ensures { HasTakenPart self.now.output.now self.now.board.now self.now.jobs.now result }
    {
        let gate = NotifyingGate {
            gate: OutputGate::new(self.output),
            signal: self.signal,
        };
        let (seat, results) = work(rt, alloc, self.board, seat, self.jobs, &gate);
        self.signal.notify_end();
        match results {
            Ok(results) => Ok(SeatResults { seat, results }),
            Err(WorkFault::NoMemory) => Err(seat),
        }
    }
}

/// Runs each job as the program does, and notifies the signal when it is done.
#[derive(Drop)]
pub(crate) struct NotifyingGate<'b> {
    gate: OutputGate<'b>,
    signal: &'b DoneSignal,
}

impl JobGate for NotifyingGate<'_> {
    ghost text = { λ notifying. job_output notifying.gate.output.now };

    fn run<R: Wait>(
        &self,
        rt: &R,
        alloc: Global,
        seat: &Seat,
        number: u64,
        job: &Job,
    ) -> JobResult {
        let result = self.gate.run(rt, alloc, seat, number, job);
        self.signal.notify();
        result
    }
}
