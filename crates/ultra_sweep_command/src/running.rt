//! The run of all jobs.

ghost use Rattle.std.specs.Prelude.{◌≡◌, ◌<◌, ℕ, ◌+◌, false, length, IfOk, IfErr, OnOk, OnErr};
ghost use Rattle.ultra_io.specs.Account.{SinkState};
ghost use Rattle.ultra_sweep.specs.Job.{texts_of};
ghost use Rattle.ultra_sweep_command.specs.{Output.job_output, SeatResults.{threads_of, IsSweepTask, IsFresh, AreWholeResults}, Shown.{HasShown, IsProgressShown}, declared.fault.SweepFault.TheVariants.NoThread};
ghost use Rattle.ultra_inputs.specs.Shown.{stream};

use crate::SweepPlan;
use crate::fault::SweepFault;
use crate::meter::ProgressMeter;
use crate::seat_results::SeatResults;
use crate::signal::DoneSignal;
use crate::sweep_threads::SweepThreads;
use crate::task::SweepTask;
use std::alloc::{AllocError, Global};
use std::sync::Wait;
use std::thread::{self, Scope, Threads};
use ultra_board::{Board, MOST_SEATS, Seat};
use ultra_msg::Sink;
use ultra_sweep::{Gathered, Job, close_and_gather};

impl SweepPlan {
    /// How many threads are started. The caller's thread does jobs too, or it watches the others;
    /// the board has a seat for each of them.
    fn threads(&self) -> usize
        ensures count { result ≡ threads_of self.now }
        ensures few { result < 64 }
    {
        if self.progress {
            (self.workers.count() as usize).min(MOST_SEATS as usize - 1)
        } else {
            self.workers.count() as usize - 1
        }
    }
}

/// The board of `count` jobs, with a pass for each job that may run at once, and its seat, which
/// has a place for the caller and for each thread. An error says that memory was refused.
fn open_board(alloc: Global, count: u64, plan: &SweepPlan) -> Result<(Board, Seat), AllocError>
    ensures jobs { IfOk result (λ b. b.0.limits.limit ≡ count) }
    ensures at_once { IfOk result (λ b. b.0.limits.bound ≡ plan.now.at_once) }
    ensures places { IfOk result (λ b. b.0.limits.seats ≡ threads_of plan.now + 1) }
    ensures seat { IfOk result (λ b. IsFresh b.0 (threads_of plan.now + 1) b.1) }
{
    let at_once = plan.at_once.count() as u64;
    match Board::open(alloc, count, at_once, plan.threads() as u64 + 1) {
        Ok(opened) => Ok(opened),
        Err(_) => Err(AllocError),
    }
}

/// Runs the jobs by threads of the host, and gives their texts in order. `NoThread` says that a
/// thread couldn't be started, which one worker without progress doesn't need. `NoMemory` says that
/// memory was refused. All threads have ended then.
pub(crate) fn run_jobs<R: Threads + Wait + Sync, E: Sink>(
    rt: &R,
    alloc: Global,
    jobs: &[Job],
    plan: &SweepPlan,
    err: &mut E,
) -> Result<Gathered, SweepFault>
    ensures ok { IfOk result (λ g. g ≡ texts_of (job_output plan.now.output) jobs.now) }
    ensures all_shown { OnOk result (IsProgressShown plan.now.progress (length jobs.now)
        (length jobs.now) (stream (E.taken err.old) (E.failures err.old))
        (stream (E.taken err.new) (E.failures err.new))) }
    ensures no_thread { IfErr result (λ f. f ≡ NoThread → 0 < threads_of plan.now) }
    ensures some_shown { OnErr result ((last : ℕ) × IsProgressShown plan.now.progress
        (length jobs.now) last (stream (E.taken err.old) (E.failures err.old))
        (stream (E.taken err.new) (E.failures err.new))) }
{
    let count = jobs.len() as u64;
    let Ok((board, seat)) = open_board(alloc, count, plan) else {
        return Err(SweepFault::NoMemory);
    };
    let signal = DoneSignal::new();
    let task = SweepTask {
        board: &board,
        jobs,
        output: &plan.output,
        signal: &signal,
    };
    let (seat_results, mut meter) = run_together(rt, alloc, task, seat, plan, err);
    let SeatResults { seat, results } = seat_results?;
    let gathered = close_and_gather(alloc, board, seat, count, results)?;
    if plan.progress {
        meter.show(count, err);
    }
    Ok(gathered)
}

/// Starts and joins the threads of a task. The results are those of all seats together, and what
/// was shown.
fn run_together<R: Threads + Wait + Sync, E: Sink>(
    rt: &R,
    alloc: Global,
    task: SweepTask,
    seat: Seat,
    plan: &SweepPlan,
    err: &mut E,
) -> (Result<SeatResults, SweepFault>, ProgressMeter)
    requires task { IsSweepTask task }
    requires at_once { task.board.now.limits.bound ≡ plan.now.at_once }
    requires fresh { IsFresh task.board.now (threads_of plan.now + 1) seat }
    ensures seat_results { IfOk result.0
        (AreWholeResults task.entry.output.now task.entry.board.now task.entry.jobs.now
        (threads_of plan.now + 1)) }
    ensures no_thread { IfErr result.0 (λ f. f ≡ NoThread → 0 < threads_of plan.now) }
    ensures count { result.1.count ≡ length task.entry.jobs.now }
    ensures shown { HasShown result.1 (stream (E.taken err.old) (E.failures err.old))
        (stream (E.taken err.new) (E.failures err.new)) }
    ensures quiet { plan.now.progress ≡ false → stream (E.taken err.new) (E.failures err.new) ≡
        stream (E.taken err.old) (E.failures err.old) }
{
    let SweepTask {
        board,
        jobs,
        output,
        signal,
    } = task;
    let (seat_results, meter, _err) = thread::scope(
        thread::scope_env(),
        rt,
        move |scope| -> (Result<SeatResults, SweepFault>, ProgressMeter, &mut E)
            requires task { board.now.limits.limit ≡ length jobs.now }
            requires fresh { IsFresh board.now (threads_of plan.now + 1) seat }
            ensures seat_results { IfOk result.0
                (AreWholeResults output.entry.now board.entry.now jobs.entry.now
                (threads_of plan.entry.now + 1)) }
            ensures no_thread { IfErr result.0
                (λ f. f ≡ NoThread → 0 < threads_of plan.entry.now) }
            ensures count { result.1.count ≡ length jobs.entry.now }
            ensures same_err { result.2.ghost_name ≡ err.entry.ghost_name }
            ensures shown { HasShown result.1
                (stream (E.taken err.entry.now) (E.failures err.entry.now))
                (stream (E.taken result.2.now) (E.failures result.2.now)) }
            ensures quiet { plan.entry.now.progress ≡ false →
                stream (E.taken result.2.now) (E.failures result.2.now) ≡
                stream (E.taken err.entry.now) (E.failures err.entry.now) }
        {
            let task = SweepTask {
                board,
                jobs,
                output,
                signal,
            };
            let mut meter = ProgressMeter::new(jobs.len() as u64);
            let seat_results = run_and_watch(scope, rt, alloc, task, seat, plan, &mut meter, err);
            (seat_results, meter, err)
        },
    );
    (seat_results, meter)
}

/// Starts the threads, does jobs beside them or watches them, and joins them.
fn run_and_watch<'a, S, R: Threads + Wait + Sync, E: Sink>(
    scope: &Scope<'a, S>,
    rt: &'a R,
    alloc: Global,
    task: SweepTask<'a>,
    seat: Seat,
    plan: &SweepPlan,
    meter: &mut ProgressMeter,
    err: &mut E,
) -> Result<SeatResults, SweepFault>
    requires task { IsSweepTask task }
    requires fresh { IsFresh task.board.now (threads_of plan.now + 1) seat }
    ensures seat_results { IfOk result
        (AreWholeResults task.entry.output.now task.entry.board.now task.entry.jobs.now
        (threads_of plan.now + 1)) }
    ensures no_thread { IfErr result (λ f. f ≡ NoThread → 0 < threads_of plan.now) }
    ensures count { meter.new.count ≡ meter.old.count }
    ensures shown { (start : SinkState) →
        HasShown meter.old start (stream (E.taken err.old) (E.failures err.old)) →
        HasShown meter.new start (stream (E.taken err.new) (E.failures err.new)) }
    ensures quiet { plan.now.progress ≡ false → stream (E.taken err.new) (E.failures err.new) ≡
        stream (E.taken err.old) (E.failures err.old) }
{
    let mut sweep_threads = SweepThreads::start(scope, rt, alloc, task, seat, plan.threads())?;
    if plan.progress {
        sweep_threads.watch(rt, meter, err);
    }
    Ok(sweep_threads.finish(rt, alloc)?)
}
