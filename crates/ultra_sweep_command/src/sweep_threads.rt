//! The threads of a sweep.

ghost use Rattle.std.specs.Prelude.{◌≡◌, ◌≤◌, ◌<◌, ℕ, ◌+◌, min, max, length, IfOk, IfErr, All};
ghost use Rattle.ultra_io.specs.Account.{SinkState};
ghost use Rattle.ultra_sweep_command.specs.SeatResults.{IsFresh, AreWholeResults, HasTakenPart, IsSweepTask, AreSweepThreads, HasRead};
ghost use Rattle.ultra_inputs.specs.Shown.{stream};
ghost use Rattle.ultra_sweep_command.specs.{Shown.HasShown, declared.fault.SweepFault.TheVariants.NoThread};

use crate::fault::SweepFault;
use crate::gate::OutputGate;
use crate::meter::ProgressMeter;
use crate::seat_results::{SeatResults, join_seat_results, results_given};
use crate::task::SweepTask;
use std::alloc::{AllocError, Global};
use std::sync::Wait;
use std::thread::{self, PromisedHandle, Scope, Threads};
use ultra_board::{Board, Seat};
use ultra_msg::Sink;
use ultra_sweep::work;

/// A thread that was started. It gives back the results of its seat, or the seat alone.
type Thread<'a> = PromisedHandle<Result<SeatResults, Seat>, SweepTask<'a>>;

/// The caller with its seat, and the threads that it has started.
#[derive(Drop)]
pub struct SweepThreads<'a> {
    /// The task that all have a part in.
    pub task: SweepTask<'a>,
    /// The caller's seat.
    pub seat: Seat,
    /// The threads.
    pub threads: Vec<Thread<'a>>,
}

impl<'a> SweepThreads<'a> {
    /// Starts `count` threads, at most 63, each with its own seat. On every return path the threads
    /// that were started are joined: by `finish`, or here where one couldn't be started. Without
    /// threads to start, the error is `NoMemory`.
    pub(crate) fn start<S, R: Threads + Wait + Sync>(
        scope: &Scope<'a, S>,
        rt: &'a R,
        alloc: Global,
        task: SweepTask<'a>,
        seat: Seat,
        count: usize,
    ) -> Result<SweepThreads<'a>, SweepFault>
        requires task { IsSweepTask task }
        requires fresh { IsFresh task.board.now (count + 1) seat }
        requires few { count < 64 }
        ensures sweep_threads { IfOk result AreSweepThreads }
        ensures count { IfOk result (λ sweep_threads. length sweep_threads.threads.items ≡ count) }
        ensures task { IfOk result (λ sweep_threads. sweep_threads.task ≡ task.entry) }
        ensures no_thread { IfErr result (λ f. f ≡ NoThread → 0 < count) }
    {
        let threads = Vec::with_capacity(alloc, count)?;
        let mut sweep_threads = SweepThreads {
            task,
            seat,
            threads,
        };
        for _ in 0..count {
            let (rest, one) = split_off(task.board, sweep_threads.seat);
            sweep_threads.seat = rest;
            match start_thread(scope, rt, alloc, task, one) {
                Ok(thread) => sweep_threads.threads.push_reserved(thread),
                Err(fault) => {
                    sweep_threads.stop_early(rt);
                    return Err(fault);
                }
            }
        }
        Ok(sweep_threads)
    }

    /// Shows how many jobs are finished, whenever a thread has notified the signal, until all
    /// threads have ended.
    pub(crate) fn watch<R: Wait, E: Sink>(&mut self, rt: &R, meter: &mut ProgressMeter, err: &mut E)
        requires { AreSweepThreads self.old }
        ensures sweep_threads { AreSweepThreads self.new }
        ensures task { self.new.task ≡ self.old.task }
        ensures threads { self.new.threads ≡ self.old.threads }
        ensures count { meter.new.count ≡ meter.old.count }
        ensures shown { (start : SinkState) →
            HasShown meter.old start (stream (E.taken err.old) (E.failures err.old)) →
            HasShown meter.new start (stream (E.taken err.new) (E.failures err.new)) }
    {
        let SweepTask {
            board,
            jobs: _,
            output: _,
            signal,
        } = self.task;
        let threads = self.threads.len() as u64;
        for _ in rt.forever() {
            let (notifications, ended) = signal.counts();
            show_progress(board, &mut self.seat, meter, err);
            if ended >= threads {
                break;
            }
            signal.wait(rt, notifications);
            thread::yield_now();
        }
    }

    /// Does jobs too until none is left, and joins the threads. The result is those of all seats
    /// together.
    pub(crate) fn finish<R: Threads + Wait>(
        self,
        rt: &R,
        alloc: Global,
    ) -> Result<SeatResults, AllocError>
        requires { AreSweepThreads self }
        ensures { IfOk result (AreWholeResults self.entry.task.output.now self.entry.task.board.now
            self.entry.task.jobs.now (length self.entry.threads.items + 1)) }
    {
        let SweepThreads {
            task,
            seat,
            threads,
        } = self;
        let gate = OutputGate::new(task.output);
        let (seat, results) = work(rt, alloc, task.board, seat, task.jobs, &gate);
        let Ok(results) = results else {
            let sweep_threads = SweepThreads {
                task,
                seat,
                threads,
            };
            sweep_threads.stop_early(rt);
            return Err(AllocError);
        };
        join_all(rt, alloc, task, SeatResults { seat, results }, threads)
    }

    /// Draws the jobs that are left, so that each thread ends after the job that it has begun, and
    /// joins the threads.
    fn stop_early<R: Threads>(self, rt: &R)
        requires { self.seat.board ≡ self.task.board.now.id }
    {
        let SweepThreads {
            task,
            mut seat,
            threads,
        } = self;
        for _ in 0..task.jobs.len() {
            if task.board.draw(&mut seat).is_none() {
                break;
            }
        }
        for thread in threads {
            let _ = thread.join(rt);
        }
    }
}

/// Splits one place off a seat of several: the rest, and the one.
fn split_off(board: &Board, seat: Seat) -> (Seat, Seat)
    requires board { seat.board ≡ board.now.id }
    requires places { 2 ≤ seat.view.places }
    ensures rest { (n : ℕ) → IsFresh board.now (n + 1) seat → IsFresh board.now n result.0 }
    ensures one { (n : ℕ) → IsFresh board.now n seat → IsFresh board.now 1 result.1 }
{
    match board.split(seat) {
        Ok(seats) => seats,
        Err(_) => unreachable!(),
    }
}

/// Starts a thread that takes part with this seat. `NoThread` says that it couldn't be started.
fn start_thread<'a, S, R: Threads + Wait + Sync>(
    scope: &Scope<'a, S>,
    rt: &'a R,
    alloc: Global,
    task: SweepTask<'a>,
    seat: Seat,
) -> Result<Thread<'a>, SweepFault>
    requires task { IsSweepTask task }
    requires fresh { IsFresh task.board.now 1 seat }
    ensures part { IfOk result (λ thread. thread.promise ≡ task.entry) }
    ensures refused { IfErr result (λ f. f ≡ NoThread) }
{
    let SweepTask {
        board,
        jobs,
        output,
        signal,
    } = task;
    let part = move || -> Result<SeatResults, Seat>
        requires task { board.now.limits.limit ≡ length jobs.now }
        requires fresh { IsFresh board.now 1 seat }
        ensures { HasTakenPart output.entry.now board.entry.now jobs.entry.now result }
    {
        SweepTask {
            board,
            jobs,
            output,
            signal,
        }
        .take_part(rt, alloc, seat)
    };
    match scope.spawn_with(task, part) {
        Ok(thread) => Ok(thread),
        Err(_) => Err(SweepFault::NoThread),
    }
}

/// Reads from the board how many jobs are finished, and shows it.
fn show_progress<E: Sink>(board: &Board, seat: &mut Seat, meter: &mut ProgressMeter, err: &mut E)
    requires { seat.old.board ≡ board.now.id }
    ensures board { seat.new.board ≡ seat.old.board }
    ensures read { HasRead seat.old.view seat.new.view }
    ensures count { meter.new.count ≡ meter.old.count }
    ensures last { meter.new.last ≡ max meter.old.last (min seat.new.view.seen meter.old.count) }
    ensures shown { (start : SinkState) →
        HasShown meter.old start (stream (E.taken err.old) (E.failures err.old)) →
        HasShown meter.new start (stream (E.taken err.new) (E.failures err.new)) }
{
    meter.show(board.progress(seat), err);
}

/// Joins the threads. The results of their seats and of the caller's become those of one seat.
fn join_all<'a, R: Threads>(
    rt: &R,
    alloc: Global,
    task: SweepTask<'a>,
    own: SeatResults,
    threads: Vec<Thread<'a>>,
) -> Result<SeatResults, AllocError>
    requires own { AreWholeResults task.output.now task.board.now task.jobs.now 1 own }
    requires parts { All (λ thread. thread.promise ≡ task) threads.items }
    ensures { IfOk result (AreWholeResults task.entry.output.now task.entry.board.now
        task.entry.jobs.now (length threads.entry.items + 1)) }
{
    let mut all = Ok(own);
    for thread in threads {
        let seat_results = results_given(alloc, thread.join(rt));
        all = match all {
            Ok(all) => join_seat_results(task.board, all, seat_results),
            Err(refused) => Err(refused),
        };
    }
    all
}
