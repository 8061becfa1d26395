//! The work of one thread: jobs are drawn from the board, run under a pass and finished.

ghost use Rattle.std.specs.Prelude.{◌≡◌, ◌<◌, ◌++◌, [], ◌∷◌, length, Contains, IfOk, OnErr};
ghost use Rattle.ultra_sweep.specs.{Job.IsResultOf, Work.{HasWorked, HasEntered, HasDone}};

use crate::job::{Job, JobGate, JobResult};
use std::alloc::Global;
use std::sync::Wait;
use std::thread;
use ultra_board::{Board, Seat};

/// Why no job was drawn.
#[derive(Clone, Copy, PartialEq, Eq, Debug, Drop)]
pub enum WorkFault {
    /// The memory for the results was refused.
    NoMemory,
}

/// Draws jobs from the board until none is left, runs each under a pass, and finishes it. There is
/// one result for each job drawn, in their order.
///
/// The memory for all results is asked for first: `NoMemory` comes before any draw, and the seat is
/// then as it was. The call waits for each pass by trying again, so it may never return where
/// others keep all passes.
///
/// The seat has to be one of this board and to hold no pass. The limit of the board has to be the
/// number of jobs.
pub fn work<R: Wait, G: JobGate>(
    rt: &R,
    alloc: Global,
    board: &Board,
    mut seat: Seat,
    jobs: &[Job],
    gate: &G,
) -> (Seat, Result<Vec<JobResult>, WorkFault>)
    requires board { seat.board ≡ board.now.id }
    requires no_pass { seat.view.held ≡ 0 }
    requires jobs { seat.view.limit ≡ length jobs.now }
    ensures board { result.0.board ≡ seat.board }
    ensures ok { IfOk result.1 (λ results.
        HasWorked (G.text gate.now) jobs.now seat.view result.0.view results.items) }
    ensures err { OnErr result.1 (result.0 ≡ seat) }
{
    let mut results = match Vec::with_capacity(alloc, jobs.len()) {
        Ok(results) => results,
        Err(_) => return (seat, Err(WorkFault::NoMemory)),
    };
    while let Some(number) = board.draw(&mut seat) {
        let job = &jobs[number as usize];
        let result = do_job(rt, alloc, board, &mut seat, number, job, gate);
        results.push_reserved(result);
    }
    (seat, Ok(results))
}

/// Does a job that the seat has drawn: waits for a pass, has the job run, gives the pass back, and
/// finishes the job.
fn do_job<R: Wait, G: JobGate>(
    rt: &R,
    alloc: Global,
    board: &Board,
    seat: &mut Seat,
    number: u64,
    job: &Job,
    gate: &G,
) -> JobResult
    requires board { seat.old.board ≡ board.now.id }
    requires no_pass { seat.old.view.held ≡ 0 }
    requires drawn { Contains seat.old.view.drawn number }
    requires unfinished { ¬ Contains seat.old.view.finished number }
    ensures board { seat.new.board ≡ seat.old.board }
    ensures done { HasDone number seat.old.view seat.new.view }
    ensures result { IsResultOf (G.text gate.now) number job.now result }
{
    enter(rt, board, seat);
    let result = gate.run(rt, alloc, seat, number, job);
    board.leave(seat);
    board.finish(seat, number);
    result
}

/// Takes a pass. Where none is free it tries again, so it may wait forever.
fn enter<R: Wait>(rt: &R, board: &Board, seat: &mut Seat)
    requires board { seat.old.board ≡ board.now.id }
    requires no_pass { seat.old.view.held ≡ 0 }
    ensures board { seat.new.board ≡ seat.old.board }
    ensures entered { HasEntered seat.old.view seat.new.view }
{
    for _ in rt.forever() {
        if board.try_enter(seat) {
            break;
        }
        thread::yield_now();
    }
}
