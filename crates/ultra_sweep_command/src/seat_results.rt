//! What a thread of a sweep gives back.

ghost use Rattle.std.specs.Prelude.{◌≡◌, ℕ, ◌+◌, List, IfOk};
ghost use Rattle.ultra_args.specs.declared.sweep_output.SweepOutput.{SweepOutput};
ghost use Rattle.ultra_sweep.specs.declared.job.Job.{Job};
ghost use Rattle.ultra_board.specs.Seat.{BoardState};
ghost use Rattle.ultra_sweep_command.specs.SeatResults.{AreSeatResults, AreWholeResults, HasTakenPart};

use std::alloc::{AllocError, Global};
use ultra_board::{Board, Seat};
use ultra_sweep::JobResult;

/// A seat, and the results of the jobs that it has drawn.
#[derive(Drop)]
pub struct SeatResults {
    /// The seat.
    pub seat: Seat,
    /// A result for each job drawn.
    pub results: Vec<JobResult>,
}

/// The results that a thread gives back. One that gives its seat back alone has none.
pub(crate) fn results_given(alloc: Global, given: Result<SeatResults, Seat>) -> SeatResults
    ensures { (output : SweepOutput) (board : BoardState) (jobs : List Job) →
        HasTakenPart output board jobs given → AreSeatResults output board jobs 1 result }
{
    match given {
        Ok(seat_results) => seat_results,
        Err(seat) => SeatResults {
            seat,
            results: Vec::new(alloc),
        },
    }
}

/// The results of two seats as those of one, unless memory is refused. The first seat is spent.
pub(crate) fn join_seat_results(
    board: &Board,
    seat_results: SeatResults,
    mut other: SeatResults,
) -> Result<SeatResults, AllocError>
    requires seat_results { seat_results.seat.board ≡ board.now.id }
    requires other { other.seat.board ≡ board.now.id }
    ensures { IfOk result (λ all. (output : SweepOutput) (jobs : List Job) (n : ℕ) →
        AreWholeResults output board.now jobs n seat_results →
        AreSeatResults output board.now jobs 1 other →
        AreWholeResults output board.now jobs (n + 1) all) }
{
    let SeatResults { seat, mut results } = seat_results;
    results.append(&mut other.results)?;
    Ok(SeatResults {
        seat: board.join(seat, other.seat),
        results,
    })
}
