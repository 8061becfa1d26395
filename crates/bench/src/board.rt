//! Draws all numbers of a board by 1, 2 or 4 threads, round after round, and prints how often a
//! number was asked for. A round asks once for each number, and each thread asks once more.
//!
//! The arguments are the number of threads and the number of rounds.

ghost use Rattle.std.specs.Prelude.{◌≡◌, ◌+◌};

use anyhow::bail;
use std::thread::{Threads, join};
use ultra_board::{Board, MOST_NUMBERS, Seat};

/// Draws until no number is left.
fn draw_alone(board: &Board, mut seat: Seat) -> Seat
    requires { seat.board ≡ board.now.id }
    ensures board { result.board ≡ seat.board }
    ensures places { result.view.places ≡ seat.view.places }
{
    for _ in 0..u64::MAX {
        if board.draw(&mut seat).is_none() {
            break;
        }
    }
    seat
}

/// The same by two threads.
fn draw_by_two<R: Threads>(rt: &R, board: &Board, first: Seat, second: Seat) -> Seat
    requires first { first.board ≡ board.now.id }
    requires second { second.board ≡ board.now.id }
    ensures board { result.board ≡ first.board }
    ensures places { result.view.places ≡ first.view.places + second.view.places }
{
    let (first, second) = join(
        rt,
        || draw_alone(board, first),
        || draw_alone(board, second),
    );
    board.join(first, second)
}

/// The same by 1, 2 or 4 threads, as many as the seat has places for.
fn draw_by_places<R: Threads + Sync>(rt: &R, board: &Board, seat: Seat) -> Seat
    requires { seat.board ≡ board.now.id }
    ensures board { result.board ≡ seat.board }
    ensures places { result.view.places ≡ seat.view.places }
{
    let (a, b) = match board.split(seat) {
        Ok(seats) => seats,
        Err((seat, _)) => return draw_alone(board, seat),
    };
    let (a, c) = match board.split(a) {
        Ok(seats) => seats,
        Err((a, _)) => return draw_by_two(rt, board, a, b),
    };
    let (a, d) = match board.split(a) {
        Ok(seats) => seats,
        Err((a, _)) => return draw_by_two(rt, board, board.join(a, b), c),
    };
    let (left, right) = join(
        rt,
        || draw_by_two(rt, board, a, b),
        || draw_by_two(rt, board, c, d),
    );
    board.join(left, right)
}

/// Draws all numbers, in as many rounds as the arguments ask for.
pub(crate) fn measure<R: AllocGlobal + Print + Threads + Sync>(
    rt: &R,
    words: &[String],
) -> anyhow::Result<()> {
    let [threads, rounds] = words else {
        bail!("two words are wanted: threads and rounds");
    };
    let (Ok(threads), Ok(rounds)) = (
        threads.as_str().parse::<u64>(),
        rounds.as_str().parse::<u64>(),
    ) else {
        bail!("threads and rounds are numbers");
    };
    let mut asked = 0u64;
    for _ in 0..rounds {
        let Ok((board, seat)) = Board::open(rt.alloc(), MOST_NUMBERS, 1, threads) else {
            bail!("there is no board for {threads} threads");
        };
        let seat = draw_by_places(rt, &board, seat);
        asked = asked.saturating_add(board.close(seat).claimed);
    }
    println!(rt; "{threads} threads asked {asked} times")?;
    Ok(())
}
