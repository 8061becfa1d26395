//! The worked runs of a board, by one thread and by several.

ghost use Rattle.std.specs.Prelude.{◌≡◌, ◌-◌, Contains, IfOk};
ghost use Rattle.ultra_board.specs.View.{first_view, second_view};

use crate::equal::{check_equal, check_equal_for};
use std::process::Abort;
use std::test::Fail;
use std::thread;
use ultra_board::{Board, BoardFault, Seat, Totals};

/// Splits a seat of more than one place.
pub(crate) fn split<R: Abort>(rt: &R, board: &Board, seat: Seat) -> (Seat, Seat)
    requires { seat.board ≡ board.now.id }
    ensures first { result.0 ≡
        record seat { view = record seat.view { places = seat.view.places - 1 } } }
    ensures second { result.1 ≡ record seat { view = second_view seat.view } }
{
    match board.split(seat) {
        Ok(seats) => seats,
        Err(_) => panic!(rt; "a seat of several places was not split"),
    }
}

/// A board of three numbers and one pass, with two seats of one place each.
fn board_of_two<R: Abort + AllocGlobal>(rt: &R) -> Result<(Board, Seat, Seat), BoardFault>
    ensures seats { IfOk result (λ b. b.0.limits.seats ≡ 2) }
    ensures first { IfOk result (λ b.
        b.1 ≡ record { board = b.0.id; view = record (first_view b.0.limits) { places = 1 } }) }
    ensures second { IfOk result (λ b.
        b.2 ≡ record { board = b.0.id; view = second_view (first_view b.0.limits) }) }
{
    let (board, seat) = Board::open(rt.alloc(), 3, 1, 2)?;
    let (first, second) = split(rt, &board, seat);
    Ok((board, first, second))
}

/// Closes a board by the seat that has all its places, and asserts what its words are.
fn check_totals<R: Abort>(rt: &R, board: Board, seat: Seat, totals: Totals)
    requires board { seat.board ≡ board.id }
    requires all { seat.view.places ≡ board.limits.seats }
{
    check_equal(rt, board.close(seat), totals);
}

/// Draws until no number is left, and finishes each number at once.
fn draw_all(board: &Board, mut seat: Seat) -> Seat
    requires board { seat.board ≡ board.now.id }
    requires finished { seat.view.finished ≡ seat.view.drawn }
    ensures board { result.board ≡ seat.board }
    ensures places { result.view.places ≡ seat.view.places }
    ensures finished { result.view.finished ≡ result.view.drawn }
{
    for _ in 0..u64::MAX {
        let Some(number) = board.draw(&mut seat) else {
            break;
        };
        board.finish(&mut seat, number);
    }
    seat
}

/// The first seat of three places splits off two, which two threads draw with. Whatever the
/// schedule, each number is finished once, and two asks found none left.
#[test]
fn two_threads_draw_all(rt: HostRuntime) -> Result<(), Fail> {
    let (board, first) = Board::open(rt.alloc(), 1000, 1, 3)?;
    let (first, second) = split(&rt, &board, first);
    let (first, third) = split(&rt, &board, first);
    let (second, third) = thread::join(
        &rt,
        || draw_all(&board, second),
        || draw_all(&board, third),
    );
    let seat = board.join(board.join(first, second), third);
    let totals = Totals {
        claimed: 1002,
        finished: 1000,
        passes: 0,
    };
    check_totals(&rt, board, seat, totals);
    Ok(())
}

/// Limits with which no board can be opened: the numbers, the passes and the seats.
const BAD_LIMITS: [(u64, u64, u64); 5] = [
    (1_000_001, 1, 1),
    (1, 0, 1),
    (1, 65, 1),
    (1, 1, 0),
    (1, 1, 65),
];

#[test]
fn bad_limits(rt: HostRuntime) -> Result<(), Fail> {
    for (limit, bound, seats) in BAD_LIMITS {
        let fault = Board::open(rt.alloc(), limit, bound, seats).err();
        check_equal_for(
            &rt,
            fault,
            Some(BoardFault::BadLimit),
            format_args!("at {limit}, {bound}, {seats}"),
        );
    }
    Ok(())
}

#[test]
fn one_place_is_not_split(rt: HostRuntime) -> Result<(), Fail> {
    let (board, seat) = Board::open(rt.alloc(), 1_000_000, 64, 1)?;
    let Err((seat, fault)) = board.split(seat) else {
        panic!(rt; "a seat of one place was split")
    };
    check_equal(&rt, fault, BoardFault::BadLimit);
    let totals = Totals {
        claimed: 0,
        finished: 0,
        passes: 0,
    };
    check_totals(&rt, board, seat, totals);
    Ok(())
}

/// On a board without numbers the first draw finds none.
#[test]
fn no_numbers(rt: HostRuntime) -> Result<(), Fail> {
    let (board, mut seat) = Board::open(rt.alloc(), 0, 1, 1)?;
    check_equal(&rt, draw(&board, &mut seat), None);
    let totals = Totals {
        claimed: 1,
        finished: 0,
        passes: 0,
    };
    check_totals(&rt, board, seat, totals);
    Ok(())
}

/// Asks for a number, whichever it is.
fn draw(board: &Board, seat: &mut Seat) -> Option<u64>
    requires { seat.old.board ≡ board.now.id }
    ensures board { seat.new.board ≡ seat.old.board }
    ensures places { seat.new.view.places ≡ seat.old.view.places }
{
    board.draw(seat)
}

/// Two seats draw three numbers in turn. Both then ask once past the end; the spent one asks no
/// more.
#[test]
fn board_basics(rt: HostRuntime) -> Result<(), Fail> {
    let (board, mut a, mut b) = board_of_two(&rt)?;
    let drawn = [
        draw(&board, &mut a),
        draw(&board, &mut b),
        draw(&board, &mut a),
        draw(&board, &mut a),
        draw(&board, &mut a),
        draw(&board, &mut b),
    ];
    check_equal(&rt, drawn, [Some(0), Some(1), Some(2), None, None, None]);
    let totals = Totals {
        claimed: 5,
        finished: 0,
        passes: 0,
    };
    let seat = board.join(a, b);
    check_totals(&rt, board, seat, totals);
    Ok(())
}

/// One pass goes from one seat to the other.
#[test]
fn passes_in_turn(rt: HostRuntime) -> Result<(), Fail> {
    let (board, mut a, mut b) = board_of_two(&rt)?;
    assert!(rt; board.try_enter(&mut a));
    assert!(rt; !board.try_enter(&mut b));
    board.leave(&mut a);
    assert!(rt; board.try_enter(&mut b));
    let totals = Totals {
        claimed: 0,
        finished: 0,
        passes: 1,
    };
    let seat = board.join(a, b);
    check_totals(&rt, board, seat, totals);
    Ok(())
}

/// Draws a number where some are left, and asserts which it is.
fn draw_number<R: Abort>(rt: &R, board: &Board, seat: &mut Seat, wanted: u64) -> u64
    requires { seat.old.board ≡ board.now.id }
    ensures board { seat.new.board ≡ seat.old.board }
    ensures drawn { Contains seat.new.view.drawn result }
    ensures unfinished { ¬ Contains seat.new.view.finished result }
{
    let number = board.draw(seat).expect(rt, "no number was left");
    check_equal(rt, number, wanted);
    number
}

/// Each seat sees what the other has finished.
#[test]
fn progress_reads(rt: HostRuntime) -> Result<(), Fail> {
    let (board, mut a, mut b) = board_of_two(&rt)?;
    let first = draw_number(&rt, &board, &mut a, 0);
    let second = draw_number(&rt, &board, &mut b, 1);
    board.finish(&mut b, second);
    check_equal(&rt, board.progress(&mut a), 1);
    board.finish(&mut a, first);
    check_equal(&rt, board.progress(&mut b), 2);
    Ok(())
}
