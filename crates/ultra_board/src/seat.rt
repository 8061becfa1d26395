//! A seat at a board.

use crate::words::Token;
use std::marker::Model;

/// A seat at a board, with which one thread draws numbers, finishes them and takes passes. It may
/// go to another thread.
///
/// It counts for 1 to 64 places. Contracts see which board it is of and what it knows (`View`). A
/// seat that is joined to another or that closes its board is used up. One that is dropped keeps
/// its numbers, its passes and its places.
#[derive(Drop)]
pub struct Seat {
    pub(crate) token: Token,
    pub(crate) limit: u64,
    pub(crate) bound: u64,
    pub(crate) places: u64,
    pub(crate) spent: bool,
}

impl Model for Seat {
    ghost use Rattle.ultra_board.specs.Seat.{SeatState, IsSeat};

    ghost Value = { SeatState };

    ghost view = { λ s. record { board = s.token.table_id; view = s.token.me.0 } };

    ghost invariant = { λ s. IsSeat s.limit s.bound s.places s.spent s.token.me };
}
