//! A board from which many threads of the host draw jobs, without a lock.
//!
//! The board has three words. Claim counts the draws that asked it for a number, and is the next
//! number to draw where it is below the limit. Done counts the numbers finished. Passes counts the
//! passes held and the tries for one. Each thread acts on them through its own seat, by single
//! atomic steps. Seats are split and joined. One rule holds between any two steps of all threads:
//! `BoardRule`. By it each number below the limit is drawn at most once, and those below
//! `min(claim, limit)` are drawn once. The numbers finished are counted, and no more passes are
//! held than the bound allows.
//!
//! No contract says which seat draws what, in which order seats step, or whether a pass is ever
//! free.
#![tactic(auto)]

mod board;
mod rule;
mod seat;
mod words;

pub use board::{Board, BoardFault};
pub use rule::{BoardRule, Limits, View};
pub use seat::Seat;
pub use words::Totals;

/// The most numbers that a board can have.
pub const MOST_NUMBERS: u64 = 1_000_000;

/// The most passes that a board can let be held at once.
pub const MOST_PASSES: u64 = 64;

/// The most seats that a board can have.
pub const MOST_SEATS: u64 = 64;
