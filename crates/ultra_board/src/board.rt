//! The board, and what a seat can do there.
ghost use Rattle.std.specs.Prelude.{◌≡◌, ℕ, ◌+◌, ◌-◌, ◌<◌, ◌≤◌, ◌⊎◌, ◌↔◌, ◌++◌, [], ◌∷◌, true, false, min, length, Contains, IfOk, IfErr, OnOk, IsErr, IsErrOf, IfSome, OnSome, IfNone};
ghost use Rattle.std.specs.Bool.{OnTrue, OnFalse};
ghost use Rattle.ultra_board.specs.View.{first_view, second_view, view_after_join, times, times_below, spent_places};
ghost use Rattle.ultra_board.specs.Rule.{IsWithinLimits};

use crate::rule::Limits;
use crate::seat::Seat;
use crate::words::{BoardWords, Totals};
use crate::{MOST_NUMBERS, MOST_PASSES, MOST_SEATS};
use std::alloc::{AllocError, Global};
use std::marker::{Brand, Model};

/// Why there is no such board, or no second seat.
#[derive(Clone, Copy, PartialEq, Eq, Debug, Drop)]
pub enum BoardFault {
    /// The memory for the words was refused.
    NoMemory,
    /// There are more than 1,000,000 numbers, or the bound or the seats aren't from 1 to 64; or the
    /// seat has one place, which can't be split.
    BadLimit,
}

impl From<AllocError> for BoardFault {
    ghost use Rattle.ultra_board.specs.declared.board.BoardFault.TheVariants.{NoMemory};

    ghost from_gives = { λ _ fault. fault ≡ NoMemory };

    fn from(_: AllocError) -> BoardFault {
        BoardFault::NoMemory
    }
}

/// A board of three words, on which the seats step (this project's profile). Threads share it by
/// reference.
///
/// Contracts see which board it is, and what it was opened with.
#[derive(Drop)]
pub struct Board {
    words: BoardWords,
}

impl Model for Board {
    ghost use Rattle.ultra_board.specs.Seat.{BoardState};

    ghost Value = { BoardState };

    ghost view = { λ b. b.words };
}

impl Board {
    /// A board of the numbers below `limit`, and its first seat. `limit` is at most 1,000,000.
    /// `bound`, from 1 to 64, is the maximum number of passes held at once. The seat counts for
    /// `seats` places, from 1 to 64.
    ///
    /// `BadLimit` is found before memory is asked for. `NoMemory` comes only where the memory for
    /// the words was refused.
    pub fn open(
        alloc: Global,
        limit: u64,
        bound: u64,
        seats: u64,
    ) -> Result<(Board, Seat), BoardFault>
        ensures board { IfOk result (λ b.
            b.0.limits ≡ record { limit = limit; bound = bound; seats = seats }) }
        ensures seat { IfOk result (λ b. (b.1.board ≡ b.0.id) ×
            (b.1.view ≡ first_view b.0.limits)) }
        ensures within { OnOk result
            (IsWithinLimits record { limit = limit; bound = bound; seats = seats }) }
        ensures bad_limit { IsErrOf result BoardFault.BadLimit ↔ ((MOST_NUMBERS < limit) ⊎
            ((bound < 1) ⊎ (MOST_PASSES < bound)) ⊎ ((seats < 1) ⊎ (MOST_SEATS < seats))) }
    {
        if limit > MOST_NUMBERS || bound < 1 || bound > MOST_PASSES {
            return Err(BoardFault::BadLimit);
        }
        if seats < 1 || seats > MOST_SEATS {
            return Err(BoardFault::BadLimit);
        }
        let limits = Limits {
            limit,
            bound,
            seats,
        };
        let (words, token) = BoardWords::open(alloc, &limits)?;
        let seat = Seat {
            token,
            limit,
            bound,
            places: seats,
            spent: false,
        };
        Ok((Board { words }, seat))
    }

    /// Splits a seat of this board in two: the second has one place and nothing else, the first
    /// keeps the rest. A spent seat makes two spent ones.
    ///
    /// A seat with one place comes back as it was, with `BadLimit`. No memory is taken.
    pub fn split(&self, seat: Seat) -> Result<(Seat, Seat), (Seat, BoardFault)>
        requires { seat.board ≡ self.now.id }
        ensures first { IfOk result (λ s.
            s.0 ≡ record seat { view = record seat.view { places = seat.view.places - 1 } }) }
        ensures second { IfOk result (λ s. s.1 ≡ record seat { view = second_view seat.view }) }
        ensures refused { IfErr result (λ e. (e.0 ≡ seat) × (e.1 ≡ BoardFault.BadLimit)) }
        ensures one_place { IsErr result ↔ (seat.view.places ≡ 1) }
        ensures more_places { OnOk result (2 ≤ seat.view.places) }
    {
        if seat.places < 2 {
            return Err((seat, BoardFault::BadLimit));
        }
        let Seat {
            mut token,
            limit,
            bound,
            places,
            spent,
        } = seat;
        let other = self.words.split(&mut token);
        let first = Seat {
            token,
            limit,
            bound,
            places: places - 1,
            spent,
        };
        let second = Seat {
            token: other,
            limit,
            bound,
            places: 1,
            spent,
        };
        Ok((first, second))
    }

    /// Joins two seats of this board to one that knows and has what both did. It is spent if either
    /// was. No number was drawn by both, or twice by one.
    pub fn join(&self, seat: Seat, other: Seat) -> Seat
        requires seat { seat.board ≡ self.now.id }
        requires other { other.board ≡ self.now.id }
        ensures joined { result ≡ record seat { view = view_after_join seat.view other.view } }
        ensures once { (i : ℕ) → times i (seat.view.drawn ++ other.view.drawn) ≤ 1 }
    {
        let Seat {
            mut token,
            limit,
            bound,
            places,
            spent,
        } = seat;
        let Seat {
            token: other_token,
            limit: _,
            bound: _,
            places: other_places,
            spent: other_spent,
        } = other;
        self.words.join(&mut token, other_token);
        self.words.load_claim(&mut token);
        Seat {
            token,
            limit,
            bound,
            places: places + other_places,
            spent: spent || other_spent,
        }
    }

    /// Draws the next number, which no seat of this board has drawn before. `None` says that no
    /// number was left, and from then on this seat is spent: it answers `None` without a step.
    pub fn draw(&self, seat: &mut Seat) -> Option<u64>
        requires { seat.old.board ≡ self.now.id }
        ensures number { IfSome result (λ i. seat.new ≡
            record seat.old {
              view = record seat.old.view {
                drawn = seat.old.view.drawn ++ i ∷ [];
                claims = seat.old.view.claims + 1;
              };
            }) }
        ensures below { IfSome result (λ i. i < seat.old.view.limit) }
        ensures fresh { IfSome result (λ i. ¬ Contains seat.old.view.drawn i) }
        ensures drawn { IfSome result (λ i. Contains seat.new.view.drawn i) }
        ensures unfinished { IfSome result (λ i. ¬ Contains seat.new.view.finished i) }
        ensures unspent { OnSome result (seat.old.view.spent ≡ false) }
        ensures none { IfNone result (seat.new ≡ record seat.old {
          view = record seat.old.view { spent = true; claims = seat.new.view.claims };
        }) }
        ensures asked { IfNone result (seat.old.view.spent ≡ false →
            seat.new.view.claims ≡ seat.old.view.claims + 1) }
        ensures no_step { seat.old.view.spent ≡ true → seat.new ≡ seat.old }
    {
        if seat.spent {
            return None;
        }
        let number = self.words.add_to_claim(&mut seat.token);
        if number < seat.limit {
            Some(number)
        } else {
            seat.spent = true;
            None
        }
    }

    /// Finishes a number, which this seat drew and hasn't finished. The count of all numbers
    /// finished grows by one.
    pub fn finish(&self, seat: &mut Seat, number: u64)
        requires board { seat.old.board ≡ self.now.id }
        requires drawn { Contains seat.old.view.drawn number }
        requires unfinished { ¬ Contains seat.old.view.finished number }
        ensures finished { seat.new ≡ record seat.old {
          view = record seat.old.view {
            finished = seat.old.view.finished ++ number ∷ [];
            seen = seat.new.view.seen;
          };
        } }
        ensures counted { seat.old.view.seen < seat.new.view.seen }
        ensures own { length seat.new.view.finished ≤ seat.new.view.seen }
    {
        self.words.add_to_done::<Brand>(&mut seat.token, number);
    }

    /// How many numbers all seats of this board have finished, at one moment of this call: no fewer
    /// than this seat found before, and no fewer than it finished itself.
    pub fn progress(&self, seat: &mut Seat) -> u64
        requires { seat.old.board ≡ self.now.id }
        ensures seen { seat.new ≡ record seat.old {
          view = record seat.old.view { seen = result; reads = seat.old.view.reads + 1 };
        } }
        ensures later { seat.old.view.seen ≤ result }
        ensures own { length seat.old.view.finished ≤ result }
    {
        self.words.load_done(&mut seat.token)
    }

    /// Tries to take a pass, by a test, an increment and a retest, and says whether it did. The
    /// seat holds none yet.
    ///
    /// It loads the passes once and adds to them at most once. Where it takes none, it has found
    /// the passes at or above the bound, and nothing that it did is left.
    pub fn try_enter(&self, seat: &mut Seat) -> bool
        requires board { seat.old.board ≡ self.now.id }
        requires no_pass { seat.old.view.held ≡ 0 }
        ensures entered { OnTrue result (seat.new ≡
            record seat.old {
              view = record seat.old.view {
                held = seat.old.view.held + 1;
                loads = seat.old.view.loads + 1;
                adds = seat.old.view.adds + 1;
              };
            }) }
        ensures refused { OnFalse result (seat.new ≡
            record seat.old {
              view = record seat.old.view {
                full = seat.old.view.full + 1;
                loads = seat.old.view.loads + 1;
                adds = seat.new.view.adds;
              };
            }) }
        ensures one_add { seat.new.view.adds ≤ seat.old.view.adds + 1 }
    {
        if self.words.load_passes(&mut seat.token) >= seat.bound {
            return false;
        }
        if self.words.add_to_passes(&mut seat.token) < seat.bound {
            return true;
        }
        self.words.subtract_from_passes(&mut seat.token);
        false
    }

    /// Gives a pass back. The seat holds one at least.
    pub fn leave(&self, seat: &mut Seat)
        requires board { seat.old.board ≡ self.now.id }
        requires pass { 0 < seat.old.view.held }
        ensures { seat.new ≡
            record seat.old { view = record seat.old.view { held = seat.old.view.held - 1 } } }
    {
        self.words.subtract_from_passes(&mut seat.token)
    }

    /// Closes the board, by the seat that has all its places, and gives the values of its words.
    pub fn close(self, seat: Seat) -> Totals
        requires board { seat.board ≡ self.id }
        requires all { seat.view.places ≡ self.limits.seats }
        ensures asked { result.claimed ≡ seat.view.claims }
        ensures claimed { min result.claimed seat.view.limit ≡ length seat.view.drawn }
        ensures spent { seat.view.spent ≡ true → seat.view.limit ≤ result.claimed }
        ensures most_claimed { result.claimed ≤ seat.view.limit + spent_places seat.view }
        ensures each_once { (i : ℕ) →
            times i seat.view.drawn ≡ times_below i (length seat.view.drawn) }
        ensures finished { result.finished ≡ length seat.view.finished }
        ensures finished_once { (i : ℕ) → times i seat.view.finished ≤ times i seat.view.drawn }
        ensures passes { result.passes ≡ seat.view.held }
        ensures bounded { seat.view.held ≤ seat.view.bound }
    {
        let Board { words } = self;
        let Seat {
            token,
            limit: _,
            bound: _,
            places: _,
            spent: _,
        } = seat;
        words.close(token)
    }
}
