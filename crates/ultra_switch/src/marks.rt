//! Marks of the requests that have combined in a queue.

ghost use Rattle.std.specs.Prelude.{◌≡◌, ◌≢◌, ℕ, suc, ◌^◌, ◌<◌, true, false};
ghost use Rattle.ultra_switch.specs.{Marks.has_mark, declared.TheConstants.MOST_REQUEST_PLACES};

use std::marker::Model;

/// Which requests of a queue have combined there: bit i of the word is the mark of the request at
/// place i, counted from the front.
#[derive(Clone, Copy, Drop)]
pub(crate) struct Marks {
    word: u32,
}

impl Model for Marks {
    ghost Value = { ℕ };

    ghost view = { λ m. m.word };

    ghost invariant = { λ m. m.word < 2 ^ 32 };

    ghost inverse = { λ word. record { word = word } };
}

impl Marks {
    /// No request is marked.
    pub(crate) fn none() -> Marks
        ensures { (place : ℕ) → has_mark result place ≡ false }
    {
        Marks { word: 0 }
    }

    /// Whether the request at this place is marked.
    pub(crate) fn has(self, place: usize) -> bool
        requires { place < MOST_REQUEST_PLACES }
        ensures { result ≡ has_mark self place }
    {
        (self.word >> place) % 2 == 1
    }

    /// These marks, and that of the request at this place.
    pub(crate) fn with(self, place: usize) -> Marks
        requires { place < MOST_REQUEST_PLACES }
        ensures here { has_mark result place ≡ true }
        ensures others { (other : ℕ) → other ≢ place → has_mark result other ≡ has_mark self other }
    {
        Marks {
            word: self.word | (1 << place),
        }
    }

    /// The marks after the request at the front has left: each moves forward by one place.
    pub(crate) fn moved(self) -> Marks
        ensures { (place : ℕ) → has_mark result place ≡ has_mark self (suc place) }
    {
        Marks {
            word: self.word >> 1,
        }
    }
}
