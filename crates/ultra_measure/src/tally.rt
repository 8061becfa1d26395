//! A number for each processing element, and their sum.

ghost use Rattle.std.specs.Prelude.{◌≡◌, ◌≢◌, ℕ, ◌<◌, ◌≤◌, ◌*◌, ◌^◌, slice_index};
ghost use Rattle.ultra_model.specs.Balance.{total};

use std::marker::Model;

/// The most processing elements of a machine.
const MOST_ELEMENTS: usize = 64;

/// A number for each processing element, and their sum.
#[derive(Drop)]
pub(crate) struct Tally {
    values: [u32; MOST_ELEMENTS],
    sum: u32,
}

impl Model for Tally {
    ghost use Rattle.std.specs.Prelude.{ℕ, List};
    ghost use Rattle.ultra_measure.specs.Tally.{IsAdded};

    ghost Value = { List ℕ };

    ghost view = { λ t. t.values };

    ghost invariant = { λ t. IsAdded t.values t.sum };
}

impl Tally {
    /// Each number is 0.
    pub(crate) fn new() -> Tally
        ensures { (k : ℕ) → slice_index result k ≡ 0 }
    {
        Tally {
            values: [0; MOST_ELEMENTS],
            sum: 0,
        }
    }

    /// Sets the number of a processing element.
    #[inline(always)]
    pub(crate) fn set(&mut self, pe: u32, value: u32)
        requires pe { pe < 64 }
        requires small { value ≤ 2 ^ 20 }
        ensures value { slice_index self.new pe ≡ value }
        ensures others { (k : ℕ) → k ≢ pe → slice_index self.new k ≡ slice_index self.old k }
    {
        let at = pe as usize;
        let others = self.sum - self.values[at];
        self.values[at] = value;
        self.sum = others + value;
    }

    /// The sum.
    #[inline(always)]
    pub(crate) fn sum(&self) -> u32
        ensures { result ≡ total 64 (λ k. slice_index self.now k) }
    {
        self.sum
    }
}
