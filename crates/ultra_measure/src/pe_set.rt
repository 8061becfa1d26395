//! Sets of processing elements.

ghost use Rattle.std.specs.Prelude.{◌≡◌, ℕ, ◌<◌, ◌≤◌, ◌==◌, ◌||◌, ◌&&◌, false, not, nat_lt, IfNone, IfSome};
ghost use Rattle.ultra_topology.specs.Set.{has_bit};
ghost use Rattle.ultra_measure.specs.PeSet.{IsTaken};

use std::marker::Model;

/// A set of processing elements, by their numbers, which are below 64.
#[derive(Clone, Copy, Drop)]
pub(crate) struct PeSet {
    // bit k says that processing element k is in the set
    bits: u64,
}

impl Model for PeSet {
    ghost use Rattle.std.specs.Prelude.{ℕ};

    ghost Value = { ℕ };

    ghost view = { λ s. s.bits };

    ghost inverse = { λ bits. record { bits = bits } };
}

impl PeSet {
    /// No processing element.
    pub(crate) fn empty() -> PeSet
        ensures { (k : ℕ) → has_bit result k ≡ false }
    {
        PeSet { bits: 0 }
    }

    /// Those below a number.
    pub(crate) fn below(count: u32) -> PeSet
        requires some { 1 ≤ count }
        requires few { count ≤ 64 }
        ensures { (k : ℕ) → has_bit result k ≡ nat_lt k count }
    {
        PeSet {
            bits: u64::MAX >> (64 - count),
        }
    }

    /// Those of two sets.
    #[inline(always)]
    pub(crate) fn union(self, other: PeSet) -> PeSet
        ensures { (k : ℕ) → has_bit result k ≡ has_bit self k || has_bit other k }
    {
        PeSet {
            bits: self.bits | other.bits,
        }
    }

    /// Puts a processing element into the set.
    #[inline(always)]
    pub(crate) fn insert(&mut self, pe: u32)
        requires { pe < 64 }
        ensures { (k : ℕ) → has_bit self.new k ≡ has_bit self.old k || (k == pe) }
    {
        self.bits |= 1u64 << pe;
    }

    /// Takes a processing element out of the set.
    #[inline(always)]
    pub(crate) fn remove(&mut self, pe: u32)
        requires { pe < 64 }
        ensures { (k : ℕ) → has_bit self.new k ≡ has_bit self.old k && not (k == pe) }
    {
        self.bits &= !(1u64 << pe);
    }

    /// Takes the first one out of the set, if there is one.
    #[inline(always)]
    pub(crate) fn take_first(&mut self) -> Option<u32>
        ensures some { IfSome result (λ p. IsTaken p self.old self.new) }
        ensures none { IfNone result ((k : ℕ) → has_bit self.old k ≡ false) }
    {
        if self.bits == 0 {
            return None;
        }
        let pe = self.bits.trailing_zeros();
        self.bits &= self.bits - 1;
        Some(pe)
    }
}
