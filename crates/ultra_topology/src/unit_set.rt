//! Sets of units.

ghost use Rattle.std.specs.Prelude.{◌≡◌, ℕ, List, ◌+◌, ◌*◌, ◌/◌, ◌<◌, ◌≤◌, ◌&&◌, ◌||◌, ◌↔◌, true, false, not, IfNone, IfSome};
ghost use Rattle.ultra_topology.specs.Set.{AreBits, AreSameBut, HasNoneFrom, IsFirstFrom, has_unit, word_end};
ghost use Rattle.ultra_topology.specs.declared.TheConstants.{MOST_UNITS};

use crate::MOST_UNITS;
use crate::pass::Walk;
use std::marker::Model;

/// How many words of 64 bits a set takes.
pub(crate) const WORDS: usize = MOST_UNITS / 64;

/// A set of units, by their numbers, which are below `MOST_UNITS`: switches first, then modules,
/// then processing elements.
#[derive(Clone, Copy, Drop)]
pub struct UnitSet {
    // bit k % 64 of word k / 64 says that unit k is in the set
    pub(crate) words: [u64; WORDS],
}

impl Model for UnitSet {
    ghost Value = { List ℕ };

    ghost view = { λ s. s.words };

    ghost inverse = { λ words. record { words = words } };
}

/// A unit, by its number, which is below `MOST_UNITS`.
#[derive(Clone, Copy, Drop)]
pub struct UnitNumber {
    number: usize,
}

impl Model for UnitNumber {
    ghost Value = { ℕ };

    ghost view = { λ u. u.number };

    ghost invariant = { λ u. u.number < MOST_UNITS };

    ghost inverse = { λ n. record { number = n } };
}

impl UnitNumber {
    /// The unit of this number.
    #[inline(always)]
    pub fn of(number: usize) -> UnitNumber
        requires { number < MOST_UNITS }
        ensures { result ≡ number }
    {
        UnitNumber { number }
    }

    /// The unit's number.
    #[inline(always)]
    pub fn number(self) -> usize
        ensures value { result ≡ self }
        ensures small { result < MOST_UNITS }
    {
        self.number
    }

    /// Returns the unit unchanged; in a `SMALL` machine this tells the compiler that its number is
    /// below 64.
    #[inline(always)]
    pub(crate) fn narrow<const SMALL: bool>(self) -> UnitNumber
        requires { SMALL ≡ true → self < 64 }
        ensures { result ≡ self }
    {
        if SMALL {
            UnitNumber::of(self.number % 64)
        } else {
            self
        }
    }

    /// The word that says whether it is in a set. Its number is taken modulo 8, so that the
    /// compiler knows it to be small.
    #[inline(always)]
    fn word(self) -> usize
        ensures { result ≡ self / 64 }
    {
        self.number / 64 % 8
    }
}

#[tactic(auto, using(crate::proofs::Set::set_steps))]
impl UnitSet {
    /// The set without any unit.
    pub fn empty() -> UnitSet
        ensures { HasNoneFrom result 0 }
    {
        UnitSet { words: [0; WORDS] }
    }

    /// Whether no unit is in the set.
    #[inline(always)]
    #[tactic(auto, using(crate::proofs::Set::set_steps, crate::proofs::Set::zero_where_none))]
    pub fn is_empty(&self) -> bool
        ensures { (result ≡ true) ↔ HasNoneFrom self.now 0 }
    {
        self.words[0] == 0 && self.is_in_first_word()
    }

    /// The same as `is_empty`. In a `SMALL` machine only the first word is read, since no unit is
    /// past it.
    #[inline(always)]
    #[tactic(auto, using(crate::proofs::Set::set_steps, crate::proofs::Set::zero_where_none))]
    pub fn is_empty_sized<const SMALL: bool>(&self) -> bool
        requires { SMALL ≡ true → HasNoneFrom self.now 64 }
        ensures { (result ≡ true) ↔ HasNoneFrom self.now 0 }
    {
        if SMALL {
            self.words[0] == 0
        } else {
            self.is_empty()
        }
    }

    /// Whether a unit is in the set.
    #[inline(always)]
    #[tactic(auto, using(std::proofs::lemmas::Nat::Bits::shr_and_one), unfolding(crate::specs::Set::has_unit))]
    pub fn has(&self, unit: UnitNumber) -> bool
        ensures { result ≡ has_unit self.now unit }
    {
        self.words[unit.word()] >> (unit.number % 64) & 1 == 1
    }

    /// Puts a unit into the set.
    #[inline(always)]
    pub fn insert(&mut self, unit: UnitNumber)
        ensures others { AreSameBut unit self.old self.new }
        ensures there { has_unit self.new unit ≡ true }
    {
        self.words[unit.word()] |= 1u64 << (unit.number % 64);
    }

    /// Removes a unit from the set, if it is there.
    #[inline(always)]
    pub fn remove(&mut self, unit: UnitNumber)
        ensures others { AreSameBut unit self.old self.new }
        ensures gone { has_unit self.new unit ≡ false }
    {
        self.remove_unless(unit, false);
    }

    /// Puts a unit into the set, if `is_in`. One that is there already stays.
    #[inline(always)]
    pub fn insert_if(&mut self, unit: UnitNumber, is_in: bool)
        ensures others { AreSameBut unit self.old self.new }
        ensures there { has_unit self.new unit ≡ has_unit self.old unit || is_in }
    {
        if is_in {
            self.insert(unit);
        }
    }

    /// Takes a unit out of the set, unless `is_in`. One that isn't there stays away.
    #[inline(always)]
    pub fn remove_unless(&mut self, unit: UnitNumber, is_in: bool)
        ensures others { AreSameBut unit self.old self.new }
        ensures there { has_unit self.new unit ≡ has_unit self.old unit && is_in }
    {
        let kept = if is_in {
            u64::MAX
        } else {
            !(1u64 << (unit.number % 64))
        };
        self.words[unit.word()] &= kept;
    }

    /// Puts all units of another set into this one.
    #[inline(always)]
    pub fn add_all(&mut self, other: &UnitSet)
        ensures { (k : ℕ) → has_unit self.new k ≡ has_unit self.old k || has_unit other.now k }
    {
        let (a, b) = (self.words, other.words);
        self.words = [
            a[0] | b[0],
            a[1] | b[1],
            a[2] | b[2],
            a[3] | b[3],
            a[4] | b[4],
        ];
    }

    /// The units of this set that aren't in the other.
    #[inline(always)]
    pub fn without(&self, other: &UnitSet) -> UnitSet
        ensures { (k : ℕ) → has_unit result k ≡ has_unit self.now k && not (has_unit other.now k) }
    {
        let (a, b) = (&self.words, &other.words);
        UnitSet {
            words: [
                a[0] & !b[0],
                a[1] & !b[1],
                a[2] & !b[2],
                a[3] & !b[3],
                a[4] & !b[4],
            ],
        }
    }

    /// The first unit of the set whose number is at least `from`.
    #[inline(always)]
    #[tactic(auto, using(crate::proofs::Set::rest_steps))]
    pub fn next(&self, from: usize) -> Option<usize>
        ensures some { IfSome result (λ k. IsFirstFrom self.now from k) }
        ensures none { IfNone result (HasNoneFrom self.now from) }
    {
        let words = &self.words;
        if 64 * words.len() <= from {
            return None;
        }
        let rest = self.rest_of_word(from);
        if rest != 0 {
            return Some(from + rest.trailing_zeros() as usize);
        }
        if from < 64 && self.is_in_first_word() {
            return None;
        }
        Some(Walk::from_word(self, from / 64 + 1)?.unit.number())
    }

    /// The units of the set from one number on that are in the same word: bit i stands for the
    /// unit whose number is greater by i. The number has to be below `MOST_UNITS`.
    #[inline(always)]
    #[tactic(auto, using(crate::proofs::Set::bits_from))]
    pub fn rest_of_word(&self, from: usize) -> u64
        requires { from < MOST_UNITS }
        ensures { AreBits (has_unit self.now) from (word_end from) result }
    {
        self.words[from / 64] >> (from % 64)
    }

    /// Whether all units of the set are in its first word, as in a small machine.
    #[inline(always)]
    pub(crate) fn is_in_first_word(&self) -> bool
        ensures { (result ≡ true) ↔ HasNoneFrom self.now 64 }
    {
        self.words[1] | self.words[2] | self.words[3] | self.words[4] == 0
    }
}
