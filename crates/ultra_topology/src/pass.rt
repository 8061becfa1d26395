//! Walks over the units of a set, and visits of them.

ghost use Rattle.std.specs.Prelude.{◌≡◌, ℕ, ◌+◌, ◌*◌, ◌<◌, ◌≤◌, true, false, IfNone, IfSome};
ghost use Rattle.ultra_topology.specs.{Set.{HasNoneFrom, has_unit}, Visits.{after_units, HasCome, IsWalk, comes_to}, declared.TheConstants.MOST_UNITS};

use crate::unit_set::{UnitNumber, UnitSet, WORDS};

/// A walk over the units of a set, by their numbers, while the set may lose units. It keeps the
/// units behind the one to which it has come, in the same word, so the next is known before this
/// one has been visited.
#[derive(Clone, Copy, Drop)]
pub(crate) struct Walk {
    /// The unit.
    pub(crate) unit: UnitNumber,
    /// The units behind it in its word: bit i stands for the unit whose number is greater by i + 1.
    rest: u64,
}

impl Walk {
    /// The same walk at its next unit, or `None` if there is none.
    #[inline(always)]
    pub(crate) fn go_on(self, set: &UnitSet) -> Option<Walk>
        requires { IsWalk self }
        ensures some { IfSome result (HasCome (comes_to self set.now) (self.unit + 1)) }
        ensures none { IfNone result ((k : ℕ) → self.unit + 1 ≤ k →
            comes_to self set.now k ≡ false) }
    {
        let unit = self.unit.number();
        if self.rest != 0 {
            let distance = self.rest.trailing_zeros() as usize;
            return Some(Walk {
                unit: UnitNumber::of(unit + 1 + distance),
                rest: self.rest >> distance >> 1,
            });
        }
        let word = unit / 64;
        if word == 0 && set.is_in_first_word() {
            return None;
        }
        Walk::from_word(set, word + 1)
    }

    /// A walk at its first unit in the words from `first` on, or `None` if there is none.
    #[inline(always)]
    #[tactic(auto, using(crate::proofs::Set::word_steps))]
    pub(crate) fn from_word(set: &UnitSet, first: usize) -> Option<Walk>
        requires { first ≤ 5 }
        ensures some { IfSome result (HasCome (has_unit set.now) (first * 64)) }
        ensures none { IfNone result (HasNoneFrom set.now (first * 64)) }
    {
        for word in first..WORDS {
            let bits = set.words[word];
            if bits != 0 {
                let bit = bits.trailing_zeros() as usize;
                return Some(Walk {
                    unit: UnitNumber::of(word * 64 + bit),
                    rest: bits >> bit >> 1,
                });
            }
        }
        None
    }
}

/// What is done to the units of something, in the order of their numbers.
pub trait Visit<T> {
    /// The condition of a visit of a unit.
    ghost can_visit: { Self → ℕ → T → Type 0 };

    /// The target after a visit of a unit.
    ghost visited: { Self → ℕ → T → T };

    /// That a unit has nothing to do, so that a visit leaves the target as it is.
    ghost is_idle: { Self → ℕ → T → Type 0 };

    /// A superset of the units that have something to do.
    fn units<'t>(&self, target: &'t T) -> &'t UnitSet
        ensures idle { (k : ℕ) → has_unit result.now k ≡ false → is_idle self.now k target.now }
        ensures still { (k : ℕ) → is_idle self.now k target.now →
            visited self.now k target.now ≡ target.now };

    /// Visits a unit. Where the conditions of later visits are met before it, they are met after it
    /// too, and later units that had nothing to do have nothing to do after it.
    fn visit(&self, target: &mut T, unit: UnitNumber)
        requires can { can_visit self.now unit target.old }
        ensures visited { target.new ≡ visited self.now unit target.old }
        ensures later { (k : ℕ) → unit < k → can_visit self.now k target.old →
            can_visit self.now k target.new }
        ensures idle { (k : ℕ) → unit < k → is_idle self.now k target.old →
            is_idle self.now k target.new }
        ensures still { (k : ℕ) → is_idle self.now k target.new →
            visited self.now k target.new ≡ target.new };
}

/// Visits all units in the order of their numbers. It skips those that have nothing to do. With
/// `SMALL`, these include all units that aren't in the first word, and the loop is inlined.
///
/// Where none has anything to do, it takes no more than one look at the set.
#[inline(always)]
#[tactic(auto, using(crate::proofs::Visits::none_to_do))]
pub fn visit_all<const SMALL: bool, T, V: Visit<T>>(visit: &V, target: &mut T)
    requires can { (k : ℕ) → k < MOST_UNITS → V.can_visit visit.now k target.old }
    requires others { SMALL ≡ true → (k : ℕ) → 64 ≤ k → V.is_idle visit.now k target.old }
    ensures { target.new ≡ after_units (V.visited visit.now) MOST_UNITS target.old }
{
    if SMALL {
        visit_first_word(visit, target);
    } else if !visit.units(target).is_empty() {
        visit_some(visit, target);
    }
}

/// Visits the units below 64, where no others have anything to do.
#[inline(always)]
fn visit_first_word<T, V: Visit<T>>(visit: &V, target: &mut T)
    requires can { (k : ℕ) → k < MOST_UNITS → V.can_visit visit.now k target.old }
    requires others { (k : ℕ) → 64 ≤ k → V.is_idle visit.now k target.old }
    ensures { target.new ≡ after_units (V.visited visit.now) MOST_UNITS target.old }
{
    let mut units = visit.units(target).words[0];
    while units != 0 {
        let first = units.trailing_zeros() as usize;
        units &= units - 1;
        visit.visit(target, UnitNumber::of(first));
    }
}

/// Visits all units, by their numbers.
#[inline(never)]
fn visit_some<T, V: Visit<T>>(visit: &V, target: &mut T)
    requires { (k : ℕ) → k < MOST_UNITS → V.can_visit visit.now k target.old }
    ensures { target.new ≡ after_units (V.visited visit.now) MOST_UNITS target.old }
{
    let mut next = Walk::from_word(visit.units(target), 0);
    while let Some(walk) = next {
        visit.visit(target, walk.unit);
        next = walk.go_on(visit.units(target));
    }
}
