//! The units of one kind that are in a set, in ascending order.

ghost use Rattle.std.specs.Prelude.{◌≡◌, ◌+◌, ◌-◌, ◌^◌, ◌<◌, ◌≤◌, [], ◌∷◌, true, false, nat_lt, ◌&&◌};
ghost use Rattle.std.specs.Iterator.{YieldsFirst, item_count};
ghost use Rattle.ultra_topology.specs.{Numbers.{IsSmall, switch_count as count_of_switches, module_number as number_of_module, element_number as number_of_element, switch_number as number_of_switch}, Set.{AreBits, has_unit, word_end}, declared.TheConstants.MOST_UNITS};
ghost use Rattle.ultra_holders.specs.Holders.{holders_left, numbers_in};

use ultra_route::Net;
use ultra_topology::{UnitSet, element_number, module_number, switch_count, switch_number};

/// The units of one kind that are in a set, by their numbers within the kind.
#[derive(Drop)]
pub struct Holders<'a> {
    units: &'a UnitSet,
    // the number of the kind's first unit among all units
    base: u32,
    // what is left of one word: bit i stands for number `from + i`
    bits: u64,
    from: u16,
    // and the others: from number `next` on, below `end`
    next: u32,
    end: u32,
}

impl Iterator for Holders<'_> {
    type Item = u32;

    ghost next_gives = { YieldsFirst holders_left };

    ghost remaining = { item_count holders_left };

    #[inline(always)]
    fn next(&mut self) -> Option<u32> {
        if self.bits == 0 && !self.go_on() {
            return None;
        }
        Some(self.take_first())
    }
}

impl Holders<'_> {
    /// The first of its word, which isn't left any more. There has to be one.
    #[inline(always)]
    fn take_first(&mut self) -> u32
        requires { 0 < self.old.bits }
        ensures { holders_left self.old ≡ result ∷ holders_left self.new }
    {
        let bits = self.bits;
        self.bits = bits & (bits - 1);
        u32::from(self.from) + bits.trailing_zeros()
    }

    /// Goes on to the next word in which some are left. Answers whether there is one.
    #[inline(always)]
    fn go_on(&mut self) -> bool
        requires { self.old.bits ≡ 0 }
        ensures some { result ≡ true → 0 < self.new.bits }
        ensures same { result ≡ true → holders_left self.new ≡ holders_left self.old }
        ensures none { result ≡ false →
            (holders_left self.old ≡ []) × (holders_left self.new ≡ []) }
    {
        if self.next >= self.end {
            return false;
        }
        let base = self.base as usize;
        let Some(unit) = self.units.next(base + self.next as usize) else {
            return false;
        };
        let number = unit - base;
        let end = self.end as usize;
        if number >= end {
            return false;
        }
        self.bits = bits_below::<false>(self.units, unit, end - number);
        self.from = number as u16;
        self.next = ((unit / 64 + 1) * 64 - base) as u32;
        true
    }
}

/// The switches in a set, by their numbers.
#[inline(always)]
#[tactic(auto, using(ultra_topology::proofs::Readers::few_units))]
pub fn switches_in<const SMALL: bool>(net: Net, units: &UnitSet) -> Holders<'_>
    requires { SMALL ≡ true → IsSmall net }
    ensures { holders_left result ≡ numbers_in units.now 0 (count_of_switches net) }
{
    numbered_from::<SMALL>(units, 0, switch_count(net))
}

/// The switches of a stage that are in a set, by their numbers within the stage.
#[inline(always)]
#[tactic(auto, using(ultra_topology::proofs::Readers::few_units))]
pub fn switches_of<const SMALL: bool>(net: Net, units: &UnitSet, stage: u32) -> Holders<'_>
    requires stage { stage < net }
    requires small { SMALL ≡ true → IsSmall net }
    ensures { holders_left result ≡
        numbers_in units.now (number_of_switch net stage 0) (2 ^ (net - 1)) }
{
    numbered_from::<SMALL>(units, switch_number(net, stage, 0), net.size() as usize / 2)
}

/// The modules in a set, by their numbers.
#[inline(always)]
#[tactic(auto, using(ultra_topology::proofs::Readers::few_units))]
pub fn modules_in<const SMALL: bool>(net: Net, units: &UnitSet) -> Holders<'_>
    requires { SMALL ≡ true → IsSmall net }
    ensures { holders_left result ≡ numbers_in units.now (number_of_module net 0) (2 ^ net) }
{
    numbered_from::<SMALL>(units, module_number(net, 0), net.size() as usize)
}

/// The processing elements in a set, by their numbers.
#[inline(always)]
#[tactic(auto, using(ultra_topology::proofs::Readers::few_units))]
pub fn elements_in<const SMALL: bool>(net: Net, units: &UnitSet) -> Holders<'_>
    requires { SMALL ≡ true → IsSmall net }
    ensures { holders_left result ≡ numbers_in units.now (number_of_element net 0) (2 ^ net) }
{
    numbered_from::<SMALL>(units, element_number(net, 0), net.size() as usize)
}

/// Of the units of one kind those that are in a set. There are `count` of the kind, and the first
/// of them has number `base` among all units. In a `SMALL` machine all are in the first word.
#[inline(always)]
fn numbered_from<const SMALL: bool>(units: &UnitSet, base: usize, count: usize) -> Holders<'_>
    requires small { SMALL ≡ true → (base < 64) × (count < 64) × (base + count ≤ 64) }
    requires within { base + count ≤ MOST_UNITS }
    ensures { holders_left result ≡ numbers_in units.now base count }
{
    if SMALL {
        Holders {
            units,
            base: base as u32,
            bits: bits_below::<SMALL>(units, base % 64, count),
            from: 0,
            next: 64,
            end: 64,
        }
    } else {
        // in an empty set, as many are, no word is looked at again
        let end = if units.is_empty() { 0 } else { count };
        Holders {
            units,
            base: base as u32,
            bits: 0,
            from: 0,
            next: 0,
            end: end as u32,
        }
    }
}

/// Those of the `count` units from number `from` on that are in the set, and in the same word as
/// `from`. Bit i stands for unit `from + i`.
#[inline(always)]
fn bits_below<const SMALL: bool>(units: &UnitSet, from: usize, count: usize) -> u64
    requires small { SMALL ≡ true → count < 64 }
    requires within { from < MOST_UNITS }
    ensures { AreBits (λ k. nat_lt k (from + count) && has_unit units.now k) from
        (word_end from) result }
{
    let bits = units.rest_of_word(from);
    if SMALL || count < 64 {
        bits & ((1u64 << (count % 64)) - 1)
    } else {
        bits
    }
}
