//! Numbers of the command line that are in their ranges.

ghost use Rattle.std.specs.Prelude.{◌≡◌, ◌≤◌};

use std::marker::{Model, PhantomData};

/// A number of some unit, `LEAST` to `MOST`. Contracts see the number.
///
/// Only the command line makes one, and each unit is another type. So no other number can be
/// taken for it.
#[derive(Clone, Copy)]
pub struct Limited<Unit, const LEAST: u32, const MOST: u32> {
    count: u32,
    unit: PhantomData<Unit>,
}

impl<Unit, const LEAST: u32, const MOST: u32> Model for Limited<Unit, LEAST, MOST> {
    ghost use Rattle.std.specs.Prelude.{ℕ, ◌≤◌};

    ghost Value = { ℕ };

    ghost view = { λ n. n.count };

    ghost invariant = { λ n. (LEAST ≤ n.count) × (n.count ≤ MOST) };

    ghost inverse = { λ n. record { count = n; unit = record {} } };
}

impl<Unit: Drop, const LEAST: u32, const MOST: u32> Limited<Unit, LEAST, MOST> {
    /// `count` units.
    pub(crate) fn new(count: u64) -> Self
        requires least { LEAST ≤ count }
        requires most { count ≤ MOST }
        ensures { result ≡ count }
    {
        Limited {
            count: count as u32,
            unit: PhantomData,
        }
    }

    /// How many.
    pub fn count(self) -> u32
        ensures value { result ≡ self }
        ensures least { LEAST ≤ result }
        ensures most { result ≤ MOST }
    {
        self.count
    }
}

/// The unit of [`Workers`].
#[derive(Clone, Copy)]
pub enum Threads {}

/// A number of threads of the host, 1 to 64. In a run a single worker is the caller's thread, and
/// several workers have a thread each.
pub type Workers = Limited<Threads, 1, 64>;

/// The unit of [`JobsAtOnce`].
#[derive(Clone, Copy)]
pub enum Jobs {}

/// How many jobs of a sweep may run at once, 1 to 64.
pub type JobsAtOnce = Limited<Jobs, 1, 64>;

/// The unit of [`WindowCycles`].
#[derive(Clone, Copy)]
pub enum Cycles {}

/// How many cycles a window of measures has, 1 to 1,000,000.
pub type WindowCycles = Limited<Cycles, 1, 1_000_000>;

/// The unit of [`HeapBytes`].
#[derive(Clone, Copy)]
pub enum Bytes {}

/// The size of the heap of the combining trees: 256 to 16,777,216 bytes.
pub type HeapBytes = Limited<Bytes, 256, 16_777_216>;
