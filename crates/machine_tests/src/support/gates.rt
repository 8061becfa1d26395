//! Gates that the workers of a crew call before each half of a block.

use std::sync::Wait;
use std::sync::atomic::{AtomicU64, Ordering};
use std::thread;
use ultra_crew::{Gate, Half};

/// A gate that counts its calls.
#[derive(Drop)]
pub(crate) struct Counter {
    /// How often it was called.
    pub(crate) calls: AtomicU64,
}

impl Counter {
    /// A gate that nobody has called yet.
    pub(crate) fn new() -> Counter {
        Counter {
            calls: AtomicU64::new(0),
        }
    }
}

impl Gate for Counter {
    fn before<R: Wait>(&self, _rt: &R, _cycle: u32, _half: Half, _block: usize) {
        self.calls.fetch_add(1, Ordering::SeqCst);
    }
}

/// A gate that holds the worker of one block up, 1,000 turns each time.
#[derive(Drop)]
pub(crate) struct Holdup {
    /// The number of that block.
    pub(crate) block: usize,
}

impl Gate for Holdup {
    fn before<R: Wait>(&self, _rt: &R, _cycle: u32, _half: Half, block: usize) {
        if block == self.block {
            for _ in 0..1000 {
                thread::yield_now();
            }
        }
    }
}

/// A gate at which the workers of blocks 0 and 1 meet. Each raises its flag to the number of the
/// half, and waits for the other's, 10,000,000 turns at most.
#[derive(Drop)]
pub(crate) struct Meeting {
    flags: [AtomicU64; 2],
    missed: AtomicU64,
}

impl Meeting {
    /// A gate to which nobody has come yet.
    pub(crate) fn new() -> Meeting {
        Meeting {
            flags: [AtomicU64::new(0), AtomicU64::new(0)],
            missed: AtomicU64::new(0),
        }
    }

    /// The worker of a block comes as the one of this number, and waits for the other.
    fn come(&self, mine: &AtomicU64, other: &AtomicU64, number: u64) {
        if mine.swap(number, Ordering::SeqCst).saturating_add(1) != number {
            self.missed.fetch_add(1, Ordering::SeqCst);
        }
        for _ in 0..10_000_000 {
            if other.load(Ordering::SeqCst) >= number || self.missed.load(Ordering::SeqCst) > 0 {
                return;
            }
            thread::yield_now();
        }
        self.missed.fetch_add(1, Ordering::SeqCst);
    }

    /// In how many halves both have met, unless one of them missed the other.
    pub(crate) fn halves_met(&self) -> Option<u64> {
        let [first, second] = &self.flags;
        let halves = first.load(Ordering::SeqCst);
        let is_met = second.load(Ordering::SeqCst) == halves;
        (is_met && self.missed.load(Ordering::SeqCst) == 0).then_some(halves)
    }
}

impl Gate for Meeting {
    fn before<R: Wait>(&self, _rt: &R, cycle: u32, half: Half, block: usize) {
        let number = u64::from(cycle) * 6 + u64::from(half as u8) + 1;
        match block {
            0 => self.come(&self.flags[0], &self.flags[1], number),
            1 => self.come(&self.flags[1], &self.flags[0], number),
            _ => (),
        }
    }
}
