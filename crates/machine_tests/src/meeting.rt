//! A gate at which three workers meet.

ghost use Rattle.std.specs.Prelude.{◌<◌};

use std::sync::Wait;
use std::sync::atomic::{AtomicU64, Ordering};
use std::thread;
use ultra_crew::{Gate, Half};

/// A gate at which the workers of blocks 0, 1 and 2 meet. Each raises its flag to the number of the
/// half. For a block that waits, it then waits for the others' flags, 10,000,000 turns at most.
#[derive(Drop)]
pub(crate) struct MeetingOfThree {
    /// By the block's number, whether it waits.
    waits: [bool; 3],
    flags: [AtomicU64; 3],
    missed: AtomicU64,
}

impl MeetingOfThree {
    /// A gate to which nobody has come yet, at which these blocks wait.
    pub(crate) fn new(waits: [bool; 3]) -> MeetingOfThree {
        MeetingOfThree {
            waits,
            flags: [AtomicU64::new(0), AtomicU64::new(0), AtomicU64::new(0)],
            missed: AtomicU64::new(0),
        }
    }

    /// Whether all three have come to the half of this number, or one of them missed another.
    fn is_over(&self, number: u64) -> bool {
        let [first, second, third] = &self.flags;
        let have_come = first.load(Ordering::SeqCst) >= number
            && second.load(Ordering::SeqCst) >= number
            && third.load(Ordering::SeqCst) >= number;
        have_come || self.missed.load(Ordering::SeqCst) > 0
    }

    /// The worker of a block comes to the half of this number, and waits for the others if the
    /// block does.
    fn come(&self, block: usize, number: u64)
        requires { block < 3 }
    {
        let mine = &self.flags[block];
        if mine.swap(number, Ordering::SeqCst).saturating_add(1) != number {
            self.missed.fetch_add(1, Ordering::SeqCst);
        }
        if !self.waits[block] {
            return;
        }
        for _ in 0..10_000_000 {
            if self.is_over(number) {
                return;
            }
            thread::yield_now();
        }
        self.missed.fetch_add(1, Ordering::SeqCst);
    }

    /// In how many halves all three have met, unless one of them missed another.
    pub(crate) fn halves_met(&self) -> Option<u64> {
        let [first, second, third] = &self.flags;
        let halves = first.load(Ordering::SeqCst);
        let have_met = second.load(Ordering::SeqCst) == halves
            && third.load(Ordering::SeqCst) == halves
            && self.missed.load(Ordering::SeqCst) == 0;
        have_met.then_some(halves)
    }
}

impl Gate for MeetingOfThree {
    fn before<R: Wait>(&self, _rt: &R, cycle: u32, half: Half, block: usize) {
        let number = u64::from(cycle) * 6 + u64::from(half as u8) + 1;
        if block < 3 {
            self.come(block, number);
        }
    }
}
