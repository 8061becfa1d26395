//! Sets of registers.

ghost use Rattle.std.specs.Prelude.{◌≡◌, ℕ, ◌<◌, ◌↔◌, ◌==◌, ◌||◌, true, false};
ghost use Rattle.ultra_pni.specs.{Interface.{goes_to, is_awaited}, Registers.has_register};

use crate::OpenCell;
use std::marker::Model;
use ultra_msg::Register;

/// Some of the registers of a processing element: bit r of the word says whether register r is one
/// of them.
#[derive(Clone, Copy, Drop)]
pub(crate) struct RegisterSet {
    word: u32,
}

impl Model for RegisterSet {
    ghost use Rattle.std.specs.Prelude.{ℕ, ◌^◌, ◌<◌};

    ghost Value = { ℕ };

    ghost view = { λ s. s.word };

    ghost invariant = { λ s. s.word < 2 ^ 32 };

    ghost inverse = { λ word. record { word = word } };
}

impl RegisterSet {
    /// None of them.
    pub(crate) fn empty() -> RegisterSet
        ensures { (r : ℕ) → has_register result r ≡ false }
    {
        RegisterSet { word: 0 }
    }

    /// Whether the register is one of them.
    #[inline(always)]
    pub(crate) fn has(self, register: Register) -> bool
        ensures { result ≡ has_register self register }
    {
        (self.word >> register.index()) % 2 == 1
    }

    /// Whether there is none.
    #[inline(always)]
    pub(crate) fn is_empty(self) -> bool
        ensures { (result ≡ true) ↔ ((r : ℕ) → has_register self r ≡ false) }
    {
        self.word == 0
    }

    /// These, and the register `target`, if there is one.
    pub(crate) fn with(self, target: &Option<Register>) -> RegisterSet
        ensures { (r : ℕ) → has_register result r ≡ has_register self r || goes_to r target.now }
    {
        match *target {
            Some(register) => self.with_number(register.index()),
            None => self,
        }
    }

    /// These, and the register of this number.
    fn with_number(self, number: usize) -> RegisterSet
        requires { number < 32 }
        ensures { (r : ℕ) → has_register result r ≡ has_register self r || (r == number) }
    {
        RegisterSet {
            word: self.word | (1 << number),
        }
    }
}

/// The registers to which the replies for open cells go.
pub(crate) fn awaited_by(opened: &[OpenCell]) -> RegisterSet
    ensures { (r : ℕ) → has_register result r ≡ is_awaited r opened.now }
{
    let mut awaited = RegisterSet::empty();
    for open in opened {
        awaited = awaited.with(&open.target);
    }
    awaited
}
