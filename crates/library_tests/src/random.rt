//! Random settings and random careful programs, the same at each run.

ghost use Rattle.std.specs.Prelude.{◌<◌, ◌≤◌};

use crate::making::{program, register};
use std::alloc::Global;
use std::test::Fail;
use ultra_isa::{Instr, Program};
use ultra_model::{Config, RawSettings};
use ultra_msg::{Register, Shift};

/// Numbers that look random, from a seed.
#[derive(Drop)]
pub(crate) struct Random {
    state: u32,
}

impl Random {
    /// The numbers of a seed.
    pub fn new(seed: u32) -> Random {
        Random {
            state: seed.wrapping_mul(2_654_435_761),
        }
    }

    /// The next number below a bound.
    pub fn below(&mut self, bound: u32) -> u32
        requires { 1 ≤ bound }
        ensures { result < bound }
    {
        self.state = self
            .state
            .wrapping_mul(1_664_525)
            .wrapping_add(1_013_904_223);
        (self.state >> 16) % bound
    }

    /// A setting from `least` to `least + more - 1`.
    fn setting(&mut self, least: u32, more: u32) -> Option<i64>
        requires least { least ≤ 100 }
        requires some { 1 ≤ more }
        requires few { more ≤ 100 }
    {
        Some(i64::from(least + self.below(more)))
    }

    /// A register that holds an address: r0 to r2.
    fn address(&mut self) -> Register {
        register(self.below(3) as u8)
    }

    /// A register that holds a value: r3 to r7.
    fn value(&mut self) -> Register {
        register(3 + self.below(5) as u8)
    }
}

/// Narrow settings of 1 to 3 stages.
pub(crate) fn random_settings(random: &mut Random, alloc: Global) -> Result<Config, Fail> {
    let cells = random.setting(1, 3);
    let initial = vec![in alloc;
        (0, i64::from(random.below(100))),
        (1, i64::from(random.below(3))),
    ]?;
    let raw = RawSettings {
        stages: random.setting(1, 3),
        request_places: random.setting(2, 4),
        reply_places: random.setting(4, 5),
        wait_places: random.setting(0, 4),
        most_open: random.setting(1, 3),
        cells,
        cycles: Some(1000),
        initial: Some(initial),
    };
    Ok(Config::new(alloc, &raw)?)
}

/// An instruction that refers to no cell; a jump goes to a place that is at most `length`.
fn local(random: &mut Random, length: u32) -> Instr
    requires { length ≤ 100 }
{
    let (target, a, b) = (
        random.below(length + 1) as u16,
        random.value(),
        random.value(),
    );
    match random.below(16) {
        0 | 1 => Instr::Set(random.address(), random.below(9)),
        2 => Instr::Number(random.address()),
        3 => Instr::Set(a, random.below(100)),
        4 => Instr::Add(a, a, b),
        5 => Instr::AddWord(a, b, random.below(100)),
        6 => Instr::Subtract(a, a, b),
        7 => Instr::And(a, a, b),
        8 => Instr::ShiftRight(a, b, Shift::new(1).unwrap()),
        9 => Instr::IsBelow(a, a, b),
        10 => Instr::IsEqual(a, a, b),
        11 => Instr::JumpIfZero(a, target),
        12 => Instr::JumpIfNotZero(a, target),
        13 => Instr::Jump(target),
        14 => Instr::Size(a),
        _ => Instr::Halt,
    }
}

/// An instruction that refers to a cell.
fn reference(random: &mut Random) -> Instr {
    let (address, a, b) = (random.address(), random.value(), random.value());
    match random.below(5) {
        0 => Instr::Load(a, address),
        1 => Instr::Store(address, a),
        2 => Instr::Swap(a, address, b),
        _ => Instr::Faa(a, address, b),
    }
}

/// A program in which a fence follows each instruction that refers to a cell.
pub(crate) fn random_program(random: &mut Random, alloc: Global) -> Result<Program, Fail> {
    let length = 6 + random.below(14);
    let mut list = vec![in alloc;
        Instr::Number(register(2)),
        Instr::AddWord(register(3), register(2), 1),
    ]?;
    for _ in 0..length {
        if random.below(2) == 0 {
            list.push(reference(random))?;
            list.push(Instr::Fence)?;
        } else {
            list.push(local(random, length))?;
        }
    }
    program(list)
}
