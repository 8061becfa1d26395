//! Programs: lists of instructions whose jumps stay within them.

ghost use Rattle.std.specs.Prelude.{◌≡◌, ◌≤◌, ◌↔◌, length, slice_get, IsOk, IfOk, IfErr, IfSome, IsTrue};
ghost use Rattle.ultra_isa.specs.{Program.{jumps_within, all_jump_within, is_program}, declared.TheConstants.MOST_INSTRUCTIONS};

use crate::{Instr, MOST_INSTRUCTIONS};
use std::alloc::{AllocError, Global};
use std::marker::Model;

/// A program: at most 4096 instructions, whose jumps go to indexes from 0 to the program's length
/// (this project's profile).
#[derive(Drop)]
pub struct Program {
    instructions: Vec<Instr>,
}

impl Model for Program {
    ghost use Rattle.std.specs.Prelude.{List, IsTrue};
    ghost use Rattle.ultra_isa.specs.{declared.Instr.Instr, Program.is_program};

    ghost Value = { List Instr };

    ghost view = { λ p. p.instructions.items };

    ghost invariant = { λ p. IsTrue (is_program p.instructions.items) };
}

impl Instr {
    /// Whether the instruction, if it can jump, jumps to an index that is at most `length`.
    fn stays_within(self, length: usize) -> bool
        ensures { result ≡ jumps_within length self }
    {
        match self {
            Instr::Jump(to) | Instr::JumpIfZero(_, to) | Instr::JumpIfNotZero(_, to) => {
                usize::from(to) <= length
            }
            _ => true,
        }
    }
}

/// Whether each instruction, if it can jump, jumps to an index that is at most `length`.
fn all_stay_within(list: &[Instr], length: usize) -> bool
    ensures { result ≡ all_jump_within length list.now }
{
    list.iter()
        .all(|instruction| instruction.stays_within(length))
}

impl Program {
    /// The program of these instructions, or the list itself where there are more than 4096 of them
    /// or one jumps to an index above their number. It takes no memory.
    pub fn new(list: Vec<Instr>) -> Result<Program, Vec<Instr>>
        ensures valid { IsOk result ↔ IsTrue (is_program list.items) }
        ensures program { IfOk result (λ p. p ≡ list.items) }
        ensures back { IfErr result (λ v. v ≡ list) }
    {
        let length = list.len();
        if length <= MOST_INSTRUCTIONS && all_stay_within(list.as_slice(), length) {
            Ok(Program { instructions: list })
        } else {
            Err(list)
        }
    }

    /// A copy of the program in its own memory. An error says that the memory was refused.
    pub fn try_clone(&self, alloc: Global) -> Result<Program, AllocError>
        ensures { IfOk result (λ p. p ≡ self.now) }
    {
        let instructions = Vec::from_slice(alloc, self.instructions.as_slice())?;
        Ok(Program { instructions })
    }

    /// How many instructions there are: at most 4096.
    pub fn len(&self) -> usize
        ensures count { result ≡ length self.now }
        ensures small { result ≤ MOST_INSTRUCTIONS }
        ensures valid { IsTrue (is_program self.now) }
    {
        self.instructions.len()
    }

    /// The instruction at a program counter, or `None` if that is not below the length.
    pub fn instruction(&self, pc: usize) -> Option<Instr>
        ensures at { result ≡ slice_get self.now pc }
        ensures within { IfSome result (λ i. IsTrue (jumps_within (length self.now) i)) }
        ensures small { length self.now ≤ MOST_INSTRUCTIONS }
    {
        self.instructions.as_slice().get(pc).copied()
    }
}
