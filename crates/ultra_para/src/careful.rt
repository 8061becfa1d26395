//! Careful programs.

ghost use Rattle.std.specs.Prelude.{◌≡◌, ◌<◌, IfSome, is_none, length, slice_get};
ghost use Rattle.ultra_para.specs.Careful.{is_careful as careful, refers_to_cell, is_some_fence, is_fenced_pc, IsFirstUnfenced};

use ultra_isa::{Instr, Program};

/// Whether an instruction refers to a cell.
fn refers(instruction: Instr) -> bool
    ensures { result ≡ refers_to_cell instruction }
{
    match instruction {
        Instr::Load(_, _) | Instr::Store(_, _) | Instr::Faa(_, _, _) | Instr::Swap(_, _, _) => true,
        _ => false,
    }
}

/// Whether the instruction at a program counter is a fence.
fn is_fence_at(program: &Program, pc: usize) -> bool
    ensures { result ≡ is_some_fence (slice_get program.now pc) }
{
    match program.instruction(pc) {
        Some(Instr::Fence) => true,
        _ => false,
    }
}

/// Whether the instruction at a program counter refers to no cell or is directly followed by a
/// fence.
fn is_fenced_at(program: &Program, pc: usize) -> bool
    requires { pc < length program.now }
    ensures { result ≡ is_fenced_pc program.now pc }
{
    match program.instruction(pc) {
        Some(instruction) => !refers(instruction) || is_fence_at(program, pc + 1),
        None => true,
    }
}

/// The program counter of the first instruction that refers to a cell and isn't directly followed
/// by `fence`, from 0. `None` means that the program is careful.
pub fn first_unfenced(program: &Program) -> Option<usize>
    ensures first { IfSome result (IsFirstUnfenced program.now) }
    ensures careful { is_none result ≡ careful program.now }
{
    for pc in 0..program.len() {
        if !is_fenced_at(program, pc) {
            return Some(pc);
        }
    }
    None
}

/// Whether a program is careful: each `ld`, `st`, `faa` and `swap` is directly followed by `fence`.
pub fn is_careful(program: &Program) -> bool
    ensures { result ≡ careful program.now }
{
    first_unfenced(program).is_none()
}
