//! What an instruction sets or refers to.

ghost use Rattle.std.specs.Prelude.{◌≡◌, ℕ, List};
ghost use Rattle.ultra_isa.specs.Instruction.{Site, effect};
ghost use Rattle.ultra_steps.specs.RegisterSettings.{reference_in, register_in};

use crate::setting::Reference;
use ultra_isa::{Instr, Processor};
use ultra_msg::{Op, Register};

/// The register that an instruction sets where it is done, or `None` if it sets none.
pub(crate) fn register_set(instruction: &Instr) -> Option<Register>
    ensures { (s : Site) (registers : List ℕ) (pc : ℕ) →
        result ≡ register_in (effect s registers pc instruction.now) }
{
    match *instruction {
        Instr::Set(d, _)
        | Instr::Add(d, _, _)
        | Instr::AddWord(d, _, _)
        | Instr::Subtract(d, _, _)
        | Instr::And(d, _, _)
        | Instr::ShiftRight(d, _, _)
        | Instr::IsBelow(d, _, _)
        | Instr::IsEqual(d, _, _)
        | Instr::Number(d)
        | Instr::Size(d) => Some(d),
        _ => None,
    }
}

/// The cell that an instruction of a processor refers to, and the operation, or `None` if it
/// refers to none.
pub(crate) fn reference(instruction: &Instr, processor: &Processor) -> Option<Reference>
    ensures { result ≡ reference_in (effect processor.now.site processor.now.core.registers
        processor.now.core.pc instruction.now) }
{
    let (address, op) = match *instruction {
        Instr::Load(_, a) => (a, Op::Load),
        Instr::Store(a, b) => (a, Op::Store(processor.register(b))),
        Instr::Faa(_, a, b) => (a, Op::Faa(processor.register(b))),
        Instr::Swap(_, a, b) => (a, Op::Swap(processor.register(b))),
        _ => return None,
    };
    Some(Reference {
        cell: processor.register(address),
        op,
    })
}
