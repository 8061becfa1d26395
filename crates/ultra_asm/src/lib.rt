//! The assembler: from the text of a program to its instructions, and back to its canonical
//! listing. The language is this project's profile.
#![tactic(auto)]

ghost use Rattle.std.specs.Prelude.{◌≡◌, List, IfOk, IfErr};
ghost use Rattle.ultra_isa.specs.declared.Instr.{Instr};
ghost use Rattle.ultra_asm.specs.ProgramText.{IsProgramText, ExplainsAsmFault, IsGivenBack};

mod canonical;
mod instruction;
mod labels;
mod reading;
mod words;

use crate::reading::line_instruction;
use crate::words::first_words;
pub use canonical::{listing, put_instruction};
pub use labels::Labels;
use std::alloc::{AllocError, AllocFailed, Global};
use thiserror::Error;
pub use ultra_io::number_written;
use ultra_isa::{MOST_INSTRUCTIONS, Program};
pub use words::register_named;

/// What is wrong in a program's text.
#[derive(Clone, Copy, PartialEq, Eq, Debug, Drop, Error)]
pub enum AsmFaultKind {
    /// Memory for the labels, the instructions or the words of a line was refused.
    #[error("no memory")]
    NoMemory,
    /// The word names no instruction; or it ends with `:` at the start of a line and isn't a label.
    #[error("unknown word")]
    UnknownWord,
    /// An operand should be a register, and isn't.
    #[error("bad register")]
    BadRegister,
    /// An operand should be a number below `2^32`, or below 32 as a shift, and isn't.
    #[error("bad number")]
    BadNumber,
    /// The target of a jump isn't a name, or is one that no line defines.
    #[error("unknown label")]
    UnknownLabel,
    /// The line's label is also that of an earlier line.
    #[error("double label")]
    DoubleLabel,
    /// The instruction would be the 4097th.
    #[error("too long")]
    TooLong,
    /// There are too many or too few operands.
    #[error("wrong operands")]
    WrongOperands,
}

/// The first fault of a text, and the line that has it.
#[derive(Clone, Copy, PartialEq, Eq, Debug, Drop, Error)]
#[error("line {line}: {kind}")]
pub struct AsmFault {
    /// The line's number, from 1; 0 where memory was refused.
    pub line: usize,
    /// What is wrong there.
    pub kind: AsmFaultKind,
}

impl AsmFault {
    const NO_MEMORY: AsmFault = AsmFault {
        line: 0,
        kind: AsmFaultKind::NoMemory,
    };
}

impl From<AllocError> for AsmFault {
    ghost use Rattle.ultra_asm.specs.AsmFault.{no_memory};

    ghost from_gives = { λ _ fault. fault ≡ no_memory };

    fn from(_: AllocError) -> AsmFault {
        AsmFault::NO_MEMORY
    }
}

impl<T: Drop> From<AllocFailed<T>> for AsmFault {
    ghost use Rattle.ultra_asm.specs.AsmFault.{no_memory};

    ghost from_gives = { λ _ fault. fault ≡ no_memory };

    fn from(_: AllocFailed<T>) -> AsmFault {
        AsmFault::NO_MEMORY
    }
}

/// The program that the text writes: in the grammar of this project's profile, each line may begin
/// with a label and then may have an instruction.
///
/// Else the fault names the first line that has one. Or it is `NoMemory`, with line 0, where memory
/// for the labels, the instructions or the words of a line was refused. No other memory is asked
/// for. The time is at most proportional to the text's length times the logarithm of the number of
/// labels.
pub fn assemble(alloc: Global, text: &str) -> Result<Program, AsmFault>
    ensures ok { IfOk result (IsProgramText text.now) }
    ensures refused { IfErr result (ExplainsAsmFault text.now) }
    ensures given_back { (p : List Instr) → IsProgramText text.now p → IsGivenBack p result }
{
    let text = text.as_bytes();
    let labels = Labels::of(alloc, text)?;
    let mut list = Vec::new(alloc);
    for (index, line) in text.split(|byte| *byte == b'\n').enumerate() {
        let words = first_words(alloc, line)?;
        let has_room = list.len() < MOST_INSTRUCTIONS;
        let found = match line_instruction(words.as_slice(), index, has_room, &labels) {
            Ok(found) => found,
            Err(kind) => {
                return Err(AsmFault {
                    line: index + 1,
                    kind,
                });
            }
        };
        if let Some(instruction) = found {
            list.push(instruction)?;
        }
    }
    Ok(Program::new(list).unwrap())
}
