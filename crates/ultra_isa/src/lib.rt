//! The instructions of the simulated processors, and one step of a processor. The instruction set
//! is this project's profile.
#![tactic(auto)]

mod processor;
mod program;

pub use processor::Processor;
pub use program::Program;
use ultra_msg::{Register, Shift, Word};

/// The most instructions of a program.
pub const MOST_INSTRUCTIONS: usize = 4096;

/// One instruction. The first register is the one that is written, if one is; the target of a jump
/// is the index of an instruction, or the length of the program.
#[derive(Clone, Copy, Drop)]
pub enum Instr {
    /// `li rd n`: rd becomes n
    Set(Register, Word),
    /// `add rd ra rb`: rd becomes ra plus rb, modulo `2^32`
    Add(Register, Register, Register),
    /// `addi rd ra n`: rd becomes ra plus n, modulo `2^32`
    AddWord(Register, Register, Word),
    /// `sub rd ra rb`: rd becomes ra minus rb, modulo `2^32`
    Subtract(Register, Register, Register),
    /// `and rd ra rb`: rd becomes the bits that are set in both
    And(Register, Register, Register),
    /// `shr rd ra n`: rd becomes ra div `2^n`
    ShiftRight(Register, Register, Shift),
    /// `slt rd ra rb`: rd becomes 1 if ra is below rb as unsigned numbers, else 0
    IsBelow(Register, Register, Register),
    /// `seq rd ra rb`: rd becomes 1 if ra and rb are equal, else 0
    IsEqual(Register, Register, Register),
    /// `jz ra label`: goes on at the label if ra is 0
    JumpIfZero(Register, u16),
    /// `jnz ra label`: goes on at the label if ra isn't 0
    JumpIfNotZero(Register, u16),
    /// `jmp label`: goes on at the label
    Jump(u16),
    /// `pid rd`: the processing element's number
    Number(Register),
    /// `np rd`: how many processing elements there are
    Size(Register),
    /// `ld rd ra`: from the cell whose address is in the second register
    Load(Register, Register),
    /// `st ra rb`: to the cell whose address is in the first register
    Store(Register, Register),
    /// `faa rd ra rb`: fetch-and-add on the cell whose address is in the second register
    Faa(Register, Register, Register),
    /// `swap rd ra rb`: swap with the cell whose address is in the second register
    Swap(Register, Register, Register),
    /// `fence`: waits until no cell is open
    Fence,
    /// `halt`: stops for good
    Halt,
}

/// What stops a processing element for good.
#[derive(Clone, Copy, PartialEq, Eq, Debug, Drop)]
pub enum MachineFault {
    /// `f1`: it referred to a cell that the memory doesn't have.
    AddressOutOfRange,
    /// `f2`: it ran past the end of its program.
    PastEnd,
}

/// What a processing element is doing.
#[derive(Clone, Copy, PartialEq, Eq, Debug, Drop)]
pub enum Activity {
    /// It makes a step of its program each cycle.
    Running,
    /// It has executed `halt`.
    Halted,
    /// A fault has stopped it.
    Faulted(MachineFault),
}

/// What one step of a processing element was.
#[derive(Clone, Copy, Drop)]
pub enum Step {
    /// It did an instruction that needs no memory.
    Done,
    /// It issued a request.
    Issued,
    /// It has to wait, and nothing has changed.
    Stalled,
    /// It had halted or faulted before, and nothing has changed.
    Halted,
    /// It stopped for good.
    Fault(MachineFault),
}
