//! The words of an instruction: its mnemonic and its operands.

ghost use Rattle.std.specs.{Prelude.{◌≡◌, bytes_eq}, List.find};
ghost use Rattle.ultra_asm.specs.Instruction.{mnemonic_word, mnemonic_named};

use ultra_msg::{Register, Shift, Word};

/// What an instruction is, without its operands. The names are those of `Instr`.
#[derive(Clone, Copy, Drop)]
pub enum Mnemonic {
    /// `li`
    Set,
    /// `add`
    Add,
    /// `addi`
    AddWord,
    /// `sub`
    Subtract,
    /// `and`
    And,
    /// `shr`
    ShiftRight,
    /// `slt`
    IsBelow,
    /// `seq`
    IsEqual,
    /// `jz`
    JumpIfZero,
    /// `jnz`
    JumpIfNotZero,
    /// `jmp`
    Jump,
    /// `pid`
    Number,
    /// `np`
    Size,
    /// `ld`
    Load,
    /// `st`
    Store,
    /// `faa`
    Faa,
    /// `swap`
    Swap,
    /// `fence`
    Fence,
    /// `halt`
    Halt,
}

/// One operand of an instruction.
#[derive(Clone, Copy, Drop)]
pub enum Operand {
    /// A register.
    Register(Register),
    /// A number below `2^32`.
    Number(Word),
    /// By how many bits a word is shifted.
    Bits(Shift),
    /// The program counter that a label names.
    Label(u16),
}

impl Mnemonic {
    /// All mnemonics.
    const ALL: [Mnemonic; 19] = [
        Mnemonic::Set,
        Mnemonic::Add,
        Mnemonic::AddWord,
        Mnemonic::Subtract,
        Mnemonic::And,
        Mnemonic::ShiftRight,
        Mnemonic::IsBelow,
        Mnemonic::IsEqual,
        Mnemonic::JumpIfZero,
        Mnemonic::JumpIfNotZero,
        Mnemonic::Jump,
        Mnemonic::Number,
        Mnemonic::Size,
        Mnemonic::Load,
        Mnemonic::Store,
        Mnemonic::Faa,
        Mnemonic::Swap,
        Mnemonic::Fence,
        Mnemonic::Halt,
    ];

    /// The mnemonic that the word is, if it is one.
    pub fn named(word: &[u8]) -> Option<Mnemonic>
        ensures { result ≡ mnemonic_named word.now }
    {
        Mnemonic::first_named(&Mnemonic::ALL, word)
    }

    /// The first of some mnemonics that the word is.
    fn first_named(list: &[Mnemonic], word: &[u8]) -> Option<Mnemonic>
        ensures { result ≡ find (λ m. bytes_eq (mnemonic_word m) word.now) list.now }
    {
        list.iter()
            .find(|mnemonic| mnemonic.word() == word)
            .copied()
    }

    /// The word with which the instruction begins.
    pub fn word(self) -> &'static [u8]
        ensures { result.now ≡ mnemonic_word self }
    {
        match self {
            Mnemonic::Set => b"li",
            Mnemonic::Add => b"add",
            Mnemonic::AddWord => b"addi",
            Mnemonic::Subtract => b"sub",
            Mnemonic::And => b"and",
            Mnemonic::ShiftRight => b"shr",
            Mnemonic::IsBelow => b"slt",
            Mnemonic::IsEqual => b"seq",
            Mnemonic::JumpIfZero => b"jz",
            Mnemonic::JumpIfNotZero => b"jnz",
            Mnemonic::Jump => b"jmp",
            Mnemonic::Number => b"pid",
            Mnemonic::Size => b"np",
            Mnemonic::Load => b"ld",
            Mnemonic::Store => b"st",
            Mnemonic::Faa => b"faa",
            Mnemonic::Swap => b"swap",
            Mnemonic::Fence => b"fence",
            Mnemonic::Halt => b"halt",
        }
    }
}
