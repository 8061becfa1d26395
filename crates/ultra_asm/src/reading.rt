//! From the words of an instruction to the instruction.

ghost use Rattle.std.specs.Prelude.{◌≡◌, map};
ghost use Rattle.ultra_asm.specs.Found.{definition_in, pcs_in};
ghost use Rattle.ultra_asm.specs.Reading.{none_in, one_in, two_in, three_in, read_instruction, read_statement, check_name, check_label, read_line};

use crate::AsmFaultKind;
use crate::instruction::Mnemonic;
use crate::labels::{Labels, statement};
use crate::words::{before_colon, is_name, register_named, shift_written};
use ultra_io::number_written;
use ultra_isa::Instr;
use ultra_msg::{Register, Shift, Word};

/// What can be an operand of an instruction.
pub trait Readable: Sized {
    ghost use Rattle.std.specs.Prelude.{ℕ, List, Result};
    ghost use Rattle.ultra_asm.specs.{declared.AsmFaultKind.AsmFaultKind, Reading.LabelPcs};

    /// What a word is read as, given the program counter of each label.
    ghost reading: { LabelPcs → List ℕ → Result Self AsmFaultKind };

    /// Reads a word.
    fn read(word: &[u8], labels: &Labels) -> Result<Self, AsmFaultKind>
        ensures { result ≡ reading (pcs_in labels.now) word.now };
}

impl Readable for Register {
    ghost use Rattle.ultra_asm.specs.Reading.{read_register};

    ghost reading = { λ pcs w. read_register pcs w };

    fn read(word: &[u8], _labels: &Labels) -> Result<Register, AsmFaultKind> {
        register_named(word).ok_or(AsmFaultKind::BadRegister)
    }
}

impl Readable for Word {
    ghost use Rattle.ultra_asm.specs.Reading.{read_number};

    ghost reading = { λ pcs w. read_number pcs w };

    fn read(word: &[u8], _labels: &Labels) -> Result<Word, AsmFaultKind> {
        number_written(word).ok_or(AsmFaultKind::BadNumber)
    }
}

impl Readable for Shift {
    ghost use Rattle.ultra_asm.specs.Reading.{read_shift};

    ghost reading = { λ pcs w. read_shift pcs w };

    fn read(word: &[u8], _labels: &Labels) -> Result<Shift, AsmFaultKind> {
        shift_written(word).ok_or(AsmFaultKind::BadNumber)
    }
}

impl Readable for u16 {
    ghost use Rattle.ultra_asm.specs.Reading.{read_label};

    ghost reading = { λ pcs w. read_label pcs w };

    /// The program counter that a label names.
    fn read(word: &[u8], labels: &Labels) -> Result<u16, AsmFaultKind> {
        labels.pc(word).ok_or(AsmFaultKind::UnknownLabel)
    }
}

/// No operand.
fn read_none(operands: &[&[u8]]) -> Result<(), AsmFaultKind>
    ensures { result ≡ none_in (map (λ w. w.now) operands.now) }
{
    match operands {
        [] => Ok(()),
        _ => Err(AsmFaultKind::WrongOperands),
    }
}

/// One operand.
fn read_one<A: Readable + Drop>(operands: &[&[u8]], labels: &Labels) -> Result<A, AsmFaultKind>
    ensures { result ≡ one_in (A.reading (pcs_in labels.now)) (map (λ w. w.now) operands.now) }
{
    match operands {
        [first] => A::read(first, labels),
        _ => Err(AsmFaultKind::WrongOperands),
    }
}

/// Two operands.
fn read_two<A: Readable + Drop, B: Readable + Drop>(
    operands: &[&[u8]],
    labels: &Labels,
) -> Result<(A, B), AsmFaultKind>
    ensures { result ≡ two_in (A.reading (pcs_in labels.now)) (B.reading (pcs_in labels.now))
        (map (λ w. w.now) operands.now) }
{
    match operands {
        [first, second] => Ok((A::read(first, labels)?, B::read(second, labels)?)),
        _ => Err(AsmFaultKind::WrongOperands),
    }
}

/// Three operands.
fn read_three<A: Readable + Drop, B: Readable + Drop, C: Readable + Drop>(
    operands: &[&[u8]],
    labels: &Labels,
) -> Result<(A, B, C), AsmFaultKind>
    ensures { result ≡ three_in (A.reading (pcs_in labels.now)) (B.reading (pcs_in labels.now))
        (C.reading (pcs_in labels.now)) (map (λ w. w.now) operands.now) }
{
    match operands {
        [first, second, third] => Ok((
            A::read(first, labels)?,
            B::read(second, labels)?,
            C::read(third, labels)?,
        )),
        _ => Err(AsmFaultKind::WrongOperands),
    }
}

/// The instruction of a mnemonic with its operands.
fn instruction(
    mnemonic: Mnemonic,
    operands: &[&[u8]],
    labels: &Labels,
) -> Result<Instr, AsmFaultKind>
    ensures { result ≡
        read_instruction (pcs_in labels.now) mnemonic (map (λ w. w.now) operands.now) }
{
    match mnemonic {
        Mnemonic::Set => read_two(operands, labels).map(|(d, n)| Instr::Set(d, n)),
        Mnemonic::Add => read_three(operands, labels).map(|(d, a, b)| Instr::Add(d, a, b)),
        Mnemonic::AddWord => read_three(operands, labels).map(|(d, a, n)| Instr::AddWord(d, a, n)),
        Mnemonic::Subtract => read_three(operands, labels).map(|(d, a, b)| Instr::Subtract(
            d, a, b,
        )),
        Mnemonic::And => read_three(operands, labels).map(|(d, a, b)| Instr::And(d, a, b)),
        Mnemonic::ShiftRight => read_three(operands, labels).map(|(d, a, n)| Instr::ShiftRight(
            d, a, n,
        )),
        Mnemonic::IsBelow => read_three(operands, labels).map(|(d, a, b)| Instr::IsBelow(d, a, b)),
        Mnemonic::IsEqual => read_three(operands, labels).map(|(d, a, b)| Instr::IsEqual(d, a, b)),
        Mnemonic::JumpIfZero => read_two(operands, labels).map(|(a, to)| Instr::JumpIfZero(a, to)),
        Mnemonic::JumpIfNotZero => read_two(operands, labels).map(|(a, to)| Instr::JumpIfNotZero(
            a, to,
        )),
        Mnemonic::Jump => read_one(operands, labels).map(Instr::Jump),
        Mnemonic::Number => read_one(operands, labels).map(Instr::Number),
        Mnemonic::Size => read_one(operands, labels).map(Instr::Size),
        Mnemonic::Load => read_two(operands, labels).map(|(d, a)| Instr::Load(d, a)),
        Mnemonic::Store => read_two(operands, labels).map(|(a, b)| Instr::Store(a, b)),
        Mnemonic::Faa => read_three(operands, labels).map(|(d, a, b)| Instr::Faa(d, a, b)),
        Mnemonic::Swap => read_three(operands, labels).map(|(d, a, b)| Instr::Swap(d, a, b)),
        Mnemonic::Fence => read_none(operands).map(|()| Instr::Fence),
        Mnemonic::Halt => read_none(operands).map(|()| Instr::Halt),
    }
}

/// The instruction of the words behind a label, or `None` if there are no words. `has_room` says
/// whether the program may have one more.
fn statement_instruction(
    words: &[&[u8]],
    has_room: bool,
    labels: &Labels,
) -> Result<Option<Instr>, AsmFaultKind>
    ensures { result ≡ read_statement (pcs_in labels.now) has_room (map (λ w. w.now) words.now) }
{
    let Some((word, operands)) = words.split_first() else {
        return Ok(None);
    };
    let mnemonic = Mnemonic::named(word).ok_or(AsmFaultKind::UnknownWord)?;
    if !has_room {
        return Err(AsmFaultKind::TooLong);
    }
    Ok(Some(instruction(mnemonic, operands, labels)?))
}

/// Whether the line of this index, from 0, may begin as its words do. If the first word ends with
/// `:`, it must be a label, and one of no earlier line.
fn check_label(words: &[&[u8]], index: usize, labels: &Labels) -> Result<(), AsmFaultKind>
    ensures { result ≡ check_label (definition_in labels.now) index (map (λ w. w.now) words.now) }
{
    let Some(word) = words.first() else {
        return Ok(());
    };
    match before_colon(word) {
        Some(name) => check_name(name, index, labels),
        None => Ok(()),
    }
}

/// Whether the line of this index, from 0, may begin with the word and a `:`: it must be a name,
/// and a label of no earlier line.
fn check_name(word: &[u8], index: usize, labels: &Labels) -> Result<(), AsmFaultKind>
    ensures { result ≡ check_name (definition_in labels.now) index word.now }
{
    if !is_name(word) {
        return Err(AsmFaultKind::UnknownWord);
    }
    match labels.definition(word) {
        Some(definition) if definition.line < index => Err(AsmFaultKind::DoubleLabel),
        _ => Ok(()),
    }
}

/// The instruction of the line of this index, from 0, or `None` if it has none. `has_room` says
/// whether the program may have one more.
pub fn line_instruction(
    words: &[&[u8]],
    index: usize,
    has_room: bool,
    labels: &Labels,
) -> Result<Option<Instr>, AsmFaultKind>
    ensures { result ≡
        read_line (definition_in labels.now) index has_room (map (λ w. w.now) words.now) }
{
    check_label(words, index, labels)?;
    statement_instruction(statement(words), has_room, labels)
}
