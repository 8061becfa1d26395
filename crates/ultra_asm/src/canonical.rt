//! The canonical text of a program.

ghost use Rattle.std.specs.Prelude.{◌≡◌, ℕ, ◌+◌, ◌++◌, ◌≤◌, slice_index_or, [], ◌∷◌, false, codes, decimal, OnOk, OnErr};
ghost use Rattle.ultra_asm.specs.{Instruction.{mnemonic_of, operands_of}, ProgramText.IsProgramText};
ghost use Rattle.ultra_asm.specs.Listing.{label_text, label_line, label_if, operand_list, operand_text, operands_text, instruction_text, instruction_line, jump_target, is_target, listing_text, AreWritable, IsListable};
ghost use Rattle.ultra_msg.specs.Bytes.{TakesPrefix};
ghost use Rattle.ultra_io.specs.{TextBuffer.{GoesOn, Writes}, declared.filled_bytes.TheConstants.BUFFER_BYTES};
ghost use Rattle.ultra_isa.specs.declared.TheConstants.{MOST_INSTRUCTIONS};

use crate::instruction::{Mnemonic, Operand};
use ultra_io::TextBuffer;
use ultra_isa::{Instr, MOST_INSTRUCTIONS, Program};
use ultra_msg::{Sink, SinkFault};

/// How many program counters a jump can go to.
const TARGETS: usize = MOST_INSTRUCTIONS + 1;

/// The program counters of a program that some instruction jumps to.
#[derive(Drop)]
struct Targets {
    marked: [bool; TARGETS],
}

impl Targets {
    /// The targets of a program.
    fn of(program: &Program) -> Targets
        ensures marked { (k : ℕ) → k ≤ MOST_INSTRUCTIONS →
            slice_index_or result.marked k false ≡ is_target program.now k }
        ensures listable { IsListable program.now }
    {
        let mut marked = [false; TARGETS];
        for pc in 0..program.len() {
            if let Some(instruction) = program.instruction(pc) {
                if let Some(target) = target(instruction) {
                    marked[usize::from(target)] = true;
                }
            }
        }
        Targets { marked }
    }
}

/// Where the instruction jumps to, if it is a jump.
fn target(instruction: Instr) -> Option<u16>
    ensures value { result ≡ jump_target instruction }
    ensures writable { AreWritable (operands_of instruction) }
{
    match instruction {
        Instr::Jump(to) | Instr::JumpIfZero(_, to) | Instr::JumpIfNotZero(_, to) => Some(to),
        _ => None,
    }
}

/// Writes the canonical text of a program, one instruction a line. Where some jump goes to program
/// counter `k`, the line `Lk:` is before the instruction at `k`, or at the end.
///
/// It takes no memory, and fails only where the sink does. After a fault the sink has taken a
/// prefix of the text.
pub fn listing<S: Sink>(program: &Program, sink: &mut S) -> Result<(), SinkFault>
    ensures ok { OnOk result (S.taken sink.new ≡ S.taken sink.old ++ listing_text program.now) }
    ensures still { OnOk result (S.failures sink.new ≡ S.failures sink.old) }
    ensures err { OnErr result
        (TakesPrefix (listing_text program.now) (S.taken sink.old) (S.taken sink.new)) }
    ensures counted { OnErr result (S.failures sink.new ≡ S.failures sink.old + 1) }
    ensures reads_back { IsProgramText (listing_text program.now) program.now }
{
    let mut buffer = TextBuffer::new(sink);
    put_program(&mut buffer, program);
    buffer.finish()
}

/// Writes the canonical text of a program.
fn put_program<S: Sink>(buffer: &mut TextBuffer<'_, S>, program: &Program)
    ensures text { Writes S.taken S.failures (listing_text program.now) buffer.old buffer.new }
    ensures reads_back { IsProgramText (listing_text program.now) program.now }
{
    let targets = Targets::of(program);
    for pc in 0..program.len() {
        if let Some(instruction) = program.instruction(pc) {
            put_pc(buffer, &targets, pc, instruction);
        }
    }
    put_label_line(buffer, &targets, program.len());
}

/// Writes the instruction at a program counter, behind the label of the program counter if some
/// jump goes there.
fn put_pc<S: Sink>(buffer: &mut TextBuffer<'_, S>, targets: &Targets, pc: usize, instruction: Instr)
    requires { pc ≤ MOST_INSTRUCTIONS }
    ensures { Writes S.taken S.failures
        (label_if (slice_index_or targets.now.marked pc false) pc ++ instruction_line instruction)
        buffer.old buffer.new }
{
    put_label_line(buffer, targets, pc);
    put_line(buffer, instruction);
}

/// Writes a line with the label of a program counter, if some jump goes there.
fn put_label_line<S: Sink>(buffer: &mut TextBuffer<'_, S>, targets: &Targets, pc: usize)
    requires { pc ≤ MOST_INSTRUCTIONS }
    ensures { Writes S.taken S.failures
        (label_if (slice_index_or targets.now.marked pc false) pc) buffer.old buffer.new }
{
    if targets.marked[pc] {
        put_label(buffer, pc);
        buffer.put(b":\n");
    }
}

/// Writes the line of an instruction.
fn put_line<S: Sink>(buffer: &mut TextBuffer<'_, S>, instruction: Instr)
    ensures { Writes S.taken S.failures (instruction_line instruction) buffer.old buffer.new }
{
    put_instruction(buffer, instruction);
    buffer.put(b"\n");
}

/// Writes an instruction as the canonical text of a program has it, without the end of its line.
pub fn put_instruction<S: Sink>(buffer: &mut TextBuffer<'_, S>, instruction: Instr)
    ensures { Writes S.taken S.failures (instruction_text instruction) buffer.old buffer.new }
{
    let mnemonic = mnemonic_of(&instruction);
    let operands = operands_of(instruction);
    buffer.put(mnemonic.word());
    put_operands(buffer, operands.as_slice());
}

/// The operands of an instruction, in the order in which they are written.
#[derive(Clone, Copy, Drop)]
enum Operands {
    None,
    One([Operand; 1]),
    Two([Operand; 2]),
    Three([Operand; 3]),
}

impl Operands {
    /// The operands as a list.
    fn as_slice(&self) -> &[Operand]
        ensures { result.now ≡ operand_list self.now }
    {
        match self {
            Operands::None => &[],
            Operands::One(one) => one,
            Operands::Two(two) => two,
            Operands::Three(three) => three,
        }
    }
}

/// The mnemonic of an instruction.
fn mnemonic_of(instruction: &Instr) -> Mnemonic
    ensures { result ≡ mnemonic_of instruction.now }
{
    match instruction {
        Instr::Set(..) => Mnemonic::Set,
        Instr::Add(..) => Mnemonic::Add,
        Instr::AddWord(..) => Mnemonic::AddWord,
        Instr::Subtract(..) => Mnemonic::Subtract,
        Instr::And(..) => Mnemonic::And,
        Instr::ShiftRight(..) => Mnemonic::ShiftRight,
        Instr::IsBelow(..) => Mnemonic::IsBelow,
        Instr::IsEqual(..) => Mnemonic::IsEqual,
        Instr::JumpIfZero(..) => Mnemonic::JumpIfZero,
        Instr::JumpIfNotZero(..) => Mnemonic::JumpIfNotZero,
        Instr::Jump(..) => Mnemonic::Jump,
        Instr::Number(..) => Mnemonic::Number,
        Instr::Size(..) => Mnemonic::Size,
        Instr::Load(..) => Mnemonic::Load,
        Instr::Store(..) => Mnemonic::Store,
        Instr::Faa(..) => Mnemonic::Faa,
        Instr::Swap(..) => Mnemonic::Swap,
        Instr::Fence => Mnemonic::Fence,
        Instr::Halt => Mnemonic::Halt,
    }
}

/// The operands of an instruction.
fn operands_of(instruction: Instr) -> Operands
    ensures { operand_list result ≡ operands_of instruction }
{
    use Operand::{Bits, Label, Number, Register};
    use Operands::{None, One, Three, Two};

    match instruction {
        Instr::Set(d, n) => Two([Register(d), Number(n)]),
        Instr::AddWord(d, a, n) => Three([Register(d), Register(a), Number(n)]),
        Instr::ShiftRight(d, a, n) => Three([Register(d), Register(a), Bits(n)]),
        Instr::Add(d, a, b)
        | Instr::Subtract(d, a, b)
        | Instr::And(d, a, b)
        | Instr::IsBelow(d, a, b)
        | Instr::IsEqual(d, a, b)
        | Instr::Faa(d, a, b)
        | Instr::Swap(d, a, b) => Three([Register(d), Register(a), Register(b)]),
        Instr::JumpIfZero(a, to) | Instr::JumpIfNotZero(a, to) => Two([Register(a), Label(to)]),
        Instr::Jump(to) => One([Label(to)]),
        Instr::Number(d) | Instr::Size(d) => One([Register(d)]),
        Instr::Load(a, b) | Instr::Store(a, b) => Two([Register(a), Register(b)]),
        Instr::Fence | Instr::Halt => None,
    }
}

/// Writes operands, each behind a blank.
fn put_operands<S: Sink>(buffer: &mut TextBuffer<'_, S>, operands: &[Operand])
    ensures { Writes S.taken S.failures (operands_text operands.now) buffer.old buffer.new }
{
    for operand in operands {
        put_next(buffer, *operand);
    }
}

/// Writes an operand behind a blank.
fn put_next<S: Sink>(buffer: &mut TextBuffer<'_, S>, operand: Operand)
    ensures { Writes S.taken S.failures (codes " " ++ operand_text operand) buffer.old buffer.new }
{
    let at = buffer.begin();
    let at = buffer.write(at, b" ");
    let at = write_operand(buffer, at, operand);
    buffer.end(at);
}

/// Writes an operand: at most 11 bytes.
#[inline(always)]
fn write_operand<S: Sink>(buffer: &mut TextBuffer<'_, S>, at: usize, operand: Operand) -> usize
    requires { at + 11 ≤ BUFFER_BYTES }
    ensures goes_on { GoesOn S.taken S.failures
        (operand_text operand) buffer.old at buffer.new result }
    ensures few { result ≤ at + 11 }
{
    match operand {
        Operand::Register(register) => write_numbered(buffer, at, b"r", register.index() as u32),
        Operand::Number(number) => buffer.write_number(at, number),
        Operand::Bits(shift) => buffer.write_number(at, shift.bits()),
        Operand::Label(pc) => write_numbered(buffer, at, b"L", u32::from(pc)),
    }
}

/// Writes a letter, and a number behind it in decimal digits: at most 11 bytes.
#[inline(always)]
fn write_numbered<S: Sink>(
    buffer: &mut TextBuffer<'_, S>,
    at: usize,
    letter: &[u8; 1],
    number: u32,
) -> usize
    requires { at + 11 ≤ BUFFER_BYTES }
    ensures goes_on { GoesOn S.taken S.failures
        (letter.now ++ decimal number) buffer.old at buffer.new result }
    ensures few { result ≤ at + 11 }
{
    let at = buffer.write(at, letter);
    buffer.write_number(at, number)
}

/// Writes the label of a program counter, as `L7`.
fn put_label<S: Sink>(buffer: &mut TextBuffer<'_, S>, pc: usize)
    ensures { Writes S.taken S.failures (label_text pc) buffer.old buffer.new }
{
    buffer.put(b"L");
    buffer.put_count(pc);
}
