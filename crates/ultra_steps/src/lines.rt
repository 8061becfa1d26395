//! The line of a delivery, and that of a step.

ghost use Rattle.std.specs.Prelude.{◌≡◌, ◌+◌, ◌≤◌, ◌++◌, Some, codes, decimal};
ghost use Rattle.ultra_io.specs.{TextBuffer.{Begins, GoesOn, Writes}, declared.filled_bytes.TheConstants.BUFFER_BYTES};
ghost use Rattle.ultra_isa.specs.Instruction.{effect};
ghost use Rattle.ultra_model.specs.Text.{op_text};
ghost use Rattle.ultra_requests.specs.EventLines.{named_text};
ghost use Rattle.ultra_steps.specs.RegisterSettings.{set_by_step, set_in, IsSetIn};
ghost use Rattle.ultra_steps.specs.StepLines.{address_if, deed_text, is_made, issue_if, made_line, reply_line_of, setting_if, setting_text, step_line_if, step_text};

use crate::instruction::{reference, register_set};
use crate::setting::{Reference, Setting};
use ultra_asm::put_instruction;
use ultra_io::TextBuffer;
use ultra_isa::{Instr, MachineFault, Processor, Step};
use ultra_msg::{Cell, Op, Pe, Sink};

/// A step of a processing element: how many requests it had issued before, its processor then, and
/// what the step was.
#[derive(Clone, Copy, Drop)]
pub(crate) struct StepMade {
    /// The processing element.
    pub(crate) pe: Pe,
    /// How many requests it had issued.
    pub(crate) issued: u32,
    /// Its processor before the step.
    pub(crate) before: Processor,
    /// What the step was.
    pub(crate) was: Step,
}

/// Writes the line of a delivery, as `7 reply 0 r3=1 0.0@0`, where it sets a register.
pub(crate) fn put_reply<S: Sink>(
    buffer: &mut TextBuffer<'_, S>,
    cycle: u32,
    pe: Pe,
    number: u32,
    cell: Cell,
    setting: Option<Setting>,
)
    ensures { Writes S.taken S.failures
        (reply_line_of cycle pe number cell setting) buffer.old buffer.new }
{
    if let Some(setting) = setting {
        let at = begin_line(buffer, cycle, b" reply ", pe);
        let at = write_setting(buffer, at, setting);
        let at = buffer.write(at, b" ");
        let at = write_named(buffer, at, pe, number, cell);
        let end = buffer.write(at, b"\n");
        buffer.end(end);
    }
}

/// Writes the line of a step, as `0 step 0 0 li r1 0 r1=0`, with the processor after it. A
/// processing element that has stopped or that stalls has no line.
pub(crate) fn put_step<S: Sink>(
    buffer: &mut TextBuffer<'_, S>,
    cycle: u32,
    made: &StepMade,
    instruction: Option<Instr>,
    after: &Processor,
)
    requires pe { made.now.pe ≡ made.now.before.site.pe }
    requires set { IsSetIn after.now.core.registers
        (set_by_step made.now.before.site made.now.before.core made.now.was instruction) }
    ensures { Writes S.taken S.failures (step_line_if cycle made.now.before.site made.now.before.core
        made.now.issued made.now.was instruction) buffer.old buffer.new }
{
    if is_made(made.was) {
        put_made(buffer, cycle, made, instruction, after);
    }
}

/// Whether a step was made: one that has stopped makes none, and neither does one that stalls.
fn is_made(was: Step) -> bool
    ensures { result ≡ is_made was }
{
    match was {
        Step::Done | Step::Issued | Step::Fault(_) => true,
        Step::Stalled | Step::Halted => false,
    }
}

/// Writes the line of a step that was made.
fn put_made<S: Sink>(
    buffer: &mut TextBuffer<'_, S>,
    cycle: u32,
    made: &StepMade,
    instruction: Option<Instr>,
    after: &Processor,
)
    requires pe { made.now.pe ≡ made.now.before.site.pe }
    requires set { IsSetIn after.now.core.registers
        (set_by_step made.now.before.site made.now.before.core made.now.was instruction) }
    ensures { Writes S.taken S.failures (made_line cycle made.now.before.site made.now.before.core
        made.now.issued made.now.was instruction) buffer.old buffer.new }
{
    let at = begin_line(buffer, cycle, b" step ", made.pe);
    let at = buffer.write(at, b" ");
    let at = buffer.write_count(at, made.before.pc());
    let at = buffer.write(at, b" ");
    buffer.end(at);
    put_instruction_made(buffer, made, instruction, after);
    buffer.put(b"\n");
}

/// Writes the instruction of a step and what it did, or `end f2` at the program's end.
fn put_instruction_made<S: Sink>(
    buffer: &mut TextBuffer<'_, S>,
    made: &StepMade,
    instruction: Option<Instr>,
    after: &Processor,
)
    requires pe { made.now.pe ≡ made.now.before.site.pe }
    requires set { IsSetIn after.now.core.registers
        (set_by_step made.now.before.site made.now.before.core made.now.was instruction) }
    ensures { Writes S.taken S.failures (step_text made.now.before.site made.now.before.core
        made.now.issued made.now.was instruction) buffer.old buffer.new }
{
    match &instruction {
        Some(instruction) => {
            put_instruction(buffer, *instruction);
            put_deed(buffer, made, instruction, after);
        }
        None => buffer.put(b"end f2"),
    }
}

/// Writes what a step did, behind its instruction.
fn put_deed<S: Sink>(
    buffer: &mut TextBuffer<'_, S>,
    made: &StepMade,
    instruction: &Instr,
    after: &Processor,
)
    requires { IsSetIn after.now.core.registers (set_by_step made.now.before.site
        made.now.before.core made.now.was (Some instruction.now)) }
    ensures { Writes S.taken S.failures (deed_text made.now.pe made.now.issued made.now.was
        (effect made.now.before.site made.now.before.core.registers made.now.before.core.pc
        instruction.now)) buffer.old buffer.new }
{
    match made.was {
        Step::Done => {
            let setting = setting_made(instruction, &made.before, after);
            put_setting(buffer, setting);
        }
        Step::Issued => {
            let reference = reference(instruction, &made.before);
            put_issue(buffer, made.pe, made.issued, reference);
        }
        Step::Fault(fault) => {
            let reference = reference(instruction, &made.before);
            put_address(buffer, fault, reference);
        }
        Step::Stalled | Step::Halted => {}
    }
}

/// What an instruction has set that is done, by the processors before and after it.
fn setting_made(instruction: &Instr, before: &Processor, after: &Processor) -> Option<Setting>
    requires { IsSetIn after.now.core.registers (set_in (effect before.now.site
        before.now.core.registers before.now.core.pc instruction.now)) }
    ensures { result ≡ set_in (effect before.now.site before.now.core.registers
        before.now.core.pc instruction.now) }
{
    let register = register_set(instruction)?;
    // for the prover: there are 16 registers, and this is one of them
    let _index = register.index();
    let _registers = after.pc();
    Some(Setting {
        register,
        value: after.register(register),
    })
}

/// Writes what is set, as ` r1=0`, or nothing.
fn put_setting<S: Sink>(buffer: &mut TextBuffer<'_, S>, setting: Option<Setting>)
    ensures { Writes S.taken S.failures (setting_if setting) buffer.old buffer.new }
{
    if let Some(setting) = setting {
        let at = buffer.begin();
        let at = write_setting(buffer, at, setting);
        buffer.end(at);
    }
}

/// Writes a request that is issued, as ` 0.0@0 faa 1`, or nothing.
fn put_issue<S: Sink>(
    buffer: &mut TextBuffer<'_, S>,
    pe: Pe,
    number: u32,
    reference: Option<Reference>,
)
    ensures { Writes S.taken S.failures (issue_if pe number reference) buffer.old buffer.new }
{
    if let Some(reference) = reference {
        let at = buffer.begin();
        let at = buffer.write(at, b" ");
        let at = write_named(buffer, at, pe, number, reference.cell);
        let at = buffer.write(at, b" ");
        let at = write_op(buffer, at, reference.op);
        buffer.end(at);
    }
}

/// Writes an address that isn't there, as ` @2 f1`, or nothing.
fn put_address<S: Sink>(
    buffer: &mut TextBuffer<'_, S>,
    fault: MachineFault,
    reference: Option<Reference>,
)
    ensures { Writes S.taken S.failures (address_if fault reference) buffer.old buffer.new }
{
    if let Some(reference) = reference {
        let at = buffer.begin();
        let at = buffer.write(at, b" @");
        let at = buffer.write_number(at, reference.cell);
        let at = buffer.write(at, b" ");
        buffer.end(at);
        match fault {
            MachineFault::AddressOutOfRange => buffer.put(b"f1"),
            MachineFault::PastEnd => buffer.put(b"f2"),
        }
    }
}

/// Begins a line with the number of a cycle, a word and a processing element, as `7 reply 0`.
#[inline(always)]
fn begin_line<S: Sink, const N: usize>(
    buffer: &mut TextBuffer<'_, S>,
    cycle: u32,
    word: &[u8; N],
    pe: Pe,
) -> usize
    requires { N ≤ 7 }
    ensures goes_on { Begins S.taken S.failures
        (decimal cycle ++ word.now ++ decimal pe) buffer.old buffer.new result }
    ensures room { result + 80 ≤ BUFFER_BYTES }
{
    let at = buffer.begin();
    let at = buffer.write_number(at, cycle);
    let at = buffer.write(at, word);
    buffer.write_number(at, pe)
}

/// Writes what is set, as ` r1=0`: at most 24 bytes.
#[inline(always)]
fn write_setting<S: Sink>(buffer: &mut TextBuffer<'_, S>, at: usize, setting: Setting) -> usize
    requires { at + 24 ≤ BUFFER_BYTES }
    ensures goes_on { GoesOn S.taken S.failures
        (setting_text setting) buffer.old at buffer.new result }
    ensures few { result ≤ at + 24 }
{
    let at = buffer.write(at, b" r");
    let at = buffer.write_number(at, setting.register.index() as u32);
    let at = buffer.write(at, b"=");
    buffer.write_number(at, setting.value)
}

/// Writes a request by its name and cell, as `1.0@5`: at most 32 bytes.
#[inline(always)]
fn write_named<S: Sink>(
    buffer: &mut TextBuffer<'_, S>,
    at: usize,
    pe: Pe,
    number: u32,
    cell: Cell,
) -> usize
    requires { at + 32 ≤ BUFFER_BYTES }
    ensures goes_on { GoesOn S.taken S.failures
        (named_text pe number cell) buffer.old at buffer.new result }
    ensures few { result ≤ at + 32 }
{
    let at = buffer.write_number(at, pe);
    let at = buffer.write(at, b".");
    let at = buffer.write_number(at, number);
    let at = buffer.write(at, b"@");
    buffer.write_number(at, cell)
}

/// Writes an operation, such as `faa 1`: at most 16 bytes.
#[inline(always)]
fn write_op<S: Sink>(buffer: &mut TextBuffer<'_, S>, at: usize, op: Op) -> usize
    requires { at + 16 ≤ BUFFER_BYTES }
    ensures goes_on { GoesOn S.taken S.failures (op_text op) buffer.old at buffer.new result }
    ensures few { result ≤ at + 16 }
{
    match op {
        Op::Load => buffer.write(at, b"load"),
        Op::Store(word) => write_with_word(buffer, at, b"store ", word),
        Op::Faa(word) => write_with_word(buffer, at, b"faa ", word),
        Op::Swap(word) => write_with_word(buffer, at, b"swap ", word),
    }
}

/// Writes bytes, then a word: at most N + 10 bytes.
#[inline(always)]
fn write_with_word<S: Sink, const N: usize>(
    buffer: &mut TextBuffer<'_, S>,
    at: usize,
    bytes: &[u8; N],
    word: u32,
) -> usize
    requires { at + N + 10 ≤ BUFFER_BYTES }
    ensures goes_on { GoesOn S.taken S.failures
        (bytes.now ++ decimal word) buffer.old at buffer.new result }
    ensures few { result ≤ at + N + 10 }
{
    let at = buffer.write(at, bytes);
    buffer.write_number(at, word)
}
