//! The lines at the end of a trace.

ghost use Rattle.std.specs.Prelude.{◌≡◌, ◌*◌, ◌<◌};
ghost use Rattle.ultra_model.specs.Machine.{size};
ghost use Rattle.ultra_model.specs.Trace.{by_number, ending_text, cell_line, cell_lines, cell_value, register_text, registers_text, pe_line, pe_lines, end_text};
ghost use Rattle.ultra_io.specs.TextBuffer.{Writes};

use crate::state::positions;
use crate::texts::{put_activity, put_with_word};
use ultra_block::Blocks;
use ultra_io::TextBuffer;
use ultra_isa::Processor;
use ultra_msg::{Cell, Pe, Register, Sink, Word};

/// Writes the lines at the end: how the run ended, the cells that aren't 0, and the processing
/// elements.
pub fn put_end<S: Sink>(buffer: &mut TextBuffer<'_, S>, blocks: &Blocks)
    ensures { Writes S.taken S.failures
        (end_text blocks.now.config blocks.now.machine) buffer.old buffer.new }
{
    put_ending(buffer, blocks.is_quiet());
    buffer.put(b"\n");
    put_cells(buffer, blocks);
    put_processors(buffer, blocks);
}

/// Writes the lines of the cells that aren't 0.
fn put_cells<S: Sink>(buffer: &mut TextBuffer<'_, S>, blocks: &Blocks)
    ensures { Writes S.taken S.failures (by_number (size blocks.now.config *
        blocks.now.config.cells) (cell_lines blocks.now.config blocks.now.machine))
        buffer.old buffer.new }
{
    for address in 0..cells(blocks) {
        put_cell(buffer, address, value_of_cell(blocks, address));
    }
}

/// Writes the lines of the processing elements.
fn put_processors<S: Sink>(buffer: &mut TextBuffer<'_, S>, blocks: &Blocks)
    ensures { Writes S.taken S.failures
        (by_number (size blocks.now.config) (pe_lines blocks.now.machine)) buffer.old buffer.new }
{
    for pe in 0..positions(blocks) {
        put_pe(buffer, pe, &blocks.element(pe).processor);
    }
}

/// Writes how the run ended.
fn put_ending<S: Sink>(buffer: &mut TextBuffer<'_, S>, quiet: bool)
    ensures { Writes S.taken S.failures (ending_text quiet) buffer.old buffer.new }
{
    if quiet {
        buffer.put(b"end quiet");
    } else {
        buffer.put(b"end limit");
    }
}

/// Writes the line of a cell, such as `cell 5 1`, if its value isn't 0.
pub fn put_cell<S: Sink>(buffer: &mut TextBuffer<'_, S>, address: Cell, value: Word)
    ensures { Writes S.taken S.failures (cell_line address value) buffer.old buffer.new }
{
    if value > 0 {
        put_with_word(buffer, b"cell ", address);
        buffer.put(b" ");
        buffer.put_number(value);
        buffer.put(b"\n");
    }
}

/// Writes the line of a processing element, as `pe 0 halted 3 r2=1`: what it is doing, its program
/// counter, and its registers that aren't 0.
pub fn put_pe<S: Sink>(buffer: &mut TextBuffer<'_, S>, pe: Pe, processor: &Processor)
    ensures { Writes S.taken S.failures (pe_line pe processor.now.core) buffer.old buffer.new }
{
    buffer.put(b"pe ");
    buffer.put_number(pe);
    buffer.put(b" ");
    put_activity(buffer, processor.activity());
    buffer.put(b" ");
    buffer.put_count(processor.pc());
    put_registers(buffer, processor);
    buffer.put(b"\n");
}

/// Writes all registers that aren't 0, by number.
fn put_registers<S: Sink>(buffer: &mut TextBuffer<'_, S>, processor: &Processor)
    ensures { Writes S.taken S.failures
        (registers_text processor.now.core.registers) buffer.old buffer.new }
{
    for index in 0..16 {
        if let Some(register) = Register::new(index) {
            put_register(buffer, register, processor.register(register));
        }
    }
}

/// Writes a register with its value, as ` r2=1`, if that isn't 0.
fn put_register<S: Sink>(buffer: &mut TextBuffer<'_, S>, register: Register, value: Word)
    ensures { Writes S.taken S.failures (register_text register value) buffer.old buffer.new }
{
    if value > 0 {
        buffer.put(b" r");
        buffer.put_count(register.index());
        buffer.put(b"=");
        buffer.put_number(value);
    }
}

/// How many cells the memory has.
fn cells(blocks: &Blocks) -> Cell
    ensures { result ≡ size blocks.now.config * blocks.now.config.cells }
{
    blocks.config().all_cells()
}

/// The value of a cell.
fn value_of_cell(blocks: &Blocks, address: Cell) -> Word
    ensures { result ≡ cell_value blocks.now.config blocks.now.machine address }
{
    let modules = positions(blocks);
    let memory_module = blocks.memory_module(address % modules);
    memory_module.peek(address / modules).unwrap_or(0)
}
