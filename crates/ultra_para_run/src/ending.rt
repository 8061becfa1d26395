//! The lines at the end of a run.

ghost use Rattle.std.specs.Prelude.{◌≡◌, ◌≤◌, length, slice_index, slice_index_or};
ghost use Rattle.ultra_io.specs.TextBuffer.{Writes};
ghost use Rattle.ultra_model.specs.Trace.{by_number, cell_line, pe_line};
ghost use Rattle.ultra_isa.specs.Step.{fresh_core};
ghost use Rattle.ultra_para.specs.ParaState.{cores_of};
ghost use Rattle.ultra_para_run.specs.ParaText.{para_end, stopped_text};

use ultra_io::TextBuffer;
use ultra_isa::Processor;
use ultra_msg::{Sink, Word};
use ultra_para::Para;
use ultra_trace_text::{put_cell, put_pe};

/// Writes the lines at the end: the number of steps and whether all have stopped, the cells that
/// aren't 0, and the processing elements.
pub(crate) fn put_end<S: Sink>(buffer: &mut TextBuffer<'_, S>, para: &Para, steps: usize)
    ensures { Writes S.taken S.failures
        (para_end para.now.settings steps para.now.state) buffer.old buffer.new }
{
    buffer.put(b"end steps ");
    buffer.put_count(steps);
    buffer.put(b" ");
    put_stopped(buffer, para.have_all_stopped());
    buffer.put(b"\n");
    put_cells(buffer, para.cells());
    put_processors(buffer, para.processors());
}

/// Writes whether all processing elements have stopped.
fn put_stopped<S: Sink>(buffer: &mut TextBuffer<'_, S>, stopped: bool)
    ensures { Writes S.taken S.failures (stopped_text stopped) buffer.old buffer.new }
{
    if stopped {
        buffer.put(b"stopped");
    } else {
        buffer.put(b"running");
    }
}

/// Writes the lines of the cells that aren't 0.
fn put_cells<S: Sink>(buffer: &mut TextBuffer<'_, S>, cells: &[Word])
    requires { length cells.now ≤ 262144 }
    ensures { Writes S.taken S.failures
        (by_number (length cells.now) (λ a. cell_line a (slice_index cells.now a)))
        buffer.old buffer.new }
{
    for address in 0..cells.len() {
        put_cell(buffer, address as u32, cells[address]);
    }
}

/// Writes the lines of the processing elements.
fn put_processors<S: Sink>(buffer: &mut TextBuffer<'_, S>, processors: &[Processor])
    requires { length processors.now ≤ 64 }
    ensures { Writes S.taken S.failures (by_number (length processors.now) (λ p.
        pe_line p (slice_index_or (cores_of processors.now) p fresh_core))) buffer.old buffer.new }
{
    for pe in 0..processors.len() {
        put_pe(buffer, pe as u32, &processors[pe]);
    }
}
