//! The trace of a run, whole or in part.

ghost use Rattle.std.specs.Prelude.{◌≡◌, ⊤, ◌+◌, ◌<◌, ◌≤◌, ◌++◌, None, codes};
ghost use Rattle.ultra_io.specs.TextBuffer.{Writes};
ghost use Rattle.ultra_model.specs.Trace.{first_line};
ghost use Rattle.ultra_trace_alone.specs.Part.{are_all, chosen_lines, is_whole, lines_word, part_line, part_lines, part_name, trace_end, whole_trace};

use crate::text::RunText;
use ultra_block::Blocks;
use ultra_io::TextBuffer;
use ultra_model::MOST_CYCLES;
use ultra_msg::Sink;
use ultra_trace_text::{put_cycle, put_cycle_events, put_end};

/// Which lines of a cycle are written.
#[derive(Clone, Copy, PartialEq, Eq, Debug, Drop)]
pub enum CycleLines {
    /// All.
    All,
    /// The line of its number, and those of what happened in it.
    Events,
    /// None.
    None,
}

/// A part of a trace: its first line, lines of some cycles, and the lines at its end. If it isn't
/// the whole trace, its second line says which part it is.
#[derive(Clone, Copy, PartialEq, Eq, Debug, Drop)]
pub struct TracePart {
    /// The first cycle that is written.
    pub from: u32,
    /// The last cycle that is written.
    pub to: u32,
    /// Which lines of these cycles are written.
    pub lines: CycleLines,
}

impl TracePart {
    /// The whole trace.
    pub fn whole() -> TracePart
        ensures { result ≡ whole_trace }
    {
        TracePart {
            from: 0,
            to: MOST_CYCLES,
            lines: CycleLines::All,
        }
    }

    /// Whether it has all lines of all cycles that a run can have.
    fn is_whole(&self) -> bool
        ensures { result ≡ is_whole self.now }
    {
        self.from == 0 && MOST_CYCLES <= self.to && self.lines.are_all()
    }
}

impl CycleLines {
    /// Whether these are all lines.
    fn are_all(self) -> bool
        ensures { result ≡ are_all self }
    {
        match self {
            CycleLines::All => true,
            CycleLines::Events | CycleLines::None => false,
        }
    }

    /// The word that says which lines these are.
    fn word(self) -> &'static [u8]
        ensures { result.now ≡ lines_word self }
    {
        match self {
            CycleLines::All => b"all",
            CycleLines::Events => b"events",
            CycleLines::None => b"end",
        }
    }
}

impl RunText for TracePart {
    ghost pieces = { λ part. record {
      opening = first_line ++ part_line part;
      lines = part_lines part;
      closing = trace_end;
      last = None;
    } };

    ghost takes = { λ _. ⊤ };

    ghost is_ready = { λ _ _ _ _. ⊤ };

    fn last_cycle(&self) -> Option<u32> {
        None
    }

    fn put_opening<S: Sink>(&self, buffer: &mut TextBuffer<'_, S>) {
        buffer.put(b"ultra trace 2\n");
        put_part_line(buffer, self);
    }

    #[inline(always)]
    fn put_lines<S: Sink>(&mut self, buffer: &mut TextBuffer<'_, S>, blocks: &Blocks, cycle: u32) {
        if self.from <= cycle && cycle <= self.to {
            put_chosen(buffer, blocks, self.lines);
        }
    }

    fn put_closing<S: Sink>(&self, buffer: &mut TextBuffer<'_, S>, blocks: &Blocks) {
        put_end(buffer, blocks);
    }
}

/// Writes the line that says which part of a trace this is. The whole trace has none.
fn put_part_line<S: Sink>(buffer: &mut TextBuffer<'_, S>, part: &TracePart)
    ensures { Writes S.taken S.failures (part_line part.now) buffer.old buffer.new }
{
    if !part.is_whole() {
        put_name(buffer, part);
    }
}

/// Writes which part of a trace this is, as `part 5 6 all`: its first and its last cycle, and which
/// of their lines.
fn put_name<S: Sink>(buffer: &mut TextBuffer<'_, S>, part: &TracePart)
    ensures { Writes S.taken S.failures (part_name part.now) buffer.old buffer.new }
{
    buffer.put(b"part ");
    buffer.put_number(part.from);
    buffer.put(b" ");
    buffer.put_number(part.to);
    buffer.put(b" ");
    buffer.put(part.lines.word());
    buffer.put(b"\n");
}

/// Writes the lines of the last cycle that were chosen.
fn put_chosen<S: Sink>(buffer: &mut TextBuffer<'_, S>, blocks: &Blocks, lines: CycleLines)
    requires { 0 < blocks.now.machine.cycles }
    ensures { Writes S.taken S.failures
        (chosen_lines lines blocks.now.config blocks.now.machine) buffer.old buffer.new }
{
    match lines {
        CycleLines::All => put_cycle(buffer, blocks),
        CycleLines::Events => put_cycle_events(buffer, blocks),
        CycleLines::None => {}
    }
}
