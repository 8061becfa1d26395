//! The lines of a cycle.

ghost use Rattle.std.specs.Prelude.{◌≡◌, ◌+◌, ◌<◌, ◌++◌, OnOk, OnErr, codes, decimal};
ghost use Rattle.ultra_model.specs.{Text.newline, Trace.{cycle_line, cycle_text, events_text}};
ghost use Rattle.ultra_msg.specs.Bytes.{TakesPrefix};
ghost use Rattle.ultra_io.specs.TextBuffer.{Writes};

use crate::events::put_events;
use crate::state::put_state;
use crate::texts::{end_line, write_with_word};
use ultra_block::Blocks;
use ultra_io::TextBuffer;
use ultra_msg::{Sink, SinkFault};

/// Writes the lines of the last cycle to the sink. After a fault the sink has taken a prefix of
/// them.
///
/// The machine has to have made at least one cycle. The lines take no memory, and go to the sink in
/// large pieces.
pub fn write_cycle<S: Sink>(blocks: &Blocks, sink: &mut S) -> Result<(), SinkFault>
    requires { 0 < blocks.now.machine.cycles }
    ensures ok { OnOk result
        (S.taken sink.new ≡ S.taken sink.old ++ cycle_text blocks.now.config blocks.now.machine) }
    ensures still { OnOk result (S.failures sink.new ≡ S.failures sink.old) }
    ensures err { OnErr result (TakesPrefix (cycle_text blocks.now.config blocks.now.machine)
        (S.taken sink.old) (S.taken sink.new)) }
    ensures counted { OnErr result (S.failures sink.new ≡ S.failures sink.old + 1) }
{
    let mut buffer = TextBuffer::new(sink);
    put_cycle(&mut buffer, blocks);
    buffer.finish()
}

/// Writes the lines of the last cycle in a buffer: its number, what happened, and what the units
/// hold afterwards.
pub fn put_cycle<S: Sink>(buffer: &mut TextBuffer<'_, S>, blocks: &Blocks)
    requires { 0 < blocks.now.machine.cycles }
    ensures { Writes S.taken S.failures
        (cycle_text blocks.now.config blocks.now.machine) buffer.old buffer.new }
{
    put_cycle_events(buffer, blocks);
    put_state(buffer, blocks);
}

/// Writes the first lines of the last cycle in a buffer: its number, and what happened.
#[inline(always)]
pub fn put_cycle_events<S: Sink>(buffer: &mut TextBuffer<'_, S>, blocks: &Blocks)
    requires { 0 < blocks.now.machine.cycles }
    ensures { Writes S.taken S.failures (cycle_line blocks.now.machine ++
        events_text blocks.now.machine.events blocks.now.machine.stops) buffer.old buffer.new }
{
    put_number(buffer, blocks.done() - 1);
    put_events(buffer, blocks);
}

/// Writes the first line of a cycle, such as `cycle 0`.
fn put_number<S: Sink>(buffer: &mut TextBuffer<'_, S>, number: u32)
    ensures { Writes S.taken S.failures
        (codes "cycle " ++ decimal number ++ newline) buffer.old buffer.new }
{
    let at = buffer.begin();
    let at = write_with_word(buffer, at, b"cycle ", number);
    end_line(buffer, at);
}
