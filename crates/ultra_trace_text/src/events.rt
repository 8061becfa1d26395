//! The lines of what happened in a cycle.

ghost use Rattle.std.specs.Prelude.{◌≡◌};
ghost use Rattle.ultra_io.specs.TextBuffer.{Writes};
ghost use Rattle.ultra_model.specs.Trace.{got_line, act_line, fault_line, events_text};

use crate::texts::{
    end_line, put_fault, put_with_word, write_message, write_reply, write_request, write_with_word,
};
use ultra_block::Blocks;
use ultra_io::TextBuffer;
use ultra_model::Stop;
use ultra_msg::{Event, Sink};

/// Writes the lines of what happened in the last cycle: first what was delivered, then what was
/// served, then who faulted.
#[inline(always)]
pub(crate) fn put_events<S: Sink>(buffer: &mut TextBuffer<'_, S>, blocks: &Blocks)
    ensures { Writes S.taken S.failures
        (events_text blocks.now.machine.events blocks.now.machine.stops) buffer.old buffer.new }
{
    if blocks.is_in_one_block() {
        put_events_of_one(buffer, blocks);
    } else {
        put_events_of_several(buffer, blocks);
    }
}

/// Writes the lines of what happened in a machine in one block.
#[inline(always)]
fn put_events_of_one<S: Sink>(buffer: &mut TextBuffer<'_, S>, blocks: &Blocks)
    requires { blocks.now.count ≡ 1 }
    ensures { Writes S.taken S.failures
        (events_text blocks.now.machine.events blocks.now.machine.stops) buffer.old buffer.new }
{
    for event in blocks.events_of_one() {
        put_got(buffer, event);
    }
    for event in blocks.events_of_one() {
        put_act(buffer, event);
    }
    for stop in blocks.stops_of_one() {
        put_stop(buffer, *stop);
    }
}

/// Writes the lines of what happened in a machine in several blocks, whose events are merged.
#[cold]
#[inline(never)]
fn put_events_of_several<S: Sink>(buffer: &mut TextBuffer<'_, S>, blocks: &Blocks)
    ensures { Writes S.taken S.failures
        (events_text blocks.now.machine.events blocks.now.machine.stops) buffer.old buffer.new }
{
    for event in blocks.events() {
        put_got(buffer, &event);
    }
    for event in blocks.events() {
        put_act(buffer, &event);
    }
    for stop in blocks.stops() {
        put_stop(buffer, stop);
    }
}

/// Writes the line of a delivery, such as `got 0@5 = 1`; other events have none.
#[inline(always)]
fn put_got<S: Sink>(buffer: &mut TextBuffer<'_, S>, event: &Event)
    ensures { Writes S.taken S.failures (got_line event.now) buffer.old buffer.new }
{
    if let Event::Delivered(message) = *event {
        let at = buffer.begin();
        let at = buffer.write(at, b"got ");
        let at = write_message(buffer, at, message);
        end_line(buffer, at);
    }
}

/// Writes the line of a serving, such as `act 0 1@0 faa 2 = 0 now 2`; other events have none.
#[inline(always)]
fn put_act<S: Sink>(buffer: &mut TextBuffer<'_, S>, event: &Event)
    ensures { Writes S.taken S.failures (act_line event.now) buffer.old buffer.new }
{
    if let Event::Served {
        module,
        request,
        reply,
        now,
    } = *event
    {
        let at = buffer.begin();
        let at = write_with_word(buffer, at, b"act ", module);
        let at = buffer.write(at, b" ");
        let at = write_request(buffer, at, request);
        let at = buffer.write(at, b" = ");
        let at = write_reply(buffer, at, reply);
        let at = buffer.write(at, b" now ");
        let at = buffer.write_number(at, now);
        end_line(buffer, at);
    }
}

/// Writes the line of a processing element that has faulted, such as `fault 1 f2`.
fn put_stop<S: Sink>(buffer: &mut TextBuffer<'_, S>, stop: Stop)
    ensures { Writes S.taken S.failures (fault_line stop) buffer.old buffer.new }
{
    put_with_word(buffer, b"fault ", stop.pe);
    buffer.put(b" ");
    put_fault(buffer, stop.fault);
    buffer.put(b"\n");
}
