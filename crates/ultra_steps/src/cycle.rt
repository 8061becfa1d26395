//! The lines of a cycle, as copies of the processing elements make it too.

ghost use Rattle.std.specs.{Prelude.{◌≡◌, ℕ, ◌+◌, ◌-◌, ◌^◌, ◌<◌, ◌≤◌, [], IfSome, length, slice_get, vec_capacity}};
ghost use Rattle.ultra_io.specs.TextBuffer.{Writes};
ghost use Rattle.ultra_latency.specs.Open.{rows_after, HavePlaces, IsOpenTable};
ghost use Rattle.ultra_model.specs.{declared.config.TheConstants.MOST_CYCLES, Machine.{element_at, size}, Phases.after, Trace.by_number};
ghost use Rattle.ultra_pni.specs.Interface.{CanDeliver};
ghost use Rattle.ultra_requests.specs.{Along.number_in_rows, EventLines.if_shown};
ghost use Rattle.ultra_trace_alone.specs.BlocksAfter.{IsAfter};
ghost use Rattle.ultra_unit_steps.specs.Elements.{delivered_to, element_of, step_at};
ghost use Rattle.ultra_steps.specs.{Copies.{AreCopies, stepped_copy}, RegisterSettings.{before_steps, reply_among}};
ghost use Rattle.ultra_steps.specs.StepLines.{reply_line, reply_line_at, step_line_if, step_line_at};

use crate::copies::{deliver, make_step};
use crate::lines::{StepMade, put_reply, put_step};
use ultra_block::Blocks;
use ultra_io::TextBuffer;
use ultra_isa::Program;
use ultra_latency::{OpenTable, law_of_open_requests};
use ultra_msg::{Cell, Event, Pe, ReplyMessage, Sink};
use ultra_unit_steps::ProcessingElement;

/// The deliveries of the last cycle come to the copies. Writes their lines, if they are shown.
pub(crate) fn put_replies<S: Sink>(
    buffer: &mut TextBuffer<'_, S>,
    copies: &mut [ProcessingElement],
    table: &OpenTable,
    blocks: &Blocks,
    cycle: u32,
    is_shown: bool,
)
    requires one { blocks.now.count ≡ 1 }
    requires made { IsAfter blocks.now.config blocks.now.program (cycle + 1) blocks.now }
    requires table { IsOpenTable blocks.now.config blocks.now.program cycle table.now }
    requires copies { AreCopies blocks.now.config
        (element_at (after blocks.now.config blocks.now.program cycle)) copies.old }
    ensures copies { AreCopies blocks.now.config
        (element_at (before_steps blocks.now.config blocks.now.program cycle)) copies.new }
    ensures writes { Writes S.taken S.failures (if_shown is_shown
        (by_number (size blocks.now.config)
        (reply_line_at blocks.now.config blocks.now.program cycle))) buffer.old buffer.new }
{
    // for the prover: the settings are in their ranges
    let _valid = blocks.config().initial();
    let events = blocks.events_of_one();
    let mut next = 0;
    for pe in 0..blocks.config().net().size() {
        let reply = reply_to(events, next, pe);
        next += usize::from(reply.is_some());
        put_reply_to(
            buffer,
            &mut copies[pe as usize],
            table,
            pe,
            reply,
            cycle,
            is_shown,
        );
    }
}

/// The reply at a place of a cycle's events, if it is for this processing element.
fn reply_to(events: &[Event], place: usize, pe: Pe) -> Option<ReplyMessage>
    ensures { result ≡ reply_among pe (slice_get events.now place) }
{
    match events.get(place) {
        Some(Event::Delivered(reply)) if reply.pe == pe => Some(*reply),
        _ => None,
    }
}

/// What is delivered to a processing element comes to its copy. Writes the line, if it is shown.
fn put_reply_to<S: Sink>(
    buffer: &mut TextBuffer<'_, S>,
    copy: &mut ProcessingElement,
    table: &OpenTable,
    pe: Pe,
    reply: Option<ReplyMessage>,
    cycle: u32,
    is_shown: bool,
)
    requires can { IfSome reply (λ r. CanDeliver r.cell copy.old.interface.interface) }
    requires row { pe < length table.now.rows.items }
    ensures copy { copy.new ≡ delivered_to copy.old reply }
    ensures writes { Writes S.taken S.failures (if_shown is_shown (reply_line cycle pe
        (number_in_rows table.now.rows.items pe) (element_of copy.old) reply))
        buffer.old buffer.new }
{
    let Some(reply) = reply else {
        return;
    };
    let setting = deliver(copy, reply);
    if is_shown {
        let number = open_number(table, pe, reply.cell);
        put_reply(buffer, cycle, pe, number, reply.cell, setting);
    }
}

/// The number of the open request of a processing element for a cell.
fn open_number(table: &OpenTable, pe: Pe, cell: Cell) -> u32
    requires { pe < length table.now.rows.items }
    ensures { result ≡ number_in_rows table.now.rows.items pe cell }
{
    match table.request(pe, cell) {
        Some(request) => request.number,
        None => 0,
    }
}

/// The copies make the steps of the last cycle. Writes the lines of these, if they are shown.
pub(crate) fn put_steps<S: Sink>(
    buffer: &mut TextBuffer<'_, S>,
    copies: &mut [ProcessingElement],
    blocks: &Blocks,
    cycle: u32,
    is_shown: bool,
)
    requires early { cycle < MOST_CYCLES }
    requires copies { AreCopies blocks.now.config
        (element_at (before_steps blocks.now.config blocks.now.program cycle)) copies.old }
    ensures copies { AreCopies blocks.now.config
        (element_at (after blocks.now.config blocks.now.program (cycle + 1))) copies.new }
    ensures writes { Writes S.taken S.failures (if_shown is_shown
        (by_number (size blocks.now.config)
        (step_line_at blocks.now.config blocks.now.program cycle))) buffer.old buffer.new }
{
    for pe in 0..blocks.config().net().size() {
        put_step_of(
            buffer,
            &mut copies[pe as usize],
            blocks.program(),
            pe,
            cycle,
            is_shown,
        );
    }
}

/// The copy of a processing element makes its step. Writes its line, if it is shown.
fn put_step_of<S: Sink>(
    buffer: &mut TextBuffer<'_, S>,
    copy: &mut ProcessingElement,
    program: &Program,
    pe: Pe,
    cycle: u32,
    is_shown: bool,
)
    requires pe { pe ≡ copy.old.processor.site.pe }
    requires none { copy.old.interface.interface.pending ≡ [] }
    requires few { copy.old.issued < 2 ^ 32 - 1 }
    ensures copy { copy.new ≡ stepped_copy program.now copy.old }
    ensures writes { Writes S.taken S.failures (if_shown is_shown (step_line_if cycle
        copy.old.processor.site copy.old.processor.core copy.old.issued
        (step_at program.now copy.old).was
        (slice_get program.now copy.old.processor.core.pc))) buffer.old buffer.new }
{
    let before = copy.processor;
    let issued = copy.issued;
    let was = make_step(copy, program);
    if is_shown {
        let instruction = program.instruction(before.pc());
        let made = StepMade {
            pe,
            issued,
            before,
            was,
        };
        put_step(buffer, cycle, &made, instruction, &copy.processor);
    }
}

/// Updates the open requests by the events of a cycle.
pub(crate) fn note_events(table: &mut OpenTable, events: &[Event], cycle: u32)
    requires { HavePlaces cycle table.old.rows.items events.now }
    ensures rows { table.new.rows.items ≡ rows_after cycle table.old.rows.items events.now }
    ensures capacity { vec_capacity table.new.rows ≡ vec_capacity table.old.rows }
{
    for event in events {
        table.note(event, cycle);
    }
}
