//! The line of an event, and that of a fault.

ghost use Rattle.std.specs.Prelude.{◌≡◌, ◌<◌, ◌++◌, length, codes, decimal};
ghost use Rattle.ultra_model.specs.Text.{newline, op_text, reply_text};
ghost use Rattle.ultra_io.specs.TextBuffer.{Writes};
ghost use Rattle.ultra_requests.specs.{Along.{event_line_at, number_in_rows, HasRows}, EventLines.{named_text, stop_line}};

use crate::texts::{
    begin_line, end_line, write_fault, write_named, write_op, write_order, write_reply,
};
use ultra_io::TextBuffer;
use ultra_latency::OpenTable;
use ultra_model::Stop;
use ultra_msg::{Cell, Event, Pe, Reply, ReplyMessage, Request, Sink, Word};

/// Writes the line of an event of a cycle, by the open requests before it.
pub(crate) fn put_event<S: Sink>(
    buffer: &mut TextBuffer<'_, S>,
    table: &OpenTable,
    event: &Event,
    cycle: u32,
)
    requires { HasRows table.now.rows.items event.now }
    ensures { Writes S.taken S.failures
        (event_line_at cycle table.now.rows.items event.now) buffer.old buffer.new }
{
    match *event {
        Event::Delivered(reply) => put_answer(buffer, table, reply, cycle),
        Event::Served {
            module,
            request,
            reply,
            now,
        } => put_act(buffer, table, module, request, reply, now, cycle),
        Event::Combined {
            stage,
            position,
            cell,
            old,
            new,
            old_first,
        } => {
            let old_number = open_number(table, old, cell);
            let new_number = open_number(table, new, cell);
            let at = begin_line(buffer, cycle, b" combine s");
            let at = buffer.write_number(at, stage);
            let at = buffer.write(at, b"x");
            let at = buffer.write_number(at, position);
            let at = buffer.write(at, b" ");
            let at = write_named(buffer, at, old, old_number, cell);
            let at = write_order(buffer, at, old_first);
            let at = write_named(buffer, at, new, new_number, cell);
            end_line(buffer, at);
        }
        Event::Issued { request, number } => put_issue(buffer, request, number, cycle),
    }
}

/// The number of the open request of a processing element for a cell.
fn open_number(table: &OpenTable, pe: Pe, cell: Cell) -> u32
    requires { pe < length table.now.rows.items }
    ensures { result ≡ number_in_rows table.now.rows.items pe cell }
{
    match table.request(pe, cell) {
        Some(request) => request.number,
        None => 0,
    }
}

/// Writes the line of a delivery, as `7 answer 0.0@0 = 1`.
fn put_answer<S: Sink>(
    buffer: &mut TextBuffer<'_, S>,
    table: &OpenTable,
    reply: ReplyMessage,
    cycle: u32,
)
    requires { reply.pe < length table.now.rows.items }
    ensures { Writes S.taken S.failures (decimal cycle ++ codes " answer " ++
        named_text reply.pe (number_in_rows table.now.rows.items reply.pe reply.cell) reply.cell ++
        codes " = " ++ reply_text reply.reply ++ newline) buffer.old buffer.new }
{
    let number = open_number(table, reply.pe, reply.cell);
    let at = begin_line(buffer, cycle, b" answer ");
    let at = write_named(buffer, at, reply.pe, number, reply.cell);
    let at = buffer.write(at, b" = ");
    let at = write_reply(buffer, at, reply.reply);
    end_line(buffer, at);
}

/// Writes the line of a serving, as `5 act 0 1.0@0 faa 2 = 0 now 2`.
fn put_act<S: Sink>(
    buffer: &mut TextBuffer<'_, S>,
    table: &OpenTable,
    module_number: u32,
    request: Request,
    reply: Reply,
    now: Word,
    cycle: u32,
)
    requires { request.pe < length table.now.rows.items }
    ensures { Writes S.taken S.failures
        (decimal cycle ++ codes " act " ++ decimal module_number ++ codes " " ++
        named_text request.pe (number_in_rows table.now.rows.items request.pe request.cell)
        request.cell ++ codes " " ++ op_text request.op ++ codes " = " ++ reply_text reply ++
        codes " now " ++ decimal now ++ newline) buffer.old buffer.new }
{
    let number = open_number(table, request.pe, request.cell);
    let at = begin_line(buffer, cycle, b" act ");
    let at = buffer.write_number(at, module_number);
    let at = buffer.write(at, b" ");
    let at = write_named(buffer, at, request.pe, number, request.cell);
    let at = buffer.write(at, b" ");
    let at = write_op(buffer, at, request.op);
    let at = buffer.write(at, b" = ");
    let at = write_reply(buffer, at, reply);
    let at = buffer.write(at, b" now ");
    let at = buffer.write_number(at, now);
    end_line(buffer, at);
}

/// Writes the line of an issue, as `2 issue 0.0@0 faa 1`.
fn put_issue<S: Sink>(buffer: &mut TextBuffer<'_, S>, request: Request, number: u32, cycle: u32)
    ensures { Writes S.taken S.failures
        (decimal cycle ++ codes " issue " ++ named_text request.pe number request.cell ++
        codes " " ++ op_text request.op ++ newline) buffer.old buffer.new }
{
    let at = begin_line(buffer, cycle, b" issue ");
    let at = write_named(buffer, at, request.pe, number, request.cell);
    let at = buffer.write(at, b" ");
    let at = write_op(buffer, at, request.op);
    end_line(buffer, at);
}

/// Writes the line of a processing element that has faulted, as `4 fault 1 f2`.
pub(crate) fn put_stop<S: Sink>(buffer: &mut TextBuffer<'_, S>, stop: Stop, cycle: u32)
    ensures { Writes S.taken S.failures (stop_line cycle stop) buffer.old buffer.new }
{
    let at = begin_line(buffer, cycle, b" fault ");
    let at = buffer.write_number(at, stop.pe);
    let at = buffer.write(at, b" ");
    let at = write_fault(buffer, at, stop.fault);
    end_line(buffer, at);
}
