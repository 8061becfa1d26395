//! The rows of the table of requests.

ghost use Rattle.std.specs.Prelude.{◌≡◌, ◌+◌, ◌<◌, ◌≤◌, ◌++◌, None, length, codes};
ghost use Rattle.ultra_io.specs.{TextBuffer.{Begins, Writes}, declared.filled_bytes.TheConstants.BUFFER_BYTES};
ghost use Rattle.ultra_requests.specs.Along.{answered_line, answer_if, logged_issue, waiting_all, waiting_line, waiting_text};
ghost use Rattle.ultra_requests.specs.RequestTable.{header_line, issue_text, row_line};

use crate::texts::{end_line, write_op_name, write_reply, write_word};
use ultra_io::TextBuffer;
use ultra_latency::{OpenRequest, OpenTable};
use ultra_msg::{Event, Pe, ReplyMessage, Sink};

/// Writes the first line, which names the columns.
pub(crate) fn put_header<S: Sink>(buffer: &mut TextBuffer<'_, S>)
    ensures { Writes S.taken S.failures header_line buffer.old buffer.new }
{
    buffer.put(b"pe,number,op,cell,word,issued,answered,reply\n");
}

/// Writes the row of the request that an event of a cycle answers; other events have none.
pub(crate) fn put_answered<S: Sink>(
    buffer: &mut TextBuffer<'_, S>,
    event: &Event,
    answered: Option<OpenRequest>,
    cycle: u32,
)
    ensures { Writes S.taken S.failures
        (answered_line cycle event.now answered) buffer.old buffer.new }
{
    if let Event::Delivered(reply) = *event {
        put_answer(buffer, reply, answered, cycle);
    }
}

/// Writes the row of a request that a reply answers.
fn put_answer<S: Sink>(
    buffer: &mut TextBuffer<'_, S>,
    reply: ReplyMessage,
    answered: Option<OpenRequest>,
    cycle: u32,
)
    ensures { Writes S.taken S.failures (answer_if cycle reply answered) buffer.old buffer.new }
{
    if let Some(request) = answered {
        let at = begin_row(buffer, reply.pe, request);
        let at = buffer.write_number(at, cycle);
        let at = buffer.write(at, b",");
        let at = write_reply(buffer, at, reply.reply);
        end_line(buffer, at);
    }
}

/// Begins the row of a request, as `0,0,faa,0,1,2,`: what was issued.
#[inline(always)]
fn begin_row<S: Sink>(buffer: &mut TextBuffer<'_, S>, pe: Pe, request: OpenRequest) -> usize
    ensures goes_on { Begins S.taken S.failures
        (issue_text (logged_issue pe request) ++ codes ",") buffer.old buffer.new result }
    ensures room { result + 60 ≤ BUFFER_BYTES }
{
    let at = buffer.begin();
    let at = buffer.write_number(at, pe);
    let at = buffer.write(at, b",");
    let at = buffer.write_number(at, request.number);
    let at = buffer.write(at, b",");
    let at = write_op_name(buffer, at, request.op);
    let at = buffer.write(at, b",");
    let at = buffer.write_number(at, request.cell);
    let at = buffer.write(at, b",");
    let at = write_word(buffer, at, request.op);
    let at = buffer.write(at, b",");
    let at = buffer.write_number(at, request.cycle);
    buffer.write(at, b",")
}

/// Writes the row of a request without an answer, as `0,0,faa,0,1,2,,`.
fn put_waiting_row<S: Sink>(buffer: &mut TextBuffer<'_, S>, pe: Pe, request: OpenRequest)
    ensures { Writes S.taken S.failures (waiting_line pe request) buffer.old buffer.new }
{
    let at = begin_row(buffer, pe, request);
    let at = buffer.write(at, b",");
    end_line(buffer, at);
}

/// Writes the rows of the open requests of a processing element.
fn put_waiting_of<S: Sink>(buffer: &mut TextBuffer<'_, S>, pe: Pe, requests: &[OpenRequest])
    ensures { Writes S.taken S.failures (waiting_text pe requests.now) buffer.old buffer.new }
{
    for request in requests {
        put_waiting_row(buffer, pe, *request);
    }
}

/// Writes the rows of the open requests of n processing elements, by number.
pub(crate) fn put_waiting<S: Sink>(buffer: &mut TextBuffer<'_, S>, table: &OpenTable, pes: u32)
    requires { pes ≤ length table.now.rows.items }
    ensures { Writes S.taken S.failures
        (waiting_all pes table.now.rows.items) buffer.old buffer.new }
{
    for pe in 0..pes {
        put_waiting_of(buffer, pe, table.requests(pe));
    }
}
