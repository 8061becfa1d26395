//! The texts of messages, of records, of faults and of what processing elements are doing.

ghost use Rattle.std.specs.Prelude.{◌≡◌, ℕ, ◌+◌, ◌<◌, ◌≤◌, List, ◌++◌, codes, decimal};
ghost use Rattle.ultra_model.specs.Text.{op_text, identity_text, request_text, mark_text, entry_text, reply_text, message_text, give_text, record_text, fault_text, activity_text, newline};
ghost use Rattle.ultra_model.specs.Trace.{unit_name, stage_name};
ghost use Rattle.ultra_io.specs.{TextBuffer.{Begins, Ends, GoesOn, Writes}, declared.filled_bytes.TheConstants.BUFFER_BYTES};

use ultra_io::TextBuffer;
use ultra_isa::{Activity, MachineFault};
use ultra_msg::{Cell, Give, Op, Pe, Reply, ReplyMessage, Request, Sink};
use ultra_switch::{QueueEntry, WaitRecord};

/// Writes bytes, then a word: at most N + 10 bytes.
#[inline(always)]
pub(crate) fn write_with_word<S: Sink, const N: usize>(
    buffer: &mut TextBuffer<'_, S>,
    at: usize,
    bytes: &[u8; N],
    word: u32,
) -> usize
    requires { at + N + 10 ≤ BUFFER_BYTES }
    ensures goes_on { GoesOn S.taken S.failures
        (bytes.now ++ decimal word) buffer.old at buffer.new result }
    ensures few { result ≤ at + N + 10 }
{
    let at = buffer.write(at, bytes);
    buffer.write_number(at, word)
}

/// Writes an operation, such as `faa 1`: at most 16 bytes.
#[inline(always)]
fn write_op<S: Sink>(buffer: &mut TextBuffer<'_, S>, at: usize, op: Op) -> usize
    requires { at + 16 ≤ BUFFER_BYTES }
    ensures goes_on { GoesOn S.taken S.failures (op_text op) buffer.old at buffer.new result }
    ensures few { result ≤ at + 16 }
{
    match op {
        Op::Load => buffer.write(at, b"load"),
        Op::Store(word) => write_with_word(buffer, at, b"store ", word),
        Op::Faa(word) => write_with_word(buffer, at, b"faa ", word),
        Op::Swap(word) => write_with_word(buffer, at, b"swap ", word),
    }
}

/// Writes the identity of a message, as `0@5`: at most 21 bytes.
#[inline(always)]
fn write_identity<S: Sink>(buffer: &mut TextBuffer<'_, S>, at: usize, pe: Pe, cell: Cell) -> usize
    requires { at + 21 ≤ BUFFER_BYTES }
    ensures goes_on { GoesOn S.taken S.failures
        (identity_text pe cell) buffer.old at buffer.new result }
    ensures few { result ≤ at + 21 }
{
    let at = buffer.write_number(at, pe);
    let at = buffer.write(at, b"@");
    buffer.write_number(at, cell)
}

/// Writes a request, as `0@5 faa 1`: at most 38 bytes.
#[inline(always)]
pub(crate) fn write_request<S: Sink>(
    buffer: &mut TextBuffer<'_, S>,
    at: usize,
    request: Request,
) -> usize
    requires { at + 38 ≤ BUFFER_BYTES }
    ensures goes_on { GoesOn S.taken S.failures
        (request_text request) buffer.old at buffer.new result }
    ensures few { result ≤ at + 38 }
{
    let at = write_identity(buffer, at, request.pe, request.cell);
    let at = buffer.write(at, b" ");
    write_op(buffer, at, request.op)
}

/// Writes an entry of a queue toward memory: a request, and ` *` if it has combined there. That
/// takes at most 40 bytes.
#[inline(always)]
pub(crate) fn write_entry<S: Sink>(
    buffer: &mut TextBuffer<'_, S>,
    at: usize,
    entry: QueueEntry,
) -> usize
    requires { at + 40 ≤ BUFFER_BYTES }
    ensures goes_on { GoesOn S.taken S.failures (entry_text entry) buffer.old at buffer.new result }
    ensures few { result ≤ at + 40 }
{
    let at = write_request(buffer, at, entry.request);
    write_mark(buffer, at, entry.combined)
}

/// Writes what marks an entry that has combined.
#[inline(always)]
fn write_mark<S: Sink>(buffer: &mut TextBuffer<'_, S>, at: usize, combined: bool) -> usize
    requires { at + 2 ≤ BUFFER_BYTES }
    ensures goes_on { GoesOn S.taken S.failures
        (mark_text combined) buffer.old at buffer.new result }
    ensures few { result ≤ at + 2 }
{
    if combined {
        buffer.write(at, b" *")
    } else {
        at
    }
}

/// Writes a reply: its value, or `ack`. That takes at most 10 bytes.
#[inline(always)]
pub(crate) fn write_reply<S: Sink>(buffer: &mut TextBuffer<'_, S>, at: usize, reply: Reply) -> usize
    requires { at + 10 ≤ BUFFER_BYTES }
    ensures goes_on { GoesOn S.taken S.failures (reply_text reply) buffer.old at buffer.new result }
    ensures few { result ≤ at + 10 }
{
    match reply {
        Reply::Value(word) => buffer.write_number(at, word),
        Reply::Ack => buffer.write(at, b"ack"),
    }
}

/// Writes a reply with its identity, as `0@5 = 1`: at most 34 bytes.
#[inline(always)]
pub(crate) fn write_message<S: Sink>(
    buffer: &mut TextBuffer<'_, S>,
    at: usize,
    message: ReplyMessage,
) -> usize
    requires { at + 34 ≤ BUFFER_BYTES }
    ensures goes_on { GoesOn S.taken S.failures
        (message_text message) buffer.old at buffer.new result }
    ensures few { result ≤ at + 34 }
{
    let at = write_identity(buffer, at, message.pe, message.cell);
    let at = buffer.write(at, b" = ");
    write_reply(buffer, at, message.reply)
}

/// Writes a way of answering, such as `plus 1`: at most 16 bytes.
fn write_give<S: Sink>(buffer: &mut TextBuffer<'_, S>, at: usize, give: Give) -> usize
    requires { at + 16 ≤ BUFFER_BYTES }
    ensures goes_on { GoesOn S.taken S.failures (give_text give) buffer.old at buffer.new result }
    ensures few { result ≤ at + 16 }
{
    match give {
        Give::Same => buffer.write(at, b"same"),
        Give::Plus(word) => write_with_word(buffer, at, b"plus ", word),
        Give::Fixed(word) => write_with_word(buffer, at, b"fixed ", word),
        Give::Ack => buffer.write(at, b"ack"),
    }
}

/// Writes a record of a wait buffer, as `1@0 same 0 plus 1`: at most 66 bytes.
#[inline(always)]
pub(crate) fn write_record<S: Sink>(
    buffer: &mut TextBuffer<'_, S>,
    at: usize,
    kept: WaitRecord,
) -> usize
    requires { at + 66 ≤ BUFFER_BYTES }
    ensures goes_on { GoesOn S.taken S.failures (record_text kept) buffer.old at buffer.new result }
    ensures few { result ≤ at + 66 }
{
    let at = write_identity(buffer, at, kept.pe, kept.cell);
    let at = buffer.write(at, b" ");
    let at = write_give(buffer, at, kept.give_old);
    let at = buffer.write(at, b" ");
    let at = buffer.write_number(at, kept.partner);
    let at = buffer.write(at, b" ");
    write_give(buffer, at, kept.give_new)
}

/// Begins a line that belongs to a module or a processing element, as `inp 0: `. The word has at
/// most 5 bytes, with the space behind it.
#[inline(always)]
pub(crate) fn begin_unit<S: Sink, const N: usize>(
    buffer: &mut TextBuffer<'_, S>,
    word: &[u8; N],
    unit: u32,
) -> usize
    requires { N ≤ 5 }
    ensures goes_on { (name : List ℕ) → word.now ≡ name ++ codes " " →
        Begins S.taken S.failures (unit_name name unit ++ codes ": ") buffer.old buffer.new result }
    ensures room { result + 100 ≤ BUFFER_BYTES }
{
    let at = buffer.begin();
    let at = buffer.write(at, word);
    let at = buffer.write_number(at, unit);
    buffer.write(at, b": ")
}

/// Begins a line that belongs to a position of a stage, such as `req 0 1: `. The word has at most 5
/// bytes, with the space behind it.
#[inline(always)]
pub(crate) fn begin_place<S: Sink, const N: usize>(
    buffer: &mut TextBuffer<'_, S>,
    word: &[u8; N],
    stage: u32,
    position: u32,
) -> usize
    requires { N ≤ 5 }
    ensures goes_on { (name : List ℕ) → word.now ≡ name ++ codes " " → Begins S.taken S.failures
        (stage_name name stage position ++ codes ": ") buffer.old buffer.new result }
    ensures room { result + 100 ≤ BUFFER_BYTES }
{
    let at = buffer.begin();
    let at = buffer.write(at, word);
    let at = buffer.write_number(at, stage);
    let at = buffer.write(at, b" ");
    let at = buffer.write_number(at, position);
    buffer.write(at, b": ")
}

/// Ends a line at a position.
#[inline(always)]
pub(crate) fn end_line<S: Sink>(buffer: &mut TextBuffer<'_, S>, at: usize)
    requires { at < BUFFER_BYTES }
    ensures { Ends S.taken S.failures newline buffer.old at buffer.new }
{
    let end = buffer.write(at, b"\n");
    buffer.end(end);
}

/// Writes a fault, `f1` or `f2`.
pub(crate) fn put_fault<S: Sink>(buffer: &mut TextBuffer<'_, S>, fault: MachineFault)
    ensures { Writes S.taken S.failures (fault_text fault) buffer.old buffer.new }
{
    match fault {
        MachineFault::AddressOutOfRange => buffer.put(b"f1"),
        MachineFault::PastEnd => buffer.put(b"f2"),
    }
}

/// Writes what a processing element is doing.
pub(crate) fn put_activity<S: Sink>(buffer: &mut TextBuffer<'_, S>, activity: Activity)
    ensures { Writes S.taken S.failures (activity_text activity) buffer.old buffer.new }
{
    match activity {
        Activity::Running => buffer.put(b"running"),
        Activity::Halted => buffer.put(b"halted"),
        Activity::Faulted(fault) => put_fault(buffer, fault),
    }
}

/// Writes bytes, then a word.
pub(crate) fn put_with_word<S: Sink>(buffer: &mut TextBuffer<'_, S>, bytes: &[u8], word: u32)
    ensures { Writes S.taken S.failures (bytes.now ++ decimal word) buffer.old buffer.new }
{
    buffer.put(bytes);
    buffer.put_number(word);
}
