//! The texts of names, of operations and of replies.

ghost use Rattle.std.specs.Prelude.{◌≡◌, ◌+◌, ◌<◌, ◌≤◌, ◌++◌, codes, decimal};
ghost use Rattle.ultra_model.specs.Text.{fault_text, newline, op_text, reply_text};
ghost use Rattle.ultra_io.specs.{TextBuffer.{Begins, Ends, GoesOn}, declared.filled_bytes.TheConstants.BUFFER_BYTES};
ghost use Rattle.ultra_requests.specs.{EventLines.{named_text, order_sign}, RequestTable.{op_name, word_text}};

use ultra_io::TextBuffer;
use ultra_isa::MachineFault;
use ultra_msg::{Cell, Op, Pe, Reply, Sink};

/// Begins a line with the number of a cycle and a word of at most 10 bytes, as `7 answer `.
#[inline(always)]
pub(crate) fn begin_line<S: Sink, const N: usize>(
    buffer: &mut TextBuffer<'_, S>,
    cycle: u32,
    word: &[u8; N],
) -> usize
    requires { N ≤ 10 }
    ensures goes_on { Begins S.taken S.failures
        (decimal cycle ++ word.now) buffer.old buffer.new result }
    ensures room { result + 100 ≤ BUFFER_BYTES }
{
    let at = buffer.begin();
    let at = buffer.write_number(at, cycle);
    buffer.write(at, word)
}

/// Ends a line at a position.
#[inline(always)]
pub(crate) fn end_line<S: Sink>(buffer: &mut TextBuffer<'_, S>, at: usize)
    requires { at < BUFFER_BYTES }
    ensures { Ends S.taken S.failures newline buffer.old at buffer.new }
{
    let end = buffer.write(at, b"\n");
    buffer.end(end);
}

/// Writes a request by its name and cell, as `1.0@5`: at most 32 bytes.
#[inline(always)]
pub(crate) fn write_named<S: Sink>(
    buffer: &mut TextBuffer<'_, S>,
    at: usize,
    pe: Pe,
    number: u32,
    cell: Cell,
) -> usize
    requires { at + 32 ≤ BUFFER_BYTES }
    ensures goes_on { GoesOn S.taken S.failures
        (named_text pe number cell) buffer.old at buffer.new result }
    ensures few { result ≤ at + 32 }
{
    let at = buffer.write_number(at, pe);
    let at = buffer.write(at, b".");
    let at = buffer.write_number(at, number);
    let at = buffer.write(at, b"@");
    buffer.write_number(at, cell)
}

/// Writes bytes, then a word: at most N + 10 bytes.
#[inline(always)]
fn write_with_word<S: Sink, const N: usize>(
    buffer: &mut TextBuffer<'_, S>,
    at: usize,
    bytes: &[u8; N],
    word: u32,
) -> usize
    requires { at + N + 10 ≤ BUFFER_BYTES }
    ensures goes_on { GoesOn S.taken S.failures
        (bytes.now ++ decimal word) buffer.old at buffer.new result }
    ensures few { result ≤ at + N + 10 }
{
    let at = buffer.write(at, bytes);
    buffer.write_number(at, word)
}

/// Writes an operation, such as `faa 1`: at most 16 bytes.
#[inline(always)]
pub(crate) fn write_op<S: Sink>(buffer: &mut TextBuffer<'_, S>, at: usize, op: Op) -> usize
    requires { at + 16 ≤ BUFFER_BYTES }
    ensures goes_on { GoesOn S.taken S.failures (op_text op) buffer.old at buffer.new result }
    ensures few { result ≤ at + 16 }
{
    match op {
        Op::Load => buffer.write(at, b"load"),
        Op::Store(word) => write_with_word(buffer, at, b"store ", word),
        Op::Faa(word) => write_with_word(buffer, at, b"faa ", word),
        Op::Swap(word) => write_with_word(buffer, at, b"swap ", word),
    }
}

/// Writes which of two requests comes first, the old one or the new one.
#[inline(always)]
pub(crate) fn write_order<S: Sink>(
    buffer: &mut TextBuffer<'_, S>,
    at: usize,
    old_first: bool,
) -> usize
    requires { at + 3 ≤ BUFFER_BYTES }
    ensures goes_on { GoesOn S.taken S.failures
        (order_sign old_first) buffer.old at buffer.new result }
    ensures few { result ≤ at + 3 }
{
    if old_first {
        buffer.write(at, b" < ")
    } else {
        buffer.write(at, b" > ")
    }
}

/// Writes a fault, `f1` or `f2`.
pub(crate) fn write_fault<S: Sink>(
    buffer: &mut TextBuffer<'_, S>,
    at: usize,
    fault: MachineFault,
) -> usize
    requires { at + 2 ≤ BUFFER_BYTES }
    ensures goes_on { GoesOn S.taken S.failures (fault_text fault) buffer.old at buffer.new result }
    ensures few { result ≤ at + 2 }
{
    match fault {
        MachineFault::AddressOutOfRange => buffer.write(at, b"f1"),
        MachineFault::PastEnd => buffer.write(at, b"f2"),
    }
}

/// Writes the name of an operation: at most 5 bytes.
#[inline(always)]
pub(crate) fn write_op_name<S: Sink>(buffer: &mut TextBuffer<'_, S>, at: usize, op: Op) -> usize
    requires { at + 5 ≤ BUFFER_BYTES }
    ensures goes_on { GoesOn S.taken S.failures (op_name op) buffer.old at buffer.new result }
    ensures few { result ≤ at + 5 }
{
    match op {
        Op::Load => buffer.write(at, b"load"),
        Op::Store(_) => buffer.write(at, b"store"),
        Op::Faa(_) => buffer.write(at, b"faa"),
        Op::Swap(_) => buffer.write(at, b"swap"),
    }
}

/// Writes the word of an operation, and nothing for a load: at most 10 bytes.
#[inline(always)]
pub(crate) fn write_word<S: Sink>(buffer: &mut TextBuffer<'_, S>, at: usize, op: Op) -> usize
    requires { at + 10 ≤ BUFFER_BYTES }
    ensures goes_on { GoesOn S.taken S.failures (word_text op) buffer.old at buffer.new result }
    ensures few { result ≤ at + 10 }
{
    match op {
        Op::Load => buffer.write(at, b""),
        Op::Store(word) | Op::Faa(word) | Op::Swap(word) => buffer.write_number(at, word),
    }
}

/// Writes a reply: its value, or `ack`. That takes at most 10 bytes.
#[inline(always)]
pub(crate) fn write_reply<S: Sink>(buffer: &mut TextBuffer<'_, S>, at: usize, reply: Reply) -> usize
    requires { at + 10 ≤ BUFFER_BYTES }
    ensures goes_on { GoesOn S.taken S.failures (reply_text reply) buffer.old at buffer.new result }
    ensures few { result ≤ at + 10 }
{
    match reply {
        Reply::Value(word) => buffer.write_number(at, word),
        Reply::Ack => buffer.write(at, b"ack"),
    }
}
