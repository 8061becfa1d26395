//! The lines of a serial list.

ghost use Rattle.std.specs.Prelude.{◌++◌, codes, decimal};
ghost use Rattle.ultra_io.specs.TextBuffer.{Writes};
ghost use Rattle.ultra_model.specs.Text.{reply_text};
ghost use Rattle.ultra_list.specs.SerialText.{list_entry_text, operation_text, order_line, order_text};

use ultra_io::TextBuffer;
use ultra_msg::{Cell, Op, Reply, Sink};
use ultra_serial_law::Entry;

/// Puts the lines of some requests with their replies in a buffer.
pub fn put_entries<S: Sink>(buffer: &mut TextBuffer<'_, S>, entries: &[Entry])
    ensures { Writes S.taken S.failures (order_text entries.now) buffer.old buffer.new }
{
    for entry in entries {
        put_entry_line(buffer, entry);
    }
}

/// Puts the line of a request with its reply in a buffer, as `0.0 faa 0 1 = 1`.
pub fn put_entry_line<S: Sink>(buffer: &mut TextBuffer<'_, S>, entry: &Entry)
    ensures { Writes S.taken S.failures (order_line entry.now) buffer.old buffer.new }
{
    put_entry(buffer, entry);
    buffer.put(b"\n");
}

/// Puts a request with its reply in a buffer, as `0.0 faa 0 1 = 1`.
pub fn put_entry<S: Sink>(buffer: &mut TextBuffer<'_, S>, entry: &Entry)
    ensures { Writes S.taken S.failures (list_entry_text entry.now) buffer.old buffer.new }
{
    buffer.put_number(entry.pe);
    buffer.put(b".");
    buffer.put_number(entry.number);
    buffer.put(b" ");
    put_operation(buffer, entry.op, entry.cell);
    buffer.put(b" = ");
    put_reply(buffer, entry.reply);
}

/// Puts an operation on a cell in a buffer, such as `faa 0 1`.
pub fn put_operation<S: Sink>(buffer: &mut TextBuffer<'_, S>, op: Op, cell: Cell)
    ensures { Writes S.taken S.failures (operation_text op cell) buffer.old buffer.new }
{
    match op {
        Op::Load => {
            buffer.put(b"load ");
            buffer.put_number(cell);
        }
        Op::Store(word) => put_numbers(buffer, b"store ", cell, word),
        Op::Faa(word) => put_numbers(buffer, b"faa ", cell, word),
        Op::Swap(word) => put_numbers(buffer, b"swap ", cell, word),
    }
}

/// Puts a reply in a buffer: its value, or `ack`.
pub fn put_reply<S: Sink>(buffer: &mut TextBuffer<'_, S>, reply: Reply)
    ensures { Writes S.taken S.failures (reply_text reply) buffer.old buffer.new }
{
    match reply {
        Reply::Value(word) => buffer.put_number(word),
        Reply::Ack => buffer.put(b"ack"),
    }
}

/// Puts bytes in a buffer, then a number, a blank and another number.
fn put_numbers<S: Sink>(buffer: &mut TextBuffer<'_, S>, bytes: &[u8], first: u32, second: u32)
    ensures { Writes S.taken S.failures
        (bytes.now ++ decimal first ++ codes " " ++ decimal second) buffer.old buffer.new }
{
    buffer.put(bytes);
    buffer.put_number(first);
    buffer.put(b" ");
    buffer.put_number(second);
}
