//! The header and the rows of a table of numbers.

ghost use Rattle.std.specs.Prelude.{◌≡◌, ◌++◌};
ghost use Rattle.std.specs.List.{flat_map};
ghost use Rattle.ultra_io.specs.TextBuffer.{Writes};
ghost use Rattle.ultra_statistics.specs.Queues.{number_behind_comma, numbers_row, queues_header};

use ultra_io::TextBuffer;
use ultra_msg::Sink;

/// Writes the first line of the table of queues, which names the columns.
pub(crate) fn put_header<S: Sink>(buffer: &mut TextBuffer<'_, S>)
    ensures { Writes S.taken S.failures queues_header buffer.old buffer.new }
{
    buffer.put(
        b"from,to,stage,position,requests,combined,\
request_queue_sum,request_queue_most,request_queue_full,\
records_sum,records_most,full_waits,\
replies,reply_queue_sum,reply_queue_most,reply_queue_full\n",
    );
}

/// Writes a row of numbers.
pub(crate) fn put_numbers<S: Sink>(buffer: &mut TextBuffer<'_, S>, first: u32, others: &[u32])
    ensures { Writes S.taken S.failures (numbers_row first others.now) buffer.old buffer.new }
{
    buffer.put_number(first);
    put_others(buffer, others);
    buffer.put(b"\n");
}

/// Writes numbers, each behind a comma.
fn put_others<S: Sink>(buffer: &mut TextBuffer<'_, S>, numbers: &[u32])
    ensures { Writes S.taken S.failures
        (flat_map number_behind_comma numbers.now) buffer.old buffer.new }
{
    for number in numbers {
        put_next(buffer, *number);
    }
}

/// Writes a number behind a comma.
fn put_next<S: Sink>(buffer: &mut TextBuffer<'_, S>, number: u32)
    ensures { Writes S.taken S.failures (number_behind_comma number) buffer.old buffer.new }
{
    buffer.put(b",");
    buffer.put_number(number);
}
