//! The line of a verdict.

ghost use Rattle.std.specs.Prelude.{◌≡◌, ◌+◌, ◌++◌, OnErr, OnOk};
ghost use Rattle.ultra_msg.specs.Bytes.{TakesPrefix};
ghost use Rattle.ultra_io.specs.TextBuffer.{Writes};
ghost use Rattle.ultra_verdict.specs.VerdictText.{difference_text, lateness_text, refusal_text, verdict_text, words_of_verdict};

use crate::verdict::Verdict;
use ultra_io::TextBuffer;
use ultra_list::{put_entry, put_reply};
use ultra_msg::{Sink, SinkFault, Word};
use ultra_serial_law::Entry;

/// Writes the line of a verdict. After a fault the sink has taken a prefix of it.
pub(crate) fn write_line<S: Sink>(verdict: &Verdict, sink: &mut S) -> Result<(), SinkFault>
    ensures ok { OnOk result (S.taken sink.new ≡ S.taken sink.old ++ verdict_text verdict.now) }
    ensures still { OnOk result (S.failures sink.new ≡ S.failures sink.old) }
    ensures err { OnErr result
        (TakesPrefix (verdict_text verdict.now) (S.taken sink.old) (S.taken sink.new)) }
    ensures counted { OnErr result (S.failures sink.new ≡ S.failures sink.old + 1) }
{
    let mut buffer = TextBuffer::new(sink);
    put_line(&mut buffer, verdict);
    buffer.finish()
}

/// Puts the line of a verdict in a buffer.
fn put_line<S: Sink>(buffer: &mut TextBuffer<'_, S>, verdict: &Verdict)
    ensures { Writes S.taken S.failures (verdict_text verdict.now) buffer.old buffer.new }
{
    put_words(buffer, verdict);
    buffer.put(b"\n");
}

/// Puts the words of a verdict in a buffer.
fn put_words<S: Sink>(buffer: &mut TextBuffer<'_, S>, verdict: &Verdict)
    ensures { Writes S.taken S.failures (words_of_verdict verdict.now) buffer.old buffer.new }
{
    match *verdict {
        Verdict::Legal => buffer.put(b"legal"),
        Verdict::NotIssued { line, entry } => put_refusal(buffer, line, b": not issued: ", &entry),
        Verdict::Repeated { line, entry } => put_refusal(buffer, line, b": repeated: ", &entry),
        Verdict::WrongReplay {
            line,
            entry,
            replay,
        } => {
            put_refusal(buffer, line, b": wrong replay: ", &entry);
            buffer.put(b", replay ");
            put_reply(buffer, replay);
        }
        Verdict::WrongAnswer {
            line,
            entry,
            machine,
        } => {
            put_refusal(buffer, line, b": wrong answer: ", &entry);
            buffer.put(b", machine ");
            put_reply(buffer, machine);
        }
        Verdict::TooLate {
            line,
            entry,
            answered,
            after,
            issued,
        } => {
            put_refusal(buffer, line, b": too late: ", &entry);
            put_lateness(buffer, answered, &after, issued);
        }
        Verdict::Missing { entry } => {
            buffer.put(b"missing: ");
            put_entry(buffer, &entry);
        }
        Verdict::WrongCell {
            cell,
            machine,
            list,
        } => put_difference(buffer, cell, machine, list),
    }
}

/// Puts an entry's line and what is wrong with it in a buffer, as `line 2: repeated: 0.0 faa 0 1 =
/// 1`.
fn put_refusal<S: Sink>(buffer: &mut TextBuffer<'_, S>, line: usize, words: &[u8], entry: &Entry)
    ensures { Writes S.taken S.failures (refusal_text line words.now entry.now)
        buffer.old buffer.new }
{
    buffer.put(b"line ");
    buffer.put_count(line);
    buffer.put(words);
    put_entry(buffer, entry);
}

/// Puts in a buffer when a request was answered, and which entry before it was issued when, as `,
/// answered in 7, after 1.1, issued in 9`.
fn put_lateness<S: Sink>(buffer: &mut TextBuffer<'_, S>, answered: u32, after: &Entry, issued: u32)
    ensures { Writes S.taken S.failures (lateness_text answered after.now issued)
        buffer.old buffer.new }
{
    buffer.put(b", answered in ");
    buffer.put_number(answered);
    buffer.put(b", after ");
    buffer.put_number(after.pe);
    buffer.put(b".");
    buffer.put_number(after.number);
    buffer.put(b", issued in ");
    buffer.put_number(issued);
}

/// Puts both values of a cell in a buffer, such as `cell 0: 2, list 1`.
fn put_difference<S: Sink>(buffer: &mut TextBuffer<'_, S>, cell: usize, machine: Word, list: Word)
    ensures { Writes S.taken S.failures (difference_text cell machine list) buffer.old buffer.new }
{
    buffer.put(b"cell ");
    buffer.put_count(cell);
    buffer.put(b": ");
    buffer.put_number(machine);
    buffer.put(b", list ");
    buffer.put_number(list);
}
