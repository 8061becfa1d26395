//! The entries of one line, with commas between them.

ghost use Rattle.std.specs.Prelude.{◌≡◌, ℕ, ◌+◌, ◌<◌, ◌≤◌, List, ◌++◌, Some, length, slice_get};
ghost use Rattle.ultra_io.specs.{TextBuffer.{Ends, GoesOn}, declared.filled_bytes.TheConstants.BUFFER_BYTES};
ghost use Rattle.ultra_model.specs.Text.{entry_text, comma_separated, message_text, newline, record_text, request_text};

use crate::texts::{end_line, write_entry, write_message, write_record, write_request};
use ultra_io::TextBuffer;
use ultra_msg::{ReplyMessage, Request, Sink};
use ultra_pni::Pni;
use ultra_switch::{QueueEntry, ToMm, ToPe, WaitRecord};

/// What a line lists.
pub(crate) trait Entries {
    type Entry;

    ghost entries: { Self → List Self.Entry };

    ghost text: { Self.Entry → List ℕ };

    /// How many entries there are.
    fn count(&self) -> usize
        ensures { result ≡ length (entries self.now) };

    /// The entry at an index.
    fn entry(&self, index: usize) -> Self::Entry
        requires { index < length (entries self.now) }
        ensures { slice_get (entries self.now) index ≡ Some result };

    /// Writes an entry, which takes at most 66 bytes, and returns the position after it.
    fn write<S: Sink>(buffer: &mut TextBuffer<'_, S>, at: usize, entry: Self::Entry) -> usize
        requires { at + 66 ≤ BUFFER_BYTES }
        ensures goes_on { GoesOn S.taken S.failures (text entry) buffer.old at buffer.new result }
        ensures few { result ≤ at + 66 };
}

/// Writes all entries, and ends the line.
#[inline(always)]
pub(crate) fn put_entries<S: Sink, E: Entries>(
    buffer: &mut TextBuffer<'_, S>,
    at: usize,
    entries: &E,
)
    requires some { 0 < length (E.entries entries.now) }
    requires room { at + 100 ≤ BUFFER_BYTES }
    ensures { Ends S.taken S.failures
        (comma_separated E.text (E.entries entries.now) ++ newline) buffer.old at buffer.new }
{
    let mut at = E::write(buffer, at, entries.entry(0));
    for index in 1..entries.count() {
        at = buffer.make_room(at);
        at = buffer.write(at, b", ");
        at = E::write(buffer, at, entries.entry(index));
    }
    end_line(buffer, at);
}

/// The requests that are not yet in the network.
impl Entries for Pni {
    type Entry = Request;

    ghost entries = { λ p. p.interface.pending };

    ghost text = { request_text };

    #[inline(always)]
    fn count(&self) -> usize {
        self.pending_count()
    }

    #[inline(always)]
    fn entry(&self, index: usize) -> Request {
        self.pending(index)
    }

    #[inline(always)]
    fn write<S: Sink>(buffer: &mut TextBuffer<'_, S>, at: usize, entry: Request) -> usize {
        write_request(buffer, at, entry)
    }
}

/// The entries of a queue toward memory.
impl Entries for ToMm {
    type Entry = QueueEntry;

    ghost entries = { λ q. q.lane.queue };

    ghost text = { entry_text };

    #[inline(always)]
    fn count(&self) -> usize {
        self.len()
    }

    #[inline(always)]
    fn entry(&self, index: usize) -> QueueEntry {
        self.entry(index)
    }

    #[inline(always)]
    fn write<S: Sink>(buffer: &mut TextBuffer<'_, S>, at: usize, entry: QueueEntry) -> usize {
        write_entry(buffer, at, entry)
    }
}

/// The records of the wait buffer beside a queue toward memory.
#[derive(Drop)]
pub(crate) struct Records<'a>(pub(crate) &'a ToMm);

impl Entries for Records<'_> {
    type Entry = WaitRecord;

    ghost entries = { λ r. r.0.now.lane.records };

    ghost text = { record_text };

    #[inline(always)]
    fn count(&self) -> usize {
        self.0.record_count()
    }

    #[inline(always)]
    fn entry(&self, index: usize) -> WaitRecord {
        self.0.record(index)
    }

    #[inline(always)]
    fn write<S: Sink>(buffer: &mut TextBuffer<'_, S>, at: usize, entry: WaitRecord) -> usize
        requires { at + 66 ≤ BUFFER_BYTES }
        ensures goes_on { GoesOn S.taken S.failures
            (record_text entry) buffer.old at buffer.new result }
        ensures few { result ≤ at + 66 }
    {
        write_record(buffer, at, entry)
    }
}

/// The replies of a queue toward the processing elements.
impl Entries for ToPe {
    type Entry = ReplyMessage;

    ghost entries = { λ q. q.replies };

    ghost text = { message_text };

    #[inline(always)]
    fn count(&self) -> usize {
        self.len()
    }

    #[inline(always)]
    fn entry(&self, index: usize) -> ReplyMessage {
        self.reply(index)
    }

    #[inline(always)]
    fn write<S: Sink>(buffer: &mut TextBuffer<'_, S>, at: usize, entry: ReplyMessage) -> usize {
        write_message(buffer, at, entry)
    }
}
