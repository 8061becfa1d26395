//! Text buffers, from which text goes to a sink in large parts.

ghost use Rattle.std.specs.Prelude.{◌≡◌, ℕ, ◌+◌, ◌≤◌, List, [], true, OnOk, OnErr, decimal};
ghost use Rattle.ultra_io.specs.TextBuffer.{Begins, Ends, GoesOn, IsBlank, Writes, has_failed, sink_of};

use crate::filled_bytes::{BUFFER_BYTES, FilledBytes};
use ultra_msg::{Sink, SinkFault, write_all};

/// How many bytes a part of a line takes at most.
pub const PART_BYTES: usize = 128;

/// Text on its way to a sink. What is written waits in the buffer, which is flushed once it is
/// full, and at the end by [`finish`](TextBuffer::finish). What still waits when the buffer is
/// dropped is lost.
///
/// The buffer remembers the sink's first fault: the sink has then taken a prefix of the text, and
/// gets nothing more. A buffer takes no memory.
///
/// A line is written part by part. [`begin`](TextBuffer::begin) gives the position where it begins.
/// [`write`](TextBuffer::write) and similar calls take the position where it goes on, and give the
/// one behind what they wrote. [`end`](TextBuffer::end) takes the position where it ends. Between
/// its parts [`make_room`](TextBuffer::make_room) ensures that the next one fits.
#[derive(Drop)]
pub struct TextBuffer<'s, S: Sink> {
    sink: &'s mut S,
    filled_bytes: FilledBytes,
    failed: bool,
}

impl<'s, S: Sink> TextBuffer<'s, S> {
    /// An empty buffer over a sink.
    pub fn new(sink: &'s mut S) -> Self
        ensures same_reference { (sink_of result).ghost_name ≡ sink.entry.ghost_name }
        ensures sink { (sink_of result).now ≡ sink.old }
        ensures blank { IsBlank result }
    {
        TextBuffer {
            sink,
            filled_bytes: FilledBytes::new(),
            failed: false,
        }
    }

    /// Writes bytes. Those that are longer than a buffer go to the sink in one call.
    #[inline(always)]
    pub fn put(&mut self, bytes: &[u8])
        ensures { Writes S.taken S.failures bytes.now self.old self.new }
    {
        if bytes.len() <= self.filled_bytes.room() {
            self.filled_bytes.add(bytes);
        } else {
            self.flush_and_put(bytes);
        }
    }

    /// Writes a number in decimal digits.
    #[inline(always)]
    pub fn put_number(&mut self, number: u32)
        ensures { Writes S.taken S.failures (decimal number) self.old self.new }
    {
        self.put_count(number as usize);
    }

    /// Writes a count in decimal digits.
    #[inline(never)]
    pub fn put_count(&mut self, count: usize)
        ensures { Writes S.taken S.failures (decimal count) self.old self.new }
    {
        let at = self.begin();
        let end = self.write_count(at, count);
        self.end(end);
    }

    /// The position where a line begins, with room for its first part.
    #[inline(always)]
    pub fn begin(&mut self) -> usize
        ensures goes_on { Begins S.taken S.failures [] self.old self.new result }
        ensures room { result + PART_BYTES ≤ BUFFER_BYTES }
    {
        self.make_room(self.filled_bytes.filled)
    }

    /// Writes bytes at the position where a line goes on, and returns the position after them.
    #[inline(always)]
    pub fn write<const N: usize>(&mut self, at: usize, bytes: &[u8; N]) -> usize
        requires { at + N ≤ BUFFER_BYTES }
        ensures goes_on { GoesOn S.taken S.failures bytes.now self.old at self.new result }
        ensures behind { result ≡ at + N }
    {
        self.filled_bytes.write(at, bytes)
    }

    /// Writes a number in decimal digits, at most 10, and returns the position after them.
    #[inline(always)]
    pub fn write_number(&mut self, at: usize, number: u32) -> usize
        requires { at + 10 ≤ BUFFER_BYTES }
        ensures goes_on { GoesOn S.taken S.failures (decimal number) self.old at self.new result }
        ensures few { result ≤ at + 10 }
    {
        self.filled_bytes.write_number(at, number)
    }

    /// Writes a count in decimal digits, at most 20, and returns the position after them.
    #[inline(always)]
    pub fn write_count(&mut self, at: usize, count: usize) -> usize
        requires { at + 20 ≤ BUFFER_BYTES }
        ensures goes_on { GoesOn S.taken S.failures (decimal count) self.old at self.new result }
        ensures few { result ≤ at + 20 }
    {
        self.filled_bytes.write_count(at, count)
    }

    /// Makes room for the next part of a line, and returns the position where the line continues. A
    /// buffer that is almost full is flushed first, with what is written of the line.
    #[inline(always)]
    pub fn make_room(&mut self, at: usize) -> usize
        requires { at ≤ BUFFER_BYTES }
        ensures goes_on { GoesOn S.taken S.failures [] self.old at self.new result }
        ensures room { result + PART_BYTES ≤ BUFFER_BYTES }
    {
        if at <= BUFFER_BYTES - PART_BYTES {
            return at;
        }
        self.end(at);
        self.flush();
        0
    }

    /// Ends a line at a position.
    #[inline(always)]
    pub fn end(&mut self, at: usize)
        requires { at ≤ BUFFER_BYTES }
        ensures { Ends S.taken S.failures [] self.old at self.new }
    {
        self.filled_bytes.filled = at;
    }

    /// Whether the sink has failed.
    pub fn has_failed(&self) -> bool
        ensures { result ≡ has_failed self.now }
    {
        self.failed
    }

    /// Flushes what still waits. `SinkFault` says that the sink has failed, now or earlier.
    pub fn finish(&mut self) -> Result<(), SinkFault>
        ensures writes { Writes S.taken S.failures [] self.old self.new }
        ensures ok { OnOk result (IsBlank self.new) }
        ensures err { OnErr result (has_failed self.new ≡ true) }
    {
        self.flush();
        if self.failed { Err(SinkFault) } else { Ok(()) }
    }

    /// Writes bytes for which there is no room behind those that wait.
    #[cold]
    #[inline(never)]
    fn flush_and_put(&mut self, bytes: &[u8])
        ensures { Writes S.taken S.failures bytes.now self.old self.new }
    {
        self.flush();
        if bytes.len() <= self.filled_bytes.room() {
            self.filled_bytes.add(bytes);
        } else {
            self.write_through(bytes);
        }
    }

    /// Gives what waits to the sink, unless that has failed.
    #[cold]
    #[inline(never)]
    fn flush(&mut self)
        ensures writes { Writes S.taken S.failures [] self.old self.new }
        ensures empty { self.new.filled_bytes.filled ≡ 0 }
    {
        if !self.failed {
            self.failed = write_all(self.sink, self.filled_bytes.waiting()).is_err();
        }
        self.filled_bytes.filled = 0;
    }

    /// Gives bytes to the sink directly, while the buffer is empty, unless the sink has failed.
    fn write_through(&mut self, bytes: &[u8])
        requires { self.old.filled_bytes.filled ≡ 0 }
        ensures { Writes S.taken S.failures bytes.now self.old self.new }
    {
        if !self.failed {
            self.failed = write_all(self.sink, bytes).is_err();
        }
    }
}
