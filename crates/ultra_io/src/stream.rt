//! The output streams of a program.

ghost use Rattle.std.specs.Prelude.{◌≡◌, ◌≤◌, [], length, take, IfNone, IfSome};
ghost use Rattle.std.specs.Io.KnownBytes.{Appends};
ghost use Rattle.ultra_io.specs.Account.{SinkState, bytes_in, sink_state};

use crate::account::Account;
use std::io::Write;
use std::marker::Model;
use std::snapshot::Snapshot;
use ultra_msg::{Sink, SinkFault};

/// A writer of std as a sink. It passes each piece on at once, and copies nothing.
#[derive(Drop)]
pub struct Stream<W: Write> {
    writer: W,
    /// The writer as it was at first, for contracts alone.
    first: Snapshot<W>,
    account: Account,
}

impl<W: Write> Model for Stream<W> {
    ghost Value = { SinkState };

    ghost view = { λ s. sink_state s.account };

    // what the writer holds is what it held at first, and then the bytes that were taken
    ghost invariant = { λ s. Appends (W.contents s.first.value) (W.contents s.writer)
        (bytes_in s.account) };
}

impl<W: Write> Stream<W> {
    /// A sink over `writer` that has taken nothing yet.
    pub fn new(writer: W) -> Stream<W>
        ensures { result ≡ record { taken = []; failures = 0 } }
    {
        Stream {
            first: Snapshot::of(&writer),
            writer,
            account: Account::Opened,
        }
    }
}

impl<W: Write> Sink for Stream<W> {
    ghost taken = { λ s. s.taken };

    ghost failures = { λ s. s.failures };

    fn write(&mut self, bytes: &[u8]) -> Result<usize, SinkFault> {
        match write_some(&mut self.writer, bytes) {
            Some(count) => {
                self.account.note_taken(&bytes[..count]);
                Ok(count)
            }
            None => {
                self.account.note_failure();
                Err(SinkFault)
            }
        }
    }
}

/// Writes bytes by one call of the writer, and returns how many it took. `None` says that it took
/// none, though there were some.
fn write_some<W: Write>(writer: &mut W, bytes: &[u8]) -> Option<usize>
    ensures within { IfSome result (λ n. n ≤ length bytes.now) }
    ensures some { IfSome result (λ n. n ≡ 0 → bytes.now ≡ []) }
    ensures taken { IfSome result
        (λ n. Appends (W.contents writer.old) (W.contents writer.new) (take n bytes.now)) }
    ensures none { IfNone result (Appends (W.contents writer.old) (W.contents writer.new) []) }
{
    match writer.write(bytes) {
        Ok(count) if count > 0 || bytes.is_empty() => Some(count),
        _ => None,
    }
}
