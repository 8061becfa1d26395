//! Where the program's bytes go.

ghost use Rattle.std.specs.Prelude.{◌≡◌, ℕ, ◌+◌, ◌++◌, List, IfOk, OnOk, OnErr};
ghost use Rattle.ultra_msg.specs.Bytes.{TakesPart, TakesPrefix};

/// A sink has failed: it took nothing of the bytes that it was offered.
#[derive(Clone, Copy, PartialEq, Eq, Debug, Drop)]
pub struct SinkFault;

/// What takes bytes: a stream, a file or a text in memory. It may take any part of what it is
/// offered.
pub trait Sink {
    /// The bytes that it has taken.
    ghost taken: { Self → List ℕ };

    /// The number of its failures.
    ghost failures: { Self → ℕ };

    /// Takes the first of the bytes, and says how many: from 1 to all of them, or 0 where there are
    /// none. `SinkFault` comes only where the sink failed in this call; it has then taken nothing.
    fn write(&mut self, bytes: &[u8]) -> Result<usize, SinkFault>
        ensures ok { IfOk result (λ n. TakesPart n bytes.now (taken self.old) (taken self.new)) }
        ensures still { OnOk result (failures self.new ≡ failures self.old) }
        ensures err { OnErr result (taken self.new ≡ taken self.old) }
        ensures counted { OnErr result (failures self.new ≡ failures self.old + 1) };
}

/// Writes all of the bytes, however few the sink takes at a time. After a fault the sink has taken
/// a prefix of them.
pub fn write_all<S: Sink>(sink: &mut S, bytes: &[u8]) -> Result<(), SinkFault>
    ensures ok { OnOk result (S.taken sink.new ≡ S.taken sink.old ++ bytes.now) }
    ensures still { OnOk result (S.failures sink.new ≡ S.failures sink.old) }
    ensures err { OnErr result (TakesPrefix bytes.now (S.taken sink.old) (S.taken sink.new)) }
    ensures counted { OnErr result (S.failures sink.new ≡ S.failures sink.old + 1) }
{
    let mut start = 0;
    while start < bytes.len() {
        start += sink.write(&bytes[start..])?;
    }
    Ok(())
}
