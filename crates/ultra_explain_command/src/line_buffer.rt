//! Lines that wait to be written.

ghost use Rattle.std.specs.Prelude.{◌≡◌, ◌+◌, [], ◌++◌, length, IfErr, OnErr, OnOk};
ghost use Rattle.ultra_msg.specs.Bytes.{TakesPrefix};
ghost use Rattle.ultra_io.specs.Account.{failures_in};
ghost use Rattle.ultra_inputs.specs.declared.failure.Failure.TheVariants.{NotWritten};

use std::alloc::Global;
use ultra_inputs::Failure;
use ultra_io::Account;
use ultra_msg::{Sink, SinkFault, write_all};

/// Lines that wait in memory to be written. They are a sink, which fails where memory for more
/// bytes is refused.
#[derive(Drop)]
pub(crate) struct LineBuffer {
    bytes: Vec<u8>,
    refusals: Account,
}

impl LineBuffer {
    /// No lines.
    pub fn new(alloc: Global) -> LineBuffer
        ensures { result.bytes.items ≡ [] }
    {
        LineBuffer {
            bytes: Vec::new(alloc),
            refusals: Account::Opened,
        }
    }

    /// How many bytes wait.
    pub fn len(&self) -> usize
        ensures { result ≡ length self.now.bytes.items }
    {
        self.bytes.len()
    }

    /// Writes what waits, so that nothing waits any more.
    pub fn flush<'p, O: Sink>(&mut self, out: &mut O) -> Result<(), Failure<'p>>
        ensures ok { OnOk result (O.taken out.new ≡ O.taken out.old ++ self.old.bytes.items) }
        ensures err { OnErr result
            (TakesPrefix self.old.bytes.items (O.taken out.old) (O.taken out.new)) }
        ensures fault { IfErr result (λ f. f ≡ NotWritten) }
        ensures still { OnOk result (O.failures out.new ≡ O.failures out.old) }
        ensures counted { OnErr result (O.failures out.new ≡ O.failures out.old + 1) }
        ensures empty { self.new.bytes.items ≡ [] }
    {
        let written = write_all(out, self.bytes.as_slice());
        self.bytes.clear();
        match written {
            Ok(()) => Ok(()),
            Err(_) => Err(Failure::NotWritten),
        }
    }
}

impl Sink for LineBuffer {
    ghost taken = { λ lines. lines.bytes.items };

    ghost failures = { λ lines. failures_in lines.refusals };

    fn write(&mut self, bytes: &[u8]) -> Result<usize, SinkFault> {
        match self.bytes.extend_from_slice(bytes) {
            Ok(()) => Ok(bytes.len()),
            Err(_) => {
                self.refusals.note_failure();
                Err(SinkFault)
            }
        }
    }
}
