//! A text in memory, as a sink.

ghost use Rattle.std.specs.Prelude.{◌≡◌, []};
ghost use Rattle.ultra_sweep_command.specs.Text.{refusal_count};

use std::alloc::Global;
use std::snapshot::Snapshot;
use ultra_msg::{Sink, SinkFault};

/// How often memory was refused. It is for contracts alone: a `Snapshot` has no bytes.
#[derive(Drop)]
pub enum Refusals {
    /// Never.
    None,
    /// Once more than before.
    Another(Snapshot<Refusals>),
}

/// A text that grows. It fails where the memory for more bytes is refused.
#[derive(Drop)]
pub struct Text {
    bytes: Vec<u8>,
    refusals: Refusals,
}

impl Text {
    /// An empty text.
    pub fn new(alloc: Global) -> Text
        ensures { result.bytes.items ≡ [] }
    {
        Text {
            bytes: Vec::new(alloc),
            refusals: Refusals::None,
        }
    }

    /// An empty text with room for this many bytes, or with none where memory for them is refused.
    pub fn with_room(alloc: Global, room: usize) -> Text
        ensures { result.bytes.items ≡ [] }
    {
        Text {
            bytes: Vec::with_capacity(alloc, room).unwrap_or(Vec::new(alloc)),
            refusals: Refusals::None,
        }
    }

    /// The bytes. They keep at most as much room as they take.
    pub fn into_bytes(self) -> Vec<u8>
        ensures { result.items ≡ self.bytes.items }
    {
        let Text {
            mut bytes,
            refusals: _,
        } = self;
        if bytes.capacity() / 2 > bytes.len() {
            bytes.shrink_to_fit();
        }
        bytes
    }
}

impl Sink for Text {
    ghost taken = { λ t. t.bytes.items };

    ghost failures = { λ t. refusal_count t.refusals };

    fn write(&mut self, bytes: &[u8]) -> Result<usize, SinkFault> {
        match self.bytes.extend_from_slice(bytes) {
            Ok(()) => Ok(bytes.len()),
            Err(_) => {
                self.refusals = Refusals::Another(Snapshot::of(&self.refusals));
                Err(SinkFault)
            }
        }
    }
}
