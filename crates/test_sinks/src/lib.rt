//! Sinks in memory, for tests.
#![tactic(auto)]

ghost use Rattle.std.specs.Prelude.{◌<◌};
ghost use Rattle.ultra_io.specs.Account.{failures_in};

use std::alloc::{AllocError, Global};
use std::str;
use std::str::Utf8Error;
use ultra_io::Account;
use ultra_msg::{Sink, SinkFault};

/// More bytes than any text of the tests has.
const ROOM: usize = 1_048_576;

/// What a sink takes.
#[derive(Clone, Copy, Drop)]
pub struct SinkLimits {
    /// The most bytes that it takes at a write.
    most: usize,
    /// The writes after which it fails.
    sound_writes: usize,
    /// The writes after that failure, after which it fails again.
    later_writes: usize,
    ghost takes_some: { 0 < most },
}

impl SinkLimits {
    /// A sink that takes all that it is offered.
    pub fn none() -> SinkLimits {
        SinkLimits::taking_at_most(usize::MAX)
    }

    /// A sink that takes at most this many bytes a write.
    pub fn taking_at_most(most: usize) -> SinkLimits
        requires { 0 < most }
    {
        SinkLimits {
            most,
            sound_writes: usize::MAX,
            later_writes: 0,
        }
    }

    /// It fails after this many writes, for good.
    pub fn failing_after(self, sound_writes: usize) -> SinkLimits {
        SinkLimits {
            most: self.most,
            sound_writes,
            later_writes: 0,
        }
    }

    /// A sink that takes one byte a write. After this many writes it fails once, and would then
    /// take more.
    pub fn failing_once_after(sound_writes: usize) -> SinkLimits {
        SinkLimits {
            most: 1,
            sound_writes,
            later_writes: usize::MAX,
        }
    }
}

/// A sink in memory. It has room for each text of the tests, so no write asks for memory.
#[derive(Drop)]
pub struct MemorySink {
    /// What it has taken.
    pub bytes: Vec<u8>,
    /// How many writes failed.
    pub failures: u64,
    account: Account,
    limits: SinkLimits,
}

impl MemorySink {
    /// A sink that takes all that it is offered.
    pub fn new(alloc: Global) -> Result<MemorySink, AllocError> {
        MemorySink::with_limits(alloc, SinkLimits::none())
    }

    /// A sink of these limits.
    pub fn with_limits(alloc: Global, limits: SinkLimits) -> Result<MemorySink, AllocError> {
        Ok(MemorySink {
            bytes: Vec::with_capacity(alloc, ROOM)?,
            failures: 0,
            account: Account::Opened,
            limits,
        })
    }

    /// What it has taken. An error says that it isn't text.
    pub fn text(&self) -> Result<&str, Utf8Error> {
        str::from_utf8(self.bytes.as_slice())
    }
}

impl Sink for MemorySink {
    ghost taken = { λ t. t.bytes.items };

    ghost failures = { λ t. failures_in t.account };

    fn write(&mut self, bytes: &[u8]) -> Result<usize, SinkFault> {
        let count = bytes.len().min(self.limits.most);
        if self.limits.sound_writes == 0 || self.bytes.extend_from_slice(&bytes[..count]).is_err() {
            self.limits.sound_writes = self.limits.later_writes;
            self.account.note_failure();
            self.failures = self.failures.saturating_add(1);
            return Err(SinkFault);
        }
        self.limits.sound_writes -= 1;
        Ok(count)
    }
}
