//! Streams that are written.

use crate::equal::check_equal;
use std::io;
use std::io::ErrorKind;
use std::test::Fail;
use ultra_io::Stream;
use ultra_msg::{Sink, SinkFault};

/// A writer that fails at its first call, and would then take all bytes.
#[derive(Drop)]
struct FailsOnce {
    has_failed: bool,
}

impl io::Write for FailsOnce {
    fn write(&mut self, bytes: &[u8]) -> io::Result<usize> {
        if self.has_failed {
            return Ok(bytes.len());
        }
        self.has_failed = true;
        Err(io::Error::from(ErrorKind::StorageFull))
    }

    fn flush(&mut self) -> io::Result<()> {
        Ok(())
    }
}

/// A write calls the writer once: where that fails, it isn't tried again.
#[test]
fn a_failed_write_is_not_tried_again(rt: HostRuntime) -> Result<(), Fail> {
    let mut stream = Stream::new(FailsOnce { has_failed: false });
    check_equal(&rt, stream.write(b"a").err(), Some(SinkFault));
    Ok(())
}
