//! Files that are read.

use crate::equal::check_equal;
use std::test::Fail;
use ultra_io::{FileSource, Source, SourceFault};

#[test]
fn a_file_that_is_not_there_is_not_read(rt: HostRuntime) -> Result<(), Fail> {
    let mut files = FileSource::new(&rt);
    match files.read(rt.alloc(), "no-such-file") {
        Err(SourceFault::NoMemory) => Err("no memory".into()),
        ended => {
            check_equal(&rt, ended.err(), Some(SourceFault::NotRead));
            Ok(())
        }
    }
}
