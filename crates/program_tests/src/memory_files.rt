//! Files in memory.

ghost use Rattle.ultra_io.specs.Account.{files_in, failures_in};

use std::alloc::Global;
use ultra_io::{Account, Source, SourceFault};

/// Files in memory, by their paths. One read of them may fail. One type for both, since the whole
/// program is compiled once for each type of source.
#[derive(Drop)]
pub(crate) struct MemoryFiles<'f> {
    files: &'f [(&'f str, &'f [u8])],
    account: Account,
    sound_reads: usize,
    failure: SourceFault,
}

impl<'f> MemoryFiles<'f> {
    /// Files of which each can be read.
    pub(crate) fn new(files: &'f [(&'f str, &'f [u8])]) -> MemoryFiles<'f> {
        MemoryFiles::failing_after(files, usize::MAX, SourceFault::NotRead)
    }

    /// Files where the read after `sound_reads` reads fails.
    pub(crate) fn failing_after(
        files: &'f [(&'f str, &'f [u8])],
        sound_reads: usize,
        failure: SourceFault,
    ) -> MemoryFiles<'f> {
        MemoryFiles {
            files,
            account: Account::Opened,
            sound_reads,
            failure,
        }
    }
}

impl Source for MemoryFiles<'_> {
    ghost files = { λ s. files_in s.account };

    ghost failures = { λ s. failures_in s.account };

    fn read(&mut self, alloc: Global, path: &str) -> Result<Vec<u8>, SourceFault> {
        if self.sound_reads == 0 {
            self.sound_reads = usize::MAX;
            if let SourceFault::NoMemory = self.failure {
                return Err(SourceFault::NoMemory);
            }
            self.account.note_failure();
            return Err(SourceFault::NotRead);
        }
        self.sound_reads -= 1;
        let Some(bytes) = file_at(self.files, path) else {
            self.account.note_failure();
            return Err(SourceFault::NotRead);
        };
        let Ok(copy) = Vec::from_slice(alloc, bytes) else {
            return Err(SourceFault::NoMemory);
        };
        self.account.note_read(path, &copy);
        Ok(copy)
    }
}

fn file_at<'f>(files: &'f [(&'f str, &'f [u8])], path: &str) -> Option<&'f [u8]> {
    for (name, bytes) in files {
        if *name == path {
            return Some(bytes);
        }
    }
    None
}
