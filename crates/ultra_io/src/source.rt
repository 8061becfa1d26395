//! Where the files of a program come from.

ghost use Rattle.std.specs.Prelude.{◌≡◌, ◌≢◌, ◌↔◌, ℕ, ◌+◌, List, [], ◌∷◌, ◌++◌, IfOk, OnOk, IfErr, OnErr};
ghost use Rattle.std.specs.{Io.KnownBytes.IsAtEnd, IoError.error_kind};
ghost use Rattle.ultra_io.specs.{Account.{SourceState, files_in, source_state}, Source.{File, file_of, failures_of, AreAllBytes, AreGivenByFiles}};

use crate::account::Account;
use std::alloc::Global;
use std::io::{ErrorKind, Read};
use std::marker::Model;
use std::rt::Files;
use std::{fs, io};

/// Why a file wasn't read.
#[derive(Clone, Copy, PartialEq, Eq, Debug, Drop)]
pub enum SourceFault {
    /// The source failed in this call: the file isn't there, or can't be read.
    NotRead,
    /// Memory for the file's bytes was refused.
    NoMemory,
}

/// What files are read from: a file system, or files in memory.
pub trait Source {
    /// The files that it has read, in their order.
    ghost files: { Self → List File };

    /// The number of its failures.
    ghost failures: { Self → ℕ };

    /// Reads all bytes of the file at a path. `NotRead` says that the source failed in this call,
    /// and `NoMemory` that memory for the bytes was refused; it hasn't failed then.
    fn read(&mut self, alloc: Global, path: &str) -> Result<Vec<u8>, SourceFault>
        ensures ok { IfOk result
            (λ v. files self.new ≡ files self.old ++ file_of path.now v.items ∷ []) }
        ensures still { OnOk result (failures self.new ≡ failures self.old) }
        ensures err { OnErr result (files self.new ≡ files self.old) }
        ensures counted { IfErr result
            (λ f. failures self.new ≡ failures self.old + failures_of f) };
}

/// The files of a file system of std.
#[derive(Drop)]
pub struct FileSource<'r, R: Files> {
    files: &'r R,
    account: Account,
}

impl<'r, R: Files> Model for FileSource<'r, R> {
    ghost Value = { SourceState };

    ghost view = { λ s. source_state s.account };

    // the bytes of each file that was read are those that an open file gave
    ghost invariant = { λ s. AreGivenByFiles R.File.remaining (files_in s.account) };
}

impl<'r, R: Files> FileSource<'r, R> {
    /// The files that `files` reaches; nothing has been read yet.
    pub fn new(files: &'r R) -> FileSource<'r, R>
        ensures { result ≡ record { files = []; failures = 0 } }
    {
        FileSource {
            files,
            account: Account::Opened,
        }
    }
}

impl<R: Files> Source for FileSource<'_, R> {
    ghost files = { λ s. s.files };

    ghost failures = { λ s. s.failures };

    fn read(&mut self, alloc: Global, path: &str) -> Result<Vec<u8>, SourceFault> {
        match read_whole(alloc, self.files, path) {
            Ok(bytes) => {
                self.account.note_read(path, &bytes);
                Ok(bytes)
            }
            Err(error) => match fault_of(error.kind()) {
                SourceFault::NotRead => {
                    self.account.note_failure();
                    Err(SourceFault::NotRead)
                }
                SourceFault::NoMemory => Err(SourceFault::NoMemory),
            },
        }
    }
}

/// What an error of this kind is for a source. Where memory was refused, the source itself hasn't
/// failed.
fn fault_of(kind: ErrorKind) -> SourceFault
    ensures { (result ≡ SourceFault.NoMemory) ↔ (kind ≡ ErrorKind.OutOfMemory) }
{
    match kind {
        ErrorKind::OutOfMemory => SourceFault::NoMemory,
        _ => SourceFault::NotRead,
    }
}

/// All bytes of the file at a path: those that a file of this system gives once it is open.
fn read_whole<R: Files>(alloc: Global, files: &R, path: &str) -> io::Result<Vec<u8>>
    ensures { IfOk result (λ v. (file : R.File) × AreAllBytes (R.File.remaining file) v.items) }
{
    let mut file = fs::open(files, path)?;
    read_all(alloc, &mut file)
}

/// All bytes that a reader gives from here on. An interrupted read is tried again.
fn read_all<F: Read>(alloc: Global, reader: &mut F) -> io::Result<Vec<u8>>
    ensures bytes { IfOk result (λ v. AreAllBytes (F.remaining reader.old) v.items) }
    ensures end { OnOk result (IsAtEnd (F.remaining reader.new)) }
    ensures retried { IfErr result (λ e. error_kind e ≢ ErrorKind.Interrupted) }
{
    let mut bytes = Vec::new(alloc);
    reader.read_to_end(&mut bytes)?;
    Ok(bytes)
}
