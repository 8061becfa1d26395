//! What has happened to a stream or to a source of files so far, as contracts see it.

ghost use Rattle.std.specs.Prelude.{◌≡◌, ◌+◌, ◌++◌, ◌∷◌, []};
ghost use Rattle.ultra_io.specs.{Account.{bytes_in, files_in, failures_in}, Source.file_of};

use std::snapshot::Snapshot;

/// What was taken, what was read and what failed, in the order in which it happened. It is for
/// contracts alone: a `Snapshot` has no bytes, so an account takes no memory that grows.
#[derive(Drop)]
pub enum Account {
    /// Nothing has happened yet.
    Opened,
    /// A byte was taken, after what happened before.
    Took(Snapshot<Account>, Snapshot<u8>),
    /// A file was read, after what happened before: its path, as the bytes of an account, and its
    /// bytes.
    Read(Snapshot<Account>, Snapshot<Account>, Snapshot<Vec<u8>>),
    /// A call failed, after what happened before.
    Failed(Snapshot<Account>),
}

impl Account {
    /// Notes that bytes were taken.
    pub fn note_taken(&mut self, bytes: &[u8])
        ensures taken { bytes_in self.new ≡ bytes_in self.old ++ bytes.now }
        ensures files { files_in self.new ≡ files_in self.old }
        ensures failures { failures_in self.new ≡ failures_in self.old }
    {
        for byte in bytes {
            *self = Account::Took(Snapshot::of(self), Snapshot::of(byte));
        }
    }

    /// Notes that a file was read.
    pub fn note_read(&mut self, path: &str, bytes: &Vec<u8>)
        ensures taken { bytes_in self.new ≡ bytes_in self.old }
        ensures files { files_in self.new ≡ files_in self.old ++ file_of path.now bytes.now.items ∷
            [] }
        ensures failures { failures_in self.new ≡ failures_in self.old }
    {
        let mut name = Account::Opened;
        name.note_taken(path.as_bytes());
        *self = Account::Read(Snapshot::of(self), Snapshot::of(&name), Snapshot::of(bytes));
    }

    /// Notes that a call failed.
    pub fn note_failure(&mut self)
        ensures taken { bytes_in self.new ≡ bytes_in self.old }
        ensures files { files_in self.new ≡ files_in self.old }
        ensures failures { failures_in self.new ≡ failures_in self.old + 1 }
    {
        *self = Account::Failed(Snapshot::of(self));
    }
}
