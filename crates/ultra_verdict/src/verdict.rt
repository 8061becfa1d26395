//! Verdicts on serial lists.

ghost use Rattle.std.specs.Prelude.{◌≡◌};
ghost use Rattle.ultra_verdict.specs.Judged.{is_legal};

use ultra_msg::{Reply, Word};
use ultra_serial_law::Entry;

/// The verdict on a serial list: it is legal, or what its first breach is, with the values that
/// show it. Lines count from 1.
#[derive(Clone, Copy, PartialEq, Eq, Debug, Drop)]
pub enum Verdict {
    /// The list explains the run.
    Legal,
    /// The run issued no such request.
    NotIssued {
        line: usize,
        entry: Entry,
    },
    /// An earlier entry has the same name.
    Repeated {
        line: usize,
        entry: Entry,
    },
    /// A replay of the list gives the entry another reply.
    WrongReplay {
        line: usize,
        entry: Entry,
        replay: Reply,
    },
    /// The run answered the request otherwise.
    WrongAnswer {
        line: usize,
        entry: Entry,
        machine: Reply,
    },
    /// The request was answered in a cycle, and `after`, an entry before it, was issued only then
    /// or later. No entry before was issued later than `after`.
    TooLate {
        line: usize,
        entry: Entry,
        answered: u32,
        after: Entry,
        issued: u32,
    },
    /// The run answered this request so, and it isn't in the list.
    Missing {
        entry: Entry,
    },
    /// The lowest address of a cell that differs, with its value in the machine and after the list.
    WrongCell {
        cell: usize,
        machine: Word,
        list: Word,
    },
}

impl Verdict {
    /// Whether the list explains the run.
    pub fn is_legal(&self) -> bool
        ensures { result ≡ is_legal self.now }
    {
        matches!(self, Verdict::Legal)
    }
}
