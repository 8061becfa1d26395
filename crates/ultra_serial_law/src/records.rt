//! What a run leaves behind: requests, when they were issued and answered, and the order in which
//! they acted.

use ultra_msg::{Cell, Op, Pe, Reply};

/// A request as its processing element (PE) issued it. The PE and the number are its name.
#[derive(Clone, Copy, Drop)]
pub struct NamedRequest {
    /// The PE that issued it.
    pub pe: Pe,
    /// How many requests that PE had issued before.
    pub number: u32,
    /// The cell that it is for.
    pub cell: Cell,
    /// What it does to the cell.
    pub op: Op,
}

/// A request of a serial list, with its reply. The PE and the number are its name.
#[derive(Clone, Copy, PartialEq, Eq, Debug, Drop)]
pub struct Entry {
    /// The PE that issued it.
    pub pe: Pe,
    /// How many requests that PE had issued before.
    pub number: u32,
    /// The cell that it is for.
    pub cell: Cell,
    /// What it does to the cell.
    pub op: Op,
    /// Its answer if the requests act in the order of the list.
    pub reply: Reply,
}

/// Requests in an order in which they could have acted sequentially.
pub type SerialList = Vec<Entry>;

/// A request was issued. The PE and the number are its name.
#[derive(Clone, Copy, PartialEq, Eq, Debug, Drop)]
pub struct LoggedIssue {
    /// The PE that issued it.
    pub pe: Pe,
    /// How many requests that PE had issued before.
    pub number: u32,
    /// The cell that it is for.
    pub cell: Cell,
    /// What it does to the cell.
    pub op: Op,
    /// The cycle of the issue, from 0.
    pub cycle: u32,
}

/// A request was answered. The PE and the number are its name.
#[derive(Clone, Copy, PartialEq, Eq, Debug, Drop)]
pub struct LoggedAnswer {
    /// The PE that the answer came to.
    pub pe: Pe,
    /// How many requests that PE had issued before the one that is answered.
    pub number: u32,
    /// What it was answered.
    pub reply: Reply,
    /// The cycle of the answer, from 0.
    pub cycle: u32,
}

/// What a machine issued and answered in its first cycles.
#[derive(PartialEq, Eq, Debug, Drop)]
pub struct Log {
    /// All issues, by cycle, then by processing element.
    pub issues: Vec<LoggedIssue>,
    /// All answers, by cycle, then by processing element.
    pub answers: Vec<LoggedAnswer>,
}
