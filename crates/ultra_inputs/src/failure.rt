//! How a command that fails ends.

ghost use Rattle.std.specs.Prelude.{◌≡◌, ◌+◌, ◌++◌, codes, decimal, OnOk, OnErr};
ghost use Rattle.ultra_msg.specs.Bytes.{TakesPrefix, WritesOrFails};
ghost use Rattle.std.specs.IoError.{error_kind};
ghost use Rattle.ultra_inputs.specs.Failure.{failure_of_arguments, kind_text, path_text, status_of, text_of};

use itoa::Buffer;
use std::alloc::AllocError;
use std::io;
use std::io::ErrorKind;
use ultra_asm::AsmFaultKind;
use ultra_model::Field;
use ultra_msg::{Sink, SinkFault, write_all, write_pieces};

/// Why a command failed. A path is that of the file at fault, as the command names it.
#[derive(Drop)]
pub enum Failure<'a> {
    /// Invalid arguments; the text says what is wrong with them.
    Usage(String),
    /// An argument isn't UTF-8.
    ArgumentsNotUtf8,
    /// The file can't be read.
    NotRead(&'a str),
    /// The settings aren't TOML.
    NotToml(&'a str),
    /// A value of the settings is missing, of another kind than wanted or out of its range.
    BadField(&'a str, Field),
    /// The settings have a key that is no setting.
    UnknownKey(&'a str),
    /// The program isn't UTF-8.
    NotUtf8(&'a str),
    /// A line of the program has a fault. Lines count from 1.
    BadProgramLine {
        /// The path of the program's file.
        path: &'a str,
        /// The number of the line.
        line: usize,
        /// What is wrong with it.
        kind: AsmFaultKind,
    },
    /// The file lists no jobs, or not as a file of jobs does.
    BadJob(&'a str),
    /// A line of a list isn't an entry. Lines count from 1.
    NotAnEntry {
        /// The path of the list's file.
        path: &'a str,
        /// The number of the line.
        line: usize,
    },
    /// A line of a schedule has a word that isn't the number of a processing element. Lines count
    /// from 1.
    BadPe {
        /// The path of the schedule's file.
        path: &'a str,
        /// The number of the line.
        line: usize,
    },
    /// An instruction of the program refers to a cell, and no fence follows it directly.
    /// Instructions count from 0.
    NotFenced {
        /// The path of the program's file.
        path: &'a str,
        /// The number of the instruction.
        instruction: usize,
    },
    /// The list isn't a serial order of the run. Standard output shows why, so standard error takes
    /// nothing.
    NotLegal,
    /// A number for a coordination program is out of its range.
    BadParameter,
    /// Memory was refused.
    NoMemory,
    /// A thread couldn't be started, or died before finishing.
    NoThread,
    /// The heap of the combining trees has no room for what keeps them. Standard output took
    /// nothing.
    HeapTooSmall,
    /// The heap of the combining trees is full: it has no room for a combination.
    HeapFull,
    /// Standard output failed.
    NotWritten,
}

impl<'a> From<AllocError> for Failure<'a> {
    ghost use Rattle.ultra_inputs.specs.declared.failure.Failure.TheVariants.{NoMemory};

    ghost from_gives = { λ _ failure. failure ≡ NoMemory };

    fn from(_: AllocError) -> Failure<'a> {
        Failure::NoMemory
    }
}

impl Failure<'_> {
    /// The exit status of the program. It is 1 for a list that isn't legal and a program that isn't
    /// careful, 2 for a usage fault, and 3 for refused input. It is 4 where memory or a thread was
    /// refused or the heap is full, and 5 where standard output failed.
    pub fn status(&self) -> u8
        ensures { result ≡ status_of self.now }
    {
        match self {
            Failure::NotLegal | Failure::NotFenced { .. } => 1,
            Failure::Usage(_) | Failure::ArgumentsNotUtf8 => 2,
            Failure::NotRead(_)
            | Failure::NotToml(_)
            | Failure::BadField(_, _)
            | Failure::UnknownKey(_)
            | Failure::NotUtf8(_)
            | Failure::BadProgramLine { .. }
            | Failure::BadJob(_)
            | Failure::NotAnEntry { .. }
            | Failure::BadPe { .. }
            | Failure::BadParameter => 3,
            Failure::NoMemory | Failure::NoThread | Failure::HeapTooSmall | Failure::HeapFull => 4,
            Failure::NotWritten => 5,
        }
    }

    /// Writes what goes to standard error: the text of a usage fault, nothing for a list that isn't
    /// legal, else one line. It takes no memory.
    pub fn write_to<E: Sink>(&self, err: &mut E) -> Result<(), SinkFault>
        ensures ok { OnOk result (E.taken err.new ≡ E.taken err.old ++ text_of self.now) }
        ensures still { OnOk result (E.failures err.new ≡ E.failures err.old) }
        ensures err { OnErr result
            (TakesPrefix (text_of self.now) (E.taken err.old) (E.taken err.new)) }
        ensures counted { OnErr result (E.failures err.new ≡ E.failures err.old + 1) }
    {
        self.write_text(err)
    }

    /// Writes what `write_to` writes.
    fn write_text<E: Sink>(&self, err: &mut E) -> Result<(), SinkFault>
        ensures { WritesOrFails result (text_of self.now) (E.taken err.old) (E.taken err.new)
            (E.failures err.old) (E.failures err.new) }
    {
        match self {
            Failure::Usage(text) => write_all(err, text.as_bytes()),
            Failure::ArgumentsNotUtf8 => write_all(err, b"ultra: arguments: not utf-8\n"),
            Failure::NotRead(path) => write_unread(err, path),
            Failure::NotToml(path) => write_refusal(err, path, "not toml"),
            Failure::BadField(path, field) => write_bad_value(err, path, field.name()),
            Failure::UnknownKey(path) => write_refusal(err, path, "unknown key"),
            Failure::NotUtf8(path) => write_refusal(err, path, "not utf-8"),
            Failure::BadProgramLine { path, line, kind } => {
                write_line_fault(err, path, *line, kind_text(*kind))
            }
            Failure::BadJob(path) => write_refusal(err, path, "bad job"),
            Failure::NotAnEntry { path, line } => {
                write_line_fault(err, path, *line, "not an entry")
            }
            Failure::BadPe { path, line } => write_line_fault(err, path, *line, "bad pe"),
            Failure::NotFenced { path, instruction } => write_unfenced(err, path, *instruction),
            Failure::NotLegal => Ok(()),
            Failure::BadParameter => write_all(err, b"ultra: bad parameter\n"),
            Failure::NoMemory => write_all(err, b"ultra: no memory\n"),
            Failure::NoThread => write_all(err, b"ultra: no thread\n"),
            Failure::HeapTooSmall | Failure::HeapFull => write_all(err, b"ultra: heap full\n"),
            Failure::NotWritten => write_all(err, b"ultra: write failed\n"),
        }
    }
}

/// Reports a failure on `err`, and answers its status. If `err` fails too, only the status reports
/// it.
pub fn report_failure<E: Sink>(failure: &Failure, err: &mut E) -> u8
    ensures status { result ≡ status_of failure.now }
    ensures prefix { TakesPrefix (text_of failure.now) (E.taken err.old) (E.taken err.new) }
    ensures whole { E.failures err.new ≡ E.failures err.old → E.taken err.new ≡ E.taken err.old ++
        text_of failure.now }
{
    let _ = failure.write_to(err);
    failure.status()
}

/// Why the arguments of the program couldn't be read.
pub fn failure_of_arguments(error: &io::Error) -> Failure<'static>
    ensures { result ≡ failure_of_arguments (error_kind error.now) }
{
    match error.kind() {
        ErrorKind::OutOfMemory => Failure::NoMemory,
        _ => Failure::ArgumentsNotUtf8,
    }
}

/// Writes the line of a file that can't be read.
fn write_unread<E: Sink>(err: &mut E, path: &str) -> Result<(), SinkFault>
    ensures { WritesOrFails result (codes "ultra: cannot read " ++ path.now ++ codes "\n")
        (E.taken err.old) (E.taken err.new) (E.failures err.old) (E.failures err.new) }
{
    write_pieces(err, &[b"ultra: cannot read ", path.as_bytes(), b"\n"])
}

/// Writes the line of a refused file: its path, and what is wrong with it.
fn write_refusal<E: Sink>(err: &mut E, path: &str, what: &str) -> Result<(), SinkFault>
    ensures { WritesOrFails result (path_text path.now ++ what.now ++ codes "\n") (E.taken err.old)
        (E.taken err.new) (E.failures err.old) (E.failures err.new) }
{
    write_pieces(
        err,
        &[b"ultra: ", path.as_bytes(), b": ", what.as_bytes(), b"\n"],
    )
}

/// Writes the line of settings with a bad value of this name.
fn write_bad_value<E: Sink>(err: &mut E, path: &str, name: &str) -> Result<(), SinkFault>
    ensures { WritesOrFails result (path_text path.now ++ codes "bad " ++ name.now ++ codes "\n")
        (E.taken err.old) (E.taken err.new) (E.failures err.old) (E.failures err.new) }
{
    write_pieces(
        err,
        &[
            b"ultra: ",
            path.as_bytes(),
            b": ",
            b"bad ",
            name.as_bytes(),
            b"\n",
        ],
    )
}

/// Writes the line that names the faulty line of a file, by its number, and its fault.
fn write_line_fault<E: Sink>(
    err: &mut E,
    path: &str,
    line: usize,
    what: &str,
) -> Result<(), SinkFault>
    ensures { WritesOrFails result (path_text path.now ++ codes "line " ++ decimal line ++
        codes ": " ++ what.now ++ codes "\n") (E.taken err.old) (E.taken err.new)
        (E.failures err.old) (E.failures err.new) }
{
    let mut digits = Buffer::new();
    write_numbered(err, path, "line ", digits.format(line), what)
}

/// Writes the line that names an instruction without its fence, by its number.
fn write_unfenced<E: Sink>(err: &mut E, path: &str, instruction: usize) -> Result<(), SinkFault>
    ensures { WritesOrFails result
        (path_text path.now ++ codes "instruction " ++ decimal instruction ++ codes ": " ++
        codes "not followed by fence" ++ codes "\n")
        (E.taken err.old) (E.taken err.new) (E.failures err.old) (E.failures err.new) }
{
    let mut digits = Buffer::new();
    let number = digits.format(instruction);
    write_numbered(err, path, "instruction ", number, "not followed by fence")
}

/// Writes the line of a fault at a numbered place of a file, with the number as a text.
fn write_numbered<E: Sink>(
    err: &mut E,
    path: &str,
    place: &str,
    number: &str,
    what: &str,
) -> Result<(), SinkFault>
    ensures { WritesOrFails result
        (path_text path.now ++ place.now ++ number.now ++ codes ": " ++ what.now ++ codes "\n")
        (E.taken err.old) (E.taken err.new) (E.failures err.old) (E.failures err.new) }
{
    write_pieces(
        err,
        &[
            b"ultra: ",
            path.as_bytes(),
            b": ",
            place.as_bytes(),
            number.as_bytes(),
            b": ",
            what.as_bytes(),
            b"\n",
        ],
    )
}

/// What is wrong in a line of a program.
fn kind_text(kind: AsmFaultKind) -> &'static str
    ensures { result.now ≡ kind_text kind }
{
    match kind {
        AsmFaultKind::NoMemory => "no memory",
        AsmFaultKind::UnknownWord => "unknown word",
        AsmFaultKind::BadRegister => "bad register",
        AsmFaultKind::BadNumber => "bad number",
        AsmFaultKind::UnknownLabel => "unknown label",
        AsmFaultKind::DoubleLabel => "double label",
        AsmFaultKind::TooLong => "too long",
        AsmFaultKind::WrongOperands => "wrong operands",
    }
}
