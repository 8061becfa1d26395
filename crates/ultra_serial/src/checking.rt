//! Whether a serial list explains a log.

ghost use Rattle.std.specs.Prelude.{◌≡◌, ◌<◌, ℕ, List, [], true, false, Some, None, IfOk, OnOk, IfErr, IfSome, slice_get};
ghost use Rattle.ultra_serial_law.specs.{declared.records.{LoggedAnswer.LoggedAnswer as AnswerOf, Entry.Entry as EntryOf}, Log.{Log as LogOf, log_of}, Legal.{Cells, given, Has, IsAnswerTo, IsLegal}};
ghost use Rattle.ultra_serial.specs.{DenseCells.dense_cells, Breach.{cells_past, ExplainsCheckFault}, Examined.{AreExplained, IsListed, IsFirstMissingAnswer, IsFine, IsWrongAt}, RecordsByName.Holds};

use crate::dense_memory::{DenseMemory, MOST_TABLE_CELLS};
use crate::examining::{after_issues, fault_of, is_answer_to};
use crate::records_by_name::RecordsByName;
use crate::request_name::RequestName;
use crate::{Entry, Log, LoggedAnswer};
use std::alloc::{AllocError, Global};
use ultra_msg::{Cell, Word};

/// What is wrong with a list: with one of its entries, with an answer that none of them has
/// (`Missing`) or with a cell (`WrongCell`).
#[derive(Clone, Copy, PartialEq, Eq, Debug, Drop)]
pub enum BreachKind {
    /// The log has no issue of this name with this cell and operation.
    NotIssued,
    /// An earlier entry has the same name.
    Repeated,
    /// The log has an answer whose name no entry has.
    Missing,
    /// A replay of the list gives the entry another reply than its own.
    WrongReplay,
    /// The log has an answer of this name with another reply.
    WrongAnswer,
    /// A replay of the list leaves a cell with another value.
    WrongCell,
    /// The entry was answered in the cycle in which an earlier entry was issued, or before that
    /// cycle.
    TooLate,
}

/// Why a list is not accepted.
#[derive(Clone, Copy, PartialEq, Eq, Debug, Drop)]
pub enum CheckFault {
    /// Memory was refused.
    NoMemory,
    /// The list doesn't explain the log: what is wrong, and the index from 0 of the entry or of the
    /// log's answer (`Missing`), or the address of the cell (`WrongCell`).
    Breach(BreachKind, usize),
}

impl From<AllocError> for CheckFault {
    ghost use Rattle.ultra_serial.specs.declared.checking.CheckFault.TheVariants.{NoMemory};

    ghost from_gives = { λ _ fault. fault ≡ NoMemory };

    fn from(_: AllocError) -> CheckFault {
        CheckFault::NoMemory
    }
}

/// Whether a list explains the log of a run from the initial cells to the last cells: `Ok` exactly
/// where it does. Each cell is given by its address and value. If an address occurs twice, the last
/// value wins; the other cells hold 0.
///
/// Else the fault is the first one. The entries are examined one by one, each for `NotIssued`,
/// `Repeated`, `WrongReplay`, `WrongAnswer` and `TooLate`; then the log's answers for `Missing`;
/// then the cells by address. `NoMemory` means that memory was refused; it may replace any other
/// answer.
pub fn check(
    alloc: Global,
    initial: &[(Cell, Word)],
    log: &Log,
    cells: &[(Cell, Word)],
    list: &[Entry],
) -> Result<(), CheckFault>
    ensures legal { OnOk result
        (IsLegal (given initial.now) (log_of log.now) (given cells.now) list.now) }
    ensures breach { IfErr result
        (ExplainsCheckFault (given initial.now) (log_of log.now) (given cells.now) list.now) }
{
    let mut memory = DenseMemory::new(alloc, initial, MOST_TABLE_CELLS)?;
    examine(alloc, log, list, &mut memory)?;
    let wanted = DenseMemory::new(alloc, cells, MOST_TABLE_CELLS)?;
    let of_initial = lowest_given(&memory, &wanted, initial, None);
    let of_cells = lowest_given(&memory, &wanted, cells, of_initial);
    if let Some(cell) = lowest_used(&memory, &wanted, list, of_cells) {
        return Err(CheckFault::Breach(BreachKind::WrongCell, cell as usize));
    }
    Ok(())
}

/// Finds the first fault of an entry, or of an answer that no entry has. If there is none, the
/// entries have acted on the memory in order.
fn examine(
    alloc: Global,
    log: &Log,
    list: &[Entry],
    memory: &mut DenseMemory,
) -> Result<(), CheckFault>
    ensures cells { OnOk result
        (dense_cells memory.new ≡ cells_past (dense_cells memory.old) list.now) }
    ensures explained { OnOk result
        (AreExplained (dense_cells memory.old) (log_of log.now) list.now) }
    ensures answered { OnOk result ((a : AnswerOf) → Has (log_of log.now).answers a →
        IsListed list.now a) }
    ensures breach { (final : Cells) →
        IfErr result (ExplainsCheckFault (dense_cells memory.old) (log_of log.now) final list.now) }
{
    let mut names = RecordsByName::new(alloc, log, list)?;
    replay(list, &mut names, memory)?;
    if let Some(index) = first_missing(log.answers.as_slice(), &names) {
        return Err(CheckFault::Breach(BreachKind::Missing, index));
    }
    Ok(())
}

/// Finds the first fault of an entry. The entries before it have acted on the memory, and are in
/// `names`, which has the log and no entries at first.
fn replay(
    list: &[Entry],
    names: &mut RecordsByName<'_>,
    memory: &mut DenseMemory,
) -> Result<(), CheckFault>
    requires { names.old.list.now ≡ list.now }
    ensures cells { OnOk result
        (dense_cells memory.new ≡ cells_past (dense_cells memory.old) list.now) }
    ensures names { OnOk result ((log : LogOf) → Holds names.old log [] →
        Holds names.new log list.now) }
    ensures explained { OnOk result ((log : LogOf) → Holds names.old log [] →
        AreExplained (dense_cells memory.old) log list.now) }
    ensures breach { (log : LogOf) (final : Cells) → Holds names.old log [] →
        IfErr result (ExplainsCheckFault (dense_cells memory.old) log final list.now) }
{
    let mut from = 0;
    for (index, entry) in list.iter().enumerate() {
        if let Some(kind) = fault_of(names, from, memory, entry)? {
            return Err(CheckFault::Breach(kind, index));
        }
        let name = RequestName {
            pe: entry.pe,
            number: entry.number,
        };
        let issues = names.issues(name);
        from = after_issues(issues, entry, from);
        names.add(index)?;
    }
    Ok(())
}

/// The first answer whose name no entry has.
fn first_missing(answers: &[LoggedAnswer], names: &RecordsByName<'_>) -> Option<usize>
    ensures none { (log : LogOf) (list : List EntryOf) → Holds names.now log list → result ≡ None →
        (a : AnswerOf) → Has answers.now a → IsListed list a }
    ensures some { (log : LogOf) (list : List EntryOf) → Holds names.now log list →
        IfSome result (λ n. IsFirstMissingAnswer answers.now list n) }
{
    for (index, answer) in answers.iter().enumerate() {
        let name = RequestName {
            pe: answer.pe,
            number: answer.number,
        };
        if !is_listed(answer, names.entries(name)) {
            return Some(index);
        }
    }
    None
}

/// Whether an answer's name is in the list.
fn is_listed(answer: &LoggedAnswer, list: &[Entry]) -> bool
    ensures yes { result ≡ true → (e : EntryOf) × Has list.now e × IsAnswerTo e answer.now }
    ensures no { result ≡ false → (e : EntryOf) → Has list.now e → IsAnswerTo e answer.now → ⊥ }
{
    for entry in list {
        if is_answer_to(answer, entry) {
            return true;
        }
    }
    false
}

/// The lowest address at which two memories differ, among these and what was found before.
fn lowest_given(
    left: &DenseMemory,
    right: &DenseMemory,
    given: &[(Cell, Word)],
    lowest: Option<Cell>,
) -> Option<Cell>
    ensures kept { (a : ℕ) → IsFine (dense_cells left.now) (dense_cells right.now) lowest a →
        IsFine (dense_cells left.now) (dense_cells right.now) result a }
    ensures covered { (k : ℕ) (i : ℕ × ℕ) → slice_get given.now k ≡ Some i →
        IsFine (dense_cells left.now) (dense_cells right.now) result i.0 }
    ensures wrong { IsWrongAt (dense_cells left.now) (dense_cells right.now) lowest →
        IsWrongAt (dense_cells left.now) (dense_cells right.now) result }
{
    let mut found = lowest;
    for (cell, _) in given {
        found = lower(left, right, *cell, found);
    }
    found
}

/// The lowest address at which two memories differ, among those of the entries and what was found
/// before.
fn lowest_used(
    left: &DenseMemory,
    right: &DenseMemory,
    list: &[Entry],
    lowest: Option<Cell>,
) -> Option<Cell>
    ensures kept { (a : ℕ) → IsFine (dense_cells left.now) (dense_cells right.now) lowest a →
        IsFine (dense_cells left.now) (dense_cells right.now) result a }
    ensures covered { (k : ℕ) (e : EntryOf) → slice_get list.now k ≡ Some e →
        IsFine (dense_cells left.now) (dense_cells right.now) result e.cell }
    ensures wrong { IsWrongAt (dense_cells left.now) (dense_cells right.now) lowest →
        IsWrongAt (dense_cells left.now) (dense_cells right.now) result }
{
    let mut found = lowest;
    for entry in list {
        found = lower(left, right, entry.cell, found);
    }
    found
}

/// The lower of `found` and `cell`, counting `cell` only if the memories differ there.
fn lower(left: &DenseMemory, right: &DenseMemory, cell: Cell, found: Option<Cell>) -> Option<Cell>
    ensures kept { (a : ℕ) → IsFine (dense_cells left.now) (dense_cells right.now) found a →
        IsFine (dense_cells left.now) (dense_cells right.now) result a }
    ensures covered { IsFine (dense_cells left.now) (dense_cells right.now) result cell }
    ensures wrong { IsWrongAt (dense_cells left.now) (dense_cells right.now) found →
        IsWrongAt (dense_cells left.now) (dense_cells right.now) result }
{
    if left.value(cell) == right.value(cell) {
        return found;
    }
    match found {
        Some(other) if other <= cell => Some(other),
        _ => Some(cell),
    }
}
