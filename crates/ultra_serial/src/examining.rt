//! What is wrong with one entry of a serial list.

ghost use Rattle.std.specs.Prelude.{◌≡◌, ◌≢◌, ◌<◌, ◌≤◌, ◌+◌, ◌⊎◌, List, true, false, IfOk};
ghost use Rattle.ultra_msg.specs.Act.{act as effect};
ghost use Rattle.ultra_serial_law.specs.{declared.records.{LoggedIssue.LoggedIssue as IssueOf, LoggedAnswer.LoggedAnswer as AnswerOf, Entry.Entry as EntryOf}, Log.Log as LogOf, Legal.{Has, IsIssueNamed, IsAnswerTo, IsIssueOf, with_cell}};
ghost use Rattle.ultra_serial.specs.{DenseCells.dense_cells, Breach.HasNameOf, Examined.Finds, RecordsByName.Holds};

use crate::checking::BreachKind;
use crate::dense_memory::DenseMemory;
use crate::records_by_name::RecordsByName;
use crate::request_name::RequestName;
use crate::{Entry, LoggedAnswer, LoggedIssue};
use std::alloc::AllocError;

/// The first fault of the next entry of a list, or `None` if it has none; then the entry has
/// acted on the memory. An error says that memory was refused.
///
/// `names` has the log and the entries before this one, by name. They have acted on `memory`, and
/// `from` is the first cycle after all their issues.
pub(crate) fn fault_of(
    names: &RecordsByName<'_>,
    from: u64,
    memory: &mut DenseMemory,
    entry: &Entry,
) -> Result<Option<BreachKind>, AllocError>
    ensures finds { (log : LogOf) (before : List EntryOf) → Holds names.now log before →
        IfOk result (λ found. Finds log before from (dense_cells memory.old) entry.now found) }
    ensures acted { IfOk result (λ found. found ≡ None →
        dense_cells memory.new ≡ with_cell (dense_cells memory.old) entry.now.cell
        (effect entry.now.op (dense_cells memory.old entry.now.cell)).0) }
{
    let name = RequestName {
        pe: entry.pe,
        number: entry.number,
    };
    let issues = names.issues(name);
    let others = names.entries(name);
    let answers = names.answers(name);
    if !is_issued(issues, entry) {
        return Ok(Some(BreachKind::NotIssued));
    }
    if is_repeated(others, entry) {
        return Ok(Some(BreachKind::Repeated));
    }
    let reply = memory.act(entry.cell, entry.op)?;
    if reply != entry.reply {
        return Ok(Some(BreachKind::WrongReplay));
    }
    if is_answered_otherwise(answers, entry) {
        return Ok(Some(BreachKind::WrongAnswer));
    }
    if is_answered_before(answers, entry, from) {
        return Ok(Some(BreachKind::TooLate));
    }
    Ok(None)
}

/// Whether the entry is one of the issues, with its cell and operation.
fn is_issued(issues: &[LoggedIssue], entry: &Entry) -> bool
    ensures yes { result ≡ true → (i : IssueOf) × Has issues.now i × IsIssueOf entry.now i }
    ensures no { result ≡ false → (i : IssueOf) → Has issues.now i → IsIssueOf entry.now i → ⊥ }
{
    for issue in issues {
        if is_issue_of(issue, entry) {
            return true;
        }
    }
    false
}

/// Whether an issue is that of the entry, with its cell and operation.
fn is_issue_of(issue: &LoggedIssue, entry: &Entry) -> bool
    ensures yes { result ≡ true → IsIssueOf entry.now issue.now }
    ensures no { result ≡ false → IsIssueOf entry.now issue.now → ⊥ }
{
    issue.pe == entry.pe
        && issue.number == entry.number
        && issue.cell == entry.cell
        && issue.op == entry.op
}

/// Whether an earlier entry has this name.
fn is_repeated(before: &[Entry], entry: &Entry) -> bool
    ensures yes { result ≡ true → (f : EntryOf) × Has before.now f × HasNameOf f entry.now }
    ensures no { result ≡ false → (f : EntryOf) → Has before.now f → HasNameOf f entry.now → ⊥ }
{
    for other in before {
        if other.pe == entry.pe && other.number == entry.number {
            return true;
        }
    }
    false
}

/// Whether the entry has an answer that isn't its reply.
fn is_answered_otherwise(answers: &[LoggedAnswer], entry: &Entry) -> bool
    ensures yes { result ≡ true →
        (a : AnswerOf) × Has answers.now a × IsAnswerTo entry.now a × (a.reply ≢ entry.now.reply) }
    ensures no { result ≡ false → (a : AnswerOf) → Has answers.now a → IsAnswerTo entry.now a →
        a.reply ≡ entry.now.reply }
{
    for answer in answers {
        if is_answer_to(answer, entry) && answer.reply != entry.reply {
            return true;
        }
    }
    false
}

/// Whether the entry has an answer of an earlier cycle than `from`.
fn is_answered_before(answers: &[LoggedAnswer], entry: &Entry, from: u64) -> bool
    ensures yes { result ≡ true →
        (a : AnswerOf) × Has answers.now a × IsAnswerTo entry.now a × (a.cycle < from) }
    ensures no { result ≡ false → (a : AnswerOf) → Has answers.now a → IsAnswerTo entry.now a →
        from ≤ a.cycle }
{
    for answer in answers {
        if is_answer_to(answer, entry) && u64::from(answer.cycle) < from {
            return true;
        }
    }
    false
}

/// Whether an answer has the entry's name.
pub(crate) fn is_answer_to(answer: &LoggedAnswer, entry: &Entry) -> bool
    ensures yes { result ≡ true → IsAnswerTo entry.now answer.now }
    ensures no { result ≡ false → IsAnswerTo entry.now answer.now → ⊥ }
{
    answer.pe == entry.pe && answer.number == entry.number
}

/// The first cycle that isn't before `from` and comes after each issue of the entry's name.
pub(crate) fn after_issues(issues: &[LoggedIssue], entry: &Entry, from: u64) -> u64
    requires { from ≤ 4294967296 }
    ensures small { result ≤ 4294967296 }
    ensures no_less { from ≤ result }
    ensures above { (i : IssueOf) → Has issues.now i → IsIssueNamed entry.now i → i.cycle < result }
    ensures reached { (result ≡ from) ⊎
        ((i : IssueOf) × Has issues.now i × IsIssueNamed entry.now i × (i.cycle + 1 ≡ result)) }
{
    let mut after = from;
    for issue in issues {
        if issue.pe == entry.pe && issue.number == entry.number && after <= u64::from(issue.cycle) {
            after = u64::from(issue.cycle) + 1;
        }
    }
    after
}
