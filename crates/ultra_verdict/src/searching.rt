//! The values that show a breach.

ghost use Rattle.std.specs.Prelude.{◌≡◌, ◌≤◌};
ghost use Rattle.ultra_msg.specs.{Act.act as effect, declared.Reply.Reply as ReplyOf};
ghost use Rattle.ultra_serial_law.specs.{Legal.{given, Has, IsAnswerTo}, declared.records.{LoggedIssue.LoggedIssue as IssueOf, LoggedAnswer.LoggedAnswer as AnswerOf}};
ghost use Rattle.ultra_serial.specs.Breach.{cells_past};
ghost use Rattle.ultra_verdict.specs.Judged.{IsAnsweredIn, IsAnsweredOtherwise, IsIssueAnswered};

use ultra_msg::{Cell, Reply, Word};
use ultra_serial_law::{Entry, LoggedAnswer, LoggedIssue};

/// What a replay answers an entry that comes after these.
pub(crate) fn reply_after(initial: &[(Cell, Word)], before: &[Entry], entry: &Entry) -> Reply
    ensures { result
        ≡ (effect entry.now.op (cells_past (given initial.now) before.now entry.now.cell)).1 }
{
    let value = value_after(initial, before, entry.cell as usize);
    let (_, reply) = entry.op.act(value);
    reply
}

/// The value that a replay of these entries leaves in a cell.
pub(crate) fn value_after(initial: &[(Cell, Word)], entries: &[Entry], cell: usize) -> Word
    ensures { result ≡ cells_past (given initial.now) entries.now cell }
{
    let mut value = given_value(initial, cell);
    for entry in entries {
        if entry.cell as usize == cell {
            let (new, _) = entry.op.act(value);
            value = new;
        }
    }
    value
}

/// The last value that a cell is given, or 0.
pub(crate) fn given_value(cells: &[(Cell, Word)], cell: usize) -> Word
    ensures { result ≡ given cells.now cell }
{
    let mut value = 0;
    for (address, word) in cells {
        if *address as usize == cell {
            value = *word;
        }
    }
    value
}

/// What the run answered an entry, if that isn't the entry's reply.
pub(crate) fn other_reply(answers: &[LoggedAnswer], entry: &Entry) -> Reply
    requires { (reply : ReplyOf) × IsAnsweredOtherwise answers.now entry.now reply }
    ensures { IsAnsweredOtherwise answers.now entry.now result }
{
    for answer in answers {
        if answer.pe == entry.pe && answer.number == entry.number && answer.reply != entry.reply {
            return answer.reply;
        }
    }
    unreachable!()
}

/// The cycle, at most `last`, in which the run answered an entry.
pub(crate) fn answer_cycle(answers: &[LoggedAnswer], entry: &Entry, last: u32) -> u32
    requires { (answer : AnswerOf) × Has answers.now answer × IsAnswerTo entry.now answer
        × (answer.cycle ≤ last) }
    ensures answered { IsAnsweredIn answers.now entry.now result }
    ensures early { result ≤ last }
{
    for answer in answers {
        if answer.pe == entry.pe && answer.number == entry.number && answer.cycle <= last {
            return answer.cycle;
        }
    }
    unreachable!()
}

/// The issue of the request that was answered.
pub(crate) fn issue_of(issues: &[LoggedIssue], answer: &LoggedAnswer) -> LoggedIssue
    requires { (issue : IssueOf) × Has issues.now issue × IsIssueAnswered issue answer.now }
    ensures issued { Has issues.now result }
    ensures named { IsIssueAnswered result answer.now }
{
    for issue in issues {
        if issue.pe == answer.pe && issue.number == answer.number {
            return *issue;
        }
    }
    unreachable!()
}
