//! Which verdict a list gets.

ghost use Rattle.std.specs.Prelude.{◌≡◌, IfOk};
ghost use Rattle.ultra_serial_law.specs.Log.{log_of};
ghost use Rattle.ultra_serial.specs.declared.checking.BreachKind.TheVariants as kind;
ghost use Rattle.ultra_verdict.specs.{Judged.{AreAnswersIssued, IsVerdictFor}, Case.{IsFirstWrongOf, IsVerdictOf}};

use crate::last_cells::last_cells;
use crate::searching::{
    answer_cycle, given_value, issue_of, other_reply, reply_after, value_after,
};
use crate::verdict::Verdict;
use std::alloc::{AllocError, Global};
use ultra_isa::Program;
use ultra_machine::Config;
use ultra_msg::{Cell, Word};
use ultra_serial::{BreachKind, CheckFault, check, latest_issued_entry, log_and_machine};
use ultra_serial_law::{Entry, Log};

/// The verdict on a list for a run with the cycles of its trace. An error says that memory was
/// refused.
pub fn judge(
    alloc: Global,
    config: &Config,
    program: &Program,
    list: &[Entry],
) -> Result<Verdict, AllocError>
    ensures { IfOk result (IsVerdictFor config.now program.now list.now) }
{
    let Ok((log, machine)) = log_and_machine(alloc, config, program, config.cycles()) else {
        return Err(AllocError);
    };
    let cells = last_cells(alloc, &machine)?;
    let case = Case {
        initial: config.initial(),
        log: &log,
        cells: cells.as_slice(),
        list,
    };
    case.verdict(alloc)
}

/// A list, and the run by which it is judged.
#[derive(Drop)]
struct Case<'c> {
    initial: &'c [(Cell, Word)],
    log: &'c Log,
    /// The cells at the end of the run.
    cells: &'c [(Cell, Word)],
    list: &'c [Entry],
}

impl Case<'_> {
    /// The verdict. An error says that memory was refused.
    fn verdict(&self, alloc: Global) -> Result<Verdict, AllocError>
        requires { AreAnswersIssued (log_of self.now.log.now) }
        ensures { IfOk result (IsVerdictOf self.now) }
    {
        match check(alloc, self.initial, self.log, self.cells, self.list) {
            Ok(()) => Ok(Verdict::Legal),
            Err(CheckFault::NoMemory) => Err(AllocError),
            Err(CheckFault::Breach(kind, index)) => self.breach(alloc, kind, index),
        }
    }

    /// The verdict where this is the first breach. An error says that memory was refused.
    fn breach(&self, alloc: Global, kind: BreachKind, index: usize) -> Result<Verdict, AllocError>
        requires first { IsFirstWrongOf self.now kind index }
        requires issued { AreAnswersIssued (log_of self.now.log.now) }
        ensures { IfOk result (IsVerdictOf self.now) }
    {
        match kind {
            BreachKind::NotIssued => Ok(self.not_issued(index)),
            BreachKind::Repeated => Ok(self.repeated(index)),
            BreachKind::WrongReplay => Ok(self.wrong_replay(index)),
            BreachKind::WrongAnswer => Ok(self.wrong_answer(index)),
            BreachKind::TooLate => self.too_late(alloc, index),
            BreachKind::Missing => Ok(self.missing(index)),
            BreachKind::WrongCell => Ok(self.wrong_cell(index)),
        }
    }

    /// The verdict on a request that wasn't issued.
    fn not_issued(&self, index: usize) -> Verdict
        requires { IsFirstWrongOf self.now kind.NotIssued index }
        ensures { IsVerdictOf self.now result }
    {
        Verdict::NotIssued {
            line: index + 1,
            entry: self.list[index],
        }
    }

    /// The verdict on an entry with the name of an earlier one.
    fn repeated(&self, index: usize) -> Verdict
        requires { IsFirstWrongOf self.now kind.Repeated index }
        ensures { IsVerdictOf self.now result }
    {
        Verdict::Repeated {
            line: index + 1,
            entry: self.list[index],
        }
    }

    /// The verdict on an entry that a replay answers otherwise.
    fn wrong_replay(&self, index: usize) -> Verdict
        requires { IsFirstWrongOf self.now kind.WrongReplay index }
        ensures { IsVerdictOf self.now result }
    {
        let entry = self.list[index];
        Verdict::WrongReplay {
            line: index + 1,
            entry,
            replay: reply_after(self.initial, &self.list[..index], &entry),
        }
    }

    /// The verdict on an entry that the run answered otherwise.
    fn wrong_answer(&self, index: usize) -> Verdict
        requires { IsFirstWrongOf self.now kind.WrongAnswer index }
        ensures { IsVerdictOf self.now result }
    {
        let entry = self.list[index];
        Verdict::WrongAnswer {
            line: index + 1,
            entry,
            machine: other_reply(self.log.answers.as_slice(), &entry),
        }
    }

    /// The verdict on an entry that was answered before an earlier one was issued, or in that
    /// cycle. An error says that memory was refused.
    fn too_late(&self, alloc: Global, index: usize) -> Result<Verdict, AllocError>
        requires { IsFirstWrongOf self.now kind.TooLate index }
        ensures { IfOk result (IsVerdictOf self.now) }
    {
        let line = index + 1;
        let entry = self.list[index];
        let Some((after, issued)) = latest_issued_entry(alloc, self.log, &self.list[..index])?
        else {
            unreachable!()
        };
        Ok(Verdict::TooLate {
            line,
            entry,
            answered: answer_cycle(self.log.answers.as_slice(), &entry, issued),
            after,
            issued,
        })
    }

    /// The verdict on an answer of the run that isn't in the list.
    fn missing(&self, index: usize) -> Verdict
        requires first { IsFirstWrongOf self.now kind.Missing index }
        requires issued { AreAnswersIssued (log_of self.now.log.now) }
        ensures { IsVerdictOf self.now result }
    {
        let answer = self.log.answers[index];
        let issue = issue_of(self.log.issues.as_slice(), &answer);
        Verdict::Missing {
            entry: Entry {
                pe: issue.pe,
                number: issue.number,
                cell: issue.cell,
                op: issue.op,
                reply: answer.reply,
            },
        }
    }

    /// The verdict on a cell that differs.
    fn wrong_cell(&self, index: usize) -> Verdict
        requires { IsFirstWrongOf self.now kind.WrongCell index }
        ensures { IsVerdictOf self.now result }
    {
        Verdict::WrongCell {
            cell: index,
            machine: given_value(self.cells, index),
            list: value_after(self.initial, self.list, index),
        }
    }
}
