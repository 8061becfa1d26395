//! A log and entries, each kept under its name.

ghost use Rattle.std.specs.Prelude.{◌≡◌, ℕ, ◌<◌, List, [], ◌∷◌, ◌++◌, length, Some, IfOk, OnOk, slice_get};
ghost use Rattle.ultra_serial_law.specs.{declared.records.{LoggedIssue.LoggedIssue as IssueOf, Entry.Entry as EntryOf}, Log.{Log as LogOf, log_of}};
ghost use Rattle.ultra_serial.specs.ByName.{list_named};
ghost use Rattle.ultra_serial.specs.RecordsByName.{AreIssuesByName, AreAnswersByName, Holds, answers_named, entries_named, issues_named};

use crate::by_name::ListsByName;
use crate::request_name::RequestName;
use crate::{Entry, Log, LoggedAnswer, LoggedIssue};
use std::alloc::{AllocError, Global};

/// The issues and answers of a log, and the first entries of a list: each under its name, which is
/// the processing element and the number.
#[derive(Drop)]
pub(crate) struct RecordsByName<'c> {
    log: &'c Log,
    list: &'c [Entry],
    issues: ListsByName<LoggedIssue>,
    answers: ListsByName<LoggedAnswer>,
    entries: ListsByName<Entry>,
}

impl<'c> RecordsByName<'c> {
    /// A log, and no entries of a list.
    pub fn new(
        alloc: Global,
        log: &'c Log,
        list: &'c [Entry],
    ) -> Result<RecordsByName<'c>, AllocError>
        ensures records { IfOk result (λ names. Holds names (log_of log.now) []) }
        ensures list { IfOk result (λ names. names.list.now ≡ list.now) }
    {
        let issues = issues_by_name(alloc, log.issues.as_slice())?;
        let answers = answers_by_name(alloc, &issues, log.answers.as_slice())?;
        let entries = ListsByName::with_places(alloc, &issues)?;
        Ok(RecordsByName {
            log,
            list,
            issues,
            answers,
            entries,
        })
    }

    /// The issues of a name.
    pub fn issues(&self, name: RequestName) -> &[LoggedIssue]
        ensures { result.now ≡ issues_named self.now name.pe name.number }
    {
        self.issues.get(self.log.issues.as_slice(), name)
    }

    /// The answers to the request of a name.
    pub fn answers(&self, name: RequestName) -> &[LoggedAnswer]
        ensures { result.now ≡ answers_named self.now name.pe name.number }
    {
        self.answers.get(self.log.answers.as_slice(), name)
    }

    /// The entries of a name.
    pub fn entries(&self, name: RequestName) -> &[Entry]
        ensures { result.now ≡ entries_named self.now name.pe name.number }
    {
        self.entries.get(self.list, name)
    }

    /// One entry more: that of an index of the list.
    pub fn add(&mut self, index: usize) -> Result<(), AllocError>
        requires { index < length self.old.list.now }
        ensures records { OnOk result ((log : LogOf) (before : List EntryOf) (e : EntryOf) →
            slice_get self.old.list.now index ≡ Some e → Holds self.old log before →
            Holds self.new log (before ++ e ∷ [])) }
        ensures list { self.new.list.now ≡ self.old.list.now }
    {
        let entry = &self.list[index];
        let name = RequestName {
            pe: entry.pe,
            number: entry.number,
        };
        self.entries.push(self.list, index, name)
    }
}

/// Issues under their names.
pub(crate) fn issues_by_name(
    alloc: Global,
    issues: &[LoggedIssue],
) -> Result<ListsByName<LoggedIssue>, AllocError>
    ensures { IfOk result (λ named. AreIssuesByName (list_named named issues.now) issues.now) }
{
    let mut named = ListsByName::new(alloc)?;
    for (index, issue) in issues.iter().enumerate() {
        let name = RequestName {
            pe: issue.pe,
            number: issue.number,
        };
        named.make_place(name)?;
        named.push(issues, index, name)?;
    }
    Ok(named)
}

/// Answers under their names, with places for those of issues.
fn answers_by_name(
    alloc: Global,
    issues: &ListsByName<LoggedIssue>,
    answers: &[LoggedAnswer],
) -> Result<ListsByName<LoggedAnswer>, AllocError>
    ensures { IfOk result (λ named. AreAnswersByName (list_named named answers.now) answers.now) }
{
    let mut named = ListsByName::with_places(alloc, issues)?;
    for (index, answer) in answers.iter().enumerate() {
        let name = RequestName {
            pe: answer.pe,
            number: answer.number,
        };
        named.push(answers, index, name)?;
    }
    Ok(named)
}
