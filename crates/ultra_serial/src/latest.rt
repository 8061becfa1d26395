//! The entry of a list that was issued last.

ghost use Rattle.std.specs.Prelude.{◌≡◌, ◌≤◌, ◌+◌, ◌++◌, ◌∷◌, [], List, IfOk};
ghost use Rattle.ultra_serial_law.specs.{declared.records.{LoggedIssue.LoggedIssue as IssueOf, Entry.Entry as EntryOf}, Log.{Log as LogOf, log_of}, Legal.{Has, IsIssueNamed}};
ghost use Rattle.ultra_serial.specs.LatestIssue.{AreIssuesOf, IsLatestIssueOf, first_cycle_after};

use crate::examining::after_issues;
use crate::records_by_name::issues_by_name;
use crate::request_name::RequestName;
use crate::{Entry, Log, LoggedIssue};
use std::alloc::{AllocError, Global};

/// The entry that was issued last, and the cycle of its issue; of several that were issued in that
/// cycle the first. `None` where none was issued. An error says that memory was refused.
pub fn latest_issued_entry(
    alloc: Global,
    log: &Log,
    list: &[Entry],
) -> Result<Option<(Entry, u32)>, AllocError>
    ensures { IfOk result (IsLatestIssueOf (log_of log.now) list.now) }
{
    let issues = log.issues.as_slice();
    let named = issues_by_name(alloc, issues)?;
    let mut latest = None;
    for entry in list {
        let name = RequestName {
            pe: entry.pe,
            number: entry.number,
        };
        latest = later_issue(named.get(issues, name), entry, latest);
    }
    Ok(latest)
}

/// The latest issue among those before an entry and the issues of its name.
fn later_issue(
    issues: &[LoggedIssue],
    entry: &Entry,
    latest: Option<(Entry, u32)>,
) -> Option<(Entry, u32)>
    ensures { (log : LogOf) (before : List EntryOf) → AreIssuesOf log entry.now issues.now →
        IsLatestIssueOf log before latest → IsLatestIssueOf log (before ++ entry.now ∷ []) result }
{
    let from = first_cycle_after(latest);
    let after = after_issues(issues, entry, from);
    if from < after {
        Some((*entry, (after - 1) as u32))
    } else {
        latest
    }
}

/// The first cycle after that of the latest issue.
fn first_cycle_after(latest: Option<(Entry, u32)>) -> u64
    ensures value { result ≡ first_cycle_after latest }
    ensures small { result ≤ 4294967296 }
{
    match latest {
        None => 0,
        Some((_, cycle)) => u64::from(cycle) + 1,
    }
}
