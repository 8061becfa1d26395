//! Results that aren't one for each job.

use crate::equal::check_equal;
use crate::jobs::two_jobs;
use crate::sweeps::sweep_alone;
use std::alloc::Global;
use std::process::Abort;
use std::sync::Wait;
use std::test::Fail;
use ultra_sweep::{GatherFault, Job, JobOutcome, JobResult, gather};

/// Asserts that the results of `count` jobs are refused with this fault.
fn check_refused<R: Abort + AllocGlobal>(
    rt: &R,
    count: u64,
    results: Vec<JobResult>,
    wanted: GatherFault,
) -> Result<(), Fail> {
    match gather(rt.alloc(), count, results) {
        Err(GatherFault::NoMemory) if wanted != GatherFault::NoMemory => {
            Err(Fail::from(GatherFault::NoMemory))
        }
        ended => {
            check_equal(rt, ended.err(), Some(wanted));
            Ok(())
        }
    }
}

#[test]
fn another_number_of_jobs(rt: HostRuntime) -> Result<(), Fail> {
    let jobs = two_jobs(rt.alloc())?;
    let jobs = jobs.as_slice();
    gather(rt.alloc(), 2, sweep_alone(&rt, jobs)?)?;
    check_refused(&rt, 1, sweep_alone(&rt, jobs)?, GatherFault::Stranger(1))?;
    check_refused(&rt, 3, sweep_alone(&rt, jobs)?, GatherFault::Missing(2))?;
    check_refused(&rt, 2, results_twice(&rt, jobs)?, GatherFault::Double(0))
}

/// The results of all jobs, and then once more.
fn results_twice<R: Wait + AllocGlobal>(rt: &R, jobs: &[Job]) -> Result<Vec<JobResult>, Fail> {
    let mut results = sweep_alone(rt, jobs)?;
    results.append(&mut sweep_alone(rt, jobs)?)?;
    Ok(results)
}

/// A result with an empty text, or one of a job to which memory was refused.
fn result(alloc: Global, number: u64, has_text: bool) -> JobResult {
    JobResult {
        number,
        outcome: match has_text {
            true => JobOutcome::Text(Vec::new(alloc)),
            false => JobOutcome::NoMemory,
        },
    }
}

/// The first result that isn't accepted says which fault it is, and the first missing job comes
/// last.
#[test]
fn kinds_in_their_order(rt: HostRuntime) -> Result<(), Fail> {
    let rows: [(&[(u64, bool)], GatherFault); 7] = [
        (&[(5, true), (0, true), (0, true)], GatherFault::Stranger(5)),
        (&[(0, true), (0, true), (5, true)], GatherFault::Double(0)),
        (&[(5, false)], GatherFault::Stranger(5)),
        (&[(0, true), (0, false)], GatherFault::Double(0)),
        (&[(0, false), (0, true)], GatherFault::NoMemory),
        (&[(2, false)], GatherFault::NoMemory),
        (&[(2, true)], GatherFault::Missing(0)),
    ];
    for (row, wanted) in rows {
        let mut results = Vec::new(rt.alloc());
        for (number, has_text) in row {
            results.push(result(rt.alloc(), *number, *has_text))?;
        }
        check_refused(&rt, 3, results, wanted)?;
    }
    Ok(())
}
