//! Sweeps by one thread and by two.

ghost use Rattle.std.specs.Prelude.{◌≡◌};

use crate::boards::split;
use crate::equal::{check_equal, check_equal_for};
use crate::gates::{Counter, Meeting};
use crate::jobs::{most_jobs, two_jobs};
use std::process::Abort;
use std::sync::Wait;
use std::sync::atomic::Ordering;
use std::test::Fail;
use std::thread::{self, Threads};
use test_sinks::{MemorySink, SinkLimits};
use ultra_board::Board;
use ultra_msg::write_all;
use ultra_sweep::{Job, JobGate, JobResult, WorkFault, gather, report, work};
use ultra_sweep_command::RunAlone;
use ultra_trace_alone::run_alone;

/// The report of a job that halts at once, and of one in which two processing elements add 1 each
/// to cell 0.
const REPORT: &str = "\
job 0
ultra trace 2
cycle 0
end quiet
pe 0 halted 0
pe 1 halted 0
job 1
ultra trace 2
cycle 0
cycle 1
cycle 2
pni 0: 0@0 faa 1
pni 1: 1@0 faa 1
cycle 3
req 0 0: 1@0 faa 2 *
wait 0 0: 1@0 same 0 plus 1
cycle 4
wait 0 0: 1@0 same 0 plus 1
inp 0: 1@0 faa 2
cycle 5
act 0 1@0 faa 2 = 0 now 2
wait 0 0: 1@0 same 0 plus 1
out 0: 1@0 = 0
cycle 6
rep 0 0: 0@0 = 1
rep 0 1: 1@0 = 0
cycle 7
got 0@0 = 1
got 1@0 = 0
end quiet
cell 0 2
pe 0 halted 3 r2=1 r3=1
pe 1 halted 3 r2=1
";

/// The results of all jobs, by the thread of the test.
pub(crate) fn sweep_alone<R: Wait + AllocGlobal>(
    rt: &R,
    jobs: &[Job],
) -> Result<Vec<JobResult>, Fail> {
    let alloc = rt.alloc();
    let (board, seat) = Board::open(alloc, jobs.len() as u64, 1, 1)?;
    let (_seat, results) = work(rt, alloc, &board, seat, jobs, &RunAlone);
    Ok(results?)
}

/// The results of all jobs, by two threads, `at_once` jobs at once.
fn sweep_by_two<R: Threads + Wait + Sync + Abort + AllocGlobal, G: JobGate + Sync>(
    rt: &R,
    jobs: &[Job],
    at_once: u64,
    gate: &G,
) -> Result<Vec<JobResult>, Fail> {
    let alloc = rt.alloc();
    let (board, seat) = Board::open(alloc, jobs.len() as u64, at_once, 2)?;
    let (first, second) = split(rt, &board, seat);
    let (first, second) = thread::join(
        rt,
        || work(rt, alloc, &board, first, jobs, gate),
        || work(rt, alloc, &board, second, jobs, gate),
    );
    together(first.1, second.1)
}

/// The results of the first thread, then those of the second.
fn together(
    first: Result<Vec<JobResult>, WorkFault>,
    second: Result<Vec<JobResult>, WorkFault>,
) -> Result<Vec<JobResult>, Fail> {
    let mut results = first?;
    results.append(&mut second?)?;
    Ok(results)
}

/// Asserts that the results of `count` jobs make this report.
fn check_report_of<R: Abort + AllocGlobal>(
    rt: &R,
    count: u64,
    results: Vec<JobResult>,
    wanted: &str,
) -> Result<(), Fail> {
    let gathered = gather(rt.alloc(), count, results)?;
    let mut out = MemorySink::with_limits(rt.alloc(), SinkLimits::taking_at_most(7))?;
    report(&gathered, &mut out)?;
    check_equal(rt, out.text()?, wanted);
    Ok(())
}

/// Asserts that the results of the two jobs make their report.
fn check_report<R: Abort + AllocGlobal>(rt: &R, results: Vec<JobResult>) -> Result<(), Fail> {
    check_report_of(rt, 2, results, REPORT)
}

#[test]
fn two_job_sweep(rt: HostRuntime) -> Result<(), Fail> {
    let jobs = two_jobs(rt.alloc())?;
    check_report(&rt, sweep_alone(&rt, jobs.as_slice())?)?;
    for at_once in [1, 2, 64] {
        check_report(&rt, sweep_by_two(&rt, jobs.as_slice(), at_once, &RunAlone)?)?;
    }
    Ok(())
}

/// Writes the number of a job and the trace of its run, by the thread of the test.
fn write_run<R: AllocGlobal>(
    rt: &R,
    number: usize,
    job: &Job,
    out: &mut MemorySink,
) -> Result<(), Fail> {
    let line = format!(in rt.alloc(); "job {number}\n")?;
    write_all(out, line.as_bytes())?;
    run_alone(rt.alloc(), &job.config, &job.program, out)?;
    Ok(())
}

/// The report of the runs of all jobs, in order and without a sweep.
fn report_of_runs<R: AllocGlobal>(rt: &R, jobs: &[Job]) -> Result<MemorySink, Fail> {
    let mut out = MemorySink::with_limits(rt.alloc(), SinkLimits::taking_at_most(7))?;
    for (number, job) in jobs.iter().enumerate() {
        write_run(rt, number, job, &mut out)?;
    }
    Ok(out)
}

/// As many jobs as a sweep may have, by two threads: the report is that of their runs in order.
#[test]
fn most_jobs_in_order(rt: HostRuntime) -> Result<(), Fail> {
    let jobs = most_jobs(rt.alloc())?;
    let runs = report_of_runs(&rt, jobs.as_slice())?;
    let wanted = runs.text()?;
    let last = "\nend quiet\npe 0 halted 1 r1=255\npe 1 halted 1 r1=255\n";
    check_equal(&rt, wanted.ends_with(last), true);
    for at_once in [1, 2] {
        let results = sweep_by_two(&rt, jobs.as_slice(), at_once, &RunAlone)?;
        check_report_of(&rt, jobs.len() as u64, results, wanted)?;
    }
    Ok(())
}

/// Two threads. Where two jobs may run at once, each waits in its run for the other's; where one
/// may, none ever runs beside another. A `work` that runs one job at a time fails this test, for
/// example one in which job n waits until n jobs are finished: the turns run out. They run out too
/// where a thread can't be started, since `join` then makes the calls sequentially. A `work` that
/// ignores the passes also fails: two runs are under way at once.
#[test]
fn jobs_meet(rt: HostRuntime) -> Result<(), Fail> {
    let jobs = two_jobs(rt.alloc())?;
    check_meeting(&rt, jobs.as_slice())?;
    let counter = Counter::new();
    check_report(&rt, sweep_by_two(&rt, jobs.as_slice(), 1, &counter)?)?;
    check_equal(&rt, counter.runs.load(Ordering::SeqCst), 2);
    check_equal(&rt, counter.beside.load(Ordering::SeqCst), 0);
    Ok(())
}

/// Asserts that each of two jobs waits in its run for the other's, where both may run at once.
fn check_meeting<R: Threads + Wait + Sync + Abort + AllocGlobal>(
    rt: &R,
    jobs: &[Job],
) -> Result<(), Fail> {
    let meeting = Meeting::new();
    check_report(rt, sweep_by_two(rt, jobs, 2, &meeting)?)?;
    check_equal(rt, meeting.flags[0].load(Ordering::SeqCst), 1);
    check_equal(rt, meeting.flags[1].load(Ordering::SeqCst), 1);
    if meeting.missed.load(Ordering::SeqCst) > 0 {
        return Err("NoThread, or one job at a time".into());
    }
    Ok(())
}

/// Asserts that one write of a sink failed, and that it had taken this many bytes of a text.
fn check_cut<R: Abort>(rt: &R, out: &MemorySink, text: &str, count: usize) -> Result<(), Fail> {
    check_equal_for(rt, out.failures, 1, format_args!("after {count}"));
    check_equal(rt, out.bytes.len(), count);
    assert!(rt; text.starts_with(out.text()?), "after {count}");
    Ok(())
}

/// The report into a sink that takes a byte a write. Where one of its writes fails, it has taken
/// the bytes before, and none after; where none fails, it has taken the whole report.
#[test]
fn report_into_a_failing_sink(rt: HostRuntime) -> Result<(), Fail> {
    let jobs = two_jobs(rt.alloc())?;
    let gathered = gather(rt.alloc(), 2, sweep_alone(&rt, jobs.as_slice())?)?;
    for count in [0, 1, 4, 5, 6, 7, 70, 71, 77, 200, 300, 466] {
        let limits = SinkLimits::failing_once_after(count);
        let mut out = MemorySink::with_limits(rt.alloc(), limits)?;
        assert!(rt; report(&gathered, &mut out).is_err(), "after {count}");
        check_cut(&rt, &out, REPORT, count)?;
    }
    let limits = SinkLimits::failing_once_after(REPORT.len());
    let mut out = MemorySink::with_limits(rt.alloc(), limits)?;
    report(&gathered, &mut out)?;
    check_equal(&rt, out.text()?, REPORT);
    Ok(())
}
