//! Runs with their traces, by one worker and by several.

ghost use Rattle.std.specs.Prelude.{◌<◌};

use crate::equal::{check_equal, check_equal_for};
use crate::support::{
    COMBINED_PAIR, Counter, Holdup, Meeting, TWO_LEVEL_TREE, add_number, add_one, config,
};
use std::process::Abort;
use std::sync::Wait;
use std::sync::atomic::Ordering;
use std::test::Fail;
use std::thread::Threads;
use test_sinks::{MemorySink, SinkLimits};
use ultra_crew::Gate;
use ultra_isa::Program;
use ultra_machine::Config;
use ultra_trace::{RunFault, run, run_alone};

/// A run by n workers into a sink.
fn run_by<R: Threads + Wait + Sync + Abort + AllocGlobal, G: Gate + Sync>(
    rt: &R,
    config: &Config,
    program: &Program,
    workers: usize,
    gate: &G,
    out: &mut MemorySink,
) -> Result<(), RunFault> {
    assert!(rt; 1 <= workers);
    assert!(rt; workers <= 64);
    run(rt, rt.alloc(), config, program, workers, gate, out)
}

/// Asserts that a run by n workers writes this trace.
fn check_run<R: Threads + Wait + Sync + Abort + AllocGlobal, G: Gate + Sync>(
    rt: &R,
    config: &Config,
    program: &Program,
    workers: usize,
    gate: &G,
    wanted: &str,
) -> Result<(), Fail> {
    let mut out = MemorySink::new(rt.alloc())?;
    run_by(rt, config, program, workers, gate, &mut out)?;
    check_equal_for(rt, out.text()?, wanted, format_args!("by {workers}"));
    Ok(())
}

/// Each of three workers is the one that is late at every half.
#[test]
fn one_worker_late(rt: HostRuntime) -> Result<(), Fail> {
    let config = config(rt.alloc(), 2)?;
    let program = add_number(rt.alloc())?;
    for block in 0..3 {
        check_run(&rt, &config, &program, 3, &Holdup { block }, TWO_LEVEL_TREE)?;
    }
    Ok(())
}

/// Runs by these numbers of workers write this trace. Gives how often they called the gate.
fn check_runs<R: Threads + Wait + Sync + Abort + AllocGlobal>(
    rt: &R,
    config: &Config,
    program: &Program,
    crews: &[usize],
    wanted: &str,
) -> Result<u64, Fail> {
    let gate = Counter::new();
    for workers in crews {
        check_run(rt, config, program, *workers, &gate, wanted)?;
    }
    Ok(gate.calls.load(Ordering::SeqCst))
}

#[test]
fn any_workers(rt: HostRuntime) -> Result<(), Fail> {
    let config = config(rt.alloc(), 2)?;
    let program = add_number(rt.alloc())?;
    let calls = check_runs(&rt, &config, &program, &[1, 2, 3, 64], TWO_LEVEL_TREE)?;
    // 2, 3 and 12 blocks, as many as units at most, 6 halves and 10 cycles
    check_equal(&rt, calls, (2 + 3 + 12) * 6 * 10);
    Ok(())
}

/// The largest machine: by several workers it has the trace of a run by one.
#[test]
fn any_workers_of_the_largest_machine(rt: HostRuntime) -> Result<(), Fail> {
    let config = config(rt.alloc(), 6)?;
    let program = add_one(rt.alloc())?;
    let mut alone = MemorySink::new(rt.alloc())?;
    run_alone(rt.alloc(), &config, &program, &mut alone)?;
    let trace = alone.text()?;
    assert!(rt; trace.contains(" faa 64 = 0 now 64\n"), "{trace}");
    let _ = check_runs(&rt, &config, &program, &[1, 2, 63, 64], trace)?;
    Ok(())
}

/// Two workers: in every half each waits for the other at the gate. A run that makes all blocks in
/// one thread keeps the contracts too, but fails this test. The turns run out, or, where it calls
/// no gate, no flag is raised.
#[test]
fn gate_meets(rt: HostRuntime) -> Result<(), Fail> {
    let config = config(rt.alloc(), 1)?;
    let program = add_one(rt.alloc())?;
    let meeting = Meeting::new();
    check_run(&rt, &config, &program, 2, &meeting, COMBINED_PAIR)?;
    check_equal(&rt, meeting.halves_met(), Some(8 * 6));
    Ok(())
}

/// A failing sink took this many bytes of the trace, and after the fault nothing was offered.
fn ends_in_a_fault<R: Abort>(rt: &R, out: &MemorySink, taken: usize) -> Result<(), Fail> {
    assert!(rt; COMBINED_PAIR.starts_with(out.text()?), "after {taken}");
    check_equal(rt, out.bytes.len(), taken);
    check_equal(rt, out.failures, 1);
    Ok(())
}

/// A run by n workers writes into a sink that takes `most` bytes a write and fails after `count`
/// writes. Asserts that it answers `Write`, has written the first `most * count` bytes of the
/// trace, and offers nothing after the fault.
fn check_failing_sink<R: Threads + Wait + Sync + Abort + AllocGlobal>(
    rt: &R,
    config: &Config,
    program: &Program,
    workers: usize,
    most: usize,
    count: usize,
) -> Result<(), Fail>
    requires some_bytes { 0 < most }
{
    let limits = SinkLimits::taking_at_most(most).failing_after(count);
    let mut out = MemorySink::with_limits(rt.alloc(), limits)?;
    match run_by(rt, config, program, workers, &Counter::new(), &mut out) {
        Err(RunFault::Write) => ends_in_a_fault(rt, &out, most.saturating_mul(count)),
        Err(fault) => Err(Fail::from(fault)),
        Ok(()) => Err(Fail::from("no write failed")),
    }
}

/// Asserts how runs end whose sink takes a byte a write and fails after n writes; of two workers,
/// which are slower, at every thirtieth number.
fn check_write<R: Threads + Wait + Sync + Abort + AllocGlobal>(
    rt: &R,
    config: &Config,
    program: &Program,
    count: usize,
) -> Result<(), Fail> {
    check_failing_sink(rt, config, program, 1, 1, count)?;
    if count % 30 == 0 {
        check_failing_sink(rt, config, program, 2, 1, count)?;
    }
    Ok(())
}

/// A sink that fails at each of its writes in turn.
#[test]
fn sink_fails_at_each_write(rt: HostRuntime) -> Result<(), Fail> {
    let config = config(rt.alloc(), 1)?;
    let program = add_one(rt.alloc())?;
    for count in 0..COMBINED_PAIR.len() {
        check_write(&rt, &config, &program, count)?;
    }
    Ok(())
}

/// A sink that takes four bytes a write, and fails at its third.
#[test]
fn short_failing_sink(rt: HostRuntime) -> Result<(), Fail> {
    let config = config(rt.alloc(), 1)?;
    let program = add_one(rt.alloc())?;
    check_failing_sink(&rt, &config, &program, 1, 4, 2)
}

/// The run of one stage by n workers, into a sink.
fn short_run<R: Threads + Wait + Sync + Abort + AllocGlobal>(
    rt: &R,
    workers: usize,
    out: &mut MemorySink,
) -> Result<(), Fail> {
    let config = config(rt.alloc(), 1)?;
    let program = add_one(rt.alloc())?;
    Ok(run_by(rt, &config, &program, workers, &Counter::new(), out)?)
}

/// A run by n workers, short enough to refuse each of its allocations in turn. It ends with a fault
/// then, and what was written is a prefix of the trace.
fn check_short_run<R: Threads + Wait + Sync + Abort + AllocGlobal>(
    rt: &R,
    workers: usize,
) -> Result<(), Fail> {
    let mut out = MemorySink::new(rt.alloc())?;
    let ended = short_run(rt, workers, &mut out);
    assert!(rt; COMBINED_PAIR.as_bytes().starts_with(out.bytes.as_slice()));
    ended?;
    check_equal(rt, out.text()?, COMBINED_PAIR);
    Ok(())
}

#[test]
fn short_run_by_one(rt: HostRuntime) -> Result<(), Fail> {
    check_short_run(&rt, 1)
}

#[test]
fn short_run_by_three(rt: HostRuntime) -> Result<(), Fail> {
    check_short_run(&rt, 3)
}
