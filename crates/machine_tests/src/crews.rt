//! Machines whose cycles are made by several workers.

use crate::blocks::tree_is_answered;
use crate::equal::check_equal;
use crate::meeting::MeetingOfThree;
use crate::support::{COMBINED_PAIR, Counter, Holdup, Meeting, add_number, add_one, config};
use std::alloc::Global;
use std::process::Abort;
use std::sync::Wait;
use std::sync::atomic::Ordering;
use std::test::Fail;
use std::thread::Threads;
use test_sinks::MemorySink;
use ultra_crew::{Crew, CrewFault, Gate};
use ultra_machine::Blocks;
use ultra_trace::run;

/// The machine in which each processing element adds its number and 1 to cell 0, before its first
/// cycle, in this partition.
fn additions(alloc: Global, stages: i64, partition: &[u8]) -> Result<Blocks, Fail> {
    let config = config(alloc, stages)?;
    let program = add_number(alloc)?;
    Ok(Blocks::new(alloc, &config, &program, partition)?)
}

/// Makes a cycle by these workers.
fn make_cycle<R: Threads + Wait + Sync + Abort, G: Gate + Sync>(
    rt: &R,
    alloc: Global,
    blocks: Blocks,
    workers: usize,
    gate: &G,
) -> Result<Blocks, CrewFault> {
    assert!(rt; 1 <= workers);
    assert!(rt; workers <= 64);
    assert!(rt; blocks.done() < 1000);
    Crew::cycle(rt, alloc, blocks, workers, gate)
}

/// Makes n cycles of the machine of one stage in this partition, each by these workers.
fn cycles_by<R: Threads + Wait + Sync + Abort + AllocGlobal, G: Gate + Sync>(
    rt: &R,
    partition: &[u8],
    workers: usize,
    gate: &G,
    count: u32,
) -> Result<(), Fail> {
    let mut blocks = additions(rt.alloc(), 1, partition)?;
    for _ in 0..count {
        blocks = make_cycle(rt, rt.alloc(), blocks, workers, gate)?;
    }
    Ok(())
}

/// The machine after n cycles, made by these workers, whose threads are kept.
fn by_kept<R: Threads + Wait + Sync + Abort, G: Gate + Sync>(
    rt: &R,
    alloc: Global,
    blocks: Blocks,
    workers: usize,
    gate: &G,
    count: u32,
) -> Result<Blocks, CrewFault> {
    assert!(rt; 1 <= workers);
    assert!(rt; workers <= 64);
    assert!(rt; blocks.done() == 0);
    Crew::cycles(rt, alloc, blocks, workers, gate, count)
}

/// Makes n cycles of the machine of one stage in this partition, by these workers, whose threads
/// are kept.
fn cycles_by_kept<R: Threads + Wait + Sync + Abort + AllocGlobal, G: Gate + Sync>(
    rt: &R,
    partition: &[u8],
    workers: usize,
    gate: &G,
    count: u32,
) -> Result<(), Fail> {
    let blocks = additions(rt.alloc(), 1, partition)?;
    let _ = by_kept(rt, rt.alloc(), blocks, workers, gate, count)?;
    Ok(())
}

/// The five units of one stage in two blocks with work.
const TWO_BLOCKS: &[u8] = &[0, 1, 0, 1, 0];

/// The five units of one stage in three blocks with work.
const THREE_BLOCKS: &[u8] = &[0, 1, 2, 0, 1];

/// Two blocks with work and two workers: in every half each worker waits for the other at the gate.
/// A crew that makes all blocks in one thread keeps the contracts too, but fails this test. The
/// turns run out, or, where it calls no gate, no flag is raised.
#[test]
fn gate_meets(rt: HostRuntime) -> Result<(), Fail> {
    let meeting = Meeting::new();
    cycles_by(&rt, TWO_BLOCKS, 2, &meeting, 8)?;
    check_equal(&rt, meeting.halves_met(), Some(8 * 6));
    Ok(())
}

/// The same by workers whose threads are kept over all cycles. With all blocks in one of these
/// threads it fails too: the turns run out.
#[test]
fn gate_meets_when_kept(rt: HostRuntime) -> Result<(), Fail> {
    let meeting = Meeting::new();
    cycles_by_kept(&rt, TWO_BLOCKS, 2, &meeting, 8)?;
    check_equal(&rt, meeting.halves_met(), Some(8 * 6));
    Ok(())
}

/// Three blocks with work and three workers: in every half each worker waits for the two others at
/// the gate. With two threads the turns run out, since one of them has two blocks.
#[test]
fn three_meet(rt: HostRuntime) -> Result<(), Fail> {
    let meeting = MeetingOfThree::new([true; 3]);
    cycles_by(&rt, THREE_BLOCKS, 3, &meeting, 8)?;
    check_equal(&rt, meeting.halves_met(), Some(8 * 6));
    Ok(())
}

#[test]
fn three_meet_when_kept(rt: HostRuntime) -> Result<(), Fail> {
    let meeting = MeetingOfThree::new([true; 3]);
    cycles_by_kept(&rt, THREE_BLOCKS, 3, &meeting, 8)?;
    check_equal(&rt, meeting.halves_met(), Some(8 * 6));
    Ok(())
}

/// Three blocks with work and two workers: in every half the worker of block 1 waits for the other,
/// which has blocks 0 and 2. If the gate's calls for blocks 0 and 1 are exchanged, the turns run
/// out, since the one that waits is then the worker of block 2.
#[test]
fn one_waits_for_two_blocks(rt: HostRuntime) -> Result<(), Fail> {
    let meeting = MeetingOfThree::new([false, true, false]);
    cycles_by(&rt, THREE_BLOCKS, 2, &meeting, 8)?;
    check_equal(&rt, meeting.halves_met(), Some(8 * 6));
    Ok(())
}

/// Writes the trace of a run by three workers.
fn run_by_three<R: Threads + Wait + Sync + AllocGlobal, G: Gate + Sync>(
    rt: &R,
    gate: &G,
    out: &mut MemorySink,
) -> Result<(), Fail> {
    let config = config(rt.alloc(), 1)?;
    let program = add_one(rt.alloc())?;
    run(rt, rt.alloc(), &config, &program, 3, gate, out)?;
    Ok(())
}

/// A run by three workers, whose units are dealt to three blocks.
#[test]
fn three_meet_in_a_run(rt: HostRuntime) -> Result<(), Fail> {
    let meeting = MeetingOfThree::new([true; 3]);
    let mut out = MemorySink::new(rt.alloc())?;
    run_by_three(&rt, &meeting, &mut out)?;
    check_equal(&rt, out.text()?, COMBINED_PAIR);
    check_equal(&rt, meeting.halves_met(), Some(8 * 6));
    Ok(())
}

/// Ten cycles by these workers: then each processing element has its answer.
fn tree_is_answered_by<R: Threads + Wait + Sync + Abort + AllocGlobal, G: Gate + Sync>(
    rt: &R,
    partition: &[u8],
    workers: usize,
    gate: &G,
) -> Result<(), Fail> {
    let mut blocks = additions(rt.alloc(), 2, partition)?;
    for _ in 0..10u32 {
        blocks = make_cycle(rt, rt.alloc(), blocks, workers, gate)?;
    }
    tree_is_answered(rt, &blocks);
    Ok(())
}

#[test]
fn any_workers(rt: HostRuntime) -> Result<(), Fail> {
    let gate = Counter::new();
    let switches_apart = [5, 5, 5, 5, 0, 0, 0, 0, 0, 0, 0, 0];
    for workers in [1, 2, 3, 64] {
        tree_is_answered_by(&rt, &switches_apart, workers, &gate)?;
    }
    // blocks 0 to 5, 6 halves and 10 cycles, by each crew of more than one
    check_equal(&rt, gate.calls.load(Ordering::SeqCst), 3 * 6 * 6 * 10);
    Ok(())
}

#[test]
fn one_worker_late(rt: HostRuntime) -> Result<(), Fail> {
    let gate = Holdup { block: 0 };
    tree_is_answered_by(&rt, &[0, 1, 2, 0, 1, 2, 0, 1, 2, 0, 1, 2], 3, &gate)
}

/// The same by workers whose threads are kept.
fn tree_is_answered_by_kept<R: Threads + Wait + Sync + Abort + AllocGlobal, G: Gate + Sync>(
    rt: &R,
    workers: usize,
    gate: &G,
) -> Result<(), Fail> {
    let blocks = additions(rt.alloc(), 2, &[0, 1, 2, 0, 1, 2, 0, 1, 2, 0, 1, 2])?;
    let blocks = by_kept(rt, rt.alloc(), blocks, workers, gate, 10)?;
    tree_is_answered(rt, &blocks);
    Ok(())
}

/// The worker of block 0 is late each time.
#[test]
fn kept_workers(rt: HostRuntime) -> Result<(), Fail> {
    let gate = Holdup { block: 0 };
    for workers in [1, 2, 3, 64] {
        tree_is_answered_by_kept(&rt, workers, &gate)?;
    }
    Ok(())
}

/// A single cycle, short enough to refuse each of its allocations in turn: the gate is called for
/// each block in each half.
#[test]
fn one_cycle_by_two(rt: HostRuntime) -> Result<(), Fail> {
    let gate = Counter::new();
    cycles_by(&rt, TWO_BLOCKS, 2, &gate, 1)?;
    check_equal(&rt, gate.calls.load(Ordering::SeqCst), 2 * 6);
    Ok(())
}

/// Two cycles by workers whose threads are kept.
#[test]
fn two_cycles_by_two(rt: HostRuntime) -> Result<(), Fail> {
    let gate = Counter::new();
    cycles_by_kept(&rt, TWO_BLOCKS, 2, &gate, 2)?;
    check_equal(&rt, gate.calls.load(Ordering::SeqCst), 2 * 2 * 6);
    Ok(())
}
