//! The order and the log of a worked run.

use crate::equal::{check_equal, check_equal_for};
use crate::support::{add_one, config};
use std::process::Abort;
use std::test::Fail;
use ultra_isa::Program;
use ultra_msg::{Op, Pe, Reply, Word};
use ultra_serial::{Entry, Log, LoggedAnswer, LoggedIssue, check, log, order};

/// The first request of a processing element, for cell 0.
fn done(pe: Pe, op: Op, reply: Reply) -> Entry {
    Entry {
        pe,
        number: 0,
        cell: 0,
        op,
        reply,
    }
}

/// The two additions of 1: that of processing element 1, then that of processing element 0.
fn in_order() -> [Entry; 2] {
    [
        done(1, Op::Faa(1), Reply::Value(0)),
        done(0, Op::Faa(1), Reply::Value(1)),
    ]
}

/// An addition of 1 to cell 0 was issued in cycle 2.
fn issue(pe: Pe) -> LoggedIssue {
    LoggedIssue {
        pe,
        number: 0,
        cell: 0,
        op: Op::Faa(1),
        cycle: 2,
    }
}

/// It was answered in cycle 7.
fn answer(pe: Pe, word: Word) -> LoggedAnswer {
    LoggedAnswer {
        pe,
        number: 0,
        reply: Reply::Value(word),
        cycle: 7,
    }
}

/// Asserts the order of a run on a machine of one stage.
fn check_order(
    rt: &(impl Abort + AllocGlobal),
    program: &Program,
    cycles: u32,
    expected: &[Entry],
) -> Result<(), Fail> {
    assert!(rt; cycles <= 1000);
    let config = config(rt.alloc(), 1)?;
    let list = order(rt.alloc(), &config, program, cycles)?;
    check_equal_for(
        rt,
        list.as_slice(),
        expected,
        format_args!("after {cycles}"),
    );
    Ok(())
}

#[test]
fn combined_pair(rt: HostRuntime) -> Result<(), Fail> {
    let program = add_one(rt.alloc())?;
    check_order(&rt, &program, 8, &in_order())?;
    check_order(&rt, &program, 100, &in_order())
}

#[test]
fn nothing_served_yet(rt: HostRuntime) -> Result<(), Fail> {
    let program = add_one(rt.alloc())?;
    check_order(&rt, &program, 4, &[])?;
    check_order(&rt, &program, 0, &[])
}

/// Asserts what a log has.
fn log_has(rt: &impl Abort, log: &Log, issues: &[LoggedIssue], answers: &[LoggedAnswer]) {
    check_equal(rt, log.issues.as_slice(), issues);
    check_equal(rt, log.answers.as_slice(), answers);
}

#[test]
fn log_of_a_pair(rt: HostRuntime) -> Result<(), Fail> {
    let config = config(rt.alloc(), 1)?;
    let found = log(rt.alloc(), &config, &add_one(rt.alloc())?, 8)?;
    log_has(
        &rt,
        &found,
        &[issue(0), issue(1)],
        &[answer(0, 1), answer(1, 0)],
    );
    check(rt.alloc(), &[], &found, &[(0, 2)], &in_order())?;
    Ok(())
}
