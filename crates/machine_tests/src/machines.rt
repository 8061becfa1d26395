//! The worked run of two stages, in which four requests for cell 0 become one.

use crate::equal::check_equal;
use crate::support::{
    add_number, answer, answered_event, combined_event, defaults, issued_event, record_of_pair,
    served_event,
};
use std::alloc::Global;
use std::process::Abort;
use std::test::Fail;
use ultra_isa::Program;
use ultra_machine::{Config, Machine, RawSettings};
use ultra_msg::{Event, Op, Pe, Request, Word};
use ultra_switch::{QueueEntry, ToMm, WaitRecord};

/// The machine before its first cycle.
pub(crate) fn machine(
    alloc: Global,
    raw: &RawSettings,
    program: &Program,
) -> Result<Machine, Fail> {
    let config = Config::new(alloc, raw)?;
    Ok(Machine::new(alloc, &config, program)?)
}

/// Makes n cycles.
pub(crate) fn run(rt: &impl Abort, machine: &mut Machine, cycles: u32) {
    for _ in 0..cycles {
        assert!(rt; machine.done() < 1000);
        machine.cycle();
    }
}

/// Makes n cycles. In the last of them just this happens.
pub(crate) fn run_to(rt: &impl Abort, machine: &mut Machine, cycles: u32, wanted: &[Event]) {
    run(rt, machine, cycles);
    check_equal(rt, machine.events(), wanted);
}

/// The queue toward memory at a position of a stage.
fn lane<'m>(rt: &impl Abort, machine: &'m Machine, stage: u32, position: u32) -> &'m ToMm {
    assert!(rt; stage < machine.config().stages());
    assert!(rt; position < machine.config().net().size());
    machine.lane(stage, position)
}

/// What is in a queue toward memory: requests of processing elements for a cell, and whether each
/// has combined there.
pub(crate) fn queue_is(rt: &impl Abort, lane: &ToMm, wanted: &[(Pe, u32, Op, bool)]) {
    check_equal(rt, lane.len(), wanted.len());
    for (index, &(pe, cell, op, combined)) in wanted.iter().enumerate() {
        assert!(rt; index < lane.len());
        let request = Request { pe, cell, op };
        check_equal(rt, lane.entry(index), QueueEntry { request, combined });
    }
}

/// The only record in the wait buffer of a queue toward memory.
pub(crate) fn record_is(rt: &impl Abort, lane: &ToMm, wanted: WaitRecord) {
    assert!(rt; lane.record_count() == 1);
    check_equal(rt, lane.record(0), wanted);
}

/// The only reply in the queue toward the processing elements at a position of a stage: its
/// processing element and its value.
fn reply_is(rt: &impl Abort, machine: &Machine, stage: u32, position: u32, wanted: (Pe, Word)) {
    assert!(rt; stage < machine.config().stages());
    assert!(rt; position < machine.config().net().size());
    let queue = machine.reply_queue(stage, position);
    assert!(rt; queue.len() == 1);
    check_equal(rt, queue.reply(0), answer(wanted.0, wanted.1));
}

/// The value of cell 0 at the end.
pub(crate) fn ends_with(rt: &impl Abort, machine: &Machine, word: Word) {
    assert!(rt; machine.is_quiet());
    assert!(rt; machine.config().net().size() > 0);
    check_equal(rt, machine.memory_module(0).peek(0), Some(word));
}

#[test]
fn two_level_tree(rt: HostRuntime) -> Result<(), Fail> {
    let program = add_number(rt.alloc())?;
    let mut machine = machine(rt.alloc(), &defaults(rt.alloc(), 2), &program)?;
    four_become_one(&rt, &mut machine);
    one_becomes_four(&rt, &mut machine);
    ends_with(&rt, &machine, 10);
    Ok(())
}

pub(crate) fn four_become_one(rt: &impl Abort, machine: &mut Machine) {
    let requests = [
        issued_event(0, 1),
        issued_event(1, 2),
        issued_event(2, 3),
        issued_event(3, 4),
    ];
    run_to(rt, machine, 3, &requests);
    run_to(
        rt,
        machine,
        1,
        &[combined_event(0, 0, 2, 0), combined_event(0, 2, 3, 1)],
    );
    run_to(rt, machine, 1, &[combined_event(1, 0, 2, 3)]);
    queue_is(rt, lane(rt, machine, 1, 0), &[(2, 0, Op::Faa(10), true)]);
    record_is(rt, lane(rt, machine, 0, 0), record_of_pair(2, 0, 3));
    record_is(rt, lane(rt, machine, 0, 2), record_of_pair(3, 1, 4));
    record_is(rt, lane(rt, machine, 1, 0), record_of_pair(2, 3, 4));
}

pub(crate) fn one_becomes_four(rt: &impl Abort, machine: &mut Machine) {
    run_to(rt, machine, 2, &[served_event(2, 10, 0, 10)]);
    run(rt, machine, 1);
    reply_is(rt, machine, 1, 0, (2, 0));
    reply_is(rt, machine, 1, 1, (3, 4));
    run(rt, machine, 1);
    reply_is(rt, machine, 0, 0, (0, 3));
    reply_is(rt, machine, 0, 1, (2, 0));
    reply_is(rt, machine, 0, 2, (1, 8));
    reply_is(rt, machine, 0, 3, (3, 4));
    run_to(
        rt,
        machine,
        1,
        &[
            answered_event(0, 3),
            answered_event(1, 8),
            answered_event(2, 0),
            answered_event(3, 4),
        ],
    );
}
