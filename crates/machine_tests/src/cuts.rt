//! Machines that are cut on their way: in the worked run of a tree of two levels, after five of its
//! ten cycles.

use crate::blocks::{run_blocks, tree_is_answered};
use crate::equal::check_equal;
use crate::machines::{ends_with, four_become_one, machine, one_becomes_four, run_to};
use crate::support::{add_number, combined_event, defaults};
use std::process::Abort;
use std::test::Fail;
use ultra_machine::{Blocks, Machine, PartitionFault};

/// The machine before its sixth cycle, with the four requests on their way as one.
fn on_its_way(rt: &(impl Abort + AllocGlobal)) -> Result<Machine, Fail> {
    let program = add_number(rt.alloc())?;
    let mut machine = machine(rt.alloc(), &defaults(rt.alloc(), 2), &program)?;
    four_become_one(rt, &mut machine);
    Ok(machine)
}

/// The machine that is given back, since this is no partition of it.
fn given_back(
    rt: &(impl Abort + AllocGlobal),
    machine: Machine,
    partition: &[u8],
) -> Result<Machine, Fail> {
    match machine.into_blocks(rt.alloc(), partition) {
        Ok(_) => Err(Fail::from("cut")),
        Err((machine, fault)) => {
            check_equal(rt, fault, PartitionFault::BadPartition);
            Ok(machine)
        }
    }
}

/// The machine goes on from where it was.
fn goes_on(rt: &impl Abort, machine: &mut Machine) {
    assert!(rt; machine.done() == 5);
    run_to(rt, machine, 0, &[combined_event(1, 0, 2, 3)]);
    one_becomes_four(rt, machine);
    ends_with(rt, machine, 10);
}

/// Its blocks make the cycles that it would have made.
fn go_on(rt: &impl Abort, blocks: &mut Blocks) {
    assert!(rt; blocks.done() == 5);
    run_blocks(rt, blocks, 5);
    tree_is_answered(rt, blocks);
}

/// When a partition has a unit too few, or names block 64, the machine goes on from where it was.
#[test]
fn bad_partitions(rt: HostRuntime) -> Result<(), Fail> {
    let machine = on_its_way(&rt)?;
    let machine = given_back(&rt, machine, &[0; 11])?;
    let above = [0, 0, 0, 0, 0, 0, 0, 0, 0, 0, 0, 64];
    let mut machine = given_back(&rt, machine, &above)?;
    goes_on(&rt, &mut machine);
    Ok(())
}

/// The blocks make the cycles that the machine would have made.
fn goes_on_in(rt: &(impl Abort + AllocGlobal), partition: &[u8]) -> Result<(), Fail> {
    match on_its_way(rt)?.into_blocks(rt.alloc(), partition) {
        Ok(mut blocks) => {
            go_on(rt, &mut blocks);
            Ok(())
        }
        Err((_, fault)) => Err(Fail::from(fault)),
    }
}

/// With each allocation refused in turn, the machine goes on in blocks, or is given back and goes
/// on from where it was.
#[test]
fn a_machine_is_cut_or_given_back(rt: HostRuntime) -> Result<(), Fail> {
    match on_its_way(&rt)?.into_blocks(rt.alloc(), &[0, 0, 1, 1, 2, 2, 2, 2, 3, 3, 3, 3]) {
        Ok(mut blocks) => go_on(&rt, &mut blocks),
        Err((mut machine, fault)) => {
            check_equal(&rt, fault, PartitionFault::NoMemory);
            goes_on(&rt, &mut machine);
        }
    }
    Ok(())
}

#[test]
fn empty_blocks(rt: HostRuntime) -> Result<(), Fail> {
    goes_on_in(&rt, &[0, 63, 63, 0, 0, 0, 63, 63, 0, 63, 0, 63])
}
