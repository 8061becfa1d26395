//! A machine with a paracomputer beside it, whose schedule is read off the machine's events.

use crate::equal::check_equal_for;
use crate::making::register;
use crate::random::{Random, random_program, random_settings};
use crate::runs::is_schedule;
use std::alloc::Global;
use std::process::Abort;
use std::test::Fail;
use ultra_isa::{Processor, Program};
use ultra_machine::Machine;
use ultra_model::Config;
use ultra_msg::{Cell, Event, Pe, Request};
use ultra_para::{Para, is_careful, paracomputer_law};

/// The processing elements whose requests for a cell have combined into one, in serial order.
#[derive(Drop)]
struct Tree {
    pe: Pe,
    cell: Cell,
    leaves: Vec<Pe>,
}

/// The leaves of the tree of a request; the tree is taken away.
fn leaves(trees: &mut Vec<Tree>, pe: Pe, cell: Cell) -> Result<Vec<Pe>, Fail> {
    match trees
        .iter()
        .position(|tree| tree.pe == pe && tree.cell == cell)
    {
        Some(place) => Ok(trees.swap_remove(place).leaves),
        None => Err(Fail::from("no tree")),
    }
}

/// The leaves of two trees, those of `first` before those of `then`; the trees are taken away.
fn leaves_of_both(trees: &mut Vec<Tree>, first: Pe, then: Pe, cell: Cell) -> Result<Vec<Pe>, Fail> {
    let mut leaves_of_first = leaves(trees, first, cell)?;
    let leaves_of_then = leaves(trees, then, cell)?;
    leaves_of_first.extend_from_slice(leaves_of_then.as_slice())?;
    Ok(leaves_of_first)
}

/// Puts the processing elements whose requests have acted into the schedule, in serial order.
fn note(
    alloc: Global,
    event: Event,
    trees: &mut Vec<Tree>,
    schedule: &mut Vec<Pe>,
) -> Result<(), Fail> {
    match event {
        Event::Issued { request, .. } => {
            let Request { pe, cell, .. } = request;
            let leaves = vec![in alloc; pe]?;
            trees.push(Tree { pe, cell, leaves })?;
        }
        Event::Combined {
            cell,
            old,
            new,
            old_first,
            ..
        } => {
            let (first, then) = if old_first { (old, new) } else { (new, old) };
            let leaves = leaves_of_both(trees, first, then, cell)?;
            let pe = old;
            trees.push(Tree { pe, cell, leaves })?;
        }
        Event::Served { request, .. } => {
            let served = leaves(trees, request.pe, request.cell)?;
            schedule.extend_from_slice(served.as_slice())?;
        }
        Event::Delivered(_) => {}
    }
    Ok(())
}

/// Puts the processing elements that have no cell open into the schedule, by number.
fn note_free(machine: &Machine, schedule: &mut Vec<Pe>) -> Result<(), Fail> {
    for pe in 0..machine.config().net().size() {
        if machine.element(pe).interface.open_count() == 0 {
            schedule.push(pe)?;
        }
    }
    Ok(())
}

/// Makes a cycle of the machine, and puts its processing elements into the schedule. First come
/// those whose requests acted, in serial order, then those that have no cell open, by number.
fn make_cycle(
    rt: &impl Abort,
    alloc: Global,
    machine: &mut Machine,
    trees: &mut Vec<Tree>,
    schedule: &mut Vec<Pe>,
) -> Result<(), Fail> {
    assert!(rt; machine.done() < 1000);
    machine.cycle();
    for event in machine.events() {
        note(alloc, *event, trees, schedule)?;
    }
    note_free(machine, schedule)
}

/// Makes cycles of the machine, and gives the schedule of the paracomputer that goes with them.
fn run(
    rt: &impl Abort,
    alloc: Global,
    machine: &mut Machine,
    cycles: u32,
) -> Result<Vec<Pe>, Fail> {
    let mut trees = Vec::new(alloc);
    let mut schedule = Vec::new(alloc);
    for _ in 0..cycles {
        make_cycle(rt, alloc, machine, &mut trees, &mut schedule)?;
    }
    Ok(schedule)
}

/// The paracomputer has the value of the machine's cell.
fn cell_looks_like(rt: &impl Abort, machine: &Machine, para: &Para, cell: Cell) {
    let size = machine.config().net().size();
    assert!(rt; size > 0);
    let word = machine.memory_module(cell % size).peek(cell / size);
    check_equal_for(rt, para.peek(cell), word, format_args!("in cell {cell}"));
}

/// The paracomputer has the registers of a processing element.
fn registers_look_like(rt: &impl Abort, processor: &Processor, para: &Para, pe: Pe) {
    for number in 0..16 {
        let word = processor.register(register(number));
        check_equal_for(
            rt,
            para.register(pe, number),
            Some(word),
            format_args!("r{number} of {pe}"),
        );
    }
}

/// The paracomputer has the place and the state of a processing element.
fn place_looks_like(rt: &impl Abort, processor: &Processor, para: &Para, pe: Pe) {
    let found = para.processors().get(pe as usize);
    let found = found.expect(rt, "no processing element");
    check_equal_for(
        rt,
        found.pc(),
        processor.pc(),
        format_args!("place of {pe}"),
    );
    check_equal_for(
        rt,
        found.activity(),
        processor.activity(),
        format_args!("state of {pe}"),
    );
}

/// The paracomputer has the machine's cells, and of each processing element without an open cell
/// its registers, place and state.
fn looks_like(rt: &impl Abort, machine: &Machine, para: &Para) {
    for cell in 0..machine.config().all_cells() {
        cell_looks_like(rt, machine, para, cell);
    }
    for pe in 0..machine.config().net().size() {
        let element = machine.element(pe);
        if element.interface.open_count() == 0 {
            registers_look_like(rt, &element.processor, para, pe);
            place_looks_like(rt, &element.processor, para, pe);
        }
    }
}

/// The paracomputer after a schedule.
fn after(
    rt: &(impl Abort + AllocGlobal),
    config: &Config,
    program: &Program,
    schedule: &[Pe],
) -> Result<Para, Fail> {
    let mut para = Para::new(rt.alloc(), config, program)?;
    assert!(rt; is_schedule(schedule, config.net().size()));
    para.run(schedule);
    Ok(para)
}

/// Runs a random careful program on a machine and on the paracomputer beside it.
fn run_both(rt: &(impl Abort + AllocGlobal), random: &mut Random) -> Result<(), Fail> {
    let alloc = rt.alloc();
    let config = random_settings(random, alloc)?;
    let program = random_program(random, alloc)?;
    assert!(rt; is_careful(&program));
    let mut machine = Machine::new(alloc, &config, &program)?;
    let schedule = run(rt, alloc, &mut machine, 20 + random.below(100))?;
    let para = after(rt, &config, &program, schedule.as_slice())?;
    looks_like(rt, &machine, &para);
    Ok(())
}

#[test]
fn random_careful_programs(rt: HostRuntime) -> Result<(), Fail> {
    paracomputer_law();
    for seed in 0..300 {
        let mut random = Random::new(seed);
        run_both(&rt, &mut random)?;
    }
    Ok(())
}
