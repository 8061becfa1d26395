//! Runs of the coordination programs on the paracomputer.

ghost use Rattle.std.specs.Prelude.{◌<◌, ◌↔◌, All, IsTrue};

use crate::cases::{Case, GATE, OUT_OF_RANGE, QUEUE, READERS_WRITERS, SMALL, check_refused};
use crate::equal::check_equal_for;
use std::alloc::{AllocError, Global};
use std::process::Abort;
use std::test::Fail;
use ultra_isa::Program;
use ultra_model::{Config, RawSettings};
use ultra_msg::{Cell, Pe, Word};
use ultra_para::Para;

/// The default settings with one stage and these initial values.
pub(crate) fn config(alloc: Global, initial: &[(i64, i64)]) -> Result<Config, Fail> {
    let raw = RawSettings {
        stages: Some(1),
        request_places: Some(4),
        reply_places: Some(8),
        wait_places: Some(4),
        most_open: Some(2),
        cells: Some(16),
        cycles: Some(1000),
        initial: Some(Vec::from_slice(alloc, initial)?),
    };
    Ok(Config::new(alloc, &raw)?)
}

/// Asserts what these cells of a paracomputer hold.
pub(crate) fn check_cells(rt: &impl Abort, para: &Para, wanted: &[(Cell, Word)]) {
    for &(cell, word) in wanted {
        check_equal_for(
            rt,
            para.peek(cell),
            Some(word),
            format_args!("in cell {cell}"),
        );
    }
}

#[test]
fn cells_are_zero_before_the_first_step(rt: HostRuntime) -> Result<(), Fail> {
    let config = config(rt.alloc(), &[])?;
    for case in SMALL {
        let para = case.start(rt.alloc(), &config)?;
        check_cells(&rt, &para, &[(0, 0)]);
    }
    Ok(())
}

/// Whether each number of a schedule is a processing element's.
pub(crate) fn is_schedule(schedule: &[Pe], size: u32) -> bool
    ensures { IsTrue result ↔ All (λ p. p < size) schedule.now }
{
    schedule.iter().all(|&pe| pe < size)
}

/// The schedule in which each processing element in turn makes this many steps.
pub(crate) fn schedule(alloc: Global, turns: &[(Pe, usize)]) -> Result<Vec<Pe>, AllocError> {
    let mut schedule = Vec::new(alloc);
    for &(pe, steps) in turns {
        for _ in 0..steps {
            schedule.push(pe)?;
        }
    }
    Ok(schedule)
}

/// The paracomputer of a program after a schedule.
pub(crate) fn run_program<R: AllocGlobal + Abort>(
    rt: &R,
    program: &Program,
    turns: &[(Pe, usize)],
) -> Result<Para, Fail> {
    let config = config(rt.alloc(), &[])?;
    let schedule = schedule(rt.alloc(), turns)?;
    assert!(rt; is_schedule(schedule.as_slice(), config.net().size()));
    let mut para = Para::new(rt.alloc(), &config, program)?;
    para.run(schedule.as_slice());
    Ok(para)
}

/// A coordination program, a schedule, and what cells hold after it.
struct Run<'r> {
    case: Case,
    turns: &'r [(Pe, usize)],
    cells: &'r [(Cell, Word)],
}

const BARRIER: Case = Case::Barrier { rounds: 1 };

/// There are two processing elements. For a gate, and for readers and writers, cells 8 and 9 are
/// the flags. For a barrier, cells 8 and 9 are the rounds begun, and 10 and 11 those finished. The
/// results of a queue with two places are in the cells from 12 on.
const RUNS: [Run<'static>; 8] = [
    // One is inside the gate, and the other waits.
    Run {
        case: GATE,
        turns: &[(0, 15), (1, 40)],
        cells: &[(0, 1), (8, 1), (9, 0)],
    },
    // Once it has left, the other enters.
    Run {
        case: GATE,
        turns: &[(0, 15), (1, 40), (0, 5), (1, 11)],
        cells: &[(0, 1), (8, 0), (9, 1)],
    },
    // The writer is inside, and the reader waits.
    Run {
        case: READERS_WRITERS,
        turns: &[(0, 15), (1, 38)],
        cells: &[(0, 65536), (8, 2), (9, 0)],
    },
    // The reader is inside, and the writer waits.
    Run {
        case: READERS_WRITERS,
        turns: &[(1, 16), (0, 40)],
        cells: &[(0, 1), (8, 0), (9, 1)],
    },
    // Each has inserted an item and deleted it.
    Run {
        case: QUEUE,
        turns: &[(0, 72), (1, 72)],
        cells: &[(2, 2), (3, 2), (12, 1), (13, 2)],
    },
    // One has inserted its item, and the other deletes it.
    Run {
        case: QUEUE,
        turns: &[(0, 38), (1, 76)],
        cells: &[(2, 2), (3, 1), (12, 0), (13, 1)],
    },
    // One has begun its round, and waits for the other.
    Run {
        case: BARRIER,
        turns: &[(0, 40)],
        cells: &[(0, 1), (8, 1), (9, 0), (10, 0), (11, 0)],
    },
    // Both have passed the barrier.
    Run {
        case: BARRIER,
        turns: &[(0, 40), (1, 40), (0, 20)],
        cells: &[(0, 2), (8, 1), (9, 1), (10, 1), (11, 1)],
    },
];

/// Asserts what cells hold after a schedule.
fn check_run<R: AllocGlobal + Abort>(rt: &R, config: &Config, run: &Run) -> Result<(), Fail> {
    let schedule = schedule(rt.alloc(), run.turns)?;
    assert!(rt; is_schedule(schedule.as_slice(), config.net().size()));
    let para = run.case.run(rt.alloc(), config, schedule.as_slice())?;
    check_cells(rt, &para, run.cells);
    Ok(())
}

#[test]
fn runs_follow_their_schedules(rt: HostRuntime) -> Result<(), Fail> {
    let config = config(rt.alloc(), &[])?;
    for run in &RUNS {
        check_run(&rt, &config, run)?;
    }
    Ok(())
}

#[test]
fn initial_values_are_refused(rt: HostRuntime) -> Result<(), Fail> {
    let config = config(rt.alloc(), &[(1, 0)])?;
    for case in SMALL {
        check_refused(&rt, case.start(rt.alloc(), &config))?;
    }
    Ok(())
}

#[test]
fn runs_refuse_parameters_out_of_range(rt: HostRuntime) -> Result<(), Fail> {
    let config = config(rt.alloc(), &[])?;
    for case in OUT_OF_RANGE {
        check_refused(&rt, case.start(rt.alloc(), &config))?;
    }
    Ok(())
}
