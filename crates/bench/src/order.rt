//! Makes the serial order and the log of a run, and checks the order against the log. It prints how
//! many entries the order has, how many issues and answers the log has, and `Ok` or what is wrong.
//!
//! The arguments are the file of a program's text, the number of stages, the number of cycles, at
//! most 1,000,000, and how far to go. `order` makes the order alone, `log` the log too, and `check`
//! also checks them. All parts of the machine have the default sizes.

ghost use Rattle.std.specs.Prelude.{◌≤◌};

use crate::cells::of_machine;
use crate::cycles::make_cycles;
use crate::setup::{Setup, Sizes};
use anyhow::bail;
use std::rt::Files;
use ultra_machine::Machine;
use ultra_msg::{Cell, Word};
use ultra_serial::{CheckFault, Log, SerialList, check, log, order};

/// The most cycles of a run.
const MOST_CYCLES: u32 = 1_000_000;

/// All cells at the end of the run.
fn last_cells(rt: &impl AllocGlobal, setup: &Setup) -> anyhow::Result<Vec<(Cell, Word)>> {
    let mut machine = Machine::new(rt.alloc(), &setup.config, &setup.program)?;
    make_cycles(&mut machine, setup.cycles);
    Ok(of_machine(rt.alloc(), &machine)?)
}

/// Checks an order against a log and the cells of the run's end, and prints what comes of it.
fn check_all(
    rt: &(impl AllocGlobal + Print),
    setup: &Setup,
    log: &Log,
    list: &SerialList,
) -> anyhow::Result<()> {
    let cells = last_cells(rt, setup)?;
    let initial = setup.config.initial();
    match check(rt.alloc(), initial, log, cells.as_slice(), list.as_slice()) {
        Ok(()) => println!(rt; "Ok")?,
        Err(CheckFault::NoMemory) => bail!("memory was refused"),
        Err(CheckFault::Breach(kind, index)) => println!(rt; "{kind:?} {index}")?,
    }
    Ok(())
}

/// The serial order of a run. It prints how many entries it has.
fn order_of(rt: &(impl AllocGlobal + Print), setup: &Setup) -> anyhow::Result<SerialList>
    requires { setup.now.cycles ≤ MOST_CYCLES }
{
    let Ok(list) = order(rt.alloc(), &setup.config, &setup.program, setup.cycles) else {
        bail!("memory was refused");
    };
    println!(rt; "entries {}", list.len())?;
    Ok(list)
}

/// The log of a run. It prints how many issues and answers it has.
fn log_of(rt: &(impl AllocGlobal + Print), setup: &Setup) -> anyhow::Result<Log>
    requires { setup.now.cycles ≤ MOST_CYCLES }
{
    let Ok(log) = log(rt.alloc(), &setup.config, &setup.program, setup.cycles) else {
        bail!("memory was refused");
    };
    println!(rt; "issues {} answers {}", log.issues.len(), log.answers.len())?;
    Ok(log)
}

/// Makes the order of a run, then its log, and checks the order, as far as the goal says.
fn make_up_to(rt: &(impl AllocGlobal + Print), setup: &Setup, goal: &str) -> anyhow::Result<()>
    requires { setup.now.cycles ≤ MOST_CYCLES }
{
    let list = order_of(rt, setup)?;
    if goal == "order" {
        return Ok(());
    }
    let log = log_of(rt, setup)?;
    if goal == "check" {
        check_all(rt, setup, &log, &list)?;
    }
    Ok(())
}

/// Goes as far as the arguments ask for.
pub(crate) fn measure(
    rt: &(impl AllocGlobal + Files + Print),
    words: &[String],
) -> anyhow::Result<()> {
    let [path, stages, cycles, goal] = words else {
        bail!("four words are wanted: a file, stages, cycles, and order, log or check");
    };
    let setup = Setup::read(rt, path, stages, cycles, Sizes::DEFAULT)?;
    if setup.cycles > MOST_CYCLES {
        bail!("at most 1,000,000 cycles can be made");
    }
    make_up_to(rt, &setup, goal.as_str())
}
