//! Runs a machine without writing its trace, and prints how many cycles it made, and a digest of
//! the cells.
//!
//! The arguments are the file of a program's text, the number of stages, the number of cycles, and
//! which sizes the parts have: `default`, `narrow` or `deep`.

use crate::cells::{digest, of_machine};
use crate::setup::{Setup, Sizes};
use anyhow::bail;
use std::alloc::Global;
use std::rt::Files;
use ultra_machine::Machine;
use ultra_msg::Word;

/// Makes `cycles` cycles, or as many as the machine can make.
pub(crate) fn make_cycles(machine: &mut Machine, cycles: u32) {
    for _ in 0..cycles {
        if machine.done() == u32::MAX {
            break;
        }
        machine.cycle();
    }
}

/// Makes the cycles of a run, and gives how many these were and the digest of the cells.
fn run(alloc: Global, setup: &Setup) -> anyhow::Result<(u32, Word)> {
    let mut machine = Machine::new(alloc, &setup.config, &setup.program)?;
    make_cycles(&mut machine, setup.cycles);
    let cells = of_machine(alloc, &machine)?;
    Ok((machine.done(), digest(cells.as_slice())))
}

/// Makes the cycles that the arguments ask for.
pub(crate) fn measure(
    rt: &(impl AllocGlobal + Files + Print),
    words: &[String],
) -> anyhow::Result<()> {
    let [path, stages, cycles, sizes] = words else {
        bail!("four words are wanted: a file, stages, cycles, and default, narrow or deep");
    };
    let setup = Setup::read(rt, path, stages, cycles, Sizes::named(sizes.as_str())?)?;
    let (cycles, digest) = run(rt.alloc(), &setup)?;
    println!(rt; "cycles {cycles} digest {digest}")?;
    Ok(())
}
