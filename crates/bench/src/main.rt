//! Measures a part of the simulator, for the scripts in `bench/`, which take the time. What is
//! printed is the same on every run.
//!
//! The first word of the command line says what is measured: `board`, `cycles`, `workers` or
//! `order`. The module of that name describes the other words.
#![tactic(auto)]

mod board;
mod cells;
mod cycles;
mod order;
mod setup;
mod workers;

use anyhow::bail;
use std::env;

fn main(rt: HostRuntime) -> anyhow::Result<()> {
    let words: Vec<String> = env::args(&rt)?.skip(1).collect(rt.alloc())?;
    let Some((measured, words)) = words.split_first() else {
        bail!("what is measured is missing: board, cycles, workers or order");
    };
    match measured.as_str() {
        "board" => board::measure(&rt, words),
        "cycles" => cycles::measure(&rt, words),
        "workers" => workers::measure(&rt, words),
        "order" => order::measure(&rt, words),
        _ => bail!("what is measured is board, cycles, workers or order"),
    }
}
