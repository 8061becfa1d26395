//! Has workers make cycles of a machine, and prints how many cycles it made and a digest of its
//! cells, which is the same for every number of workers.
//!
//! The arguments are the file of a program's text, the number of stages, the number of cycles, the
//! number of workers, and `kept` or `anew`. With `kept` the workers' threads are started once, with
//! `anew` they are started for each cycle. All parts of the machine have the default sizes.

ghost use Rattle.std.specs.Prelude.{◌≤◌, IfOk};

use crate::cells::{digest, of_blocks};
use crate::setup::{Setup, Sizes};
use anyhow::bail;
use std::alloc::Global;
use std::rt::Files;
use std::sync::Wait;
use std::thread::Threads;
use ultra_block::unit_count;
use ultra_crew::{Blocks, Crew, CrewFault, Gate, Half, MOST_WORKERS};
use ultra_msg::Word;

/// A gate that holds nobody up.
struct Open;

impl Gate for Open {
    fn before<R: Wait>(&self, _rt: &R, _cycle: u32, _half: Half, _block: usize) {}
}

/// The machine before its first cycle, with unit `u` in block `u` modulo the number of workers.
fn machine_in_blocks(alloc: Global, setup: &Setup, workers: u8) -> anyhow::Result<Blocks>
    requires { 1 ≤ workers }
{
    let mut partition = Vec::new(alloc);
    for unit in 0..unit_count(&setup.config) {
        partition.push((unit % usize::from(workers)) as u8)?;
    }
    let partition = partition.as_slice();
    Ok(Blocks::new(alloc, &setup.config, &setup.program, partition)?)
}

/// Makes `count` cycles, or as many as the machine can make, and starts the threads anew for each.
fn make_anew<R: Threads + Wait + Sync>(
    rt: &R,
    alloc: Global,
    mut blocks: Blocks,
    workers: usize,
    count: u32,
) -> Result<Blocks, CrewFault>
    requires some_worker { 1 ≤ workers }
    requires most_workers { workers ≤ 64 }
{
    for _ in 0..count {
        if blocks.done() == u32::MAX {
            break;
        }
        blocks = Crew::cycle(rt, alloc, blocks, workers, &Open)?;
    }
    Ok(blocks)
}

/// Makes `count` cycles, or as many as the machine can make, with threads that are kept over all of
/// them, or are started anew for each.
fn make_cycles<R: Threads + Wait + Sync>(
    rt: &R,
    alloc: Global,
    blocks: Blocks,
    workers: usize,
    count: u32,
    kept: bool,
) -> Result<Blocks, CrewFault>
    requires some_worker { 1 ≤ workers }
    requires most_workers { workers ≤ 64 }
{
    if kept {
        let left = u32::MAX - blocks.done();
        return Crew::cycles(rt, alloc, blocks, workers, &Open, count.min(left));
    }
    make_anew(rt, alloc, blocks, workers, count)
}

/// The number of workers that a word asks for.
fn worker_count(word: &str) -> anyhow::Result<u8>
    ensures { IfOk result (λ n. (1 ≤ n) × (n ≤ 64)) }
{
    let Ok(workers) = word.parse::<u8>() else {
        bail!("the workers are a number");
    };
    if workers == 0 || usize::from(workers) > MOST_WORKERS {
        bail!("there are 1 to 64 workers");
    }
    Ok(workers)
}

/// Whether a word asks for threads that are kept.
fn keeps_threads(word: &str) -> anyhow::Result<bool> {
    match word {
        "kept" => Ok(true),
        "anew" => Ok(false),
        _ => bail!("threads are kept, or started anew"),
    }
}

/// Makes the cycles of a run, and gives how many these were and the digest of the cells.
fn run<R: AllocGlobal + Threads + Wait + Sync>(
    rt: &R,
    setup: &Setup,
    workers: u8,
    kept: bool,
) -> anyhow::Result<(u32, Word)>
    requires some_worker { 1 ≤ workers }
    requires most_workers { workers ≤ 64 }
{
    let (alloc, several) = (rt.alloc(), usize::from(workers));
    let blocks = machine_in_blocks(alloc, setup, workers)?;
    let blocks = make_cycles(rt, alloc, blocks, several, setup.cycles, kept)?;
    let cells = of_blocks(alloc, &blocks)?;
    Ok((blocks.done(), digest(cells.as_slice())))
}

/// Makes the cycles that the arguments ask for.
pub(crate) fn measure<R: AllocGlobal + Files + Print + Threads + Wait + Sync>(
    rt: &R,
    words: &[String],
) -> anyhow::Result<()> {
    let [path, stages, cycles, workers, threads] = words else {
        bail!("five words are wanted: a file, stages, cycles, workers, and kept or anew");
    };
    let (workers, kept) = (
        worker_count(workers.as_str())?,
        keeps_threads(threads.as_str())?,
    );
    let setup = Setup::read(rt, path, stages, cycles, Sizes::DEFAULT)?;
    let (cycles, digest) = run(rt, &setup, workers, kept)?;
    println!(rt; "cycles {cycles} digest {digest}")?;
    Ok(())
}
