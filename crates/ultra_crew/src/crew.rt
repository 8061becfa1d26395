//! A cycle of the whole machine, made by host workers.

ghost use Rattle.std.specs.Prelude.{◌≡◌, ◌+◌, ◌-◌, ◌<◌, ◌≤◌, ◌^◌, IfOk, IsOk};
ghost use Rattle.ultra_model.specs.Phases.{cycle as next_cycle};
ghost use Rattle.ultra_crew.specs.{Tasks.busy_workers, ExpectedResults.{AreExpectedResults, cycles_on}};

use crate::expected_results::ExpectedResults;
use crate::fault::CrewFault;
use crate::gate::Gate;
use crate::worker_pool::WorkerPool;
use std::alloc::Global;
use std::marker::Brand;
use std::sync::Wait;
use std::thread::{self, Threads};
use ultra_block::Blocks;

/// The most workers of a crew.
pub const MOST_WORKERS: usize = 64;

/// The machine makes one cycle, in the caller's thread. It is `Blocks::cycle`: it takes no memory
/// and always succeeds.
///
/// The machine's count of cycles has to be below `2^32 - 1`.
pub fn cycle_alone(blocks: &mut Blocks)
    requires { blocks.old.machine.cycles < 2 ^ 32 - 1 }
    ensures { blocks.new ≡ record blocks.old {
      machine = next_cycle blocks.old.config blocks.old.program blocks.old.machine;
    } }
{
    blocks.cycle();
}

/// Host workers, 1 to 64.
pub struct Crew;

impl Crew {
    /// The machine makes one cycle, each half of it by n workers, 1 to 64. The partition stays as
    /// it is, and the machine after the cycle is the same for every partition, every number of
    /// workers and every gate. Each of several workers has its own thread. The one whose number is
    /// `b` modulo the number of workers calls the gate and then makes the half for block `b`. A
    /// single worker is the caller's thread, and calls no gate.
    ///
    /// The machine's count of cycles has to be below `2^32 - 1`. The call may wait. On every return
    /// path the threads that were started are joined.
    ///
    /// `NoThread` says that a thread could not be started or died before finishing, `NoMemory` that
    /// memory was refused; the blocks are then given up. With one worker the call succeeds.
    #[tactic(auto, using(crate::proofs::Counted::one_on))]
    pub fn cycle<R: Threads + Wait + Sync, G: Gate + Sync>(
        rt: &R,
        alloc: Global,
        blocks: Blocks,
        workers: usize,
        gate: &G,
    ) -> Result<Blocks, CrewFault>
        requires counted { blocks.machine.cycles < 2 ^ 32 - 1 }
        requires some_worker { 1 ≤ workers }
        requires most_workers { workers ≤ 64 }
        ensures state { IfOk result (λ b. b ≡
            record blocks { machine = next_cycle blocks.config blocks.program blocks.machine }) }
        ensures alone { workers ≡ 1 → IsOk result }
    {
        Crew::cycles(rt, alloc, blocks, workers, gate, 1)
    }

    /// The machine makes n cycles, each as by `cycle`, but the workers' threads are started once.
    /// With one worker the call succeeds.
    ///
    /// The machine's count of cycles has to be below `2^32` after these too. The call may wait. On
    /// every return path the threads that were started are joined.
    ///
    /// `NoThread` says that a thread could not be started or died before finishing, `NoMemory` that
    /// memory was refused; the blocks are then given up.
    pub fn cycles<R: Threads + Wait + Sync, G: Gate + Sync>(
        rt: &R,
        alloc: Global,
        mut blocks: Blocks,
        workers: usize,
        gate: &G,
        count: u32,
    ) -> Result<Blocks, CrewFault>
        requires counted { blocks.machine.cycles + count < 2 ^ 32 }
        requires some_worker { 1 ≤ workers }
        requires most_workers { workers ≤ 64 }
        ensures state { IfOk result (λ b. b ≡ record blocks {
          machine = cycles_on blocks.config blocks.program count blocks.machine;
        }) }
        ensures alone { workers ≡ 1 → IsOk result }
    {
        if workers == 1 {
            cycles_alone(&mut blocks, count);
            return Ok(blocks);
        }
        cycles_together::<Brand, R, G>(rt, alloc, blocks, workers, gate, count)
    }
}

/// The machine makes n cycles, in the caller's thread.
#[tactic(auto, using(crate::proofs::Counted::made_later))]
fn cycles_alone(blocks: &mut Blocks, count: u32)
    requires { blocks.old.machine.cycles + count < 2 ^ 32 }
    ensures { blocks.new ≡ record blocks.old {
      machine = cycles_on blocks.old.config blocks.old.program count blocks.old.machine;
    } }
{
    for _ in 0..count {
        cycle_alone(blocks);
    }
}

/// The machine, and how many of n workers have a block of it, the first ones; the others have none,
/// and need no thread.
fn count_busy(blocks: Blocks, workers: usize) -> (Blocks, usize)
    requires { 1 ≤ workers }
    ensures same { result.0 ≡ blocks }
    ensures busy { result.1 ≡ busy_workers workers blocks.count }
    ensures some_worker { 1 ≤ result.1 }
{
    let parts = blocks.into_parts();
    let busy = workers.min(parts.blocks.len()).max(1);
    (Blocks::from_parts(parts), busy)
}

/// The machine makes n cycles, whose halves are made by workers in their own threads. The threads
/// are started here and joined at the end. Each of these workers that has a block gets a thread.
fn cycles_together<J: ExpectedResults + Send, R: Threads + Wait + Sync, G: Gate + Sync>(
    rt: &R,
    alloc: Global,
    blocks: Blocks,
    workers: usize,
    gate: &G,
    count: u32,
) -> Result<Blocks, CrewFault>
    requires counted { blocks.machine.cycles + count < 2 ^ 32 }
    requires some_worker { 1 ≤ workers }
    requires expected { AreExpectedResults J.results J.program
        (busy_workers workers blocks.count) blocks }
    ensures { IfOk result (λ b. b ≡
        record blocks { machine = cycles_on blocks.config blocks.program count blocks.machine }) }
{
    let (blocks, busy) = count_busy(blocks, workers);
    thread::scope(
        thread::scope_env(),
        rt,
        |scope| -> Result<Blocks, CrewFault>
            requires counted { blocks.machine.cycles + count < 2 ^ 32 }
            requires some_worker { 1 ≤ busy }
            requires expected { AreExpectedResults J.results J.program busy blocks }
            ensures { IfOk result (λ b. b ≡ record blocks {
              machine = cycles_on blocks.config blocks.program count blocks.machine;
            }) }
        {
            let pool = WorkerPool::<J>::start(scope, rt, alloc, busy, gate)?;
            let result = pool.cycles(rt, alloc, blocks, count);
            pool.stop(rt);
            result
        },
    )
}
