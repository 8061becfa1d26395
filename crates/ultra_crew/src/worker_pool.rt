//! Workers whose threads are kept over several cycles.

ghost use Rattle.std.specs.Prelude.{◌≡◌, ℕ, ◌+◌, ◌-◌, ◌<◌, ◌≤◌, ◌^◌, All, IfOk, List, IfErr, OnOk, [], length, map, slice_index_or, vec_capacity};
ghost use Rattle.ultra_model.specs.Phases.{cycle as next_cycle};
ghost use Rattle.ultra_block_core.specs.{declared.half.Half.Half, BlockState.BlockState};
ghost use Rattle.ultra_partition.specs.{Halves.all_after_half, Moments.{AreWhole, machine_in}};
ghost use Rattle.ultra_crew.specs.{Tasks.{AreEmptyTeams, AreTeams, CanBeMade, task_after_half}, Start.state_of, ExpectedResults.{AreExpectedResults, IsDue, cycles_on, results_in}, declared.fault.CrewFault.TheVariants.NoThread};

use crate::expected_results::ExpectedResults;
use crate::fault::CrewFault;
use crate::gate::Gate;
use crate::moves::with_exchanged;
use crate::task::{AssignmentName, BlockTask};
use crate::teams::{collect_from_teams, deal_to_teams, empty_teams};
use crate::worker_thread::{Channels, WorkerThread};
use std::alloc::{AllocError, Global};
use std::marker::Model;
use std::sync::Wait;
use std::thread::{Scope, Threads};
use ultra_block::{Blocks, Parts};
use ultra_block_core::{Block, Half, Rooms};
use ultra_model::Config;
use ultra_partition::{MessageKind, note_rooms};

/// Host workers at work. Each has its own thread, which is kept until the pool is stopped. In
/// contracts a pool is the number of its workers.
#[derive(Drop)]
pub struct WorkerPool<J: ExpectedResults> {
    threads: Vec<WorkerThread<J>>,
}

impl<J: ExpectedResults> Model for WorkerPool<J> {
    ghost Value = { ℕ };

    ghost view = { λ s. length s.threads.items };
}

impl<J: ExpectedResults> WorkerPool<J> {
    /// Starts a thread for each of n workers. They make the halves of blocks of the machine whose
    /// expected results are `J`, and call this gate before each half of a block. Memory is asked
    /// for before the first thread is started. On every return path the threads that were started
    /// are joined: by `stop`, or here where one could not be started.
    ///
    /// `NoThread` says that a thread could not be started, `NoMemory` that memory was refused.
    pub fn start<'s, E, R: Threads + Wait + Sync, G: Gate + Sync>(
        scope: &Scope<'s, E>,
        rt: &'s R,
        alloc: Global,
        workers: usize,
        gate: &'s G,
    ) -> Result<WorkerPool<J>, CrewFault>
    where
        J: Send + 's,
        ensures { IfOk result (λ s. s ≡ workers) }
    {
        let threads = Vec::with_capacity(alloc, workers)?;
        let channels = channels_for(alloc, workers)?;
        let threads = start_threads(scope, rt, channels, threads, gate)?;
        Ok(WorkerPool { threads })
    }

    /// Lets all workers end, and joins their threads.
    pub fn stop<R: Threads>(self, rt: &R) {
        let WorkerPool { threads } = self;
        stop_all(rt, threads);
    }

    /// The machine makes one cycle, each half of it by the workers: that of number `b` modulo their
    /// number calls the gate and then makes the half for block `b`. The partition stays as it is,
    /// and the machine after the cycle is the same for every partition, every number of workers and
    /// every gate.
    ///
    /// The machine's count of cycles has to be below `2^32 - 1`. The pool has to be one that was
    /// started for the expected results of this machine. The call may wait.
    ///
    /// `NoMemory` says that memory was refused, and `NoThread` that a worker's thread is gone; the
    /// blocks are then given up.
    #[tactic(auto, using(ultra_block::proofs::Seen::cycles_are))]
    pub fn cycle<R: Wait>(&self, rt: &R, alloc: Global, blocks: Blocks) -> Result<Blocks, CrewFault>
        requires counted { blocks.machine.cycles < 2 ^ 32 - 1 }
        requires some_worker { 1 ≤ self.now }
        requires expected { AreExpectedResults J.results J.program self.now blocks }
        ensures state { IfOk result (λ b. b ≡
            record blocks { machine = next_cycle blocks.config blocks.program blocks.machine }) }
        ensures expected { IfOk result (λ b. AreExpectedResults J.results J.program self.now b) }
    {
        let Parts {
            config,
            program,
            partition,
            done,
            blocks,
        } = blocks.into_parts();
        let blocks = self.make_cycle(rt, alloc, &config, partition.as_slice(), done, blocks)?;
        Ok(Blocks::from_parts(Parts {
            config,
            program,
            partition,
            done: done + 1,
            blocks,
        }))
    }

    /// Makes n cycles of the machine, each like `cycle`.
    #[tactic(auto, using(crate::proofs::Counted::made_later))]
    pub(crate) fn cycles<R: Wait>(
        &self,
        rt: &R,
        alloc: Global,
        mut blocks: Blocks,
        count: u32,
    ) -> Result<Blocks, CrewFault>
        requires counted { blocks.machine.cycles + count < 2 ^ 32 }
        requires some_worker { 1 ≤ self.now }
        requires expected { AreExpectedResults J.results J.program self.now blocks }
        ensures { IfOk result (λ b. b ≡ record blocks {
          machine = cycles_on blocks.config blocks.program count blocks.machine;
        }) }
    {
        for _ in 0..count {
            blocks = self.cycle(rt, alloc, blocks)?;
        }
        Ok(blocks)
    }

    /// The blocks of a machine, which has made `done` cycles, make one more, each half of it in
    /// their workers' threads: replies, memory, requests, processors. Between the two halves of a
    /// phase each message goes to the block of the unit to which it leads.
    fn make_cycle<R: Wait>(
        &self,
        rt: &R,
        alloc: Global,
        config: &Config,
        partition: &[u8],
        done: u32,
        blocks: Vec<Block>,
    ) -> Result<Vec<Block>, CrewFault>
        requires whole { AreWhole config.now J.program partition.now done blocks.items }
        requires counted { done < 2 ^ 32 - 1 }
        requires some_worker { 1 ≤ self.now }
        requires settled { (h : Half) (w : ℕ) → J.results done h w ≡ results_in self.now
            (state_of config.now J.program partition.now done blocks.items) h w }
        ensures whole { IfOk result (λ v.
            AreWhole config.now J.program partition.now (done + 1) v.items) }
        ensures state { IfOk result (λ v.
            machine_in config.now partition.now (done + 1) v.items ≡ next_cycle config.now J.program
            (machine_in config.now partition.now done blocks.items)) }
        ensures count { IfOk result (λ v. length v.items ≡ length blocks.items) }
    {
        let net = config.net();
        let workers = self.threads.len();
        let mut teams = empty_teams(alloc, workers, blocks.len().div_ceil(workers))?;
        let rooms = note_rooms(blocks.as_slice());
        let blocks = self.make_half(rt, done, Half::SendReplies, &rooms, blocks, &mut teams)?;
        let blocks = with_exchanged(blocks, partition, MessageKind::Replies, net);
        let halves = (Half::TakeReplies, Half::Serve);
        let blocks = self.make_two_halves(rt, done, halves, &rooms, blocks, &mut teams)?;
        let rooms = note_rooms(blocks.as_slice());
        let blocks = self.make_half(rt, done, Half::SendRequests, &rooms, blocks, &mut teams)?;
        let blocks = with_exchanged(blocks, partition, MessageKind::Requests, net);
        let halves = (Half::TakeRequests, Half::Execute);
        let blocks = self.make_two_halves(rt, done, halves, &rooms, blocks, &mut teams)?;
        Ok(blocks)
    }

    /// Makes this half of the cycle in each block, in its worker's thread. The teams, to which
    /// the blocks are dealt for it, are empty before and after. A fault leaves no block.
    fn make_half<R: Wait>(
        &self,
        rt: &R,
        cycle: u32,
        half: Half,
        rooms: &Rooms,
        mut blocks: Vec<Block>,
        teams: &mut Vec<Vec<BlockTask>>,
    ) -> Result<Vec<Block>, CrewFault>
        requires some_worker { 1 ≤ self.now }
        requires teams { AreEmptyTeams self.now teams.old.items }
        requires due { IsDue J.results J.program self.now cycle half rooms.now blocks.items }
        ensures blocks { IfOk result (λ v.
            v.items ≡ all_after_half half rooms.now J.program blocks.items) }
        ensures teams { OnOk result (AreEmptyTeams self.now teams.new.items) }
    {
        let count = blocks.len();
        deal_to_teams(&mut blocks, teams)?;
        self.make_half_of_teams(rt, cycle, half, rooms, teams)?;
        collect_from_teams(teams, &mut blocks, count)?;
        Ok(blocks)
    }

    /// Every block makes these two halves of the cycle in order, as by `make_half`; but the blocks
    /// are dealt once.
    fn make_two_halves<R: Wait>(
        &self,
        rt: &R,
        cycle: u32,
        halves: (Half, Half),
        rooms: &Rooms,
        mut blocks: Vec<Block>,
        teams: &mut Vec<Vec<BlockTask>>,
    ) -> Result<Vec<Block>, CrewFault>
        requires some_worker { 1 ≤ self.now }
        requires teams { AreEmptyTeams self.now teams.old.items }
        requires due { IsDue J.results J.program self.now cycle halves.0 rooms.now blocks.items }
        requires due_again { IsDue J.results J.program self.now cycle halves.1 rooms.now
            (all_after_half halves.0 rooms.now J.program blocks.items) }
        ensures blocks { IfOk result (λ v. v.items ≡ all_after_half halves.1 rooms.now J.program
            (all_after_half halves.0 rooms.now J.program blocks.items)) }
        ensures teams { OnOk result (AreEmptyTeams self.now teams.new.items) }
    {
        let count = blocks.len();
        deal_to_teams(&mut blocks, teams)?;
        self.make_half_of_teams(rt, cycle, halves.0, rooms, teams)?;
        self.make_half_of_teams(rt, cycle, halves.1, rooms, teams)?;
        collect_from_teams(teams, &mut blocks, count)?;
        Ok(blocks)
    }

    /// Sends each team to its worker's thread, which makes this half in all its blocks, and takes
    /// it back. A fault leaves none of them.
    fn make_half_of_teams<R: Wait>(
        &self,
        rt: &R,
        cycle: u32,
        half: Half,
        rooms: &Rooms,
        teams: &mut Vec<Vec<BlockTask>>,
    ) -> Result<(), CrewFault>
        requires count { length teams.old.items ≡ self.now }
        requires due { (bs : List BlockState) × AreTeams self.now teams.old.items bs ×
            IsDue J.results J.program self.now cycle half rooms.now bs }
        ensures count { OnOk result (length teams.new.items ≡ self.now) }
        ensures made { OnOk result ((bs : List BlockState) →
            IsDue J.results J.program self.now cycle half rooms.now bs →
            AreTeams self.now teams.new.items (all_after_half half rooms.now J.program bs)) }
    {
        self.send_teams(rt, cycle, half, rooms, teams)?;
        self.receive_teams(rt, cycle, half, teams)
    }

    /// Gives each worker its team for this half.
    fn send_teams<R: Wait>(
        &self,
        rt: &R,
        cycle: u32,
        half: Half,
        rooms: &Rooms,
        teams: &mut Vec<Vec<BlockTask>>,
    ) -> Result<(), CrewFault>
        requires count { length teams.old.items ≡ self.now }
        requires ready { (w : ℕ) (d : _) → w < length teams.old.items →
            All (CanBeMade J.program half) (slice_index_or teams.old.items w d).items }
        requires settled { (w : ℕ) (d : _) → w < length teams.old.items →
            map (task_after_half half rooms.now J.program)
            (slice_index_or teams.old.items w d).items ≡ J.results cycle half w }
        ensures { OnOk result (teams.new.items ≡ []) }
    {
        let mut worker = 0;
        for team in teams.drain(..) {
            let name = AssignmentName {
                cycle,
                half,
                worker,
            };
            self.threads[worker].send_team(rt, name, team, rooms)?;
            worker += 1;
        }
        Ok(())
    }

    /// Takes back the teams of all workers after this half, in the order of the workers.
    fn receive_teams<R: Wait>(
        &self,
        rt: &R,
        cycle: u32,
        half: Half,
        teams: &mut Vec<Vec<BlockTask>>,
    ) -> Result<(), CrewFault>
        requires { teams.old.items ≡ [] }
        ensures count { OnOk result (length teams.new.items ≡ self.now) }
        ensures results { OnOk result ((w : ℕ) (d : _) → w < self.now →
            (slice_index_or teams.new.items w d).items ≡ J.results cycle half w) }
    {
        for worker in 0..self.threads.len() {
            let name = AssignmentName {
                cycle,
                half,
                worker,
            };
            let team = self.threads[worker].receive_team(rt, name)?;
            teams.push(team)?;
        }
        Ok(())
    }
}

/// The channels of n workers. An error says that memory was refused.
fn channels_for<J: ExpectedResults>(
    alloc: Global,
    workers: usize,
) -> Result<Vec<Channels<J>>, AllocError>
    ensures { IfOk result (λ v. length v.items ≡ workers) }
{
    let mut channels = Vec::with_capacity(alloc, workers)?;
    for _ in 0..workers {
        channels.push(Channels::new(alloc)?)?;
    }
    Ok(channels)
}

/// Starts a worker's thread over each of these channels, and puts it into a list that has room for
/// all. It takes no memory: the only fault is `NoThread`, which says that one could not be started;
/// those that were are joined then.
fn start_threads<'s, J: ExpectedResults + Send + 's, E, R: Threads + Wait + Sync, G: Gate + Sync>(
    scope: &Scope<'s, E>,
    rt: &'s R,
    channels: Vec<Channels<J>>,
    mut threads: Vec<WorkerThread<J>>,
    gate: &'s G,
) -> Result<Vec<WorkerThread<J>>, CrewFault>
    requires empty { threads.items ≡ [] }
    requires room { length channels.items ≤ vec_capacity threads }
    ensures all { IfOk result (λ v. length v.items ≡ length channels.items) }
    ensures fault { IfErr result (λ e. e ≡ NoThread) }
{
    for each in channels {
        match WorkerThread::start(scope, rt, each, gate) {
            Ok(thread) => threads.push_reserved(thread),
            Err(fault) => {
                stop_all(rt, threads);
                return Err(fault);
            }
        }
    }
    Ok(threads)
}

/// Lets these workers end, and joins their threads.
fn stop_all<J: ExpectedResults, R: Threads>(rt: &R, threads: Vec<WorkerThread<J>>) {
    for thread in threads {
        thread.stop(rt);
    }
}
