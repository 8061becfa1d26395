//! A worker's thread, with the channels to it and back.

ghost use Rattle.std.specs.Prelude.{◌≡◌, All, IfErr, IfOk, map};
ghost use Rattle.ultra_crew.specs.{Tasks.{CanBeMade, task_after_half}, declared.fault.CrewFault.TheVariants.NoThread};

use crate::assignment::{Assignment, FinishedAssignment};
use crate::expected_results::ExpectedResults;
use crate::fault::CrewFault;
use crate::gate::Gate;
use crate::task::{AssignmentName, BlockTask};
use crossbeam_channel::{Receiver, Sender, TryRecvError, bounded};
use std::alloc::{AllocError, Global};
use std::hint;
use std::marker::PhantomData;
use std::sync::Wait;
use std::thread::{JoinHandle, Scope, Threads};
use ultra_block_core::Rooms;

/// A worker's thread, which waits for assignments and gives results back until it is stopped.
#[derive(Drop)]
pub struct WorkerThread<J: ExpectedResults> {
    assignments: Sender<Assignment<J>>,
    results: Receiver<FinishedAssignment<J>>,
    thread: JoinHandle<()>,
}

/// What a worker's thread holds until it is stopped: the channels by which assignments come and
/// results go.
#[derive(Drop)]
struct WorkerChannels<J: ExpectedResults> {
    assignments: Receiver<Assignment<J>>,
    results: Sender<FinishedAssignment<J>>,
}

/// The channels to a worker's thread and back, which has not been started yet.
#[derive(Drop)]
pub struct Channels<J: ExpectedResults> {
    assignments: (Sender<Assignment<J>>, Receiver<Assignment<J>>),
    results: (
        Sender<FinishedAssignment<J>>,
        Receiver<FinishedAssignment<J>>,
    ),
}

impl<J: ExpectedResults> Channels<J> {
    /// Channels that hold one assignment and one result. An error says that memory was refused.
    pub fn new(alloc: Global) -> Result<Channels<J>, AllocError> {
        Ok(Channels {
            assignments: bounded(alloc, 1)?,
            results: bounded(alloc, 1)?,
        })
    }
}

/// How often a thread looks for a message before it sleeps until one comes: for about the time that
/// a half of a cycle takes.
const MOST_POLLS: u32 = 400;

/// The next message, or `None` if none can come any more.
fn receive_next<T: Drop, R: Wait>(rt: &R, from: &Receiver<T>) -> Option<T> {
    for _ in 0..MOST_POLLS {
        match from.try_recv(rt) {
            Ok(message) => return Some(message),
            Err(TryRecvError::Empty) => hint::spin_loop(),
            Err(TryRecvError::Disconnected) => return None,
        }
    }
    from.recv(rt).ok()
}

impl<J: ExpectedResults> WorkerChannels<J> {
    /// What a worker does until no more assignments come.
    fn work<R: Wait, G: Gate>(self, rt: &R, gate: &G) {
        for _ in rt.forever() {
            if !self.do_next(rt, gate) {
                return;
            }
        }
    }

    /// Does the next assignment and gives its results back. `false` says that no more can come, or
    /// that nobody takes results any more.
    fn do_next<R: Wait, G: Gate>(&self, rt: &R, gate: &G) -> bool {
        match receive_next(rt, &self.assignments) {
            Some(assignment) => {
                let made = assignment.make(rt, gate);
                self.results.send(rt, made).is_ok()
            }
            None => false,
        }
    }

    /// Starts the worker's thread. `NoThread` says that it could not be started.
    fn spawn_thread<'s, E, R: Threads + Wait + Sync, G: Gate + Sync>(
        self,
        scope: &Scope<'s, E>,
        rt: &'s R,
        gate: &'s G,
    ) -> Result<JoinHandle<()>, CrewFault>
    where
        J: Send + 's,
        ensures { IfErr result (λ e. e ≡ NoThread) }
    {
        scope
            .spawn(move || self.work(rt, gate))
            .ok()
            .ok_or(CrewFault::NoThread)
    }
}

impl<J: ExpectedResults> WorkerThread<J> {
    /// Starts a worker's thread over these channels. It makes halves of blocks, and calls this gate
    /// before each half of a block. It takes no memory: the only fault is `NoThread`, which says
    /// that the thread could not be started.
    pub fn start<'s, E, R: Threads + Wait + Sync, G: Gate + Sync>(
        scope: &Scope<'s, E>,
        rt: &'s R,
        channels: Channels<J>,
        gate: &'s G,
    ) -> Result<WorkerThread<J>, CrewFault>
    where
        J: Send + 's,
        ensures { IfErr result (λ e. e ≡ NoThread) }
    {
        let (assignments, to_make) = channels.assignments;
        let (made, results) = channels.results;
        let channels = WorkerChannels {
            assignments: to_make,
            results: made,
        };
        let thread = channels.spawn_thread(scope, rt, gate)?;
        Ok(WorkerThread {
            assignments,
            results,
            thread,
        })
    }

    /// Gives the worker its team for the half of this name, and the rooms that were noted before
    /// it. The results have to be the expected ones. `NoMemory` says that memory was refused,
    /// `NoThread` that the thread is gone; the team is then given up.
    pub fn send_team<R: Wait>(
        &self,
        rt: &R,
        name: AssignmentName,
        team: Vec<BlockTask>,
        rooms: &Rooms,
    ) -> Result<(), CrewFault>
        requires ready { All (CanBeMade J.program name.half) team.items }
        requires settled { map (task_after_half name.half rooms.now J.program) team.items ≡
            J.results name.cycle name.half name.worker }
    {
        let assignment = Assignment {
            name,
            team,
            rooms: *rooms,
            expected: PhantomData,
        };
        Ok(self.assignments.send(rt, assignment)?)
    }

    /// The team of this name after its half. Results of another name are dropped. `NoThread` says
    /// that the thread is gone.
    pub fn receive_team<R: Wait>(
        &self,
        rt: &R,
        name: AssignmentName,
    ) -> Result<Vec<BlockTask>, CrewFault>
        ensures team { IfOk result (λ v. v.items ≡ J.results name.cycle name.half name.worker) }
        ensures fault { IfErr result (λ e. e ≡ NoThread) }
    {
        for _ in rt.forever() {
            let Some(results) = receive_next(rt, &self.results) else {
                return Err(CrewFault::NoThread);
            };
            if results.name == name {
                return Ok(results.into_team());
            }
        }
        unreachable!()
    }

    /// Lets the worker end, and joins its thread.
    pub fn stop<R: Threads>(self, rt: &R) {
        let WorkerThread {
            assignments,
            results,
            thread,
        } = self;
        drop(assignments);
        drop(results);
        thread.join(rt);
    }
}
