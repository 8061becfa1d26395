//! A worker's task: a block that makes a half.

ghost use Rattle.std.specs.Prelude.{◌≡◌, true};
ghost use Rattle.ultra_crew.specs.Tasks.{CanBeMade, task, task_after_own_half};

use crate::gate::Gate;
use std::marker::PhantomData;
use std::sync::Wait;
use ultra_block_core::{Block, Half, Rooms};

/// A cycle, a half and a worker: the name of what is sent to the worker, and of the result.
#[derive(Clone, Copy, PartialEq, Eq, Drop)]
pub struct AssignmentName {
    /// The cycle, counted from 0.
    pub cycle: u32,
    /// The half of the cycle.
    pub half: Half,
    /// The worker's number.
    pub worker: usize,
}

/// A block that is to make a half, or that has made it, with its number.
#[derive(Drop)]
pub struct BlockTask {
    number: usize,
    block: Block,
}

/// A call of the gate that has returned, for a half of a cycle of the block of this number. Only
/// `BlockTask::call_gate` makes one, and only `BlockTask::make` takes it. So a half can't be made
/// before the gate was called for it, and a call that no half follows doesn't compile.
pub(crate) struct GateCall<G: Gate> {
    cycle: u32,
    half: Half,
    number: usize,
    gate: PhantomData<G>,
    ghost returned: { G.was_called cycle half number ≡ true },
}

impl BlockTask {
    /// The task of a block, with its number.
    pub(crate) fn new(number: usize, block: Block) -> BlockTask
        ensures { result ≡ task number block }
    {
        BlockTask { number, block }
    }

    /// The block of the task.
    pub(crate) fn into_block(self) -> Block
        ensures { result ≡ self.block }
    {
        self.block
    }

    /// The worker calls the gate before it makes the half of this name.
    pub(crate) fn call_gate<R: Wait, G: Gate>(
        &self,
        rt: &R,
        gate: &G,
        name: AssignmentName,
    ) -> GateCall<G>
        ensures cycle { result.cycle ≡ name.cycle }
        ensures half { result.half ≡ name.half }
        ensures number { result.number ≡ self.now.number }
    {
        gate.before(rt, name.cycle, name.half, self.number);
        GateCall {
            cycle: name.cycle,
            half: name.half,
            number: self.number,
            gate: PhantomData,
        }
    }

    /// The block makes the half of this name, for which the gate was called.
    pub(crate) fn make<G: Gate>(&mut self, name: AssignmentName, call: GateCall<G>, rooms: &Rooms)
        requires cycle { call.cycle ≡ name.cycle }
        requires half { call.half ≡ name.half }
        requires own { call.number ≡ self.old.number }
        requires ready { CanBeMade self.old.block.program name.half self.old }
        ensures { self.new ≡ task_after_own_half name.half rooms.now self.old }
    {
        let GateCall {
            cycle: _,
            half,
            number: _,
            gate: _,
        } = call;
        self.block.make(half, rooms);
    }
}
