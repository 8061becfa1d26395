//! What goes to a worker, and what the worker gives back.

ghost use Rattle.std.specs.Prelude.{◌≡◌, ⊤, All, List, map};
ghost use Rattle.ultra_isa.specs.declared.Instr.{Instr};
ghost use Rattle.ultra_crew.specs.Tasks.{CanBeMade, task_after_half, task_after_own_half};

use crate::expected_results::ExpectedResults;
use crate::gate::Gate;
use crate::task::{AssignmentName, BlockTask};
use std::marker::{Model, PhantomData};
use std::sync::Wait;
use ultra_block_core::Rooms;

/// The team of a worker for a half, and the rooms that were noted before it. The worker's results
/// with them are the expected ones.
#[derive(Drop)]
pub(crate) struct Assignment<J: ExpectedResults> {
    pub(crate) name: AssignmentName,
    pub(crate) team: Vec<BlockTask>,
    pub(crate) rooms: Rooms,
    pub(crate) expected: PhantomData<J>,
}

impl<J: ExpectedResults> Model for Assignment<J> {
    ghost Value = { ⊤ };

    ghost view = { λ _. tt };

    ghost invariant = { λ o. All (CanBeMade J.program o.name.half) o.team.items ×
        (map (task_after_half o.name.half o.rooms J.program) o.team.items ≡
        J.results o.name.cycle o.name.half o.name.worker) };
}

/// The team of a worker after a half.
#[derive(Drop)]
pub(crate) struct FinishedAssignment<J: ExpectedResults> {
    pub(crate) name: AssignmentName,
    pub(crate) team: Vec<BlockTask>,
    pub(crate) expected: PhantomData<J>,
    pub(crate) ghost settled: { team.items ≡ J.results name.cycle name.half name.worker },
}

impl<J: ExpectedResults> Assignment<J> {
    /// The worker calls the gate for each task, and then does it.
    pub(crate) fn make<R: Wait, G: Gate>(self, rt: &R, gate: &G) -> FinishedAssignment<J> {
        let Assignment {
            name,
            mut team,
            rooms,
            expected,
        } = self;
        make_all(rt, gate, name, team.as_mut_slice(), &rooms);
        FinishedAssignment {
            name,
            team,
            expected,
        }
    }
}

impl<J: ExpectedResults> FinishedAssignment<J> {
    /// The tasks, each one done.
    pub(crate) fn into_team(self) -> Vec<BlockTask>
        ensures { result.items ≡ J.results self.name.cycle self.name.half self.name.worker }
    {
        let FinishedAssignment {
            name: _,
            team,
            expected: _,
        } = self;
        team
    }
}

/// A worker does its tasks: for each it calls the gate, and then makes the half.
fn make_all<R: Wait, G: Gate>(
    rt: &R,
    gate: &G,
    name: AssignmentName,
    team: &mut [BlockTask],
    rooms: &Rooms,
)
    requires { (program : List Instr) × All (CanBeMade program name.half) team.old }
    ensures { team.new ≡ map (task_after_own_half name.half rooms.now) team.old }
{
    for task in team.iter_mut() {
        let call = task.call_gate(rt, gate, name);
        task.make(name, call, rooms);
    }
}
