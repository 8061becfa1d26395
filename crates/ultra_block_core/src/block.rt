//! Blocks: some of the units of a machine.

ghost use Rattle.std.specs.Prelude.{◌≡◌, true, Some, is_some};
ghost use Rattle.ultra_block_core.specs.{Prelude.{IsUnit, unit_of}, BlockState.{own_switch, own_module, own_element}, Shape.IsShaped};

use crate::sets::Sets;
use std::marker::Model;
use ultra_isa::Program;
use ultra_mem::Module;
use ultra_model::Stop;
use ultra_msg::{Event, ReplyPacket, RequestPacket};
use ultra_route::Net;
use ultra_switch::Switch;
use ultra_topology::{Links, Unit, UnitSet, Wiring};
use ultra_unit_steps::ProcessingElement;

/// Some of the units of a machine, by their numbers: any switches, modules and processing elements,
/// or none. A link has the number of the position, module or processing element from which it
/// leads. What a unit of this block sends is put on its link, and what comes to a unit of this
/// block is taken from there.
///
/// A cycle is made of six halves, each done to every block: `send_replies`, `take_replies`,
/// `serve`, `send_requests`, `take_requests`, `execute`. No half takes memory.
#[derive(Drop)]
pub struct Block {
    pub(crate) net: Net,
    /// Which unit has a number, and what is beside each switch.
    pub(crate) wiring: Wiring,
    pub(crate) done: u32,
    /// What the machine's processing elements run.
    pub(crate) program: Program,
    /// The switches of this block, by their numbers.
    pub(crate) switches: Vec<Option<Switch>>,
    /// The modules of this block, by their numbers.
    pub(crate) modules: Vec<Option<Module>>,
    /// The processing elements of this block, by their numbers.
    pub(crate) elements: Vec<Option<ProcessingElement>>,
    pub(crate) sets: Sets,
    /// A superset of the processing elements that may do something in a step. All others are at
    /// rest until a reply is delivered.
    pub(crate) awake: UnitSet,
    pub(crate) replies: Links<ReplyPacket>,
    pub(crate) requests: Links<RequestPacket>,
    /// What has happened in the cycle, in the order of the rules.
    pub(crate) events: Vec<Event>,
    /// The faults of the cycle, by the number of the processing element.
    pub(crate) stops: Vec<Stop>,
}

impl Model for Block {
    ghost use Rattle.ultra_block_core.specs.{BlockState.BlockState, Sets.{IsConsistentBlock, seen_of}};

    ghost Value = { BlockState };

    ghost view = { seen_of };

    ghost invariant = { IsConsistentBlock };
}

impl Block {
    /// The unit with this number, in whichever block it is.
    #[inline(always)]
    pub(crate) fn unit(&self, number: usize) -> Unit
        ensures value { result ≡ unit_of self.now.stages number }
        ensures is { IsUnit self.now.stages number result }
    {
        self.wiring.unit(number)
    }

    /// The switch of this number, counted over all stages. It has to be in this block.
    pub fn switch(&self, number: usize) -> &Switch
        requires { is_some (own_switch self.now.switches number) ≡ true }
        ensures { Some result.now ≡ own_switch self.now.switches number }
    {
        self.switches[number].as_ref().unwrap()
    }

    /// The module of this number. It has to be in this block.
    pub fn module(&self, number: u32) -> &Module
        requires { is_some (own_module self.now.modules number) ≡ true }
        ensures { Some result.now ≡ own_module self.now.modules number }
    {
        self.modules[number as usize].as_ref().unwrap()
    }

    /// The processing element of this number. It has to be in this block.
    pub fn element(&self, pe: u32) -> &ProcessingElement
        requires { is_some (own_element self.now.elements pe) ≡ true }
        ensures { Some result.now ≡ own_element self.now.elements pe }
    {
        self.elements[pe as usize].as_ref().unwrap()
    }

    /// What has happened to its units in the cycle, in the order of the halves, and in each half by
    /// the number of the unit.
    pub fn events(&self) -> &[Event]
        ensures { result.now ≡ self.now.events }
    {
        self.events.as_slice()
    }

    /// The faults of its processing elements in the cycle, by their numbers.
    pub fn stops(&self) -> &[Stop]
        ensures { result.now ≡ self.now.stops }
    {
        self.stops.as_slice()
    }

    /// The network of the machine. The block has an entry for each unit and for each link.
    pub fn net(&self) -> Net
        ensures value { result ≡ self.now.stages }
        ensures shape { IsShaped result self.now }
    {
        // for the prover: the table of replies has an entry for each link
        let _replies = self.replies.targets();
        // for the prover: the table of requests has an entry for each link
        let _requests = self.requests.targets();
        self.net
    }

    /// What the machine's processing elements run.
    pub fn program(&self) -> &Program
        ensures { result.now ≡ self.now.program }
    {
        &self.program
    }

    /// How many cycles are done.
    pub fn done(&self) -> u32
        ensures { result ≡ self.now.done }
    {
        self.done
    }
}
