//! Blocks without units, units that are put into a block or taken out of it, and what goes from one
//! block to another.

ghost use Rattle.std.specs.Prelude.{◌≡◌, ◌<◌, ◌^◌, IfOk, None, Some, slice_set};
ghost use Rattle.ultra_block_core.specs.{Prelude.switch_count as count_of_switches, BlockState.{own_element, own_module, own_switch}, Building.{empty_block, with_unit, without_unit}};

use crate::block::Block;
use crate::sets::Sets;
use std::alloc::{AllocError, Global};
use std::mem::swap;
use ultra_isa::Program;
use ultra_mem::Module;
use ultra_model::Stop;
use ultra_msg::{Event, ReplyPacket, RequestPacket};
use ultra_route::Net;
use ultra_switch::Switch;
use ultra_topology::{
    Links, MOST_UNITS, Unit, UnitNumber, UnitSet, Wiring, element_number, empty_entries,
    module_number, switch_count,
};
use ultra_unit_steps::ProcessingElement;

/// For how many events a block has memory: at most two of each unit in each of four halves.
const MOST_EVENTS: usize = 8 * MOST_UNITS;

/// For how many stops a block has memory: at most one of each unit.
const MOST_STOPS: usize = MOST_UNITS;

impl Block {
    /// A block without units, of a machine with this network that runs this program, before its
    /// first cycle. It keeps a copy of the program. An error says that memory was refused.
    pub fn empty(alloc: Global, net: Net, program: &Program) -> Result<Block, AllocError>
        ensures { IfOk result (λ b. b ≡ empty_block net program.now) }
    {
        Block::empty_after(alloc, net, program, 0)
    }

    /// A block without units, of a machine with this network that runs this program, after this
    /// many cycles. It keeps a copy of the program. An error says that memory was refused.
    pub fn empty_after(
        alloc: Global,
        net: Net,
        program: &Program,
        done: u32,
    ) -> Result<Block, AllocError>
        ensures { IfOk result (λ b. b ≡ record (empty_block net program.now) { done = done }) }
    {
        let size = net.size() as usize;
        Ok(Block {
            net,
            wiring: Wiring::of(alloc, net)?,
            done,
            program: program.try_clone(alloc)?,
            switches: empty_entries(alloc, switch_count(net))?,
            modules: empty_entries(alloc, size)?,
            elements: empty_entries(alloc, size)?,
            sets: Sets::empty(),
            awake: UnitSet::empty(),
            replies: Links::empty(alloc, net)?,
            requests: Links::empty(alloc, net)?,
            events: Vec::with_capacity(alloc, MOST_EVENTS)?,
            stops: Vec::with_capacity(alloc, MOST_STOPS)?,
        })
    }

    /// Puts a switch into the block, by its number.
    pub fn put_switch(&mut self, number: usize, switch: Switch)
        requires { number < count_of_switches self.old.stages }
        ensures { self.new ≡
            record self.old { switches = slice_set self.old.switches number (Some switch) } }
    {
        // for the prover: there are at most 192 switches
        let _count = switch_count(self.net);
        self.sets.add_switch(UnitNumber::of(number), &switch);
        self.switches[number] = Some(switch);
    }

    /// Puts a memory module into the block, by its number among modules.
    pub fn put_module(&mut self, number: u32, memory_module: Module)
        requires { number < 2 ^ self.old.stages }
        ensures { self.new ≡
            record self.old { modules = slice_set self.old.modules number (Some memory_module) } }
    {
        let unit = UnitNumber::of(module_number(self.net, number));
        self.sets.add_module(unit, &memory_module);
        self.modules[number as usize] = Some(memory_module);
    }

    /// Puts a processing element into the block, by its number.
    pub fn put_element(&mut self, pe: u32, element: ProcessingElement)
        requires { pe < 2 ^ self.old.stages }
        ensures { self.new ≡
            record self.old { elements = slice_set self.old.elements pe (Some element) } }
    {
        let unit = UnitNumber::of(element_number(self.net, pe));
        self.sets.add_element(unit, &element);
        self.awake.insert(unit);
        self.elements[pe as usize] = Some(element);
    }

    /// Moves the unit of this number to another block of the machine, if it is in this one.
    pub fn move_unit(&mut self, number: usize, to: &mut Block)
        requires { to.old.stages ≡ self.old.stages }
        ensures left { self.new ≡ without_unit number self.old }
        ensures there { to.new ≡ with_unit number self.old to.old }
    {
        // for the prover: the number of positions is even, and at most 64
        let _even = self.net.size();
        match self.unit(number) {
            Unit::Switch { .. } => {
                self.sets.remove_unit(UnitNumber::of(number));
                if let Some(switch) = self.switches[number].take() {
                    to.put_switch(number, switch);
                }
            }
            Unit::Module(module) => {
                self.sets.remove_unit(UnitNumber::of(number));
                if let Some(memory_module) = self.modules[module as usize].take() {
                    to.put_module(module, memory_module);
                }
            }
            Unit::Element(pe) => {
                let unit = UnitNumber::of(number);
                self.sets.remove_unit(unit);
                self.awake.remove(unit);
                if let Some(element) = self.elements[pe as usize].take() {
                    to.put_element(pe, element);
                }
            }
            Unit::Nothing => {}
        }
    }

    /// Exchanges its events and stops for those of another block.
    pub fn swap_events_with(&mut self, other: &mut Block)
        ensures here { self.new ≡
            record self.old { events = other.old.events; stops = other.old.stops } }
        ensures there { other.new ≡
            record other.old { events = self.old.events; stops = self.old.stops } }
    {
        swap(&mut self.events, &mut other.events);
        swap(&mut self.stops, &mut other.stops);
    }
}
