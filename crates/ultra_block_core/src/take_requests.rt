//! The half of a cycle in which requests come to switches and modules.

ghost use Rattle.std.specs.Prelude.{◌≡◌, ℕ, ◌+◌, ◌<◌, ◌≤◌, ◌↔◌, ◌++◌, [], Bool, true, false, length, vec_capacity};
ghost use Rattle.ultra_block_core.specs.Prelude.{IsSmall, ForSome, HasWay, after_both, combinations_of_both, AreInlets, request_inlets, on_link, ports_in_turn, request_links, without_both, after_units, IsModule, IsSwitch};
ghost use Rattle.ultra_block_core.specs.{BlockState.most_events, Holding.GetsNoRequest};
ghost use Rattle.ultra_block_core.specs.RequestsTaken.{CanTakeRequestsAt, ModuleCanTakeRequest, SwitchCanTakeRequests, module_takes_request, switch_takes_requests, takes_requests};
ghost use Rattle.ultra_topology.specs.declared.TheConstants.{MOST_UNITS};

use crate::block::Block;
use ultra_msg::{Event, RequestPacket};
use ultra_route::Net;
use ultra_switch::Switch;
use ultra_topology::{
    Links, Unit, UnitNumber, UnitSet, Visit, ports_in_turn, take_for_module, visit_all,
};
use ultra_unit_steps::modules;
use ultra_unit_steps::requests::{are_ports_reversed, put_in_order, take_request};

/// What comes to a switch by two links goes into its queues, where it may combine. The request on
/// the first link of `in_turn` is taken in before that on the second. Combinations are appended to
/// `events`: by position, and at one position in the order of the arrivals. Answers whether there
/// are any.
#[inline(always)]
fn take_into_switch(
    switch: &mut Switch,
    links: &mut Links<RequestPacket>,
    net: Net,
    unit: UnitNumber,
    stage: u32,
    index: u32,
    in_turn: (usize, usize),
    events: &mut Vec<Event>,
) -> bool
    requires is { IsSwitch net unit stage index }
    requires inlets { AreInlets (request_inlets net) net unit (request_links net stage index) }
    requires turn { (zero_first : Bool) ×
        (in_turn ≡ ports_in_turn zero_first (request_links net stage index)) }
    requires stages { links.old.stages ≡ net }
    requires first { ForSome (on_link links.old.table in_turn.0) (HasWay net stage switch.old) }
    requires second { ForSome (on_link links.old.table in_turn.1) (HasWay net stage switch.old) }
    requires event_room { length events.old.items + 2 ≤ vec_capacity events.old }
    ensures switch { switch.new ≡ after_both net stage switch.old
        (on_link links.old.table in_turn.0) (on_link links.old.table in_turn.1) }
    ensures events { events.new.items ≡ events.old.items ++ combinations_of_both net stage index
        switch.old (on_link links.old.table in_turn.0) (on_link links.old.table in_turn.1) }
    ensures places { vec_capacity events.new ≡ vec_capacity events.old }
    ensures few { length events.new.items ≤ length events.old.items + 2 }
    ensures none { (result ≡ false) ↔ (combinations_of_both net stage index switch.old
        (on_link links.old.table in_turn.0) (on_link links.old.table in_turn.1) ≡ []) }
    ensures links { links.new ≡ record links.old {
      table = without_both links.old.table
          (request_links net stage index);
      targets = links.new.targets;
    } }
{
    let to_mm = &mut switch.to_mm;
    let first = links.take(in_turn.0);
    let first_combines = take_request(to_mm, net, stage, index, &first, events);
    let second = links.take(in_turn.1);
    let second_combines = take_request(to_mm, net, stage, index, &second, events);
    links.clear(unit);
    if first_combines & second_combines {
        put_in_order(events, are_ports_reversed(net, stage, &first, &second));
    }
    first_combines | second_combines
}

impl Block {
    /// The fifth half of a cycle: takes the requests on links that lead to this block's units. They
    /// go into the queues of switches, where they may combine, and into the registers of modules.
    ///
    /// Each queue must have room for what has come, and the register of the module must be empty.
    #[inline(always)]
    pub fn take_requests(&mut self)
        requires { (k : ℕ) → k < MOST_UNITS → CanTakeRequestsAt k self.old }
        ensures { self.new ≡ after_units takes_requests MOST_UNITS self.old }
    {
        self.take_requests_sized::<false>();
    }

    /// The same half. Its code is compiled once for `SMALL` machines, and once for all others.
    #[inline(always)]
    #[tactic(auto, using(ultra_topology::proofs::Readers::few_units, std::proofs::lemmas::Bool::Decides::nat_tests))]
    pub fn take_requests_sized<const SMALL: bool>(&mut self)
        requires small { SMALL ≡ true → IsSmall self.old.stages }
        requires can { (k : ℕ) → k < MOST_UNITS → CanTakeRequestsAt k self.old }
        ensures { self.new ≡ after_units takes_requests MOST_UNITS self.old }
    {
        // for the prover: a network has 1 to `MOST_STAGES` stages
        let _stages = self.net.stages();
        visit_all::<SMALL, Block, TakeRequests<SMALL>>(&TakeRequests, self);
    }

    /// What comes to a switch goes into its queues, where it may combine: port 0 goes first in even
    /// cycles, port 1 in odd ones.
    fn take_requests_of_switch<const SMALL: bool>(
        &mut self,
        unit: UnitNumber,
        stage: u32,
        index: u32,
    )
        requires is { IsSwitch self.old.stages unit stage index }
        requires can { SwitchCanTakeRequests unit stage index self.old }
        requires room { length self.old.events + 2 ≤ most_events }
        ensures value { self.new ≡ switch_takes_requests unit stage index self.old }
        ensures few { length self.new.events ≤ length self.old.events + 2 }
    {
        let net = self.net;
        let in_turn = ports_in_turn(self.wiring.request_links(unit), self.done % 2 == 0);
        let number = unit.number();
        let Some(switch) = &mut self.switches[number] else {
            return;
        };
        let (links, events) = (&mut self.requests, &mut self.events);
        let has_combined = take_into_switch(
            switch, links, net, unit, stage, index, in_turn, events,
        );
        self.sets
            .note_switch_took_requests(unit, switch, has_combined);
    }

    /// What comes to a module goes into its register.
    fn take_request_of_module<const SMALL: bool>(&mut self, unit: UnitNumber, module_number: u32)
        requires is { IsModule self.old.stages unit module_number }
        requires can { ModuleCanTakeRequest module_number self.old }
        ensures { self.new ≡ module_takes_request module_number self.old }
    {
        let net = self.net;
        let Some(memory_module) = &mut self.modules[module_number as usize] else {
            return;
        };
        let incoming = take_for_module(&mut self.requests, net, unit, module_number);
        if let Some(request) = incoming {
            modules::take_request(memory_module, net, request);
        }
        self.sets.note_module_took_request(unit, memory_module);
    }
}

/// A visit in which requests come to a unit.
#[derive(Clone, Copy, Drop)]
struct TakeRequests<const SMALL: bool>;

#[tactic(auto, using(crate::proofs::Visited::switch_took_requests, crate::proofs::Visited::module_took_request, crate::proofs::Visited::takes_no_request, crate::proofs::Visited::no_request_left))]
impl<const SMALL: bool> Visit<Block> for TakeRequests<SMALL> {
    ghost can_visit = { λ v n b. CanTakeRequestsAt n b };

    ghost visited = { λ v n b. takes_requests n b };

    ghost is_idle = { λ v n b. GetsNoRequest n b };

    #[inline(always)]
    fn units<'t>(&self, block: &'t Block) -> &'t UnitSet {
        block.requests.targets()
    }

    #[inline(always)]
    fn visit(&self, block: &mut Block, unit: UnitNumber) {
        match block.unit(unit.number()) {
            Unit::Switch { stage, index } => block.take_requests_of_switch::<SMALL>(
                unit, stage, index,
            ),
            Unit::Module(number) => block.take_request_of_module::<SMALL>(unit, number),
            Unit::Element(_) | Unit::Nothing => {}
        }
    }
}
