//! The half of a cycle in which requests leave switches and processing elements.

ghost use Rattle.std.specs.Prelude.{◌≡◌, ℕ, ◌/◌, ◌<◌, ◌||◌, true, is_some};
ghost use Rattle.ultra_route.specs.Route.{shuffled};
ghost use Rattle.ultra_topology.specs.{Numbers.switch_number, Ways.{has_request_way, has_way_from_element as way_from_element}, declared.TheConstants.MOST_UNITS};
ghost use Rattle.ultra_block_core.specs.Prelude.{IsSmall, lane_without, request_heads, requests_leaving, without_requests, LeadOn, LeadsTo, put_on_both, request_inlets, put_on, request_target, places_of, request_targets, request_ways, after_units, IsElement, IsSwitch};
ghost use Rattle.ultra_block_core.specs.{Rooms.{AreOpenFrom, AreOwnRooms}, declared.rooms.Rooms.Rooms, RequestsSent.{element_sends_request, request_leaving, sends_requests, switch_sends_requests}, Holding.HoldsNoRequest};

use crate::block::Block;
use crate::rooms::Rooms;
use ultra_msg::RequestPacket;
use ultra_route::Net;
use ultra_switch::{Ports, Switch, ToMm};
use ultra_topology::{
    Links, Unit, UnitNumber, UnitSet, Visit, element_target, has_request_way, has_way_from_element,
    send_from_end, visit_all,
};
use ultra_unit_steps::requests::send_head_if;

/// Whether no unit is closed to requests.
#[inline(always)]
fn are_all_open<const SMALL: bool>(closed: &Ports<UnitSet>) -> bool
    requires { SMALL ≡ true → AreOpenFrom 64 closed.now }
    ensures { result ≡ true → AreOpenFrom 0 closed.now }
{
    closed.zero.is_empty_sized::<SMALL>() && closed.one.is_empty_sized::<SMALL>()
}

/// Whether the first request of a queue may go on, as `has_request_way` says. Where all units are
/// `OPEN`, it always may.
#[inline(always)]
fn may_go<const OPEN: bool>(
    net: Net,
    closed: &Ports<UnitSet>,
    stage: u32,
    target: UnitNumber,
    head: Option<RequestPacket>,
) -> bool
    requires stage { stage < net }
    requires open { OPEN ≡ true → AreOpenFrom 0 closed.now }
    ensures { (x : ℕ) → target ≡ request_target net stage x →
        result ≡ has_request_way closed.now net stage x head }
{
    if OPEN {
        head.is_some()
    } else {
        has_request_way(net, closed, stage, target, head)
    }
}

/// Whether the first request of a processing element may go on, as `has_way_from_element` says.
/// Where all units are `OPEN`, it always may.
#[inline(always)]
fn may_leave<const OPEN: bool>(
    net: Net,
    closed: &Ports<UnitSet>,
    target: UnitNumber,
    head: Option<RequestPacket>,
) -> bool
    requires { OPEN ≡ true → AreOpenFrom 0 closed.now }
    ensures { (pe : ℕ) → target ≡ switch_number net 0 (shuffled net pe / 2) →
        result ≡ way_from_element closed.now net pe head }
{
    if OPEN {
        head.is_some()
    } else {
        has_way_from_element(net, closed, target, head)
    }
}

/// The first request of a queue of a switch of this stage goes onto its link, if there is a way to
/// the unit `target`, to which the link leads. Answers whether it goes.
#[inline(always)]
fn send_from_queue<const OPEN: bool>(
    queue: &mut ToMm,
    links: &mut Links<RequestPacket>,
    net: Net,
    closed: &Ports<UnitSet>,
    stage: u32,
    link: usize,
    target: UnitNumber,
) -> bool
    requires stage { stage < net }
    requires open { OPEN ≡ true → AreOpenFrom 0 closed.now }
    requires leads { LeadsTo (request_inlets links.old.stages) links.old.stages link target }
    ensures queue { (x : ℕ) → target ≡ request_target net stage x →
        queue.new ≡ lane_without queue.old (request_leaving closed.now net stage x queue.old) }
    ensures links { (x : ℕ) → target ≡ request_target net stage x → links.new ≡ record links.old {
      table = put_on links.old.table link (request_leaving closed.now net stage x queue.old);
      targets = links.new.targets;
    } }
    ensures goes { (x : ℕ) → target ≡ request_target net stage x →
        result ≡ is_some (request_leaving closed.now net stage x queue.old) }
{
    let goes = may_go::<OPEN>(net, closed, stage, target, queue.head_packet());
    links.put(link, target, send_head_if(goes, queue));
    goes
}

/// The first request of each queue of a switch goes onto its link, if there is a way to the unit
/// in `targets`. Port 0 finishes before port 1 starts. Answers whether any goes.
#[inline(always)]
fn send_from_switch<const OPEN: bool>(
    switch: &mut Switch,
    links: &mut Links<RequestPacket>,
    net: Net,
    closed: &Ports<UnitSet>,
    number: usize,
    stage: u32,
    index: u32,
    targets: Ports<UnitNumber>,
) -> bool
    requires is { IsSwitch net number stage index }
    requires small { number < MOST_UNITS }
    requires open { OPEN ≡ true → AreOpenFrom 0 closed.now }
    requires targets { targets ≡ request_targets net stage index }
    requires lead { LeadOn (request_inlets net) net number targets }
    requires stages { links.old.stages ≡ net }
    ensures switch { switch.new ≡ without_requests switch.old (requests_leaving
        (request_ways closed.now net stage index (request_heads switch.old)) switch.old) }
    ensures links { links.new ≡
        record links.old {
          table = put_on_both links.old.table (places_of net stage index)
              (requests_leaving (request_ways closed.now net stage index (request_heads switch.old))
              switch.old);
          targets = links.new.targets;
        } }
    ensures go { let leaving = requests_leaving
        (request_ways closed.now net stage index (request_heads switch.old)) switch.old in
        result ≡ is_some leaving.zero || is_some leaving.one }
{
    // for the prover: a network has 1 to `MOST_STAGES` stages
    let _stages = net.stages();
    let Ports { zero, one } = &mut switch.to_mm;
    let link = 2 * number;
    let zero_goes = send_from_queue::<OPEN>(zero, links, net, closed, stage, link, targets.zero);
    let one_goes = send_from_queue::<OPEN>(one, links, net, closed, stage, link + 1, targets.one);
    zero_goes | one_goes
}

impl Block {
    /// Sends requests, but to no unit in `closed`: by the memory-side port, those have no room. The
    /// code is compiled once for `SMALL` machines, and once for all others; and for both once more
    /// for where no unit is closed, as most often. Where no unit holds a request, that is the only
    /// test.
    #[inline(always)]
    #[tactic(auto, using(ultra_topology::proofs::Readers::few_units, std::proofs::lemmas::Bool::Decides::nat_tests))]
    fn send_requests_sized<const SMALL: bool>(&mut self, closed: &Ports<UnitSet>)
        requires small { SMALL ≡ true → IsSmall self.old.stages }
        requires closed { SMALL ≡ true → AreOpenFrom 64 closed.now }
        ensures { self.new ≡ after_units (sends_requests closed.now) MOST_UNITS self.old }
    {
        // for the prover: a network has 1 to `MOST_STAGES` stages
        let _stages = self.net.stages();
        if self.sets.holds_requests.is_empty_sized::<SMALL>() {
            return;
        }
        if are_all_open::<SMALL>(closed) {
            visit_all::<SMALL, Block, SendRequests<SMALL, true>>(&SendRequests { closed }, self);
        } else {
            visit_all::<SMALL, Block, SendRequests<SMALL, false>>(&SendRequests { closed }, self);
        }
    }

    /// The fourth half of a cycle: requests leave the switches and processing elements for where
    /// there is room, onto their links.
    #[inline(always)]
    pub fn send_requests(&mut self, rooms: &Rooms)
        ensures { self.new ≡
            after_units (sends_requests rooms.now.no_request_room) MOST_UNITS self.old }
    {
        self.send_requests_sized::<false>(&rooms.no_request_room);
    }

    /// The same half for a block that holds every unit and so knows all free space.
    #[inline(always)]
    pub fn send_requests_by_own_rooms<const SMALL: bool>(&mut self)
        requires small { SMALL ≡ true → IsSmall self.old.stages }
        ensures { (rooms : Rooms) × AreOwnRooms self.old rooms ×
            (self.new ≡ after_units (sends_requests rooms.no_request_room) MOST_UNITS self.old) }
    {
        // for the prover: a network has 1 to `MOST_STAGES` stages
        let _stages = self.net.stages();
        let closed = self.sets.no_request_room;
        self.send_requests_sized::<SMALL>(&closed);
    }

    /// The first request of each queue of a switch goes onto its link, if there is a way.
    fn send_requests_of_switch<const SMALL: bool, const OPEN: bool>(
        &mut self,
        closed: &Ports<UnitSet>,
        unit: UnitNumber,
        stage: u32,
        index: u32,
    )
        requires small { SMALL ≡ true → IsSmall self.old.stages }
        requires open { OPEN ≡ true → AreOpenFrom 0 closed.now }
        requires is { IsSwitch self.old.stages unit stage index }
        ensures { self.new ≡ switch_sends_requests closed.now unit stage index self.old }
    {
        let net = self.net;
        let targets = self.wiring.request_targets::<SMALL>(unit);
        let number = unit.number();
        let Some(switch) = &mut self.switches[number] else {
            return;
        };
        let links = &mut self.requests;
        if send_from_switch::<OPEN>(switch, links, net, closed, number, stage, index, targets) {
            self.sets.note_switch_sent_requests(unit, switch);
        }
    }

    /// The first request of a processing element goes onto its link, if there is a way.
    fn send_request_of_element<const SMALL: bool, const OPEN: bool>(
        &mut self,
        closed: &Ports<UnitSet>,
        unit: UnitNumber,
        pe: u32,
    )
        requires small { SMALL ≡ true → IsSmall self.old.stages }
        requires open { OPEN ≡ true → AreOpenFrom 0 closed.now }
        requires is { IsElement self.old.stages unit pe }
        ensures { self.new ≡ element_sends_request closed.now pe self.old }
    {
        let net = self.net;
        // for the prover: a network has 1 to `MOST_STAGES` stages
        let _stages = net.stages();
        let Some(element) = &mut self.elements[pe as usize] else {
            return;
        };
        let target = element_target::<SMALL>(net, pe);
        if !may_leave::<OPEN>(net, closed, target, element.request_head()) {
            return;
        }
        let out = element.send_request();
        send_from_end(&mut self.requests, net, pe, target, out);
        self.sets.note_element_sent_request(unit, element);
    }
}

/// A visit in which requests leave a unit. `closed` are, by the memory-side port, the units without
/// room for requests. Where all are `OPEN`, there are none.
#[derive(Clone, Copy, Drop)]
struct SendRequests<'a, const SMALL: bool, const OPEN: bool> {
    closed: &'a Ports<UnitSet>,
}

#[tactic(auto, using(crate::proofs::Visited::sends_no_request))]
impl<const SMALL: bool, const OPEN: bool> Visit<Block> for SendRequests<'_, SMALL, OPEN> {
    ghost can_visit = { λ v n b. (SMALL ≡ true → IsSmall b.stages) ×
        (OPEN ≡ true → AreOpenFrom 0 v.closed.now) };

    ghost visited = { λ v n b. sends_requests v.closed.now n b };

    ghost is_idle = { λ v n b. HoldsNoRequest n b };

    #[inline(always)]
    fn units<'t>(&self, block: &'t Block) -> &'t UnitSet {
        &block.sets.holds_requests
    }

    #[inline(always)]
    fn visit(&self, block: &mut Block, unit: UnitNumber) {
        match block.unit(unit.number()) {
            Unit::Switch { stage, index } => {
                block.send_requests_of_switch::<SMALL, OPEN>(self.closed, unit, stage, index);
            }
            Unit::Element(pe) => {
                block.send_request_of_element::<SMALL, OPEN>(self.closed, unit, pe);
            }
            Unit::Module(_) | Unit::Nothing => {}
        }
    }
}
