//! The half of a cycle in which replies leave switches and modules.

ghost use Rattle.std.specs.Prelude.{◌≡◌, ℕ, ◌<◌, true};
ghost use Rattle.ultra_block_core.specs.Prelude.{HasNoneFrom, IsSmall, replies_leaving, without_replies, LeadOn, put_on_both, reply_inlets, places_of, after_units, IsModule, IsSwitch};
ghost use Rattle.ultra_block_core.specs.{Rooms.AreOwnRooms, declared.rooms.Rooms.Rooms, Holding.HoldsNoReply};
ghost use Rattle.ultra_block_core.specs.RepliesSent.{without_events, module_sends_reply, reply_targets, reply_ways, sends_replies, switch_sends_replies};
ghost use Rattle.ultra_topology.specs.declared.TheConstants.{MOST_UNITS};

use crate::block::Block;
use crate::rooms::Rooms;
use ultra_msg::ReplyPacket;
use ultra_route::Net;
use ultra_switch::{Ports, Switch};
use ultra_topology::{
    Links, Unit, UnitNumber, UnitSet, Visit, find_reply_ways, module_target, send_from_end,
    visit_all,
};
use ultra_unit_steps::modules;
use ultra_unit_steps::replies::send_head_if;

/// Whether replies may go on from a switch, as `find_reply_ways` says. Where all switches are
/// `OPEN`, they always may.
#[inline(always)]
fn may_go<const OPEN: bool>(
    closed: &UnitSet,
    stage: u32,
    targets: &Ports<UnitNumber>,
) -> Ports<bool>
    requires { OPEN ≡ true → HasNoneFrom closed.now 0 }
    ensures { (net index : ℕ) → targets.now ≡ reply_targets net stage index →
        result ≡ reply_ways closed.now net stage index }
{
    if OPEN {
        Ports {
            zero: true,
            one: true,
        }
    } else {
        find_reply_ways(closed, stage, targets)
    }
}

/// The first reply of each queue of a switch goes onto its link, if there is a way to the unit
/// in `targets`. Port 0 finishes before port 1 starts.
#[inline(always)]
fn send_from_switch<const OPEN: bool>(
    switch: &mut Switch,
    links: &mut Links<ReplyPacket>,
    net: Net,
    closed: &UnitSet,
    number: usize,
    stage: u32,
    index: u32,
    targets: Ports<UnitNumber>,
)
    requires is { IsSwitch net number stage index }
    requires small { number < MOST_UNITS }
    requires open { OPEN ≡ true → HasNoneFrom closed.now 0 }
    requires targets { targets ≡ reply_targets net stage index }
    requires lead { LeadOn (reply_inlets net) net number targets }
    requires stages { links.old.stages ≡ net }
    ensures switch { switch.new ≡ without_replies switch.old
        (replies_leaving (reply_ways closed.now net stage index) switch.old) }
    ensures links { links.new ≡
        record links.old {
          table = put_on_both links.old.table (places_of net stage index)
              (replies_leaving (reply_ways closed.now net stage index) switch.old);
          targets = links.new.targets;
        } }
{
    let ways = may_go::<OPEN>(closed, stage, &targets);
    let link = 2 * number;
    let to_pe = &mut switch.to_pe;
    let zero = send_head_if(ways.zero, &mut to_pe.zero);
    links.put(link, targets.zero, zero);
    let one = send_head_if(ways.one, &mut to_pe.one);
    links.put(link + 1, targets.one, one);
}

impl Block {
    /// Clears the events and faults of the cycle before.
    #[inline(always)]
    fn clear_events(&mut self)
        ensures { self.new ≡ without_events self.old }
    {
        self.events.clear();
        self.stops.clear();
    }

    /// Sends replies, but to no switch in `closed`: those have no room. The code is compiled once
    /// for `SMALL` machines, and once for all others; and for both once more for where no switch is
    /// closed, as most often. Where no unit holds a reply, that is the only test.
    #[inline(always)]
    #[tactic(auto, using(ultra_topology::proofs::Readers::few_units, std::proofs::lemmas::Bool::Decides::nat_tests))]
    fn send_held_replies<const SMALL: bool>(&mut self, closed: &UnitSet)
        requires small { SMALL ≡ true → IsSmall self.old.stages }
        requires closed { SMALL ≡ true → HasNoneFrom closed.now 64 }
        ensures { self.new ≡ after_units (sends_replies closed.now) MOST_UNITS self.old }
    {
        // for the prover: a network has 1 to `MOST_STAGES` stages
        let _stages = self.net.stages();
        if self.sets.holds_replies.is_empty_sized::<SMALL>() {
            return;
        }
        if closed.is_empty_sized::<SMALL>() {
            visit_all::<SMALL, Block, SendReplies<SMALL, true>>(&SendReplies { closed }, self);
        } else {
            visit_all::<SMALL, Block, SendReplies<SMALL, false>>(&SendReplies { closed }, self);
        }
    }

    /// The same, once what had happened in the cycle before is forgotten.
    #[inline(always)]
    fn send_replies_sized<const SMALL: bool>(&mut self, closed: &UnitSet)
        requires small { SMALL ≡ true → IsSmall self.old.stages }
        requires closed { SMALL ≡ true → HasNoneFrom closed.now 64 }
        ensures { self.new ≡
            after_units (sends_replies closed.now) MOST_UNITS (without_events self.old) }
    {
        self.clear_events();
        self.send_held_replies::<SMALL>(closed);
    }

    /// The first half of a cycle: replies leave the switches and modules for where there is room,
    /// onto their links. Clears the events and faults of the cycle before.
    #[inline(always)]
    pub fn send_replies(&mut self, rooms: &Rooms)
        ensures { self.new ≡ after_units (sends_replies rooms.now.no_reply_room) MOST_UNITS
            (without_events self.old) }
    {
        self.send_replies_sized::<false>(&rooms.no_reply_room);
    }

    /// The same half in a block that has all units: it knows all rooms itself.
    #[inline(always)]
    pub fn send_replies_by_own_rooms<const SMALL: bool>(&mut self)
        requires small { SMALL ≡ true → IsSmall self.old.stages }
        ensures { (rooms : Rooms) × AreOwnRooms self.old rooms × (self.new ≡
            after_units (sends_replies rooms.no_reply_room) MOST_UNITS (without_events self.old)) }
    {
        // for the prover: a network has 1 to `MOST_STAGES` stages
        let _stages = self.net.stages();
        let closed = self.sets.no_reply_room;
        self.send_replies_sized::<SMALL>(&closed);
    }

    /// The first reply of each queue of a switch goes onto its link, if there is a way.
    fn send_replies_of_switch<const SMALL: bool, const OPEN: bool>(
        &mut self,
        closed: &UnitSet,
        unit: UnitNumber,
        stage: u32,
        index: u32,
    )
        requires small { SMALL ≡ true → IsSmall self.old.stages }
        requires open { OPEN ≡ true → HasNoneFrom closed.now 0 }
        requires is { IsSwitch self.old.stages unit stage index }
        ensures { self.new ≡ switch_sends_replies closed.now unit stage index self.old }
    {
        let net = self.net;
        // for the prover: a network has 1 to `MOST_STAGES` stages
        let _stages = net.stages();
        let targets = self.wiring.reply_targets::<SMALL>(unit);
        let number = unit.number();
        let Some(switch) = &mut self.switches[number] else {
            return;
        };
        let links = &mut self.replies;
        send_from_switch::<OPEN>(switch, links, net, closed, number, stage, index, targets);
        self.sets.note_switch_sent_replies(unit, switch);
    }

    /// The reply of a module goes onto its link, if there is a way.
    fn send_reply_of_module<const SMALL: bool, const OPEN: bool>(
        &mut self,
        closed: &UnitSet,
        unit: UnitNumber,
        module_number: u32,
    )
        requires small { SMALL ≡ true → IsSmall self.old.stages }
        requires open { OPEN ≡ true → HasNoneFrom closed.now 0 }
        requires is { IsModule self.old.stages unit module_number }
        ensures { self.new ≡ module_sends_reply closed.now module_number self.old }
    {
        let net = self.net;
        // for the prover: a network has 1 to `MOST_STAGES` stages
        let _stages = net.stages();
        let Some(memory_module) = &mut self.modules[module_number as usize] else {
            return;
        };
        let target = module_target::<SMALL>(net, module_number);
        let out = modules::send_reply_if(memory_module, OPEN || !closed.has(target));
        send_from_end(&mut self.replies, net, module_number, target, out);
        self.sets.note_module_sent_reply(unit, memory_module);
    }
}

/// A visit in which replies leave a unit. `closed` are the switches without room for replies. Where
/// all are `OPEN`, there are none.
#[derive(Clone, Copy, Drop)]
struct SendReplies<'a, const SMALL: bool, const OPEN: bool> {
    closed: &'a UnitSet,
}

#[tactic(auto, using(crate::proofs::Visited::sends_no_reply))]
impl<const SMALL: bool, const OPEN: bool> Visit<Block> for SendReplies<'_, SMALL, OPEN> {
    ghost can_visit = { λ v n b. (SMALL ≡ true → IsSmall b.stages) ×
        (OPEN ≡ true → HasNoneFrom v.closed.now 0) };

    ghost visited = { λ v n b. sends_replies v.closed.now n b };

    ghost is_idle = { λ v n b. HoldsNoReply n b };

    #[inline(always)]
    fn units<'t>(&self, block: &'t Block) -> &'t UnitSet {
        &block.sets.holds_replies
    }

    #[inline(always)]
    fn visit(&self, block: &mut Block, unit: UnitNumber) {
        match block.unit(unit.number()) {
            Unit::Switch { stage, index } => {
                block.send_replies_of_switch::<SMALL, OPEN>(self.closed, unit, stage, index);
            }
            Unit::Module(number) => {
                block.send_reply_of_module::<SMALL, OPEN>(self.closed, unit, number);
            }
            Unit::Element(_) | Unit::Nothing => {}
        }
    }
}
