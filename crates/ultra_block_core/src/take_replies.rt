//! The half of a cycle in which replies come to switches and processing elements.

ghost use Rattle.std.specs.Prelude.{◌≡◌, ℕ, ◌<◌, true, length};
ghost use Rattle.ultra_block_core.specs.Prelude.{IsSmall, CanTakeReplies, after_replies, AreInlets, reply_inlets, on_both, without_both, switch_count, after_units, IsElement, IsSwitch};
ghost use Rattle.ultra_block_core.specs.{BlockState.most_events, Holding.GetsNoReply};
ghost use Rattle.ultra_block_core.specs.RepliesTaken.{CanTakeRepliesAt, ElementCanTakeReply, SwitchCanTakeReplies, element_takes_reply, switch_takes_replies, takes_replies};
ghost use Rattle.ultra_topology.specs.declared.TheConstants.{MOST_UNITS};

use crate::block::Block;
use ultra_msg::{Event, ReplyPacket};
use ultra_route::Net;
use ultra_switch::{Ports, Switch};
use ultra_topology::{Links, Unit, UnitNumber, UnitSet, Visit, take_for_element, visit_all};
use ultra_unit_steps::append;
use ultra_unit_steps::replies::take_reply;

/// What comes to a switch by its links `inlets` goes through its wait buffers into its queues. Port
/// 0 finishes before port 1 starts.
#[inline(always)]
#[tactic(auto, using(ultra_topology::proofs::Marks::emptied, ultra_topology::proofs::Marks::emptied_first))]
fn take_into_switch(
    switch: &mut Switch,
    links: &mut Links<ReplyPacket>,
    net: Net,
    unit: UnitNumber,
    stage: u32,
    inlets: Ports<usize>,
)
    requires switch { unit < switch_count net }
    requires stage { stage < net }
    requires inlets { AreInlets (reply_inlets net) net unit inlets }
    requires stages { links.old.stages ≡ net }
    requires room { CanTakeReplies switch.old (on_both links.old.table inlets) }
    ensures switch { switch.new ≡
        after_replies net stage switch.old (on_both links.old.table inlets) }
    ensures links { links.new ≡ record links.old {
      table = without_both links.old.table inlets;
      targets = links.new.targets;
    } }
{
    let Switch { to_mm, to_pe } = switch;
    let zero = links.take(inlets.zero);
    take_reply(&mut to_mm.zero, to_pe, net, stage, zero);
    let one = links.take(inlets.one);
    take_reply(&mut to_mm.one, to_pe, net, stage, one);
    links.clear(unit);
}

impl Block {
    /// The second half of a cycle: the replies on links that lead to units here are split and go on
    /// in switches, and are delivered to processing elements.
    ///
    /// What has come must have room. The cell of a delivered reply must be open, and its request
    /// must have left the list of the interface.
    #[inline(always)]
    pub fn take_replies(&mut self)
        requires { (k : ℕ) → k < MOST_UNITS → CanTakeRepliesAt k self.old }
        ensures { self.new ≡ after_units takes_replies MOST_UNITS self.old }
    {
        self.take_replies_sized::<false>();
    }

    /// The same half. Its code is compiled once for `SMALL` machines, and once for all others.
    #[inline(always)]
    #[tactic(auto, using(ultra_topology::proofs::Readers::few_units, std::proofs::lemmas::Bool::Decides::nat_tests))]
    pub fn take_replies_sized<const SMALL: bool>(&mut self)
        requires small { SMALL ≡ true → IsSmall self.old.stages }
        requires can { (k : ℕ) → k < MOST_UNITS → CanTakeRepliesAt k self.old }
        ensures { self.new ≡ after_units takes_replies MOST_UNITS self.old }
    {
        // for the prover: a network has 1 to `MOST_STAGES` stages
        let _stages = self.net.stages();
        visit_all::<SMALL, Block, TakeReplies<SMALL>>(&TakeReplies, self);
    }

    /// What comes to a switch goes through its wait buffers into its queues.
    fn take_replies_of_switch<const SMALL: bool>(
        &mut self,
        unit: UnitNumber,
        stage: u32,
        index: u32,
    )
        requires is { IsSwitch self.old.stages unit stage index }
        requires room { SwitchCanTakeReplies unit stage index self.old }
        ensures { self.new ≡ switch_takes_replies unit stage index self.old }
    {
        let net = self.net;
        let inlets = self.wiring.reply_links(unit);
        let number = unit.number();
        let Some(switch) = &mut self.switches[number] else {
            return;
        };
        take_into_switch(switch, &mut self.replies, net, unit, stage, inlets);
        self.sets.note_switch_took_replies(unit, switch);
    }

    /// What comes to a processing element is delivered.
    fn take_reply_of_element<const SMALL: bool>(&mut self, unit: UnitNumber, pe: u32)
        requires is { IsElement self.old.stages unit pe }
        requires open { ElementCanTakeReply pe self.old }
        requires room { length self.old.events < most_events }
        ensures { self.new ≡ element_takes_reply pe self.old }
    {
        let net = self.net;
        let Some(element) = &mut self.elements[pe as usize] else {
            return;
        };
        let incoming = take_for_element(&mut self.replies, net, unit, pe);
        if let Some(packet) = incoming {
            let reply = packet.message();
            element.deliver(reply);
            self.awake.insert(unit);
            append(&mut self.events, Event::Delivered(reply));
        }
    }
}

/// A visit in which replies come to a unit.
#[derive(Clone, Copy, Drop)]
struct TakeReplies<const SMALL: bool>;

#[tactic(auto, using(crate::proofs::Visited::switch_took_replies, crate::proofs::Visited::takes_no_reply, crate::proofs::Visited::no_reply_left))]
impl<const SMALL: bool> Visit<Block> for TakeReplies<SMALL> {
    ghost can_visit = { λ v n b. CanTakeRepliesAt n b };

    ghost visited = { λ v n b. takes_replies n b };

    ghost is_idle = { λ v n b. GetsNoReply n b };

    #[inline(always)]
    fn units<'t>(&self, block: &'t Block) -> &'t UnitSet {
        block.replies.targets()
    }

    #[inline(always)]
    fn visit(&self, block: &mut Block, unit: UnitNumber) {
        match block.unit(unit.number()) {
            Unit::Switch { stage, index } => block.take_replies_of_switch::<SMALL>(
                unit, stage, index,
            ),
            Unit::Element(pe) => block.take_reply_of_element::<SMALL>(unit, pe),
            Unit::Module(_) | Unit::Nothing => {}
        }
    }
}
