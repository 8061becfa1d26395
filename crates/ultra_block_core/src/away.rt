//! Messages that lead from one block to another.

ghost use Rattle.std.specs.Prelude.{◌≡◌, ◌<◌, Some, IfNone, IfSome, length};
ghost use Rattle.ultra_block_core.specs.Prelude.{link_count, put_on_both, reply_inlets, request_inlets, taken_by_turns, without_both, HasNoneFrom, IsFirstFrom};
ghost use Rattle.ultra_block_core.specs.Away.{AllStayWithin, IsNextAway};
ghost use Rattle.ultra_topology.specs.declared.TheConstants.{MOST_UNITS};

use crate::block::Block;
use ultra_msg::{ReplyPacket, RequestPacket};
use ultra_switch::Ports;
use ultra_topology::UnitSet;

/// The first unit of a set from `from` on. Where there is none at all, it takes no more than one
/// look at the set.
#[inline(always)]
fn next_of(away: UnitSet, from: usize) -> Option<usize>
    ensures some { IfSome result (λ k. IsFirstFrom away from k) }
    ensures none { IfNone result (HasNoneFrom away from) }
{
    if away.is_empty() {
        return None;
    }
    away.next(from)
}

impl Block {
    /// The first unit from `from` on that isn't in this block and to which replies may lead from
    /// it.
    #[inline(always)]
    #[tactic(auto, using(crate::proofs::Known::next_away))]
    pub fn next_reply_target_elsewhere(&self, from: usize) -> Option<usize>
        ensures some { IfSome result (λ k.
            IsNextAway self.now.replies (reply_inlets self.now.stages) self.now from k) }
        ensures none { IfNone result (AllStayWithin self.now.replies
            (reply_inlets self.now.stages) self.now from MOST_UNITS) }
    {
        next_of(self.replies.targets().without(&self.sets.here), from)
    }

    /// Takes the replies that lead to a unit elsewhere. `inlets` are the links by which they do.
    pub fn remove_replies_to(
        &mut self,
        unit: usize,
        inlets: Ports<usize>,
    ) -> Ports<Option<ReplyPacket>>
        requires links { reply_inlets self.old.stages unit ≡ Some inlets }
        requires small { unit < MOST_UNITS }
        ensures value { result ≡ taken_by_turns self.old.replies inlets }
        ensures left { self.new ≡
            record self.old { replies = without_both self.old.replies inlets } }
    {
        // for the prover: a network has 1 to `MOST_STAGES` stages
        let _stages = self.net.stages();
        self.replies.remove_messages_to(unit, inlets)
    }

    /// Puts replies on the links by which they come to a unit.
    pub fn add_replies_to(
        &mut self,
        unit: usize,
        inlets: Ports<usize>,
        replies: Ports<Option<ReplyPacket>>,
    )
        requires links { reply_inlets self.old.stages unit ≡ Some inlets }
        requires small { unit < MOST_UNITS }
        ensures received { self.new ≡
            record self.old { replies = put_on_both self.old.replies inlets replies } }
        ensures links { length self.old.replies ≡ link_count self.old.stages }
    {
        // for the prover: a network has 1 to `MOST_STAGES` stages
        let _stages = self.net.stages();
        self.replies.add_messages_to(unit, inlets, replies);
    }

    /// The first unit from `from` on that isn't in this block and to which requests may lead from
    /// it.
    #[inline(always)]
    #[tactic(auto, using(crate::proofs::Known::next_away))]
    pub fn next_request_target_elsewhere(&self, from: usize) -> Option<usize>
        ensures some { IfSome result (λ k.
            IsNextAway self.now.requests (request_inlets self.now.stages) self.now from k) }
        ensures none { IfNone result (AllStayWithin self.now.requests
            (request_inlets self.now.stages) self.now from MOST_UNITS) }
    {
        next_of(self.requests.targets().without(&self.sets.here), from)
    }

    /// Takes the requests that lead to a unit elsewhere. `inlets` are the links by which they do.
    pub fn remove_requests_to(
        &mut self,
        unit: usize,
        inlets: Ports<usize>,
    ) -> Ports<Option<RequestPacket>>
        requires links { request_inlets self.old.stages unit ≡ Some inlets }
        requires small { unit < MOST_UNITS }
        ensures value { result ≡ taken_by_turns self.old.requests inlets }
        ensures left { self.new ≡
            record self.old { requests = without_both self.old.requests inlets } }
    {
        // for the prover: a network has 1 to `MOST_STAGES` stages
        let _stages = self.net.stages();
        self.requests.remove_messages_to(unit, inlets)
    }

    /// Puts requests on the links by which they come to a unit.
    pub fn add_requests_to(
        &mut self,
        unit: usize,
        inlets: Ports<usize>,
        requests: Ports<Option<RequestPacket>>,
    )
        requires links { request_inlets self.old.stages unit ≡ Some inlets }
        requires small { unit < MOST_UNITS }
        ensures received { self.new ≡
            record self.old { requests = put_on_both self.old.requests inlets requests } }
        ensures links { length self.old.requests ≡ link_count self.old.stages }
    {
        // for the prover: a network has 1 to `MOST_STAGES` stages
        let _stages = self.net.stages();
        self.requests.add_messages_to(unit, inlets, requests);
    }
}
