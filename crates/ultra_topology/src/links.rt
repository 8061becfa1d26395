//! The links of one kind of message, and the units to which messages lead.

ghost use Rattle.std.specs.Prelude.{◌≡◌, ℕ, ◌<◌, true, false, Option, IfOk, None, is_some, length, replicate, slice_set};
ghost use Rattle.ultra_switch.specs.declared.Ports.{Ports};
ghost use Rattle.ultra_topology.specs.Inlets.{AreEmpty, AreInlets, AreTargets, LeadsToNoOther, link_count, put_on_both, reply_inlets, request_inlets, taken_by_turns};
ghost use Rattle.ultra_topology.specs.{Links.{LinksState, put_on}, Set.{AreSameBut, HasNoneFrom, has_unit}, Marks.{on_link, ports_in_turn, without_both}, declared.TheConstants.MOST_UNITS};

use crate::unit_set::{UnitNumber, UnitSet};
use std::alloc::{AllocError, Global};
use std::marker::Model;
use ultra_msg::{ReplyPacket, RequestPacket};
use ultra_route::Net;
use ultra_switch::{Ports, Slot};

/// A kind of message. Each of its links leads to one unit.
pub trait Message: Copy + Default {
    /// By the number of stages and the number of a unit: the links by which messages of this kind
    /// come to the unit, if any can.
    ghost inlets: { ℕ → ℕ → Option (Ports ℕ) };
}

impl Message for ReplyPacket {
    ghost inlets = { reply_inlets };
}

impl Message for RequestPacket {
    ghost inlets = { request_inlets };
}

/// The links of a network by their numbers, each with the message on it, and the units to which
/// messages lead.
#[derive(Drop)]
pub struct Links<M: Message> {
    net: Net,
    /// By the link's number, what is on it.
    table: Vec<Slot<M>>,
    /// A superset of the units to which a message leads.
    targets: UnitSet,
}

impl<M: Message> Model for Links<M> {
    ghost Value = { LinksState M };

    ghost view = { λ l. record { stages = l.net; table = l.table.items; targets = l.targets } };

    ghost invariant = { λ l. AreTargets (M.inlets l.net) l.net l.table.items l.targets };
}

/// The links at two ports in order: that at port 0 first if `zero_first`, otherwise that at port 1.
#[inline(always)]
pub fn ports_in_turn(links: Ports<usize>, zero_first: bool) -> (usize, usize)
    ensures { result ≡ ports_in_turn zero_first links }
{
    if zero_first {
        (links.zero, links.one)
    } else {
        (links.one, links.zero)
    }
}

impl<M: Message> Links<M> {
    /// Links with nothing on them. An error says that memory was refused.
    pub fn empty(alloc: Global, net: Net) -> Result<Links<M>, AllocError>
        ensures stages { IfOk result (λ l. l.stages ≡ net) }
        ensures table { IfOk result (λ l. l.table ≡ replicate (link_count net) None) }
        ensures targets { IfOk result (λ l. HasNoneFrom l.targets 0) }
    {
        let count = (net.stages() as usize + 1) * net.size() as usize;
        let mut table = Vec::with_capacity(alloc, count)?;
        for link in 0..count {
            let _ = link;
            table.push(Slot::empty())?;
        }
        Ok(Links {
            net,
            table,
            targets: UnitSet::empty(),
        })
    }

    /// A superset of the units to which a message leads.
    #[inline(always)]
    pub fn targets(&self) -> &UnitSet
        ensures value { result.now ≡ self.now.targets }
        ensures right { AreTargets (M.inlets self.now.stages) self.now.stages self.now.table
            result.now }
    {
        &self.targets
    }

    /// Puts a message, if there is one, on a link, which leads to no unit but `target`.
    #[inline(always)]
    pub fn put(&mut self, link: usize, target: UnitNumber, message: Option<M>)
        requires leads { LeadsToNoOther (M.inlets self.old.stages) self.old.stages link target }
        ensures table { self.new ≡ record self.old {
          table = put_on self.old.table link message;
          targets = self.new.targets;
        } }
        ensures there { is_some message ≡ true → has_unit self.new.targets target ≡ true }
        ensures kept { (k : ℕ) → has_unit self.old.targets k ≡ true →
            has_unit self.new.targets k ≡ true }
        ensures others { AreSameBut target self.old.targets self.new.targets }
    {
        let Some(message) = message else {
            return;
        };
        self.table[link].fill(message);
        self.targets.insert(target);
    }

    /// Takes what is on a link.
    #[inline(always)]
    pub fn take(&mut self, link: usize) -> Option<M>
        requires { link < link_count self.old.stages }
        ensures value { result ≡ on_link self.old.table link }
        ensures rest { self.new ≡ record self.old { table = slice_set self.old.table link None } }
    {
        self.table[link].take()
    }

    /// All that led to a unit has been taken.
    #[inline(always)]
    pub fn clear(&mut self, unit: UnitNumber)
        requires none { AreEmpty self.old.table (M.inlets self.old.stages unit) }
        ensures rest { self.new ≡ record self.old { targets = self.new.targets } }
        ensures others { AreSameBut unit self.old.targets self.new.targets }
        ensures gone { has_unit self.new.targets unit ≡ false }
    {
        self.targets.remove(unit);
    }

    /// Takes what is on the links that lead to a unit.
    pub fn remove_messages_to(&mut self, unit: usize, inlets: Ports<usize>) -> Ports<Option<M>>
        requires small { unit < MOST_UNITS }
        requires inlets { AreInlets (M.inlets self.old.stages) self.old.stages unit inlets }
        ensures value { result ≡ taken_by_turns self.old.table inlets }
        ensures rest { self.new ≡ record self.old {
          table = without_both self.old.table inlets;
          targets = self.new.targets;
        } }
        ensures others { AreSameBut unit self.old.targets self.new.targets }
        ensures gone { has_unit self.new.targets unit ≡ false }
    {
        let zero = self.take(inlets.zero);
        let one = self.take(inlets.one);
        self.clear(UnitNumber::of(unit));
        Ports { zero, one }
    }

    /// Puts messages on the links that lead to a unit.
    #[inline(always)]
    pub fn add_messages_to(&mut self, unit: usize, inlets: Ports<usize>, messages: Ports<Option<M>>)
        requires small { unit < MOST_UNITS }
        requires inlets { AreInlets (M.inlets self.old.stages) self.old.stages unit inlets }
        ensures received { self.new ≡ record self.old {
          table = put_on_both self.old.table inlets messages;
          targets = self.new.targets;
        } }
        ensures others { AreSameBut unit self.old.targets self.new.targets }
        ensures count { length self.old.table ≡ link_count self.old.stages }
    {
        // for the prover: the table has an entry for each link
        let _count = &self.table;
        let target = UnitNumber::of(unit);
        self.put(inlets.zero, target, messages.zero);
        self.put(inlets.one, target, messages.one);
    }
}
