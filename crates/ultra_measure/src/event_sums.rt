//! How much of what happened in a cycle, and the sums over cycles.

ghost use Rattle.std.specs.Prelude.{◌≡◌, ℕ, List, ◌+◌, ◌-◌, ◌^◌, ◌<◌, ◌≤◌, ◌==◌, ◌&&◌, ◌||◌, length, nat_lt, slice_index};
ghost use Rattle.ultra_isa.specs.declared.Instr.{Instr as InstrOf};
ghost use Rattle.ultra_model.specs.{Machine.{Settings, size}, Balance.weight};
ghost use Rattle.ultra_measure.specs.EventKinds.{is_issue, is_delivery, is_delivery_to, is_act, is_act_of, is_combination, is_combination_in};
ghost use Rattle.ultra_topology.specs.Set.{has_bit};
ghost use Rattle.ultra_measure.specs.{ElementStates.AreAnswered, Counts.{AreWithEvents, CanTake}, Kept.{AreEventSums, IsAfterCycle}};

use crate::pe_set::PeSet;
use ultra_block::Blocks;
use ultra_msg::Event;
use ultra_route::Net;

/// Adds one to the count at a place, if there is a count at that place.
fn count_at<const N: usize>(counts: &mut [u64; N], place: u32)
    requires { (k : ℕ) → k < N → slice_index counts.old k + 1 < 2 ^ 64 }
    ensures { (k : ℕ) → k < N → slice_index counts.new k ≡
        slice_index counts.old k + weight (place == k) }
{
    let place = place as usize;
    if place < N {
        counts[place] += 1;
    }
}

/// Sums of what happened, over cycles.
#[derive(Clone, Copy, Drop)]
pub(crate) struct EventSums {
    /// Issues.
    pub(crate) issued: u64,
    /// Deliveries.
    pub(crate) answered: u64,
    /// Servings.
    pub(crate) acts: u64,
    /// Combinations.
    pub(crate) combined: u64,
    /// Faults.
    pub(crate) faults: u64,
    /// Combinations, by stage.
    pub(crate) combined_in: [u64; 6],
    /// Servings, by module.
    pub(crate) acts_of: [u64; 64],
}

impl EventSums {
    /// The sums over no cycles: all are 0.
    pub(crate) fn new() -> EventSums
        ensures { (c : Settings) (program : List InstrOf) (from : ℕ) →
            AreEventSums c program from from result }
    {
        EventSums {
            issued: 0,
            answered: 0,
            acts: 0,
            combined: 0,
            faults: 0,
            combined_in: [0; 6],
            acts_of: [0; 64],
        }
    }

    /// Adds cycle `cycle` to the sums, which began with cycle `from`. Gives the processing elements
    /// to which replies came.
    pub(crate) fn note_cycle(&mut self, blocks: &Blocks, net: Net, from: u32, cycle: u32) -> PeSet
        requires one { blocks.now.count ≡ 1 }
        requires net { net ≡ blocks.now.config.stages }
        requires few { length blocks.now.machine.events < 2 ^ 32 }
        requires few_stops { length blocks.now.machine.stops < 2 ^ 32 }
        requires run { IsAfterCycle cycle blocks.now }
        requires order { from ≤ cycle }
        requires kept { AreEventSums blocks.now.config blocks.now.program from cycle self.old }
        ensures kept { AreEventSums blocks.now.config blocks.now.program from (cycle + 1) self.new }
        ensures answered { AreAnswered (size blocks.now.config) blocks.now.machine.events result }
    {
        let faults = blocks.stops_of_one().len();
        let answered = self.add_events(net, blocks.events_of_one());
        self.faults += faults as u64;
        answered
    }

    /// Events come to the sums, each at once to its own: most sums have none in a cycle. Gives the
    /// processing elements to which replies came.
    fn add_events(&mut self, net: Net, events: &[Event]) -> PeSet
        requires few { length events.now < 2 ^ 32 }
        requires room { CanTake (2 ^ 32) self.old }
        ensures sums { AreWithEvents events.now self.old self.new }
        ensures answered { AreAnswered (2 ^ net) events.now result }
    {
        let mut answered = PeSet::empty();
        for event in events {
            self.add(event, net, &mut answered);
        }
        answered
    }

    /// One event more. Puts the processing element of a delivery into a set, if the machine has it.
    fn add(&mut self, event: &Event, net: Net, elements: &mut PeSet)
        requires { CanTake 1 self.old }
        ensures issued { self.new.issued ≡ self.old.issued + weight (is_issue event.now) }
        ensures answered { self.new.answered ≡ self.old.answered + weight (is_delivery event.now) }
        ensures acts { self.new.acts ≡ self.old.acts + weight (is_act event.now) }
        ensures combined { self.new.combined ≡
            self.old.combined + weight (is_combination event.now) }
        ensures faults { self.new.faults ≡ self.old.faults }
        ensures combined_in { (s : ℕ) → s < 6 → slice_index self.new.combined_in s ≡
            slice_index self.old.combined_in s + weight (is_combination_in s event.now) }
        ensures acts_of { (k : ℕ) → k < 64 → slice_index self.new.acts_of k ≡
            slice_index self.old.acts_of k + weight (is_act_of k event.now) }
        ensures elements { (p : ℕ) → has_bit elements.new p ≡
            has_bit elements.old p || (nat_lt p (2 ^ net) && is_delivery_to p event.now) }
    {
        match *event {
            Event::Delivered(reply) => {
                self.answered += 1;
                add_element(elements, net, reply.pe);
            }
            Event::Served { module, .. } => {
                self.acts += 1;
                count_at(&mut self.acts_of, module);
            }
            Event::Combined { stage, .. } => {
                self.combined += 1;
                count_at(&mut self.combined_in, stage);
            }
            Event::Issued { .. } => self.issued += 1,
        }
    }
}

/// Puts a processing element into a set, if the machine has it.
#[inline(always)]
fn add_element(elements: &mut PeSet, net: Net, pe: u32)
    ensures { (p : ℕ) → has_bit elements.new p ≡
        has_bit elements.old p || (nat_lt p (2 ^ net) && (pe == p)) }
{
    if pe < net.size() {
        elements.insert(pe);
    }
}
