//! The numbers of a window.

ghost use Rattle.std.specs.Prelude.{◌≡◌, ℕ, List, ◌+◌, ◌^◌, ◌≤◌};
ghost use Rattle.ultra_isa.specs.declared.Instr.{Instr as InstrOf};
ghost use Rattle.ultra_model.specs.Machine.{Settings};
ghost use Rattle.ultra_latency.specs.Open.{IsOpenTable};
ghost use Rattle.ultra_measure.specs.{Kept.{AreLatencies, IsAfterCycle, IsKept}, Nets.IsNetOf};

use crate::depths::Depths;
use crate::elements::ElementSums;
use crate::event_sums::EventSums;
use crate::registers::modules_that_hold;
use ultra_block::{Blocks, Held};
use ultra_latency::{Latencies, OpenTable, law_of_few_events, law_of_open_requests};
use ultra_route::Net;

/// The numbers of a window: the cycles from one on.
#[derive(Drop)]
pub(crate) struct Window {
    /// Its first cycle.
    pub(crate) from: u32,
    /// What happened.
    pub(crate) events: EventSums,
    /// The latencies of the deliveries.
    pub(crate) latencies: Latencies,
    /// What the processing elements did.
    pub(crate) elements: ElementSums,
    /// Requests that waited to be served by modules.
    pub(crate) inputs: u64,
    /// Replies that waited to leave modules.
    pub(crate) outputs: u64,
    /// What queues toward memory held.
    pub(crate) requests: Depths,
    /// What queues toward the processing elements held.
    pub(crate) replies: Depths,
    /// What wait buffers held.
    pub(crate) records: Depths,
}

impl Window {
    /// A window that begins with a cycle, before it, in a machine of this network.
    pub(crate) fn new(net: Net, from: u32) -> Window
        ensures from { result.from ≡ from }
        ensures kept { (c : Settings) (program : List InstrOf) → c.stages ≡ net →
            IsKept c program from from result }
    {
        let events = EventSums::new();
        let latencies = Latencies::new();
        let elements = ElementSums::new(net);
        let depths = Depths::new();
        Window {
            from,
            events,
            latencies,
            elements,
            inputs: 0,
            outputs: 0,
            requests: depths,
            replies: depths,
            records: depths,
        }
    }

    /// A cycle was made: the machine is now as after it. `table` has the open requests, which go on
    /// with it.
    pub(crate) fn note_cycle<const SMALL: bool>(
        &mut self,
        table: &mut OpenTable,
        blocks: &Blocks,
        net: Net,
        cycle: u32,
    )
        requires one { blocks.now.count ≡ 1 }
        requires net { IsNetOf SMALL net blocks.now.config }
        requires run { IsAfterCycle cycle blocks.now }
        requires order { self.old.from ≤ cycle }
        requires early { cycle ≤ 2 ^ 20 }
        requires kept { IsKept blocks.now.config blocks.now.program self.old.from cycle self.old }
        requires table { IsOpenTable blocks.now.config blocks.now.program cycle table.old }
        ensures from { self.new.from ≡ self.old.from }
        ensures kept { IsKept blocks.now.config blocks.now.program self.old.from (cycle + 1)
            self.new }
        ensures table { IsOpenTable blocks.now.config blocks.now.program (cycle + 1) table.new }
    {
        // for the prover: how many events a cycle has
        law_of_few_events(blocks.config());
        let from = self.from;
        let answered = self.events.note_cycle(blocks, net, from, cycle);
        note_latencies(&mut self.latencies, table, blocks, from, cycle);
        self.elements
            .note_cycle::<SMALL>(blocks, net, from, cycle, answered);
        let inputs = modules_that_hold::<SMALL>(blocks, net, Held::Request);
        self.inputs += u64::from(inputs);
        let outputs = modules_that_hold::<SMALL>(blocks, net, Held::Reply);
        self.outputs += u64::from(outputs);
        self.requests
            .note_cycle::<SMALL>(blocks, net, Held::Request, from, cycle);
        self.replies
            .note_cycle::<SMALL>(blocks, net, Held::Reply, from, cycle);
        self.records
            .note_cycle::<SMALL>(blocks, net, Held::Record, from, cycle);
    }
}

/// The latencies of a cycle's deliveries come to those of the window, and the open requests go on
/// with the cycle.
#[inline(always)]
fn note_latencies(
    latencies: &mut Latencies,
    table: &mut OpenTable,
    blocks: &Blocks,
    from: u32,
    cycle: u32,
)
    requires one { blocks.now.count ≡ 1 }
    requires run { IsAfterCycle cycle blocks.now }
    requires order { from ≤ cycle }
    requires early { cycle ≤ 2 ^ 20 }
    requires kept { AreLatencies blocks.now.config blocks.now.program from cycle latencies.old }
    requires table { IsOpenTable blocks.now.config blocks.now.program cycle table.old }
    ensures kept { AreLatencies blocks.now.config blocks.now.program from (cycle + 1)
        latencies.new }
    ensures table { IsOpenTable blocks.now.config blocks.now.program (cycle + 1) table.new }
{
    // for the prover: what the events make of the open requests, and the latencies that they show
    law_of_open_requests(blocks.config());
    // and how many events a cycle has
    law_of_few_events(blocks.config());
    table.note_events(blocks.events_of_one(), cycle, latencies);
}

/// The open requests go on with a cycle that isn't measured.
pub(crate) fn skip_latencies(table: &mut OpenTable, blocks: &Blocks, cycle: u32)
    requires one { blocks.now.count ≡ 1 }
    requires run { IsAfterCycle cycle blocks.now }
    requires early { cycle ≤ 2 ^ 20 }
    requires table { IsOpenTable blocks.now.config blocks.now.program cycle table.old }
    ensures { IsOpenTable blocks.now.config blocks.now.program (cycle + 1) table.new }
{
    let mut latencies = Latencies::new();
    note_latencies(&mut latencies, table, blocks, cycle, cycle);
}
