//! What is counted of the queues, or of the wait buffers, of all ports.

ghost use Rattle.std.specs.Prelude.{◌≡◌, ℕ, ◌+◌, ◌-◌, ◌*◌, ◌^◌, ◌<◌, ◌≤◌, length, max};
ghost use Rattle.ultra_model.specs.Balance.{weight};
ghost use Rattle.ultra_measure.specs.{Held.{AreUnitsWith, held_at}, Nets.IsNetOf};
ghost use Rattle.ultra_statistics.specs.{Kept.{AreCountsWithState, HasCountRoom, HaveCountRoom, counts_of, if_so, with_position, with_state}, Ports.{leaving_at, lacks_room}};

use crate::moves::{reply_leaves, request_leaves};
use ultra_block::{Blocks, Held};
use ultra_holders::switches_of;
use ultra_route::Net;
use ultra_topology::UnitSet;

/// What is counted of a queue, or of a wait buffer.
#[derive(Clone, Copy, Drop)]
pub(crate) struct QueueCounts {
    /// The messages that left it.
    pub(crate) left: u32,
    /// The sum of what it held after each cycle.
    pub(crate) sum: u32,
    /// The most that it held after a cycle.
    pub(crate) most: u32,
    /// After how many cycles it lacked room.
    pub(crate) full: u32,
}

/// Where in a window of cycles a state of a machine is.
#[derive(Clone, Copy, Drop)]
pub(crate) struct Moment {
    /// Whether a cycle of the window ended with it.
    pub(crate) ended: bool,
    /// Whether a cycle of the window begins with it.
    pub(crate) begins: bool,
}

/// Adds a state of a machine to the counts of a kind. `holders` are the units that hold it.
#[inline(always)]
pub(crate) fn add_state<const SMALL: bool>(
    counts: &mut [QueueCounts],
    blocks: &Blocks,
    net: Net,
    held: Held,
    at: Moment,
)
    requires one { blocks.now.count ≡ 1 }
    requires net { IsNetOf SMALL net blocks.now.config }
    requires count { length counts.old ≡ 384 }
    requires room { HaveCountRoom blocks.now.config counts.old }
    ensures { AreCountsWithState blocks.now.config held at blocks.now.machine
        counts.old counts.new }
{
    let holders = blocks.holding_of_one(held);
    for stage in 0..net.stages() {
        add_stage::<SMALL>(counts, blocks, net, held, holders, at, stage);
    }
}

/// The same for the positions of one stage.
#[inline(always)]
fn add_stage<const SMALL: bool>(
    counts: &mut [QueueCounts],
    blocks: &Blocks,
    net: Net,
    held: Held,
    holders: &UnitSet,
    at: Moment,
    stage: u32,
)
    requires one { blocks.now.count ≡ 1 }
    requires net { IsNetOf SMALL net blocks.now.config }
    requires stage { stage < blocks.now.config.stages }
    requires holders { AreUnitsWith blocks.now held holders.now }
    requires count { length counts.old ≡ 384 }
    requires room { (x : ℕ) → x < 2 ^ blocks.now.config.stages →
        HasCountRoom (counts_of counts.old stage x) }
    ensures count { length counts.new ≡ 384 }
    ensures each { (x : ℕ) → x < 2 ^ blocks.now.config.stages → counts_of counts.new stage x ≡
        with_state blocks.now.config held at blocks.now.machine stage x
        (counts_of counts.old stage x) }
    ensures others { (s x : ℕ) → s < stage → x < 64 →
        counts_of counts.new s x ≡ counts_of counts.old s x }
    ensures others_above { (s x : ℕ) → stage < s → x < 64 →
        counts_of counts.new s x ≡ counts_of counts.old s x }
{
    // for the prover: the settings are in their ranges
    let _valid = blocks.config().initial();
    for switch in switches_of::<SMALL>(net, holders, stage) {
        add_switch(counts, blocks, net, held, at, stage, switch);
    }
}

/// The same for both positions of one switch.
#[inline(always)]
fn add_switch(
    counts: &mut [QueueCounts],
    blocks: &Blocks,
    net: Net,
    held: Held,
    at: Moment,
    stage: u32,
    switch: u32,
)
    requires one { blocks.now.count ≡ 1 }
    requires net { net ≡ blocks.now.config.stages }
    requires stage { stage < blocks.now.config.stages }
    requires switch { switch < 2 ^ (blocks.now.config.stages - 1) }
    requires count { length counts.old ≡ 384 }
    requires room { HasCountRoom (counts_of counts.old stage (2 * switch)) }
    requires room_1 { HasCountRoom (counts_of counts.old stage (2 * switch + 1)) }
    ensures { counts.new ≡
        with_position blocks.now.config held at blocks.now.machine stage (2 * switch + 1)
        (with_position blocks.now.config held at blocks.now.machine stage (2 * switch)
        counts.old) }
{
    // for the prover: there are at most 64 positions, two for each switch
    let _size = net.size();
    add_position(counts, blocks, net, held, at, stage, 2 * switch);
    add_position(counts, blocks, net, held, at, stage, 2 * switch + 1);
}

/// The same for one position.
#[inline(always)]
fn add_position(
    counts: &mut [QueueCounts],
    blocks: &Blocks,
    net: Net,
    held: Held,
    at: Moment,
    stage: u32,
    position: u32,
)
    requires one { blocks.now.count ≡ 1 }
    requires net { net ≡ blocks.now.config.stages }
    requires stage { stage < blocks.now.config.stages }
    requires position { position < 2 ^ blocks.now.config.stages }
    requires count { length counts.old ≡ 384 }
    requires room { HasCountRoom (counts_of counts.old stage position) }
    ensures { counts.new ≡
        with_position blocks.now.config held at blocks.now.machine stage position counts.old }
{
    // for the prover: at most 6 stages of at most 64 positions
    let _stages = net.stages();
    let _size = net.size();
    let seen = seen_at(blocks, net, held, stage, position);
    let place = (stage * 64 + position) as usize;
    counts[place] = counts[place].with(seen, at);
}

/// What is seen of a queue, or of a wait buffer.
#[derive(Clone, Copy, Drop)]
struct Seen {
    /// What it holds.
    held: u32,
    /// Whether it lacks room.
    lacks_room: bool,
    /// Whether a message leaves it in the next cycle.
    leaves: bool,
}

impl QueueCounts {
    /// The counts with what is seen in a state of the machine.
    #[inline(always)]
    fn with(self, seen: Seen, at: Moment) -> QueueCounts
        requires room { HasCountRoom self }
        requires few { seen.held ≤ 64 }
        ensures { result ≡ record {
          left = self.left + if_so at.begins (weight seen.leaves);
          sum = self.sum + if_so at.ended seen.held;
          most = max self.most (if_so at.ended seen.held);
          full = self.full + if_so at.ended (weight seen.lacks_room);
        } }
    {
        let held = if at.ended { seen.held } else { 0 };
        QueueCounts {
            left: self.left + u32::from(at.begins && seen.leaves),
            sum: self.sum + held,
            most: self.most.max(held),
            full: self.full + u32::from(at.ended && seen.lacks_room),
        }
    }
}

/// What is seen of the queue, or the wait buffer, at a position of a stage.
#[inline(always)]
fn seen_at(blocks: &Blocks, net: Net, held: Held, stage: u32, position: u32) -> Seen
    requires one { blocks.now.count ≡ 1 }
    requires net { net ≡ blocks.now.config.stages }
    requires stage { stage < blocks.now.config.stages }
    requires position { position < 2 ^ blocks.now.config.stages }
    ensures held { result.held ≡ held_at held stage blocks.now.machine position }
    ensures few { result.held ≤ 64 }
    ensures room { weight result.lacks_room ≡
        lacks_room blocks.now.config held stage blocks.now.machine position }
    ensures leaves { weight result.leaves ≡
        leaving_at blocks.now.config held stage blocks.now.machine position }
{
    match held {
        Held::Request => requests_at(blocks, net, stage, position),
        Held::Record => records_at(blocks, net, stage, position),
        Held::Reply => replies_at(blocks, net, stage, position),
    }
}

/// What is seen of a queue toward memory.
#[inline(always)]
fn requests_at(blocks: &Blocks, net: Net, stage: u32, position: u32) -> Seen
    requires one { blocks.now.count ≡ 1 }
    requires net { net ≡ blocks.now.config.stages }
    requires stage { stage < blocks.now.config.stages }
    requires position { position < 2 ^ blocks.now.config.stages }
    ensures held { result.held ≡ held_at Held.Request stage blocks.now.machine position }
    ensures few { result.held ≤ 64 }
    ensures room { weight result.lacks_room ≡
        lacks_room blocks.now.config Held.Request stage blocks.now.machine position }
    ensures leaves { weight result.leaves ≡
        leaving_at blocks.now.config Held.Request stage blocks.now.machine position }
{
    // for the prover: a queue has at most 32 places
    let _most = blocks.config().request_places();
    let lane = blocks.lane_of_one(net, stage, position);
    Seen {
        held: lane.len() as u32,
        lacks_room: !lane.has_room(),
        leaves: request_leaves(blocks, net, stage, position),
    }
}

/// What is seen of a wait buffer.
#[inline(always)]
fn records_at(blocks: &Blocks, net: Net, stage: u32, position: u32) -> Seen
    requires one { blocks.now.count ≡ 1 }
    requires net { net ≡ blocks.now.config.stages }
    requires stage { stage < blocks.now.config.stages }
    requires position { position < 2 ^ blocks.now.config.stages }
    ensures held { result.held ≡ held_at Held.Record stage blocks.now.machine position }
    ensures few { result.held ≤ 64 }
    ensures room { weight result.lacks_room ≡
        lacks_room blocks.now.config Held.Record stage blocks.now.machine position }
    ensures leaves { weight result.leaves ≡ 0 }
{
    let places = blocks.config().wait_places();
    let held = blocks.lane_of_one(net, stage, position).record_count() as u32;
    Seen {
        held,
        lacks_room: places > 0 && held == places,
        leaves: false,
    }
}

/// What is seen of a queue toward the processing elements.
#[inline(always)]
fn replies_at(blocks: &Blocks, net: Net, stage: u32, position: u32) -> Seen
    requires one { blocks.now.count ≡ 1 }
    requires net { net ≡ blocks.now.config.stages }
    requires stage { stage < blocks.now.config.stages }
    requires position { position < 2 ^ blocks.now.config.stages }
    ensures held { result.held ≡ held_at Held.Reply stage blocks.now.machine position }
    ensures few { result.held ≤ 64 }
    ensures room { weight result.lacks_room ≡
        lacks_room blocks.now.config Held.Reply stage blocks.now.machine position }
    ensures leaves { weight result.leaves ≡
        leaving_at blocks.now.config Held.Reply stage blocks.now.machine position }
{
    // for the prover: a queue has at most 64 places
    let _most = blocks.config().reply_places();
    let queue = blocks.reply_queue_of_one(net, stage, position);
    Seen {
        held: queue.len() as u32,
        lacks_room: !queue.has_room(),
        leaves: reply_leaves(blocks, net, stage, position),
    }
}
