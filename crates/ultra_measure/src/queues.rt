//! How much the queues and wait buffers of a stage hold.

ghost use Rattle.std.specs.Prelude.{◌≡◌, ◌+◌, ◌-◌, ◌*◌, ◌^◌, ◌<◌, ◌≤◌, max, true};
ghost use Rattle.ultra_model.specs.{Machine.size, Balance.total};
ghost use Rattle.ultra_measure.specs.{Held.{AreUnitsWith, full_at, held_at, is_full, wait_places_of}, Nets.IsNetOf, Window.greatest};

use ultra_block::{Blocks, Held};
use ultra_holders::switches_of;
use ultra_route::Net;
use ultra_topology::UnitSet;

/// How much all queues, or wait buffers, of a stage hold of a kind, the most that one holds, and
/// how many wait buffers are full.
#[derive(Clone, Copy, Drop)]
pub(crate) struct Depth {
    /// All together.
    pub(crate) sum: u32,
    /// The most.
    pub(crate) most: u32,
    /// The wait buffers that are full.
    pub(crate) full: u32,
}

/// How much of a kind a stage holds. `holders` are the units that hold it.
#[inline(always)]
pub(crate) fn depth_of_stage<const SMALL: bool>(
    blocks: &Blocks,
    net: Net,
    held: Held,
    holders: &UnitSet,
    stage: u32,
) -> Depth
    requires one { blocks.now.count ≡ 1 }
    requires net { IsNetOf SMALL net blocks.now.config }
    requires stage { stage < blocks.now.config.stages }
    requires holders { AreUnitsWith blocks.now held holders.now }
    ensures sum { result.sum ≡
        total (size blocks.now.config) (held_at held stage blocks.now.machine) }
    ensures most { result.most ≡
        greatest (size blocks.now.config) (held_at held stage blocks.now.machine) }
    ensures full { result.full ≡
        total (size blocks.now.config) (full_at blocks.now.config held stage blocks.now.machine) }
{
    let places = wait_places_of(blocks, held);
    let mut sum: u32 = 0;
    let mut most: u32 = 0;
    let mut full: u32 = 0;
    for switch in switches_of::<SMALL>(net, holders, stage) {
        let here = depth_of_switch(blocks, net, held, places, stage, switch);
        sum += here.sum;
        most = most.max(here.most);
        full += here.full;
    }
    Depth { sum, most, full }
}

/// The same of both ports of a switch.
#[inline(always)]
fn depth_of_switch(
    blocks: &Blocks,
    net: Net,
    held: Held,
    places: u32,
    stage: u32,
    switch: u32,
) -> Depth
    requires one { blocks.now.count ≡ 1 }
    requires net { net ≡ blocks.now.config.stages }
    requires stage { stage < blocks.now.config.stages }
    requires switch { switch < 2 ^ (blocks.now.config.stages - 1) }
    requires places { places ≡ wait_places_of blocks.now.config held }
    ensures sum { result.sum ≡ held_at held stage blocks.now.machine (2 * switch) +
        held_at held stage blocks.now.machine (2 * switch + 1) }
    ensures most { result.most ≡ max (held_at held stage blocks.now.machine (2 * switch))
        (held_at held stage blocks.now.machine (2 * switch + 1)) }
    ensures full { result.full ≡
        full_at blocks.now.config held stage blocks.now.machine (2 * switch) +
        full_at blocks.now.config held stage blocks.now.machine (2 * switch + 1) }
    ensures few { (result.sum ≤ 128) × (result.full ≤ 2) }
{
    // for the prover: there are at most 64 positions, two for each switch
    let _size = net.size();
    let one = held_at_position(blocks, net, held, stage, 2 * switch);
    let two = held_at_position(blocks, net, held, stage, 2 * switch + 1);
    Depth {
        sum: one + two,
        most: one.max(two),
        full: count_full(places, one, two),
    }
}

/// How many of two have all places taken. Mostly neither has, and one comparison shows it.
#[inline(always)]
fn count_full(places: u32, one: u32, two: u32) -> u32
    ensures value { result ≡ is_full places one + is_full places two }
    ensures few { result ≤ 2 }
{
    if places == 0 || one.max(two) < places {
        0
    } else {
        count_if_full(places, one) + count_if_full(places, two)
    }
}

/// 1 where all places are taken, and else 0. What has no place is never full. It isn't inlined, so
/// that the compiler doesn't compute it where it isn't needed.
#[cold]
#[inline(never)]
fn count_if_full(places: u32, held: u32) -> u32
    ensures value { result ≡ is_full places held }
    ensures few { result ≤ 1 }
{
    u32::from(places > 0 && held == places)
}

/// How much the queue, or the wait buffer, at a position of a stage holds of a kind.
#[inline(always)]
fn held_at_position(blocks: &Blocks, net: Net, held: Held, stage: u32, position: u32) -> u32
    requires one { blocks.now.count ≡ 1 }
    requires net { net ≡ blocks.now.config.stages }
    requires stage { stage < blocks.now.config.stages }
    requires position { position < 2 ^ blocks.now.config.stages }
    ensures value { result ≡ held_at held stage blocks.now.machine position }
    ensures few { result ≤ 64 }
{
    let _most_requests = blocks.config().request_places();
    let _most_replies = blocks.config().reply_places();
    let count = match held {
        Held::Request => blocks.lane_of_one(net, stage, position).len(),
        Held::Record => blocks.lane_of_one(net, stage, position).record_count(),
        Held::Reply => blocks.reply_queue_of_one(net, stage, position).len(),
    };
    count as u32
}

/// The places of a wait buffer, and 0 for a queue, since full queues aren't counted.
#[inline(always)]
fn wait_places_of(blocks: &Blocks, held: Held) -> u32
    ensures { result ≡ wait_places_of blocks.now.config held }
{
    match held {
        Held::Record => blocks.config().wait_places(),
        Held::Request | Held::Reply => 0,
    }
}

/// The network of a machine.
pub(crate) fn net_of(blocks: &Blocks) -> Net
    ensures value { result ≡ blocks.now.config.stages }
    ensures even { 2 ^ blocks.now.config.stages ≡ 2 * 2 ^ (blocks.now.config.stages - 1) }
    ensures few { 2 ^ (blocks.now.config.stages - 1) ≤ 32 }
    ensures few_stages { blocks.now.config.stages ≤ 6 }
{
    let net = blocks.config().net();
    let _even = net.size();
    net
}
