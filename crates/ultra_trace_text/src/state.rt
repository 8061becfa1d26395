//! The lines that list what the units hold after a cycle.

ghost use Rattle.std.specs.Prelude.{◌≡◌, ◌+◌, ◌*◌, ◌-◌, ◌/◌, ◌%◌, ◌^◌, ◌<◌, ◌≤◌, true};
ghost use Rattle.ultra_model.specs.Machine.{size};
ghost use Rattle.ultra_topology.specs.Numbers.{IsSmall, switch_count};
ghost use Rattle.ultra_io.specs.TextBuffer.{Writes};
ghost use Rattle.ultra_block.specs.Held.TheVariants.{Record, Reply, Request};
ghost use Rattle.ultra_trace_text.specs.{Holders.AreHolders, Ports.port_line};
ghost use Rattle.ultra_model.specs.Trace.{by_number, by_stage, pni_lines, inp_lines, out_lines, state_text};

use crate::places::{put_inp, put_out, put_pni, put_rep, put_req, put_wait};
use ultra_block::{Blocks, Held};
use ultra_holders::{elements_in, modules_in, switches_in};
use ultra_io::TextBuffer;
use ultra_msg::Sink;
use ultra_route::Net;
use ultra_topology::{UnitSet, is_small};

/// Writes what the units hold after the last cycle.
#[inline(always)]
pub(crate) fn put_state<S: Sink>(buffer: &mut TextBuffer<'_, S>, blocks: &Blocks)
    ensures { Writes S.taken S.failures
        (state_text blocks.now.config blocks.now.machine) buffer.old buffer.new }
{
    if !blocks.is_in_one_block() {
        put_state_of_several(buffer, blocks);
    } else if is_small(blocks.config().net()) {
        put_state_of_one::<true, S>(buffer, blocks);
    } else {
        put_state_of_one::<false, S>(buffer, blocks);
    }
}

/// Writes what the units of a machine in one block hold. A `SMALL` machine uses a specialised copy
/// of the code.
#[inline(always)]
fn put_state_of_one<const SMALL: bool, S: Sink>(buffer: &mut TextBuffer<'_, S>, blocks: &Blocks)
    requires one { blocks.now.count ≡ 1 }
    requires small { SMALL ≡ true → IsSmall blocks.now.config.stages }
    ensures { Writes S.taken S.failures
        (state_text blocks.now.config blocks.now.machine) buffer.old buffer.new }
{
    let requests = blocks.holding_of_one(Held::Request);
    let records = blocks.holding_of_one(Held::Record);
    let replies = blocks.holding_of_one(Held::Reply);
    put_all_held::<SMALL, S>(buffer, blocks, requests, records, replies);
}

/// Writes what the units of a machine in several blocks hold.
#[cold]
#[inline(never)]
fn put_state_of_several<S: Sink>(buffer: &mut TextBuffer<'_, S>, blocks: &Blocks)
    ensures { Writes S.taken S.failures
        (state_text blocks.now.config blocks.now.machine) buffer.old buffer.new }
{
    let requests = blocks.holding(Held::Request);
    let records = blocks.holding(Held::Record);
    let replies = blocks.holding(Held::Reply);
    put_all_held::<false, S>(buffer, blocks, &requests, &records, &replies);
}

/// Writes what the units hold, given which of them hold requests, records and replies.
#[inline(always)]
fn put_all_held<const SMALL: bool, S: Sink>(
    buffer: &mut TextBuffer<'_, S>,
    blocks: &Blocks,
    requests: &UnitSet,
    records: &UnitSet,
    replies: &UnitSet,
)
    requires small { SMALL ≡ true → IsSmall blocks.now.config.stages }
    requires requests { AreHolders blocks.now Request requests.now }
    requires records { AreHolders blocks.now Record records.now }
    requires replies { AreHolders blocks.now Reply replies.now }
    ensures { Writes S.taken S.failures
        (state_text blocks.now.config blocks.now.machine) buffer.old buffer.new }
{
    let net = blocks.config().net();
    put_interfaces::<SMALL, S>(buffer, blocks, net, requests);
    put_switches::<SMALL, S>(buffer, blocks, net, Held::Request, requests);
    put_switches::<SMALL, S>(buffer, blocks, net, Held::Record, records);
    put_requests_to_serve::<SMALL, S>(buffer, blocks, net, requests);
    put_replies_to_leave::<SMALL, S>(buffer, blocks, net, replies);
    put_switches::<SMALL, S>(buffer, blocks, net, Held::Reply, replies);
}

/// Writes the lines of the requests that are not yet in the network, by processing element.
/// `holders` are the units that hold requests.
#[inline(always)]
fn put_interfaces<const SMALL: bool, S: Sink>(
    buffer: &mut TextBuffer<'_, S>,
    blocks: &Blocks,
    net: Net,
    holders: &UnitSet,
)
    requires net { net ≡ blocks.now.config.stages }
    requires small { SMALL ≡ true → IsSmall net }
    requires holders { AreHolders blocks.now Request holders.now }
    ensures { Writes S.taken S.failures
        (by_number (size blocks.now.config) (pni_lines blocks.now.machine)) buffer.old buffer.new }
{
    for pe in elements_in::<SMALL>(net, holders) {
        put_pni(buffer, pe, &blocks.element(pe).interface);
    }
}

/// Writes the lines of what switches hold of one kind, by stage, then position: the queues of
/// requests or of replies, or the wait buffers. `holders` are the units that hold it.
#[inline(always)]
fn put_switches<const SMALL: bool, S: Sink>(
    buffer: &mut TextBuffer<'_, S>,
    blocks: &Blocks,
    net: Net,
    held: Held,
    holders: &UnitSet,
)
    requires net { net ≡ blocks.now.config.stages }
    requires small { SMALL ≡ true → IsSmall net }
    requires holders { AreHolders blocks.now held holders.now }
    ensures { Writes S.taken S.failures
        (by_stage blocks.now.config (port_line held blocks.now.machine)) buffer.old buffer.new }
{
    // for the prover: the number of positions is even, and at most 64
    let _even = net.size();
    for switch in switches_in::<SMALL>(net, holders) {
        let (stage, first) = place_of(net, switch);
        put_port(buffer, blocks, held, stage, first);
        put_port(buffer, blocks, held, stage, first + 1);
    }
}

/// Writes the line of what a switch holds of one kind, at a position of a stage.
#[inline(always)]
fn put_port<S: Sink>(
    buffer: &mut TextBuffer<'_, S>,
    blocks: &Blocks,
    held: Held,
    stage: u32,
    position: u32,
)
    requires stage { stage < blocks.now.config.stages }
    requires position { position < 2 ^ blocks.now.config.stages }
    ensures { Writes S.taken S.failures
        (port_line held blocks.now.machine stage position) buffer.old buffer.new }
{
    match held {
        Held::Reply => put_rep(buffer, stage, position, blocks.reply_queue(stage, position)),
        Held::Request => put_req(buffer, stage, position, blocks.lane(stage, position)),
        Held::Record => put_wait(buffer, stage, position, blocks.lane(stage, position)),
    }
}

/// Writes the lines of the requests that wait for their modules, by module. `holders` are the units
/// that hold requests.
#[inline(always)]
fn put_requests_to_serve<const SMALL: bool, S: Sink>(
    buffer: &mut TextBuffer<'_, S>,
    blocks: &Blocks,
    net: Net,
    holders: &UnitSet,
)
    requires net { net ≡ blocks.now.config.stages }
    requires small { SMALL ≡ true → IsSmall net }
    requires holders { AreHolders blocks.now Request holders.now }
    ensures { Writes S.taken S.failures
        (by_number (size blocks.now.config) (inp_lines blocks.now.machine)) buffer.old buffer.new }
{
    for number in modules_in::<SMALL>(net, holders) {
        put_inp(buffer, number, blocks.memory_module(number));
    }
}

/// Writes the lines of the replies that wait to leave their modules, by module. `holders` are the
/// units that hold replies.
#[inline(always)]
fn put_replies_to_leave<const SMALL: bool, S: Sink>(
    buffer: &mut TextBuffer<'_, S>,
    blocks: &Blocks,
    net: Net,
    holders: &UnitSet,
)
    requires net { net ≡ blocks.now.config.stages }
    requires small { SMALL ≡ true → IsSmall net }
    requires holders { AreHolders blocks.now Reply holders.now }
    ensures { Writes S.taken S.failures
        (by_number (size blocks.now.config) (out_lines blocks.now.machine)) buffer.old buffer.new }
{
    for number in modules_in::<SMALL>(net, holders) {
        put_out(buffer, number, blocks.memory_module(number));
    }
}

/// The stage of a switch, and the first of its two positions there.
#[inline(always)]
fn place_of(net: Net, switch: u32) -> (u32, u32)
    requires { switch < switch_count net }
    ensures stage { result.0 ≡ switch / 2 ^ (net - 1) }
    ensures first { result.1 ≡ 2 * (switch % 2 ^ (net - 1)) }
    ensures stage_small { result.0 < net }
    ensures first_small { result.1 + 1 < 2 ^ net }
{
    let half = net.size() / 2;
    (switch / half, 2 * (switch % half))
}

/// How many positions each side of a stage has, which is the number of processing elements and of
/// modules.
pub(crate) fn positions(blocks: &Blocks) -> u32
    ensures value { result ≡ size blocks.now.config }
    ensures even { 2 * 2 ^ (blocks.now.config.stages - 1) ≡ result }
    ensures small { result ≤ 64 }
{
    blocks.config().net().size()
}
