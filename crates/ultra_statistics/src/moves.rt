//! What leaves the queues of a machine in its next cycle.

ghost use Rattle.std.specs.Prelude.{◌≡◌, ◌+◌, ◌-◌, ◌*◌, ◌/◌, ◌^◌, ◌<◌, Some, is_some, slice_get};
ghost use Rattle.ultra_switch.specs.Queues.{request_of};
ghost use Rattle.ultra_model.specs.Machine.{Settings, is_nothing, lane_at, module_at, request_exit};
ghost use Rattle.ultra_model.specs.Phases.{has_reply_room, leaving_reply, leaving_request};
ghost use Rattle.ultra_statistics.specs.Moves.{before_requests};

use ultra_block::Blocks;
use ultra_msg::Request;
use ultra_route::Net;

/// Whether a reply leaves the queue at a PE-side position of a stage in the next cycle.
#[inline(always)]
pub(crate) fn reply_leaves(blocks: &Blocks, net: Net, stage: u32, position: u32) -> bool
    requires one { blocks.now.count ≡ 1 }
    requires net { net ≡ blocks.now.config.stages }
    requires stage { stage < blocks.now.config.stages }
    requires position { position < 2 ^ blocks.now.config.stages }
    ensures { result ≡
        is_some (leaving_reply blocks.now.config blocks.now.machine stage position) }
{
    // for the prover: the settings are in their ranges
    let _valid = blocks.config().initial();
    if blocks.reply_queue_of_one(net, stage, position).is_empty() {
        return false;
    }
    if stage == 0 {
        return true;
    }
    has_reply_room(blocks, net, stage - 1, net.unshuffle(position))
}

/// Whether both queues toward the processing elements of the switch of a position have room.
#[inline(always)]
fn has_reply_room(blocks: &Blocks, net: Net, stage: u32, position: u32) -> bool
    requires one { blocks.now.count ≡ 1 }
    requires net { net ≡ blocks.now.config.stages }
    requires stage { stage < blocks.now.config.stages }
    requires position { position < 2 ^ blocks.now.config.stages }
    ensures { result ≡
        has_reply_room blocks.now.config blocks.now.machine stage (position / 2) }
{
    // for the prover: a stage has an even number of positions
    let _even = net.size();
    let switch = position / 2;
    blocks.reply_queue_of_one(net, stage, 2 * switch).has_room()
        && blocks
            .reply_queue_of_one(net, stage, 2 * switch + 1)
            .has_room()
}

/// Whether a request leaves the queue at a memory-side position of a stage in the next cycle.
#[inline(always)]
pub(crate) fn request_leaves(blocks: &Blocks, net: Net, stage: u32, position: u32) -> bool
    requires one { blocks.now.count ≡ 1 }
    requires net { net ≡ blocks.now.config.stages }
    requires stage { stage < blocks.now.config.stages }
    requires position { position < 2 ^ blocks.now.config.stages }
    ensures { result ≡ is_some (leaving_request blocks.now.config
        (before_requests blocks.now.config blocks.now.machine) stage position) }
{
    // for the prover: the settings are in their ranges
    let _valid = blocks.config().initial();
    match blocks.lane_of_one(net, stage, position).head() {
        Some(request) => can_leave(blocks, net, stage, position, request),
        None => false,
    }
}

/// Whether the request at the front of a queue leaves it in the next cycle.
#[inline(always)]
fn can_leave(blocks: &Blocks, net: Net, stage: u32, position: u32, request: Request) -> bool
    requires one { blocks.now.count ≡ 1 }
    requires net { net ≡ blocks.now.config.stages }
    requires stage { stage < blocks.now.config.stages }
    requires position { position < 2 ^ blocks.now.config.stages }
    requires first { request_of (slice_get (lane_at blocks.now.machine stage position).queue 0) ≡
        Some request }
    ensures { result ≡ is_some (leaving_request blocks.now.config
        (before_requests blocks.now.config blocks.now.machine) stage position) }
{
    // for the prover: the settings are in their ranges
    let _valid = blocks.config().initial();
    if stage + 1 == net.stages() {
        return takes_request(blocks, net, position);
    }
    let exit = exit_of(net, stage + 1, net.shuffle(position), request);
    blocks.lane_of_one(net, stage + 1, exit).has_room()
}

/// Whether a module takes a request in the next cycle: whether none waits there to be served when
/// the requests move.
#[inline(always)]
fn takes_request(blocks: &Blocks, net: Net, number: u32) -> bool
    requires one { blocks.now.count ≡ 1 }
    requires net { net ≡ blocks.now.config.stages }
    requires number { number < 2 ^ blocks.now.config.stages }
    ensures { result ≡ is_nothing (module_at
        (before_requests blocks.now.config blocks.now.machine) number).inp }
{
    // for the prover: the settings are in their ranges
    let _valid = blocks.config().initial();
    let memory_module = blocks.memory_module(number);
    if memory_module.request().is_none() {
        return true;
    }
    if memory_module.reply().is_none() {
        return true;
    }
    has_reply_room(blocks, net, net.stages() - 1, number)
}

/// The memory-side position by which a request leaves a stage, by the position where it enters it.
#[inline(always)]
fn exit_of(net: Net, stage: u32, entry: u32, request: Request) -> u32
    requires stage { stage < net }
    requires entry { entry < 2 ^ net }
    ensures value { (c : Settings) → c.stages ≡ net →
        result ≡ request_exit c stage entry request }
    ensures small { result < 2 ^ net }
{
    // for the prover: a stage has an even number of positions
    let _even = net.size();
    2 * (entry / 2) + net.request_port(stage, request.cell)
}
