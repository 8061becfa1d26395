//! Replies on their way through a switch.

ghost use Rattle.std.specs.Prelude.{◌≡◌, ◌+◌, ◌≤◌, ◌<◌, ◌∷◌, [], length, slice_get};
ghost use Rattle.ultra_unit_steps.specs.Prelude.{ForSome, replies_made};
ghost use Rattle.ultra_unit_steps.specs.Halves.{going_by, lane_after_reply, ports_by, replies_without, where_room, with_replies};

use ultra_msg::ReplyPacket;
use ultra_route::Net;
use ultra_switch::{Ports, Split, ToMm, ToPe};

/// The first reply of a queue leaves, if there is room for it where it goes. The result is `None`
/// where nothing leaves.
#[inline(always)]
pub fn send_head_if(has_room: bool, queue: &mut ToPe) -> Option<ReplyPacket>
    ensures sent { result ≡ where_room has_room (slice_get queue.old.replies 0) }
    ensures left { queue.new ≡ replies_without queue.old result }
{
    if has_room { queue.leave_packet() } else { None }
}

/// Puts a reply into the queue by which it leaves the stage.
#[inline(always)]
fn put_reply(to_pe: &mut Ports<ToPe>, net: Net, stage: u32, reply: ReplyPacket)
    requires stage { stage < net }
    requires zero { length to_pe.old.zero.replies < to_pe.old.zero.places }
    requires one { length to_pe.old.one.replies < to_pe.old.one.places }
    ensures { to_pe.new ≡
        ports_by (λ j q. with_replies q (going_by net stage j (reply ∷ []))) to_pe.old }
{
    if net.reply_port(stage, reply.pe()) == 0 {
        to_pe.zero.put_packet(reply);
    } else {
        to_pe.one.put_packet(reply);
    }
}

/// A reply, if there is one, comes to a memory-side port of a switch. The wait buffer there splits
/// it, and each resulting reply goes to the queue by which it leaves this stage. Where a reply
/// came, both queues have at least 2 free places.
#[inline(always)]
pub fn take_reply(
    to_mm: &mut ToMm,
    to_pe: &mut Ports<ToPe>,
    net: Net,
    stage: u32,
    reply: Option<ReplyPacket>,
)
    requires stage { stage < net }
    requires room { ForSome reply (λ _.
        (length to_pe.old.zero.replies + 2 ≤ to_pe.old.zero.places) ×
        (length to_pe.old.one.replies + 2 ≤ to_pe.old.one.places)) }
    ensures records { to_mm.new ≡ lane_after_reply to_mm.old reply }
    ensures queues { to_pe.new ≡ ports_by
        (λ j q. with_replies q (going_by net stage j (replies_made to_mm.old.lane.records reply)))
        to_pe.old }
{
    let Some(reply) = reply else {
        return;
    };
    match to_mm.split_packet(reply) {
        Split::One(reply) => put_reply(to_pe, net, stage, reply),
        Split::Two(old, new) => {
            put_reply(to_pe, net, stage, old);
            put_reply(to_pe, net, stage, new);
        }
    }
}
