//! Requests on their way through a switch.

ghost use Rattle.std.specs.Prelude.{◌≡◌, ◌+◌, ◌-◌, ◌^◌, ◌<◌, ◌≤◌, ◌++◌, ◌∷◌, [], IsTrue, List, is_some, length, not, slice_get, vec_capacity};
ghost use Rattle.ultra_msg.specs.Pair.{is_fixed};
ghost use Rattle.ultra_unit_steps.specs.Prelude.{ForSome, Event, Combined, request_of, present};
ghost use Rattle.ultra_unit_steps.specs.Halves.{combination_by, combination_in, coming_to, in_order, are_ports_reversed, lane_with, lane_without, leaves_by, where_room};

use crate::append;
use ultra_msg::{Event, Pe, RequestPacket};
use ultra_route::Net;
use ultra_switch::{Arrived, Ports, ToMm, WaitRecord};

/// The first request of a queue toward memory leaves, if there is room for it where it goes. The
/// result is `None` where nothing leaves.
#[inline(always)]
pub fn send_head_if(has_room: bool, queue: &mut ToMm) -> Option<RequestPacket>
    ensures sent { result ≡ where_room has_room (request_of (slice_get queue.old.lane.queue 0)) }
    ensures left { queue.new ≡ lane_without queue.old result }
{
    if has_room { queue.leave_packet() } else { None }
}

/// Appends the combination of a request with one of the processing element `old`, which left
/// `wait_record`.
#[inline(always)]
fn append_combination(
    events: &mut Vec<Event>,
    stage: u32,
    position: u32,
    request: &RequestPacket,
    old: Pe,
    wait_record: &WaitRecord,
)
    requires { length events.old.items < vec_capacity events.old }
    ensures entries { events.new.items ≡ events.old.items ++ Combined stage position
        request.now.cell old request.now.pe (not (is_fixed wait_record.now.give_old)) ∷ [] }
    ensures places { vec_capacity events.new ≡ vec_capacity events.old }
{
    let event = Event::Combined {
        stage,
        position,
        cell: request.cell(),
        old,
        new: request.pe(),
        old_first: wait_record.give_old.old_goes_first(),
    };
    append(events, event);
}

/// A request comes to a queue toward memory, which is at a position of a stage: it combines, or it
/// goes to the end. Its combination is appended to `events`. Answers whether there is one.
#[inline(always)]
#[tactic(auto, using(crate::proofs::Arrivals::arrivals))]
fn arrive(
    to_mm: &mut ToMm,
    stage: u32,
    position: u32,
    request: &RequestPacket,
    events: &mut Vec<Event>,
) -> bool
    requires room { length to_mm.old.lane.queue < to_mm.old.request_places }
    requires event_room { length events.old.items < vec_capacity events.old }
    ensures lane { to_mm.new ≡ lane_with to_mm.old (request.now ∷ []) }
    ensures longer { length to_mm.new.lane.queue ≤ length to_mm.old.lane.queue + 1 }
    ensures events { events.new.items ≡
        events.old.items ++ present (combination_in stage position to_mm.old request.now ∷ []) }
    ensures places { vec_capacity events.new ≡ vec_capacity events.old }
    ensures combined { result ≡ is_some (combination_in stage position to_mm.old request.now) }
{
    match to_mm.arrive_packet(request) {
        Arrived::Appended => false,
        Arrived::CombinedWith(pe) => {
            let record = to_mm.record(to_mm.record_count() - 1);
            append_combination(events, stage, position, request, pe, &record);
            true
        }
    }
}

/// What came to a port of the switch goes to the queue by which it leaves the stage. `index` is the
/// number of the switch in its stage. Its combination is appended to `events`. Answers whether
/// there is one.
#[inline(always)]
pub fn take_request(
    to_mm: &mut Ports<ToMm>,
    net: Net,
    stage: u32,
    index: u32,
    request: &Option<RequestPacket>,
    events: &mut Vec<Event>,
) -> bool
    requires stage { stage < net }
    requires index { index < 2 ^ (net - 1) }
    requires room { ForSome request.now (λ r. (IsTrue (leaves_by net stage 0 r) →
        length to_mm.old.zero.lane.queue < to_mm.old.zero.request_places) ×
        (IsTrue (leaves_by net stage 1 r) →
        length to_mm.old.one.lane.queue < to_mm.old.one.request_places)) }
    requires event_room { length events.old.items < vec_capacity events.old }
    ensures zero { to_mm.new.zero ≡ lane_with to_mm.old.zero (coming_to net stage 0 request.now) }
    ensures one { to_mm.new.one ≡ lane_with to_mm.old.one (coming_to net stage 1 request.now) }
    ensures longer_zero { length to_mm.new.zero.lane.queue ≤ length to_mm.old.zero.lane.queue + 1 }
    ensures longer_one { length to_mm.new.one.lane.queue ≤ length to_mm.old.one.lane.queue + 1 }
    ensures events { events.new.items ≡
        events.old.items ++ present (combination_by net stage index to_mm.old request.now ∷ []) }
    ensures places { vec_capacity events.new ≡ vec_capacity events.old }
    ensures few { length events.new.items ≤ length events.old.items + 1 }
    ensures combined { result ≡ is_some (combination_by net stage index to_mm.old request.now) }
{
    let Some(request) = request else {
        return false;
    };
    // for the prover: the number of positions is even, and at most 64
    let _even = net.size();
    if net.request_port(stage, request.cell()) == 0 {
        arrive(&mut to_mm.zero, stage, 2 * index, request, events)
    } else {
        arrive(&mut to_mm.one, stage, 2 * index + 1, request, events)
    }
}

/// The last two events change places, if `are_ports_reversed`.
#[inline(never)]
#[tactic(auto, using(crate::proofs::Combinations::last_turned))]
pub fn put_in_order(events: &mut Vec<Event>, are_ports_reversed: bool)
    requires { 2 ≤ length events.old.items }
    ensures entries { (front : List Event) (a b : Event) → events.old.items ≡ front ++ a ∷ b ∷ [] →
        events.new.items ≡ front ++ in_order are_ports_reversed a b }
    ensures places { vec_capacity events.new ≡ vec_capacity events.old }
    ensures few { length events.new.items ≡ length events.old.items }
{
    if are_ports_reversed {
        let count = events.len();
        let (first, second) = (events[count - 2], events[count - 1]);
        events[count - 2] = second;
        events[count - 1] = first;
    }
}

/// Whether of two requests the second leaves the stage by port 0, and the first by port 1.
#[inline(always)]
pub fn are_ports_reversed(
    net: Net,
    stage: u32,
    first: &Option<RequestPacket>,
    second: &Option<RequestPacket>,
) -> bool
    requires { stage < net }
    ensures { result ≡ are_ports_reversed net stage first.now second.now }
{
    let (Some(first), Some(second)) = (first, second) else {
        return false;
    };
    net.request_port(stage, first.cell()) == 1 && net.request_port(stage, second.cell()) == 0
}
