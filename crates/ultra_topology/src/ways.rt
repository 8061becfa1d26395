//! Where messages go from a unit, and whether they may.

ghost use Rattle.std.specs.Prelude.{◌≡◌, ℕ, ◌-◌, ◌/◌, ◌^◌, ◌<◌, true};
ghost use Rattle.ultra_route.specs.Route.{shuffled};
ghost use Rattle.ultra_topology.specs.{Numbers.{IsSmall, switch_number as number_of_switch, request_target as target_of_request}, Ways.{has_request_way as way_of_request, has_room_at as room_at, has_way_from_element as way_from_element, reply_targets as targets_of_replies, reply_ways}};

use crate::numbers::switch_number;
use crate::unit_set::{UnitNumber, UnitSet};
use ultra_msg::RequestPacket;
use ultra_route::Net;
use ultra_switch::Ports;

/// The switch to which replies go from a memory module.
#[inline(always)]
#[tactic(auto, using(crate::proofs::Readers::few_units))]
pub fn module_target<const SMALL: bool>(net: Net, module_number: u32) -> UnitNumber
    requires small { SMALL ≡ true → IsSmall net }
    requires number { module_number < 2 ^ net }
    ensures { result ≡ number_of_switch net (net - 1) (module_number / 2) }
{
    // for the prover: the number of positions is even, and at most 64
    let _even = net.size();
    let switch = switch_number(net, net.stages() - 1, module_number / 2);
    UnitNumber::of(switch).narrow::<SMALL>()
}

/// The switch to which requests go from a processing element.
#[inline(always)]
#[tactic(auto, using(crate::proofs::Readers::few_units))]
pub fn element_target<const SMALL: bool>(net: Net, pe: u32) -> UnitNumber
    requires small { SMALL ≡ true → IsSmall net }
    requires number { pe < 2 ^ net }
    ensures { result ≡ number_of_switch net 0 (shuffled net pe / 2) }
{
    // for the prover: the number of positions is even, and at most 64
    let _even = net.size();
    let switch = switch_number(net, 0, net.shuffle(pe) / 2);
    UnitNumber::of(switch).narrow::<SMALL>()
}

/// Whether replies may go on from a switch, by the PE-side port, to the units `targets`. `closed`
/// are the switches without room for replies.
#[inline(always)]
pub fn find_reply_ways(closed: &UnitSet, stage: u32, targets: &Ports<UnitNumber>) -> Ports<bool>
    ensures { (net index : ℕ) → targets.now ≡ targets_of_replies net stage index →
        result ≡ reply_ways closed.now net stage index }
{
    Ports {
        zero: stage == 0 || !closed.has(targets.zero),
        one: stage == 0 || !closed.has(targets.one),
    }
}

/// Whether the queue that a request goes to has room, at this switch of a stage. `closed` are, by
/// the memory-side port, the switches whose queue there has no room for requests.
#[inline(always)]
fn has_room_at(
    net: Net,
    closed: &Ports<UnitSet>,
    stage: u32,
    switch: UnitNumber,
    request: &RequestPacket,
) -> bool
    requires { stage < net }
    ensures { result ≡ room_at closed.now net stage switch request.now }
{
    if net.request_port(stage, request.cell()) == 0 {
        !closed.zero.has(switch)
    } else {
        !closed.one.has(switch)
    }
}

/// Whether the first request of a queue may go on from a stage to the unit `target`. In `zero`,
/// `closed` has also the modules whose register holds a request.
#[inline(always)]
pub fn has_request_way(
    net: Net,
    closed: &Ports<UnitSet>,
    stage: u32,
    target: UnitNumber,
    head: Option<RequestPacket>,
) -> bool
    requires { stage < net }
    ensures { (position : ℕ) → target ≡ target_of_request net stage position →
        result ≡ way_of_request closed.now net stage position head }
{
    let Some(request) = head else {
        return false;
    };
    if stage == net.stages() - 1 {
        !closed.zero.has(target)
    } else {
        has_room_at(net, closed, stage + 1, target, &request)
    }
}

/// Whether the first request of a processing element may go on, to the switch `target`.
#[inline(always)]
pub fn has_way_from_element(
    net: Net,
    closed: &Ports<UnitSet>,
    target: UnitNumber,
    head: Option<RequestPacket>,
) -> bool
    ensures { (pe : ℕ) → target ≡ number_of_switch net 0 (shuffled net pe / 2) →
        result ≡ way_from_element closed.now net pe head }
{
    let Some(request) = head else {
        return false;
    };
    // for the prover: a network has 1 to `MOST_STAGES` stages
    let _stages = net.stages();
    has_room_at(net, closed, 0, target, &request)
}
