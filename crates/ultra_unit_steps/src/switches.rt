//! What is true of a switch.

ghost use Rattle.std.specs.Prelude.{◌≡◌};
ghost use Rattle.ultra_unit_steps.specs.Switches.{has_reply_room, has_request_room, holds_replies, holds_requests, keeps_records, quiet_switch};

use ultra_switch::{Ports, Switch};

/// Whether a reply is in one of the queues toward the processing elements.
#[inline(always)]
pub fn holds_replies(switch: &Switch) -> bool
    ensures { result ≡ holds_replies switch.now }
{
    let Ports { zero, one } = &switch.to_pe;
    !(zero.is_empty() && one.is_empty())
}

/// Whether both queues toward the processing elements have at least 4 free places, for all that may
/// come to the switch in one cycle.
#[inline(always)]
pub fn has_reply_room(switch: &Switch) -> bool
    ensures { result ≡ has_reply_room switch.now }
{
    let Ports { zero, one } = &switch.to_pe;
    zero.has_room() && one.has_room()
}

/// Whether a request is in one of the queues toward memory.
#[inline(always)]
pub fn holds_requests(switch: &Switch) -> bool
    ensures { result ≡ holds_requests switch.now }
{
    let Ports { zero, one } = &switch.to_mm;
    !zero.is_empty() || !one.is_empty()
}

/// Whether a record is in one of its wait buffers.
#[inline(always)]
pub fn keeps_records(switch: &Switch) -> bool
    ensures { result ≡ keeps_records switch.now }
{
    let Ports { zero, one } = &switch.to_mm;
    !(zero.record_count() == 0 && one.record_count() == 0)
}

/// By the memory-side port, whether the queue toward memory has at least 2 free places, for all
/// that may come to it in one cycle.
#[inline(always)]
pub fn has_request_room(switch: &Switch) -> Ports<bool>
    ensures { result ≡ has_request_room switch.now }
{
    let Ports { zero, one } = &switch.to_mm;
    Ports {
        zero: zero.has_room(),
        one: one.has_room(),
    }
}

/// Whether nothing is in its queues and wait buffers.
pub fn is_quiet(switch: &Switch) -> bool
    ensures { result ≡ quiet_switch switch.now }
{
    let Switch { to_mm, to_pe } = switch;
    to_mm.zero.is_idle() && to_mm.one.is_idle() && to_pe.zero.is_empty() && to_pe.one.is_empty()
}
