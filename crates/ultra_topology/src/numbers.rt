//! The numbers of units and of the links between them.

ghost use Rattle.std.specs.Prelude.{◌≡◌, true, ℕ, ◌+◌, ◌-◌, ◌*◌, ◌^◌, ◌<◌, ◌≤◌};
ghost use Rattle.ultra_topology.specs.Numbers.{IsSmall, element_number as number_of_element, module_number as number_of_module, link_number as number_of_link, reply_source as source_of_reply, reply_target as target_of_reply, request_source as source_of_request, request_target as target_of_request, switch_count as count_of_switches, switch_number as number_of_switch};
ghost use Rattle.ultra_topology.specs.declared.TheConstants.{MOST_UNITS};

use ultra_route::Net;
use ultra_switch::Ports;

/// How many switches a network has: at most 192.
#[inline(always)]
pub fn switch_count(net: Net) -> usize
    ensures value { result ≡ count_of_switches net }
    ensures small { result ≤ 192 }
{
    (net.stages() * (net.size() / 2)) as usize
}

/// Whether all units of a machine, at most 64, are in the first word of a set: whether it has at
/// most 4 stages.
#[inline(always)]
pub fn is_small(net: Net) -> bool
    ensures small { result ≡ true → IsSmall net }
    ensures large { IsSmall net → result ≡ true }
{
    net.stages() <= 4
}

/// The number of a switch of a stage, by its index there.
#[inline(always)]
pub fn switch_number(net: Net, stage: u32, index: u32) -> usize
    requires stage { stage < net }
    requires index { index < 2 ^ (net - 1) }
    ensures value { result ≡ number_of_switch net stage index }
    ensures within { result < count_of_switches net }
    ensures small { result < 192 }
{
    // for the prover: a network has 1 to `MOST_STAGES` stages
    let _stages = net.stages();
    (stage * (net.size() / 2) + index) as usize
}

/// The number of a module among all units.
#[inline(always)]
pub fn module_number(net: Net, number: u32) -> usize
    requires { number < 2 ^ net }
    ensures value { result ≡ number_of_module net number }
    ensures small { result < 256 }
{
    switch_count(net) + number as usize
}

/// The number of a processing element among all units.
#[inline(always)]
pub fn element_number(net: Net, pe: u32) -> usize
    requires { pe < 2 ^ net }
    ensures value { result ≡ number_of_element net pe }
    ensures small { result < MOST_UNITS }
{
    switch_count(net) + (net.size() + pe) as usize
}

/// The number of a link: that of the position of a stage from which it leads, counted over all
/// stages. If `stage` is the number of stages, it leads from the module or the processing element
/// with number `position`.
#[inline(always)]
pub(crate) fn link_number(net: Net, stage: u32, position: u32) -> usize
    requires stage { stage ≤ net }
    requires position { position < 2 ^ net }
    ensures value { result ≡ number_of_link net stage position }
    ensures small { result < 448 }
{
    // for the prover: a network has 1 to `MOST_STAGES` stages
    let _stages = net.stages();
    (stage * net.size() + position) as usize
}

/// What a function gives for the positions of a switch in its stage, by the port.
pub(crate) fn by_port<F: Fn(u32) -> u16>(net: Net, index: u32, at: F) -> Ports<u16>
    requires index { index < 2 ^ (net - 1) }
    requires at { (x : ℕ) → x < 2 ^ net → F.pre at x }
    ensures zero { F.post at (2 * index) result.zero }
    ensures one { F.post at (2 * index + 1) result.one }
{
    // for the prover: the number of positions is even, and at most 64
    let _even = net.size();
    Ports {
        zero: at(2 * index),
        one: at(2 * index + 1),
    }
}

/// The link by which a reply comes to a memory-side position of a stage.
pub(crate) fn reply_source(net: Net, stage: u32, position: u32) -> u16
    requires stage { stage < net }
    requires position { position < 2 ^ net }
    ensures { result ≡ source_of_reply net stage position }
{
    let link = if stage == net.stages() - 1 {
        link_number(net, net.stages(), position)
    } else {
        link_number(net, stage + 1, net.shuffle(position))
    };
    link as u16
}

/// The unit to which a reply goes from a PE-side position of a stage.
pub(crate) fn reply_target(net: Net, stage: u32, position: u32) -> u16
    requires stage { stage < net }
    requires position { position < 2 ^ net }
    ensures { result ≡ target_of_reply net stage position }
{
    // for the prover: the number of positions is even, and at most 64
    let _even = net.size();
    let line = net.unshuffle(position);
    let unit = if stage == 0 {
        element_number(net, line)
    } else {
        switch_number(net, stage - 1, line / 2)
    };
    unit as u16
}

/// The link by which a request comes to a PE-side position of a stage.
pub(crate) fn request_source(net: Net, stage: u32, position: u32) -> u16
    requires stage { stage < net }
    requires position { position < 2 ^ net }
    ensures { result ≡ source_of_request net stage position }
{
    let from = if stage == 0 { net.stages() } else { stage - 1 };
    link_number(net, from, net.unshuffle(position)) as u16
}

/// The unit to which a request goes from a memory-side position of a stage.
pub(crate) fn request_target(net: Net, stage: u32, position: u32) -> u16
    requires stage { stage < net }
    requires position { position < 2 ^ net }
    ensures { result ≡ target_of_request net stage position }
{
    // for the prover: the number of positions is even, and at most 64
    let _even = net.size();
    let unit = if stage == net.stages() - 1 {
        module_number(net, position)
    } else {
        switch_number(net, stage + 1, net.shuffle(position) / 2)
    };
    unit as u16
}
