//! What is beside each unit of a network.

ghost use Rattle.std.specs.Prelude.{◌≡◌, true, ℕ, ◌-◌, ◌^◌, ◌<◌, IfOk, IfSome, None, Some};
ghost use Rattle.ultra_topology.specs.{Inlets.{AreInlets, LeadOn, reply_inlets as inlets_of_replies, request_inlets as inlets_of_requests}, Marks.{reply_links as links_of_replies, request_links as links_of_requests}, Numbers.{IsSmall, switch_count as count_of_switches}, Ways.{reply_targets as targets_of_replies, request_targets as targets_of_requests}, Wiring.{IsWired, neighbours}, declared.TheConstants.MOST_UNITS};
ghost use Rattle.ultra_topology.specs.Units.{IsElement, IsModule, IsUnit, index_of, of_unit, stage_of, unit_of};

use crate::numbers::{
    by_port, link_number, reply_source, reply_target, request_source, request_target, switch_count,
};
use crate::unit::{Unit, place_from, place_of};
use crate::unit_set::UnitNumber;
use std::alloc::{AllocError, Global};
use std::marker::Model;
use ultra_route::Net;
use ultra_switch::Ports;

/// Where a switch is, and what is beside it: links and units, by their numbers.
#[derive(Clone, Copy, Drop)]
pub(crate) struct Neighbours {
    /// The stage of the switch.
    stage: u16,
    /// Its index in the stage.
    index: u16,
    /// The links by which requests come, by the PE-side port.
    request_links: Ports<u16>,
    /// The units to which requests go, by the memory-side port.
    request_targets: Ports<u16>,
    /// The links by which replies come, by the memory-side port.
    reply_links: Ports<u16>,
    /// The units to which replies go, by the PE-side port.
    reply_targets: Ports<u16>,
}

impl Neighbours {
    /// Those of the switch with this number.
    fn of(net: Net, number: usize) -> Neighbours
        requires { number < count_of_switches net }
        ensures { result ≡ neighbours net (stage_of net number) (index_of net number) }
    {
        let (stage, index) = place_of(net, number);
        Neighbours {
            stage: stage as u16,
            index: index as u16,
            request_links: by_port(net, index, |x| request_source(net, stage, x)),
            request_targets: by_port(net, index, |x| request_target(net, stage, x)),
            reply_links: by_port(net, index, |x| reply_source(net, stage, x)),
            reply_targets: by_port(net, index, |x| reply_target(net, stage, x)),
        }
    }
}

/// The numbers as indices.
#[inline(always)]
fn widen(numbers: Ports<u16>) -> Ports<usize>
    ensures { result ≡ numbers }
{
    Ports {
        zero: numbers.zero as usize,
        one: numbers.one as usize,
    }
}

/// The numbers as those of units. Of a `SMALL` machine they are known to be below 64.
#[inline(always)]
fn as_units<const SMALL: bool>(numbers: Ports<u16>) -> Ports<UnitNumber>
    requires zero { numbers.zero < MOST_UNITS }
    requires one { numbers.one < MOST_UNITS }
    requires small { SMALL ≡ true → (numbers.zero < 64) × (numbers.one < 64) }
    ensures { result ≡ numbers }
{
    Ports {
        zero: UnitNumber::of(numbers.zero as usize).narrow::<SMALL>(),
        one: UnitNumber::of(numbers.one as usize).narrow::<SMALL>(),
    }
}

/// The links by which replies come to a unit, by its number. A processing element has one, which is
/// the link at both ports. No replies come to a memory module.
pub fn reply_inlets(net: Net, unit: usize) -> Option<Ports<usize>>
    ensures { result ≡ inlets_of_replies net unit }
{
    let modules = switch_count(net);
    if unit < modules {
        let (stage, index) = place_of(net, unit);
        return Some(widen(by_port(net, index, |x| reply_source(net, stage, x))));
    }
    let size = net.size() as usize;
    let pe = place_from(unit, modules + size, size)?;
    let link = link_number(net, 0, net.shuffle(pe));
    Some(Ports {
        zero: link,
        one: link,
    })
}

/// The links by which requests come to a unit, by its number. A memory module has one, which is the
/// link at both ports. No requests come to a processing element.
pub fn request_inlets(net: Net, unit: usize) -> Option<Ports<usize>>
    ensures { result ≡ inlets_of_requests net unit }
{
    let modules = switch_count(net);
    if unit < modules {
        let (stage, index) = place_of(net, unit);
        return Some(widen(by_port(net, index, |x| request_source(net, stage, x))));
    }
    let number = place_from(unit, modules, net.size() as usize)?;
    let link = link_number(net, net.stages() - 1, number);
    Some(Ports {
        zero: link,
        one: link,
    })
}

/// The wiring of a network: which unit has a number, and what is beside each switch.
#[derive(Drop)]
pub struct Wiring {
    net: Net,
    /// The number of the first module. Switches come before it.
    modules: usize,
    /// The number of the first processing element.
    elements: usize,
    /// How many modules there are, and how many processing elements.
    size: usize,
    /// Each switch's stage and index, and what is beside it, by the number of the switch.
    switches: Vec<Neighbours>,
}

impl Model for Wiring {
    ghost Value = { ℕ };

    ghost view = { λ w. w.net };

    ghost invariant = { λ w. IsWired w.net w.modules w.elements w.size w.switches.items };
}

impl Wiring {
    /// That of a network. An error says that memory was refused.
    pub fn of(alloc: Global, net: Net) -> Result<Wiring, AllocError>
        ensures { IfOk result (λ w. w ≡ net) }
    {
        let modules = switch_count(net);
        let size = net.size() as usize;
        let mut switches = Vec::with_capacity(alloc, modules)?;
        for number in 0..modules {
            switches.push(Neighbours::of(net, number))?;
        }
        Ok(Wiring {
            net,
            modules,
            elements: modules + size,
            size,
            switches,
        })
    }

    /// The network.
    #[inline(always)]
    pub fn net(&self) -> Net
        ensures { result ≡ self.now }
    {
        self.net
    }

    /// The unit with this number.
    #[inline(always)]
    pub fn unit(&self, number: usize) -> Unit
        ensures value { result ≡ unit_of self.now number }
        ensures is { IsUnit self.now number result }
    {
        // for the prover: the number of positions is even, and at most 64
        let _size = self.net.size();
        if number < self.modules {
            let Neighbours { stage, index, .. } = self.switches[number];
            return Unit::Switch {
                stage: u32::from(stage),
                index: u32::from(index),
            };
        }
        if number < self.elements {
            return Unit::Module((number - self.modules) as u32);
        }
        match self.element(number) {
            Some(pe) => Unit::Element(pe),
            None => Unit::Nothing,
        }
    }

    /// The module with this number, by its number among modules, or `None` if another unit or
    /// none has it.
    #[inline(always)]
    pub fn module(&self, number: usize) -> Option<u32>
        ensures value { result ≡ of_unit self.now (λ s k. None) Some (λ p. None) None number }
        ensures is { IfSome result (IsModule self.now number) }
    {
        let (_size, _count) = (self.net.size(), switch_count(self.net));
        place_from(number, self.modules, self.size)
    }

    /// The processing element with this number, by its number among those, or `None` if another
    /// unit or none has it.
    #[inline(always)]
    pub fn element(&self, number: usize) -> Option<u32>
        ensures value { result ≡ of_unit self.now (λ s k. None) (λ m. None) Some None number }
        ensures is { IfSome result (IsElement self.now number) }
    {
        let (_size, _count) = (self.net.size(), switch_count(self.net));
        place_from(number, self.elements, self.size)
    }

    /// The links by which requests come to a switch, by the PE-side port.
    #[inline(always)]
    pub fn request_links(&self, unit: UnitNumber) -> Ports<usize>
        requires { unit < count_of_switches self.now }
        ensures value { result ≡
            links_of_requests self.now (stage_of self.now unit) (index_of self.now unit) }
        ensures inlets { AreInlets (inlets_of_requests self.now) self.now unit result }
    {
        // for the prover: a network has 1 to `MOST_STAGES` stages
        let _stages = self.net.stages();
        widen(self.switches[unit.number()].request_links)
    }

    /// The units to which requests go from a switch, by the memory-side port.
    #[inline(always)]
    pub fn request_targets<const SMALL: bool>(&self, unit: UnitNumber) -> Ports<UnitNumber>
        requires switch { unit < count_of_switches self.now }
        requires small { SMALL ≡ true → IsSmall self.now }
        ensures value { result ≡
            targets_of_requests self.now (stage_of self.now unit) (index_of self.now unit) }
        ensures lead { LeadOn (inlets_of_requests self.now) self.now unit result }
    {
        // for the prover: a network has 1 to `MOST_STAGES` stages
        let _stages = self.net.stages();
        as_units::<SMALL>(self.switches[unit.number()].request_targets)
    }

    /// The links by which replies come to a switch, by the memory-side port.
    #[inline(always)]
    pub fn reply_links(&self, unit: UnitNumber) -> Ports<usize>
        requires { unit < count_of_switches self.now }
        ensures value { result ≡
            links_of_replies self.now (stage_of self.now unit) (index_of self.now unit) }
        ensures inlets { AreInlets (inlets_of_replies self.now) self.now unit result }
    {
        // for the prover: a network has 1 to `MOST_STAGES` stages
        let _stages = self.net.stages();
        widen(self.switches[unit.number()].reply_links)
    }

    /// The units to which replies go from a switch, by the PE-side port.
    #[inline(always)]
    pub fn reply_targets<const SMALL: bool>(&self, unit: UnitNumber) -> Ports<UnitNumber>
        requires switch { unit < count_of_switches self.now }
        requires small { SMALL ≡ true → IsSmall self.now }
        ensures value { result ≡
            targets_of_replies self.now (stage_of self.now unit) (index_of self.now unit) }
        ensures lead { LeadOn (inlets_of_replies self.now) self.now unit result }
    {
        // for the prover: a network has 1 to `MOST_STAGES` stages
        let _stages = self.net.stages();
        as_units::<SMALL>(self.switches[unit.number()].reply_targets)
    }
}
