//! Which unit has a number, and tables without units.

ghost use Rattle.std.specs.Prelude.{◌≡◌, ◌+◌, ◌<◌, ◌≤◌, ◌^◌, IfNone, IfOk, IfSome, None, replicate};
ghost use Rattle.ultra_topology.specs.{Numbers.switch_count as count_of_switches, Units.IsSwitch};

use std::alloc::{AllocError, Global};
use ultra_route::Net;

/// A unit of a machine.
#[derive(Clone, Copy, Drop)]
pub enum Unit {
    /// A switch, by its stage and its index there.
    Switch { stage: u32, index: u32 },
    /// A memory module, by its number among modules.
    Module(u32),
    /// A processing element, by its number among those.
    Element(u32),
    /// None has the number.
    Nothing,
}

/// The place of a number among the `size` numbers from `first` on, or `None` if it isn't one of
/// those.
#[inline(always)]
pub(crate) fn place_from(number: usize, first: usize, size: usize) -> Option<u32>
    requires { first + size < 2 ^ 32 }
    ensures some { IfSome result (λ place. (place < size) × (number ≡ first + place)) }
    ensures none { IfNone result ((first ≤ number) → first + size ≤ number) }
{
    // numbers below `first` wrap around to huge values
    let place = number.wrapping_sub(first);
    if place < size {
        Some(place as u32)
    } else {
        None
    }
}

/// The stage of the switch with this number, and its index there.
#[inline(always)]
pub(crate) fn place_of(net: Net, number: usize) -> (u32, u32)
    requires { number < count_of_switches net }
    ensures { IsSwitch net number result.0 result.1 }
{
    // for the prover: the number of positions is even, and at most 64
    let _size = net.size();
    let high = net.stages() - 1;
    ((number >> high) as u32, (number % (1 << high)) as u32)
}

/// Returns `count` empty entries. Fails only if memory is refused.
pub fn empty_entries<T: Drop>(alloc: Global, count: usize) -> Result<Vec<Option<T>>, AllocError>
    ensures { IfOk result (λ v. v.items ≡ replicate count None) }
{
    let mut entries = Vec::with_capacity(alloc, count)?;
    for entry in 0..count {
        let _ = entry;
        entries.push(None)?;
    }
    Ok(entries)
}
