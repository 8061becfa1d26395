//! How many registers of the modules are full.

ghost use Rattle.std.specs.Prelude.{◌≡◌, ◌^◌, ◌≤◌, true, length};
ghost use Rattle.ultra_model.specs.{Machine.size, Balance.total};
ghost use Rattle.ultra_topology.specs.Numbers.{IsSmall, module_number};
ghost use Rattle.ultra_holders.specs.Holders.{numbers_in};
ghost use Rattle.ultra_measure.specs.{Held.held_in_module, Nets.IsNetOf};

use ultra_block::{Blocks, Held};
use ultra_holders::modules_in;
use ultra_route::Net;
use ultra_topology::UnitSet;

/// How many modules hold something of a kind. Each kind uses a specialised copy.
#[inline(always)]
pub(crate) fn modules_that_hold<const SMALL: bool>(blocks: &Blocks, net: Net, held: Held) -> u32
    requires one { blocks.now.count ≡ 1 }
    requires net { IsNetOf SMALL net blocks.now.config }
    ensures value { result ≡
        total (size blocks.now.config) (held_in_module held blocks.now.machine) }
    ensures few { result ≤ 64 }
{
    count_modules::<SMALL>(net, blocks.holding_of_one(held))
}

/// How many modules are in a set.
#[inline(always)]
fn count_modules<const SMALL: bool>(net: Net, units: &UnitSet) -> u32
    requires { SMALL ≡ true → IsSmall net }
    ensures value { result ≡ length (numbers_in units.now (module_number net 0) (2 ^ net)) }
    ensures few { result ≤ 64 }
{
    // for the prover: there are at most 64
    let _most = net.size();
    let mut count: u32 = 0;
    for _unit in modules_in::<SMALL>(net, units) {
        count += 1;
    }
    count
}
