//! What the processing elements of a machine are doing, over cycles.

ghost use Rattle.std.specs.Prelude.{◌≡◌, ℕ, List, ◌+◌, ◌*◌, ◌^◌, ◌<◌, ◌≤◌, true};
ghost use Rattle.ultra_isa.specs.declared.Instr.{Instr as InstrOf};
ghost use Rattle.ultra_model.specs.{Machine.{Settings, size}, Balance.total};
ghost use Rattle.ultra_measure.specs.{ElementStates.AreAnswered, Held.{AreUnitsWith, pending}, Kept.{AreElementSums, IsAfterCycle}, Nets.IsNetOf, Window.greatest};
ghost use Rattle.ultra_block.specs.Held.TheVariants.{Request};

use crate::element_states::ElementStates;
use crate::pe_set::PeSet;
use ultra_block::{Blocks, Held};
use ultra_holders::elements_in;
use ultra_route::Net;
use ultra_topology::UnitSet;

/// How many requests wait in all interfaces, and the most in one.
#[derive(Clone, Copy, Drop)]
pub(crate) struct Pending {
    /// All together.
    pub(crate) sum: u32,
    /// The most.
    pub(crate) most: u32,
}

/// The requests that wait in interfaces. `holders` are the units that hold requests.
#[inline(always)]
fn pending_in<const SMALL: bool>(blocks: &Blocks, net: Net, holders: &UnitSet) -> Pending
    requires one { blocks.now.count ≡ 1 }
    requires net { IsNetOf SMALL net blocks.now.config }
    requires holders { AreUnitsWith blocks.now Request holders.now }
    ensures sum { result.sum ≡ total (size blocks.now.config) (pending blocks.now.machine) }
    ensures most { result.most ≡ greatest (size blocks.now.config) (pending blocks.now.machine) }
    ensures few { result.sum ≤ 128 * 64 }
{
    // for the prover: there are at most 64 processing elements
    let _most = net.size();
    let mut sum: u32 = 0;
    let mut most: u32 = 0;
    for pe in elements_in::<SMALL>(net, holders) {
        let here = pending_of(blocks, net, pe);
        sum += here;
        most = most.max(here);
    }
    Pending { sum, most }
}

/// How many requests wait in the interface of a processing element.
#[inline(always)]
fn pending_of(blocks: &Blocks, net: Net, pe: u32) -> u32
    requires one { blocks.now.count ≡ 1 }
    requires net { net ≡ blocks.now.config.stages }
    requires pe { pe < 2 ^ blocks.now.config.stages }
    ensures value { result ≡ pending blocks.now.machine pe }
    ensures few { result ≤ 8 }
{
    blocks.element_of_one(net, pe).interface.pending_count() as u32
}

/// The sums over cycles, and the most requests that ever waited in one interface.
#[derive(Drop)]
pub(crate) struct ElementSums {
    /// Those that ran.
    pub(crate) running: u64,
    /// Those that would have stalled next.
    pub(crate) stalled: u64,
    /// Open cells.
    pub(crate) open: u64,
    /// Requests that waited in interfaces.
    pub(crate) pending: u64,
    /// The most of one interface.
    pub(crate) pending_most: u32,
    /// What each was doing when it was last looked at.
    pub(crate) states: ElementStates,
}

impl ElementSums {
    /// The sums over no cycles: all are 0.
    pub(crate) fn new(net: Net) -> ElementSums
        ensures { (c : Settings) (program : List InstrOf) (from : ℕ) → c.stages ≡ net →
            AreElementSums c program from from result }
    {
        ElementSums {
            running: 0,
            stalled: 0,
            open: 0,
            pending: 0,
            pending_most: 0,
            states: ElementStates::new(net),
        }
    }

    /// Adds cycle `cycle` to the sums, which began with cycle `from`. `answered` are those to which
    /// replies came in it.
    pub(crate) fn note_cycle<const SMALL: bool>(
        &mut self,
        blocks: &Blocks,
        net: Net,
        from: u32,
        cycle: u32,
        answered: PeSet,
    )
        requires one { blocks.now.count ≡ 1 }
        requires net { IsNetOf SMALL net blocks.now.config }
        requires run { IsAfterCycle cycle blocks.now }
        requires order { from ≤ cycle }
        requires answered { AreAnswered (size blocks.now.config) blocks.now.machine.events
            answered }
        requires kept { AreElementSums blocks.now.config blocks.now.program from cycle self.old }
        ensures { AreElementSums blocks.now.config blocks.now.program from (cycle + 1) self.new }
    {
        self.states.note_cycle(blocks, net, cycle, answered);
        let pending = pending_in::<SMALL>(blocks, net, blocks.holding_of_one(Held::Request));
        // three sums in one
        let all = self.states.tally.sum();
        self.running += u64::from(all % 0x100);
        self.stalled += u64::from(all / 0x100 % 0x100);
        self.open += u64::from(all / 0x1_0000);
        self.pending += u64::from(pending.sum);
        self.pending_most = self.pending_most.max(pending.most);
    }
}
