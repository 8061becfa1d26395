//! What the stages of a machine hold, and the sums and maxima over cycles.

ghost use Rattle.std.specs.Prelude.{◌≡◌, ℕ, List, ◌+◌, ◌^◌, ◌<◌, ◌≤◌, slice_index};
ghost use Rattle.ultra_isa.specs.declared.Instr.{Instr as InstrOf};
ghost use Rattle.ultra_model.specs.Machine.{Settings};
ghost use Rattle.ultra_measure.specs.{Sums.HaveRoom, Held.AreUnitsWith, Kept.{AreDepths, AreWithState, IsAfterCycle}, Nets.IsNetOf};

use crate::queues::depth_of_stage;
use ultra_block::{Blocks, Held};
use ultra_route::Net;
use ultra_topology::UnitSet;

/// What the stages hold of a kind, by stage: the sums over cycles, and the most of one queue or
/// wait buffer. Also the sums of the wait buffers that are full.
#[derive(Clone, Copy, Drop)]
pub(crate) struct Depths {
    /// The sums.
    pub(crate) sums: [u64; 6],
    /// The maxima.
    pub(crate) maxima: [u32; 6],
    /// The sums of the wait buffers that are full.
    pub(crate) full: [u64; 6],
}

impl Depths {
    /// The sums over no cycles: all are 0.
    pub(crate) fn new() -> Depths
        ensures { (c : Settings) (program : List InstrOf) (from : ℕ) (held : Held) →
            AreDepths c program from from held result }
    {
        Depths {
            sums: [0; 6],
            maxima: [0; 6],
            full: [0; 6],
        }
    }

    /// Adds cycle `cycle` to the sums of a kind, which began with cycle `from`.
    #[inline(always)]
    pub(crate) fn note_cycle<const SMALL: bool>(
        &mut self,
        blocks: &Blocks,
        net: Net,
        held: Held,
        from: u32,
        cycle: u32,
    )
        requires one { blocks.now.count ≡ 1 }
        requires net { IsNetOf SMALL net blocks.now.config }
        requires run { IsAfterCycle cycle blocks.now }
        requires order { from ≤ cycle }
        requires kept { AreDepths blocks.now.config blocks.now.program from cycle held self.old }
        ensures { AreDepths blocks.now.config blocks.now.program from (cycle + 1) held self.new }
    {
        let holders = blocks.holding_of_one(held);
        // where nothing is held, as often in a small machine, no sum and no most changes
        if holders.is_empty() {
            return;
        }
        self.note_stages::<SMALL>(blocks, net, held, holders);
    }

    /// Adds what each stage holds of a kind in one state of a machine. `holders` are the units that
    /// hold it. Each kind has its own specialised copy, which asks no switch for the kind.
    #[inline(always)]
    fn note_stages<const SMALL: bool>(
        &mut self,
        blocks: &Blocks,
        net: Net,
        held: Held,
        holders: &UnitSet,
    )
        requires one { blocks.now.count ≡ 1 }
        requires net { IsNetOf SMALL net blocks.now.config }
        requires holders { AreUnitsWith blocks.now held holders.now }
        requires room { HaveRoom 6 self.old.sums }
        requires room_full { HaveRoom 6 self.old.full }
        ensures { AreWithState blocks.now.config blocks.now.machine held self.old self.new }
    {
        for stage in 0..net.stages() {
            let here = depth_of_stage::<SMALL>(blocks, net, held, holders, stage);
            let at = stage as usize;
            self.sums[at] += u64::from(here.sum);
            self.maxima[at] = self.maxima[at].max(here.most);
            self.full[at] += u64::from(here.full);
        }
    }
}
