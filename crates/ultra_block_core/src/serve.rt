//! The half of a cycle in which modules serve.

ghost use Rattle.std.specs.Prelude.{◌≡◌, ℕ, ◌<◌, true, length};
ghost use Rattle.ultra_block_core.specs.{Prelude.{IsSmall, after_units, IsModule}, BlockState.{HasEventRoom, most_events}, Serving.{module_serves, serves}, Holding.ServesNothing};
ghost use Rattle.ultra_topology.specs.declared.TheConstants.{MOST_UNITS};

use crate::block::Block;
use ultra_msg::Event;
use ultra_topology::{UnitNumber, UnitSet, Visit, visit_all};
use ultra_unit_steps::append;

impl Block {
    /// The third half of a cycle: each module serves the request that waits, if no reply is in its
    /// way. The list of events must have room for those of the half.
    #[inline(always)]
    pub fn serve(&mut self)
        requires { (k : ℕ) → k < MOST_UNITS → HasEventRoom k self.old }
        ensures { self.new ≡ after_units serves MOST_UNITS self.old }
    {
        self.serve_sized::<false>();
    }

    /// The same half. Its code is compiled once for `SMALL` machines, and once for all others.
    #[inline(always)]
    #[tactic(auto, using(ultra_topology::proofs::Readers::few_units, std::proofs::lemmas::Bool::Decides::nat_tests))]
    pub fn serve_sized<const SMALL: bool>(&mut self)
        requires small { SMALL ≡ true → IsSmall self.old.stages }
        requires room { (k : ℕ) → k < MOST_UNITS → HasEventRoom k self.old }
        ensures { self.new ≡ after_units serves MOST_UNITS self.old }
    {
        // for the prover: a network has 1 to `MOST_STAGES` stages
        let _stages = self.net.stages();
        visit_all::<SMALL, Block, Serve<SMALL>>(&Serve, self);
    }

    /// A module serves the request that waits, if no reply is in its way.
    fn serve_module<const SMALL: bool>(&mut self, unit: UnitNumber, module_number: u32)
        requires is { IsModule self.old.stages unit module_number }
        requires room { length self.old.events < most_events }
        ensures { self.new ≡ module_serves module_number self.old }
    {
        let Some(memory_module) = &mut self.modules[module_number as usize] else {
            return;
        };
        let served = memory_module.serve();
        self.sets.note_module_served(unit, memory_module);
        if let Some(served) = served {
            let event = Event::Served {
                module: module_number,
                request: served.request,
                reply: served.reply,
                now: served.now,
            };
            append(&mut self.events, event);
        }
    }
}

/// A visit in which a module serves.
#[derive(Clone, Copy, Drop)]
struct Serve<const SMALL: bool>;

#[tactic(auto, using(crate::proofs::Visited::serves_none))]
impl<const SMALL: bool> Visit<Block> for Serve<SMALL> {
    ghost can_visit = { λ v n b. HasEventRoom n b };

    ghost visited = { λ v n b. serves n b };

    ghost is_idle = { λ v n b. ServesNothing n b };

    #[inline(always)]
    fn units<'t>(&self, block: &'t Block) -> &'t UnitSet {
        &block.sets.to_serve
    }

    #[inline(always)]
    fn visit(&self, block: &mut Block, unit: UnitNumber) {
        if let Some(number) = block.wiring.module(unit.number()) {
            block.serve_module::<SMALL>(unit, number);
        }
    }
}
