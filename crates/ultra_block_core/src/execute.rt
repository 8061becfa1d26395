//! The half of a cycle in which processing elements make a step of the program.

ghost use Rattle.std.specs.Prelude.{◌≡◌, ℕ, true, ◌+◌, ◌-◌, ◌^◌, ◌<◌, length};
ghost use Rattle.ultra_block_core.specs.{Prelude.{IsSmall, after_units, IsElement}, BlockState.{most_events, most_stops}, Holding.IsAsleep};
ghost use Rattle.ultra_block_core.specs.Execution.{CanExecuteAt, ElementCanExecute, counted, element_executes, executes, executes_own};
ghost use Rattle.ultra_topology.specs.declared.TheConstants.{MOST_UNITS};

use crate::block::Block;
use ultra_topology::{UnitNumber, UnitSet, Visit, visit_all};
use ultra_unit_steps::{StepOutcome, append};

impl Block {
    /// The last half of a cycle: each processing element makes one step of the program. The cycles
    /// that are done must be fewer than `2^32 - 1`, and the lists of events and faults must have
    /// room for those of the half.
    #[inline(always)]
    pub fn execute(&mut self)
        requires can { (k : ℕ) → k < MOST_UNITS → CanExecuteAt k self.old }
        requires few { self.old.done < 2 ^ 32 - 1 }
        ensures { self.new ≡ counted (after_units (executes self.old.program) MOST_UNITS self.old) }
    {
        self.execute_sized::<false>();
    }

    /// The same half. Its code is compiled once for `SMALL` machines, and once for all others.
    #[inline(always)]
    #[tactic(auto, using(ultra_topology::proofs::Readers::few_units, std::proofs::lemmas::Bool::Decides::nat_tests))]
    pub fn execute_sized<const SMALL: bool>(&mut self)
        requires small { SMALL ≡ true → IsSmall self.old.stages }
        requires can { (k : ℕ) → k < MOST_UNITS → CanExecuteAt k self.old }
        requires few { self.old.done < 2 ^ 32 - 1 }
        ensures { self.new ≡ counted (after_units (executes self.old.program) MOST_UNITS self.old) }
    {
        // for the prover: a network has 1 to `MOST_STAGES` stages
        let _stages = self.net.stages();
        visit_all::<SMALL, Block, Execute<SMALL>>(&Execute, self);
        self.done += 1;
    }

    /// A processing element makes a step of the program.
    fn execute_element<const SMALL: bool>(&mut self, unit: UnitNumber, pe: u32)
        requires is { IsElement self.old.stages unit pe }
        requires issued { ElementCanExecute pe self.old }
        requires event_room { length self.old.events < most_events }
        requires stop_room { length self.old.stops < most_stops }
        ensures { self.new ≡ element_executes self.old.program pe self.old }
    {
        let Some(element) = &mut self.elements[pe as usize] else {
            return;
        };
        let outcome = element.execute(&self.program, pe);
        match outcome {
            StepOutcome::AtRest => self.awake.remove(unit),
            StepOutcome::Done => {
                if element.has_stopped() {
                    self.sets.note_element_stopped(unit);
                }
            }
            StepOutcome::Issued(event) => {
                self.sets.note_element_issued(unit);
                append(&mut self.events, event);
            }
            StepOutcome::Faulted(stop) => {
                self.sets.note_element_stopped(unit);
                append(&mut self.stops, stop);
            }
        }
    }
}

/// A visit in which a processing element makes a step of the program.
#[derive(Clone, Copy, Drop)]
struct Execute<const SMALL: bool>;

#[tactic(auto, using(crate::proofs::Visited::executes_none, crate::proofs::Visited::sleeps))]
impl<const SMALL: bool> Visit<Block> for Execute<SMALL> {
    ghost can_visit = { λ v n b. CanExecuteAt n b };

    ghost visited = { λ v n b. executes_own n b };

    ghost is_idle = { λ v n b. IsAsleep n b };

    #[inline(always)]
    fn units<'t>(&self, block: &'t Block) -> &'t UnitSet {
        &block.awake
    }

    #[inline(always)]
    fn visit(&self, block: &mut Block, unit: UnitNumber) {
        if let Some(pe) = block.wiring.element(unit.number()) {
            block.execute_element::<SMALL>(unit, pe);
        }
    }
}
