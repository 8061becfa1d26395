//! A run in the caller's thread, whose states are seen by an observer.

ghost use Rattle.std.specs.Prelude.{◌≡◌, ℕ, ◌+◌, ◌-◌, ◌≤◌, List, OnOk, IfOk};
ghost use Rattle.ultra_isa.specs.declared.Instr.{Instr};
ghost use Rattle.ultra_model.specs.{Machine.Settings, Balance.weight, declared.config.TheConstants.MOST_CYCLES};
ghost use Rattle.ultra_trace_alone.specs.BlocksAfter.{IsAfter};
ghost use Rattle.ultra_statistics.specs.Runs.{end_of};

use std::alloc::{AllocError, Global};
use ultra_block::Blocks;
use ultra_isa::Program;
use ultra_model::Config;
use ultra_trace_alone::most_cycles;

/// What sees a machine before its first cycle and after each, and notes something of it.
pub(crate) trait Observer: Drop {
    /// The first cycle of which it notes something.
    ghost from: { Self → ℕ };

    /// That it has noted what it needs of the ends of the cycles below one number, and of the
    /// starts of those below another.
    ghost has_noted: { Self → Settings → List Instr → ℕ → ℕ → Type 0 };

    /// Notes what it needs of a machine after a number of cycles. `goes_on` says whether the
    /// machine makes another one. An error says that memory was refused.
    fn note(&mut self, blocks: &Blocks, made: u32, goes_on: bool) -> Result<(), AllocError>
        requires one { blocks.now.count ≡ 1 }
        requires few { made ≤ MOST_CYCLES }
        requires state { IsAfter blocks.now.config blocks.now.program made blocks.now }
        requires noted { has_noted self.old blocks.now.config blocks.now.program (made - 1) made }
        ensures noted { OnOk result (has_noted self.new blocks.now.config blocks.now.program made
            (made + weight goes_on)) }
        ensures from { OnOk result (from self.new ≡ from self.old) };
}

/// Runs a program on a machine of these settings, and lets an observer see all states up to that
/// after cycle `to`. No cycle behind it is made. Gives the number of cycles. An error says that
/// memory was refused.
pub(crate) fn observe_run<O: Observer>(
    alloc: Global,
    config: &Config,
    program: &Program,
    to: u32,
    observer: &mut O,
) -> Result<u32, AllocError>
    requires { O.has_noted observer.old config.now program.now 0 0 }
    ensures end { IfOk result (λ n. n ≡ end_of to config.now program.now) }
    ensures noted { IfOk result (λ n. O.has_noted observer.new config.now program.now n n) }
    ensures from { OnOk result (O.from observer.new ≡ O.from observer.old) }
{
    let mut blocks = Blocks::in_one_block(alloc, config, program)?;
    observe_cycles(&mut blocks, to, observer)
}

/// The same for a machine before its first cycle.
fn observe_cycles<O: Observer>(
    blocks: &mut Blocks,
    to: u32,
    observer: &mut O,
) -> Result<u32, AllocError>
    requires one { blocks.old.count ≡ 1 }
    requires start { IsAfter blocks.old.config blocks.old.program 0 blocks.old }
    requires noted { O.has_noted observer.old blocks.old.config blocks.old.program 0 0 }
    ensures end { IfOk result (λ n. n ≡ end_of to blocks.old.config blocks.old.program) }
    ensures noted { IfOk result (λ n.
        O.has_noted observer.new blocks.old.config blocks.old.program n n) }
    ensures from { OnOk result (O.from observer.new ≡ O.from observer.old) }
{
    let end = most_cycles(blocks, None).min(to.saturating_add(1));
    for cycle in 0..end {
        observer.note(blocks, cycle, true)?;
        blocks.cycle();
        if blocks.is_quiet() {
            observer.note(blocks, cycle + 1, false)?;
            return Ok(cycle + 1);
        }
    }
    observer.note(blocks, end, false)?;
    Ok(end)
}
