//! What workers give back over several cycles.

ghost use Rattle.std.specs.Prelude.{ℕ, List, []};
ghost use Rattle.ultra_isa.specs.declared.Instr.{Instr};
ghost use Rattle.ultra_block_core.specs.declared.half.Half.{Half};
ghost use Rattle.ultra_crew.specs.declared.task.BlockTask.{BlockTask};

use std::marker::Brand;

/// What the workers of a machine give back over several cycles: the program that the machine runs
/// and, for each cycle, half and worker, that worker's results. All of this follows from the
/// machine at the start. So whoever starts the workers names what is expected. A result that has
/// the name of a cycle, a half and a worker is then known to be the right one.
pub trait ExpectedResults {
    ghost results: { ℕ → Half → ℕ → List BlockTask };

    ghost program: { List Instr };
}

impl ExpectedResults for Brand {
    ghost results = { λ _ _ _. [] };

    ghost program = { [] };
}
