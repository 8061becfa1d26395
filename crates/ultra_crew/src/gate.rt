//! What a worker calls before it makes a half of a block.

ghost use Rattle.std.specs.Prelude.{◌≡◌, ℕ, Bool, true};
ghost use Rattle.ultra_block_core.specs.declared.half.Half.{Half};

use std::sync::Wait;
use ultra_block_core::Half;

/// What each worker calls before it makes a half of a block. It sees no data of the machine, and
/// may wait, for another worker too.
pub trait Gate {
    /// Whether a gate was called for this half of this cycle and the block of this number. A crew
    /// knows nothing of its gate. So it has this fact only from a call of `before` with this
    /// cycle, half and block.
    ghost was_called: { ℕ → Half → ℕ → Bool } = { λ _ _ _. true };

    /// The worker is about to make this half of this cycle for the block of this number. Cycles and
    /// blocks count from 0.
    fn before<R: Wait>(&self, rt: &R, cycle: u32, half: Half, block: usize)
        ensures { was_called cycle half block ≡ true };
}
