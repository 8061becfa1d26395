//! The law of a sweep.

ghost use Rattle.ultra_sweep.specs.Law.{SweepLaw};

/// The law of a sweep, as this function's contract. Suppose that `work` was called on a board at
/// least once, all its calls there ended well, and no number was drawn elsewhere. Then all their
/// results together name each job below the board's limit once. So `gather` over them gives each
/// job once, or answers that memory was refused.
///
/// It holds between any two steps on the board, by the board's rule. That a seat is spent and that
/// its results name what it drew is the contract of `work`. The function itself does nothing.
pub fn sweep_law()
    ensures { SweepLaw }
{}
