//! Why jobs weren't done.

ghost use Rattle.std.specs.Prelude.{◌≡◌};
ghost use Rattle.ultra_sweep_command.specs.Sweep.{failure_of};

use std::alloc::AllocError;
use ultra_inputs::Failure;

/// Why jobs weren't done.
#[derive(Clone, Copy)]
pub enum SweepFault {
    /// Memory was refused.
    NoMemory,
    /// A thread couldn't be started.
    NoThread,
}

impl From<AllocError> for SweepFault {
    ghost use Rattle.ultra_sweep_command.specs.declared.fault.SweepFault.TheVariants.{NoMemory};

    ghost from_gives = { λ _ fault. fault ≡ NoMemory };

    fn from(_: AllocError) -> SweepFault {
        SweepFault::NoMemory
    }
}

impl SweepFault {
    /// The command's failure for it.
    pub(crate) fn failure<'f>(self) -> Failure<'f>
        ensures { result ≡ failure_of self }
    {
        match self {
            SweepFault::NoMemory => Failure::NoMemory,
            SweepFault::NoThread => Failure::NoThread,
        }
    }
}
