//! Why there is no program and no run.

ghost use Rattle.std.specs.Prelude.{◌≡◌};

use std::alloc::AllocError;
use thiserror::Error;

/// Why there is no program and no run.
#[derive(Clone, Copy, PartialEq, Eq, Debug, Drop, Error)]
pub enum ColibFault {
    /// Memory was refused.
    #[error("no memory")]
    NoMemory,
    /// A parameter is out of its range, or cells have initial values.
    #[error("bad parameter")]
    BadParameter,
}

impl From<AllocError> for ColibFault {
    ghost use Rattle.ultra_colib.specs.declared.fault.ColibFault.TheVariants.{NoMemory};

    ghost from_gives = { λ _ fault. fault ≡ NoMemory };

    fn from(_: AllocError) -> ColibFault {
        ColibFault::NoMemory
    }
}
