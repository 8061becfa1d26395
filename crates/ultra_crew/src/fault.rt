//! Why a cycle was not made.

use crossbeam_channel::SendError;
use std::alloc::{AllocError, AllocFailed};
use thiserror::Error;

/// Why a cycle was not made. The machine's blocks are then given up.
#[derive(Clone, Copy, PartialEq, Eq, Debug, Drop, Error)]
pub enum CrewFault {
    /// A thread could not be started, or died before it had given all results back.
    #[error("no thread")]
    NoThread,
    /// Memory was refused.
    #[error("no memory")]
    NoMemory,
}

impl From<AllocError> for CrewFault {
    ghost use Rattle.std.specs.Prelude.{◌≡◌};
    ghost use Rattle.ultra_crew.specs.declared.fault.CrewFault.TheVariants.{NoMemory};

    ghost from_gives = { λ _ fault. fault ≡ NoMemory };

    fn from(_: AllocError) -> CrewFault {
        CrewFault::NoMemory
    }
}

impl<T: Drop> From<AllocFailed<T>> for CrewFault {
    ghost use Rattle.std.specs.Prelude.{◌≡◌};
    ghost use Rattle.ultra_crew.specs.declared.fault.CrewFault.TheVariants.{NoMemory};

    ghost from_gives = { λ _ fault. fault ≡ NoMemory };

    fn from(_: AllocFailed<T>) -> CrewFault {
        CrewFault::NoMemory
    }
}

impl<T: Drop> From<SendError<T>> for CrewFault {
    ghost use Rattle.std.specs.Prelude.{◌≡◌};
    ghost use Rattle.ultra_crew.specs.Faults.{fault_of_send};

    ghost from_gives = { λ unsent fault. fault ≡ fault_of_send unsent };

    fn from(unsent: SendError<T>) -> CrewFault {
        match unsent {
            SendError::OutOfMemory(_) => CrewFault::NoMemory,
            SendError::Disconnected(_) => CrewFault::NoThread,
        }
    }
}
