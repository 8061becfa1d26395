//! Why a run has not written its trace.

ghost use Rattle.std.specs.Prelude.{◌≡◌};
ghost use Rattle.ultra_trace_alone.specs.declared.fault.RunFault.TheVariants.{Write, NoMemory};

use std::alloc::AllocError;
use ultra_msg::SinkFault;

/// Why a run has not written its trace.
#[derive(Clone, Copy, PartialEq, Eq, Debug, Drop)]
pub enum RunFault {
    /// The sink failed.
    Write,
    /// Memory was refused.
    NoMemory,
    /// A thread could not be started, or died before the run ended.
    NoThread,
}

impl From<SinkFault> for RunFault {
    ghost from_gives = { λ _ fault. fault ≡ Write };

    fn from(_: SinkFault) -> RunFault {
        RunFault::Write
    }
}

impl From<AllocError> for RunFault {
    ghost from_gives = { λ _ fault. fault ≡ NoMemory };

    fn from(_: AllocError) -> RunFault {
        RunFault::NoMemory
    }
}
