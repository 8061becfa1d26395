//! Why a verdict isn't written.

ghost use Rattle.std.specs.Prelude.{◌≡◌};
ghost use Rattle.ultra_verdict.specs.declared.fault.VerdictFault.TheVariants.{Write, NoMemory};

use std::alloc::AllocError;
use ultra_msg::SinkFault;

/// Why a verdict isn't written.
#[derive(Clone, Copy, PartialEq, Eq, Debug, Drop)]
pub enum VerdictFault {
    /// The sink failed.
    Write,
    /// Memory was refused.
    NoMemory,
}

impl From<SinkFault> for VerdictFault {
    ghost from_gives = { λ _ fault. fault ≡ Write };

    fn from(_: SinkFault) -> VerdictFault {
        VerdictFault::Write
    }
}

impl From<AllocError> for VerdictFault {
    ghost from_gives = { λ _ fault. fault ≡ NoMemory };

    fn from(_: AllocError) -> VerdictFault {
        VerdictFault::NoMemory
    }
}
