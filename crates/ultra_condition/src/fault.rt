//! Why a text isn't read.

ghost use Rattle.std.specs.Prelude.{◌≡◌};

use std::alloc::AllocFailed;

/// Why a text isn't read as a condition or a sum.
#[derive(Clone, Copy, PartialEq, Eq, Debug, Drop)]
pub enum ConditionFault {
    /// Memory was refused.
    NoMemory,
    /// The text isn't one.
    NotOne,
}

impl<T: Drop> From<AllocFailed<T>> for ConditionFault {
    ghost use Rattle.ultra_condition.specs.declared.fault.ConditionFault.TheVariants.{NoMemory};

    ghost from_gives = { λ _ fault. fault ≡ NoMemory };

    fn from(_: AllocFailed<T>) -> ConditionFault {
        ConditionFault::NoMemory
    }
}
