//! Conditions, and how they are evaluated.

ghost use Rattle.std.specs.Prelude.{◌≡◌, ℕ, ◌<◌, IfOk, IfErr, List, length};
ghost use Rattle.ultra_para.specs.{ParaState.cores_of};
ghost use Rattle.ultra_condition.specs.{Condition.{negate, both, either}, ConditionOf.condition_of, Meaning.holds, Limits.AreWithinLimits, Naming.{names_register, is_of_cells}};

use crate::fault::ConditionFault;
use crate::sum::{Sign, Sum};
use std::alloc::Global;
use ultra_isa::Processor;
use ultra_msg::{Pe, Register, Word};

/// A condition on a state.
#[derive(Drop)]
pub enum Condition {
    /// Two sums compare so.
    Compare(Sum, Sign, Sum),
    /// The condition doesn't hold.
    Not(Box<Condition>),
    /// Both conditions hold.
    And(Box<Condition>, Box<Condition>),
    /// At least one of the conditions holds.
    Or(Box<Condition>, Box<Condition>),
}

impl Condition {
    /// That the condition doesn't hold.
    pub(crate) fn not(alloc: Global, condition: Condition) -> Result<Condition, ConditionFault>
        ensures ok { IfOk result (λ c. condition_of c ≡ negate (condition_of condition)) }
        ensures refused { IfErr result (λ f. f ≡ ConditionFault.NoMemory) }
    {
        Ok(Condition::Not(Box::new(alloc, condition)?))
    }

    /// That both conditions hold.
    pub(crate) fn and(
        alloc: Global,
        first: Condition,
        second: Condition,
    ) -> Result<Condition, ConditionFault>
        ensures ok { IfOk result (λ c.
            condition_of c ≡ both (condition_of first) (condition_of second)) }
        ensures refused { IfErr result (λ f. f ≡ ConditionFault.NoMemory) }
    {
        let first = Box::new(alloc, first)?;
        Ok(Condition::And(first, Box::new(alloc, second)?))
    }

    /// That at least one of the conditions holds.
    pub(crate) fn or(
        alloc: Global,
        first: Condition,
        second: Condition,
    ) -> Result<Condition, ConditionFault>
        ensures ok { IfOk result (λ c.
            condition_of c ≡ either (condition_of first) (condition_of second)) }
        ensures refused { IfErr result (λ f. f ≡ ConditionFault.NoMemory) }
    {
        let first = Box::new(alloc, first)?;
        Ok(Condition::Or(first, Box::new(alloc, second)?))
    }

    /// Whether the condition holds in a state of these cells and processing elements, which has to
    /// have all that the condition names. It takes no memory.
    pub fn holds(&self, cells: &[Word], processors: &[Processor]) -> bool
        requires { AreWithinLimits (length cells.now) (length processors.now) (condition_of self.now) }
        ensures { result ≡ holds (condition_of self.now)
            record { cells = cells.now; cores = cores_of processors.now } }
    {
        match self {
            Condition::Compare(left, sign, right) => {
                let left = left.value(cells, processors);
                let right = right.value(cells, processors);
                sign.compares(left, right)
            }
            Condition::Not(condition) => !condition.holds(cells, processors),
            Condition::And(first, second) => {
                first.holds(cells, processors) && second.holds(cells, processors)
            }
            Condition::Or(first, second) => {
                first.holds(cells, processors) || second.holds(cells, processors)
            }
        }
    }

    /// Whether the condition names this register of this processing element.
    pub fn names_register(&self, pe: Pe, register: Register) -> bool
        ensures { result ≡ names_register pe register (condition_of self.now) }
    {
        match self {
            Condition::Compare(left, _, right) => {
                left.names_register(pe, register) || right.names_register(pe, register)
            }
            Condition::Not(condition) => condition.names_register(pe, register),
            Condition::And(first, second) | Condition::Or(first, second) => {
                first.names_register(pe, register) || second.names_register(pe, register)
            }
        }
    }

    /// Whether the condition is of cells alone.
    pub fn is_of_cells(&self) -> bool
        ensures { result ≡ is_of_cells (condition_of self.now) }
    {
        match self {
            Condition::Compare(left, _, right) => left.is_of_cells() && right.is_of_cells(),
            Condition::Not(condition) => condition.is_of_cells(),
            Condition::And(first, second) | Condition::Or(first, second) => {
                first.is_of_cells() && second.is_of_cells()
            }
        }
    }
}
