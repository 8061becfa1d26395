//! Sums, and how they are evaluated and compared.

ghost use Rattle.std.specs.Prelude.{◌≡◌, ℕ, ◌<◌, List, length};
ghost use Rattle.ultra_para.specs.{ParaState.cores_of};
ghost use Rattle.ultra_condition.specs.{Meaning.{sum_in, compares}, Limits.IsWithinLimits, Naming.{sum_names, sum_is_of_cells}};

use crate::value::Term;
use std::marker::Model;
use ultra_isa::Processor;
use ultra_msg::{Pe, Register, Word};

/// A sum of terms.
#[derive(Drop)]
pub struct Sum {
    terms: Vec<Term>,
}

impl Model for Sum {
    ghost use Rattle.std.specs.Prelude.{List};
    ghost use Rattle.ultra_condition.specs.declared.value.Term.{Term};

    ghost Value = { List Term };

    ghost view = { λ s. s.terms.items };
}

impl Sum {
    /// The sum of these terms.
    pub(crate) fn new(terms: Vec<Term>) -> Sum
        ensures { result ≡ terms.items }
    {
        Sum { terms }
    }

    /// The sum's value in a state of these cells and processing elements, which has to have all
    /// that the sum names.
    pub fn value(&self, cells: &[Word], processors: &[Processor]) -> u64
        requires { IsWithinLimits (length cells.now) (length processors.now) self.now }
        ensures { result ≡
            sum_in record { cells = cells.now; cores = cores_of processors.now } self.now }
    {
        let mut value = 0;
        for term in self.terms.as_slice() {
            value += term.value(cells, processors);
        }
        value
    }

    /// Whether the sum names this register of this processing element.
    pub fn names_register(&self, pe: Pe, register: Register) -> bool
        ensures { result ≡ sum_names pe register self.now }
    {
        self.terms.iter().any(|term| term.value.names(pe, register))
    }

    /// Whether the sum is of cells alone.
    pub fn is_of_cells(&self) -> bool
        ensures { result ≡ sum_is_of_cells self.now }
    {
        self.terms.iter().all(|term| term.value.is_of_cells())
    }
}

/// How two sums are compared.
#[derive(Clone, Copy, Drop)]
pub enum Sign {
    /// `<`
    Below,
    /// `<=`
    AtMost,
    /// `=`
    Equal,
    /// `!=`
    Unequal,
    /// `>=`
    AtLeast,
    /// `>`
    Above,
}

impl Sign {
    /// Whether the two values compare so.
    pub(crate) fn compares(self, left: u64, right: u64) -> bool
        ensures { result ≡ compares self left right }
    {
        match self {
            Sign::Below => left < right,
            Sign::AtMost => left <= right,
            Sign::Equal => left == right,
            Sign::Unequal => left != right,
            Sign::AtLeast => left >= right,
            Sign::Above => left > right,
        }
    }
}
