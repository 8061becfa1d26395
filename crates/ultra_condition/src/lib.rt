//! The language of conditions and sums: what a text says of a state of the paracomputer. The
//! language is this project's profile.
#![tactic(auto)]

mod condition;
mod fault;
mod laws;
mod operand;
mod reading;
mod scope;
mod sum;
mod value;
mod words;

pub use condition::Condition;
pub use fault::ConditionFault;
pub use laws::agreement_law;
pub use reading::{read_condition, read_sum};
pub use scope::Scope;
pub use sum::{Sign, Sum};
pub use value::{Group, Measure, Term, Value};

/// The most `not` and `(` of a condition that are inside one another.
pub const MOST_NESTED: usize = 100;
