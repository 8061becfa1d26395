//! What each half of a cycle does to one unit of the machine: to a switch, to a memory module, to a
//! processing element.
//!
//! A unit doesn't know its neighbours: the caller says what goes on, and brings what comes. When a
//! message goes on, and in which order, is this project's profile.
#![tactic(auto)]

ghost use Rattle.std.specs.Prelude.{◌≡◌, ◌<◌, ◌++◌, ◌∷◌, [], length, vec_capacity};

mod elements;
pub mod modules;
pub mod replies;
pub mod requests;
pub mod switches;

pub use elements::{ProcessingElement, StepOutcome};

/// Adds an entry at the end of a list that has memory for it. The list asks for none.
#[inline(always)]
pub fn append<T>(list: &mut Vec<T>, entry: T)
    requires { length list.old.items < vec_capacity list.old }
    ensures entries { list.new.items ≡ list.old.items ++ entry ∷ [] }
    ensures places { vec_capacity list.new ≡ vec_capacity list.old }
{
    list.push_reserved(entry);
}
