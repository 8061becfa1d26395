//! A walk over the units of one kind that are in a set.
#![tactic(auto)]

mod holders;

pub use holders::{Holders, elements_in, modules_in, switches_in, switches_of};
