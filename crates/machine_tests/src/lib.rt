//! Tests of whole machines with their traces and serial orders, above all of what no contract says:
//! that several workers take part, and what happens where memory is refused. They use public calls
//! alone, and are in a separate crate, so that no library is proved a second time with its tests.
//! What the program shows is a stored case, in `tests/cases/`.
#![tactic(auto)]

#[cfg(test)]
mod blocks;
#[cfg(test)]
mod crews;
#[cfg(test)]
mod cuts;
#[cfg(test)]
mod equal;
#[cfg(test)]
mod machines;
#[cfg(test)]
mod meeting;
#[cfg(test)]
mod orders;
#[cfg(test)]
mod support;
#[cfg(test)]
mod traces;
