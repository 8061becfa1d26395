//! Tests of the paracomputer, the coordination library, the assembler and the explainer, and of
//! boards, sweeps and files of jobs. They use public calls alone, and are in a separate crate, so
//! that no library is proved a second time with its tests.
#![tactic(auto)]

#[cfg(test)]
mod boards;
#[cfg(test)]
mod cases;
#[cfg(test)]
mod equal;
#[cfg(test)]
mod events;
#[cfg(test)]
mod explainer_beside;
#[cfg(test)]
mod files;
#[cfg(test)]
mod gates;
#[cfg(test)]
mod gathers;
#[cfg(test)]
mod heaps;
#[cfg(test)]
mod high;
#[cfg(test)]
mod jobs;
#[cfg(test)]
mod making;
#[cfg(test)]
mod nodes;
#[cfg(test)]
mod paracomputer_beside;
#[cfg(test)]
mod random;
#[cfg(test)]
mod runs;
#[cfg(test)]
mod sweeps;
#[cfg(test)]
mod texts;
#[cfg(test)]
mod three_stages;
#[cfg(test)]
mod trees;
#[cfg(test)]
mod wrong_programs;
