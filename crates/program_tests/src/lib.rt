//! Tests of the program over its public calls, with files and streams in memory, and of what it is
//! given: texts of settings, and files. They are in a separate crate, so that no library is proved a
//! second time with its tests.
#![tactic(auto)]

#[cfg(test)]
mod calls;
#[cfg(test)]
mod equal;
#[cfg(test)]
mod faults;
#[cfg(test)]
mod files;
#[cfg(test)]
mod host;
#[cfg(test)]
mod memory_files;
#[cfg(test)]
mod programs;
#[cfg(test)]
mod settings;
#[cfg(test)]
mod streams;
