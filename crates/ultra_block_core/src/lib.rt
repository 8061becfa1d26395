//! Blocks: some units of a machine, by their numbers, and the links between them.
//!
//! A block keeps sets of unit numbers, each a fact about its units or about what is on links. A
//! half of a cycle visits only the units of one of them, since it leaves all others as they are.
//! `docs/CRATES.md` lists the sets: what each says, and what adds a unit to it and removes one.
//!
//! The code that changes units is compiled twice, by the constant `SMALL`. One copy is for a
//! machine in one block of at most 4 stages: all of its units, at most 64, are in the first word of
//! a set. The other is for all other machines.
#![tactic(auto)]

mod away;
mod block;
mod building;
mod execute;
mod half;
mod held;
mod quiet;
mod rooms;
mod send_replies;
mod send_requests;
mod serve;
mod sets;
mod take_replies;
mod take_requests;

pub use block::Block;
pub use half::Half;
pub use held::Held;
pub use rooms::Rooms;
pub use ultra_topology::{reply_inlets, request_inlets};
