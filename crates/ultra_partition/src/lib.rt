//! A machine cut into blocks by a partition: which block has which unit, and which messages go from
//! one block to another. Also what all blocks together do to the whole machine in a cycle, and how
//! their events are merged.
#![tactic(auto)]

mod answers;
mod kind;
mod laws;
mod merging;
mod moving;

pub use answers::{are_quiet, holders, note_rooms};
pub use kind::MessageKind;
pub use laws::half_laws;
pub use merging::{MOST_LISTS, Merge, Ranking};
pub use moving::exchange;
