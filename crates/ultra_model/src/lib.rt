//! The definition of the whole machine: its settings, its state between two cycles, the phases of a
//! cycle, what every phase keeps, and the trace of a run. The machine is that of the 1983 paper;
//! its timing, sizes and limits are this project's profile.
#![tactic(auto)]

mod config;

pub use config::{Config, ConfigFault, Field, MOST_CYCLES, MOST_REPLY_PLACES, RawSettings};
use ultra_isa::MachineFault;
use ultra_msg::Pe;

/// A processing element that faulted in the last cycle, and why.
#[derive(Clone, Copy, Drop)]
pub struct Stop {
    /// The processing element.
    pub pe: Pe,
    /// Why it faulted.
    pub fault: MachineFault,
}
