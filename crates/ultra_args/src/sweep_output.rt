//! What a sweep writes.

use crate::WindowCycles;

/// What a sweep writes.
#[derive(Clone, Copy)]
pub enum SweepOutput {
    /// The report: the trace of each job.
    Report,
    /// The measures of each job.
    Measures {
        /// The length of a window. Where no number is given, all that is measured is the one window.
        every: Option<WindowCycles>,
        /// The first cycle that is measured: 0 where no number is given.
        from: u32,
        /// The last cycle that is measured: 1,000,000 where no number is given.
        to: u32,
    },
}
