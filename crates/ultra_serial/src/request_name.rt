//! The name of a request in a log and in a serial list.

use ultra_msg::Pe;

/// The name of a request in a log and in a serial list.
#[derive(Clone, Copy, Drop)]
pub(crate) struct RequestName {
    /// The processing element that issued it.
    pub pe: Pe,
    /// How many requests that processing element had issued before.
    pub number: u32,
}
