//! The two kinds of messages.

/// A kind of message that goes from unit to unit.
#[derive(Clone, Copy, Drop)]
pub enum MessageKind {
    /// From memory to processing elements.
    Replies,
    /// From processing elements to memory.
    Requests,
}
