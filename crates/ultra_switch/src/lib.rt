//! The enhanced switch of the Omega network. It has queues toward memory, in which requests for one
//! cell are combined, wait buffers that keep what is needed to answer them, and queues toward the
//! processing elements.
//!
//! Queues, wait buffers and pairwise combining are the 1983 paper's. Which entry combines and when,
//! a wait buffer for each queue toward memory, the places of the queues and their room rules are
//! this project's profile.
#![tactic(auto)]

ghost use Rattle.std.specs.Prelude.{◌≡◌, ℕ, ◌≤◌, IfOk};
ghost use Rattle.ultra_switch.specs.Queues.{empty_requests, empty_replies};

mod marked_queue;
mod marks;
mod queue;
mod reply_queue;
mod request_queue;

pub use reply_queue::ToPe;
pub use request_queue::ToMm;
use std::alloc::{AllocError, Global};
pub use ultra_msg::Slot;
use ultra_msg::{Cell, Give, Pe, ReplyMessage, Request};

/// The most places that a queue toward memory can have: its marks are the bits of a word.
pub const MOST_REQUEST_PLACES: usize = 32;

/// The most places that a wait buffer can have.
pub const MOST_WAIT_PLACES: usize = 16;

/// A request in a queue toward memory.
#[derive(Clone, Copy, PartialEq, Eq, Debug, Drop)]
pub struct QueueEntry {
    /// What is sent to memory: the request that arrived, or what stands for it and the one that it
    /// combined with.
    pub request: Request,
    /// Whether it has combined in this queue.
    pub combined: bool,
}

/// What is kept of a combined pair, to answer its two requests from the one reply. The old request
/// was in the queue when the new one came. What was sent for both has the identity of the old one.
#[derive(Clone, Copy, PartialEq, Eq, Debug, Default, Drop)]
pub struct WaitRecord {
    /// The processing element of the old request.
    pub pe: Pe,
    /// The cell of both requests.
    pub cell: Cell,
    /// How the old request is answered.
    pub give_old: Give,
    /// The processing element of the new request.
    pub partner: Pe,
    /// How the new request is answered.
    pub give_new: Give,
}

/// What became of a request that arrived at a queue toward memory.
#[derive(Clone, Copy, PartialEq, Eq, Debug, Drop)]
pub enum Arrived {
    /// It is at the end of the queue.
    Appended,
    /// It combined with the request of this processing element.
    CombinedWith(Pe),
}

/// What came of a reply at a switch.
#[derive(Clone, Copy, PartialEq, Eq, Debug, Drop)]
pub enum Split<M = ReplyMessage> {
    /// The reply itself: its request had not combined here.
    One(M),
    /// The replies to the two requests of a combined pair: that to the one that was in the queue,
    /// then that to the one that came to it.
    Two(M, M),
}

/// Why a switch could not be made.
#[derive(Clone, Copy, Debug, Drop)]
pub enum SwitchFault {
    /// The memory for a queue was refused.
    NoMemory,
}

/// What there is at each of the two ports of a switch, port 0 and port 1.
#[derive(Clone, Copy, Drop)]
pub struct Ports<T> {
    /// At port 0.
    pub zero: T,
    /// At port 1.
    pub one: T,
}

/// A switch of two by two: for each memory-side port a queue toward memory with its wait buffer,
/// and for each PE-side port a queue toward the processing elements.
#[derive(Drop)]
pub struct Switch {
    /// The queues toward memory, by the memory-side port.
    pub to_mm: Ports<ToMm>,
    /// The queues toward the processing elements, by the PE-side port.
    pub to_pe: Ports<ToPe>,
}

impl Switch {
    /// A switch whose queues and wait buffers are empty. `request_places` is the number of places
    /// of each queue toward memory, at most `MOST_REQUEST_PLACES`. `reply_places` is that of
    /// each queue toward the processing elements. `wait_places` is that of each wait buffer, at
    /// most `MOST_WAIT_PLACES`.
    ///
    /// `NoMemory` means that the memory for a queue was refused.
    pub fn new(
        alloc: Global,
        request_places: usize,
        reply_places: usize,
        wait_places: usize,
    ) -> Result<Switch, SwitchFault>
        requires requests { request_places ≤ MOST_REQUEST_PLACES }
        requires records { wait_places ≤ MOST_WAIT_PLACES }
        ensures to_mm { IfOk result (λ s. let q = empty_requests request_places wait_places in
            (s.to_mm.zero ≡ q) × (s.to_mm.one ≡ q)) }
        ensures to_pe { IfOk result (λ s. let q = empty_replies reply_places in
            (s.to_pe.zero ≡ q) × (s.to_pe.one ≡ q)) }
    {
        let to_mm = Ports {
            zero: ToMm::new(alloc, request_places, wait_places)?,
            one: ToMm::new(alloc, request_places, wait_places)?,
        };
        let to_pe = Ports {
            zero: ToPe::new(alloc, reply_places)?,
            one: ToPe::new(alloc, reply_places)?,
        };
        Ok(Switch { to_mm, to_pe })
    }
}

impl From<AllocError> for SwitchFault {
    fn from(_: AllocError) -> SwitchFault {
        SwitchFault::NoMemory
    }
}
