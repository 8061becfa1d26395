//! Queues of requests with marks.

ghost use Rattle.std.specs.Prelude.{◌≡◌, ℕ, ◌+◌, ◌<◌, ◌≤◌, ◌==◌, ◌++◌, ◌∷◌, [], length, drop, slice_get, slice_set, IfOk, IfSome, Some, true, false};
ghost use Rattle.std.specs.List.{position};
ghost use Rattle.ultra_switch.specs.{Arrive.{can_combine, entry}, Queues.request_of, declared.TheConstants.MOST_REQUEST_PLACES};

use crate::QueueEntry;
use crate::marks::Marks;
use crate::queue::Queue;
use std::alloc::{AllocError, Global};
use std::marker::Model;
use ultra_msg::RequestPacket;

/// A queue of requests, each with a mark, of a fixed number of places.
#[derive(Drop)]
pub(crate) struct MarkedQueue {
    requests: Queue<RequestPacket>,
    marks: Marks,
}

impl Model for MarkedQueue {
    ghost use Rattle.ultra_switch.specs.Marks.{MarkedEntries, marked_by, IsMarked};

    ghost Value = { MarkedEntries };

    ghost view = { λ q.
        record { entries = marked_by q.marks q.requests.items; places = q.requests.capacity } };

    ghost invariant = { λ q. IsMarked q.marks q.requests.items q.requests.capacity };
}

impl MarkedQueue {
    ghost use Rattle.ultra_switch.specs.{Marks.{MarkedEntries, marked_by}, Partner.IsFirst};

    /// An empty queue with this many places.
    pub(crate) fn new(alloc: Global, places: usize) -> Result<MarkedQueue, AllocError>
        requires { places ≤ MOST_REQUEST_PLACES }
        ensures { IfOk result (λ q. q ≡ record { entries = []; places = places }) }
    {
        Ok(MarkedQueue {
            requests: Queue::with_capacity(alloc, places)?,
            marks: Marks::none(),
        })
    }

    /// How many requests are in the queue.
    pub(crate) fn len(&self) -> usize
        ensures value { result ≡ length self.now.entries }
        ensures within { result ≤ self.now.places }
    {
        self.requests.len()
    }

    /// How many places are free.
    pub(crate) fn free(&self) -> usize
        ensures { length self.now.entries + result ≡ self.now.places }
    {
        self.requests.free()
    }

    /// Whether no request is in the queue.
    pub(crate) fn is_empty(&self) -> bool
        ensures { result ≡ (length self.now.entries == 0) }
    {
        self.requests.is_empty()
    }

    /// The request at this place, counted from 0 at the front, with its mark.
    pub(crate) fn entry(&self, place: usize) -> QueueEntry
        requires { place < length self.now.entries }
        ensures { slice_get self.now.entries place ≡ Some result }
    {
        QueueEntry {
            request: self.requests.get(place).request(),
            combined: self.marks.has(place),
        }
    }

    /// The request at the front, or `None` if the queue is empty.
    pub(crate) fn front(&self) -> Option<RequestPacket>
        ensures { result ≡ request_of (slice_get self.now.entries 0) }
    {
        self.requests.front()
    }

    /// Puts a request without a mark at the end. There has to be a free place.
    pub(crate) fn push(&mut self, request: RequestPacket)
        requires { length self.old.entries < self.old.places }
        ensures { self.new ≡
            record self.old { entries = self.old.entries ++ entry request false ∷ [] } }
    {
        self.requests.push(request);
    }

    /// Takes the request at the front out of the queue, or returns `None` if the queue is empty.
    /// The marks of the others move with them.
    pub(crate) fn pop(&mut self) -> Option<RequestPacket>
        ensures value { result ≡ request_of (slice_get self.old.entries 0) }
        ensures entries { self.new ≡ record self.old { entries = drop 1 self.old.entries } }
    {
        self.marks = self.marks.moved();
        self.requests.pop()
    }

    /// Puts a marked request in the place of another.
    pub(crate) fn replace(&mut self, place: usize, request: RequestPacket)
        requires { place < length self.old.entries }
        ensures { self.new ≡
            record self.old { entries = slice_set self.old.entries place (entry request true) } }
    {
        self.requests.set(place, request);
        self.marks = self.marks.with(place);
    }

    /// The place of the frontmost request without a mark that is for the same cell as this one.
    pub(crate) fn partner(&self, request: &RequestPacket) -> Option<usize>
        ensures { IsFirst (can_combine request.now) self.now.entries result }
    {
        if self.is_empty() {
            return None;
        }
        (0..self.len()).find(
            |&place|
                requires { place < length self.now.entries }
                ensures { IfSome (slice_get self.entry.now.entries place) (λ e.
                    result ≡ can_combine request.entry.now e) }
            { can_combine(request, self.entry(place)) },
        )
    }
}

/// Whether the request can combine with the entry: it has no mark and is for the same cell.
fn can_combine(request: &RequestPacket, entry: QueueEntry) -> bool
    ensures { result ≡ can_combine request.now entry }
{
    !entry.combined && entry.request.cell == request.cell()
}
