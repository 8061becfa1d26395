//! Queues toward the processing elements.

ghost use Rattle.std.specs.Prelude.{◌≡◌, ℕ, ◌+◌, ◌<◌, ◌≤◌, ◌==◌, length, slice_get, nat_le, Some, IfOk};
ghost use Rattle.ultra_switch.specs.{Calls.{first_reply, with_reply, without_first}, Queues.empty_replies};

use crate::queue::Queue;
use std::alloc::{AllocError, Global};
use std::marker::Model;
use ultra_msg::{ReplyMessage, ReplyPacket};

/// A queue toward the processing elements, of one PE-side port of a switch.
#[derive(Drop)]
pub struct ToPe {
    queue: Queue<ReplyPacket>,
}

impl Model for ToPe {
    ghost use Rattle.std.specs.Prelude.{◌≤◌, length};
    ghost use Rattle.ultra_switch.specs.Queues.{SizedReplies};

    ghost Value = { SizedReplies };

    ghost view = { λ q. record { replies = q.queue.items; places = q.queue.capacity } };

    ghost invariant = { λ q. length q.queue.items ≤ q.queue.capacity };
}

impl ToPe {
    /// An empty queue of this many places.
    pub(crate) fn new(alloc: Global, places: usize) -> Result<ToPe, AllocError>
        ensures { IfOk result (λ q. q ≡ empty_replies places) }
    {
        Ok(ToPe {
            queue: Queue::with_capacity(alloc, places)?,
        })
    }

    /// Whether at least 4 places of the queue are free: two replies may come by each memory-side
    /// port.
    pub fn has_room(&self) -> bool
        ensures { result ≡ nat_le (length self.now.replies + 4) self.now.places }
    {
        self.queue.free() >= 4
    }

    /// How many replies are in the queue.
    pub fn len(&self) -> usize
        ensures value { result ≡ length self.now.replies }
        ensures within { result ≤ self.now.places }
    {
        self.queue.len()
    }

    /// Whether the queue is empty.
    pub fn is_empty(&self) -> bool
        ensures { result ≡ (length self.now.replies == 0) }
    {
        self.queue.is_empty()
    }

    /// The reply at this place of the queue, counted from 0 at the front.
    pub fn reply(&self, index: usize) -> ReplyMessage
        requires { index < length self.now.replies }
        ensures { slice_get self.now.replies index ≡ Some result }
    {
        self.queue.get(index).message()
    }

    /// The reply at the front, or `None` if the queue is empty.
    pub fn head(&self) -> Option<ReplyMessage>
        ensures { result ≡ first_reply self.now }
    {
        Some(self.queue.front()?.message())
    }

    /// A reply comes to the end of the queue, which must have a free place.
    pub fn put(&mut self, reply: ReplyMessage)
        requires { length self.old.replies < self.old.places }
        ensures { self.new ≡ with_reply self.old reply }
    {
        self.put_packet(ReplyPacket::of(reply));
    }

    /// Takes the reply at the front out of the queue, or returns `None` if the queue is empty.
    pub fn leave(&mut self) -> Option<ReplyMessage>
        ensures value { result ≡ first_reply self.old }
        ensures queue { self.new ≡ without_first self.old }
    {
        Some(self.leave_packet()?.message())
    }

    /// The same as `put`, with a packet.
    pub fn put_packet(&mut self, reply: ReplyPacket)
        requires { length self.old.replies < self.old.places }
        ensures { self.new ≡ with_reply self.old reply }
    {
        self.queue.push(reply);
    }

    /// The same as `leave`, with a packet.
    pub fn leave_packet(&mut self) -> Option<ReplyPacket>
        ensures value { result ≡ first_reply self.old }
        ensures queue { self.new ≡ without_first self.old }
    {
        self.queue.pop()
    }
}
