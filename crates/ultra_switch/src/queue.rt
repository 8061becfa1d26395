//! Queues that store their first item inline.

ghost use Rattle.std.specs.Prelude.{◌≡◌, ◌+◌, ◌^◌, ◌<◌, ◌≤◌, ◌==◌, [], ◌∷◌, ◌++◌, length, drop, slice_get, slice_set, IfOk, Some};
ghost use Rattle.circular_buffer.specs.Buffer.{buffer};

use circular_buffer::HeapCircularBuffer;
use std::alloc::{AllocError, Global};
use std::marker::Model;
use ultra_msg::Slot;

/// A queue of a fixed number of places: the item at the front, and a ring of those behind it. Most
/// queues of a switch hold no more than one message, which never goes through the ring.
#[derive(Drop)]
pub(crate) struct Queue<T> {
    front: Slot<T>,
    rest: HeapCircularBuffer<T>,
    /// How many places are free.
    free: usize,
}

impl<T> Model for Queue<T> {
    ghost use Rattle.circular_buffer.specs.Buffer.{Buffer, buffer, buffer_code};
    ghost use Rattle.ultra_switch.specs.InPlace.{IsInPlace, with_front};

    ghost Value = { Buffer T };

    ghost coded = { buffer_code T.code };

    ghost view = { λ q. buffer (with_front q.front q.rest.items) q.rest.capacity };

    ghost invariant = { λ q. IsInPlace q.front q.rest.items q.rest.capacity q.free };
}

impl<T: Copy + Default> Queue<T> {
    /// An empty queue of this many places.
    pub(crate) fn with_capacity(alloc: Global, capacity: usize) -> Result<Queue<T>, AllocError>
        ensures { IfOk result (λ q. q ≡ buffer [] capacity) }
    {
        Ok(Queue {
            front: Slot::empty(),
            rest: HeapCircularBuffer::with_capacity(alloc, capacity)?,
            free: capacity,
        })
    }

    /// How many items are in the queue.
    pub(crate) fn len(&self) -> usize
        ensures len { result ≡ length self.now.items }
        ensures within { (result ≤ self.now.capacity) × (self.now.capacity < 2 ^ 63) }
    {
        self.rest.capacity() - self.free
    }

    /// How many places are free.
    pub(crate) fn free(&self) -> usize
        ensures { length self.now.items + result ≡ self.now.capacity }
    {
        self.free
    }

    /// Whether no item is in the queue.
    pub(crate) fn is_empty(&self) -> bool
        ensures { result ≡ (length self.now.items == 0) }
    {
        self.front.is_empty()
    }

    /// The item at this place, counted from 0 at the front.
    pub(crate) fn get(&self, place: usize) -> T
        requires { place < length self.now.items }
        ensures { slice_get self.now.items place ≡ Some result }
    {
        if place == 0 {
            self.front.get().unwrap()
        } else {
            *self.rest.get(place - 1).unwrap()
        }
    }

    /// Puts an item in the place of another.
    pub(crate) fn set(&mut self, place: usize, item: T)
        requires { place < length self.old.items }
        ensures { self.new ≡ buffer (slice_set self.old.items place item) self.old.capacity }
    {
        if place == 0 {
            self.front.fill(item);
        } else {
            put_at(&mut self.rest, place - 1, item);
        }
    }

    /// The item at the front, or `None` if the queue is empty.
    pub(crate) fn front(&self) -> Option<T>
        ensures { result ≡ slice_get self.now.items 0 }
    {
        self.front.get()
    }

    /// Puts an item at the end. There has to be a free place.
    pub(crate) fn push(&mut self, item: T)
        requires { length self.old.items < self.old.capacity }
        ensures { self.new ≡ buffer (self.old.items ++ item ∷ []) self.old.capacity }
    {
        if self.front.is_empty() {
            self.front.fill(item);
        } else {
            self.rest.push_back(item);
        }
        self.free -= 1;
    }

    /// Takes the item at the front out of the queue, or returns `None` if the queue is empty.
    pub(crate) fn pop(&mut self) -> Option<T>
        ensures value { result ≡ slice_get self.old.items 0 }
        ensures items { self.new ≡ buffer (drop 1 self.old.items) self.old.capacity }
    {
        let first = self.front.take()?;
        // for the prover: the places of the ring are below 2^63
        let _places = self.rest.capacity();
        if let Some(next) = self.rest.pop_front() {
            self.front.fill(next);
        }
        self.free += 1;
        Some(first)
    }
}

/// Puts an item in the place of another in a ring.
fn put_at<T: Copy>(ring: &mut HeapCircularBuffer<T>, place: usize, item: T)
    requires { place < length ring.old.items }
    ensures { ring.new ≡ buffer (slice_set ring.old.items place item) ring.old.capacity }
{
    *ring.get_mut(place).unwrap() = item;
}
