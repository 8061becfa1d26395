//! Queues toward memory, with their wait buffers.

ghost use Rattle.std.specs.Prelude.{◌≡◌, ℕ, ◌+◌, ◌<◌, ◌≤◌, ◌==◌, ◌&&◌, length, slice_get, nat_le, IfOk, IfSome, ◌∷◌, []};
ghost use Rattle.std.specs.List.{position};
ghost use Rattle.ultra_switch.specs.{Arrive.{sent_for, wait_record}, Partner.IsPartner, Split.{is_of, replies_in, old_reply, new_reply}, Queues.empty_requests, declared.TheConstants.MOST_REQUEST_PLACES};
ghost use Rattle.ultra_switch.specs.Calls.{after_split, arrival_of, lane_head, split_replies, with_arrival, without_head};

use crate::marked_queue::MarkedQueue;
use crate::{Arrived, MOST_WAIT_PLACES, QueueEntry, Split, WaitRecord};
use arrayvec::ArrayVec;
use std::alloc::{AllocError, Global};
use std::marker::Model;
use ultra_msg::{ReplyMessage, ReplyPacket, Request, RequestPacket, pair, take_out};

/// A queue toward memory, with its wait buffer: of one memory-side port of a switch.
#[derive(Drop)]
pub struct ToMm {
    queue: MarkedQueue,
    records: ArrayVec<WaitRecord, MOST_WAIT_PLACES>,
    wait_places: usize,
}

impl Model for ToMm {
    ghost use Rattle.ultra_switch.specs.Queues.{SizedLane, IsWithinPlaces};

    ghost Value = { SizedLane };

    ghost view = { λ q. record {
      lane = record {
        queue = q.queue.entries;
        records =
            q.records.items;
      };
      request_places = q.queue.places;
      wait_places = q.wait_places;
    } };

    ghost invariant = { λ q. IsWithinPlaces record {
      lane = record { queue = q.queue.entries; records = q.records.items };
      request_places = q.queue.places;
      wait_places = q.wait_places;
    } };
}

impl ToMm {
    /// An empty queue with an empty wait buffer, of these places.
    pub(crate) fn new(
        alloc: Global,
        request_places: usize,
        wait_places: usize,
    ) -> Result<ToMm, AllocError>
        requires requests { request_places ≤ MOST_REQUEST_PLACES }
        requires records { wait_places ≤ MOST_WAIT_PLACES }
        ensures { IfOk result (λ q. q ≡ empty_requests request_places wait_places) }
    {
        Ok(ToMm {
            queue: MarkedQueue::new(alloc, request_places)?,
            records: ArrayVec::new(),
            wait_places,
        })
    }

    /// Whether at least 2 places of the queue are free: one for an arrival from each PE-side port.
    pub fn has_room(&self) -> bool
        ensures { result ≡ nat_le (length self.now.lane.queue + 2) self.now.request_places }
    {
        self.queue.free() >= 2
    }

    /// How many requests are in the queue.
    pub fn len(&self) -> usize
        ensures value { result ≡ length self.now.lane.queue }
        ensures within { result ≤ self.now.request_places }
    {
        self.queue.len()
    }

    /// Whether no request is in the queue.
    pub fn is_empty(&self) -> bool
        ensures { result ≡ (length self.now.lane.queue == 0) }
    {
        self.queue.is_empty()
    }

    /// The entry at this place of the queue, counted from 0 at the front.
    pub fn entry(&self, index: usize) -> QueueEntry
        requires { index < length self.now.lane.queue }
        ensures { slice_get self.now.lane.queue index ≡ Some result }
    {
        self.queue.entry(index)
    }

    /// How many records are in the wait buffer.
    pub fn record_count(&self) -> usize
        ensures value { result ≡ length self.now.lane.records }
        ensures within { result ≤ self.now.wait_places }
        ensures most { self.now.wait_places ≤ MOST_WAIT_PLACES }
    {
        self.records.len()
    }

    /// The record at this place of the wait buffer, counted from 0 at the oldest.
    pub fn record(&self, index: usize) -> WaitRecord
        requires { index < length self.now.lane.records }
        ensures { slice_get self.now.lane.records index ≡ Some result }
    {
        self.records[index]
    }

    /// Whether both the queue and the wait buffer are empty.
    pub fn is_idle(&self) -> bool
        ensures { result ≡ (length self.now.lane.queue == 0) &&
            (length self.now.lane.records == 0) }
    {
        self.is_empty() && self.records.is_empty()
    }

    /// The request at the front of the queue, or `None` if the queue is empty.
    pub fn head(&self) -> Option<Request>
        ensures { result ≡ lane_head self.now }
    {
        Some(self.head_packet()?.request())
    }

    /// The same as `head`, as a packet.
    pub fn head_packet(&self) -> Option<RequestPacket>
        ensures { result ≡ lane_head self.now }
    {
        self.queue.front()
    }

    /// Takes the request at the front out of the queue, or returns `None` if the queue is empty.
    pub fn leave(&mut self) -> Option<Request>
        ensures value { result ≡ lane_head self.old }
        ensures queue { self.new ≡ without_head self.old }
    {
        Some(self.leave_packet()?.request())
    }

    /// The same as `leave`, with a packet.
    pub fn leave_packet(&mut self) -> Option<RequestPacket>
        ensures value { result ≡ lane_head self.old }
        ensures queue { self.new ≡ without_head self.old }
    {
        self.queue.pop()
    }

    /// A request arrives. If the wait buffer has a free place, it combines with the frontmost entry
    /// for its cell that hasn't combined in this queue. If there is no such entry or no free place,
    /// it goes to the end of the queue. The record of a combination goes behind those that are
    /// there. The queue must have a free place.
    pub fn arrive(&mut self, request: Request) -> Arrived
        requires { length self.old.lane.queue < self.old.request_places }
        ensures outcome { result ≡ arrival_of self.old request }
        ensures lane { self.new ≡ with_arrival self.old request }
    {
        self.arrive_packet(&RequestPacket::of(request))
    }

    /// The same as `arrive`, with a packet.
    #[inline(always)]
    pub fn arrive_packet(&mut self, packet: &RequestPacket) -> Arrived
        requires { length self.old.lane.queue < self.old.request_places }
        ensures outcome { result ≡ arrival_of self.old packet.now }
        ensures lane { self.new ≡ with_arrival self.old packet.now }
    {
        let Some(place) = self.partner(packet) else {
            self.queue.push(*packet);
            return Arrived::Appended;
        };
        let old = self.queue.entry(place);
        let (sent, record) = combine(old, packet.request());
        self.queue.replace(place, RequestPacket::of(sent));
        self.records.push(record);
        Arrived::CombinedWith(old.request.pe)
    }

    /// The place of the entry that the request combines with, if it combines.
    fn partner(&self, request: &RequestPacket) -> Option<usize>
        ensures { IsPartner self.now.wait_places self.now.lane request.now result }
    {
        if self.records.len() < self.wait_places {
            self.queue.partner(request)
        } else {
            None
        }
    }

    /// A reply comes back. If the wait buffer has a record of its processing element and cell, the
    /// oldest such record is removed. It gives the replies to the two requests of that pair.
    /// Otherwise the result is the reply itself.
    pub fn split(&mut self, reply: ReplyMessage) -> Split
        ensures replies { replies_in result ≡ split_replies self.old reply }
        ensures records { self.new ≡ after_split self.old reply }
    {
        match self.split_packet(ReplyPacket::of(reply)) {
            Split::One(reply) => Split::One(reply.message()),
            Split::Two(old, new) => Split::Two(old.message(), new.message()),
        }
    }

    /// The same as `split`, with packets.
    #[inline(always)]
    pub fn split_packet(&mut self, reply: ReplyPacket) -> Split<ReplyPacket>
        ensures replies { replies_in result ≡ split_replies self.old reply }
        ensures records { self.new ≡ after_split self.old reply }
    {
        match record_place(&self.records, &reply) {
            Some(place) => replies_by(take_out(&mut self.records, place), reply.message()),
            None => Split::One(reply),
        }
    }
}

/// A request combines with the request of an old entry: the request that stands for both, and what
/// is kept of the two.
fn combine(old: QueueEntry, request: Request) -> (Request, WaitRecord)
    ensures sent { result.0 ≡ sent_for old.request request }
    ensures kept { result.1 ≡ wait_record old request }
{
    let Request { pe, cell, op } = old.request;
    let paired = pair(op, request.op);
    let sent = Request {
        pe,
        cell,
        op: paired.sent,
    };
    let kept = WaitRecord {
        pe,
        cell,
        give_old: paired.give_old,
        partner: request.pe,
        give_new: paired.give_new,
    };
    (sent, kept)
}

/// Whether the record has the identity of the reply.
fn is_of(reply: &ReplyPacket, kept: &WaitRecord) -> bool
    ensures { result ≡ is_of reply.now kept.now }
{
    kept.pe == reply.pe() && kept.cell == reply.cell()
}

/// The place of the oldest record with the identity of the reply.
fn record_place(records: &[WaitRecord], reply: &ReplyPacket) -> Option<usize>
    ensures { result ≡ position (is_of reply.now) records.now }
{
    records.iter().position(|kept| is_of(reply, kept))
}

/// The replies to the two requests of the record's pair.
fn replies_by(kept: WaitRecord, reply: ReplyMessage) -> Split<ReplyPacket>
    ensures { replies_in result ≡ old_reply reply kept ∷ new_reply reply kept ∷ [] }
{
    Split::Two(
        ReplyPacket::of(ReplyMessage {
            pe: reply.pe,
            cell: reply.cell,
            reply: kept.give_old.of(reply.reply),
        }),
        ReplyPacket::of(ReplyMessage {
            pe: kept.partner,
            cell: reply.cell,
            reply: kept.give_new.of(reply.reply),
        }),
    )
}
