//! Requests in a ring.

ghost use Rattle.std.specs.Prelude.{◌≡◌, ℕ, ◌-◌, ◌<◌, ◌≤◌, ◌++◌, ◌∷◌, [], Some, length, drop, slice_get};

use crate::MOST_OPEN;
use std::marker::Model;
use ultra_msg::RequestPacket;

/// Requests in the order in which they came, in a ring over 8 places: the first place, and how many
/// from there on.
#[derive(Drop)]
pub(crate) struct RequestRing {
    places: [RequestPacket; MOST_OPEN],
    first: usize,
    count: usize,
}

impl Model for RequestRing {
    ghost use Rattle.std.specs.Prelude.{List};
    ghost use Rattle.ultra_msg.specs.declared.Request.{Request};
    ghost use Rattle.ultra_pni.specs.Ring.{requests_in_ring, IsRing};

    ghost Value = { List Request };

    ghost view = { λ r. requests_in_ring r.places r.first r.count };

    ghost invariant = { λ r. IsRing r.first r.count };
}

impl RequestRing {
    /// A ring without a request.
    pub(crate) fn new() -> RequestRing
        ensures { result ≡ [] }
    {
        RequestRing {
            places: [RequestPacket::default(); MOST_OPEN],
            first: 0,
            count: 0,
        }
    }

    /// How many requests there are, at most 8.
    pub(crate) fn len(&self) -> usize
        ensures value { result ≡ length self.now }
        ensures most { result ≤ 8 }
    {
        self.count
    }

    /// The request at this place, the first to leave being at 0.
    pub(crate) fn at(&self, index: usize) -> RequestPacket
        requires { index < length self.now }
        ensures { slice_get self.now index ≡ Some result }
    {
        self.places[(self.first + index) % MOST_OPEN]
    }

    /// Puts a request at the end. There has to be a free place.
    pub(crate) fn push(&mut self, request: RequestPacket)
        requires { length self.old < 8 }
        ensures { self.new ≡ self.old ++ request ∷ [] }
    {
        self.places[(self.first + self.count) % MOST_OPEN] = request;
        self.count += 1;
    }

    /// Takes the first request out of the ring, or returns `None` if there is none.
    pub(crate) fn pop(&mut self) -> Option<RequestPacket>
        ensures request { result ≡ slice_get self.old 0 }
        ensures rest { self.new ≡ drop 1 self.old }
    {
        if self.count == 0 {
            return None;
        }
        let request = self.at(0);
        self.first = (self.first + 1) % MOST_OPEN;
        self.count -= 1;
        Some(request)
    }
}
