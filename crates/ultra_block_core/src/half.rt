//! The halves of a cycle.

ghost use Rattle.std.specs.Prelude.{◌≡◌};
ghost use Rattle.ultra_block_core.specs.Making.{CanMake, after_own_half};

use crate::block::Block;
use crate::rooms::Rooms;

/// A half of a cycle. A cycle makes all six, in this order.
#[derive(Clone, Copy, PartialEq, Eq, Drop)]
pub enum Half {
    /// Replies leave the switches and modules.
    SendReplies,
    /// The replies that have come are delivered, or split and passed on.
    TakeReplies,
    /// Each module serves the request that waits.
    Serve,
    /// Requests leave the switches and processing elements.
    SendRequests,
    /// The requests that have come go into queues and registers.
    TakeRequests,
    /// Each processing element makes one step of the program.
    Execute,
}

impl Block {
    /// Makes this half of a cycle, with the rooms that were noted before it. The half's conditions
    /// have to be met.
    #[inline(always)]
    pub fn make(&mut self, half: Half, rooms: &Rooms)
        requires { CanMake self.old.program half self.old }
        ensures { self.new ≡ after_own_half half rooms.now self.old }
    {
        match half {
            Half::SendReplies => self.send_replies(rooms),
            Half::TakeReplies => self.take_replies(),
            Half::Serve => self.serve(),
            Half::SendRequests => self.send_requests(rooms),
            Half::TakeRequests => self.take_requests(),
            Half::Execute => self.execute(),
        }
    }
}
