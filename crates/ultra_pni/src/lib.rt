//! A processing element's network interface: its requests that are not yet in the network, and its
//! open cells.
#![tactic(auto)]

ghost use Rattle.std.specs.Prelude.{◌≡◌, ℕ, ◌-◌, ◌<◌, ◌≤◌, ◌↔◌, ◌==◌, ◌&&◌, [], true, false, length, slice_get};
ghost use Rattle.std.specs.List.{position};
ghost use Rattle.ultra_msg.specs.declared.Request.{Request};
ghost use Rattle.ultra_pni.specs.Interface.{empty_interface, CanDeliver, is_open, is_awaited, is_refusal, issue_of, after_issue, target_of, closed, next_pending, without_next, IsWithin};

mod registers;
mod ring;

use arrayvec::ArrayVec;
use registers::{RegisterSet, awaited_by};
use ring::RequestRing;
use std::marker::Model;
use ultra_msg::{Cell, Register, ReplyMessage, Request, RequestPacket, take_out};

/// The most cells that an interface can hold open.
pub const MOST_OPEN: usize = 8;

/// A cell with an outstanding reference, and the register that its value goes to, if it goes to
/// one.
#[derive(Clone, Copy, Default, Drop)]
pub struct OpenCell {
    /// The cell.
    pub cell: Cell,
    /// The register, or `None` if the reference was a store.
    pub target: Option<Register>,
}

/// What became of a request that a processing element would issue.
#[derive(Clone, Copy, Drop)]
pub enum Issue {
    /// It is at the end of the list, and its cell is open.
    Sent,
    /// Its cell is open already; nothing has changed.
    CellOpen,
    /// The maximum number of cells is already open; nothing has changed.
    Full,
}

/// The network interface of one processing element, or PE (this project's profile).
///
/// It holds the requests that this PE has issued and that are not yet in the network, in the order
/// of their issues. It also holds the cells that are open: those with a reference that hasn't been
/// answered. No cell is open twice, as in the 1983 paper.
#[derive(Drop)]
pub struct Pni {
    opened: ArrayVec<OpenCell, MOST_OPEN>,
    pending: RequestRing,
    most_open: usize,
    // the registers to which the replies for open cells go
    awaited: RegisterSet,
}

impl Model for Pni {
    ghost use Rattle.ultra_pni.specs.{Interface.SizedInterface, Registers.IsConsistentPni};

    ghost Value = { SizedInterface };

    ghost view = { λ p. record {
      interface = record {
        opened = p.opened.items;
        pending = p.pending;
      };
      most_open = p.most_open;
    } };

    ghost invariant = { λ p. IsConsistentPni record {
      opened = p.opened.items;
      pending = p.pending;
    } p.most_open p.awaited };
}

/// The place of a cell among the open ones, or `None` if it isn't open.
fn place_of(opened: &[OpenCell], cell: Cell) -> Option<usize>
    ensures { result ≡ position (λ o. o.cell == cell) opened.now }
{
    opened.iter().position(|open| open.cell == cell)
}

impl Pni {
    /// An interface with nothing open and nothing pending, which can hold `most_open` cells open,
    /// at most `MOST_OPEN`.
    pub fn new(most_open: usize) -> Pni
        requires { most_open ≤ MOST_OPEN }
        ensures { result ≡ record { interface = empty_interface; most_open = most_open } }
    {
        Pni {
            opened: ArrayVec::new(),
            pending: RequestRing::new(),
            most_open,
            awaited: RegisterSet::empty(),
        }
    }

    /// Takes a request, whose value is to go to the register `target`, if it is to go to one.
    ///
    /// `Sent` says that the request is now the last of the list and that its cell is open.
    /// `CellOpen` says that its cell was open already, and else `Full` that the maximum number of
    /// cells was already open; both leave the interface as it was.
    #[inline(always)]
    pub fn issue(&mut self, request: Request, target: Option<Register>) -> Issue
        ensures answer { result ≡ issue_of self.old.most_open self.old.interface request }
        ensures interface { self.new ≡
            record self.old { interface = after_issue self.old.interface request target result } }
    {
        if self.is_open(request.cell) {
            return Issue::CellOpen;
        }
        if self.opened.len() >= self.most_open {
            return Issue::Full;
        }
        self.awaited = self.awaited.with(&target);
        self.opened.push(OpenCell {
            cell: request.cell,
            target,
        });
        self.pending.push(RequestPacket::of(request));
        Issue::Sent
    }

    /// The request that leaves next, or `None` if none is pending.
    pub fn head(&self) -> Option<Request>
        ensures { result ≡ next_pending self.now }
    {
        Some(self.head_packet()?.request())
    }

    /// The same as `head`, as a packet.
    pub fn head_packet(&self) -> Option<RequestPacket>
        ensures { result ≡ next_pending self.now }
    {
        if self.pending.len() == 0 {
            None
        } else {
            Some(self.pending.at(0))
        }
    }

    /// Takes the request that leaves next out of the list; its cell stays open. `None` says that
    /// none was pending.
    pub fn leave(&mut self) -> Option<Request>
        ensures request { result ≡ next_pending self.old }
        ensures interface { self.new ≡ without_next self.old }
    {
        Some(self.leave_packet()?.request())
    }

    /// The same as `leave`, with a packet.
    pub fn leave_packet(&mut self) -> Option<RequestPacket>
        ensures request { result ≡ next_pending self.old }
        ensures interface { self.new ≡ without_next self.old }
    {
        self.pending.pop()
    }

    /// A reply has come: its cell is no longer open. Gives the register that the reply's value goes
    /// to, or `None` if it goes to none.
    ///
    /// The cell has to be open, and its request has to have left the list.
    pub fn deliver(&mut self, reply: ReplyMessage) -> Option<Register>
        requires { CanDeliver reply.cell self.old.interface }
        ensures target { result ≡ target_of reply.cell self.old.interface.opened }
        ensures interface { self.new ≡ record self.old {
          interface = record self.old.interface {
            opened = closed reply.cell self.old.interface.opened;
          };
        } }
    {
        let place = place_of(self.opened.as_slice(), reply.cell).unwrap();
        let closed = take_out(&mut self.opened, place);
        self.awaited = awaited_by(self.opened.as_slice());
        closed.target
    }

    /// Whether the cell is open: a reference to it hasn't been answered.
    pub fn is_open(&self, cell: Cell) -> bool
        ensures { result ≡ is_open cell self.now.interface.opened }
    {
        self.opened.iter().any(|open| open.cell == cell)
    }

    /// Whether a request for the cell would be refused now: its cell is open, or the maximum number
    /// of cells is already open.
    pub fn refuses(&self, cell: Cell) -> bool
        ensures { (r : Request) → r.cell ≡ cell →
            result ≡ is_refusal (issue_of self.now.most_open self.now.interface r) }
    {
        self.is_open(cell) || self.opened.len() >= self.most_open
    }

    /// Whether the register is awaited: the reply for an open cell goes to it.
    pub fn awaits(&self, register: Register) -> bool
        ensures { result ≡ is_awaited register self.now.interface.opened }
    {
        self.awaited.has(register)
    }

    /// Whether no register is awaited.
    #[inline(always)]
    pub fn awaits_none(&self) -> bool
        ensures { (result ≡ true) ↔ ((r : ℕ) → is_awaited r self.now.interface.opened ≡ false) }
    {
        self.awaited.is_empty()
    }

    /// How many cells are open.
    pub fn open_count(&self) -> usize
        ensures count { result ≡ length self.now.interface.opened }
        ensures within { IsWithin self.now.interface self.now.most_open }
    {
        self.opened.len()
    }

    /// How many requests are not yet in the network.
    pub fn pending_count(&self) -> usize
        ensures count { result ≡ length self.now.interface.pending }
        ensures within { IsWithin self.now.interface self.now.most_open }
    {
        self.pending.len()
    }

    /// Whether no cell is open and no request is pending.
    pub fn is_idle(&self) -> bool
        ensures { result ≡
            (length self.now.interface.opened == 0 && length self.now.interface.pending == 0) }
    {
        self.opened.is_empty() && self.pending.len() == 0
    }

    /// The request at a place of the list, the first to leave being at 0.
    pub fn pending(&self, index: usize) -> Request
        requires { index < length self.now.interface.pending }
        ensures { slice_get self.now.interface.pending index ≡ Some result }
    {
        self.pending.at(index).request()
    }

    /// The request that was issued last of those that are pending, or `None` if none is.
    pub fn newest(&self) -> Option<Request>
        ensures { result ≡
            slice_get self.now.interface.pending (length self.now.interface.pending - 1) }
    {
        let last = self.pending.len().checked_sub(1)?;
        Some(self.pending.at(last).request())
    }
}
