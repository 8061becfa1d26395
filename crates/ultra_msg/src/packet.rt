//! Messages on their way through the machine.

ghost use Rattle.std.specs.Prelude.{◌≡◌};

use crate::{Cell, Op, Pe, Reply, ReplyMessage, Request};
use std::marker::Model;

/// A request on its way: the same, in words of one size, which are copied together.
#[derive(Clone, Copy, Drop)]
pub struct RequestPacket {
    pe: u32,
    cell: u32,
    /// Which operation it is: 0 for a load, 1 for a store, 2 for a fetch-and-add, 3 for a swap.
    kind: u32,
    /// Its operand; 0 where there is none.
    word: u32,
}

impl Model for RequestPacket {
    ghost use Rattle.ultra_msg.specs.{declared.Request.Request, Packet.{IsOp, kind_of, op_of, word_of}};

    ghost Value = { Request };

    ghost view = { λ p. record { pe = p.pe; cell = p.cell; op = op_of p.kind p.word } };

    ghost invariant = { λ p. IsOp p.kind p.word };

    ghost inverse = { λ r.
        record { pe = r.pe; cell = r.cell; kind = kind_of r.op; word = word_of r.op } };
}

impl RequestPacket {
    /// The packet of a request.
    #[inline(always)]
    pub fn of(request: Request) -> RequestPacket
        ensures { result ≡ request }
    {
        // two matches, each without a jump: both together would be compiled to a table of jumps
        let kind = match request.op {
            Op::Load => 0,
            Op::Store(_) => 1,
            Op::Faa(_) => 2,
            Op::Swap(_) => 3,
        };
        let word = match request.op {
            Op::Load => 0,
            Op::Store(word) | Op::Faa(word) | Op::Swap(word) => word,
        };
        RequestPacket {
            pe: request.pe,
            cell: request.cell,
            kind,
            word,
        }
    }

    /// The request.
    #[inline(always)]
    pub fn request(self) -> Request
        ensures { result ≡ self }
    {
        let op = match self.kind {
            0 => Op::Load,
            1 => Op::Store(self.word),
            2 => Op::Faa(self.word),
            _ => Op::Swap(self.word),
        };
        Request {
            pe: self.pe,
            cell: self.cell,
            op,
        }
    }

    /// The processing element that issued it.
    #[inline(always)]
    pub fn pe(&self) -> Pe
        ensures { result ≡ self.now.pe }
    {
        self.pe
    }

    /// The cell that it is for.
    #[inline(always)]
    pub fn cell(&self) -> Cell
        ensures { result ≡ self.now.cell }
    {
        self.cell
    }
}

impl Default for RequestPacket {
    /// That of the request that is there by default.
    fn default() -> RequestPacket {
        RequestPacket::of(Request::default())
    }
}

/// A reply on its way: the same, in words of one size, which are copied together.
#[derive(Clone, Copy, Drop)]
pub struct ReplyPacket {
    pe: u32,
    cell: u32,
    /// 1 where it is a value, and 0 where it acknowledges a store.
    kind: u32,
    /// The value; 0 where there is none.
    word: u32,
}

impl Model for ReplyPacket {
    ghost use Rattle.ultra_msg.specs.{declared.ReplyMessage.ReplyMessage, Packet.{IsReply, kind_of_reply, reply_of, word_of_reply}};

    ghost Value = { ReplyMessage };

    ghost view = { λ p. record { pe = p.pe; cell = p.cell; reply = reply_of p.kind p.word } };

    ghost invariant = { λ p. IsReply p.kind p.word };

    ghost inverse = { λ m. record {
      pe = m.pe;
      cell = m.cell;
      kind = kind_of_reply m.reply;
      word = word_of_reply m.reply;
    } };
}

impl ReplyPacket {
    /// The packet of a reply.
    #[inline(always)]
    pub fn of(message: ReplyMessage) -> ReplyPacket
        ensures { result ≡ message }
    {
        let (kind, word) = match message.reply {
            Reply::Ack => (0, 0),
            Reply::Value(word) => (1, word),
        };
        ReplyPacket {
            pe: message.pe,
            cell: message.cell,
            kind,
            word,
        }
    }

    /// The reply.
    #[inline(always)]
    pub fn message(self) -> ReplyMessage
        ensures { result ≡ self }
    {
        let reply = match self.kind {
            0 => Reply::Ack,
            _ => Reply::Value(self.word),
        };
        ReplyMessage {
            pe: self.pe,
            cell: self.cell,
            reply,
        }
    }

    /// The processing element that it goes to.
    #[inline(always)]
    pub fn pe(&self) -> Pe
        ensures { result ≡ self.now.pe }
    {
        self.pe
    }

    /// The cell that the request was for.
    #[inline(always)]
    pub fn cell(&self) -> Cell
        ensures { result ≡ self.now.cell }
    {
        self.cell
    }
}

impl Default for ReplyPacket {
    /// That of the reply that is there by default.
    fn default() -> ReplyPacket {
        ReplyPacket::of(ReplyMessage::default())
    }
}
