//! The messages of the machine: requests to cells of the shared memory, their replies, and how two
//! requests for one cell are combined into one.
#![tactic(auto)]

ghost use Rattle.std.specs.Prelude.{◌≡◌, ℕ, ◌^◌, ◌<◌, ◌≤◌, IfSome, IfNone, not};
ghost use Rattle.ultra_msg.specs.{Act.reply_given, Pair.{pair_of, is_fixed, KeepsBoth}};

mod packet;
mod pieces;
mod sink;
mod slot;
mod taking;

pub use packet::{ReplyPacket, RequestPacket};
pub use pieces::write_pieces;
pub use sink::{Sink, SinkFault, write_all};
pub use slot::Slot;
use std::marker::Model;
pub use taking::take_out;

/// A word of the machine: a number below `2^32`. Sums and differences of words are modulo `2^32`.
pub type Word = u32;

/// A processing element, by its number from 0.
pub type Pe = u32;

/// A cell of the shared memory, by its address from 0.
pub type Cell = u32;

/// One of the sixteen registers of a processing element, by its number from 0 to 15.
#[derive(Clone, Copy, PartialEq, Eq, Drop)]
pub struct Register {
    index: u8,
}

impl Model for Register {
    ghost use Rattle.std.specs.Prelude.{ℕ, ◌<◌};

    ghost Value = { ℕ };

    ghost view = { λ r. r.index };

    ghost invariant = { λ r. r.index < 16 };

    ghost inverse = { λ n. record { index = n } };
}

impl Register {
    /// The register of this number, or `None` for a number above 15.
    pub fn new(index: u8) -> Option<Register>
        ensures some { IfSome result (λ r. (r ≡ index) × (index < 16)) }
        ensures none { IfNone result (16 ≤ index) }
    {
        if index < 16 {
            Some(Register { index })
        } else {
            None
        }
    }

    /// The register's number, from 0 to 15.
    pub fn index(self) -> usize
        ensures value { result ≡ self }
        ensures small { result < 16 }
    {
        self.index as usize
    }
}

/// By how many bits a word is shifted: from 0 to 31.
#[derive(Clone, Copy, Drop)]
pub struct Shift {
    bits: u8,
}

impl Model for Shift {
    ghost use Rattle.std.specs.Prelude.{ℕ, ◌<◌};

    ghost Value = { ℕ };

    ghost view = { λ s. s.bits };

    ghost invariant = { λ s. s.bits < 32 };

    ghost inverse = { λ n. record { bits = n } };
}

impl Shift {
    /// A shift by this many bits, or `None` for more than 31.
    pub fn new(bits: u8) -> Option<Shift>
        ensures some { IfSome result (λ s. (s ≡ bits) × (bits < 32)) }
        ensures none { IfNone result (32 ≤ bits) }
    {
        if bits < 32 {
            Some(Shift { bits })
        } else {
            None
        }
    }

    /// The number of bits, from 0 to 31.
    pub fn bits(self) -> u32
        ensures value { result ≡ self }
        ensures small { result < 32 }
    {
        self.bits as u32
    }
}

/// What a request does to a cell. Loads, stores and fetch-and-adds are the 1983 paper's, the swap
/// is this project's profile.
#[derive(Clone, Copy, PartialEq, Eq, Debug, Default, Drop)]
pub enum Op {
    /// Gives the cell's value.
    #[default]
    Load,
    /// Sets the cell to the word.
    Store(Word),
    /// Fetch-and-add: gives the cell's old value, and adds the word to the cell.
    Faa(Word),
    /// Gives the cell's old value, and sets the cell to the word.
    Swap(Word),
}

impl Op {
    ghost use Rattle.ultra_msg.specs.Act.{act};

    /// What the operation makes of a cell with this value: the cell's value afterwards, and the
    /// reply. Sums are modulo `2^32`.
    #[inline(always)]
    pub fn act(self, value: Word) -> (Word, Reply)
        ensures { result ≡ act self value }
    {
        match self {
            Op::Load => (value, Reply::Value(value)),
            Op::Store(word) => (word, Reply::Ack),
            Op::Faa(addend) => (value.wrapping_add(addend), Reply::Value(value)),
            Op::Swap(word) => (word, Reply::Value(value)),
        }
    }
}

/// A reference of a processing element (PE) to a cell. The PE and the cell are its identity in the
/// network.
#[derive(Clone, Copy, PartialEq, Eq, Debug, Default, Drop)]
pub struct Request {
    /// The PE that issued it.
    pub pe: Pe,
    /// The cell that it is for.
    pub cell: Cell,
    /// What it does to the cell.
    pub op: Op,
}

/// What a request is answered. That a store is acknowledged is this project's profile.
#[derive(Clone, Copy, PartialEq, Eq, Debug, Default, Drop)]
pub enum Reply {
    /// The value that the cell had before the request.
    Value(Word),
    /// A store was done.
    #[default]
    Ack,
}

/// A reply on its way to a processing element (PE). The PE and the cell are its identity in the
/// network.
#[derive(Clone, Copy, PartialEq, Eq, Debug, Default, Drop)]
pub struct ReplyMessage {
    /// The PE that it goes to.
    pub pe: Pe,
    /// The cell that the request was for.
    pub cell: Cell,
    /// What the request is answered.
    pub reply: Reply,
}

/// How one request of a combined pair is answered from the reply to what was sent for both; this
/// project's profile.
#[derive(Clone, Copy, PartialEq, Eq, Debug, Default, Drop)]
pub enum Give {
    /// That reply itself.
    #[default]
    Same,
    /// Its value plus the word.
    Plus(Word),
    /// The word, whatever the reply is.
    Fixed(Word),
    /// An acknowledgement.
    Ack,
}

/// What happened in one cycle of the machine.
#[derive(Clone, Copy, PartialEq, Eq, Debug, Drop)]
pub enum Event {
    /// A reply came to its processing element.
    Delivered(ReplyMessage),
    /// A memory module served a request.
    Served {
        /// The module, from 0.
        module: u32,
        /// What it served.
        request: Request,
        /// What it answered.
        reply: Reply,
        /// The cell's value afterwards.
        now: Word,
    },
    /// A request combined with one that was in a queue toward memory.
    Combined {
        /// The stage, from 0 at the PEs' side.
        stage: u32,
        /// The queue's memory-side position in the stage, from 0.
        position: u32,
        /// The cell that both are for.
        cell: Cell,
        /// The PE whose request was in the queue.
        old: Pe,
        /// The PE whose request came to it.
        new: Pe,
        /// Whether the one that was in the queue comes first in the serial order.
        old_first: bool,
    },
    /// A processing element issued a request.
    Issued {
        /// What it issued.
        request: Request,
        /// How many it had issued before.
        number: u32,
    },
}

/// Two requests for one cell, combined into one; this project's profile.
#[derive(Clone, Copy, PartialEq, Eq, Debug, Drop)]
pub struct Paired {
    /// What is sent for both.
    pub sent: Op,
    /// How the one that was in the queue is answered.
    pub give_old: Give,
    /// How the one that came to it is answered.
    pub give_new: Give,
    /// Whether the old one comes first in the serial order.
    pub old_first: bool,
}

/// What is sent for two requests to one cell, and how both are answered. `old` was in the queue
/// when `new` came.
///
/// Which pairs combine and how is this project's profile. That the pair acts as its two requests do
/// sequentially is the serialization principle of the 1983 paper.
pub fn pair(old: Op, new: Op) -> Paired
    ensures table { result ≡ pair_of old new }
    ensures keeps_both { (v : ℕ) → v < 2 ^ 32 → KeepsBoth old new result v }
{
    use Give::{Ack, Fixed, Plus, Same};
    use Op::{Faa, Load, Store, Swap};

    let (sent, give_old, give_new, old_first) = match (old, new) {
        (Load, Load) => (Load, Same, Same, true),
        (Load, Faa(e)) => (Faa(e), Same, Same, true),
        (Load, Store(f)) => (Store(f), Fixed(f), Ack, false),
        (Load, Swap(f)) => (Swap(f), Same, Same, true),
        (Faa(e), Load) => (Faa(e), Same, Plus(e), true),
        (Faa(e), Faa(f)) => (Faa(e.wrapping_add(f)), Same, Plus(e), true),
        (Faa(e), Store(f)) => (Store(e.wrapping_add(f)), Fixed(f), Ack, false),
        (Faa(e), Swap(f)) => (Swap(f), Same, Plus(e), true),
        (Store(f), Load) => (Store(f), Ack, Fixed(f), true),
        (Store(f), Faa(e)) => (Store(e.wrapping_add(f)), Ack, Fixed(f), true),
        (Store(_), Store(g)) => (Store(g), Ack, Ack, true),
        (Store(f), Swap(g)) => (Store(g), Ack, Fixed(f), true),
        (Swap(f), Load) => (Swap(f), Same, Fixed(f), true),
        (Swap(f), Faa(e)) => (Swap(f.wrapping_add(e)), Same, Fixed(f), true),
        (Swap(_), Store(g)) => (Swap(g), Same, Ack, true),
        (Swap(f), Swap(g)) => (Swap(g), Same, Fixed(f), true),
    };
    Paired {
        sent,
        give_old,
        give_new,
        old_first,
    }
}

impl Give {
    ghost use Rattle.ultra_msg.specs.declared.Op.{Op};

    /// The reply that this makes of the reply to what was sent for both. `Plus` adds its word to a
    /// value and leaves an acknowledgement as it is. `Fixed` gives its word and `Ack` an
    /// acknowledgement in any case.
    pub fn of(self, reply: Reply) -> Reply
        ensures { result ≡ reply_given self reply }
    {
        match (self, reply) {
            (Give::Same, given) => given,
            (Give::Plus(w), Reply::Value(v)) => Reply::Value(v.wrapping_add(w)),
            (Give::Plus(_), Reply::Ack) => Reply::Ack,
            (Give::Fixed(w), _) => Reply::Value(w),
            (Give::Ack, _) => Reply::Ack,
        }
    }

    /// Whether the old request of a pair comes first in the serial order, where it is answered in
    /// this way: it does unless that is `Fixed`.
    ///
    /// Only a store that came to a load or a fetch-and-add goes before it, and only then is the old
    /// request answered by `Fixed`; this project's profile.
    pub fn old_goes_first(self) -> bool
        ensures fixed { result ≡ not (is_fixed self) }
        ensures in_pair { (old new : Op) → self ≡ (pair_of old new).give_old →
            result ≡ (pair_of old new).old_first }
    {
        !matches!(self, Give::Fixed(_))
    }
}
