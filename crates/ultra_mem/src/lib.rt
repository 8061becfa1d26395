//! A memory module: some cells, a register for the request that comes and one for the reply that
//! leaves, and an adder beside the memory.
#![tactic(auto)]

ghost use Rattle.std.specs.Prelude.{◌≡◌, ◌<◌, ◌≤◌, ◌⊎◌, ◌↔◌, length, IfOk, OnOk, IsTrue, IsErrOf, slice_get, slice_set, option_map};
ghost use Rattle.ultra_mem.specs.Serve.{fresh_module, serve, served, with_waiting, without_out, IsIdle};

use std::alloc::{AllocError, Global};
use std::marker::Model;
use ultra_msg::{Reply, ReplyMessage, ReplyPacket, Request, RequestPacket, Slot, Word};

/// The most cells that a module can have.
pub const MOST_CELLS: u32 = 4096;

/// A request that waits for a module, with the offset of its cell there.
#[derive(Clone, Copy, Default, Drop)]
pub struct Placed {
    /// The request.
    pub request: RequestPacket,
    /// Which of the module's cells it is for, from 0.
    pub offset: u32,
}

/// One act of a module: the request, its reply, and the cell's value afterwards.
#[derive(Clone, Copy, PartialEq, Eq, Debug, Drop)]
pub struct Served {
    /// The request that was served.
    pub request: Request,
    /// What it is answered.
    pub reply: Reply,
    /// The cell's value after the act.
    pub now: Word,
}

/// Why there is no such module.
#[derive(Clone, Copy, PartialEq, Eq, Debug, Drop)]
pub enum ModuleFault {
    /// The memory for the cells was refused.
    NoMemory,
    /// The number of cells isn't from 1 to 4096.
    CellsOutOfRange,
}

impl From<AllocError> for ModuleFault {
    ghost use Rattle.ultra_mem.specs.declared.ModuleFault.TheVariants.{NoMemory};

    ghost from_gives = { λ _ fault. fault ≡ NoMemory };

    fn from(_: AllocError) -> ModuleFault {
        ModuleFault::NoMemory
    }
}

/// A memory module of 1 to 4096 cells, one word each. It serves at most one request a cycle.
///
/// That an adder beside the memory does the fetch-and-add is the 1983 paper's; the two registers
/// and when the module acts are this project's profile.
#[derive(Drop)]
pub struct Module {
    cells: Vec<Word>,
    inp: Slot<Placed>,
    out: Slot<ReplyPacket>,
}

impl Model for Module {
    ghost use Rattle.std.specs.Prelude.{◌<◌, ◌≤◌, length, IfSome};
    ghost use Rattle.ultra_mem.specs.{Serve.ModuleState, declared.TheConstants.MOST_CELLS};

    ghost Value = { ModuleState };

    ghost view = { λ m. record { cells = m.cells.items; inp = m.inp; out = m.out } };

    ghost invariant = { λ m. (1 ≤ length m.cells.items) × (length m.cells.items ≤ MOST_CELLS) ×
        IfSome m.inp (λ p. p.offset < length m.cells.items) };
}

impl Module {
    /// A module with this many cells, all 0, and both registers empty.
    ///
    /// `CellsOutOfRange` is found before memory is asked for. `NoMemory` comes only where the
    /// memory for the cells was refused.
    pub fn new(alloc: Global, cells: u32) -> Result<Module, ModuleFault>
        ensures ok { IfOk result (λ m. m ≡ fresh_module cells) }
        ensures in_range { OnOk result ((1 ≤ cells) × (cells ≤ MOST_CELLS)) }
        ensures out_of_range { IsErrOf result ModuleFault.CellsOutOfRange ↔
            ((cells < 1) ⊎ (MOST_CELLS < cells)) }
    {
        if cells < 1 || cells > MOST_CELLS {
            return Err(ModuleFault::CellsOutOfRange);
        }
        Ok(Module {
            cells: vec![in alloc; 0; cells as usize]?,
            inp: Slot::empty(),
            out: Slot::empty(),
        })
    }

    /// The number of cells, from 1 to 4096.
    pub fn cell_count(&self) -> u32
        ensures value { result ≡ length self.now.cells }
        ensures some { 1 ≤ result }
        ensures small { result ≤ MOST_CELLS }
    {
        self.cells.len() as u32
    }

    /// The word in the cell at this offset, or `None` if the module has no such cell.
    pub fn peek(&self, offset: u32) -> Option<Word>
        ensures { result ≡ slice_get self.now.cells offset }
    {
        self.cells.get(offset as usize).copied()
    }

    /// The request that waits to be served, or `None` if none does.
    pub fn request(&self) -> Option<Request>
        ensures { result ≡ option_map (λ p. p.request) self.now.inp }
    {
        Some(self.inp.get()?.request.request())
    }

    /// The reply that waits to leave, or `None` if none does.
    pub fn reply(&self) -> Option<ReplyMessage>
        ensures { result ≡ self.now.out }
    {
        Some(self.out.get()?.message())
    }

    /// Whether no request waits to be served and no reply waits to leave.
    pub fn is_idle(&self) -> bool
        ensures { IsTrue result ↔ IsIdle self.now }
    {
        self.inp.is_empty() && self.out.is_empty()
    }

    /// Sets the cell at this offset, which the module must have.
    pub fn set(&mut self, offset: u32, word: Word)
        requires { offset < length self.old.cells }
        ensures state { self.new ≡
            record self.old { cells = slice_set self.old.cells offset word } }
        ensures count { length self.new.cells ≡ length self.old.cells }
    {
        self.cells[offset as usize] = word;
    }

    /// Takes a request for the cell at this offset, which the module must have, into the register
    /// for requests, which must be empty.
    pub fn put(&mut self, request: Request, offset: u32)
        requires cell { offset < length self.old.cells }
        requires empty { self.old.inp ≡ None }
        ensures { self.new ≡ with_waiting self.old request offset }
    {
        self.put_packet(RequestPacket::of(request), offset);
    }

    /// The same as `put`, with a packet.
    pub fn put_packet(&mut self, request: RequestPacket, offset: u32)
        requires cell { offset < length self.old.cells }
        requires empty { self.old.inp ≡ None }
        ensures { self.new ≡ with_waiting self.old request offset }
    {
        self.inp.fill(Placed { request, offset });
    }

    /// Serves the waiting request, and returns what was done. Does nothing and returns `None` if
    /// no request waits, or if the last reply hasn't left.
    pub fn serve(&mut self) -> Option<Served>
        ensures state { self.new ≡ serve self.old }
        ensures act { result ≡ served self.old }
        ensures count { length self.new.cells ≡ length self.old.cells }
    {
        if !self.out.is_empty() {
            return None;
        }
        let Placed { request, offset } = self.inp.take()?;
        let request = request.request();
        let cell = &mut self.cells[offset as usize];
        let (now, reply) = request.op.act(*cell);
        *cell = now;
        self.out.fill(ReplyPacket::of(ReplyMessage {
            pe: request.pe,
            cell: request.cell,
            reply,
        }));
        Some(Served {
            request,
            reply,
            now,
        })
    }

    /// Takes the reply out of its register, or returns `None` if there is none. The register is
    /// empty afterwards.
    pub fn take_reply(&mut self) -> Option<ReplyMessage>
        ensures reply { result ≡ self.old.out }
        ensures taken { self.new ≡ without_out self.old }
    {
        Some(self.take_reply_packet()?.message())
    }

    /// The same as `take_reply`, with a packet.
    #[inline(always)]
    pub fn take_reply_packet(&mut self) -> Option<ReplyPacket>
        ensures reply { result ≡ self.old.out }
        ensures taken { self.new ≡ without_out self.old }
    {
        self.out.take()
    }
}
