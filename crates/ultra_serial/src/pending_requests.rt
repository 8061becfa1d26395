//! The requests that are on their way to memory.

ghost use Rattle.std.specs.Prelude.{◌≡◌, ℕ, ◌+◌, ◌<◌, List, [], ◌∷◌, OnOk, option_map, vec_len};
ghost use Rattle.ultra_msg.specs.declared.Event.TheVariants.{Combined, Issued};
ghost use Rattle.ultra_serial_law.specs.Tree.{Tree, leaves as leaves_in, Kept, kept, tree_of, without, trees_after};
ghost use Rattle.ultra_serial.specs.{ByPair.is_pair, PendingRow.{items_in, with_joined}, PendingRequests.{Keeps, chains_in}};

use crate::NamedRequest;
use crate::pending_row::{PendingRequest, PendingRow};
use std::alloc::{AllocError, Global};
use ultra_msg::{Cell, Pe, Request};

/// The number of rows.
const ROWS: u32 = 64;

/// The requests that are on their way to memory, each as the leaves of its tree in serial order.
#[derive(Drop)]
pub(crate) struct PendingRequests {
    alloc: Global,
    /// The requests, by the remainder of their processing element. There are no rows before the
    /// first request.
    rows: Vec<PendingRow>,
    /// Lists that no request has any more, kept for reuse. What they hold doesn't matter.
    spare: Vec<Vec<NamedRequest>>,
}

impl PendingRequests {
    /// No requests.
    pub fn new(alloc: Global) -> PendingRequests
        ensures { Keeps result [] }
    {
        PendingRequests {
            alloc,
            rows: Vec::new(alloc),
            spare: Vec::new(alloc),
        }
    }

    /// A request was issued.
    pub fn issue(&mut self, request: Request, number: u32) -> Result<(), AllocError>
        ensures { OnOk result ((ks : List Kept) → Keeps self.old ks →
            Keeps self.new (trees_after ks (Issued request number))) }
    {
        let mut leaves = self.empty_list();
        leaves.push(NamedRequest {
            pe: request.pe,
            number,
            cell: request.cell,
            op: request.op,
        })?;
        self.put(request.pe, request.cell, leaves)
    }

    /// The requests of two processing elements for a cell have combined; the request that is sent
    /// for both keeps the identity of the old one.
    pub fn combine(
        &mut self,
        cell: Cell,
        old: Pe,
        new: Pe,
        old_first: bool,
    ) -> Result<(), AllocError>
        ensures { OnOk result ((ks : List Kept) (s x : ℕ) → Keeps self.old ks →
            Keeps self.new (trees_after ks (Combined s x cell old new old_first))) }
    {
        let Some(leaves) = self.take(new, cell) else {
            // without a new request, the old one is dropped too
            self.take(old, cell);
            return Ok(());
        };
        if old == new {
            // the old request is the latest of the two: it was taken, and the new one is left
            self.join(old, cell, leaves, !old_first)
        } else {
            self.join(old, cell, leaves, old_first)
        }
    }

    /// Joins the leaves of a new request to those of the latest request of a processing element for
    /// a cell, if there is one, in serial order.
    fn join(
        &mut self,
        pe: Pe,
        cell: Cell,
        of_new: Vec<NamedRequest>,
        old_first: bool,
    ) -> Result<(), AllocError>
        ensures { OnOk result ((p a : ℕ) → chains_in self.new.rows.items p a ≡ with_joined
            (is_pair pe cell p a) old_first of_new.items (chains_in self.old.rows.items p a)) }
    {
        let row = (pe % ROWS) as usize;
        if row >= self.rows.len() {
            return Ok(());
        }
        let list = self.rows[row].join(pe, cell, of_new, old_first)?;
        self.reuse(list)
    }

    /// Takes the leaves of the request of a processing element for a cell, if there is one.
    pub fn take(&mut self, pe: Pe, cell: Cell) -> Option<Vec<NamedRequest>>
        ensures kept { (ks : List Kept) → Keeps self.old ks → Keeps self.new (without pe cell ks) }
        ensures taken { (ks : List Kept) → Keeps self.old ks →
            items_in result ≡ option_map leaves_in (tree_of pe cell ks) }
    {
        let row = (pe % ROWS) as usize;
        if row < self.rows.len() {
            self.rows[row].take(pe, cell)
        } else {
            None
        }
    }

    /// Has a list used again that is needed no more.
    pub fn reuse(&mut self, list: Vec<NamedRequest>) -> Result<(), AllocError>
        ensures { self.new.rows ≡ self.old.rows }
    {
        self.spare.push(list)?;
        Ok(())
    }

    /// An empty list: one that was used before, if there is one.
    fn empty_list(&mut self) -> Vec<NamedRequest>
        ensures empty { result.items ≡ [] }
        ensures rows { self.new.rows ≡ self.old.rows }
    {
        let mut list = match self.spare.pop() {
            Some(list) => list,
            None => Vec::new(self.alloc),
        };
        list.clear();
        list
    }

    /// Keeps leaves as those of the request of a processing element for a cell.
    fn put(&mut self, pe: Pe, cell: Cell, leaves: Vec<NamedRequest>) -> Result<(), AllocError>
        ensures { OnOk result ((ks : List Kept) (t : Tree) → Keeps self.old ks →
            leaves.items ≡ leaves_in t → Keeps self.new (kept pe cell t ∷ ks)) }
    {
        let row = (pe % ROWS) as usize;
        self.make_rows(row)?;
        self.rows[row].put(PendingRequest { pe, cell, leaves })
    }

    /// Makes the rows if they aren't made yet. No request changes.
    fn make_rows(&mut self, row: usize) -> Result<(), AllocError>
        requires { row < 64 }
        ensures made { OnOk result (row < vec_len self.new.rows) }
        ensures same { OnOk result ((p a : ℕ) →
            chains_in self.new.rows.items p a ≡ chains_in self.old.rows.items p a) }
    {
        if row < self.rows.len() {
            return Ok(());
        }
        for _made in 0..ROWS {
            self.add_row()?;
        }
        Ok(())
    }

    /// Adds a row without requests. No request changes.
    fn add_row(&mut self) -> Result<(), AllocError>
        ensures longer { OnOk result (vec_len self.new.rows ≡ vec_len self.old.rows + 1) }
        ensures same { OnOk result ((p a : ℕ) →
            chains_in self.new.rows.items p a ≡ chains_in self.old.rows.items p a) }
    {
        self.rows.push(PendingRow::new(self.alloc))?;
        Ok(())
    }
}
