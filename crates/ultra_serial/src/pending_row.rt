//! The requests of some processing elements that are on their way to memory.

ghost use Rattle.std.specs.Prelude.{◌≡◌, ℕ, ◌+◌, ◌<◌, [], ◌∷◌, ◌++◌, length, take, drop, true, false, Some, IfNone, IfSome, OnOk, option_to_list, slice_get, vec_len};
ghost use Rattle.ultra_serial.specs.{declared.pending_row.PendingRequest.PendingRequest as RequestOf, ByPair.is_pair, PendingRow.{leaves_under, items_in, leaves_in_order, with_joined}};

use crate::NamedRequest;
use std::alloc::{AllocError, Global};
use std::mem;
use ultra_msg::{Cell, Pe};

/// A request on its way to memory.
#[derive(Drop)]
pub(crate) struct PendingRequest {
    /// The processing element of its identity.
    pub pe: Pe,
    /// The cell that it is for.
    pub cell: Cell,
    /// The leaves of its tree in serial order.
    pub leaves: Vec<NamedRequest>,
}

impl PendingRequest {
    /// Joins the leaves of a new request to these, in serial order. The result is the list that
    /// isn't needed any more.
    fn join(
        &mut self,
        mut of_new: Vec<NamedRequest>,
        old_first: bool,
    ) -> Result<Vec<NamedRequest>, AllocError>
        ensures leaves { OnOk result
            (self.new.leaves.items ≡ leaves_in_order old_first self.old.leaves.items of_new.items) }
        ensures pe { self.new.pe ≡ self.old.pe }
        ensures cell { self.new.cell ≡ self.old.cell }
    {
        if old_first {
            self.leaves.extend_from_slice(of_new.as_slice())?;
            Ok(of_new)
        } else {
            of_new.extend_from_slice(self.leaves.as_slice())?;
            Ok(mem::replace(&mut self.leaves, of_new))
        }
    }
}

/// A few requests on their way to memory, the latest last.
#[derive(Drop)]
pub(crate) struct PendingRow {
    requests: Vec<PendingRequest>,
}

impl PendingRow {
    /// No requests.
    pub fn new(alloc: Global) -> PendingRow
        ensures { result.requests.items ≡ [] }
    {
        PendingRow {
            requests: Vec::new(alloc),
        }
    }

    /// Puts a request after the others.
    pub fn put(&mut self, request: PendingRequest) -> Result<(), AllocError>
        ensures { OnOk result (self.new.requests.items ≡ self.old.requests.items ++ request ∷ []) }
    {
        self.requests.push(request)?;
        Ok(())
    }

    /// Takes the leaves of the latest request of a processing element for a cell, if there is one.
    pub fn take(&mut self, pe: Pe, cell: Cell) -> Option<Vec<NamedRequest>>
        ensures taken { leaves_under pe cell self.old.requests.items ≡
            leaves_under pe cell self.new.requests.items ++ option_to_list (items_in result) }
        ensures empty { IfNone result (leaves_under pe cell self.old.requests.items ≡ []) }
        ensures others { (p a : ℕ) → is_pair pe cell p a ≡ false →
            leaves_under p a self.new.requests.items ≡ leaves_under p a self.old.requests.items }
    {
        let index = latest_of(self.requests.as_slice(), pe, cell)?;
        let PendingRequest { leaves, .. } = take_at(&mut self.requests, index);
        Some(leaves)
    }

    /// Joins the leaves of a new request to those of the latest request of a processing element for
    /// a cell, if there is one, in serial order. The result is the list that isn't needed any more.
    pub fn join(
        &mut self,
        pe: Pe,
        cell: Cell,
        of_new: Vec<NamedRequest>,
        old_first: bool,
    ) -> Result<Vec<NamedRequest>, AllocError>
        ensures { OnOk result ((p a : ℕ) →
            leaves_under p a self.new.requests.items ≡ with_joined (is_pair pe cell p a) old_first
            of_new.items (leaves_under p a self.old.requests.items)) }
    {
        match latest_of(self.requests.as_slice(), pe, cell) {
            Some(index) => self.requests[index].join(of_new, old_first),
            None => Ok(of_new),
        }
    }
}

/// The index of the latest request of a processing element for a cell.
fn latest_of(requests: &[PendingRequest], pe: Pe, cell: Cell) -> Option<usize>
    ensures within { IfSome result (λ i. i < length requests.now) }
    ensures found { IfSome result (λ i. (r : RequestOf) → slice_get requests.now i ≡ Some r →
        is_pair r.pe r.cell pe cell ≡ true) }
    ensures latest { IfSome result (λ i. leaves_under pe cell (drop (i + 1) requests.now) ≡ []) }
    ensures none { IfNone result (leaves_under pe cell requests.now ≡ []) }
{
    let mut index = requests.len();
    while index > 0 {
        index -= 1;
        let request = &requests[index];
        if request.pe == pe && request.cell == cell {
            return Some(index);
        }
    }
    None
}

/// Takes the request of an index out of a list. (Mostly it is the last one, and no other moves.)
fn take_at(requests: &mut Vec<PendingRequest>, index: usize) -> PendingRequest
    requires { index < vec_len requests.old }
    ensures value { slice_get requests.old.items index ≡ Some result }
    ensures rest { requests.new.items ≡
        take index requests.old.items ++ drop (index + 1) requests.old.items }
{
    if index + 1 == requests.len() {
        requests.swap_remove(index)
    } else {
        requests.remove(index)
    }
}
