//! What the requests of a run did sequentially.

ghost use Rattle.std.specs.Prelude.{◌≡◌, ℕ, [], ◌++◌, List, IfOk, OnOk};
ghost use Rattle.ultra_serial_law.specs.{declared.records.Entry.Entry as Listed, Legal.{cells_after, replayed}, SerialList.{History, empty_history, after_event, noted}};
ghost use Rattle.ultra_serial.specs.{DenseCells.dense_cells, Following.Follows, declared.serial_state.OrderFault.TheVariants.NoMemory};

use crate::dense_memory::DenseMemory;
use crate::pending_requests::PendingRequests;
use crate::{Entry, NamedRequest, SerialList};
use std::alloc::{AllocError, AllocFailed, Global};
use ultra_msg::{Cell, Event, Word};

/// Why there is no order and no log.
#[derive(Clone, Copy, PartialEq, Eq, Debug, Drop)]
pub enum OrderFault {
    /// Memory was refused.
    NoMemory,
}

impl From<AllocError> for OrderFault {
    ghost from_gives = { λ _ fault. fault ≡ NoMemory };

    fn from(_: AllocError) -> OrderFault {
        OrderFault::NoMemory
    }
}

/// What is on its way to memory in a run, the memory on which its requests act sequentially, and
/// what was served in the last cycle.
#[derive(Drop)]
pub(crate) struct SerialState {
    waiting: PendingRequests,
    memory: DenseMemory,
    entries: SerialList,
}

impl SerialState {
    /// The state before the first cycle of a machine with `all_cells` cells.
    pub fn new(
        alloc: Global,
        initial: &[(Cell, Word)],
        all_cells: u32,
    ) -> Result<SerialState, AllocError>
        ensures state { IfOk result (λ s. Follows initial.now [] s empty_history) }
        ensures entries { IfOk result (λ s. s.entries.items ≡ []) }
    {
        Ok(SerialState {
            waiting: PendingRequests::new(alloc),
            memory: DenseMemory::new(alloc, initial, all_cells)?,
            entries: Vec::new(alloc),
        })
    }

    /// What was served in the last cycle, in serial order.
    pub fn entries(&self) -> &[Entry]
        ensures { result.now ≡ self.now.entries.items }
    {
        self.entries.as_slice()
    }

    /// Follows the events of a cycle. Its entries take the place of those of the cycle before.
    pub fn follow(&mut self, events: &[Event]) -> Result<(), AllocError>
        ensures { OnOk result ((n : ℕ) (initial : List (ℕ × ℕ)) (listed : List Listed) (h : History)
            → Follows initial listed self.old h
            → Follows initial (listed ++ self.old.entries.items) self.new (noted n events.now h)) }
    {
        self.entries.clear();
        self.note_all(events)
    }

    /// Notes some events of a cycle.
    fn note_all(&mut self, events: &[Event]) -> Result<(), AllocError>
        ensures { OnOk result ((n : ℕ) (initial : List (ℕ × ℕ)) (listed : List Listed) (h : History)
            → Follows initial listed self.old h
            → Follows initial listed self.new (noted n events.now h)) }
    {
        for event in events {
            self.note(event)?;
        }
        Ok(())
    }

    /// Notes an event of a cycle.
    fn note(&mut self, event: &Event) -> Result<(), AllocError>
        ensures { OnOk result ((n : ℕ) (initial : List (ℕ × ℕ)) (listed : List Listed) (h : History)
            → Follows initial listed self.old h
            → Follows initial listed self.new (after_event n h event.now)) }
    {
        match *event {
            Event::Delivered(_) => Ok(()),
            Event::Served { request, .. } => match self.waiting.take(request.pe, request.cell) {
                Some(leaves) => {
                    serve(&mut self.memory, &mut self.entries, leaves.as_slice())?;
                    self.waiting.reuse(leaves)
                }
                None => Ok(()),
            },
            Event::Combined {
                cell,
                old,
                new,
                old_first,
                ..
            } => self.waiting.combine(cell, old, new, old_first),
            Event::Issued { request, number } => self.waiting.issue(request, number),
        }
    }
}

/// Leaves act on a memory in order, and are appended to a serial list.
fn serve(
    memory: &mut DenseMemory,
    order: &mut SerialList,
    leaves: &[NamedRequest],
) -> Result<(), AllocError>
    ensures order { OnOk result
        (order.new.items ≡ order.old.items ++ replayed (dense_cells memory.old) leaves.now) }
    ensures cells { OnOk result
        (dense_cells memory.new ≡ cells_after (dense_cells memory.old) leaves.now) }
{
    for leaf in leaves {
        let reply = memory.act(leaf.cell, leaf.op)?;
        order.push(Entry {
            pe: leaf.pe,
            number: leaf.number,
            cell: leaf.cell,
            op: leaf.op,
            reply,
        })?;
    }
    Ok(())
}
