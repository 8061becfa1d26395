//! The open requests of all processing elements, each as it was issued.

ghost use Rattle.std.specs.Prelude.{◌≡◌, ℕ, ◌+◌, ◌^◌, ◌<◌, ◌≤◌, ◌++◌, ◌∷◌, [], List, length, IfOk, IfSome, option_to_list, vec_capacity, ◌==◌};
ghost use Rattle.std.specs.List.{position};
ghost use Rattle.ultra_isa.specs.declared.Instr.{Instr};
ghost use Rattle.ultra_latency.specs.Open.{answered_at, latencies_along, request_for, row, rows_after, rows_with, since, without_request, HasPlace, HavePlaces, IsOpenTable};
ghost use Rattle.ultra_latency.specs.Summary.{AreSummedUp, AreSmall};

use crate::summary::Latencies;
use arrayvec::ArrayVec;
use std::alloc::{AllocError, Global};
use std::marker::Model;
use ultra_model::Config;
use ultra_msg::{Cell, Event, Op, Pe, take_out};
use ultra_pni::MOST_OPEN;

/// An open request, as its processing element issued it.
#[derive(Clone, Copy, Default, Drop)]
pub struct OpenRequest {
    /// Its number among the issues of its processing element, from 0.
    pub number: u32,
    /// The cell.
    pub cell: Cell,
    /// The operation.
    pub op: Op,
    /// The cycle of the issue.
    pub cycle: u32,
}

/// The open requests of one processing element, at most `MOST_OPEN`, in the order of their issues.
#[derive(Drop)]
pub struct OpenRow {
    open: ArrayVec<OpenRequest, MOST_OPEN>,
}

impl Model for OpenRow {
    ghost use Rattle.std.specs.Prelude.{List};
    ghost use Rattle.ultra_latency.specs.declared.open.OpenRequest.{OpenRequest as Request};

    ghost Value = { List Request };

    ghost view = { λ r. r.open.items };
}

/// The place of the first request for a cell, or `None` if there is none.
fn place_of(requests: &[OpenRequest], cell: Cell) -> Option<usize>
    ensures { result ≡ position (λ o. o.cell == cell) requests.now }
{
    requests.iter().position(|request| request.cell == cell)
}

impl OpenRow {
    /// No open request.
    fn new() -> OpenRow
        ensures { result ≡ [] }
    {
        OpenRow {
            open: ArrayVec::new(),
        }
    }

    /// A request is issued.
    fn put(&mut self, request: OpenRequest)
        requires { length self.old < MOST_OPEN }
        ensures { self.new ≡ self.old ++ request ∷ [] }
    {
        self.open.push(request);
    }

    /// The first request for the cell, or `None` if there is none.
    fn request(&self, cell: Cell) -> Option<OpenRequest>
        ensures { result ≡ request_for cell self.now }
    {
        let place = place_of(self.open.as_slice(), cell)?;
        Some(self.open.as_slice()[place])
    }

    /// The first request for the cell is answered. Returns it, or `None` if there is none.
    fn take(&mut self, cell: Cell) -> Option<OpenRequest>
        ensures request { result ≡ request_for cell self.old }
        ensures others { self.new ≡ without_request cell self.old }
    {
        let place = place_of(self.open.as_slice(), cell)?;
        Some(take_out(&mut self.open, place))
    }
}

/// The open requests of all processing elements, by number.
#[derive(Drop)]
pub struct OpenTable {
    /// Those of each.
    pub rows: Vec<OpenRow>,
}

impl OpenTable {
    /// The table before the first cycle of a run: no request is open. It takes memory for a row of
    /// each processing element, and for no more. An error says that memory was refused.
    pub fn new(alloc: Global, config: &Config) -> Result<OpenTable, AllocError>
        ensures { IfOk result (λ t. (program : List Instr) → IsOpenTable config.now program 0 t) }
    {
        let pes = config.net().size();
        let mut rows = Vec::with_capacity(alloc, pes as usize)?;
        for _ in 0..pes {
            rows.push_reserved(OpenRow::new());
        }
        Ok(OpenTable { rows })
    }

    /// The open requests of a processing element, in the order of their issues.
    pub fn requests(&self, pe: Pe) -> &[OpenRequest]
        requires { pe < length self.now.rows.items }
        ensures { result.now ≡ row self.now.rows.items pe }
    {
        self.rows[pe as usize].open.as_slice()
    }

    /// The open request of a processing element for a cell, or `None` if there is none.
    pub fn request(&self, pe: Pe, cell: Cell) -> Option<OpenRequest>
        requires { pe < length self.now.rows.items }
        ensures { result ≡ request_for cell (row self.now.rows.items pe) }
    {
        self.rows[pe as usize].request(cell)
    }

    /// Updates the open requests by the events of a cycle, and adds the latencies of its deliveries
    /// to `latencies`. The table doesn't grow.
    #[inline(always)]
    pub fn note_events(&mut self, events: &[Event], cycle: u32, latencies: &mut Latencies)
        requires places { HavePlaces cycle self.old.rows.items events.now }
        requires early { cycle ≤ 2 ^ 20 }
        requires small { AreSmall latencies.old }
        requires room { latencies.old.count + length events.now < 2 ^ 32 }
        ensures rows { self.new.rows.items ≡ rows_after cycle self.old.rows.items events.now }
        ensures summary { (xs : List ℕ) → AreSummedUp xs latencies.old →
            AreSummedUp (xs ++ latencies_along cycle self.old.rows.items events.now) latencies.new }
        ensures small { AreSmall latencies.new }
        ensures capacity { vec_capacity self.new.rows ≡ vec_capacity self.old.rows }
    {
        for event in events {
            let answered = self.note(event, cycle);
            let latency = latency_of(answered, cycle);
            latencies.add(latency);
        }
    }

    /// Updates the open requests by an event of a cycle. Gives the request that a delivery answers.
    /// The table doesn't grow.
    pub fn note(&mut self, event: &Event, cycle: u32) -> Option<OpenRequest>
        requires { HasPlace self.old.rows.items event.now }
        ensures rows { self.new.rows.items ≡ rows_with cycle self.old.rows.items event.now }
        ensures answered { result ≡ answered_at self.old.rows.items event.now }
        ensures capacity { vec_capacity self.new.rows ≡ vec_capacity self.old.rows }
    {
        match *event {
            Event::Delivered(reply) => self.rows[reply.pe as usize].take(reply.cell),
            Event::Issued { request, number } => {
                self.rows[request.pe as usize].put(OpenRequest {
                    number,
                    cell: request.cell,
                    op: request.op,
                    cycle,
                });
                None
            }
            Event::Served { .. } | Event::Combined { .. } => None,
        }
    }
}

/// The latency of a request that is answered in a cycle, if there is one.
fn latency_of(answered: Option<OpenRequest>, cycle: u32) -> Option<u32>
    ensures latency { option_to_list result ≡ since cycle answered }
    ensures small { IfSome result (λ l. l ≤ cycle) }
{
    let request = answered?;
    Some(cycle.saturating_sub(request.cycle))
}
