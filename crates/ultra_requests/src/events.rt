//! The events of a run.

ghost use Rattle.std.specs.Prelude.{◌≡◌, ◌≢◌, ◌+◌, ◌<◌, [], ◌++◌, Some, OnOk, OnErr, IfErr};
ghost use Rattle.ultra_msg.specs.Bytes.{TakesPrefix};
ghost use Rattle.ultra_io.specs.TextBuffer.{Writes};
ghost use Rattle.ultra_latency.specs.Open.{IsOpenTable};
ghost use Rattle.ultra_trace_alone.specs.{declared.fault.RunFault.TheVariants.{NoMemory, NoThread}, BlocksAfter.IsAfter, Faults.sink_faults};
ghost use Rattle.ultra_requests.specs.EventLines.{events_of, lines_of_cycle, shown_of_cycle};

use crate::cycle::{note_unwritten_events, put_event_lines, put_stops};
use std::alloc::Global;
use ultra_block::Blocks;
use ultra_io::TextBuffer;
use ultra_isa::Program;
use ultra_latency::{OpenTable, law_of_open_requests};
use ultra_model::Config;
use ultra_msg::Sink;
use ultra_trace_alone::{RunFault, RunText, write_run};

/// Runs a program on a machine of these settings in the caller's thread. Writes a line for each
/// event of the cycles from `from` to `to` to the sink; after a fault the sink has taken a prefix
/// of them. Cycles behind `to` aren't made. What it holds doesn't grow with the number of cycles.
///
/// `Write` says that the sink failed, and `NoMemory` that memory was refused; it is asked for only
/// before the first byte is written. Never returns `NoThread`.
pub fn write_events<S: Sink>(
    alloc: Global,
    config: &Config,
    program: &Program,
    from: u32,
    to: u32,
    sink: &mut S,
) -> Result<(), RunFault>
    ensures ok { OnOk result
        (S.taken sink.new ≡ S.taken sink.old ++ events_of from to config.now program.now) }
    ensures still { OnOk result (S.failures sink.new ≡ S.failures sink.old) }
    ensures err { OnErr result (TakesPrefix (events_of from to config.now program.now)
        (S.taken sink.old) (S.taken sink.new)) }
    ensures counted { IfErr result (λ e.
        S.failures sink.new ≡ S.failures sink.old + sink_faults e) }
    ensures alone { IfErr result (λ e. e ≢ NoThread) }
    ensures memory_first { IfErr result (λ e. e ≡ NoMemory → S.taken sink.new ≡ S.taken sink.old) }
{
    let table = OpenTable::new(alloc, config)?;
    write_run(alloc, config, program, EventText { from, to, table }, sink)
}

/// The events of a run from a cycle to another.
#[derive(Drop)]
pub(crate) struct EventText {
    /// The first cycle whose events are written.
    from: u32,
    /// The last one.
    to: u32,
    /// The open requests.
    table: OpenTable,
}

impl RunText for EventText {
    ghost pieces = { λ t. record {
      opening = [];
      lines = shown_of_cycle t.from t.to;
      closing = λ _ _. [];
      last = Some t.to;
    } };

    ghost takes = { λ count. count ≡ 1 };

    ghost is_ready = { λ t c program n. IsOpenTable c program n t.table };

    fn last_cycle(&self) -> Option<u32> {
        Some(self.to)
    }

    fn put_opening<S: Sink>(&self, _buffer: &mut TextBuffer<'_, S>) {}

    fn put_lines<S: Sink>(&mut self, buffer: &mut TextBuffer<'_, S>, blocks: &Blocks, cycle: u32) {
        // for the prover: what the events make of the open requests
        law_of_open_requests(blocks.config());
        if self.from <= cycle && cycle <= self.to {
            put_cycle(buffer, &mut self.table, blocks, cycle);
        } else {
            note_unwritten_events(&mut self.table, blocks.events_of_one(), cycle);
        }
    }

    fn put_closing<S: Sink>(&self, _buffer: &mut TextBuffer<'_, S>, _blocks: &Blocks) {}
}

/// Writes the lines of the last cycle, and updates the open requests by its events.
fn put_cycle<S: Sink>(
    buffer: &mut TextBuffer<'_, S>,
    table: &mut OpenTable,
    blocks: &Blocks,
    cycle: u32,
)
    requires one { blocks.now.count ≡ 1 }
    requires made { IsAfter blocks.now.config blocks.now.program (cycle + 1) blocks.now }
    requires table { IsOpenTable blocks.now.config blocks.now.program cycle table.old }
    ensures table { IsOpenTable blocks.now.config blocks.now.program (cycle + 1) table.new }
    ensures writes { Writes S.taken S.failures
        (lines_of_cycle blocks.now.config blocks.now.program cycle) buffer.old buffer.new }
{
    // for the prover: what the events make of the open requests, and which they name
    law_of_open_requests(blocks.config());
    put_event_lines(buffer, table, blocks.events_of_one(), cycle);
    put_stops(buffer, blocks.stops_of_one(), cycle);
}
