//! The requests of a run.

ghost use Rattle.std.specs.Prelude.{◌≡◌, ◌≢◌, ◌+◌, ◌<◌, ◌++◌, None, OnOk, OnErr, IfErr};
ghost use Rattle.ultra_msg.specs.Bytes.{TakesPrefix};
ghost use Rattle.ultra_io.specs.TextBuffer.{Writes};
ghost use Rattle.ultra_latency.specs.Open.{IsOpenTable};
ghost use Rattle.ultra_trace_alone.specs.{declared.fault.RunFault.TheVariants.{NoMemory, NoThread}, Faults.sink_faults};
ghost use Rattle.ultra_requests.specs.{RequestTable.{header_line, requests_of}, CycleRows.{rows_of_cycle, rows_at_end}};

use crate::cycle::put_answers;
use crate::rows::{put_header, put_waiting};
use std::alloc::Global;
use ultra_block::Blocks;
use ultra_io::TextBuffer;
use ultra_isa::Program;
use ultra_latency::{OpenTable, law_of_open_requests};
use ultra_model::Config;
use ultra_msg::Sink;
use ultra_trace_alone::{RunFault, RunText, write_run};

/// Runs a program on a machine of these settings in the caller's thread. Writes the requests of the
/// run to the sink as a table; after a fault the sink has taken a prefix of it. What it holds
/// doesn't grow with the number of cycles.
///
/// `Write` says that the sink failed, and `NoMemory` that memory was refused; it is asked for only
/// before the first byte is written. Never returns `NoThread`.
pub fn write_requests<S: Sink>(
    alloc: Global,
    config: &Config,
    program: &Program,
    sink: &mut S,
) -> Result<(), RunFault>
    ensures ok { OnOk result
        (S.taken sink.new ≡ S.taken sink.old ++ requests_of config.now program.now) }
    ensures still { OnOk result (S.failures sink.new ≡ S.failures sink.old) }
    ensures err { OnErr result
        (TakesPrefix (requests_of config.now program.now) (S.taken sink.old) (S.taken sink.new)) }
    ensures counted { IfErr result (λ e.
        S.failures sink.new ≡ S.failures sink.old + sink_faults e) }
    ensures alone { IfErr result (λ e. e ≢ NoThread) }
    ensures memory_first { IfErr result (λ e. e ≡ NoMemory → S.taken sink.new ≡ S.taken sink.old) }
{
    // for the prover: the settings are in their ranges
    let _valid = config.initial();
    let table = OpenTable::new(alloc, config)?;
    write_run(alloc, config, program, RequestText { table }, sink)
}

/// The requests of a run.
#[derive(Drop)]
pub(crate) struct RequestText {
    /// The open requests.
    table: OpenTable,
}

impl RunText for RequestText {
    ghost pieces = { λ _. record {
      opening = header_line;
      lines = rows_of_cycle;
      closing = rows_at_end;
      last = None;
    } };

    ghost takes = { λ count. count ≡ 1 };

    ghost is_ready = { λ t c program n. IsOpenTable c program n t.table };

    fn last_cycle(&self) -> Option<u32> {
        None
    }

    fn put_opening<S: Sink>(&self, buffer: &mut TextBuffer<'_, S>) {
        put_header(buffer);
    }

    fn put_lines<S: Sink>(&mut self, buffer: &mut TextBuffer<'_, S>, blocks: &Blocks, cycle: u32) {
        // for the prover: the settings are in their ranges
        let _valid = blocks.config().initial();
        // and what the events make of the open requests, and which they name
        law_of_open_requests(blocks.config());
        put_answers(buffer, &mut self.table, blocks.events_of_one(), cycle);
    }

    fn put_closing<S: Sink>(&self, buffer: &mut TextBuffer<'_, S>, blocks: &Blocks) {
        // for the prover: the settings are in their ranges
        let _valid = blocks.config().initial();
        put_waiting(buffer, &self.table, blocks.config().net().size());
    }
}
