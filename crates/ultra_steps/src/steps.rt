//! The steps of a run.

ghost use Rattle.std.specs.Prelude.{◌≡◌, ◌≢◌, ◌+◌, ◌<◌, [], ◌++◌, Some, OnOk, OnErr, IfErr};
ghost use Rattle.ultra_msg.specs.Bytes.{TakesPrefix};
ghost use Rattle.ultra_io.specs.TextBuffer.{Writes};
ghost use Rattle.ultra_trace_alone.specs.{declared.fault.RunFault.TheVariants.{NoMemory, NoThread}, Faults.sink_faults};
ghost use Rattle.ultra_requests.specs.EventLines.{is_shown};
ghost use Rattle.ultra_steps.specs.{StepText.IsStepTextAfter, StepLines.{shown_steps, steps_of}};

use crate::copies::fresh_copies;
use crate::cycle::{note_events, put_replies, put_steps};
use std::alloc::Global;
use ultra_block::Blocks;
use ultra_io::TextBuffer;
use ultra_isa::Program;
use ultra_latency::{OpenTable, law_of_open_requests};
use ultra_model::Config;
use ultra_msg::Sink;
use ultra_trace_alone::{RunFault, RunText, write_run};
use ultra_unit_steps::ProcessingElement;

/// Runs a program on a machine of these settings in the caller's thread. Writes a line for each
/// step of a processing element, and for each value that comes to a register, in the cycles from
/// `from` to `to` to the sink; after a fault the sink has taken a prefix of them. Cycles behind `to`
/// aren't made. What it holds doesn't grow with the number of cycles.
///
/// `Write` says that the sink failed, and `NoMemory` that memory was refused; it is asked for only
/// before the first byte is written. Never returns `NoThread`.
pub fn write_steps<S: Sink>(
    alloc: Global,
    config: &Config,
    program: &Program,
    from: u32,
    to: u32,
    sink: &mut S,
) -> Result<(), RunFault>
    ensures ok { OnOk result
        (S.taken sink.new ≡ S.taken sink.old ++ steps_of from to config.now program.now) }
    ensures still { OnOk result (S.failures sink.new ≡ S.failures sink.old) }
    ensures err { OnErr result (TakesPrefix (steps_of from to config.now program.now)
        (S.taken sink.old) (S.taken sink.new)) }
    ensures counted { IfErr result (λ e.
        S.failures sink.new ≡ S.failures sink.old + sink_faults e) }
    ensures alone { IfErr result (λ e. e ≢ NoThread) }
    ensures memory_first { IfErr result (λ e. e ≡ NoMemory → S.taken sink.new ≡ S.taken sink.old) }
{
    let table = OpenTable::new(alloc, config)?;
    let copies = fresh_copies(alloc, config)?;
    let text = StepText {
        from,
        to,
        table,
        copies,
    };
    write_run(alloc, config, program, text, sink)
}

/// The steps of a run from a cycle to another.
#[derive(Drop)]
pub(crate) struct StepText {
    /// The first cycle whose steps are written.
    from: u32,
    /// The last one.
    to: u32,
    /// The open requests.
    table: OpenTable,
    /// A copy of each processing element.
    copies: Vec<ProcessingElement>,
}

impl StepText {
    /// Whether the lines of a cycle are written.
    fn shows(&self, cycle: u32) -> bool
        ensures { result ≡ is_shown self.now.from self.now.to cycle }
    {
        self.from <= cycle && cycle <= self.to
    }
}

impl RunText for StepText {
    ghost pieces = { λ t. record {
      opening = [];
      lines = shown_steps t.from t.to;
      closing = λ _ _. [];
      last = Some t.to;
    } };

    ghost takes = { λ count. count ≡ 1 };

    ghost is_ready = { λ t c program n. IsStepTextAfter c program n t };

    fn last_cycle(&self) -> Option<u32> {
        Some(self.to)
    }

    fn put_opening<S: Sink>(&self, _buffer: &mut TextBuffer<'_, S>) {}

    fn put_lines<S: Sink>(&mut self, buffer: &mut TextBuffer<'_, S>, blocks: &Blocks, cycle: u32) {
        // for the prover: what the events make of the open requests
        law_of_open_requests(blocks.config());
        let is_shown = self.shows(cycle);
        let copies = self.copies.as_mut_slice();
        put_replies(buffer, copies, &self.table, blocks, cycle, is_shown);
        put_steps(buffer, copies, blocks, cycle, is_shown);
        note_events(&mut self.table, blocks.events_of_one(), cycle);
    }

    fn put_closing<S: Sink>(&self, _buffer: &mut TextBuffer<'_, S>, _blocks: &Blocks) {}
}
