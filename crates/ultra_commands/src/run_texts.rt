//! What the commands write of a run whose text depends on its settings and program alone.

ghost use Rattle.std.specs.Prelude.{◌≡◌, ◌≢◌, ◌+◌, ◌++◌, IfErr, OnErr, OnOk};
ghost use Rattle.ultra_msg.specs.Bytes.{TakesPrefix};
ghost use Rattle.ultra_measure.specs.Texts.{HasWindows};
ghost use Rattle.ultra_requests.specs.RequestTable.{requests_of};
ghost use Rattle.ultra_trace_alone.specs.Faults.{sink_faults};
ghost use Rattle.ultra_trace.specs.RunFault.TheVariants.{NoThread};
ghost use Rattle.ultra_inputs.specs.{Failure.write_failures, Traffic.IsStopped};
ghost use Rattle.ultra_commands.specs.{Outputs.{cycles_text, layout_asked, measures_asked}, Stops.failure_of_run};

use crate::run_output::RunOutput;
use crate::trace::failure_of_run;
use std::alloc::Global;
use ultra_args::{CyclesOutput, WindowCycles};
use ultra_inputs::Failure;
use ultra_isa::Program;
use ultra_measure::{Layout, measure};
use ultra_model::{Config, MOST_CYCLES};
use ultra_msg::Sink;
use ultra_requests::{write_events, write_requests};
use ultra_statistics::{write_latencies, write_queues};
use ultra_steps::write_steps;
use ultra_trace::RunFault;

/// What is written of some cycles of a run.
#[derive(Drop)]
pub(crate) struct CyclesText {
    /// What it is.
    pub(crate) output: CyclesOutput,
    /// The first of these cycles.
    pub(crate) from: u32,
    /// The last one.
    pub(crate) to: u32,
}

impl RunOutput for CyclesText {
    ghost text = { λ t. cycles_text t.output t.from t.to };

    fn write<'p, S: Sink>(
        &self,
        alloc: Global,
        config: &Config,
        program: &Program,
        sink: &mut S,
    ) -> Result<(), Failure<'p>> {
        match write_cycles(alloc, config, program, self, sink) {
            Ok(()) => Ok(()),
            Err(fault) => Err(failure_of_run_alone(fault)),
        }
    }
}

/// Runs a program on a machine of these settings, and writes the text of some cycles to a sink.
/// After a fault the sink has taken a prefix of it.
fn write_cycles<S: Sink>(
    alloc: Global,
    config: &Config,
    program: &Program,
    text: &CyclesText,
    sink: &mut S,
) -> Result<(), RunFault>
    ensures ok { OnOk result (S.taken sink.new ≡ S.taken sink.old
        ++ cycles_text text.now.output text.now.from text.now.to config.now program.now) }
    ensures still { OnOk result (S.failures sink.new ≡ S.failures sink.old) }
    ensures err { OnErr result (TakesPrefix
        (cycles_text text.now.output text.now.from text.now.to config.now program.now)
        (S.taken sink.old) (S.taken sink.new)) }
    ensures counted { IfErr result
        (λ e. S.failures sink.new ≡ S.failures sink.old + sink_faults e) }
    ensures alone { IfErr result (λ e. e ≢ NoThread) }
{
    let (from, to) = (text.from, text.to);
    match text.output {
        CyclesOutput::Events => write_events(alloc, config, program, from, to, sink),
        CyclesOutput::Steps => write_steps(alloc, config, program, from, to, sink),
        CyclesOutput::Latencies => write_latencies(alloc, config, program, from, to, sink),
        CyclesOutput::Queues => write_queues(alloc, config, program, from, to, sink),
    }
}

/// The requests of a run, as a table.
pub(crate) struct Requests;

impl RunOutput for Requests {
    ghost text = { λ _. requests_of };

    fn write<'p, S: Sink>(
        &self,
        alloc: Global,
        config: &Config,
        program: &Program,
        sink: &mut S,
    ) -> Result<(), Failure<'p>> {
        match write_requests(alloc, config, program, sink) {
            Ok(()) => Ok(()),
            Err(fault) => Err(failure_of_run_alone(fault)),
        }
    }
}

/// The measures of a run.
#[derive(Drop)]
pub(crate) struct Measures {
    /// Whether they are a table, separated by commas.
    pub(crate) csv: bool,
    /// How many cycles a window has, if a number is given.
    pub(crate) every: Option<WindowCycles>,
    /// The first cycle that is measured.
    pub(crate) from: u32,
    /// The last one.
    pub(crate) to: u32,
}

impl RunOutput for Measures {
    ghost text = { λ m. measures_asked m.csv m.every m.from m.to };

    fn write<'p, S: Sink>(
        &self,
        alloc: Global,
        config: &Config,
        program: &Program,
        sink: &mut S,
    ) -> Result<(), Failure<'p>> {
        let layout = self.layout();
        match measure(alloc, config, program, self.from, self.to, layout, sink) {
            Ok(()) => Ok(()),
            Err(fault) => Err(failure_of_run_alone(fault)),
        }
    }
}

impl Measures {
    /// The form of the measures.
    fn layout(&self) -> Layout
        ensures value { result ≡ layout_asked self.now.csv self.now.every }
        ensures windows { HasWindows result }
    {
        match self.every {
            Some(every) => Layout::Table {
                every: every.count(),
            },
            None if self.csv => Layout::Table { every: MOST_CYCLES },
            None => Layout::Lines,
        }
    }
}

/// The command's failure for a fault of a run in the caller's thread.
pub(crate) fn failure_of_run_alone<'p>(fault: RunFault) -> Failure<'p>
    requires { fault ≢ NoThread }
    ensures stopped { IsStopped result }
    ensures counted { write_failures result ≡ sink_faults fault }
{
    failure_of_run(fault)
}
