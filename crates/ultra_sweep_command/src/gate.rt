//! The program's way to run a job of a sweep: in the thread that drew it, into a text in memory.

ghost use Rattle.std.specs.Prelude.{◌≡◌, ◌≤◌, []};
ghost use Rattle.ultra_sweep.specs.{Job.{trace_of, IsOutcomeOf}, declared.job.Job.Job as JobOf};
ghost use Rattle.ultra_measure.specs.Texts.{job_rows};
ghost use Rattle.ultra_sweep_command.specs.Output.{job_output, window_cycles};

use crate::text::Text;
use std::alloc::Global;
use std::sync::Wait;
use std::sync::atomic::{AtomicU64, Ordering};
use ultra_args::{SweepOutput, WindowCycles};
use ultra_board::Seat;
use ultra_measure::{Layout, measure};
use ultra_model::MOST_CYCLES;
use ultra_sweep::{Job, JobGate, JobOutcome, JobResult};
use ultra_trace_alone::run_alone;

/// Runs each job in the thread that drew it, and gives its trace.
pub struct RunAlone;

impl JobGate for RunAlone {
    ghost text = { λ gate number job. trace_of job };

    fn run<R: Wait>(
        &self,
        _rt: &R,
        alloc: Global,
        _seat: &Seat,
        number: u64,
        job: &Job,
    ) -> JobResult {
        JobResult {
            number,
            outcome: trace_job(alloc, job, Text::new(alloc)),
        }
    }
}

/// Runs each job in the thread that drew it, and gives what a sweep writes of it.
///
/// The jobs of a sweep are mostly alike. So the text of a trace begins with as much room as the
/// trace before took, because a long text is costly to move when it grows.
#[derive(Drop)]
pub struct OutputGate<'a> {
    /// What is written of a job.
    pub output: &'a SweepOutput,
    /// The length of the last trace in bytes, or 0 before the first.
    last_length: AtomicU64,
}

impl<'a> OutputGate<'a> {
    /// A gate that has run no job.
    pub fn new(output: &'a SweepOutput) -> OutputGate<'a>
        ensures { result.output ≡ output.entry }
    {
        OutputGate {
            output,
            last_length: AtomicU64::new(0),
        }
    }

    /// The trace of a job.
    fn trace(&self, alloc: Global, job: &Job) -> JobOutcome
        ensures { IsOutcomeOf (trace_of job.now) result }
    {
        let room = self.last_length.load(Ordering::Relaxed) as usize;
        let outcome = trace_job(alloc, job, Text::with_room(alloc, room));
        if let JobOutcome::Text(bytes) = &outcome {
            self.last_length
                .store(bytes.len() as u64, Ordering::Relaxed);
        }
        outcome
    }
}

impl JobGate for OutputGate<'_> {
    ghost text = { λ gate. job_output gate.output.now };

    fn run<R: Wait>(
        &self,
        _rt: &R,
        alloc: Global,
        _seat: &Seat,
        number: u64,
        job: &Job,
    ) -> JobResult {
        let outcome = match *self.output {
            SweepOutput::Report => self.trace(alloc, job),
            SweepOutput::Measures { every, from, to } => {
                measure_job(alloc, number, job, from, to, cycles_of(every))
            }
        };
        JobResult { number, outcome }
    }
}

/// The trace of a job, written into an empty text.
fn trace_job(alloc: Global, job: &Job, mut text: Text) -> JobOutcome
    requires { text.bytes.items ≡ [] }
    ensures { IsOutcomeOf (trace_of job.now) result }
{
    if run_alone(alloc, &job.config, &job.program, &mut text).is_err() {
        return JobOutcome::NoMemory;
    }
    JobOutcome::Text(text.into_bytes())
}

/// How many cycles a window has. Where no number is given, it has room for a whole run.
fn cycles_of(every: Option<WindowCycles>) -> u32
    ensures value { result ≡ window_cycles every }
    ensures some { 1 ≤ result }
{
    match every {
        Some(cycles) => cycles.count(),
        None => MOST_CYCLES,
    }
}

/// The rows of a job in the table of measures, in windows of `every` cycles, from the cycle `from`
/// to `to`.
fn measure_job(alloc: Global, number: u64, job: &Job, from: u32, to: u32, every: u32) -> JobOutcome
    requires { 1 ≤ every }
    ensures { IsOutcomeOf (job_rows job.now.config job.now.program from to number every) result }
{
    let layout = Layout::JobRows { job: number, every };
    let mut text = Text::new(alloc);
    let Job { config, program } = job;
    match measure(alloc, config, program, from, to, layout, &mut text) {
        Ok(()) => JobOutcome::Text(text.into_bytes()),
        Err(_) => JobOutcome::NoMemory,
    }
}
