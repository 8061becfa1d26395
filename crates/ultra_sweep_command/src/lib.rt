//! The command `sweep`: it writes the traces, or the measures, of many runs in order.
#![tactic(auto)]

ghost use Rattle.std.specs.Prelude.{◌≡◌, ◌≢◌, ◌+◌, List, IfErr, OnOk};
ghost use Rattle.ultra_msg.specs.Bytes.{WritesOrFails};
ghost use Rattle.ultra_sweep.specs.{declared.job.Job.Job as JobOf, Job.texts_of};
ghost use Rattle.ultra_sweep_command.specs.{Output.{job_output, swept_text}, Sweep.{Swept, HasFailed, SweptJobs, JobsFail}};
ghost use Rattle.ultra_inputs.specs.{declared.failure.Failure.Failure, Failure.{status_of, read_failures, write_failures}, Traffic.traffic, Shown.stream};
ghost use Rattle.ultra_settings.specs.JobsText.{all_paths};

mod fault;
mod gate;
mod listing;
mod meter;
mod running;
mod seat_results;
mod signal;
mod sweep_threads;
mod task;
mod text;

pub use gate::{OutputGate, RunAlone};
use listing::{list_jobs, read_jobs};
use running::run_jobs;
use std::alloc::Global;
use std::sync::Wait;
use std::thread::Threads;
use ultra_args::{JobsAtOnce, SweepOutput, Workers};
use ultra_inputs::{Failure, report_failure};
use ultra_io::Source;
use ultra_measure::measure_names;
use ultra_msg::{Sink, SinkFault};
use ultra_sweep::{Gathered, report, write_job_table};

/// How the jobs of a sweep are done, and what is written. That doesn't depend on how they are done.
#[derive(Clone, Copy, Drop)]
pub struct SweepPlan {
    /// How many threads of the host do the jobs, 1 to 64. The caller's is one of them, unless it
    /// watches the others for `progress`; then at most 63 do.
    pub workers: Workers,
    /// How many jobs may run at once, 1 to 64.
    pub at_once: JobsAtOnce,
    /// What is written: the report, or the measures of all jobs.
    pub output: SweepOutput,
    /// Whether standard error shows how many jobs are finished.
    pub progress: bool,
}

/// Reads a file of jobs, and for each job its settings and its program, runs all jobs by threads of
/// the host, and writes the output to `out`. It answers the status that the program ends with, and
/// reports a failure on `err`.
///
/// Each file is accepted before the next is read, and all before a byte is written. The bytes
/// depend on neither number of the plan. With `progress`, `err` takes lines `ultra: K of N jobs` as
/// jobs are finished, the last one with all of them; after a failed write to `err` no further line
/// is written. A sweep by one worker without progress starts no thread. The call may wait. On every
/// return path the threads that were started are joined.
pub fn sweep<R: Threads + Wait + Sync, F: Source, O: Sink, E: Sink>(
    rt: &R,
    alloc: Global,
    jobs_path: &str,
    plan: SweepPlan,
    source: &mut F,
    out: &mut O,
    err: &mut E,
) -> u8
    ensures done { result ≡ 0 → Swept jobs_path.now plan.output plan.progress
        (traffic (F.files source.old) (O.taken out.old))
        (traffic (F.files source.new) (O.taken out.new))
        (stream (E.taken err.old) (E.failures err.old))
        (stream (E.taken err.new) (E.failures err.new)) }
    ensures failed { result ≢ 0 → HasFailed jobs_path.now plan.workers plan.output
        plan.progress
        (traffic (F.files source.old) (O.taken out.old))
        (traffic (F.files source.new) (O.taken out.new))
        (stream (E.taken err.old) (E.failures err.old))
        (stream (E.taken err.new) (E.failures err.new))
        (F.failures source.old) (F.failures source.new) result }
    ensures read_still { result ≡ 0 → F.failures source.new ≡ F.failures source.old }
    ensures still { result ≡ 0 → O.failures out.new ≡ O.failures out.old }
    ensures counted { result ≢ 0 → (f : Failure) × (status_of f ≡ result)
        × (O.failures out.new ≡ O.failures out.old + write_failures f) }
{
    let list = match list_jobs(alloc, jobs_path, source) {
        Ok(list) => list,
        Err(failure) => return report_failure(&failure, err),
    };
    match sweep_jobs(rt, alloc, list.as_slice(), &plan, source, out, err) {
        Ok(()) => 0,
        Err(failure) => report_failure(&failure, err),
    }
}

/// Reads the settings and the program of each job, runs all jobs and writes the output.
fn sweep_jobs<'l, R: Threads + Wait + Sync, F: Source, O: Sink, E: Sink>(
    rt: &R,
    alloc: Global,
    list: &'l [(String, String)],
    plan: &SweepPlan,
    source: &mut F,
    out: &mut O,
    err: &mut E,
) -> Result<(), Failure<'l>>
    ensures ok { OnOk result (SweptJobs (all_paths list.now) plan.now.output plan.now.progress
        (traffic (F.files source.old) (O.taken out.old))
        (traffic (F.files source.new) (O.taken out.new))
        (stream (E.taken err.old) (E.failures err.old))
        (stream (E.taken err.new) (E.failures err.new))) }
    ensures err { IfErr result (JobsFail (all_paths list.now) plan.now.workers plan.now.output
        plan.now.progress
        (traffic (F.files source.old) (O.taken out.old))
        (traffic (F.files source.new) (O.taken out.new))
        (stream (E.taken err.old) (E.failures err.old))
        (stream (E.taken err.new) (E.failures err.new))) }
    ensures read_still { OnOk result (F.failures source.new ≡ F.failures source.old) }
    ensures read_counted { IfErr result
        (λ f. F.failures source.new ≡ F.failures source.old + read_failures f) }
    ensures write_still { OnOk result (O.failures out.new ≡ O.failures out.old) }
    ensures write_counted { IfErr result
        (λ f. O.failures out.new ≡ O.failures out.old + write_failures f) }
{
    let jobs = read_jobs(alloc, list, source)?;
    match run_jobs(rt, alloc, jobs.as_slice(), plan, err) {
        Ok(gathered) => match write_output(&plan.output, &gathered, out) {
            Ok(()) => Ok(()),
            Err(_) => Err(Failure::NotWritten),
        },
        Err(fault) => Err(fault.failure()),
    }
}

/// Writes what all jobs gave: the report of their traces, or the table of their measures.
fn write_output<O: Sink>(
    output: &SweepOutput,
    gathered: &Gathered,
    out: &mut O,
) -> Result<(), SinkFault>
    ensures { (jobs : List JobOf) → gathered.now ≡ texts_of (job_output output.now) jobs →
        WritesOrFails result (swept_text output.now jobs) (O.taken out.old) (O.taken out.new)
        (O.failures out.old) (O.failures out.new) }
{
    match *output {
        SweepOutput::Report => report(gathered, out),
        SweepOutput::Measures { .. } => write_job_table(gathered, measure_names(), out),
    }
}
