//! The command `run`: it writes the trace of a program, or a part of it.

ghost use Rattle.std.specs.Prelude.{◌≡◌, ◌+◌, IfErr, OnOk};
ghost use Rattle.ultra_inputs.specs.{Failure.{read_failures, write_failures}, Traffic.traffic};
ghost use Rattle.ultra_commands.specs.{Outputs.{lines_asked, part_asked}, Stops.{failure_of_run, RunFails, WroteRun}};

use std::alloc::Global;
use std::sync::Wait;
use std::thread::Threads;
use ultra_args::{LineFilter, Workers};
use ultra_inputs::{Failure, Inputs, read_inputs};
use ultra_io::Source;
use ultra_msg::Sink;
use ultra_trace::{CycleLines, Gate, Half, RunFault, TracePart, run_part};

/// Which part of a trace is asked for.
pub(crate) fn part_asked(from: u32, to: u32, only: LineFilter) -> TracePart
    ensures { result ≡ part_asked from to only }
{
    let lines = lines_asked(only);
    TracePart { from, to, lines }
}

/// Which lines of a cycle are asked for.
fn lines_asked(only: LineFilter) -> CycleLines
    ensures { result ≡ lines_asked only }
{
    match only {
        LineFilter::All => CycleLines::All,
        LineFilter::Events => CycleLines::Events,
        LineFilter::End => CycleLines::None,
    }
}

/// Reads settings and a program, runs the program by `workers` threads and writes a part of its
/// trace to `out`: the same bytes for every number of workers. Each file is accepted before the
/// next is read, and both before a byte is written. The call may wait.
///
/// An error says what failed. `out` has then taken a prefix of the part, and nothing where a file
/// was refused.
pub(crate) fn run<'p, R: Threads + Wait + Sync, F: Source, O: Sink>(
    rt: &R,
    alloc: Global,
    settings_path: &'p str,
    program_path: &'p str,
    part: TracePart,
    workers: Workers,
    source: &mut F,
    out: &mut O,
) -> Result<(), Failure<'p>>
    ensures ok { OnOk result (WroteRun part settings_path.now program_path.now
        (traffic (F.files source.old) (O.taken out.old))
        (traffic (F.files source.new) (O.taken out.new))) }
    ensures err { IfErr result (RunFails part workers settings_path.now program_path.now
        (traffic (F.files source.old) (O.taken out.old))
        (traffic (F.files source.new) (O.taken out.new))) }
    ensures read_still { OnOk result (F.failures source.new ≡ F.failures source.old) }
    ensures read_counted { IfErr result
        (λ f. F.failures source.new ≡ F.failures source.old + read_failures f) }
    ensures write_still { OnOk result (O.failures out.new ≡ O.failures out.old) }
    ensures write_counted { IfErr result
        (λ f. O.failures out.new ≡ O.failures out.old + write_failures f) }
{
    let Inputs { config, program } = read_inputs(alloc, settings_path, program_path, source)?;
    // for the prover: a run has at most `MOST_CYCLES` cycles
    let _cycles = config.cycles();
    let count = workers.count() as usize;
    match run_part(rt, alloc, &config, &program, part, count, &OpenGate, out) {
        Ok(()) => Ok(()),
        Err(fault) => Err(failure_of_run(fault)),
    }
}

/// The command's failure for a fault of the run.
pub(crate) fn failure_of_run<'p>(fault: RunFault) -> Failure<'p>
    ensures { result ≡ failure_of_run fault }
{
    match fault {
        RunFault::Write => Failure::NotWritten,
        RunFault::NoMemory => Failure::NoMemory,
        RunFault::NoThread => Failure::NoThread,
    }
}

/// A gate that is always open: no worker waits for another before it makes a half of a block.
struct OpenGate;

impl Gate for OpenGate {
    fn before<R: Wait>(&self, _rt: &R, _cycle: u32, _half: Half, _block: usize) {}
}
