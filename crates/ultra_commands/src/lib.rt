//! The program `ultra` as a library: what it does with its arguments, its files and its streams.
#![tactic(auto)]

mod checking;
mod coordination;
mod listing;
mod para;
mod run_output;
mod run_texts;
mod serial_order;
mod third_file;
mod trace;

ghost use Rattle.std.specs.Prelude.{◌≡◌, ◌≢◌, ◌+◌, map};
ghost use Rattle.ultra_command_line.specs.{Answer.IsAskedBy, declared.Parsed.Parsed};
ghost use Rattle.ultra_inputs.specs.{Shown.stream, Traffic.traffic, Status.{status_failures, IsRefusal, IsStatus}};
ghost use Rattle.ultra_commands.specs.Outcome.{Obeyed, Failed, HasEnded, HasReported};

use crate::checking::check;
use crate::coordination::write_program;
use crate::listing::list;
use crate::para::para;
use crate::run_output::write_run_output;
use crate::run_texts::{CyclesText, Measures, Requests};
use crate::serial_order::SerialOrder;
use crate::trace::{part_asked, run};
use std::sync::Wait;
use std::thread::Threads;
use ultra_args::Invocation;
use ultra_command_line::{Parsed, parse};
use ultra_explain_command::explain;
use ultra_inputs::{Failure, report_failure};
use ultra_io::Source;
use ultra_msg::{Sink, write_all};
use ultra_sweep_command::{SweepPlan, sweep};

/// Does what the arguments in `words` ask for, and returns the exit status. 0 is done; 1 is a list
/// that isn't a serial order or a program that isn't careful. 2 is a usage fault, 3 refused input,
/// 4 no memory, no thread or a full heap, and 5 a failed write.
///
/// The first of `words` is the program's name. Results, help and the version go to `out`; what is
/// wrong goes to `err`. With 2 and 3 nothing goes to `out`, with 4 and 5 a prefix of the results.
/// Files are read from `source`. `clap` lays out the texts of help, of the version and of usage
/// faults, and tests show them. A sweep and a run by several workers start threads, and the call
/// may wait for them.
pub fn main_with<'w, R: AllocGlobal + Threads + Wait + Sync, F: Source, O: Sink, E: Sink>(
    rt: &R,
    words: &'w [&'w str],
    source: &mut F,
    out: &mut O,
    err: &mut E,
) -> u8
    ensures status { IsStatus result }
    ensures nothing { IsRefusal result → O.taken out.new ≡ O.taken out.old }
    ensures counted { O.failures out.new ≡ O.failures out.old + status_failures result }
    ensures read_still { result ≢ 3 → F.failures source.new ≡ F.failures source.old }
    ensures done { result ≡ 0 → (p : Parsed) × IsAskedBy (map (λ w. w.now) words.entry.now) p ×
        Obeyed p (traffic (F.files source.old) (O.taken out.old))
        (traffic (F.files source.new) (O.taken out.new))
        (stream (E.taken err.old) (E.failures err.old))
        (stream (E.taken err.new) (E.failures err.new)) }
    ensures failed { result ≢ 0 → (p : Parsed) × IsAskedBy (map (λ w. w.now) words.entry.now) p ×
        Failed p (traffic (F.files source.old) (O.taken out.old))
        (traffic (F.files source.new) (O.taken out.new))
        (stream (E.taken err.old) (E.failures err.old))
        (stream (E.taken err.new) (E.failures err.new)) (F.failures source.old)
        (F.failures source.new) result }
{
    obey(rt, parse(rt.alloc(), words), source, out, err)
}

/// Does what is asked for, and answers the status.
fn obey<'w, R: AllocGlobal + Threads + Wait + Sync, F: Source, O: Sink, E: Sink>(
    rt: &R,
    parsed: Parsed<'w>,
    source: &mut F,
    out: &mut O,
    err: &mut E,
) -> u8
    ensures { HasEnded parsed.entry (traffic (F.files source.old) (O.taken out.old))
        (traffic (F.files source.new) (O.taken out.new))
        (stream (E.taken err.old) (E.failures err.old))
        (stream (E.taken err.new) (E.failures err.new)) (F.failures source.old)
        (F.failures source.new) (O.failures out.old) (O.failures out.new) result }
{
    match parsed {
        Parsed::Invocation(command) => carry_out(rt, &command, source, out, err),
        Parsed::Help(text) | Parsed::Version(text) => match write_all(out, text.as_bytes()) {
            Ok(()) => 0,
            Err(_) => report_failure(&Failure::NotWritten, err),
        },
        Parsed::Usage(text) => report_failure(&Failure::Usage(text), err),
        Parsed::NoMemory => report_failure(&Failure::NoMemory, err),
    }
}

/// Carries out a command, and answers the status.
fn carry_out<'w, R: AllocGlobal + Threads + Wait + Sync, F: Source, O: Sink, E: Sink>(
    rt: &R,
    command: &Invocation<'w>,
    source: &mut F,
    out: &mut O,
    err: &mut E,
) -> u8
    ensures { HasEnded (Parsed.Invocation command.now)
        (traffic (F.files source.old) (O.taken out.old))
        (traffic (F.files source.new) (O.taken out.new))
        (stream (E.taken err.old) (E.failures err.old))
        (stream (E.taken err.new) (E.failures err.new)) (F.failures source.old)
        (F.failures source.new) (O.failures out.old) (O.failures out.new) result }
{
    let alloc = rt.alloc();
    match *command {
        Invocation::Run {
            settings,
            program,
            workers,
            from,
            to,
            only,
        } => {
            let part = part_asked(from, to, only);
            let done = run(rt, alloc, settings, program, part, workers, source, out);
            report_outcome(done, err)
        }
        Invocation::Cycles {
            output,
            settings,
            program,
            from,
            to,
        } => {
            let text = CyclesText { output, from, to };
            let done = write_run_output(alloc, settings, program, &text, source, out);
            report_outcome(done, err)
        }
        Invocation::Requests { settings, program } => {
            let done = write_run_output(alloc, settings, program, &Requests, source, out);
            report_outcome(done, err)
        }
        Invocation::Measure {
            settings,
            program,
            csv,
            every,
            from,
            to,
        } => {
            let measures = Measures {
                csv,
                every,
                from,
                to,
            };
            let done = write_run_output(alloc, settings, program, &measures, source, out);
            report_outcome(done, err)
        }
        Invocation::Order { settings, program } => {
            let done = write_run_output(alloc, settings, program, &SerialOrder, source, out);
            report_outcome(done, err)
        }
        Invocation::Explain {
            settings,
            program,
            heap,
        } => {
            let done = explain(alloc, settings, program, heap, source, out);
            report_outcome(done, err)
        }
        Invocation::Check {
            settings,
            program,
            list,
        } => {
            let done = check(alloc, settings, program, list, source, out);
            report_outcome(done, err)
        }
        Invocation::Para {
            settings,
            program,
            schedule,
            only_end,
        } => {
            let done = para(alloc, settings, program, schedule, only_end, source, out);
            report_outcome(done, err)
        }
        Invocation::List { program, careful } => {
            report_outcome(list(alloc, program, careful, source, out), err)
        }
        Invocation::Sweep {
            jobs,
            workers,
            at_once,
            progress,
            output,
        } => {
            let plan = SweepPlan {
                workers,
                at_once,
                progress,
                output,
            };
            sweep(rt, alloc, jobs, plan, source, out, err)
        }
        Invocation::Lib(coordination) => {
            report_outcome(write_program(alloc, coordination, out), err)
        }
    }
}

/// The status of a command that is done or has failed. A failure is reported on `err`.
fn report_outcome<'p, E: Sink>(done: Result<(), Failure<'p>>, err: &mut E) -> u8
    ensures { HasReported done.entry (stream (E.taken err.old) (E.failures err.old))
        (stream (E.taken err.new) (E.failures err.new)) result }
{
    match done {
        Ok(()) => 0,
        Err(failure) => report_failure(&failure, err),
    }
}
