//! The program `ultra`: it runs programs on a simulated machine.
#![tactic(auto)]

ghost use Rattle.std.specs.Prelude.{◌≡◌, ◌≢◌, ◌+◌, IfOk, OnErr};
ghost use Rattle.ultra_command_line.specs.declared.Parsed.{Parsed};
ghost use Rattle.ultra_inputs.specs.{Traffic.traffic, Shown.stream, Status.{status_failures, IsRefusal, IsStatus}};
ghost use Rattle.ultra_commands.specs.Outcome.{Obeyed, Failed};

use std::env::Env;
use std::process::ExitCode;
use std::sync::Wait;
use std::thread::Threads;
use std::{env, io};
use ultra_commands::main_with;
use ultra_inputs::{failure_of_arguments, report_failure};
use ultra_io::{FileSource, Source, Stream};
use ultra_msg::Sink;

/// Calls `main_with` with the arguments of the program, and with these files and streams. An error
/// says that the arguments couldn't be read; nothing is read or written then.
fn start<R: AllocGlobal + Env + Threads + Wait + Sync, F: Source, O: Sink, E: Sink>(
    rt: &R,
    source: &mut F,
    out: &mut O,
    err: &mut E,
) -> io::Result<u8>
    ensures status { IfOk result (λ s. IsStatus s) }
    ensures nothing { IfOk result (λ s. IsRefusal s → O.taken out.new ≡ O.taken out.old) }
    ensures counted { IfOk result
        (λ s. O.failures out.new ≡ O.failures out.old + status_failures s) }
    ensures read_still { IfOk result (λ s. s ≢ 3 →
        F.failures source.new ≡ F.failures source.old) }
    ensures done { IfOk result (λ s. s ≡ 0 →
        (p : Parsed) × Obeyed p (traffic (F.files source.old) (O.taken out.old))
        (traffic (F.files source.new) (O.taken out.new))
        (stream (E.taken err.old) (E.failures err.old))
        (stream (E.taken err.new) (E.failures err.new))) }
    ensures failed { IfOk result (λ s. s ≢ 0 →
        (p : Parsed) × Failed p (traffic (F.files source.old) (O.taken out.old))
        (traffic (F.files source.new) (O.taken out.new))
        (stream (E.taken err.old) (E.failures err.old))
        (stream (E.taken err.new) (E.failures err.new)) (F.failures source.old)
        (F.failures source.new) s) }
    ensures unread_arguments { OnErr result (O.taken out.new ≡ O.taken out.old) }
    ensures no_word_of_it { OnErr result (E.taken err.new ≡ E.taken err.old) }
    ensures no_file { OnErr result (F.files source.new ≡ F.files source.old) }
    ensures no_unread_file { OnErr result (F.failures source.new ≡ F.failures source.old) }
{
    let args: Vec<String> = env::args(rt)?.collect(rt.alloc())?;
    let words: Vec<&str> = args.iter().map(|word| word.as_str()).collect(rt.alloc())?;
    Ok(main_with(rt, words.as_slice(), source, out, err))
}

fn main(rt: HostRuntime) -> ExitCode {
    let mut source = FileSource::new(&rt);
    let mut out = Stream::new(rt.stdout());
    let mut err = Stream::new(rt.stderr());
    let status = match start(&rt, &mut source, &mut out, &mut err) {
        Ok(status) => status,
        Err(error) => report_failure(&failure_of_arguments(&error), &mut err),
    };
    ExitCode::from(status)
}
