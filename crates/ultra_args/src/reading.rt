//! What accepted arguments ask for.

ghost use Rattle.std.specs.Prelude.{◌≡◌, map, option_map, IfSome};
ghost use Rattle.clap.specs.Words.{all_of, first_of, found_of, rows_of, subcommand_rows_of};
ghost use Rattle.ultra_args.specs.Asked as spec;
ghost use Rattle.ultra_args.specs.Asked.{asked_of, decimal, given_number, is_set, named, named_in, number_of, schedule_of, program_with_size, program_without_size, IsInRange};

use crate::grammar::commands;
use crate::table::{
    ALL_OR_END, AT_ONCE, ArgumentKind, CAREFUL, CONF, CSV, CommandName, EVERY, FROM, HEAP,
    JOB_WORKERS, JOBS, JOBS_FROM, JOBS_TO, LIST, MEASURES, NAME, NUMBER, ONLY, PROG, PROGRESS,
    SCHEDULE, SEED, STEPS, TO, TableArgument, TableRow, WORKERS,
};
use crate::{
    Coordination, CyclesOutput, HeapBytes, Invocation, JobsAtOnce, LineFilter, ScheduleSource,
    SweepOutput, WindowCycles, Workers,
};
use clap::ArgMatches;

/// What accepted arguments ask for, or `None` where they ask for nothing.
pub fn named_command<'w>(matches: &ArgMatches<'w>) -> Option<Invocation<'w>>
    ensures { option_map asked_of result ≡ named_in (subcommand_rows_of matches.now) }
{
    let (name, words) = matches.subcommand()?;
    invocation_named(name, words)
}

/// What the command of this name is asked for by its arguments.
fn invocation_named<'w>(name: &str, words: &ArgMatches<'w>) -> Option<Invocation<'w>>
    ensures { option_map asked_of result ≡ named name.now (rows_of (found_of words.now)) }
{
    asked_in(command_named(name)?, words)
}

/// The command of this name.
pub fn command_named(name: &str) -> Option<CommandName>
    ensures { result ≡ spec.command_named name.now }
{
    command_among(commands(), name)
}

/// The command of this name in these rows.
#[tactic(auto, unfolding(crate::specs::Asked::command_among))]
fn command_among(rows: &[TableRow], name: &str) -> Option<CommandName>
    ensures { result ≡ spec.command_among (λ t. t.now) rows.now name.now }
{
    let row = rows.iter().find(|row| row.name == name)?;
    Some(row.command)
}

/// What the command is asked for by its arguments.
fn asked_in<'w>(command: CommandName, words: &ArgMatches<'w>) -> Option<Invocation<'w>>
    ensures { option_map asked_of result ≡ spec.asked_in command (rows_of (found_of words.now)) }
{
    match command {
        CommandName::Run => run(words),
        CommandName::Events => of_cycles(CyclesOutput::Events, words),
        CommandName::Steps => of_cycles(CyclesOutput::Steps, words),
        CommandName::Requests => requests(words),
        CommandName::Latencies => of_cycles(CyclesOutput::Latencies, words),
        CommandName::Measure => measure(words),
        CommandName::Queues => of_cycles(CyclesOutput::Queues, words),
        CommandName::Order => order(words),
        CommandName::Explain => explain(words),
        CommandName::Check => check(words),
        CommandName::Para => para(words),
        CommandName::List => list(words),
        CommandName::Sweep => sweep(words),
        CommandName::Lib => lib(words),
    }
}

/// The `run` command that these arguments ask for.
fn run<'w>(words: &ArgMatches<'w>) -> Option<Invocation<'w>>
    ensures { option_map asked_of result
        ≡ spec.asked_in CommandName.Run (rows_of (found_of words.now)) }
{
    let (from, to) = cycles(words)?;
    let (settings, program) = paths(words)?;
    Some(Invocation::Run {
        settings,
        program,
        workers: Workers::new(number(words, &WORKERS)?),
        from,
        to,
        only: line_filter(words)?,
    })
}

/// The command that writes this of some cycles, as these arguments ask for it.
fn of_cycles<'w>(output: CyclesOutput, words: &ArgMatches<'w>) -> Option<Invocation<'w>>
    ensures { option_map asked_of result
        ≡ spec.of_cycles output (rows_of (found_of words.now)) }
{
    let (from, to) = cycles(words)?;
    let (settings, program) = paths(words)?;
    Some(Invocation::Cycles {
        output,
        settings,
        program,
        from,
        to,
    })
}

/// The `requests` command that these arguments ask for.
fn requests<'w>(words: &ArgMatches<'w>) -> Option<Invocation<'w>>
    ensures { option_map asked_of result
        ≡ spec.asked_in CommandName.Requests (rows_of (found_of words.now)) }
{
    let (settings, program) = paths(words)?;
    Some(Invocation::Requests { settings, program })
}

/// The `measure` command that these arguments ask for.
fn measure<'w>(words: &ArgMatches<'w>) -> Option<Invocation<'w>>
    ensures { option_map asked_of result
        ≡ spec.asked_in CommandName.Measure (rows_of (found_of words.now)) }
{
    let (from, to) = cycles(words)?;
    let (settings, program) = paths(words)?;
    Some(Invocation::Measure {
        settings,
        program,
        csv: is_set(words, &CSV),
        every: every(words),
        from,
        to,
    })
}

/// The `order` command that these arguments ask for.
fn order<'w>(words: &ArgMatches<'w>) -> Option<Invocation<'w>>
    ensures { option_map asked_of result
        ≡ spec.asked_in CommandName.Order (rows_of (found_of words.now)) }
{
    let (settings, program) = paths(words)?;
    Some(Invocation::Order { settings, program })
}

/// The `explain` command that these arguments ask for.
fn explain<'w>(words: &ArgMatches<'w>) -> Option<Invocation<'w>>
    ensures { option_map asked_of result
        ≡ spec.asked_in CommandName.Explain (rows_of (found_of words.now)) }
{
    let (settings, program) = paths(words)?;
    Some(Invocation::Explain {
        settings,
        program,
        heap: HeapBytes::new(number(words, &HEAP)?),
    })
}

/// The `check` command that these arguments ask for.
fn check<'w>(words: &ArgMatches<'w>) -> Option<Invocation<'w>>
    ensures { option_map asked_of result
        ≡ spec.asked_in CommandName.Check (rows_of (found_of words.now)) }
{
    let (settings, program) = paths(words)?;
    Some(Invocation::Check {
        settings,
        program,
        list: text(words, &LIST)?,
    })
}

/// The `para` command that these arguments ask for.
fn para<'w>(words: &ArgMatches<'w>) -> Option<Invocation<'w>>
    ensures { option_map asked_of result
        ≡ spec.asked_in CommandName.Para (rows_of (found_of words.now)) }
{
    let (settings, program) = paths(words)?;
    Some(Invocation::Para {
        settings,
        program,
        schedule: schedule(words)?,
        only_end: only_end(words)?,
    })
}

/// The `list` command that these arguments ask for.
fn list<'w>(words: &ArgMatches<'w>) -> Option<Invocation<'w>>
    ensures { option_map asked_of result
        ≡ spec.asked_in CommandName.List (rows_of (found_of words.now)) }
{
    Some(Invocation::List {
        program: program(words)?,
        careful: is_set(words, &CAREFUL),
    })
}

/// The `sweep` command that these arguments ask for.
fn sweep<'w>(words: &ArgMatches<'w>) -> Option<Invocation<'w>>
    ensures { option_map asked_of result
        ≡ spec.asked_in CommandName.Sweep (rows_of (found_of words.now)) }
{
    Some(Invocation::Sweep {
        jobs: text(words, &JOBS)?,
        workers: Workers::new(number(words, &JOB_WORKERS)?),
        at_once: JobsAtOnce::new(number(words, &AT_ONCE)?),
        progress: is_set(words, &PROGRESS),
        output: output(words)?,
    })
}

/// The `lib` command that these arguments ask for.
fn lib<'w>(words: &ArgMatches<'w>) -> Option<Invocation<'w>>
    ensures { option_map asked_of result
        ≡ spec.asked_in CommandName.Lib (rows_of (found_of words.now)) }
{
    let name = text(words, &NAME)?;
    let numbers = texts(words, &NUMBER)?;
    Some(Invocation::Lib(coordination(name, numbers)?))
}

/// The paths of the settings and of the program's text.
fn paths<'w>(words: &ArgMatches<'w>) -> Option<(&'w str, &'w str)>
    ensures { option_map (λ p. (p.0.now, p.1.now)) result
        ≡ spec.paths_in (rows_of (found_of words.now)) }
{
    Some((text(words, &CONF)?, program(words)?))
}

/// The path of the program's text.
fn program<'w>(words: &ArgMatches<'w>) -> Option<&'w str>
    ensures { option_map (λ s. s.now) result
        ≡ first_of PROG.name.now (rows_of (found_of words.now)) }
{
    text(words, &PROG)
}

/// The first and the last of the cycles that are asked for.
fn cycles(words: &ArgMatches<'_>) -> Option<(u32, u32)>
    ensures { result ≡ spec.cycles_in (rows_of (found_of words.now)) }
{
    Some((number(words, &FROM)? as u32, number(words, &TO)? as u32))
}

/// Which lines of the cycles are shown.
fn line_filter(words: &ArgMatches<'_>) -> Option<LineFilter>
    ensures { result ≡ spec.line_filter (rows_of (found_of words.now)) }
{
    let word = text(words, &ONLY)?;
    if word == "all" {
        Some(LineFilter::All)
    } else if word == "events" {
        Some(LineFilter::Events)
    } else if word == "end" {
        Some(LineFilter::End)
    } else {
        None
    }
}

/// Whether only the end is shown.
fn only_end(words: &ArgMatches<'_>) -> Option<bool>
    ensures { result ≡ spec.only_end (rows_of (found_of words.now)) }
{
    let word = text(words, &ALL_OR_END)?;
    if word == "all" {
        Some(false)
    } else if word == "end" {
        Some(true)
    } else {
        None
    }
}

/// Where the steps come from: a file or a seed, and not both.
fn schedule<'w>(words: &ArgMatches<'w>) -> Option<ScheduleSource<'w>>
    ensures { option_map schedule_of result ≡ spec.schedule_in (rows_of (found_of words.now)) }
{
    match (text(words, &SCHEDULE), number(words, &SEED), steps(words)) {
        (Some(path), None, None) => Some(ScheduleSource::File(path)),
        (None, Some(seed), steps) => Some(ScheduleSource::Seed { seed, steps }),
        _ => None,
    }
}

/// The most steps, if a number is given.
fn steps(words: &ArgMatches<'_>) -> Option<u32>
    ensures { result ≡ number_of STEPS.name.now STEPS.kind (rows_of (found_of words.now)) }
{
    Some(number(words, &STEPS)? as u32)
}

/// The length of a window, if a number is given.
fn every(words: &ArgMatches<'_>) -> Option<WindowCycles>
    ensures { result ≡ number_of EVERY.name.now EVERY.kind (rows_of (found_of words.now)) }
{
    Some(WindowCycles::new(number(words, &EVERY)?))
}

/// What a sweep writes. Windows and their cycles belong to measures.
fn output(words: &ArgMatches<'_>) -> Option<SweepOutput>
    ensures { result ≡ spec.output_in (rows_of (found_of words.now)) }
{
    if is_set(words, &MEASURES) {
        Some(SweepOutput::Measures {
            every: every(words),
            from: jobs_from(words).unwrap_or(0),
            to: jobs_to(words).unwrap_or(1_000_000),
        })
    } else if is_for_measures(words) {
        None
    } else {
        Some(SweepOutput::Report)
    }
}

/// Whether windows of a sweep, or the first or the last of their cycles, are asked for.
fn is_for_measures(words: &ArgMatches<'_>) -> bool
    ensures { result ≡ spec.is_for_measures (rows_of (found_of words.now)) }
{
    every(words).is_some() || jobs_from(words).is_some() || jobs_to(words).is_some()
}

/// The first cycle of each job that is measured, if a number is given.
fn jobs_from(words: &ArgMatches<'_>) -> Option<u32>
    ensures { result ≡ number_of JOBS_FROM.name.now JOBS_FROM.kind (rows_of (found_of words.now)) }
{
    Some(number(words, &JOBS_FROM)? as u32)
}

/// The last cycle of each job that is measured, if a number is given.
fn jobs_to(words: &ArgMatches<'_>) -> Option<u32>
    ensures { result ≡ number_of JOBS_TO.name.now JOBS_TO.kind (rows_of (found_of words.now)) }
{
    Some(number(words, &JOBS_TO)? as u32)
}

/// The coordination program of this name and these numbers.
fn coordination(name: &str, numbers: &[&str]) -> Option<Coordination>
    ensures { result ≡ spec.coordination name.now (map (λ s. s.now) numbers.now) }
{
    match numbers {
        [rounds] => program_without_size(name, decimal(rounds)?),
        [size, rounds] => program_with_size(name, decimal(size)?, decimal(rounds)?),
        _ => None,
    }
}

/// The coordination program of this name that has a size besides its number of rounds.
fn program_with_size(name: &str, size: u32, rounds: u32) -> Option<Coordination>
    ensures { result ≡ program_with_size name.now size rounds }
{
    if name == "gate" {
        let bound = size;
        Some(Coordination::Gate { bound, rounds })
    } else if name == "queue" {
        let log_size = size;
        Some(Coordination::Queue { log_size, rounds })
    } else if name == "rw" {
        let writers = size;
        Some(Coordination::ReadersWriters { writers, rounds })
    } else {
        None
    }
}

/// The coordination program of this name that has a number of rounds alone.
fn program_without_size(name: &str, rounds: u32) -> Option<Coordination>
    ensures { result ≡ program_without_size name.now rounds }
{
    if name == "barrier" {
        Some(Coordination::Barrier { rounds })
    } else if name == "tickets" {
        Some(Coordination::Tickets { rounds })
    } else {
        None
    }
}

/// The first text of an argument.
fn text<'w>(words: &ArgMatches<'w>, argument: &TableArgument) -> Option<&'w str>
    ensures { option_map (λ s. s.now) result
        ≡ first_of argument.now.name.now (rows_of (found_of words.now)) }
{
    words.get_str(argument.name)
}

/// The texts of an argument.
fn texts<'m, 'w>(words: &'m ArgMatches<'w>, argument: &TableArgument) -> Option<&'m [&'w str]>
    ensures { option_map (λ s. map (λ t. t.now) s.now) result
        ≡ all_of argument.now.name.now (rows_of (found_of words.now)) }
{
    words.get_raw(argument.name)
}

/// Whether a flag is given.
fn is_set(words: &ArgMatches<'_>, flag: &TableArgument) -> bool
    ensures { result ≡ is_set flag.now.name.now (rows_of (found_of words.now)) }
{
    match text(words, flag) {
        Some(text) => text == "true",
        None => false,
    }
}

/// The number of an option, if one is given in its range.
fn number(words: &ArgMatches<'_>, option: &TableArgument) -> Option<u64>
    ensures value { result
        ≡ number_of option.now.name.now option.now.kind (rows_of (found_of words.now)) }
    ensures in_range { IfSome result (IsInRange option.now.kind) }
{
    let number = given_number(words, option.name)?;
    match option.kind {
        ArgumentKind::Number(_, least, most) if least <= number && number <= most => Some(number),
        _ => None,
    }
}

/// The number of an option of this name.
fn given_number(words: &ArgMatches<'_>, name: &str) -> Option<u64>
    ensures { result ≡ given_number name.now (rows_of (found_of words.now)) }
{
    words.get_one(name)
}

/// The number that a text of decimal digits alone writes, if it is below `2^32`.
fn decimal(text: &str) -> Option<u32>
    ensures { result ≡ decimal text.now }
{
    if text.starts_with('+') {
        return None;
    }
    match text.parse() {
        Ok(number) => Some(number),
        Err(_) => None,
    }
}
