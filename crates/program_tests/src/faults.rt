//! Each write and each read fails in turn.

use crate::calls::{ADDS_ONE, Ended, call_over, call_within, unless_refused};
use crate::equal::{check_equal, check_equal_for};
use crate::host::Host;
use crate::memory_files::MemoryFiles;
use std::process::Abort;
use std::test::Fail;
use test_sinks::SinkLimits;
use ultra_io::SourceFault;

/// Two jobs, of two files each.
const JOBS: &[u8] = b"\
[[job]]
conf = \"c.toml\"
prog = \"p.s\"
[[job]]
conf = \"d.toml\"
prog = \"q.s\"
";

/// The files that the commands read. `legal` is a serial order of the run of `c.toml` and `p.s`,
/// and `illegal` lacks an entry of it.
static FILES: [(&str, &[u8]); 9] = [
    ("c.toml", b"stages = 1"),
    ("p.s", ADDS_ONE),
    ("jobs.toml", JOBS),
    ("d.toml", b"stages = 1\ncycles = 2"),
    ("q.s", b"halt\n"),
    ("legal", b"1.0 faa 0 1 = 0\n0.0 faa 0 1 = 1\n"),
    ("illegal", b"1.0 faa 0 1 = 0\n"),
    ("schedule", b"0 0 0 1 1 1"),
    ("careful.s", b"ld r1 r0\nfence\n"),
];

/// The words of each command, with the paths that it reads, in their order, and its status.
static COMMANDS: [(&[&str], &[&str], u8); 21] = [
    (&["ultra", "run", "c.toml", "p.s"], &["c.toml", "p.s"], 0),
    (
        &["ultra", "run", "c.toml", "p.s", "--workers", "3"],
        &["c.toml", "p.s"],
        0,
    ),
    (
        &[
            "ultra", "run", "c.toml", "p.s", "--from", "3", "--to", "5", "--only", "events",
        ],
        &["c.toml", "p.s"],
        0,
    ),
    (&["ultra", "events", "c.toml", "p.s"], &["c.toml", "p.s"], 0),
    (&["ultra", "steps", "c.toml", "p.s"], &["c.toml", "p.s"], 0),
    (
        &["ultra", "latencies", "c.toml", "p.s"],
        &["c.toml", "p.s"],
        0,
    ),
    (&["ultra", "queues", "c.toml", "p.s"], &["c.toml", "p.s"], 0),
    (
        &["ultra", "requests", "c.toml", "p.s"],
        &["c.toml", "p.s"],
        0,
    ),
    (
        &["ultra", "measure", "c.toml", "p.s"],
        &["c.toml", "p.s"],
        0,
    ),
    (
        &[
            "ultra", "measure", "c.toml", "p.s", "--from", "3", "--to", "5",
        ],
        &["c.toml", "p.s"],
        0,
    ),
    (&["ultra", "order", "c.toml", "p.s"], &["c.toml", "p.s"], 0),
    (
        &["ultra", "explain", "c.toml", "p.s"],
        &["c.toml", "p.s"],
        0,
    ),
    (
        &["ultra", "check", "c.toml", "p.s", "legal"],
        &["c.toml", "p.s", "legal"],
        0,
    ),
    (
        &["ultra", "check", "c.toml", "p.s", "illegal"],
        &["c.toml", "p.s", "illegal"],
        1,
    ),
    (
        &["ultra", "para", "c.toml", "p.s", "schedule"],
        &["c.toml", "p.s", "schedule"],
        0,
    ),
    (
        &[
            "ultra", "para", "c.toml", "p.s", "--seed", "1", "--only", "end",
        ],
        &["c.toml", "p.s"],
        0,
    ),
    (&["ultra", "list", "p.s"], &["p.s"], 0),
    (
        &["ultra", "list", "--careful", "careful.s"],
        &["careful.s"],
        0,
    ),
    (&SWEEP, &SWEEP_PATHS, 0),
    (&["ultra", "lib", "gate", "2", "10"], &[], 0),
    (&["ultra", "lib", "tickets", "3"], &[], 0),
];

const SWEEP: [&str; 7] = [
    "ultra",
    "sweep",
    "jobs.toml",
    "--workers",
    "2",
    "--at-once",
    "2",
];

/// The paths that a sweep of the jobs reads, in their order.
const SWEEP_PATHS: [&str; 5] = ["jobs.toml", "c.toml", "p.s", "d.toml", "q.s"];

/// A sweep that writes measures. Its table is too long for each byte of it to fail in turn.
static MEASURED_SWEEP: [&str; 6] = [
    "ultra",
    "sweep",
    "jobs.toml",
    "--measure",
    "--workers=2",
    "--at-once=2",
];

/// Calls the program over the files, with streams of these limits. Where memory or a thread was
/// refused, that is the error here.
fn call<R: Host>(rt: &R, words: &[&str], out: SinkLimits, err: SinkLimits) -> Result<Ended, Fail> {
    let ended = call_within(rt, words, &FILES, out, err)?;
    if ended.status == 4 {
        return Err("no memory".into());
    }
    Ok(ended)
}

/// What the words write to standard output, where they have this status.
fn text_of<R: Host>(rt: &R, words: &[&str], wanted: u8) -> Result<String, Fail> {
    let Ended { status, out, err } = call(rt, words, SinkLimits::none(), SinkLimits::none())?;
    check_equal_for(rt, status, wanted, format_args!("{words:?}"));
    assert!(rt; err.is_empty());
    Ok(out)
}

/// What the words write to standard error, where they aren't done and have this status.
fn fault_of<R: Host>(rt: &R, words: &[&str], wanted: u8) -> Result<String, Fail> {
    let Ended { status, out, err } = call(rt, words, SinkLimits::none(), SinkLimits::none())?;
    check_equal_for(rt, status, wanted, format_args!("{words:?}"));
    assert!(rt; out.is_empty());
    Ok(err)
}

/// Asserts that the write after the first `count` writes of a text may be the one that fails: the
/// bytes before it were written, and nothing is written after it.
fn check_write<R: Host>(rt: &R, words: &[&str], text: &str, count: usize) -> Result<(), Fail> {
    let ended = call(
        rt,
        words,
        SinkLimits::failing_once_after(count),
        SinkLimits::none(),
    )?;
    ended.check_cut(rt, text);
    check_equal_for(rt, ended.out.len(), count, format_args!("{words:?}"));
    Ok(())
}

/// Asserts this status, and that words write this whole text, a byte at a time, where no write
/// fails.
fn check_whole<R: Host>(rt: &R, words: &[&str], wanted: (u8, &str)) -> Result<(), Fail> {
    let out = SinkLimits::failing_once_after(wanted.1.len());
    call(rt, words, out, SinkLimits::none())?.check(rt, (wanted.0, wanted.1, ""));
    Ok(())
}

/// Asserts that each write of a text may be the one that fails, and that the status is this one
/// where none does.
fn check_writes<R: Host>(rt: &R, words: &[&str], wanted: u8) -> Result<(), Fail> {
    let text = text_of(rt, words, wanted)?;
    for count in 0..text.len() {
        check_write(rt, words, text.as_str(), count)?;
    }
    check_whole(rt, words, (wanted, text.as_str()))
}

#[test]
fn each_write_fails_in_turn(rt: HostRuntime) -> Result<(), Fail> {
    for (words, _, status) in &COMMANDS {
        check_writes(&rt, words, *status)?;
    }
    Ok(())
}

#[test]
fn each_write_of_a_help_text_fails_in_turn(rt: HostRuntime) -> Result<(), Fail> {
    check_writes(&rt, &["ultra", "--help"], 0)?;
    check_writes(&rt, &["ultra", "sweep", "--help"], 0)?;
    check_writes(&rt, &["ultra", "--version"], 0)
}

/// Standard output takes at most 100 bytes a write, and fails before the whole table is written.
#[test]
fn a_prefix_of_the_measures_of_a_sweep_is_written(rt: HostRuntime) -> Result<(), Fail> {
    let table = text_of(&rt, &MEASURED_SWEEP, 0)?;
    assert!(rt; table.len() > 1200);
    for sound_writes in 0..13 {
        let out = SinkLimits::taking_at_most(100).failing_after(sound_writes);
        let ended = call(&rt, &MEASURED_SWEEP, out, SinkLimits::none())?;
        ended.check_cut(&rt, table.as_str());
    }
    Ok(())
}

/// Asserts that the write to standard error after the first `count` writes may be the one that
/// fails. The status is the same then. Nothing is written after it, nor to standard output.
fn check_fault<R: Host>(
    rt: &R,
    words: &[&str],
    wanted: u8,
    (text, count): (&str, usize),
) -> Result<(), Fail> {
    let ended = call(
        rt,
        words,
        SinkLimits::none(),
        SinkLimits::failing_once_after(count),
    )?;
    let (cut, _) = text.split_at_checked(count).expect(rt, "no text");
    ended.check(rt, (wanted, "", cut));
    Ok(())
}

/// Words that aren't done, with their status.
static FAULTS: [(&[&str], u8); 3] = [
    (&["ultra", "run", "c.toml"], 2),
    (&["ultra", "run", "p.s", "c.toml"], 3),
    (&["ultra", "order", "c.toml", "no-such-file"], 3),
];

/// Standard error that fails changes no status, and gets nothing more.
#[test]
fn each_write_to_standard_error_fails_in_turn(rt: HostRuntime) -> Result<(), Fail> {
    for (words, status) in &FAULTS {
        let text = fault_of(&rt, words, *status)?;
        for count in 0..text.len() {
            check_fault(&rt, words, *status, (text.as_str(), count))?;
        }
    }
    Ok(())
}

/// Asserts that the status is that of standard output, where both streams fail at their first
/// write.
fn check_both_fail<R: Host>(rt: &R, words: &[&str]) -> Result<(), Fail> {
    let failing = SinkLimits::failing_once_after(0);
    call(rt, words, failing, failing)?.check(rt, (5, "", ""));
    Ok(())
}

/// A sweep that shows its progress.
static SHOWN_SWEEP: [&str; 6] = [
    "ultra",
    "sweep",
    "jobs.toml",
    "--progress",
    "--workers=2",
    "--at-once=2",
];

/// Asserts that a sweep is done whose lines of progress fail after `count` writes.
fn check_progress_fails<R: Host>(rt: &R, report: &str, count: usize) -> Result<(), Fail> {
    let err = SinkLimits::failing_once_after(count);
    let ended = call(rt, &SHOWN_SWEEP, SinkLimits::none(), err)?;
    check_equal_for(rt, ended.status, 0, format_args!("{count}"));
    check_equal(rt, ended.out.as_str(), report);
    Ok(())
}

/// Both streams fail at their first write, and so do the lines of progress.
#[test]
fn a_status_is_that_of_standard_output(rt: HostRuntime) -> Result<(), Fail> {
    for (words, _, _) in &COMMANDS {
        check_both_fail(&rt, words)?;
    }
    check_both_fail(&rt, &MEASURED_SWEEP)?;
    let report = text_of(&rt, &SWEEP, 0)?;
    for count in 0..60 {
        check_progress_fails(&rt, report.as_str(), count)?;
    }
    Ok(())
}

/// Asserts that words give their full answer with this status, or a prefix of the answer and a line
/// that says what was refused.
fn check_answer<R: Host>(rt: &R, words: &[&str], wanted: u8) -> Result<(), Fail> {
    let text = text_of(rt, words, wanted)?;
    let ended = call_within(rt, words, &FILES, SinkLimits::none(), SinkLimits::none())?;
    ended.check_refused_or_whole(rt, (wanted, text.as_str()));
    Ok(())
}

/// Where memory or a thread is refused, a command gives its full answer, or a prefix of it and a
/// line that says what was refused. This compares the program with itself. So it can only fail
/// where memory or a thread is refused from outside, as by `tests/refuse_memory`.
#[test]
fn a_command_is_refused_or_whole(rt: HostRuntime) -> Result<(), Fail> {
    for (words, _, status) in &COMMANDS {
        check_answer(&rt, words, *status)?;
    }
    check_answer(&rt, &MEASURED_SWEEP, 0)
}

/// The words that explain a run, with the trees in a heap of their own.
static EXPLAIN: [&str; 6] = ["ultra", "explain", "c.toml", "p.s", "--heap", "4096"];

/// Eight fetch-and-adds become one over three stages.
const THREE_LEVELS: &str = "\
cycle 7 module 0 cell 0 [s2x0 [s1x4 [s0x2 5.0 < 1.0] < [s0x6 7.0 < 3.0]] < [s1x0 [s0x0 4.0 < 0.0] < [s0x4 6.0 < 2.0]]]
";

/// Settings of three stages, and a program.
static THREE_STAGES: [(&str, &[u8]); 2] = [("c.toml", b"stages = 3"), ("p.s", ADDS_ONE)];

/// With each allocation refused in turn, an explanation is refused after a prefix of its text, or
/// whole. A refusal is the error of this test.
#[test]
fn an_explanation_is_refused_or_whole(rt: HostRuntime) -> Result<(), Fail> {
    let no_limits = SinkLimits::none();
    let ended = call_within(&rt, &EXPLAIN, &THREE_STAGES, no_limits, no_limits)?;
    ended.check_refused_or_whole(&rt, (0, THREE_LEVELS));
    unless_refused(ended)?;
    Ok(())
}

/// Calls the program, whose read after `sound_reads` reads fails. It writes nothing to standard
/// output.
fn call_faulty<'w, R: Host>(
    rt: &R,
    words: &'w [&'w str],
    sound_reads: usize,
    failure: SourceFault,
) -> Result<Ended, Fail> {
    let mut source = MemoryFiles::failing_after(&FILES, sound_reads, failure);
    let no_limits = SinkLimits::none();
    let ended = call_over(rt, words, &mut source, no_limits, no_limits)?;
    assert!(rt; ended.out.is_empty(), "{words:?}");
    Ok(ended)
}

/// Asserts what a command does that can't read a file, after `sound_reads` reads: it reports this
/// line.
fn check_unread<'w, R: Host>(
    rt: &R,
    words: &'w [&'w str],
    sound_reads: usize,
    line: &str,
) -> Result<(), Fail> {
    let ended = call_faulty(rt, words, sound_reads, SourceFault::NotRead)?;
    if ended.status == 4 {
        return Err("no memory".into());
    }
    ended.check(rt, (3, "", line));
    Ok(())
}

/// Asserts what a command does to which the memory for a file is refused, after `sound_reads`
/// reads.
fn check_no_memory<'w, R: Host>(
    rt: &R,
    words: &'w [&'w str],
    sound_reads: usize,
) -> Result<(), Fail> {
    let ended = call_faulty(rt, words, sound_reads, SourceFault::NoMemory)?;
    ended.check(rt, (4, "", "ultra: no memory\n"));
    Ok(())
}

/// Asserts what a command does that reads these files, where each read fails in turn.
fn check_reads<'w, R: Host>(rt: &R, words: &'w [&'w str], paths: &[&str]) -> Result<(), Fail> {
    for (index, path) in paths.iter().enumerate() {
        let line = format!(in rt.alloc(); "ultra: cannot read {path}\n")?;
        check_unread(rt, words, index, line.as_str())?;
        check_no_memory(rt, words, index)?;
    }
    Ok(())
}

#[test]
fn each_read_fails_in_turn(rt: HostRuntime) -> Result<(), Fail> {
    for (words, paths, _) in &COMMANDS {
        check_reads(&rt, words, paths)?;
    }
    check_reads(&rt, &MEASURED_SWEEP, &SWEEP_PATHS)
}
