//! Calls of the program over files and streams in memory.

use crate::equal::check_equal;
use crate::host::Host;
use crate::memory_files::MemoryFiles;
use std::process::Abort;
use std::test::Fail;
use test_sinks::{MemorySink, SinkLimits};
use ultra_commands::main_with;

/// A fetch-and-add of 1 to cell 0.
pub(crate) const ADDS_ONE: &[u8] = b"li r1 0\nli r2 1\nfaa r3 r1 r2\nhalt\n";

/// The words that ask for the serial order of `p.s` on a machine of `c.toml`.
pub(crate) static ORDER: [&str; 4] = ["ultra", "order", "c.toml", "p.s"];

/// What a call of the program did: its status, and what it wrote to standard output and to standard
/// error.
#[derive(Drop)]
pub(crate) struct Ended {
    pub(crate) status: u8,
    pub(crate) out: String,
    pub(crate) err: String,
}

impl Ended {
    /// What a call did that answered this status and wrote to these streams.
    fn new(status: u8, out: MemorySink, err: MemorySink) -> Result<Ended, Fail> {
        let err = String::from_utf8(err.bytes)?;
        let out = String::from_utf8(out.bytes)?;
        Ok(Ended { status, out, err })
    }

    /// Asserts the status, and what was written to standard output and to standard error.
    pub(crate) fn check<R: Abort>(&self, rt: &R, wanted: (u8, &str, &str)) {
        check_equal(rt, self.err.as_str(), wanted.2);
        check_equal(rt, self.out.as_str(), wanted.1);
        check_equal(rt, self.status, wanted.0);
    }

    /// Asserts that standard output failed, and that a prefix of this text was written to it.
    pub(crate) fn check_cut<R: Abort>(&self, rt: &R, text: &str) {
        check_equal(rt, self.err.as_str(), "ultra: write failed\n");
        assert!(rt; text.starts_with(self.out.as_str()), "{}", self.out);
        check_equal(rt, self.status, 5);
    }

    /// Asserts this status and that this whole text was written, or a prefix of the text and a line
    /// that says that memory or a thread was refused.
    pub(crate) fn check_refused_or_whole<R: Abort>(&self, rt: &R, wanted: (u8, &str)) {
        if !is_refusal(self.err.as_str()) {
            return self.check(rt, (wanted.0, wanted.1, ""));
        }
        assert!(rt; wanted.1.starts_with(self.out.as_str()), "{}", self.out);
        check_equal(rt, self.status, 4);
    }
}

/// Calls the program, and gives its status. No test rests on what the contract of `main_with` says.
fn status_of<'w, R: Host>(
    rt: &R,
    words: &'w [&'w str],
    source: &mut MemoryFiles<'_>,
    out: &mut MemorySink,
    err: &mut MemorySink,
) -> u8 {
    main_with(rt, words, source, out, err)
}

/// Calls the program over these files, with streams of these limits.
pub(crate) fn call_over<'w, R: Host>(
    rt: &R,
    words: &'w [&'w str],
    source: &mut MemoryFiles<'_>,
    out: SinkLimits,
    err: SinkLimits,
) -> Result<Ended, Fail> {
    let mut out = MemorySink::with_limits(rt.alloc(), out)?;
    let mut err = MemorySink::with_limits(rt.alloc(), err)?;
    let status = status_of(rt, words, source, &mut out, &mut err);
    Ended::new(status, out, err)
}

/// Calls the program over files in memory, with streams of these limits.
pub(crate) fn call_within<'t, R: Host>(
    rt: &R,
    words: &'t [&'t str],
    files: &'t [(&'t str, &'t [u8])],
    out: SinkLimits,
    err: SinkLimits,
) -> Result<Ended, Fail> {
    call_over(rt, words, &mut MemoryFiles::new(files), out, err)
}

/// Calls the program over files in memory. Where memory or a thread was refused, that is the error
/// here.
pub(crate) fn call<'t, R: Host>(
    rt: &R,
    words: &'t [&'t str],
    files: &'t [(&'t str, &'t [u8])],
) -> Result<Ended, Fail> {
    call_into(rt, words, files, SinkLimits::none())
}

/// The same where standard output has these limits.
pub(crate) fn call_into<'t, R: Host>(
    rt: &R,
    words: &'t [&'t str],
    files: &'t [(&'t str, &'t [u8])],
    out: SinkLimits,
) -> Result<Ended, Fail> {
    unless_refused(call_within(rt, words, files, out, SinkLimits::none())?)
}

/// Standard error doesn't say that memory or a thread was refused; else that is the error here.
pub(crate) fn unless_refused(ended: Ended) -> Result<Ended, Fail> {
    if is_refusal(ended.err.as_str()) {
        return Err("no memory, or no thread".into());
    }
    Ok(ended)
}

/// Whether a text says that memory or a thread was refused, and nothing else.
fn is_refusal(text: &str) -> bool {
    text == "ultra: no memory\n" || text == "ultra: no thread\n"
}

/// Asserts what a command does with settings and a program: its status, and what it writes to
/// standard output and standard error.
pub(crate) fn check_command<R: Host>(
    rt: &R,
    words: &[&str],
    settings: &[u8],
    program: &[u8],
    wanted: (u8, &str, &str),
) -> Result<(), Fail> {
    let files = [("c.toml", settings), ("p.s", program)];
    call(rt, words, &files)?.check(rt, wanted);
    Ok(())
}
