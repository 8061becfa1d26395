//! Files of jobs.

use crate::equal::check_equal;
use std::alloc::Global;
use std::process::Abort;
use std::test::Fail;
use ultra_sweep::{JobsFault, jobs_from};

/// Asserts that a text is refused with this fault.
fn check_refused<R: Abort + AllocGlobal>(
    rt: &R,
    text: &[u8],
    wanted: JobsFault,
) -> Result<(), Fail> {
    match jobs_from(rt.alloc(), text) {
        Err(JobsFault::NoMemory) => Err(Fail::from(JobsFault::NoMemory)),
        ended => {
            check_equal(rt, ended.err(), Some(wanted));
            Ok(())
        }
    }
}

/// Two jobs, with their keys in either order.
const TWO_JOBS: &[u8] = b"[[job]]\nprog = \"a.s\"\nconf = \"a.toml\"\n\
    [[job]]\nconf = \"b/c.toml\"\nprog = \"b/../a.s\"\n";

/// Asserts which settings and which program a job names.
fn check_job<R: Abort>(rt: &R, (conf, prog): &(String, String), wanted: (&str, &str)) {
    check_equal(rt, (conf.as_str(), prog.as_str()), wanted);
}

#[test]
fn jobs_in_their_order(rt: HostRuntime) -> Result<(), Fail> {
    let jobs = jobs_from(rt.alloc(), TWO_JOBS)?;
    let [first, second] = jobs.as_slice() else {
        panic!(rt; "not two jobs")
    };
    check_job(&rt, first, ("a.toml", "a.s"));
    check_job(&rt, second, ("b/c.toml", "b/../a.s"));
    Ok(())
}

/// Files that aren't jobs.
static BAD: [&[u8]; 10] = [
    b"",
    b"job = []",
    b"job = 1",
    b"job = [1]",
    b"[job]\nconf = \"a\"\nprog = \"b\"\n",
    b"jobs = 1\n[[job]]\nconf = \"a\"\nprog = \"b\"\n",
    b"[[job]]\nconf = \"a\"\nprog = \"b\"\nname = \"c\"\n",
    b"[[job]]\nconf = \"a\"\n",
    b"[[job]]\nconf = \"a\"\nprog = 1\n",
    b"[[job]]\nconf = \"a\"\nprog = \"b\"\n[[job]]\n",
];

#[test]
fn refused_files(rt: HostRuntime) -> Result<(), Fail> {
    for text in &BAD {
        check_refused(&rt, text, JobsFault::BadJob)?;
    }
    check_refused(&rt, b"[[job", JobsFault::NotToml)?;
    check_refused(&rt, &[255], JobsFault::NotToml)
}

/// A file of `count` jobs.
fn file_of(alloc: Global, count: usize) -> Result<Vec<u8>, Fail> {
    let mut text = Vec::new(alloc);
    for _ in 0..count {
        text.extend_from_slice(b"[[job]]\nconf = \"a\"\nprog = \"b\"\n")?;
    }
    Ok(text)
}

#[test]
fn most_jobs(rt: HostRuntime) -> Result<(), Fail> {
    let most = jobs_from(rt.alloc(), file_of(rt.alloc(), 256)?.as_slice())?;
    check_equal(&rt, most.len(), 256);
    let more = file_of(rt.alloc(), 257)?;
    check_refused(&rt, more.as_slice(), JobsFault::BadJob)
}
