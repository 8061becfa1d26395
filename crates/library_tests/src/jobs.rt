//! Jobs that several tests run.

ghost use Rattle.std.specs.Prelude.{◌≡◌, IfOk, vec_len};

use std::alloc::Global;
use std::test::Fail;
use ultra_asm::assemble;
use ultra_sweep::{Job, settings_from};

/// Each processing element adds 1 to cell 0.
const ADD_ONE: &str = "li r1 0\nli r2 1\nfaa r3 r1 r2\nhalt\n";

/// The most jobs of a sweep.
const MOST_JOBS: usize = 256;

/// A job on the smallest machine.
fn job(alloc: Global, program: &str) -> Result<Job, Fail> {
    Ok(Job {
        config: settings_from(alloc, b"stages = 1")?,
        program: assemble(alloc, program)?,
    })
}

/// As many jobs as a sweep may have. Each ends with its own number in a register.
pub(crate) fn most_jobs(alloc: Global) -> Result<Vec<Job>, Fail> {
    let mut jobs = Vec::with_capacity(alloc, MOST_JOBS)?;
    for number in 0..MOST_JOBS {
        let program = format!(in alloc; "li r1 {number}\nhalt\n")?;
        jobs.push(job(alloc, program.as_str())?)?;
    }
    Ok(jobs)
}

/// A job that halts at once, and one that adds.
pub(crate) fn two_jobs(alloc: Global) -> Result<Vec<Job>, Fail>
    ensures { IfOk result (λ v. vec_len v ≡ 2) }
{
    Ok(vec![in alloc; job(alloc, "halt\n")?, job(alloc, ADD_ONE)?]?)
}
