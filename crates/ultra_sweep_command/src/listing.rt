//! The file of jobs, and the files that it names.

ghost use Rattle.std.specs.Prelude.{◌≡◌, ◌+◌, IfOk, IfErr, OnOk};
ghost use Rattle.ultra_settings.specs.JobsText.{all_paths, Gives};
ghost use Rattle.ultra_inputs.specs.{Failure.read_failures, Inputs.{FileGave, FileGaveNothing}};
ghost use Rattle.ultra_sweep_command.specs.Jobs.{ExplainsJobs, GaveJobs, GaveNoJobs};

use std::alloc::Global;
use ultra_inputs::{Failure, Inputs, read_file, read_inputs};
use ultra_io::Source;
use ultra_settings::{JobsFault, jobs_from};
use ultra_sweep::Job;

/// The paths of the jobs that a file lists: for each its settings and its program.
pub(crate) fn list_jobs<'p, F: Source>(
    alloc: Global,
    path: &'p str,
    source: &mut F,
) -> Result<Vec<(String, String)>, Failure<'p>>
    ensures ok { IfOk result (λ list. FileGave Gives path.now (F.files source.old)
        (F.files source.new) (all_paths list.items)) }
    ensures err { IfErr result
        (FileGaveNothing ExplainsJobs path.now (F.files source.old) (F.files source.new)) }
    ensures still { OnOk result (F.failures source.new ≡ F.failures source.old) }
    ensures counted { IfErr result
        (λ f. F.failures source.new ≡ F.failures source.old + read_failures f) }
{
    let text = read_file(alloc, path, source)?;
    accept_jobs(alloc, path, text.as_slice())
}

/// The paths of the jobs that the bytes of a file list.
fn accept_jobs<'p>(
    alloc: Global,
    path: &'p str,
    bytes: &[u8],
) -> Result<Vec<(String, String)>, Failure<'p>>
    ensures ok { IfOk result (λ list. Gives bytes.now (all_paths list.items)) }
    ensures err { IfErr result (ExplainsJobs path.now bytes.now) }
{
    match jobs_from(alloc, bytes) {
        Ok(list) => Ok(list),
        Err(JobsFault::NoMemory) => Err(Failure::NoMemory),
        Err(JobsFault::NotToml) => Err(Failure::NotToml(path)),
        Err(JobsFault::BadJob) => Err(Failure::BadJob(path)),
    }
}

/// The jobs whose files have these paths. The files of each are accepted before those of the next
/// are read.
pub(crate) fn read_jobs<'l, F: Source>(
    alloc: Global,
    list: &'l [(String, String)],
    source: &mut F,
) -> Result<Vec<Job>, Failure<'l>>
    ensures ok { IfOk result (λ jobs. GaveJobs (all_paths list.now) (F.files source.old)
        (F.files source.new) jobs.items) }
    ensures err { IfErr result
        (GaveNoJobs (all_paths list.now) (F.files source.old) (F.files source.new)) }
    ensures still { OnOk result (F.failures source.new ≡ F.failures source.old) }
    ensures counted { IfErr result
        (λ f. F.failures source.new ≡ F.failures source.old + read_failures f) }
{
    let mut jobs = Vec::with_capacity(alloc, list.len())?;
    for (settings, program) in list {
        let inputs = read_inputs(alloc, settings.as_str(), program.as_str(), source)?;
        let Inputs { config, program } = inputs;
        jobs.push_reserved(Job { config, program });
    }
    Ok(jobs)
}
