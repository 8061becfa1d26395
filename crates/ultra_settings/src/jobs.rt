//! The text of a file of jobs, which is TOML. Keys and kinds are this project's profile.

ghost use Rattle.std.specs.Prelude.{◌≡◌, not, IfOk, IfErr, option_map, string_bytes};
ghost use Rattle.std.specs.{Option.option_copied, List.list_any, BTreeMap.keys};
ghost use Rattle.toml.specs.View.{view, items_view, table_view};
ghost use Rattle.ultra_settings.specs.JobsText.{all_paths, Gives, ExplainsJobsFault, is_file_key, is_job_key, text_at, paths_of, paths_in, jobs_in, array_at, jobs_at};

use crate::lookup::value_at;
use std::alloc::{AllocError, Global};
use thiserror::Error;
use toml::{Table, Value};

/// The most jobs that a file can list.
pub const MOST_JOBS: usize = 256;

/// Why a text gives no jobs.
#[derive(Clone, Copy, PartialEq, Eq, Debug, Drop, Error)]
pub enum JobsFault {
    /// Memory was refused.
    #[error("no memory")]
    NoMemory,
    /// The bytes aren't UTF-8, or the text isn't TOML.
    #[error("not toml")]
    NotToml,
    /// The text isn't a table with the one key `job`, an array of 1 to 256 tables, each with the
    /// texts `conf` and `prog` and no other key.
    #[error("bad job")]
    BadJob,
}

impl From<AllocError> for JobsFault {
    ghost use Rattle.ultra_settings.specs.declared.jobs.JobsFault.TheVariants.{NoMemory};

    ghost from_gives = { λ _ fault. fault ≡ NoMemory };

    fn from(_: AllocError) -> JobsFault {
        JobsFault::NoMemory
    }
}

/// The 1 to 256 jobs that a text lists: for each the path of its settings and that of its program,
/// as they are written.
///
/// `NotToml` says that the bytes aren't TOML, `BadJob` that they don't list such jobs, and
/// `NoMemory` that memory was refused.
pub fn jobs_from(alloc: Global, bytes: &[u8]) -> Result<Vec<(String, String)>, JobsFault>
    ensures ok { IfOk result (λ v. Gives bytes.now (all_paths v.items)) }
    ensures refused { IfErr result (ExplainsJobsFault bytes.now) }
{
    let table = match toml::table_from_slice(alloc, bytes) {
        Ok(table) => table,
        Err(error) if error.is_memory() => return Err(JobsFault::NoMemory),
        Err(_) => return Err(JobsFault::NotToml),
    };
    match jobs_at(alloc, &table)? {
        Some(jobs) => Ok(jobs),
        None => Err(JobsFault::BadJob),
    }
}

/// The jobs of a table. `None` says that it isn't one of jobs.
fn jobs_at(alloc: Global, table: &Table) -> Result<Option<Vec<(String, String)>>, AllocError>
    ensures { IfOk result (λ o. option_map (λ v. all_paths v.items) o ≡
        jobs_at (table_view table.now)) }
{
    if has_other_file_key(table) {
        return Ok(None);
    }
    match array_at(table) {
        Some(array) => jobs_in(alloc, array),
        None => Ok(None),
    }
}

/// The array of the jobs.
fn array_at(table: &Table) -> Option<&[Value]>
    ensures { option_map (λ a. items_view a.now) result ≡ array_at (table_view table.now) }
{
    let array = value_at(table, "job")?.as_array()?;
    Some(array.as_slice())
}

/// The jobs of an array. `None` says that it isn't one of 1 to 256 jobs.
fn jobs_in(alloc: Global, array: &[Value]) -> Result<Option<Vec<(String, String)>>, AllocError>
    ensures { IfOk result (λ o. option_map (λ v. all_paths v.items) o ≡
        jobs_in (items_view array.now)) }
{
    match array.len() {
        1..=MOST_JOBS => paths_in(alloc, array),
        _ => Ok(None),
    }
}

/// The paths of all jobs of an array. `None` says that a value isn't a job.
fn paths_in(alloc: Global, array: &[Value]) -> Result<Option<Vec<(String, String)>>, AllocError>
    ensures { IfOk result (λ o. option_map (λ v. all_paths v.items) o ≡
        paths_in (items_view array.now)) }
{
    let mut jobs = Vec::with_capacity(alloc, array.len())?;
    for value in array {
        let Some((conf, prog)) = paths_of(value) else {
            return Ok(None);
        };
        let conf = String::from_str(alloc, conf)?;
        let prog = String::from_str(alloc, prog)?;
        jobs.push((conf, prog))?;
    }
    Ok(Some(jobs))
}

/// The two paths of a job.
fn paths_of(value: &Value) -> Option<(&str, &str)>
    ensures { option_map (λ p. (p.0.now, p.1.now)) result ≡ paths_of (view value.now) }
{
    let table = value.as_table()?;
    if has_other_job_key(table) {
        return None;
    }
    let conf = text_at(table, "conf")?;
    let prog = text_at(table, "prog")?;
    Some((conf, prog))
}

/// The text at a key.
fn text_at<'t>(table: &'t Table, key: &str) -> Option<&'t str>
    ensures { option_copied result ≡ text_at key.now (table_view table.now) }
{
    value_at(table, key)?.as_str()
}

/// Whether the table has a key that isn't one of a file of jobs.
fn has_other_file_key(table: &Table) -> bool
    ensures { result ≡ list_any (λ k. not (is_file_key (string_bytes k))) (keys table.now) }
{
    table.keys().any(|key| !is_file_key(key.as_str()))
}

/// Whether the table has a key that isn't one of a job.
fn has_other_job_key(table: &Table) -> bool
    ensures { result ≡ list_any (λ k. not (is_job_key (string_bytes k))) (keys table.now) }
{
    table.keys().any(|key| !is_job_key(key.as_str()))
}

/// Whether the text is a key of a file of jobs.
fn is_file_key(text: &str) -> bool
    ensures { result ≡ is_file_key text.now }
{
    text == "job"
}

/// Whether the text is a key of a job.
fn is_job_key(text: &str) -> bool
    ensures { result ≡ is_job_key text.now }
{
    text == "conf" || text == "prog"
}
