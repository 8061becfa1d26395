//! What all threads brought back, put together.

ghost use Rattle.std.specs.Prelude.{◌≡◌, ◌≤◌, ℕ, [], IfOk, IfErr, OnOk, All, List, length, map, replicate, true, vec_len, vec_capacity};
ghost use Rattle.ultra_sweep.specs.{declared.job.Job.Job, Job.{job_numbers, texts_of, IsResultAmong}, Gather.{AreGathered, ExplainsGatherFault, ExplainsEnd}, Places.{IsPut, ExplainsPutFault, IsFirstEmpty}};

use crate::job::{JobOutcome, JobResult};
use std::alloc::{AllocError, Global};
use std::marker::Model;
use ultra_board::{Board, Seat};

/// Why the results aren't one for each job.
#[derive(Clone, Copy, PartialEq, Eq, Debug, Drop)]
pub enum GatherFault {
    /// The job of this number is named by two results.
    Double(u64),
    /// This number is named, but there is no such job.
    Stranger(u64),
    /// The job of this number is the first that no result names.
    Missing(u64),
    /// Memory was refused, here or to a job.
    NoMemory,
}

impl From<AllocError> for GatherFault {
    ghost use Rattle.ultra_sweep.specs.declared.gathering.GatherFault.TheVariants.{NoMemory};

    ghost from_gives = { λ _ fault. fault ≡ NoMemory };

    fn from(_: AllocError) -> GatherFault {
        GatherFault::NoMemory
    }
}

/// The texts of all jobs, in the order of their numbers. Contracts see the list of them.
#[derive(Drop)]
pub struct Gathered {
    pub(crate) texts: Vec<Vec<u8>>,
}

impl Model for Gathered {
    ghost use Rattle.std.specs.Prelude.{ℕ, List, map};

    ghost Value = { List (List ℕ) };

    ghost view = { λ g. map (λ t. t.items) g.texts.items };
}

/// Puts the results of `count` jobs together, each at its number.
///
/// It checks the results in order, and the first that has a fault decides. The fault is `Stranger`
/// if there is no such job, else `Double` if an earlier result names the same job. Else it is
/// `NoMemory` if memory was refused to the job. If no result has a fault but a job isn't named, it
/// is `Missing` with the first such job. `NoMemory` may come in place of any other answer.
pub fn gather(alloc: Global, count: u64, results: Vec<JobResult>) -> Result<Gathered, GatherFault>
    ensures ok { IfOk result (λ g. AreGathered count results.items g) }
    ensures err { IfErr result (ExplainsGatherFault count results.items) }
    ensures texts { (text : ℕ → Job → List ℕ) (jobs : List Job) → length jobs ≡ count →
        All (IsResultAmong text jobs) results.items → IfOk result (λ g. g ≡ texts_of text jobs) }
{
    let places = empty_places(alloc, count as usize)?;
    let texts = Vec::with_capacity(alloc, count as usize)?;
    gather_into(places, texts, results)
}

/// Closes the board of `count` jobs, by the seat that has all its places, and puts the results
/// together. The results are those of all calls of `work` there, and no number was drawn elsewhere.
/// So each job has one, and an error says that memory was refused, here or to a job.
pub fn close_and_gather(
    alloc: Global,
    board: Board,
    seat: Seat,
    count: u64,
    results: Vec<JobResult>,
) -> Result<Gathered, AllocError>
    requires board { seat.board ≡ board.id }
    requires all { seat.view.places ≡ board.limits.seats }
    requires spent { seat.view.spent ≡ true }
    requires count { seat.view.limit ≡ count }
    requires drawn { seat.view.drawn ≡ job_numbers results.items }
    ensures ok { IfOk result (λ g. AreGathered count results.items g) }
    ensures texts { (text : ℕ → Job → List ℕ) (jobs : List Job) → length jobs ≡ count →
        All (IsResultAmong text jobs) results.items → IfOk result (λ g. g ≡ texts_of text jobs) }
{
    let _totals = board.close(seat);
    match gather(alloc, count, results) {
        Ok(gathered) => Ok(gathered),
        Err(GatherFault::NoMemory) => Err(AllocError),
        Err(GatherFault::Double(_)) => unreachable!(),
        Err(GatherFault::Stranger(_)) => unreachable!(),
        Err(GatherFault::Missing(_)) => unreachable!(),
    }
}

/// Puts the results together in memory that is there: in `places`, one for each job and all empty,
/// and then in `texts`, which has room for all. `NoMemory` says that memory was refused to a job.
fn gather_into(
    mut places: Vec<Option<Vec<u8>>>,
    texts: Vec<Vec<u8>>,
    results: Vec<JobResult>,
) -> Result<Gathered, GatherFault>
    requires empty { places.items ≡ replicate (vec_len places) None }
    requires no_texts { texts.items ≡ [] }
    requires room { vec_len places ≤ vec_capacity texts }
    ensures ok { IfOk result (λ g. AreGathered (vec_len places) results.items g) }
    ensures err { IfErr result (ExplainsEnd (vec_len places) results.items) }
{
    for result in results {
        put(places.as_mut_slice(), result)?;
    }
    match texts_in(places, texts) {
        Ok(texts) => Ok(Gathered { texts }),
        Err(number) => Err(GatherFault::Missing(number)),
    }
}

/// As many empty places as there are jobs. An error says that memory was refused.
fn empty_places(alloc: Global, count: usize) -> Result<Vec<Option<Vec<u8>>>, AllocError>
    ensures { IfOk result (λ v. v.items ≡ replicate count None) }
{
    let mut places = Vec::with_capacity(alloc, count)?;
    for _ in 0..count {
        places.push(None)?;
    }
    Ok(places)
}

/// Puts the text of a job into the job's place.
fn put(places: &mut [Option<Vec<u8>>], it: JobResult) -> Result<(), GatherFault>
    ensures ok { OnOk result (IsPut it places.old places.new) }
    ensures err { IfErr result (ExplainsPutFault it places.old) }
{
    let JobResult { number, outcome } = it;
    if number >= places.len() as u64 {
        return Err(GatherFault::Stranger(number));
    }
    let place = &mut places[number as usize];
    if place.is_some() {
        return Err(GatherFault::Double(number));
    }
    match outcome {
        JobOutcome::Text(text) => {
            *place = Some(text);
            Ok(())
        }
        JobOutcome::NoMemory => Err(GatherFault::NoMemory),
    }
}

/// The texts in their places, appended to `texts`. An error is the number of the first empty place.
fn texts_in(places: Vec<Option<Vec<u8>>>, mut texts: Vec<Vec<u8>>) -> Result<Vec<Vec<u8>>, u64>
    requires no_texts { texts.items ≡ [] }
    requires room { vec_len places ≤ vec_capacity texts }
    ensures ok { IfOk result (λ v. map Some v.items ≡ places.items) }
    ensures err { IfErr result (IsFirstEmpty places.items) }
{
    let mut number: u64 = 0;
    for place in places {
        let Some(text) = place else {
            return Err(number);
        };
        texts.push_reserved(text);
        number += 1;
    }
    Ok(texts)
}
