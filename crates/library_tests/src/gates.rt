//! Gates that watch who runs a job.

ghost use Rattle.ultra_sweep.specs.Job.{trace_of};

use std::alloc::Global;
use std::sync::Wait;
use std::sync::atomic::{AtomicU64, Ordering};
use std::thread;
use ultra_board::Seat;
use ultra_sweep::{Job, JobGate, JobResult};
use ultra_sweep_command::RunAlone;

/// A gate at which the runs of jobs 0 and 1 meet: each raises a flag and waits for the other's,
/// 10,000,000 turns at most.
#[derive(Drop)]
pub(crate) struct Meeting {
    pub(crate) flags: [AtomicU64; 2],
    pub(crate) missed: AtomicU64,
}

impl Meeting {
    pub(crate) fn new() -> Meeting {
        Meeting {
            flags: [AtomicU64::new(0), AtomicU64::new(0)],
            missed: AtomicU64::new(0),
        }
    }

    /// One comes, and waits for the other.
    fn come(&self, mine: &AtomicU64, other: &AtomicU64) {
        mine.fetch_add(1, Ordering::SeqCst);
        for _ in 0..10_000_000 {
            if other.load(Ordering::SeqCst) > 0 {
                return;
            }
            thread::yield_now();
        }
        self.missed.fetch_add(1, Ordering::SeqCst);
    }
}

impl JobGate for Meeting {
    ghost text = { λ gate number job. trace_of job };

    fn run<R: Wait>(
        &self,
        rt: &R,
        alloc: Global,
        seat: &Seat,
        number: u64,
        job: &Job,
    ) -> JobResult {
        match number {
            0 => self.come(&self.flags[0], &self.flags[1]),
            _ => self.come(&self.flags[1], &self.flags[0]),
        }
        RunAlone.run(rt, alloc, seat, number, job)
    }
}

/// How often a run yields, so that another thread can begin a run beside it.
const YIELDS: usize = 100_000;

/// A gate that counts the runs, and how often one began while another was under way. Each run gives
/// way to other threads first.
#[derive(Drop)]
pub(crate) struct Counter {
    pub(crate) runs: AtomicU64,
    pub(crate) under_way: AtomicU64,
    pub(crate) beside: AtomicU64,
}

impl Counter {
    pub(crate) fn new() -> Counter {
        Counter {
            runs: AtomicU64::new(0),
            under_way: AtomicU64::new(0),
            beside: AtomicU64::new(0),
        }
    }
}

impl JobGate for Counter {
    ghost text = { λ gate number job. trace_of job };

    fn run<R: Wait>(
        &self,
        rt: &R,
        alloc: Global,
        seat: &Seat,
        number: u64,
        job: &Job,
    ) -> JobResult {
        self.runs.fetch_add(1, Ordering::SeqCst);
        if self.under_way.fetch_add(1, Ordering::SeqCst) > 0 {
            self.beside.fetch_add(1, Ordering::SeqCst);
        }
        for _ in 0..YIELDS {
            thread::yield_now();
        }
        let result = RunAlone.run(rt, alloc, seat, number, job);
        self.under_way.fetch_sub(1, Ordering::SeqCst);
        result
    }
}
