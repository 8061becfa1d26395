//! What the command line of the program means: its commands with their arguments, and what the
//! arguments that `clap` accepts ask for.
#![tactic(auto)]

mod grammar;
mod help;
mod limited;
mod reading;
mod sweep_output;
mod table;

pub use grammar::ultra_command;
pub use limited::{
    Bytes, Cycles, HeapBytes, Jobs, JobsAtOnce, Limited, Threads, WindowCycles, Workers,
};
pub use reading::{command_named, named_command};
pub use sweep_output::SweepOutput;
pub use table::CommandName;

/// What the program is asked to do.
#[derive(Clone, Copy, Drop)]
pub enum Invocation<'w> {
    /// To write the trace of a run:
    /// `ultra run CONF PROG [--workers H] [--from A] [--to B] [--only all|events|end]`.
    Run {
        /// The path of the settings.
        settings: &'w str,
        /// The path of the program's text.
        program: &'w str,
        /// How many threads of the host make the cycles, 1 to 64: 1 where no number is given.
        workers: Workers,
        /// The first cycle that is shown: 0 where no number is given.
        from: u32,
        /// The last cycle that is shown: 1,000,000 where no number is given.
        to: u32,
        /// Which lines of these cycles are shown.
        only: LineFilter,
    },
    /// To write what happened in some cycles of a run:
    /// `ultra events|steps|latencies|queues CONF PROG [--from A] [--to B]`.
    Cycles {
        /// What is written of these cycles.
        output: CyclesOutput,
        /// The path of the settings.
        settings: &'w str,
        /// The path of the program's text.
        program: &'w str,
        /// The first of these cycles: 0 where no number is given.
        from: u32,
        /// The last one: 1,000,000 where no number is given.
        to: u32,
    },
    /// To write the requests of a run as a table: `ultra requests CONF PROG`.
    Requests {
        /// The path of the settings.
        settings: &'w str,
        /// The path of the program's text.
        program: &'w str,
    },
    /// To write the measures of a run:
    /// `ultra measure CONF PROG [--csv] [--every E] [--from A] [--to B]`.
    Measure {
        /// The path of the settings.
        settings: &'w str,
        /// The path of the program's text.
        program: &'w str,
        /// Whether the values are a table, separated by commas.
        csv: bool,
        /// The length of a window. Where no number is given, all that is measured is the one window.
        every: Option<WindowCycles>,
        /// The first cycle that is measured: 0 where no number is given.
        from: u32,
        /// The last cycle that is measured: 1,000,000 where no number is given.
        to: u32,
    },
    /// To write the serial order of a run: `ultra order CONF PROG`.
    Order {
        /// The path of the settings.
        settings: &'w str,
        /// The path of the program's text.
        program: &'w str,
    },
    /// To write the combining tree of each memory act of a run:
    /// `ultra explain CONF PROG [--heap BYTES]`.
    Explain {
        /// The path of the settings.
        settings: &'w str,
        /// The path of the program's text.
        program: &'w str,
        /// The size of the heap of the trees: 1,048,576 bytes where no number is given.
        heap: HeapBytes,
    },
    /// To check whether a list is a serial order of a run: `ultra check CONF PROG LIST`.
    Check {
        /// The path of the settings.
        settings: &'w str,
        /// The path of the program's text.
        program: &'w str,
        /// The path of the list.
        list: &'w str,
    },
    /// To write the run of the paracomputer by a schedule:
    /// `ultra para CONF PROG (SCHEDULE | --seed S [--steps T]) [--only all|end]`.
    Para {
        /// The path of the settings.
        settings: &'w str,
        /// The path of the program's text.
        program: &'w str,
        /// Where the steps come from.
        schedule: ScheduleSource<'w>,
        /// Whether only the end is shown.
        only_end: bool,
    },
    /// To write the canonical text of a program: `ultra list [--careful] PROG`.
    List {
        /// The path of the program's text.
        program: &'w str,
        /// Whether it is reported that the program isn't careful.
        careful: bool,
    },
    /// To write the traces or the measures of many runs: `ultra sweep JOBS --workers H --at-once B
    /// [--progress] [--measure [--every E] [--from A] [--to B]]`.
    Sweep {
        /// The path of the file of jobs.
        jobs: &'w str,
        /// How many threads of the host do the jobs, 1 to 64.
        workers: Workers,
        /// How many jobs may run at once, 1 to 64.
        at_once: JobsAtOnce,
        /// Whether standard error shows how many jobs are finished.
        progress: bool,
        /// What is written.
        output: SweepOutput,
    },
    /// To write the canonical text of a coordination program: `ultra lib NAME NUMBER..`.
    Lib(Coordination),
}

/// Which lines of the cycles are shown: `--only`.
#[derive(Clone, Copy)]
pub enum LineFilter {
    /// All lines.
    All,
    /// The lines of the events, and none of the state.
    Events,
    /// No line of a cycle: only the end is shown.
    End,
}

/// What is written of some cycles of a run.
#[derive(Clone, Copy)]
pub enum CyclesOutput {
    /// The events.
    Events,
    /// The steps of the processing elements.
    Steps,
    /// How many answers took how long.
    Latencies,
    /// What each queue moved and held.
    Queues,
}

/// Where the steps of a paracomputer come from.
#[derive(Clone, Copy, Drop)]
pub enum ScheduleSource<'w> {
    /// A file of PE numbers.
    File(&'w str),
    /// A generator of random numbers.
    Seed {
        /// Its first state.
        seed: u64,
        /// The most steps, if a number is given.
        steps: Option<u32>,
    },
}

/// A coordination program with its parameters as the arguments give them: they may be out of range.
/// The rounds are to be 1 to 1000.
#[derive(Clone, Copy)]
pub enum Coordination {
    /// A gate: `ultra lib gate B T`. The bound is to be 1 to 64.
    Gate { bound: u32, rounds: u32 },
    /// A queue of `2^log_size` places: `ultra lib queue Z T`. The logarithm is to be 0 to 6.
    Queue { log_size: u32, rounds: u32 },
    /// Readers and writers: `ultra lib rw G T`. The writers are to be 0 to 64.
    ReadersWriters { writers: u32, rounds: u32 },
    /// A barrier: `ultra lib barrier T`.
    Barrier { rounds: u32 },
    /// Tickets, each of which one PE gets: `ultra lib tickets T`.
    Tickets { rounds: u32 },
}
