//! The coordination programs with parameters.

ghost use Rattle.std.specs.Prelude.{◌<◌, All};
ghost use Rattle.ultra_model.specs.Machine.{size};

use crate::equal::check_equal;
use std::alloc::Global;
use std::process::Abort;
use std::test::Fail;
use ultra_colib::{
    ColibFault, barrier_program, gate_program, queue_program, run_barrier, run_gate, run_queue,
    run_rw, rw_program,
};
use ultra_isa::Program;
use ultra_model::Config;
use ultra_msg::Pe;
use ultra_para::Para;

/// A coordination program with its parameters.
#[derive(Clone, Copy)]
pub(crate) enum Case {
    Gate { bound: u32, rounds: u32 },
    Queue { log_size: u32, rounds: u32 },
    ReadersWriters { writers: u32, rounds: u32 },
    Barrier { rounds: u32 },
}

impl Case {
    /// The program.
    pub(crate) fn program(self, alloc: Global) -> Result<Program, ColibFault> {
        match self {
            Case::Gate { bound, rounds } => gate_program(alloc, bound, rounds),
            Case::Queue { log_size, rounds } => queue_program(alloc, log_size, rounds),
            Case::ReadersWriters { writers, rounds } => rw_program(alloc, writers, rounds),
            Case::Barrier { rounds } => barrier_program(alloc, rounds),
        }
    }

    /// The paracomputer of the program before its first step.
    pub(crate) fn start(self, alloc: Global, config: &Config) -> Result<Para, ColibFault> {
        self.run(alloc, config, &[])
    }

    /// The paracomputer of the program after a schedule.
    pub(crate) fn run(
        self,
        alloc: Global,
        config: &Config,
        schedule: &[Pe],
    ) -> Result<Para, ColibFault>
        requires { All (λ p. p < size config.now) schedule.now }
    {
        match self {
            Case::Gate { bound, rounds } => run_gate(alloc, config, bound, rounds, schedule),
            Case::Queue { log_size, rounds } => {
                run_queue(alloc, config, log_size, rounds, schedule)
            }
            Case::ReadersWriters { writers, rounds } => {
                run_rw(alloc, config, writers, rounds, schedule)
            }
            Case::Barrier { rounds } => run_barrier(alloc, config, rounds, schedule),
        }
    }
}

/// Asserts that what was asked for is refused.
pub(crate) fn check_refused<T: Drop>(
    rt: &impl Abort,
    answer: Result<T, ColibFault>,
) -> Result<(), Fail> {
    match answer {
        Ok(_) => Err("accepted".into()),
        Err(fault) => {
            check_equal(rt, fault, ColibFault::BadParameter);
            Ok(())
        }
    }
}

/// A gate for one, once.
pub(crate) const GATE: Case = Case::Gate {
    bound: 1,
    rounds: 1,
};

/// Readers and one writer, once.
pub(crate) const READERS_WRITERS: Case = Case::ReadersWriters {
    writers: 1,
    rounds: 1,
};

/// A queue of two places, twice.
pub(crate) const QUEUE: Case = Case::Queue {
    log_size: 1,
    rounds: 2,
};

/// Each program with small parameters.
pub(crate) const SMALL: [Case; 4] = [
    Case::Gate {
        bound: 1,
        rounds: 1,
    },
    Case::Queue {
        log_size: 0,
        rounds: 1,
    },
    Case::ReadersWriters {
        writers: 1,
        rounds: 1,
    },
    Case::Barrier { rounds: 1 },
];

/// Parameters just out of their ranges.
pub(crate) const OUT_OF_RANGE: [Case; 12] = [
    Case::Gate {
        bound: 0,
        rounds: 1,
    },
    Case::Gate {
        bound: 65,
        rounds: 1,
    },
    Case::Gate {
        bound: 1,
        rounds: 0,
    },
    Case::Gate {
        bound: 1,
        rounds: 1001,
    },
    Case::Queue {
        log_size: 7,
        rounds: 1,
    },
    Case::Queue {
        log_size: 6,
        rounds: 0,
    },
    Case::Queue {
        log_size: 6,
        rounds: 1001,
    },
    Case::ReadersWriters {
        writers: 65,
        rounds: 1,
    },
    Case::ReadersWriters {
        writers: 64,
        rounds: 0,
    },
    Case::ReadersWriters {
        writers: 64,
        rounds: 1001,
    },
    Case::Barrier { rounds: 0 },
    Case::Barrier { rounds: 1001 },
];
