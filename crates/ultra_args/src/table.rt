//! The commands, their arguments and their options. What `clap` is given, and what accepted
//! arguments ask for, follow from this table.

use crate::help::ArgumentHelp;

/// The commands.
#[derive(Clone, Copy)]
pub enum CommandName {
    Run,
    Events,
    Steps,
    Requests,
    Latencies,
    Measure,
    Queues,
    Order,
    Explain,
    Check,
    Para,
    List,
    Sweep,
    Lib,
}

/// A command and its arguments. `T` is the type of its name, `A` that of its arguments.
///
/// These types take the references in them as parameters: the prover only names a constant in
/// `specs/` whose type itself has none.
#[derive(Drop)]
pub struct CommandRow<T, A> {
    /// Which command it is.
    pub command: CommandName,
    /// Its name on the command line.
    pub name: T,
    /// Its arguments and options. The arguments are in their order.
    pub arguments: A,
}

/// An argument or an option of a command.
#[derive(Drop)]
pub struct Argument<T> {
    /// Its name. An option is `--NAME`.
    pub name: T,
    /// Which text is its help. The text isn't here: it would be in each function that names the
    /// argument, and proved there.
    pub help: ArgumentHelp,
    /// What it is.
    pub kind: ArgumentKind<T>,
    /// What holds where it isn't given.
    pub presence: Presence<T>,
}

/// What an argument is.
#[derive(Drop)]
pub enum ArgumentKind<T> {
    /// A text.
    Text,
    /// One or more numbers below `2^32`.
    Numbers,
    /// The option `--NAME NUMBER`: what the usage calls the number, the least number and the
    /// greatest.
    Number(T, u64, u64),
    /// The option `--NAME WORD`: what the usage calls the word.
    Word(T),
    /// The option `--NAME`.
    Flag,
}

/// What holds where an argument isn't given.
#[derive(Drop)]
pub enum Presence<T> {
    /// It has to be given.
    Required,
    /// It may be left out.
    Optional,
    /// Its value is this one.
    Default(T),
}

/// An argument of the table.
pub type TableArgument = Argument<&'static str>;

/// A row of the table.
pub type TableRow = CommandRow<&'static str, &'static [TableArgument]>;

/// The commands with their arguments.
pub static COMMANDS: [TableRow; 14] = [
    CommandRow {
        command: CommandName::Run,
        name: "run",
        arguments: &[CONF, PROG, WORKERS, FROM, TO, ONLY],
    },
    CommandRow {
        command: CommandName::Events,
        name: "events",
        arguments: &[CONF, PROG, FROM, TO],
    },
    CommandRow {
        command: CommandName::Steps,
        name: "steps",
        arguments: &[CONF, PROG, FROM, TO],
    },
    CommandRow {
        command: CommandName::Requests,
        name: "requests",
        arguments: &[CONF, PROG],
    },
    CommandRow {
        command: CommandName::Latencies,
        name: "latencies",
        arguments: &[CONF, PROG, MEASURED_FROM, MEASURED_TO],
    },
    CommandRow {
        command: CommandName::Measure,
        name: "measure",
        arguments: &[CONF, PROG, CSV, EVERY, MEASURED_FROM, MEASURED_TO],
    },
    CommandRow {
        command: CommandName::Queues,
        name: "queues",
        arguments: &[CONF, PROG, MEASURED_FROM, MEASURED_TO],
    },
    CommandRow {
        command: CommandName::Order,
        name: "order",
        arguments: &[CONF, PROG],
    },
    CommandRow {
        command: CommandName::Explain,
        name: "explain",
        arguments: &[CONF, PROG, HEAP],
    },
    CommandRow {
        command: CommandName::Check,
        name: "check",
        arguments: &[CONF, PROG, LIST],
    },
    CommandRow {
        command: CommandName::Para,
        name: "para",
        arguments: &[CONF, PROG, SCHEDULE, SEED, STEPS, ALL_OR_END],
    },
    CommandRow {
        command: CommandName::List,
        name: "list",
        arguments: &[CAREFUL, PROG],
    },
    CommandRow {
        command: CommandName::Sweep,
        name: "sweep",
        arguments: &[
            JOBS,
            JOB_WORKERS,
            AT_ONCE,
            PROGRESS,
            MEASURES,
            EVERY,
            JOBS_FROM,
            JOBS_TO,
        ],
    },
    CommandRow {
        command: CommandName::Lib,
        name: "lib",
        arguments: &[NAME, NUMBER],
    },
];

pub const CONF: TableArgument = Argument {
    name: "CONF",
    help: ArgumentHelp::Conf,
    kind: ArgumentKind::Text,
    presence: Presence::Required,
};

pub const PROG: TableArgument = Argument {
    name: "PROG",
    help: ArgumentHelp::Prog,
    kind: ArgumentKind::Text,
    presence: Presence::Required,
};

pub const WORKERS: TableArgument = Argument {
    name: "workers",
    help: ArgumentHelp::Workers,
    kind: ArgumentKind::Number("H", 1, 64),
    presence: Presence::Default("1"),
};

pub const FROM: TableArgument = Argument {
    name: "from",
    help: ArgumentHelp::From,
    kind: ArgumentKind::Number("A", 0, 1_000_000),
    presence: Presence::Default("0"),
};

pub const TO: TableArgument = Argument {
    name: "to",
    help: ArgumentHelp::To,
    kind: ArgumentKind::Number("B", 0, 1_000_000),
    presence: Presence::Default("1000000"),
};

pub const ONLY: TableArgument = Argument {
    name: "only",
    help: ArgumentHelp::Only,
    kind: ArgumentKind::Word("all|events|end"),
    presence: Presence::Default("all"),
};

pub const CSV: TableArgument = Argument {
    name: "csv",
    help: ArgumentHelp::Csv,
    kind: ArgumentKind::Flag,
    presence: Presence::Optional,
};

pub const EVERY: TableArgument = Argument {
    name: "every",
    help: ArgumentHelp::Every,
    kind: ArgumentKind::Number("E", 1, 1_000_000),
    presence: Presence::Optional,
};

pub const MEASURED_FROM: TableArgument = Argument {
    name: "from",
    help: ArgumentHelp::MeasuredFrom,
    kind: ArgumentKind::Number("A", 0, 1_000_000),
    presence: Presence::Default("0"),
};

pub const MEASURED_TO: TableArgument = Argument {
    name: "to",
    help: ArgumentHelp::MeasuredTo,
    kind: ArgumentKind::Number("B", 0, 1_000_000),
    presence: Presence::Default("1000000"),
};

pub const HEAP: TableArgument = Argument {
    name: "heap",
    help: ArgumentHelp::Heap,
    kind: ArgumentKind::Number("BYTES", 256, 16_777_216),
    presence: Presence::Default("1048576"),
};

pub const LIST: TableArgument = Argument {
    name: "LIST",
    help: ArgumentHelp::List,
    kind: ArgumentKind::Text,
    presence: Presence::Required,
};

pub const SCHEDULE: TableArgument = Argument {
    name: "SCHEDULE",
    help: ArgumentHelp::Schedule,
    kind: ArgumentKind::Text,
    presence: Presence::Optional,
};

pub const SEED: TableArgument = Argument {
    name: "seed",
    help: ArgumentHelp::Seed,
    kind: ArgumentKind::Number("S", 0, u64::MAX),
    presence: Presence::Optional,
};

pub const STEPS: TableArgument = Argument {
    name: "steps",
    help: ArgumentHelp::Steps,
    kind: ArgumentKind::Number("T", 0, 4_294_967_295),
    presence: Presence::Optional,
};

pub const ALL_OR_END: TableArgument = Argument {
    name: "only",
    help: ArgumentHelp::AllOrEnd,
    kind: ArgumentKind::Word("all|end"),
    presence: Presence::Default("all"),
};

pub const CAREFUL: TableArgument = Argument {
    name: "careful",
    help: ArgumentHelp::Careful,
    kind: ArgumentKind::Flag,
    presence: Presence::Optional,
};

pub const JOBS: TableArgument = Argument {
    name: "JOBS",
    help: ArgumentHelp::Jobs,
    kind: ArgumentKind::Text,
    presence: Presence::Required,
};

pub const JOB_WORKERS: TableArgument = Argument {
    name: "workers",
    help: ArgumentHelp::JobWorkers,
    kind: ArgumentKind::Number("H", 1, 64),
    presence: Presence::Required,
};

pub const AT_ONCE: TableArgument = Argument {
    name: "at-once",
    help: ArgumentHelp::AtOnce,
    kind: ArgumentKind::Number("B", 1, 64),
    presence: Presence::Required,
};

pub const PROGRESS: TableArgument = Argument {
    name: "progress",
    help: ArgumentHelp::Progress,
    kind: ArgumentKind::Flag,
    presence: Presence::Optional,
};

pub const MEASURES: TableArgument = Argument {
    name: "measure",
    help: ArgumentHelp::Measures,
    kind: ArgumentKind::Flag,
    presence: Presence::Optional,
};

pub const JOBS_FROM: TableArgument = Argument {
    name: "from",
    help: ArgumentHelp::JobsFrom,
    kind: ArgumentKind::Number("A", 0, 1_000_000),
    presence: Presence::Optional,
};

pub const JOBS_TO: TableArgument = Argument {
    name: "to",
    help: ArgumentHelp::JobsTo,
    kind: ArgumentKind::Number("B", 0, 1_000_000),
    presence: Presence::Optional,
};

pub const NAME: TableArgument = Argument {
    name: "NAME",
    help: ArgumentHelp::Name,
    kind: ArgumentKind::Text,
    presence: Presence::Required,
};

pub const NUMBER: TableArgument = Argument {
    name: "NUMBER",
    help: ArgumentHelp::Number,
    kind: ArgumentKind::Numbers,
    presence: Presence::Required,
};
