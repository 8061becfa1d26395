//! The texts of help and of the version. A line has at most 80 columns.

use crate::table::CommandName;

/// The texts of the help of a command.
#[derive(Clone, Copy)]
pub struct Help<'c> {
    /// What the command does: one line, for the list of commands and for `-h`.
    pub about: &'c str,
    /// The same, and what goes in and comes out.
    pub detail: &'c str,
    /// What each status means, an example, and where more is said.
    pub more: &'c str,
}

/// The help of a command.
pub fn of_command(command: CommandName) -> Help<'static> {
    COMMAND_HELPS[command as usize]
}

/// The help of each command, in the order of [`CommandName`]. In a `match` each text would be
/// proved by itself.
static COMMAND_HELPS: [Help<'static>; 14] = [
    RUN, EVENTS, STEPS, REQUESTS, LATENCIES, MEASURE, QUEUES, ORDER, EXPLAIN, CHECK, PARA, LIST,
    SWEEP, LIB,
];

/// The arguments of the table, by their helps.
#[derive(Clone, Copy)]
pub enum ArgumentHelp {
    Conf,
    Prog,
    Workers,
    From,
    To,
    Only,
    Csv,
    Every,
    MeasuredFrom,
    MeasuredTo,
    Heap,
    List,
    Schedule,
    Seed,
    Steps,
    AllOrEnd,
    Careful,
    Jobs,
    JobWorkers,
    AtOnce,
    Progress,
    Measures,
    JobsFrom,
    JobsTo,
    Name,
    Number,
}

/// The help of an argument. What follows an empty line is shown by `--help` alone.
pub fn of_argument(argument: ArgumentHelp) -> &'static str {
    ARGUMENT_HELPS[argument as usize]
}

/// The help of each argument, in the order of [`ArgumentHelp`].
static ARGUMENT_HELPS: [&'static str; 26] = [
    // Conf
    "The settings of the machine, a TOML file",
    // Prog
    "The program of the processing elements, an assembler text",
    // Workers
    "\
How many threads make the cycles, 1 to 64

The trace is the same for every H. One worker is the fastest, and
starts no thread: in each half of a cycle each worker is handed its
part of the machine and gives it back, which costs more than it gains
on machines of up to six stages. Measured at six stages, 2 workers
took some 11 times as long as 1, and 8 workers more than 100 times
(bench/README.md).",
    // From
    "The first cycle that is shown, 0 to 1000000",
    // To
    "The last cycle that is shown, 0 to 1000000",
    // Only
    "\
Which lines are shown

all     all lines of the cycles that are shown, and the end
events  the lines of the events, and none of the state; and the end
end     only the end",
    // Csv
    "Writes a table, its values separated by commas",
    // Every
    "\
The number of cycles of a window, 1 to 1000000

The measures are a table with a line for each window. Without this
option all that is measured is the one window.",
    // MeasuredFrom
    "The first cycle that is measured, 0 to 1000000",
    // MeasuredTo
    "The last cycle that is measured, 0 to 1000000",
    // Heap
    "\
Bytes for the trees, 256 to 16777216

Only the trees of requests that are on their way have to fit, so a
longer run needs no larger heap.",
    // List
    "The list of requests and replies, in the form that `order` writes",
    // Schedule
    "The PE that makes each step: a file of PE numbers",
    // Seed
    "\
Chooses each PE at random, S 0 to 18446744073709551615

The same seed gives the same run. It ends once all PEs have stopped,
or after the steps of --steps.",
    // Steps
    "\
The most steps with --seed, 0 to 4294967295

Without this option, the number of cycles in CONF times the number of
PEs.",
    // AllOrEnd
    "What is written: all, or only the end",
    // Careful
    "\
Tests whether the program is careful

A program is careful if `fence` directly follows each instruction that
uses memory. Otherwise the status is 1, and standard error says which
one it doesn't follow.",
    // Jobs
    "The settings and programs of the runs, a TOML file",
    // JobWorkers
    "\
How many threads do the jobs, 1 to 64

Each job is run by one thread, so a sweep gains by threads. Measured
on four processors, jobs of some hundredths of a second were done 1.8
times as fast by 2 threads as by 1, and 2.6 times by 4; jobs of one or
two milliseconds gained little (bench/README.md).",
    // AtOnce
    "How many jobs may run at once, 1 to 64",
    // Progress
    "Shows on standard error how many jobs are finished",
    // Measures
    "Writes the measures of each job in place of its trace",
    // JobsFrom
    "With --measure, the first cycle that is measured, 0 to 1000000",
    // JobsTo
    "With --measure, the last cycle that is measured, 0 to 1000000",
    // Name
    "\
gate (B T), queue (Z T), rw (G T), barrier (T) or tickets (T)

gate B T   at most B PEs are inside at once, B 1 to 64
queue Z T  a queue of 2^Z places, Z 0 to 6
rw G T     PEs below G write and the others read, G 0 to 64
barrier T  all PEs wait for one another
tickets T  each ticket goes to one PE",
    // Number
    "\
The size that the program is for, and the number T of rounds

A barrier and tickets have no size. T is 1 to 1000. Each number is in
decimal digits.",
];

/// The version of the program, and of its trace.
pub const VERSION: &str = "1.2.0 (trace 2)";

/// The help of the program.
pub const ULTRA: Help<'static> = Help {
    about: "Simulates the NYU Ultracomputer cycle by cycle",
    detail: "\
Simulates the NYU Ultracomputer cycle by cycle

Settings (a TOML file) and a program (an assembler text) go in; an exact text of
what the machine did comes out on standard output. `ultra COMMAND --help` says
what each command reads and writes.",
    more: "\
Statuses:
  0  done; also where help or the version was asked for
  1  `check`: the list isn't legal; `list --careful`: the program isn't careful
  2  the arguments are invalid
  3  a file can't be read or is refused, or a parameter is out of its range
  4  memory or a thread was refused, or the heap of the trees is full
  5  writing failed
Where the status is 2 or more, standard error says why.

Example:

    $ cd examples/combined_pair && ultra run conf.toml prog.s | grep act
    act 0 1@0 faa 2 = 0 now 2

docs/FORMATS.md lists the settings and instructions, and defines each text.",
};

/// The help of a command: what it does, what goes in and comes out, what each status means, an
/// example, and where more is said. The short form is that of a command that fails in the middle of
/// its text for want of memory alone.
macro_rules! help {
    ($about:literal, $detail:literal, done: $done:literal, text: $text:literal, example: $example:literal) => {
        help!(
            $about,
            $detail,
            done: $done,
            refused: "a file can't be read or is refused; nothing is written",
            memory: "memory was refused; at most a prefix of the " $text " is written",
            text: $text,
            failed: "isn't 0",
            example: $example
        )
    };
    (
        $about:literal,
        $detail:literal,
        done: $done:literal,
        refused: $refused:literal,
        memory: $($memory:literal)+,
        text: $text:literal,
        failed: $failed:literal,
        example: $example:literal
    ) => {
        Help {
            about: $about,
            detail: concat!($about, "\n\n", $detail),
            more: concat!(
                "Statuses:\n  0  ",
                $done,
                "\n  2  the arguments are invalid\n  3  ",
                $refused,
                "\n  4  ",
                $($memory,)+
                "\n  5  writing failed, after a prefix of the ",
                $text,
                "\nWhere the status ",
                $failed,
                ", standard error says why.\n\n",
                $example
            ),
        }
    };
}

/// The help of `run`.
pub const RUN: Help<'static> = help!(
    "Writes the trace of a run",
    "\
CONF is read first. Once both files are accepted, the trace goes to standard
output: for each cycle the replies, the memory acts and all that waits, and at
the end the cells and the processing elements (PEs). With --from, --to or
--only, a part of the trace is written.",
    done: "the trace, or the part of it, is written",
    refused: "a file can't be read or is refused; nothing is written",
    memory: "memory or a thread was refused; at most a prefix of the trace is written",
    text: "trace",
    failed: "isn't 0",
    example: "Example, two PEs that add 1 to one cell:

    $ cd examples/combined_pair && ultra run conf.toml prog.s
    ultra trace 2
    cycle 0
    cycle 1
    cycle 2
    pni 0: 0@0 faa 1
    pni 1: 1@0 faa 1
    ...
    end quiet
    cell 0 2
    pe 0 halted 3 r2=1 r3=1
    pe 1 halted 3 r2=1

docs/FORMATS.md lists the settings, the instructions and the trace's lines."
);

/// The help of `events`.
pub const EVENTS: Help<'static> = help!(
    "Writes the events of a run",
    "\
CONF is read first. Once both files are accepted, the events go to standard
output, a line for each: answers, memory acts, combinations, issues and faults.
P.N@A is request N of PE P, to cell A.",
    done: "all events are written",
    text: "events",
    example: "Example, two PEs that add 1 to one cell:

    $ cd examples/combined_pair && ultra events conf.toml prog.s
    2 issue 0.0@0 faa 1
    2 issue 1.0@0 faa 1
    3 combine s0x0 1.0@0 < 0.0@0
    5 act 0 1.0@0 faa 2 = 0 now 2
    7 answer 0.0@0 = 1
    7 answer 1.0@0 = 0

docs/FORMATS.md lists the settings, the instructions and what a line says."
);

/// The help of `steps`.
pub const STEPS: Help<'static> = help!(
    "Writes the steps of the processing elements",
    "\
CONF is read first. Once both files are accepted, an instruction trace goes to
standard output: a line for each step of a processing element (PE), and one for
each answer that comes to a register. rI=V says that register I is set to V.",
    done: "all lines are written",
    text: "text",
    example: "Example, two PEs that add 1 to one cell:

    $ cd examples/combined_pair && ultra steps conf.toml prog.s --from 2
    2 step 0 2 faa r3 r1 r2 0.0@0 faa 1
    2 step 1 2 faa r3 r1 r2 1.0@0 faa 1
    3 step 0 3 halt
    3 step 1 3 halt
    7 reply 0 r3=1 0.0@0
    7 reply 1 r3=0 1.0@0

docs/FORMATS.md lists the settings, the instructions and what a line says."
);

/// The help of `requests`.
pub const REQUESTS: Help<'static> = help!(
    "Writes the requests of a run as a table",
    "\
CONF is read first. Once both files are accepted, the table goes to standard
output in CSV, a row for each request: those that were answered by the cycle of
the answer, and then the others.",
    done: "the whole table is written",
    text: "table",
    example: "Example, two PEs that add 1 to one cell:

    $ cd examples/combined_pair && ultra requests conf.toml prog.s
    pe,number,op,cell,word,issued,answered,reply
    0,0,faa,0,1,2,7,1
    1,0,faa,0,1,2,7,0

docs/FORMATS.md lists the settings, the instructions and the columns."
);

/// The help of `latencies`.
pub const LATENCIES: Help<'static> = help!(
    "Writes how many requests took how long",
    "\
CONF is read first. Once both files are accepted, a table goes to standard
output in CSV: for each latency that occurred, the number of answers that had
it. A latency is the cycle of the answer minus the cycle of the issue.",
    done: "the whole table is written",
    text: "table",
    example: "Example, two PEs that add 1 to one cell:

    $ cd examples/combined_pair && ultra latencies conf.toml prog.s
    latency,answered
    5,2

docs/FORMATS.md lists the settings, the instructions and the columns."
);

/// The help of `measure`.
pub const MEASURE: Help<'static> = help!(
    "Writes the measures of a run",
    "\
CONF is read first. Once both files are accepted, the measures go to standard
output: numbers of events, latencies, and how full the machine was. There is a
line `NAME VALUE` for each, or with --csv or --every a table.",
    done: "all measures are written",
    text: "measures",
    example: "Example, two PEs that add 1 to one cell:

    $ cd examples/combined_pair && ultra measure conf.toml prog.s | grep lat
    latency_least 5
    latency_greatest 5
    latency_mean 5.000

docs/FORMATS.md lists the settings, the instructions and the measures."
);

/// The help of `queues`.
pub const QUEUES: Help<'static> = help!(
    "Writes what each queue moved and held",
    "\
CONF is read first. Once both files are accepted, a table goes to standard
output in CSV, a row for each stage and position: what the request queue, the
wait buffer and the reply queue there moved and held, and how often each was
full.",
    done: "the whole table is written",
    text: "table",
    example: "Example, two PEs that add 1 to one cell:

    $ cd examples/combined_pair && ultra queues conf.toml prog.s | cut -d, -f3-8
    stage,position,requests,combined,request_queue_sum,request_queue_most
    0,0,1,1,1,1
    0,1,0,0,0,0

docs/FORMATS.md lists the settings, the instructions and the columns."
);

/// The help of `order`.
pub const ORDER: Help<'static> = help!(
    "Writes the serial order of a run",
    "\
CONF is read first. Once both files are accepted, the order goes to standard
output: a line for each request that was served. In this order, the requests
give the replies and the cells of the run.",
    done: "the whole order is written",
    text: "order",
    example: "Example, two PEs that add 1 to one cell (PE 1 comes first and gets 0):

    $ cd examples/combined_pair && ultra order conf.toml prog.s
    1.0 faa 0 1 = 0
    0.0 faa 0 1 = 1

docs/FORMATS.md lists the settings, the instructions and what a line says."
);

/// The help of `explain`.
pub const EXPLAIN: Help<'static> = help!(
    "Writes the combining tree of each memory act of a run",
    "\
CONF is read first. Once both files are accepted, the trees go to standard
output: a line for each request that a module served, with the requests that it
stood for and where they combined.",
    done: "all trees are written",
    refused: "a file can't be read or is refused; nothing is written",
    memory: "memory was refused, or the heap is full, after a prefix of the text",
    text: "text",
    failed: "isn't 0",
    example: "Example, two PEs whose requests combine at stage 0, position 0:

    $ cd examples/combined_pair && ultra explain conf.toml prog.s
    cycle 5 module 0 cell 0 [s0x0 1.0 < 0.0]

docs/FORMATS.md lists the settings, the instructions and what a line says."
);

/// The help of `check`.
pub const CHECK: Help<'static> = help!(
    "Checks whether a list is a serial order of a run",
    "\
CONF is read first, then PROG, then LIST. Once all are accepted, the list is
checked against the requests, the replies and the cells of the run. Standard
output says `legal`, or where the list first breaks the law.",
    done: "the list is legal
  1  it isn't: standard output says where",
    refused: "a file can't be read or is refused; nothing is written",
    memory: "memory was refused; at most a prefix of the text is written",
    text: "text",
    failed: "is 2 or more",
    example: "Example, the order that `ultra order` writes:

    $ cd examples/combined_pair && ultra check conf.toml prog.s order
    legal

docs/FORMATS.md lists the settings, the instructions and the form of a list."
);

/// The help of `para`.
pub const PARA: Help<'static> = help!(
    "Writes a run of the paracomputer",
    "\
In each step one PE makes one instruction, and its memory act is done at once.
CONF is read first, then PROG, then SCHEDULE. Once all are accepted, the memory
acts go to standard output, and the cells and the PEs at the end.",
    done: "the whole text is written",
    text: "text",
    example: "Example, two PEs that add 1 to one cell:

    $ cd examples/combined_pair && ultra para conf.toml prog.s --seed 1
    1.0 faa 0 1 = 0
    0.0 faa 0 1 = 1
    end steps 10 stopped
    cell 0 2
    pe 0 halted 3 r2=1 r3=1
    pe 1 halted 3 r2=1

docs/FORMATS.md lists the settings, the instructions and what a line says."
);

/// The help of `list`.
pub const LIST: Help<'static> = help!(
    "Writes the canonical text of a program",
    "\
Once the file is accepted, the program goes to standard output, with one
instruction a line, words separated by a blank, and jumps to labels `Lk`.",
    done: "the whole text is written
  1  with --careful: an instruction that uses memory isn't followed by `fence`",
    refused: "the file can't be read or is refused; nothing is written",
    memory: "memory was refused; nothing is written",
    text: "text",
    failed: "isn't 0",
    example: "Example:

    $ ultra list examples/combined_pair/prog.s
    li r1 0
    li r2 1
    faa r3 r1 r2
    halt

docs/FORMATS.md lists the instructions and the faults of a program."
);

/// The help of `sweep`.
pub const SWEEP: Help<'static> = help!(
    "Writes the traces of many runs, in order",
    "\
JOBS is read first, and then the settings and the program of each job. Once all
files are accepted, the jobs are run, and the report goes to standard output:
for each job the line `job I` and the trace of its run, in the order of JOBS.
With --measure, it is a table of the measures of each job. The output is the
same for every H and B.",
    done: "the whole report is written",
    refused: "a file can't be read or is refused; nothing is written",
    memory: "memory or a thread was refused; nothing of the report is written",
    text: "report",
    failed: "isn't 0",
    example: "Example, two jobs by two threads:

    $ cd examples/wait_places && ultra sweep jobs.toml --workers 2 --at-once 2
    job 0
    ultra trace 2
    ...
    job 1
    ultra trace 2
    ...

docs/FORMATS.md lists the settings and instructions, and shows a file of jobs."
);

/// The help of `lib`.
pub const LIB: Help<'static> = help!(
    "Writes the text of a coordination program",
    "\
No file is read. The canonical text of the program with these parameters goes to
standard output. It is a program for `run`.",
    done: "the whole text is written",
    refused: "a parameter is out of its range; nothing is written",
    memory: "memory was refused; nothing is written",
    text: "text",
    failed: "isn't 0",
    example: "Example, a barrier that is passed once:

    $ ultra lib barrier 1
    pid r1
    addi r2 r1 8
    ...
    halt

docs/COORDINATION.md says what the programs do and which law each keeps."
);
