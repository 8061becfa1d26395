//! A machine runs, and its measures are written.

ghost use Rattle.std.specs.Prelude.{◌≡◌, ◌≢◌, ℕ, ◌+◌, ◌<◌, ◌≤◌, ◌++◌, false, true, Some, OnOk, OnErr, IfErr};
ghost use Rattle.ultra_msg.specs.Bytes.{TakesPrefix};
ghost use Rattle.ultra_io.specs.TextBuffer.{Writes};
ghost use Rattle.ultra_model.specs.{Machine.is_quiet, Trace.{by_number, cycle_count}};
ghost use Rattle.ultra_trace_alone.specs.{declared.fault.RunFault.TheVariants.{NoMemory, NoThread}, Faults.sink_faults, RunText.most_for};
ghost use Rattle.ultra_measure.specs.{Nets.IsNetOf, Rows.row_text, Running.{AreAfter, IsOn, IsWindowRun}, Texts.{end_if, HasWindows, measured, window_of, window_count}};

use crate::columns::{Form, measure_names, put_row};
use crate::queues::net_of;
use crate::window::{Window, skip_latencies};
use std::alloc::Global;
use ultra_block::Blocks;
use ultra_io::TextBuffer;
use ultra_isa::Program;
use ultra_latency::OpenTable;
use ultra_model::{Config, MOST_CYCLES};
use ultra_msg::{Sink, SinkFault};
use ultra_route::Net;
use ultra_topology::is_small;
use ultra_trace_alone::{RunFault, most_cycles};

/// How the measures of a run are written.
#[derive(Clone, Copy, PartialEq, Eq, Debug, Drop)]
pub enum Layout {
    /// Those of the whole run, a line for each that has a value.
    Lines,
    /// A table: a line with all names, then one with all values for each window of `every` cycles.
    /// The last window may be shorter.
    Table {
        /// How many cycles a window has, at least 1.
        every: u32,
    },
    /// Only the rows of a `Table`, each with the number of a job in front of it.
    JobRows {
        /// The number of the job.
        job: u64,
        /// How many cycles a window has, at least 1.
        every: u32,
    },
}

/// Runs a program on a machine of these settings in the caller's thread. Writes the measures of the
/// cycles from `from` to `to` to the sink; after a fault the sink has taken a prefix of them.
/// Cycles behind `to` aren't made. What it holds doesn't grow with the number of cycles.
///
/// `Write` says that the sink failed, and `NoMemory` that memory was refused; it is asked for only
/// before the first byte is written. Never returns `NoThread`.
pub fn measure<S: Sink>(
    alloc: Global,
    config: &Config,
    program: &Program,
    from: u32,
    to: u32,
    layout: Layout,
    sink: &mut S,
) -> Result<(), RunFault>
    requires { HasWindows layout }
    ensures ok { OnOk result
        (S.taken sink.new ≡ S.taken sink.old ++ measured config.now program.now from to layout) }
    ensures still { OnOk result (S.failures sink.new ≡ S.failures sink.old) }
    ensures err { OnErr result (TakesPrefix (measured config.now program.now from to layout)
        (S.taken sink.old) (S.taken sink.new)) }
    ensures counted { IfErr result
        (λ e. S.failures sink.new ≡ S.failures sink.old + sink_faults e) }
    ensures alone { IfErr result (λ e. e ≢ NoThread) }
    ensures memory_first { IfErr result (λ e. e ≡ NoMemory → S.taken sink.new ≡ S.taken sink.old) }
{
    let mut blocks = Blocks::in_one_block(alloc, config, program)?;
    let mut table = OpenTable::new(alloc, config)?;
    write_measures(&mut blocks, &mut table, from, to, layout, sink)?;
    Ok(())
}

/// Runs a machine from its start, and writes the measures of some cycles to a sink. After a fault
/// the sink has taken a prefix of them.
fn write_measures<S: Sink>(
    blocks: &mut Blocks,
    table: &mut OpenTable,
    from: u32,
    to: u32,
    layout: Layout,
    sink: &mut S,
) -> Result<(), SinkFault>
    requires windows { HasWindows layout }
    requires start { AreAfter blocks.old.config blocks.old.program 0 blocks.old table.old }
    ensures ok { OnOk result (S.taken sink.new ≡
        S.taken sink.old ++ measured blocks.old.config blocks.old.program from to layout) }
    ensures still { OnOk result (S.failures sink.new ≡ S.failures sink.old) }
    ensures err { OnErr result
        (TakesPrefix (measured blocks.old.config blocks.old.program from to layout)
        (S.taken sink.old) (S.taken sink.new)) }
    ensures counted { OnErr result (S.failures sink.new ≡ S.failures sink.old + 1) }
{
    let mut buffer = TextBuffer::new(sink);
    put_measures(&mut buffer, blocks, table, from, to, layout);
    buffer.finish()
}

/// Runs a machine from its start, and writes the measures of some cycles. It ends early where the
/// sink fails.
fn put_measures<S: Sink>(
    buffer: &mut TextBuffer<'_, S>,
    blocks: &mut Blocks,
    table: &mut OpenTable,
    from: u32,
    to: u32,
    layout: Layout,
)
    requires windows { HasWindows layout }
    requires start { AreAfter blocks.old.config blocks.old.program 0 blocks.old table.old }
    ensures { Writes S.taken S.failures
        (measured blocks.old.config blocks.old.program from to layout) buffer.old buffer.new }
{
    // for the prover: a run has at most `MOST_CYCLES` cycles
    let _cycles = blocks.config().cycles();
    match layout {
        Layout::Lines => put_windows(buffer, blocks, table, Form::Lines, from, to, MOST_CYCLES),
        Layout::Table { every } => {
            buffer.put(measure_names());
            put_windows(buffer, blocks, table, Form::Values, from, to, every);
        }
        Layout::JobRows { job, every } => {
            put_windows(buffer, blocks, table, Form::JobValues(job), from, to, every);
        }
    }
}

/// Runs a machine from its start, and writes the measures of each window of `every` cycles, from
/// the cycle `from` to `to` or to the end of the run. It ends early where the sink fails.
fn put_windows<S: Sink>(
    buffer: &mut TextBuffer<'_, S>,
    blocks: &mut Blocks,
    table: &mut OpenTable,
    form: Form,
    from: u32,
    to: u32,
    every: u32,
)
    requires some { 1 ≤ every }
    requires start { AreAfter blocks.old.config blocks.old.program 0 blocks.old table.old }
    ensures { Writes S.taken S.failures
        (by_number (window_count blocks.old.config blocks.old.program from to every)
        (λ k. row_text form (window_of blocks.old.config blocks.old.program from to every k)))
        buffer.old buffer.new }
{
    if from < most_cycles(blocks, Some(to)) && skip_cycles(blocks, table, from) {
        put_rows(buffer, blocks, table, form, from, to, every);
    }
}

/// Runs a machine on from the cycle `from`, and writes the measures of each window.
fn put_rows<S: Sink>(
    buffer: &mut TextBuffer<'_, S>,
    blocks: &mut Blocks,
    table: &mut OpenTable,
    form: Form,
    from: u32,
    to: u32,
    every: u32,
)
    requires some { 1 ≤ every }
    requires asked { from < most_for blocks.old.config (Some to) }
    requires on { IsOn blocks.old.config blocks.old.program from blocks.old table.old }
    ensures { Writes S.taken S.failures
        (by_number (window_count blocks.old.config blocks.old.program from to every)
        (λ k. row_text form (window_of blocks.old.config blocks.old.program from to every k)))
        buffer.old buffer.new }
{
    let most = most_cycles(blocks, Some(to));
    let mut cycle = from;
    while cycle < most {
        let run = run_window(blocks, table, cycle, every.min(most - cycle));
        put_row(buffer, form, blocks, &run.window, run.to, run.ended);
        if run.ended.is_some() {
            return;
        }
        if buffer.has_failed() {
            return;
        }
        cycle = run.to;
    }
}

/// Makes the first cycles of a run, of which nothing is measured. Gives whether the run goes on
/// behind them.
fn skip_cycles(blocks: &mut Blocks, table: &mut OpenTable, cycles: u32) -> bool
    requires within { cycles < blocks.old.config.cycles }
    requires few { cycles ≤ MOST_CYCLES }
    requires start { AreAfter blocks.old.config blocks.old.program 0 blocks.old table.old }
    ensures on { result ≡ true →
        IsOn blocks.old.config blocks.old.program cycles blocks.new table.new }
    ensures over { result ≡ false → cycle_count blocks.old.config blocks.old.program ≤ cycles }
{
    for cycle in 0..cycles {
        blocks.cycle();
        skip_latencies(table, blocks, cycle);
        if blocks.is_quiet() {
            return false;
        }
    }
    true
}

/// A window whose cycles were made.
#[derive(Drop)]
pub(crate) struct WindowRun {
    /// Its numbers.
    pub(crate) window: Window,
    /// The cycle behind its last one.
    pub(crate) to: u32,
    /// Whether the run was quiet at its end, where it ended with the window.
    pub(crate) ended: Option<bool>,
}

/// Makes the cycles of a window, from a cycle on: all, or fewer where the run ends. Small machines
/// use a specialised copy.
fn run_window(blocks: &mut Blocks, table: &mut OpenTable, from: u32, every: u32) -> WindowRun
    requires some { 1 ≤ every }
    requires start { IsOn blocks.old.config blocks.old.program from blocks.old table.old }
    ensures { IsWindowRun blocks.old.config blocks.old.program from every blocks.new table.new
        result }
{
    let net = net_of(blocks);
    if is_small(net) {
        run_window_sized::<true>(blocks, table, net, from, every)
    } else {
        run_window_sized::<false>(blocks, table, net, from, every)
    }
}

/// The same for a machine with this network. The code for a `SMALL` one is compiled as a
/// specialised copy.
fn run_window_sized<const SMALL: bool>(
    blocks: &mut Blocks,
    table: &mut OpenTable,
    net: Net,
    from: u32,
    every: u32,
) -> WindowRun
    requires some { 1 ≤ every }
    requires net { IsNetOf SMALL net blocks.old.config }
    requires start { IsOn blocks.old.config blocks.old.program from blocks.old table.old }
    ensures { IsWindowRun blocks.old.config blocks.old.program from every blocks.new table.new
        result }
{
    let most = blocks.config().cycles();
    let end = from + every.min(most - from);
    let mut window = Window::new(net, from);
    for cycle in from..end {
        blocks.cycle();
        window.note_cycle::<SMALL>(table, blocks, net, cycle);
        let to = cycle + 1;
        let ended = end_of(blocks, to == most);
        if ended.is_some() {
            return WindowRun { window, to, ended };
        }
    }
    WindowRun {
        window,
        to: end,
        ended: None,
    }
}

/// How a run ended, if it did after the last cycle: whether the machine is quiet. `last` says
/// whether the settings allow no more cycles.
fn end_of(blocks: &Blocks, last: bool) -> Option<bool>
    ensures { result ≡ end_if (is_quiet blocks.now.machine) last }
{
    if blocks.is_quiet() {
        Some(true)
    } else if last {
        Some(false)
    } else {
        None
    }
}
