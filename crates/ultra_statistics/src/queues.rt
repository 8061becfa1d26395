//! The table of what the queues of a run held and what moved in them.

ghost use Rattle.std.specs.Prelude.{◌≡◌, ◌≢◌, ℕ, List, ◌+◌, ◌*◌, ◌^◌, ◌<◌, ◌≤◌, ◌++◌, true, length, replicate, slice_index, OnOk, OnErr, IfOk, IfErr};
ghost use Rattle.ultra_msg.specs.Bytes.{TakesPrefix};
ghost use Rattle.ultra_isa.specs.declared.Instr.{Instr};
ghost use Rattle.ultra_io.specs.TextBuffer.{Writes};
ghost use Rattle.ultra_model.specs.{Machine.Settings, Balance.{count, weight}, Trace.by_number};
ghost use Rattle.ultra_topology.specs.Numbers.{IsSmall};
ghost use Rattle.ultra_trace_alone.specs.{declared.fault.RunFault.TheVariants.{NoMemory, NoThread}, BlocksAfter.IsAfter, Faults.sink_faults};
ghost use Rattle.ultra_statistics.specs.{Kept.{CanTakeState, HasPlaces, IsTable, IsWithState, if_so, no_counts}, Ports.is_combination_at, Queues.queues_of, Rows.{counts_row, counted_table}};

use crate::counts::{Moment, QueueCounts, add_state};
use crate::observer::{Observer, observe_run};
use crate::rows::{put_header, put_numbers};
use std::alloc::{AllocError, Global};
use ultra_block::{Blocks, Held};
use ultra_io::TextBuffer;
use ultra_isa::Program;
use ultra_latency::law_of_few_events;
use ultra_model::Config;
use ultra_msg::{Event, Sink, SinkFault};
use ultra_route::Net;
use ultra_topology::is_small;
use ultra_trace_alone::RunFault;

/// Runs a program on a machine of these settings in the caller's thread, up to cycle `to`. Writes a
/// table to the sink, with a row for each port of the switches: what its queues and its wait buffer
/// held after the cycles from `from` on, and what moved in these cycles. After a fault the sink has
/// taken a prefix of it. What the call holds doesn't grow with the number of cycles.
///
/// `Write` says that the sink failed, and `NoMemory` that memory was refused; it is asked for only
/// before the first byte is written. `NoThread` is never answered.
pub fn write_queues<S: Sink>(
    alloc: Global,
    config: &Config,
    program: &Program,
    from: u32,
    to: u32,
    sink: &mut S,
) -> Result<(), RunFault>
    ensures ok { OnOk result
        (S.taken sink.new ≡ S.taken sink.old ++ queues_of from to config.now program.now) }
    ensures still { OnOk result (S.failures sink.new ≡ S.failures sink.old) }
    ensures err { OnErr result (TakesPrefix (queues_of from to config.now program.now)
        (S.taken sink.old) (S.taken sink.new)) }
    ensures counted { IfErr result (λ e.
        S.failures sink.new ≡ S.failures sink.old + sink_faults e) }
    ensures alone { IfErr result (λ e. e ≢ NoThread) }
    ensures memory_first { IfErr result (λ e. e ≡ NoMemory → S.taken sink.new ≡ S.taken sink.old) }
{
    // for the prover: the settings are in their ranges, and a stage has at most 64 positions
    let _valid = config.initial();
    let _size = config.net().size();
    let mut table = QueueTable::new(alloc, from)?;
    let end = observe_run(alloc, config, program, to, &mut table)?;
    write_table(&table, config, end, sink)?;
    Ok(())
}

/// The most positions of a machine, all stages together.
const MOST_PORTS: usize = 384;

/// Counts for all ports: all are 0. An error says that memory was refused.
fn empty_counts(alloc: Global) -> Result<Vec<QueueCounts>, AllocError>
    ensures { IfOk result (λ v. v.items ≡ replicate 384 no_counts) }
{
    let none = QueueCounts {
        left: 0,
        sum: 0,
        most: 0,
        full: 0,
    };
    vec![in alloc; none; MOST_PORTS]
}

/// Counts of combinations for all ports: all are 0. An error says that memory was refused.
fn no_combinations(alloc: Global) -> Result<Vec<u32>, AllocError>
    ensures { IfOk result (λ v. v.items ≡ replicate 384 0) }
{
    vec![in alloc; 0; MOST_PORTS]
}

/// What is counted at the ports of a machine in a window of cycles: for each stage in turn, at 64
/// places for its positions.
#[derive(Drop)]
pub(crate) struct QueueTable {
    /// The first cycle of the window.
    pub(crate) from: u32,
    /// Of the queues toward memory.
    pub(crate) requests: Vec<QueueCounts>,
    /// Of the wait buffers.
    pub(crate) records: Vec<QueueCounts>,
    /// Of the queues toward the processing elements.
    pub(crate) replies: Vec<QueueCounts>,
    /// The combinations.
    pub(crate) combined: Vec<u32>,
}

impl QueueTable {
    /// The table before the first cycle: all counts are 0. An error says that memory was refused.
    fn new(alloc: Global, from: u32) -> Result<QueueTable, AllocError>
        ensures from { IfOk result (λ t. t.from ≡ from) }
        ensures table { IfOk result (λ t. (c : Settings) (program : List Instr) →
            IsTable c program t.from 0 0 t) }
    {
        Ok(QueueTable {
            from,
            requests: empty_counts(alloc)?,
            records: empty_counts(alloc)?,
            replies: empty_counts(alloc)?,
            combined: no_combinations(alloc)?,
        })
    }

    /// Adds a state of a machine. Small machines use a specialised copy.
    fn add(&mut self, blocks: &Blocks, at: Moment)
        requires one { blocks.now.count ≡ 1 }
        requires room { CanTakeState blocks.now.config self.old }
        ensures { IsWithState blocks.now.config at blocks.now.machine self.old self.new }
    {
        let net = blocks.config().net();
        if is_small(net) {
            self.add_sized::<true>(blocks, net, at);
        } else {
            self.add_sized::<false>(blocks, net, at);
        }
    }

    /// The same for a machine with this network. The code for a `SMALL` one is compiled as a
    /// specialised copy.
    fn add_sized<const SMALL: bool>(&mut self, blocks: &Blocks, net: Net, at: Moment)
        requires one { blocks.now.count ≡ 1 }
        requires net { net ≡ blocks.now.config.stages }
        requires small { SMALL ≡ true → IsSmall net }
        requires room { CanTakeState blocks.now.config self.old }
        ensures { IsWithState blocks.now.config at blocks.now.machine self.old self.new }
    {
        // for the prover: a stage has an even number of positions, at most 64
        let _even = net.size();
        let _stages = net.stages();
        add_state::<SMALL>(&mut self.requests, blocks, net, Held::Request, at);
        add_state::<SMALL>(&mut self.records, blocks, net, Held::Record, at);
        add_state::<SMALL>(&mut self.replies, blocks, net, Held::Reply, at);
    }
}

impl Observer for QueueTable {
    ghost from = { λ t. t.from };

    ghost has_noted = { λ t c program ended begun. IsTable c program t.from ended begun t };

    fn note(&mut self, blocks: &Blocks, made: u32, goes_on: bool) -> Result<(), AllocError> {
        if made < self.from {
            return Ok(());
        }
        // for the prover: the settings are in their ranges, and how many events a cycle has
        let _valid = blocks.config().initial();
        law_of_few_events(blocks.config());
        let at = Moment {
            ended: self.from < made,
            begins: goes_on,
        };
        self.add(blocks, at);
        add_combinations_if(at.ended, &mut self.combined, blocks.events_of_one());
        Ok(())
    }
}

/// Adds the combinations among events to the counts of the ports, if the cycle that they are of is
/// in the window.
fn add_combinations_if(ended: bool, counts: &mut [u32], events: &[Event])
    requires count { length counts.old ≡ 384 }
    requires room { (k : ℕ) → k < 384 → slice_index counts.old k + length events.now < 2 ^ 32 }
    ensures count { length counts.new ≡ 384 }
    ensures each { (s x : ℕ) → s < 6 → x < 64 → slice_index counts.new (s * 64 + x) ≡
        slice_index counts.old (s * 64 + x) +
        if_so ended (count (is_combination_at s x) events.now) }
{
    if ended {
        add_combinations(counts, events);
    }
}

/// Adds the combinations among events to the counts of the ports.
fn add_combinations(counts: &mut [u32], events: &[Event])
    requires count { length counts.old ≡ 384 }
    requires room { (k : ℕ) → k < 384 → slice_index counts.old k + length events.now < 2 ^ 32 }
    ensures count { length counts.new ≡ 384 }
    ensures each { (s x : ℕ) → s < 6 → x < 64 → slice_index counts.new (s * 64 + x) ≡
        slice_index counts.old (s * 64 + x) + count (is_combination_at s x) events.now }
{
    for event in events {
        add_combination(counts, event);
    }
}

/// Adds a combination, if the event is one, to the counts of the ports.
fn add_combination(counts: &mut [u32], event: &Event)
    requires count { length counts.old ≡ 384 }
    requires room { (k : ℕ) → k < 384 → slice_index counts.old k + 1 < 2 ^ 32 }
    ensures count { length counts.new ≡ 384 }
    ensures each { (s x : ℕ) → s < 6 → x < 64 → slice_index counts.new (s * 64 + x) ≡
        slice_index counts.old (s * 64 + x) + weight (is_combination_at s x event.now) }
    ensures few { (k : ℕ) → k < 384 →
        slice_index counts.new k ≤ slice_index counts.old k + 1 }
{
    if let Event::Combined {
        stage,
        position,
        ..
    } = *event
    {
        if stage < 6 && position < 64 {
            counts[(stage * 64 + position) as usize] += 1;
        }
    }
}

/// Writes the table of a window that ends before cycle `end` to a sink. After a fault the sink has
/// taken a prefix of it.
fn write_table<S: Sink>(
    table: &QueueTable,
    config: &Config,
    end: u32,
    sink: &mut S,
) -> Result<(), SinkFault>
    requires { HasPlaces table.now }
    ensures ok { OnOk result
        (S.taken sink.new ≡ S.taken sink.old ++ counted_table config.now table.now end) }
    ensures still { OnOk result (S.failures sink.new ≡ S.failures sink.old) }
    ensures err { OnErr result (TakesPrefix (counted_table config.now table.now end)
        (S.taken sink.old) (S.taken sink.new)) }
    ensures counted { OnErr result (S.failures sink.new ≡ S.failures sink.old + 1) }
{
    let mut buffer = TextBuffer::new(sink);
    put_table(&mut buffer, table, config, end);
    buffer.finish()
}

/// Writes the table of a window that ends before cycle `end`.
fn put_table<S: Sink>(buffer: &mut TextBuffer<'_, S>, table: &QueueTable, config: &Config, end: u32)
    requires { HasPlaces table.now }
    ensures { Writes S.taken S.failures (counted_table config.now table.now end)
        buffer.old buffer.new }
{
    put_header(buffer);
    if table.from < end {
        put_rows(buffer, table, config, end);
    }
}

/// Writes the rows of all stages.
fn put_rows<S: Sink>(buffer: &mut TextBuffer<'_, S>, table: &QueueTable, config: &Config, end: u32)
    requires { HasPlaces table.now }
    ensures { Writes S.taken S.failures (by_number config.now.stages
        (λ s. by_number (2 ^ config.now.stages) (counts_row table.now end s)))
        buffer.old buffer.new }
{
    let net = config.net();
    for stage in 0..net.stages() {
        put_stage(buffer, table, net, end, stage);
    }
}

/// Writes the rows of one stage.
fn put_stage<S: Sink>(
    buffer: &mut TextBuffer<'_, S>,
    table: &QueueTable,
    net: Net,
    end: u32,
    stage: u32,
)
    requires places { HasPlaces table.now }
    requires stage { stage < net }
    ensures { Writes S.taken S.failures
        (by_number (2 ^ net) (counts_row table.now end stage)) buffer.old buffer.new }
{
    // for the prover: a network has 1 to `MOST_STAGES` stages
    let _stages = net.stages();
    for position in 0..net.size() {
        put_port(buffer, table, end, stage, position);
    }
}

/// Writes the row of a port.
fn put_port<S: Sink>(
    buffer: &mut TextBuffer<'_, S>,
    table: &QueueTable,
    end: u32,
    stage: u32,
    position: u32,
)
    requires places { HasPlaces table.now }
    requires stage { stage < 6 }
    requires position { position < 64 }
    ensures { Writes S.taken S.failures (counts_row table.now end stage position)
        buffer.old buffer.new }
{
    let place = (stage * 64 + position) as usize;
    let requests = table.requests[place];
    let records = table.records[place];
    let replies = table.replies[place];
    let numbers = [
        end,
        stage,
        position,
        requests.left,
        table.combined[place],
        requests.sum,
        requests.most,
        requests.full,
        records.sum,
        records.most,
        records.full,
        replies.left,
        replies.sum,
        replies.most,
        replies.full,
    ];
    put_numbers(buffer, table.from, &numbers);
}
