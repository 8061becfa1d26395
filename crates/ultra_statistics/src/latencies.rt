//! How long the requests of a run took.

ghost use Rattle.std.specs.Prelude.{◌≡◌, ◌≢◌, ℕ, List, ◌+◌, ◌^◌, ◌<◌, ◌≤◌, ◌++◌, ◌==◌, length, slice_index_or, vec_capacity, OnOk, OnErr, IfOk, IfErr};
ghost use Rattle.std.specs.List.{flat_map};
ghost use Rattle.ultra_msg.specs.Bytes.{TakesPrefix};
ghost use Rattle.ultra_isa.specs.declared.Instr.{Instr};
ghost use Rattle.ultra_io.specs.TextBuffer.{Writes};
ghost use Rattle.ultra_model.specs.{Machine.Settings, Balance.weight};
ghost use Rattle.ultra_latency.specs.Open.{latencies_along, rows_after, since, HavePlaces};
ghost use Rattle.ultra_trace_alone.specs.{declared.fault.RunFault.TheVariants.{NoMemory, NoThread}, Faults.sink_faults};
ghost use Rattle.ultra_statistics.specs.Latencies.{answered_in, count_of, count_row, histogram_text, latencies_of_run, AreByLatency, IsHistogram};

use crate::observer::{Observer, observe_run};
use crate::rows::put_numbers;
use std::alloc::{AllocError, Global};
use ultra_block::Blocks;
use ultra_io::TextBuffer;
use ultra_isa::Program;
use ultra_latency::{OpenRequest, OpenTable, law_of_few_events, law_of_open_requests};
use ultra_model::Config;
use ultra_msg::{Event, Sink, SinkFault};
use ultra_trace_alone::RunFault;

/// Runs a program on a machine of these settings in the caller's thread, up to cycle `to`. Writes a
/// histogram of the latencies to the sink: for each that occurred how many deliveries of the cycles
/// from `from` on had it. After a fault the sink has taken a prefix of it. The call holds a number
/// for each latency that occurred.
///
/// `Write` says that the sink failed, and `NoMemory` that memory was refused; it is asked for only
/// before the first byte is written. `NoThread` is never answered.
pub fn write_latencies<S: Sink>(
    alloc: Global,
    config: &Config,
    program: &Program,
    from: u32,
    to: u32,
    sink: &mut S,
) -> Result<(), RunFault>
    ensures ok { OnOk result
        (S.taken sink.new ≡ S.taken sink.old ++ latencies_of_run from to config.now program.now) }
    ensures still { OnOk result (S.failures sink.new ≡ S.failures sink.old) }
    ensures err { OnErr result (TakesPrefix (latencies_of_run from to config.now program.now)
        (S.taken sink.old) (S.taken sink.new)) }
    ensures counted { IfErr result (λ e.
        S.failures sink.new ≡ S.failures sink.old + sink_faults e) }
    ensures alone { IfErr result (λ e. e ≢ NoThread) }
    ensures memory_first { IfErr result (λ e. e ≡ NoMemory → S.taken sink.new ≡ S.taken sink.old) }
{
    let mut counts = LatencyCounts::new(alloc, config, from)?;
    observe_run(alloc, config, program, to, &mut counts)?;
    write_histogram(&counts.counts, sink)?;
    Ok(())
}

/// How many deliveries of a window had a latency.
#[derive(Clone, Copy, Drop)]
pub(crate) struct LatencyCount {
    pub(crate) latency: u32,
    /// At least 1.
    pub(crate) answered: u32,
}

/// How many deliveries of a window had each latency.
#[derive(Drop)]
pub(crate) struct LatencyCounts {
    /// The first cycle of the window.
    pub(crate) from: u32,
    /// The open requests.
    pub(crate) table: OpenTable,
    /// For each latency that occurred, in ascending order.
    pub(crate) counts: Vec<LatencyCount>,
}

impl LatencyCounts {
    /// The counts before the first cycle: there are none. An error says that memory was refused.
    fn new(alloc: Global, config: &Config, from: u32) -> Result<LatencyCounts, AllocError>
        ensures from { IfOk result (λ t. t.from ≡ from) }
        ensures table { IfOk result (λ t. (program : List Instr) →
            IsHistogram config.now program t.from 0 t) }
    {
        let table = OpenTable::new(alloc, config)?;
        Ok(LatencyCounts {
            from,
            table,
            counts: Vec::new(alloc),
        })
    }
}

impl Observer for LatencyCounts {
    ghost from = { λ t. t.from };

    ghost has_noted = { λ t c program ended _. IsHistogram c program t.from ended t };

    fn note(&mut self, blocks: &Blocks, made: u32, _goes_on: bool) -> Result<(), AllocError> {
        // for the prover: what the events make of the open requests, and how many a cycle has
        law_of_open_requests(blocks.config());
        law_of_few_events(blocks.config());
        if made == 0 {
            return Ok(());
        }
        let cycle = made - 1;
        if cycle < self.from {
            pass_over(&mut self.table, blocks.events_of_one(), cycle);
            return Ok(());
        }
        count_latencies(
            &mut self.counts,
            &mut self.table,
            blocks.events_of_one(),
            cycle,
        )?;
        Ok(())
    }
}

/// Updates the open requests by the events of a cycle whose latencies aren't counted.
fn pass_over(table: &mut OpenTable, events: &[Event], cycle: u32)
    requires { HavePlaces cycle table.old.rows.items events.now }
    ensures rows { table.new.rows.items ≡ rows_after cycle table.old.rows.items events.now }
    ensures capacity { vec_capacity table.new.rows ≡ vec_capacity table.old.rows }
{
    for event in events {
        table.note(event, cycle);
    }
}

/// Updates the open requests by the events of a cycle, and counts the latencies of its deliveries.
/// An error says that memory was refused.
fn count_latencies(
    counts: &mut Vec<LatencyCount>,
    table: &mut OpenTable,
    events: &[Event],
    cycle: u32,
) -> Result<(), AllocError>
    requires places { HavePlaces cycle table.old.rows.items events.now }
    requires by_latency { AreByLatency 0 counts.old.items }
    requires room { (l : ℕ) → count_of counts.old.items l + length events.now < 2 ^ 32 }
    ensures rows { OnOk result
        (table.new.rows.items ≡ rows_after cycle table.old.rows.items events.now) }
    ensures capacity { OnOk result (vec_capacity table.new.rows ≡ vec_capacity table.old.rows) }
    ensures by_latency { OnOk result (AreByLatency 0 counts.new.items) }
    ensures counts { OnOk result ((l : ℕ) → count_of counts.new.items l ≡
        count_of counts.old.items l +
        answered_in (latencies_along cycle table.old.rows.items events.now) l) }
{
    for event in events {
        let answered = table.note(event, cycle);
        count_answer(counts, answered, cycle)?;
    }
    Ok(())
}

/// Counts the latency of the request that a cycle answers, where there is one. An error says that
/// memory was refused.
fn count_answer(
    counts: &mut Vec<LatencyCount>,
    answered: Option<OpenRequest>,
    cycle: u32,
) -> Result<(), AllocError>
    requires by_latency { AreByLatency 0 counts.old.items }
    requires room { (l : ℕ) → count_of counts.old.items l + 1 < 2 ^ 32 }
    ensures by_latency { OnOk result (AreByLatency 0 counts.new.items) }
    ensures counts { OnOk result ((l : ℕ) → count_of counts.new.items l ≡
        count_of counts.old.items l + answered_in (since cycle answered) l) }
{
    match answered {
        Some(request) => count_latency(counts, cycle.saturating_sub(request.cycle)),
        None => Ok(()),
    }
}

/// Counts a latency. An error says that memory was refused, which is asked for where the latency
/// occurs for the first time.
fn count_latency(counts: &mut Vec<LatencyCount>, latency: u32) -> Result<(), AllocError>
    requires by_latency { AreByLatency 0 counts.old.items }
    requires room { (l : ℕ) → count_of counts.old.items l + 1 < 2 ^ 32 }
    ensures by_latency { OnOk result (AreByLatency 0 counts.new.items) }
    ensures counts { OnOk result ((l : ℕ) → count_of counts.new.items l ≡
        count_of counts.old.items l + weight (latency == l)) }
{
    let place = place_of(counts, latency);
    if place < counts.len() && counts[place].latency == latency {
        counts[place].answered += 1;
        return Ok(());
    }
    counts.insert(
        place,
        LatencyCount {
            latency,
            answered: 1,
        },
    )?;
    Ok(())
}

/// How many of these counts are of lesser latencies.
fn place_of(counts: &[LatencyCount], latency: u32) -> usize
    requires { AreByLatency 0 counts.now }
    ensures bound { result ≤ length counts.now }
    ensures lesser { (k : ℕ) (d : LatencyCount) → k < result →
        (slice_index_or counts.now k d).latency < latency }
    ensures rest { (k : ℕ) (d : LatencyCount) → result ≤ k → k < length counts.now →
        latency ≤ (slice_index_or counts.now k d).latency }
{
    counts.partition_point(|count| count.latency < latency)
}

/// Writes a histogram of latencies to a sink. After a fault the sink has taken a prefix of it.
fn write_histogram<S: Sink>(counts: &[LatencyCount], sink: &mut S) -> Result<(), SinkFault>
    ensures ok { OnOk result (S.taken sink.new ≡ S.taken sink.old ++ histogram_text counts.now) }
    ensures still { OnOk result (S.failures sink.new ≡ S.failures sink.old) }
    ensures err { OnErr result (TakesPrefix (histogram_text counts.now) (S.taken sink.old)
        (S.taken sink.new)) }
    ensures counted { OnErr result (S.failures sink.new ≡ S.failures sink.old + 1) }
{
    let mut buffer = TextBuffer::new(sink);
    put_histogram(&mut buffer, counts);
    buffer.finish()
}

/// Writes a histogram of latencies.
fn put_histogram<S: Sink>(buffer: &mut TextBuffer<'_, S>, counts: &[LatencyCount])
    ensures { Writes S.taken S.failures (histogram_text counts.now) buffer.old buffer.new }
{
    buffer.put(b"latency,answered\n");
    put_bars(buffer, counts);
}

/// Writes the rows of latencies.
fn put_bars<S: Sink>(buffer: &mut TextBuffer<'_, S>, counts: &[LatencyCount])
    ensures { Writes S.taken S.failures (flat_map count_row counts.now) buffer.old buffer.new }
{
    for count in counts {
        put_numbers(buffer, count.latency, &[count.answered]);
    }
}
