//! A run by several workers, and text that is written of it.

ghost use Rattle.std.specs.Prelude.{◌≡◌, ℕ, ◌+◌, ◌≤◌, ◌++◌, [], false, true, Err, OnOk, OnErr, IfOk, IfErr};
ghost use Rattle.std.specs.Result.{ForOk};
ghost use Rattle.ultra_msg.specs.Bytes.{TakesPrefix};
ghost use Rattle.ultra_io.specs.TextBuffer.{IsBlank, Writes, WritesPrefix, has_failed};
ghost use Rattle.ultra_model.specs.Trace.{by_number};
ghost use Rattle.ultra_crew.specs.ExpectedResults.{AreExpectedResults};
ghost use Rattle.ultra_trace_alone.specs.{declared.fault.RunFault.TheVariants.Write, Faults.sink_faults, BlocksAfter.IsAfter, Dealt.IsDealtOut, RunText.{cycles_for, run_text}};
ghost use Rattle.ultra_trace.specs.Faults.{fault_of_crew};

use std::alloc::Global;
use std::marker::Brand;
use std::sync::Wait;
use std::thread::{self, Threads};
use ultra_crew::{Blocks, CrewFault, ExpectedResults, Gate, WorkerPool};
use ultra_io::TextBuffer;
use ultra_msg::Sink;
use ultra_trace_alone::{RunFault, RunText, is_over, most_cycles};

/// Runs a machine from its start by workers, and writes text of its run to a sink. The workers'
/// threads are kept for the whole run, and joined at its end. After a fault the sink has taken a
/// prefix of the text.
pub fn write_run_together<R: Threads + Wait + Sync, G: Gate + Sync, T: RunText, S: Sink>(
    rt: &R,
    alloc: Global,
    blocks: Blocks,
    workers: usize,
    gate: &G,
    text: T,
    sink: &mut S,
) -> Result<(), RunFault>
    requires some_worker { 1 ≤ workers }
    requires start { IsAfter blocks.config blocks.program 0 blocks }
    requires takes { (count : ℕ) → T.takes count }
    requires ready { T.is_ready text blocks.config blocks.program 0 }
    requires dealt { IsDealtOut workers blocks.partition }
    ensures ok { OnOk result (S.taken sink.new ≡ S.taken sink.old ++
        run_text (T.pieces text) blocks.config blocks.program) }
    ensures still { OnOk result (S.failures sink.new ≡ S.failures sink.old) }
    ensures err { OnErr result
        (TakesPrefix (run_text (T.pieces text) blocks.config blocks.program)
        (S.taken sink.old) (S.taken sink.new)) }
    ensures counted { IfErr result (λ e.
        S.failures sink.new ≡ S.failures sink.old + sink_faults e) }
{
    write_by_workers::<Brand, R, G, T, S>(rt, alloc, blocks, workers, gate, text, sink).1
}

/// Starts the workers to whom the units were dealt out, and has them run a machine from its start.
/// It writes text of the run to a sink, and gives the sink back. On every return path the threads
/// are joined.
fn write_by_workers<
    's,
    J: ExpectedResults + Send,
    R: Threads + Wait + Sync,
    G: Gate + Sync,
    T: RunText,
    S: Sink,
>(
    rt: &R,
    alloc: Global,
    blocks: Blocks,
    workers: usize,
    gate: &G,
    text: T,
    sink: &'s mut S,
) -> (&'s mut S, Result<(), RunFault>)
    requires some_worker { 1 ≤ workers }
    requires dealt { IsDealtOut workers blocks.partition }
    requires expected { AreExpectedResults J.results J.program workers blocks }
    requires start { IsAfter blocks.config blocks.program 0 blocks }
    requires takes { (count : ℕ) → T.takes count }
    requires ready { T.is_ready text blocks.config blocks.program 0 }
    ensures same_reference { result.0.ghost_name ≡ sink.entry.ghost_name }
    ensures ok { OnOk result.1 (S.taken result.0.now ≡ S.taken sink.entry.now ++
        run_text (T.pieces text) blocks.config blocks.program) }
    ensures still { OnOk result.1 (S.failures result.0.now ≡ S.failures sink.entry.now) }
    ensures err { OnErr result.1
        (TakesPrefix (run_text (T.pieces text) blocks.config blocks.program)
        (S.taken sink.entry.now) (S.taken result.0.now)) }
    ensures counted { IfErr result.1 (λ e.
        S.failures result.0.now ≡ S.failures sink.entry.now + sink_faults e) }
{
    thread::scope(
        thread::scope_env(),
        rt,
        move |scope| -> (&mut S, Result<(), RunFault>)
            requires some_worker { 1 ≤ workers }
            requires expected { AreExpectedResults J.results J.program workers blocks }
            requires start { IsAfter blocks.config blocks.program 0 blocks }
            requires takes { (count : ℕ) → T.takes count }
            requires ready { T.is_ready text blocks.config blocks.program 0 }
            ensures same_reference { result.0.ghost_name ≡ sink.entry.ghost_name }
            ensures ok { OnOk result.1 (S.taken result.0.now ≡ S.taken sink.entry.now ++
                run_text (T.pieces text) blocks.config blocks.program) }
            ensures still { OnOk result.1 (S.failures result.0.now ≡ S.failures sink.entry.now) }
            ensures err { OnErr result.1
                (TakesPrefix (run_text (T.pieces text) blocks.config blocks.program)
                (S.taken sink.entry.now) (S.taken result.0.now)) }
            ensures counted { IfErr result.1 (λ e.
                S.failures result.0.now ≡ S.failures sink.entry.now + sink_faults e) }
        {
            let started = WorkerPool::<J>::start(scope, rt, alloc, workers, gate);
            let result = write_by_started(rt, alloc, blocks, started, text, sink);
            (sink, result)
        },
    )
}

/// Runs a machine from its start by the workers of a pool that was just started, writes text of its
/// run to a sink, and lets the workers end. Why a pool couldn't be started is the run's fault.
/// After a fault the sink has taken a prefix of the text.
fn write_by_started<J: ExpectedResults, R: Threads + Wait, T: RunText, S: Sink>(
    rt: &R,
    alloc: Global,
    blocks: Blocks,
    started: Result<WorkerPool<J>, CrewFault>,
    text: T,
    sink: &mut S,
) -> Result<(), RunFault>
    requires some_worker { ForOk started (λ pool. 1 ≤ pool) }
    requires expected { ForOk started (λ pool. AreExpectedResults J.results J.program pool blocks) }
    requires start { IsAfter blocks.config blocks.program 0 blocks }
    requires takes { (count : ℕ) → T.takes count }
    requires ready { T.is_ready text blocks.config blocks.program 0 }
    ensures ok { OnOk result (S.taken sink.new ≡ S.taken sink.old ++
        run_text (T.pieces text) blocks.config blocks.program) }
    ensures still { OnOk result (S.failures sink.new ≡ S.failures sink.old) }
    ensures err { OnErr result
        (TakesPrefix (run_text (T.pieces text) blocks.config blocks.program)
        (S.taken sink.old) (S.taken sink.new)) }
    ensures counted { IfErr result (λ e.
        S.failures sink.new ≡ S.failures sink.old + sink_faults e) }
    ensures refused { IfErr started (λ e. result ≡ Err (fault_of_crew e)) }
{
    match started {
        Ok(pool) => {
            let result = write_by_pool(rt, alloc, blocks, &pool, text, sink);
            pool.stop(rt);
            result
        }
        Err(refused) => Err(fault_of_crew(refused)),
    }
}

/// Runs a machine from its start by the workers of a pool, and writes text of its run to a sink.
/// After a fault the sink has taken a prefix of it.
fn write_by_pool<J: ExpectedResults, R: Wait, T: RunText, S: Sink>(
    rt: &R,
    alloc: Global,
    blocks: Blocks,
    pool: &WorkerPool<J>,
    text: T,
    sink: &mut S,
) -> Result<(), RunFault>
    requires some_worker { 1 ≤ pool.now }
    requires expected { AreExpectedResults J.results J.program pool.now blocks }
    requires start { IsAfter blocks.config blocks.program 0 blocks }
    requires takes { (count : ℕ) → T.takes count }
    requires ready { T.is_ready text blocks.config blocks.program 0 }
    ensures ok { OnOk result (S.taken sink.new ≡ S.taken sink.old ++
        run_text (T.pieces text) blocks.config blocks.program) }
    ensures still { OnOk result (S.failures sink.new ≡ S.failures sink.old) }
    ensures err { OnErr result
        (TakesPrefix (run_text (T.pieces text) blocks.config blocks.program)
        (S.taken sink.old) (S.taken sink.new)) }
    ensures counted { IfErr result (λ e.
        S.failures sink.new ≡ S.failures sink.old + sink_faults e) }
{
    let mut buffer = TextBuffer::new(sink);
    let made = put_text_together(&mut buffer, rt, alloc, blocks, pool, text);
    finish_text(&mut buffer, made)
}

/// Ends a text whose cycles were made, or not, by workers: flushes what still waits. A fault of the
/// workers is the run's fault, and what waits is lost then.
fn finish_text<S: Sink>(
    buffer: &mut TextBuffer<'_, S>,
    made: Result<(), CrewFault>,
) -> Result<(), RunFault>
    ensures refused { IfErr made (λ e. result ≡ Err (fault_of_crew e)) }
    ensures left { OnErr made (buffer.new ≡ buffer.old) }
    ensures writes { OnOk made (Writes S.taken S.failures [] buffer.old buffer.new) }
    ensures ok { OnOk made (OnOk result (IsBlank buffer.new)) }
    ensures write { OnOk made (IfErr result (λ e. e ≡ Write)) }
    ensures err { OnOk made (OnErr result (has_failed buffer.new ≡ true)) }
{
    match made {
        Ok(()) => Ok(buffer.finish()?),
        Err(fault) => Err(fault_of_crew(fault)),
    }
}

/// Runs a machine from its start by workers, and writes text of its run. It ends early where the
/// sink or a worker fails.
fn put_text_together<J: ExpectedResults, R: Wait, T: RunText, S: Sink>(
    buffer: &mut TextBuffer<'_, S>,
    rt: &R,
    alloc: Global,
    blocks: Blocks,
    pool: &WorkerPool<J>,
    mut text: T,
) -> Result<(), CrewFault>
    requires some_worker { 1 ≤ pool.now }
    requires expected { AreExpectedResults J.results J.program pool.now blocks }
    requires start { IsAfter blocks.config blocks.program 0 blocks }
    requires takes { (count : ℕ) → T.takes count }
    requires ready { T.is_ready text blocks.config blocks.program 0 }
    requires sound { has_failed buffer.old ≡ false }
    ensures ok { OnOk result (Writes S.taken S.failures
        (run_text (T.pieces text) blocks.config blocks.program)
        buffer.old buffer.new) }
    ensures err { OnErr result (WritesPrefix S.taken S.failures
        (run_text (T.pieces text) blocks.config blocks.program)
        buffer.old buffer.new) }
    ensures sound { OnErr result (has_failed buffer.new ≡ false) }
{
    text.put_opening(buffer);
    if buffer.has_failed() {
        return Ok(());
    }
    let blocks = put_cycles_together(buffer, rt, alloc, blocks, pool, &mut text)?;
    if buffer.has_failed() {
        return Ok(());
    }
    text.put_closing(buffer, &blocks);
    Ok(())
}

/// Runs a machine from its start to the end of its trace by workers, or to the last cycle that the
/// text needs, and writes the lines of these cycles. It ends early where the sink or a worker
/// fails.
fn put_cycles_together<J: ExpectedResults, R: Wait, T: RunText, S: Sink>(
    buffer: &mut TextBuffer<'_, S>,
    rt: &R,
    alloc: Global,
    mut blocks: Blocks,
    pool: &WorkerPool<J>,
    text: &mut T,
) -> Result<Blocks, CrewFault>
    requires some_worker { 1 ≤ pool.now }
    requires expected { AreExpectedResults J.results J.program pool.now blocks }
    requires start { IsAfter blocks.config blocks.program 0 blocks }
    requires takes { (count : ℕ) → T.takes count }
    requires ready { T.is_ready text.old blocks.config blocks.program 0 }
    requires sound { has_failed buffer.old ≡ false }
    ensures writes { OnOk result (Writes S.taken S.failures
        (by_number (cycles_for blocks.config blocks.program (T.pieces text.old).last)
        ((T.pieces text.old).lines blocks.config blocks.program)) buffer.old buffer.new) }
    ensures same { OnOk result (T.pieces text.new ≡ T.pieces text.old) }
    ensures end { IfOk result (λ b. has_failed buffer.new ≡ false →
        IsAfter blocks.config blocks.program
        (cycles_for blocks.config blocks.program (T.pieces text.old).last) b) }
    ensures ready { OnOk result (has_failed buffer.new ≡ false → T.is_ready text.new blocks.config
        blocks.program (cycles_for blocks.config blocks.program (T.pieces text.old).last)) }
    ensures err { OnErr result (WritesPrefix S.taken S.failures
        (by_number (cycles_for blocks.config blocks.program (T.pieces text.old).last)
        ((T.pieces text.old).lines blocks.config blocks.program)) buffer.old buffer.new) }
    ensures sound { OnErr result (has_failed buffer.new ≡ false) }
{
    for cycle in 0..most_cycles(&blocks, text.last_cycle()) {
        blocks = pool.cycle(rt, alloc, blocks)?;
        text.put_lines(buffer, &blocks, cycle);
        if is_over(buffer, &blocks) {
            return Ok(blocks);
        }
    }
    Ok(blocks)
}

/// The fault of the run that a fault of the workers ends.
fn fault_of_crew(fault: CrewFault) -> RunFault
    ensures { result ≡ fault_of_crew fault }
{
    match fault {
        CrewFault::NoThread => RunFault::NoThread,
        CrewFault::NoMemory => RunFault::NoMemory,
    }
}
