//! The trace of a run by n workers, whole or in part: in the caller's thread for one
//! (`ultra_trace_alone`), and else in a thread for each.

ghost use Rattle.std.specs.Prelude.{◌≡◌, ◌≢◌, ◌+◌, ◌≤◌, List, ℕ, ◌++◌, OnOk, OnErr, IfErr};
ghost use Rattle.ultra_msg.specs.Bytes.{TakesPrefix};
ghost use Rattle.ultra_model.specs.Trace.{trace};
ghost use Rattle.ultra_trace_alone.specs.{declared.fault.RunFault.TheVariants.{NoMemory, NoThread}, Faults.sink_faults, Headline.Headline, Part.part_of, RunText.run_text};

use crate::together::write_run_together;
use std::alloc::Global;
use std::sync::Wait;
use std::thread::Threads;
use ultra_crew::Gate;
use ultra_isa::Program;
use ultra_model::Config;
use ultra_msg::Sink;
use ultra_trace_alone::{RunFault, RunText, TracePart, new_blocks, run_part_alone};

/// Runs a program on a machine of these settings by n workers, 1 to 64, and writes the trace to the
/// sink. The bytes are the same for every number of workers and every gate. After a fault the sink
/// has taken a prefix of them.
///
/// With `Ok` the whole headline holds (`Headline`). What was written is exactly the trace. The
/// serial lists of this run are a chain of legal lists. The replies that the trace shows are the
/// answers that these lists explain.
///
/// Unit `u` of the machine is in block `u` modulo the number of workers. With one worker the run is
/// in the caller's thread, and no gate is called. With several workers, each has its own thread,
/// which is started once and kept for all cycles, and memory is asked for in each cycle. The call
/// may wait. On every return path the threads that were started are joined.
///
/// `Write` says that the sink failed, and `NoMemory` that memory was refused. `NoThread` says that
/// a thread could not be started or died before finishing; with one worker it is never answered.
pub fn run<R: Threads + Wait + Sync, G: Gate + Sync, S: Sink>(
    rt: &R,
    alloc: Global,
    config: &Config,
    program: &Program,
    workers: usize,
    gate: &G,
    sink: &mut S,
) -> Result<(), RunFault>
    requires some_worker { 1 ≤ workers }
    requires most_workers { workers ≤ 64 }
    ensures headline { OnOk result ((written : List ℕ) ×
        (S.taken sink.new ≡ S.taken sink.old ++ written) ×
        Headline config.now program.now written) }
    ensures ok { OnOk result (S.taken sink.new ≡ S.taken sink.old ++ trace config.now program.now) }
    ensures still { OnOk result (S.failures sink.new ≡ S.failures sink.old) }
    ensures err { OnErr result
        (TakesPrefix (trace config.now program.now) (S.taken sink.old) (S.taken sink.new)) }
    ensures counted { IfErr result (λ e.
        S.failures sink.new ≡ S.failures sink.old + sink_faults e) }
    ensures alone { workers ≡ 1 → IfErr result (λ e. e ≢ NoThread) }
    ensures memory_first { workers ≡ 1 →
        IfErr result (λ e. e ≡ NoMemory → S.taken sink.new ≡ S.taken sink.old) }
{
    // for the prover: the settings are in their ranges
    let _valid = config.initial();
    let whole = TracePart::whole();
    run_part(rt, alloc, config, program, whole, workers, gate, sink)
}

/// Runs a program on a machine of these settings by n workers, 1 to 64, and writes a part of the
/// trace to the sink. The bytes are the same for every number of workers and every gate. After a
/// fault the sink has taken a prefix of them. Cycles that aren't in the part take no time for text.
///
/// The workers, their threads and the faults are those of `run`; with one worker the run is
/// `run_part_alone`.
pub fn run_part<R: Threads + Wait + Sync, G: Gate + Sync, S: Sink>(
    rt: &R,
    alloc: Global,
    config: &Config,
    program: &Program,
    part: TracePart,
    workers: usize,
    gate: &G,
    sink: &mut S,
) -> Result<(), RunFault>
    requires some_worker { 1 ≤ workers }
    requires most_workers { workers ≤ 64 }
    ensures ok { OnOk result
        (S.taken sink.new ≡ S.taken sink.old ++ part_of part config.now program.now) }
    ensures still { OnOk result (S.failures sink.new ≡ S.failures sink.old) }
    ensures err { OnErr result
        (TakesPrefix (part_of part config.now program.now) (S.taken sink.old) (S.taken sink.new)) }
    ensures counted { IfErr result (λ e.
        S.failures sink.new ≡ S.failures sink.old + sink_faults e) }
    ensures alone { workers ≡ 1 → IfErr result (λ e. e ≢ NoThread) }
    ensures memory_first { workers ≡ 1 →
        IfErr result (λ e. e ≡ NoMemory → S.taken sink.new ≡ S.taken sink.old) }
{
    if workers == 1 {
        run_part_alone(alloc, config, program, part, sink)
    } else {
        run_together(rt, alloc, config, program, workers, gate, part, sink)
    }
}

/// Runs a program on a machine of these settings by several workers, each in its own thread, and
/// writes text of the run to the sink. After a fault the sink has taken a prefix of it.
fn run_together<R: Threads + Wait + Sync, G: Gate + Sync, T: RunText, S: Sink>(
    rt: &R,
    alloc: Global,
    config: &Config,
    program: &Program,
    workers: usize,
    gate: &G,
    text: T,
    sink: &mut S,
) -> Result<(), RunFault>
    requires some_worker { 1 ≤ workers }
    requires most_workers { workers ≤ 64 }
    requires takes { (count : ℕ) → T.takes count }
    requires ready { T.is_ready text config.now program.now 0 }
    ensures ok { OnOk result (S.taken sink.new ≡
        S.taken sink.old ++ run_text (T.pieces text) config.now program.now) }
    ensures still { OnOk result (S.failures sink.new ≡ S.failures sink.old) }
    ensures err { OnErr result
        (TakesPrefix (run_text (T.pieces text) config.now program.now)
        (S.taken sink.old) (S.taken sink.new)) }
    ensures counted { IfErr result (λ e.
        S.failures sink.new ≡ S.failures sink.old + sink_faults e) }
{
    let blocks = new_blocks(alloc, config, program, workers as u8)?;
    write_run_together(rt, alloc, blocks, workers, gate, text, sink)
}
