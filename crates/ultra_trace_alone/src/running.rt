//! A run in the caller's thread: the trace, a part of it, or another text of the run.

ghost use Rattle.std.specs.Prelude.{◌≡◌, ◌≢◌, ◌+◌, List, ℕ, ◌++◌, OnOk, OnErr, IfErr};
ghost use Rattle.ultra_msg.specs.Bytes.{TakesPrefix};
ghost use Rattle.ultra_model.specs.Trace.{trace};
ghost use Rattle.ultra_trace_alone.specs.{declared.fault.RunFault.TheVariants.{NoMemory, NoThread}, Faults.sink_faults, Headline.Headline, Part.part_of, RunText.run_text};

use crate::alone::write_text;
use crate::fault::RunFault;
use crate::part::TracePart;
use crate::text::RunText;
use std::alloc::Global;
use ultra_block::Blocks;
use ultra_isa::Program;
use ultra_model::Config;
use ultra_msg::Sink;

/// Runs a program on a machine of these settings in the caller's thread, and writes the trace to
/// the sink. After a fault the sink has taken a prefix of it.
///
/// With `Ok` the whole headline holds (`Headline`). What was written is exactly the trace. The
/// serial lists of this run are a chain of legal lists. The replies that the trace shows are the
/// answers that these lists explain.
///
/// `Write` says that the sink failed, and `NoMemory` that memory was refused; it is asked for only
/// before the first byte is written. Never returns `NoThread`.
pub fn run_alone<S: Sink>(
    alloc: Global,
    config: &Config,
    program: &Program,
    sink: &mut S,
) -> Result<(), RunFault>
    ensures headline { OnOk result ((written : List ℕ) ×
        (S.taken sink.new ≡ S.taken sink.old ++ written) ×
        Headline config.now program.now written) }
    ensures ok { OnOk result (S.taken sink.new ≡ S.taken sink.old ++ trace config.now program.now) }
    ensures still { OnOk result (S.failures sink.new ≡ S.failures sink.old) }
    ensures err { OnErr result
        (TakesPrefix (trace config.now program.now) (S.taken sink.old) (S.taken sink.new)) }
    ensures counted { IfErr result (λ e.
        S.failures sink.new ≡ S.failures sink.old + sink_faults e) }
    ensures alone { IfErr result (λ e. e ≢ NoThread) }
    ensures memory_first { IfErr result (λ e. e ≡ NoMemory → S.taken sink.new ≡ S.taken sink.old) }
{
    // for the prover: the settings are in their ranges
    let _valid = config.initial();
    run_part_alone(alloc, config, program, TracePart::whole(), sink)
}

/// Runs a program on a machine of these settings in the caller's thread, and writes a part of the
/// trace to the sink. After a fault the sink has taken a prefix of it. Cycles that aren't in the
/// part take no time for text.
///
/// The faults are those of `run_alone`.
pub fn run_part_alone<S: Sink>(
    alloc: Global,
    config: &Config,
    program: &Program,
    part: TracePart,
    sink: &mut S,
) -> Result<(), RunFault>
    ensures ok { OnOk result
        (S.taken sink.new ≡ S.taken sink.old ++ part_of part config.now program.now) }
    ensures still { OnOk result (S.failures sink.new ≡ S.failures sink.old) }
    ensures err { OnErr result
        (TakesPrefix (part_of part config.now program.now) (S.taken sink.old) (S.taken sink.new)) }
    ensures counted { IfErr result (λ e.
        S.failures sink.new ≡ S.failures sink.old + sink_faults e) }
    ensures alone { IfErr result (λ e. e ≢ NoThread) }
    ensures memory_first { IfErr result (λ e. e ≡ NoMemory → S.taken sink.new ≡ S.taken sink.old) }
{
    write_run(alloc, config, program, part, sink)
}

/// Runs a program on a machine of these settings, in one block, in the caller's thread, and writes
/// text of the run to the sink. After a fault the sink has taken a prefix of it.
///
/// The faults are those of `run_alone`.
pub fn write_run<T: RunText, S: Sink>(
    alloc: Global,
    config: &Config,
    program: &Program,
    mut text: T,
    sink: &mut S,
) -> Result<(), RunFault>
    requires takes { T.takes 1 }
    requires ready { T.is_ready text config.now program.now 0 }
    ensures ok { OnOk result (S.taken sink.new ≡
        S.taken sink.old ++ run_text (T.pieces text) config.now program.now) }
    ensures still { OnOk result (S.failures sink.new ≡ S.failures sink.old) }
    ensures err { OnErr result
        (TakesPrefix (run_text (T.pieces text) config.now program.now) (S.taken sink.old)
        (S.taken sink.new)) }
    ensures counted { IfErr result (λ e.
        S.failures sink.new ≡ S.failures sink.old + sink_faults e) }
    ensures alone { IfErr result (λ e. e ≢ NoThread) }
    ensures memory_first { IfErr result (λ e. e ≡ NoMemory → S.taken sink.new ≡ S.taken sink.old) }
{
    let mut blocks = Blocks::in_one_block(alloc, config, program)?;
    write_text(&mut blocks, &mut text, sink)?;
    Ok(())
}
