//! The commands whose output is a text of a run.

ghost use Rattle.std.specs.Prelude.{◌≡◌, ◌+◌, ◌++◌, ℕ, List, IfErr, OnErr, OnOk};
ghost use Rattle.ultra_msg.specs.Bytes.{TakesPrefix};
ghost use Rattle.ultra_isa.specs.declared.Instr.{Instr};
ghost use Rattle.ultra_model.specs.Machine.{Settings};
ghost use Rattle.ultra_inputs.specs.{Failure.{read_failures, write_failures}, Traffic.{traffic, IsStopped, WroteText, TextFails}};

use std::alloc::Global;
use ultra_inputs::{Failure, Inputs, read_inputs};
use ultra_io::Source;
use ultra_isa::Program;
use ultra_model::Config;
use ultra_msg::Sink;

/// What a command writes of a run.
pub(crate) trait RunOutput {
    ghost text: { Self → Settings → List Instr → List ℕ };

    /// Runs a program on a machine of these settings, and writes the text of the run to a sink. An
    /// error says why the text ended early. The sink has then taken a prefix of it.
    fn write<'p, S: Sink>(
        &self,
        alloc: Global,
        config: &Config,
        program: &Program,
        sink: &mut S,
    ) -> Result<(), Failure<'p>>
        ensures ok { OnOk result
            (S.taken sink.new ≡ S.taken sink.old ++ text self.now config.now program.now) }
        ensures err { OnErr result (TakesPrefix (text self.now config.now program.now)
            (S.taken sink.old) (S.taken sink.new)) }
        ensures stopped { IfErr result IsStopped }
        ensures still { OnOk result (S.failures sink.new ≡ S.failures sink.old) }
        ensures counted { IfErr result
            (λ f. S.failures sink.new ≡ S.failures sink.old + write_failures f) };
}

/// Reads settings and a program, and writes a text of the run to `out`. Each file is accepted
/// before the next is read, and both before a byte is written.
///
/// What is held doesn't grow with the run. An error says what failed. `out` has then taken a prefix
/// of the text, and nothing where a file was refused.
pub(crate) fn write_run_output<'p, T: RunOutput, F: Source, O: Sink>(
    alloc: Global,
    settings_path: &'p str,
    program_path: &'p str,
    text: &T,
    source: &mut F,
    out: &mut O,
) -> Result<(), Failure<'p>>
    ensures ok { OnOk result (WroteText (T.text text.now) settings_path.now program_path.now
        (traffic (F.files source.old) (O.taken out.old))
        (traffic (F.files source.new) (O.taken out.new))) }
    ensures err { IfErr result (TextFails (T.text text.now) IsStopped settings_path.now
        program_path.now (traffic (F.files source.old) (O.taken out.old))
        (traffic (F.files source.new) (O.taken out.new))) }
    ensures read_still { OnOk result (F.failures source.new ≡ F.failures source.old) }
    ensures read_counted { IfErr result
        (λ f. F.failures source.new ≡ F.failures source.old + read_failures f) }
    ensures write_still { OnOk result (O.failures out.new ≡ O.failures out.old) }
    ensures write_counted { IfErr result
        (λ f. O.failures out.new ≡ O.failures out.old + write_failures f) }
{
    let inputs = read_inputs(alloc, settings_path, program_path, source)?;
    let Inputs { config, program } = &inputs;
    text.write(alloc, config, program, out)
}
