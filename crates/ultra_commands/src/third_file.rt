//! Commands that read a third file beside settings and a program.

ghost use Rattle.std.specs.Prelude.{◌≡◌, ◌+◌, ℕ, List, IfErr, IfOk, OnOk};
ghost use Rattle.ultra_model.specs.Machine.{Settings};
ghost use Rattle.ultra_inputs.specs.{declared.failure.Failure.Failure, Failure.read_failures, Inputs.{FileGave, FileGaveNothing}};
ghost use Rattle.ultra_commands.specs.ThirdFile.{GaveThree, GaveNoThree};

use std::alloc::Global;
use ultra_inputs::{Failure, Inputs, read_file, read_inputs};
use ultra_io::Source;
use ultra_model::Config;

/// What the third file of a command gives.
pub(crate) trait ThirdFile: Sized {
    ghost gives: { Settings → List ℕ → Self → Type 0 };

    ghost explains: { Settings → List ℕ → List ℕ → Failure → Type 0 };

    /// What the bytes of a file give for these settings, once they are accepted. An error says why
    /// they are refused, or that memory was refused.
    fn accept<'p>(
        alloc: Global,
        config: &Config,
        path: &'p str,
        bytes: &[u8],
    ) -> Result<Self, Failure<'p>>
        ensures ok { IfOk result (gives config.now bytes.now) }
        ensures err { IfErr result (explains config.now path.now bytes.now) }
        ensures unread { IfErr result (λ f. read_failures f ≡ 0) };
}

/// Reads the settings, the program and the third file at three paths. Each file is accepted before
/// the next is read. An error says which file was refused and why, or that memory was refused.
pub(crate) fn read_three<'p, T: ThirdFile, F: Source>(
    alloc: Global,
    settings_path: &'p str,
    program_path: &'p str,
    third_path: &'p str,
    source: &mut F,
) -> Result<(Inputs, T), Failure<'p>>
    ensures ok { IfOk result (λ r. GaveThree T.gives settings_path.now program_path.now
        third_path.now (F.files source.old) (F.files source.new) r.0.config r.0.program r.1) }
    ensures err { IfErr result (GaveNoThree T.explains settings_path.now program_path.now
        third_path.now (F.files source.old) (F.files source.new)) }
    ensures still { OnOk result (F.failures source.new ≡ F.failures source.old) }
    ensures counted { IfErr result
        (λ f. F.failures source.new ≡ F.failures source.old + read_failures f) }
{
    let inputs = read_inputs(alloc, settings_path, program_path, source)?;
    let third = read_third(alloc, &inputs.config, third_path, source)?;
    Ok((inputs, third))
}

/// Reads the third file at a path.
fn read_third<'p, T: ThirdFile, F: Source>(
    alloc: Global,
    config: &Config,
    path: &'p str,
    source: &mut F,
) -> Result<T, Failure<'p>>
    ensures ok { IfOk result
        (FileGave (T.gives config.now) path.now (F.files source.old) (F.files source.new)) }
    ensures err { IfErr result (FileGaveNothing (T.explains config.now) path.now
        (F.files source.old) (F.files source.new)) }
    ensures still { OnOk result (F.failures source.new ≡ F.failures source.old) }
    ensures counted { IfErr result
        (λ f. F.failures source.new ≡ F.failures source.old + read_failures f) }
{
    let bytes = read_file(alloc, path, source)?;
    T::accept(alloc, config, path, bytes.as_slice())
}
