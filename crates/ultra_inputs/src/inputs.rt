//! The files that a command reads, each accepted or refused.

ghost use Rattle.std.specs.Prelude.{◌≡◌, ◌+◌, [], ◌∷◌, ◌++◌, IfOk, IfErr, OnOk, OnErr};
ghost use Rattle.ultra_io.specs.Source.{file_of};
ghost use Rattle.ultra_inputs.specs.Failure.{read_failures};
ghost use Rattle.ultra_inputs.specs.Inputs.{IsAccepted, IsProgramOf, IsUnread, ExplainsSettings, ExplainsProgram, FileGave, FileGaveNothing, Gave, GaveNothing};

use crate::failure::Failure;
use std::alloc::Global;
use std::str;
use ultra_asm::{AsmFault, AsmFaultKind, assemble};
use ultra_io::{Source, SourceFault};
use ultra_isa::Program;
use ultra_model::Config;
use ultra_settings::{SettingsFault, settings_from};

/// The settings and the program that two files give.
#[derive(Drop)]
pub struct Inputs {
    /// The settings of the machine.
    pub config: Config,
    /// The program of the processing elements.
    pub program: Program,
}

/// Reads the settings and the program from the files at two paths. The settings are accepted before
/// the program is read. An error says which file was refused and why, or that memory was refused.
pub fn read_inputs<'p, F: Source>(
    alloc: Global,
    settings_path: &'p str,
    program_path: &'p str,
    source: &mut F,
) -> Result<Inputs, Failure<'p>>
    ensures ok { IfOk result (λ inputs. Gave settings_path.now program_path.now
        (F.files source.old) (F.files source.new) inputs.config inputs.program) }
    ensures err { IfErr result
        (GaveNothing settings_path.now program_path.now (F.files source.old) (F.files source.new)) }
    ensures still { OnOk result (F.failures source.new ≡ F.failures source.old) }
    ensures counted { IfErr result
        (λ f. F.failures source.new ≡ F.failures source.old + read_failures f) }
{
    let config = read_settings(alloc, settings_path, source)?;
    let program = read_program(alloc, program_path, source)?;
    Ok(Inputs { config, program })
}

/// Reads the settings from the file at a path.
fn read_settings<'p, F: Source>(
    alloc: Global,
    path: &'p str,
    source: &mut F,
) -> Result<Config, Failure<'p>>
    ensures ok { IfOk result
        (FileGave IsAccepted path.now (F.files source.old) (F.files source.new)) }
    ensures err { IfErr result
        (FileGaveNothing ExplainsSettings path.now (F.files source.old) (F.files source.new)) }
    ensures still { OnOk result (F.failures source.new ≡ F.failures source.old) }
    ensures counted { IfErr result
        (λ f. F.failures source.new ≡ F.failures source.old + read_failures f) }
{
    let text = read_file(alloc, path, source)?;
    accept_settings(alloc, path, text.as_slice())
}

/// Reads the program from the file at a path. An error says why the file was refused, or that
/// memory was refused.
pub fn read_program<'p, F: Source>(
    alloc: Global,
    path: &'p str,
    source: &mut F,
) -> Result<Program, Failure<'p>>
    ensures ok { IfOk result
        (FileGave IsProgramOf path.now (F.files source.old) (F.files source.new)) }
    ensures err { IfErr result
        (FileGaveNothing ExplainsProgram path.now (F.files source.old) (F.files source.new)) }
    ensures still { OnOk result (F.failures source.new ≡ F.failures source.old) }
    ensures counted { IfErr result
        (λ f. F.failures source.new ≡ F.failures source.old + read_failures f) }
{
    let text = read_file(alloc, path, source)?;
    accept_program(alloc, path, text.as_slice())
}

/// Reads all bytes of the file at a path. `NotRead` says that it can't be read, and `NoMemory` that
/// memory was refused.
pub fn read_file<'p, F: Source>(
    alloc: Global,
    path: &'p str,
    source: &mut F,
) -> Result<Vec<u8>, Failure<'p>>
    ensures ok { IfOk result
        (λ v. F.files source.new ≡ F.files source.old ++ file_of path.now v.items ∷ []) }
    ensures still { OnOk result (F.failures source.new ≡ F.failures source.old) }
    ensures err { IfErr result (IsUnread path.now) }
    ensures none { OnErr result (F.files source.new ≡ F.files source.old) }
    ensures counted { IfErr result
        (λ f. F.failures source.new ≡ F.failures source.old + read_failures f) }
{
    match source.read(alloc, path) {
        Ok(bytes) => Ok(bytes),
        Err(SourceFault::NotRead) => Err(Failure::NotRead(path)),
        Err(SourceFault::NoMemory) => Err(Failure::NoMemory),
    }
}

/// The settings that the bytes of a file give, once they are accepted.
fn accept_settings<'p>(alloc: Global, path: &'p str, bytes: &[u8]) -> Result<Config, Failure<'p>>
    ensures ok { IfOk result (IsAccepted bytes.now) }
    ensures err { IfErr result (ExplainsSettings path.now bytes.now) }
{
    match settings_from(alloc, bytes) {
        Ok(config) => Ok(config),
        Err(SettingsFault::NoMemory) => Err(Failure::NoMemory),
        Err(SettingsFault::NotToml) => Err(Failure::NotToml(path)),
        Err(SettingsFault::BadField(field)) => Err(Failure::BadField(path, field)),
        Err(SettingsFault::UnknownKey) => Err(Failure::UnknownKey(path)),
    }
}

/// The program that the bytes of a file are assembled to.
fn accept_program<'p>(alloc: Global, path: &'p str, bytes: &[u8]) -> Result<Program, Failure<'p>>
    ensures ok { IfOk result (IsProgramOf bytes.now) }
    ensures err { IfErr result (ExplainsProgram path.now bytes.now) }
{
    let Ok(text) = str::from_utf8(bytes) else {
        return Err(Failure::NotUtf8(path));
    };
    match assemble(alloc, text) {
        Ok(program) => Ok(program),
        Err(fault) if fault.kind == AsmFaultKind::NoMemory => Err(Failure::NoMemory),
        Err(AsmFault { line, kind }) => Err(Failure::BadProgramLine { path, line, kind }),
    }
}
