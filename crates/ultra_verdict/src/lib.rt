//! The verdict on a serial list: it is legal for a run, or what its first breach is. The line that
//! says so is this project's profile.
#![tactic(auto)]

mod fault;
mod judging;
mod last_cells;
mod searching;
mod verdict;
mod writing;

ghost use Rattle.std.specs.Prelude.{◌≡◌, ◌+◌, ◌↔◌, true, IfErr, IfOk, OnOk};
ghost use Rattle.ultra_verdict.specs.{Faults.{IsVerdictWritten, VerdictFails, failures_of_verdict}, Judged.IsLegalFor};

pub use fault::VerdictFault;
pub use judging::judge;
use std::alloc::Global;
use ultra_isa::Program;
use ultra_machine::Config;
use ultra_msg::Sink;
use ultra_serial_law::Entry;
pub use verdict::Verdict;

/// Writes the verdict on a list for a run, and says whether the list is legal: `legal`, or a line
/// that says what its first breach is. The run has the cycles of its trace.
///
/// `NoMemory` says that memory was refused; it is asked for only before the first byte is written.
/// `Write` says that the sink failed; it has then taken a prefix of the line.
pub fn write_verdict<S: Sink>(
    alloc: Global,
    config: &Config,
    program: &Program,
    list: &[Entry],
    sink: &mut S,
) -> Result<bool, VerdictFault>
    ensures ok { IfOk result
        (IsVerdictWritten config.now program.now list.now (S.taken sink.old) (S.taken sink.new)) }
    ensures legal { IfOk result
        (λ legal. (legal ≡ true) ↔ IsLegalFor config.now program.now list.now) }
    ensures still { OnOk result (S.failures sink.new ≡ S.failures sink.old) }
    ensures err { IfErr result
        (VerdictFails config.now program.now list.now (S.taken sink.old) (S.taken sink.new)) }
    ensures counted { IfErr result
        (λ fault. S.failures sink.new ≡ S.failures sink.old + failures_of_verdict fault) }
{
    let verdict = judge(alloc, config, program, list)?;
    writing::write_line(&verdict, sink)?;
    Ok(verdict.is_legal())
}
