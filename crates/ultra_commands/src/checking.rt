//! The command `check`: it judges whether a list is a serial order of a run.

ghost use Rattle.std.specs.Prelude.{◌≡◌, ◌+◌, IfErr, IfOk, OnOk};
ghost use Rattle.ultra_inputs.specs.{Failure.{read_failures, write_failures}, Traffic.traffic};
ghost use Rattle.ultra_commands.specs.Check.{failure_of_verdict, CheckFails, ExplainsList, IsListOf, WroteLegal};

use crate::third_file::{ThirdFile, read_three};
use std::alloc::Global;
use ultra_inputs::{Failure, Inputs};
use ultra_io::Source;
use ultra_list::{ListFault, read_list};
use ultra_model::Config;
use ultra_msg::Sink;
use ultra_serial::SerialList;
use ultra_verdict::{VerdictFault, write_verdict};

/// The list of entries that a file holds.
#[derive(Drop)]
pub struct ListedEntries {
    /// The entries, in their order.
    pub list: SerialList,
}

impl ThirdFile for ListedEntries {
    ghost gives = { λ _. IsListOf };

    ghost explains = { λ _. ExplainsList };

    fn accept<'p>(
        alloc: Global,
        _config: &Config,
        path: &'p str,
        bytes: &[u8],
    ) -> Result<Self, Failure<'p>> {
        match read_list(alloc, bytes) {
            Ok(list) => Ok(ListedEntries { list }),
            Err(ListFault::NoMemory) => Err(Failure::NoMemory),
            Err(ListFault::NotAnEntry(line)) => Err(Failure::NotAnEntry { path, line }),
        }
    }
}

/// Reads settings, a program and a list, and writes to `out` the line that says whether the list is
/// a serial order of the run, or else its first breach. Each file is accepted before the next is
/// read, and all before a byte is written. `NotLegal` says that the list isn't one.
pub(crate) fn check<'p, F: Source, O: Sink>(
    alloc: Global,
    settings_path: &'p str,
    program_path: &'p str,
    list_path: &'p str,
    source: &mut F,
    out: &mut O,
) -> Result<(), Failure<'p>>
    ensures ok { OnOk result (WroteLegal settings_path.now program_path.now list_path.now
        (traffic (F.files source.old) (O.taken out.old))
        (traffic (F.files source.new) (O.taken out.new))) }
    ensures err { IfErr result (CheckFails settings_path.now program_path.now list_path.now
        (traffic (F.files source.old) (O.taken out.old))
        (traffic (F.files source.new) (O.taken out.new))) }
    ensures read_still { OnOk result (F.failures source.new ≡ F.failures source.old) }
    ensures read_counted { IfErr result
        (λ f. F.failures source.new ≡ F.failures source.old + read_failures f) }
    ensures write_still { OnOk result (O.failures out.new ≡ O.failures out.old) }
    ensures write_counted { IfErr result
        (λ f. O.failures out.new ≡ O.failures out.old + write_failures f) }
{
    let (inputs, entries) = read_three(alloc, settings_path, program_path, list_path, source)?;
    let Inputs { config, program } = &inputs;
    let ListedEntries { list } = &entries;
    match write_verdict(alloc, config, program, list.as_slice(), out) {
        Ok(true) => Ok(()),
        Ok(false) => Err(Failure::NotLegal),
        Err(fault) => Err(failure_of_verdict(fault)),
    }
}

/// The command's failure for a fault of the verdict.
fn failure_of_verdict<'p>(fault: VerdictFault) -> Failure<'p>
    ensures { result ≡ failure_of_verdict fault }
{
    match fault {
        VerdictFault::Write => Failure::NotWritten,
        VerdictFault::NoMemory => Failure::NoMemory,
    }
}
