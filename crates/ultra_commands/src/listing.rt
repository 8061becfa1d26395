//! The command `list`: it writes the canonical text of a program.

ghost use Rattle.std.specs.Prelude.{◌≡◌, ◌+◌, true, is_none, IfErr, IfSome, OnOk};
ghost use Rattle.ultra_para.specs.Careful.{is_careful, IsFirstUnfenced};
ghost use Rattle.ultra_inputs.specs.{Failure.{read_failures, write_failures}, Traffic.traffic};
ghost use Rattle.ultra_commands.specs.Listing.{WroteListing, ListFails};

use std::alloc::Global;
use ultra_asm::listing;
use ultra_inputs::{Failure, read_program};
use ultra_io::Source;
use ultra_isa::Program;
use ultra_msg::Sink;
use ultra_para::first_unfenced;

/// Reads a program and writes its canonical text to `out`. The file is accepted before a byte is
/// written. With `careful` the program is judged after that: `NotFenced` names its first
/// instruction that refers to a cell and isn't directly followed by `fence`.
pub(crate) fn list<'p, F: Source, O: Sink>(
    alloc: Global,
    program_path: &'p str,
    careful: bool,
    source: &mut F,
    out: &mut O,
) -> Result<(), Failure<'p>>
    ensures ok { OnOk result
        (WroteListing program_path.now careful (traffic (F.files source.old) (O.taken out.old))
        (traffic (F.files source.new) (O.taken out.new))) }
    ensures err { IfErr result
        (ListFails program_path.now careful (traffic (F.files source.old) (O.taken out.old))
        (traffic (F.files source.new) (O.taken out.new))) }
    ensures read_still { OnOk result (F.failures source.new ≡ F.failures source.old) }
    ensures read_counted { IfErr result
        (λ f. F.failures source.new ≡ F.failures source.old + read_failures f) }
    ensures write_still { OnOk result (O.failures out.new ≡ O.failures out.old) }
    ensures write_counted { IfErr result
        (λ f. O.failures out.new ≡ O.failures out.old + write_failures f) }
{
    let program = read_program(alloc, program_path, source)?;
    let Ok(()) = listing(&program, out) else {
        return Err(Failure::NotWritten);
    };
    match unfenced_if(&program, careful) {
        Some(instruction) => Err(Failure::NotFenced {
            path: program_path,
            instruction,
        }),
        None => Ok(()),
    }
}

/// The first instruction of a program that isn't followed by its fence, if that is asked and there
/// is one.
fn unfenced_if(program: &Program, careful: bool) -> Option<usize>
    ensures some { IfSome result (λ k. (careful ≡ true) × IsFirstUnfenced program.now k) }
    ensures none { is_none result ≡ true → careful ≡ true → is_careful program.now ≡ true }
{
    if careful {
        first_unfenced(program)
    } else {
        None
    }
}
