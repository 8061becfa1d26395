//! The command `lib`: it writes the canonical text of a coordination program.

ghost use Rattle.std.specs.Prelude.{◌≡◌, ◌+◌, ◌↔◌, false, IfErr, IfOk, OnOk};
ghost use Rattle.ultra_inputs.specs.Failure.{write_failures};
ghost use Rattle.ultra_commands.specs.Coordination.{are_taken, program_of, LibFails, WroteProgram};

use std::alloc::Global;
use ultra_args::Coordination;
use ultra_asm::listing;
use ultra_colib::{
    ColibFault, barrier_program, gate_program, queue_program, rw_program, tickets_program,
};
use ultra_inputs::Failure;
use ultra_isa::Program;
use ultra_msg::Sink;

/// Writes the canonical text of a coordination program to `out`. The parameters are accepted before
/// a byte is written: `BadParameter` says that one is out of its range. After a failed write `out`
/// has taken a prefix of the text.
pub(crate) fn write_program<'p, O: Sink>(
    alloc: Global,
    coordination: Coordination,
    out: &mut O,
) -> Result<(), Failure<'p>>
    ensures ok { OnOk result (WroteProgram coordination (O.taken out.old) (O.taken out.new)) }
    ensures err { IfErr result (LibFails coordination (O.taken out.old) (O.taken out.new)) }
    ensures still { OnOk result (O.failures out.new ≡ O.failures out.old) }
    ensures counted { IfErr result
        (λ f. O.failures out.new ≡ O.failures out.old + write_failures f) }
{
    let program = match generate(alloc, coordination) {
        Ok(program) => program,
        Err(ColibFault::BadParameter) => return Err(Failure::BadParameter),
        Err(ColibFault::NoMemory) => return Err(Failure::NoMemory),
    };
    match listing(&program, out) {
        Ok(()) => Ok(()),
        Err(_) => Err(Failure::NotWritten),
    }
}

/// The program of these parameters.
fn generate(alloc: Global, coordination: Coordination) -> Result<Program, ColibFault>
    ensures program { IfOk result (λ p. p ≡ program_of coordination) }
    ensures parameters { (result ≡ Err ColibFault.BadParameter) ↔
        (are_taken coordination ≡ false) }
{
    match coordination {
        Coordination::Gate { bound, rounds } => gate_program(alloc, bound, rounds),
        Coordination::Queue { log_size, rounds } => queue_program(alloc, log_size, rounds),
        Coordination::ReadersWriters { writers, rounds } => rw_program(alloc, writers, rounds),
        Coordination::Barrier { rounds } => barrier_program(alloc, rounds),
        Coordination::Tickets { rounds } => tickets_program(alloc, rounds),
    }
}
