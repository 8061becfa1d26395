//! Programs that several tests run.

ghost use Rattle.std.specs.Prelude.{◌<◌, ◌≡◌, IfOk};

use std::alloc::Global;
use std::test::Fail;
use ultra_isa::{Instr, Program};
use ultra_msg::Register;

/// The register of this number.
pub(crate) fn register(number: u8) -> Register
    requires { number < 16 }
    ensures { result ≡ number }
{
    Register::new(number).unwrap()
}

/// The program of these instructions.
pub(crate) fn program(list: Vec<Instr>) -> Result<Program, Fail>
    ensures { IfOk result (λ p. p ≡ list.items) }
{
    match Program::new(list) {
        Ok(program) => Ok(program),
        Err(_) => Err(Fail::from("no program")),
    }
}

/// Each processing element adds 1 to cell 0.
pub(crate) fn add_one(alloc: Global) -> Result<Program, Fail> {
    let (address, one, old) = (register(1), register(2), register(3));
    program(vec![in alloc;
        Instr::Set(address, 0),
        Instr::Set(one, 1),
        Instr::Faa(old, address, one),
        Instr::Halt,
    ]?)
}

/// Each processing element adds its number and 1 to cell 0.
pub(crate) fn add_number(alloc: Global) -> Result<Program, Fail> {
    let (zero, number, old) = (register(0), register(2), register(3));
    program(vec![in alloc;
        Instr::Number(number),
        Instr::AddWord(number, number, 1),
        Instr::Faa(old, zero, number),
        Instr::Halt,
    ]?)
}
