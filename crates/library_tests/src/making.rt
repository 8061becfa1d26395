//! Registers and programs.

ghost use Rattle.std.specs.Prelude.{◌<◌};

use std::test::Fail;
use ultra_isa::{Instr, Program};
use ultra_msg::Register;

/// A register.
pub(crate) fn register(number: u8) -> Register
    requires { number < 16 }
{
    Register::new(number).unwrap()
}

/// The program of these instructions.
pub(crate) fn program(list: Vec<Instr>) -> Result<Program, Fail> {
    match Program::new(list) {
        Ok(program) => Ok(program),
        Err(_) => Err(Fail::from("no program")),
    }
}
