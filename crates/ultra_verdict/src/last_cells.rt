//! The cells of a machine.

ghost use Rattle.std.specs.Prelude.{◌≡◌, IfOk};
ghost use Rattle.ultra_model.specs.{Shape.HasShape, Trace.cell_value};
ghost use Rattle.ultra_serial_law.specs.Legal.{given};

use std::alloc::{AllocError, Global};
use ultra_machine::Machine;
use ultra_msg::{Cell, Word};

/// The cells of a machine that don't hold 0, each by its address and value. An error says that
/// memory was refused.
pub(crate) fn last_cells(alloc: Global, machine: &Machine) -> Result<Vec<(Cell, Word)>, AllocError>
    requires { HasShape machine.now.settings machine.now.state }
    ensures { IfOk result
        (λ cells. given cells.items ≡ cell_value machine.now.settings machine.now.state) }
{
    let modules = machine.config().net().size();
    let mut cells = Vec::new(alloc);
    for cell in 0..machine.config().all_cells() {
        let module = machine.memory_module(cell % modules);
        let word = module.peek(cell / modules).unwrap_or(0);
        if word != 0 {
            cells.push((cell, word))?;
        }
    }
    Ok(cells)
}
