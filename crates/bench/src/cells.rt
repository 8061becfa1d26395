//! The cells of a machine.

use std::alloc::{AllocError, Global};
use ultra_crew::Blocks;
use ultra_machine::Machine;
use ultra_msg::{Cell, Word};

/// The address of the cell at this offset of a module, where there are `modules` modules.
fn address(module: u32, offset: u32, modules: u32) -> Cell {
    offset.wrapping_mul(modules).wrapping_add(module)
}

/// All cells of a machine, module by module, each by its address and its value.
pub(crate) fn of_machine(
    alloc: Global,
    machine: &Machine,
) -> Result<Vec<(Cell, Word)>, AllocError> {
    let mut cells = Vec::new(alloc);
    let modules = machine.config().net().size();
    for module in 0..modules {
        for offset in 0..machine.config().cells() {
            let word = machine.memory_module(module).peek(offset).unwrap_or(0);
            cells.push((address(module, offset, modules), word))?;
        }
    }
    Ok(cells)
}

/// The same of a machine that is cut into blocks.
pub(crate) fn of_blocks(alloc: Global, blocks: &Blocks) -> Result<Vec<(Cell, Word)>, AllocError> {
    let mut cells = Vec::new(alloc);
    let modules = blocks.config().net().size();
    for module in 0..modules {
        for offset in 0..blocks.config().cells() {
            let word = blocks.memory_module(module).peek(offset).unwrap_or(0);
            cells.push((address(module, offset, modules), word))?;
        }
    }
    Ok(cells)
}

/// A digest of the values of cells.
pub(crate) fn digest(cells: &[(Cell, Word)]) -> Word {
    let mut digest: Word = 0;
    for (_, word) in cells {
        digest = digest.wrapping_mul(31).wrapping_add(*word);
    }
    digest
}
