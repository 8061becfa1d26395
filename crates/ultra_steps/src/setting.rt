//! What sets a register.

use ultra_msg::{Cell, Op, Register, Word};

/// A register of a processing element is set to a value.
#[derive(Clone, Copy, Drop)]
pub struct Setting {
    /// The register.
    pub register: Register,
    /// Its value from then on.
    pub value: Word,
}

/// The cell that an instruction refers to, and what it does there.
#[derive(Clone, Copy, Drop)]
pub(crate) struct Reference {
    /// The cell.
    pub(crate) cell: Cell,
    /// The operation.
    pub(crate) op: Op,
}
