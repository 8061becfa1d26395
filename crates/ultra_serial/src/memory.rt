//! A memory on which requests act sequentially.

ghost use Rattle.std.specs.Prelude.{◌≡◌, IfOk, OnOk, OnErr};
ghost use Rattle.ultra_msg.specs.Act.{act as effect};
ghost use Rattle.ultra_serial_law.specs.Legal.{given, with_cell};
ghost use Rattle.ultra_serial.specs.Memory.{value_in, cell_in};

use std::alloc::{AllocError, Global};
use std::collections::BTreeMap;
use std::marker::Model;
use ultra_msg::{Cell, Op, Reply, Word};

/// A memory on which requests act sequentially. A cell to which nothing was given holds 0.
#[derive(Drop)]
pub struct SerialMemory {
    cells: BTreeMap<Cell, Word>,
}

impl Model for SerialMemory {
    ghost use Rattle.std.specs.Prelude.{ℕ, List};

    ghost Value = { List (ℕ × ℕ) };

    ghost view = { λ m. m.cells.entries };
}

impl SerialMemory {
    /// A memory with these cells, each given by its address and value; if an address occurs twice,
    /// the last value wins.
    ///
    /// An error says that memory of the host was refused.
    pub fn new(alloc: Global, initial: &[(Cell, Word)]) -> Result<SerialMemory, AllocError>
        ensures { IfOk result (λ m. cell_in m ≡ given initial.now) }
    {
        let mut memory = SerialMemory {
            cells: BTreeMap::new(alloc),
        };
        for (cell, word) in initial {
            memory.set(*cell, *word)?;
        }
        Ok(memory)
    }

    /// The value of a cell.
    pub fn value(&self, cell: Cell) -> Word
        ensures { result ≡ cell_in self.now cell }
    {
        self.cells.get(&cell).copied().unwrap_or(0)
    }

    /// Has an operation act on a cell, and gives its reply.
    ///
    /// An error says that memory of the host was refused, which happens only at a cell that was
    /// never given a value; the cells are then as before.
    pub fn act(&mut self, cell: Cell, op: Op) -> Result<Reply, AllocError>
        ensures reply { IfOk result (λ r. r ≡ (effect op (cell_in self.old cell)).1) }
        ensures cells { OnOk result (cell_in self.new ≡
            with_cell (cell_in self.old) cell (effect op (cell_in self.old cell)).0) }
        ensures unchanged { OnErr result (self.new ≡ self.old) }
        ensures absent { OnErr result (value_in self.old cell ≡ None) }
    {
        let old = self.value(cell);
        let (new, reply) = op.act(old);
        self.set(cell, new)?;
        Ok(reply)
    }

    /// Gives a cell a value.
    pub(crate) fn set(&mut self, cell: Cell, word: Word) -> Result<(), AllocError>
        ensures cells { OnOk result (cell_in self.new ≡ with_cell (cell_in self.old) cell word) }
        ensures unchanged { OnErr result (self.new ≡ self.old) }
        ensures absent { OnErr result (value_in self.old cell ≡ None) }
    {
        self.cells.insert(cell, word)?;
        Ok(())
    }
}
