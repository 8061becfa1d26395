//! A memory on which requests act sequentially, with a table for low addresses.

ghost use Rattle.std.specs.Prelude.{◌≡◌, ℕ, IfOk, OnOk, slice_index};
ghost use Rattle.ultra_msg.specs.Act.{act as effect};
ghost use Rattle.ultra_serial_law.specs.Legal.{given, with_cell};
ghost use Rattle.ultra_serial.specs.DenseCells.{dense_cells};

use crate::memory::SerialMemory;
use std::alloc::{AllocError, Global};
use ultra_msg::{Cell, Op, Reply, Word};

/// The most addresses whose cells are in a table.
pub(crate) const MOST_TABLE_CELLS: u32 = 65_536;

/// A memory on which requests act sequentially. A cell to which nothing was given holds 0.
#[derive(Drop)]
pub(crate) struct DenseMemory {
    /// The cells of the lowest addresses.
    low: Vec<Word>,
    /// The other cells.
    high: SerialMemory,
}

impl DenseMemory {
    /// A memory with these cells, each given by its address and value; if an address occurs twice,
    /// the last value wins. The addresses below `all_cells` are found fast.
    ///
    /// An error says that memory of the host was refused.
    pub fn new(
        alloc: Global,
        initial: &[(Cell, Word)],
        all_cells: u32,
    ) -> Result<DenseMemory, AllocError>
        ensures { IfOk result (λ m. dense_cells m ≡ given initial.now) }
    {
        let mut memory = DenseMemory {
            low: zeros(alloc, all_cells.min(MOST_TABLE_CELLS) as usize)?,
            high: SerialMemory::new(alloc, &[])?,
        };
        for (cell, word) in initial {
            memory.set(*cell, *word)?;
        }
        Ok(memory)
    }

    /// The value of a cell.
    pub fn value(&self, cell: Cell) -> Word
        ensures { result ≡ dense_cells self.now cell }
    {
        let place = cell as usize;
        if place < self.low.len() {
            return self.low[place];
        }
        self.high.value(cell)
    }

    /// Has an operation act on a cell, and gives its reply.
    ///
    /// An error says that memory of the host was refused.
    pub fn act(&mut self, cell: Cell, op: Op) -> Result<Reply, AllocError>
        ensures reply { IfOk result (λ r. r ≡ (effect op (dense_cells self.old cell)).1) }
        ensures cells { OnOk result (dense_cells self.new ≡
            with_cell (dense_cells self.old) cell (effect op (dense_cells self.old cell)).0) }
    {
        let (new, reply) = op.act(self.value(cell));
        self.set(cell, new)?;
        Ok(reply)
    }

    /// Gives a cell a value.
    pub fn set(&mut self, cell: Cell, word: Word) -> Result<(), AllocError>
        ensures { OnOk result (dense_cells self.new ≡ with_cell (dense_cells self.old) cell word) }
    {
        let place = cell as usize;
        if place < self.low.len() {
            self.low[place] = word;
            return Ok(());
        }
        self.high.set(cell, word)
    }
}

/// A list of `count` zeros. The length is a parameter, because a tactic would compute a list of
/// `MOST_TABLE_CELLS` zeros.
pub(crate) fn zeros(alloc: Global, count: usize) -> Result<Vec<Word>, AllocError>
    ensures { IfOk result (λ zeros. (k : ℕ) → slice_index zeros.items k ≡ 0) }
{
    vec![in alloc; 0; count]
}
