//! The number of the latest issue of each processing element for each cell.

ghost use Rattle.std.specs.Prelude.{◌≡◌, ℕ, IfOk, OnOk};
ghost use Rattle.ultra_serial.specs.LatestNumbers.{number_in, numbers_with};

use crate::dense_memory::DenseMemory;
use std::alloc::{AllocError, Global};
use std::collections::BTreeMap;
use ultra_machine::Config;
use ultra_msg::{Cell, Pe};

/// The most cells of a processing element whose numbers are found fast.
const MOST_FAST_CELLS: u32 = 4096;

/// The number of the latest issue of each processing element for each cell, or 0.
#[derive(Drop)]
pub(crate) struct LatestNumbers {
    /// For each processing element of the machine the numbers, by cell.
    rows: Vec<DenseMemory>,
    /// The numbers of all other processing elements.
    others: BTreeMap<(Pe, Cell), u32>,
}

impl LatestNumbers {
    /// All numbers are 0.
    pub fn new(alloc: Global, config: &Config) -> Result<LatestNumbers, AllocError>
        ensures { IfOk result (λ numbers. (p a : ℕ) → number_in numbers p a ≡ 0) }
    {
        let mut numbers = LatestNumbers {
            rows: Vec::new(alloc),
            others: BTreeMap::new(alloc),
        };
        let fast_cells = config.all_cells().min(MOST_FAST_CELLS);
        for _ in 0..config.net().size() {
            numbers.add_row(alloc, fast_cells)?;
        }
        Ok(numbers)
    }

    /// The number of a processing element and a cell.
    pub fn get(&self, pe: Pe, cell: Cell) -> u32
        ensures { result ≡ number_in self.now pe cell }
    {
        let row = pe as usize;
        if row < self.rows.len() {
            return self.rows[row].value(cell);
        }
        self.others.get(&(pe, cell)).copied().unwrap_or(0)
    }

    /// Gives a processing element another number for a cell.
    pub fn set(&mut self, pe: Pe, cell: Cell, number: u32) -> Result<(), AllocError>
        ensures { OnOk result ((p a : ℕ) →
            number_in self.new p a ≡ numbers_with (number_in self.old) pe cell number p a) }
    {
        let row = pe as usize;
        if row < self.rows.len() {
            return self.rows[row].set(cell, number);
        }
        self.others.insert((pe, cell), number)?;
        Ok(())
    }

    /// Adds a row of zeros while all numbers are 0.
    fn add_row(&mut self, alloc: Global, fast_cells: u32) -> Result<(), AllocError>
        ensures { OnOk result (((p a : ℕ) → number_in self.old p a ≡ 0) → (p a : ℕ) →
            number_in self.new p a ≡ 0) }
    {
        self.rows.push(DenseMemory::new(alloc, &[], fast_cells)?)?;
        Ok(())
    }
}
