//! The paracomputer.

ghost use Rattle.std.specs.Prelude.{◌≡◌, ◌<◌, ◌≤◌, ◌*◌, ◌↔◌, All, IfOk, IfSome, IsSome, length, slice_get, slice_index};
ghost use Rattle.std.specs.List.{list_all};
ghost use Rattle.ultra_isa.specs.Step.{has_stopped};
ghost use Rattle.ultra_model.specs.Machine.{size};
ghost use Rattle.ultra_para.specs.{Para.{core_at, start_para, para_step, run_para}, Report.{step_report, have_all_stopped as all_stopped}, ParaState.{fresh_processors as all_fresh, cores_of}};

use crate::at_once::{StepReport, step_at_once};
use std::alloc::{AllocError, Global};
use std::marker::Model;
use ultra_isa::{Processor, Program};
use ultra_model::Config;
use ultra_msg::{Cell, Pe, Register, Word};

/// A paracomputer: its settings, its program, its cells, and its processing elements.
///
/// The paracomputer is the 1983 paper's: processing elements that share one memory, in which every
/// request acts at once. Of the settings it takes the number of processing elements and the cells.
#[derive(Drop)]
pub struct Para {
    config: Config,
    program: Program,
    cells: Vec<Word>,
    processors: Vec<Processor>,
}

impl Model for Para {
    ghost use Rattle.ultra_para.specs.ParaState.{ParaState, programmed, HasAllParts};

    ghost Value = { ParaState };

    ghost view = { λ m. programmed m.config m.program m.cells.items m.processors.items };

    ghost invariant = { λ m. HasAllParts m.config m.cells.items m.processors.items };
}

/// The cells of these settings before the first step.
fn initial_cells(alloc: Global, config: &Config) -> Result<Vec<Word>, AllocError>
    ensures { IfOk result (λ v. v.items ≡ (start_para config.now).cells) }
{
    let mut cells = vec![in alloc; 0; config.all_cells() as usize]?;
    for &(cell, word) in config.initial() {
        cells[cell as usize] = word;
    }
    Ok(cells)
}

/// The processing elements of these settings before the first step.
fn fresh_processors(alloc: Global, config: &Config) -> Result<Vec<Processor>, AllocError>
    ensures { IfOk result (λ v. v.items ≡ all_fresh config.now) }
{
    let net = config.net();
    let mut processors = Vec::with_capacity(alloc, net.size() as usize)?;
    for pe in 0..net.size() {
        processors.push(Processor::new(pe, net, config.cells()))?;
    }
    Ok(processors)
}

/// Whether these processing elements have halted or faulted.
fn have_stopped(processors: &[Processor]) -> bool
    ensures { result ≡ list_all (λ p. has_stopped p.core.activity) processors.now }
{
    processors.iter().all(|processor| processor.has_stopped())
}

impl Para {
    /// The paracomputer of these settings and this program before its first step: all registers and
    /// cells are 0 except the initial ones.
    ///
    /// It keeps its own copies. An error says that memory was refused.
    pub fn new(alloc: Global, config: &Config, program: &Program) -> Result<Para, AllocError>
        ensures { IfOk result (λ m. m ≡ record {
          settings = config.now;
          program = program.now;
          state = start_para config.now;
        }) }
    {
        Ok(Para {
            config: config.try_clone()?,
            program: program.try_clone(alloc)?,
            cells: initial_cells(alloc, config)?,
            processors: fresh_processors(alloc, config)?,
        })
    }

    /// One step of a processing element: an instruction, whose request acts on its cell at once. A
    /// `fence` does nothing; faults are those of the machine. It takes no memory. `pe` has to be
    /// below the number of processing elements.
    pub fn step(&mut self, pe: Pe)
        requires { pe < size self.old.settings }
        ensures { self.new ≡ record self.old {
          state = para_step self.old.settings self.old.program self.old.state pe;
        } }
    {
        let _ = self.observed_step(pe);
    }

    /// The same as [`step`](Para::step), and says what the step did.
    pub fn observed_step(&mut self, pe: Pe) -> StepReport
        requires { pe < size self.old.settings }
        ensures state { self.new ≡ record self.old {
          state = para_step self.old.settings self.old.program self.old.state pe;
        } }
        ensures report { result ≡ step_report self.old.settings self.old.program self.old.state pe }
    {
        step_at_once(
            &mut self.processors[pe as usize],
            &self.program,
            self.cells.as_mut_slice(),
        )
    }

    /// The steps of a schedule, in its order: each number is the processing element that makes the
    /// step, and has to be below their number.
    pub fn run(&mut self, schedule: &[Pe])
        requires { All (λ p. p < size self.old.settings) schedule.now }
        ensures { self.new ≡ record self.old {
          state = run_para self.old.settings self.old.program self.old.state schedule.now;
        } }
    {
        for &pe in schedule {
            self.step(pe);
        }
    }

    /// The words of all cells, by address.
    pub fn cells(&self) -> &[Word]
        ensures value { result.now ≡ self.now.state.cells }
        ensures known { length result.now ≡ size self.now.settings * self.now.settings.cells }
        ensures few { length result.now ≤ 262144 }
    {
        // for the prover: a memory has at most 262144 cells
        let _cells = self.config.all_cells();
        self.cells.as_slice()
    }

    /// The processing elements, by number.
    pub fn processors(&self) -> &[Processor]
        ensures value { cores_of result.now ≡ self.now.state.cores }
        ensures known { length result.now ≡ size self.now.settings }
        ensures few { length result.now ≤ 64 }
    {
        // for the prover: there are at most 64 processing elements
        let _size = self.config.net().size();
        self.processors.as_slice()
    }

    /// Whether all processing elements have halted or faulted.
    pub fn have_all_stopped(&self) -> bool
        ensures { result ≡ all_stopped self.now.state }
    {
        have_stopped(self.processors.as_slice())
    }

    /// The word in a cell, or `None` if the memory has no such cell.
    pub fn peek(&self, cell: Cell) -> Option<Word>
        ensures value { result ≡ slice_get self.now.state.cells cell }
        ensures known { IsSome result ↔ (cell < size self.now.settings * self.now.settings.cells) }
    {
        self.cells.get(cell as usize).copied()
    }

    /// The word in a register, or `None` if there is no such processing element or the number is
    /// above 15.
    pub fn register(&self, pe: Pe, number: u8) -> Option<Word>
        ensures value { IfSome result (λ word.
            word ≡ slice_index (core_at self.now.state pe).registers number) }
        ensures known { IsSome result ↔ ((pe < size self.now.settings) × (number < 16)) }
    {
        let processor = self.processors.get(pe as usize)?;
        let register = Register::new(number)?;
        Some(processor.register(register))
    }
}
