//! What a condition can name.

ghost use Rattle.std.specs.Prelude.{◌≡◌, ◌-◌, ◌^◌, ◌<◌, ◌≤◌, IfOk, IfSome, slice_get};
ghost use Rattle.ultra_asm.specs.{Labels.near_pc_of, Words.text_words};
ghost use Rattle.ultra_condition.specs.Grammar.{scope_of, has_reference, some_refers};

use std::alloc::{AllocError, Global};
use std::marker::Model;
use ultra_asm::Labels;
use ultra_isa::{Instr, Program};
use ultra_model::Config;

/// What a condition can name: the cells and processing elements of some settings, and the places of
/// a program by the labels of its text.
#[derive(Drop)]
pub struct Scope<'t> {
    cells: u32,
    elements: u32,
    program: &'t Program,
    /// The program's text. Only the prover needs it.
    text: &'t str,
    labels: Labels<'t>,
}

impl<'t> Model for Scope<'t> {
    ghost use Rattle.ultra_condition.specs.Grammar.{Scope};

    ghost Value = { Scope };

    ghost view = { λ s.
        record {
          cells = s.cells;
          elements = s.elements;
          program = s.program.now;
          text = s.text.now;
        } };

    ghost use Rattle.std.specs.Prelude.{◌≡◌, ℕ, List};
    ghost use Rattle.ultra_asm.specs.{Found.pcs_in, Labels.near_pc_of, Words.text_words};

    ghost invariant = { λ s. (q : List ℕ) →
        pcs_in s.labels q ≡ near_pc_of (text_words s.text.now) q };
}

impl<'t> Scope<'t> {
    /// What a condition can name under these settings, of a program with this text. An error says
    /// that memory was refused.
    pub fn new(
        alloc: Global,
        config: &Config,
        program: &'t Program,
        text: &'t str,
    ) -> Result<Scope<'t>, AllocError>
        ensures { IfOk result (λ s. s ≡ scope_of config.now program.now text.now) }
    {
        Ok(Scope {
            cells: config.all_cells(),
            elements: config.net().size(),
            program,
            text,
            labels: Labels::of(alloc, text.as_bytes())?,
        })
    }

    /// How many cells there are.
    pub(crate) fn cells(&self) -> u32
        ensures { result ≡ self.now.cells }
    {
        self.cells
    }

    /// How many processing elements there are.
    pub(crate) fn elements(&self) -> u32
        ensures { result ≡ self.now.elements }
    {
        self.elements
    }

    /// The place of the label of this name, if there is one.
    pub(crate) fn place(&self, name: &[u8]) -> Option<u16>
        ensures place { result ≡ near_pc_of (text_words self.now.text) name.now }
        ensures small { IfSome result (λ k. k ≤ 4096) }
    {
        self.labels.pc(name)
    }

    /// Whether one of the places from the first on and before the second holds a reference to a
    /// cell.
    pub(crate) fn has_reference(&self, from: u16, to: u16) -> bool
        ensures { result ≡ has_reference self.now.program from (to - from) }
    {
        refers_between(self.program, from, to)
    }
}

/// Whether one of the places from the first on and before the second holds a reference to a cell.
fn refers_between(program: &Program, from: u16, to: u16) -> bool
    ensures { result ≡ has_reference program.now from (to - from) }
{
    for pc in from..to {
        if refers_at(program, usize::from(pc)) {
            return true;
        }
    }
    false
}

/// Whether the instruction at a place refers to a cell.
fn refers_at(program: &Program, pc: usize) -> bool
    ensures { result ≡ some_refers (slice_get program.now pc) }
{
    match program.instruction(pc) {
        Some(Instr::Load(_, _) | Instr::Store(_, _) | Instr::Faa(_, _, _) | Instr::Swap(_, _, _)) =>
            true,
        _ => false,
    }
}
