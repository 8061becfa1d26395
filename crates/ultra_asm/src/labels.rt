//! The labels of a text.

ghost use Rattle.std.specs.{Prelude.{◌≡◌, ℕ, List, map, IfOk}, List.Sorted.IsNonDecreasing, Option.option_copied};
ghost use Rattle.ultra_asm.specs.{Words.text_words, Label.{pc_at, AreInOrder}, Labels.{line_label, statement, near_definition_of}};

use crate::words::{before_colon, first_words, is_name};
use std::alloc::{AllocError, Global};
use ultra_isa::MOST_INSTRUCTIONS;

/// Where a label is defined.
#[derive(Clone, Copy, Drop)]
pub struct Definition {
    /// The line, by its index from 0.
    pub line: usize,
    /// The program counter of the next instruction, from 0. It is 4096 also where that is above
    /// 4096.
    pub pc: usize,
}

/// A label, on one of the lines that define it.
#[derive(Clone, Copy, Drop)]
pub struct Label<'t> {
    name: &'t [u8],
    line: usize,
}

/// The labels of a text.
///
/// They are in a list, which takes less memory than a map: a text may consist of labels.
#[derive(Drop)]
pub struct Labels<'t> {
    /// By name, and then by line.
    list: Vec<Label<'t>>,
    /// The lines of the first 4096 instructions.
    instructions: Vec<usize>,
    ghost in_order: { AreInOrder list.items },
    ghost rising: { IsNonDecreasing instructions.items },
}

impl<'t> Labels<'t> {
    ghost use Rattle.ultra_asm.specs.Found.{definition_in, pcs_in};

    /// The labels of a text.
    pub fn of(alloc: Global, text: &'t [u8]) -> Result<Labels<'t>, AllocError>
        ensures { IfOk result (λ l. (q : List ℕ) →
            definition_in l q ≡ near_definition_of (text_words text.now) q) }
    {
        let mut list = Vec::new(alloc);
        let mut instructions = Vec::new(alloc);
        for (line, code) in text.split(|byte| *byte == b'\n').enumerate() {
            let words = first_words(alloc, code)?;
            if let Some(name) = line_label(words.as_slice()) {
                list.push(Label { name, line })?;
            }
            if !statement(words.as_slice()).is_empty() && instructions.len() < MOST_INSTRUCTIONS {
                instructions.push(line)?;
            }
        }
        list.sort_unstable_by_key(|label| (label.name, label.line));
        Ok(Labels { list, instructions })
    }

    /// Where the name is defined first, if it is.
    pub fn definition(&self, name: &[u8]) -> Option<Definition>
        ensures { result ≡ definition_in self.now name.now }
    {
        let labels = self.list.as_slice();
        let index = labels.partition_point(|label| label.name.cmp(name).is_lt());
        let label = labels.get(index)?;
        if label.name == name {
            let line = label.line;
            let pc = pc_at(self.instructions.as_slice(), line);
            Some(Definition { line, pc })
        } else {
            None
        }
    }

    /// The program counter that the name stands for, if it is defined. Program counters above 4096
    /// count as 4096.
    pub fn pc(&self, name: &[u8]) -> Option<u16>
        ensures { result ≡ pcs_in self.now name.now }
    {
        let definition = self.definition(name)?;
        Some(definition.pc.min(MOST_INSTRUCTIONS) as u16)
    }
}

/// How many of these lines, which are in ascending order, are before a line.
fn pc_at(lines: &[usize], line: usize) -> usize
    requires { IsNonDecreasing lines.now }
    ensures { result ≡ pc_at lines.now line }
{
    lines.partition_point(|at| *at < line)
}

/// The label that a line of these words begins with, if it does: a name followed directly by `:`.
pub fn line_label<'t>(words: &[&'t [u8]]) -> Option<&'t [u8]>
    ensures { option_copied result ≡ line_label (map (λ w. w.now) words.now) }
{
    let name = before_colon(words.first()?)?;
    if is_name(name) { Some(name) } else { None }
}

/// The words behind the label: those of the line's instruction, if it has one.
pub fn statement<'w, 't>(words: &'w [&'t [u8]]) -> &'w [&'t [u8]]
    ensures { map (λ w. w.now) result.now ≡ statement (map (λ w. w.now) words.now) }
{
    match line_label(words) {
        Some(_) => &words[1..],
        None => words,
    }
}
