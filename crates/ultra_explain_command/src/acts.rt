//! The lines of memory acts, over the trees that an explainer keeps.

ghost use Rattle.std.specs.Prelude.{◌≡◌, ◌⊎◌, ◌++◌, false, true, codes, decimal, IfErr, OnErr, OnOk};
ghost use Rattle.ultra_msg.specs.Bytes.{TakesPrefix, WritesOrFails};
ghost use Rattle.ultra_serial_law.specs.{Tree.trees_after, Explicable.{AreAbsorbable, IsAbsorbable}};
ghost use Rattle.ultra_tree.specs.{Absorb.IsCombination, Seen.seen};
ghost use Rattle.ultra_inputs.specs.declared.failure.Failure.TheVariants.{HeapFull, NoMemory};
ghost use Rattle.ultra_explain_command.specs.Explanation.{tree_line, tree_event_line, event_lines, trees_after_all, StopsAtCombination};

use crate::line_buffer::LineBuffer;
use std::alloc::Allocator;
use ultra_inputs::Failure;
use ultra_msg::{Cell, Event, Sink, SinkFault, write_all};
use ultra_tree::{Explainer, ShortText, Tree, add_bytes, add_decimal, write_tree};

/// Puts the lines of a cycle's acts at the end of the lines that wait. `HeapFull` says that the
/// explainer's memory was refused, and `NoMemory` that memory for the lines was. A prefix of the
/// lines was put then.
pub(crate) fn put_lines<'p, A: Allocator + Clone>(
    cycle: u32,
    events: &[Event],
    explainer: &mut Explainer<A>,
    lines: &mut LineBuffer,
) -> Result<(), Failure<'p>>
    requires working { explainer.old.is_spent ≡ false }
    requires absorbable { AreAbsorbable explainer.old.elements explainer.old.most_open
        explainer.old.trees events.now }
    ensures trees { OnOk result (explainer.new ≡ record explainer.old {
      trees = trees_after_all explainer.old.trees events.now;
    }) }
    ensures ok { OnOk result (lines.new.bytes.items
        ≡ lines.old.bytes.items ++ event_lines cycle explainer.old.trees events.now) }
    ensures err { OnErr result (TakesPrefix (event_lines cycle explainer.old.trees events.now)
        lines.old.bytes.items lines.new.bytes.items) }
    ensures fault { IfErr result (λ f. (f ≡ HeapFull) ⊎ (f ≡ NoMemory)) }
    ensures heap_full { IfErr result (λ f. f ≡ HeapFull → explainer.new.is_spent ≡ true) }
    ensures no_memory { IfErr result (λ f. f ≡ NoMemory → explainer.new.is_spent ≡ false) }
    ensures whole_lines { IfErr result (λ f. f ≡ HeapFull → StopsAtCombination cycle
        explainer.old.trees events.now lines.old.bytes.items lines.new.bytes.items) }
{
    for event in events {
        put_event(cycle, event, explainer, lines)?;
    }
    Ok(())
}

/// Gives an event to the explainer. If it is an act, its line is put at the end of the lines that
/// wait.
fn put_event<'p, A: Allocator + Clone>(
    cycle: u32,
    event: &Event,
    explainer: &mut Explainer<A>,
    lines: &mut LineBuffer,
) -> Result<(), Failure<'p>>
    requires working { explainer.old.is_spent ≡ false }
    requires absorbable { IsAbsorbable explainer.old.elements explainer.old.most_open
        explainer.old.trees event.now }
    ensures trees { OnOk result (explainer.new ≡ record explainer.old {
      trees = trees_after explainer.old.trees event.now;
    }) }
    ensures ok { OnOk result (lines.new.bytes.items
        ≡ lines.old.bytes.items ++ tree_event_line cycle explainer.old.trees event.now) }
    ensures err { OnErr result (TakesPrefix (tree_event_line cycle explainer.old.trees event.now)
        lines.old.bytes.items lines.new.bytes.items) }
    ensures fault { IfErr result (λ f. (f ≡ HeapFull) ⊎ (f ≡ NoMemory)) }
    ensures heap_full { IfErr result (λ f. f ≡ HeapFull → explainer.new.is_spent ≡ true) }
    ensures no_memory { IfErr result (λ f. f ≡ NoMemory → explainer.new.is_spent ≡ false) }
    ensures combines { IfErr result (λ f. f ≡ HeapFull → IsCombination event.now) }
    ensures no_line { IfErr result
        (λ f. f ≡ HeapFull → lines.new.bytes.items ≡ lines.old.bytes.items) }
{
    let Ok(served) = explainer.absorb(event) else {
        return Err(Failure::HeapFull);
    };
    let Event::Served {
        module: memory_module,
        request,
        ..
    } = *event
    else {
        return Ok(());
    };
    let Some(tree) = served else {
        return Ok(());
    };
    match write_act(cycle, memory_module, request.cell, &tree, lines) {
        Ok(()) => Ok(()),
        Err(_) => Err(Failure::NoMemory),
    }
}

/// Writes the line of an act, as `cycle 6 module 0 cell 0 [s0x0 0.0 > 1.0]`.
fn write_act<A: Allocator, S: Sink>(
    cycle: u32,
    memory_module: u32,
    cell: Cell,
    tree: &Tree<A>,
    sink: &mut S,
) -> Result<(), SinkFault>
    ensures { WritesOrFails result (tree_line cycle memory_module cell (seen cell tree.now))
        (S.taken sink.old) (S.taken sink.new) (S.failures sink.old) (S.failures sink.new) }
{
    write_place(cycle, memory_module, cell, sink)?;
    write_tree(tree, sink)?;
    write_all(sink, b"\n")
}

/// Writes when and where an act was done, as `cycle 6 module 0 cell 0 `.
fn write_place<S: Sink>(
    cycle: u32,
    memory_module: u32,
    cell: Cell,
    sink: &mut S,
) -> Result<(), SinkFault>
    ensures { WritesOrFails result (codes "cycle " ++ decimal cycle ++ codes " module " ++
        decimal memory_module ++ codes " cell " ++ decimal cell ++ codes " ") (S.taken sink.old)
        (S.taken sink.new) (S.failures sink.old) (S.failures sink.new) }
{
    let mut text = ShortText::new();
    add_bytes(&mut text, b"cycle ");
    add_decimal(&mut text, cycle);
    add_bytes(&mut text, b" module ");
    add_decimal(&mut text, memory_module);
    add_bytes(&mut text, b" cell ");
    add_decimal(&mut text, cell);
    add_bytes(&mut text, b" ");
    write_all(sink, text.as_slice())
}
