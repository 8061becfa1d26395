//! A run, followed from its start to its end.

ghost use Rattle.std.specs.Prelude.{◌≡◌, ◌+◌, ◌++◌, false, IfErr, IfOk, OnErr, OnOk};
ghost use Rattle.linked_list_allocator.specs.{Heap.heap_size, Region.block_size};
ghost use Rattle.ultra_msg.specs.Bytes.{AreTakenOrWait, TakesPrefix};
ghost use Rattle.ultra_model.specs.{Machine.{size, start}, Ranges.AreInRange};
ghost use Rattle.ultra_serial_law.specs.Explicable.{AreAbsorbable};
ghost use Rattle.ultra_tree.specs.Absorb.{nothing_absorbed};
ghost use Rattle.ultra_inputs.specs.{declared.failure.Failure.TheVariants.{HeapTooSmall, HeapFull}, Failure.{read_failures, write_failures}, Traffic.{traffic, WroteText, TextFails}};
ghost use Rattle.ultra_explain_command.specs.Explanation.{event_lines, trees_after_all, explanation_of, AreLinesCut, EndsFull, IsCutShort, StopsAtCombination, StopsFull};

use crate::acts::put_lines;
use crate::line_buffer::LineBuffer;
use linked_list_allocator::{Heap, LocalHeap};
use std::alloc::{AllocError, Global};
use ultra_args::HeapBytes;
use ultra_inputs::{Failure, Inputs, read_inputs};
use ultra_io::Source;
use ultra_isa::Program;
use ultra_machine::{Config, Machine};
use ultra_msg::{Event, Sink};
use ultra_serial::explaining_law;
use ultra_tree::Explainer;

/// An explainer whose trees live in a heap, and can live nowhere else.
type HeapExplainer<'h> = Explainer<&'h LocalHeap>;

/// Lines are written once they have this many bytes; fewer wait for the next cycle.
const PIECE_BYTES: usize = 4096;

/// Reads settings and a program, and writes to `out` the combining tree of each memory act of the
/// run, a line for each. Each file is accepted before the next is read, and both before a byte is
/// written.
///
/// The trees live in a heap of `heap_bytes` bytes, and nothing else does. `HeapTooSmall` says that
/// it has no room for the explainer; nothing is written then. `HeapFull` says that it has no room
/// for a combination; the lines of all acts before that are written. After any other error `out`
/// has taken a prefix of the lines, and nothing where a file was refused.
pub fn explain<'p, F: Source, O: Sink>(
    alloc: Global,
    settings_path: &'p str,
    program_path: &'p str,
    heap_bytes: HeapBytes,
    source: &mut F,
    out: &mut O,
) -> Result<(), Failure<'p>>
    ensures ok { OnOk result (WroteText explanation_of settings_path.now program_path.now
        (traffic (F.files source.old) (O.taken out.old))
        (traffic (F.files source.new) (O.taken out.new))) }
    ensures err { IfErr result (TextFails explanation_of IsCutShort settings_path.now
        program_path.now (traffic (F.files source.old) (O.taken out.old))
        (traffic (F.files source.new) (O.taken out.new))) }
    ensures full { IfErr result (λ f. f ≡ HeapFull →
        EndsFull settings_path.now program_path.now (traffic (F.files source.old) (O.taken out.old))
        (traffic (F.files source.new) (O.taken out.new))) }
    ensures too_small { IfErr result
        (λ f. f ≡ HeapTooSmall → O.taken out.new ≡ O.taken out.old) }
    ensures read_still { OnOk result (F.failures source.new ≡ F.failures source.old) }
    ensures read_counted { IfErr result
        (λ f. F.failures source.new ≡ F.failures source.old + read_failures f) }
    ensures write_still { OnOk result (O.failures out.new ≡ O.failures out.old) }
    ensures write_counted { IfErr result
        (λ f. O.failures out.new ≡ O.failures out.old + write_failures f) }
{
    let inputs = read_inputs(alloc, settings_path, program_path, source)?;
    let Inputs { config, program } = &inputs;
    explain_run(alloc, config, program, heap_bytes, out)
}

/// Writes the lines of a run. The trees have their own heap.
fn explain_run<'p, O: Sink>(
    alloc: Global,
    config: &Config,
    program: &Program,
    heap_bytes: HeapBytes,
    out: &mut O,
) -> Result<(), Failure<'p>>
    requires { AreInRange config.now }
    ensures ok { OnOk result
        (O.taken out.new ≡ O.taken out.old ++ explanation_of config.now program.now) }
    ensures err { OnErr result
        (TakesPrefix (explanation_of config.now program.now) (O.taken out.old) (O.taken out.new)) }
    ensures fault { IfErr result IsCutShort }
    ensures full { IfErr result (λ f. f ≡ HeapFull
        → StopsFull config.now program.now (O.taken out.old) (O.taken out.new)) }
    ensures too_small { IfErr result
        (λ f. f ≡ HeapTooSmall → O.taken out.new ≡ O.taken out.old) }
    ensures still { OnOk result (O.failures out.new ≡ O.failures out.old) }
    ensures counted { IfErr result
        (λ f. O.failures out.new ≡ O.failures out.old + write_failures f) }
{
    let heap = new_heap(alloc, heap_bytes)?;
    let heap = LocalHeap::from(heap);
    let mut explainer = new_explainer(config, &heap)?;
    explain_program(alloc, config, program, &mut explainer, out)
}

/// The heap of the trees: as many bytes as asked for, rounded up to a multiple of 16. An error says
/// that memory was refused.
fn new_heap(alloc: Global, heap_bytes: HeapBytes) -> Result<Heap, AllocError>
    ensures { IfOk result (λ heap. heap_size heap ≡ block_size heap_bytes) }
{
    Heap::new(alloc, heap_bytes.count() as usize)
}

/// Writes the lines of a run by an explainer that holds no trees yet.
fn explain_program<'p, O: Sink>(
    alloc: Global,
    config: &Config,
    program: &Program,
    explainer: &mut HeapExplainer<'_>,
    out: &mut O,
) -> Result<(), Failure<'p>>
    requires in_range { AreInRange config.now }
    requires none_held { explainer.old
        ≡ nothing_absorbed (size config.now) config.now.most_open }
    ensures ok { OnOk result
        (O.taken out.new ≡ O.taken out.old ++ explanation_of config.now program.now) }
    ensures err { OnErr result
        (TakesPrefix (explanation_of config.now program.now) (O.taken out.old) (O.taken out.new)) }
    ensures fault { IfErr result AreLinesCut }
    ensures full { IfErr result (λ f. f ≡ HeapFull
        → StopsFull config.now program.now (O.taken out.old) (O.taken out.new)) }
    ensures still { OnOk result (O.failures out.new ≡ O.failures out.old) }
    ensures counted { IfErr result
        (λ f. O.failures out.new ≡ O.failures out.old + write_failures f) }
{
    let mut machine = Machine::new(alloc, config, program)?;
    explain_machine(alloc, &mut machine, explainer, out)
}

/// Follows a machine from its start to the end of its run, and writes all its lines.
fn explain_machine<'p, O: Sink>(
    alloc: Global,
    machine: &mut Machine,
    explainer: &mut HeapExplainer<'_>,
    out: &mut O,
) -> Result<(), Failure<'p>>
    requires in_range { AreInRange machine.old.settings }
    requires start { machine.old.state ≡ start machine.old.settings }
    requires none_held { explainer.old
        ≡ nothing_absorbed (size machine.old.settings) machine.old.settings.most_open }
    ensures ok { OnOk result (O.taken out.new
        ≡ O.taken out.old ++ explanation_of machine.old.settings machine.old.program) }
    ensures err { OnErr result
        (TakesPrefix (explanation_of machine.old.settings machine.old.program)
        (O.taken out.old) (O.taken out.new)) }
    ensures fault { IfErr result AreLinesCut }
    ensures full { IfErr result (λ f. f ≡ HeapFull → StopsFull machine.old.settings
        machine.old.program (O.taken out.old) (O.taken out.new)) }
    ensures still { OnOk result (O.failures out.new ≡ O.failures out.old) }
    ensures counted { IfErr result
        (λ f. O.failures out.new ≡ O.failures out.old + write_failures f) }
{
    let mut lines = LineBuffer::new(alloc);
    explain_cycles(machine, explainer, &mut lines, out)?;
    lines.flush(out)
}

/// An explainer of a machine with these settings, which holds no trees. It is given the heap and no
/// other allocator. `HeapTooSmall` says that the heap has no room for it.
fn new_explainer<'p, 'h>(
    config: &Config,
    heap: &'h LocalHeap,
) -> Result<HeapExplainer<'h>, Failure<'p>>
    ensures explainer { IfOk result
        (λ e. e ≡ nothing_absorbed (size config.now) config.now.most_open) }
    ensures no_room { IfErr result (λ f. f ≡ HeapTooSmall) }
{
    match Explainer::new(config, heap) {
        Ok(explainer) => Ok(explainer),
        Err(_) => Err(Failure::HeapTooSmall),
    }
}

/// Follows a machine from its start to the end of its run. Its last lines may still wait.
fn explain_cycles<'p, O: Sink>(
    machine: &mut Machine,
    explainer: &mut HeapExplainer<'_>,
    lines: &mut LineBuffer,
    out: &mut O,
) -> Result<(), Failure<'p>>
    requires in_range { AreInRange machine.old.settings }
    requires start { machine.old.state ≡ start machine.old.settings }
    requires none_held { explainer.old
        ≡ nothing_absorbed (size machine.old.settings) machine.old.settings.most_open }
    ensures ok { OnOk result
        (AreTakenOrWait (explanation_of machine.old.settings machine.old.program)
        (O.taken out.old) lines.old.bytes.items (O.taken out.new) lines.new.bytes.items) }
    ensures err { OnErr result (TakesPrefix
        (lines.old.bytes.items ++ explanation_of machine.old.settings machine.old.program)
        (O.taken out.old) (O.taken out.new)) }
    ensures fault { IfErr result AreLinesCut }
    ensures full { IfErr result (λ f. f ≡ HeapFull → StopsFull machine.old.settings
        machine.old.program (O.taken out.old ++ lines.old.bytes.items) (O.taken out.new)) }
    ensures still { OnOk result (O.failures out.new ≡ O.failures out.old) }
    ensures counted { IfErr result
        (λ f. O.failures out.new ≡ O.failures out.old + write_failures f) }
{
    explaining_law();
    for cycle in 0..machine.config().cycles() {
        machine.cycle();
        explain_cycle(cycle, machine.events(), explainer, lines, out)?;
        if machine.is_quiet() {
            break;
        }
    }
    Ok(())
}

/// Follows the events of a cycle. The lines that wait are written if they have `PIECE_BYTES` bytes
/// or more, or if a failure ends the run here.
fn explain_cycle<'p, O: Sink>(
    cycle: u32,
    events: &[Event],
    explainer: &mut HeapExplainer<'_>,
    lines: &mut LineBuffer,
    out: &mut O,
) -> Result<(), Failure<'p>>
    requires working { explainer.old.is_spent ≡ false }
    requires absorbable { AreAbsorbable explainer.old.elements explainer.old.most_open
        explainer.old.trees events.now }
    ensures trees { OnOk result (explainer.new ≡ record explainer.old {
      trees = trees_after_all explainer.old.trees events.now;
    }) }
    ensures ok { OnOk result (AreTakenOrWait (event_lines cycle explainer.old.trees events.now)
        (O.taken out.old) lines.old.bytes.items (O.taken out.new) lines.new.bytes.items) }
    ensures err { OnErr result (TakesPrefix (lines.old.bytes.items ++
        event_lines cycle explainer.old.trees events.now) (O.taken out.old) (O.taken out.new)) }
    ensures fault { IfErr result AreLinesCut }
    ensures full { IfErr result (λ f. f ≡ HeapFull
        → StopsAtCombination cycle explainer.old.trees events.now
        (O.taken out.old ++ lines.old.bytes.items) (O.taken out.new)) }
    ensures still { OnOk result (O.failures out.new ≡ O.failures out.old) }
    ensures counted { IfErr result
        (λ f. O.failures out.new ≡ O.failures out.old + write_failures f) }
{
    let explained = put_lines(cycle, events, explainer, lines);
    if explained.is_err() || lines.len() >= PIECE_BYTES {
        lines.flush(out)?;
    }
    explained
}
