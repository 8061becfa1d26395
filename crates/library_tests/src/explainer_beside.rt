//! An explainer beside a machine.

use crate::equal::{check_equal, check_equal_for};
use crate::events::{explainer, settings};
use crate::heaps::bytes_after;
use linked_list_allocator::LocalHeap;
use std::alloc::Allocator;
use std::process::Abort;
use std::test::Fail;
use test_sinks::MemorySink;
use ultra_block::Blocks;
use ultra_isa::{Instr, Program};
use ultra_msg::{Event, Register};
use ultra_trace_text::write_cycle;
use ultra_tree::{ExplainFault, Explainer};

/// The cycles in which each of four processing elements adds its number and 1 to cell 0.
const TWO_LEVEL_TREE: &str = "\
cycle 0
cycle 1
cycle 2
pni 0: 0@0 faa 1
pni 1: 1@0 faa 2
pni 2: 2@0 faa 3
pni 3: 3@0 faa 4
cycle 3
req 0 0: 2@0 faa 4 *
req 0 2: 3@0 faa 6 *
wait 0 0: 2@0 same 0 plus 3
wait 0 2: 3@0 same 1 plus 4
cycle 4
req 1 0: 2@0 faa 10 *
wait 0 0: 2@0 same 0 plus 3
wait 0 2: 3@0 same 1 plus 4
wait 1 0: 2@0 same 3 plus 4
cycle 5
wait 0 0: 2@0 same 0 plus 3
wait 0 2: 3@0 same 1 plus 4
wait 1 0: 2@0 same 3 plus 4
inp 0: 2@0 faa 10
cycle 6
act 0 2@0 faa 10 = 0 now 10
wait 0 0: 2@0 same 0 plus 3
wait 0 2: 3@0 same 1 plus 4
wait 1 0: 2@0 same 3 plus 4
out 0: 2@0 = 0
cycle 7
wait 0 0: 2@0 same 0 plus 3
wait 0 2: 3@0 same 1 plus 4
rep 1 0: 2@0 = 0
rep 1 1: 3@0 = 4
cycle 8
rep 0 0: 0@0 = 3
rep 0 1: 2@0 = 0
rep 0 2: 1@0 = 8
rep 0 3: 3@0 = 4
cycle 9
got 0@0 = 3
got 1@0 = 8
got 2@0 = 0
got 3@0 = 4
";

/// A register.
pub(crate) fn register<R: Abort>(rt: &R, number: u8) -> Register {
    Register::new(number).expect(rt, "no register")
}

/// Each processing element adds its number and 1 to cell 0.
fn add_number<R: Abort + AllocGlobal>(rt: &R) -> Result<Program, Fail> {
    let (zero, number, old) = (register(rt, 0), register(rt, 2), register(rt, 3));
    let list = vec![in rt.alloc();
        Instr::Number(number),
        Instr::AddWord(number, number, 1),
        Instr::Faa(old, zero, number),
        Instr::Halt,
    ]?;
    program_of(list)
}

/// The program of these instructions.
pub(crate) fn program_of(list: Vec<Instr>) -> Result<Program, Fail> {
    match Program::new(list) {
        Ok(program) => Ok(program),
        Err(_) => Err(Fail::from("no program")),
    }
}

/// The machine in which each of four processing elements adds its number and 1 to cell 0, before
/// its first cycle.
fn machine<R: Abort + AllocGlobal>(rt: &R) -> Result<Blocks, Fail> {
    let program = add_number(rt)?;
    let settings = settings(rt, 2)?;
    Ok(Blocks::new(rt.alloc(), &settings, &program, &[0; 12])?)
}

/// Absorbs an event, and says whether memory was refused. Then the next is refused too.
fn is_refused<A: Allocator + Clone>(
    rt: &impl Abort,
    explainer: &mut Explainer<A>,
    event: &Event,
) -> bool {
    assert!(rt; explainer.accepts(event));
    let Err(fault) = explainer.absorb(event) else {
        return false;
    };
    check_equal(rt, fault, ExplainFault::Full);
    let next = explainer.absorb(event);
    assert!(rt; matches!(next, Err(ExplainFault::Spent)));
    true
}

/// Absorbs events up to the first that is refused, and says whether one is.
fn has_refused<A: Allocator + Clone>(
    rt: &impl Abort,
    explainer: &mut Explainer<A>,
    events: &[Event],
) -> bool {
    for event in events {
        if is_refused(rt, explainer, event) {
            return true;
        }
    }
    false
}

/// Makes a cycle, and writes its lines.
fn make_cycle<R: Abort>(rt: &R, blocks: &mut Blocks, out: &mut MemorySink) -> Result<(), Fail> {
    assert!(rt; blocks.done() < 10);
    blocks.cycle();
    assert!(rt; blocks.done() > 0);
    Ok(write_cycle(blocks, out)?)
}

/// Makes the ten cycles of the machine. The explainer beside it absorbs their events up to that of
/// cycle 3 which is refused.
fn run_beside<R: Abort, A: Allocator + Clone>(
    rt: &R,
    blocks: &mut Blocks,
    explainer: &mut Explainer<A>,
    out: &mut MemorySink,
) -> Result<(), Fail> {
    for cycle in 0..10 {
        make_cycle(rt, blocks, out)?;
        assert!(rt; blocks.is_in_one_block());
        if cycle <= 3 {
            let refused = has_refused(rt, explainer, blocks.events_of_one());
            check_equal_for(rt, refused, cycle == 3, format_args!("in cycle {cycle}"));
        }
    }
    Ok(())
}

/// The same with an explainer whose heap has room for it alone.
fn run_beside_full_heap<R: Abort + AllocGlobal>(
    rt: &R,
    blocks: &mut Blocks,
    out: &mut MemorySink,
) -> Result<(), Fail> {
    let heap = LocalHeap::new(rt.alloc(), bytes_after(rt, 0))?;
    run_beside(rt, blocks, &mut explainer(rt, &heap), out)
}

/// In a heap with room for an explainer alone the first combination is refused, and so is what
/// comes next. The machine beside it goes on.
#[test]
fn explainer_without_memory(rt: HostRuntime) -> Result<(), Fail> {
    let mut blocks = machine(&rt)?;
    let mut out = MemorySink::new(rt.alloc())?;
    run_beside_full_heap(&rt, &mut blocks, &mut out)?;
    check_equal(&rt, out.bytes.as_slice(), TWO_LEVEL_TREE.as_bytes());
    Ok(())
}
