//! Machines cut into blocks: some cycles of them, and what happened in the last one.

use crate::equal::check_equal;
use crate::support::answered_event;
use std::process::Abort;
use ultra_machine::Blocks;
use ultra_msg::{Event, Word};

/// Makes n cycles.
pub(crate) fn run_blocks(rt: &impl Abort, blocks: &mut Blocks, cycles: u32) {
    for _ in 0..cycles {
        assert!(rt; blocks.done() < 1000);
        blocks.cycle();
    }
}

/// Asserts what happened next in a cycle.
fn event_is(rt: &impl Abort, found: Option<Event>, wanted: Option<Event>) {
    check_equal(rt, found, wanted);
}

/// Just this happened in the last cycle.
fn events_are(rt: &impl Abort, blocks: &Blocks, wanted: &[Event]) {
    let mut events = blocks.events();
    for event in wanted {
        event_is(rt, events.next(), Some(*event));
    }
    event_is(rt, events.next(), None);
}

/// The value of cell 0.
fn first_cell_is(rt: &impl Abort, blocks: &Blocks, word: Word) {
    assert!(rt; blocks.config().net().size() > 0);
    check_equal(rt, blocks.memory_module(0).peek(0), Some(word));
}

/// In the last cycle of the worked tree of two levels every processing element gets its own value,
/// and nothing is left to do.
pub(crate) fn tree_is_answered(rt: &impl Abort, blocks: &Blocks) {
    let answers = [
        answered_event(0, 3),
        answered_event(1, 8),
        answered_event(2, 0),
        answered_event(3, 4),
    ];
    events_are(rt, blocks, &answers);
    first_cell_is(rt, blocks, 10);
    assert!(rt; blocks.is_quiet());
}
