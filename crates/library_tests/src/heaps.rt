//! Explainers whose heap refuses memory.

use crate::equal::check_equal;
use crate::events::{absorb, absorb_all, all_combined, explainer, issue, settings};
use linked_list_allocator::LocalHeap;
use std::process::Abort;
use std::test::Fail;
use ultra_tree::{ExplainFault, Explainer};

/// How many bytes of a large heap are taken once this many events of the run are absorbed.
pub(crate) fn bytes_after<R: AllocGlobal + Abort>(rt: &R, events: usize) -> usize {
    let heap = LocalHeap::new(rt.alloc(), 16384).expect(rt, "no memory");
    let mut explainer = explainer(rt, &heap);
    let run = all_combined();
    let first = run.get(..events).expect(rt, "too many events");
    check_equal(rt, absorb_all(rt, &mut explainer, first), events);
    heap.used()
}

/// How many bytes of a heap a pair takes for one of its two requests.
fn bytes_of_half<R: AllocGlobal + Abort>(rt: &R) -> usize {
    let of_pair = bytes_after(rt, 5).checked_sub(bytes_after(rt, 4));
    of_pair.expect(rt, "a pair takes no bytes") / 2
}

/// With a heap of this many bytes the event after this many is refused, all memory of trees comes
/// back, and whatever comes then is refused too.
fn check_full<R: AllocGlobal + Abort>(rt: &R, bytes: usize, events: usize) {
    let heap = LocalHeap::new(rt.alloc(), bytes).expect(rt, "no memory");
    let mut explainer = explainer(rt, &heap);
    check_equal(rt, absorb_all(rt, &mut explainer, &all_combined()), events);
    check_equal(rt, heap.used(), bytes_after(rt, 0));
    let later = absorb(rt, &mut explainer, &issue(0, 1, 1));
    assert!(rt; matches!(later, Err(ExplainFault::Spent)));
}

/// A heap with room for an explainer alone refuses the first combination, one with room for two
/// pairs the third.
#[test]
fn a_heap_that_is_full(rt: HostRuntime) -> Result<(), Fail> {
    for events in [4, 6] {
        check_full(&rt, bytes_after(&rt, events), events);
    }
    Ok(())
}

/// Where only the half of a pair has room, the pair is refused, and the memory of that half comes
/// back too.
#[test]
fn a_heap_with_room_for_half_a_pair(rt: HostRuntime) -> Result<(), Fail> {
    for events in [4, 6] {
        let bytes = bytes_after(&rt, events).checked_add(bytes_of_half(&rt));
        check_full(&rt, bytes.expect(&rt, "too many bytes"), events);
    }
    Ok(())
}

/// Where there is no room for the places of the trees, there is no explainer.
#[test]
fn a_heap_without_room(rt: HostRuntime) -> Result<(), Fail> {
    let heap = LocalHeap::new(rt.alloc(), 64)?;
    let refused = Explainer::new(&settings(&rt, 2)?, &heap);
    assert!(&rt; matches!(refused, Err(ExplainFault::Full)));
    Ok(())
}
