//! The tree of a worked run, and which events an explainer accepts.

use crate::equal::{check_equal, check_equal_for};
use crate::events::{absorb, absorb_all, all_combined, explainer, issue, meeting, serve, serving};
use linked_list_allocator::LocalHeap;
use std::alloc::Allocator;
use std::process::Abort;
use std::test::Fail;
use test_sinks::{MemorySink, SinkLimits};
use ultra_msg::{Cell, Event, Op, Pe, SinkFault, Word};
use ultra_tree::{Explainer, Leaf, Tree, height, leaves, write_tree};

/// The first request of a processing element, which adds a word.
pub(crate) fn leaf(pe: Pe, word: Word) -> Leaf {
    Leaf {
        pe,
        number: 0,
        op: Op::Faa(word),
    }
}

/// Asserts whether trees are held: each under its processing element and cell.
fn check_held<A: Allocator + Clone>(
    rt: &impl Abort,
    explainer: &Explainer<A>,
    wanted: &[(Pe, Cell, bool)],
) {
    for &(pe, cell, is_held) in wanted {
        let tree = explainer.tree_of(pe, cell);
        check_equal_for(
            rt,
            tree.is_some(),
            is_held,
            format_args!("of {pe} for {cell}"),
        );
    }
}

/// Asserts that a tree has these leaves, in serial order, and this height.
pub(crate) fn check_leaves<R: Abort + AllocGlobal, A: Allocator>(
    rt: &R,
    tree: &Tree<A>,
    wanted: &[Leaf],
    levels: u64,
) {
    check_equal(rt, height(tree), levels);
    let all = leaves(rt.alloc(), tree).expect(rt, "no memory");
    check_equal(rt, all.as_slice(), wanted);
}

/// Asserts that a tree is written as this text, into a sink that takes all.
pub(crate) fn check_text<R: Abort + AllocGlobal, A: Allocator>(
    rt: &R,
    tree: &Tree<A>,
    wanted: &[u8],
) {
    let mut sink = MemorySink::new(rt.alloc()).expect(rt, "no memory");
    assert!(rt; write_tree(tree, &mut sink).is_ok());
    check_equal(rt, sink.bytes.as_slice(), wanted);
}

/// Asserts that of a tree this beginning is written into a sink that fails after this many writes.
fn check_beginning<R: Abort + AllocGlobal, A: Allocator>(
    rt: &R,
    tree: &Tree<A>,
    sound_writes: usize,
    wanted: &[u8],
) {
    let limits = SinkLimits::none().failing_after(sound_writes);
    let mut sink = MemorySink::with_limits(rt.alloc(), limits).expect(rt, "no memory");
    check_equal(rt, write_tree(tree, &mut sink), Err(SinkFault));
    check_equal(rt, sink.bytes.as_slice(), wanted);
    check_equal(rt, sink.failures, 1);
}

/// The tree is held under its first request alone, and its act gives it away with its memory.
#[test]
fn two_level_tree(rt: HostRuntime) -> Result<(), Fail> {
    let heap = LocalHeap::new(rt.alloc(), 16384)?;
    let mut explainer = explainer(&rt, &heap);
    let of_none = heap.used();
    check_equal(&rt, absorb_all(&rt, &mut explainer, &all_combined()), 7);
    check_held(
        &rt,
        &explainer,
        &[(3, 0, false), (2, 1, false), (2, 0, true)],
    );
    let tree = serve(&rt, &mut explainer, 2, 10);
    check_held(&rt, &explainer, &[(2, 0, false)]);
    check_leaves(
        &rt,
        &tree,
        &[leaf(2, 3), leaf(0, 1), leaf(3, 4), leaf(1, 2)],
        2,
    );
    check_text(&rt, &tree, b"[s1x0 [s0x0 2.0 < 0.0] < [s0x2 3.0 < 1.0]]");
    check_beginning(&rt, &tree, 3, b"[s1x0 [s0x0 2.0 < ");
    drop(tree);
    check_equal(&rt, heap.used(), of_none);
    Ok(())
}

/// Asserts whether an explainer accepts each of these events.
fn check_accepts<A: Allocator + Clone>(
    rt: &impl Abort,
    explainer: &Explainer<A>,
    wanted: &[(Event, bool)],
) {
    for (number, (event, is_accepted)) in wanted.iter().enumerate() {
        check_equal_for(
            rt,
            explainer.accepts(event),
            *is_accepted,
            format_args!("event {number}"),
        );
    }
}

#[test]
fn what_is_accepted(rt: HostRuntime) -> Result<(), Fail> {
    let heap = LocalHeap::new(rt.alloc(), 4096)?;
    let mut explainer = explainer(&rt, &heap);
    let at_first = [
        (serving(0, 1), false),
        (meeting(0, 0, 0, 1), false),
        (issue(3, 0, 1), true),
        (issue(4, 0, 1), false),
    ];
    check_accepts(&rt, &explainer, &at_first);
    assert!(&rt; absorb(&rt, &mut explainer, &issue(0, 0, 1)).is_ok());
    let with_one = [
        (issue(0, 1, 1), false),
        (meeting(0, 0, 0, 0), false),
        (meeting(0, 0, 0, 1), false),
        (serving(0, 1), true),
    ];
    check_accepts(&rt, &explainer, &with_one);
    Ok(())
}
