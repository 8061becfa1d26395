//! Trees that are higher than those of any machine.

use crate::equal::check_equal;
use crate::events::{absorb, absorb_all, issue, meeting, serve, settings};
use linked_list_allocator::LocalHeap;
use std::alloc::Allocator;
use std::process::Abort;
use std::test::Fail;
use test_sinks::MemorySink;
use ultra_model::Config;
use ultra_msg::{Op, Pe};
use ultra_tree::{Explainer, Leaf, Tree, height, leaves, write_tree};

/// Absorbs the first request of processing element 0, and this many of processing element 1, which
/// issues anew as soon as its request has combined.
fn grow<A: Allocator + Clone>(rt: &impl Abort, explainer: &mut Explainer<A>, levels: u32) {
    assert!(rt; absorb(rt, explainer, &issue(0, 0, 1)).is_ok());
    for number in 0..levels {
        let level = [issue(1, number, 1), meeting(0, 0, 0, 1)];
        check_equal(rt, absorb_all(rt, explainer, &level), 2);
    }
}

/// Absorbs the first request of processing element 0, and this many more of it and of 1 by turns:
/// what has combined so far comes to each.
fn grow_at_new<A: Allocator + Clone>(rt: &impl Abort, explainer: &mut Explainer<A>, levels: u32) {
    assert!(rt; absorb(rt, explainer, &issue(0, 0, 1)).is_ok());
    for number in 0..levels {
        let (old, new) = if number % 2 == 0 { (1, 0) } else { (0, 1) };
        let level = [issue(old, number, 1), meeting(0, 0, old, new)];
        check_equal(rt, absorb_all(rt, explainer, &level), 2);
    }
}

/// Which part of each pair is the larger.
#[derive(Clone, Copy, Drop)]
enum Larger {
    Old,
    New,
}

/// A tree of this height, which its act gives away. Its memory has to be there.
fn high_tree<A: Allocator + Clone>(
    rt: &impl Abort,
    settings: &Config,
    alloc: A,
    larger: Larger,
    levels: u32,
) -> Tree<A> {
    let mut explainer = Explainer::new(settings, alloc).expect(rt, "no memory");
    match larger {
        Larger::Old => grow(rt, &mut explainer, levels),
        Larger::New => grow_at_new(rt, &mut explainer, levels),
    }
    let tree = serve(rt, &mut explainer, 0, 1);
    assert!(rt; explainer.tree_of(0, 0).is_none());
    tree
}

/// Asserts that a tree has 2,000 levels and 2,001 leaves, and which of these come first and last in
/// the serial order.
fn check_high_leaves<R: Abort + AllocGlobal, A: Allocator>(
    rt: &R,
    tree: &Tree<A>,
    first: Leaf,
    last: Leaf,
) -> Result<(), Fail> {
    check_equal(rt, height(tree), 2000);
    let all = leaves(rt.alloc(), tree)?;
    check_equal(rt, all.len(), 2001);
    check_equal(rt, all.first().copied(), Some(first));
    check_equal(rt, all.last().copied(), Some(last));
    Ok(())
}

/// Asserts the length of the text of a tree, and its beginning and end.
fn check_long_text<R: Abort + AllocGlobal, A: Allocator>(
    rt: &R,
    tree: &Tree<A>,
    length: usize,
    beginning: &str,
    end: &str,
) -> Result<(), Fail> {
    let mut sink = MemorySink::new(rt.alloc())?;
    assert!(rt; write_tree(tree, &mut sink).is_ok());
    let text = sink.text()?;
    check_equal(rt, text.len(), length);
    assert!(rt; text.starts_with(beginning));
    assert!(rt; text.ends_with(end));
    Ok(())
}

/// A tree of 2,000 levels, high at its old parts. It shows what the walks answer, not that they
/// need no stack. They take a step for each pair above each leaf, so a tree that is too high for a
/// recursive walk would take too long.
#[test]
fn a_high_tree(rt: HostRuntime) -> Result<(), Fail> {
    let heap = LocalHeap::new(rt.alloc(), 1 << 20)?;
    let tree = high_tree(&rt, &settings(&rt, 2)?, &heap, Larger::Old, 2000);
    check_high_leaves(&rt, &tree, leaf(0, 0), leaf(1, 1999))?;
    let heads = "[s0x0 ".repeat(rt.alloc(), 2000)?;
    let end = " < 1.1997] < 1.1998] < 1.1999]";
    check_long_text(&rt, &tree, 30_893, heads.as_str(), end)
}

/// A drop that called itself for each level would need more stack than there is.
#[test]
fn a_high_tree_is_dropped(rt: HostRuntime) -> Result<(), Fail> {
    let heap = LocalHeap::new(rt.alloc(), 1 << 26)?;
    drop(high_tree(&rt, &settings(&rt, 2)?, &heap, Larger::Old, 200_000));
    Ok(())
}

/// A drop that called itself for the new parts alone would need more stack than there is.
#[test]
fn a_tree_that_is_high_at_its_new_parts_is_dropped(rt: HostRuntime) -> Result<(), Fail> {
    let heap = LocalHeap::new(rt.alloc(), 1 << 26)?;
    drop(high_tree(&rt, &settings(&rt, 2)?, &heap, Larger::New, 200_000));
    Ok(())
}

/// A tree of 2,000 levels, high at its new parts: all pairs close behind the last leaf.
#[test]
fn a_tree_that_is_high_at_its_new_parts(rt: HostRuntime) -> Result<(), Fail> {
    let heap = LocalHeap::new(rt.alloc(), 1 << 20)?;
    let tree = high_tree(&rt, &settings(&rt, 2)?, &heap, Larger::New, 2000);
    check_high_leaves(&rt, &tree, leaf(0, 1999), leaf(0, 0))?;
    let beginning = "[s0x0 0.1999 < [s0x0 1.1998 < [s0x0 0.1997 < ";
    let end = "]".repeat(rt.alloc(), 2000)?;
    check_long_text(&rt, &tree, 30_893, beginning, end.as_str())
}

/// A request that adds 1.
fn leaf(pe: Pe, number: u32) -> Leaf {
    Leaf {
        pe,
        number,
        op: Op::Faa(1),
    }
}

/// With each allocation refused in turn, the list of leaves is refused or whole.
#[test]
fn leaves_are_refused_or_whole(rt: HostRuntime) -> Result<(), Fail> {
    let heap = LocalHeap::new(rt.alloc(), 4096)?;
    let tree = high_tree(&rt, &settings(&rt, 2)?, &heap, Larger::Old, 4);
    let in_order = [leaf(0, 0), leaf(1, 0), leaf(1, 1), leaf(1, 2), leaf(1, 3)];
    let all = leaves(rt.alloc(), &tree)?;
    check_equal(&rt, all.as_slice(), in_order.as_slice());
    Ok(())
}
