//! Walks over the nodes of a tree.

use crate::equal::check_equal;
use crate::events::{absorb_all, all_combined, explainer, issue, serve};
use linked_list_allocator::LocalHeap;
use std::alloc::Allocator;
use std::process::Abort;
use std::test::Fail;
use ultra_msg::{Event, Op, Pe, Word};
use ultra_tree::{Node, Tree};

/// A node without its parts.
#[derive(Clone, Copy, PartialEq, Eq, Debug, Drop)]
enum Step {
    Leaf {
        pe: Pe,
        number: u32,
        op: Op,
    },
    Pair {
        stage: u32,
        position: u32,
        old_first: bool,
    },
}

/// The first request of a processing element, which adds a word.
fn leaf(pe: Pe, word: Word) -> Step {
    Step::Leaf {
        pe,
        number: 0,
        op: Op::Faa(word),
    }
}

/// A pair whose old part comes first in the serial order.
fn pair(stage: u32, position: u32) -> Step {
    Step::Pair {
        stage,
        position,
        old_first: true,
    }
}

/// Asserts that a walk over a tree comes to these nodes: to each pair before its parts, and to its
/// old part first.
fn check_walk<R: Abort + AllocGlobal, A: Allocator>(rt: &R, tree: &Tree<A>, wanted: &[Step]) {
    let mut waiting = Vec::new(rt.alloc());
    let mut next = Some(tree.node());
    for &step in wanted {
        match next.expect(rt, "no node") {
            Node::Leaf { pe, number, op } => check_equal(rt, Step::Leaf { pe, number, op }, step),
            Node::Pair {
                stage,
                position,
                old,
                new,
                old_first,
            } => {
                let pair = Step::Pair {
                    stage,
                    position,
                    old_first,
                };
                check_equal(rt, pair, step);
                waiting.push(new).expect(rt, "no memory");
                waiting.push(old).expect(rt, "no memory");
            }
        }
        next = waiting.pop().map(|part| part.node());
    }
    assert!(rt; next.is_none());
}

#[test]
fn a_walk_over_two_levels(rt: HostRuntime) -> Result<(), Fail> {
    let heap = LocalHeap::new(rt.alloc(), 16384)?;
    let mut explainer = explainer(&rt, &heap);
    check_equal(&rt, absorb_all(&rt, &mut explainer, &all_combined()), 7);
    let tree = serve(&rt, &mut explainer, 2, 10);
    let steps = [
        pair(1, 0),
        pair(0, 0),
        leaf(2, 3),
        leaf(0, 1),
        pair(0, 2),
        leaf(3, 4),
        leaf(1, 2),
    ];
    check_walk(&rt, &tree, &steps);
    Ok(())
}

/// Two requests combine, and the one that came comes first in the serial order.
#[test]
fn a_walk_over_a_pair_whose_new_part_comes_first(rt: HostRuntime) -> Result<(), Fail> {
    let heap = LocalHeap::new(rt.alloc(), 16384)?;
    let mut explainer = explainer(&rt, &heap);
    let combined = Event::Combined {
        stage: 1,
        position: 2,
        cell: 0,
        old: 3,
        new: 1,
        old_first: false,
    };
    let events = [issue(3, 0, 4), issue(1, 0, 2), combined];
    check_equal(&rt, absorb_all(&rt, &mut explainer, &events), 3);
    let tree = serve(&rt, &mut explainer, 3, 6);
    let new_first = Step::Pair {
        stage: 1,
        position: 2,
        old_first: false,
    };
    check_walk(&rt, &tree, &[new_first, leaf(3, 4), leaf(1, 2)]);
    Ok(())
}
