//! Trees as a caller matches them.

ghost use Rattle.std.specs.Prelude.{◌≡◌, ℕ};
ghost use Rattle.ultra_tree.specs.Seen.{seen, seen_counted, seen_node, seen_part};

use crate::trees::{CountedNode, Tree};
use std::alloc::Allocator;
use ultra_msg::{Op, Pe};

/// A request as it was issued, or two that combined.
#[derive(Drop)]
pub enum Node<'t, A: Allocator> {
    /// A request as it was issued. The processing element (PE) and the number are its name.
    Leaf {
        /// The PE that issued it.
        pe: Pe,
        /// How many requests that PE had issued before.
        number: u32,
        /// What it does to the cell.
        op: Op,
    },
    /// Two requests that combined.
    Pair {
        /// The stage, from 0 at the PEs' side.
        stage: u32,
        /// The queue's memory-side position in the stage, from 0.
        position: u32,
        /// The tree of the request that was in the queue.
        old: Part<'t, A>,
        /// The tree of the request that came to it.
        new: Part<'t, A>,
        /// Whether the one that was in the queue comes first in the serial order.
        old_first: bool,
    },
}

/// One of the two trees of a pair.
#[derive(Drop)]
pub struct Part<'t, A: Allocator> {
    root: &'t CountedNode<A>,
}

impl<A: Allocator> Tree<A> {
    /// The request that this tree is, or the two that combined.
    pub fn node(&self) -> Node<'_, A>
        ensures { (cell : ℕ) → seen_node cell result ≡ seen cell self.now }
    {
        node_of(&self.node)
    }
}

impl<'t, A: Allocator> Part<'t, A> {
    /// The request that this part is, or the two that combined.
    pub fn node(&self) -> Node<'t, A>
        ensures { (cell : ℕ) → seen_node cell result ≡ seen_part cell self.now }
    {
        node_of(self.root)
    }
}

/// What a caller matches of a tree.
fn node_of<A: Allocator>(tree: &CountedNode<A>) -> Node<'_, A>
    ensures { (cell : ℕ) → seen_node cell result ≡ seen_counted cell tree.now }
{
    match tree {
        CountedNode::Leaf { pe, number, op } => Node::Leaf {
            pe: *pe,
            number: *number,
            op: *op,
        },
        CountedNode::Pair {
            stage,
            position,
            old,
            new,
            old_first,
            ..
        } => Node::Pair {
            stage: *stage,
            position: *position,
            old: Part { root: old },
            new: Part { root: new },
            old_first: *old_first,
        },
    }
}
