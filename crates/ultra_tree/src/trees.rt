//! Trees of combined requests.

ghost use Rattle.std.specs.Prelude.{◌≡◌, ℕ, IfOk};
ghost use Rattle.ultra_serial_law.specs.{Tree.{leaf as leaf_tree, pair}, declared.records.NamedRequest.NamedRequest};
ghost use Rattle.ultra_tree.specs.Counts.{leaf_count, HasRightCounts};

use std::alloc::{AllocError, Allocator};
use ultra_msg::{Op, Pe};

/// The requests that one request stands for, in any allocator.
///
/// A tree may have any height: no call on it, its drop included, needs more stack for a higher one.
/// `leaves`, `height` and `write_tree` are loops that find a leaf by its number, along the counts
/// of leaves that each pair keeps. A drop goes down the larger part of a pair by a loop. It drops
/// the smaller part, which has at most half of the leaves, by a call. So at most 64 drops are on
/// the stack, since leaves are counted in 64 bits. Trees are made by an `Explainer` alone, which
/// keeps these counts.
#[derive(Drop)]
pub struct Tree<A: Allocator> {
    pub(crate) node: CountedNode<A>,
    pub(crate) leaves: u64,
    ghost counted: { leaves ≡ leaf_count node },
    ghost right_counts: { HasRightCounts node },
}

/// A request as it was issued, or two that combined, with the number of leaves of each.
pub(crate) enum CountedNode<A: Allocator> {
    Leaf {
        /// The processing element that issued it.
        pe: Pe,
        /// How many requests that processing element had issued before.
        number: u32,
        /// What it does to the cell.
        op: Op,
    },
    Pair {
        /// The stage, from 0 at the PEs' side.
        stage: u32,
        /// The queue's memory-side position in the stage, from 0.
        position: u32,
        /// The tree of the request that was in the queue.
        old: Box<CountedNode<A>, A>,
        /// The tree of the request that came to it.
        new: Box<CountedNode<A>, A>,
        /// Whether the one that was in the queue comes first in the serial order.
        old_first: bool,
        old_leaves: u64,
        new_leaves: u64,
    },
}

/// Goes down the larger part of each pair; a separate call drops the smaller.
impl<A: Allocator> Drop for CountedNode<A> {
    fn drop(mut self) {
        loop {
            match self {
                CountedNode::Leaf {
                    pe: _,
                    number: _,
                    op: _,
                } => return,
                CountedNode::Pair {
                    stage: _,
                    position: _,
                    old,
                    new,
                    old_first: _,
                    old_leaves,
                    new_leaves,
                } => {
                    self = Box::into_inner(if new_leaves < old_leaves { old } else { new });
                }
            }
        }
    }
}

impl<A: Allocator> Tree<A> {
    ghost use Rattle.ultra_tree.specs.Seen.{seen};

    /// A request as it was issued.
    pub(crate) fn leaf(pe: Pe, number: u32, op: Op) -> Tree<A>
        ensures { (cell : ℕ) → seen cell result
            ≡ leaf_tree record { pe = pe; number = number; cell = cell; op = op } }
    {
        Tree {
            node: CountedNode::Leaf { pe, number, op },
            leaves: 1,
        }
    }
}

impl<A: Allocator + Clone> Tree<A> {
    ghost use Rattle.ultra_tree.specs.Seen.{seen};

    /// Two trees as one. An error says that memory of the allocator was refused; both are then
    /// dropped. So are two trees that have `2^64` leaves together, which no memory has room for.
    pub(crate) fn pair(
        alloc: &A,
        stage: u32,
        position: u32,
        old: Tree<A>,
        new: Tree<A>,
        old_first: bool,
    ) -> Result<Tree<A>, AllocError>
        ensures { IfOk result (λ t. (cell : ℕ) → seen cell t
            ≡ pair stage position (seen cell old) (seen cell new) old_first) }
    {
        let Some(leaves) = old.leaves.checked_add(new.leaves) else {
            return Err(AllocError);
        };
        let (old_leaves, new_leaves) = (old.leaves, new.leaves);
        let node = CountedNode::Pair {
            stage,
            position,
            old: Box::new(alloc.clone()?, old.node)?,
            new: Box::new(alloc.clone()?, new.node)?,
            old_first,
            old_leaves,
            new_leaves,
        };
        Ok(Tree { node, leaves })
    }
}
