//! The leaves of a tree in serial order.

ghost use Rattle.std.specs.Prelude.{◌≡◌, ℕ, ◌<◌, Some, map, slice_get, IfOk};
ghost use Rattle.ultra_serial_law.specs.Tree.{leaves as leaves_of};
ghost use Rattle.ultra_tree.specs.{Counts.{leaf_count, HasRightCounts}, Places.leaves_in, Seen.{seen, at_cell}};

use crate::trees::{CountedNode, Tree};
use std::alloc::{AllocError, AllocFailed, Allocator, Global};
use ultra_msg::{Op, Pe};

/// A request in a tree. The processing element (PE) and the number are its name.
#[derive(Clone, Copy, PartialEq, Eq, Debug, Drop)]
pub struct Leaf {
    /// The PE that issued it.
    pub pe: Pe,
    /// How many requests that PE had issued before.
    pub number: u32,
    /// What it does to the cell.
    pub op: Op,
}

/// Why a tree gives no list of its leaves.
#[derive(Clone, Copy, PartialEq, Eq, Debug, Drop)]
pub enum TreeFault {
    /// Memory was refused.
    NoMemory,
}

impl From<AllocError> for TreeFault {
    fn from(_: AllocError) -> TreeFault {
        TreeFault::NoMemory
    }
}

impl<T: Drop> From<AllocFailed<T>> for TreeFault {
    fn from(_: AllocFailed<T>) -> TreeFault {
        TreeFault::NoMemory
    }
}

/// The leaves of a tree in serial order. `NoMemory` means that memory was refused.
pub fn leaves<A: Allocator>(alloc: Global, tree: &Tree<A>) -> Result<Vec<Leaf>, TreeFault>
    ensures { IfOk result (λ v. (cell : ℕ)
        → map (at_cell cell) v.items ≡ leaves_of (seen cell tree.now)) }
{
    let mut leaves = Vec::new(alloc);
    for place in 0..tree.leaves {
        leaves.push(leaf_at(&tree.node, place))?;
    }
    Ok(leaves)
}

/// The leaf at a place of the serial order.
fn leaf_at<A: Allocator>(tree: &CountedNode<A>, place: u64) -> Leaf
    requires right_counts { HasRightCounts tree.now }
    requires within { place < leaf_count tree.now }
    ensures { slice_get (leaves_in tree.now) place ≡ Some result }
{
    let mut node = tree;
    let mut place = place;
    loop {
        match node {
            CountedNode::Leaf { pe, number, op } => {
                return Leaf {
                    pe: *pe,
                    number: *number,
                    op: *op,
                };
            }
            CountedNode::Pair {
                old,
                new,
                old_first,
                old_leaves,
                new_leaves,
                ..
            } => {
                let (first, second, of_first) = if *old_first {
                    (old, new, *old_leaves)
                } else {
                    (new, old, *new_leaves)
                };
                if place < of_first {
                    node = first;
                } else {
                    place -= of_first;
                    node = second;
                }
            }
        }
    }
}
