//! The height of a tree.

ghost use Rattle.std.specs.Prelude.{◌≡◌, ℕ, ◌<◌, ◌^◌};
ghost use Rattle.ultra_serial_law.specs.Tree.{height as height_of};
ghost use Rattle.ultra_tree.specs.{Counts.{leaf_count, HasRightCounts}, Places.depth_at, Seen.seen};

use crate::trees::{CountedNode, Tree};
use std::alloc::Allocator;

/// The height of a tree: 0 for a leaf, and for a pair one more than that of its higher part.
pub fn height<A: Allocator>(tree: &Tree<A>) -> u64
    ensures { (cell : ℕ) → result ≡ height_of (seen cell tree.now) }
{
    let mut highest = 0;
    for place in 0..tree.leaves {
        highest = depth_of(&tree.node, place).max(highest);
    }
    highest
}

/// The depth of a leaf: n if it is in n pairs, each within another. Its place, from 0, is that in
/// the text of the tree, where old comes before new.
fn depth_of<A: Allocator>(tree: &CountedNode<A>, place: u64) -> u64
    requires right_counts { HasRightCounts tree.now }
    requires within { place < leaf_count tree.now }
    requires fits { leaf_count tree.now < 2 ^ 64 }
    ensures { result ≡ depth_at tree.now place }
{
    let mut node = tree;
    let mut place = place;
    let mut depth = 0u64;
    loop {
        match node {
            CountedNode::Leaf { .. } => return depth,
            CountedNode::Pair {
                old,
                new,
                old_leaves,
                ..
            } => {
                if place < *old_leaves {
                    node = old;
                } else {
                    place -= *old_leaves;
                    node = new;
                }
                depth += 1;
            }
        }
    }
}
