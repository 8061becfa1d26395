//! The order in which trees came and went, as contracts see it.

use crate::trees::Tree;
use std::alloc::Allocator;
use std::snapshot::Snapshot;
use ultra_msg::{Cell, Pe};

/// How the trees that are held came and went. It is for contracts alone: a `Snapshot` has no bytes,
/// so it takes no memory that grows.
#[derive(Drop)]
pub(crate) enum Order<A: Allocator> {
    /// No tree is held.
    Empty,
    /// A tree was put under an identity, after what happened before.
    Put(Snapshot<Order<A>>, Snapshot<Pe>, Snapshot<Cell>, Snapshot<Tree<A>>),
    /// The tree under an identity was taken, after what happened before.
    Taken(Snapshot<Order<A>>, Snapshot<Pe>, Snapshot<Cell>),
}
