//! The trees that are held, in slots by processing element.

ghost use Rattle.std.specs.Prelude.{◌≡◌, ◌+◌, ◌*◌, ◌<◌, ◌≤◌, [], ◌++◌, length, replicate, slice_get, IfNone, IfSome};
ghost use Rattle.std.specs.Vec.{vec_capacity};
ghost use Rattle.ultra_serial_law.specs.Explicable.{held_by};
ghost use Rattle.ultra_tree.specs.Slots.{is_slot_for, is_slot_free, trees_in_row, trees_under, IsFirstFor, IsFreePlace};
ghost use Rattle.ultra_tree.specs.declared.slots.Slot.TheVariants.{Free};

use crate::trees::Tree;
use std::alloc::Allocator;
use ultra_msg::{Cell, Pe};

/// A place for the tree of a request. Its number says of which processing element the request is.
#[derive(Drop)]
pub(crate) enum Slot<A: Allocator> {
    Free,
    Held { cell: Cell, tree: Tree<A> },
}

impl<A: Allocator> Slot<A> {
    /// Whether the tree of a request for a cell is here.
    fn is_for(&self, cell: Cell) -> bool
        ensures { result ≡ is_slot_for cell self.now }
    {
        match self {
            Slot::Free => false,
            Slot::Held { cell: of_tree, .. } => *of_tree == cell,
        }
    }

    /// Whether no tree is here.
    fn is_free(&self) -> bool
        ensures { result ≡ is_slot_free self.now }
    {
        matches!(self, Slot::Free)
    }
}

/// The place of the tree of a processing element's request for a cell, or `None` if none is
/// held. Each of the `elements` processing elements has `most_open` slots.
pub(crate) fn place_of<A: Allocator>(
    slots: &[Slot<A>],
    elements: u32,
    most_open: u32,
    pe: Pe,
    cell: Cell,
) -> Option<usize>
    requires { length slots.now ≡ elements * most_open }
    ensures found { IfSome result (λ i. IsFirstFor most_open pe cell slots.now i) }
    ensures none { IfNone result (trees_under pe cell (trees_in_row most_open pe slots.now) ≡ []) }
{
    if pe >= elements {
        return None;
    }
    let first = pe as usize * most_open as usize;
    for place in first..first + most_open as usize {
        if slots[place].is_for(cell) {
            return Some(place);
        }
    }
    None
}

/// A free place of a processing element.
pub(crate) fn free_place<A: Allocator>(slots: &[Slot<A>], most_open: u32, pe: Pe) -> usize
    requires within { pe * most_open + most_open ≤ length slots.now }
    requires room { held_by pe (trees_in_row most_open pe slots.now) < most_open }
    ensures { IsFreePlace most_open pe slots.now result }
{
    let first = pe as usize * most_open as usize;
    for place in first..first + most_open as usize {
        if slots[place].is_free() {
            return place;
        }
    }
    unreachable!()
}

/// How many of a processing element's slots have a tree.
pub(crate) fn count_of<A: Allocator>(slots: &[Slot<A>], most_open: u32, pe: Pe) -> usize
    requires within { pe * most_open + most_open ≤ length slots.now }
    ensures { result ≡ held_by pe (trees_in_row most_open pe slots.now) }
{
    let first = pe as usize * most_open as usize;
    let mut count = 0;
    for place in first..first + most_open as usize {
        if !slots[place].is_free() {
            count += 1;
        }
    }
    count
}

/// Fills an empty list with `count` free slots.
pub(crate) fn add_free<A: Allocator>(slots: &mut Vec<Slot<A>, A>, count: usize)
    requires none { slots.old.items ≡ [] }
    requires room { count ≤ vec_capacity slots.old }
    ensures items { slots.new.items ≡ replicate count Free }
    ensures capacity { vec_capacity slots.new ≡ vec_capacity slots.old }
{
    for place in 0..count {
        // only the loop's invariant uses the number
        let _ = place;
        slots.push_reserved(Slot::Free);
    }
}
