//! The text of a tree.

ghost use Rattle.std.specs.Prelude.{◌≡◌, ℕ, ◌+◌, ◌<◌, ◌≤◌, ◌^◌, ◌++◌, None, codes, decimal};
ghost use Rattle.ultra_msg.specs.Bytes.{WritesOrFails};
ghost use Rattle.ultra_tree.specs.{Counts.{leaf_count, HasRightCounts}, Places.piece, Seen.seen, declared.writing.TheConstants.FEW_CLOSINGS};
ghost use Rattle.ultra_tree.specs.Text.{leaf_text, head_text, opening, closings, order_mark_text, tree_text};

use crate::short_text::{ShortText, add_bytes, add_closings, add_decimal, add_mark};
use crate::trees::{CountedNode, Tree};
use itoa::Buffer;
use std::alloc::Allocator;
use ultra_msg::{Pe, Sink, SinkFault, write_all, write_pieces};

/// How many pairs close behind a leaf at most where its text is gathered.
const FEW_CLOSINGS: u64 = 32;

/// Writes a tree, as `[s0x0 1.0 < 0.0]`. After a fault the sink has taken a prefix of its text.
pub fn write_tree<A: Allocator, S: Sink>(tree: &Tree<A>, sink: &mut S) -> Result<(), SinkFault>
    ensures { (cell : ℕ) → WritesOrFails result (tree_text (seen cell tree.now))
        (S.taken sink.old) (S.taken sink.new) (S.failures sink.old) (S.failures sink.new) }
{
    for place in 0..tree.leaves {
        write_at(&tree.node, place, sink)?;
    }
    Ok(())
}

/// Writes the leaf at a place of the text, with the pairs that open before it, and those that close
/// behind it with the mark that follows.
fn write_at<A: Allocator, S: Sink>(
    tree: &CountedNode<A>,
    place: u64,
    sink: &mut S,
) -> Result<(), SinkFault>
    requires right_counts { HasRightCounts tree.now }
    requires within { place < leaf_count tree.now }
    requires fits { leaf_count tree.now < 2 ^ 64 }
    ensures { WritesOrFails result (piece tree.now place 0 None)
        (S.taken sink.old) (S.taken sink.new) (S.failures sink.old) (S.failures sink.new) }
{
    let mut node = tree;
    let mut place = place;
    let mut closing = 0u64;
    let mut mark = None;
    loop {
        match node {
            CountedNode::Leaf { pe, number, .. } => {
                return write_leaf(*pe, *number, closing, mark, sink);
            }
            CountedNode::Pair {
                stage,
                position,
                old,
                new,
                old_first,
                old_leaves,
                ..
            } => {
                write_opening(place, *stage, *position, sink)?;
                if place < *old_leaves {
                    node = old;
                    closing = 0;
                    mark = Some(*old_first);
                } else {
                    place -= *old_leaves;
                    node = new;
                    closing += 1;
                }
            }
        }
    }
}

/// Writes the name of a request, closes this many pairs, and writes the mark that follows.
fn write_leaf<S: Sink>(
    pe: Pe,
    number: u32,
    closing: u64,
    mark: Option<bool>,
    sink: &mut S,
) -> Result<(), SinkFault>
    ensures { WritesOrFails result (leaf_text pe number ++ closings closing ++ order_mark_text mark)
        (S.taken sink.old) (S.taken sink.new) (S.failures sink.old) (S.failures sink.new) }
{
    if closing <= FEW_CLOSINGS {
        write_leaf_at_once(pe, number, closing, mark, sink)
    } else {
        write_long_leaf(pe, number, closing, mark, sink)
    }
}

/// Writes the same by one call of the sink.
fn write_leaf_at_once<S: Sink>(
    pe: Pe,
    number: u32,
    closing: u64,
    mark: Option<bool>,
    sink: &mut S,
) -> Result<(), SinkFault>
    requires { closing ≤ FEW_CLOSINGS }
    ensures { WritesOrFails result (leaf_text pe number ++ closings closing ++ order_mark_text mark)
        (S.taken sink.old) (S.taken sink.new) (S.failures sink.old) (S.failures sink.new) }
{
    let mut text = ShortText::new();
    add_decimal(&mut text, pe);
    add_bytes(&mut text, b".");
    add_decimal(&mut text, number);
    add_closings(&mut text, closing);
    add_mark(&mut text, mark);
    write_all(sink, text.as_slice())
}

/// Writes the same by as many calls as it takes.
#[inline(never)]
fn write_long_leaf<S: Sink>(
    pe: Pe,
    number: u32,
    closing: u64,
    mark: Option<bool>,
    sink: &mut S,
) -> Result<(), SinkFault>
    ensures { WritesOrFails result (leaf_text pe number ++ closings closing ++ order_mark_text mark)
        (S.taken sink.old) (S.taken sink.new) (S.failures sink.old) (S.failures sink.new) }
{
    write_name(pe, number, sink)?;
    write_closings(closing, sink)?;
    write_mark(mark, sink)
}

/// Writes the name of a request.
fn write_name<S: Sink>(pe: Pe, number: u32, sink: &mut S) -> Result<(), SinkFault>
    ensures { WritesOrFails result (leaf_text pe number)
        (S.taken sink.old) (S.taken sink.new) (S.failures sink.old) (S.failures sink.new) }
{
    let mut of_pe = Buffer::new();
    let mut of_number = Buffer::new();
    write_pieces(
        sink,
        &[
            of_pe.format(pe).as_bytes(),
            b".",
            of_number.format(number).as_bytes(),
        ],
    )
}

/// Writes where the requests of a pair met, before its first leaf.
fn write_opening<S: Sink>(
    place: u64,
    stage: u32,
    position: u32,
    sink: &mut S,
) -> Result<(), SinkFault>
    ensures { WritesOrFails result (opening place stage position)
        (S.taken sink.old) (S.taken sink.new) (S.failures sink.old) (S.failures sink.new) }
{
    if place == 0 {
        write_head(stage, position, sink)
    } else {
        Ok(())
    }
}

/// Writes where the requests of a pair met.
fn write_head<S: Sink>(stage: u32, position: u32, sink: &mut S) -> Result<(), SinkFault>
    ensures { WritesOrFails result (head_text stage position)
        (S.taken sink.old) (S.taken sink.new) (S.failures sink.old) (S.failures sink.new) }
{
    let mut text = ShortText::new();
    add_bytes(&mut text, b"[s");
    add_decimal(&mut text, stage);
    add_bytes(&mut text, b"x");
    add_decimal(&mut text, position);
    add_bytes(&mut text, b" ");
    write_all(sink, text.as_slice())
}

/// Closes this many pairs.
fn write_closings<S: Sink>(count: u64, sink: &mut S) -> Result<(), SinkFault>
    ensures { WritesOrFails result (closings count)
        (S.taken sink.old) (S.taken sink.new) (S.failures sink.old) (S.failures sink.new) }
{
    for _ in 0..count {
        write_closing(sink)?;
    }
    Ok(())
}

/// Closes a pair.
fn write_closing<S: Sink>(sink: &mut S) -> Result<(), SinkFault>
    ensures { WritesOrFails result (codes "]")
        (S.taken sink.old) (S.taken sink.new) (S.failures sink.old) (S.failures sink.new) }
{
    write_all(sink, b"]")
}

/// Writes which part of a pair comes first in the serial order, if the text goes on with its new
/// part.
fn write_mark<S: Sink>(mark: Option<bool>, sink: &mut S) -> Result<(), SinkFault>
    ensures { WritesOrFails result (order_mark_text mark)
        (S.taken sink.old) (S.taken sink.new) (S.failures sink.old) (S.failures sink.new) }
{
    match mark {
        None => Ok(()),
        Some(true) => write_all(sink, b" < "),
        Some(false) => write_all(sink, b" > "),
    }
}
