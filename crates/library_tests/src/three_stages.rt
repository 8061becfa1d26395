//! Eight requests that become one over three stages, beside the machine that combines them.

use crate::equal::check_equal_for;
use crate::events::{explainer_of, settings};
use crate::explainer_beside::{program_of, register};
use crate::trees::{check_leaves, check_text, leaf};
use linked_list_allocator::LocalHeap;
use std::alloc::Allocator;
use std::process::Abort;
use std::test::Fail;
use ultra_block::Blocks;
use ultra_isa::Instr;
use ultra_msg::{Event, Pe, Reply, ReplyMessage, Word};
use ultra_tree::{Explainer, Tree};

/// The processing elements in the serial order of their requests, with their replies.
const ANSWERED: [(Pe, Word); 8] = [
    (5, 0),
    (1, 1),
    (7, 2),
    (3, 3),
    (4, 4),
    (0, 5),
    (6, 6),
    (2, 7),
];

/// The tree of the requests.
const TEXT: &[u8] =
    b"[s2x0 [s1x4 [s0x2 5.0 < 1.0] < [s0x6 7.0 < 3.0]] < [s1x0 [s0x0 4.0 < 0.0] < [s0x4 6.0 < 2.0]]]";

/// The machine in which each of eight processing elements adds 1 to cell 0, before its first cycle.
fn machine<R: Abort + AllocGlobal>(rt: &R) -> Result<Blocks, Fail> {
    let (cell, one, old) = (register(rt, 1), register(rt, 2), register(rt, 3));
    let list = vec![in rt.alloc();
        Instr::Set(cell, 0),
        Instr::Set(one, 1),
        Instr::Faa(old, cell, one),
        Instr::Halt,
    ]?;
    let settings = settings(rt, 3)?;
    Ok(Blocks::new(rt.alloc(), &settings, &program_of(list)?, &[0; 28])?)
}

/// Makes a cycle, and gives the tree of the act in it, if there is one. Each reply that is
/// delivered is put at the number of its processing element.
fn run_cycle<A: Allocator + Clone>(
    rt: &impl Abort,
    blocks: &mut Blocks,
    explainer: &mut Explainer<A>,
    replies: &mut [Option<Reply>; 8],
) -> Option<Tree<A>> {
    assert!(rt; blocks.done() < 12);
    blocks.cycle();
    assert!(rt; blocks.is_in_one_block());
    let mut act = None;
    for event in blocks.events_of_one() {
        assert!(rt; explainer.accepts(event));
        if let Event::Delivered(ReplyMessage { pe, reply, .. }) = *event {
            assert!(rt; pe < 8);
            replies[pe as usize] = Some(reply);
        }
        if let Some(tree) = explainer.absorb(event).ok().expect(rt, "the heap is full") {
            act = Some(tree);
        }
    }
    act
}

/// Asserts that the act of all eight, with a tree of height 3, is in cycle 7 alone.
fn check_act<R: Abort + AllocGlobal, A: Allocator>(rt: &R, cycle: u32, act: Option<Tree<A>>) {
    check_equal_for(
        rt,
        act.is_some(),
        cycle == 7,
        format_args!("in cycle {cycle}"),
    );
    if let Some(tree) = act {
        check_leaves(rt, &tree, &ANSWERED.map(|(pe, _)| leaf(pe, 1)), 3);
        check_text(rt, &tree, TEXT);
    }
}

/// Asserts the replies, by the numbers of the processing elements: 0 to 7 in the serial order.
fn check_replies(rt: &impl Abort, replies: &[Option<Reply>]) {
    for (pe, word) in ANSWERED {
        let reply = replies.get(pe as usize).copied().flatten();
        check_equal_for(rt, reply, Some(Reply::Value(word)), format_args!("of {pe}"));
    }
}

/// One act serves all eight.
#[test]
fn eight_requests_become_one(rt: HostRuntime) -> Result<(), Fail> {
    let heap = LocalHeap::new(rt.alloc(), 16384)?;
    let mut explainer = explainer_of(&rt, 3, &heap);
    let mut blocks = machine(&rt)?;
    let mut replies = [None; 8];
    for cycle in 0..12 {
        check_act(
            &rt,
            cycle,
            run_cycle(&rt, &mut blocks, &mut explainer, &mut replies),
        );
    }
    check_replies(&rt, &replies);
    Ok(())
}
