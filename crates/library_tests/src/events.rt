//! Explainers, and the events that they absorb.

use linked_list_allocator::LocalHeap;
use std::alloc::Allocator;
use std::process::Abort;
use ultra_model::{Config, ConfigFault, RawSettings};
use ultra_msg::{Event, Op, Pe, Reply, Request, Word};
use ultra_tree::{ExplainFault, Explainer, Tree};

/// The default settings with this many stages.
pub(crate) fn settings<R: AllocGlobal>(rt: &R, stages: i64) -> Result<Config, ConfigFault> {
    let raw = RawSettings {
        stages: Some(stages),
        request_places: Some(4),
        reply_places: Some(8),
        wait_places: Some(4),
        most_open: Some(2),
        cells: Some(16),
        cycles: Some(1000),
        initial: Some(Vec::new(rt.alloc())),
    };
    Config::new(rt.alloc(), &raw)
}

/// An explainer of four processing elements, with its trees in this heap.
pub(crate) fn explainer<'h, R: AllocGlobal + Abort>(
    rt: &R,
    heap: &'h LocalHeap,
) -> Explainer<&'h LocalHeap> {
    explainer_of(rt, 2, heap)
}

/// An explainer of a machine with this many stages, with its trees in this heap.
pub(crate) fn explainer_of<'h, R: AllocGlobal + Abort>(
    rt: &R,
    stages: i64,
    heap: &'h LocalHeap,
) -> Explainer<&'h LocalHeap> {
    let settings = settings(rt, stages).expect(rt, "settings are refused");
    Explainer::new(&settings, heap).expect(rt, "no room for an explainer")
}

/// Absorbs an event that the explainer accepts.
pub(crate) fn absorb<A: Allocator + Clone>(
    rt: &impl Abort,
    explainer: &mut Explainer<A>,
    event: &Event,
) -> Result<Option<Tree<A>>, ExplainFault> {
    assert!(rt; explainer.accepts(event));
    explainer.absorb(event)
}

/// A request for cell 0 that adds a word.
fn addition(pe: Pe, word: Word) -> Request {
    Request {
        pe,
        cell: 0,
        op: Op::Faa(word),
    }
}

/// A processing element issues its request of this number, which adds a word to cell 0.
pub(crate) fn issue(pe: Pe, number: u32, word: Word) -> Event {
    Event::Issued {
        request: addition(pe, word),
        number,
    }
}

/// Two requests for cell 0 combine. The one that was in the queue comes first.
pub(crate) fn meeting(stage: u32, position: u32, old: Pe, new: Pe) -> Event {
    Event::Combined {
        stage,
        position,
        cell: 0,
        old,
        new,
        old_first: true,
    }
}

/// A request that adds a word to cell 0, which holds 0, is served.
pub(crate) fn serving(pe: Pe, word: Word) -> Event {
    Event::Served {
        module: 0,
        request: addition(pe, word),
        reply: Reply::Value(0),
        now: word,
    }
}

/// The tree of a request that adds a word to cell 0, which holds 0: the request is served.
pub(crate) fn serve<A: Allocator + Clone>(
    rt: &impl Abort,
    explainer: &mut Explainer<A>,
    pe: Pe,
    word: Word,
) -> Tree<A> {
    let served = absorb(rt, explainer, &serving(pe, word));
    served.ok().flatten().expect(rt, "no tree")
}

/// What happens before the act where each of four processing elements adds its number and 1 to cell
/// 0.
pub(crate) fn all_combined() -> [Event; 7] {
    [
        issue(0, 0, 1),
        issue(1, 0, 2),
        issue(2, 0, 3),
        issue(3, 0, 4),
        meeting(0, 0, 2, 0),
        meeting(0, 2, 3, 1),
        meeting(1, 0, 2, 3),
    ]
}

/// Absorbs events, and gives the number of those before the first that is refused: all, if none is.
pub(crate) fn absorb_all<A: Allocator + Clone>(
    rt: &impl Abort,
    explainer: &mut Explainer<A>,
    events: &[Event],
) -> usize {
    for (number, event) in events.iter().enumerate() {
        if absorb(rt, explainer, event).is_err() {
            return number;
        }
    }
    events.len()
}
