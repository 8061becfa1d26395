//! Messages for cell 0, what a wait buffer keeps of them, and what happens to them.

use ultra_msg::{Event, Give, Op, Pe, Reply, ReplyMessage, Request, Word};
use ultra_switch::WaitRecord;

/// A processing element adds this word.
pub(crate) fn faa(pe: Pe, word: Word) -> Request {
    Request {
        pe,
        cell: 0,
        op: Op::Faa(word),
    }
}

/// A processing element is answered this word.
pub(crate) fn answer(pe: Pe, word: Word) -> ReplyMessage {
    ReplyMessage {
        pe,
        cell: 0,
        reply: Reply::Value(word),
    }
}

/// A processing element issues its first request, which adds this word.
pub(crate) fn issued_event(pe: Pe, word: Word) -> Event {
    Event::Issued {
        request: faa(pe, word),
        number: 0,
    }
}

/// Two requests combine at this stage and position: that of the first processing element with that
/// of the second.
pub(crate) fn combined_event(stage: u32, position: u32, old: Pe, new: Pe) -> Event {
    Event::Combined {
        stage,
        position,
        cell: 0,
        old,
        new,
        old_first: true,
    }
}

/// A record of two requests: the second gets `more` more than the first.
pub(crate) fn record_of_pair(pe: Pe, partner: Pe, more: Word) -> WaitRecord {
    WaitRecord {
        pe,
        cell: 0,
        give_old: Give::Same,
        partner,
        give_new: Give::Plus(more),
    }
}

/// Module 0 serves the request of a processing element that adds a word, with the value before and
/// after.
pub(crate) fn served_event(pe: Pe, word: Word, old: Word, now: Word) -> Event {
    Event::Served {
        module: 0,
        request: faa(pe, word),
        reply: Reply::Value(old),
        now,
    }
}

/// A processing element gets this value.
pub(crate) fn answered_event(pe: Pe, word: Word) -> Event {
    Event::Delivered(answer(pe, word))
}
