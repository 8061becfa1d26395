//! The entry of a line at the start of a text.

ghost use Rattle.std.specs.{Prelude.◌≡◌, Option.{option_map, option_copied}};
ghost use Rattle.ultra_list.specs.Reading.{operation_at, reply_at, end_at, entry_at};

use crate::number::{number_at, numbers_at, rest_after};
use ultra_msg::{Op, Reply};
use ultra_serial_law::Entry;

/// The entry that the first line of a text is, and the text after that line.
pub(crate) fn entry_at(text: &[u8]) -> Option<(Entry, &[u8])>
    ensures { option_map (λ r. (r.0, r.1.now)) result ≡ entry_at text.now }
{
    let (pe, rest) = number_at(text)?;
    let rest = rest_after(b".", rest)?;
    let (number, rest) = number_at(rest)?;
    let rest = rest_after(b" ", rest)?;
    let (op, cell, rest) = operation_at(rest)?;
    let rest = rest_after(b" = ", rest)?;
    let (reply, rest) = reply_at(rest)?;
    let rest = end_at(rest)?;
    let entry = Entry {
        pe,
        number,
        cell,
        op,
        reply,
    };
    Some((entry, rest))
}

/// The operation and its cell that a text begins with, such as `faa 0 1`, and the text after them.
fn operation_at(text: &[u8]) -> Option<(Op, u32, &[u8])>
    ensures { option_map (λ r. (r.0, r.1, r.2.now)) result ≡ operation_at text.now }
{
    if let Some(rest) = rest_after(b"load ", text) {
        let (cell, rest) = number_at(rest)?;
        return Some((Op::Load, cell, rest));
    }
    if let Some(rest) = rest_after(b"store ", text) {
        let (cell, word, rest) = numbers_at(rest)?;
        return Some((Op::Store(word), cell, rest));
    }
    if let Some(rest) = rest_after(b"faa ", text) {
        let (cell, word, rest) = numbers_at(rest)?;
        return Some((Op::Faa(word), cell, rest));
    }
    let rest = rest_after(b"swap ", text)?;
    let (cell, word, rest) = numbers_at(rest)?;
    Some((Op::Swap(word), cell, rest))
}

/// The reply that a text begins with, and the text after it.
fn reply_at(text: &[u8]) -> Option<(Reply, &[u8])>
    ensures { option_map (λ r. (r.0, r.1.now)) result ≡ reply_at text.now }
{
    if let Some(rest) = rest_after(b"ack", text) {
        return Some((Reply::Ack, rest));
    }
    let (word, rest) = number_at(text)?;
    Some((Reply::Value(word), rest))
}

/// The text after a line's end, if this text begins with one: byte 10, bytes 13 and 10, or nothing
/// at all.
fn end_at(text: &[u8]) -> Option<&[u8]>
    ensures { option_copied result ≡ end_at text.now }
{
    if text.is_empty() {
        return Some(text);
    }
    if let Some(rest) = rest_after(b"\n", text) {
        return Some(rest);
    }
    rest_after(b"\r\n", text)
}
