//! Short texts, which are gathered before they are written at once.

ghost use Rattle.std.specs.Prelude.{◌≡◌, ◌+◌, ◌≤◌, ◌++◌, length, decimal};
ghost use Rattle.arrayvec.specs.ArrayVec.{array_vec_len};
ghost use Rattle.ultra_tree.specs.{Text.{closings, order_mark_text}, declared.short_text.TheConstants.SHORT_BYTES};

use arrayvec::ArrayVec;
use itoa::Buffer;

/// How many bytes a short text has room for.
pub const SHORT_BYTES: usize = 64;

/// The bytes of a short text.
pub type ShortText = ArrayVec<u8, SHORT_BYTES>;

/// Adds bytes to a text.
#[inline(always)]
pub fn add_bytes(text: &mut ShortText, bytes: &[u8])
    requires { array_vec_len text.old + length bytes.now ≤ SHORT_BYTES }
    ensures items { text.new.items ≡ text.old.items ++ bytes.now }
    ensures len { array_vec_len text.new ≡ array_vec_len text.old + length bytes.now }
{
    let Ok(()) = text.try_extend_from_slice(bytes) else {
        unreachable!()
    };
}

/// Adds a number in decimal digits, at most 10.
#[inline(always)]
pub fn add_decimal(text: &mut ShortText, number: u32)
    requires { array_vec_len text.old + 10 ≤ SHORT_BYTES }
    ensures items { text.new.items ≡ text.old.items ++ decimal number }
    ensures len { array_vec_len text.new ≤ array_vec_len text.old + 10 }
{
    // most numbers have one digit or two, which take no call
    if number < 10 {
        text.push(b'0' + number as u8);
    } else if number < 100 {
        text.push(b'0' + (number / 10) as u8);
        text.push(b'0' + (number % 10) as u8);
    } else {
        let mut buffer = Buffer::new();
        add_bytes(text, buffer.format(number).as_bytes());
    }
}

/// Adds what closes this many pairs.
#[inline(always)]
pub(crate) fn add_closings(text: &mut ShortText, count: u64)
    requires { array_vec_len text.old + count ≤ SHORT_BYTES }
    ensures items { text.new.items ≡ text.old.items ++ closings count }
    ensures len { array_vec_len text.new ≡ array_vec_len text.old + count }
{
    for _ in 0..count {
        text.push(b']');
    }
}

/// Adds which part of a pair comes first in the serial order, if the text goes on with its new
/// part.
#[inline(always)]
pub(crate) fn add_mark(text: &mut ShortText, mark: Option<bool>)
    requires { array_vec_len text.old + 3 ≤ SHORT_BYTES }
    ensures { text.new.items ≡ text.old.items ++ order_mark_text mark }
{
    match mark {
        None => {}
        Some(true) => add_bytes(text, b" < "),
        Some(false) => add_bytes(text, b" > "),
    }
}
