//! Numbers at the start of a text.

ghost use Rattle.std.specs.{Prelude.{◌≡◌, position}, List.position_or_len, Option.{option_map, option_copied}};
ghost use Rattle.ultra_list.specs.Reading.{is_not_digit, number_at, numbers_at, rest_after};

use ultra_io::plain_number;

/// The text after these bytes, if it begins with them.
pub(crate) fn rest_after<'t>(bytes: &[u8], text: &'t [u8]) -> Option<&'t [u8]>
    ensures { option_copied result ≡ rest_after bytes.now text.now }
{
    text.strip_prefix(bytes)
}

/// The number that a text begins with, and the text after it.
pub(crate) fn number_at(text: &[u8]) -> Option<(u32, &[u8])>
    ensures { option_map (λ r. (r.0, r.1.now)) result ≡ number_at text.now }
{
    let count = count_digits(text);
    let number = plain_number(&text[..count])?;
    Some((number, &text[count..]))
}

/// Two numbers with a blank between them, and the text after them.
pub(crate) fn numbers_at(text: &[u8]) -> Option<(u32, u32, &[u8])>
    ensures { option_map (λ r. (r.0, r.1, r.2.now)) result ≡ numbers_at text.now }
{
    let (first, rest) = number_at(text)?;
    let rest = rest_after(b" ", rest)?;
    let (second, rest) = number_at(rest)?;
    Some((first, second, rest))
}

/// How many digits a text begins with.
fn count_digits(text: &[u8]) -> usize
    ensures { result ≡ position_or_len is_not_digit text.now }
{
    match first_not_digit(text) {
        Some(count) => count,
        None => text.len(),
    }
}

/// The place of the first byte that is no digit, if there is one.
fn first_not_digit(text: &[u8]) -> Option<usize>
    ensures { result ≡ position is_not_digit text.now }
{
    text.iter().position(|byte| is_not_digit(*byte))
}

/// Whether a byte is no decimal digit.
fn is_not_digit(byte: u8) -> bool
    ensures { result ≡ is_not_digit byte }
{
    !matches!(byte, b'0'..=b'9')
}
