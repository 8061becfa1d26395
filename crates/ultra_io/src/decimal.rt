//! Numbers that decimal digits write.

ghost use Rattle.std.specs.{Prelude.{◌≡◌, ◌-◌, SomeIff}, Int.IsInRange};
ghost use Rattle.ultra_io.specs.Decimal.{has_leading_zero, decimal_value, plain_number};

/// The number that one decimal digit or more write without leading zero, if it is below `2^32`.
pub fn plain_number(word: &[u8]) -> Option<u32>
    ensures { result ≡ plain_number word.now }
{
    if has_leading_zero(word) {
        return None;
    }
    number_written(word)
}

/// Whether the first of several bytes is a zero.
fn has_leading_zero(word: &[u8]) -> bool
    ensures { result ≡ has_leading_zero word.now }
{
    word.len() > 1 && word[0] == b'0'
}

/// The number that one decimal digit or more write, if it is below `2^32`.
pub fn number_written(word: &[u8]) -> Option<u32>
    ensures { result ≡ decimal_value word.now }
{
    if word.is_empty() {
        return None;
    }
    let mut value = 0u32;
    for byte in word {
        let ones = u32::from(digit(*byte)?);
        value = value.checked_mul(10)?.checked_add(ones)?;
    }
    Some(value)
}

/// The value of a decimal digit.
fn digit(byte: u8) -> Option<u8>
    ensures { SomeIff result (IsInRange 48 57 byte) (byte - 48) }
{
    if byte.is_ascii_digit() {
        Some(byte - b'0')
    } else {
        None
    }
}
