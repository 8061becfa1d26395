//! The words of a condition.

ghost use Rattle.std.specs.{Prelude.{◌≡◌, ◌<◌, ◌≤◌, IfSome, length, position}, Option.option_copied, List.position_or_len};
ghost use Rattle.ultra_asm.specs.Words.{is_name_byte};
ghost use Rattle.ultra_condition.specs.Words.{is_blank, is_not_blank, ends_word, is_long_sign, word_length, word_at, after, is_at_end};

/// The first word of a text, and the text behind it. At the text's end the word is empty.
#[tactic(auto, unfolding(crate::specs::Words::word_at))]
pub(crate) fn word_at(text: &[u8]) -> (&[u8], &[u8])
    ensures word { result.0.now ≡ (word_at text.now).0 }
    ensures rest { result.1.now ≡ (word_at text.now).1 }
    ensures shorter { length result.1.now ≤ length text.now }
    ensures some { 0 < length result.0.now → length result.1.now < length text.now }
{
    let (_, text) = text.split_at(blank_length(text));
    text.split_at(word_length(text))
}

/// What is behind this word, if it is the first of the text.
#[tactic(auto, unfolding(crate::specs::Words::after))]
pub(crate) fn after<'t>(word: &[u8], text: &'t [u8]) -> Option<&'t [u8]>
    requires { 0 < length word.now }
    ensures rest { option_copied result ≡ after word.now text.now }
    ensures shorter { IfSome result (λ rest. length rest.now < length text.now) }
{
    let (first, rest) = word_at(text);
    if first == word { Some(rest) } else { None }
}

/// Whether there is no word more.
pub(crate) fn is_at_end(text: &[u8]) -> bool
    ensures { result ≡ is_at_end text.now }
{
    text.iter().all(|byte| is_blank(*byte))
}

/// How many blanks and tabs a text begins with.
fn blank_length(text: &[u8]) -> usize
    ensures length { result ≡ position_or_len is_not_blank text.now }
    ensures within { result ≤ length text.now }
{
    match first_not_blank(text) {
        Some(length) => length,
        None => text.len(),
    }
}

/// The place of the first byte that is neither a blank nor a tab, if there is one.
fn first_not_blank(text: &[u8]) -> Option<usize>
    ensures place { result ≡ position is_not_blank text.now }
    ensures within { IfSome result (λ k. k < length text.now) }
{
    text.iter().position(|byte| is_not_blank(*byte))
}

/// How many bytes the word has that a text begins with.
fn word_length(text: &[u8]) -> usize
    ensures length { result ≡ word_length text.now }
    ensures within { result ≤ length text.now }
{
    let Some(&first) = text.first() else {
        return 0;
    };
    if is_name_byte(first) {
        name_length(text)
    } else if text.len() >= 2 && is_long_sign(first, text[1]) {
        2
    } else {
        1
    }
}

/// How many letters and digits a text begins with.
fn name_length(text: &[u8]) -> usize
    ensures length { result ≡ position_or_len ends_word text.now }
    ensures within { result ≤ length text.now }
{
    match first_end(text) {
        Some(length) => length,
        None => text.len(),
    }
}

/// The place of the first byte that is no letter and no digit, if there is one.
fn first_end(text: &[u8]) -> Option<usize>
    ensures place { result ≡ position ends_word text.now }
    ensures within { IfSome result (λ k. k < length text.now) }
{
    text.iter().position(|byte| ends_word(*byte))
}

/// Whether the byte is neither a blank nor a tab.
fn is_not_blank(byte: u8) -> bool
    ensures { result ≡ is_not_blank byte }
{
    !is_blank(byte)
}

/// Whether the byte is no letter and no digit.
fn ends_word(byte: u8) -> bool
    ensures { result ≡ ends_word byte }
{
    !is_name_byte(byte)
}

/// Whether the byte is a blank or a tab.
fn is_blank(byte: u8) -> bool
    ensures { result ≡ is_blank byte }
{
    byte == b' ' || byte == b'\t'
}

/// Whether the byte is a letter, `_` or a digit.
fn is_name_byte(byte: u8) -> bool
    ensures { result ≡ is_name_byte byte }
{
    matches!(byte, b'A'..=b'Z' | b'a'..=b'z' | b'_' | b'0'..=b'9')
}

/// Whether the bytes are `<=`, `>=`, `!=` or `..`.
fn is_long_sign(first: u8, second: u8) -> bool
    ensures { result ≡ is_long_sign first second }
{
    match second {
        b'=' => matches!(first, b'<' | b'>' | b'!'),
        b'.' => first == b'.',
        _ => false,
    }
}
