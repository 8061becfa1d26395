//! The words of a line.

ghost use Rattle.std.specs.{Prelude.{◌≡◌, map, take, position, IfOk}, List.{before_first, list_all}, Option.option_copied};
ghost use Rattle.ultra_asm.specs.Words.{is_separator, begins_comment, line_words, is_letter, is_name_byte, is_name, before_colon, register_of, shift_of};

use std::alloc::{AllocError, Global};
use ultra_io::{number_written, plain_number};
use ultra_msg::{Register, Shift};

/// The most words of a line that are looked at: a label, the word of an instruction, three
/// operands, and one word more, which is one too many.
const MOST_WORDS: usize = 6;

/// The first words of a line, six at most.
pub fn first_words(alloc: Global, line: &[u8]) -> Result<Vec<&[u8]>, AllocError>
    ensures { IfOk result (λ v. map (λ w. w.now) v.items ≡ take 6 (line_words line.now)) }
{
    before_comment(line)
        .split(|byte| is_separator(*byte))
        .filter(|word| !word.is_empty())
        .take(MOST_WORDS)
        .collect(alloc)
}

/// The line without its comment.
fn before_comment(line: &[u8]) -> &[u8]
    ensures { result.now ≡ before_first begins_comment line.now }
{
    match comment_start(line) {
        Some(end) => &line[..end],
        None => line,
    }
}

/// Where the comment begins, if there is one.
fn comment_start(line: &[u8]) -> Option<usize>
    ensures { result ≡ position begins_comment line.now }
{
    line.iter().position(|byte| begins_comment(*byte))
}

/// Whether the byte begins a comment: `;` or `#`.
fn begins_comment(byte: u8) -> bool
    ensures { result ≡ begins_comment byte }
{
    byte == b';' || byte == b'#'
}

/// Whether the byte separates words: a blank, a tab, byte 13 or a comma.
fn is_separator(byte: u8) -> bool
    ensures { result ≡ is_separator byte }
{
    byte == b' ' || byte == b'\t' || byte == b'\r' || byte == b','
}

/// What is before the `:` at a word's end, if there is one.
pub fn before_colon(word: &[u8]) -> Option<&[u8]>
    ensures { option_copied result ≡ before_colon word.now }
{
    match word {
        [name @ .., b':'] => Some(name),
        _ => None,
    }
}

/// Whether the word is a name: 1 to 32 bytes, first a letter or `_`, then letters, `_` or digits.
pub fn is_name(word: &[u8]) -> bool
    ensures { result ≡ is_name word.now }
{
    !word.is_empty() && word.len() <= MOST_NAME_BYTES && is_letter(word[0]) && all_in_names(word)
}

/// Whether each byte can be in a name.
fn all_in_names(word: &[u8]) -> bool
    ensures { result ≡ list_all is_name_byte word.now }
{
    word.iter().all(|byte| is_name_byte(*byte))
}

/// The most bytes of a name.
const MOST_NAME_BYTES: usize = 32;

/// Whether the byte is a letter or `_`.
fn is_letter(byte: u8) -> bool
    ensures { result ≡ is_letter byte }
{
    matches!(byte, b'A'..=b'Z' | b'a'..=b'z' | b'_')
}

/// Whether the byte is a letter, `_` or a digit.
fn is_name_byte(byte: u8) -> bool
    ensures { result ≡ is_name_byte byte }
{
    is_letter(byte) || matches!(byte, b'0'..=b'9')
}

/// The register of this name: `r0` to `r15`, without leading zero.
pub fn register_named(word: &[u8]) -> Option<Register>
    ensures { result ≡ register_of word.now }
{
    let [b'r', digits @ ..] = word else {
        return None;
    };
    let index = plain_number(digits)?;
    Register::new(u8::try_from(index).ok()?)
}

/// The number of bits that a number from 0 to 31 writes.
pub fn shift_written(word: &[u8]) -> Option<Shift>
    ensures { result ≡ shift_of word.now }
{
    let bits = number_written(word)?;
    Shift::new(u8::try_from(bits).ok()?)
}
