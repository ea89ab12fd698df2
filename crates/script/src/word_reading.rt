//! The words of a line, and the numbers, values and names that they spell.

ghost use Rattle.std.specs.Prelude.{◌≡◌, ◌≢◌, ℕ, ℤ, ◌<◌, ◌==◌, ◌^◌, map, None, Some, IfOk, MatchOption, decimal, FitsSigned};
ghost use Rattle.std.specs.Fmt.{signed_decimal};
ghost use Rattle.std.specs.Int.{w64};
ghost use Rattle.std.specs.List.{slice_split, list_all};
ghost use Rattle.std.specs.Str.{bytes_eq, IsUtf8};
ghost use Rattle.script.specs.Text.{is_name, is_letter, is_name_byte, is_text};
ghost use Rattle.script.specs.Inner.WordReading.{number_of, below_of, int_of, octets_of, byte_of, digit_of, value_of};

use itoa::Buffer;
use rows::limits::OCTETS_MAX;
use rows::{Octets, Value};
use std::alloc::{AllocError, Global};

/// The words of a line, separated by one space. A space at an end of the line, or two in a row,
/// make an empty word.
pub fn words_of(alloc: Global, line: &[u8]) -> Result<Vec<&[u8]>, AllocError>
    ensures { IfOk result (λ words. map (λ word. word.now) words.items ≡ slice_split (λ byte. byte == 32) line.now) }
{
    line.split(|byte| *byte == b' ').collect(alloc)
}

/// A decimal number without needless zeros, up to 64 bits.
pub fn number(word: &[u8]) -> Option<u64>
    ensures { result ≡ number_of word.now }
{
    let number = parsed(word)?;
    // Other spellings that parse, such as one with a sign or leading zeros, differ from the one in
    // which the number is written.
    if is_written(number, word) {
        Some(number)
    } else {
        None
    }
}

/// The number that the word parses as, which is the answer if it is written in this way.
fn parsed(word: &[u8]) -> Option<u64>
    ensures { (number : ℕ) → number < 2 ^ 64 → decimal number ≡ word.now → result ≡ Some number }
{
    text(word)?.parse().ok()
}

fn is_written(number: u64, word: &[u8]) -> bool
    ensures { result ≡ bytes_eq (decimal number) word.now }
{
    let mut digits = Buffer::new();
    digits.format(number).as_bytes() == word
}

/// A decimal number below a limit.
#[tactic(auto, unfolding(crate::specs::Inner::WordReading::below_of))]
pub fn number_below(word: &[u8], limit: u8) -> Option<u8>
    ensures { result ≡ below_of limit word.now }
{
    let value = number(word)?;
    if value < u64::from(limit) {
        Some(value as u8)
    } else {
        None
    }
}

/// A decimal number up to 255.
#[tactic(auto, unfolding(crate::specs::Inner::WordReading::below_of))]
pub fn small_number(word: &[u8]) -> Option<u8>
    ensures value { result ≡ below_of (2 ^ 8) word.now }
    ensures exact { MatchOption result
        ((number : ℕ) → number < 2 ^ 8 → decimal number ≢ word.now)
        (λ number. (number < 2 ^ 8) × (decimal number ≡ word.now)) }
{
    u8::try_from(number(word)?).ok()
}

/// A signed decimal number of 64 bits; `-` is only allowed before a number that is not 0.
pub fn int(word: &[u8]) -> Option<i64>
    ensures { result ≡ int_of word.now }
{
    let value = parsed_int(word)?;
    if is_written_int(value, word) {
        Some(value)
    } else {
        None
    }
}

/// The number that the word parses as, which is the answer if it is written in this way.
fn parsed_int(word: &[u8]) -> Option<i64>
    ensures { (number : ℤ) → FitsSigned w64 number → signed_decimal number ≡ word.now → result ≡ Some number }
{
    text(word)?.parse().ok()
}

fn is_written_int(number: i64, word: &[u8]) -> bool
    ensures { result ≡ bytes_eq (signed_decimal number) word.now }
{
    let mut text = Buffer::new();
    text.format(number).as_bytes() == word
}

/// The value that a word spells: `x` and 1 to 64 pairs of lower-case hexadecimal digits, or else a
/// signed decimal number of 64 bits; `None` if it spells none. Takes no memory.
#[tactic(auto, unfolding(crate::specs::Inner::WordReading::value_of))]
pub fn value_of(word: &[u8]) -> Option<Value>
    ensures { result ≡ value_of word.now }
{
    match word {
        [b'x', digits @ ..] => Some(Value::Octets(octets_of(digits)?)),
        digits => Some(Value::Int(int(digits)?)),
    }
}

/// The bytes of 1 to 64 pairs of lower-case hexadecimal digits.
fn octets_of(digits: &[u8]) -> Option<Octets>
    ensures { result ≡ octets_of digits.now }
{
    let len = digits.len() / 2;
    if digits.len() % 2 != 0 || len == 0 || len > OCTETS_MAX {
        return None;
    }
    let mut bytes = [0; OCTETS_MAX];
    for index in 0..len {
        bytes[index] = byte_of(digits[2 * index], digits[2 * index + 1])?;
    }
    Octets::from_slice(&bytes[..len])
}

/// The byte of two hexadecimal digits.
#[tactic(auto, unfolding(crate::specs::Inner::WordReading::byte_of))]
pub fn byte_of(high: u8, low: u8) -> Option<u8>
    ensures { result ≡ byte_of high low }
{
    Some(hex_digit(high)? * 16 + hex_digit(low)?)
}

/// The value of a lower-case hexadecimal digit.
fn hex_digit(digit: u8) -> Option<u8>
    ensures { result ≡ digit_of digit }
{
    match digit {
        b'0'..=b'9' => Some(digit - b'0'),
        b'a'..=b'f' => Some(digit - b'a' + 10),
        _ => None,
    }
}

/// Whether all bytes are allowed in a line of text: from 20 to 7e.
pub fn is_text(line: &[u8]) -> bool
    ensures { result ≡ is_text line.now }
{
    line.iter().all(|byte| 0x20 <= *byte && *byte <= 0x7e)
}

/// Whether the word has the form of a table's name: 1 to 16 of `a` to `z`, `0` to `9` and `_`,
/// beginning with a letter.
pub fn is_name(word: &[u8]) -> bool
    ensures { result ≡ is_name word.now }
{
    let Some((first, rest)) = word.split_first() else {
        return false;
    };
    if !is_letter(*first) {
        return false;
    }
    if rest.len() >= NAME_LEN_MAX {
        return false;
    }
    are_name_bytes(rest)
}

fn are_name_bytes(bytes: &[u8]) -> bool
    ensures { result ≡ list_all is_name_byte bytes.now }
{
    bytes.iter().all(|byte| is_name_byte(*byte))
}

fn is_letter(byte: u8) -> bool
    ensures { result ≡ is_letter byte }
{
    matches!(byte, b'a'..=b'z')
}

fn is_name_byte(byte: u8) -> bool
    ensures { result ≡ is_name_byte byte }
{
    matches!(byte, b'a'..=b'z' | b'0'..=b'9' | b'_')
}

/// Characters of a table's name, at most.
const NAME_LEN_MAX: usize = 16;

/// The word as text, if it is text.
pub fn text(word: &[u8]) -> Option<&str>
    ensures { MatchOption result (¬ IsUtf8 word.now) (λ text. (text.now ≡ word.now) × IsUtf8 word.now) }
{
    std::str::from_utf8(word).ok()
}
