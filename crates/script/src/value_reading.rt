//! The values and bytes that words spell.

ghost use Rattle.std.specs.Prelude.{◌≡◌, map, None, Some, IfOk, IfErr, MatchOption};
ghost use Rattle.rows.specs.Text.{value_text};
ghost use Rattle.rows.specs.declared.value.Value.{Value};
ghost use Rattle.script.specs.Laws.{WordsDetermineValues};
ghost use Rattle.script.specs.Inner.LineFaults.{OrMemory};
ghost use Rattle.script.specs.Inner.WordReading.{values_in_words, hex_of};
ghost use Rattle.script.specs.Values.{HasWord};

use crate::faults::{LineFault, Reason};
use crate::word_reading::{byte_of, value_of};
use rows::Value;
use std::alloc::Global;

/// The value that a word spells: a signed decimal number of 64 bits without needless zeros, or `x`
/// and 1 to 64 pairs of lower-case hexadecimal digits; `None` exactly if it spells none. Takes no
/// memory.
pub fn read_value(word: &[u8]) -> Option<Value>
    ensures { MatchOption result ((value : Value) → HasWord value → value_text value ≡ word.now → ⊥)
        (λ value. HasWord value × (value_text value ≡ word.now)) }
{
    value_of(word)
}

/// The values that words spell.
///
/// Fails with `BadWords` if one of them spells none, or with `Memory`.
pub fn read_values(alloc: Global, words: &[&[u8]]) -> Result<Vec<Value>, LineFault>
    ensures ok { IfOk result (λ values. values_in_words (map (λ word. word.now) words.now) ≡ Some values.items) }
    ensures err { IfErr result (OrMemory (λ reason.
        (reason ≡ Reason.BadWords) × (values_in_words (map (λ word. word.now) words.now) ≡ None))) }
{
    let Ok(mut values) = Vec::with_capacity(alloc, words.len()) else {
        return Err(LineFault::Memory);
    };
    for word in words {
        match value_of(word) {
            Some(value) => {
                if values.push(value).is_err() {
                    return Err(LineFault::Memory);
                }
            }
            None => return Err(LineFault::Because(Reason::BadWords)),
        }
    }
    Ok(values)
}

/// The bytes of any number of pairs of lower-case hexadecimal digits; `-` spells no bytes.
///
/// Fails with `BadWords` if the word is neither, or with `Memory`.
pub fn read_bytes(alloc: Global, word: &[u8]) -> Result<Vec<u8>, LineFault>
    ensures ok { IfOk result (λ bytes. hex_of word.now ≡ Some bytes.items) }
    ensures err { IfErr result (OrMemory (λ reason. (reason ≡ Reason.BadWords) × (hex_of word.now ≡ None))) }
{
    let mut bytes = Vec::new(alloc);
    if word == b"-".as_slice() {
        return Ok(bytes);
    }
    if word.is_empty() || word.len() % 2 != 0 {
        return Err(LineFault::Because(Reason::BadWords));
    }
    for index in 0..word.len() / 2 {
        match byte_of(word[2 * index], word[2 * index + 1]) {
            Some(byte) => {
                if bytes.push(byte).is_err() {
                    return Err(LineFault::Memory);
                }
            }
            None => return Err(LineFault::Because(Reason::BadWords)),
        }
    }
    Ok(bytes)
}

/// A word spells at most one value. It does nothing: its contract states this of the text of
/// values, independent of the reader.
pub fn words_determine_values()
    ensures { WordsDetermineValues }
{}
