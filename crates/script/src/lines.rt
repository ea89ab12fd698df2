//! Lines of words, separated by one space.

ghost use Rattle.std.specs.Prelude.{◌≡◌, ◌∷◌, [], ◌++◌, map, OnOk};
ghost use Rattle.rows.specs.Text.{value_text, words_text, line_text};
ghost use Rattle.script.specs.Inner.Lines.{word_text, tail_text};

use rows::{Value, append_hex, append_number, append_value};
use std::alloc::AllocError;

/// A word that is written.
#[derive(Clone, Copy)]
pub enum Word<'a> {
    Text(&'a str),
    Number(u64),
    Value(&'a Value),
    /// A text, and a number right after it.
    Numbered(&'a str, u64),
    /// Bytes in hexadecimal, or `-` for none.
    Bytes(&'a [u8]),
}

/// Adds a line of these words, the first of which is a text, with its end of line.
pub fn push_line(text: &mut Vec<u8>, first: &str, words: &[Word]) -> Result<(), AllocError>
    ensures { OnOk result (text.new.items ≡ text.old.items ++ line_text (first.now ∷ map word_text words.now)) }
{
    push_words(text, first, words)?;
    text.push(b'\n')?;
    Ok(())
}

/// Adds these words, the first of which is a text.
pub fn push_words(text: &mut Vec<u8>, first: &str, words: &[Word]) -> Result<(), AllocError>
    ensures { OnOk result (text.new.items ≡ text.old.items ++ words_text (first.now ∷ map word_text words.now)) }
{
    text.extend_from_slice(first.as_bytes())?;
    push_tail(text, words)
}

/// Adds words, each after a space.
pub fn push_tail(text: &mut Vec<u8>, words: &[Word]) -> Result<(), AllocError>
    ensures { OnOk result (text.new.items ≡ text.old.items ++ tail_text (map word_text words.now)) }
{
    for word in words {
        text.push(b' ')?;
        push_word(text, word)?;
    }
    Ok(())
}

/// Adds values, each after a space.
pub fn push_values(text: &mut Vec<u8>, values: &[Value]) -> Result<(), AllocError>
    ensures { OnOk result (text.new.items ≡ text.old.items ++ tail_text (map value_text values.now)) }
{
    for value in values {
        text.push(b' ')?;
        append_value(text, value)?;
    }
    Ok(())
}

/// Adds a word.
fn push_word(text: &mut Vec<u8>, word: &Word) -> Result<(), AllocError>
    ensures { OnOk result (text.new.items ≡ text.old.items ++ word_text word.now) }
{
    match word {
        Word::Text(word) => text.extend_from_slice(word.as_bytes()),
        Word::Number(number) => append_number(text, *number),
        Word::Value(value) => append_value(text, value),
        Word::Numbered(word, number) => {
            text.extend_from_slice(word.as_bytes())?;
            append_number(text, *number)
        }
        Word::Bytes(bytes) => {
            if bytes.is_empty() {
                text.push(b'-')?;
                return Ok(());
            }
            append_hex(text, bytes)
        }
    }
}
