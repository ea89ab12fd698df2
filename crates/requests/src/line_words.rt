//! The words of a line, one after the other, up to the first that is wrong. Their forms are those that `script` reads; here they
//! decide nothing but what a fault says.

use crate::job_line::first_word;
use crate::word_fault::WordFault;
use rows::Schema;
use script::read_value;

/// Bytes of a table's name, at most.
const NAME_LEN_MAX: usize = 16;

/// A word that is wrong, and why.
#[derive(Clone, Copy)]
pub struct BadWord<'a> {
    pub word: &'a [u8],
    pub why: WordFault,
}

impl<'a> BadWord<'a> {
    /// This word, which is wrong by itself, or otherwise for this reason.
    pub fn new(word: &'a [u8], otherwise: WordFault) -> BadWord<'a> {
        BadWord {
            word,
            why: WordFault::of(word, otherwise),
        }
    }
}

/// The words of a line that are left, and the one before them.
#[derive(Drop)]
pub struct LineWords<'a> {
    last: &'a [u8],
    /// `None` after the last word.
    left: Option<&'a [u8]>,
}

impl<'a> LineWords<'a> {
    /// All words of a line. It has one at least, which may be empty.
    pub fn new(line: &'a [u8]) -> LineWords<'a> {
        LineWords {
            last: line,
            left: Some(line),
        }
    }

    /// The next word. Fails with the last one if none is left.
    pub fn next(&mut self) -> Result<&'a [u8], BadWord<'a>> {
        let Some(left) = self.left else {
            return Err(BadWord::new(self.last, WordFault::Missing));
        };
        let (word, behind) = first_word(left);
        self.last = word;
        self.left = match behind.split_first() {
            Some((_space, left)) => Some(left),
            None => None,
        };
        Ok(word)
    }

    /// Whether a word is left.
    pub fn has_next(&self) -> bool {
        self.left.is_some()
    }

    /// The word that comes next, if one is left.
    pub fn peek(&self) -> Option<&'a [u8]> {
        let left = self.left?;
        let (word, _) = first_word(left);
        Some(word)
    }

    /// Fails with the next word, if one is left.
    pub fn end(&mut self) -> Result<(), BadWord<'a>> {
        if !self.has_next() {
            return Ok(());
        }
        let word = self.next()?;
        Err(BadWord::new(word, WordFault::TooMany))
    }

    /// Takes a word that has to be this one.
    pub fn word(&mut self, wanted: &[u8], otherwise: WordFault) -> Result<(), BadWord<'a>> {
        let word = self.next()?;
        if word == wanted {
            Ok(())
        } else {
            Err(BadWord::new(word, otherwise))
        }
    }

    /// Takes a word that has the form of a table's name.
    pub fn name(&mut self) -> Result<&'a [u8], BadWord<'a>> {
        let word = self.next()?;
        if is_name(word) {
            Ok(word)
        } else {
            Err(BadWord::new(word, WordFault::NoName))
        }
    }

    /// Takes the name of a table that is there.
    pub fn table(&mut self, schema: &Schema) -> Result<(), BadWord<'a>> {
        let word = self.name()?;
        if is_table(schema, word) {
            Ok(())
        } else {
            Err(BadWord::new(word, WordFault::NoTable))
        }
    }

    /// Takes a number of 64 bits.
    pub fn number(&mut self) -> Result<(), BadWord<'a>> {
        let word = self.next()?;
        match number_of(word) {
            Some(_) => Ok(()),
            None => Err(BadWord::new(word, WordFault::NoNumber)),
        }
    }

    /// Takes the number of a column of a job.
    pub fn column(&mut self) -> Result<(), BadWord<'a>> {
        let word = self.next()?;
        if is_column(word) {
            Ok(())
        } else {
            Err(BadWord::new(word, WordFault::NoColumn))
        }
    }

    /// Takes a value.
    pub fn value(&mut self) -> Result<(), BadWord<'a>> {
        let word = self.next()?;
        match read_value(word) {
            Some(_) => Ok(()),
            None => Err(BadWord::new(word, WordFault::NoValue)),
        }
    }
}

/// Whether a word has the form of a table's name.
fn is_name(word: &[u8]) -> bool {
    match word {
        [b'a'..=b'z', rest @ ..] => {
            rest.len() < NAME_LEN_MAX
                && rest
                    .iter()
                    .all(|byte| matches!(*byte, b'a'..=b'z' | b'0'..=b'9' | b'_'))
        }
        _ => false,
    }
}

/// Whether a table has this name.
fn is_table(schema: &Schema, name: &[u8]) -> bool {
    match std::str::from_utf8(name) {
        Ok(name) => schema.table_named(name).is_some(),
        Err(_) => false,
    }
}

/// The number that a word spells, in decimal without needless zeros.
pub fn number_of(word: &[u8]) -> Option<u64> {
    let is_spelled = match word {
        [b'0'] => true,
        [b'1'..=b'9', rest @ ..] => rest.iter().all(|byte| byte.is_ascii_digit()),
        _ => false,
    };
    if !is_spelled {
        return None;
    }
    std::str::from_utf8(word).ok()?.parse().ok()
}

/// Whether a word is the number of a column.
pub fn is_column(word: &[u8]) -> bool {
    match number_of(word) {
        Some(number) => number <= u64::from(u8::MAX),
        None => false,
    }
}
