//! At which word a line of batches is no plan.

use crate::line_words::{BadWord, LineWords, is_column};
use crate::misread::Misread;
use crate::word_fault::WordFault;
use rows::Schema;
use std::alloc::Global;

/// The parts of a plan after its table, in their order.
#[derive(Clone, Copy, PartialEq, Eq)]
enum Part {
    Join,
    Where,
    By,
    Get,
}

impl Part {
    /// Its place in their order, from 1.
    fn place(self) -> u8 {
        match self {
            Part::Join => 1,
            Part::Where => 2,
            Part::By => 3,
            Part::Get => 4,
        }
    }
}

/// The word at which a line of batches is no plan on the tables of a schema.
pub fn misread_plan(alloc: Global, schema: &Schema, line: &[u8]) -> Misread {
    let mut words = LineWords::new(line);
    Misread::of(alloc, look_at_plan(schema, &mut words))
}

/// Fails with the word at which a line is no plan.
fn look_at_plan<'a>(schema: &Schema, words: &mut LineWords<'a>) -> Result<(), BadWord<'a>> {
    words.word(b"query", WordFault::NoQuery)?;
    words.table(schema)?;
    let mut place: u8 = 0;
    for _ in 0..Part::Get.place() {
        let part = next_part(place, words)?;
        look_at_part(schema, part, words)?;
        if part == Part::Get {
            return Ok(());
        }
        place = part.place();
    }
    Ok(())
}

/// Takes the word that begins a part, which comes after that of this place.
fn next_part<'a>(place: u8, words: &mut LineWords<'a>) -> Result<Part, BadWord<'a>> {
    let word = words.next()?;
    let Some(part) = part_of(word) else {
        return Err(BadWord::new(word, WordFault::NoPart));
    };
    if part.place() > place {
        Ok(part)
    } else if part.place() == place {
        Err(BadWord::new(word, WordFault::Twice))
    } else {
        Err(BadWord::new(word, WordFault::TooLate))
    }
}

/// The part that a word begins.
fn part_of(word: &[u8]) -> Option<Part> {
    if word == b"join".as_slice() {
        Some(Part::Join)
    } else if word == b"where".as_slice() {
        Some(Part::Where)
    } else if word == b"by".as_slice() {
        Some(Part::By)
    } else if word == b"get".as_slice() {
        Some(Part::Get)
    } else {
        None
    }
}

/// Takes the words of a part after its first.
fn look_at_part<'a>(
    schema: &Schema,
    part: Part,
    words: &mut LineWords<'a>,
) -> Result<(), BadWord<'a>> {
    match part {
        Part::Join => {
            words.column()?;
            words.table(schema)
        }
        Part::Where => look_at_conditions(words),
        Part::By => look_at_groups(words),
        Part::Get => look_at_aggregates(words),
    }
}

/// Takes conditions, at least one.
fn look_at_conditions<'a>(words: &mut LineWords<'a>) -> Result<(), BadWord<'a>> {
    look_at_condition(words)?;
    for _ in 0..u64::MAX {
        if words.peek() != Some(b"and".as_slice()) {
            return Ok(());
        }
        words.next()?;
        look_at_condition(words)?;
    }
    Ok(())
}

/// Takes a condition.
fn look_at_condition<'a>(words: &mut LineWords<'a>) -> Result<(), BadWord<'a>> {
    look_at_column(words)?;
    let word = words.next()?;
    if !is_comparison(word) {
        return Err(BadWord::new(word, WordFault::NoComparison));
    }
    words.value()
}

fn is_comparison(word: &[u8]) -> bool {
    word == b"=".as_slice()
        || word == b"!=".as_slice()
        || word == b"<".as_slice()
        || word == b"<=".as_slice()
        || word == b">".as_slice()
        || word == b">=".as_slice()
}

/// Takes columns, at least one.
fn look_at_groups<'a>(words: &mut LineWords<'a>) -> Result<(), BadWord<'a>> {
    look_at_column(words)?;
    for _ in 0..u64::MAX {
        match words.peek() {
            Some(word) if part_of(word).is_none() => look_at_column(words)?,
            _ => return Ok(()),
        }
    }
    Ok(())
}

/// Takes a column of the plan's table, or of the one that it joins.
fn look_at_column<'a>(words: &mut LineWords<'a>) -> Result<(), BadWord<'a>> {
    let word = words.next()?;
    let number = match word {
        [b'j', number @ ..] => number,
        number => number,
    };
    if is_column(number) {
        Ok(())
    } else {
        Err(BadWord::new(word, WordFault::NoColumn))
    }
}

/// Takes aggregates, at least one, and no other word.
fn look_at_aggregates<'a>(words: &mut LineWords<'a>) -> Result<(), BadWord<'a>> {
    look_at_aggregate(words)?;
    for _ in 0..u64::MAX {
        if !words.has_next() {
            return Ok(());
        }
        look_at_aggregate(words)?;
    }
    Ok(())
}

/// Takes an aggregate.
fn look_at_aggregate<'a>(words: &mut LineWords<'a>) -> Result<(), BadWord<'a>> {
    let word = words.next()?;
    if word == b"count".as_slice() {
        return Ok(());
    }
    if word == b"sum".as_slice() || word == b"min".as_slice() || word == b"max".as_slice() {
        return look_at_column(words);
    }
    Err(BadWord::new(word, no_aggregate(word)))
}

/// Why a word is no aggregate.
fn no_aggregate(word: &[u8]) -> WordFault {
    match part_of(word) {
        None => WordFault::NoAggregate,
        Some(Part::Get) => WordFault::Twice,
        Some(_) => WordFault::TooLate,
    }
}
