//! At which word a line of jobs does not read.

use crate::dialect::Dialect;
use crate::line_words::{BadWord, LineWords, number_of};
use crate::misread::Misread;
use crate::word::{Word, word_of};
use crate::word_fault::WordFault;
use script::Reason;
use std::alloc::Global;

/// The word at which a line of jobs does not read, for this reason, with so many workers.
pub fn misread_job_line(
    alloc: Global,
    workers: u8,
    dialect: Dialect,
    line: &[u8],
    reason: Reason,
) -> Misread {
    let mut words = LineWords::new(line);
    Misread::of(
        alloc,
        look_at_job_line(workers, dialect, &mut words, reason),
    )
}

/// The first word of a line that reads, but stands in the wrong place: for this reason.
pub fn misplaced(alloc: Global, line: &[u8], why: WordFault) -> Misread {
    let mut words = LineWords::new(line);
    let found = match words.next() {
        Ok(word) => Err(BadWord { word, why }),
        Err(bad) => Err(bad),
    };
    Misread::of(alloc, found)
}

/// Fails with the word at which a line of jobs does not read.
fn look_at_job_line<'a>(
    workers: u8,
    dialect: Dialect,
    words: &mut LineWords<'a>,
    reason: Reason,
) -> Result<(), BadWord<'a>> {
    let first = words.next()?;
    match (word_of(dialect, first), reason) {
        (None, _) => look_at_other_line(dialect, first, words),
        (Some(_), Reason::NoTable) => {
            let name = words.next()?;
            Err(BadWord::new(name, WordFault::NoTable))
        }
        (Some(word), _) => look_at_words(workers, word, words),
    }
}

/// Fails at a line whose first word begins none of this dialect, or is all of it.
fn look_at_other_line<'a>(
    dialect: Dialect,
    first: &'a [u8],
    words: &mut LineWords<'a>,
) -> Result<(), BadWord<'a>> {
    let is_base = first == b"base".as_slice();
    if first == b"end".as_slice() || is_base && dialect == Dialect::Live {
        return words.end();
    }
    let is_live = is_base || word_of(Dialect::Live, first).is_some();
    let why = match dialect {
        Dialect::Jobs if is_live => WordFault::LiveOnly,
        _ => WordFault::NoJobLine,
    };
    Err(BadWord::new(first, why))
}

/// Fails with the first of the words after this one that is wrong.
fn look_at_words<'a>(
    workers: u8,
    word: Word,
    words: &mut LineWords<'a>,
) -> Result<(), BadWord<'a>> {
    match word {
        Word::Job => look_at_worker(workers, words)?,
        Word::Insert => {
            look_at_row(words)?;
            return look_at_values(words);
        }
        Word::Set | Word::Expect => {
            look_at_row(words)?;
            words.column()?;
            words.value()?;
        }
        Word::Delete | Word::Absent => look_at_row(words)?,
        Word::Column => {
            words.name()?;
            words.value()?;
        }
        Word::Get => {
            look_at_row(words)?;
            words.column()?;
        }
    }
    words.end()
}

/// Takes a worker that is there.
fn look_at_worker<'a>(workers: u8, words: &mut LineWords<'a>) -> Result<(), BadWord<'a>> {
    let word = words.next()?;
    match number_of(word) {
        Some(worker) if worker < u64::from(workers) => Ok(()),
        _ => Err(BadWord::new(word, WordFault::NoWorker)),
    }
}

/// Takes a table's name and a row.
fn look_at_row<'a>(words: &mut LineWords<'a>) -> Result<(), BadWord<'a>> {
    words.name()?;
    words.number()
}

/// Takes values, at least one.
fn look_at_values<'a>(words: &mut LineWords<'a>) -> Result<(), BadWord<'a>> {
    words.value()?;
    for _ in 0..u64::MAX {
        if !words.has_next() {
            return Ok(());
        }
        words.value()?;
    }
    Ok(())
}
