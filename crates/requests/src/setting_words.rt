//! At which word a schema file does not read.

use crate::line_words::{BadWord, LineWords, number_of};
use crate::misread::Misread;
use crate::word_fault::{WordFault, is_text};
use rows::limits::{COLUMNS_MAX, OCTETS_MAX, REPLICAS_MAX, ROW_WIDTH_MAX, TABLES_MAX, WORKERS_MAX};
use std::alloc::Global;

/// How a journal begins, whatever its version.
const JOURNAL_BEGIN: &[u8] = b"BDJ";

/// Settings before the tables.
const COUNTS: usize = 2;

/// The word at which a schema file does not read on this line, counted from 1. A journal is told as such, and so is a file that
/// ends too early.
pub fn misread_settings(alloc: Global, text: &[u8], line: u64) -> Misread {
    if text.starts_with(JOURNAL_BEGIN) {
        return Misread::Text(WordFault::Journal);
    }
    let mut number: u64 = 0;
    let mut settings: usize = 0;
    for bytes in text.split(|byte| *byte == b'\n') {
        number = number.saturating_add(1);
        if number == line {
            return misread_line(alloc, text, bytes, settings);
        }
        if is_setting(bytes) {
            settings = settings.saturating_add(1);
        }
    }
    Misread::Text(expected(settings))
}

/// Whether a line is not skipped.
fn is_setting(line: &[u8]) -> bool {
    !line.is_empty() && !line.starts_with(b"#")
}

/// What comes after so many settings.
fn expected(settings: usize) -> WordFault {
    match settings {
        0 => WordFault::NoWorkers,
        1 => WordFault::NoReplicas,
        _ => WordFault::NoTables,
    }
}

/// The word at which a line after so many settings does not read; of an empty line, which is the end of the text, what is missing.
fn misread_line(alloc: Global, text: &[u8], line: &[u8], settings: usize) -> Misread {
    if line.is_empty() {
        return Misread::Text(expected(settings));
    }
    let mut words = LineWords::new(line);
    if is_text(line) {
        Misread::of(alloc, look_at_setting(text, settings, &mut words))
    } else {
        Misread::of(alloc, look_at_text(&mut words))
    }
}

/// Fails with the first word that has a byte that is not allowed.
fn look_at_text<'a>(words: &mut LineWords<'a>) -> Result<(), BadWord<'a>> {
    for _ in 0..u64::MAX {
        let word = words.next()?;
        if !is_text(word) {
            return Err(BadWord::new(word, WordFault::NotText));
        }
    }
    Ok(())
}

/// Fails with the word at which a line is not the setting after so many.
fn look_at_setting<'a>(
    text: &[u8],
    settings: usize,
    words: &mut LineWords<'a>,
) -> Result<(), BadWord<'a>> {
    let why = expected(settings);
    match settings {
        0 => look_at_count(b"workers", WORKERS_MAX, why, words),
        1 => look_at_count(b"replicas", REPLICAS_MAX, why, words),
        _ => look_at_table(text, settings.saturating_sub(COUNTS), words),
    }
}

/// Takes this name and a count up to this limit, and no other word.
fn look_at_count<'a>(
    name: &[u8],
    limit: u8,
    otherwise: WordFault,
    words: &mut LineWords<'a>,
) -> Result<(), BadWord<'a>> {
    words.word(name, otherwise)?;
    let word = words.next()?;
    match number_of(word) {
        Some(count) if 0 < count && count <= u64::from(limit) => words.end(),
        _ => Err(BadWord::new(word, WordFault::NoCount)),
    }
}

/// Takes a table after so many others of this text.
fn look_at_table<'a>(
    text: &[u8],
    tables: usize,
    words: &mut LineWords<'a>,
) -> Result<(), BadWord<'a>> {
    words.word(b"table", WordFault::NoTables)?;
    if tables >= TABLES_MAX {
        return Err(BadWord::new(b"table", WordFault::TooManyTables));
    }
    let name = words.name()?;
    if is_named(text, tables, name) {
        return Err(BadWord::new(name, WordFault::NameTwice));
    }
    look_at_kinds(words)
}

/// Whether one of so many first tables of a text has this name.
fn is_named(text: &[u8], tables: usize, name: &[u8]) -> bool {
    let mut left = tables;
    for line in text.split(|byte| *byte == b'\n') {
        let mut words = LineWords::new(line);
        if words.peek() == Some(b"table".as_slice()) {
            if left == 0 {
                return false;
            }
            left -= 1;
            if has_name(&mut words, name) {
                return true;
            }
        }
    }
    false
}

/// Whether the word after the next is this name.
fn has_name(words: &mut LineWords<'_>, name: &[u8]) -> bool {
    match words.next() {
        Ok(_table) => words.peek() == Some(name),
        Err(_) => false,
    }
}

/// Takes the kinds of columns, at least one.
fn look_at_kinds<'a>(words: &mut LineWords<'a>) -> Result<(), BadWord<'a>> {
    let mut width = look_at_kind(words)?;
    for count in 1..u64::MAX {
        if !words.has_next() {
            return Ok(());
        }
        let word = words.peek().unwrap_or(b"");
        width = width.saturating_add(look_at_kind(words)?);
        if count >= COLUMNS_MAX as u64 {
            return Err(BadWord::new(word, WordFault::TooManyColumns));
        }
        if width > ROW_WIDTH_MAX as u64 {
            return Err(BadWord::new(word, WordFault::RowTooWide));
        }
    }
    Ok(())
}

/// Takes the kind of a column: how many bytes it has.
fn look_at_kind<'a>(words: &mut LineWords<'a>) -> Result<u64, BadWord<'a>> {
    let word = words.next()?;
    match width_of(word) {
        Some(width) => Ok(width),
        None => Err(BadWord::new(word, WordFault::NoKind)),
    }
}

/// How many bytes a column of this kind has.
fn width_of(word: &[u8]) -> Option<u64> {
    if word == b"int".as_slice() {
        return Some(8);
    }
    let width = number_of(word.strip_prefix(b"bytes")?)?;
    if 0 < width && width <= OCTETS_MAX as u64 {
        Some(width)
    } else {
        None
    }
}
