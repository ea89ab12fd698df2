//! Words as a fault line shows them.

use std::alloc::Global;

/// How many bytes of a word a fault line shows, at most.
const SHOWN_MAX: usize = 80;

/// What stands for the rest of a word that is too long.
const REST: &str = "..";

/// How many bytes at the front of a word decide how it is shown: where it is shown, a letter takes no fewer bytes than in the word,
/// and one that is cut here comes after those that are shown.
const FRONT_LEN: usize = SHOWN_MAX + 4;

/// What stands for a word without a letter.
const NO_LETTER: &str = "''";

/// A word as a fault line shows it: 80 bytes of it at the most, and control characters by their numbers.
/// `None` when out of memory.
pub fn shown(alloc: Global, word: &str) -> Option<String> {
    let mut text = String::new(alloc);
    if word.is_empty() {
        text.push_str(NO_LETTER).ok()?;
        return Some(text);
    }
    let all = word.chars().count();
    let is_whole = letters_within(word, SHOWN_MAX) == all;
    let count = if is_whole {
        all
    } else {
        letters_within(word, SHOWN_MAX - REST.len())
    };
    for letter in word.chars().take(count) {
        push_shown(&mut text, letter)?;
    }
    if !is_whole {
        text.push_str(REST).ok()?;
    }
    Some(text)
}

/// The same of a word of any bytes that is put between quotes: what is no UTF-8 is shown as U+FFFD, and nothing as nothing.
/// However long the word is, only its front is copied.
pub(crate) fn shown_bytes(alloc: Global, word: &[u8]) -> Option<String> {
    if word.is_empty() {
        return Some(String::new(alloc));
    }
    let front = word.get(..FRONT_LEN).unwrap_or(word);
    let text = String::from_utf8_lossy(alloc, front).ok()?;
    shown(alloc, text.as_str())
}

/// How many letters of a word take so many bytes at the most where they are shown.
fn letters_within(word: &str, most: usize) -> usize {
    let mut left = most;
    let mut count: usize = 0;
    for letter in word.chars() {
        let len = shown_len(letter);
        if len > left {
            return count;
        }
        left -= len;
        count = count.saturating_add(1);
    }
    count
}

/// How many bytes a letter takes where it is shown: a control character takes those of its number, as `\u{9}` or `\u{1b}`.
fn shown_len(letter: char) -> usize {
    if letter.is_control() {
        letter.escape_unicode().count()
    } else {
        letter.len_utf8()
    }
}

/// Pushes a letter, or the number of one that would not show.
fn push_shown(text: &mut String, letter: char) -> Option<()> {
    if letter.is_control() {
        for part in letter.escape_unicode() {
            text.push(part).ok()?;
        }
        return Some(());
    }
    text.push(letter).ok()
}
