//! The first words of lines of jobs.

ghost use Rattle.std.specs.Prelude.{◌≡◌, option_map};
ghost use Rattle.requests.specs.JobLines.{change_word, live_word, word_of, event_name};

use crate::dialect::Dialect;

/// What the first word of a line of jobs says, other than `end` and `base`.
#[derive(Clone, Copy, PartialEq, Eq)]
pub enum Word {
    Job,
    Insert,
    Set,
    Delete,
    Column,
    Expect,
    Absent,
    Get,
}

/// What this first word says in a dialect, if it begins a line there.
pub fn word_of(dialect: Dialect, word: &[u8]) -> Option<Word>
    ensures { result ≡ word_of dialect word.now }
{
    match change_word(word) {
        Some(word) => Some(word),
        None => match dialect {
            Dialect::Jobs => None,
            Dialect::Live => live_word(word),
        },
    }
}

/// The same for a word that each dialect has.
fn change_word(word: &[u8]) -> Option<Word>
    ensures { result ≡ change_word word.now }
{
    if word == b"job".as_slice() {
        Some(Word::Job)
    } else if word == b"insert".as_slice() {
        Some(Word::Insert)
    } else if word == b"set".as_slice() {
        Some(Word::Set)
    } else if word == b"delete".as_slice() {
        Some(Word::Delete)
    } else if word == b"column".as_slice() {
        Some(Word::Column)
    } else {
        None
    }
}

/// The same for a word that live jobs alone have.
fn live_word(word: &[u8]) -> Option<Word>
    ensures { result ≡ live_word word.now }
{
    if word == b"expect".as_slice() {
        Some(Word::Expect)
    } else if word == b"absent".as_slice() {
        Some(Word::Absent)
    } else if word == b"get".as_slice() {
        Some(Word::Get)
    } else {
        None
    }
}

/// The name of the event whose line a line with this first word is like.
pub fn event_name(word: Word) -> &'static [u8]
    ensures { result.now ≡ event_name word }
{
    match word {
        Word::Job => b"commit",
        Word::Insert => b"insert",
        Word::Set | Word::Expect => b"set",
        Word::Delete | Word::Absent => b"delete",
        Word::Column => b"column",
        Word::Get => b"get",
    }
}
