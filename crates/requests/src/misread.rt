use crate::line_words::BadWord;
use crate::shown_words::shown_bytes;
use crate::word_fault::WordFault;
use std::alloc::Global;
use std::fmt;

/// At which word a line does not read, and what is wrong there. As a text it follows the reason of the line: `: 'avg': no aggregate`.
#[derive(Debug, Drop)]
pub enum Misread {
    /// This is not known, or memory was refused for it; the text is empty.
    Unknown,
    /// At this word, as `shown` shows it.
    Word { word: String, why: WordFault },
    /// At the end of the text, or as a whole.
    Text(WordFault),
}

impl Misread {
    /// A copy of the word that was found, if one was.
    pub(crate) fn of(alloc: Global, found: Result<(), BadWord<'_>>) -> Misread {
        let Err(BadWord { word, why }) = found else {
            return Misread::Unknown;
        };
        match shown_bytes(alloc, word) {
            Some(word) => Misread::Word { word, why },
            None => Misread::Unknown,
        }
    }
}

impl fmt::Display for Misread {
    fn fmt<W: fmt::Write>(&self, f: &mut fmt::Formatter<W>) -> fmt::Result {
        match self {
            Misread::Unknown => Ok(()),
            Misread::Word { word, why } => write!(f, ": '{word}': {why}"),
            Misread::Text(why) => write!(f, ": {why}"),
        }
    }
}
