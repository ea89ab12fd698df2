use std::fmt;
use thiserror::Error;

/// Why a line does not read. If a line has several faults, the first of these is reported.
#[derive(Clone, Copy, Debug, PartialEq, Eq)]
pub enum Reason {
    /// A byte that is not allowed: all are from 20 to 7e, and 0a ends a line.
    NotText,
    /// A setting that is missing, out of order, beyond a limit, or refused by the schema.
    BadSetting,
    /// The first word names no event.
    UnknownEvent,
    /// The number or the form of the words, or a worker or replica that is not there.
    BadWords,
    /// A table's name that was not set.
    NoTable,
}

impl fmt::Display for Reason {
    ghost use Rattle.std.specs.Prelude.{Some};
    ghost use Rattle.script.specs.Faults.{reason_text};

    ghost output = { λ reason. Some (reason_text reason) };

    fn fmt<W: fmt::Write>(&self, f: &mut fmt::Formatter<W>) -> fmt::Result {
        f.write_str(match *self {
            Reason::NotText => "not text",
            Reason::BadSetting => "bad setting",
            Reason::UnknownEvent => "unknown event",
            Reason::BadWords => "bad words",
            Reason::NoTable => "no table",
        })
    }
}

impl std::error::Error for Reason {}

/// Why a script does not read: its first faulty line, counted from 1 with skipped lines counted,
/// and the reason. A setting that is missing at the end is reported on the line after the last.
#[derive(Clone, Copy, Debug, PartialEq, Eq, Error)]
pub enum ScriptFault {
    #[error("line {line}: {reason}")]
    At { line: u64, reason: Reason },
    #[error("out of memory")]
    Memory,
}

/// Why a text was not written completely.
#[derive(Clone, Copy, Debug, PartialEq, Eq, Error)]
pub enum WriteFault {
    /// The writer failed; a beginning of the text was written.
    #[error("the text could not be written")]
    Write,
    /// Out of memory; nothing was written.
    #[error("out of memory")]
    Memory,
}

/// Why one line does not read.
#[derive(Clone, Copy)]
pub enum LineFault {
    Because(Reason),
    Memory,
}
