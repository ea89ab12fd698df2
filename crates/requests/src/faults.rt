//! Why a line does not read.

use crate::misread::Misread;
use queries::PlanFault;
use script::Reason;
use std::io;
use thiserror::Error;

/// Why a line of jobs or batches does not read.
#[derive(Clone, Copy, Debug, PartialEq, Eq, Error)]
pub enum LineFault {
    /// A byte that is not allowed, if a script's line would say so.
    #[error("not text")]
    NotText,
    /// The first word begins no line of this dialect, or something comes after `end`.
    #[error("no line of a job")]
    NoJobLine,
    /// The number or the form of the words, or a worker that is not there.
    #[error("bad words")]
    BadWords,
    /// A table's name that the schema does not have.
    #[error("no table")]
    NoTable,
    /// The input ends inside a job. It is reported for the line after the last.
    #[error("a job without its end")]
    NoEnd,
    /// A step or `end` outside of a job, or `job` or `get` inside one.
    #[error("a line that stands in the wrong place")]
    WrongPlace,
    /// More bytes than a line may have.
    #[error("too long")]
    TooLong,
    /// One more query than a batch may have.
    #[error("more than 64 queries")]
    TooManyQueries,
    /// The words are no plan, or name a table that the schema does not have.
    #[error("no plan")]
    NoPlan,
    /// The plan does not fit the tables.
    #[error("{0}")]
    BadPlan(PlanFault),
}

impl LineFault {
    /// Why a line of a job does not read, if it is for this reason that a script's line does not.
    pub(crate) fn of_reason(reason: Reason) -> LineFault {
        match reason {
            Reason::NotText => LineFault::NotText,
            Reason::BadSetting | Reason::UnknownEvent => LineFault::NoJobLine,
            Reason::BadWords => LineFault::BadWords,
            Reason::NoTable => LineFault::NoTable,
        }
    }
}

/// What is lost with a line that does not read.
#[derive(Clone, Copy, Debug, PartialEq, Eq)]
pub enum Skipped {
    /// This line alone.
    Line,
    /// The job that it is in or begins, up to and with its `end`, or up to before the next line whose first word
    /// is `job`; or the job that such a line breaks off. It is one job, and has this one fault.
    Job,
    /// The batch that it is in or begins, up to and with its empty line.
    Batch,
}

/// Why there is no request.
#[derive(Debug, Drop, Error)]
pub enum RequestFault {
    /// A line does not read, counted from 1 over all lines of the input.
    #[error("line {line}: {why}{misread}")]
    Line {
        line: u64,
        why: LineFault,
        misread: Misread,
        skipped: Skipped,
    },
    /// The reader failed, as it says.
    #[error("{0}")]
    Read(io::Error),
    #[error("out of memory")]
    Memory,
}
