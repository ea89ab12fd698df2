use rows::RowId;
use sockets::Job;

/// What lines of jobs ask for.
#[derive(Drop)]
pub enum Request {
    /// A job, whole.
    Job {
        job: Job,
        /// The number of the line on which it begins, counted from 1 over all lines of the input.
        line: u64,
        /// The number of the line of each step.
        step_lines: Vec<u64>,
    },
    /// The value of a column of a row.
    Get {
        table: u8,
        row: RowId,
        column: usize,
        /// The number of its line.
        line: u64,
    },
    /// That what is durable becomes the primary's base.
    Base {
        /// The number of its line.
        line: u64,
    },
}

/// What came of the input.
#[derive(Drop)]
pub enum Requested {
    Request(Request),
    /// No whole job yet.
    NotYet,
    /// The input has ended.
    End,
}
