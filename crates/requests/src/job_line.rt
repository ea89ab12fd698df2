//! The lines of jobs.

ghost use Rattle.std.specs.Prelude.{◌≡◌, ◌==◌, drop, length, position, codes, IfOk};
ghost use Rattle.std.specs.Str.{bytes_eq};
ghost use Rattle.script.specs.EventLines.{first_word};
ghost use Rattle.script.specs.Scripts.{is_kept};
ghost use Rattle.requests.specs.JobLines.{meaning, Reads, ReadsLike, without_event};
ghost use Rattle.requests.specs.Dialects.{IsLineOf};

use crate::dialect::Dialect;
use crate::word::{Word, event_name, word_of};
use rows::RowId;
use script::{Event, Reason, Setup, read_event_line};
use sockets::{Change, Step};
use std::alloc::{AllocError, Global};

/// What one line of jobs says.
#[derive(Drop)]
pub enum JobLine {
    /// A job of this worker begins.
    Job(u8),
    Step(Step),
    /// The job ends.
    End,
    /// The value of a column of a row is asked for.
    Get {
        table: u8,
        row: RowId,
        column: usize,
    },
    /// A base is to be taken.
    Base,
    /// Nothing: the line is empty, or a comment.
    Nothing,
}

/// Reads a line of jobs, or reports why it is none. Fails only if out of memory.
///
/// A line of a job is one of a script without the number of the transaction, so it is read as that, with
/// the number 0.
pub fn read_job_line(
    alloc: Global,
    setup: &Setup,
    dialect: Dialect,
    line: &[u8],
) -> Result<Result<JobLine, Reason>, AllocError>
    ensures reads { IfOk result (Reads setup.now dialect line.now) }
    ensures of_dialect { IfOk result (λ read. IfOk read (IsLineOf dialect)) }
{
    if !is_kept(line) {
        return Ok(Ok(JobLine::Nothing));
    }
    let (first, rest) = first_word(line);
    match word_of(dialect, first) {
        Some(word) => read_as(alloc, setup, word, rest),
        None => Ok(without_event(dialect, line)),
    }
}

/// Whether a line is not skipped.
fn is_kept(line: &[u8]) -> bool
    ensures { result ≡ is_kept line.now }
{
    match line {
        [] => false,
        [first, ..] => *first != b'#',
    }
}

/// What a line says whose first word is that of no event: `end`, that of a live base, or nothing that is
/// known.
fn without_event(dialect: Dialect, line: &[u8]) -> Result<JobLine, Reason>
    ensures { result ≡ without_event dialect line.now }
{
    if line == b"end".as_slice() {
        return Ok(JobLine::End);
    }
    match dialect {
        Dialect::Live if line == b"base".as_slice() => Ok(JobLine::Base),
        _ => Err(Reason::UnknownEvent),
    }
}

/// Reads a line that has this first word and this rest as that of an event.
fn read_as(
    alloc: Global,
    setup: &Setup,
    word: Word,
    rest: &[u8],
) -> Result<Result<JobLine, Reason>, AllocError>
    ensures { IfOk result (ReadsLike setup.now rest.now word) }
{
    let mut text = Vec::new(alloc);
    text.extend_from_slice(event_name(word))?;
    text.extend_from_slice(b" 0")?;
    text.extend_from_slice(rest)?;
    match read_event_line(alloc, text.as_slice(), setup)? {
        Ok(event) => Ok(meaning(word, event)),
        Err(reason) => Ok(Err(reason)),
    }
}

/// Whether a line begins a job, whether it reads or not: its first word is `job`.
pub fn begins_job(line: &[u8]) -> bool
    ensures { result ≡ bytes_eq (first_word line.now) (codes "job") }
{
    let (word, _) = first_word(line);
    word == b"job".as_slice()
}

/// The first word of a line, and what comes after it.
pub fn first_word(line: &[u8]) -> (&[u8], &[u8])
    ensures first { result.0.now ≡ first_word line.now }
    ensures rest { result.1.now ≡ drop (length (first_word line.now)) line.now }
{
    match space_in(line) {
        Some(end) => line.split_at(end),
        None => line.split_at(line.len()),
    }
}

/// The index of the first space.
fn space_in(line: &[u8]) -> Option<usize>
    ensures { result ≡ position (λ byte. byte == 32) line.now }
{
    line.iter().position(|byte| *byte == b' ')
}

/// What the event of a line says whose first word is this one; `UnknownEvent` if it is another event.
fn meaning(word: Word, event: Event) -> Result<JobLine, Reason>
    ensures { result ≡ meaning word event }
{
    match (word, event) {
        (Word::Job, Event::Commit { worker, .. }) => Ok(JobLine::Job(worker)),
        (
            Word::Insert,
            Event::Insert {
                table,
                row,
                values,
                ..
            },
        ) => Ok(JobLine::Step(Step::Change(Change::Insert { table, row, values }))),
        (
            Word::Set,
            Event::Set {
                table,
                row,
                column,
                value,
                ..
            },
        ) => Ok(JobLine::Step(Step::Change(Change::Set {
            table,
            row,
            column: column as usize,
            value,
        }))),
        (Word::Delete, Event::Delete { table, row, .. }) => {
            Ok(JobLine::Step(Step::Change(Change::Delete { table, row })))
        }
        (Word::Column, Event::AddColumn { table, default, .. }) => {
            Ok(JobLine::Step(Step::Change(Change::AddColumn { table, default })))
        }
        (
            Word::Expect,
            Event::Set {
                table,
                row,
                column,
                value,
                ..
            },
        ) => Ok(JobLine::Step(Step::Expect {
            table,
            row,
            column: column as usize,
            value,
        })),
        (Word::Absent, Event::Delete { table, row, .. }) => {
            Ok(JobLine::Step(Step::Absent { table, row }))
        }
        (
            Word::Get,
            Event::Get {
                table,
                row,
                column,
                ..
            },
        ) => Ok(JobLine::Get {
            table,
            row,
            column: column as usize,
        }),
        (_, _) => Err(Reason::UnknownEvent),
    }
}
