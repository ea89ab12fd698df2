//! Jobs of constant lists, and jobs that insert a row each.

use rows::{Commit, Row, RowId, Value};
use sockets::{Change, Job, JobAnswer, Step};
use std::alloc::{AllocError, Global};

/// A step that is wanted of the accounts.
#[derive(Clone, Copy)]
pub enum Wish {
    /// A row of these numbers.
    Insert(u64, i64, i64),
    /// Another number in a column.
    Set(u64, usize, i64),
    Delete(u64),
    /// A number that a column is to have.
    Expect(u64, usize, i64),
    /// A row that is not to be there.
    Absent(u64),
}

/// The step that is wanted.
fn step_of(alloc: Global, wish: Wish) -> Result<Step, AllocError> {
    match wish {
        Wish::Insert(row, first, second) => {
            let values = vec![in alloc; Value::Int(first), Value::Int(second)]?;
            Ok(Step::Change(Change::Insert {
                table: 0,
                row: RowId(row),
                values: Row::from_vec(values),
            }))
        }
        Wish::Set(row, column, number) => Ok(Step::Change(Change::Set {
            table: 0,
            row: RowId(row),
            column,
            value: Value::Int(number),
        })),
        Wish::Delete(row) => Ok(Step::Change(Change::Delete {
            table: 0,
            row: RowId(row),
        })),
        Wish::Expect(row, column, number) => Ok(Step::Expect {
            table: 0,
            row: RowId(row),
            column,
            value: Value::Int(number),
        }),
        Wish::Absent(row) => Ok(Step::Absent {
            table: 0,
            row: RowId(row),
        }),
    }
}

/// A job of these steps.
pub fn job_of(alloc: Global, worker: u8, wishes: &[Wish]) -> Result<Job, AllocError> {
    let mut steps = Vec::new(alloc);
    for wish in wishes {
        push_step(alloc, &mut steps, *wish)?;
    }
    Ok(Job { worker, steps })
}

/// Puts a step behind others.
fn push_step(alloc: Global, steps: &mut Vec<Step>, wish: Wish) -> Result<(), AllocError> {
    let step = step_of(alloc, wish)?;
    Ok(steps.push(step)?)
}

/// Puts a job behind others.
pub fn push_job(
    alloc: Global,
    jobs: &mut Vec<Job>,
    worker: u8,
    wishes: &[Wish],
) -> Result<(), AllocError> {
    let job = job_of(alloc, worker, wishes)?;
    Ok(jobs.push(job)?)
}

/// The jobs of a list, each a worker and its steps.
pub fn jobs_of(alloc: Global, list: &[(u8, &[Wish])]) -> Result<Vec<Job>, AllocError> {
    let mut jobs = Vec::new(alloc);
    for (worker, wishes) in list {
        push_job(alloc, &mut jobs, *worker, wishes)?;
    }
    Ok(jobs)
}

/// So many jobs of each of two workers, in turns, each of which inserts a row of its own.
pub fn insertions(alloc: Global, each: u32) -> Result<Vec<Job>, AllocError> {
    let mut jobs = Vec::new(alloc);
    for i in 0..each {
        for worker in 0..2u8 {
            let row = 2 * i as u64 + worker as u64;
            let wish = Wish::Insert(row, i as i64, worker as i64);
            push_job(alloc, &mut jobs, worker, &[wish])?;
        }
    }
    Ok(jobs)
}

/// The same jobs, each with a condition that holds, so that it waits until the one before is durable.
pub fn guarded_insertions(alloc: Global, each: u32) -> Result<Vec<Job>, AllocError> {
    let mut jobs = Vec::new(alloc);
    for i in 0..each {
        for worker in 0..2u8 {
            let row = 2 * i as u64 + worker as u64;
            let wishes = [
                Wish::Insert(row, i as i64, worker as i64),
                Wish::Expect(row, 0, i as i64),
            ];
            push_job(alloc, &mut jobs, worker, &wishes)?;
        }
    }
    Ok(jobs)
}

/// Whether the commit of that number is of the job's worker, and inserts the job's row and nothing else.
fn is_kept(job: &Job, number: u64, commits: &[Commit]) -> bool {
    let Some(Step::Change(Change::Insert { row, .. })) = job.steps.get(0) else {
        return false;
    };
    let Some(commit) = commits.get((number as usize).wrapping_sub(1)) else {
        return false;
    };
    match commit.entries.as_slice() {
        [entry] => commit.worker == job.worker && entry.is_of(0, *row),
        _ => false,
    }
}

/// Whether the first jobs of a worker have these answers, each a ticket whose commit is among these.
pub fn are_kept(jobs: &[Job], worker: u8, answers: &[JobAnswer], commits: &[Commit]) -> bool {
    let mut next: usize = 0;
    for job in jobs {
        if job.worker == worker && next < answers.len() {
            let JobAnswer::Ticket(number) = answers[next] else {
                return false;
            };
            if !is_kept(job, number, commits) {
                return false;
            }
            next += 1;
        }
    }
    next == answers.len()
}
