//! What readers answer, as text: a line for each answer, and one for each step of a job.

use queries::Plan;
use requests::{
    BatchReader, Batched, Dialect, JobReader, Request, RequestFault, Requested, Skipped,
};
use rows::Value;
use script::Setup;
use sockets::{Change, Job, Step};
use std::alloc::{AllocError, Global};
use std::io::Read;

/// Calls of a reader, at most.
const CALLS_MAX: usize = 200_000;

/// What a reader of jobs answers until the input has ended.
pub fn write_jobs<R: Read>(
    text: &mut String,
    alloc: Global,
    setup: &Setup,
    dialect: Dialect,
    input: &mut R,
) -> Result<(), AllocError> {
    let mut reader = JobReader::new(alloc, dialect);
    for _ in 0..CALLS_MAX {
        match reader.next(setup, input) {
            Ok(Requested::Request(request)) => write_request(text, &request)?,
            Ok(Requested::NotYet) => {}
            Ok(Requested::End) => return text.push_str("end\n"),
            Err(fault) => write_fault(text, &fault)?,
        }
    }
    Ok(())
}

/// What a reader of batches answers until the input has ended: the lines of each batch.
pub fn write_batches<R: Read>(
    text: &mut String,
    alloc: Global,
    setup: &Setup,
    input: &mut R,
) -> Result<(), AllocError> {
    let mut reader = BatchReader::new(alloc);
    for _ in 0..CALLS_MAX {
        match reader.next(setup, input) {
            Ok(Batched::Batch(queries)) => {
                text.push_str("batch")?;
                for query in &queries {
                    write_query(text, query.line, &query.plan)?;
                }
                text.push_str("\n")?;
            }
            Ok(Batched::NotYet) => {}
            Ok(Batched::End) => return text.push_str("end\n"),
            Err(fault) => write_fault(text, &fault)?,
        }
    }
    Ok(())
}

/// The line of a query, and its table.
fn write_query(text: &mut String, line: u64, plan: &Plan) -> Result<(), AllocError> {
    write!(text, " {line}:{}", plan.table)
}

/// A fault, and what is skipped with the line. At which word it does not read is left out (`misread_lines.rt`).
fn write_fault(text: &mut String, fault: &RequestFault) -> Result<(), AllocError> {
    let RequestFault::Line {
        line,
        why,
        skipped,
        ..
    } = fault
    else {
        return write!(text, "{fault}\n");
    };
    write!(text, "line {line}: {why}")?;
    text.push_str(match skipped {
        Skipped::Line => " (line)\n",
        Skipped::Job => " (job)\n",
        Skipped::Batch => " (batch)\n",
    })
}

fn write_request(text: &mut String, request: &Request) -> Result<(), AllocError> {
    match request {
        Request::Job {
            job,
            line,
            step_lines,
        } => {
            write!(text, "{line}: job {}\n", job.worker)?;
            write_steps(text, job, step_lines.as_slice())
        }
        Request::Get {
            table,
            row,
            column,
            line,
        } => write!(text, "{line}: get {table} {} {column}\n", row.0),
        Request::Base { line } => write!(text, "{line}: base\n"),
    }
}

/// The steps of a job, each after the number of its line.
fn write_steps(text: &mut String, job: &Job, lines: &[u64]) -> Result<(), AllocError> {
    for (step, line) in job.steps.iter().zip(lines) {
        write!(text, "{line}: ")?;
        write_step(text, step)?;
        text.push_str("\n")?;
    }
    if job.steps.len() != lines.len() {
        return text.push_str("steps without a line\n");
    }
    Ok(())
}

fn write_step(text: &mut String, step: &Step) -> Result<(), AllocError> {
    match step {
        Step::Change(change) => write_change(text, change),
        Step::Expect {
            table,
            row,
            column,
            value,
        } => {
            write!(text, "expect {table} {} {column}", row.0)?;
            write_value(text, value)
        }
        Step::Absent { table, row } => write!(text, "absent {table} {}", row.0),
    }
}

fn write_change(text: &mut String, change: &Change) -> Result<(), AllocError> {
    match change {
        Change::Insert { table, row, values } => {
            write!(text, "insert {table} {}", row.0)?;
            for value in values.as_slice() {
                write_value(text, value)?;
            }
            Ok(())
        }
        Change::Set {
            table,
            row,
            column,
            value,
        } => {
            write!(text, "set {table} {} {column}", row.0)?;
            write_value(text, value)
        }
        Change::Delete { table, row } => write!(text, "delete {table} {}", row.0),
        Change::AddColumn { table, default } => {
            write!(text, "column {table}")?;
            write_value(text, default)
        }
    }
}

/// A value, after a space.
fn write_value(text: &mut String, value: &Value) -> Result<(), AllocError> {
    match value {
        Value::Int(number) => write!(text, " {number}"),
        Value::Octets(octets) => {
            text.push_str(" x")?;
            for byte in octets.as_slice() {
                write!(text, "{byte:02x}")?;
            }
            Ok(())
        }
    }
}
