//! What it takes to add a column at a primary whose table has many rows, and what the largest commit takes that begins
//! with an added column. A test does both on a table with a few rows, and prints the nanoseconds of each part;
//! `bench/add-column` has it do so with a million. What passes is that each commit is durable.

ghost use Rattle.std.specs.Prelude.{◌≡◌};

use crate::primary_steps::start;
use journal::MemJournal;
use mvcc::{Transaction, Versions};
use primary::PrimaryCore;
use rows::{RowId, Value};
use std::alloc::{AllocError, Global};
use std::env;
use std::rt::{Clock, Env};
use std::test::Fail;
use std::time::Instant;

/// A run: the rows that there are first, the entries of a large commit, and how often each commit is made.
#[derive(Clone, Copy)]
struct Run {
    rows: u64,
    entries: u64,
    times: usize,
}

/// What the environment asks for: the largest commits, and as many columns as the table has room for.
const MANY: Run = Run {
    rows: 1_000_000,
    entries: 4096,
    times: 7,
};

/// What is done without it.
const FEW: Run = Run {
    rows: 1_000,
    entries: 100,
    times: 2,
};

/// What a commit does to the table: whether it adds a column first, and how many rows it then inserts.
#[derive(Clone, Copy)]
struct Task {
    word: &'static str,
    adds: bool,
    inserts: u64,
}

/// A task.
fn task_of(word: &'static str, adds: bool, inserts: u64) -> Task {
    Task {
        word,
        adds,
        inserts,
    }
}

/// The commits that are timed, in turn.
fn tasks_of(run: Run) -> [Task; 4] {
    let others = run.entries.saturating_sub(1);
    [
        task_of("column", true, 0),
        task_of("row", false, 1),
        task_of("column-and-rows", true, others),
        task_of("rows", false, others),
    ]
}

/// How many rows the table has, and how many columns.
#[derive(Clone, Copy)]
struct Size {
    rows: u64,
    columns: usize,
}

/// The same once the task is done.
fn size_after(size: Size, task: Task) -> Size {
    Size {
        rows: size.rows.saturating_add(task.inserts),
        columns: size.columns.saturating_add(usize::from(task.adds)),
    }
}

/// The values of a row.
fn row_of(alloc: Global, columns: usize) -> Result<Vec<Value>, AllocError> {
    let mut values = Vec::new(alloc);
    for _ in 0..columns {
        values.push(Value::Int(5))?;
    }
    Ok(values)
}

/// A transaction on the newest version that does the task; the rows that it inserts are behind those that there are.
fn transaction_of(
    alloc: Global,
    versions: &Versions,
    size: Size,
    task: Task,
) -> Result<Transaction, Fail> {
    let mut transaction = Transaction::begin(alloc, versions.len());
    let values = row_of(alloc, size_after(size, task).columns)?;
    draft(versions, &mut transaction, values.as_slice(), size, task)?;
    Ok(transaction)
}

/// Does the task in a transaction; each row that it inserts has these values.
fn draft(
    versions: &Versions,
    transaction: &mut Transaction,
    values: &[Value],
    size: Size,
    task: Task,
) -> Result<(), Fail> {
    if transaction.snapshot() > versions.len() {
        return Err("no such version".into());
    }
    if task.adds {
        transaction.add_column(versions, 0, Value::Int(7))?;
    }
    for row in size.rows..size_after(size, task).rows {
        if transaction.snapshot() > versions.len() {
            return Err("no such version".into());
        }
        transaction.insert(versions, 0, RowId(row), values)?;
    }
    Ok(())
}

/// Makes the commit of a task durable, and tells how many nanoseconds the calls of its transaction took, how many the
/// commit, and how many the flush.
fn timed<R: Clock>(
    rt: &R,
    alloc: Global,
    primary: &mut PrimaryCore<MemJournal>,
    size: Size,
    task: Task,
) -> Result<[u128; 3], Fail> {
    if primary.workers() == 0 {
        return Err("no worker".into());
    }
    let begun = Instant::now(rt)?;
    let transaction = transaction_of(alloc, primary.versions(), size, task)?;
    let drafted = Instant::now(rt)?;
    let is_committed = primary.commit(transaction, 0).is_ok();
    let committed = Instant::now(rt)?;
    let is_durable = primary.flush(1).is_ok();
    let flushed = Instant::now(rt)?;
    if !is_committed || !is_durable {
        return Err("not committed".into());
    }
    Ok([
        drafted.duration_since(begun).as_nanos(),
        committed.duration_since(drafted).as_nanos(),
        flushed.duration_since(committed).as_nanos(),
    ])
}

/// Inserts the rows that there are first, of two numbers each.
fn fill<R: Clock>(
    rt: &R,
    alloc: Global,
    primary: &mut PrimaryCore<MemJournal>,
    run: Run,
) -> Result<Size, Fail> {
    let mut size = Size {
        rows: 0,
        columns: 2,
    };
    for _ in 0..run.rows {
        let left = run.rows.saturating_sub(size.rows);
        if left == 0 {
            break;
        }
        let next = task_of("", false, run.entries.min(left));
        timed(rt, alloc, primary, size, next)?;
        size = size_after(size, next);
    }
    Ok(size)
}

/// The run that the environment asks for.
fn run_asked<R: Env + Alloc>(rt: &R) -> Run {
    match env::var(rt, "RUN") {
        Ok(word) => { if word.as_str() == "many" { MANY } else { FEW } }
        Err(_) => FEW,
    }
}

/// Makes all commits of the run that is asked for at a fresh primary, and prints what each took.
fn time_all(rt: &HostRuntime) -> Result<(), Fail> {
    let mut primary = start(rt.alloc(), 1)?;
    time_all_at(rt, &mut primary)
}

/// The same at this primary.
fn time_all_at(rt: &HostRuntime, primary: &mut PrimaryCore<MemJournal>) -> Result<(), Fail> {
    let run = run_asked(rt);
    let mut size = fill(rt, rt.alloc(), primary, run)?;
    for _ in 0..run.times {
        for task in tasks_of(run) {
            let taken = timed(rt, rt.alloc(), primary, size, task)?;
            size = size_after(size, task);
            println!(rt; "{} {} {} {}", task.word, taken[0], taken[1], taken[2])?;
        }
    }
    Ok(())
}

#[test]
fn columns_are_added_to_many_rows(rt: HostRuntime) -> Result<(), Fail> {
    time_all(&rt)
}
