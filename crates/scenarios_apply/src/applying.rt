//! What it takes to change a store of columns of many rows. A test does the runs of a table with a few rows,
//! and prints the microseconds of each step; `bench/apply` and `bench/add-column` name one run, which it then does
//! with a million.
//! What passes is that so many rows are left.

use apply::{ColumnStore, PARTITIONS_MAX};
use rows::{Commit, Entry, EntryList, Octets, Schema, Value};
use scenarios_common::drawn_numbers::draw;
use scenarios_common::wanted::{FIVE, NUMBERS, SIX, Wanted, made};
use std::alloc::{AllocError, Global};
use std::env;
use std::rt::{Clock, Env};
use std::test::Fail;
use std::thread::Threads;
use std::time::Instant;
use store::Store;

/// Rows that are inserted in a run that is named.
const MANY: usize = 1_000_000;

/// Rows that are inserted in all others: enough that threads change them.
const FEW: usize = 20_000;

/// Entries of a commit.
const ENTRIES: usize = 4096;

/// Partitions of the store, if columns are not what is timed.
const PARTITIONS: usize = 8;

/// Columns that are added to the two of the table: with them it has as many as it may have.
const ADDED: usize = 14;

/// Single rows that are deleted and inserted again.
const SINGLES: usize = 1000;

/// Which rows a step changes, in their order.
#[derive(Clone, Copy)]
enum Picked {
    /// Each one.
    Rising,
    Falling,
    Shuffled,
    /// As many drawn ones as there are rows, some of them twice.
    Drawn,
    /// A few drawn ones.
    Singles,
    /// Every second one.
    Even,
}

/// What a step does with its rows.
#[derive(Clone, Copy, PartialEq)]
enum Change {
    /// The commits of the inserts are made, and not applied: `bench/apply` subtracts their memory.
    Make,
    Insert,
    Patch,
    Delete,
    /// Each row is deleted and inserted again, each change in a commit of its own.
    Replace,
    /// Columns of numbers are added to the table, each in a commit of its own, and the least time counts.
    AddNumbers,
    /// The same with columns of three bytes.
    AddBytes,
}

/// A run: the word for it, the partitions of its store, what is done in that, and how many halves of the rows are left.
#[derive(Clone, Copy)]
struct Run {
    word: &'static str,
    partitions: usize,
    steps: &'static [(Picked, Change)],
    halves: usize,
}

/// All runs.
const RUNS: [Run; 9] = [
    Run {
        word: "rising",
        partitions: PARTITIONS,
        steps: &[
            (Picked::Rising, Change::Insert),
            (Picked::Drawn, Change::Patch),
            (Picked::Singles, Change::Replace),
            (Picked::Even, Change::Delete),
        ],
        halves: 1,
    },
    Run {
        word: "falling",
        partitions: PARTITIONS,
        steps: &[
            (Picked::Falling, Change::Insert),
            (Picked::Drawn, Change::Patch),
            (Picked::Singles, Change::Replace),
            (Picked::Even, Change::Delete),
        ],
        halves: 1,
    },
    Run {
        word: "shuffled",
        partitions: PARTITIONS,
        steps: &[
            (Picked::Shuffled, Change::Insert),
            (Picked::Drawn, Change::Patch),
            (Picked::Singles, Change::Replace),
            (Picked::Even, Change::Delete),
        ],
        halves: 1,
    },
    Run {
        word: "made",
        partitions: PARTITIONS,
        steps: &[(Picked::Rising, Change::Make)],
        halves: 0,
    },
    Run {
        word: "inserted",
        partitions: PARTITIONS,
        steps: &[(Picked::Rising, Change::Insert)],
        halves: 2,
    },
    Run {
        word: "numbers 1",
        partitions: 1,
        steps: &[
            (Picked::Rising, Change::Insert),
            (Picked::Singles, Change::AddNumbers),
        ],
        halves: 2,
    },
    Run {
        word: "numbers 4",
        partitions: 4,
        steps: &[
            (Picked::Rising, Change::Insert),
            (Picked::Singles, Change::AddNumbers),
        ],
        halves: 2,
    },
    Run {
        word: "bytes 1",
        partitions: 1,
        steps: &[
            (Picked::Rising, Change::Insert),
            (Picked::Singles, Change::AddBytes),
        ],
        halves: 2,
    },
    Run {
        word: "bytes 4",
        partitions: 4,
        steps: &[
            (Picked::Rising, Change::Insert),
            (Picked::Singles, Change::AddBytes),
        ],
        halves: 2,
    },
];

/// So many of the first rows that are drawn from a seed.
fn drawn(alloc: Global, rows: usize, seed: u64, count: usize) -> Result<Vec<u64>, AllocError> {
    let mut list = Vec::new(alloc);
    if rows == 0 {
        return Ok(list);
    }
    let mut state = seed;
    for _ in 0..count {
        list.push(draw(&mut state, rows) as u64)?;
    }
    Ok(list)
}

/// Those of the first rows that are multiples of a step.
fn rising(alloc: Global, rows: usize, step: u64) -> Result<Vec<u64>, AllocError> {
    let mut list = Vec::new(alloc);
    for row in 0..rows as u64 {
        if row.is_multiple_of(step) {
            list.push(row)?;
        }
    }
    Ok(list)
}

/// The first rows, in falling order.
fn falling(alloc: Global, rows: usize) -> Result<Vec<u64>, AllocError> {
    let mut list = rising(alloc, rows, 1)?;
    list.as_mut_slice().reverse();
    Ok(list)
}

/// The first rows, in a drawn order.
fn shuffled(alloc: Global, rows: usize) -> Result<Vec<u64>, AllocError> {
    let mut list = rising(alloc, rows, 1)?;
    shuffle(list.as_mut_slice());
    Ok(list)
}

/// Puts rows into a drawn order.
fn shuffle(rows: &mut [u64]) {
    let mut state = 3;
    for k in 0..rows.len() {
        rows.swap(k, draw(&mut state, k + 1));
    }
}

/// The rows of a step, of so many.
fn rows_of(alloc: Global, rows: usize, picked: Picked) -> Result<Vec<u64>, AllocError> {
    match picked {
        Picked::Rising => rising(alloc, rows, 1),
        Picked::Falling => falling(alloc, rows),
        Picked::Shuffled => shuffled(alloc, rows),
        Picked::Drawn => drawn(alloc, rows, 5, rows),
        Picked::Singles => drawn(alloc, rows, 7, SINGLES),
        Picked::Even => rising(alloc, rows, 2),
    }
}

/// The change of a row.
fn wanted(change: Change, row: u64) -> Wanted<'static> {
    match change {
        Change::Patch => Wanted::Patch(0, row, 8, &SIX),
        Change::Delete => Wanted::Delete(0, row),
        _ => Wanted::Insert(0, row, &FIVE),
    }
}

/// The changes of rows, in their order.
fn entries_of(alloc: Global, rows: &[u64], change: Change) -> Result<EntryList, AllocError> {
    let mut entries = EntryList::new(alloc);
    for row in rows {
        entries.push(made(alloc, &wanted(change, *row))?)?;
    }
    Ok(entries)
}

/// The same in commits.
fn commits_of(alloc: Global, rows: &[u64], change: Change) -> Result<Vec<Commit>, AllocError> {
    let mut commits = Vec::new(alloc);
    for chunk in rows.chunks(ENTRIES) {
        let entries = entries_of(alloc, chunk, change)?;
        commits.push(Commit { worker: 0, entries })?;
    }
    Ok(commits)
}

/// How many microseconds it takes to apply commits. `None` if they are not applied, or the clock fails.
fn applied_timed<R: Threads + Clock + Sync>(
    rt: &R,
    store: &mut ColumnStore,
    commits: &[Commit],
) -> Option<u128> {
    let start = Instant::now(rt);
    let applied = store.apply_together(rt, commits);
    let end = Instant::now(rt);
    applied.ok()?;
    Some(end.ok()?.duration_since(start.ok()?).as_micros())
}

/// No time, if so many rows are in as many commits as they need.
fn are_all(commits: &[Commit], rows: usize) -> Option<u128> {
    if commits.len() == rows.div_ceil(ENTRIES) {
        Some(0)
    } else {
        None
    }
}

/// How long it takes to change these rows; nothing if their commits are only made.
fn changed_timed<R: Threads + Clock + Sync>(
    rt: &R,
    alloc: Global,
    store: &mut ColumnStore,
    rows: &[u64],
    change: Change,
) -> Option<u128> {
    let commits = commits_of(alloc, rows, change).ok()?;
    if change == Change::Make {
        return are_all(commits.as_slice(), rows.len());
    }
    applied_timed(rt, store, commits.as_slice())
}

/// How long it takes to delete and insert each of these rows by itself.
fn replaced_timed<R: Threads + Clock + Sync>(
    rt: &R,
    alloc: Global,
    store: &mut ColumnStore,
    rows: &[u64],
) -> Option<u128> {
    let mut taken: u128 = 0;
    for row in rows {
        for change in [Change::Delete, Change::Insert] {
            let more = changed_timed(rt, alloc, store, &[*row], change)?;
            taken = taken.saturating_add(more);
        }
    }
    Some(taken)
}

/// The least time that it takes to add a column with this value, of as many columns as the table has room for.
fn added_timed<R: Threads + Clock + Sync>(
    rt: &R,
    alloc: Global,
    store: &mut ColumnStore,
    default: Value,
) -> Option<u128> {
    let mut least = u128::MAX;
    for _ in 0..ADDED {
        let mut entries = EntryList::new(alloc);
        entries.push(Entry::AddColumn { table: 0, default }).ok()?;
        let commit = Commit { worker: 0, entries };
        least = least.min(applied_timed(rt, store, &[commit])?);
    }
    Some(least)
}

/// How long a step takes.
fn step_timed<R: Threads + Clock + Sync>(
    rt: &R,
    alloc: Global,
    store: &mut ColumnStore,
    rows: usize,
    (picked, change): (Picked, Change),
) -> Option<u128> {
    let rows = rows_of(alloc, rows, picked).ok()?;
    match change {
        Change::AddNumbers => added_timed(rt, alloc, store, Value::Int(7)),
        Change::AddBytes => added_timed(
            rt,
            alloc,
            store,
            Value::Octets(Octets::from_slice(b"abc")?),
        ),
        Change::Replace => replaced_timed(rt, alloc, store, rows.as_slice()),
        _ => changed_timed(rt, alloc, store, rows.as_slice(), change),
    }
}

/// How long each step takes in a store; 0 for those that there are not. `None` if one of them is not done.
fn steps_timed<R: Threads + Clock + Sync>(
    rt: &R,
    alloc: Global,
    store: &mut ColumnStore,
    rows: usize,
    steps: &[(Picked, Change)],
) -> Option<[u128; 4]> {
    let mut all = [0; 4];
    for (taken, step) in all.iter_mut().zip(steps) {
        *taken = step_timed(rt, alloc, store, rows, *step)?;
    }
    Some(all)
}

/// The same of a run with so many rows in a new store. `None` also if fewer or more are left than it says.
fn timed<R: Threads + Clock + Sync>(
    rt: &R,
    alloc: Global,
    run: Run,
    rows: usize,
) -> Result<Option<[u128; 4]>, Fail> {
    if run.partitions == 0 || run.partitions > PARTITIONS_MAX {
        return Ok(None);
    }
    let schema = Schema::new(alloc, &NUMBERS)?;
    let mut store = ColumnStore::new(alloc, &schema, run.partitions)?;
    let taken = steps_timed(rt, alloc, &mut store, rows, run.steps);
    if store.len(0) != (rows / 2).saturating_mul(run.halves) {
        return Ok(None);
    }
    Ok(taken)
}

/// With how many rows a run is done: with many if the environment names it, with none if it names another,
/// and with a few if it names none.
fn rows_asked<R: Env + Alloc>(rt: &R, run: Run) -> usize {
    match env::var(rt, "RUN") {
        Ok(word) => { if word.as_str() == run.word { MANY } else { 0 } }
        Err(_) => FEW,
    }
}

#[test]
fn many_rows_in_each_order(rt: HostRuntime) -> Result<(), Fail> {
    for run in RUNS {
        let rows = rows_asked(&rt, run);
        if rows > 0 {
            let taken = timed(&rt, rt.alloc(), run, rows)?.ok_or("not applied")?;
            println!(rt; "{} {} {} {}", taken[0], taken[1], taken[2], taken[3])?;
        }
    }
    Ok(())
}
