//! Accounts, each a number and two bytes, and commits that change them.

use mvcc::Versions;
use rows::{Entry, Kind, Octets, Schema, Value};
use scenarios_common::wanted::{SIX, Table, Wanted, all_made};
use std::alloc::Global;
use std::test::Fail;

/// Accounts of a number and two bytes.
pub static ACCOUNTS: [Table; 1] = [("accounts", &[Kind::Int, Kind::Octets(2)])];

/// Account 7 put in with 5 and `ab`, set to 6 and taken out; then in one commit put in again with 8
/// and `ab`, and account 8 put in with 9 and `ab` and set to 10; then account 8 set to 11.
pub static HISTORY: [&[Wanted<'static>]; 5] = [
    &[Wanted::Insert(0, 7, b"\0\0\0\0\0\0\0\x05ab")],
    &[Wanted::Patch(0, 7, 0, &SIX)],
    &[Wanted::Delete(0, 7)],
    &[
        Wanted::Insert(0, 7, b"\0\0\0\0\0\0\0\x08ab"),
        Wanted::Insert(0, 8, b"\0\0\0\0\0\0\0\x09ab"),
        Wanted::Patch(0, 8, 0, b"\0\0\0\0\0\0\0\x0a"),
    ],
    &[Wanted::Patch(0, 8, 0, b"\0\0\0\0\0\0\0\x0b")],
];

/// What a column holds: a number, or bytes; or that there is no value.
pub enum Cell {
    Number(i64),
    Octets(&'static [u8]),
    Nothing,
}

/// The value of a column that holds this.
pub fn value_of(cell: &Cell) -> Result<Value, Fail> {
    match cell {
        Cell::Number(number) => Ok(Value::Int(*number)),
        Cell::Octets(bytes) => octets(bytes),
        Cell::Nothing => Err("no value".into()),
    }
}

/// These octets.
fn octets(bytes: &[u8]) -> Result<Value, Fail> {
    let octets = Octets::from_slice(bytes).ok_or("no octets")?;
    Ok(Value::Octets(octets))
}

/// Whether the value is what the column holds.
pub fn is_held(value: &Option<Value>, cell: &Cell) -> bool {
    match (value, cell) {
        (Some(Value::Int(number)), Cell::Number(expected)) => number == expected,
        (Some(Value::Octets(octets)), Cell::Octets(expected)) => octets.as_slice() == *expected,
        (None, Cell::Nothing) => true,
        _ => false,
    }
}

/// The versions of tables with these commits.
pub fn versions_of(
    alloc: Global,
    tables: &[Table],
    commits: &[&[Wanted<'_>]],
) -> Result<Versions, Fail> {
    let schema = Schema::new(alloc, tables)?;
    versions_with(alloc, &schema, commits)
}

/// The versions of a schema's tables with these commits.
fn versions_with(
    alloc: Global,
    schema: &Schema,
    commits: &[&[Wanted<'_>]],
) -> Result<Versions, Fail> {
    let mut versions = Versions::new(alloc, schema)?;
    absorb_all(alloc, &mut versions, commits)?;
    Ok(versions)
}

/// The versions of accounts with so many commits of the history.
pub fn versions_behind(alloc: Global, count: usize) -> Result<Versions, Fail> {
    versions_of(alloc, &ACCOUNTS, front(&HISTORY, count))
}

/// The first of these items, so many; all, where there are fewer.
fn front<T>(items: &[T], count: usize) -> &[T] {
    items.split_at(count.min(items.len())).0
}

/// Absorbs these commits, each of worker 0.
fn absorb_all(
    alloc: Global,
    versions: &mut Versions,
    commits: &[&[Wanted<'_>]],
) -> Result<(), Fail> {
    for commit in commits {
        let entries = all_made(alloc, commit)?;
        absorb(versions, entries.as_slice())?;
    }
    Ok(())
}

/// Absorbs a commit of worker 0 that is defined on the newest rows.
pub fn absorb(versions: &mut Versions, entries: &[Entry]) -> Result<(), Fail> {
    if is_absorbed(versions, entries)? {
        return Ok(());
    }
    Err("out of memory".into())
}

/// Absorbs a commit of worker 0 that is defined on the newest rows, if there is memory; answers
/// whether there was.
pub fn is_absorbed(versions: &mut Versions, entries: &[Entry]) -> Result<bool, Fail> {
    if !versions.are_defined(versions.len(), entries) {
        return Err("not defined".into());
    }
    match versions.absorb(0, entries) {
        Ok(()) => Ok(true),
        Err(_) => Ok(false),
    }
}
