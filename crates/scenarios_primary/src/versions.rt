//! Versions: what each call tells of a history of accounts, and what refused memory leaves.

use crate::accounts::{Cell, is_absorbed, is_held, versions_behind};
use crate::primary_steps::expect_none;
use mvcc::Versions;
use rows::{Commit, Entry, RowId};
use scenarios_common::wanted::{Wanted, all_made};
use std::alloc::Global;
use std::test::Fail;

/// A look at the versions, and last what it is to find.
enum Look {
    /// At a version the value of a column of a row of table 0.
    Value(u64, u64, usize, Cell),
    /// The same at the newest version, of any table.
    NewestValue(u8, u64, usize, Cell),
    /// Whether a row of table 0 is there at a version.
    IsPresent(u64, u64, bool),
    /// The last commit that wrote a row of a table.
    Newest(u8, u64, u64),
    /// The last commit that touches a row of these entries.
    LastTouching(&'static [Wanted<'static>], u64),
    /// How many entries the commit of a number has.
    CommitAt(u64, Option<usize>),
    /// How many commits are counted, and lent; whether it is empty.
    Sizes(u64, usize, bool),
}

/// The index of the first look that finds something else.
fn other_found(alloc: Global, versions: &Versions, looks: &[Look]) -> Result<Option<usize>, Fail> {
    for (index, look) in looks.iter().enumerate() {
        if !is_found(alloc, versions, look)? {
            return Ok(Some(index));
        }
    }
    Ok(None)
}

/// Whether this look finds what it is to find. There is one table.
fn is_found(alloc: Global, versions: &Versions, look: &Look) -> Result<bool, Fail> {
    match look {
        Look::Value(version, row, column, cell) => {
            holds(versions, *version, 0, *row, *column, cell)
        }
        Look::NewestValue(table, row, column, cell) => {
            holds(versions, versions.len(), *table, *row, *column, cell)
        }
        Look::IsPresent(version, row, expected) => is_there(versions, *version, *row, *expected),
        Look::Newest(table, row, number) => Ok(versions.newest(*table, RowId(*row)) == *number),
        Look::LastTouching(wanted, number) => {
            let entries = all_made(alloc, wanted)?;
            Ok(is_last_touching(versions, entries.as_slice(), *number))
        }
        Look::CommitAt(number, count) => Ok(entries_at(versions, *number) == *count),
        Look::Sizes(count, lent, is_empty) => Ok(
            versions.len() == *count
                && versions.commits().len() == *lent
                && versions.schema().len() == 1
                && versions.is_empty() == *is_empty,
        ),
    }
}

/// Whether a column of a row holds this at a version that there is.
fn holds(
    versions: &Versions,
    version: u64,
    table: u8,
    row: u64,
    column: usize,
    cell: &Cell,
) -> Result<bool, Fail> {
    if version > versions.len() {
        return Err("no such version".into());
    }
    let value = versions.value_at(version, table, RowId(row), column);
    Ok(is_held(&value, cell))
}

/// Whether it is as expected that a row of table 0 is there at a version that there is.
fn is_there(versions: &Versions, version: u64, row: u64, expected: bool) -> Result<bool, Fail> {
    if version > versions.len() {
        return Err("no such version".into());
    }
    Ok(versions.is_present(version, 0, RowId(row)) == expected)
}

/// Whether the last commit that touches a row of these entries has that number.
fn is_last_touching(versions: &Versions, entries: &[Entry], number: u64) -> bool {
    versions.last_touching(entries) == number
}

/// How many entries the commit of that number has.
fn entries_at(versions: &Versions, number: u64) -> Option<usize> {
    match versions.commit_at(number) {
        Some(commit) => Some(commit.entries.len()),
        None => None,
    }
}

/// Versions without commits are empty.
const EMPTY: [Look; 1] = [Look::Sizes(0, 0, true)];

/// The numbers of the accounts 7 and 8 are those of each version.
const VALUES: [Look; 10] = [
    Look::Value(0, 7, 0, Cell::Nothing),
    Look::Value(0, 8, 0, Cell::Nothing),
    Look::Value(1, 7, 0, Cell::Number(5)),
    Look::Value(1, 8, 0, Cell::Nothing),
    Look::Value(2, 7, 0, Cell::Number(6)),
    Look::Value(2, 8, 0, Cell::Nothing),
    Look::Value(3, 7, 0, Cell::Nothing),
    Look::Value(3, 8, 0, Cell::Nothing),
    Look::Value(4, 7, 0, Cell::Number(8)),
    Look::Value(4, 8, 0, Cell::Number(10)),
];

/// A value is that of its column, its table and its row; commits are counted from 1.
const COLUMNS_AND_COMMITS: [Look; 11] = [
    Look::NewestValue(0, 8, 1, Cell::Octets(b"ab")),
    Look::NewestValue(0, 8, 2, Cell::Nothing),
    Look::NewestValue(1, 8, 0, Cell::Nothing),
    Look::IsPresent(4, 8, true),
    Look::IsPresent(4, 9, false),
    Look::IsPresent(0, 8, false),
    Look::Sizes(4, 4, false),
    Look::CommitAt(0, None),
    Look::CommitAt(1, Some(1)),
    Look::CommitAt(4, Some(3)),
    Look::CommitAt(5, None),
];

/// Behind a fifth commit, of account 8.
const NEWEST: [Look; 8] = [
    Look::Newest(0, 7, 4),
    Look::Newest(0, 8, 5),
    Look::Newest(0, 9, 0),
    Look::Newest(1, 7, 0),
    Look::LastTouching(&[Wanted::Delete(0, 7)], 4),
    Look::LastTouching(&[Wanted::Delete(0, 8), Wanted::Delete(0, 7)], 5),
    Look::LastTouching(&[Wanted::Delete(0, 9)], 0),
    Look::LastTouching(&[], 0),
];

/// How many commits of the history there are, and looks at them.
static STORIES: [(usize, &[Look]); 4] = [
    (0, &EMPTY),
    (4, &VALUES),
    (4, &COLUMNS_AND_COMMITS),
    (5, &NEWEST),
];

/// What may be read by several threads, and handed from one to another.
fn shared<T: Send + Sync>(value: &T) -> &T {
    value
}

/// The index of the first look that finds something else behind so many commits of the history.
fn other_found_behind(alloc: Global, count: usize, looks: &[Look]) -> Result<Option<usize>, Fail> {
    let versions = versions_behind(alloc, count)?;
    other_found(alloc, shared(&versions), looks)
}

/// The first of these stories that goes otherwise, and its index.
fn other_story(alloc: Global) -> Result<Option<(usize, usize)>, Fail> {
    for (number, (count, looks)) in STORIES.iter().enumerate() {
        if let Some(index) = other_found_behind(alloc, *count, looks)? {
            return Ok(Some((number, index)));
        }
    }
    Ok(None)
}

#[test]
fn versions_tell_their_history(rt: HostRuntime) -> Result<(), Fail> {
    expect_none(&rt, other_story(rt.alloc())?);
    Ok(())
}

/// A commit of three accounts.
const COMMIT: [Wanted<'static>; 3] = [
    Wanted::Patch(0, 7, 0, b"\0\0\0\0\0\0\0\x0c"),
    Wanted::Delete(0, 8),
    Wanted::Insert(0, 9, b"\0\0\0\0\0\0\0\x0dab"),
];

/// What is found before that commit. Takes no memory.
static BEFORE: [Look; 6] = [
    Look::Sizes(4, 4, false),
    Look::Newest(0, 7, 4),
    Look::Newest(0, 9, 0),
    Look::Value(4, 7, 0, Cell::Number(8)),
    Look::Value(4, 8, 0, Cell::Number(10)),
    Look::Value(4, 9, 0, Cell::Nothing),
];

/// What is found behind it.
static BEHIND: [Look; 6] = [
    Look::Sizes(5, 5, false),
    Look::Newest(0, 7, 5),
    Look::Newest(0, 9, 5),
    Look::Value(5, 7, 0, Cell::Number(12)),
    Look::Value(5, 8, 0, Cell::Nothing),
    Look::Value(5, 9, 0, Cell::Number(13)),
];

/// Absorbs a commit, once more where it was refused for memory; answers whether it was absorbed,
/// and whether refused memory had left what was found before.
fn is_absorbed_again(
    alloc: Global,
    versions: &mut Versions,
    entries: &[Entry],
) -> Result<bool, Fail> {
    if is_absorbed(versions, entries)? {
        return Ok(true);
    }
    Ok(other_found(alloc, versions, &BEFORE)?.is_none() && is_absorbed(versions, entries)?)
}

/// Whether that commit is absorbed as it should be, behind four commits of the history.
fn is_made_behind(alloc: Global, versions: &mut Versions) -> Result<bool, Fail> {
    let entries = all_made(alloc, &COMMIT)?;
    if !is_absorbed_again(alloc, versions, entries.as_slice())? {
        return Ok(false);
    }
    Ok(other_found(alloc, versions, &BEHIND)?.is_none())
}

/// The same of versions of its own.
fn is_made(alloc: Global) -> Result<bool, Fail> {
    let mut versions = versions_behind(alloc, 4)?;
    is_made_behind(alloc, &mut versions)
}

/// Whichever request for memory is refused: a commit that was refused for memory has changed
/// nothing, and is absorbed when it is asked for again.
#[test]
fn a_commit_absorbed_without_memory_changes_nothing(rt: HostRuntime) -> Result<(), Fail> {
    assert!(rt; is_made(rt.alloc())?);
    Ok(())
}

/// How a commit is applied.
#[derive(Clone, Copy)]
enum Applying {
    Lent,
    HandedOver,
}

/// Commits, and whether each is added, one after the other, behind four commits of the history:
/// account 7 is there, account 8 is taken out twice, and that commit is not possible again.
static APPLIED: [(&[Wanted<'static>], bool); 4] = [
    (&[Wanted::Insert(0, 7, b"\0\0\0\0\0\0\0\x05ab")], false),
    (&[Wanted::Delete(0, 8), Wanted::Delete(0, 8)], false),
    (&COMMIT, true),
    (&COMMIT, false),
];

/// Whether the commit is added.
fn is_added(versions: &mut Versions, commit: Commit, applying: Applying) -> Result<bool, Fail> {
    match applying {
        Applying::Lent => Ok(versions.apply(&commit)?),
        Applying::HandedOver => match versions.apply_owned(commit) {
            Ok(added) => Ok(added),
            Err(_) => Err("out of memory".into()),
        },
    }
}

/// The commit of worker 0 of these entries.
fn commit_of(alloc: Global, wanted: &[Wanted<'_>]) -> Result<Commit, Fail> {
    let entries = all_made(alloc, wanted)?;
    Ok(Commit { worker: 0, entries })
}

/// The index of the first of these commits that is added where it is not to be, or not added.
fn other_added(
    alloc: Global,
    versions: &mut Versions,
    applying: Applying,
) -> Result<Option<usize>, Fail> {
    for (index, (wanted, expected)) in APPLIED.iter().enumerate() {
        let commit = commit_of(alloc, wanted)?;
        if is_added(versions, commit, applying)? != *expected {
            return Ok(Some(index));
        }
    }
    Ok(None)
}

/// Whether these commits are applied as they should be.
fn are_applied(alloc: Global, applying: Applying) -> Result<bool, Fail> {
    let mut versions = versions_behind(alloc, 4)?;
    are_applied_to(alloc, &mut versions, applying)
}

/// The same behind four commits of the history.
fn are_applied_to(
    alloc: Global,
    versions: &mut Versions,
    applying: Applying,
) -> Result<bool, Fail> {
    let other = other_added(alloc, versions, applying)?;
    Ok(other.is_none() && other_found(alloc, versions, &BEHIND)?.is_none())
}

/// A commit is added if its entries are defined, and otherwise changes nothing.
#[test]
fn commits_that_are_defined_are_applied(rt: HostRuntime) -> Result<(), Fail> {
    assert!(rt; are_applied(rt.alloc(), Applying::Lent)?);
    assert!(rt; are_applied(rt.alloc(), Applying::HandedOver)?);
    Ok(())
}

/// Hands a commit over, and again where it was handed back for want of memory; answers whether it
/// was added, and whether refused memory had left what was found before.
fn is_taken_over(alloc: Global, versions: &mut Versions, commit: Commit) -> Result<bool, Fail> {
    match versions.apply_owned(commit) {
        Ok(added) => Ok(added),
        Err(back) => {
            let kept = other_found(alloc, versions, &BEFORE)?.is_none();
            Ok(kept && is_added(versions, back, Applying::HandedOver)?)
        }
    }
}

/// Whether that commit is handed over as it should be, behind four commits of the history.
fn is_handed_over(alloc: Global) -> Result<bool, Fail> {
    let mut versions = versions_behind(alloc, 4)?;
    is_handed_over_to(alloc, &mut versions)
}

/// The same of these versions.
fn is_handed_over_to(alloc: Global, versions: &mut Versions) -> Result<bool, Fail> {
    let commit = commit_of(alloc, &COMMIT)?;
    let taken = is_taken_over(alloc, versions, commit)?;
    Ok(taken && other_found(alloc, versions, &BEHIND)?.is_none())
}

/// Whichever request for memory is refused: a commit that was handed back has changed nothing, and
/// is added when it is handed over again.
#[test]
fn a_commit_handed_over_without_memory_changes_nothing(rt: HostRuntime) -> Result<(), Fail> {
    assert!(rt; is_handed_over(rt.alloc())?);
    Ok(())
}
