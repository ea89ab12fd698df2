//! Stores of columns: rows of several partitions in one order, the same answers whatever the number of
//! partitions, and what refused memory leaves.

ghost use Rattle.std.specs.Prelude.{◌<◌, ◌≤◌};
ghost use Rattle.apply.specs.Limits.{partitions_max};

use apply::ColumnStore;
use rows::{Commit, Entry, RowId, Value};
use scenarios_common::drawn_numbers::draw;
use scenarios_common::wanted::{FIVE, SIX, Wanted, all_made, bank, made};
use std::alloc::{AllocError, Global};
use std::test::Fail;
use std::thread::Threads;
use store::{ApplyFault, ApplyStore, PlainStore, Store};

/// Numbers of partitions.
const PARTITIONS: [usize; 4] = [1, 2, 7, 64];

/// What is done with a store of the bank, and last what it answers.
enum Step {
    /// A change is made, 0, or refused with a fault of this kind. Where memory is refused, that has
    /// changed nothing, and it is asked for once more.
    Change(Wanted<'static>, u8),
    /// A column of this number is added to the table, 0, or refused with a fault of this kind; and so
    /// it is where memory is refused.
    Add(u8, i64, u8),
    /// So many columns have the accounts, and so many the audit.
    Columns(usize, usize),
    /// These are the identifiers of the accounts, in their order.
    Ids(&'static [u64]),
    /// Commits are applied, one of each of these lists, or refused, and the store is broken, as it is
    /// where memory is refused.
    Apply(&'static [&'static [Wanted<'static>]], Result<(), ApplyFault>),
    /// It is cleared.
    Clear,
    /// It is broken.
    IsBroken,
}

/// The kind of the fault with which a store refuses a change; 0 where it makes it.
fn kind_of_change<S: Store>(store: &mut S, entry: &Entry) -> u8 {
    match store.change(entry) {
        Ok(()) => 0,
        Err(fault) => S::kind(&fault),
    }
}

/// Whether the store is whole and these are the identifiers of its accounts, in their order.
fn are_ids<S: Store>(store: &S, ids: &[u64]) -> bool {
    if !store.whole() || store.len(0) != ids.len() {
        return false;
    }
    for i in 0..store.len(0) {
        if store.id_at(0, i).0 != ids[i] || store.find(0, RowId(ids[i])).is_none() {
            return false;
        }
    }
    true
}

/// Whether the change is refused with a fault of this kind, or made: 0. Where memory is refused, that
/// has changed nothing, and it is asked for once more.
fn is_changed<S: Store>(store: &mut S, entry: &Entry, expected: u8) -> bool {
    let before = store.len(0);
    let kind = kind_of_change(store, entry);
    if kind == 4 {
        return store.whole() && store.len(0) == before && kind_of_change(store, entry) == expected;
    }
    kind == expected
}

/// How many columns the table has.
fn columns_of<S: Store>(store: &S, table: u8) -> usize {
    store.kinds(table).unwrap_or(&[]).len()
}

/// Whether a change that adds a column is refused with a fault of this kind, or made: 0. Where memory
/// is refused, that has changed nothing, and it is asked for once more.
fn is_added<S: Store>(store: &mut S, table: u8, number: i64, expected: u8) -> bool {
    let default = Value::Int(number);
    let before = columns_of(store, table);
    if !is_changed(store, &Entry::AddColumn { table, default }, expected) {
        return false;
    }
    let added = if expected == 0 { 1 } else { 0 };
    columns_of(store, table) == before.saturating_add(added)
}

/// Commits of worker 0, each of these entries.
fn made_commits(alloc: Global, lists: &[&[Wanted<'_>]]) -> Result<Vec<Commit>, AllocError> {
    let mut commits = Vec::new(alloc);
    for wanted in lists {
        let entries = all_made(alloc, wanted)?;
        commits.push(Commit { worker: 0, entries })?;
    }
    Ok(commits)
}

/// Whether the commits are applied, or refused for that or for memory; the store is whole then, or
/// refuses all that comes.
fn is_applied<R: Threads + Sync>(
    rt: &R,
    store: &mut ColumnStore,
    commits: &[Commit],
    expected: Result<(), ApplyFault>,
) -> bool {
    match store.apply_together(rt, commits) {
        Ok(()) => expected == Ok(()) && store.whole(),
        Err(ApplyFault::Memory) => is_broken(rt, store),
        Err(fault) => expected == Err(fault) && is_broken(rt, store),
    }
}

/// Whether the store is broken: it is not whole, and refuses each change and each list of commits as a
/// broken one does.
fn is_broken<R: Threads + Sync>(rt: &R, store: &mut ColumnStore) -> bool {
    let delete = Entry::Delete {
        table: 0,
        row: RowId(1),
    };
    !store.whole()
        && kind_of_change(store, &delete) == 5
        && store.apply_all(rt, &[]) == Err(ApplyFault::Broken)
}

/// Whether it answers this step as it should.
fn is_answered<R: Threads + Sync>(
    rt: &R,
    alloc: Global,
    store: &mut ColumnStore,
    step: &Step,
) -> Result<bool, Fail> {
    match step {
        Step::Change(wanted, kind) => {
            let entry = made(alloc, wanted)?;
            Ok(is_changed(store, &entry, *kind))
        }
        Step::Add(table, number, kind) => Ok(is_added(store, *table, *number, *kind)),
        Step::Columns(accounts, audit) => {
            Ok(columns_of(store, 0) == *accounts && columns_of(store, 1) == *audit)
        }
        Step::Ids(ids) => Ok(are_ids(store, ids)),
        Step::Apply(lists, expected) => {
            let commits = made_commits(alloc, lists)?;
            Ok(is_applied(rt, store, &commits, *expected))
        }
        Step::Clear => {
            store.clear();
            Ok(true)
        }
        Step::IsBroken => Ok(is_broken(rt, store)),
    }
}

/// The index of the first step that a store without rows answers otherwise.
fn other_step<R: Threads + Sync>(
    rt: &R,
    alloc: Global,
    partitions: usize,
    story: &[Step],
) -> Result<Option<usize>, Fail>
    requires some { 0 < partitions }
    requires few { partitions ≤ partitions_max }
{
    let schema = bank(alloc)?;
    let mut store = ColumnStore::new(alloc, &schema, partitions)?;
    for (index, step) in story.iter().enumerate() {
        if !is_answered(rt, alloc, &mut store, step)? {
            return Ok(Some(index));
        }
    }
    Ok(None)
}

/// The first step of a story that is answered otherwise, with the number of partitions.
fn other_answer<R: Threads + Sync>(
    rt: &R,
    alloc: Global,
    story: &[Step],
) -> Result<Option<(usize, usize)>, Fail> {
    for partitions in PARTITIONS {
        if let Some(index) = other_step(rt, alloc, partitions, story)? {
            return Ok(Some((partitions, index)));
        }
    }
    Ok(None)
}

/// Rows of two of 64 partitions, in one order.
const RISING: [Step; 12] = [
    Step::Ids(&[]),
    Step::Change(Wanted::Insert(0, 64, &FIVE), 0),
    Step::Change(Wanted::Insert(0, 128, &FIVE), 0),
    Step::Change(Wanted::Insert(0, 63, &FIVE), 0),
    Step::Ids(&[63, 64, 128]),
    Step::Change(Wanted::Insert(0, 64, &FIVE), 1),
    Step::Change(Wanted::Patch(0, 64, 4, &SIX), 3),
    Step::Change(Wanted::Delete(0, 64), 0),
    Step::Ids(&[63, 128]),
    Step::Change(Wanted::Patch(0, 64, 8, &SIX), 2),
    Step::Change(Wanted::Insert(0, u64::MAX, &FIVE), 0),
    Step::Ids(&[63, 128, u64::MAX]),
];

/// Commits of a few entries, and one that is refused in the second partition.
const COMMITS: [Step; 5] = [
    Step::Apply(
        &[
            &[Wanted::Insert(0, 3, &FIVE), Wanted::Insert(0, 2, &FIVE)],
            &[Wanted::Patch(0, 3, 0, &SIX), Wanted::Delete(0, 2)],
        ],
        Ok(()),
    ),
    Step::Ids(&[3]),
    Step::Apply(&[&[Wanted::Insert(0, 2, &FIVE)]], Ok(())),
    Step::Ids(&[2, 3]),
    Step::Apply(
        &[&[Wanted::Insert(0, 4, &FIVE), Wanted::Insert(0, 3, &FIVE)]],
        Err(ApplyFault::Inconsistent),
    ),
];

/// The bytes of a row of three numbers, and of four.
const THREE: [u8; 24] = [7; 24];

const FOUR: [u8; 32] = [7; 32];

/// A column comes where there are rows of some partitions, where there are none, and again.
const WIDER: [Step; 16] = [
    Step::Change(Wanted::Insert(0, 64, &FIVE), 0),
    Step::Change(Wanted::Insert(0, 3, &FIVE), 0),
    Step::Change(Wanted::Patch(0, 3, 16, &SIX), 3),
    Step::Add(0, 3, 0),
    Step::Add(2, 3, 3),
    Step::Columns(3, 1),
    Step::Change(Wanted::Insert(0, 4, &FIVE), 3),
    Step::Change(Wanted::Insert(0, 4, &THREE), 0),
    Step::Change(Wanted::Patch(0, 3, 16, &SIX), 0),
    Step::Change(Wanted::Delete(0, 64), 0),
    Step::Add(1, -1, 0),
    Step::Add(0, i64::MIN, 0),
    Step::Columns(4, 2),
    Step::Change(Wanted::Insert(0, 64, &THREE), 3),
    Step::Change(Wanted::Insert(0, 64, &FOUR), 0),
    Step::Ids(&[3, 4, 64]),
];

/// Rows of several partitions and added columns go, and come again by the same changes.
const CLEARED: [Step; 19] = [
    Step::Change(Wanted::Insert(0, 64, &FIVE), 0),
    Step::Change(Wanted::Insert(0, 3, &FIVE), 0),
    Step::Add(0, 3, 0),
    Step::Add(1, -1, 0),
    Step::Change(Wanted::Insert(0, 4, &THREE), 0),
    Step::Columns(3, 2),
    Step::Ids(&[3, 4, 64]),
    Step::Clear,
    Step::Columns(2, 1),
    Step::Ids(&[]),
    Step::Change(Wanted::Delete(0, 64), 2),
    Step::Change(Wanted::Insert(0, 4, &THREE), 3),
    Step::Change(Wanted::Insert(0, 64, &FIVE), 0),
    Step::Change(Wanted::Insert(0, 3, &FIVE), 0),
    Step::Add(0, 3, 0),
    Step::Add(1, -1, 0),
    Step::Change(Wanted::Insert(0, 4, &THREE), 0),
    Step::Columns(3, 2),
    Step::Ids(&[3, 4, 64]),
];

/// A store without rows, of which nothing goes.
const CLEARED_EMPTY: [Step; 5] = [
    Step::Clear,
    Step::Columns(2, 1),
    Step::Ids(&[]),
    Step::Change(Wanted::Insert(0, 7, &FIVE), 0),
    Step::Ids(&[7]),
];

/// A broken store stays broken.
const CLEARED_BROKEN: [Step; 3] = [
    Step::Apply(
        &[&[Wanted::Insert(0, 1, &FIVE), Wanted::Insert(0, 1, &FIVE)]],
        Err(ApplyFault::Inconsistent),
    ),
    Step::Clear,
    Step::IsBroken,
];

#[test]
fn what_was_cleared_comes_again(rt: HostRuntime) -> Result<(), Fail> {
    for story in [&CLEARED[..], &CLEARED_EMPTY, &CLEARED_BROKEN] {
        assert_eq!(rt; other_answer(&rt, rt.alloc(), story)?, None);
    }
    Ok(())
}

#[test]
fn columns_come_in_all_partitions(rt: HostRuntime) -> Result<(), Fail> {
    assert_eq!(rt; other_answer(&rt, rt.alloc(), &WIDER)?, None);
    Ok(())
}

#[test]
fn rows_of_all_partitions_rise(rt: HostRuntime) -> Result<(), Fail> {
    assert_eq!(rt; other_answer(&rt, rt.alloc(), &RISING)?, None);
    Ok(())
}

#[test]
fn commits_are_applied_or_break_the_store(rt: HostRuntime) -> Result<(), Fail> {
    assert_eq!(rt; other_answer(&rt, rt.alloc(), &COMMITS)?, None);
    Ok(())
}

/// Changes of a store without rows, and a commit.
const FEW: [Step; 5] = [
    Step::Change(Wanted::Insert(0, 7, &FIVE), 0),
    Step::Ids(&[7]),
    Step::Add(0, 3, 0),
    Step::Columns(3, 1),
    Step::Apply(
        &[&[Wanted::Insert(0, 1, &THREE), Wanted::Insert(0, 2, &THREE)]],
        Ok(()),
    ),
];

/// Whichever allocation is refused: a change that was refused for memory has changed nothing, and is
/// made when it is asked for again; commits that were refused for memory leave a broken store.
#[test]
fn columns_without_memory_stand_or_break(rt: HostRuntime) -> Result<(), Fail> {
    assert_eq!(rt; other_step(&rt, rt.alloc(), 2, &FEW)?, None);
    Ok(())
}

/// Identifiers of drawn rows.
const ROWS: usize = 300;

/// A drawn change of an account: mostly an insert, or else a patch or a delete.
fn drawn(alloc: Global, state: &mut u64) -> Result<Entry, AllocError> {
    let row = draw(state, ROWS) as u64;
    match draw(state, 4) {
        0 => made(alloc, &Wanted::Delete(0, row)),
        1 => made(alloc, &Wanted::Patch(0, row, 8, &SIX)),
        _ => made(alloc, &Wanted::Insert(0, row, &FIVE)),
    }
}

/// Whether both stores have the same accounts, in the same order.
fn are_alike<S: Store, T: Store>(store: &S, other: &T) -> bool {
    if !store.whole() || !other.whole() || store.len(0) != other.len(0) {
        return false;
    }
    for i in 0..store.len(0) {
        if store.id_at(0, i) != other.id_at(0, i) {
            return false;
        }
    }
    true
}

/// Whether a store of columns answers drawn changes as the plain store does.
fn answers_as_plain(alloc: Global, partitions: usize) -> Result<bool, Fail>
    requires some { 0 < partitions }
    requires few { partitions ≤ partitions_max }
{
    let schema = bank(alloc)?;
    let mut plain = PlainStore::new(alloc, &schema)?;
    let mut store = ColumnStore::new(alloc, &schema, partitions)?;
    let mut state = 7;
    for _ in 0..2000 {
        let entry = drawn(alloc, &mut state)?;
        if kind_of_change(&mut plain, &entry) != kind_of_change(&mut store, &entry) {
            return Ok(false);
        }
    }
    Ok(are_alike(&plain, &store))
}

#[test]
fn drawn_changes_are_answered_as_by_a_plain_store(rt: HostRuntime) -> Result<(), Fail> {
    for partitions in PARTITIONS {
        assert!(rt; answers_as_plain(rt.alloc(), partitions)?);
    }
    Ok(())
}

/// So many rows are put in together.
const MANY: u64 = 5000;

/// A commit of inserts of many rows, the greatest first.
fn many_inserts(alloc: Global) -> Result<Vec<Commit>, Fail> {
    let mut commits = Vec::new(alloc);
    for k in 0..MANY {
        let insert = [Wanted::Insert(0, MANY - 1 - k, &FIVE)];
        let entries = all_made(alloc, &insert)?;
        commits.push(Commit { worker: 0, entries })?;
    }
    Ok(commits)
}

/// Commits that patch each of these rows and take out the even ones.
fn many_deletes(alloc: Global) -> Result<Vec<Commit>, Fail> {
    let mut commits = Vec::new(alloc);
    for row in 0..MANY {
        let both = [Wanted::Patch(0, row, 8, &SIX), Wanted::Delete(0, row)];
        let entries = all_made(alloc, &both[..if row % 2 == 0 { 2 } else { 1 }])?;
        commits.push(Commit { worker: 0, entries })?;
    }
    Ok(commits)
}

/// Whether the odd ones of the many rows are there, in their order.
fn are_odd<S: Store>(store: &S) -> bool {
    if !store.whole() || store.len(0) != MANY as usize / 2 {
        return false;
    }
    for i in 0..store.len(0) {
        if store.id_at(0, i).0 / 2 != i as u64 || store.id_at(0, i).0 % 2 != 1 {
            return false;
        }
    }
    true
}

/// Whether many changes are made in threads, and refused once they have been made.
fn are_made_together<R: Threads + Sync>(
    rt: &R,
    alloc: Global,
    partitions: usize,
) -> Result<bool, Fail>
    requires some { 0 < partitions }
    requires few { partitions ≤ partitions_max }
{
    let schema = bank(alloc)?;
    let mut store = ColumnStore::new(alloc, &schema, partitions)?;
    let inserts = many_inserts(alloc)?;
    let deletes = many_deletes(alloc)?;
    if !is_applied(rt, &mut store, &inserts, Ok(())) || store.len(0) != MANY as usize {
        return Ok(false);
    }
    if !is_applied(rt, &mut store, &deletes, Ok(())) || !are_odd(&store) {
        return Ok(false);
    }
    Ok(is_applied(rt, &mut store, &deletes, Err(ApplyFault::Inconsistent)))
}

#[test]
fn many_changes_are_made_in_threads(rt: HostRuntime) -> Result<(), Fail> {
    for partitions in PARTITIONS {
        assert!(rt; are_made_together(&rt, rt.alloc(), partitions)?);
    }
    Ok(())
}
