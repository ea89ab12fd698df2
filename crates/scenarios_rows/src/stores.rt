//! A plain store through its bound: changes, runs, lists of commits, and what refused memory
//! leaves.

ghost use Rattle.std.specs.Prelude.{◌≡◌, [], ◌∷◌, length, true, Ok, IfOk, OnOk, IsOkAnd, IsSome};
ghost use Rattle.rows.specs.declared.kind.Kind.TheVariants.{Int, Octets as OctetsOf};
ghost use Rattle.rows.specs.Reading.{entry_of};
ghost use Rattle.rows.specs.Tables.{rows_of, row_at, apply_entry};
ghost use Rattle.rows.specs.Commits.{apply_commits};
ghost use Rattle.store.specs.Changes.{column_of};

use rows::{ByteList, Commit, Entry, EntryRef, Kind, Octets, RowId, Schema, Value};
use scenarios_common::wanted::{FIVE, SIX, Wanted, all_made, bank, made};
use std::alloc::{AllocError, Global};
use std::test::Fail;
use std::thread::Threads;
use store::{ApplyFault, ApplyStore, PlainStore, Store, run};

/// What is done with a store of the bank, and last what it answers.
enum Step {
    /// A change is made, 0, or refused with a fault of this kind. Where memory is refused, that has
    /// changed nothing, and it is asked for once more.
    Change(Wanted<'static>, u8),
    /// A column of this number is added to the table, 0, or refused with a fault of this kind; and so
    /// it is where memory is refused.
    Add(u8, i64, u8),
    /// So many columns have the accounts, and so many the audit.
    Columns(usize, usize),
    /// A run of changes stops at one of them with a fault of this kind, or goes to the end.
    Run(&'static [Wanted<'static>], Option<(usize, u8)>),
    /// A list of commits is applied, and so many accounts are there then; or it is refused, and the
    /// store is broken, as it is where memory is refused.
    Apply(&'static [&'static [Wanted<'static>]], Result<usize, ApplyFault>),
    /// These are the identifiers of the accounts, in their order.
    Ids(&'static [u64]),
    /// So many rows has the audit.
    Audits(usize),
    /// Whether it has that account.
    Has(u64, bool),
    /// It is whole.
    IsWhole,
    /// It is cleared.
    Clear,
    /// It is broken.
    IsBroken,
}

/// The first of these stories that goes otherwise, and the index of its step; each begins at a
/// store without rows.
fn other_story<R: Threads + Sync>(
    rt: &R,
    alloc: Global,
    stories: &[&[Step]],
) -> Result<Option<(usize, usize)>, Fail> {
    for (number, story) in stories.iter().enumerate() {
        if let Some(index) = other_step(rt, alloc, story)? {
            return Ok(Some((number, index)));
        }
    }
    Ok(None)
}

/// The index of the first step that a fresh store answers otherwise.
fn other_step<R: Threads + Sync>(
    rt: &R,
    alloc: Global,
    story: &[Step],
) -> Result<Option<usize>, Fail> {
    let schema = bank(alloc)?;
    let mut store = PlainStore::new(alloc, &schema)?;
    other_step_of(rt, alloc, &mut store, story)
}

/// The index of the first step that a store answers otherwise.
fn other_step_of<R: Threads + Sync>(
    rt: &R,
    alloc: Global,
    store: &mut PlainStore,
    story: &[Step],
) -> Result<Option<usize>, Fail> {
    for (index, step) in story.iter().enumerate() {
        if !is_answered(rt, alloc, store, step)? {
            return Ok(Some(index));
        }
    }
    Ok(None)
}

/// Whether it answers this step as it should.
fn is_answered<R: Threads + Sync>(
    rt: &R,
    alloc: Global,
    store: &mut PlainStore,
    step: &Step,
) -> Result<bool, Fail> {
    match step {
        Step::Change(wanted, kind) => {
            let entry = made(alloc, wanted)?;
            Ok(is_changed(store, &entry, *kind))
        }
        Step::Add(table, number, kind) => Ok(is_added(store, *table, *number, *kind)),
        Step::Columns(accounts, audit) => {
            Ok(columns_of(store, 0) == *accounts && columns_of(store, 1) == *audit)
        }
        Step::Run(wanted, stop) => {
            let entries = all_made(alloc, wanted)?;
            Ok(stop_of_run(store, entries.as_slice()) == *stop)
        }
        Step::Apply(lists, expected) => {
            let commits = made_commits(alloc, lists)?;
            Ok(is_applied(rt, store, &commits, *expected))
        }
        Step::Ids(ids) => Ok(are_ids(store, ids)),
        Step::Audits(count) => Ok(store.len(1) == *count),
        Step::Has(row, expected) => Ok(has(store, *row) == *expected),
        Step::IsWhole => Ok(store.whole()),
        Step::Clear => {
            store.clear();
            Ok(true)
        }
        Step::IsBroken => Ok(is_broken(rt, store)),
    }
}

/// Whether the store has that account.
fn has<S: Store>(store: &S, row: u64) -> bool {
    store.find(0, RowId(row)).is_some()
}

/// The kind of the fault with which a store refuses a change; 0 where it makes it.
fn kind_of_change<S: Store>(store: &mut S, entry: &Entry) -> u8 {
    match store.change(entry) {
        Ok(()) => 0,
        Err(fault) => S::kind(&fault),
    }
}

/// Whether the store is whole, and whether it has the row of that entry. Takes no memory.
fn told<S: Store>(store: &S, entry: &Entry) -> (bool, bool) {
    let place = match entry {
        Entry::Insert { table, row, .. }
        | Entry::Patch { table, row, .. }
        | Entry::Delete { table, row } => store.find(*table, *row),
        Entry::AddColumn { .. } => None,
    };
    (store.whole(), place.is_some())
}

/// Whether the change is refused with a fault of this kind, or made: 0. Where memory is refused,
/// that has changed nothing, and it is asked for once more.
fn is_changed<S: Store>(store: &mut S, entry: &Entry, expected: u8) -> bool {
    let before = told(store, entry);
    let kind = kind_of_change(store, entry);
    if kind == 4 {
        return told(store, entry) == before && kind_of_change(store, entry) == expected;
    }
    kind == expected
}

/// How many columns the table has.
fn columns_of<S: Store>(store: &S, table: u8) -> usize {
    store.kinds(table).unwrap_or(&[]).len()
}

/// Whether a change that adds a column is refused with a fault of this kind, or made: 0. Where memory
/// is refused, that has changed nothing, and it is asked for once more.
fn is_added<S: Store>(store: &mut S, table: u8, number: i64, expected: u8) -> bool {
    let default = Value::Int(number);
    let before = columns_of(store, table);
    if !is_changed(store, &Entry::AddColumn { table, default }, expected) {
        return false;
    }
    let added = if expected == 0 { 1 } else { 0 };
    columns_of(store, table) == before.saturating_add(added)
}

/// Where a run of these entries stops, and the kind of the fault; `None` where it goes to the end.
fn stop_of_run<S: Store>(store: &mut S, entries: &[Entry]) -> Option<(usize, u8)> {
    match run(store, entries) {
        Ok(()) => None,
        Err((i, fault)) => Some((i, S::kind(&fault))),
    }
}

/// Whether the store is whole and these are the identifiers of its accounts, in their order.
fn are_ids<S: Store>(store: &S, ids: &[u64]) -> bool {
    if !store.whole() || store.len(0) != ids.len() {
        return false;
    }
    for i in 0..store.len(0) {
        if store.id_at(0, i).0 != ids[i] {
            return false;
        }
    }
    true
}

/// Commits of worker 0, each of these entries.
fn made_commits(alloc: Global, lists: &[&[Wanted<'_>]]) -> Result<Vec<Commit>, AllocError> {
    let mut commits = Vec::new(alloc);
    for wanted in lists {
        let entries = all_made(alloc, wanted)?;
        commits.push(Commit { worker: 0, entries })?;
    }
    Ok(commits)
}

/// How many accounts there are once these commits are applied to a store without rows. The clauses
/// of the bound alone say that it is what the commits make.
fn count_after<S: ApplyStore + Sync, R: Threads + Sync>(
    rt: &R,
    store: &mut S,
    commits: &[Commit],
) -> Result<usize, ApplyFault>
    ensures { IfOk result (λ count. IsOkAnd (apply_commits (S.tables store.old) commits.now)
        (λ after. count ≡ length (rows_of after 0))) }
{
    store.apply_all(rt, commits)?;
    Ok(store.len(0))
}

/// Whether the list of commits is applied, and so many accounts are there then; or it is refused
/// for that, or for memory, and the store is broken.
fn is_applied<S: ApplyStore + Sync, R: Threads + Sync>(
    rt: &R,
    store: &mut S,
    commits: &[Commit],
    expected: Result<usize, ApplyFault>,
) -> bool {
    match count_after(rt, store, commits) {
        Ok(count) => expected == Ok(count) && store.whole(),
        Err(ApplyFault::Memory) => is_broken(rt, store),
        Err(fault) => expected == Err(fault) && is_broken(rt, store),
    }
}

/// Whether the store is broken: it is not whole, and refuses each change and each list of commits
/// as a broken one does.
fn is_broken<S: ApplyStore + Sync, R: Threads + Sync>(rt: &R, store: &mut S) -> bool {
    let delete = Entry::Delete {
        table: 0,
        row: RowId(1),
    };
    !store.whole()
        && kind_of_change(store, &delete) == 5
        && store.apply_all(rt, &[]) == Err(ApplyFault::Broken)
}

/// A patch of no column is unfit.
const NO_COLUMN: [Step; 3] = [
    Step::Change(Wanted::Insert(0, 7, &FIVE), 0),
    Step::Change(Wanted::Patch(0, 7, 4, &SIX), 3),
    Step::Change(Wanted::Patch(0, 7, 8, &SIX), 0),
];

/// A row is there or not.
const ROWS_THERE_OR_NOT: [Step; 6] = [
    Step::Change(Wanted::Delete(0, 7), 2),
    Step::Change(Wanted::Patch(0, 7, 8, &SIX), 2),
    Step::Change(Wanted::Insert(0, 7, &FIVE), 0),
    Step::Change(Wanted::Insert(0, 7, &FIVE), 1),
    Step::Change(Wanted::Delete(0, 7), 0),
    Step::Has(7, false),
];

/// A run stops in the middle.
const STOP: [Step; 2] = [
    Step::Run(
        &[
            Wanted::Insert(0, 1, &FIVE),
            Wanted::Insert(0, 2, &FIVE),
            Wanted::Delete(0, 3),
            Wanted::Insert(0, 4, &FIVE),
        ],
        Some((2, 2)),
    ),
    Step::Ids(&[1, 2]),
];

/// Identifiers rise.
const RISING: [Step; 3] = [
    Step::Run(
        &[
            Wanted::Insert(0, 128, &FIVE),
            Wanted::Insert(0, 64, &FIVE),
            Wanted::Insert(0, 63, &FIVE),
        ],
        None,
    ),
    Step::Ids(&[63, 64, 128]),
    Step::Audits(0),
];

/// The bytes of a row of three numbers.
const THREE: [u8; 24] = [7; 24];

/// A column comes where there are rows, and where there are none.
const WIDER: [Step; 10] = [
    Step::Change(Wanted::Insert(0, 7, &FIVE), 0),
    Step::Change(Wanted::Patch(0, 7, 16, &SIX), 3),
    Step::Add(0, 3, 0),
    Step::Add(2, 3, 3),
    Step::Add(1, -1, 0),
    Step::Columns(3, 2),
    Step::Change(Wanted::Insert(0, 8, &FIVE), 3),
    Step::Change(Wanted::Insert(0, 8, &THREE), 0),
    Step::Change(Wanted::Patch(0, 7, 16, &SIX), 0),
    Step::Ids(&[7, 8]),
];

/// Commits are applied.
const APPLIED: [Step; 4] = [
    Step::Apply(
        &[
            &[Wanted::Insert(0, 1, &FIVE), Wanted::Insert(0, 2, &FIVE)],
            &[Wanted::Patch(0, 1, 0, &SIX), Wanted::Delete(0, 2)],
        ],
        Ok(1),
    ),
    Step::IsWhole,
    Step::Has(1, true),
    Step::Has(2, false),
];

/// A commit that is refused breaks the store.
const REFUSED: [Step; 1] = [Step::Apply(
    &[&[Wanted::Insert(0, 1, &FIVE), Wanted::Insert(0, 1, &FIVE)]],
    Err(ApplyFault::Inconsistent),
)];

/// Rows of both tables and an added column go, and come again by the same changes.
const CLEARED: [Step; 20] = [
    Step::Change(Wanted::Insert(0, 7, &FIVE), 0),
    Step::Change(Wanted::Insert(1, 7, &SIX), 0),
    Step::Add(0, 3, 0),
    Step::Change(Wanted::Insert(0, 8, &THREE), 0),
    Step::Columns(3, 1),
    Step::Ids(&[7, 8]),
    Step::Clear,
    Step::IsWhole,
    Step::Columns(2, 1),
    Step::Ids(&[]),
    Step::Audits(0),
    Step::Change(Wanted::Delete(0, 7), 2),
    Step::Change(Wanted::Insert(0, 8, &THREE), 3),
    Step::Change(Wanted::Insert(0, 7, &FIVE), 0),
    Step::Change(Wanted::Insert(1, 7, &SIX), 0),
    Step::Add(0, 3, 0),
    Step::Change(Wanted::Insert(0, 8, &THREE), 0),
    Step::Columns(3, 1),
    Step::Ids(&[7, 8]),
    Step::Audits(1),
];

/// A store without rows, of which nothing goes.
const CLEARED_EMPTY: [Step; 6] = [
    Step::Clear,
    Step::IsWhole,
    Step::Columns(2, 1),
    Step::Ids(&[]),
    Step::Change(Wanted::Insert(0, 7, &FIVE), 0),
    Step::Ids(&[7]),
];

/// A broken store stays broken.
const CLEARED_BROKEN: [Step; 3] = [
    Step::Apply(
        &[&[Wanted::Insert(0, 1, &FIVE), Wanted::Insert(0, 1, &FIVE)]],
        Err(ApplyFault::Inconsistent),
    ),
    Step::Clear,
    Step::IsBroken,
];

const STORIES: [&[Step]; 10] = [
    &NO_COLUMN,
    &ROWS_THERE_OR_NOT,
    &STOP,
    &RISING,
    &WIDER,
    &APPLIED,
    &REFUSED,
    &CLEARED,
    &CLEARED_EMPTY,
    &CLEARED_BROKEN,
];

#[test]
fn stores_answer_as_they_should(rt: HostRuntime) -> Result<(), Fail> {
    assert_eq!(rt; other_story(&rt, rt.alloc(), &STORIES)?, None);
    Ok(())
}

/// Changes of a store without rows.
static CHANGE: [Step; 9] = [
    Step::IsWhole,
    Step::Has(7, false),
    Step::Change(Wanted::Insert(0, 7, &FIVE), 0),
    Step::IsWhole,
    Step::Has(7, true),
    Step::Add(0, 3, 0),
    Step::IsWhole,
    Step::Has(7, true),
    Step::Columns(3, 1),
];

/// A commit of two inserts.
static COMMIT: [Step; 1] = [Step::Apply(
    &[&[Wanted::Insert(0, 1, &FIVE), Wanted::Insert(0, 2, &FIVE)]],
    Ok(2),
)];

/// Whichever allocation is refused: a change that was refused for memory has changed nothing, and
/// is made when it is asked for again; commits that were refused for memory leave a broken store.
#[test]
fn stores_without_memory_stand_or_break(rt: HostRuntime) -> Result<(), Fail> {
    assert_eq!(rt; other_story(&rt, rt.alloc(), &[&CHANGE, &COMMIT])?, None);
    Ok(())
}

/// A column of an account that is there.
fn column<S: Store>(store: &S, row: u64, column: usize) -> Option<Value>
    requires whole { S.is_whole store.now ≡ true }
    requires there { IsSome (column_of (row_at (rows_of (S.tables store.now) 0) row) column) }
{
    let place = store.find(0, RowId(row))?;
    Some(store.value(0, place, column))
}

/// The entry, owned.
fn owned(alloc: Global, lent: &EntryRef<'_>) -> Result<Entry, AllocError>
    ensures { IfOk result (λ owned. owned ≡ entry_of lent.now) }
{
    Ok(match lent {
        EntryRef::Insert { table, row, bytes } => Entry::Insert {
            table: *table,
            row: *row,
            bytes: ByteList::from_vec(Vec::from_slice(alloc, bytes)?),
        },
        EntryRef::Patch {
            table,
            row,
            offset,
            bytes,
        } => Entry::Patch {
            table: *table,
            row: *row,
            offset: *offset,
            bytes: ByteList::from_vec(Vec::from_slice(alloc, bytes)?),
        },
        EntryRef::Delete { table, row } => Entry::Delete {
            table: *table,
            row: *row,
        },
        EntryRef::AddColumn { table, default } => Entry::AddColumn {
            table: *table,
            default: *default,
        },
    })
}

/// The store makes the change of an entry.
fn make(alloc: Global, store: &mut PlainStore, lent: &EntryRef<'_>) -> Result<(), Fail>
    ensures made { OnOk result (apply_entry store.old.tables (entry_of lent.now) ≡ Ok store.new.tables) }
    ensures whole { store.new.whole ≡ store.old.whole }
    ensures base { store.new.base_shape ≡ store.old.base_shape }
{
    store.change(&owned(alloc, lent)?)?;
    Ok(())
}

/// A store of accounts, each a number, three octets and a number.
fn accounts_with_octets(alloc: Global) -> Result<PlainStore, Fail>
    ensures tables { IfOk result (λ store. store.tables ≡ record { kinds = Int ∷ OctetsOf 3 ∷ Int ∷ []; rows = [] } ∷ []) }
    ensures whole { IfOk result (λ store. store.whole ≡ true) }
    ensures base { IfOk result (λ store. store.base_shape ≡ (Int ∷ OctetsOf 3 ∷ Int ∷ []) ∷ []) }
{
    let kinds = [Kind::Int, Kind::Octets(3), Kind::Int];
    let schema = Schema::new(alloc, &[("accounts", kinds.as_slice())])?;
    Ok(PlainStore::new(alloc, &schema)?)
}

/// A store whose accounts 7 and 8 were put in with the number 5, the octets `abc` and the number
/// -1. Then the octets of account 7 were patched to `xyz`.
fn with_patched_account(alloc: Global) -> Result<PlainStore, Fail>
    ensures whole { IfOk result (λ store. store.whole ≡ true) }
    ensures first { IfOk result (λ store. IsSome (column_of (row_at (rows_of store.tables 0) 7) 0)) }
    ensures second { IfOk result (λ store. IsSome (column_of (row_at (rows_of store.tables 0) 7) 1)) }
    ensures third { IfOk result (λ store. IsSome (column_of (row_at (rows_of store.tables 0) 7) 2)) }
    ensures other_first { IfOk result (λ store. IsSome (column_of (row_at (rows_of store.tables 0) 8) 0)) }
    ensures other_second { IfOk result (λ store. IsSome (column_of (row_at (rows_of store.tables 0) 8) 1)) }
{
    let mut store = accounts_with_octets(alloc)?;
    let table = 0;
    let bytes = b"\0\0\0\0\0\0\0\x05abc\xff\xff\xff\xff\xff\xff\xff\xff";
    let row = RowId(7);
    make(alloc, &mut store, &EntryRef::Insert { table, row, bytes })?;
    let row = RowId(8);
    make(alloc, &mut store, &EntryRef::Insert { table, row, bytes })?;
    let patch = EntryRef::Patch {
        table,
        row: RowId(7),
        offset: 8,
        bytes: b"xyz",
    };
    make(alloc, &mut store, &patch)?;
    Ok(store)
}

/// The columns of account 7 and the first two of account 8 in that store.
fn patched_columns(alloc: Global) -> Result<[Option<Value>; 5], Fail> {
    let store = with_patched_account(alloc)?;
    Ok([
        column(&store, 7, 0),
        column(&store, 7, 1),
        column(&store, 7, 2),
        column(&store, 8, 0),
        column(&store, 8, 1),
    ])
}

#[test]
fn a_patch_writes_one_column_of_one_row(rt: HostRuntime) -> Result<(), Fail> {
    let expected = [
        Some(Value::Int(5)),
        Octets::from_slice(b"xyz").map(Value::Octets),
        Some(Value::Int(-1)),
        Some(Value::Int(5)),
        Octets::from_slice(b"abc").map(Value::Octets),
    ];
    assert!(rt; patched_columns(rt.alloc())? == expected);
    Ok(())
}

/// Puts in account 7, adds a column that is 3 in each row, puts in account 8 with 4 there, and adds
/// another column, `x`.
fn fill(alloc: Global, store: &mut PlainStore) -> Result<(), Fail>
    requires tables { store.old.tables ≡ record { kinds = Int ∷ OctetsOf 3 ∷ Int ∷ []; rows = [] } ∷ [] }
    requires whole { store.old.whole ≡ true }
    ensures whole { OnOk result (store.new.whole ≡ true) }
    ensures base { OnOk result (store.new.base_shape ≡ store.old.base_shape) }
    ensures first { OnOk result (IsSome (column_of (row_at (rows_of store.new.tables 0) 7) 1)) }
    ensures second { OnOk result (IsSome (column_of (row_at (rows_of store.new.tables 0) 7) 3)) }
    ensures third { OnOk result (IsSome (column_of (row_at (rows_of store.new.tables 0) 7) 4)) }
    ensures other_second { OnOk result (IsSome (column_of (row_at (rows_of store.new.tables 0) 8) 3)) }
    ensures other_third { OnOk result (IsSome (column_of (row_at (rows_of store.new.tables 0) 8) 4)) }
{
    let table = 0;
    let row = RowId(7);
    let bytes = b"\0\0\0\0\0\0\0\x05abc\xff\xff\xff\xff\xff\xff\xff\xff";
    make(alloc, store, &EntryRef::Insert { table, row, bytes })?;
    let default = Value::Int(3);
    make(alloc, store, &EntryRef::AddColumn { table, default })?;
    let row = RowId(8);
    let bytes = b"\0\0\0\0\0\0\0\x06xyz\0\0\0\0\0\0\0\0\0\0\0\0\0\0\0\x04";
    make(alloc, store, &EntryRef::Insert { table, row, bytes })?;
    let default = Value::Octets(Octets::from_slice(b"x").ok_or("too long")?);
    make(alloc, store, &EntryRef::AddColumn { table, default })?;
    Ok(())
}

/// The octets of account 7 and the added columns of both accounts.
fn added_columns(store: &PlainStore) -> [Option<Value>; 5]
    requires whole { store.now.whole ≡ true }
    requires first { IsSome (column_of (row_at (rows_of store.now.tables 0) 7) 1) }
    requires second { IsSome (column_of (row_at (rows_of store.now.tables 0) 7) 3) }
    requires third { IsSome (column_of (row_at (rows_of store.now.tables 0) 7) 4) }
    requires other_second { IsSome (column_of (row_at (rows_of store.now.tables 0) 8) 3) }
    requires other_third { IsSome (column_of (row_at (rows_of store.now.tables 0) 8) 4) }
{
    [
        column(store, 7, 1),
        column(store, 7, 3),
        column(store, 7, 4),
        column(store, 8, 3),
        column(store, 8, 4),
    ]
}

/// These of a store that was filled.
fn filled_columns(alloc: Global) -> Result<[Option<Value>; 5], Fail> {
    let mut store = accounts_with_octets(alloc)?;
    fill(alloc, &mut store)?;
    Ok(added_columns(&store))
}

/// These of a store that was filled, cleared and filled again.
fn refilled_columns(alloc: Global) -> Result<[Option<Value>; 5], Fail> {
    let mut store = accounts_with_octets(alloc)?;
    fill(alloc, &mut store)?;
    store.clear();
    fill(alloc, &mut store)?;
    Ok(added_columns(&store))
}

#[test]
fn an_added_column_is_in_each_row(rt: HostRuntime) -> Result<(), Fail> {
    let letter = Octets::from_slice(b"x").map(Value::Octets);
    let expected = [
        Octets::from_slice(b"abc").map(Value::Octets),
        Some(Value::Int(3)),
        letter,
        Some(Value::Int(4)),
        letter,
    ];
    assert!(rt; filled_columns(rt.alloc())? == expected);
    assert!(rt; refilled_columns(rt.alloc())? == expected);
    Ok(())
}
