//! Transactions: what each sees of the rows at its snapshot and of its own entries, each refusal,
//! and what refused memory leaves.
//!
//! At version 1 account 7 has the number 5, at 2 it has 6, at 3 it is not there; at 4 it has 8, and
//! account 8 has 10. The other column of each is `ab`.

ghost use Rattle.std.specs.Prelude.{◌≡◌, ◌≤◌, length};

use crate::accounts::{Cell, is_held, value_of, versions_behind};
use crate::primary_steps::expect_none;
use mvcc::{Transaction, TxFault, Versions};
use rows::{RowId, Value};
use std::alloc::{AllocError, Global};
use std::test::Fail;

/// A call of a transaction: the table, the row, the column, what is put there, and last what it
/// answers.
enum Call {
    Insert(u8, u64, &'static [Cell], Result<(), TxFault>),
    Set(u8, u64, usize, Cell, Result<(), TxFault>),
    Delete(u8, u64, Result<(), TxFault>),
    Get(u8, u64, usize, Cell),
    GetRefused(u8, u64, usize, TxFault),
    /// So many accounts are put in, from that of this identifier on, each with -1 and the name.
    InsertAll(u64, u64),
    Snapshot(u64),
    Count(usize),
}

/// The index of the first call on a version that answers otherwise; the story's length, where the
/// transaction then hands out another number of entries.
fn other_answer(
    alloc: Global,
    versions: &Versions,
    version: u64,
    story: &[Call],
    count: usize,
) -> Result<Option<usize>, Fail> {
    let mut transaction = Transaction::begin(alloc, version);
    let other = other_call(alloc, versions, &mut transaction, story)?;
    let entries = transaction.into_entries();
    if other.is_none() && entries.len() != count {
        return Ok(Some(story.len()));
    }
    Ok(other)
}

/// The index of the first call that answers otherwise.
fn other_call(
    alloc: Global,
    versions: &Versions,
    transaction: &mut Transaction,
    story: &[Call],
) -> Result<Option<usize>, Fail> {
    for (index, call) in story.iter().enumerate() {
        if !is_answered(alloc, versions, transaction, call)? {
            return Ok(Some(index));
        }
    }
    Ok(None)
}

/// Whether this call answers as it should.
fn is_answered(
    alloc: Global,
    versions: &Versions,
    transaction: &mut Transaction,
    call: &Call,
) -> Result<bool, Fail> {
    if transaction.snapshot() > versions.len() {
        return Err("no such version".into());
    }
    match call {
        Call::Insert(table, row, cells, expected) => {
            let values = values_of(alloc, cells)?;
            Ok(insert(versions, transaction, *table, RowId(*row), &values) == *expected)
        }
        Call::Set(table, row, column, cell, expected) => {
            let value = value_of(cell)?;
            Ok(set(versions, transaction, *table, RowId(*row), *column, &value) == *expected)
        }
        Call::Delete(table, row, expected) => {
            Ok(transaction.delete(versions, *table, RowId(*row)) == *expected)
        }
        Call::Get(table, row, column, cell) => {
            let value = transaction.get(versions, *table, RowId(*row), *column);
            Ok(is_held(&value.ok(), cell))
        }
        Call::GetRefused(table, row, column, fault) => {
            Ok(transaction.get(versions, *table, RowId(*row), *column) == Err(*fault))
        }
        Call::InsertAll(first, count) => are_inserted(alloc, versions, transaction, *first, *count),
        Call::Snapshot(version) => Ok(transaction.snapshot() == *version),
        Call::Count(count) => Ok(transaction.entries().len() == *count),
    }
}

/// Whether so many accounts are put in, from that of an identifier on.
fn are_inserted(
    alloc: Global,
    versions: &Versions,
    transaction: &mut Transaction,
    first: u64,
    count: u64,
) -> Result<bool, Fail> {
    let values = values_of(alloc, &[Cell::Number(-1), NAME])?;
    for index in 0..count {
        if transaction.snapshot() > versions.len() {
            return Err("no such version".into());
        }
        let row = RowId(first.wrapping_add(index));
        if transaction.insert(versions, 0, row, &values).is_err() {
            return Ok(false);
        }
    }
    Ok(true)
}

/// How many entries there are, and what the first column of a row holds. Takes no memory.
fn told(
    versions: &Versions,
    transaction: &Transaction,
    table: u8,
    row: RowId,
) -> (usize, Result<Value, TxFault>)
    requires { transaction.now.snapshot ≤ length versions.now.commits }
{
    let value = transaction.get(versions, table, row, 0);
    (transaction.entries().len(), value)
}

/// Inserts a row, once more where it was refused for memory and that has changed nothing.
fn insert(
    versions: &Versions,
    transaction: &mut Transaction,
    table: u8,
    row: RowId,
    values: &[Value],
) -> Result<(), TxFault>
    requires { transaction.old.snapshot ≤ length versions.now.commits }
{
    let before = told(versions, transaction, table, row);
    let inserted = transaction.insert(versions, table, row, values);
    if inserted == Err(TxFault::Memory) && told(versions, transaction, table, row) == before {
        return transaction.insert(versions, table, row, values);
    }
    inserted
}

/// Sets a column of a row, once more where it was refused for memory and that has changed nothing.
fn set(
    versions: &Versions,
    transaction: &mut Transaction,
    table: u8,
    row: RowId,
    column: usize,
    value: &Value,
) -> Result<(), TxFault>
    requires { transaction.old.snapshot ≤ length versions.now.commits }
{
    let before = told(versions, transaction, table, row);
    let is_set = transaction.set(versions, table, row, column, *value);
    if is_set == Err(TxFault::Memory) && told(versions, transaction, table, row) == before {
        return transaction.set(versions, table, row, column, *value);
    }
    is_set
}

/// The values of these columns.
fn values_of(alloc: Global, cells: &[Cell]) -> Result<Vec<Value>, Fail> {
    let mut values = Vec::new(alloc);
    for cell in cells {
        push(&mut values, value_of(cell)?)?;
    }
    Ok(values)
}

/// Adds a value. Fails only when out of memory.
fn push(values: &mut Vec<Value>, value: Value) -> Result<(), AllocError> {
    values.push(value)?;
    Ok(())
}

/// The name that the transactions write.
const NAME: Cell = Cell::Octets(b"cd");

const MISSING: Result<(), TxFault> = Err(TxFault::Missing);

const UNFIT: Result<(), TxFault> = Err(TxFault::Unfit);

const EXISTS: Result<(), TxFault> = Err(TxFault::Exists);

const TOO_MANY: Result<(), TxFault> = Err(TxFault::TooManyEntries);

/// A row of its own is seen, until it deletes it.
const OWN_ROW: [Call; 6] = [
    Call::Insert(0, 9, &[Cell::Number(-1), NAME], Ok(())),
    Call::Get(0, 9, 0, Cell::Number(-1)),
    Call::Get(0, 9, 1, NAME),
    Call::Delete(0, 9, Ok(())),
    Call::GetRefused(0, 9, 0, TxFault::Missing),
    Call::Get(0, 8, 0, Cell::Number(10)),
];

/// Its own values are seen.
const OWN_VALUES: [Call; 6] = [
    Call::Set(0, 7, 1, NAME, Ok(())),
    Call::Get(0, 7, 0, Cell::Number(5)),
    Call::Get(0, 7, 1, NAME),
    Call::Set(0, 7, 0, Cell::Number(11), Ok(())),
    Call::Get(0, 7, 0, Cell::Number(11)),
    Call::Get(0, 7, 1, NAME),
];

/// The last of its values for a column is seen.
const LAST_VALUE: [Call; 4] = [
    Call::Set(0, 7, 0, Cell::Number(11), Ok(())),
    Call::Set(0, 7, 0, Cell::Number(12), Ok(())),
    Call::Get(0, 7, 0, Cell::Number(12)),
    Call::Count(2),
];

/// A row that it deleted is missing, and may be put in again.
const DELETED_ROW: [Call; 7] = [
    Call::Delete(0, 7, Ok(())),
    Call::GetRefused(0, 7, 0, TxFault::Missing),
    Call::Set(0, 7, 0, Cell::Number(11), MISSING),
    Call::Delete(0, 7, MISSING),
    Call::Insert(0, 7, &[Cell::Number(12), NAME], Ok(())),
    Call::Get(0, 7, 0, Cell::Number(12)),
    Call::Count(2),
];

/// What does not fit is refused: too few values, a table, a kind, a width, a column, and tables and
/// columns of each other call.
const UNFIT_CALLS: [Call; 9] = [
    Call::Insert(0, 9, &[Cell::Number(11)], UNFIT),
    Call::Insert(1, 9, &[Cell::Number(11), NAME], UNFIT),
    Call::Set(0, 7, 0, NAME, UNFIT),
    Call::Set(0, 7, 1, Cell::Octets(b"c"), UNFIT),
    Call::Set(0, 7, 2, Cell::Number(11), UNFIT),
    Call::Set(1, 7, 0, Cell::Number(11), UNFIT),
    Call::Delete(1, 7, UNFIT),
    Call::GetRefused(0, 7, 2, TxFault::Unfit),
    Call::Count(0),
];

/// A row that is not there is not changed, and one that is there is not put in.
const ROWS_THERE_OR_NOT: [Call; 6] = [
    Call::Set(0, 9, 0, Cell::Number(11), MISSING),
    Call::Delete(0, 9, MISSING),
    Call::Insert(0, 7, &[Cell::Number(11), NAME], EXISTS),
    Call::Insert(0, 9, &[Cell::Number(11), NAME], Ok(())),
    Call::Insert(0, 9, &[Cell::Number(11), NAME], EXISTS),
    Call::Count(1),
];

/// Of 4096 entries the last is taken, and one past them is refused, of whichever kind; what does
/// not fit, is there or is missing is told before that.
const MOST_ENTRIES: [Call; 16] = [
    Call::Set(0, 7, 0, Cell::Number(11), Ok(())),
    Call::InsertAll(100, 4094),
    Call::Count(4095),
    Call::Delete(0, 8, Ok(())),
    Call::Count(4096),
    Call::Insert(0, 8, &[Cell::Number(12), NAME], TOO_MANY),
    Call::Set(0, 7, 0, Cell::Number(12), TOO_MANY),
    Call::Delete(0, 7, TOO_MANY),
    Call::Delete(0, 8, MISSING),
    Call::Set(0, 9, 0, Cell::Number(12), MISSING),
    Call::Insert(0, 7, &[Cell::Number(12), NAME], EXISTS),
    Call::Insert(0, 9, &[Cell::Number(12)], UNFIT),
    Call::Get(0, 7, 0, Cell::Number(11)),
    Call::Get(0, 4193, 1, NAME),
    Call::GetRefused(0, 4194, 0, TxFault::Missing),
    Call::Count(4096),
];

/// A version, the calls of a transaction on it, and how many entries it then has.
type Story = (u64, &'static [Call], usize);

static STORIES: [Story; 12] = [
    // What is seen at each snapshot.
    (
        0,
        &[
            Call::Snapshot(0),
            Call::GetRefused(0, 7, 0, TxFault::Missing),
        ],
        0,
    ),
    (
        1,
        &[Call::Snapshot(1), Call::Get(0, 7, 0, Cell::Number(5))],
        0,
    ),
    (
        2,
        &[Call::Snapshot(2), Call::Get(0, 7, 0, Cell::Number(6))],
        0,
    ),
    (
        3,
        &[
            Call::Snapshot(3),
            Call::GetRefused(0, 7, 0, TxFault::Missing),
        ],
        0,
    ),
    (
        4,
        &[Call::Snapshot(4), Call::Get(0, 7, 0, Cell::Number(8))],
        0,
    ),
    (4, &OWN_ROW, 2),
    (1, &OWN_VALUES, 2),
    (4, &LAST_VALUE, 2),
    (4, &DELETED_ROW, 2),
    (4, &UNFIT_CALLS, 0),
    (4, &ROWS_THERE_OR_NOT, 1),
    (4, &MOST_ENTRIES, 4096),
];

/// The first of these stories on those versions that goes otherwise, and its index.
fn other_story_on(
    alloc: Global,
    versions: &Versions,
    stories: &[Story],
) -> Result<Option<(usize, usize)>, Fail> {
    for (number, (version, story, count)) in stories.iter().enumerate() {
        if let Some(index) = other_answer(alloc, versions, *version, story, *count)? {
            return Ok(Some((number, index)));
        }
    }
    Ok(None)
}

/// The same on four commits of the history.
fn other_story(alloc: Global, stories: &[Story]) -> Result<Option<(usize, usize)>, Fail> {
    let versions = versions_behind(alloc, 4)?;
    other_story_on(alloc, &versions, stories)
}

#[test]
fn transactions_answer_as_they_should(rt: HostRuntime) -> Result<(), Fail> {
    expect_none(&rt, other_story(rt.alloc(), &STORIES)?);
    Ok(())
}

/// An insert and a patch, and what is seen before each and behind it.
static CHANGES: [Story; 1] = [(
    4,
    &[
        Call::Count(0),
        Call::GetRefused(0, 9, 0, TxFault::Missing),
        Call::Insert(0, 9, &[Cell::Number(11), NAME], Ok(())),
        Call::Count(1),
        Call::Get(0, 9, 0, Cell::Number(11)),
        Call::Set(0, 9, 0, Cell::Number(12), Ok(())),
        Call::Count(2),
        Call::Get(0, 9, 0, Cell::Number(12)),
    ],
    2,
)];

/// Whichever request for memory is refused: a change that was refused for memory has changed
/// nothing, and is made when it is asked for again.
#[test]
fn a_change_without_memory_changes_nothing(rt: HostRuntime) -> Result<(), Fail> {
    expect_none(&rt, other_story(rt.alloc(), &CHANGES)?);
    Ok(())
}
