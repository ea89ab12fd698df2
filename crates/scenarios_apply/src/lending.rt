//! What a store of columns lends: over all pieces each row once, with its values, whatever the number
//! of partitions; nothing of another number of pieces.

ghost use Rattle.std.specs.Prelude.{◌≡◌, ◌<◌, ◌≤◌, true};
ghost use Rattle.apply.specs.Limits.{partitions_max};

use apply::ColumnStore;
use rows::{Commit, Entry, Kind, Schema, Value};
use scenarios_common::wanted::{Table, Wanted, all_made};
use std::alloc::{AllocError, Global};
use std::test::Fail;
use std::thread::Threads;
use store::{ApplyStore, Lent, Store};

/// Numbers of partitions.
const PARTITIONS: [usize; 4] = [1, 2, 7, 64];

/// Items of a number and of three bytes.
const ITEMS: [Table; 1] = [("items", &[Kind::Int, Kind::Octets(3)])];

/// So many rows are inserted: several blocks of a thousand in each of two partitions, and enough that
/// threads insert them.
const ROWS: u64 = 5000;

/// The bytes of a row: its identifier as a number, and three bytes of it.
fn bytes_of(row: u64) -> [u8; 11] {
    let number = row.to_be_bytes();
    let mut bytes = [0; 11];
    bytes[..8].copy_from_slice(&number);
    bytes[8..].copy_from_slice(&number[5..]);
    bytes
}

/// A commit of inserts of all rows, the greatest first.
fn all_inserts(alloc: Global) -> Result<Vec<Commit>, AllocError> {
    let mut commits = Vec::new(alloc);
    for k in 0..ROWS {
        let row = ROWS - 1 - k;
        let bytes = bytes_of(row);
        let entries = all_made(alloc, &[Wanted::Insert(0, row, &bytes)])?;
        commits.push(Commit { worker: 0, entries })?;
    }
    Ok(commits)
}

/// Whether these are the identifiers of a piece's rows from an index on.
fn are_ids(ids: &[u64], pieces: usize, piece: usize, from: usize) -> bool {
    for k in 0..ids.len() {
        let row = from
            .wrapping_add(k)
            .wrapping_mul(pieces)
            .wrapping_add(piece);
        if ids[k] != row as u64 {
            return false;
        }
    }
    true
}

/// Whether these are the numbers, or the bytes, of the rows of these identifiers.
fn are_values(ids: &[u64], lent: Lent<'_>) -> bool {
    match lent {
        Lent::Numbers(numbers) => {
            ids.len() == numbers.len()
                && ids
                    .iter()
                    .zip(numbers)
                    .all(|(id, number)| *id == number.cast_unsigned())
        }
        Lent::Octets { width, bytes } => {
            width == 3
                && ids.len() == bytes.len() / 3
                && ids
                    .iter()
                    .zip(bytes.chunks(3))
                    .all(|(id, own)| own == &id.to_be_bytes()[5..])
        }
    }
}

/// How many rows of a piece are lent, in their order and with their values. `None` if others are, or
/// if a column is not lent.
fn count_lent(store: &ColumnStore, pieces: usize, piece: usize) -> Option<usize>
    requires whole { store.now.whole ≡ true }
    requires some { 0 < pieces }
{
    let mut from = 0;
    for _ in 0..=ROWS {
        let ids = store.ids_from(0, pieces, piece, from)?;
        if ids.is_empty() {
            return Some(from);
        }
        let numbers = store.column_from(0, pieces, piece, from, ids.len(), 0)?;
        let octets = store.column_from(0, pieces, piece, from, ids.len(), 1)?;
        if !are_ids(ids, pieces, piece, from)
            || !are_values(ids, numbers)
            || !are_values(ids, octets)
        {
            return None;
        }
        from = from.saturating_add(ids.len());
    }
    None
}

/// How many rows all pieces lend. `None` if one of them lends others.
fn count_all(store: &ColumnStore) -> Option<usize> {
    if !store.whole() {
        return None;
    }
    let mut rows: usize = 0;
    for piece in 0..store.pieces() {
        rows = rows.saturating_add(count_lent(store, store.pieces(), piece)?);
    }
    Some(rows)
}

/// Whether nothing is lent of another number of pieces, of a piece, a table or a column that is not
/// there, or of a column beyond a block.
fn lends_no_other(store: &ColumnStore) -> bool {
    if !store.whole() {
        return false;
    }
    let pieces = store.pieces();
    let more = pieces.saturating_add(1);
    store.ids_from(0, more, 0, 0).is_none()
        && store.ids_from(0, pieces, pieces, 0).is_none()
        && store.ids_from(1, pieces, 0, 0).is_none()
        && store.column_from(0, more, 0, 0, 1, 0).is_none()
        && store.column_from(0, pieces, 0, 0, 1, 2).is_none()
        && store
            .column_from(0, pieces, 0, 0, ROWS as usize, 0)
            .is_none()
}

/// How many rows a store of so many partitions lends, once they are inserted. `None` if it lends others.
fn count_inserted<R: Threads + Sync>(
    rt: &R,
    alloc: Global,
    partitions: usize,
) -> Result<Option<usize>, Fail>
    requires some { 0 < partitions }
    requires few { partitions ≤ partitions_max }
{
    let schema = Schema::new(alloc, &ITEMS)?;
    let mut store = ColumnStore::new(alloc, &schema, partitions)?;
    let commits = all_inserts(alloc)?;
    if store.apply_together(rt, &commits).is_err() || !lends_no_other(&store) {
        return Ok(None);
    }
    Ok(count_all(&store))
}

/// Whether these commits are applied, and then a column of sevens comes.
fn is_widened<R: Threads + Sync>(rt: &R, store: &mut ColumnStore, commits: &[Commit]) -> bool {
    let default = Value::Int(7);
    store.apply_together(rt, commits).is_ok()
        && store
            .change(&Entry::AddColumn { table: 0, default })
            .is_ok()
}

/// How many rows a store of so many partitions lends that was cleared, once they are inserted again.
/// `None` if it lends others, or if a row or an added column is left after `clear`.
fn count_inserted_again<R: Threads + Sync>(
    rt: &R,
    alloc: Global,
    partitions: usize,
) -> Result<Option<usize>, Fail>
    requires some { 0 < partitions }
    requires few { partitions ≤ partitions_max }
{
    let schema = Schema::new(alloc, &ITEMS)?;
    let mut store = ColumnStore::new(alloc, &schema, partitions)?;
    let commits = all_inserts(alloc)?;
    if !is_widened(rt, &mut store, &commits) {
        return Ok(None);
    }
    store.clear();
    if store.len(0) != 0 || store.apply_together(rt, &commits).is_err() || !lends_no_other(&store) {
        return Ok(None);
    }
    Ok(count_all(&store))
}

#[test]
fn rows_of_a_cleared_store_are_lent_once(rt: HostRuntime) -> Result<(), Fail> {
    for partitions in PARTITIONS {
        assert_eq!(rt;
            count_inserted_again(&rt, rt.alloc(), partitions)?,
            Some(ROWS as usize)
        );
    }
    Ok(())
}

#[test]
fn each_row_is_lent_once(rt: HostRuntime) -> Result<(), Fail> {
    for partitions in PARTITIONS {
        assert_eq!(rt;
            count_inserted(&rt, rt.alloc(), partitions)?,
            Some(ROWS as usize)
        );
    }
    Ok(())
}
