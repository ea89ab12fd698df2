//! Whether entries are defined where they stand.

ghost use Rattle.std.specs.Prelude.{◌≡◌, ◌≤◌, ◌&&◌, [], length, take, is_ok, if◌then◌else◌};
ghost use Rattle.std.specs.Bool.{OnTrue};
ghost use Rattle.std.specs.List.{AllByRecursion};
ghost use Rattle.rows.specs.Tables.{is_row_at, shape_in};
ghost use Rattle.rows.specs.Entries.{table_of, row_of, fitting, shape_after};
ghost use Rattle.rows.specs.Presence.{stands_for, is_there_after};
ghost use Rattle.rows.specs.Spelling.{HasSpelling};
ghost use Rattle.mvcc.specs.VersionList.{defined_at, tables_at};
ghost use Rattle.mvcc.specs.Inner.Keys.{of_row};
ghost use Rattle.mvcc.specs.Inner.RowsTold.{there_in};

use crate::columns::add_columns;
use crate::kind_buffer::kinds_behind;
use crate::rows_told::RowsTold;
use crate::versions::Versions;
use rows::laws::entries_are_defined_one_by_one;
use rows::{Entry, RowId, fits_table, is_there_after};
use std::alloc::Global;

/// Whether each of the entries is defined where it stands on the rows at that version. It costs one
/// or two look-ups for each entry, and if one of them adds a column a glance at each entry before
/// it, while there is memory to record the rows that the entries before it wrote.
pub fn are_defined(alloc: Global, versions: &Versions, version: u64, entries: &[Entry]) -> bool
    requires { version ≤ length versions.now.commits }
    ensures answer { result ≡ defined_at versions.now version entries.now }
    ensures spelled { OnTrue result (AllByRecursion HasSpelling entries.now) }
{
    entries_are_defined_one_by_one();
    let grows = add_columns(entries);
    let mut told = RowsTold::new(alloc);
    for index in 0..entries.len() {
        let entry = &entries[index];
        let there = is_there(versions, version, &told, entry);
        let before = gone_over(entries, index, grows);
        if !is_defined_behind(versions, version, before, entry, there) {
            return false;
        }
        let Ok(()) = told.tell(entry, there) else {
            return are_defined_by_walk(versions, version, entries);
        };
    }
    true
}

/// Of the entries before that one those that may have changed the kinds of a column: none if none of
/// the entries adds a column.
fn gone_over(entries: &[Entry], index: usize, grows: bool) -> &[Entry]
    requires { index ≤ length entries.now }
    ensures { result.now ≡ (if grows then take index entries.now else []) }
{
    if !grows {
        return &[];
    }
    let (before, _) = entries.split_at(index);
    before
}

/// Whether the row of the entry is there after the entries that have been recorded, on the rows at
/// that version; true if it is of no row alone.
fn is_there(versions: &Versions, version: u64, told: &RowsTold, entry: &Entry) -> bool
    requires { version ≤ length versions.now.commits }
    ensures { result ≡ of_row (row_of entry.now) (λ row. there_in told.now (table_of entry.now) row
        (is_row_at (tables_at versions.now version) (table_of entry.now) row)) }
{
    match entry.row() {
        Some(row) => is_row_there(versions, version, told, entry.table(), row),
        None => true,
    }
}

/// Whether the row is there after the entries that have been recorded, on the rows at that version.
fn is_row_there(versions: &Versions, version: u64, told: &RowsTold, table: u8, row: RowId) -> bool
    requires { version ≤ length versions.now.commits }
    ensures { result ≡ there_in told.now table row.0 (is_row_at (tables_at versions.now version) table row.0) }
{
    match told.of(table, row) {
        Some(there) => there,
        None => versions.is_present(version, table, row),
    }
}

/// Whether the entry fits the tables at that version once these entries have changed them, and is
/// possible, given whether its row is there.
fn is_defined_behind(
    versions: &Versions,
    version: u64,
    before: &[Entry],
    entry: &Entry,
    there: bool,
) -> bool
    ensures answer { result ≡
        (is_ok (fitting (shape_after (shape_in (tables_at versions.now version)) before.now) entry.now) && stands_for entry.now there) }
    ensures spelled { OnTrue result (HasSpelling entry.now) }
{
    let table = entry.table();
    match versions.kinds_at(version, table) {
        None => false,
        Some(kinds) => {
            let behind = kinds_behind(kinds, table, before);
            fits_table(behind.as_slice(), entry).is_ok() && entry.is_possible(there)
        }
    }
}

/// The same as `are_defined`, by going over the entries before each one: takes no memory.
fn are_defined_by_walk(versions: &Versions, version: u64, entries: &[Entry]) -> bool
    requires { version ≤ length versions.now.commits }
    ensures answer { result ≡ defined_at versions.now version entries.now }
    ensures spelled { OnTrue result (AllByRecursion HasSpelling entries.now) }
{
    entries_are_defined_one_by_one();
    for index in 0..entries.len() {
        let (before, _) = entries.split_at(index);
        let entry = &entries[index];
        let there = is_row_there_after(versions, version, before, entry);
        if !is_defined_behind(versions, version, before, entry, there) {
            return false;
        }
    }
    true
}

/// Whether the row of the entry is there after these entries, on the rows at that version; true if
/// it is of no row alone.
fn is_row_there_after(versions: &Versions, version: u64, before: &[Entry], entry: &Entry) -> bool
    requires { version ≤ length versions.now.commits }
    ensures { result ≡ of_row (row_of entry.now) (λ row. is_there_after (table_of entry.now) row before.now
        (is_row_at (tables_at versions.now version) (table_of entry.now) row)) }
{
    let table = entry.table();
    match entry.row() {
        Some(row) => is_there_after(table, row, before, versions.is_present(version, table, row)),
        None => true,
    }
}
