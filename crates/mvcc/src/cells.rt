//! The effect of entries on one column of a row, computed from the entries alone. `None` stands for
//! a row that is not there, and `Some(None)` for one that has no such column.

ghost use Rattle.std.specs.Prelude.{◌≡◌, ◌≤◌, length, true, slice_get, ◌==◌, if◌then◌else◌, Some, is_ok};
ghost use Rattle.std.specs.Option.{option_map};
ghost use Rattle.std.specs.List.{list_all};
ghost use Rattle.rows.specs.declared.limits.TheConstants.{COLUMNS_MAX};
ghost use Rattle.rows.specs.Entries.{fitting_in};
ghost use Rattle.rows.specs.Shape.{AreColumns, row_width, is_good};
ghost use Rattle.rows.specs.Values.{values_of};
ghost use Rattle.rows.specs.Limits.{row_width_max};
ghost use Rattle.mvcc.specs.Inner.OwnRows.{picked};
ghost use Rattle.mvcc.specs.Inner.RowBytes.{wide};
ghost use Rattle.mvcc.specs.Inner.Cells.{inserted_cell, patched_cell, added_cell, cell_after_one, cell_after_entry, cell_after};
ghost use Rattle.mvcc.specs.Inner.Cells.{cell_walked};

use crate::kind_buffer::KindBuffer;
use arrayvec::ArrayVec;
use rows::laws::columns_are_of_their_width;
use rows::limits::ROW_WIDTH_MAX;
use rows::{Entry, Kind, RowId, Value, column_at, first_value, fits_columns, width_of_row};

/// The effect of the entries at these indices on a column of a row, in a table with columns of
/// these kinds. Takes no memory.
pub fn cell_after(
    kinds: &[Kind],
    table: u8,
    row: RowId,
    column: usize,
    entries: &[Entry],
    indices: &[usize],
    was: Option<Option<Value>>,
) -> Option<Option<Value>>
    requires few { length kinds.now ≤ COLUMNS_MAX }
    requires good { list_all is_good kinds.now ≡ true }
    ensures { result ≡ cell_after kinds.now table row.0 column (picked entries.now indices.now) was }
{
    let mut cell = was;
    for index in indices {
        if let Some(entry) = entries.get(*index) {
            cell = cell_after_entry(kinds, table, row, column, entry, cell);
        }
    }
    cell
}

/// The effect of all these entries, some of which may add columns to the row's table, which has
/// columns of these kinds before them. Takes no memory.
pub fn cell_walked(
    kinds: &[Kind],
    table: u8,
    row: RowId,
    column: usize,
    entries: &[Entry],
    was: Option<Option<Value>>,
) -> Option<Option<Value>>
    requires { AreColumns kinds.now }
    ensures { result ≡ cell_walked kinds.now table row.0 column entries.now was }
{
    let mut behind = KindBuffer::of(kinds);
    let mut cell = was;
    for entry in entries {
        // Most of many entries are of other rows.
        if entry.is_of(table, row) {
            cell = cell_after_entry(behind.as_slice(), table, row, column, entry, cell);
            behind.add(table, entry);
        }
    }
    cell
}

/// The effect of an entry on a column of this row: an entry of another row does not change it.
fn cell_after_entry(
    kinds: &[Kind],
    table: u8,
    row: RowId,
    column: usize,
    entry: &Entry,
    cell: Option<Option<Value>>,
) -> Option<Option<Value>>
    requires few { length kinds.now ≤ COLUMNS_MAX }
    requires good { list_all is_good kinds.now ≡ true }
    ensures { result ≡ cell_after_entry kinds.now table row.0 column entry.now cell }
{
    if !entry.is_of(table, row) {
        return cell;
    }
    match entry {
        Entry::Insert { bytes, .. } => inserted_cell(kinds, bytes.as_slice(), column, cell),
        Entry::Patch { offset, bytes, .. } => match cell {
            Some(value) => Some(patched_cell(kinds, *offset, bytes.as_slice(), column, value)),
            None => None,
        },
        Entry::Delete { .. } => None,
        Entry::AddColumn { default, .. } => widened_cell(kinds, entry, *default, column, cell),
    }
}

/// The column after an insert of a row with these bytes: nothing if the row was there, or if the
/// bytes are not as wide as its columns.
fn inserted_cell(
    kinds: &[Kind],
    bytes: &[u8],
    column: usize,
    cell: Option<Option<Value>>,
) -> Option<Option<Value>>
    requires few { length kinds.now ≤ COLUMNS_MAX }
    requires good { list_all is_good kinds.now ≡ true }
    ensures { result ≡ (if length bytes.now == row_width kinds.now then inserted_cell kinds.now bytes.now column cell else cell) }
{
    if bytes.len() != width_of_row(kinds) || cell.is_some() {
        return cell;
    }
    Some(value_in_row(kinds, bytes, column))
}

/// The column after a patch of these bytes at an offset of the row.
fn patched_cell(
    kinds: &[Kind],
    offset: u16,
    bytes: &[u8],
    column: usize,
    value: Option<Value>,
) -> Option<Value>
    requires { list_all is_good kinds.now ≡ true }
    ensures { result ≡ patched_cell kinds.now offset bytes.now column value }
{
    columns_are_of_their_width();
    match column_at(kinds, offset as usize, bytes.len()) {
        Some((found, kind)) => {
            if found == column && value.is_some() {
                Some(first_value(kind, bytes))
            } else {
                value
            }
        }
        None => value,
    }
}

/// The column after an entry that adds one with this value to the table: nothing if it does not fit.
fn widened_cell(
    kinds: &[Kind],
    entry: &Entry,
    default: Value,
    column: usize,
    cell: Option<Option<Value>>,
) -> Option<Option<Value>>
    requires { length kinds.now ≤ COLUMNS_MAX }
    ensures { result ≡
        (if is_ok (fitting_in (Some kinds.now) entry.now) then option_map (added_cell kinds.now default column) cell else cell) }
{
    if fits_columns(kinds, entry).is_err() {
        return cell;
    }
    match cell {
        Some(value) => Some(added_cell(kinds, default, column, value)),
        None => None,
    }
}

/// The column after one with this value was added behind those of these kinds.
fn added_cell(kinds: &[Kind], default: Value, column: usize, value: Option<Value>) -> Option<Value>
    ensures { result ≡ added_cell kinds.now default column value }
{
    if column == kinds.len() {
        Some(default)
    } else {
        value
    }
}

/// The value of a column, in the bytes of a row with columns of these kinds and, behind them, those
/// of the blank row; `None` if there is no such column. Takes no memory.
pub fn value_in_wide(kinds: &[Kind], blank: &[u8], bytes: &[u8], column: usize) -> Option<Value>
    requires few { length kinds.now ≤ COLUMNS_MAX }
    requires good { list_all is_good kinds.now ≡ true }
    requires wide { row_width kinds.now ≤ length (wide blank.now bytes.now) }
    requires narrow { length (wide blank.now bytes.now) ≤ row_width_max }
    ensures { result ≡ slice_get (values_of kinds.now (wide blank.now bytes.now)) column }
{
    columns_are_of_their_width();
    if width_of_row(kinds) <= bytes.len() {
        return value_in_row(kinds, bytes, column);
    }
    let mut row: ArrayVec<u8, ROW_WIDTH_MAX> = ArrayVec::new();
    let _ = row.try_extend_from_slice(bytes);
    let _ = row.try_extend_from_slice(&blank[bytes.len()..]);
    value_in_row(kinds, row.as_slice(), column)
}

/// The value of a column, in the bytes of a row with columns of these kinds; `None` if there is no
/// such column.
fn value_in_row(kinds: &[Kind], bytes: &[u8], column: usize) -> Option<Value>
    requires few { length kinds.now ≤ COLUMNS_MAX }
    requires good { list_all is_good kinds.now ≡ true }
    requires wide { row_width kinds.now ≤ length bytes.now }
    ensures { result ≡ slice_get (values_of kinds.now bytes.now) column }
{
    let kind = *kinds.get(column)?;
    let (before, _) = kinds.split_at(column);
    let (_, rest) = bytes.split_at(width_of_row(before));
    Some(first_value(kind, rest))
}
