//! Whether an entry fits a schema.

ghost use Rattle.std.specs.Prelude.{◌≡◌, ◌<◌, ◌≤◌, Some, Ok, OnOk, slice_get, length};
ghost use Rattle.rows.specs.Shape.{shape_of, AreColumns};
ghost use Rattle.rows.specs.Spelling.{HasSpelling, IsInsert, IsPatch, IsDelete, IsAddColumn};
ghost use Rattle.rows.specs.Entries.{fitting, fitting_in, sized, placed, listed, addable, table_of};
ghost use Rattle.rows.specs.Reading.{entry_of};

use crate::entry::Entry;
use crate::entry_ref::EntryRef;
use crate::faults::EntryFault;
use crate::kind::Kind;
use crate::limits::{COLUMNS_MAX, ROW_WIDTH_MAX, TABLES_MAX};
use crate::row_id::RowId;
use crate::schema::{Schema, column_at, width_of_row};
use crate::value::Value;

/// Whether the entry fits the schema: its table exists (`NoTable` otherwise), an insert's data has
/// exactly the width of the table's rows (`WrongSize`), a patch's offset and size are exactly those
/// of the bytes of one of the table's columns (`NotAColumn`), and an added column has bytes and room
/// (`WrongSize`). Takes no memory.
pub fn fits(schema: &Schema, entry: &Entry) -> Result<(), EntryFault>
    ensures exact { result ≡ fitting (shape_of schema.now) entry.now }
    ensures spelled { OnOk result (HasSpelling entry.now) }
{
    fits_lent(schema, &entry.lend())
}

/// Whether a lent entry fits the schema, as `fits` does for an entry.
fn fits_lent(schema: &Schema, lent: &EntryRef<'_>) -> Result<(), EntryFault>
    ensures exact { result ≡ fitting (shape_of schema.now) (entry_of lent.now) }
    ensures spelled { OnOk result (HasSpelling (entry_of lent.now)) }
{
    match lent {
        EntryRef::Insert { table, row, bytes } => insert_fits(schema, *table, *row, bytes),
        EntryRef::Patch {
            table,
            row,
            offset,
            bytes,
        } => patch_fits(schema, *table, *row, *offset, bytes),
        EntryRef::Delete { table, row } => delete_fits(schema, *table, *row),
        EntryRef::AddColumn { table, default } => column_fits(schema, *table, *default),
    }
}

/// Whether the entry fits a table with columns of these kinds, which is taken to be its own: the
/// answer of `fits` if that table exists. Takes no memory.
pub fn fits_columns(kinds: &[Kind], entry: &Entry) -> Result<(), EntryFault>
    requires { length kinds.now ≤ COLUMNS_MAX }
    ensures { result ≡ fitting_in (Some kinds.now) entry.now }
{
    match entry {
        Entry::Insert { bytes, .. } => sized(kinds, bytes.as_slice().len()),
        Entry::Patch { offset, bytes, .. } => placed(kinds, *offset, bytes.as_slice().len()),
        Entry::Delete { .. } => Ok(()),
        Entry::AddColumn { default, .. } => addable(kinds, default),
    }
}

/// Whether the entry fits its table, which has columns of these kinds: the answer of `fits` for a
/// schema with this table. Takes no memory.
pub fn fits_table(kinds: &[Kind], entry: &Entry) -> Result<(), EntryFault>
    requires table { table_of entry.now < TABLES_MAX }
    requires columns { AreColumns kinds.now }
    ensures exact { result ≡ fitting_in (Some kinds.now) entry.now }
    ensures spelled { OnOk result (HasSpelling entry.now) }
{
    match entry {
        Entry::Insert { table, row, bytes } => {
            insert_fits_table(kinds, *table, *row, bytes.as_slice())
        }
        Entry::Patch {
            table,
            row,
            offset,
            bytes,
        } => patch_fits_table(kinds, *table, *row, *offset, bytes.as_slice()),
        Entry::Delete { table, row } => delete_fits_table(*table, *row),
        Entry::AddColumn { table, default } => column_fits_table(kinds, *table, *default),
    }
}

/// Whether an insert of this many bytes fits columns of these kinds.
fn sized(kinds: &[Kind], size: usize) -> Result<(), EntryFault>
    requires { length kinds.now ≤ COLUMNS_MAX }
    ensures { result ≡ sized (Some kinds.now) size }
{
    if size == width_of_row(kinds) {
        Ok(())
    } else {
        Err(EntryFault::WrongSize)
    }
}

/// Whether a patch of this many bytes at an offset fits columns of these kinds.
fn placed(kinds: &[Kind], offset: u16, size: usize) -> Result<(), EntryFault>
    ensures { result ≡ placed (Some kinds.now) offset size }
{
    if column_at(kinds, offset as usize, size).is_some() {
        Ok(())
    } else {
        Err(EntryFault::NotAColumn)
    }
}

/// Whether a column with this value may be added behind columns of these kinds: it has bytes, there
/// are fewer than 16 before it, and a row then takes at most 512 bytes.
fn addable(kinds: &[Kind], default: &Value) -> Result<(), EntryFault>
    requires { length kinds.now ≤ COLUMNS_MAX }
    ensures { result ≡ addable (Some kinds.now) default.now }
{
    let kind = default.kind();
    let width = width_of_row(kinds);
    if kind.is_good()
        && kinds.len() < COLUMNS_MAX
        && width <= ROW_WIDTH_MAX
        && width + kind.width() <= ROW_WIDTH_MAX
    {
        Ok(())
    } else {
        Err(EntryFault::WrongSize)
    }
}

/// Whether an insert fits: its table exists, and its rows are as wide as the data.
fn insert_fits(schema: &Schema, table: u8, row: RowId, bytes: &[u8]) -> Result<(), EntryFault>
    ensures exact { result ≡ sized (slice_get (shape_of schema.now) table) (length bytes.now) }
    ensures spelled { OnOk result (IsInsert table row.0 bytes.now) }
{
    match schema.kinds(table as usize) {
        None => Err(EntryFault::NoTable),
        Some(kinds) => insert_fits_table(kinds, table, row, bytes),
    }
}

/// Whether an insert fits its table. The table and the row matter only to the contract, which
/// states that an insert that fits has a spelling.
fn insert_fits_table(kinds: &[Kind], table: u8, row: RowId, bytes: &[u8]) -> Result<(), EntryFault>
    requires table { table < TABLES_MAX }
    requires columns { AreColumns kinds.now }
    ensures exact { result ≡ sized (Some kinds.now) (length bytes.now) }
    ensures spelled { OnOk result (IsInsert table row.0 bytes.now) }
{
    sized(kinds, bytes.len())
}

/// Whether a patch fits: its table exists, and its data is exactly one column's bytes.
fn patch_fits(
    schema: &Schema,
    table: u8,
    row: RowId,
    offset: u16,
    bytes: &[u8],
) -> Result<(), EntryFault>
    ensures exact { result ≡ placed (slice_get (shape_of schema.now) table) offset (length bytes.now) }
    ensures spelled { OnOk result (IsPatch table row.0 offset bytes.now) }
{
    match schema.kinds(table as usize) {
        None => Err(EntryFault::NoTable),
        Some(kinds) => patch_fits_table(kinds, table, row, offset, bytes),
    }
}

/// Whether a patch fits its table. The table and the row matter only to the contract, which states
/// that a patch that fits has a spelling.
fn patch_fits_table(
    kinds: &[Kind],
    table: u8,
    row: RowId,
    offset: u16,
    bytes: &[u8],
) -> Result<(), EntryFault>
    requires table { table < TABLES_MAX }
    requires columns { AreColumns kinds.now }
    ensures exact { result ≡ placed (Some kinds.now) offset (length bytes.now) }
    ensures spelled { OnOk result (IsPatch table row.0 offset bytes.now) }
{
    placed(kinds, offset, bytes.len())
}

/// Whether a delete fits: its table exists.
fn delete_fits(schema: &Schema, table: u8, row: RowId) -> Result<(), EntryFault>
    ensures exact { result ≡ listed (slice_get (shape_of schema.now) table) }
    ensures spelled { OnOk result (IsDelete table row.0) }
{
    match schema.kinds(table as usize) {
        None => Err(EntryFault::NoTable),
        Some(_) => delete_fits_table(table, row),
    }
}

/// That a delete fits its table. The table and the row matter only to the contract, which states
/// that it has a spelling.
fn delete_fits_table(table: u8, row: RowId) -> Result<(), EntryFault>
    requires { table < TABLES_MAX }
    ensures exact { result ≡ Ok tt }
    ensures spelled { IsDelete table row.0 }
{
    Ok(())
}

/// Whether a column may be added: its table exists, and there is room for the column.
fn column_fits(schema: &Schema, table: u8, default: Value) -> Result<(), EntryFault>
    ensures exact { result ≡ addable (slice_get (shape_of schema.now) table) default }
    ensures spelled { OnOk result (IsAddColumn table default) }
{
    match schema.kinds(table as usize) {
        None => Err(EntryFault::NoTable),
        Some(kinds) => column_fits_table(kinds, table, default),
    }
}

/// Whether a column may be added to its table: there is room for it. The table matters only to the
/// contract, which states that the entry then has a spelling.
fn column_fits_table(kinds: &[Kind], table: u8, default: Value) -> Result<(), EntryFault>
    requires table { table < TABLES_MAX }
    requires columns { AreColumns kinds.now }
    ensures exact { result ≡ addable (Some kinds.now) default }
    ensures spelled { OnOk result (IsAddColumn table default) }
{
    // A look at the kind makes known which values have a spelling.
    let _ = default.kind();
    addable(kinds, &default)
}
