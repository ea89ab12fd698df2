//! Changes of tables.

ghost use Rattle.std.specs.Prelude.{◌≡◌, ◌≤◌, length, map, true, false, Ok, Err, Some, slice_get, slice_set, OnOk, OnErr, IfOk, IfErr};
ghost use Rattle.std.specs.Prelude.{if◌then◌else◌, ◌++◌, ◌∷◌, []};
ghost use Rattle.rows.specs.Entries.{table_of};
ghost use Rattle.rows.specs.Shape.{shape_of, row_width, AreColumns};
ghost use Rattle.rows.specs.Values.{values_of, kind_of};
ghost use Rattle.rows.specs.Tables.{Tables, opening, apply_entry, is_present, with_row, with_column};
ghost use Rattle.store.specs.Changes.{fault_kind, BeganWith};
ghost use Rattle.store.specs.Faults.{number_of};

use crate::faults::StoreFault;
use crate::table_rows::TableRows;
use rows::{Entry, Schema, Value, fits_columns, laws};
use std::alloc::{AllocError, Global};

/// The tables of a schema, without rows. Fails only if out of memory.
pub fn empty_tables<T: TableRows>(alloc: Global, schema: &Schema) -> Result<Vec<T>, AllocError>
    ensures { IfOk result (λ tables. map T.table tables.items ≡ opening (shape_of schema.now)) }
{
    let mut tables = Vec::new(alloc);
    for table in 0..schema.len() {
        let Some(kinds) = schema.kinds(table) else {
            unreachable!();
        };
        tables.push(T::empty(alloc, kinds)?)?;
    }
    Ok(tables)
}

/// Deletes all rows of these tables, and all columns that were added to those of the schema. Takes
/// no memory.
pub fn clear_tables<T: TableRows>(tables: &mut [T], schema: &Schema)
    requires { BeganWith (shape_of schema.now) (map T.table tables.old) }
    ensures { map T.table tables.new ≡ opening (shape_of schema.now) }
{
    for k in 0..schema.len() {
        let Some(kinds) = schema.kinds(k) else {
            unreachable!();
        };
        tables[k].clear(kinds.len());
    }
}

/// Makes the change of one entry, or refuses it and changes nothing.
///
/// The fault is the first of these that applies: `Unfit`; `Exists` or `Missing`; `Memory`.
pub fn change_tables<T: TableRows>(
    alloc: Global,
    tables: &mut [T],
    entry: &Entry,
) -> Result<(), StoreFault>
    ensures ok { OnOk result (apply_entry (map T.table tables.old) entry.now ≡ Ok (map T.table tables.new)) }
    ensures err { OnErr result (map T.table tables.new ≡ map T.table tables.old) }
    ensures refused { IfErr result (λ fault. number_of fault ≡ fault_kind true (apply_entry (map T.table tables.old) entry.now)) }
{
    let table = entry.table() as usize;
    if table >= tables.len() {
        return Err(StoreFault::Unfit);
    }
    change_table(alloc, &mut tables[table], entry)
}

/// Makes the change of an entry in its table, or refuses it and changes nothing.
fn change_table<T: TableRows>(alloc: Global, table: &mut T, entry: &Entry) -> Result<(), StoreFault>
    ensures ok { OnOk result ((tables : Tables) → slice_get tables (table_of entry.now) ≡ Some (T.table table.old)
        → apply_entry tables entry.now ≡ Ok (slice_set tables (table_of entry.now) (T.table table.new))) }
    ensures err { OnErr result (T.table table.new ≡ T.table table.old) }
    ensures refused { IfErr result (λ fault. (tables : Tables) → slice_get tables (table_of entry.now) ≡ Some (T.table table.old)
        → number_of fault ≡ fault_kind true (apply_entry tables entry.now)) }
{
    if fits_columns(table.kinds(), entry).is_err() {
        return Err(StoreFault::Unfit);
    }
    match entry {
        Entry::Insert { row, bytes, .. } => insert_row(alloc, table, row.0, bytes.as_slice()),
        Entry::Patch {
            row,
            offset,
            bytes,
            ..
        } => where_found(table.patch(row.0, *offset, bytes.as_slice())),
        Entry::Delete { row, .. } => where_found(table.remove(row.0)),
        Entry::AddColumn { default, .. } => {
            laws::changes_tell_kinds();
            add_column(alloc, table, *default)
        }
    }
}

/// Inserts a row into a table; if the row is there, the insert is refused, and nothing has changed.
fn insert_row<T: TableRows>(
    alloc: Global,
    table: &mut T,
    row: u64,
    bytes: &[u8],
) -> Result<(), StoreFault>
    requires { row_width (T.table table.old).kinds ≤ length bytes.now }
    ensures ok { OnOk result ((is_present (T.table table.old).rows row ≡ false)
        × (T.table table.new ≡ record {
          kinds = (T.table table.old).kinds;
          rows = with_row (T.table table.old).rows row (values_of (T.table table.old).kinds bytes.now);
        })) }
    ensures err { OnErr result (T.table table.new ≡ T.table table.old) }
    ensures refused { IfErr result (λ fault. number_of fault ≡ (if is_present (T.table table.old).rows row
        then number_of StoreFault.Exists else number_of StoreFault.Memory)) }
{
    match table.insert(alloc, row, bytes) {
        Ok(true) => Ok(()),
        Ok(false) => Err(StoreFault::Exists),
        Err(_) => Err(StoreFault::Memory),
    }
}

/// Refuses a change of a row that was not found.
fn where_found(found: bool) -> Result<(), StoreFault>
    ensures { result ≡ (if found then Ok tt else Err StoreFault.Missing) }
{
    if found {
        Ok(())
    } else {
        Err(StoreFault::Missing)
    }
}

/// Adds a column that a table may have to it. Fails only if out of memory, and nothing has then
/// changed.
fn add_column<T: TableRows>(alloc: Global, table: &mut T, default: Value) -> Result<(), StoreFault>
    requires { AreColumns ((T.table table.old).kinds ++ kind_of default ∷ []) }
    ensures ok { OnOk result (T.table table.new ≡ record {
      kinds = (T.table table.old).kinds ++ kind_of default ∷ [];
      rows = with_column default (T.table table.old).rows;
    }) }
    ensures err { OnErr result (T.table table.new ≡ T.table table.old) }
    ensures refused { IfErr result (λ fault. fault ≡ StoreFault.Memory) }
{
    table
        .add_column(alloc, default)
        .map_err(|_| StoreFault::Memory)
}
