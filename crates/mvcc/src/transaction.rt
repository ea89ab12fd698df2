//! Transactions before their commit.

ghost use Rattle.std.specs.Prelude.{◌≡◌, ◌<◌, ◌≤◌, [], ◌∷◌, ◌++◌, length, IfErr, Ok, Some, None, OnOk, OnErr, is_some, is_ok, IfSome};
ghost use Rattle.std.specs.Prelude.{if◌then◌else◌, slice_get};
ghost use Rattle.rows.specs.declared.entry.Entry.TheVariants.{Insert, Patch, Delete};
ghost use Rattle.rows.specs.Faults.{IsFaultOf};
ghost use Rattle.rows.specs.Limits.{commit_entries_max};
ghost use Rattle.rows.specs.Entries.{row_of, fitting_in};
ghost use Rattle.rows.specs.Shape.{shape_of, AreColumns};
ghost use Rattle.rows.specs.Values.{bytes_of, value_bytes};
ghost use Rattle.rows.specs.Tables.{rows_of, row_at};
ghost use Rattle.mvcc.specs.VersionList.{tables_at};
ghost use Rattle.mvcc.specs.Transaction.{Transaction};
ghost use Rattle.mvcc.specs.Inner.Cells.{cell_of, offset_in};
ghost use Rattle.mvcc.specs.Transactions.{insert_answer, set_answer, delete_answer, add_column_answer, get_answer};
ghost use Rattle.mvcc.specs.Transactions.{match_table, match_column, column_kind, column_offset};
ghost use Rattle.mvcc.specs.Transactions.{seen_by, seen_shape, sees};

use crate::cells::{cell_after, cell_walked};
use crate::faults::TxFault;
use crate::kind_buffer::{KindBuffer, kinds_behind};
use crate::own_rows::{OwnRows, indices_with};
use crate::values::{are_values_of, is_value_of};
use crate::versions::Versions;
use rows::laws::{changes_tell_kinds, rows_are_as_entries_leave_them, rows_are_of_kinds};
use rows::limits::COMMIT_ENTRIES_MAX;
use rows::{Entry, EntryList, Kind, RowId, Value, fits_columns, row_bytes, width_of_row};
use std::alloc::{AllocError, Global};
use std::marker::Model;

/// A transaction: the version that it reads, and its entries in the order of its calls.
///
/// It sees the rows at its snapshot, changed by its own entries. Reading a row costs a look-up,
/// however many entries there are: `OwnRows` has the indices of those that still matter for the
/// row. Once it has added a column, `OwnRows` is left as it is, and reading a row goes over all
/// entries.
#[derive(Drop)]
pub struct Transaction {
    alloc: Global,
    snapshot: u64,
    entries: Vec<Entry>,
    rows: OwnRows,
    /// Whether one of the entries adds a column.
    adds_column: bool,
}

impl Model for Transaction {
    ghost use Rattle.std.specs.Prelude.{◌≡◌, ◌≤◌, false, length};
    ghost use Rattle.mvcc.specs.Transaction.{Transaction};
    ghost use Rattle.mvcc.specs.Inner.Keys.{AreOfRows};
    ghost use Rattle.mvcc.specs.Inner.OwnRows.{IsIndexOf};
    ghost use Rattle.rows.specs.Limits.{commit_entries_max};

    ghost Value = { Transaction };

    ghost view = { λ t. record { snapshot = t.snapshot; entries = t.entries.items } };

    ghost invariant = { λ t. (length t.entries.items ≤ commit_entries_max)
        × (t.adds_column ≡ false → AreOfRows t.entries.items × IsIndexOf t.entries.items t.rows) };
}

impl Transaction {
    /// A transaction without entries that reads this version. Takes no memory.
    pub fn begin(alloc: Global, version: u64) -> Transaction
        ensures { result ≡ record { snapshot = version; entries = [] } }
    {
        Transaction {
            alloc,
            snapshot: version,
            entries: Vec::new(alloc),
            rows: OwnRows::new(alloc),
            adds_column: false,
        }
    }

    /// The version that it reads.
    pub fn snapshot(&self) -> u64
        ensures { result ≡ self.now.snapshot }
    {
        self.snapshot
    }

    /// Its entries, lent.
    pub fn entries(&self) -> &[Entry]
        ensures entries { result.now ≡ self.now.entries }
        ensures few { length result.now ≤ commit_entries_max }
    {
        self.entries.as_slice()
    }

    /// Its entries. Takes no memory.
    pub fn into_entries(self) -> EntryList
        ensures entries { result ≡ self.entries }
        ensures few { length result ≤ commit_entries_max }
    {
        let Transaction {
            alloc: _,
            snapshot: _,
            entries,
            rows: _,
            adds_column: _,
        } = self;
        EntryList::from_vec(entries)
    }

    /// Inserts a row into a table. `versions` are those on which the transaction began, with at
    /// least as many commits as its snapshot.
    ///
    /// Fails with the first of these: `Unfit`, the table is not there or the values are not of its
    /// columns' kinds, one each; `Exists`, the row is there as the transaction sees it;
    /// `TooManyEntries`; `Memory`. The transaction is then unchanged.
    pub fn insert(
        &mut self,
        versions: &Versions,
        table: u8,
        row: RowId,
        values: &[Value],
    ) -> Result<(), TxFault>
        requires { self.old.snapshot ≤ length versions.now.commits }
        ensures same_snapshot { self.new.snapshot ≡ self.old.snapshot }
        ensures ok { OnOk result
            (insert_answer (shape_of versions.now.schema) versions.now.commits self.old table row.0 values.now ≡ Ok self.new) }
        ensures refused { IfErr result (λ fault. (self.new ≡ self.old)
            × IsFaultOf (insert_answer (shape_of versions.now.schema) versions.now.commits self.old table row.0 values.now)
            TxFault.Memory fault) }
    {
        if !self.takes(versions, table, values) {
            return Err(TxFault::Unfit);
        }
        if self.sees(versions, table, row) {
            return Err(TxFault::Exists);
        }
        if self.entries.len() >= COMMIT_ENTRIES_MAX {
            return Err(TxFault::TooManyEntries);
        }
        match self.add_insert(table, row, values) {
            Ok(()) => Ok(()),
            Err(_) => Err(TxFault::Memory),
        }
    }

    /// Sets one column of a row to another value. `versions` are those on which the transaction
    /// began, with at least as many commits as its snapshot.
    ///
    /// Fails with the first of these: `Unfit`, the table or the column is not there or the value is
    /// not of its kind; `Missing`, the row is not there as the transaction sees it;
    /// `TooManyEntries`; `Memory`. The transaction is then unchanged.
    pub fn set(
        &mut self,
        versions: &Versions,
        table: u8,
        row: RowId,
        column: usize,
        value: Value,
    ) -> Result<(), TxFault>
        requires { self.old.snapshot ≤ length versions.now.commits }
        ensures same_snapshot { self.new.snapshot ≡ self.old.snapshot }
        ensures ok { OnOk result
            (set_answer (shape_of versions.now.schema) versions.now.commits self.old table row.0 column value ≡ Ok self.new) }
        ensures refused { IfErr result (λ fault. (self.new ≡ self.old)
            × IsFaultOf (set_answer (shape_of versions.now.schema) versions.now.commits self.old table row.0 column value)
            TxFault.Memory fault) }
    {
        let Some(offset) = self.offset_for(versions, table, column, &value) else {
            return Err(TxFault::Unfit);
        };
        if self.cell(versions, table, row, column).is_none() {
            return Err(TxFault::Missing);
        }
        if self.entries.len() >= COMMIT_ENTRIES_MAX {
            return Err(TxFault::TooManyEntries);
        }
        match self.add_patch(table, row, offset, value) {
            Ok(()) => Ok(()),
            Err(_) => Err(TxFault::Memory),
        }
    }

    /// Deletes a row from a table. `versions` are those on which the transaction began, with at
    /// least as many commits as its snapshot.
    ///
    /// Fails with the first of these: `Unfit`, the table is not there; `Missing`, the row is not
    /// there as the transaction sees it; `TooManyEntries`; `Memory`. The transaction is then
    /// unchanged.
    pub fn delete(&mut self, versions: &Versions, table: u8, row: RowId) -> Result<(), TxFault>
        requires { self.old.snapshot ≤ length versions.now.commits }
        ensures same_snapshot { self.new.snapshot ≡ self.old.snapshot }
        ensures ok { OnOk result (delete_answer (shape_of versions.now.schema) versions.now.commits self.old table row.0 ≡ Ok self.new) }
        ensures refused { IfErr result (λ fault. (self.new ≡ self.old)
            × IsFaultOf (delete_answer (shape_of versions.now.schema) versions.now.commits self.old table row.0) TxFault.Memory fault) }
    {
        if self.kinds(versions, table).is_none() {
            return Err(TxFault::Unfit);
        }
        if !self.sees(versions, table, row) {
            return Err(TxFault::Missing);
        }
        if self.entries.len() >= COMMIT_ENTRIES_MAX {
            return Err(TxFault::TooManyEntries);
        }
        match self.add(row, Entry::Delete { table, row }) {
            Ok(()) => Ok(()),
            Err(_) => Err(TxFault::Memory),
        }
    }

    /// Adds a column to a table, behind the others, with this value in each of its rows. `versions`
    /// are those on which the transaction began, with at least as many commits as its snapshot. It
    /// sees the column at once in its later calls.
    ///
    /// Fails with the first of these: `Unfit`, the table is not there as the transaction sees it, or
    /// has no room for the column; `TooManyEntries`; `Memory`. The transaction is then unchanged.
    pub fn add_column(
        &mut self,
        versions: &Versions,
        table: u8,
        default: Value,
    ) -> Result<(), TxFault>
        requires { self.old.snapshot ≤ length versions.now.commits }
        ensures same_snapshot { self.new.snapshot ≡ self.old.snapshot }
        ensures ok { OnOk result
            (add_column_answer (shape_of versions.now.schema) versions.now.commits self.old table default ≡ Ok self.new) }
        ensures refused { IfErr result (λ fault. (self.new ≡ self.old)
            × IsFaultOf (add_column_answer (shape_of versions.now.schema) versions.now.commits self.old table default)
            TxFault.Memory fault) }
    {
        let entry = Entry::AddColumn { table, default };
        if !self.has_room(versions, table, &entry) {
            return Err(TxFault::Unfit);
        }
        if self.entries.len() >= COMMIT_ENTRIES_MAX {
            return Err(TxFault::TooManyEntries);
        }
        match self.add_added(entry) {
            Ok(()) => Ok(()),
            Err(_) => Err(TxFault::Memory),
        }
    }

    /// The value of one column of a row, as the transaction sees it. `versions` are those on which
    /// the transaction began, with at least as many commits as its snapshot. Takes no memory.
    ///
    /// Fails with the first of these: `Unfit`, the table or the column is not there; `Missing`, the
    /// row is not there as the transaction sees it.
    pub fn get(
        &self,
        versions: &Versions,
        table: u8,
        row: RowId,
        column: usize,
    ) -> Result<Value, TxFault>
        requires { self.now.snapshot ≤ length versions.now.commits }
        ensures { result ≡ get_answer (shape_of versions.now.schema) versions.now.commits self.now table row.0 column }
    {
        if !self.has_column(versions, table, column) {
            return Err(TxFault::Unfit);
        }
        match self.cell(versions, table, row, column) {
            Some(Some(value)) => Ok(value),
            Some(None) | None => Err(TxFault::Missing),
        }
    }

    /// The kinds of a table's columns, as the transaction sees them; `None` if there is no table of
    /// that number.
    fn kinds(&self, versions: &Versions, table: u8) -> Option<KindBuffer>
        ensures value { result ≡ slice_get (seen_shape (shape_of versions.now.schema) versions.now.commits self.now) table }
        ensures bounds { IfSome result AreColumns }
    {
        changes_tell_kinds();
        let kinds = versions.kinds_at(self.snapshot, table)?;
        if self.adds_column {
            Some(kinds_behind(kinds, table, self.entries.as_slice()))
        } else {
            Some(KindBuffer::of(kinds))
        }
    }

    /// Whether the table is there, and these are values of its columns, one each, as the transaction
    /// sees them.
    fn takes(&self, versions: &Versions, table: u8, values: &[Value]) -> bool
        ensures { result ≡ match_table values.now
            (slice_get (seen_shape (shape_of versions.now.schema) versions.now.commits self.now) table) }
    {
        match self.kinds(versions, table) {
            None => false,
            Some(kinds) => are_values_of(values, kinds.as_slice()),
        }
    }

    /// Whether the table is there, and has room for the column that this entry adds, as the
    /// transaction sees it.
    fn has_room(&self, versions: &Versions, table: u8, entry: &Entry) -> bool
        ensures { result ≡ is_ok
            (fitting_in (slice_get (seen_shape (shape_of versions.now.schema) versions.now.commits self.now) table) entry.now) }
    {
        match self.kinds(versions, table) {
            None => false,
            Some(kinds) => fits_columns(kinds.as_slice(), entry).is_ok(),
        }
    }

    /// Whether the table and the column are there, as the transaction sees them.
    fn has_column(&self, versions: &Versions, table: u8, column: usize) -> bool
        ensures { result ≡ is_some
            (column_kind (seen_shape (shape_of versions.now.schema) versions.now.commits self.now) table column) }
    {
        match self.kinds(versions, table) {
            None => false,
            Some(kinds) => column < kinds.as_slice().len(),
        }
    }

    /// Where the column begins among its row's bytes, as the transaction sees them; `None` if the
    /// table or the column is not there, or the value is not of its kind.
    fn offset_for(
        &self,
        versions: &Versions,
        table: u8,
        column: usize,
        value: &Value,
    ) -> Option<u16>
        ensures { result ≡
            (if match_column value.now (column_kind (seen_shape (shape_of versions.now.schema) versions.now.commits self.now) table column)
            then Some (column_offset (seen_shape (shape_of versions.now.schema) versions.now.commits self.now) table column)
            else None) }
    {
        match self.kinds(versions, table) {
            None => None,
            Some(kinds) => offset_for(kinds.as_slice(), column, value),
        }
    }

    /// Whether the row is there, as the transaction sees it.
    fn sees(&self, versions: &Versions, table: u8, row: RowId) -> bool
        requires { self.now.snapshot ≤ length versions.now.commits }
        ensures { result ≡ sees (shape_of versions.now.schema) versions.now.commits self.now table row.0 }
    {
        self.cell(versions, table, row, 0).is_some()
    }

    /// One column of a row, as the transaction sees it: `None` if the row is not there, and
    /// `Some(None)` if it has no such column.
    fn cell(
        &self,
        versions: &Versions,
        table: u8,
        row: RowId,
        column: usize,
    ) -> Option<Option<Value>>
        requires { self.now.snapshot ≤ length versions.now.commits }
        ensures { result ≡ cell_of column
            (row_at (rows_of (seen_by (shape_of versions.now.schema) versions.now.commits self.now) table) row.0) }
    {
        rows_are_as_entries_leave_them();
        rows_are_of_kinds();
        let was = cell_at(versions, self.snapshot, table, row, column);
        let Some(kinds) = versions.kinds_at(self.snapshot, table) else {
            return was;
        };
        let entries = self.entries.as_slice();
        if self.adds_column {
            return cell_walked(kinds, table, row, column, entries, was);
        }
        let indices = self.rows.indices(table, row);
        cell_after(kinds, table, row, column, entries, indices, was)
    }

    /// Adds an insert at the end. Fails only if out of memory.
    fn add_insert(&mut self, table: u8, row: RowId, values: &[Value]) -> Result<(), AllocError>
        requires { length self.old.entries < commit_entries_max }
        ensures ok { OnOk result
            (self.new ≡ record self.old { entries = self.old.entries ++ Insert table row (bytes_of values.now) ∷ [] }) }
        ensures err { OnErr result (self.new ≡ self.old) }
    {
        let bytes = row_bytes(self.alloc, values)?;
        self.add(row, Entry::Insert { table, row, bytes })
    }

    /// Adds a patch at the end. Fails only if out of memory.
    fn add_patch(
        &mut self,
        table: u8,
        row: RowId,
        offset: u16,
        value: Value,
    ) -> Result<(), AllocError>
        requires { length self.old.entries < commit_entries_max }
        ensures ok { OnOk result
            (self.new ≡ record self.old { entries = self.old.entries ++ Patch table row offset (value_bytes value) ∷ [] }) }
        ensures err { OnErr result (self.new ≡ self.old) }
    {
        let bytes = row_bytes(self.alloc, &[value])?;
        let patch = Entry::Patch {
            table,
            row,
            offset,
            bytes,
        };
        self.add(row, patch)
    }

    /// Adds an entry of this row at the end. Fails only if out of memory.
    fn add(&mut self, row: RowId, entry: Entry) -> Result<(), AllocError>
        requires own { row_of entry ≡ Some row }
        requires room { length self.old.entries < commit_entries_max }
        ensures ok { OnOk result (self.new ≡ record self.old { entries = self.old.entries ++ entry ∷ [] }) }
        ensures err { OnErr result (self.new ≡ self.old) }
    {
        if self.adds_column {
            self.entries.push(entry)?;
            return Ok(());
        }
        let table = entry.table();
        let earlier = self.rows.indices(table, row);
        let indices = indices_with(self.alloc, self.entries.as_slice(), earlier, &entry)?;
        self.entries.reserve(1)?;
        self.rows.put(table, row, indices)?;
        self.entries.push_reserved(entry);
        Ok(())
    }

    /// Adds an entry that adds a column at the end. Fails only if out of memory.
    fn add_added(&mut self, entry: Entry) -> Result<(), AllocError>
        requires { length self.old.entries < commit_entries_max }
        ensures ok { OnOk result (self.new ≡ record self.old { entries = self.old.entries ++ entry ∷ [] }) }
        ensures err { OnErr result (self.new ≡ self.old) }
    {
        self.entries.push(entry)?;
        self.adds_column = true;
        Ok(())
    }
}

/// One column of a row at a version: `None` if the row is not there, and `Some(None)` if it has no
/// such column.
fn cell_at(
    versions: &Versions,
    version: u64,
    table: u8,
    row: RowId,
    column: usize,
) -> Option<Option<Value>>
    requires { version ≤ length versions.now.commits }
    ensures { result ≡ cell_of column (row_at (rows_of (tables_at versions.now version) table) row.0) }
{
    if versions.is_present(version, table, row) {
        Some(versions.value_at(version, table, row, column))
    } else {
        None
    }
}

/// Where the column begins among the bytes of a row with columns of these kinds; `None` if there is
/// no such column, or the value is not of its kind.
fn offset_for(kinds: &[Kind], column: usize, value: &Value) -> Option<u16>
    requires { AreColumns kinds.now }
    ensures { result ≡ offset_in kinds.now column value.now }
{
    let kind = kinds.get(column)?;
    if !is_value_of(value, kind) {
        return None;
    }
    let (before, _) = kinds.split_at(column);
    Some(width_of_row(before) as u16)
}
