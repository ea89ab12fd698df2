//! Some rows of a table, as columns.

ghost use Rattle.std.specs.Prelude.{◌≡◌, ◌+◌, ◌<◌, ◌≤◌, [], length, take, drop, true, false, Some, IfOk, IfSome, OnOk, OnErr, is_some};
ghost use Rattle.std.specs.Prelude.{slice_get, nat_lt};
ghost use Rattle.std.specs.Prelude.{vec_len, vec_capacity};
ghost use Rattle.std.specs.List.{list_all, prefix_len, insert};
ghost use Rattle.std.specs.List.Sorted.{IsStrictlySortedBy};
ghost use Rattle.std.specs.Ordering.{nat_cmp};
ghost use Rattle.std.specs.Map.{keys_of};
ghost use Rattle.rows.specs.Shape.{row_width, is_good};
ghost use Rattle.rows.specs.Values.{values_of, kind_of};
ghost use Rattle.rows.specs.Tables.{is_present, with_row, with_patch, without_row};
ghost use Rattle.store.specs.Lent.{rows_from, column_in, AreLent};
ghost use Rattle.apply.specs.Orders.{Rising, place_in};
ghost use Rattle.apply.specs.Blocks.{cell_in, wider, narrower};
ghost use Rattle.apply.specs.Columns.{IsFilled};

use crate::cells::Cells;
use crate::edits::{empty_columns, insert_row, remove_row, reserve_row, rows_from, truncate_rows};
use rows::{Kind, Value, column_at};
use std::alloc::{AllocError, Global};
use std::marker::Model;
use store::Lent;

/// How many rows a block reserves memory for at a time.
const STEP: usize = 128;

/// Consecutive rows of a table: their identifiers, and a column of values for each column of the
/// table. Contracts see a table of these rows.
#[derive(Drop)]
pub struct Block {
    ids: Vec<u64>,
    columns: Vec<Cells>,
}

impl Model for Block {
    ghost use Rattle.rows.specs.Tables.{Table};

    ghost Value = { Table };

    ghost use Rattle.apply.specs.Blocks.{table_with};
    ghost use Rattle.apply.specs.Inner.Parts.{IsBlock};

    ghost view = { λ b. table_with b.ids.items b.columns.items };

    ghost invariant = { IsBlock };
}

impl Block {
    /// A block without rows, whose columns are of these kinds. Fails only if out of memory.
    pub fn new(alloc: Global, kinds: &[Kind]) -> Result<Block, AllocError>
        requires { list_all is_good kinds.now ≡ true }
        ensures { IfOk result (λ block. block ≡ record { kinds = kinds.now; rows = [] }) }
    {
        Ok(Block {
            ids: Vec::new(alloc),
            columns: empty_columns(alloc, kinds)?,
        })
    }

    /// How many rows there are.
    pub fn len(&self) -> usize
        ensures { result ≡ length self.now.rows }
    {
        self.ids.len()
    }

    /// The identifiers of the rows, lent.
    pub fn ids(&self) -> &[u64]
        ensures value { result.now ≡ keys_of self.now.rows }
        ensures rise { Rising self.now.rows }
    {
        self.ids.as_slice()
    }

    /// How many rows have an identifier below this one.
    pub fn place(&self, row: u64) -> usize
        ensures value { result ≡ place_in self.now.rows row }
        ensures within { result ≤ length self.now.rows }
    {
        place_of(self.ids.as_slice(), row)
    }

    /// Whether the row is there.
    pub fn contains(&self, row: u64) -> bool
        ensures { result ≡ is_present self.now.rows row }
    {
        self.is_at(self.place(row), row)
    }

    /// The index of a row; `None` if it is not there.
    pub fn find(&self, row: u64) -> Option<usize>
        ensures found { is_some result ≡ is_present self.now.rows row }
        ensures place { IfSome result (λ at. at ≡ place_in self.now.rows row) }
    {
        let at = self.place(row);
        if self.is_at(at, row) { Some(at) } else { None }
    }

    /// Whether the row is there, given its place.
    fn is_at(&self, at: usize, row: u64) -> bool
        requires { at ≡ place_in self.now.rows row }
        ensures { result ≡ is_present self.now.rows row }
    {
        at < self.ids.len() && self.ids[at] == row
    }

    /// The value of one column of the row at an index.
    pub fn value(&self, at: usize, column: usize) -> Value
        requires within { at < length self.now.rows }
        requires column { column < length self.now.kinds }
        ensures { Some result ≡ cell_in self.now.rows at column }
    {
        self.columns[column].get(self.ids.len(), at)
    }

    /// The values of one column of this many rows from an index on, lent.
    pub fn column_from(&self, from: usize, count: usize, column: usize) -> Lent<'_>
        requires within { from + count ≤ length self.now.rows }
        requires column { column < length self.now.kinds }
        ensures { AreLent (column_in (rows_from self.now.rows from count) column) result }
    {
        self.columns[column].values_from(self.ids.len(), from, count)
    }

    /// Inserts a row that is not there, given by its bytes. Fails only if out of memory.
    pub fn insert(&mut self, row: u64, bytes: &[u8]) -> Result<(), AllocError>
        requires absent { is_present self.old.rows row ≡ false }
        requires wide { row_width self.old.kinds ≤ length bytes.now }
        ensures ok { OnOk result (self.new ≡ record self.old { rows = with_row self.old.rows row (values_of self.old.kinds bytes.now) }) }
        ensures err { OnErr result (self.new ≡ self.old) }
    {
        reserve_id(&mut self.ids)?;
        reserve_row(self.columns.as_mut_slice())?;
        let rows = self.ids.len();
        let at = place_of(self.ids.as_slice(), row);
        insert_id(&mut self.ids, at, row);
        insert_row(self.columns.as_mut_slice(), rows, at, bytes);
        Ok(())
    }

    /// Deletes a row, and answers whether it was there; if it was not, nothing changes.
    pub fn remove(&mut self, row: u64) -> bool
        ensures there { result ≡ is_present self.old.rows row }
        ensures rows { self.new ≡ record self.old { rows = without_row self.old.rows row } }
        ensures absent { result ≡ false → self.new ≡ self.old }
    {
        let Some(at) = self.find(row) else {
            return false;
        };
        let rows = self.ids.len();
        let _ = self.ids.remove(at);
        remove_row(self.columns.as_mut_slice(), rows, at);
        true
    }

    /// Puts bytes in place of one column's of a row, in a table with columns of these kinds, and
    /// answers whether the row is there. If it is not, or if the bytes are not exactly one column's,
    /// nothing changes.
    pub fn patch(&mut self, kinds: &[Kind], row: u64, offset: u16, bytes: &[u8]) -> bool
        requires { kinds.now ≡ self.old.kinds }
        ensures there { result ≡ is_present self.old.rows row }
        ensures rows { self.new ≡ record self.old { rows = with_patch self.old.kinds self.old.rows row offset bytes.now } }
        ensures absent { result ≡ false → self.new ≡ self.old }
    {
        let Some(at) = self.find(row) else {
            return false;
        };
        if let Some((column, _)) = column_at(kinds, offset as usize, bytes.len()) {
            self.columns[column].set(self.ids.len(), at, bytes);
        }
        true
    }

    /// Adds a column with this value in each row. Fails only if out of memory.
    pub fn add_column(&mut self, alloc: Global, default: &Value) -> Result<(), AllocError>
        requires { is_good (kind_of default.now) ≡ true }
        ensures ok { OnOk result (self.new ≡ wider default.now self.old) }
        ensures err { OnErr result (self.new ≡ self.old) }
    {
        let column = Cells::filled(alloc, self.ids.len(), default)?;
        self.columns.push(column)?;
        Ok(())
    }

    /// Adds a column with this value in each row, as a copy of one that has it in so many rows, as
    /// many as here or more. Fails only if out of memory.
    pub(crate) fn add_copy(
        &mut self,
        alloc: Global,
        default: &Value,
        rows: usize,
        filled: &Cells,
    ) -> Result<(), AllocError>
        requires filled { IsFilled rows default.now filled.now }
        requires within { length self.old.rows ≤ rows }
        ensures ok { OnOk result (self.new ≡ wider default.now self.old) }
        ensures err { OnErr result (self.new ≡ self.old) }
    {
        let column = filled.copy_filled(alloc, default, rows, self.ids.len())?;
        self.columns.push(column)?;
        Ok(())
    }

    /// Drops the last column.
    pub fn drop_column(&mut self)
        ensures { self.new ≡ narrower self.old }
    {
        let _ = self.columns.pop();
    }

    /// A block of the rows from an index on, copied. Fails only if out of memory.
    pub fn tail(&self, alloc: Global, at: usize) -> Result<Block, AllocError>
        requires { at ≤ length self.now.rows }
        ensures { IfOk result (λ block. block ≡ record self.now { rows = drop at self.now.rows }) }
    {
        let (_, behind) = self.ids.as_slice().split_at(at);
        Ok(Block {
            ids: Vec::from_slice(alloc, behind)?,
            columns: rows_from(alloc, self.columns.as_slice(), self.ids.len(), at)?,
        })
    }

    /// Drops the rows from an index on.
    pub fn truncate(&mut self, at: usize)
        requires { at ≤ length self.old.rows }
        ensures { self.new ≡ record self.old { rows = take at self.old.rows } }
    {
        let rows = self.ids.len();
        self.ids.truncate(at);
        truncate_rows(self.columns.as_mut_slice(), rows, at);
    }
}

/// Makes room for one more identifier. Fails only if out of memory. The identifiers do not change.
fn reserve_id(ids: &mut Vec<u64>) -> Result<(), AllocError>
    ensures items { ids.new.items ≡ ids.old.items }
    ensures ok { OnOk result (vec_len ids.new < vec_capacity ids.new) }
{
    if ids.len() == ids.capacity() {
        ids.reserve_exact(STEP)?;
    }
    Ok(())
}

/// Inserts an identifier, if there is room.
fn insert_id(ids: &mut Vec<u64>, at: usize, row: u64)
    requires within { at ≤ length ids.old.items }
    requires room { vec_len ids.old < vec_capacity ids.old }
    ensures { ids.new.items ≡ insert ids.old.items at row }
{
    if ids.insert(at, row).is_err() {
        unreachable!();
    }
}

/// How many of these identifiers, which rise, are below one.
fn place_of(ids: &[u64], row: u64) -> usize
    requires { IsStrictlySortedBy nat_cmp ids.now }
    ensures value { result ≡ prefix_len (λ id. nat_lt id row) ids.now }
    ensures within { result ≤ length ids.now }
{
    ids.partition_point(|id| *id < row)
}
