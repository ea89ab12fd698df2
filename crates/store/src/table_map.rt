//! One table: the kinds of its columns, and its rows by identifier and by index.

ghost use Rattle.std.specs.Prelude.{◌≡◌, ◌<◌, [], ◌∷◌, ◌++◌, length, true, false, Some, IfOk, OnOk, OnErr, nat_lt};
ghost use Rattle.std.specs.Map.{keys_of};
ghost use Rattle.std.specs.List.{prefix_len};
ghost use Rattle.std.specs.List.Sorted.{IsStrictlySortedBy};
ghost use Rattle.std.specs.Option.{option_map};
ghost use Rattle.std.specs.Ordering.{nat_cmp};
ghost use Rattle.rows.specs.Shape.{AreColumns};
ghost use Rattle.rows.specs.Values.{kind_of};
ghost use Rattle.rows.specs.Tables.{row_at, is_present, with_row, with_patch, without_row, with_column};
ghost use Rattle.store.specs.Changes.{id_in, IsAboveAllBefore};

use crate::table_rows::TableRows;
use rows::{Kind, KindList, Row, Value, row_values};
use std::alloc::{AllocError, Global};
use std::collections::{BTreeMap, VecDeque};
use std::marker::Model;

/// One table. Contracts see the kinds of its columns, which are allowed for a table, and its rows
/// in rising identifier.
#[derive(Drop)]
pub struct TableMap {
    kinds: KindList,
    rows: BTreeMap<u64, Row>,
    /// The identifiers of the rows, rising: the map cannot find the row at an index.
    ids: VecDeque<u64>,
}

impl Model for TableMap {
    ghost use Rattle.rows.specs.Tables.{Table};

    ghost Value = { Table };

    ghost use Rattle.store.specs.Inner.Order.{IsTableMap};

    ghost view = { λ t. record { kinds = t.kinds; rows = t.rows.entries } };

    ghost invariant = { IsTableMap };
}

impl TableMap {
    /// How many rows there are.
    pub fn len(&self) -> usize
        ensures { result ≡ length self.now.rows }
    {
        self.rows.len()
    }

    /// Whether the row is there.
    pub fn contains(&self, row: u64) -> bool
        ensures { result ≡ is_present self.now.rows row }
    {
        self.rows.contains_key(&row)
    }

    /// The values of a row, lent; `None` if it is not there.
    pub fn row(&self, row: u64) -> Option<&[Value]>
        ensures { option_map (λ values. values.now) result ≡ row_at self.now.rows row }
    {
        match self.rows.get(&row) {
            Some(values) => Some(values.as_slice()),
            None => None,
        }
    }

    /// The identifier of the row at an index of the order, in one step.
    pub fn id_at(&self, i: usize) -> u64
        requires { i < length self.now.rows }
        ensures value { Some result ≡ id_in self.now.rows i }
        ensures rises { IsAboveAllBefore self.now.rows i result }
    {
        self.ids[i]
    }

    /// Puts a row in. Fails only if out of memory. It moves the identifiers on the row's shorter
    /// side: none if the row's identifier is the greatest so far.
    fn put(&mut self, row: u64, values: Row) -> Result<(), AllocError>
        ensures ok { OnOk result (self.new ≡ record self.old { rows = with_row self.old.rows row values }) }
        ensures err { OnErr result (self.new ≡ self.old) }
    {
        self.ids.reserve(1)?;
        if self.rows.insert(row, values)?.is_some() {
            return Ok(());
        }
        let index = index_of(&self.ids, row);
        if self.ids.insert(index, row).is_err() {
            unreachable!();
        }
        Ok(())
    }
}

impl TableRows for TableMap {
    ghost table = { λ t. t };

    /// A table with columns of these kinds, and without rows. Fails only if out of memory.
    fn empty(alloc: Global, kinds: &[Kind]) -> Result<TableMap, AllocError> {
        Ok(TableMap {
            kinds: KindList::from_slice(alloc, kinds)?,
            rows: BTreeMap::new(alloc),
            ids: VecDeque::new(alloc),
        })
    }

    /// The kinds of its columns, lent.
    fn kinds(&self) -> &[Kind] {
        self.kinds.as_slice()
    }

    /// Inserts a row, given by its bytes, and answers whether it is new. It moves the identifiers on
    /// the row's shorter side: none if the row's identifier is the greatest so far.
    fn insert(&mut self, alloc: Global, row: u64, bytes: &[u8]) -> Result<bool, AllocError> {
        if self.contains(row) {
            return Ok(false);
        }
        let values = row_values(alloc, self.kinds.as_slice(), bytes)?;
        self.put(row, values)?;
        Ok(true)
    }

    /// Puts bytes at one column's offset of a row, and answers whether the row is there.
    fn patch(&mut self, row: u64, offset: u16, bytes: &[u8]) -> bool {
        match self.rows.get_mut(&row) {
            Some(values) => {
                values.patch(self.kinds.as_slice(), offset, bytes);
                true
            }
            None => false,
        }
    }

    /// Deletes a row, and answers whether it was there. It moves the identifiers on the row's
    /// shorter side.
    fn remove(&mut self, row: u64) -> bool {
        if self.rows.remove(&row).is_none() {
            return false;
        }
        let index = index_of(&self.ids, row);
        self.ids.remove(index);
        true
    }

    /// Adds a column with this value in each row. All rows are copied.
    fn add_column(&mut self, alloc: Global, default: Value) -> Result<(), AllocError> {
        let kinds = self.kinds.with(alloc, default.kind())?;
        let rows = widened(alloc, &self.rows, &self.ids, default)?;
        self.kinds = kinds;
        self.rows = rows;
        Ok(())
    }

    /// Deletes all rows, and all columns but the first so many.
    fn clear(&mut self, columns: usize) {
        self.kinds.truncate(columns);
        self.rows.clear();
        self.ids.clear();
    }
}

/// The rows, whose identifiers these are, each with this value behind its others. Fails only if out
/// of memory.
fn widened(
    alloc: Global,
    rows: &BTreeMap<u64, Row>,
    ids: &VecDeque<u64>,
    default: Value,
) -> Result<BTreeMap<u64, Row>, AllocError>
    requires ids { ids.now.items ≡ keys_of rows.now.entries }
    requires rise { IsStrictlySortedBy nat_cmp ids.now.items }
    ensures { IfOk result (λ made. made.entries ≡ with_column default rows.now.entries) }
{
    let mut made = BTreeMap::new(alloc);
    for i in 0..ids.len() {
        let id = ids[i];
        let Some(row) = rows.get(&id) else {
            unreachable!();
        };
        made.insert(id, row.with(alloc, default)?)?;
    }
    Ok(made)
}

/// The index of an identifier in the rising list: how many identifiers are below it.
fn index_of(ids: &VecDeque<u64>, row: u64) -> usize
    requires { IsStrictlySortedBy nat_cmp ids.now.items }
    ensures { result ≡ prefix_len (λ id. nat_lt id row) ids.now.items }
{
    ids.partition_point(|id| *id < row)
}
