//! The columns that commits added to the tables.

ghost use Rattle.std.specs.Prelude.{◌≡◌, ℕ, ◌+◌, ◌≤◌, ◌∷◌, [], IfOk, OnOk, OnErr, Some, None, true, length, map, nat_le, slice_get};
ghost use Rattle.std.specs.Prelude.{if◌then◌else◌};
ghost use Rattle.std.specs.List.{list_any, prefix_len};
ghost use Rattle.std.specs.List.Sorted.{IsNonDecreasingBy};
ghost use Rattle.std.specs.Option.{option_map, unwrap_or};
ghost use Rattle.rows.specs.Shape.{shape_of};
ghost use Rattle.mvcc.specs.Inner.Keys.{adds_column};
ghost use Rattle.mvcc.specs.Inner.Columns.{opened, extended, kinds_upto, last_from, last_added, with_added};
ghost use Rattle.mvcc.specs.Inner.Columns.{blank_at, columns_after_one};
ghost use Rattle.mvcc.specs.Inner.RowBytes.{HasValue};
ghost use Rattle.rows.specs.Values.{kind_of};

use rows::limits::COLUMNS_MAX;
use rows::{Entry, Kind, Schema, Value, row_bytes, width_of_row};
use std::alloc::{AllocError, Global};
use std::marker::Model;

/// The columns of one table. Columns are only ever added at the end, so its kinds at a version are
/// the first of these.
#[derive(Clone, Drop)]
pub struct TableColumns {
    /// How many columns the table was opened with.
    opening: usize,
    /// The kinds of all columns.
    kinds: Vec<Kind>,
    /// For each column that was added, the number of its commit; they do not fall.
    numbers: Vec<u64>,
    /// The bytes of a row that has zeros in the columns of the opening, and in each other the value
    /// with which it was added.
    blank: Vec<u8>,
}

impl Model for TableColumns {
    ghost use Rattle.mvcc.specs.Inner.Columns.{TableColumns as TableColumnsOf};

    ghost Value = { TableColumnsOf };

    ghost view = { λ c. record { opening = c.opening; kinds = c.kinds.items; numbers = c.numbers.items; blank = c.blank.items } };
}

impl TableColumns {
    /// A table that is opened with columns of these kinds. Fails only if out of memory.
    pub fn new(alloc: Global, kinds: &[Kind]) -> Result<TableColumns, AllocError>
        requires { length kinds.now ≤ COLUMNS_MAX }
        ensures { IfOk result (λ columns. columns ≡ opened kinds.now) }
    {
        Ok(TableColumns {
            opening: kinds.len(),
            kinds: Vec::from_slice(alloc, kinds)?,
            numbers: Vec::new(alloc),
            blank: vec![in alloc; 0; width_of_row(kinds)]?,
        })
    }

    /// The kinds of the columns at a version. The numbers of the added columns do not fall.
    pub fn kinds_at(&self, version: u64) -> &[Kind]
        requires rise { IsNonDecreasingBy (λ (n : ℕ). n) self.now.numbers }
        requires whole { self.now.opening + length self.now.numbers ≡ length self.now.kinds }
        ensures { result.now ≡ kinds_upto version self.now }
    {
        let added = added_upto(self.numbers.as_slice(), version);
        &self.kinds[..self.opening + added]
    }

    /// The number of the commit that added the last column; 0 if none was added.
    pub fn last_added(&self) -> u64
        ensures { result ≡ last_from 0 self.now.numbers }
    {
        match self.numbers.last() {
            None => 0,
            Some(number) => *number,
        }
    }

    /// The bytes of the blank row.
    pub fn blank(&self) -> &[u8]
        ensures { result.now ≡ self.now.blank }
    {
        self.blank.as_slice()
    }

    /// Adds a column of this kind, which the commit of this number adds with this value of it in each
    /// row. Fails only if out of memory; of the columns nothing is then known.
    pub fn add(
        &mut self,
        alloc: Global,
        number: u64,
        kind: Kind,
        default: Value,
    ) -> Result<(), AllocError>
        requires { kind ≡ kind_of default }
        ensures { OnOk result (self.new ≡ extended number (default ∷ []) self.old) }
    {
        let bytes = row_bytes(alloc, &[default])?;
        self.kinds.push(kind)?;
        self.numbers.push(number)?;
        self.blank.extend_from_slice(bytes.as_slice())?;
        Ok(())
    }
}

/// For each table its columns.
#[derive(Clone, Drop)]
pub struct Columns {
    tables: Vec<TableColumns>,
}

impl Model for Columns {
    ghost use Rattle.std.specs.Prelude.{List};
    ghost use Rattle.mvcc.specs.Inner.Columns.{TableColumns as TableColumnsOf};

    ghost Value = { List TableColumnsOf };

    ghost view = { λ c. c.tables.items };
}

impl Columns {
    /// The tables of a schema, as they are opened. Fails only if out of memory.
    pub fn new(alloc: Global, schema: &Schema) -> Result<Columns, AllocError>
        ensures { IfOk result (λ columns. columns ≡ map opened (shape_of schema.now)) }
    {
        let mut tables = Vec::new(alloc);
        while let Some(kinds) = schema.kinds(tables.len()) {
            tables.push(TableColumns::new(alloc, kinds)?)?;
        }
        Ok(Columns { tables })
    }

    /// The columns of a table; `None` if there is no such table.
    pub fn of(&self, table: u8) -> Option<&TableColumns>
        ensures { option_map (λ c. c.now) result ≡ slice_get self.now table }
    {
        self.tables.get(table as usize)
    }

    /// The number of the last commit that added a column to the table; 0 if none did, or if there is
    /// no such table.
    pub fn last_added(&self, table: u8) -> u64
        ensures { result ≡ last_added (slice_get self.now table) }
    {
        match self.tables.get(table as usize) {
            None => 0,
            Some(columns) => columns.last_added(),
        }
    }

    /// The bytes of a table's blank row; none if there is no such table.
    pub fn blank(&self, table: u8) -> &[u8]
        ensures { result.now ≡ blank_at self.now table }
    {
        match self.tables.get(table as usize) {
            None => &[],
            Some(columns) => columns.blank(),
        }
    }

    /// A copy, if one of these entries adds a column. Fails only if out of memory.
    pub fn copy_for(&self, entries: &[Entry]) -> Result<Option<Columns>, AllocError>
        ensures { IfOk result (λ copy. copy ≡ (if list_any adds_column entries.now then Some self.now else None)) }
    {
        if !add_columns(entries) {
            return Ok(None);
        }
        Ok(Some(self.clone()?))
    }

    /// Puts other columns in place of these, if there are others.
    pub fn replace_by(&mut self, others: Option<Columns>)
        ensures { self.new ≡ unwrap_or others self.old }
    {
        if let Some(others) = others {
            *self = others;
        }
    }

    /// Adds the column that an entry of the commit of this number adds, if it adds one. Fails only
    /// if out of memory; of the columns nothing is then known.
    pub fn add_of(&mut self, alloc: Global, number: u64, entry: &Entry) -> Result<(), AllocError>
        ensures ok { OnOk result (self.new ≡ columns_after_one number entry.now self.old) }
        ensures err { OnErr result (adds_column entry.now ≡ true) }
        ensures value { HasValue entry.now }
    {
        match entry {
            Entry::Insert { .. } | Entry::Patch { .. } | Entry::Delete { .. } => Ok(()),
            Entry::AddColumn { table, default } => {
                let kind = default.kind();
                self.add(alloc, number, *table, kind, *default)
            }
        }
    }

    /// Adds a column of this kind, which is the value's, to a table, if it is there. Fails only if
    /// out of memory; of the columns nothing is then known.
    fn add(
        &mut self,
        alloc: Global,
        number: u64,
        table: u8,
        kind: Kind,
        default: Value,
    ) -> Result<(), AllocError>
        requires { kind ≡ kind_of default }
        ensures { OnOk result (self.new ≡ with_added number table default self.old) }
    {
        match self.tables.get_mut(table as usize) {
            None => Ok(()),
            Some(columns) => columns.add(alloc, number, kind, default),
        }
    }
}

/// Whether one of the entries adds a column.
pub fn add_columns(entries: &[Entry]) -> bool
    ensures { result ≡ list_any adds_column entries.now }
{
    entries.iter().any(adds_column)
}

/// Whether the entry adds a column.
pub fn adds_column(entry: &Entry) -> bool
    ensures { result ≡ adds_column entry.now }
{
    match entry {
        Entry::Insert { .. } | Entry::Patch { .. } | Entry::Delete { .. } => false,
        Entry::AddColumn { .. } => true,
    }
}

/// How many of these numbers, which do not fall, are of this version or an earlier one.
fn added_upto(numbers: &[u64], version: u64) -> usize
    requires { IsNonDecreasingBy (λ (n : ℕ). n) numbers.now }
    ensures value { result ≡ prefix_len (λ (number : ℕ). nat_le number version) numbers.now }
    ensures within { result ≤ length numbers.now }
{
    numbers.partition_point(|number| *number <= version)
}
