//! A schema: the tables by name, in order, each with the kinds of its columns.

ghost use Rattle.std.specs.Prelude.{◌≡◌, ◌<◌, ◌≤◌, ◌++◌, ◌∷◌, [], length, map, true, MatchResult, IfOk, OnOk, IfSome, slice_get, position};
ghost use Rattle.std.specs.Option.{option_map};
ghost use Rattle.std.specs.List.{list_any, list_all};
ghost use Rattle.std.specs.Str.{bytes_eq};
ghost use Rattle.rows.specs.Faults.{IsFirstFault};
ghost use Rattle.rows.specs.SchemaFaults.{schema_fault, table_fault, tables_fault};
ghost use Rattle.rows.specs.Inner.Shown.{kept_table};
ghost use Rattle.rows.specs.Shape.{given, shape_of, row_width, is_good, column_at, AreColumns, AreTables};

use crate::faults::SchemaFault;
use crate::kind::Kind;
use crate::kind_list::KindList;
use crate::limits::{COLUMNS_MAX, ROW_WIDTH_MAX, TABLES_MAX};
use indexmap::IndexMap;
use std::alloc::{AllocError, Global};
use std::marker::Model;

/// The tables of a database, in order, each with its name and the kinds of its columns.
///
/// It has 1 to 16 tables with different names, each of 1 to 16 columns and at most 512 bytes a row;
/// a column of `Octets` has 1 to 64 bytes. Tables are identified by their number, from 0.
#[derive(Drop)]
pub struct Schema {
    tables: IndexMap<String, KindList>,
}

impl Model for Schema {
    ghost use Rattle.std.specs.Prelude.{◌≡◌, List, ℕ, map, None};
    ghost use Rattle.rows.specs.declared.kind.Kind.{Kind};
    ghost use Rattle.rows.specs.SchemaFaults.{schema_fault};
    ghost use Rattle.rows.specs.Inner.Shown.{kept_table};

    ghost Value = { List (List ℕ × List Kind) };

    ghost view = { λ s. map kept_table s.tables.entries };

    ghost invariant = { λ s. schema_fault (map kept_table s.tables.entries) ≡ None };
}

impl Schema {
    /// The schema of these tables, each given by its name and the kinds of its columns.
    ///
    /// Fails with the first of these that applies: no table (`Empty`), more than 16 tables
    /// (`TooManyTables`); then table by table an empty name (`Empty`), a name that an earlier table
    /// has (`NameTwice`), no column (`Empty`), more than 16 columns (`TooManyColumns`), a column of
    /// 0 bytes or of more than 64 (`BadWidth`), a row of more than 512 bytes (`RowTooWide`); and
    /// `Memory` last.
    pub fn new(alloc: Global, tables: &[(&str, &[Kind])]) -> Result<Schema, SchemaFault>
        ensures exact { MatchResult result (λ schema. (schema ≡ map given tables.now) × (schema_fault (map given tables.now) ≡ None))
            (IsFirstFault (schema_fault (map given tables.now)) SchemaFault.Memory) }
    {
        if let Some(fault) = first_fault(tables) {
            return Err(fault);
        }
        match build(alloc, tables) {
            Ok(tables) => Ok(Schema { tables }),
            Err(_) => Err(SchemaFault::Memory),
        }
    }

    /// Every schema is within its limits: it has 1 to 16 tables, each of 1 to 16 columns and at
    /// most 512 bytes a row. It does nothing: its contract is the law.
    pub fn keeps_limits(&self)
        ensures { AreTables (shape_of self.now) }
    {
        // A look at a field makes the invariant known to the proof.
        let _ = &self.tables;
    }

    /// The kinds of a table's columns; `None` if there is no table of that number.
    pub fn kinds(&self, table: usize) -> Option<&[Kind]>
        ensures value { option_map (λ k. k.now) result ≡ slice_get (shape_of self.now) table }
        ensures bounds { IfSome result (λ k. (table < TABLES_MAX) × AreColumns k.now) }
    {
        let (_, kinds) = self.tables.get_index(table)?;
        Some(kinds.as_slice())
    }

    /// How many tables there are.
    pub fn len(&self) -> usize
        ensures { result ≡ length self.now }
    {
        self.tables.len()
    }

    /// The number of the table with this name; `None` if there is none.
    pub fn table_named(&self, name: &str) -> Option<usize>
        ensures { result ≡ position (λ table. bytes_eq name.now table.0) self.now }
    {
        self.tables.get_index_of(name)
    }

    /// The name of a table; `None` if there is no table of that number.
    pub fn name(&self, table: usize) -> Option<&str>
        ensures { option_map (λ name. name.now) result ≡ option_map (λ t. t.0) (slice_get self.now table) }
    {
        let (name, _) = self.tables.get_index(table)?;
        Some(name.as_str())
    }
}

impl Clone for Schema {
    ghost use Rattle.std.specs.Prelude.{◌≡◌};

    ghost is_clone = { λ schema copy. copy ≡ schema };

    /// A copy of the schema. Fails only if out of memory.
    fn clone(&self) -> Result<Schema, AllocError> {
        let tables = copy_of(&self.tables)?;
        Ok(Schema { tables })
    }
}

/// How many bytes a row of these columns takes.
pub fn width_of_row(kinds: &[Kind]) -> usize
    requires { length kinds.now ≤ COLUMNS_MAX }
    ensures { result ≡ row_width kinds.now }
{
    let mut width = 0;
    for kind in kinds {
        width += kind.width();
    }
    width
}

/// Whether columns may be of these kinds.
fn are_good(kinds: &[Kind]) -> bool
    ensures { result ≡ list_all is_good kinds.now }
{
    for kind in kinds {
        if !kind.is_good() {
            return false;
        }
    }
    true
}

/// The column that begins at this offset among a row's bytes and has this size: its number and its
/// kind. `None` if these are not exactly one column's bytes. Takes no memory.
pub fn column_at(kinds: &[Kind], offset: usize, size: usize) -> Option<(usize, Kind)>
    ensures { result ≡ column_at kinds.now offset size }
{
    let mut rest = offset;
    for column in 0..kinds.len() {
        let kind = kinds[column];
        if rest == 0 && size == kind.width() {
            return Some((column, kind));
        }
        if rest < kind.width() {
            return None;
        }
        rest -= kind.width();
    }
    None
}

/// The first fault of tables that are to be a schema, apart from out of memory.
fn first_fault(tables: &[(&str, &[Kind])]) -> Option<SchemaFault>
    ensures { result ≡ schema_fault (map given tables.now) }
{
    if tables.is_empty() {
        return Some(SchemaFault::Empty);
    }
    if tables.len() > TABLES_MAX {
        return Some(SchemaFault::TooManyTables);
    }
    for i in 0..tables.len() {
        let (name, kinds) = tables[i];
        let (before, _) = tables.split_at(i);
        if let Some(fault) = fault_of_table(before, name, kinds) {
            return Some(fault);
        }
    }
    None
}

/// The first fault of one table, which follows others.
fn fault_of_table(before: &[(&str, &[Kind])], name: &str, kinds: &[Kind]) -> Option<SchemaFault>
    ensures { result ≡ table_fault (map given before.now) (name.now, kinds.now) }
{
    if name.is_empty() {
        return Some(SchemaFault::Empty);
    }
    if is_named(before, name) {
        return Some(SchemaFault::NameTwice);
    }
    if kinds.is_empty() {
        return Some(SchemaFault::Empty);
    }
    if kinds.len() > COLUMNS_MAX {
        return Some(SchemaFault::TooManyColumns);
    }
    if !are_good(kinds) {
        return Some(SchemaFault::BadWidth);
    }
    if width_of_row(kinds) > ROW_WIDTH_MAX {
        return Some(SchemaFault::RowTooWide);
    }
    None
}

/// Whether one of the tables has this name.
fn is_named(tables: &[(&str, &[Kind])], name: &str) -> bool
    ensures { result ≡ list_any (λ other. bytes_eq other.0 name.now) (map given tables.now) }
{
    tables.iter().any(|table| table.0 == name)
}

/// The map of these tables, whose names differ. Fails only if out of memory.
fn build(
    alloc: Global,
    tables: &[(&str, &[Kind])],
) -> Result<IndexMap<String, KindList>, AllocError>
    requires { schema_fault (map given tables.now) ≡ None }
    ensures { IfOk result (λ made. map kept_table made.entries ≡ map given tables.now) }
{
    let mut made = IndexMap::new(alloc);
    for (name, kinds) in tables {
        add_table(alloc, &mut made, name, kinds)?;
    }
    Ok(made)
}

/// A copy of the map. Fails only if out of memory.
fn copy_of(tables: &IndexMap<String, KindList>) -> Result<IndexMap<String, KindList>, AllocError>
    requires { tables_fault [] (map kept_table tables.now.entries) ≡ None }
    ensures { IfOk result (λ made. map kept_table made.entries ≡ map kept_table tables.now.entries) }
{
    let alloc = *tables.allocator();
    let mut made = IndexMap::new(alloc);
    for (name, kinds) in tables {
        add_table(alloc, &mut made, name, kinds.as_slice())?;
    }
    Ok(made)
}

/// Adds a table without a fault to the end of the map. Fails only if out of memory; nothing is then
/// known of the map.
fn add_table(
    alloc: Global,
    tables: &mut IndexMap<String, KindList>,
    name: &str,
    kinds: &[Kind],
) -> Result<(), AllocError>
    requires { table_fault (map kept_table tables.old.entries) (name.now, kinds.now) ≡ None }
    ensures { OnOk result
        (map kept_table tables.new.entries ≡ map kept_table tables.old.entries ++ (name.now, kinds.now) ∷ []) }
{
    let name = String::from_str(alloc, name)?;
    let kinds = KindList::from_slice(alloc, kinds)?;
    tables.insert(name, kinds)?;
    Ok(())
}
