//! Which rows are present after commits: all that decides whether the next commit is legal.

ghost use Rattle.std.specs.Prelude.{◌≡◌, ℕ, ◌<◌, ◌==◌, ◌&&◌, [], true, Some, is_ok, length, replicate, slice_get, IfOk, IsSomeAnd, OnOk};
ghost use Rattle.std.specs.Prelude.{if◌then◌else◌};
ghost use Rattle.std.specs.List.{AllByRecursion};
ghost use Rattle.rows.specs.Entries.{fitting, row_of, has_room, with_kind};
ghost use Rattle.rows.specs.Shape.{shape_of, AreColumns};
ghost use Rattle.rows.specs.Tables.{Tables, opening, apply_entry, apply_entries};
ghost use Rattle.journal.specs.Inner.Presence.{has_row, IsPresenceOf, IsApplied};

use crate::row_ids::RowIds;
use rows::{Entry, Kind, KindList, RowId, Schema, fits_columns, laws};
use std::alloc::{AllocError, Global};
use std::marker::Model;

/// The rows that are present after commits, and the kinds of the tables' columns. An entry is
/// defined exactly if it fits its table's columns and its row is present or absent as it needs, so
/// no values are kept.
///
/// Contracts see both, for each table its kinds and the identifiers of its rows.
#[derive(Drop)]
pub struct PresentRows {
    alloc: Global,
    /// The kinds of each table's columns, by the table's number.
    kinds: Vec<KindList>,
    /// The rows of each table, in a set of its own: a key is then one number.
    rows: Vec<RowIds>,
}

impl Model for PresentRows {
    ghost use Rattle.std.specs.Prelude.{◌≡◌, length};
    ghost use Rattle.std.specs.List.{AllByRecursion};
    ghost use Rattle.rows.specs.Shape.{AreColumns};
    ghost use Rattle.journal.specs.Inner.Presence.{PresenceState};

    ghost Value = { PresenceState };

    ghost view = { λ p. record { kinds = p.kinds.items; rows = p.rows.items } };

    ghost invariant = { λ p. AllByRecursion AreColumns p.kinds.items × (length p.rows.items ≡ length p.kinds.items) };
}

impl PresentRows {
    /// No rows, in the tables of a schema. Fails only if out of memory.
    pub fn new(alloc: Global, schema: &Schema) -> Result<PresentRows, AllocError>
        ensures { IfOk result (IsPresenceOf (opening (shape_of schema.now))) }
    {
        Ok(PresentRows {
            alloc,
            kinds: kinds_of(alloc, schema)?,
            rows: no_rows(alloc, schema.len())?,
        })
    }

    /// Whether these entries are defined, one after the other. If they are, the rows are then those
    /// after them. If they are not, or it fails, which it does only if out of memory, it must not
    /// be used again.
    pub fn apply(&mut self, entries: &[Entry]) -> Result<bool, AllocError>
        ensures { IfOk result (λ defined. (tables : Tables) → IsPresenceOf tables self.old
            → IsApplied defined (apply_entries tables entries.now) self.new) }
    {
        for entry in entries {
            if !self.apply_one(entry)? {
                return Ok(false);
            }
        }
        Ok(true)
    }

    /// Whether the entry is defined. If it is, its row is then present or absent as it leaves it.
    /// Fails only if out of memory.
    fn apply_one(&mut self, entry: &Entry) -> Result<bool, AllocError>
        ensures { IfOk result (λ defined. (tables : Tables) → IsPresenceOf tables self.old
            → IsApplied defined (apply_entry tables entry.now) self.new) }
    {
        if !self.fits(entry) {
            return Ok(false);
        }
        match entry {
            Entry::Insert { row, .. } | Entry::Patch { row, .. } | Entry::Delete { row, .. } => {
                self.change_row(entry, *row)
            }
            Entry::AddColumn { table, default } => {
                laws::changes_tell_kinds();
                laws::entries_are_defined_one_by_one();
                self.add_column(*table, default.kind())?;
                Ok(true)
            }
        }
    }

    /// Whether the row of an entry that fits is present or absent as the entry needs it. If it is,
    /// it is then as the entry leaves it. Fails only if out of memory.
    fn change_row(&mut self, entry: &Entry, row: RowId) -> Result<bool, AllocError>
        requires fits { is_ok (fitting self.old.kinds entry.now) ≡ true }
        requires row { row_of entry.now ≡ Some row }
        ensures { IfOk result (λ defined. (tables : Tables) → IsPresenceOf tables self.old
            → IsApplied defined (apply_entry tables entry.now) self.new) }
    {
        laws::changes_tell_kinds();
        laws::entries_are_defined_one_by_one();
        let table = entry.table();
        let there = self.contains(table, row);
        if !entry.is_possible(there) {
            return Ok(false);
        }
        let left = entry.leaves_row(there);
        if left != there {
            self.set(table, row, left)?;
        }
        Ok(true)
    }

    /// Puts the kind of one more column behind those of a table, which has room for it. Fails only
    /// if out of memory.
    fn add_column(&mut self, table: u8, kind: Kind) -> Result<(), AllocError>
        requires { IsSomeAnd (slice_get self.old.kinds table) (λ kinds. has_room kinds kind ≡ true) }
        ensures kinds { OnOk result (self.new.kinds ≡ with_kind self.old.kinds table kind) }
        ensures rows { OnOk result (self.new.rows ≡ self.old.rows) }
    {
        laws::changes_tell_kinds();
        let Some(kinds) = self.kinds.get_mut(table as usize) else {
            unreachable!();
        };
        let wider = kinds.with(self.alloc, kind)?;
        *kinds = wider;
        Ok(())
    }

    /// Whether the entry fits the columns of its table, and the table is there.
    fn fits(&self, entry: &Entry) -> bool
        ensures { result ≡ is_ok (fitting self.now.kinds entry.now) }
    {
        match self.kinds.get(entry.table() as usize) {
            Some(kinds) => fits_columns(kinds.as_slice(), entry).is_ok(),
            None => false,
        }
    }

    /// Whether the row of a table that exists is present.
    fn contains(&self, table: u8, row: RowId) -> bool
        requires { table < length self.now.kinds }
        ensures { result ≡ has_row self.now.rows table row.0 }
    {
        self.rows[table as usize].contains(row)
    }

    /// Makes the row of a table that exists present or absent. Fails only if out of memory.
    fn set(&mut self, table: u8, row: RowId, there: bool) -> Result<(), AllocError>
        requires { table < length self.old.kinds }
        ensures kinds { OnOk result (self.new.kinds ≡ self.old.kinds) }
        ensures rows { OnOk result ((t r : ℕ) → has_row self.new.rows t r
            ≡ (if (table == t) && (row.0 == r) then there else has_row self.old.rows t r)) }
    {
        self.rows[table as usize].set(row, there)
    }
}

/// No rows in each of so many tables. Fails only if out of memory.
fn no_rows(alloc: Global, tables: usize) -> Result<Vec<RowIds>, AllocError>
    ensures { IfOk result (λ rows. rows.items ≡ replicate tables []) }
{
    let mut rows = Vec::with_capacity(alloc, tables)?;
    for _ in 0..tables {
        rows.push(RowIds::new(alloc))?;
    }
    Ok(rows)
}

/// The kinds of each table's columns. Fails only if out of memory.
fn kinds_of(alloc: Global, schema: &Schema) -> Result<Vec<KindList>, AllocError>
    ensures value { IfOk result (λ kinds. kinds.items ≡ shape_of schema.now) }
    ensures columns { IfOk result (λ kinds. AllByRecursion AreColumns kinds.items) }
{
    let mut kinds = Vec::new(alloc);
    for table in 0..schema.len() {
        let Some(columns) = schema.kinds(table) else {
            unreachable!();
        };
        kinds.push(KindList::from_slice(alloc, columns)?)?;
    }
    schema.keeps_limits();
    Ok(kinds)
}
