//! One partition of a store.

ghost use Rattle.std.specs.Prelude.{◌≡◌, ◌+◌, ◌<◌, ◌≤◌, length, [], ◌∷◌, true, Ok, OnOk, OnErr, IfOk, IfErr, IfSome, MatchOption, is_some};
ghost use Rattle.std.specs.Prelude.{slice_get};
ghost use Rattle.std.specs.Option.{option_map};
ghost use Rattle.rows.specs.Shape.{shape_of};
ghost use Rattle.rows.specs.Tables.{opening, shape_in, kinds_of, rows_of, row_at, is_present, apply_entry};
ghost use Rattle.store.specs.Changes.{fault_kind, BeganWith};
ghost use Rattle.store.specs.Faults.{number_of};
ghost use Rattle.apply.specs.Blocks.{dropped};
ghost use Rattle.apply.specs.Limits.{rows_max};
ghost use Rattle.apply.specs.Inner.Ends.{GoesOn};
ghost use Rattle.apply.specs.Orders.{AllUnder, place_in};

use crate::piece::Piece;
use rows::{Entry, Schema};
use std::alloc::{AllocError, Global};
use store::{ApplyFault, StoreFault, change_tables, clear_tables, empty_tables};

/// The rows of each table in one partition, and how the last list of commits ended there.
#[derive(Drop)]
pub struct Partition {
    pub tables: Vec<Piece>,
    pub fault: Option<ApplyFault>,
}

impl Partition {
    /// The tables of a schema, without rows. Fails only if out of memory.
    pub fn new(alloc: Global, schema: &Schema) -> Result<Partition, AllocError>
        ensures { IfOk result (λ partition. partition.tables.items ≡ opening (shape_of schema.now)) }
    {
        Ok(Partition {
            tables: empty_tables(alloc, schema)?,
            fault: None,
        })
    }

    /// Its rows of a table, lent; `None` if there is no table of that number.
    pub fn piece(&self, table: u8) -> Option<&Piece>
        ensures rows { MatchOption result (rows_of self.now.tables.items table ≡ [])
            (λ piece. piece.now.rows ≡ rows_of self.now.tables.items table) }
        ensures kinds { IfSome result (λ piece. piece.now.kinds ≡ kinds_of self.now.tables.items table) }
        ensures shape { option_map (λ piece. piece.now.kinds) result ≡ slice_get (shape_in self.now.tables.items) table }
    {
        self.tables.get(table as usize)
    }

    /// The position of a row of a table among its own rows; `None` if it has no such row.
    pub fn find(&self, table: u8, row: u64) -> Option<usize>
        ensures found { is_some result ≡ is_present (rows_of self.now.tables.items table) row }
        ensures values { IfSome result (λ at. option_map (λ found. found.1) (slice_get (rows_of self.now.tables.items table) at)
            ≡ row_at (rows_of self.now.tables.items table) row) }
    {
        match self.piece(table) {
            Some(piece) => piece.find(row),
            None => None,
        }
    }

    /// How many rows of a table it has.
    pub fn len(&self, table: u8) -> usize
        ensures value { result ≡ length (rows_of self.now.tables.items table) }
        ensures few { result ≤ rows_max }
    {
        match self.piece(table) {
            Some(piece) => piece.len(),
            None => 0,
        }
    }

    /// How many of its rows of a table have an identifier below this one.
    pub fn place(&self, table: u8, row: u64) -> usize
        ensures value { result ≡ place_in (rows_of self.now.tables.items table) row }
        ensures few { result ≤ rows_max }
    {
        match self.piece(table) {
            Some(piece) => piece.place(row),
            None => 0,
        }
    }

    /// An upper bound of the identifiers of its rows of a table.
    pub fn greatest(&self, table: u8) -> u64
        ensures { AllUnder (result + 1) (rows_of self.now.tables.items table) }
    {
        match self.piece(table) {
            Some(piece) => piece.greatest(),
            None => 0,
        }
    }

    /// Makes the change of one entry, or refuses it and changes nothing.
    pub fn change(&mut self, alloc: Global, entry: &Entry) -> Result<(), StoreFault>
        ensures ok { OnOk result (apply_entry self.old.tables.items entry.now ≡ Ok self.new.tables.items) }
        ensures err { OnErr result (self.new.tables.items ≡ self.old.tables.items) }
        ensures refused { IfErr result
            (λ fault. number_of fault ≡ fault_kind true (apply_entry self.old.tables.items entry.now)) }
        ensures ended { self.new.fault ≡ self.old.fault }
    {
        change_tables(alloc, &mut self.tables, entry)
    }

    /// Drops the last of several columns of a table. Takes no memory.
    pub fn drop_column(&mut self, table: u8)
        requires { 1 < length (kinds_of self.old.tables.items table) }
        ensures { self.new.tables.items ≡ dropped self.old.tables.items table }
    {
        self.tables[table as usize].drop_column();
    }

    /// Deletes all its rows, and all columns that were added to those of the schema. Takes no
    /// memory.
    pub fn clear(&mut self, schema: &Schema)
        requires { BeganWith (shape_of schema.now) self.old.tables.items }
        ensures { self.new.tables.items ≡ opening (shape_of schema.now) }
    {
        clear_tables(&mut self.tables, schema);
    }

    /// Makes the change of one entry, unless one before it failed; keeps the first failure.
    pub fn go_on(&mut self, alloc: Global, entry: &Entry)
        ensures { GoesOn (entry.now ∷ []) self.old self.new }
    {
        if self.fault.is_some() {
            return;
        }
        match self.change(alloc, entry) {
            Ok(()) => {}
            Err(StoreFault::Memory) => self.fault = Some(ApplyFault::Memory),
            Err(_) => self.fault = Some(ApplyFault::Inconsistent),
        }
    }
}
