//! A store that keeps each table's rows in an ordered map, and their identifiers in a list.

ghost use Rattle.std.specs.Prelude.{◌≡◌, [], true, IfOk, MatchOption, slice_get};
ghost use Rattle.std.specs.Option.{option_map};
ghost use Rattle.rows.specs.Shape.{shape_of};
ghost use Rattle.rows.specs.Tables.{opening, rows_of, shape_in};

use crate::apply_store::ApplyStore;
use crate::changing::{change_tables, clear_tables, empty_tables};
use crate::faults::{ApplyFault, StoreFault};
use crate::laws::first_columns_stay;
use crate::running::run_commits;
use crate::store::Store;
use crate::table_map::TableMap;
use crate::table_rows::TableRows;
use rows::{Commit, Entry, Kind, RowId, Schema, Value, laws};
use std::alloc::{AllocError, Global};
use std::marker::{Model, Sync};
use std::thread::Threads;

/// A store that keeps the rows of each table in an ordered map, and their identifiers in a list.
///
/// Contracts see its tables, whether it is whole, and the kinds of the tables' columns when it was
/// made. It changes rows in place, and copies neither
/// rows nor tables. Inserting or deleting a row moves the identifiers on its shorter side: none for
/// the greatest identifier, and up to half of the table's for one in the middle.
#[derive(Drop)]
pub struct PlainStore {
    alloc: Global,
    tables: Vec<TableMap>,
    whole: bool,
    /// The schema that it was made for: `clear` goes back to its columns.
    schema: Schema,
}

impl Model for PlainStore {
    ghost use Rattle.store.specs.State.{StoreState};

    ghost Value = { StoreState };

    ghost use Rattle.store.specs.Inner.Invariant.{state_of, IsStore};

    ghost view = { state_of };

    ghost invariant = { IsStore };
}

impl PlainStore {
    /// A store for the tables of a schema, each without rows. It is whole. Fails only if out of
    /// memory.
    pub fn new(alloc: Global, schema: &Schema) -> Result<PlainStore, AllocError>
        ensures { IfOk result (λ store. store
            ≡ record { tables = opening (shape_of schema.now); whole = true; base_shape = shape_of schema.now }) }
    {
        laws::rows_are_of_kinds();
        first_columns_stay();
        Ok(PlainStore {
            alloc,
            tables: empty_tables(alloc, schema)?,
            whole: true,
            schema: schema.clone()?,
        })
    }

    /// A table, lent; `None` if there is no table of that number.
    fn table(&self, table: u8) -> Option<&TableMap>
        ensures rows { MatchOption result (rows_of self.now.tables table ≡ []) (λ found. rows_of self.now.tables table ≡ found.now.rows) }
        ensures kinds { slice_get (shape_in self.now.tables) table ≡ option_map (λ found. found.now.kinds) result }
    {
        self.tables.get(table as usize)
    }
}

impl Store for PlainStore {
    ghost use Rattle.rows.specs.Tables.{rows_of, row_at};
    ghost use Rattle.store.specs.Faults.{number_of};

    /// A row's place is its identifier.
    type Place = RowId;

    type Fault = StoreFault;

    ghost tables = { λ s. s.tables };

    ghost is_whole = { λ s. s.whole };

    ghost base_shape = { λ s. s.base_shape };

    ghost values_at = { λ s table place. row_at (rows_of s.tables table) place.0 };

    ghost kind_of = { number_of };

    /// Whether no list of commits was refused.
    fn whole(&self) -> bool {
        self.whole
    }

    /// While it is whole, each row has a value for each of its table's columns, of the column's
    /// kind.
    fn keeps_kinds(&self) {
        // A look at a field brings the invariant to the proof.
        let _ = &self.whole;
    }

    /// The identifier of a row of a table; `None` if the row or the table is not there.
    fn find(&self, table: u8, row: RowId) -> Option<RowId> {
        if self.table(table)?.contains(row.0) {
            Some(row)
        } else {
            None
        }
    }

    /// The value of one column of a row, columns being counted from 0.
    fn value(&self, table: u8, place: RowId, column: usize) -> Value {
        let Some(found) = self.table(table) else {
            unreachable!();
        };
        let Some(values) = found.row(place.0) else {
            unreachable!();
        };
        values[column]
    }

    /// The kinds of a table's columns, lent; `None` if there is no table of that number.
    fn kinds(&self, table: u8) -> Option<&[Kind]> {
        match self.table(table) {
            Some(found) => Some(found.kinds()),
            None => None,
        }
    }

    /// How many rows a table has; 0 if there is no table of that number.
    fn len(&self, table: u8) -> usize {
        match self.table(table) {
            Some(found) => found.len(),
            None => 0,
        }
    }

    /// The identifier of the row at an index of the table's order, counted from 0, in one step.
    fn id_at(&self, table: u8, i: usize) -> RowId {
        let Some(found) = self.table(table) else {
            unreachable!();
        };
        RowId(found.id_at(i))
    }

    /// Makes one change, or refuses it and changes nothing: `Broken`; `Unfit`; `Exists` or
    /// `Missing`; `Memory`; the first that applies.
    fn change(&mut self, entry: &Entry) -> Result<(), StoreFault> {
        if !self.whole {
            return Err(StoreFault::Broken);
        }
        laws::rows_are_of_kinds();
        first_columns_stay();
        change_tables(self.alloc, &mut self.tables, entry)
    }

    /// The number of a fault: 1 Exists, 2 Missing, 3 Unfit, 4 Memory, 5 Broken.
    fn kind(fault: &StoreFault) -> u8 {
        fault.number()
    }
}

impl ApplyStore for PlainStore {
    /// Makes all changes of these commits, in their order; otherwise `Broken`, `Inconsistent` or
    /// `Memory`, after which the store is never whole again. It uses no threads.
    fn apply_all<R: Threads + Sync>(
        &mut self,
        rt: &R,
        commits: &[Commit],
    ) -> Result<(), ApplyFault> {
        let _ = rt;
        if !self.whole {
            return Err(ApplyFault::Broken);
        }
        let applied = run_commits(self, commits);
        self.whole = applied.is_ok();
        applied
    }

    /// Deletes all rows, and all columns that were added. A store that is not whole stays as it is.
    fn clear(&mut self) {
        if !self.whole {
            return;
        }
        laws::rows_are_of_kinds();
        first_columns_stay();
        clear_tables(&mut self.tables, &self.schema);
    }
}
