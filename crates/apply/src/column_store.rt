//! A store of rows in columns, in partitions.

ghost use Rattle.std.specs.Prelude.{◌≡◌, ◌<◌, ◌≤◌, length, true, false, Ok, IfOk, OnOk, OnErr, IfErr};
ghost use Rattle.rows.specs.Shape.{shape_of};
ghost use Rattle.rows.specs.Tables.{opening};
ghost use Rattle.rows.specs.Commits.{apply_commits};
ghost use Rattle.store.specs.Faults.{FailsAs, have_entries};
ghost use Rattle.apply.specs.Limits.{partitions_max};
ghost use Rattle.apply.specs.Partitions.{tables_in};

use crate::partition::Partition;
use crate::partitions::{
    change_partitions, clear_partitions, column_from, empty_partitions, find, id_at, ids_from,
    kinds, len, value,
};
use crate::spot::Spot;
use crate::starter::Starter;
use crate::together::{apply_in_threads, are_many};
use rows::{Commit, Entry, Kind, RowId, Schema, Value, laws};
use std::alloc::{AllocError, Global};
use std::marker::Model;
use std::thread::Threads;
use store::{ApplyFault, ApplyStore, Lent, Store, StoreFault, first_columns_stay, run_commits};

/// A store of rows in columns. A row is in the partition whose number is the remainder of its
/// identifier, divided by the number of partitions; there its values are side by side with those of
/// other rows, column by column.
///
/// Contracts see the tables of each partition, whether the store is whole, and the kinds of the
/// tables' columns when it was made. Its answers are those of all partitions' tables together, and
/// do not depend on the number of partitions.
#[derive(Drop)]
pub struct ColumnStore {
    alloc: Global,
    partitions: Vec<Partition>,
    whole: bool,
    /// The schema that it was made for: `clear` goes back to its columns.
    schema: Schema,
}

impl Model for ColumnStore {
    ghost use Rattle.apply.specs.Partitions.{ColumnState};

    ghost Value = { ColumnState };

    ghost use Rattle.apply.specs.Inner.Stores.{state_of, IsColumnStore};

    ghost view = { state_of };

    ghost invariant = { IsColumnStore };
}

impl ColumnStore {
    /// A store for the tables of a schema, each without rows, in 1 to 64 partitions. It is whole.
    /// Fails only if out of memory.
    pub fn new(alloc: Global, schema: &Schema, partitions: usize) -> Result<ColumnStore, AllocError>
        requires some { 0 < partitions }
        requires few { partitions ≤ partitions_max }
        ensures tables { IfOk result (λ store. tables_in store.partitions ≡ opening (shape_of schema.now)) }
        ensures partitions { IfOk result (λ store. length store.partitions ≡ partitions) }
        ensures whole { IfOk result (λ store. store.whole ≡ true) }
        ensures base { IfOk result (λ store. store.base_shape ≡ shape_of schema.now) }
    {
        laws::rows_are_of_kinds();
        first_columns_stay();
        Ok(ColumnStore {
            alloc,
            partitions: empty_partitions(alloc, schema, partitions)?,
            whole: true,
            schema: schema.clone()?,
        })
    }

    /// Makes all changes of these commits, in their order. If they have at least 4,096 entries,
    /// each partition makes its own, in threads: each thread has a share of the partitions, and goes
    /// over the entries once for each.
    ///
    /// Fails with `Broken` if the store is not whole, with `Inconsistent` if one of the changes is
    /// refused, or with `Memory`, only if there is an entry to apply. After any failure the store
    /// is never whole again.
    pub fn apply_together<R: Threads + Sync>(
        &mut self,
        rt: &R,
        commits: &[Commit],
    ) -> Result<(), ApplyFault>
        ensures ok { OnOk result (apply_commits (tables_in self.old.partitions) commits.now ≡ Ok (tables_in self.new.partitions)) }
        ensures only_whole { OnOk result (self.old.whole ≡ true) }
        ensures stays_whole { OnOk result (self.new.whole ≡ true) }
        ensures err { IfErr result
            (FailsAs self.old.whole (have_entries commits.now) (apply_commits (tables_in self.old.partitions) commits.now)) }
        ensures broken { OnErr result (self.new.whole ≡ false) }
        ensures base { self.new.base_shape ≡ self.old.base_shape }
    {
        if !self.whole {
            return Err(ApplyFault::Broken);
        }
        laws::rows_are_of_kinds();
        first_columns_stay();
        if are_many(commits) {
            let applied = apply_in_threads(rt, self.alloc, &mut self.partitions, commits);
            self.whole = applied.is_ok();
            return applied;
        }
        let applied = run_commits(self, commits);
        if applied.is_err() {
            self.whole = false;
        }
        applied
    }
}

impl Store for ColumnStore {
    ghost use Rattle.store.specs.Faults.{number_of};
    ghost use Rattle.apply.specs.Partitions.{tables_in, values_in};

    /// A row's place is a partition, and a position there.
    type Place = Spot;

    type Fault = StoreFault;

    ghost tables = { λ s. tables_in s.partitions };

    ghost is_whole = { λ s. s.whole };

    ghost base_shape = { λ s. s.base_shape };

    ghost values_at = { λ s table place. values_in s.partitions table place };

    ghost kind_of = { number_of };

    /// Whether no list of commits was refused.
    fn whole(&self) -> bool {
        self.whole
    }

    /// While it is whole, each row has a value for each of its table's columns, of the column's
    /// kind.
    fn keeps_kinds(&self) {
        // A look at a field brings the invariant to the proof.
        let _ = &self.whole;
    }

    /// Where a row of a table is; `None` if the row or the table is not there.
    fn find(&self, table: u8, row: RowId) -> Option<Spot> {
        if !self.whole {
            return None;
        }
        find(self.partitions.as_slice(), table, row.0)
    }

    /// The value of one column of the row at that place, columns being counted from 0.
    fn value(&self, table: u8, place: Spot, column: usize) -> Value {
        value(self.partitions.as_slice(), table, place, column)
    }

    /// The kinds of a table's columns, lent; `None` if there is no table of that number.
    fn kinds(&self, table: u8) -> Option<&[Kind]> {
        if !self.whole {
            return None;
        }
        kinds(self.partitions.as_slice(), table)
    }

    /// How many rows a table has; 0 if there is no table of that number.
    fn len(&self, table: u8) -> usize {
        if !self.whole {
            return 0;
        }
        len(self.partitions.as_slice(), table)
    }

    /// The identifier of the row at an index of the table's order, counted from 0.
    fn id_at(&self, table: u8, i: usize) -> RowId {
        RowId(id_at(self.partitions.as_slice(), table, i))
    }

    /// The number of partitions: the rows of a piece are those of the partition of its number.
    fn pieces(&self) -> usize
        ensures some { 0 < result }
        ensures partitions { result ≡ length self.now.partitions }
    {
        self.partitions.len()
    }

    /// The identifiers of rows of a partition, lent: the rest of a block, from the row at an index
    /// on. `None` if `pieces` is not the number of partitions, or if there is no such piece or table.
    fn ids_from(&self, table: u8, pieces: usize, piece: usize, from: usize) -> Option<&[u64]> {
        ids_from(self.partitions.as_slice(), table, pieces, piece, from)
    }

    /// The values of one column of this many rows of a partition, lent. `None` if they are not all
    /// in one block, if `pieces` is not the number of partitions, or if there is no such piece,
    /// table or column.
    fn column_from(
        &self,
        table: u8,
        pieces: usize,
        piece: usize,
        from: usize,
        count: usize,
        column: usize,
    ) -> Option<Lent<'_>> {
        column_from(
            self.partitions.as_slice(),
            table,
            pieces,
            piece,
            from,
            count,
            column,
        )
    }

    /// Makes one change, or refuses it and changes nothing: `Broken`; `Unfit`; `Exists` or
    /// `Missing`; `Memory`; the first that applies.
    fn change(&mut self, entry: &Entry) -> Result<(), StoreFault> {
        if !self.whole {
            return Err(StoreFault::Broken);
        }
        laws::rows_are_of_kinds();
        first_columns_stay();
        change_partitions(self.alloc, &mut self.partitions, entry)
    }

    /// The number of a fault: 1 Exists, 2 Missing, 3 Unfit, 4 Memory, 5 Broken.
    fn kind(fault: &StoreFault) -> u8 {
        fault.number()
    }
}

impl ApplyStore for ColumnStore {
    /// Makes all changes of these commits, as `apply_together` does.
    fn apply_all<R: Threads + Sync>(
        &mut self,
        rt: &R,
        commits: &[Commit],
    ) -> Result<(), ApplyFault> {
        self.apply_together(&Starter::new(rt), commits)
    }

    /// Deletes all rows, and all columns that were added, in all partitions; blocks give their memory
    /// back. A store that is not whole stays as it is.
    fn clear(&mut self) {
        if !self.whole {
            return;
        }
        laws::rows_are_of_kinds();
        first_columns_stay();
        clear_partitions(&mut self.partitions, &self.schema);
    }
}
