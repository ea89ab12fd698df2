//! The columns of a block's rows that were filled so far.

ghost use Rattle.std.specs.Prelude.{◌≡◌, ◌<◌, List, true, length, OnOk, IfOk, IfSome, slice_index_or};
ghost use Rattle.queries.specs.declared.column.Column.{Column as AnyColumn};
ghost use Rattle.queries.specs.Answers.{JoinedRow, values_in};
ghost use Rattle.plans.specs.Inner.Cells.{HaveColumns, AreColumnsOf};
ghost use Rattle.plans.specs.Inner.BlockRows.{IsBlock};
ghost use Rattle.plans.specs.Inner.Partnered.{AreSound, HasKind, HaveKinds, joined_rows, joined_table, AreFilled, Grows, IsColumnAt};

use crate::block::Block;
use crate::cells::Cells;
use crate::joined_cells::column_cells;
use crate::partners::Partners;
use queries::Column;
use std::alloc::{AllocError, Global};
use store::Store;

/// Columns of a block's rows, each filled once. A place is an index among their cells; it stays what
/// it is while more columns are filled.
#[derive(Drop)]
pub struct Filled<'s> {
    columns: Vec<Column>,
    cells: Vec<Cells<'s>>,
}

impl<'s> Filled<'s> {
    /// No columns. Takes no memory.
    pub fn new(alloc: Global) -> Filled<'s>
        ensures { (rows : List JoinedRow) → AreFilled rows result }
    {
        Filled {
            columns: Vec::new(alloc),
            cells: Vec::new(alloc),
        }
    }

    /// The cells of the columns, lent.
    pub fn cells(&self) -> &[Cells<'s>]
        ensures { result.now ≡ self.now.cells.items }
    {
        self.cells.as_slice()
    }

    /// The place of a column, which is filled if it was not. Fails only if out of memory; nothing is
    /// then known of the columns.
    pub fn place<S: Store>(
        &mut self,
        alloc: Global,
        store: &'s S,
        block: &Block,
        partners: &Option<Partners<S::Place>>,
        column: Column,
    ) -> Result<usize, AllocError>
        requires whole { S.is_whole store.now ≡ true }
        requires block { IsBlock (S.tables store.now) block.now }
        requires partners { AreSound (S.tables store.now) (S.values_at store.now) block.now partners.now }
        requires column { HasKind (S.tables store.now) block.now.table (joined_table partners.now) column }
        requires filled { AreFilled (joined_rows (S.tables store.now) (S.values_at store.now) block.now partners.now) self.old }
        ensures filled { OnOk result
            (AreFilled (joined_rows (S.tables store.now) (S.values_at store.now) block.now partners.now) self.new) }
        ensures grows { OnOk result (Grows self.old.cells.items self.new.cells.items) }
        ensures place { IfOk result (λ place. IsColumnAt self.new.cells.items place
            (values_in column (joined_rows (S.tables store.now) (S.values_at store.now) block.now partners.now))) }
    {
        if let Some(place) = place_of(self.columns.as_slice(), column) {
            return Ok(place);
        }
        let cells = column_cells(alloc, store, block, partners, column)?;
        let place = self.cells.len();
        self.columns.push(column)?;
        self.cells.push(cells)?;
        Ok(place)
    }

    /// The places of columns, each of which is filled if it was not. Fails only if out of memory;
    /// nothing is then known of the columns.
    pub fn places<S: Store>(
        &mut self,
        alloc: Global,
        store: &'s S,
        block: &Block,
        partners: &Option<Partners<S::Place>>,
        columns: &[Column],
    ) -> Result<Vec<usize>, AllocError>
        requires whole { S.is_whole store.now ≡ true }
        requires block { IsBlock (S.tables store.now) block.now }
        requires partners { AreSound (S.tables store.now) (S.values_at store.now) block.now partners.now }
        requires columns { HaveKinds (S.tables store.now) block.now.table (joined_table partners.now) columns.now }
        requires filled { AreFilled (joined_rows (S.tables store.now) (S.values_at store.now) block.now partners.now) self.old }
        ensures filled { OnOk result
            (AreFilled (joined_rows (S.tables store.now) (S.values_at store.now) block.now partners.now) self.new) }
        ensures grows { OnOk result (Grows self.old.cells.items self.new.cells.items) }
        ensures there { IfOk result (λ places. HaveColumns self.new.cells.items places.items
            (length (joined_rows (S.tables store.now) (S.values_at store.now) block.now partners.now))) }
        ensures columns { IfOk result (λ places. AreColumnsOf self.new.cells.items places.items columns.now
            (joined_rows (S.tables store.now) (S.values_at store.now) block.now partners.now)) }
    {
        let mut places = Vec::with_capacity(alloc, columns.len())?;
        for column in columns {
            let place = self.place(alloc, store, block, partners, *column)?;
            places.push(place)?;
        }
        Ok(places)
    }
}

/// The index of a column among others; `None` if it is not there.
fn place_of(columns: &[Column], column: Column) -> Option<usize>
    ensures { IfSome result (λ place. (d : AnyColumn) → (place < length columns.now) × (slice_index_or columns.now place d ≡ column)) }
{
    for i in 0..columns.len() {
        if columns[i] == column {
            return Some(i);
        }
    }
    None
}
