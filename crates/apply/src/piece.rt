//! The rows of one table in one partition.

ghost use Rattle.std.specs.Prelude.{◌≡◌, ◌+◌, ◌<◌, ◌≤◌, [], length, Some, IfSome, is_some, slice_get};
ghost use Rattle.std.specs.Option.{option_map};
ghost use Rattle.std.specs.Map.{keys_of};
ghost use Rattle.rows.specs.Tables.{row_at, is_present};
ghost use Rattle.store.specs.Lent.{rows_from, column_in, AreLent};
ghost use Rattle.apply.specs.Blocks.{cell_in, narrower};
ghost use Rattle.apply.specs.Limits.{rows_max};
ghost use Rattle.apply.specs.Orders.{AllUnder, place_in};

use crate::block::Block;
use crate::sequence::{
    column_from, contains, find, greatest, ids_from, patch_row, place, put_row, remove_row,
    rows_before, value,
};
use crate::widening::{add_column, drop_column};
use rows::{Kind, KindList, Value};
use std::alloc::{AllocError, Global};
use std::marker::Model;
use store::{Lent, TableRows};

/// How many rows a piece has at most.
const ROWS_MAX: usize = 1 << 57;

/// The rows of one table, as blocks of columns. Contracts see the kinds of its columns, which are
/// allowed for a table, and its rows in rising identifier.
#[derive(Drop)]
pub struct Piece {
    kinds: KindList,
    blocks: Vec<Block>,
    /// How many rows there are up to the end of each block.
    ends: Vec<usize>,
}

impl Model for Piece {
    ghost use Rattle.rows.specs.Tables.{Table};

    ghost Value = { Table };

    ghost use Rattle.apply.specs.Inner.Pieces.{table_of_piece, IsPiece};

    ghost view = { table_of_piece };

    ghost invariant = { IsPiece };
}

impl Piece {
    /// Whether the row is there.
    pub fn contains(&self, row: u64) -> bool
        ensures { result ≡ is_present self.now.rows row }
    {
        contains(self.blocks.as_slice(), row)
    }

    /// How many rows there are: at most 2^57.
    pub fn len(&self) -> usize
        ensures value { result ≡ length self.now.rows }
        ensures few { result ≤ rows_max }
    {
        rows_before(self.ends.as_slice(), self.ends.len())
    }

    /// How many rows have an identifier below this one.
    pub fn place(&self, row: u64) -> usize
        ensures value { result ≡ place_in self.now.rows row }
        ensures few { result ≤ rows_max }
    {
        place(self.blocks.as_slice(), self.ends.as_slice(), row)
    }

    /// An upper bound of the identifiers of its rows: the greatest, or 0 if there is no row.
    pub fn greatest(&self) -> u64
        ensures { AllUnder (result + 1) self.now.rows }
    {
        greatest(self.blocks.as_slice())
    }

    /// The position of a row among its rows; `None` if it is not there.
    pub fn find(&self, row: u64) -> Option<usize>
        ensures found { is_some result ≡ is_present self.now.rows row }
        ensures values { IfSome result (λ at. option_map (λ found. found.1) (slice_get self.now.rows at) ≡ row_at self.now.rows row) }
    {
        find(self.blocks.as_slice(), self.ends.as_slice(), row)
    }

    /// The value of one column of the row at a position, columns being counted from 0.
    pub fn value(&self, at: usize, column: usize) -> Value
        requires within { at < length self.now.rows }
        requires column { column < length self.now.kinds }
        ensures { Some result ≡ cell_in self.now.rows at column }
    {
        value(
            self.blocks.as_slice(),
            self.ends.as_slice(),
            self.kinds.as_slice(),
            at,
            column,
        )
    }

    /// The identifiers of rows from a position on, lent: those of one block from there on, and none
    /// only if there is no row from there on.
    pub fn ids_from(&self, from: usize) -> &[u64]
        ensures value { result.now ≡ keys_of (rows_from self.now.rows from (length result.now)) }
        ensures all { result.now ≡ [] → length self.now.rows ≤ from }
    {
        if from >= self.len() {
            return &[];
        }
        ids_from(self.blocks.as_slice(), self.ends.as_slice(), from)
    }

    /// The values of one column of this many rows from a position on, lent; columns are counted
    /// from 0. `None` if there is no such column or no row at the position, or if the rows are not
    /// all in one block.
    pub fn column_from(&self, from: usize, count: usize, column: usize) -> Option<Lent<'_>>
        ensures { IfSome result (AreLent (column_in (rows_from self.now.rows from count) column)) }
    {
        if from >= self.len() || column >= self.kinds.as_slice().len() {
            return None;
        }
        column_from(
            self.blocks.as_slice(),
            self.ends.as_slice(),
            self.kinds.as_slice(),
            from,
            count,
            column,
        )
    }

    /// Drops the last of several columns. Takes no memory.
    pub fn drop_column(&mut self)
        requires { 1 < length self.old.kinds }
        ensures { self.new ≡ narrower self.old }
    {
        self.kinds.pop();
        drop_column(self.blocks.as_mut_slice());
    }
}

impl TableRows for Piece {
    ghost table = { λ p. p };

    /// A table with columns of these kinds, and without rows. Fails only if out of memory.
    fn empty(alloc: Global, kinds: &[Kind]) -> Result<Piece, AllocError> {
        Ok(Piece {
            kinds: KindList::from_slice(alloc, kinds)?,
            blocks: Vec::new(alloc),
            ends: Vec::new(alloc),
        })
    }

    /// The kinds of its columns, lent.
    fn kinds(&self) -> &[Kind] {
        self.kinds.as_slice()
    }

    /// Inserts a row, given by its bytes, and answers whether it is new. A piece with 2^57 rows also
    /// reports that it is out of memory.
    fn insert(&mut self, alloc: Global, row: u64, bytes: &[u8]) -> Result<bool, AllocError> {
        if self.len() == ROWS_MAX {
            return if self.contains(row) {
                Ok(false)
            } else {
                Err(AllocError)
            };
        }
        put_row(
            alloc,
            &mut self.blocks,
            &mut self.ends,
            self.kinds.as_slice(),
            row,
            bytes,
        )
    }

    /// Puts bytes in place of one column's of a row, and answers whether the row is there. If the
    /// bytes are not exactly one column's, nothing changes. Takes no memory.
    fn patch(&mut self, row: u64, offset: u16, bytes: &[u8]) -> bool {
        patch_row(
            self.blocks.as_mut_slice(),
            self.kinds.as_slice(),
            row,
            offset,
            bytes,
        )
    }

    /// Deletes a row, and answers whether it was there. Takes no memory.
    fn remove(&mut self, row: u64) -> bool {
        remove_row(&mut self.blocks, &mut self.ends, self.kinds.as_slice(), row)
    }

    /// Adds a column with this value in each row, to each of its blocks.
    fn add_column(&mut self, alloc: Global, default: Value) -> Result<(), AllocError> {
        let kinds = self.kinds.with(alloc, default.kind())?;
        add_column(alloc, self.blocks.as_mut_slice(), &default)?;
        self.kinds = kinds;
        Ok(())
    }

    /// Deletes all rows, and all columns but the first so many. No block is left.
    fn clear(&mut self, columns: usize) {
        self.kinds.truncate(columns);
        self.blocks.clear();
        self.ends.clear();
    }
}
