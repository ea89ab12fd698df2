//! Blocks of a table's rows, and the values of their columns.

ghost use Rattle.std.specs.Prelude.{◌≡◌, List, length, map, true, Option, Some, slice_get, IsSome, IfOk, IfSome};
ghost use Rattle.rows.specs.declared.value.Value.{Value as ColumnValue};
ghost use Rattle.rows.specs.Tables.{kinds_of, rows_of, row_at};
ghost use Rattle.store.specs.Changes.{column_of};
ghost use Rattle.store.specs.Lent.{octets_in, AreLent};
ghost use Rattle.queries.specs.declared.column.Column.TheVariants.{Own};
ghost use Rattle.queries.specs.Answers.{values_in};
ghost use Rattle.plans.specs.Inner.Cells.{values_of};
ghost use Rattle.plans.specs.Inner.BlockRows.{IsBlock, own_rows};

use crate::cells::{Cells, cells_of};
use rows::{Octets, RowId, Value};
use std::alloc::{AllocError, Global};
use store::{Lent, Store};

/// Rows of a table: those of these identifiers, each of which is there.
#[derive(Clone, Copy)]
pub struct Block<'s> {
    /// The number of the table.
    pub table: u8,
    /// Whether they are also so many rows of a piece, in its order, from an index on: a store may
    /// then lend their values.
    pub lends: bool,
    /// In how many pieces the store lends the table's rows.
    pub pieces: usize,
    pub piece: usize,
    /// How many rows of the piece are before the block.
    pub from: usize,
    pub ids: &'s [u64],
}

/// The values of a column of a block's rows: numbers as the store lends them, where it does. Fails
/// only if out of memory.
pub fn own_cells<'s, S: Store>(
    alloc: Global,
    store: &'s S,
    block: &Block,
    column: u8,
) -> Result<Cells<'s>, AllocError>
    requires whole { S.is_whole store.now ≡ true }
    requires block { IsBlock (S.tables store.now) block.now }
    requires column { IsSome (slice_get (kinds_of (S.tables store.now) block.now.table) column) }
    ensures { IfOk result (λ cells. values_of cells ≡ values_in (Own column) (own_rows (S.tables store.now) block.now)) }
{
    if block.lends {
        if let Some(cells) = lent_cells(alloc, store, block, column)? {
            return Ok(cells);
        }
    }
    let values = found_values(alloc, store, block, column)?;
    let cells = cells_of(alloc, values)?;
    Ok(cells)
}

/// The values as the store lends them; `None` if it does not. Fails only if out of memory.
fn lent_cells<'s, S: Store>(
    alloc: Global,
    store: &'s S,
    block: &Block,
    column: u8,
) -> Result<Option<Cells<'s>>, AllocError>
    requires whole { S.is_whole store.now ≡ true }
    requires block { IsBlock (S.tables store.now) block.now }
    requires lends { block.now.lends ≡ true }
    ensures { IfOk result (λ cells. IfSome cells
        (λ cells. values_of cells ≡ values_in (Own column) (own_rows (S.tables store.now) block.now))) }
{
    let count = block.ids.len();
    let Some(lent) = store.column_from(
        block.table,
        block.pieces,
        block.piece,
        block.from,
        count,
        column as usize,
    ) else {
        return Ok(None);
    };
    let found = cells_of_lent(alloc, lent, count)?;
    match found {
        Some(cells) => Ok(Some(cells)),
        None => Ok(None),
    }
}

/// So many values that are lent; `None` if they are octets that are too wide for a value. Fails only
/// if out of memory.
fn cells_of_lent<'s>(
    alloc: Global,
    lent: Lent<'s>,
    count: usize,
) -> Result<Option<Cells<'s>>, AllocError>
    ensures { IfOk result (λ cells. IfSome cells (λ cells. (column : List (Option ColumnValue)) → length column ≡ count
        → AreLent column lent.entry → map Some (values_of cells) ≡ column)) }
{
    match lent {
        Lent::Numbers(numbers) => Ok(Some(Cells::Lent(numbers))),
        Lent::Octets { width, bytes } => {
            let found = octet_values(alloc, width, bytes, count)?;
            match found {
                Some(values) => Ok(Some(Cells::Values(values))),
                None => Ok(None),
            }
        }
    }
}

/// So many values of one width that lie side by side; `None` if there are not so many, or if they are
/// too wide for a value. Fails only if out of memory.
fn octet_values(
    alloc: Global,
    width: usize,
    bytes: &[u8],
    count: usize,
) -> Result<Option<Vec<Value>>, AllocError>
    ensures { IfOk result (λ values. IfSome values (λ values. values.items ≡ octets_in count width bytes.now)) }
{
    let mut values = Vec::with_capacity(alloc, count)?;
    let mut rest = bytes;
    for row in 0..count {
        let _ = row;
        if rest.len() < width {
            return Ok(None);
        }
        let (front, others) = rest.split_at(width);
        let Some(octets) = Octets::from_slice(front) else {
            return Ok(None);
        };
        values.push(Value::Octets(octets))?;
        rest = others;
    }
    Ok(Some(values))
}

/// The values row by row. Fails only if out of memory.
fn found_values<S: Store>(
    alloc: Global,
    store: &S,
    block: &Block,
    column: u8,
) -> Result<Vec<Value>, AllocError>
    requires whole { S.is_whole store.now ≡ true }
    requires block { IsBlock (S.tables store.now) block.now }
    requires column { IsSome (slice_get (kinds_of (S.tables store.now) block.now.table) column) }
    ensures { IfOk result (λ values. values.items ≡ values_in (Own column) (own_rows (S.tables store.now) block.now)) }
{
    store.keeps_kinds();
    let mut values = Vec::with_capacity(alloc, block.ids.len())?;
    for id in block.ids {
        values.push(found_value(store, block.table, RowId(*id), column))?;
    }
    Ok(values)
}

/// The value of a column of the row of an identifier.
fn found_value<S: Store>(store: &S, table: u8, id: RowId, column: u8) -> Value
    requires whole { S.is_whole store.now ≡ true }
    requires there { IsSome (column_of (row_at (rows_of (S.tables store.now) table) id.0) column) }
    ensures { Some result ≡ column_of (row_at (rows_of (S.tables store.now) table) id.0) column }
{
    match store.find(table, id) {
        Some(place) => store.value(table, place, column as usize),
        None => unreachable!(),
    }
}
