//! The values of the columns of joined rows.

ghost use Rattle.std.specs.Prelude.{◌≡◌, true, IfOk};
ghost use Rattle.queries.specs.Answers.{values_in};
ghost use Rattle.plans.specs.Inner.Cells.{values_of};
ghost use Rattle.plans.specs.Inner.BlockRows.{IsBlock};
ghost use Rattle.plans.specs.Inner.Partnered.{AreSound, HasKind, HaveColumn, joined_rows, joined_table, column_at};

use crate::block::{Block, own_cells};
use crate::cells::{Cells, cells_of};
use crate::partners::Partners;
use queries::Column;
use rows::Value;
use std::alloc::{AllocError, Global};
use store::Store;

/// The values of a column of a block's rows, or of those of them that have a partner, if partners are
/// given. Fails only if out of memory.
pub fn column_cells<'s, S: Store>(
    alloc: Global,
    store: &'s S,
    block: &Block,
    partners: &Option<Partners<S::Place>>,
    column: Column,
) -> Result<Cells<'s>, AllocError>
    requires whole { S.is_whole store.now ≡ true }
    requires block { IsBlock (S.tables store.now) block.now }
    requires partners { AreSound (S.tables store.now) (S.values_at store.now) block.now partners.now }
    requires column { HasKind (S.tables store.now) block.now.table (joined_table partners.now) column }
    ensures { IfOk result (λ cells. values_of cells
        ≡ values_in column (joined_rows (S.tables store.now) (S.values_at store.now) block.now partners.now)) }
{
    match column {
        Column::Own(column) => {
            let cells = own_cells(alloc, store, block, column)?;
            match partners {
                None => Ok(cells),
                Some(partners) => Ok(cells.at(alloc, partners.positions.as_slice())?),
            }
        }
        Column::Joined(column) => match partners {
            None => unreachable!(),
            Some(partners) => {
                let values = partner_values(alloc, store, partners, column)?;
                let cells = cells_of(alloc, values)?;
                Ok(cells)
            }
        },
    }
}

/// The values of a column of the partners. Fails only if out of memory.
fn partner_values<S: Store>(
    alloc: Global,
    store: &S,
    partners: &Partners<S::Place>,
    column: u8,
) -> Result<Vec<Value>, AllocError>
    requires whole { S.is_whole store.now ≡ true }
    requires there { HaveColumn (S.values_at store.now partners.now.table) partners.now.places.items column }
    ensures { IfOk result (λ values. values.items
        ≡ column_at (S.values_at store.now partners.now.table) partners.now.places.items column) }
{
    let mut values = Vec::with_capacity(alloc, partners.places.len())?;
    for place in &partners.places {
        values.push(store.value(partners.table, *place, column as usize))?;
    }
    Ok(values)
}
