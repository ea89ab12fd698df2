//! The rows that the rows of a block are joined with.

ghost use Rattle.std.specs.Prelude.{◌≡◌, ◌^◌, ◌<◌, length, true, None, slice_get, IsSome, IsNone, IfOk, IfSome};
ghost use Rattle.std.specs.List.{filter_map};
ghost use Rattle.std.specs.Option.{option_map};
ghost use Rattle.rows.specs.Tables.{kinds_of};
ghost use Rattle.queries.specs.declared.column.Column.TheVariants.{Own};
ghost use Rattle.queries.specs.Answers.{joined_with, values_in};
ghost use Rattle.plans.specs.Inner.BlockRows.{IsBlock, rows_of_block, own_rows};
ghost use Rattle.plans.specs.Inner.Cells.{values_of};
ghost use Rattle.plans.specs.Inner.Partnered.{IsJoining, AreJoined, AreSound, HasLink, joined_rows, joined_table, row_named};

use crate::answering::id_of;
use crate::block::{Block, own_cells};
use crate::cells::Cells;
use queries::Join;
use rows::Value;
use std::alloc::{AllocError, Global};
use store::Store;

/// The rows of a block that are joined, and the places of the rows that they are joined with.
#[derive(Drop)]
pub struct Partners<P: Copy> {
    /// The number of the table that is joined.
    pub table: u8,
    /// The positions among the block's rows, rising.
    pub positions: Vec<u32>,
    /// A place for each position.
    pub places: Vec<P>,
}

/// The partners of a block's rows by a join. Fails only if out of memory.
pub fn join_rows<S: Store>(
    alloc: Global,
    store: &S,
    block: &Block,
    join: Join,
) -> Result<Partners<S::Place>, AllocError>
    requires whole { S.is_whole store.now ≡ true }
    requires block { IsBlock (S.tables store.now) block.now }
    requires column { IsSome (slice_get (kinds_of (S.tables store.now) block.now.table) join.column) }
    ensures table { IfOk result (λ partners. partners.table ≡ join.table) }
    ensures joining { IfOk result (IsJoining (S.tables store.now) (S.values_at store.now) block.now) }
    ensures joined { IfOk result (AreJoined (S.tables store.now) (S.values_at store.now) block.now join) }
{
    let links = own_cells(alloc, store, block, join.column)?;
    let partners = pair_rows(alloc, store, block, &join, &links)?;
    Ok(partners)
}

/// The same, with the values by which the rows are joined.
fn pair_rows<S: Store>(
    alloc: Global,
    store: &S,
    block: &Block,
    join: &Join,
    links: &Cells,
) -> Result<Partners<S::Place>, AllocError>
    requires whole { S.is_whole store.now ≡ true }
    requires block { IsBlock (S.tables store.now) block.now }
    requires column { IsSome (slice_get (kinds_of (S.tables store.now) block.now.table) join.now.column) }
    requires links { values_of links.now ≡ values_in (Own join.now.column) (own_rows (S.tables store.now) block.now) }
    ensures table { IfOk result (λ partners. partners.table ≡ join.now.table) }
    ensures joining { IfOk result (IsJoining (S.tables store.now) (S.values_at store.now) block.now) }
    ensures joined { IfOk result (AreJoined (S.tables store.now) (S.values_at store.now) block.now join.now) }
{
    store.keeps_kinds();
    let mut positions = Vec::new(alloc);
    let mut places = Vec::new(alloc);
    for i in 0..block.ids.len() {
        if let Some(place) = partner_of(store, join.table, links.value(i)) {
            positions.push(i as u32)?;
            places.push(place)?;
        }
    }
    Ok(Partners {
        table: join.table,
        positions,
        places,
    })
}

/// The partners of a block's rows if they are joined. Fails only if out of memory.
pub fn partners_if_joined<S: Store>(
    alloc: Global,
    store: &S,
    block: &Block,
    join: Option<Join>,
) -> Result<Option<Partners<S::Place>>, AllocError>
    requires whole { S.is_whole store.now ≡ true }
    requires block { IsBlock (S.tables store.now) block.now }
    requires column { HasLink (S.tables store.now) block.now.table join }
    ensures table { IfOk result (λ partners. joined_table partners ≡ option_map (λ join. join.table) join) }
    ensures sound { IfOk result (AreSound (S.tables store.now) (S.values_at store.now) block.now) }
    ensures joined { IfOk result (λ partners. joined_rows (S.tables store.now) (S.values_at store.now) block.now partners
        ≡ filter_map (λ row. joined_with (S.tables store.now) join row.1) (rows_of_block (S.tables store.now) block.now)) }
{
    match join {
        None => Ok(None),
        Some(join) => {
            let partners = join_rows(alloc, store, block, join)?;
            Ok(Some(partners))
        }
    }
}

/// The place of the row of a table that a value names; `None` if it is not there.
fn partner_of<S: Store>(store: &S, table: u8, value: Value) -> Option<S::Place>
    requires { S.is_whole store.now ≡ true }
    ensures none { IsNone result → row_named (S.tables store.now) table value ≡ None }
    ensures some { IfSome result (λ place. S.values_at store.now table place ≡ row_named (S.tables store.now) table value) }
    ensures there { IfSome result (λ place. IsSome (row_named (S.tables store.now) table value)) }
{
    let id = id_of(value)?;
    store.find(table, id)
}
