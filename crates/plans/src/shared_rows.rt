//! What a block has for all plans that are alike: the rows that their rows are joined with, the
//! numbers of the rows' groups, and columns that were filled. It is computed once for all of them.

ghost use Rattle.std.specs.Prelude.{◌≡◌, ◌+◌, ◌^◌, ◌<◌, ◌++◌, [], true, Ok, length, IfOk, OnOk};
ghost use Rattle.rows.specs.Tables.{Rows, shape_in};
ghost use Rattle.queries.specs.Checking.{checked};
ghost use Rattle.plans.specs.Inner.BlockRows.{IsBlock, rows_of_block};
ghost use Rattle.plans.specs.Inner.Blocks.{IsNumbering, Extends, StaysIfKnown};
ghost use Rattle.plans.specs.Inner.Partnered.{AreSound, HaveKinds, AreFilled, Grows, joined_rows, joined_table};
ghost use Rattle.plans.specs.Inner.Scans.{IsScanned};
ghost use Rattle.plans.specs.Inner.Shared.{IsShared};
ghost use Rattle.plans.specs.Inner.Selections.{HaveInputs, AreValuesOf, columns_of, values_by};
ghost use Rattle.plans.specs.Inner.Shared.{HasInputKind, HaveInputKinds, IsInputOfRows};

use crate::adding::{Places, add_rows};
use crate::block::Block;
use crate::filled::Filled;
use crate::numbering::Numbering;
use crate::partners::{Partners, partners_if_joined};
use crate::row_numbers::number_rows;
use crate::tallies::Tallies;
use queries::laws::each_part_fits;
use queries::{Aggregate, Column, Condition, Plan};
use std::alloc::{AllocError, Global};
use store::Store;

/// What a block has for plans that are alike.
#[derive(Drop)]
pub struct SharedRows<'s, P: Copy> {
    /// The rows that the block's rows are joined with, if the plans join.
    partners: Option<Partners<P>>,
    /// Columns of the rows.
    filled: Filled<'s>,
    /// The numbers of the rows' groups.
    numbers: Vec<u32>,
}

/// What a block has for plans that are like this one; groups that are new get numbers. Fails only if
/// out of memory, or of numbers; nothing is then known of the numbering.
pub fn share_rows<'s, S: Store>(
    alloc: Global,
    store: &'s S,
    block: &Block,
    plan: &Plan,
    numbering: &mut Numbering,
) -> Result<SharedRows<'s, S::Place>, AllocError>
    requires whole { S.is_whole store.now ≡ true }
    requires block { IsBlock (S.tables store.now) block.now }
    requires table { block.now.table ≡ plan.now.table }
    requires checked { checked (shape_in (S.tables store.now)) plan.now ≡ Ok tt }
    requires numbering { IsNumbering numbering.old }
    ensures numbering { OnOk result (IsNumbering numbering.new) }
    ensures extends { OnOk result (Extends numbering.old.keys.items numbering.new.keys.items) }
    ensures stays { OnOk result (plan.now.groups ≡ [] → StaysIfKnown [] numbering.old.keys.items numbering.new.keys.items) }
    ensures shared { IfOk result (IsShared (S.tables store.now) (S.values_at store.now) block.now plan.now numbering.new.keys.items) }
{
    each_part_fits();
    let partners = partners_if_joined(alloc, store, block, plan.join)?;
    let mut filled = Filled::new(alloc);
    let places = filled.places(alloc, store, block, &partners, plan.groups.as_slice())?;
    let count = row_count(store, block, &partners);
    let numbers = number_rows(alloc, numbering, filled.cells(), places.as_slice(), count)?;
    Ok(SharedRows {
        partners,
        filled,
        numbers,
    })
}

/// How many rows a block has, or how many of them have a partner, if partners are given.
fn row_count<S: Store>(store: &S, block: &Block, partners: &Option<Partners<S::Place>>) -> usize
    requires { AreSound (S.tables store.now) (S.values_at store.now) block.now partners.now }
    ensures { result ≡ length (joined_rows (S.tables store.now) (S.values_at store.now) block.now partners.now) }
{
    let _ = store;
    match partners {
        None => block.ids.len(),
        Some(partners) => partners.positions.len(),
    }
}

/// Adds to the tallies of a plan, which have the rows of the block's piece before it, those of the
/// block's rows that it selects. Fails only if out of memory; nothing is then known of the tallies.
pub fn add_shared<'s, S: Store>(
    alloc: Global,
    store: &'s S,
    block: &Block,
    plan: &Plan,
    numbering: &Numbering,
    shared: &mut SharedRows<'s, S::Place>,
    tallies: &mut Tallies,
) -> Result<(), AllocError>
    requires whole { S.is_whole store.now ≡ true }
    requires block { IsBlock (S.tables store.now) block.now }
    requires table { block.now.table ≡ plan.now.table }
    requires checked { checked (shape_in (S.tables store.now)) plan.now ≡ Ok tt }
    requires numbering { IsNumbering numbering.now }
    requires shared { IsShared (S.tables store.now) (S.values_at store.now) block.now plan.now numbering.now.keys.items shared.old }
    requires scanned { (scanned : Rows)
        × IsScanned (S.tables store.now) plan.now numbering.now.keys.items scanned block.now.from tallies.old }
    requires few { block.now.from + length block.now.ids.now < 2 ^ 64 }
    ensures shared { OnOk result (IsShared (S.tables store.now) (S.values_at store.now) block.now plan.now numbering.now.keys.items
        shared.new) }
    ensures scanned { OnOk result ((scanned : Rows)
        → IsScanned (S.tables store.now) plan.now numbering.now.keys.items scanned block.now.from tallies.old
        → IsScanned (S.tables store.now) plan.now numbering.now.keys.items (scanned ++ rows_of_block (S.tables store.now) block.now)
        (block.now.from + length block.now.ids.now) tallies.new) }
{
    each_part_fits();
    tallies.grow(numbering.keys().len())?;
    let named = named_columns(alloc, plan.conditions.as_slice())?;
    let conditions = shared
        .filled
        .places(alloc, store, block, &shared.partners, named.as_slice())?;
    let aggregates = input_places(
        alloc,
        store,
        block,
        &shared.partners,
        plan.aggregates.as_slice(),
        &mut shared.filled,
    )?;
    let places = Places {
        conditions,
        aggregates,
    };
    add_rows(
        alloc,
        plan,
        shared.filled.cells(),
        &places,
        shared.numbers.as_slice(),
        tallies,
        block.from,
    )?;
    Ok(())
}

/// The columns that conditions are on. Fails only if out of memory.
fn named_columns(alloc: Global, conditions: &[Condition]) -> Result<Vec<Column>, AllocError>
    ensures { IfOk result (λ columns. columns.items ≡ columns_of conditions.now) }
{
    let mut columns = Vec::with_capacity(alloc, conditions.len())?;
    for condition in conditions {
        columns.push(condition.column)?;
    }
    Ok(columns)
}

/// The places of the columns of aggregates, each of which is filled if it was not; a count has none,
/// and gets any. Fails only if out of memory; nothing is then known of the columns.
fn input_places<'s, S: Store>(
    alloc: Global,
    store: &'s S,
    block: &Block,
    partners: &Option<Partners<S::Place>>,
    aggregates: &[Aggregate],
    filled: &mut Filled<'s>,
) -> Result<Vec<usize>, AllocError>
    requires whole { S.is_whole store.now ≡ true }
    requires block { IsBlock (S.tables store.now) block.now }
    requires partners { AreSound (S.tables store.now) (S.values_at store.now) block.now partners.now }
    requires columns { HaveInputKinds (S.tables store.now) block.now.table (joined_table partners.now) aggregates.now }
    requires filled { AreFilled (joined_rows (S.tables store.now) (S.values_at store.now) block.now partners.now) filled.old }
    ensures filled { OnOk result (AreFilled (joined_rows (S.tables store.now) (S.values_at store.now) block.now partners.now) filled.new) }
    ensures grows { OnOk result (Grows filled.old.cells.items filled.new.cells.items) }
    ensures there { IfOk result (λ places. HaveInputs filled.new.cells.items places.items
        (length (joined_rows (S.tables store.now) (S.values_at store.now) block.now partners.now)) aggregates.now) }
    ensures values { IfOk result (λ places. AreValuesOf (values_by filled.new.cells.items places.items) aggregates.now
        (joined_rows (S.tables store.now) (S.values_at store.now) block.now partners.now)) }
{
    let mut places = Vec::with_capacity(alloc, aggregates.len())?;
    for aggregate in aggregates {
        let place = input_place(alloc, store, block, partners, *aggregate, filled)?;
        places.push(place)?;
    }
    Ok(places)
}

/// The place of the column of an aggregate, which is filled if it was not.
fn input_place<'s, S: Store>(
    alloc: Global,
    store: &'s S,
    block: &Block,
    partners: &Option<Partners<S::Place>>,
    aggregate: Aggregate,
    filled: &mut Filled<'s>,
) -> Result<usize, AllocError>
    requires whole { S.is_whole store.now ≡ true }
    requires block { IsBlock (S.tables store.now) block.now }
    requires partners { AreSound (S.tables store.now) (S.values_at store.now) block.now partners.now }
    requires column { HasInputKind (S.tables store.now) block.now.table (joined_table partners.now) aggregate }
    requires filled { AreFilled (joined_rows (S.tables store.now) (S.values_at store.now) block.now partners.now) filled.old }
    ensures filled { OnOk result (AreFilled (joined_rows (S.tables store.now) (S.values_at store.now) block.now partners.now) filled.new) }
    ensures grows { OnOk result (Grows filled.old.cells.items filled.new.cells.items) }
    ensures place { IfOk result (λ place. IsInputOfRows filled.new.cells.items place
        (joined_rows (S.tables store.now) (S.values_at store.now) block.now partners.now) aggregate) }
{
    match aggregate {
        Aggregate::Count => Ok(0),
        Aggregate::Sum(column) => filled.place(alloc, store, block, partners, column),
        Aggregate::Min(column) => filled.place(alloc, store, block, partners, column),
        Aggregate::Max(column) => filled.place(alloc, store, block, partners, column),
    }
}
