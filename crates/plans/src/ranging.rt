//! Scanning a range of positions of tables once for all plans on them.

ghost use Rattle.std.specs.Prelude.{◌≡◌, ℕ, ◌-◌, ◌<◌, ◌≤◌, true, length, map, slice_index_or, Ok, IsSome, IfOk, OnOk};
ghost use Rattle.std.specs.List.{AllByRecursion};
ghost use Rattle.rows.specs.Tables.{shape_in, rows_of, row_at};
ghost use Rattle.queries.specs.declared.plan.Plan.{Plan as AnyPlan};
ghost use Rattle.queries.specs.Checking.{checked};
ghost use Rattle.plans.specs.Partials.{IsPartial, rows_between};
ghost use Rattle.plans.specs.Inner.Kept.{GroupList, GroupsAreKept, AreWithin, opening_groups};
ghost use Rattle.plans.specs.Inner.Ranges.{TakesRow, LooksAt};

use crate::answering::take_row;
use crate::groups::Groups;
use crate::partials::Partial;
use queries::{AggregateList, Plan};
use rows::RowId;
use std::alloc::{AllocError, Global};
use store::{Store, rows_stand_in_order};

/// What plans compute of the rows at the positions from `from` to before `to` of the table of each,
/// counted from 0 in the order of the table's identifiers; positions past its end give nothing. Each
/// plan was checked against the kinds of the store's tables, the store is whole, and `from` is at most
/// `to`. Fails only if out of memory.
///
/// Costs: for each row of a table one `id_at` for all plans on it; for each plan and row one `find`,
/// and one more if the plan joins.
pub fn partial<S: Store>(
    alloc: Global,
    store: &S,
    plans: &[Plan],
    from: usize,
    to: usize,
) -> Result<Partial, AllocError>
    requires whole { S.is_whole store.now ≡ true }
    requires checked { AllByRecursion (λ plan. checked (shape_in (S.tables store.now)) plan ≡ Ok tt) plans.now }
    requires order { from ≤ to }
    ensures { IfOk result (λ partial. IsPartial (S.tables store.now) plans.now from to partial) }
{
    let mut groups = openings(alloc, plans)?;
    scan(alloc, store, plans, from, to, groups.as_mut_slice())?;
    Partial::of(alloc, aggregates_of(alloc, plans)?, groups, to - from)
}

/// The aggregates of each plan. Fails only if out of memory.
pub fn aggregates_of(alloc: Global, plans: &[Plan]) -> Result<Vec<AggregateList>, AllocError>
    ensures { IfOk result (λ lists. lists.items ≡ map (λ plan. plan.aggregates) plans.now) }
{
    let mut lists = Vec::with_capacity(alloc, plans.len())?;
    for plan in plans {
        let list = Vec::from_slice(alloc, plan.aggregates.as_slice())?;
        lists.push(AggregateList::from_vec(list))?;
    }
    Ok(lists)
}

/// The groups of each plan before any row. Fails only if out of memory.
pub fn openings(alloc: Global, plans: &[Plan]) -> Result<Vec<Groups>, AllocError>
    ensures { IfOk result (λ groups. groups.items ≡ map opening_groups plans.now) }
{
    let mut groups = Vec::with_capacity(alloc, plans.len())?;
    for plan in plans {
        groups.push(Groups::new(alloc, plan)?)?;
    }
    Ok(groups)
}

/// Adds the rows at these positions of the table of each plan to the groups that it has before any
/// row. Fails only if out of memory; nothing is then known of the groups.
fn scan<S: Store>(
    alloc: Global,
    store: &S,
    plans: &[Plan],
    from: usize,
    to: usize,
    groups: &mut [Groups],
) -> Result<(), AllocError>
    requires whole { S.is_whole store.now ≡ true }
    requires checked { AllByRecursion (λ plan. checked (shape_in (S.tables store.now)) plan ≡ Ok tt) plans.now }
    requires order { from ≤ to }
    requires opening { groups.old ≡ map opening_groups plans.now }
    ensures { OnOk result ((k : ℕ) (d : AnyPlan) (e : GroupList) → k < length plans.now
        → GroupsAreKept (slice_index_or plans.now k d) (rows_between (S.tables store.now) from to (slice_index_or plans.now k d))
        (to - from) (slice_index_or groups.new k e)) }
{
    let mut scanned = [false; 256];
    for plan in plans {
        let table = plan.table;
        if scanned[table as usize] {
            continue;
        }
        scan_table(alloc, store, plans, table, from, to, groups)?;
        scanned[table as usize] = true;
    }
    Ok(())
}

/// Adds the rows at these positions of a table to the groups of the plans on it, which have none yet.
/// Fails only if out of memory; nothing is then known of the groups.
fn scan_table<S: Store>(
    alloc: Global,
    store: &S,
    plans: &[Plan],
    table: u8,
    from: usize,
    to: usize,
    groups: &mut [Groups],
) -> Result<(), AllocError>
    requires whole { S.is_whole store.now ≡ true }
    requires checked { AllByRecursion (λ plan. checked (shape_in (S.tables store.now)) plan ≡ Ok tt) plans.now }
    requires order { from ≤ to }
    requires sizes { length groups.old ≡ length plans.now }
    requires opening { (k : ℕ) (d : AnyPlan) (e : GroupList) → k < length plans.now → (slice_index_or plans.now k d).table ≡ table
        → slice_index_or groups.old k e ≡ opening_groups (slice_index_or plans.now k d) }
    ensures { OnOk result ((k : ℕ) (d : AnyPlan) (e : GroupList) → k < length plans.now
        → LooksAt (S.tables store.now) (slice_index_or plans.now k d) table from to (slice_index_or groups.old k e)
        (slice_index_or groups.new k e)) }
{
    rows_stand_in_order();
    let end = to.min(store.len(table));
    for i in from..end {
        let id = store.id_at(table, i);
        take_row_each(alloc, store, plans, table, id, i - from, groups)?;
    }
    Ok(())
}

/// Adds the row of an identifier to what each plan on its table computed from this many rows before it.
/// Fails only if out of memory; nothing is then known of the groups.
fn take_row_each<S: Store>(
    alloc: Global,
    store: &S,
    plans: &[Plan],
    table: u8,
    id: RowId,
    count: usize,
    groups: &mut [Groups],
) -> Result<(), AllocError>
    requires whole { S.is_whole store.now ≡ true }
    requires checked { AllByRecursion (λ plan. checked (shape_in (S.tables store.now)) plan ≡ Ok tt) plans.now }
    requires there { IsSome (row_at (rows_of (S.tables store.now) table) id.0) }
    requires sizes { length groups.old ≡ length plans.now }
    requires within { (k : ℕ) (d : AnyPlan) (e : GroupList) → k < length plans.now → (slice_index_or plans.now k d).table ≡ table
        → AreWithin count (slice_index_or groups.old k e) }
    ensures { OnOk result ((k : ℕ) (d : AnyPlan) (e : GroupList) → k < length plans.now
        → TakesRow (S.tables store.now) (slice_index_or plans.now k d) table id.0 count (slice_index_or groups.old k e)
        (slice_index_or groups.new k e)) }
{
    for k in 0..plans.len() {
        take_row_of(alloc, store, &plans[k], table, id, count, &mut groups[k])?;
    }
    Ok(())
}

/// The same for one plan. Fails only if out of memory; nothing is then known of the groups.
fn take_row_of<S: Store>(
    alloc: Global,
    store: &S,
    plan: &Plan,
    table: u8,
    id: RowId,
    count: usize,
    groups: &mut Groups,
) -> Result<(), AllocError>
    requires whole { S.is_whole store.now ≡ true }
    requires checked { checked (shape_in (S.tables store.now)) plan.now ≡ Ok tt }
    requires there { IsSome (row_at (rows_of (S.tables store.now) table) id.0) }
    requires within { plan.now.table ≡ table → AreWithin count groups.old }
    ensures { OnOk result (TakesRow (S.tables store.now) plan.now table id.0 count groups.old groups.new) }
{
    if plan.table != table {
        return Ok(());
    }
    take_row(alloc, store, plan, id, count, groups)
}
