//! Answering plans on a store.

ghost use Rattle.std.specs.Prelude.{◌≡◌, ◌+◌, ◌≤◌, ◌++◌, List, [], length, true, map, Ok, IsSome, IfOk, OnOk};
ghost use Rattle.std.specs.List.{All, AllByRecursion, list_all};
ghost use Rattle.std.specs.Option.{option_map, unwrap_or};
ghost use Rattle.rows.specs.Tables.{shape_in, rows_of, row_at};
ghost use Rattle.queries.specs.Checking.{checked};
ghost use Rattle.queries.specs.Answers.{JoinedRow, column_in, id_of, joined_with, meets, plain_answer};
ghost use Rattle.plans.specs.Inner.Kept.{GroupsAreKept, row_among, AreWithin, HasJoin};
ghost use Rattle.plans.specs.Inner.Places.{row_at_place};

use crate::comparing::{compare, passes};
use crate::distinct::{answers_at, distinct_of};
use crate::groups::Groups;
use crate::ranging::partial;
use crate::row_place::{RowPlace, joined_value};
use crate::together::lent_partial;
use queries::laws::each_part_fits;
use queries::{Answer, Condition, Plan};
use rows::{RowId, Value};
use std::alloc::{AllocError, Global};
use std::marker::Sync;
use std::thread::Threads;
use store::Store;

/// The answers of plans on the rows of a store, in their order. Each plan was checked against the
/// kinds of the store's tables, and the store is whole. It may use threads. Fails only if out of
/// memory, or of numbers for groups: there are 2 to the 32nd.
///
/// Costs: plans that are equal are answered once. Of each table one scan for all plans on it, where
/// the store lends its rows: each piece in a thread of its own if there can be one, each column of a
/// block once for all plans that take it. Where it does not, for each row one `id_at` for all plans
/// on its table, and for each plan and row one `find`, and one more if the plan joins.
pub fn answer_batch<S: Store + Sync, R: Threads + Sync>(
    rt: &R,
    alloc: Global,
    store: &S,
    plans: &[Plan],
) -> Result<Vec<Answer>, AllocError>
    requires whole { S.is_whole store.now ≡ true }
    requires checked { AllByRecursion (λ plan. checked (shape_in (S.tables store.now)) plan ≡ Ok tt) plans.now }
    ensures { IfOk result (λ answers. answers.items ≡ map (plain_answer (S.tables store.now)) plans.now) }
{
    let distinct = distinct_of(alloc, plans)?;
    if distinct.plans.len() == plans.len() {
        return answer_each(rt, alloc, store, plans);
    }
    let answers = answer_each(rt, alloc, store, distinct.plans.as_slice())?;
    let copies = answers_at(alloc, answers.as_slice(), distinct.places.as_slice())?;
    Ok(copies)
}

/// The same, whether or not some of the plans are equal.
fn answer_each<S: Store + Sync, R: Threads + Sync>(
    rt: &R,
    alloc: Global,
    store: &S,
    plans: &[Plan],
) -> Result<Vec<Answer>, AllocError>
    requires whole { S.is_whole store.now ≡ true }
    requires checked { AllByRecursion (λ plan. checked (shape_in (S.tables store.now)) plan ≡ Ok tt) plans.now }
    ensures { IfOk result (λ answers. answers.items ≡ map (plain_answer (S.tables store.now)) plans.now) }
{
    let most = longest(store, plans);
    if let Some(all) = lent_partial(rt, alloc, store, plans, most)? {
        return Ok(all.into_answers());
    }
    let all = partial(alloc, store, plans, 0, most)?;
    Ok(all.into_answers())
}

/// How many rows the longest of the plans' tables has.
fn longest<S: Store>(store: &S, plans: &[Plan]) -> usize
    requires { S.is_whole store.now ≡ true }
    ensures { All (λ plan. length (rows_of (S.tables store.now) plan.table) ≤ result) plans.now }
{
    let mut rows = 0;
    for plan in plans {
        rows = store.len(plan.table).max(rows);
    }
    rows
}

/// Adds the row of an identifier, if the plan selects it, to what was computed from this many rows
/// before it. Fails only if out of memory; nothing is then known of the groups.
pub fn take_row<S: Store>(
    alloc: Global,
    store: &S,
    plan: &Plan,
    id: RowId,
    count: usize,
    groups: &mut Groups,
) -> Result<(), AllocError>
    requires whole { S.is_whole store.now ≡ true }
    requires checked { checked (shape_in (S.tables store.now)) plan.now ≡ Ok tt }
    requires there { IsSome (row_at (rows_of (S.tables store.now) plan.now.table) id.0) }
    requires within { AreWithin count groups.old }
    ensures { OnOk result ((rows : List JoinedRow) → GroupsAreKept plan.now rows count groups.old
        → GroupsAreKept plan.now (rows ++ row_among (S.tables store.now) plan.now id.0) (count + 1) groups.new) }
{
    each_part_fits();
    store.keeps_kinds();
    let Some(place) = store.find(plan.table, id) else {
        unreachable!();
    };
    let Some(row) = joined_row(store, plan, place) else {
        return Ok(());
    };
    if !meets_all(store, &row, plan.conditions.as_slice()) {
        return Ok(());
    }
    groups.add(alloc, store, plan, &row, count)
}

/// The place of a row of the plan's table, with that of the row that it is joined with; `None` if
/// the latter is not there.
fn joined_row<S: Store>(store: &S, plan: &Plan, place: S::Place) -> Option<RowPlace<S::Place>>
    requires whole { S.is_whole store.now ≡ true }
    requires there { HasJoin plan.now.join (unwrap_or (S.values_at store.now plan.now.table place) []) }
    ensures { option_map (row_at_place (S.values_at store.now)) result
        ≡ joined_with (S.tables store.now) plan.now.join (unwrap_or (S.values_at store.now plan.now.table place) []) }
{
    let table = plan.table;
    let Some(join) = plan.join else {
        return Some(RowPlace {
            table,
            place,
            joined: None,
        });
    };
    let id = id_of(store.value(table, place, join.column as usize))?;
    let other = store.find(join.table, id)?;
    Some(RowPlace {
        table,
        place,
        joined: Some((join.table, other)),
    })
}

/// The identifier of a row that a value names; `None` if the value is negative, or not a number.
pub fn id_of(value: Value) -> Option<RowId>
    ensures { option_map (λ id. id.0) result ≡ id_of value }
{
    match value {
        Value::Int(number) => {
            if number < 0 {
                None
            } else {
                Some(RowId(number as u64))
            }
        }
        Value::Octets(_) => None,
    }
}

/// Whether a row meets all conditions.
fn meets_all<S: Store>(store: &S, row: &RowPlace<S::Place>, conditions: &[Condition]) -> bool
    requires whole { S.is_whole store.now ≡ true }
    requires there { AllByRecursion
        (λ condition. IsSome (column_in (row_at_place (S.values_at store.now) row.now) condition.column)) conditions.now }
    ensures { result ≡ list_all (meets (row_at_place (S.values_at store.now) row.now)) conditions.now }
{
    for condition in conditions {
        let value = joined_value(store, row, condition.column);
        if !passes(condition.comparison, compare(&value, &condition.value)) {
            return false;
        }
    }
    true
}
