//! Queries on a plain store: the text of their answers, which plans fit, and what refused memory
//! leaves. Lists of plans are statics, since a proof writes out each constant that its function names.

ghost use Rattle.std.specs.Prelude.{◌≡◌, true, Ok};
ghost use Rattle.std.specs.List.{AllByRecursion};
ghost use Rattle.rows.specs.Shape.{shape_of};
ghost use Rattle.rows.specs.Tables.{shape_in};
ghost use Rattle.queries.specs.Checking.{checked};

use crate::reports::{report_of, reported};
use queries::{Aggregate, Column, Plan, PlanFault};
use rows::Schema;
use scenarios_plans_common::wishes::{
    COUNT, Cell, Line, NE, NONE, SHOP, SUM, SW, UNFIT, WISHES, Wish, filled, plan_of, plans_of,
};
use std::alloc::{AllocError, Global};
use std::test::Fail;
use std::thread::Threads;
use store::PlainStore;

/// Accounts by the sites that their first column names: account 13 names one that is not there, and
/// account 14 none.
const ROWS: [Line; 7] = [
    Line(1, 1, [NE, NONE, NONE]),
    Line(1, 2, [SW, NONE, NONE]),
    Line(0, 10, [Cell::Number(1), Cell::Number(100), NONE]),
    Line(0, 11, [Cell::Number(2), Cell::Number(50), NONE]),
    Line(0, 12, [Cell::Number(1), Cell::Number(-30), NONE]),
    Line(0, 13, [Cell::Number(9), Cell::Number(7), NONE]),
    Line(0, 14, [Cell::Number(-1), Cell::Number(8), NONE]),
];

/// Two accounts with the greatest number there is.
const GREATEST: [Line; 2] = [
    Line(0, 1, [Cell::Number(i64::MAX), Cell::Number(0), NONE]),
    Line(0, 2, [Cell::Number(i64::MAX), Cell::Number(0), NONE]),
];

/// The report on them.
const REPORT: &[u8] = b"version 7 queries 5
query 0 rows 2
x4e45 2 70 100
x5357 1 50 50
query 1 rows 1
1 100
query 2 rows 0
query 3 rows 4
-1 1 8 8 8
1 2 70 -30 100
2 1 50 50 50
9 1 7 7 7
query 4 rows 1
x5357
";

/// The plans on accounts and sites.
static PLANS: [Wish<'static>; 5] = WISHES;

/// Plans that do not fit, each with its first fault.
static FAULTS: [(Wish<'static>, PlanFault); 17] = UNFIT;

/// What the first column of accounts comes to.
const FIRST_COLUMN: Wish<'static> = Wish {
    aggregates: &[
        Aggregate::Count,
        Aggregate::Sum(Column::Own(0)),
        Aggregate::Min(Column::Own(0)),
    ],
    ..COUNT
};

/// The report of those two.
const TWICE: &[u8] = b"version 7 queries 1
query 0 rows 1
18446744073709551614
";

/// The report of the first column of no account.
const OF_NONE: &[u8] = b"version 7 queries 1
query 0 rows 1
0 0 -
";

/// Whether the report of these plans on a store with these rows is this text.
fn is_reported<R: Threads + Sync>(
    rt: &R,
    alloc: Global,
    lines: &[Line],
    wishes: &[Wish<'_>],
    expected: &[u8],
) -> Result<bool, Fail> {
    let text = report_of(rt, alloc, SHOP, lines, wishes)?;
    Ok(text.as_slice() == expected)
}

#[test]
fn queries_are_answered(rt: HostRuntime) -> Result<(), Fail> {
    assert!(rt; is_reported(&rt, rt.alloc(), &ROWS, &PLANS, REPORT)?);
    Ok(())
}

/// Two of the greatest number there is, and no row.
#[test]
fn sums_are_exact(rt: HostRuntime) -> Result<(), Fail> {
    assert!(rt; is_reported(&rt, rt.alloc(), &GREATEST, &[SUM], TWICE)?);
    assert!(rt; is_reported(&rt, rt.alloc(), &[], &[FIRST_COLUMN], OF_NONE)?);
    Ok(())
}

/// Whether a plan is checked with this fault, by the schema and on a store.
fn is_refused(
    alloc: Global,
    schema: &Schema,
    store: &PlainStore,
    wish: &Wish<'_>,
    fault: PlanFault,
) -> Result<bool, AllocError>
    requires { store.now.whole ≡ true }
{
    let plan = plan_of(alloc, wish)?;
    Ok(plan.check(schema) == Err(fault) && plan.check_on(store) == Err(fault))
}

/// The index of the first plan that is checked otherwise than with its fault.
fn first_otherwise(
    alloc: Global,
    schema: &Schema,
    store: &PlainStore,
    unfit: &[(Wish<'_>, PlanFault)],
) -> Result<Option<usize>, AllocError>
    requires { store.now.whole ≡ true }
{
    for (index, (wish, fault)) in unfit.iter().enumerate() {
        if !is_refused(alloc, schema, store, wish, *fault)? {
            return Ok(Some(index));
        }
    }
    Ok(None)
}

/// The same of the plans that do not fit, by the kinds of accounts and sites.
fn first_fit(alloc: Global) -> Result<Option<usize>, Fail> {
    let schema = Schema::new(alloc, SHOP)?;
    let store = PlainStore::new(alloc, &schema)?;
    Ok(first_otherwise(alloc, &schema, &store, &FAULTS)?)
}

#[test]
fn plans_that_do_not_fit_are_refused(rt: HostRuntime) -> Result<(), Fail> {
    assert_eq!(rt; first_fit(rt.alloc())?, None);
    Ok(())
}

/// Whether the report on these plans is that on accounts and sites.
fn is_told<R: Threads + Sync>(
    rt: &R,
    alloc: Global,
    store: &PlainStore,
    plans: &[Plan],
) -> Result<bool, AllocError>
    requires whole { store.now.whole ≡ true }
    requires checked { AllByRecursion (λ plan. checked (shape_in store.now.tables) plan ≡ Ok tt) plans.now }
{
    let text = reported(rt, alloc, store, plans)?;
    Ok(text.as_slice() == REPORT)
}

/// The same, asked for once more where memory was refused to it.
fn is_told_at_last<R: Threads + Sync>(
    rt: &R,
    alloc: Global,
    store: &PlainStore,
    plans: &[Plan],
) -> bool
    requires whole { store.now.whole ≡ true }
    requires checked { AllByRecursion (λ plan. checked (shape_in store.now.tables) plan ≡ Ok tt) plans.now }
{
    match is_told(rt, alloc, store, plans) {
        Ok(is_same) => is_same,
        Err(_) => is_told(rt, alloc, store, plans).unwrap_or(false),
    }
}

/// The same of the plans on accounts and sites.
fn is_told_on<R: Threads + Sync>(
    rt: &R,
    alloc: Global,
    schema: &Schema,
    store: &PlainStore,
) -> Result<bool, Fail>
    requires whole { store.now.whole ≡ true }
    requires kinds { shape_in store.now.tables ≡ shape_of schema.now }
{
    let plans = plans_of(alloc, schema, &PLANS)?;
    Ok(is_told_at_last(rt, alloc, store, plans.as_slice()))
}

/// The same, on a store with the accounts and sites.
fn is_told_in<R: Threads + Sync>(rt: &R, alloc: Global, schema: &Schema) -> Result<bool, Fail> {
    let store = filled(alloc, schema, &ROWS)?;
    is_told_on(rt, alloc, schema, &store)
}

/// The same, by the kinds of accounts and sites.
fn is_told_anew<R: Threads + Sync>(rt: &R, alloc: Global) -> Result<bool, Fail> {
    let schema = Schema::new(alloc, SHOP)?;
    is_told_in(rt, alloc, &schema)
}

/// Whichever allocation is refused: answers that were refused for memory leave the store as it was,
/// and are given when they are asked for again.
#[test]
fn answers_without_memory_leave_the_store(rt: HostRuntime) -> Result<(), Fail> {
    assert!(rt; is_told_anew(&rt, rt.alloc())?);
    Ok(())
}
