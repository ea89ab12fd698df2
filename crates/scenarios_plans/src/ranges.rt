//! Queries on a range of positions of a table, and on two ranges that are merged. Lists of cases are statics,
//! since a proof writes out each constant that its function names.

ghost use Rattle.std.specs.Prelude.{◌≡◌, ◌≤◌, ◌-◌, true, Ok, IfOk};
ghost use Rattle.std.specs.List.{AllByRecursion};
ghost use Rattle.rows.specs.Shape.{shape_of};
ghost use Rattle.rows.specs.Tables.{shape_in};
ghost use Rattle.queries.specs.Checking.{checked};

use plans::{Partial, merge, partial};
use queries::{Aggregate, Column, Plan, report};
use rows::Schema;
use scenarios_plans_common::wishes::{COUNT, Cell, Line, NONE, SHOP, Wish, filled, plans_of};
use std::alloc::{AllocError, Global};
use std::test::Fail;
use store::PlainStore;

/// How many accounts there are.
pub const ACCOUNTS: u32 = 5_000;

/// The accounts by their second column: how many there are, and the sum of the first.
pub const BY_SECOND: Wish<'static> = Wish {
    groups: &[Column::Own(1)],
    aggregates: &[Aggregate::Count, Aggregate::Sum(Column::Own(0))],
    ..COUNT
};

/// The report of all accounts.
const GROUPS: &[u8] = b"version 7 queries 1
query 0 rows 7
0 715 1786785
1 715 1787500
2 714 1783215
3 714 1783929
4 714 1784643
5 714 1785357
6 714 1786071
";

/// How many accounts there are, and the least and the greatest of the first column.
const EXTREMES: Wish<'static> = Wish {
    aggregates: &[
        Aggregate::Count,
        Aggregate::Min(Column::Own(0)),
        Aggregate::Max(Column::Own(0)),
    ],
    ..COUNT
};

/// The report of both on the first 14 of them.
const FEW: &[u8] = b"version 7 queries 2
query 0 rows 7
0 2 7
1 2 9
2 2 11
3 2 13
4 2 15
5 2 17
6 2 19
query 1 rows 1
14 0 13
";

/// The report of both on no row.
const NO_ROWS: &[u8] = b"version 7 queries 2
query 0 rows 0
query 1 rows 1
0 - -
";

/// So many accounts: that of number i has i, and the remainder of i divided by 7.
fn accounts(alloc: Global, count: u32) -> Result<Vec<Line>, AllocError> {
    let mut lines = Vec::new(alloc);
    for id in 0..count {
        let number = Cell::Number(i64::from(id));
        let remainder = Cell::Number(i64::from(id % 7));
        lines.push(Line(0, u64::from(id), [number, remainder, NONE]))?;
    }
    Ok(lines)
}

/// The report on no plan.
const NO_PLANS: &[u8] = b"version 7 queries 0\n";

/// A store of so many accounts.
pub fn stocked(alloc: Global, schema: &Schema, count: u32) -> Result<PlainStore, Fail>
    ensures whole { IfOk result (λ store. store.whole ≡ true) }
    ensures kinds { IfOk result (λ store. shape_in store.tables ≡ shape_of schema.now) }
{
    let lines = accounts(alloc, count)?;
    filled(alloc, schema, lines.as_slice())
}

/// What is asked of the positions of a table.
#[derive(Clone, Copy)]
enum Asked {
    /// Those before one and those from there to 9,000, merged.
    Cut(usize),
    /// Those up to 9,000, cut at 5 and 9, the first two of which are merged first.
    FromTheLeft,
    /// The same, the last two of which are merged first.
    FromTheRight,
    /// Those from one to before a later one.
    Range(usize, usize),
}

/// Two ranges that meet at a position, merged.
fn merged(
    alloc: Global,
    store: &PlainStore,
    plans: &[Plan],
    from: usize,
    middle: usize,
    to: usize,
) -> Result<Partial, AllocError>
    requires whole { store.now.whole ≡ true }
    requires checked { AllByRecursion (λ plan. checked (shape_in store.now.tables) plan ≡ Ok tt) plans.now }
    requires before { from ≤ middle }
    requires behind { middle ≤ to }
    ensures { IfOk result (λ both. both.positions ≡ to - from) }
{
    let first = partial(alloc, store, plans, from, middle)?;
    let second = partial(alloc, store, plans, middle, to)?;
    merge(alloc, first, second)
}

/// Three ranges, the first two of which are merged first.
fn merged_from_the_left(
    alloc: Global,
    store: &PlainStore,
    plans: &[Plan],
) -> Result<Partial, AllocError>
    requires whole { store.now.whole ≡ true }
    requires checked { AllByRecursion (λ plan. checked (shape_in store.now.tables) plan ≡ Ok tt) plans.now }
{
    let left = merged(alloc, store, plans, 0, 5, 9)?;
    let third = partial(alloc, store, plans, 9, 9_000)?;
    merge(alloc, left, third)
}

/// The same, the last two of which are merged first.
fn merged_from_the_right(
    alloc: Global,
    store: &PlainStore,
    plans: &[Plan],
) -> Result<Partial, AllocError>
    requires whole { store.now.whole ≡ true }
    requires checked { AllByRecursion (λ plan. checked (shape_in store.now.tables) plan ≡ Ok tt) plans.now }
{
    let first = partial(alloc, store, plans, 0, 5)?;
    let right = merged(alloc, store, plans, 5, 9, 9_000)?;
    merge(alloc, first, right)
}

/// What is asked of a store.
fn answered(
    alloc: Global,
    store: &PlainStore,
    plans: &[Plan],
    asked: Asked,
) -> Result<Partial, AllocError>
    requires whole { store.now.whole ≡ true }
    requires checked { AllByRecursion (λ plan. checked (shape_in store.now.tables) plan ≡ Ok tt) plans.now }
{
    match asked {
        Asked::Cut(cut) => merged(alloc, store, plans, 0, cut.min(9_000), 9_000),
        Asked::FromTheLeft => merged_from_the_left(alloc, store, plans),
        Asked::FromTheRight => merged_from_the_right(alloc, store, plans),
        Asked::Range(from, to) => partial(alloc, store, plans, from.min(to), to),
    }
}

/// Its report.
fn report_of(
    alloc: Global,
    store: &PlainStore,
    plans: &[Plan],
    asked: Asked,
) -> Result<Vec<u8>, AllocError>
    requires whole { store.now.whole ≡ true }
    requires checked { AllByRecursion (λ plan. checked (shape_in store.now.tables) plan ≡ Ok tt) plans.now }
{
    let all = answered(alloc, store, plans, asked)?;
    report(alloc, 7, all.answers())
}

/// Whether the report is this text.
fn is_reported(
    alloc: Global,
    store: &PlainStore,
    plans: &[Plan],
    asked: Asked,
    expected: &[u8],
) -> Result<bool, AllocError>
    requires whole { store.now.whole ≡ true }
    requires checked { AllByRecursion (λ plan. checked (shape_in store.now.tables) plan ≡ Ok tt) plans.now }
{
    let text = report_of(alloc, store, plans, asked)?;
    Ok(text.as_slice() == expected)
}

/// The same, asked for once more where memory was refused to it.
fn is_reported_at_last(
    alloc: Global,
    store: &PlainStore,
    plans: &[Plan],
    asked: Asked,
    expected: &[u8],
) -> bool
    requires whole { store.now.whole ≡ true }
    requires checked { AllByRecursion (λ plan. checked (shape_in store.now.tables) plan ≡ Ok tt) plans.now }
{
    match is_reported(alloc, store, plans, asked, expected) {
        Ok(is_same) => is_same,
        Err(_) => is_reported(alloc, store, plans, asked, expected).unwrap_or(false),
    }
}

/// What is asked of a store, and its report.
type Case = (Asked, &'static [u8]);

/// The index of the first case that is reported otherwise.
fn other_reported(
    alloc: Global,
    store: &PlainStore,
    plans: &[Plan],
    cases: &[Case],
) -> Option<usize>
    requires whole { store.now.whole ≡ true }
    requires checked { AllByRecursion (λ plan. checked (shape_in store.now.tables) plan ≡ Ok tt) plans.now }
{
    for (index, (asked, expected)) in cases.iter().enumerate() {
        if !is_reported_at_last(alloc, store, plans, *asked, expected) {
            return Some(index);
        }
    }
    None
}

/// The same of the plans that are wished for.
fn other_on(
    alloc: Global,
    schema: &Schema,
    store: &PlainStore,
    wishes: &[Wish<'_>],
    cases: &[Case],
) -> Result<Option<usize>, Fail>
    requires whole { store.now.whole ≡ true }
    requires kinds { shape_in store.now.tables ≡ shape_of schema.now }
{
    let plans = plans_of(alloc, schema, wishes)?;
    Ok(other_reported(alloc, store, plans.as_slice(), cases))
}

/// The same, on a store of so many accounts.
fn other_in(
    alloc: Global,
    schema: &Schema,
    count: u32,
    wishes: &[Wish<'_>],
    cases: &[Case],
) -> Result<Option<usize>, Fail> {
    let store = stocked(alloc, schema, count)?;
    other_on(alloc, schema, &store, wishes, cases)
}

/// The same, by the kinds of accounts and sites.
fn other_of(
    alloc: Global,
    count: u32,
    wishes: &[Wish<'_>],
    cases: &[Case],
) -> Result<Option<usize>, Fail> {
    let schema = Schema::new(alloc, SHOP)?;
    other_in(alloc, &schema, count, wishes, cases)
}

/// Both plans.
static BOTH: [Wish<'static>; 2] = [BY_SECOND, EXTREMES];

/// All accounts, cut in the middle.
static HALVES: [Case; 1] = [(Asked::Cut(2_500), GROUPS)];

#[test]
fn ranges_are_merged(rt: HostRuntime) -> Result<(), Fail> {
    assert_eq!(rt; other_of(rt.alloc(), ACCOUNTS, &BOTH[..1], &HALVES)?, None);
    Ok(())
}

/// Cuts before all rows, between them and behind them, and two cuts.
static CUTS: [Case; 9] = [
    (Asked::Cut(0), FEW),
    (Asked::Cut(1), FEW),
    (Asked::Cut(5), FEW),
    (Asked::Cut(13), FEW),
    (Asked::Cut(14), FEW),
    (Asked::Cut(100), FEW),
    (Asked::Cut(9_000), FEW),
    (Asked::FromTheLeft, FEW),
    (Asked::FromTheRight, FEW),
];

/// Wherever the positions are cut, before all rows, between them or behind them, the report is the same.
#[test]
fn a_cut_makes_no_difference(rt: HostRuntime) -> Result<(), Fail> {
    assert_eq!(rt; other_of(rt.alloc(), 14, &BOTH, &CUTS)?, None);
    Ok(())
}

/// A range without a position, and one past the end of 14 rows.
static OUTSIDE: [Case; 2] = [
    (Asked::Range(3, 3), NO_ROWS),
    (Asked::Range(14, usize::MAX), NO_ROWS),
];

/// All positions there may be.
static ALL: [Case; 1] = [(Asked::Range(0, usize::MAX), NO_ROWS)];

/// Those of 14 rows, of which no plan asks anything.
static NOTHING: [Case; 1] = [(Asked::Range(0, 14), NO_PLANS)];

/// A range without a position, one past the end, and any of a table without rows have no row.
#[test]
fn ranges_may_have_no_row(rt: HostRuntime) -> Result<(), Fail> {
    assert_eq!(rt; other_of(rt.alloc(), 14, &BOTH, &OUTSIDE)?, None);
    assert_eq!(rt; other_of(rt.alloc(), 0, &BOTH, &ALL)?, None);
    assert_eq!(rt; other_of(rt.alloc(), 14, &[], &NOTHING)?, None);
    Ok(())
}

/// A cut between rows.
static AT_FIVE: [Case; 1] = [(Asked::Cut(5), FEW)];

/// Whichever allocation is refused: a range or a merge that was refused for memory leaves the store as
/// it was, and is made when it is asked for again.
#[test]
fn ranges_without_memory_leave_the_store(rt: HostRuntime) -> Result<(), Fail> {
    assert_eq!(rt; other_of(rt.alloc(), 14, &BOTH, &AT_FIVE)?, None);
    Ok(())
}
