//! How often 64 plans on a table of 5,000 rows ask a store for an identifier, and their report.

ghost use Rattle.std.specs.Prelude.{◌≡◌, true, Ok, IfOk};
ghost use Rattle.std.specs.List.{AllByRecursion};
ghost use Rattle.rows.specs.Shape.{shape_of};
ghost use Rattle.rows.specs.Tables.{shape_in};
ghost use Rattle.queries.specs.Checking.{checked};

use crate::counted_store::CountedStore;
use crate::ranges::{ACCOUNTS, BY_SECOND, stocked};
use plans::{answer_batch, partial};
use queries::{Column, Comparison, Plan, report};
use rows::Schema;
use scenarios_plans_common::wishes::{Cell, SHOP, Wish, plans_of};
use std::alloc::{AllocError, Global};
use std::test::Fail;
use std::thread::Threads;

/// The plans that group the accounts from 0 on, from 1 on, and so on: 64 that differ.
fn rising_plans(alloc: Global, schema: &Schema) -> Result<Vec<Plan>, Fail>
    ensures { IfOk result (λ plans. AllByRecursion (λ plan. checked (shape_of schema.now) plan ≡ Ok tt) plans.items) }
{
    let mut bounds = [[(Column::Own(0), Comparison::AtLeast, Cell::Number(0))]; 64];
    for number in 0..64u8 {
        bounds[number as usize] = [(
            Column::Own(0),
            Comparison::AtLeast,
            Cell::Number(i64::from(number)),
        )];
    }
    let mut wishes = Vec::with_capacity(alloc, bounds.len())?;
    for bound in &bounds {
        wishes.push(Wish {
            conditions: bound.as_slice(),
            ..BY_SECOND
        })?;
    }
    plans_of(alloc, schema, wishes.as_slice())
}

/// How many accounts from one on have this remainder, and the sum of their numbers.
fn counted(least: u32, remainder: u32) -> (u64, u64) {
    let mut count = 0u64;
    let mut sum = 0u64;
    for id in least..ACCOUNTS {
        if id % 7 == remainder {
            count = count.wrapping_add(1);
            sum = sum.wrapping_add(u64::from(id));
        }
    }
    (count, sum)
}

/// Adds the line of the accounts from one on that have this remainder.
fn write_group(text: &mut String, least: u32, remainder: u32) -> Result<(), AllocError> {
    let (count, sum) = counted(least, remainder);
    write!(text, "{remainder} {count} {sum}\n")
}

/// Adds the answer of the plan of that number.
fn write_answer(text: &mut String, number: u32) -> Result<(), AllocError> {
    write!(text, "query {number} rows 7\n")?;
    for remainder in 0..7u32 {
        write_group(text, number, remainder)?;
    }
    Ok(())
}

/// The report of those plans.
fn rising_report(alloc: Global) -> Result<String, AllocError> {
    let mut text = String::from_str(alloc, "version 7 queries 64\n")?;
    for number in 0..64u32 {
        write_answer(&mut text, number)?;
    }
    Ok(text)
}

/// By which call plans are answered.
#[derive(Clone, Copy)]
enum Call {
    /// That of a range that has all rows.
    Range,
    /// That of a batch.
    Batch,
}

/// The report of these plans on all rows, by the call of a range.
fn report_by_range(
    alloc: Global,
    store: &CountedStore,
    plans: &[Plan],
) -> Result<Vec<u8>, AllocError>
    requires whole { store.now.inner.whole ≡ true }
    requires checked { AllByRecursion (λ plan. checked (shape_in store.now.inner.tables) plan ≡ Ok tt) plans.now }
{
    let all = partial(alloc, store, plans, 0, 9_000)?;
    report(alloc, 7, all.answers())
}

/// The same, by the call of a batch.
fn report_by_batch<R: Threads + Sync>(
    rt: &R,
    alloc: Global,
    store: &CountedStore,
    plans: &[Plan],
) -> Result<Vec<u8>, AllocError>
    requires whole { store.now.inner.whole ≡ true }
    requires checked { AllByRecursion (λ plan. checked (shape_in store.now.inner.tables) plan ≡ Ok tt) plans.now }
{
    let answers = answer_batch(rt, alloc, store, plans)?;
    report(alloc, 7, answers.as_slice())
}

/// The same, by one of the calls.
fn report_by<R: Threads + Sync>(
    rt: &R,
    alloc: Global,
    store: &CountedStore,
    plans: &[Plan],
    call: Call,
) -> Result<Vec<u8>, AllocError>
    requires whole { store.now.inner.whole ≡ true }
    requires checked { AllByRecursion (λ plan. checked (shape_in store.now.inner.tables) plan ≡ Ok tt) plans.now }
{
    match call {
        Call::Range => report_by_range(alloc, store, plans),
        Call::Batch => report_by_batch(rt, alloc, store, plans),
    }
}

/// Whether a text is the report of those plans.
fn is_rising_report(alloc: Global, text: &[u8]) -> Result<bool, AllocError> {
    let wanted = rising_report(alloc)?;
    Ok(text == wanted.as_bytes())
}

/// Whether the report of these plans is that of those.
fn are_answered<R: Threads + Sync>(
    rt: &R,
    alloc: Global,
    store: &CountedStore,
    plans: &[Plan],
    call: Call,
) -> Result<bool, AllocError>
    requires whole { store.now.inner.whole ≡ true }
    requires checked { AllByRecursion (λ plan. checked (shape_in store.now.inner.tables) plan ≡ Ok tt) plans.now }
{
    let text = report_by(rt, alloc, store, plans, call)?;
    is_rising_report(alloc, text.as_slice())
}

/// Whether those plans are answered, on this store.
fn are_answered_on<R: Threads + Sync>(
    rt: &R,
    alloc: Global,
    schema: &Schema,
    store: &CountedStore,
    call: Call,
) -> Result<bool, Fail>
    requires whole { store.now.inner.whole ≡ true }
    requires kinds { shape_in store.now.inner.tables ≡ shape_of schema.now }
{
    let plans = rising_plans(alloc, schema)?;
    Ok(are_answered(rt, alloc, store, plans.as_slice(), call)?)
}

/// The accounts, in a store that counts.
fn counted_accounts(alloc: Global, schema: &Schema) -> Result<CountedStore, Fail>
    ensures whole { IfOk result (λ store. store.inner.whole ≡ true) }
    ensures kinds { IfOk result (λ store. shape_in store.inner.tables ≡ shape_of schema.now) }
{
    Ok(CountedStore::new(stocked(alloc, schema, ACCOUNTS)?))
}

/// How often those plans ask a store of accounts for an identifier, and whether they are answered.
fn asked_in<R: Threads + Sync>(
    rt: &R,
    alloc: Global,
    schema: &Schema,
    call: Call,
) -> Result<(u64, bool), Fail> {
    let store = counted_accounts(alloc, schema)?;
    let are_answered = are_answered_on(rt, alloc, schema, &store, call)?;
    Ok((store.calls(), are_answered))
}

/// The same, by the kinds of accounts and sites.
fn asked<R: Threads + Sync>(rt: &R, alloc: Global, call: Call) -> Result<(u64, bool), Fail> {
    let schema = Schema::new(alloc, SHOP)?;
    asked_in(rt, alloc, &schema, call)
}

/// One scan serves all plans on a table.
#[test]
fn a_range_is_scanned_once(rt: HostRuntime) -> Result<(), Fail> {
    let (calls, are_answered) = asked(&rt, rt.alloc(), Call::Range)?;
    assert!(rt; calls <= 10_000);
    assert!(rt; are_answered);
    Ok(())
}

#[test]
fn a_batch_scans_a_table_once(rt: HostRuntime) -> Result<(), Fail> {
    let (calls, are_answered) = asked(&rt, rt.alloc(), Call::Batch)?;
    assert!(rt; calls <= 10_000);
    assert!(rt; are_answered);
    Ok(())
}
