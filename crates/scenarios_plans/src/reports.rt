//! The report of the answers of plans that are wished for, on a plain store.

ghost use Rattle.std.specs.Prelude.{◌≡◌, true, Ok};
ghost use Rattle.std.specs.List.{AllByRecursion};
ghost use Rattle.rows.specs.Shape.{shape_of};
ghost use Rattle.rows.specs.Tables.{shape_in};
ghost use Rattle.queries.specs.Checking.{checked};

use plans::answer_batch;
use queries::{Plan, report};
use rows::Schema;
use scenarios_plans_common::wishes::{Line, Tables, Wish, filled, plans_of};
use std::alloc::{AllocError, Global};
use std::test::Fail;
use std::thread::Threads;
use store::PlainStore;

/// The report of the answers of plans, at version 7.
pub fn reported<R: Threads + Sync>(
    rt: &R,
    alloc: Global,
    store: &PlainStore,
    plans: &[Plan],
) -> Result<Vec<u8>, AllocError>
    requires whole { store.now.whole ≡ true }
    requires checked { AllByRecursion (λ plan. checked (shape_in store.now.tables) plan ≡ Ok tt) plans.now }
{
    let answers = answer_batch(rt, alloc, store, plans)?;
    report(alloc, 7, answers.as_slice())
}

/// The report of the answers of the plans that are wished for, on this store.
fn report_on<R: Threads + Sync>(
    rt: &R,
    alloc: Global,
    schema: &Schema,
    store: &PlainStore,
    wishes: &[Wish<'_>],
) -> Result<Vec<u8>, Fail>
    requires whole { store.now.whole ≡ true }
    requires kinds { shape_in store.now.tables ≡ shape_of schema.now }
{
    let plans = plans_of(alloc, schema, wishes)?;
    Ok(reported(rt, alloc, store, plans.as_slice())?)
}

/// The same, on a store of these tables with these rows.
fn report_in<R: Threads + Sync>(
    rt: &R,
    alloc: Global,
    schema: &Schema,
    lines: &[Line],
    wishes: &[Wish<'_>],
) -> Result<Vec<u8>, Fail> {
    let store = filled(alloc, schema, lines)?;
    report_on(rt, alloc, schema, &store, wishes)
}

/// The report of the answers of the plans that are wished for, on a store with these rows.
pub fn report_of<R: Threads + Sync>(
    rt: &R,
    alloc: Global,
    tables: Tables<'_>,
    lines: &[Line],
    wishes: &[Wish<'_>],
) -> Result<Vec<u8>, Fail> {
    let schema = Schema::new(alloc, tables)?;
    report_in(rt, alloc, &schema, lines, wishes)
}
