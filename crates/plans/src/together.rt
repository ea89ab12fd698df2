//! Scanning the tables of a batch by the rows that a store lends, the pieces of a table in threads.

ghost use Rattle.std.specs.Prelude.{◌≡◌, ◌+◌, ◌^◌, ◌<◌, ◌≤◌, ℕ, true, Ok, length, map, slice_index_or, IfOk, IfSome, OnOk};
ghost use Rattle.std.specs.List.{All, AllByRecursion};
ghost use Rattle.rows.specs.Tables.{rows_of, shape_in};
ghost use Rattle.queries.specs.declared.plan.Plan.{Plan as AnyPlan};
ghost use Rattle.queries.specs.Checking.{checked};
ghost use Rattle.plans.specs.Partials.{IsPartial, rows_between};
ghost use Rattle.plans.specs.Inner.Kept.{GroupList, GroupsAreKept, opening_groups};
ghost use Rattle.plans.specs.Inner.Ranges.{LooksAt};
ghost use Rattle.plans.specs.Inner.Scans.{AreClasses};
ghost use Rattle.plans.specs.Inner.Together.{ArePieces, AreWithinFor, IsOfPiece, MergesOn};

use crate::classes::classes_of;
use crate::groups::Groups;
use crate::partials::Partial;
use crate::piecewise::{PieceGroups, scan_piece};
use crate::ranging::{aggregates_of, openings};
use queries::Plan;
use std::alloc::{AllocError, Global};
use std::marker::Sync;
use std::thread;
use std::thread::Threads;
use store::Store;

/// From how many rows of a table on its pieces are scanned in threads of their own.
const ROWS_FOR_THREADS: usize = 8192;

/// What plans compute of all rows of their tables, none of which has more than `most`, from the rows
/// that the store lends; `None` if it does not lend those of each table, or not in rising order. Each
/// piece of a table is scanned once for all plans on it, in a thread of its own if there can be one.
/// Fails only if out of memory, or of numbers for groups.
pub fn lent_partial<S: Store + Sync, R: Threads + Sync>(
    rt: &R,
    alloc: Global,
    store: &S,
    plans: &[Plan],
    most: usize,
) -> Result<Option<Partial>, AllocError>
    requires whole { S.is_whole store.now ≡ true }
    requires checked { AllByRecursion (λ plan. checked (shape_in (S.tables store.now)) plan ≡ Ok tt) plans.now }
    requires most { All (λ plan. length (rows_of (S.tables store.now) plan.table) ≤ most) plans.now }
    ensures { IfOk result (λ partial. IfSome partial (IsPartial (S.tables store.now) plans.now 0 most)) }
{
    let classes = classes_of(alloc, plans)?;
    let mut groups = openings(alloc, plans)?;
    if !scan_tables(
        rt,
        alloc,
        store,
        plans,
        classes.as_slice(),
        most,
        groups.as_mut_slice(),
    )? {
        return Ok(None);
    }
    let partial = Partial::of(alloc, aggregates_of(alloc, plans)?, groups, most)?;
    Ok(Some(partial))
}

/// Adds the rows of each table to the groups that each plan on it has before any row. Answers whether
/// the store lends them; nothing is known of the groups if it does not. Fails only if out of memory,
/// or of numbers for groups.
fn scan_tables<S: Store + Sync, R: Threads + Sync>(
    rt: &R,
    alloc: Global,
    store: &S,
    plans: &[Plan],
    classes: &[usize],
    most: usize,
    groups: &mut [Groups],
) -> Result<bool, AllocError>
    requires whole { S.is_whole store.now ≡ true }
    requires checked { AllByRecursion (λ plan. checked (shape_in (S.tables store.now)) plan ≡ Ok tt) plans.now }
    requires classes { AreClasses plans.now classes.now }
    requires most { All (λ plan. length (rows_of (S.tables store.now) plan.table) ≤ most) plans.now }
    requires opening { groups.old ≡ map opening_groups plans.now }
    ensures { IfOk result (λ all. all ≡ true → (k : ℕ) (d : AnyPlan) (e : GroupList) → k < length plans.now
        → GroupsAreKept (slice_index_or plans.now k d) (rows_between (S.tables store.now) 0 most (slice_index_or plans.now k d))
        most (slice_index_or groups.new k e)) }
{
    let pieces = store.pieces();
    let mut scanned = [false; 256];
    for plan in plans {
        let table = plan.table;
        if scanned[table as usize] {
            continue;
        }
        let parts = scan_pieces(rt, alloc, store, plans, classes, table, pieces)?;
        if !merge_pieces(store, plans, table, pieces, parts, most, groups)? {
            return Ok(false);
        }
        scanned[table as usize] = true;
    }
    Ok(true)
}

/// What is computed of each piece of a table, of so many: each scanned in a thread of its own if there
/// can be one, unless the table has so few rows that to start threads takes longer. Fails only if out of
/// memory; within, each piece tells by itself whether it ran out.
fn scan_pieces<S: Store + Sync, R: Threads + Sync>(
    rt: &R,
    alloc: Global,
    store: &S,
    plans: &[Plan],
    classes: &[usize],
    table: u8,
    pieces: usize,
) -> Result<Vec<Result<Option<PieceGroups>, AllocError>>, AllocError>
    requires whole { S.is_whole store.now ≡ true }
    requires checked { AllByRecursion (λ plan. checked (shape_in (S.tables store.now)) plan ≡ Ok tt) plans.now }
    requires classes { AreClasses plans.now classes.now }
    ensures len { IfOk result (λ parts. length parts.items ≡ pieces) }
    ensures parts { IfOk result (λ parts. ArePieces (S.tables store.now) plans.now table pieces parts.items) }
{
    if store.len(table) < ROWS_FOR_THREADS {
        return scan_in_turn(alloc, store, plans, classes, table, pieces);
    }
    let scan = |piece: usize| -> Result<Option<PieceGroups>, AllocError>
        requires whole { S.is_whole store.now ≡ true }
        requires checked { AllByRecursion (λ plan. checked (shape_in (S.tables store.now)) plan ≡ Ok tt) plans.now }
        requires classes { AreClasses plans.now classes.now }
        requires within { piece < pieces }
        ensures { IfOk result (λ found. IfSome found (IsOfPiece (S.tables store.entry.now) plans.entry.now table pieces piece)) }
    { scan_piece(alloc, store, plans, classes, table, pieces, piece) };
    thread::map_indices(rt, alloc, pieces, &scan)
}

/// The same, one piece after the other.
fn scan_in_turn<S: Store>(
    alloc: Global,
    store: &S,
    plans: &[Plan],
    classes: &[usize],
    table: u8,
    pieces: usize,
) -> Result<Vec<Result<Option<PieceGroups>, AllocError>>, AllocError>
    requires whole { S.is_whole store.now ≡ true }
    requires checked { AllByRecursion (λ plan. checked (shape_in (S.tables store.now)) plan ≡ Ok tt) plans.now }
    requires classes { AreClasses plans.now classes.now }
    ensures len { IfOk result (λ parts. length parts.items ≡ pieces) }
    ensures parts { IfOk result (λ parts. ArePieces (S.tables store.now) plans.now table pieces parts.items) }
{
    let mut parts = Vec::with_capacity(alloc, pieces)?;
    for piece in 0..pieces {
        parts.push(scan_piece(alloc, store, plans, classes, table, pieces, piece))?;
    }
    Ok(parts)
}

/// Adds what is computed of each piece of a table, one after the other, to the groups of the plans on
/// it, which have no rows yet. Answers whether there is something of each piece.
fn merge_pieces<S: Store>(
    store: &S,
    plans: &[Plan],
    table: u8,
    pieces: usize,
    parts: Vec<Result<Option<PieceGroups>, AllocError>>,
    most: usize,
    groups: &mut [Groups],
) -> Result<bool, AllocError>
    requires some { 0 < pieces }
    requires len { length parts.items ≡ pieces }
    requires parts { ArePieces (S.tables store.now) plans.now table pieces parts.items }
    requires most { length (rows_of (S.tables store.now) table) ≤ most }
    requires sizes { length groups.old ≡ length plans.now }
    requires opening { (k : ℕ) (d : AnyPlan) (e : GroupList) → k < length plans.now → (slice_index_or plans.now k d).table ≡ table
        → slice_index_or groups.old k e ≡ opening_groups (slice_index_or plans.now k d) }
    ensures { IfOk result (λ all. all ≡ true → (k : ℕ) (d : AnyPlan) (e : GroupList) → k < length plans.now
        → LooksAt (S.tables store.now) (slice_index_or plans.now k d) table 0 most (slice_index_or groups.old k e)
        (slice_index_or groups.new k e)) }
{
    let _ = store;
    let _ = (pieces, most);
    let mut rows = 0;
    for part in parts {
        let Some(found) = part? else {
            return Ok(false);
        };
        merge_piece(plans, table, groups, found.groups, rows, found.rows)?;
        rows += found.rows;
    }
    Ok(true)
}

/// Adds the groups of other rows, of each plan on a table, to those of the same plan. Fails only if
/// out of memory; nothing is then known of the groups.
fn merge_piece(
    plans: &[Plan],
    table: u8,
    groups: &mut [Groups],
    mut others: Vec<Groups>,
    rows: usize,
    other_rows: usize,
) -> Result<(), AllocError>
    requires sizes { length groups.old ≡ length plans.now }
    requires others_sizes { length others.items ≡ length plans.now }
    requires within { AreWithinFor plans.now table rows groups.old }
    requires others { AreWithinFor plans.now table other_rows others.items }
    requires few { rows + other_rows < 2 ^ 64 }
    ensures { OnOk result ((k : ℕ) (d : AnyPlan) (e : GroupList) → k < length plans.now
        → MergesOn (slice_index_or plans.now k d) table (rows + other_rows) (slice_index_or groups.old k e)
        (slice_index_or others.items k e) (slice_index_or groups.new k e)) }
{
    while let Some(other) = others.pop() {
        let index = others.len();
        let plan = &plans[index];
        if plan.table != table {
            continue;
        }
        groups[index].merge(plan.aggregates.as_slice(), other, rows, other_rows)?;
    }
    Ok(())
}
