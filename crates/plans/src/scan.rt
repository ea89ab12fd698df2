//! What is computed, for each plan of a batch, of the rows of one table, block by block.

ghost use Rattle.std.specs.Prelude.{◌≡◌, ◌+◌, ◌^◌, ◌<◌, ◌≤◌, ◌++◌, ℕ, [], ◌∷◌, true, Ok, length, IfOk, IfSome, OnOk, List, slice_index_or};
ghost use Rattle.std.specs.List.{AllByRecursion};
ghost use Rattle.rows.specs.Tables.{Rows, Tables, shape_in};
ghost use Rattle.queries.specs.declared.plan.Plan.{Plan as AnyPlan};
ghost use Rattle.plans.specs.declared.tallies.Tallies.{Tallies as AnyTallies};
ghost use Rattle.queries.specs.Checking.{checked};
ghost use Rattle.plans.specs.Inner.BlockRows.{IsBlock, rows_of_block};
ghost use Rattle.plans.specs.Inner.Blocks.{IsNumbering, Extends, StaysIfKnown};
ghost use Rattle.plans.specs.Inner.Kept.{AreKept};
ghost use Rattle.plans.specs.Inner.Scans.{AreClasses, AreNumberings, AreScanned, AreFirst, IsScanned, IsScan};
ghost use Rattle.plans.specs.Inner.Scans.{AreKeptFor};
ghost use Rattle.plans.specs.Inner.Numbered.{AreDistinct};
ghost use Rattle.plans.specs.Inner.Shared.{IsShared, AreNoneShared};

use crate::block::Block;
use crate::group_key::GroupKey;
use crate::groups::Groups;
use crate::numbering::Numbering;
use crate::shared_rows::{SharedRows, add_shared, share_rows};
use crate::tallies::Tallies;
use queries::Plan;
use std::alloc::{AllocError, Global};
use store::Store;

/// What is computed of the rows of a table so far: for each plan its tallies, and for each that is
/// the first of its class the numbers of groups.
#[derive(Drop)]
pub struct Scan {
    numberings: Vec<Numbering>,
    tallies: Vec<Tallies>,
}

impl Scan {
    /// What is computed of no rows. Fails only if out of memory.
    pub fn new(alloc: Global, plans: &[Plan]) -> Result<Scan, AllocError>
        ensures { IfOk result (λ scan. (tables : Tables) (classes : List ℕ) (table : ℕ) → AreClasses plans.now classes
            → IsScan tables plans.now classes table [] 0 scan) }
    {
        let numberings = first_numberings(alloc, plans)?;
        let tallies = first_tallies(alloc, plans)?;
        Ok(Scan {
            numberings,
            tallies,
        })
    }

    /// Adds the rows of a block to those of its piece before it. Fails only if out of memory, or of
    /// numbers; nothing is then known of the scan.
    pub fn add<S: Store>(
        &mut self,
        alloc: Global,
        store: &S,
        plans: &[Plan],
        classes: &[usize],
        block: &Block,
    ) -> Result<(), AllocError>
        requires whole { S.is_whole store.now ≡ true }
        requires checked { AllByRecursion (λ plan. checked (shape_in (S.tables store.now)) plan ≡ Ok tt) plans.now }
        requires classes { AreClasses plans.now classes.now }
        requires block { IsBlock (S.tables store.now) block.now }
        requires scan { (scanned : Rows)
            × IsScan (S.tables store.now) plans.now classes.now block.now.table scanned block.now.from self.old }
        requires few { block.now.from + length block.now.ids.now < 2 ^ 64 }
        ensures { OnOk result ((scanned : Rows)
            → IsScan (S.tables store.now) plans.now classes.now block.now.table scanned block.now.from self.old
            → IsScan (S.tables store.now) plans.now classes.now block.now.table (scanned ++ rows_of_block (S.tables store.now) block.now)
            (block.now.from + length block.now.ids.now) self.new) }
    {
        add_block(
            alloc,
            store,
            plans,
            classes,
            block,
            self.numberings.as_mut_slice(),
            self.tallies.as_mut_slice(),
        )
    }

    /// The groups of each plan on the table; none of the others. Fails only if out of memory.
    pub fn groups(
        &mut self,
        alloc: Global,
        plans: &[Plan],
        classes: &[usize],
        table: u8,
    ) -> Result<Vec<Groups>, AllocError>
        requires classes { AreClasses plans.now classes.now }
        requires scan { (tables : Tables) × (rows : Rows) × (count : ℕ) × IsScan tables plans.now classes.now table rows count self.old }
        ensures sizes { IfOk result (λ groups. length groups.items ≡ length plans.now) }
        ensures kept { IfOk result (λ groups. (tables : Tables) (rows : Rows) (count : ℕ)
            → IsScan tables plans.now classes.now table rows count self.old → AreKeptFor tables plans.now table rows count groups.items) }
    {
        let groups = groups_of(
            alloc,
            plans,
            classes,
            table,
            self.numberings.as_slice(),
            self.tallies.as_mut_slice(),
        )?;
        Ok(groups)
    }
}

/// No numbers of groups for each plan, but one for the one group of a plan that does not group. Fails
/// only if out of memory.
fn first_numberings(alloc: Global, plans: &[Plan]) -> Result<Vec<Numbering>, AllocError>
    ensures { IfOk result (λ numberings. AreNumberings plans.now numberings.items) }
{
    let mut numberings = Vec::with_capacity(alloc, plans.len())?;
    for plan in plans {
        let numbering = first_numbering(alloc, plan)?;
        numberings.push(numbering)?;
    }
    Ok(numberings)
}

/// The same for one plan.
fn first_numbering(alloc: Global, plan: &Plan) -> Result<Numbering, AllocError>
    ensures numbering { IfOk result IsNumbering }
    ensures one { IfOk result (λ numbering. plan.now.groups ≡ [] → numbering.keys.items ≡ [] ∷ []) }
{
    let mut numbering = Numbering::new(alloc);
    if !plan.groups.as_slice().is_empty() {
        return Ok(numbering);
    }
    let place = numbering.number(alloc, GroupKey::from_vec(Vec::new(alloc)))?;
    let _ = place;
    Ok(numbering)
}

/// The tallies of no rows, for each plan. Fails only if out of memory.
fn first_tallies(alloc: Global, plans: &[Plan]) -> Result<Vec<Tallies>, AllocError>
    ensures sizes { IfOk result (λ tallies. length tallies.items ≡ length plans.now) }
    ensures tallied { IfOk result (λ tallies. (p : ℕ) (e : AnyPlan) (t : AnyTallies) → p < length plans.now
        → AreFirst (slice_index_or plans.now p e) (slice_index_or tallies.items p t)) }
{
    let mut list = Vec::with_capacity(alloc, plans.len())?;
    for plan in plans {
        let tallies = Tallies::new(alloc, plan.aggregates.as_slice())?;
        list.push(tallies)?;
    }
    Ok(list)
}

/// Nothing that is shared, so many times. Fails only if out of memory.
fn none_shared<'s, P: Copy>(
    alloc: Global,
    count: usize,
) -> Result<Vec<Option<SharedRows<'s, P>>>, AllocError>
    ensures { IfOk result (λ shared. AreNoneShared count shared.items) }
{
    let mut shared = Vec::with_capacity(alloc, count)?;
    for plan in 0..count {
        let _ = plan;
        shared.push(None)?;
    }
    Ok(shared)
}

/// Adds the rows of a block to the tallies of each plan on its table.
fn add_block<'s, S: Store>(
    alloc: Global,
    store: &'s S,
    plans: &[Plan],
    classes: &[usize],
    block: &Block,
    numberings: &mut [Numbering],
    tallies: &mut [Tallies],
) -> Result<(), AllocError>
    requires whole { S.is_whole store.now ≡ true }
    requires checked { AllByRecursion (λ plan. checked (shape_in (S.tables store.now)) plan ≡ Ok tt) plans.now }
    requires classes { AreClasses plans.now classes.now }
    requires block { IsBlock (S.tables store.now) block.now }
    requires numberings { AreNumberings plans.now numberings.old }
    requires sizes { length tallies.old ≡ length plans.now }
    requires scanned { (scanned : Rows)
        × AreScanned (S.tables store.now) plans.now classes.now block.now.table scanned block.now.from numberings.old tallies.old }
    requires few { block.now.from + length block.now.ids.now < 2 ^ 64 }
    ensures numberings { OnOk result (AreNumberings plans.now numberings.new) }
    ensures sizes { OnOk result (length tallies.new ≡ length plans.now) }
    ensures scanned { OnOk result ((scanned : Rows)
        → AreScanned (S.tables store.now) plans.now classes.now block.now.table scanned block.now.from numberings.old tallies.old
        → AreScanned (S.tables store.now) plans.now classes.now block.now.table (scanned ++ rows_of_block (S.tables store.now) block.now)
        (block.now.from + length block.now.ids.now) numberings.new tallies.new) }
{
    let mut list: Vec<Option<SharedRows<'s, S::Place>>> = none_shared(alloc, plans.len())?;
    let shared = list.as_mut_slice();
    for plan in 0..plans.len() {
        let this = &plans[plan];
        if this.table != block.table {
            continue;
        }
        let class = classes[plan];
        add_plan(
            alloc,
            store,
            block,
            this,
            &mut numberings[class],
            &mut shared[class],
            &mut tallies[plan],
        )?;
    }
    Ok(())
}

/// Adds the rows of a block to the tallies of a plan. What the block has for all plans that are alike
/// is computed if it was not.
fn add_plan<'s, S: Store>(
    alloc: Global,
    store: &'s S,
    block: &Block,
    plan: &Plan,
    numbering: &mut Numbering,
    shared: &mut Option<SharedRows<'s, S::Place>>,
    tallies: &mut Tallies,
) -> Result<(), AllocError>
    requires whole { S.is_whole store.now ≡ true }
    requires block { IsBlock (S.tables store.now) block.now }
    requires table { plan.now.table ≡ block.now.table }
    requires checked { checked (shape_in (S.tables store.now)) plan.now ≡ Ok tt }
    requires numbering { IsNumbering numbering.old }
    requires shared { IfSome shared.old (IsShared (S.tables store.now) (S.values_at store.now) block.now plan.now
        numbering.old.keys.items) }
    requires scanned { (scanned : Rows)
        × IsScanned (S.tables store.now) plan.now numbering.old.keys.items scanned block.now.from tallies.old }
    requires few { block.now.from + length block.now.ids.now < 2 ^ 64 }
    ensures numbering { OnOk result (IsNumbering numbering.new) }
    ensures extends { OnOk result (Extends numbering.old.keys.items numbering.new.keys.items) }
    ensures stays { OnOk result (plan.now.groups ≡ [] → StaysIfKnown [] numbering.old.keys.items numbering.new.keys.items) }
    ensures shared { OnOk result
        (IfSome shared.new (IsShared (S.tables store.now) (S.values_at store.now) block.now plan.now numbering.new.keys.items)) }
    ensures scanned { OnOk result ((scanned : Rows)
        → IsScanned (S.tables store.now) plan.now numbering.old.keys.items scanned block.now.from tallies.old
        → IsScanned (S.tables store.now) plan.now numbering.new.keys.items (scanned ++ rows_of_block (S.tables store.now) block.now)
        (block.now.from + length block.now.ids.now) tallies.new) }
{
    if let Some(shared) = shared {
        add_shared(alloc, store, block, plan, numbering, shared, tallies)?;
        return Ok(());
    }
    let mut first = share_rows(alloc, store, block, plan, numbering)?;
    add_shared(alloc, store, block, plan, numbering, &mut first, tallies)?;
    *shared = Some(first);
    Ok(())
}

/// The groups of a plan from its tallies, once each key has a place. Fails only if out of memory.
fn all_groups(
    alloc: Global,
    plan: &Plan,
    keys: &[GroupKey],
    tallies: &mut Tallies,
) -> Result<Groups, AllocError>
    requires one { plan.now.groups ≡ [] → keys.now ≡ [] ∷ [] }
    requires places { length tallies.old.counts.items ≤ length keys.now }
    ensures { IfOk result (λ groups. (tables : Tables) (rows : Rows) (count : ℕ) → AreDistinct keys.now
        → IsScanned tables plan.now keys.now rows count tallies.old → AreKept tables plan.now rows count groups) }
{
    tallies.grow(keys.len())?;
    let groups = tallies.groups(alloc, plan, keys)?;
    Ok(groups)
}

/// The groups of each plan on a table, from the tallies; none of the others. Fails only if out of
/// memory.
fn groups_of(
    alloc: Global,
    plans: &[Plan],
    classes: &[usize],
    table: u8,
    numberings: &[Numbering],
    tallies: &mut [Tallies],
) -> Result<Vec<Groups>, AllocError>
    requires classes { AreClasses plans.now classes.now }
    requires numberings { AreNumberings plans.now numberings.now }
    requires sizes { length tallies.old ≡ length plans.now }
    requires scanned { (tables : Tables) × (rows : Rows) × (count : ℕ)
        × AreScanned tables plans.now classes.now table rows count numberings.now tallies.old }
    ensures sizes { IfOk result (λ groups. length groups.items ≡ length plans.now) }
    ensures kept { IfOk result (λ groups. (tables : Tables) (rows : Rows) (count : ℕ)
        → AreScanned tables plans.now classes.now table rows count numberings.now tallies.old
        → AreKeptFor tables plans.now table rows count groups.items) }
{
    let mut list = Vec::with_capacity(alloc, plans.len())?;
    for plan in 0..plans.len() {
        let this = &plans[plan];
        if this.table != table {
            list.push(Groups::empty(alloc))?;
            continue;
        }
        let keys = numberings[classes[plan]].keys();
        let groups = all_groups(alloc, this, keys, &mut tallies[plan])?;
        list.push(groups)?;
    }
    Ok(list)
}
