//! What is computed for a plan while its rows are read: the aggregates of each group so far.

ghost use Rattle.std.specs.Prelude.{◌≡◌, ◌+◌, ◌^◌, ◌<◌, ◌++◌, [], true, map, List, IsSome, Some, IfOk, OnOk, if◌then◌else◌};
ghost use Rattle.std.specs.BTreeMap.{is_at};
ghost use Rattle.std.specs.List.{AllByRecursion};
ghost use Rattle.std.specs.List.Sorted.{IsStrictlySortedBy};
ghost use Rattle.std.specs.Map.{keys_of, lookup};
ghost use Rattle.std.specs.Ordering.{is_eq};
ghost use Rattle.rows.specs.declared.value.Value.{Value as ColumnValue};
ghost use Rattle.queries.specs.declared.field.Field.TheVariants.{Stored};
ghost use Rattle.queries.specs.Order.{group_cmp};
ghost use Rattle.queries.specs.Answers.{aggregate_of, group_of, column_in};
ghost use Rattle.plans.specs.Inner.Kept.{opening_groups, with_joined_row, HasColumns, AreWithin};
ghost use Rattle.plans.specs.Inner.Places.{row_at_place};
ghost use Rattle.plans.specs.Inner.Merged.{merged_at};

use crate::field_merging::merged_with;
use crate::group_key::GroupKey;
use crate::growing::grow;
use crate::row_place::{RowPlace, joined_value};
use queries::{Aggregate, Answer, Column, Field, FieldList, Plan};
use rows::Value;
use std::alloc::{AllocError, Global};
use std::collections::BTreeMap;
use std::marker::Model;
use store::Store;

/// The groups of a plan, each with its aggregates of the rows so far. Contracts see them in rising
/// order.
#[derive(Drop)]
pub struct Groups {
    map: BTreeMap<GroupKey, FieldList>,
}

impl Model for Groups {
    ghost use Rattle.plans.specs.Inner.Kept.{GroupList};

    ghost Value = { GroupList };

    ghost view = { λ groups. groups.map.entries };
}

impl Groups {
    /// The groups of a plan before any row: none, except for the one group of a plan that does not
    /// group. Fails only if out of memory.
    pub fn new(alloc: Global, plan: &Plan) -> Result<Groups, AllocError>
        ensures { IfOk result (λ groups. groups ≡ opening_groups plan.now) }
    {
        let mut map = BTreeMap::new(alloc);
        if plan.groups.as_slice().is_empty() {
            let fields = empty_fields(alloc, plan.aggregates.as_slice())?;
            map.insert(GroupKey::from_vec(Vec::new(alloc)), fields)?;
        }
        Ok(Groups { map })
    }

    /// Adds a row to at most this many earlier ones. Fails only if out of memory; nothing is then
    /// known of the groups.
    pub fn add<S: Store>(
        &mut self,
        alloc: Global,
        store: &S,
        plan: &Plan,
        row: &RowPlace<S::Place>,
        rows: usize,
    ) -> Result<(), AllocError>
        requires whole { S.is_whole store.now ≡ true }
        requires there { HasColumns plan.now (row_at_place (S.values_at store.now) row.now) }
        requires within { AreWithin rows self.old }
        ensures found { OnOk result ((group : List ColumnValue) → lookup (is_at (group_cmp group)) self.new
            ≡ with_joined_row (row_at_place (S.values_at store.now) row.now) plan.now self.old group) }
        ensures within { OnOk result (AreWithin (rows + 1) self.new) }
    {
        let key = key_of(alloc, store, row, plan.groups.as_slice())?;
        if let Some(fields) = self.map.get_mut(&key) {
            grow(store, row, plan.aggregates.as_slice(), fields, rows);
            return Ok(());
        }
        let mut fields = empty_fields(alloc, plan.aggregates.as_slice())?;
        grow(store, row, plan.aggregates.as_slice(), &mut fields, rows);
        self.map.insert(key, fields)?;
        Ok(())
    }

    /// The lines of the groups. Fails only if out of memory.
    pub fn answer(&self, alloc: Global) -> Result<Answer, AllocError>
        ensures ordered { IsStrictlySortedBy group_cmp (keys_of self.now) }
        ensures lines { IfOk result (λ answer. answer ≡ map (λ entry. map Stored entry.0 ++ entry.1) self.now) }
    {
        let mut lines = Vec::with_capacity(alloc, self.map.len())?;
        for (group, fields) in &self.map {
            lines.push(line_of(alloc, group.as_slice(), fields.as_slice())?)?;
        }
        Ok(Answer::from_vec(lines))
    }
}

impl Groups {
    /// No groups. Takes no memory.
    pub fn empty(alloc: Global) -> Groups
        ensures { result ≡ [] }
    {
        Groups {
            map: BTreeMap::new(alloc),
        }
    }

    /// Puts the aggregates of a group in place of any that it has. Fails only if out of memory;
    /// nothing is then known of the groups.
    pub fn put(&mut self, key: GroupKey, fields: FieldList) -> Result<(), AllocError>
        ensures { OnOk result ((group : List ColumnValue) → lookup (is_at (group_cmp group)) self.new
            ≡ (if is_eq (group_cmp key group) then Some fields else lookup (is_at (group_cmp group)) self.old)) }
    {
        self.map.insert(key, fields)?;
        Ok(())
    }

    /// Adds the groups of others, of at most so many rows, to these, of at most so many. Fails only if
    /// out of memory; nothing is then known of the groups.
    pub fn merge(
        &mut self,
        aggregates: &[Aggregate],
        others: Groups,
        rows: usize,
        other_rows: usize,
    ) -> Result<(), AllocError>
        requires within { AreWithin rows self.old }
        requires others { AreWithin other_rows others }
        requires few { rows + other_rows < 2 ^ 64 }
        ensures found { OnOk result ((group : List ColumnValue) → lookup (is_at (group_cmp group)) self.new
            ≡ merged_at aggregates.now (lookup (is_at (group_cmp group)) self.old) (lookup (is_at (group_cmp group)) others)) }
        ensures within { OnOk result (AreWithin (rows + other_rows) self.new) }
    {
        for (key, fields) in others.map {
            let held = self.map.get(&key);
            let merged = merged_with(aggregates, held, fields, rows, other_rows);
            self.put(key, merged)?;
        }
        Ok(())
    }
}

/// The values by which a row is grouped. Fails only if out of memory.
fn key_of<S: Store>(
    alloc: Global,
    store: &S,
    row: &RowPlace<S::Place>,
    columns: &[Column],
) -> Result<GroupKey, AllocError>
    requires whole { S.is_whole store.now ≡ true }
    requires there { AllByRecursion (λ column. IsSome (column_in (row_at_place (S.values_at store.now) row.now) column)) columns.now }
    ensures { IfOk result (λ key. key ≡ group_of columns.now (row_at_place (S.values_at store.now) row.now)) }
{
    let mut values = Vec::with_capacity(alloc, columns.len())?;
    for column in columns {
        values.push(joined_value(store, row, *column))?;
    }
    Ok(GroupKey::from_vec(values))
}

/// Aggregates of no rows. Fails only if out of memory.
fn empty_fields(alloc: Global, aggregates: &[Aggregate]) -> Result<FieldList, AllocError>
    ensures { IfOk result (λ fields. fields ≡ map (aggregate_of []) aggregates.now) }
{
    let fields = aggregates
        .iter()
        .map(|aggregate| empty_field(*aggregate))
        .collect(alloc)?;
    Ok(FieldList::from_vec(fields))
}

/// An aggregate of no rows.
fn empty_field(aggregate: Aggregate) -> Field
    ensures { result ≡ aggregate_of [] aggregate }
{
    match aggregate {
        Aggregate::Count => Field::Number(0),
        Aggregate::Sum(_) => Field::Number(0),
        Aggregate::Min(_) => Field::Absent,
        Aggregate::Max(_) => Field::Absent,
    }
}

/// The line of a group: its values, and then its aggregates. Fails only if out of memory.
fn line_of(alloc: Global, group: &[Value], fields: &[Field]) -> Result<FieldList, AllocError>
    ensures { IfOk result (λ line. line ≡ map Stored group.now ++ fields.now) }
{
    let mut line = Vec::new(alloc);
    for value in group {
        line.push(Field::Stored(*value))?;
    }
    line.extend_from_slice(fields)?;
    Ok(FieldList::from_vec(line))
}
