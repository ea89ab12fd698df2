//! What plans compute of a range of positions of their tables.

ghost use Rattle.std.specs.Prelude.{◌≡◌, ℕ, ◌+◌, ◌^◌, ◌<◌, ◌≤◌, List, length, map, slice_index_or, IfOk, OnOk};
ghost use Rattle.std.specs.List.{All};
ghost use Rattle.std.specs.List.Sorted.{IsStrictlySortedBy};
ghost use Rattle.std.specs.Map.{keys_of};
ghost use Rattle.rows.specs.Tables.{Tables as AnyTables};
ghost use Rattle.queries.specs.declared.aggregate.Aggregate.{Aggregate as AnyAggregate};
ghost use Rattle.queries.specs.declared.plan.Plan.{Plan as AnyPlan};
ghost use Rattle.queries.specs.Order.{group_cmp};
ghost use Rattle.plans.specs.Partials.{IsPartial, answer_between};
ghost use Rattle.plans.specs.Inner.Kept.{GroupList, AreWithin};
ghost use Rattle.plans.specs.Inner.Ranges.{AreMerged, lines_of};

use crate::groups::Groups;
use queries::{AggregateList, Answer};
use std::alloc::{AllocError, Global};
use std::marker::Model;

/// What plans compute of a range of positions of their tables: the groups of each plan, and the lines
/// of its answer. Two of them, of ranges one behind the other, are merged by `merge`.
///
/// Contracts see the groups with their aggregates.
#[derive(Drop)]
pub struct Partial {
    /// The aggregates of each plan.
    aggregates: Vec<AggregateList>,
    /// The groups of each plan.
    groups: Vec<Groups>,
    /// The lines of the groups of each plan.
    answers: Vec<Answer>,
    /// The length of the range: of so many rows of a table the groups are at most.
    positions: usize,
}

impl Model for Partial {
    ghost use Rattle.std.specs.Prelude.{◌≡◌, map};
    ghost use Rattle.std.specs.List.{All};
    ghost use Rattle.plans.specs.Partials.{Parts};
    ghost use Rattle.plans.specs.Inner.Kept.{AreWithin};
    ghost use Rattle.plans.specs.Inner.Ranges.{lines_of};

    ghost Value = { Parts };

    ghost view = { λ partial. record {
      positions = partial.positions;
      aggregates = partial.aggregates.items;
      groups = partial.groups.items;
    } };

    ghost invariant = { λ partial. All (AreWithin partial.positions) partial.groups.items
        × (partial.answers.items ≡ map lines_of partial.groups.items) };
}

impl Partial {
    /// What is kept of plans with these aggregates, on so many positions. Fails only if out of memory.
    pub(crate) fn of(
        alloc: Global,
        aggregates: Vec<AggregateList>,
        groups: Vec<Groups>,
        positions: usize,
    ) -> Result<Partial, AllocError>
        requires { All (AreWithin positions) groups.items }
        ensures parts { IfOk result (λ partial. partial ≡ record {
          positions = positions;
          aggregates = aggregates.items;
          groups = groups.items;
        }) }
        ensures ordered { IfOk result (λ partial. All (λ list. IsStrictlySortedBy group_cmp (keys_of list)) groups.items) }
    {
        let answers = answers_of(alloc, groups.as_slice())?;
        Ok(Partial {
            aggregates,
            groups,
            answers,
            positions,
        })
    }

    /// The answers of the plans on that range, in their order. Takes no memory.
    pub fn answers(&self) -> &[Answer]
        ensures { (tables : AnyTables) (plans : List AnyPlan) (from to : ℕ) → IsPartial tables plans from to self.now
            → result.now ≡ map (answer_between tables from to) plans }
    {
        self.answers.as_slice()
    }

    /// The same, without the groups. Takes no memory.
    pub(crate) fn into_answers(self) -> Vec<Answer>
        ensures { result.items ≡ map lines_of self.groups }
    {
        self.answers
    }
}

/// What plans compute of two ranges of positions, the second one right behind the first: of those from
/// `a` to before `b` and from `b` to before `c`, that of those from `a` to before `c`. The ranges have
/// at most `usize::MAX` positions in all. Fails only if out of memory.
pub fn merge(alloc: Global, first: Partial, second: Partial) -> Result<Partial, AllocError>
    requires { first.positions + second.positions < 2 ^ 64 }
    ensures parts { IfOk result (λ partial. (tables : AnyTables) (plans : List AnyPlan) (a b c : ℕ) → a ≤ b → b ≤ c
        → IsPartial tables plans a b first → IsPartial tables plans b c second → IsPartial tables plans a c partial) }
    ensures positions { IfOk result (λ partial. partial.positions ≡ first.positions + second.positions) }
{
    let positions = first.positions + second.positions;
    let aggregates = first.aggregates;
    let mut groups = first.groups;
    merge_each(
        aggregates.as_slice(),
        groups.as_mut_slice(),
        second.groups,
        first.positions,
        second.positions,
    )?;
    Partial::of(alloc, aggregates, groups, positions)
}

/// Adds the groups of each of the others to those of the same plan, where both have it. Fails only if
/// out of memory; nothing is then known of the groups.
fn merge_each(
    aggregates: &[AggregateList],
    groups: &mut [Groups],
    mut others: Vec<Groups>,
    rows: usize,
    other_rows: usize,
) -> Result<(), AllocError>
    requires within { All (AreWithin rows) groups.old }
    requires others { All (AreWithin other_rows) others.items }
    requires few { rows + other_rows < 2 ^ 64 }
    ensures merged { OnOk result ((k : ℕ) (d : List AnyAggregate) (e : GroupList) → k < length groups.old → k < length aggregates.now
        → k < length others.items
        → AreMerged (slice_index_or aggregates.now k d) (slice_index_or groups.old k e) (slice_index_or others.items k e)
        (slice_index_or groups.new k e)) }
    ensures within { OnOk result (All (AreWithin (rows + other_rows)) groups.new) }
{
    while let Some(other) = others.pop() {
        let index = others.len();
        if index < groups.len() && index < aggregates.len() {
            groups[index].merge(aggregates[index].as_slice(), other, rows, other_rows)?;
        }
    }
    Ok(())
}

/// The answers of these groups, in their order. Fails only if out of memory.
fn answers_of(alloc: Global, groups: &[Groups]) -> Result<Vec<Answer>, AllocError>
    ensures lines { IfOk result (λ answers. answers.items ≡ map lines_of groups.now) }
    ensures ordered { IfOk result (λ answers. All (λ list. IsStrictlySortedBy group_cmp (keys_of list)) groups.now) }
{
    let mut answers = Vec::with_capacity(alloc, groups.len())?;
    for list in groups {
        answers.push(list.answer(alloc)?)?;
    }
    Ok(answers)
}
