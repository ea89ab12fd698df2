//! Plans that are equal: a batch answers each of them once.

ghost use Rattle.std.specs.Prelude.{◌≡◌, ℕ, ◌<◌, true, length, IfOk, IfSome, slice_index_or};
ghost use Rattle.plans.specs.Inner.Equals.{ArePlaced, AreAt, IsAt, IsPlaced};

use crate::classes::{are_alike, is_same_column};
use crate::comparing::compare;
use queries::{
    Aggregate, AggregateList, Answer, ColumnList, Comparison, Condition, ConditionList, FieldList,
    Plan,
};
use std::alloc::{AllocError, Global};

/// The plans of a batch without those that are equal to one before, and for each plan of the batch
/// the place of its equal among them.
#[derive(Drop)]
pub struct Distinct {
    pub plans: Vec<Plan>,
    pub places: Vec<usize>,
}

/// The plans of a batch, each once. Fails only if out of memory.
pub fn distinct_of(alloc: Global, plans: &[Plan]) -> Result<Distinct, AllocError>
    ensures { IfOk result (λ distinct. ArePlaced plans.now distinct.plans.items distinct.places.items) }
{
    let mut firsts = Vec::new(alloc);
    let mut places = Vec::with_capacity(alloc, plans.len())?;
    for plan in plans {
        let place = placed(alloc, &mut firsts, plan)?;
        places.push(place)?;
    }
    Ok(Distinct {
        plans: firsts,
        places,
    })
}

/// The place of a plan's equal among these, to which the plan is added if it has none. Fails only if
/// out of memory; nothing is then known of the plans.
fn placed(alloc: Global, firsts: &mut Vec<Plan>, plan: &Plan) -> Result<usize, AllocError>
    ensures { IfOk result (IsPlaced firsts.old.items plan.now firsts.new.items) }
{
    if let Some(place) = place_of(firsts.as_slice(), plan) {
        return Ok(place);
    }
    let place = firsts.len();
    let copy = plan_of(alloc, plan)?;
    firsts.push(copy)?;
    Ok(place)
}

/// The place of a plan's equal, if there is one.
fn place_of(plans: &[Plan], plan: &Plan) -> Option<usize>
    ensures { IfSome result (λ place. IsAt plans.now plan.now place) }
{
    for place in 0..plans.len() {
        if are_equal(&plans[place], plan) {
            return Some(place);
        }
    }
    None
}

/// The answers at these places, copied. Fails only if out of memory.
pub fn answers_at(
    alloc: Global,
    answers: &[Answer],
    places: &[usize],
) -> Result<Vec<Answer>, AllocError>
    requires { (p : ℕ) (n : ℕ) → p < length places.now → slice_index_or places.now p n < length answers.now }
    ensures { IfOk result (λ copies. AreAt answers.now places.now copies.items) }
{
    let mut copies = Vec::with_capacity(alloc, places.len())?;
    for index in 0..places.len() {
        let copy = copy_of(alloc, &answers[places[index]])?;
        copies.push(copy)?;
    }
    Ok(copies)
}

/// A copy of an answer. Fails only if out of memory.
fn copy_of(alloc: Global, answer: &Answer) -> Result<Answer, AllocError>
    ensures { IfOk result (λ copy. copy ≡ answer.now) }
{
    let lines = answer.as_slice();
    let mut copies = Vec::with_capacity(alloc, lines.len())?;
    for line in lines {
        let copy = Vec::from_slice(alloc, line.as_slice())?;
        copies.push(FieldList::from_vec(copy))?;
    }
    Ok(Answer::from_vec(copies))
}

/// A copy of a plan. Fails only if out of memory.
fn plan_of(alloc: Global, plan: &Plan) -> Result<Plan, AllocError>
    ensures { IfOk result (λ copy. copy ≡ plan.now) }
{
    let conditions = Vec::from_slice(alloc, plan.conditions.as_slice())?;
    let groups = Vec::from_slice(alloc, plan.groups.as_slice())?;
    let aggregates = Vec::from_slice(alloc, plan.aggregates.as_slice())?;
    Ok(Plan {
        table: plan.table,
        join: plan.join,
        conditions: ConditionList::from_vec(conditions),
        groups: ColumnList::from_vec(groups),
        aggregates: AggregateList::from_vec(aggregates),
    })
}

/// Whether two plans are equal.
fn are_equal(plan: &Plan, other: &Plan) -> bool
    ensures { result ≡ true → plan.now ≡ other.now }
{
    are_alike(plan, other)
        && are_same_conditions(plan.conditions.as_slice(), other.conditions.as_slice())
        && are_same_aggregates(plan.aggregates.as_slice(), other.aggregates.as_slice())
}

fn are_same_conditions(conditions: &[Condition], others: &[Condition]) -> bool
    ensures { result ≡ true → conditions.now ≡ others.now }
{
    if conditions.len() != others.len() {
        return false;
    }
    for index in 0..conditions.len() {
        if !is_same_condition(&conditions[index], &others[index]) {
            return false;
        }
    }
    true
}

fn is_same_condition(condition: &Condition, other: &Condition) -> bool
    ensures { result ≡ true → condition.now ≡ other.now }
{
    if !is_same_column(condition.column, other.column) {
        return false;
    }
    if !is_same_comparison(condition.comparison, other.comparison) {
        return false;
    }
    compare(&condition.value, &other.value).is_eq()
}

fn is_same_comparison(comparison: Comparison, other: Comparison) -> bool
    ensures { result ≡ true → comparison ≡ other }
{
    match (comparison, other) {
        (Comparison::Equal, Comparison::Equal) => true,
        (Comparison::NotEqual, Comparison::NotEqual) => true,
        (Comparison::Less, Comparison::Less) => true,
        (Comparison::AtMost, Comparison::AtMost) => true,
        (Comparison::Greater, Comparison::Greater) => true,
        (Comparison::AtLeast, Comparison::AtLeast) => true,
        _ => false,
    }
}

fn are_same_aggregates(aggregates: &[Aggregate], others: &[Aggregate]) -> bool
    ensures { result ≡ true → aggregates.now ≡ others.now }
{
    if aggregates.len() != others.len() {
        return false;
    }
    for index in 0..aggregates.len() {
        if !is_same_aggregate(aggregates[index], others[index]) {
            return false;
        }
    }
    true
}

fn is_same_aggregate(aggregate: Aggregate, other: Aggregate) -> bool
    ensures { result ≡ true → aggregate ≡ other }
{
    match (aggregate, other) {
        (Aggregate::Count, Aggregate::Count) => true,
        (Aggregate::Sum(column), Aggregate::Sum(other)) => is_same_column(column, other),
        (Aggregate::Min(column), Aggregate::Min(other)) => is_same_column(column, other),
        (Aggregate::Max(column), Aggregate::Max(other)) => is_same_column(column, other),
        _ => false,
    }
}
