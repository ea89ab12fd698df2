//! Reading the words of a plan.

ghost use Rattle.std.specs.Prelude.{◌≡◌, map, None, Some, IfOk, MatchOption};
ghost use Rattle.script.specs.Inner.LineFaults.{Gives, because};
ghost use Rattle.script.specs.Inner.PlanParts.{lent_lists, named, Finds};
ghost use Rattle.script.specs.Inner.PlanReading.{column_of, comparison_of, condition_behind, column_first, by_first};
ghost use Rattle.script.specs.Inner.PlanReading.{aggregate_of, aggregate_first, get_first, conditions_of, groups_of, aggregates_of};
ghost use Rattle.script.specs.Inner.PlanReading.{query_of, join_of, join_table, plan_on, plan_of};
ghost use Rattle.script.specs.Inner.WordReading.{table_of};

use crate::faults::{LineFault, Reason};
use crate::table_names::named_table;
use crate::word_reading::{is_name, small_number, value_of};
use queries::{
    Aggregate, AggregateList, Column, ColumnList, Comparison, Condition, ConditionList, Join, Plan,
};
use rows::Schema;
use std::alloc::{AllocError, Global};

/// The plan that words spell, on the tables of a schema: `query NAME`, then optionally `join COL
/// NAME`, `where COND and COND ..` and `by COL ..`, and then `get AGG ..`. The numbers of
/// conditions, columns and aggregates have no limit here, and it is not checked whether the plan
/// fits the schema.
///
/// Fails with `BadWords`, with `NoTable` if the only fault is that a table is not there, or with
/// `Memory`.
pub fn read_plan_words(alloc: Global, schema: &Schema, words: &[&[u8]]) -> Result<Plan, LineFault>
    ensures { Gives (plan_of schema.now (map (λ word. word.now) words.now)) result }
{
    let Some((name, behind_name)) = read_query(words) else {
        return Err(LineFault::Because(Reason::BadWords));
    };
    let (joined, behind_join) = read_join(behind_name);
    let Ok((conditions, behind_conditions)) = read_conditions(alloc, behind_join) else {
        return Err(LineFault::Memory);
    };
    let Ok((groups, behind_groups)) = read_groups(alloc, behind_conditions) else {
        return Err(LineFault::Memory);
    };
    let Ok((aggregates, left)) = read_aggregates(alloc, behind_groups) else {
        return Err(LineFault::Memory);
    };
    if aggregates.is_empty() {
        return Err(LineFault::Because(Reason::BadWords));
    }
    if !left.is_empty() {
        return Err(LineFault::Because(Reason::BadWords));
    }
    plan_on(schema, name, joined, conditions, groups, aggregates)
}

/// The plan of these parts, with the tables of these names.
fn plan_on(
    schema: &Schema,
    name: &[u8],
    joined: Option<(u8, &[u8])>,
    conditions: Vec<Condition>,
    groups: Vec<Column>,
    aggregates: Vec<Aggregate>,
) -> Result<Plan, LineFault>
    ensures { result ≡ because (plan_on (table_of schema.now name.now) (join_table schema.now (named joined.entry))
        conditions.items groups.items aggregates.items) }
{
    let table = named_table(schema, name)?;
    let join = named_join(schema, joined)?;
    Ok(Plan {
        table,
        join,
        conditions: ConditionList::from_vec(conditions),
        groups: ColumnList::from_vec(groups),
        aggregates: AggregateList::from_vec(aggregates),
    })
}

/// The name after `query`, and the words after it.
#[tactic(auto, unfolding(crate::specs::Inner::PlanReading::query_of))]
fn read_query<'a>(words: &'a [&'a [u8]]) -> Option<(&'a [u8], &'a [&'a [u8]])>
    ensures { MatchOption result (query_of (lent_lists words.now) ≡ None)
        (λ it. query_of (lent_lists words.now) ≡ Some (it.0.now, lent_lists it.1.now)) }
{
    let [word, name, behind @ ..] = words else {
        return None;
    };
    if *word != b"query".as_slice() {
        return None;
    }
    if !is_name(name) {
        return None;
    }
    Some((name, behind))
}

/// A join's column and the name of its table, if there is a join, and the words after it.
#[tactic(auto, unfolding(crate::specs::Inner::PlanReading::join_of))]
fn read_join<'a>(words: &'a [&'a [u8]]) -> (Option<(u8, &'a [u8])>, &'a [&'a [u8]])
    ensures { join_of (lent_lists words.now) ≡ (named result.0, lent_lists result.1.now) }
{
    let [word, column, name, behind @ ..] = words else {
        return (None, words);
    };
    if *word != b"join".as_slice() {
        return (None, words);
    }
    if !is_name(name) {
        return (None, words);
    }
    match small_number(column) {
        Some(column) => (Some((column, name)), behind),
        None => (None, words),
    }
}

/// The join with the table of that name.
fn named_join(schema: &Schema, joined: Option<(u8, &[u8])>) -> Result<Option<Join>, LineFault>
    ensures { result ≡ because (join_table schema.now (named joined.entry)) }
{
    match joined {
        None => Ok(None),
        Some((column, name)) => {
            let table = named_table(schema, name)?;
            Ok(Some(Join { column, table }))
        }
    }
}

/// The conditions, if there are any, and the words after them.
#[tactic(auto, unfolding(crate::specs::Inner::PlanReading::conditions_of))]
fn read_conditions<'a>(
    alloc: Global,
    words: &'a [&'a [u8]],
) -> Result<(Vec<Condition>, &'a [&'a [u8]]), AllocError>
    ensures { IfOk result (λ it. conditions_of (lent_lists words.now) ≡ (it.0.items, lent_lists it.1.now)) }
{
    let mut conditions = Vec::new(alloc);
    let Some((first, behind_first)) = condition_behind(b"where".as_slice(), words) else {
        return Ok((conditions, words));
    };
    conditions.push(first)?;
    let mut left = behind_first;
    for _ in 0..behind_first.len() {
        let Some((condition, behind)) = condition_behind(b"and".as_slice(), left) else {
            return Ok((conditions, left));
        };
        conditions.push(condition)?;
        left = behind;
    }
    Ok((conditions, left))
}

/// This word and a condition, and the words after them.
#[tactic(auto, unfolding(crate::specs::Inner::PlanReading::condition_behind))]
fn condition_behind<'a>(
    opening: &[u8],
    words: &'a [&'a [u8]],
) -> Option<(Condition, &'a [&'a [u8]])>
    ensures { Finds (condition_behind opening.now (lent_lists words.now)) result }
{
    let [word, column, comparison, value, behind @ ..] = words else {
        return None;
    };
    if *word != opening {
        return None;
    }
    let condition = Condition {
        column: read_column(column)?,
        comparison: read_comparison(comparison)?,
        value: value_of(value)?,
    };
    Some((condition, behind))
}

/// A column: a decimal number up to 255, after `j` if it is one of the joined table.
#[tactic(auto, unfolding(crate::specs::Inner::PlanReading::column_of))]
fn read_column(word: &[u8]) -> Option<Column>
    ensures { result ≡ column_of word.now }
{
    match word {
        [b'j', column @ ..] => Some(Column::Joined(small_number(column)?)),
        column => Some(Column::Own(small_number(column)?)),
    }
}

#[tactic(auto, unfolding(crate::specs::Inner::PlanReading::comparison_of))]
fn read_comparison(word: &[u8]) -> Option<Comparison>
    ensures { result ≡ comparison_of word.now }
{
    if word == b"=".as_slice() {
        Some(Comparison::Equal)
    } else if word == b"!=".as_slice() {
        Some(Comparison::NotEqual)
    } else if word == b"<".as_slice() {
        Some(Comparison::Less)
    } else if word == b"<=".as_slice() {
        Some(Comparison::AtMost)
    } else if word == b">".as_slice() {
        Some(Comparison::Greater)
    } else if word == b">=".as_slice() {
        Some(Comparison::AtLeast)
    } else {
        None
    }
}

/// The columns by which rows are grouped, if there are any, and the words after them.
#[tactic(auto, unfolding(crate::specs::Inner::PlanReading::groups_of))]
fn read_groups<'a>(
    alloc: Global,
    words: &'a [&'a [u8]],
) -> Result<(Vec<Column>, &'a [&'a [u8]]), AllocError>
    ensures { IfOk result (λ it. groups_of (lent_lists words.now) ≡ (it.0.items, lent_lists it.1.now)) }
{
    let mut groups = Vec::new(alloc);
    let Some((first, behind_first)) = by_first(words) else {
        return Ok((groups, words));
    };
    groups.push(first)?;
    let mut left = behind_first;
    for _ in 0..behind_first.len() {
        let Some((column, behind)) = column_first(left) else {
            return Ok((groups, left));
        };
        groups.push(column)?;
        left = behind;
    }
    Ok((groups, left))
}

/// `by` and a column, and the words after them.
#[tactic(auto, unfolding(crate::specs::Inner::PlanReading::by_first))]
fn by_first<'a>(words: &'a [&'a [u8]]) -> Option<(Column, &'a [&'a [u8]])>
    ensures { Finds (by_first (lent_lists words.now)) result }
{
    let [word, behind @ ..] = words else {
        return None;
    };
    if *word != b"by".as_slice() {
        return None;
    }
    column_first(behind)
}

/// A column, and the words after it.
#[tactic(auto, unfolding(crate::specs::Inner::PlanReading::column_first))]
fn column_first<'a>(words: &'a [&'a [u8]]) -> Option<(Column, &'a [&'a [u8]])>
    ensures { Finds (column_first (lent_lists words.now)) result }
{
    let [word, behind @ ..] = words else {
        return None;
    };
    let column = read_column(word)?;
    Some((column, behind))
}

/// The aggregates, if there are any, and the words after them.
#[tactic(auto, unfolding(crate::specs::Inner::PlanReading::aggregates_of))]
fn read_aggregates<'a>(
    alloc: Global,
    words: &'a [&'a [u8]],
) -> Result<(Vec<Aggregate>, &'a [&'a [u8]]), AllocError>
    ensures { IfOk result (λ it. aggregates_of (lent_lists words.now) ≡ (it.0.items, lent_lists it.1.now)) }
{
    let mut aggregates = Vec::new(alloc);
    let Some((first, behind_first)) = get_first(words) else {
        return Ok((aggregates, words));
    };
    aggregates.push(first)?;
    let mut left = behind_first;
    for _ in 0..behind_first.len() {
        let Some((aggregate, behind)) = aggregate_first(left) else {
            return Ok((aggregates, left));
        };
        aggregates.push(aggregate)?;
        left = behind;
    }
    Ok((aggregates, left))
}

/// `get` and an aggregate, and the words after them.
#[tactic(auto, unfolding(crate::specs::Inner::PlanReading::get_first))]
fn get_first<'a>(words: &'a [&'a [u8]]) -> Option<(Aggregate, &'a [&'a [u8]])>
    ensures { Finds (get_first (lent_lists words.now)) result }
{
    let [word, behind @ ..] = words else {
        return None;
    };
    if *word != b"get".as_slice() {
        return None;
    }
    aggregate_first(behind)
}

/// An aggregate, and the words after it.
#[tactic(auto, unfolding(crate::specs::Inner::PlanReading::aggregate_first))]
fn aggregate_first<'a>(words: &'a [&'a [u8]]) -> Option<(Aggregate, &'a [&'a [u8]])>
    ensures { Finds (aggregate_first (lent_lists words.now)) result }
{
    let [word, behind @ ..] = words else {
        return None;
    };
    if *word == b"count".as_slice() {
        return Some((Aggregate::Count, behind));
    }
    let [column, behind_column @ ..] = behind else {
        return None;
    };
    let aggregate = aggregate_of(word, column)?;
    Some((aggregate, behind_column))
}

/// What is asked of a column.
#[tactic(auto, unfolding(crate::specs::Inner::PlanReading::aggregate_of))]
fn aggregate_of(word: &[u8], column: &[u8]) -> Option<Aggregate>
    ensures { result ≡ aggregate_of word.now column.now }
{
    if word == b"sum".as_slice() {
        Some(Aggregate::Sum(read_column(column)?))
    } else if word == b"min".as_slice() {
        Some(Aggregate::Min(read_column(column)?))
    } else if word == b"max".as_slice() {
        Some(Aggregate::Max(read_column(column)?))
    } else {
        None
    }
}
