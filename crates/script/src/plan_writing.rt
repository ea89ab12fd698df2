//! Writing the words of a plan.

ghost use Rattle.std.specs.Prelude.{◌≡◌, ◌∷◌, [], ◌++◌, OnOk, codes};
ghost use Rattle.std.specs.List.{flat_map};
ghost use Rattle.script.specs.Inner.Lines.{word_text, tail_text};
ghost use Rattle.script.specs.PlanText.{column_text, comparison_text, condition_words, aggregate_words, join_words, where_words, by_words};
ghost use Rattle.script.specs.PlanText.{and_words, plan_words};
ghost use Rattle.script.specs.Tables.{name_in};

use crate::lines::{Word, push_tail};
use crate::table_names::name_of;
use queries::{Aggregate, Column, Comparison, Condition, Join, Plan};
use rows::Schema;
use std::alloc::AllocError;

/// Adds the words of a plan, each after a space. Tables have their names in the schema.
pub fn push_plan(text: &mut Vec<u8>, schema: &Schema, plan: &Plan) -> Result<(), AllocError>
    ensures { OnOk result (text.new.items ≡ text.old.items ++ tail_text (plan_words (name_in schema.now) plan.now)) }
{
    push_query(text, name_of(schema, plan.table))?;
    push_join(text, schema, plan.join)?;
    push_conditions(text, plan.conditions.as_slice())?;
    push_groups(text, plan.groups.as_slice())?;
    push_aggregates(text, plan.aggregates.as_slice())
}

/// Adds `query` and the name of a table.
fn push_query(text: &mut Vec<u8>, name: &str) -> Result<(), AllocError>
    ensures { OnOk result (text.new.items ≡ text.old.items ++ tail_text (codes "query" ∷ name.now ∷ [])) }
{
    push_tail(text, &[Word::Text("query"), Word::Text(name)])
}

fn push_join(text: &mut Vec<u8>, schema: &Schema, join: Option<Join>) -> Result<(), AllocError>
    ensures { OnOk result (text.new.items ≡ text.old.items ++ tail_text (join_words (name_in schema.now) join)) }
{
    let Some(join) = join else {
        return Ok(());
    };
    let words = [
        Word::Text("join"),
        Word::Number(u64::from(join.column)),
        Word::Text(name_of(schema, join.table)),
    ];
    push_tail(text, &words)
}

fn push_conditions(text: &mut Vec<u8>, conditions: &[Condition]) -> Result<(), AllocError>
    ensures { OnOk result (text.new.items ≡ text.old.items ++ tail_text (where_words conditions.now)) }
{
    let [first, others @ ..] = conditions else {
        return Ok(());
    };
    push_condition(text, "where", first)?;
    push_other_conditions(text, others)
}

fn push_other_conditions(text: &mut Vec<u8>, conditions: &[Condition]) -> Result<(), AllocError>
    ensures { OnOk result (text.new.items ≡ text.old.items ++ tail_text (flat_map and_words conditions.now)) }
{
    for condition in conditions {
        push_condition(text, "and", condition)?;
    }
    Ok(())
}

/// Adds this word and a condition.
fn push_condition(
    text: &mut Vec<u8>,
    opening: &str,
    condition: &Condition,
) -> Result<(), AllocError>
    ensures { OnOk result (text.new.items ≡ text.old.items ++ tail_text (opening.now ∷ condition_words condition.now)) }
{
    let words = [
        Word::Text(opening),
        column_word(condition.column),
        Word::Text(comparison_word(condition.comparison)),
        Word::Value(&condition.value),
    ];
    push_tail(text, &words)
}

fn column_word(column: Column) -> Word<'static>
    ensures { word_text result ≡ column_text column }
{
    match column {
        Column::Own(number) => Word::Number(u64::from(number)),
        Column::Joined(number) => Word::Numbered("j", u64::from(number)),
    }
}

fn comparison_word(comparison: Comparison) -> &'static str
    ensures { result.now ≡ comparison_text comparison }
{
    match comparison {
        Comparison::Equal => "=",
        Comparison::NotEqual => "!=",
        Comparison::Less => "<",
        Comparison::AtMost => "<=",
        Comparison::Greater => ">",
        Comparison::AtLeast => ">=",
    }
}

fn push_groups(text: &mut Vec<u8>, groups: &[Column]) -> Result<(), AllocError>
    ensures { OnOk result (text.new.items ≡ text.old.items ++ tail_text (by_words groups.now)) }
{
    if groups.is_empty() {
        return Ok(());
    }
    push_tail(text, &[Word::Text("by")])?;
    for column in groups {
        push_tail(text, &[column_word(*column)])?;
    }
    Ok(())
}

fn push_aggregates(text: &mut Vec<u8>, aggregates: &[Aggregate]) -> Result<(), AllocError>
    ensures { OnOk result (text.new.items
        ≡ text.old.items ++ tail_text (codes "get" ∷ flat_map aggregate_words aggregates.now)) }
{
    push_tail(text, &[Word::Text("get")])?;
    for aggregate in aggregates {
        push_aggregate(text, *aggregate)?;
    }
    Ok(())
}

fn push_aggregate(text: &mut Vec<u8>, aggregate: Aggregate) -> Result<(), AllocError>
    ensures { OnOk result (text.new.items ≡ text.old.items ++ tail_text (aggregate_words aggregate)) }
{
    match aggregate {
        Aggregate::Count => push_tail(text, &[Word::Text("count")]),
        Aggregate::Sum(column) => push_tail(text, &[Word::Text("sum"), column_word(column)]),
        Aggregate::Min(column) => push_tail(text, &[Word::Text("min"), column_word(column)]),
        Aggregate::Max(column) => push_tail(text, &[Word::Text("max"), column_word(column)]),
    }
}
