//! Adding a row to aggregates.

ghost use Rattle.std.specs.Prelude.{◌≡◌, ◌+◌, true};
ghost use Rattle.std.specs.List.{All, AllByRecursion};
ghost use Rattle.queries.specs.Answers.{integer_of};
ghost use Rattle.plans.specs.Inner.Kept.{grown, grown_all, summed, extreme, input_of, HasInput, IsWithin};
ghost use Rattle.plans.specs.Inner.Places.{row_at_place};

use crate::comparing::{greater, lesser};
use crate::row_place::{RowPlace, joined_value};
use queries::{Aggregate, Field, FieldList};
use rows::Value;
use store::Store;

/// Adds a row to the aggregates of its group, which has at most this many rows.
pub fn grow<S: Store>(
    store: &S,
    row: &RowPlace<S::Place>,
    aggregates: &[Aggregate],
    fields: &mut FieldList,
    rows: usize,
)
    requires whole { S.is_whole store.now ≡ true }
    requires there { AllByRecursion (HasInput (row_at_place (S.values_at store.now) row.now)) aggregates.now }
    requires within { All (IsWithin rows) fields.old }
    ensures fields { fields.new ≡ grown_all (row_at_place (S.values_at store.now) row.now) aggregates.now fields.old }
    ensures within { All (IsWithin (rows + 1)) fields.new }
{
    for (index, aggregate) in aggregates.iter().enumerate() {
        let value = input_of(store, row, *aggregate);
        if let Some(field) = fields.get(index) {
            fields.set(index, grown(*aggregate, field, value, rows));
        }
    }
}

/// What a row contributes to an aggregate: 1 for a count, and otherwise the value of its column.
fn input_of<S: Store>(store: &S, row: &RowPlace<S::Place>, aggregate: Aggregate) -> Value
    requires whole { S.is_whole store.now ≡ true }
    requires there { HasInput (row_at_place (S.values_at store.now) row.now) aggregate }
    ensures { result ≡ input_of (row_at_place (S.values_at store.now) row.now) aggregate }
{
    match aggregate {
        Aggregate::Count => Value::Int(1),
        Aggregate::Sum(column) => joined_value(store, row, column),
        Aggregate::Min(column) => joined_value(store, row, column),
        Aggregate::Max(column) => joined_value(store, row, column),
    }
}

/// An aggregate of at most this many rows, after one more row that contributes this value.
fn grown(aggregate: Aggregate, field: Field, value: Value, rows: usize) -> Field
    requires { IsWithin rows field }
    ensures value { result ≡ grown aggregate field value }
    ensures within { IsWithin (rows + 1) result }
{
    match aggregate {
        Aggregate::Count => summed(field, value, rows),
        Aggregate::Sum(_) => summed(field, value, rows),
        Aggregate::Min(_) => match field {
            Field::Stored(least) => Field::Stored(lesser(least, value)),
            Field::Number(_) | Field::Absent => Field::Stored(value),
        },
        Aggregate::Max(_) => match field {
            Field::Stored(greatest) => Field::Stored(greater(greatest, value)),
            Field::Number(_) | Field::Absent => Field::Stored(value),
        },
    }
}

/// A sum of at most this many numbers, plus one more. It fits 128 bits: there are fewer than two to
/// the 64th rows, each with a number of 64 bits.
fn summed(field: Field, value: Value, rows: usize) -> Field
    requires { IsWithin rows field }
    ensures value { result ≡ summed field value }
    ensures within { IsWithin (rows + 1) result }
{
    match field {
        Field::Number(sum) => Field::Number(sum + i128::from(integer_of(value))),
        Field::Stored(held) => Field::Stored(held),
        Field::Absent => Field::Absent,
    }
}

/// The number that a value is; 0 for octets.
fn integer_of(value: Value) -> i64
    ensures { result ≡ integer_of value }
{
    match value {
        Value::Int(number) => number,
        Value::Octets(_) => 0,
    }
}
