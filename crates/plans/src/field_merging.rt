//! Merging what was computed of rows with what was computed of others behind them.

ghost use Rattle.std.specs.Prelude.{◌≡◌, ℕ, ◌+◌, ◌^◌, ◌<◌, Some, IfSome};
ghost use Rattle.std.specs.List.{All};
ghost use Rattle.std.specs.Option.{option_copied};
ghost use Rattle.queries.specs.Answers.{lesser, greater};
ghost use Rattle.plans.specs.Inner.Kept.{IsWithin};
ghost use Rattle.plans.specs.Inner.Merged.{added, better_of, merged, merged_all, merged_at};

use crate::comparing::{greater, lesser};
use queries::{Aggregate, Field, FieldList};

/// The aggregates of a group that has those of at most so many others, and may have those of at most so
/// many rows before them.
pub fn merged_with(
    aggregates: &[Aggregate],
    held: Option<&FieldList>,
    others: FieldList,
    rows: usize,
    other_rows: usize,
) -> FieldList
    requires held { IfSome (option_copied held) (λ held. All (IsWithin rows) held) }
    requires others { All (IsWithin other_rows) others }
    requires few { rows + other_rows < 2 ^ 64 }
    ensures fields { Some result ≡ merged_at aggregates.now (option_copied held.entry) (Some others) }
    ensures within { All (IsWithin (rows + other_rows)) result }
{
    match held {
        None => others,
        Some(held) => merged_all(aggregates, held.as_slice(), others, rows, other_rows),
    }
}

/// Aggregates of at most so many rows, merged with those of at most so many others.
fn merged_all(
    aggregates: &[Aggregate],
    fields: &[Field],
    mut others: FieldList,
    rows: usize,
    other_rows: usize,
) -> FieldList
    requires fields { All (IsWithin rows) fields.now }
    requires others { All (IsWithin other_rows) others }
    requires few { rows + other_rows < 2 ^ 64 }
    ensures fields { result ≡ merged_all aggregates.now fields.now others }
    ensures within { All (IsWithin (rows + other_rows)) result }
{
    for index in 0..aggregates.len() {
        if index >= fields.len() {
            return others;
        }
        let Some(other) = others.get(index) else {
            return others;
        };
        let field = merged(aggregates[index], fields[index], other, rows, other_rows);
        others.set(index, field);
    }
    others
}

/// An aggregate of at most so many rows, merged with that of at most so many others.
fn merged(aggregate: Aggregate, field: Field, other: Field, rows: usize, other_rows: usize) -> Field
    requires field { IsWithin rows field }
    requires other { IsWithin other_rows other }
    requires few { rows + other_rows < 2 ^ 64 }
    ensures value { result ≡ merged aggregate field other }
    ensures within { IsWithin (rows + other_rows) result }
{
    match aggregate {
        Aggregate::Count => added(field, other, rows, other_rows),
        Aggregate::Sum(_) => added(field, other, rows, other_rows),
        Aggregate::Min(_) => lesser_of(field, other),
        Aggregate::Max(_) => greater_of(field, other),
    }
}

/// A sum of at most so many numbers of 64 bits, and that of at most so many others. It fits 128
/// bits: they are fewer than two to the 64th.
fn added(field: Field, other: Field, rows: usize, other_rows: usize) -> Field
    requires field { IsWithin rows field }
    requires other { IsWithin other_rows other }
    requires few { rows + other_rows < 2 ^ 64 }
    ensures value { result ≡ added field other }
    ensures within { IsWithin (rows + other_rows) result }
{
    match field {
        Field::Number(sum) => match other {
            Field::Number(more) => Field::Number(sum + more),
            Field::Stored(_) | Field::Absent => Field::Number(sum),
        },
        Field::Stored(held) => Field::Stored(held),
        Field::Absent => Field::Absent,
    }
}

/// The lesser of two values that there may be none of.
fn lesser_of(field: Field, other: Field) -> Field
    ensures value { result ≡ better_of lesser field other }
    ensures within { (rows : ℕ) → IsWithin rows other → IsWithin rows result }
{
    match field {
        Field::Stored(least) => match other {
            Field::Stored(value) => Field::Stored(lesser(least, value)),
            Field::Number(_) | Field::Absent => Field::Stored(least),
        },
        Field::Number(_) | Field::Absent => other,
    }
}

/// The greater of two values that there may be none of.
fn greater_of(field: Field, other: Field) -> Field
    ensures value { result ≡ better_of greater field other }
    ensures within { (rows : ℕ) → IsWithin rows other → IsWithin rows result }
{
    match field {
        Field::Stored(greatest) => match other {
            Field::Stored(value) => Field::Stored(greater(greatest, value)),
            Field::Number(_) | Field::Absent => Field::Stored(greatest),
        },
        Field::Number(_) | Field::Absent => other,
    }
}
