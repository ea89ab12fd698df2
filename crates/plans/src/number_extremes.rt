//! Least and greatest values of groups, with rows more whose values are numbers: each is compared as a
//! number, and no value is made of it unless it is kept.

ghost use Rattle.std.specs.Prelude.{◌≡◌, ℕ, ◌<◌, length, map, if◌then◌else◌, slice_index_or};
ghost use Rattle.rows.specs.declared.value.Value.TheVariants.{Int};
ghost use Rattle.queries.specs.declared.field.Field.{Field as AnyField};
ghost use Rattle.queries.specs.declared.field.Field.TheVariants.{Stored};
ghost use Rattle.queries.specs.Answers.{lesser, greater};
ghost use Rattle.plans.specs.Inner.Kept.{extreme};
ghost use Rattle.plans.specs.Inner.Picked.{ArePlaces, picked, folded};
ghost use Rattle.plans.specs.Inner.Numbered.{with_extreme};

use queries::{Aggregate, Field};
use rows::Value;

/// Puts the least or the greatest number of the rows of its group in place of each value that it is
/// better than, or of none.
pub fn add_number_extremes(
    fields: &mut [Field],
    aggregate: Aggregate,
    numbers: &[u32],
    values: &[i64],
)
    requires same { length numbers.now ≡ length values.now }
    requires places { ArePlaces (length fields.old) numbers.now }
    ensures sizes { length fields.new ≡ length fields.old }
    ensures fields { (n : ℕ) (d : AnyField) → n < length fields.old
        → slice_index_or fields.new n d
        ≡ folded (with_extreme aggregate) (slice_index_or fields.old n d) (picked n numbers.now (map Int values.now)) }
{
    for i in 0..numbers.len() {
        put_extreme(&mut fields[numbers[i] as usize], aggregate, values[i]);
    }
}

/// Puts a number in place of a value that it is better than, or of none.
fn put_extreme(field: &mut Field, aggregate: Aggregate, number: i64)
    ensures { field.new ≡ with_extreme aggregate field.old (Int number) }
{
    let is_better = match aggregate {
        Aggregate::Count => false,
        Aggregate::Sum(_) => false,
        Aggregate::Min(_) => is_less(number, field),
        Aggregate::Max(_) => is_greater(number, field),
    };
    if is_better {
        *field = Field::Stored(Value::Int(number));
    }
}

/// Whether a number is less than the least value so far, or the first.
fn is_less(number: i64, least: &Field) -> bool
    ensures { extreme lesser least.now (Int number) ≡ (if result then Stored (Int number) else least.now) }
{
    match least {
        Field::Stored(Value::Int(held)) => held.cmp(&number).is_gt(),
        Field::Stored(Value::Octets(_)) => true,
        Field::Number(_) | Field::Absent => true,
    }
}

/// Whether a number is greater than the greatest value so far, or the first.
fn is_greater(number: i64, greatest: &Field) -> bool
    ensures { extreme greater greatest.now (Int number) ≡ (if result then Stored (Int number) else greatest.now) }
{
    match greatest {
        Field::Stored(Value::Int(held)) => number.cmp(held).is_gt(),
        Field::Stored(Value::Octets(_)) => false,
        Field::Number(_) | Field::Absent => true,
    }
}
