//! How values compare.

ghost use Rattle.std.specs.Prelude.{◌≡◌};
ghost use Rattle.std.specs.Ordering.{nat_cmp};
ghost use Rattle.std.specs.Cmp.Lexicographic.{slice_cmp};
ghost use Rattle.queries.specs.Order.{value_cmp, group_cmp};
ghost use Rattle.queries.specs.Answers.{passes, lesser, greater};

use queries::Comparison;
use rows::Value;
use std::cmp::Ordering;

/// The order of two values: numbers compare as numbers, octets by the first byte that differs.
pub fn compare(value: &Value, other: &Value) -> Ordering
    ensures { result ≡ value_cmp value.now other.now }
{
    match (value, other) {
        (Value::Int(number), Value::Int(other)) => number.cmp(other),
        (Value::Int(_), Value::Octets(_)) => Ordering::Less,
        (Value::Octets(_), Value::Int(_)) => Ordering::Greater,
        (Value::Octets(bytes), Value::Octets(other)) => {
            compare_bytes(bytes.as_slice(), other.as_slice())
        }
    }
}

fn compare_bytes<'b>(bytes: &'b [u8], other: &'b [u8]) -> Ordering
    ensures { result ≡ slice_cmp nat_cmp bytes.now other.now }
{
    Ord::cmp(&bytes, &other)
}

/// The order of two groups: by the first of their values that differ.
pub fn compare_groups(group: &[Value], other: &[Value]) -> Ordering
    ensures { result ≡ group_cmp group.now other.now }
{
    let Some((value, values)) = group.split_first() else {
        return if other.is_empty() {
            Ordering::Equal
        } else {
            Ordering::Less
        };
    };
    let Some((other_value, other_values)) = other.split_first() else {
        return Ordering::Greater;
    };
    compare(value, other_value).then(compare_groups(values, other_values))
}

/// Whether a value in this order to another one passes a comparison with it.
pub fn passes(comparison: Comparison, order: Ordering) -> bool
    ensures { result ≡ passes comparison order }
{
    match comparison {
        Comparison::Equal => order.is_eq(),
        Comparison::NotEqual => order.is_ne(),
        Comparison::Less => order.is_lt(),
        Comparison::AtMost => order.is_le(),
        Comparison::Greater => order.is_gt(),
        Comparison::AtLeast => order.is_ge(),
    }
}

/// The lesser of two values, or the first if neither is less.
pub fn lesser(value: Value, other: Value) -> Value
    ensures { result ≡ lesser value other }
{
    if compare(&value, &other).is_gt() {
        other
    } else {
        value
    }
}

/// The greater of two values, or the first if neither is greater.
pub fn greater(value: Value, other: Value) -> Value
    ensures { result ≡ greater value other }
{
    if compare(&other, &value).is_gt() {
        other
    } else {
        value
    }
}
