//! Whether values match columns.

ghost use Rattle.std.specs.Prelude.{◌≡◌};
ghost use Rattle.rows.specs.Values.{are_of_kinds, is_of_kind};

use rows::{Kind, Value};

/// Whether these are values of columns of these kinds, one each.
pub fn are_values_of(values: &[Value], kinds: &[Kind]) -> bool
    ensures { result ≡ are_of_kinds values.now kinds.now }
{
    values.len() == kinds.len()
        && values
            .iter()
            .zip(kinds)
            .all(|(value, kind)| is_value_of(value, kind))
}

/// Whether this is a value of a column of this kind.
pub fn is_value_of(value: &Value, kind: &Kind) -> bool
    ensures { result ≡ is_of_kind value.now kind.now }
{
    match (value, kind) {
        (Value::Int(_), Kind::Int) => true,
        (Value::Octets(bytes), Kind::Octets(width)) => bytes.as_slice().len() == *width as usize,
        (Value::Int(_), Kind::Octets(_)) | (Value::Octets(_), Kind::Int) => false,
    }
}
