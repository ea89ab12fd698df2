use crate::column::Column;
use rows::Value;

/// How a column's value is compared with another value.
#[derive(Clone, Copy, PartialEq, Eq)]
pub enum Comparison {
    Equal,
    NotEqual,
    Less,
    AtMost,
    Greater,
    AtLeast,
}

/// A condition on a row: its value in the column, compared with this value.
#[derive(Clone, Copy, PartialEq, Eq)]
pub struct Condition {
    pub column: Column,
    pub comparison: Comparison,
    /// A value of the column's kind.
    pub value: Value,
}
