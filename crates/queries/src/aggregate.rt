use crate::column::Column;

/// What a plan asks of each group of rows.
#[derive(Clone, Copy, PartialEq, Eq)]
pub enum Aggregate {
    /// How many rows it has.
    Count,
    /// The exact sum of a column of numbers; 0 for no rows.
    Sum(Column),
    /// The least value of a column; none for no rows.
    Min(Column),
    /// The greatest value of a column; none for no rows.
    Max(Column),
}
