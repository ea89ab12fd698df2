use rows::Value;

/// What the rows of a block contribute to an aggregate.
#[derive(Clone, Copy)]
pub enum Input<'a> {
    /// Just that they are there: for a count.
    Rows,
    /// A number of each row: for a sum, and for the least or the greatest of numbers.
    Numbers(&'a [i64]),
    /// A value of each row: for the least or the greatest of others.
    Values(&'a [Value]),
}
