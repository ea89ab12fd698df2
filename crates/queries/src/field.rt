use rows::Value;

/// One word of a report's line.
#[derive(Clone, Copy, PartialEq, Eq)]
pub enum Field {
    /// A value of a row: one by which the rows were grouped, or a least or greatest value.
    Stored(Value),
    /// A count or a sum.
    Number(i128),
    /// The least or the greatest value of no rows.
    Absent,
}
