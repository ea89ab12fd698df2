use thiserror::Error;

/// Why a plan does not fit the tables.
///
/// The first that applies is reported: too many of something, no aggregate, no table; and then
/// column by column, for the join, the conditions, the grouping and the aggregates in turn, a
/// column that is not there, or one of the wrong kind.
#[derive(Clone, Copy, Debug, PartialEq, Eq, Error)]
pub enum PlanFault {
    /// The schema has no table of the plan's number, or of its join's.
    #[error("no such table")]
    NoTable,
    /// The table has no such column, or there is no join whose column it could be.
    #[error("no such column")]
    NoColumn,
    /// A join by a column that is not of numbers, a value that is not of its column's kind, or a
    /// sum of octets.
    #[error("wrong kind of a column")]
    WrongKind,
    /// More than 8 conditions, 2 columns to group by or 8 aggregates.
    #[error("too many conditions, columns to group by or aggregates")]
    TooMany,
    #[error("no aggregate")]
    NoAggregate,
}
