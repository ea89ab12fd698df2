//! The limits of a plan, each defined once.

/// Conditions of a plan, at most.
pub const CONDITIONS_MAX: usize = 8;

/// Columns by which a plan groups, at most.
pub const GROUPS_MAX: usize = 2;

/// Aggregates of a plan, at most.
pub const AGGREGATES_MAX: usize = 8;
