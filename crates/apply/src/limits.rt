//! How many partitions a store of columns has.

/// Partitions of a store, at most.
pub const PARTITIONS_MAX: usize = 64;

/// Partitions of a replica's store.
pub const PARTITIONS: usize = 8;
