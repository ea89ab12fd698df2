//! How many bytes a datagram has, by its kind: those that `update_log` does not tell.

/// Bytes of an Ask, and of a Pull.
pub const ASK_LEN: usize = 23;

/// Bytes of a Head before its counts.
pub const HEAD_FRONT_LEN: usize = 48;

/// Bytes of a Head for each worker: a base count and a count.
pub const HEAD_WORKER_LEN: usize = 16;

/// Bytes of a Want.
pub const WANT_LEN: usize = 16;
