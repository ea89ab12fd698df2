//! How long a node goes on, and whether it says what it does.

use std::time::Duration;

/// How long a node goes on, and whether it says what it does.
#[derive(Clone, Copy)]
pub struct Pace {
    /// How many turns it serves: a primary once its work is done, a replica for all batches, or live for each. `None`: they
    /// have no end.
    pub turns: Option<u64>,
    /// How long a replica waits for the answer to a batch, at most; `None`: without an end.
    pub wait: Option<Duration>,
    /// Whether it says on standard error what it does.
    pub says: bool,
    /// Whether it says there how far long work has come.
    pub shows: bool,
}
