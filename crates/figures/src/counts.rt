//! What was counted, as it was read.

/// How many jobs were answered, and how.
#[derive(Clone, Copy, PartialEq, Eq)]
pub struct JobCounts {
    pub ticket: u64,
    pub conflict: u64,
    pub refused: u64,
}

/// How many datagrams went through a node's port.
#[derive(Clone, Copy, PartialEq, Eq)]
pub struct Datagrams {
    pub received: u64,
    pub ignored: u64,
    pub sent: u64,
    pub lost: u64,
}
