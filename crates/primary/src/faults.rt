use journal::JournalFault;
use thiserror::Error;

/// Why a transaction is not committed: the first that applies, in the order `Failed`, `ReadOnly`,
/// `Foreign`, `Conflict`, `NumbersUsedUp`, `Memory`.
#[derive(Clone, Copy, Debug, PartialEq, Eq, Error)]
pub enum CommitFault {
    /// A commit after the transaction's snapshot, durable or pending, touches one of its rows, or
    /// one of the two adds a column to a table in which the other has an entry; the number is that
    /// of the last such commit.
    #[error("in conflict with commit {0}")]
    Conflict(u64),
    /// It has no entries.
    #[error("no entries")]
    ReadOnly,
    /// The journal has failed; the primary has to be restarted.
    #[error("the journal failed")]
    Failed,
    /// The number of the commit, or a frame's seq or count, would pass 64 bits.
    #[error("numbers used up")]
    NumbersUsedUp,
    #[error("out of memory")]
    Memory,
    /// It is not of this primary: its snapshot is above what is durable, or an entry is not defined
    /// where it stands on the rows at the snapshot.
    #[error("not a transaction of this primary")]
    Foreign,
}

/// Why a flush moved no commits.
#[derive(Clone, Copy, Debug, PartialEq, Eq, Error)]
pub enum FlushFault {
    /// The journal did not take the records. It has now failed, and the primary has to be
    /// restarted.
    #[error("the journal could not be written")]
    Journal,
    #[error("out of memory")]
    Memory,
    /// The journal failed earlier; the primary has to be restarted.
    #[error("the journal failed")]
    Failed,
    /// The journal is lent out: a flush has begun and not ended.
    #[error("the journal is lent out")]
    Busy,
    /// The journal is not lent out, so there is no flush to end.
    #[error("the journal is not lent out")]
    NotLent,
}

/// Why a primary was not started.
#[derive(Drop)]
pub enum StartFault<F> {
    /// The journal could not be read, truncated or written.
    Store(F),
    /// The journal's bytes are refused.
    Journal(JournalFault),
    Memory,
}
