use std::io;
use thiserror::Error;

/// Why the bytes of a journal are refused.
///
/// An offset counts from the beginning of the journal to the length of the record after the kept
/// ones. The first fault there is reported; `Memory` precedes faults that were not found yet.
#[derive(Clone, Copy, Debug, PartialEq, Eq, Error)]
pub enum JournalFault {
    /// The bytes do not begin like a journal of this schema and this number of workers.
    #[error("the journal is of another schema or of another number of workers")]
    OtherHeader,
    /// A length that no record has, or bytes of that length that are not a record.
    #[error("the journal is damaged at byte {0}")]
    Damaged(u64),
    /// A record whose commit number is not the next.
    #[error("a commit is out of order at byte {0} of the journal")]
    OutOfOrder(u64),
    /// A record whose commit is of a worker that does not exist, or has an entry that does not fit
    /// or is not defined where it stands.
    #[error("a commit is not legal at byte {0} of the journal")]
    Illegal(u64),
    #[error("out of memory")]
    Memory,
}

/// Why a file could not be opened as a journal.
#[derive(Debug, Drop, Error)]
pub enum OpenFault {
    /// Another journal has the file open, in this process or in another one.
    #[error("another primary has the journal open")]
    Locked,
    /// The system refused to make, open, lock or sync the file.
    #[error("the journal could not be opened: {0}")]
    System(io::Error),
}

/// Why a call on a journal in a file failed.
#[derive(Clone, Copy, Debug, Error)]
pub enum FileFault {
    /// An earlier append or truncation failed, and what it left has not been cleared away yet.
    #[error("what a failed write left in the journal was not cleared away")]
    Unsettled,
    /// The system refused to write, truncate, sync or read the file.
    #[error("the journal could not be written or read: {0}")]
    System(io::Error),
}
