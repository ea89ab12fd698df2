//! The outcome of a job.

use crate::refusal::Refusal;

/// The outcome of a job.
#[derive(Clone, Copy, PartialEq, Eq)]
pub enum JobAnswer {
    /// It is committed under this number, and durable.
    Ticket(u64),
    /// It is not committed: the commit of this number, which is above its snapshot, touches one of
    /// its rows, or one of the two adds a column to a table in which the other has an entry.
    Conflict(u64),
    /// It is not committed, for any reason other than a conflict.
    Refused(Refusal),
}
