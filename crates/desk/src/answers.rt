//! What a seat is answered about the durable list.

/// The result of a flush.
#[derive(Clone, Copy, PartialEq, Eq)]
pub enum Flushed {
    /// This many commits are durable, and all of them are published.
    Published(u64),
    /// This many commits are durable, but there was no memory to publish all of them: the next
    /// flush, settle, push or answer publishes them.
    Unpublished(u64),
}

/// The state of a ticket's commit.
#[derive(Clone, Copy, PartialEq, Eq)]
pub enum Settled {
    /// It is durable, under this number.
    Settled(u64),
    /// Another commit is durable under its number, so this one is lost.
    Lost,
    /// The durable list is shorter than its number.
    NotYet,
    /// The seat's list is shorter than its number, and there was no memory to publish everything
    /// that is durable.
    Unpublished,
}
