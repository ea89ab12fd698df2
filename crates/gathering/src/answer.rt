//! What a request is answered.

/// What a client's request is answered.
#[derive(Drop)]
pub enum Answer {
    /// The report of its own queries, numbered from 0.
    Report(Vec<u8>),
    /// A query does not fit the tables, also after the newest columns came; this says which, and why.
    Unfit(String),
    /// It was not answered within the turns or the time of a batch, or the node has ended.
    Late,
    /// The replica is broken.
    Broken,
    /// Memory was refused.
    Memory,
}
