use rows::ByteList;

/// What a turn of a replica came to.
#[derive(Drop)]
pub enum Turned {
    /// The batch is answered, with this report.
    Answered(ByteList),
    /// The batch is not answered yet.
    Waits,
    /// There was nothing to ask for: no batch, and no query waited.
    Idle,
}
