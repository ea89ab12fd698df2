/// What was done with a frame that arrived.
#[derive(Clone, Copy, PartialEq, Eq)]
pub enum Taken {
    /// It was known already, dropped or not.
    Repeat,
    /// It is too far ahead: its seq is the greatest number, or 4096 or more past its worker's first
    /// missing one, at or above the worker's base if there is one.
    Ahead,
    /// Out of memory.
    Memory,
    /// It was not known; it is now known and kept.
    Stored,
}
