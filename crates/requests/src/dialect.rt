/// Which lines of jobs there are.
#[derive(Clone, Copy, PartialEq, Eq)]
pub enum Dialect {
    /// Jobs of changes alone.
    Jobs,
    /// Jobs that may have conditions, and looks and bases between them.
    Live,
}
