use thiserror::Error;

/// Why frames were not merged.
#[derive(Clone, Copy, Debug, PartialEq, Eq, Error)]
pub enum OrderFault {
    /// A commit's number is missing, or another one is in its place; a commit's frames are of two
    /// workers or not together; a frame that is not the last of its commit is marked as last, or
    /// the last is not; or a commit has no entry, or more than 4096.
    #[error("the frames are not those of one list of commits")]
    Inconsistent,
    #[error("out of memory")]
    Memory,
}
