use crate::counts::Counts;

/// What the primary answers to an Ask: a durable version and its base, and how many frames each
/// worker has up to both.
#[derive(Drop)]
pub struct Head {
    /// The replica that asked, below 16.
    pub replica: u8,
    /// The start of the replica in which it asked.
    pub boot: u64,
    /// Its request in that start.
    pub request: u64,
    /// How many commits are durable.
    pub version: u64,
    /// The version of the image that the primary offers in place of older frames, at most
    /// `version`; 0 if it offers none.
    pub base: u64,
    /// How many pieces that image has; 0 exactly if there is none.
    pub pieces: u64,
    /// How many frames of each worker belong to the commits up to `base`.
    pub lows: Counts,
    /// How many frames of each worker belong to the commits up to `version`.
    pub counts: Counts,
}
