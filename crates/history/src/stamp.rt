//! An entry of the log.

use rows::Commit;

/// An entry of the log that a history is: a commit, and the key of the pen that adds the next one.
/// No value of it is made: it is for contracts and proofs alone.
pub struct Stamp {
    pub commit: Commit,
    pub next: u64,
}
