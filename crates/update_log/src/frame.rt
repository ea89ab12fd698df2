ghost use Rattle.std.specs.Prelude.{◌≡◌};

use crate::frame_ref::FrameRef;
use rows::EntryList;

/// Entries of one commit on their way to the replicas: one element of its worker's stream.
#[derive(Clone, Drop)]
pub struct Frame {
    /// The worker of its stream, below 16.
    pub worker: u8,
    /// Its number in that stream, from 0.
    pub seq: u64,
    /// The number of its commit, from 1.
    pub commit: u64,
    /// Whether it is the last frame of its commit.
    pub last: bool,
    /// Its entries, at least one.
    pub entries: EntryList,
}

impl Frame {
    /// The frame, lent. Takes no memory.
    pub fn lent(&self) -> FrameRef<'_>
        ensures { result ≡ self.now }
    {
        FrameRef {
            worker: self.worker,
            seq: self.seq,
            commit: self.commit,
            last: self.last,
            entries: self.entries.as_slice(),
        }
    }
}
