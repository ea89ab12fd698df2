use rows::Entry;
use std::marker::Model;

/// A frame whose entries are lent by the commit from which it was cut.
///
/// Contracts see the frame.
#[derive(Drop)]
pub struct FrameRef<'a> {
    /// The worker of its stream, below 16.
    pub worker: u8,
    /// Its number in that stream, from 0.
    pub seq: u64,
    /// The number of its commit, from 1.
    pub commit: u64,
    /// Whether it is the last frame of its commit.
    pub last: bool,
    /// Its entries, at least one.
    pub entries: &'a [Entry],
}

impl<'a> Model for FrameRef<'a> {
    ghost use Rattle.update_log.specs.declared.frame.Frame.{Frame};

    ghost Value = { Frame };

    ghost view = { λ f. record {
      worker = f.worker;
      seq = f.seq;
      commit = f.commit;
      last = f.last;
      entries = f.entries.now;
    } };
}
