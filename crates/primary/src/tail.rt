//! The frames behind a base.

ghost use Rattle.std.specs.Prelude.{◌≡◌, ◌≤◌, List, length, slice_get, nat_lt};
ghost use Rattle.std.specs.Prelude.{None, IfOk, IfSome, if◌then◌else◌};
ghost use Rattle.std.specs.List.{AllByRecursion};
ghost use Rattle.rows.specs.declared.commit.Commit.{Commit as CommitOf};
ghost use Rattle.rows.specs.Commits.{IsCommit};
ghost use Rattle.rows.specs.Limits.{workers_max};
ghost use Rattle.update_log.specs.Frames.{IsSendable};
ghost use Rattle.update_log.specs.Streams.{AreStreamsOf, stream_of, frame_count};
ghost use Rattle.journal.specs.Recovery.{HasRecord};
ghost use Rattle.primary.specs.Journaling.{AreNumbered};
ghost use Rattle.primary.specs.Sending.{counts_of};
ghost use Rattle.primary.specs.Inner.Tail.{IsTailOf};

use crate::keeping::streams_of;
use rows::Commit;
use rows::limits::WORKERS_MAX;
use std::alloc::{AllocError, Global};
use update_log::{FrameRef, Streams, streams_go_on};
use wire::Counts;

/// The frames behind a base: the streams of the commits behind it alone, and how many frames of each
/// worker belong to the commits up to it.
///
/// A relation (`IsTailOf`) states of which list of commits they are. Callers speak of seqs and of
/// numbers of commits in the whole list; the streams count both from the base on.
#[derive(Drop)]
pub struct Tail {
    pub base: usize,
    pub lows: Counts,
    pub streams: Streams,
}

impl Tail {
    /// All frames of these streams, which are those behind the base 0.
    pub fn of(streams: Streams) -> Tail
        ensures base { result.base ≡ 0 }
        ensures all { (commits : List CommitOf) → AreStreamsOf streams.streams commits → IsTailOf result commits }
    {
        Tail {
            base: 0,
            lows: Counts::zeros(WORKERS_MAX),
            streams,
        }
    }

    /// How many frames of the worker belong to the commits up to the base; 0 if there is no such
    /// worker. Takes no memory.
    pub fn low(&self, worker: u8) -> u64
        ensures { (commits : List CommitOf) → IsTailOf self.now commits → result ≡ frame_count commits worker self.now.base }
    {
        match self.lows.as_slice().get(worker as usize) {
            None => 0,
            Some(low) => *low,
        }
    }

    /// How many frames of the worker belong to the first `version` commits, which are no fewer than
    /// those up to the base; 0 if there is no such worker. Takes no memory.
    pub fn count(&self, worker: u8, version: u64) -> u64
        requires { self.now.base ≤ version }
        ensures { (commits : List CommitOf) → IsTailOf self.now commits → AreNumbered commits
            → result ≡ frame_count commits worker version }
    {
        streams_go_on();
        let behind = self.streams.count(worker, version - self.base as u64);
        self.low(worker).saturating_add(behind)
    }

    /// The seq of the worker's next frame, which is the number of frames in its stream; 0 if there
    /// is no such worker. Takes no memory.
    pub fn next_seq(&self, worker: u8) -> u64
        ensures { (commits : List CommitOf) → IsTailOf self.now commits → AreNumbered commits
            → result ≡ length (stream_of commits worker) }
    {
        streams_go_on();
        let behind = self.streams.next_seq(worker);
        self.low(worker).saturating_add(behind)
    }

    /// The frame of that seq of the worker's stream, lent by the commits; `None` if it is not kept,
    /// if the stream has no such frame, or if there is no such worker. Takes no memory.
    pub fn frame<'a>(&self, commits: &'a [Commit], worker: u8, seq: u64) -> Option<FrameRef<'a>>
        requires tail { IsTailOf self.now commits.now }
        requires numbered { AreNumbered commits.now }
        ensures found { result ≡ (if nat_lt seq (frame_count commits.now worker self.now.base) then None
            else slice_get (stream_of commits.now worker) seq) }
        ensures sendable { IfSome result IsSendable }
    {
        streams_go_on();
        let low = self.low(worker);
        if seq < low {
            return None;
        }
        let (_, behind) = commits.split_at(self.base);
        let frame = self.streams.frame(behind, worker, seq - low)?;
        Some(FrameRef {
            worker: frame.worker,
            seq,
            commit: frame.commit.saturating_add(self.base as u64),
            last: frame.last,
            entries: frame.entries,
        })
    }

    /// The frames behind another base, which is not before this one. Fails only if out of memory.
    pub fn moved(&self, alloc: Global, commits: &[Commit], base: usize) -> Result<Tail, AllocError>
        requires tail { IsTailOf self.now commits.now }
        requires later { self.now.base ≤ base }
        requires within { base ≤ length commits.now }
        requires numbered { AreNumbered commits.now }
        requires each { AllByRecursion (IsCommit workers_max) commits.now }
        requires records { AllByRecursion HasRecord commits.now }
        ensures base { IfOk result (λ tail. tail.base ≡ base) }
        ensures tail { IfOk result (λ tail. IsTailOf tail commits.now) }
    {
        streams_go_on();
        let (_, behind) = commits.split_at(base);
        let streams = streams_of(alloc, behind)?;
        let lows = self.counts(base as u64, WORKERS_MAX);
        Ok(Tail {
            base,
            lows,
            streams,
        })
    }

    /// The frame count of each of this many workers at the base.
    pub fn low_counts(&self, workers: u8) -> Counts
        requires { workers ≤ workers_max }
        ensures { (commits : List CommitOf) → IsTailOf self.now commits → result ≡ counts_of commits self.now.base workers }
    {
        let mut lows = Counts::new();
        for worker in 0..workers {
            lows.push(self.low(worker));
        }
        lows
    }

    /// The frame count of each of this many workers at this version, which is not before the base.
    pub fn counts(&self, version: u64, workers: u8) -> Counts
        requires few { workers ≤ workers_max }
        requires behind { self.now.base ≤ version }
        ensures { (commits : List CommitOf) → IsTailOf self.now commits → AreNumbered commits
            → result ≡ counts_of commits version workers }
    {
        let mut counts = Counts::new();
        for worker in 0..workers {
            counts.push(self.count(worker, version));
        }
        counts
    }
}
