//! The streams of all workers.

ghost use Rattle.std.specs.Prelude.{◌≡◌, ◌+◌, ◌^◌, ◌<◌, ◌≤◌, ◌∷◌, [], ◌++◌, List, length, slice_get, IfOk, IfSome, OnOk, OnErr};
ghost use Rattle.std.specs.Option.{option_map};
ghost use Rattle.rows.specs.declared.commit.Commit.{Commit as CommitOf};
ghost use Rattle.rows.specs.Limits.{commit_entries_max};
ghost use Rattle.update_log.specs.Frames.{IsCuttable, IsSendable};
ghost use Rattle.update_log.specs.Streams.{AreStreamsOf, HasRoom, stream_at, stream_of, frame_count, next_frames, extended};
ghost use Rattle.update_log.specs.Inner.Spans.{IsSpanIn, frame_at};

use crate::frame_ref::FrameRef;
use crate::next_frames::NextFrames;
use crate::span::Span;
use crate::stream::Stream;
use rows::limits::WORKERS_MAX;
use rows::{Commit, Entry};
use std::alloc::{AllocError, Global};
use std::marker::Model;

/// The streams of a list of commits: for each worker the frames of its commits. The entries stay
/// with the commits, which the caller keeps and hands to `frame`; a stream records in 16 bytes
/// which entries a frame has.
///
/// Contracts see the streams by worker, and how many more frames each can take without memory. A
/// relation (`AreStreamsOf`), which `new` establishes and `extend` preserves, states to which list
/// of commits they belong.
#[derive(Drop)]
pub struct Streams {
    alloc: Global,
    workers: Vec<Stream>,
}

impl Model for Streams {
    ghost use Rattle.std.specs.Prelude.{◌≡◌, length, map};
    ghost use Rattle.rows.specs.Limits.{workers_max};
    ghost use Rattle.update_log.specs.State.{StreamsState};

    ghost Value = { StreamsState };

    ghost view = { λ s. record {
      streams = map (λ kept. kept.spans) s.workers.items;
      rooms = map (λ kept. kept.room) s.workers.items;
    } };

    ghost invariant = { λ s. length s.workers.items ≡ workers_max };
}

impl Streams {
    /// The streams of no commit. Fails only if out of memory.
    pub fn new(alloc: Global) -> Result<Streams, AllocError>
        ensures { IfOk result (λ streams. AreStreamsOf streams.streams []) }
    {
        let mut workers = Vec::new(alloc);
        for _ in 0..WORKERS_MAX {
            workers.push(Stream::new(alloc))?;
        }
        Ok(Streams { alloc, workers })
    }

    /// Adds the next commit, by its number: its frames go to the end of its worker's stream. No
    /// entry is copied. Fails only if out of memory, and then no stream has changed.
    pub fn extend(&mut self, commit: &Commit, number: u64) -> Result<(), AllocError>
        requires cuttable { IsCuttable commit.now number (length (stream_at self.old.streams commit.now.worker)) }
        requires few { length commit.now.entries ≤ commit_entries_max }
        ensures ok { OnOk result (self.new.streams ≡ extended self.old.streams (next_frames commit.now number)) }
        ensures commits { OnOk result ((commits : List CommitOf) → AreStreamsOf self.old.streams commits → number ≡ length commits + 1
            → AreStreamsOf self.new.streams (commits ++ commit.now ∷ [])) }
        ensures err { OnErr result (self.new.streams ≡ self.old.streams) }
    {
        let next = self.reserve(commit.worker, commit.entries.as_slice(), number)?;
        self.add(next);
        Ok(())
    }

    /// Takes all the memory that adding the next commit needs, given its worker, entries and
    /// number: finds its frames, and makes room for them in its worker's stream. `add` then adds
    /// them. So a caller can take other memory in between, and has nothing to undo if there is
    /// none. No entry is copied. Fails only if out of memory. No stream changes.
    pub fn reserve(
        &mut self,
        worker: u8,
        entries: &[Entry],
        number: u64,
    ) -> Result<NextFrames, AllocError>
        requires cuttable { IsCuttable (record { worker = worker; entries = entries.now }) number
            (length (stream_at self.old.streams worker)) }
        requires few { length entries.now ≤ commit_entries_max }
        ensures frames { IfOk result (λ next. next ≡ next_frames (record { worker = worker; entries = entries.now }) number) }
        ensures room { IfOk result (λ next. HasRoom self.new next) }
        ensures same { self.new.streams ≡ self.old.streams }
    {
        let alloc = self.alloc;
        let stream = &mut self.workers[worker as usize];
        let spans = stream.reserve(alloc, entries, number)?;
        Ok(NextFrames { worker, spans })
    }

    /// Adds the frames of a commit, for which there is room, to the end of its worker's stream:
    /// those that `reserve` answered, if no others were added since. Takes no memory.
    pub fn add(&mut self, next: NextFrames)
        requires { HasRoom self.old next }
        ensures added { self.new.streams ≡ extended self.old.streams next }
        ensures commits { (commits : List CommitOf) (commit : CommitOf) → AreStreamsOf self.old.streams commits
            → IsCuttable commit (length commits + 1) (length (stream_at self.old.streams commit.worker))
            → length commits + 1 < 2 ^ 64 → next ≡ next_frames commit (length commits + 1)
            → AreStreamsOf self.new.streams (commits ++ commit ∷ []) }
    {
        let stream = &mut self.workers[next.worker as usize];
        stream.add(next.spans);
    }

    /// The seq of the worker's next frame, which is the number of frames in its stream; 0 if there
    /// is no such worker. Takes no memory.
    pub fn next_seq(&self, worker: u8) -> u64
        ensures { result ≡ length (stream_at self.now.streams worker) }
    {
        match self.workers.as_slice().get(worker as usize) {
            None => 0,
            Some(stream) => stream.len(),
        }
    }

    /// How many frames of the worker belong to the first `version` commits; 0 if there is no such
    /// worker. Found by binary search; takes no memory.
    pub fn count(&self, worker: u8, version: u64) -> u64
        ensures { (commits : List CommitOf) → AreStreamsOf self.now.streams commits → result ≡ frame_count commits worker version }
    {
        match self.workers.as_slice().get(worker as usize) {
            None => 0,
            Some(stream) => stream.count(version),
        }
    }

    /// The frame of that seq of the worker's stream, lent by the commits of these streams; `None`
    /// if the stream has no such frame, or there is no such worker. Takes no memory.
    pub fn frame<'a>(&self, commits: &'a [Commit], worker: u8, seq: u64) -> Option<FrameRef<'a>>
        requires { AreStreamsOf self.now.streams commits.now }
        ensures found { result ≡ slice_get (stream_of commits.now worker) seq }
        ensures sendable { IfSome result IsSendable }
    {
        match self.span(worker, seq) {
            None => None,
            Some(span) => Some(lent(commits, worker, seq, span)),
        }
    }

    /// Which entries the frame of that seq of the worker's stream has; `None` if the stream has no
    /// such frame.
    fn span(&self, worker: u8, seq: u64) -> Option<&Span>
        ensures { option_map (λ span. span.now) result ≡ slice_get (stream_at self.now.streams worker) seq }
    {
        match self.workers.as_slice().get(worker as usize) {
            None => None,
            Some(stream) => stream.span(seq),
        }
    }
}

/// The frame of that worker and seq with these entries, lent by its commit.
fn lent<'a>(commits: &'a [Commit], worker: u8, seq: u64, span: &Span) -> FrameRef<'a>
    requires { IsSpanIn commits.now span.now }
    ensures { result ≡ frame_at commits.now worker seq span.now }
{
    let entries = commits[span.commit as usize - 1].entries.as_slice();
    FrameRef {
        worker,
        seq,
        commit: span.commit,
        last: span.end as usize == entries.len(),
        entries: &entries[span.start as usize..span.end as usize],
    }
}
