//! The stream of one worker.

ghost use Rattle.std.specs.Prelude.{◌≡◌, ◌+◌, ◌≤◌, ◌++◌, [], List, length, vec_len, vec_capacity, slice_get, IfOk};
ghost use Rattle.std.specs.List.{AllByRecursion};
ghost use Rattle.std.specs.Option.{option_map};
ghost use Rattle.rows.specs.Limits.{commit_entries_max};
ghost use Rattle.rows.specs.Spelling.{HasSpelling};
ghost use Rattle.update_log.specs.declared.span.Span.{Span as SpanOf};
ghost use Rattle.update_log.specs.Inner.Spans.{spans_of};
ghost use Rattle.update_log.specs.Inner.Splitting.{IsSplitAt};

use crate::cutting::cut_spans;
use crate::span::Span;
use rows::Entry;
use std::alloc::{AllocError, Global};
use std::marker::Model;

/// Which entries the frames of one worker have, in order: the span at an index is that of the frame
/// with this seq.
///
/// Contracts see the list of the spans, and how many more it can take without memory.
#[derive(Drop)]
pub struct Stream {
    spans: Vec<Span>,
}

impl Model for Stream {
    ghost use Rattle.std.specs.Prelude.{◌-◌, vec_len, vec_capacity};
    ghost use Rattle.update_log.specs.Inner.Kept.{Kept};

    ghost Value = { Kept };

    ghost view = { λ s. record { spans = s.spans.items; room = vec_capacity s.spans - vec_len s.spans } };
}

impl Stream {
    /// The stream without frames. Takes no memory.
    pub fn new(alloc: Global) -> Stream
        ensures { result.spans ≡ [] }
    {
        Stream {
            spans: Vec::new(alloc),
        }
    }

    /// How many frames there are.
    pub fn len(&self) -> u64
        ensures { result ≡ length self.now.spans }
    {
        self.spans.len() as u64
    }

    /// Which entries the frame of that seq has; `None` if the stream has no such frame. Takes no
    /// memory.
    pub fn span(&self, seq: u64) -> Option<&Span>
        ensures { option_map (λ span. span.now) result ≡ slice_get self.now.spans seq }
    {
        self.spans.as_slice().get(seq as usize)
    }

    /// How many frames belong to commits up to that version; these precede all others. Found by
    /// binary search; takes no memory.
    pub fn count(&self, version: u64) -> u64
        ensures { (front back : List SpanOf) → IsSplitAt version self.now.spans front back → result ≡ length front }
    {
        count_upto(self.spans.as_slice(), version) as u64
    }

    /// For each frame of a commit of these entries, by the commit's number, which entries it has;
    /// the stream then has room for these frames. Fails only if out of memory. No frame is added.
    pub fn reserve(
        &mut self,
        alloc: Global,
        entries: &[Entry],
        number: u64,
    ) -> Result<Vec<Span>, AllocError>
        requires spelled { AllByRecursion HasSpelling entries.now }
        requires few { length entries.now ≤ commit_entries_max }
        ensures spans { IfOk result (λ spans. spans.items ≡ spans_of entries.now number) }
        ensures room { IfOk result (λ spans. length spans.items ≤ self.new.room) }
        ensures same { self.new.spans ≡ self.old.spans }
    {
        let spans = cut_spans(alloc, entries, number)?;
        self.spans.reserve(spans.len())?;
        Ok(spans)
    }

    /// Adds frames for which there is room. Takes no memory.
    pub fn add(&mut self, more: Vec<Span>)
        requires { length more.items ≤ self.old.room }
        ensures { self.new.spans ≡ self.old.spans ++ more.items }
    {
        append(&mut self.spans, more);
    }
}

/// How many of the frames belong to commits up to that version; these precede all others.
fn count_upto(spans: &[Span], version: u64) -> usize
    ensures { (front back : List SpanOf) → IsSplitAt version spans.now front back → result ≡ length front }
{
    spans.partition_point(|span| span.commit <= version)
}

/// Appends more spans to these, which have room for them.
fn append(spans: &mut Vec<Span>, more: Vec<Span>)
    requires { vec_len spans.old + vec_len more ≤ vec_capacity spans.old }
    ensures { spans.new.items ≡ spans.old.items ++ more.items }
{
    let mut more = more;
    match spans.append(&mut more) {
        Ok(()) => {}
        Err(_) => unreachable!(),
    }
}
