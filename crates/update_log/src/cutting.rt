//! Cutting a commit into frames, and an image into pieces.

ghost use Rattle.std.specs.Prelude.{◌≡◌, ◌+◌, ◌^◌, ◌<◌, ◌≤◌, ◌∷◌, length, map, take, drop, IfOk};
ghost use Rattle.std.specs.List.{AllByRecursion};
ghost use Rattle.rows.specs.Limits.{commit_entries_max};
ghost use Rattle.rows.specs.Spelling.{HasSpelling};
ghost use Rattle.update_log.specs.Parts.{AreParts, parts_of, frame_front_len, piece_front_len, part_len, cut_of};
ghost use Rattle.update_log.specs.Frames.{IsCuttable, IsSendable, frames_of};
ghost use Rattle.update_log.specs.Inner.Spans.{spans_of};

use crate::frame::Frame;
use crate::limits::{FRAME_FRONT_LEN, PIECE_FRONT_LEN};
use crate::span::Span;
use rows::limits::DATAGRAM_MAX;
use rows::{Commit, Entry, EntryList, entry_len};
use std::alloc::{AllocError, Global};

/// The frames of a commit, by the commit's number and the seq of its first frame in its worker's
/// stream. An entry goes into the frame of the one before it while that frame stays within 1200
/// bytes, and otherwise begins the next frame; only the last frame is marked as last. A commit
/// without entries has no frames. Fails only if out of memory.
pub fn cut(
    alloc: Global,
    commit: &Commit,
    number: u64,
    first_seq: u64,
) -> Result<Vec<Frame>, AllocError>
    requires { IsCuttable commit.now number first_seq }
    ensures frames { IfOk result (λ frames. frames.items ≡ frames_of commit.now number first_seq) }

    // The entries in order, each frame filled before the next; and a datagram spells each frame.
    ensures parts { IfOk result (λ frames. AreParts commit.now.entries (map (λ frame. frame.entries) frames.items)) }
    ensures sendable { IfOk result (λ frames. AllByRecursion IsSendable frames.items) }
{
    let entries = commit.entries.as_slice();
    cut_entries(alloc, commit.worker, entries, number, first_seq)
}

/// How many frames a commit of these entries is cut into, so that a caller can determine whether
/// each gets a seq. Takes no memory.
pub fn part_count(entries: &[Entry]) -> usize
    requires { AllByRecursion HasSpelling entries.now }
    ensures { result ≡ length (parts_of entries.now) }
{
    let mut rest = entries;
    // There are no more parts than entries.
    for count in 0..entries.len() {
        if rest.is_empty() {
            return count;
        }
        rest = rest.split_at(first_part_len(FRAME_FRONT_LEN, rest)).1;
    }
    entries.len()
}

/// The frames of a worker's commit of these entries, as `cut` specifies.
fn cut_entries(
    alloc: Global,
    worker: u8,
    entries: &[Entry],
    number: u64,
    first_seq: u64,
) -> Result<Vec<Frame>, AllocError>
    requires { IsCuttable (record { worker = worker; entries = entries.now }) number first_seq }
    ensures frames { IfOk result
        (λ frames. frames.items ≡ frames_of (record { worker = worker; entries = entries.now }) number first_seq) }
    ensures sendable { IfOk result (λ frames. AllByRecursion IsSendable frames.items) }
{
    let mut frames = Vec::new(alloc);
    let mut seq = first_seq;
    let mut rest = entries;
    while !rest.is_empty() {
        let (part, behind) = rest.split_at(first_part_len(FRAME_FRONT_LEN, rest));
        let copy = copied(alloc, part)?;
        frames.push(Frame {
            worker,
            seq,
            commit: number,
            last: behind.is_empty(),
            entries: copy,
        })?;
        seq += 1;
        rest = behind;
    }
    Ok(frames)
}

/// For each frame of a commit of these entries, by the commit's number, which entries it has. Fails
/// only if out of memory.
pub fn cut_spans(alloc: Global, entries: &[Entry], number: u64) -> Result<Vec<Span>, AllocError>
    requires spelled { AllByRecursion HasSpelling entries.now }
    requires few { length entries.now ≤ commit_entries_max }
    ensures { IfOk result (λ spans. spans.items ≡ spans_of entries.now number) }
{
    let mut spans = Vec::new(alloc);
    let mut start = 0;
    let mut rest = entries;
    while !rest.is_empty() {
        let len = first_part_len(FRAME_FRONT_LEN, rest);
        let end = start + len as u32;
        spans.push(Span {
            commit: number,
            start,
            end,
        })?;
        start = end;
        rest = rest.split_at(len).1;
    }
    Ok(spans)
}

/// How many of an image's entries, from the first on, its first piece has: as many as fit into a
/// datagram of 1200 bytes. The other pieces are those of the entries after them, so a caller that
/// takes a piece at a time makes the pieces that `pieces_of` specifies. At least one entry is
/// needed: the one piece of an empty image has none. Takes no memory.
pub fn piece_len(entries: &[Entry]) -> usize
    requires some { 0 < length entries.now }
    requires spelled { AllByRecursion HasSpelling entries.now }
    ensures some { 0 < result }
    ensures within { result ≤ length entries.now }
    ensures fits { part_len piece_front_len (take result entries.now) ≤ DATAGRAM_MAX }
    ensures cut { cut_of piece_front_len entries.now ≡ take result entries.now ∷ cut_of piece_front_len (drop result entries.now) }
{
    first_part_len(PIECE_FRONT_LEN, entries)
}

/// How many of the entries, from the first on, one datagram holds that has `front` bytes before
/// them, at most as many as a frame.
fn first_part_len(front: usize, entries: &[Entry]) -> usize
    requires few { front ≤ frame_front_len }
    requires some { 0 < length entries.now }
    requires spelled { AllByRecursion HasSpelling entries.now }
    ensures some { 0 < result }
    ensures within { result ≤ length entries.now }
    ensures fits { part_len front (take result entries.now) ≤ DATAGRAM_MAX }
    ensures full { result < length entries.now → DATAGRAM_MAX < part_len front (take (result + 1) entries.now) }
{
    let mut len = front;
    for (index, entry) in entries.iter().enumerate() {
        len += entry_len(entry);
        if len > DATAGRAM_MAX {
            return index;
        }
    }
    entries.len()
}

/// A copy of the entries, with room for no others. Fails only if out of memory.
fn copied(alloc: Global, entries: &[Entry]) -> Result<EntryList, AllocError>
    ensures { IfOk result (λ copy. copy ≡ entries.now) }
{
    let mut copy = Vec::with_capacity(alloc, entries.len())?;
    for entry in entries {
        copy.push_reserved(copy_of(entry)?);
    }
    Ok(EntryList::from_vec(copy))
}

/// A copy of the entry. Fails only if out of memory.
fn copy_of(entry: &Entry) -> Result<Entry, AllocError>
    ensures { IfOk result (λ copy. copy ≡ entry.now) }
{
    entry.clone()
}
