//! Commits that are cut into frames, images that are cut into pieces, and the streams of several
//! workers.

ghost use Rattle.std.specs.Prelude.{◌≡◌, ◌+◌, ◌^◌, ◌<◌, ◌≤◌, false, length, IfOk, OnOk};
ghost use Rattle.std.specs.List.{AllByRecursion};
ghost use Rattle.rows.specs.Limits.{commit_entries_max, workers_max};
ghost use Rattle.rows.specs.Spelling.{HasSpelling};
ghost use Rattle.update_log.specs.Parts.{parts_of};
ghost use Rattle.update_log.specs.Streams.{AreStreamsOf, stream_at};

use rows::{Commit, Entry, EntryList, RowId, Schema, Value, fits, row_bytes};
use scenarios_common::wanted::NUMBERS;
use std::alloc::{AllocError, Global};
use std::test::Fail;
use update_log::{
    Frame, Streams, cut, one_cut, piece_len, pieces_are_cut, streams_go_on, worked_cuts,
};
use wire::write_frame;

/// Adds an entry that fits the schema.
#[tactic(auto, using(crate::proofs::Spelled::spelled_push))]
fn push(entries: &mut EntryList, schema: &Schema, entry: Entry) -> Result<(), Fail>
    requires { AllByRecursion HasSpelling entries.old }
    ensures { OnOk result (AllByRecursion HasSpelling entries.new) }
{
    fits(schema, &entry)?;
    entries.push(entry)?;
    Ok(())
}

/// An insert of a row with the values 5 and -1.
fn insert(alloc: Global, row: u64) -> Result<Entry, Fail> {
    Ok(Entry::Insert {
        table: 0,
        row: RowId(row),
        bytes: row_bytes(alloc, &[Value::Int(5), Value::Int(-1)])?,
    })
}

/// Adds inserts of so many accounts, numbered from 0.
fn push_inserts(
    alloc: Global,
    entries: &mut EntryList,
    schema: &Schema,
    count: u64,
) -> Result<(), Fail>
    requires { AllByRecursion HasSpelling entries.old }
    ensures { OnOk result (AllByRecursion HasSpelling entries.new) }
{
    for row in 0..count {
        push(entries, schema, insert(alloc, row)?)?;
    }
    Ok(())
}

/// Adds deletes of so many accounts, numbered from 0.
fn push_deletes(entries: &mut EntryList, schema: &Schema, count: u64) -> Result<(), Fail>
    requires { AllByRecursion HasSpelling entries.old }
    ensures { OnOk result (AllByRecursion HasSpelling entries.new) }
{
    for row in 0..count {
        let row = RowId(row);
        push(entries, schema, Entry::Delete { table: 0, row })?;
    }
    Ok(())
}

/// Inserts of so many accounts, and then deletes of the first so many of them.
fn entries_of(alloc: Global, inserts: u64, deletes: u64) -> Result<EntryList, Fail>
    ensures { IfOk result (AllByRecursion HasSpelling) }
{
    let schema = Schema::new(alloc, &NUMBERS)?;
    let mut entries = EntryList::new(alloc);
    push_inserts(alloc, &mut entries, &schema, inserts)?;
    push_deletes(&mut entries, &schema, deletes)?;
    Ok(entries)
}

/// Adds so many columns of numbers to the accounts.
fn push_columns(entries: &mut EntryList, schema: &Schema, count: u64) -> Result<(), Fail>
    requires { AllByRecursion HasSpelling entries.old }
    ensures { OnOk result (AllByRecursion HasSpelling entries.new) }
{
    for _ in 0..count {
        let default = Value::Int(0);
        push(entries, schema, Entry::AddColumn { table: 0, default })?;
    }
    Ok(())
}

/// So many added columns, and then inserts of so many accounts.
fn image_of(alloc: Global, columns: u64, inserts: u64) -> Result<EntryList, Fail>
    ensures { IfOk result (AllByRecursion HasSpelling) }
{
    let schema = Schema::new(alloc, &NUMBERS)?;
    let mut entries = EntryList::new(alloc);
    push_columns(&mut entries, &schema, columns)?;
    push_inserts(alloc, &mut entries, &schema, inserts)?;
    Ok(entries)
}

/// How many entries each piece has, which are cut off one after the other.
fn piece_lens(alloc: Global, entries: &[Entry]) -> Result<Vec<usize>, AllocError>
    requires { AllByRecursion HasSpelling entries.now }
{
    let mut lens = Vec::new(alloc);
    let mut rest = entries;
    while !rest.is_empty() {
        let len = piece_len(rest);
        lens.push(len)?;
        rest = rest.split_at(len).1;
    }
    Ok(lens)
}

/// How many columns are added by an image, how many accounts it inserts, and how many entries each
/// of its pieces has. A column takes 11 bytes, an account 28, and a piece without entries 25. So 42
/// accounts take 1201, and 5 columns with 40 accounts 1200.
static PIECES: [(u64, u64, &'static [usize]); 6] = [
    (1, 0, &[1]),
    (0, 41, &[41]),
    (0, 42, &[41, 1]),
    (5, 40, &[45]),
    (5, 41, &[45, 1]),
    (2, 125, &[43, 41, 41, 2]),
];

/// The index of the first image that is cut otherwise.
fn other_pieces(alloc: Global) -> Result<Option<usize>, Fail> {
    for (index, (columns, inserts, expected)) in PIECES.iter().enumerate() {
        let entries = image_of(alloc, *columns, *inserts)?;
        let lens = piece_lens(alloc, entries.as_slice())?;
        if lens.as_slice() != *expected {
            return Ok(Some(index));
        }
    }
    Ok(None)
}

#[test]
fn an_image_is_cut_into_full_pieces(rt: HostRuntime) -> Result<(), Fail> {
    assert_eq!(rt; other_pieces(rt.alloc())?, None);
    pieces_are_cut();
    streams_go_on();
    Ok(())
}

/// A frame as it was cut: its seq, how many entries it has, and whether it is the last.
type Cut = (u64, usize, bool);

/// The frames of a commit of these entries, whose first has the seq 7.
fn cut_of(alloc: Global, entries: EntryList) -> Result<Vec<Cut>, Fail>
    requires { AllByRecursion HasSpelling entries }
{
    let commit = Commit { worker: 3, entries };
    let mut cuts = Vec::new(alloc);
    for frame in frames_of(alloc, &commit)? {
        if frame.worker != 3 || frame.commit != 9 {
            return Err("a frame of another commit".into());
        }
        cuts.push((frame.seq, frame.entries.len(), frame.last))?;
    }
    Ok(cuts)
}

/// The frames of the commit as commit 9, the first with the seq 7.
fn frames_of(alloc: Global, commit: &Commit) -> Result<Vec<Frame>, Fail>
    requires worker { commit.now.worker < workers_max }
    requires spelled { AllByRecursion HasSpelling commit.now.entries }
{
    one_cut();
    if commit.entries.len() > 4096 {
        return Err("too many entries".into());
    }
    Ok(cut(alloc, commit, 9, 7)?)
}

#[test]
fn a_commit_is_cut_into_full_frames(rt: HostRuntime) -> Result<(), Fail> {
    worked_cuts();
    let two = cut_of(rt.alloc(), entries_of(rt.alloc(), 42, 0)?)?;
    assert_eq!(rt; two.as_slice(), [(7, 41, false), (8, 1, true)].as_slice());
    let one = cut_of(rt.alloc(), entries_of(rt.alloc(), 38, 11)?)?;
    assert_eq!(rt; one.as_slice(), [(7, 49, true)].as_slice());
    let none = cut_of(rt.alloc(), entries_of(rt.alloc(), 0, 0)?)?;
    assert!(rt; none.is_empty());
    // As a piece these are 1200 bytes, and as a frame one more.
    let piece = cut_of(rt.alloc(), image_of(rt.alloc(), 5, 40)?)?;
    assert_eq!(rt; piece.as_slice(), [(7, 44, false), (8, 1, true)].as_slice());
    Ok(())
}

/// Whether each frame of the next commit gets a seq; a commit of more entries than there may be is
/// an error.
fn are_counted(streams: &Streams, commit: &Commit) -> Result<(), Fail>
    ensures few { OnOk result (length commit.now.entries ≤ commit_entries_max) }
    ensures seqs { OnOk result
        (length (stream_at streams.now.streams commit.now.worker) + length (parts_of commit.now.entries) < 2 ^ 64) }
{
    one_cut();
    if commit.entries.len() > 4096 {
        return Err("too many entries".into());
    }
    if u64::MAX - streams.next_seq(commit.worker) < commit.entries.len() as u64 {
        return Err("too many frames".into());
    }
    Ok(())
}

/// Adds the next commit to the streams of commits, and to these.
fn extend(streams: &mut Streams, commits: &mut Vec<Commit>, commit: Commit) -> Result<(), Fail>
    requires worker { commit.worker < workers_max }
    requires spelled { AllByRecursion HasSpelling commit.entries }
    requires framed { AreStreamsOf streams.old.streams commits.old.items }
    ensures { OnOk result (AreStreamsOf streams.new.streams commits.new.items) }
{
    are_counted(streams, &commit)?;
    streams.extend(&commit, commits.len() as u64 + 1)?;
    commits.push(commit)?;
    Ok(())
}

/// Adds the next commit in two steps; in between no stream has changed.
fn reserve_and_add(
    streams: &mut Streams,
    commits: &mut Vec<Commit>,
    commit: Commit,
) -> Result<(), Fail>
    requires worker { commit.worker < workers_max }
    requires spelled { AllByRecursion HasSpelling commit.entries }
    requires framed { AreStreamsOf streams.old.streams commits.old.items }
    ensures { OnOk result (AreStreamsOf streams.new.streams commits.new.items) }
{
    are_counted(streams, &commit)?;
    let before = streams.next_seq(commit.worker);
    let number = commits.len() as u64 + 1;
    let next = streams.reserve(commit.worker, commit.entries.as_slice(), number)?;
    if streams.next_seq(commit.worker) != before {
        return Err("a stream has changed".into());
    }
    streams.add(next);
    commits.push(commit)?;
    Ok(())
}

/// The commits of three workers: how many accounts each puts in, and how many it then takes out.
static COMMITS: [(u8, u64, u64); 5] = [
    (0, 42, 0),
    (1, 38, 11),
    (0, 1, 0),
    (0, 4096, 0),
    (15, 1, 1),
];

/// Commits, and their streams.
#[derive(Drop)]
struct Framed {
    commits: Vec<Commit>,
    streams: Streams,
}

/// These commits, and their streams. Every other commit is added in two steps.
fn streams_of(alloc: Global) -> Result<Framed, Fail>
    ensures { IfOk result (λ framed. AreStreamsOf framed.streams.streams framed.commits.items) }
{
    let mut streams = Streams::new(alloc)?;
    let mut commits = Vec::new(alloc);
    for (index, (worker, inserts, deletes)) in COMMITS.iter().enumerate() {
        let entries = entries_of(alloc, *inserts, *deletes)?;
        let worker = (*worker).min(15);
        let commit = Commit { worker, entries };
        if index % 2 == 0 {
            extend(&mut streams, &mut commits, commit)?;
        } else {
            reserve_and_add(&mut streams, &mut commits, commit)?;
        }
    }
    Ok(Framed { commits, streams })
}

/// A frame as it is sent: how many bytes, how many entries, its commit, and whether it is the last.
type Sent = (usize, usize, u64, bool);

/// Which frame is asked for, by worker and seq, and what is found.
static FRAMES: [(u8, u64, Option<Sent>); 15] = [
    (0, 0, Some((1174, 41, 1, false))),
    (0, 1, Some((54, 1, 1, true))),
    (0, 2, Some((54, 1, 3, true))),
    (0, 3, Some((1174, 41, 4, false))),
    (0, 101, Some((1174, 41, 4, false))),
    (0, 102, Some((1062, 37, 4, true))),
    (0, 103, None),
    (0, u64::MAX, None),
    (1, 0, Some((1200, 49, 2, true))),
    (1, 1, None),
    (2, 0, None),
    (15, 0, Some((64, 2, 5, true))),
    (15, 1, None),
    (16, 0, None),
    (255, 0, None),
];

/// The frame of that worker and seq as it is sent.
fn sent(streams: &Streams, commits: &[Commit], worker: u8, seq: u64) -> Result<Option<Sent>, Fail>
    requires { AreStreamsOf streams.now.streams commits.now }
{
    let Some(frame) = streams.frame(commits, worker, seq) else {
        return Ok(None);
    };
    if frame.worker != worker || frame.seq != seq {
        return Err("another frame".into());
    }
    let mut buffer = [0; 1200];
    let Ok(len) = write_frame(&frame, &mut buffer) else {
        return Err("a frame of more than 1200 bytes".into());
    };
    Ok(Some((len, frame.entries.len(), frame.commit, frame.last)))
}

/// The index of the first frame that is found otherwise.
fn other_frame(streams: &Streams, commits: &[Commit]) -> Result<Option<usize>, Fail>
    requires { AreStreamsOf streams.now.streams commits.now }
{
    for (index, (worker, seq, expected)) in FRAMES.iter().enumerate() {
        if sent(streams, commits, *worker, *seq)? != *expected {
            return Ok(Some(index));
        }
    }
    Ok(None)
}

/// A worker, and how many frames it has in all commits, and in the first 0, 1, 2, 3, 4, 5 and 6.
const COUNTS: [(u8, u64, [u64; 7]); 5] = [
    (0, 103, [0, 2, 2, 3, 103, 103, 103]),
    (1, 1, [0, 0, 1, 1, 1, 1, 1]),
    (2, 0, [0; 7]),
    (15, 1, [0, 0, 0, 0, 0, 1, 1]),
    (16, 0, [0; 7]),
];

/// The index of the first worker whose frames are counted otherwise.
fn other_count(streams: &Streams) -> Option<usize> {
    for (index, (worker, all, counts)) in COUNTS.iter().enumerate() {
        let counted = [0, 1, 2, 3, 4, 5, 6].map(|version: u64| streams.count(*worker, version));
        if streams.next_seq(*worker) != *all || counted != *counts {
            return Some(index);
        }
    }
    None
}

#[test]
fn streams_have_the_frames_of_their_commits(rt: HostRuntime) -> Result<(), Fail> {
    let framed = streams_of(rt.alloc())?;
    assert_eq!(rt;
        other_frame(&framed.streams, framed.commits.as_slice())?,
        None
    );
    assert_eq!(rt; other_count(&framed.streams), None);
    Ok(())
}

/// Whether the first commit was added; it is not where memory was refused.
fn is_extended(streams: &mut Streams, commit: &Commit) -> Result<bool, Fail>
    requires worker { commit.now.worker < workers_max }
    requires spelled { AllByRecursion HasSpelling commit.now.entries }
    ensures { IfOk result (λ extended. extended ≡ false → streams.new.streams ≡ streams.old.streams) }
{
    are_counted(streams, commit)?;
    Ok(streams.extend(commit, 1).is_ok())
}

/// Whichever request for memory is refused: no stream has changed, and the commit is added when it
/// is asked for again.
#[test]
fn streams_without_memory_stay(rt: HostRuntime) -> Result<(), Fail> {
    let mut streams = Streams::new(rt.alloc())?;
    let entries = entries_of(rt.alloc(), 42, 0)?;
    let commit = Commit { worker: 0, entries };
    if !is_extended(&mut streams, &commit)? {
        assert_eq!(rt; (streams.next_seq(0), streams.count(0, 1)), (0, 0));
        assert!(rt; streams.frame(&[], 0, 0).is_none());
        assert!(rt; is_extended(&mut streams, &commit)?);
    }
    assert_eq!(rt; (streams.next_seq(0), streams.count(0, 1)), (2, 2));
    Ok(())
}
