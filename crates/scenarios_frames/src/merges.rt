//! The merge of frames that came in any order: the commits that they hold, part by part, and where
//! they hold none.

ghost use Rattle.std.specs.Prelude.{◌≡◌, ◌<◌, ◌≤◌, length, true};
ghost use Rattle.rows.specs.Limits.{workers_max};
ghost use Rattle.intake.specs.Kept.{AreAllKept, AreKept};

use intake::Intake;
use ordering::{OrderFault, next_commits, one_merge, parts_make_the_merge};
use rows::{Commit, Entry, EntryList, RowId};
use std::alloc::{AllocError, Global};
use std::test::Fail;
use update_log::Frame;

/// A frame: whether it is of worker 1 and not of worker 0, its seq, its commit's number, whether
/// it is marked as the last, and how many entries it has.
type Sketch = (bool, u64, u64, bool, u64);

/// Frames in the order in which they come, each worker's low and high, the two versions, and what
/// is answered: for each commit its worker and how many entries it has.
type Case<'a> = (
    &'a [Sketch],
    [u64; 2],
    [u64; 2],
    (u64, u64),
    Result<&'a [u64], OrderFault>,
);

const NONE: Result<&[u64], OrderFault> = Err(OrderFault::Inconsistent);

/// Commit 1 of worker 1 in two frames, commit 2 of worker 0, commit 3 of worker 1.
const THREE: [Sketch; 4] = [
    (true, 2, 3, true, 2),
    (true, 0, 1, false, 2),
    (false, 0, 2, true, 1),
    (true, 1, 1, true, 1),
];

/// All commits, all but the first, the second alone, and none.
static HELD: [Case<'static>; 4] = [
    (&THREE, [0, 0], [1, 3], (0, 3), Ok(&[1, 3, 0, 1, 1, 2])),
    (&THREE, [0, 2], [1, 3], (1, 3), Ok(&[0, 1, 1, 2])),
    (&THREE, [0, 2], [1, 2], (1, 2), Ok(&[0, 1])),
    (&THREE, [1, 2], [1, 2], (2, 2), Ok(&[])),
];

/// A number is missing at the end, at the beginning, and in the middle; another one stands behind
/// the last.
static OTHER_NUMBERS: [Case<'static>; 4] = [
    (&THREE, [0, 0], [1, 3], (0, 4), NONE),
    (&THREE, [0, 2], [1, 3], (0, 3), NONE),
    (&THREE, [1, 0], [1, 3], (0, 3), NONE),
    (&THREE, [0, 0], [1, 3], (0, 2), NONE),
];

/// Frames of one commit are of two workers, or not together.
static APART: [Case<'static>; 3] = [
    (
        &[(false, 0, 1, true, 1), (true, 0, 1, true, 1)],
        [0, 0],
        [1, 1],
        (0, 1),
        NONE,
    ),
    (
        &[(false, 0, 1, false, 1), (true, 0, 1, true, 1)],
        [0, 0],
        [1, 1],
        (0, 1),
        NONE,
    ),
    (
        &[
            (false, 0, 1, false, 1),
            (false, 1, 2, true, 1),
            (false, 2, 1, true, 1),
        ],
        [0, 0],
        [3, 0],
        (0, 2),
        NONE,
    ),
];

/// A frame before the last is marked as the last; the last is not, before nothing, before the next
/// commit, and before the next number; a commit has no entry.
static MARKED: [Case<'static>; 5] = [
    (
        &[(false, 0, 1, true, 1), (false, 1, 1, true, 1)],
        [0, 0],
        [2, 0],
        (0, 1),
        NONE,
    ),
    (&[(false, 0, 1, false, 1)], [0, 0], [1, 0], (0, 1), NONE),
    (
        &[(false, 0, 1, false, 1), (false, 1, 2, true, 1)],
        [0, 0],
        [2, 0],
        (0, 2),
        NONE,
    ),
    (
        &[(false, 0, 1, false, 1), (true, 0, 2, true, 1)],
        [0, 0],
        [1, 1],
        (0, 2),
        NONE,
    ),
    (&[(false, 0, 1, true, 0)], [0, 0], [1, 0], (0, 1), NONE),
];

/// The frame of a sketch: so many deletes.
fn frame_of(alloc: Global, sketch: Sketch) -> Result<Frame, AllocError> {
    let (is_second, seq, commit, last, count) = sketch;
    let mut entries = EntryList::new(alloc);
    for row in 0..count {
        entries.push(Entry::Delete {
            table: 0,
            row: RowId(row),
        })?;
    }
    Ok(Frame {
        worker: u8::from(is_second),
        seq,
        commit,
        last,
        entries,
    })
}

/// An intake of two workers that has these frames.
fn intake_of(alloc: Global, sketches: &[Sketch]) -> Result<Intake, AllocError> {
    let mut intake = Intake::new(alloc, 2)?;
    for sketch in sketches {
        let frame = frame_of(alloc, *sketch)?;
        if frame.worker < intake.workers() {
            intake.take(&frame);
        }
    }
    Ok(intake)
}

/// Whether a worker's frames from `first` to before `end` are kept.
fn is_kept(intake: &Intake, worker: u8, first: u64, end: u64) -> bool
    ensures { result ≡ true → AreKept intake.now worker first end }
{
    for seq in first..end {
        if intake.frame(worker, seq).is_none() {
            return false;
        }
    }
    true
}

/// Whether all workers' frames from their lows to before their highs are kept.
fn are_kept(intake: &Intake, low: &[u64], high: &[u64]) -> bool
    requires each { length low.now ≡ length high.now }
    requires workers { length low.now ≤ workers_max }
    ensures { result ≡ true → AreAllKept intake.now low.now high.now }
{
    for (worker, first) in low.iter().enumerate() {
        if !is_kept(intake, worker as u8, *first, high[worker]) {
            return false;
        }
    }
    true
}

/// Adds for each commit of a part its worker and how many entries it has.
fn say(part: &[Commit], said: &mut Vec<u64>) -> Result<(), OrderFault> {
    for commit in part {
        let parts = [u64::from(commit.worker), commit.entries.len() as u64];
        if said.extend_from_slice(&parts).is_err() {
            return Err(OrderFault::Memory);
        }
    }
    Ok(())
}

/// What a merge gave: for each commit its worker and how many entries it has, and for each part how
/// many commits.
#[derive(Drop)]
struct Merged {
    said: Vec<u64>,
    parts: Vec<u64>,
}

/// What a merge of kept frames gives in parts of at most so many commits.
fn merge_in_parts(
    alloc: Global,
    intake: &Intake,
    low: [u64; 2],
    high: [u64; 2],
    versions: (u64, u64),
    room: usize,
) -> Result<Merged, OrderFault>
    requires room { 0 < room }
    requires kept { AreAllKept intake.now low high }
    requires versions { versions.0 ≤ versions.1 }
{
    let (mut before, to) = versions;
    let mut said = Vec::new(alloc);
    let mut parts = Vec::new(alloc);
    let mut at = low;
    let Ok(mut part) = Vec::with_capacity(alloc, room) else {
        return Err(OrderFault::Memory);
    };
    'parts: loop {
        next_commits(alloc, intake, &mut at, &high, before, to, &mut part)?;
        say(&part, &mut said)?;
        let taken = part.len() as u64;
        if parts.push(taken).is_err() {
            return Err(OrderFault::Memory);
        }
        before += taken;
        if before == to {
            return Ok(Merged { said, parts });
        }
        part.clear();
    }
}

/// What is answered of the frames that an intake keeps, taken in parts of so many commits.
fn answer_of(
    alloc: Global,
    intake: &Intake,
    low: [u64; 2],
    high: [u64; 2],
    versions: (u64, u64),
    room: usize,
) -> Result<Vec<u64>, OrderFault>
    requires { 0 < room }
{
    if versions.0 > versions.1 || !are_kept(intake, &low, &high) {
        return Ok(Vec::new(alloc));
    }
    match merge_in_parts(alloc, intake, low, high, versions, room) {
        Ok(Merged { said, .. }) => Ok(said),
        Err(fault) => Err(fault),
    }
}

/// Whether that is what was to be answered.
fn is_said(said: &Result<Vec<u64>, OrderFault>, expected: Result<&[u64], OrderFault>) -> bool {
    match (said, expected) {
        (Ok(said), Ok(expected)) => said.as_slice() == expected,
        (Err(said), Err(expected)) => *said == expected,
        _ => false,
    }
}

/// Whether the frames of a case are answered as it says, in parts of at most four commits, of three,
/// of two, and of one: the cases have three at most.
fn is_answered(alloc: Global, case: &Case) -> Result<bool, AllocError> {
    let (sketches, low, high, versions, expected) = *case;
    let intake = intake_of(alloc, sketches)?;
    for room in 1..5 {
        let said = answer_of(alloc, &intake, low, high, versions, room);
        if !is_said(&said, expected) {
            return Ok(false);
        }
    }
    Ok(true)
}

/// The index of the first case that is answered otherwise.
fn other_case(alloc: Global, cases: &[Case]) -> Result<Option<usize>, AllocError> {
    for (index, case) in cases.iter().enumerate() {
        if !is_answered(alloc, case)? {
            return Ok(Some(index));
        }
    }
    Ok(None)
}

#[test]
fn frames_are_merged(rt: HostRuntime) -> Result<(), Fail> {
    assert_eq!(rt; other_case(rt.alloc(), &HELD)?, None);
    Ok(())
}

#[test]
fn frames_that_hold_no_commits_are_refused(rt: HostRuntime) -> Result<(), Fail> {
    assert_eq!(rt; other_case(rt.alloc(), &OTHER_NUMBERS)?, None);
    assert_eq!(rt; other_case(rt.alloc(), &APART)?, None);
    assert_eq!(rt; other_case(rt.alloc(), &MARKED)?, None);
    Ok(())
}

/// How many commits the parts have in which the three are taken, at most so many at once.
fn parts_of_three(alloc: Global, room: usize) -> Result<Vec<u64>, OrderFault>
    requires { 0 < room }
{
    let Ok(intake) = intake_of(alloc, &THREE) else {
        return Err(OrderFault::Memory);
    };
    if !are_kept(&intake, &[0, 0], &[1, 3]) {
        return Ok(Vec::new(alloc));
    }
    match merge_in_parts(alloc, &intake, [0, 0], [1, 3], (0, 3), room) {
        Ok(Merged { parts, .. }) => Ok(parts),
        Err(fault) => Err(fault),
    }
}

#[test]
fn each_part_but_the_last_is_full(rt: HostRuntime) -> Result<(), Fail> {
    let one = parts_of_three(rt.alloc(), 1)?;
    assert_eq!(rt; one.as_slice(), [1, 1, 1].as_slice());
    let two = parts_of_three(rt.alloc(), 2)?;
    assert_eq!(rt; two.as_slice(), [2, 1].as_slice());
    let four = parts_of_three(rt.alloc(), 4)?;
    assert_eq!(rt; four.as_slice(), [3].as_slice());
    Ok(())
}

/// 36 frames of commit 1, 35 of which have 114 entries.
fn frames_of_one(alloc: Global, last: u64) -> Result<Vec<Sketch>, AllocError> {
    let mut frames = Vec::new(alloc);
    for seq in 0..35 {
        frames.push((false, seq, 1, false, 114))?;
    }
    frames.push((false, 35, 1, true, last))?;
    Ok(frames)
}

/// Whether 36 frames of one commit, the last with so many entries, are answered so.
fn is_one(
    alloc: Global,
    last: u64,
    expected: Result<&[u64], OrderFault>,
) -> Result<bool, AllocError> {
    let frames = frames_of_one(alloc, last)?;
    let case = (frames.as_slice(), [0, 0], [36, 0], (0, 1), expected);
    is_answered(alloc, &case)
}

#[test]
fn a_commit_has_at_most_4096_entries(rt: HostRuntime) -> Result<(), Fail> {
    assert!(rt; is_one(rt.alloc(), 106, Ok(&[0, 4096]))?);
    assert!(rt; is_one(rt.alloc(), 107, NONE)?);
    Ok(())
}

/// Whichever allocation is refused: the merge says so, and what came is kept as it was.
#[test]
fn merging_without_memory_says_so(rt: HostRuntime) -> Result<(), Fail> {
    let intake = intake_of(rt.alloc(), &THREE)?;
    let first = answer_of(rt.alloc(), &intake, [0, 0], [1, 3], (0, 3), 2);
    if first.is_err() {
        assert!(rt; matches!(first, Err(OrderFault::Memory)));
        let again = answer_of(rt.alloc(), &intake, [0, 0], [1, 3], (0, 3), 2)?;
        assert_eq!(rt; again.as_slice(), [1, 3, 0, 1, 1, 2].as_slice());
    }
    Ok(())
}

/// Their contracts say them.
#[test]
fn laws_of_merging_are_proved() {
    one_merge();
    parts_make_the_merge();
}
