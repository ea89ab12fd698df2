//! An intake of two workers: what each frame is answered, what is missing, what is kept, what is
//! gained, and what refused memory leaves.

use intake::{
    Intake, Taken, arrivals_stay_of_streams, first_missing_is_least, frames_are_gained,
    known_frames_stay_kept,
};
use scenarios_common::wanted::{Wanted, all_made};
use std::alloc::{AllocError, Global};
use std::test::Fail;
use update_log::Frame;

/// A call of an intake.
#[derive(Clone, Copy)]
enum Step {
    /// The frame of a worker's seq comes; it is of the commit of that number.
    Take(u8, u64, u64),
    /// The same with these bases, and the frame itself is taken.
    TakeOwned(&'static [u64], u8, u64, u64),
    /// The first seq that is missing of a worker.
    Contiguous(u8),
    /// The same at or above its base, of these.
    ContiguousFrom(&'static [u64], u8),
    /// The first frame that is missing below these counts.
    FirstMissing(&'static [u64]),
    /// The same at or above these bases; the counts come second.
    FirstMissingFrom(&'static [u64], &'static [u64]),
    /// The number of the commit of which the frame of a worker's seq is, where it is kept.
    CommitAt(u8, u64),
    /// The frames below these counts are dropped; how many workers there are.
    DropBelow(&'static [u64]),
    /// Calls with these bases are made faster; how many workers there are.
    Aim(&'static [u64]),
    /// The frames below these bases are gained; how many workers there are.
    Gain(&'static [u64]),
}

/// What a call answers.
#[derive(Clone, Copy, PartialEq)]
enum Answer {
    Taken(Taken),
    Seq(u64),
    Missing(Option<(u8, u64)>),
    Commit(Option<u64>),
    Workers(u8),
}

/// A line of a story: a call, and what it is to answer.
type Line = (Step, Answer);

const STORED: Answer = Answer::Taken(Taken::Stored);

const REPEAT: Answer = Answer::Taken(Taken::Repeat);

const AHEAD: Answer = Answer::Taken(Taken::Ahead);

/// The window is 4096 seqs from the first that is missing, and never has the greatest number.
static WINDOW: [Line; 5] = [
    (Step::Take(0, 4096, 1), AHEAD),
    (Step::Take(0, 4095, 1), STORED),
    (Step::Take(0, 4095, 1), REPEAT),
    (Step::Contiguous(0), Answer::Seq(0)),
    (Step::Take(0, 18446744073709551615, 1), AHEAD),
];

/// What fills a gap moves the window of its worker alone, past all that is known behind it.
static GAPS: [Line; 11] = [
    (Step::Take(0, 1, 1), STORED),
    (Step::Take(0, 2, 1), STORED),
    (Step::Take(0, 4, 1), STORED),
    (Step::Contiguous(0), Answer::Seq(0)),
    (Step::Take(0, 0, 1), STORED),
    (Step::Contiguous(0), Answer::Seq(3)),
    (Step::Contiguous(1), Answer::Seq(0)),
    (Step::Contiguous(2), Answer::Seq(0)),
    (Step::Take(0, 4099, 1), AHEAD),
    (Step::Take(0, 4098, 1), STORED),
    (Step::Take(1, 4096, 1), AHEAD),
];

/// The least worker that lacks a frame below its count is named, and a worker without a count lacks
/// none.
static MISSING: [Line; 6] = [
    (Step::Take(1, 0, 1), STORED),
    (Step::FirstMissing(&[0, 1]), Answer::Missing(None)),
    (Step::FirstMissing(&[0, 2]), Answer::Missing(Some((1, 1)))),
    (Step::FirstMissing(&[1, 2]), Answer::Missing(Some((0, 0)))),
    (Step::FirstMissing(&[0]), Answer::Missing(None)),
    (Step::FirstMissing(&[0, 1, 9]), Answer::Missing(None)),
];

/// A frame that is dropped stays known, also one behind a gap.
static DROPPED: [Line; 12] = [
    (Step::Take(0, 0, 7), STORED),
    (Step::Take(0, 2, 9), STORED),
    (Step::Take(1, 0, 8), STORED),
    (Step::CommitAt(0, 0), Answer::Commit(Some(7))),
    (Step::DropBelow(&[1]), Answer::Workers(2)),
    (Step::CommitAt(0, 0), Answer::Commit(None)),
    (Step::CommitAt(0, 2), Answer::Commit(Some(9))),
    (Step::CommitAt(1, 0), Answer::Commit(Some(8))),
    (Step::Take(0, 0, 7), REPEAT),
    (Step::DropBelow(&[3, 0]), Answer::Workers(2)),
    (Step::CommitAt(0, 2), Answer::Commit(None)),
    (Step::Take(0, 2, 9), REPEAT),
];

/// A frame that is taken itself is known and kept as one of which a copy is.
static OWNED: [Line; 10] = [
    (Step::TakeOwned(&[], 0, 4096, 1), AHEAD),
    (Step::TakeOwned(&[], 0, 18446744073709551615, 1), AHEAD),
    (Step::TakeOwned(&[], 0, 1, 7), STORED),
    (Step::TakeOwned(&[], 0, 1, 7), REPEAT),
    (Step::Take(0, 1, 7), REPEAT),
    (Step::CommitAt(0, 1), Answer::Commit(Some(7))),
    (Step::TakeOwned(&[], 0, 0, 6), STORED),
    (Step::Contiguous(0), Answer::Seq(2)),
    (Step::DropBelow(&[1]), Answer::Workers(2)),
    (Step::TakeOwned(&[], 0, 0, 6), REPEAT),
];

/// With a base the window is 4096 seqs from the first that is missing at or above it. A frame below
/// the base is taken too, and a worker without one has the base 0.
static FROM_BASE: [Line; 15] = [
    (Step::TakeOwned(&[5000], 0, 9096, 1), AHEAD),
    (Step::TakeOwned(&[5000], 0, 9095, 1), STORED),
    (Step::TakeOwned(&[], 0, 9094, 1), AHEAD),
    (Step::TakeOwned(&[5000], 1, 4096, 1), AHEAD),
    (Step::TakeOwned(&[5000, 1], 1, 4096, 1), STORED),
    (Step::TakeOwned(&[5000], 0, 5000, 1), STORED),
    (Step::ContiguousFrom(&[5000], 0), Answer::Seq(5001)),
    (Step::TakeOwned(&[5000], 0, 9097, 1), AHEAD),
    (Step::TakeOwned(&[5000], 0, 9096, 1), STORED),
    (Step::TakeOwned(&[5000], 0, 4999, 1), STORED),
    (Step::TakeOwned(&[5000], 0, 4999, 1), REPEAT),
    (Step::Contiguous(0), Answer::Seq(0)),
    (Step::TakeOwned(&[u64::MAX], 0, u64::MAX, 1), AHEAD),
    (Step::TakeOwned(&[u64::MAX], 0, u64::MAX - 1, 1), STORED),
    (Step::ContiguousFrom(&[u64::MAX], 0), Answer::Seq(u64::MAX)),
];

/// What is missing from a base on, with calls for another base and before and after calls are made
/// faster. A base above the count leaves nothing to be missing.
static MISSING_FROM: [Line; 19] = [
    (Step::Aim(&[100, 7, 9]), Answer::Workers(2)),
    (Step::TakeOwned(&[100], 0, 101, 1), STORED),
    (Step::ContiguousFrom(&[100], 0), Answer::Seq(100)),
    (Step::TakeOwned(&[100], 0, 100, 1), STORED),
    (Step::ContiguousFrom(&[100], 0), Answer::Seq(102)),
    (Step::ContiguousFrom(&[101], 0), Answer::Seq(102)),
    (Step::ContiguousFrom(&[99], 0), Answer::Seq(99)),
    (Step::ContiguousFrom(&[], 0), Answer::Seq(0)),
    (Step::ContiguousFrom(&[100, 7, 9], 2), Answer::Seq(9)),
    (Step::Aim(&[101]), Answer::Workers(2)),
    (Step::ContiguousFrom(&[100], 0), Answer::Seq(102)),
    (Step::ContiguousFrom(&[101], 0), Answer::Seq(102)),
    (
        Step::FirstMissingFrom(&[100], &[102]),
        Answer::Missing(None),
    ),
    (
        Step::FirstMissingFrom(&[100], &[103]),
        Answer::Missing(Some((0, 102))),
    ),
    (
        Step::FirstMissingFrom(&[100, 5], &[102, 6]),
        Answer::Missing(Some((1, 5))),
    ),
    (
        Step::FirstMissingFrom(&[100], &[102, 6]),
        Answer::Missing(Some((1, 0))),
    ),
    (Step::FirstMissingFrom(&[9], &[5]), Answer::Missing(None)),
    (
        Step::FirstMissingFrom(&[u64::MAX], &[u64::MAX]),
        Answer::Missing(None),
    ),
    (Step::FirstMissing(&[1]), Answer::Missing(Some((0, 0)))),
];

/// Frames are gained below 0, below the first gap, up to a frame behind it, above one that is kept,
/// below what is known already, and below the greatest number; of a worker without a base none is.
static GAINED: [Line; 30] = [
    (Step::Take(0, 0, 1), STORED),
    (Step::Take(0, 1, 2), STORED),
    (Step::Take(0, 3, 4), STORED),
    (Step::Gain(&[0]), Answer::Workers(2)),
    (Step::Contiguous(0), Answer::Seq(2)),
    (Step::Gain(&[2]), Answer::Workers(2)),
    (Step::Contiguous(0), Answer::Seq(2)),
    (Step::Gain(&[3]), Answer::Workers(2)),
    (Step::Contiguous(0), Answer::Seq(4)),
    (Step::Take(0, 2, 3), REPEAT),
    (Step::CommitAt(0, 2), Answer::Commit(None)),
    (Step::CommitAt(0, 3), Answer::Commit(Some(4))),
    (Step::Take(0, 6, 7), STORED),
    (Step::Take(0, 9, 10), STORED),
    (Step::Gain(&[8, 0, 5]), Answer::Workers(2)),
    (Step::Contiguous(0), Answer::Seq(8)),
    (Step::CommitAt(0, 6), Answer::Commit(Some(7))),
    (Step::Take(0, 7, 8), REPEAT),
    (Step::Take(0, 8, 9), STORED),
    (Step::Contiguous(0), Answer::Seq(10)),
    (Step::Gain(&[1]), Answer::Workers(2)),
    (Step::Contiguous(0), Answer::Seq(10)),
    (Step::Contiguous(1), Answer::Seq(0)),
    (Step::Gain(&[u64::MAX, 1]), Answer::Workers(2)),
    (Step::Contiguous(0), Answer::Seq(u64::MAX)),
    (Step::Take(0, u64::MAX - 1, 11), REPEAT),
    (Step::Take(0, u64::MAX, 11), AHEAD),
    (Step::CommitAt(0, 6), Answer::Commit(Some(7))),
    (Step::Take(1, 0, 1), REPEAT),
    (
        Step::FirstMissing(&[u64::MAX, 2]),
        Answer::Missing(Some((1, 1))),
    ),
];

/// The frame of a worker's seq, with one entry of the commit of that number.
fn frame_of(alloc: Global, worker: u8, seq: u64, commit: u64) -> Result<Frame, AllocError> {
    Ok(Frame {
        worker,
        seq,
        commit,
        last: true,
        entries: all_made(alloc, &[Wanted::Delete(0, commit)])?,
    })
}

/// A frame comes, of a worker that is there.
fn take(intake: &mut Intake, frame: &Frame) -> Result<Taken, Fail> {
    if frame.worker >= intake.workers() {
        return Err("no such worker".into());
    }
    let told = intake.would_take(&[], frame.worker, frame.seq);
    as_told(intake.take(frame), told)
}

/// The same with these bases, and the frame itself is taken.
fn take_owned(intake: &mut Intake, bases: &[u64], frame: Frame) -> Result<Taken, Fail> {
    if frame.worker >= intake.workers() {
        return Err("no such worker".into());
    }
    let told = intake.would_take(bases, frame.worker, frame.seq);
    as_told(intake.take_owned(bases, frame), told)
}

/// What became of a frame, which is what was told before it came; or it was refused for memory,
/// where it was to be stored.
fn as_told(taken: Taken, told: Taken) -> Result<Taken, Fail> {
    if taken == told || (taken == Taken::Memory && told == Taken::Stored) {
        return Ok(taken);
    }
    Err("another answer than was told".into())
}

/// What a call answers.
fn answer_of(alloc: Global, intake: &mut Intake, step: Step) -> Result<Answer, Fail> {
    match step {
        Step::Take(worker, seq, commit) => {
            let frame = frame_of(alloc, worker, seq, commit)?;
            Ok(Answer::Taken(take(intake, &frame)?))
        }
        Step::TakeOwned(bases, worker, seq, commit) => {
            let frame = frame_of(alloc, worker, seq, commit)?;
            Ok(Answer::Taken(take_owned(intake, bases, frame)?))
        }
        Step::Contiguous(worker) => Ok(Answer::Seq(intake.contiguous(worker))),
        Step::ContiguousFrom(bases, worker) => {
            Ok(Answer::Seq(intake.contiguous_from(bases, worker)))
        }
        Step::FirstMissing(counts) => Ok(Answer::Missing(intake.first_missing(counts))),
        Step::FirstMissingFrom(bases, counts) => {
            Ok(Answer::Missing(intake.first_missing_from(bases, counts)))
        }
        Step::CommitAt(worker, seq) => Ok(Answer::Commit(commit_at(intake, worker, seq))),
        Step::DropBelow(counts) => {
            intake.drop_below(counts);
            Ok(Answer::Workers(intake.workers()))
        }
        Step::Aim(bases) => {
            intake.aim(bases);
            Ok(Answer::Workers(intake.workers()))
        }
        Step::Gain(bases) => {
            intake.gain(bases);
            Ok(Answer::Workers(intake.workers()))
        }
    }
}

/// The number of the commit of which the frame of a worker's seq is, where it is kept.
fn commit_at(intake: &Intake, worker: u8, seq: u64) -> Option<u64> {
    match intake.frame(worker, seq) {
        None => None,
        Some(frame) => Some(frame.commit),
    }
}

/// The index of the first call that answers something else, from the start of a new intake.
fn other_answer(alloc: Global, story: &[Line]) -> Result<Option<usize>, Fail> {
    let mut intake = Intake::new(alloc, 2)?;
    for (index, (step, expected)) in story.iter().enumerate() {
        if answer_of(alloc, &mut intake, *step)? != *expected {
            return Ok(Some(index));
        }
    }
    Ok(None)
}

#[test]
fn frames_are_taken_within_the_window(rt: HostRuntime) -> Result<(), Fail> {
    assert_eq!(rt; other_answer(rt.alloc(), &WINDOW)?, None);
    assert_eq!(rt; other_answer(rt.alloc(), &GAPS)?, None);
    Ok(())
}

#[test]
fn what_is_missing_is_named_and_what_is_dropped_stays_known(rt: HostRuntime) -> Result<(), Fail> {
    assert_eq!(rt; other_answer(rt.alloc(), &MISSING)?, None);
    assert_eq!(rt; other_answer(rt.alloc(), &DROPPED)?, None);
    assert_eq!(rt; other_answer(rt.alloc(), &OWNED)?, None);
    arrivals_stay_of_streams();
    known_frames_stay_kept();
    first_missing_is_least();
    Ok(())
}

#[test]
fn a_base_moves_the_window_and_what_is_missing(rt: HostRuntime) -> Result<(), Fail> {
    assert_eq!(rt; other_answer(rt.alloc(), &FROM_BASE)?, None);
    assert_eq!(rt; other_answer(rt.alloc(), &MISSING_FROM)?, None);
    Ok(())
}

#[test]
fn frames_below_a_base_are_gained(rt: HostRuntime) -> Result<(), Fail> {
    assert_eq!(rt; other_answer(rt.alloc(), &GAINED)?, None);
    frames_are_gained();
    Ok(())
}

/// Whether a frame is stored; or it was refused for memory, which left it unknown and not kept, and
/// is stored when it comes again.
fn is_stored_at_last(intake: &mut Intake, frame: &Frame) -> Result<bool, Fail> {
    match take(intake, frame)? {
        Taken::Stored => Ok(true),
        Taken::Repeat | Taken::Ahead => Ok(false),
        Taken::Memory => {
            let is_kept = intake.frame(frame.worker, frame.seq).is_some();
            Ok(!is_kept && take(intake, frame)? == Taken::Stored)
        }
    }
}

/// Whether frame 4 of worker 0 is stored itself; or that was refused for memory, which left it
/// unknown and not kept, and it is stored when it comes again.
fn is_owned_at_last(alloc: Global, intake: &mut Intake) -> Result<bool, Fail> {
    let first = frame_of(alloc, 0, 4, 5)?;
    match take_owned(intake, &[], first)? {
        Taken::Stored => Ok(true),
        Taken::Repeat | Taken::Ahead => Ok(false),
        Taken::Memory => {
            let is_kept = intake.frame(0, 4).is_some();
            let again = frame_of(alloc, 0, 4, 5)?;
            Ok(!is_kept && take_owned(intake, &[], again)? == Taken::Stored)
        }
    }
}

/// Whichever request for memory is refused: a frame behind a gap that was refused for memory has
/// changed nothing, and is stored when it comes again.
#[test]
fn a_frame_taken_without_memory_changes_nothing(rt: HostRuntime) -> Result<(), Fail> {
    let first = frame_of(rt.alloc(), 0, 0, 1)?;
    let later = frame_of(rt.alloc(), 0, 4095, 3)?;
    let mut intake = Intake::new(rt.alloc(), 2)?;
    assert!(rt; is_stored_at_last(&mut intake, &first)?);
    assert!(rt; is_stored_at_last(&mut intake, &later)?);
    assert!(rt; is_owned_at_last(rt.alloc(), &mut intake)?);
    assert_eq!(rt;
        (intake.contiguous(0), commit_at(&intake, 0, 4095)),
        (1, Some(3))
    );
    Ok(())
}
