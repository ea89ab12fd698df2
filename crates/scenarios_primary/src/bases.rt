//! Bases: which frames are kept, and which pieces are sent.

use crate::primary_steps::{Change, Line, Step, expect_none, other_step_of, other_story, start};
use journal::MemJournal;
use primary::{PrimaryCore, Work};
use scenarios_common::worker_datagrams::{ASK, HEAD, HEAD_OF_BASE, PIECE, PULL_OF_BASE};
use std::alloc::Global;
use std::test::Fail;

/// At version 0 there is no image, and nothing is dropped.
const NO_COMMIT: [Line; 8] = [
    (Step::Base(0, 0), 0, 0),
    (Step::Pull(0, 0, 0, &[]), 0, 0),
    (Step::Commit(0, 0, &[Change::Insert(7)], Ok(1)), 0, 1),
    (Step::Base(0, 0), 0, 1),
    (Step::Flush(1, 1), 1, 0),
    (Step::Pull(0, 0, 0, &[]), 1, 0),
    (Step::Receive(&ASK, Some(&HEAD)), 1, 0),
    (Step::Want(0, 0, 0, &[54]), 1, 0),
];

/// Commit 1, of worker 0, is the base, and commit 2, of worker 1, is behind it. The piece is sent to
/// whoever wants it, and nothing is sent for another base, or from a number on that no piece has.
const TWO_WORKERS: [Line; 20] = [
    (Step::Commit(0, 0, &[Change::Insert(7)], Ok(1)), 0, 1),
    (Step::Flush(1, 1), 1, 0),
    (Step::Base(1, 1), 1, 0),
    (Step::Push(0, 0, None), 1, 0),
    (Step::Commit(1, 1, &[Change::Insert(8)], Ok(2)), 1, 1),
    (Step::Want(0, 1, 0, &[]), 1, 1),
    (Step::Flush(1, 2), 2, 0),
    (Step::Push(0, 0, None), 2, 0),
    (Step::Push(0, 1, None), 2, 0),
    (Step::Receive(&ASK, Some(&HEAD_OF_BASE)), 2, 0),
    (Step::Receive(&PULL_OF_BASE, Some(&PIECE)), 2, 0),
    (Step::Pull(15, 1, 0, &[53]), 2, 0),
    (Step::Pull(0, 1, 1, &[]), 2, 0),
    (Step::Pull(0, 0, 0, &[]), 2, 0),
    (Step::Pull(0, 2, 0, &[]), 2, 0),
    (Step::Pull(0, u64::MAX, u64::MAX, &[]), 2, 0),
    (Step::Want(0, 0, 0, &[]), 2, 0),
    (Step::Want(0, 1, 0, &[54]), 2, 0),
    (Step::Receive(&PIECE, None), 2, 0),
    (Step::Receive(&HEAD_OF_BASE, None), 2, 0),
];

/// A second base takes the place of the first, whose pieces are gone. The row is deleted, and is
/// in no piece.
const TWO_BASES: [Line; 12] = [
    (Step::Commit(0, 0, &[Change::Insert(7)], Ok(1)), 0, 1),
    (Step::Flush(1, 1), 1, 0),
    (Step::Base(1, 1), 1, 0),
    (Step::Base(1, 1), 1, 0),
    (Step::Commit(0, 1, &[Change::Delete(7)], Ok(2)), 1, 1),
    (Step::Base(1, 1), 1, 1),
    (Step::Flush(1, 2), 2, 0),
    (Step::Want(0, 0, 1, &[36]), 2, 0),
    (Step::Base(2, 1), 2, 0),
    (Step::Want(0, 0, 1, &[]), 2, 0),
    (Step::Pull(0, 1, 0, &[]), 2, 0),
    (Step::Pull(0, 2, 0, &[25]), 2, 0),
];

/// The lengths of the last sixteen pieces of 4096 rows: 41 rows in each, and 37 in the last.
const FIFTEEN_AND_LAST: [usize; 16] = [
    1173, 1173, 1173, 1173, 1173, 1173, 1173, 1173, 1173, 1173, 1173, 1173, 1173, 1173, 1173, 1061,
];

/// An image of a hundred pieces is sent sixteen at a time. A pending commit is in none of them.
const HUNDRED_PIECES: [Line; 11] = [
    (Step::Commit(0, 0, &[Change::InsertAll(4096)], Ok(1)), 0, 1),
    (Step::Flush(1, 1), 1, 0),
    (Step::Commit(0, 1, &[Change::Insert(9000)], Ok(2)), 1, 1),
    (Step::Base(1, 100), 1, 1),
    (Step::Pull(0, 1, 0, &[1173; 16]), 1, 1),
    (Step::Pull(3, 1, 83, &[1173; 16]), 1, 1),
    (Step::Pull(0, 1, 84, &FIFTEEN_AND_LAST), 1, 1),
    (Step::Pull(0, 1, 98, &[1173, 1061]), 1, 1),
    (Step::Pull(0, 1, 99, &[1061]), 1, 1),
    (Step::Pull(0, 1, 100, &[]), 1, 1),
    (Step::Pull(0, 1, u64::MAX, &[]), 1, 1),
];

/// The base is the first commit, of 15 frames; two more have one frame each. A Want from below the
/// base is answered with the kept ones of sixteen frames, and none is left once the base is 16.
const WANTS: [Line; 16] = [
    (Step::Commit(0, 0, &[Change::InsertAll(615)], Ok(1)), 0, 1),
    (Step::Flush(1, 1), 1, 0),
    (Step::Commit(0, 1, &[Change::Insert(9000)], Ok(2)), 1, 1),
    (Step::Commit(0, 1, &[Change::Insert(9001)], Ok(3)), 1, 2),
    (Step::Base(1, 15), 1, 2),
    (Step::Want(0, 0, 0, &[]), 1, 2),
    (Step::Flush(2, 3), 3, 0),
    (Step::WantAcross(0, 15, &[54]), 3, 0),
    (Step::WantAcross(1, 15, &[54, 54]), 3, 0),
    (Step::WantAcross(14, 15, &[54, 54]), 3, 0),
    (Step::Want(0, 0, 15, &[54, 54]), 3, 0),
    (Step::Want(0, 0, 16, &[54]), 3, 0),
    (Step::Want(0, 0, 17, &[]), 3, 0),
    (Step::Want(0, 0, u64::MAX, &[]), 3, 0),
    (Step::Base(3, 16), 3, 0),
    (Step::Want(0, 0, 0, &[]), 3, 0),
];

static STORIES: [(u8, &[Line]); 5] = [
    (1, &NO_COMMIT),
    (2, &TWO_WORKERS),
    (1, &TWO_BASES),
    (1, &HUNDRED_PIECES),
    (1, &WANTS),
];

#[test]
fn a_base_stands_for_the_frames_below_it(rt: HostRuntime) -> Result<(), Fail> {
    expect_none(&rt, other_story(rt.alloc(), &STORIES)?);
    Ok(())
}

/// Two commits are durable when a flush of the third begins.
static BEFORE_A_WRITE: [Line; 5] = [
    (Step::Commit(0, 0, &[Change::Insert(7)], Ok(1)), 0, 1),
    (Step::Commit(0, 0, &[Change::Insert(8)], Ok(2)), 0, 2),
    (Step::Flush(2, 2), 2, 0),
    (Step::Commit(0, 2, &[Change::Insert(9)], Ok(3)), 2, 1),
    (Step::Commit(0, 2, &[Change::Insert(10)], Ok(4)), 2, 2),
];

/// While it is written, the base is what is durable.
static WHILE_WRITTEN: [Line; 4] = [
    (Step::Base(2, 1), 2, 2),
    (Step::Want(0, 0, 0, &[]), 2, 2),
    (Step::Pull(0, 2, 0, &[81]), 2, 2),
    (Step::Commit(0, 2, &[Change::Insert(11)], Ok(5)), 2, 3),
];

/// Once it has ended, the frame of the third is there, and no other.
static BEHIND_THE_WRITE: [Line; 6] = [
    (Step::WantAcross(0, 2, &[54]), 3, 2),
    (Step::Base(3, 1), 3, 2),
    (Step::Pull(0, 3, 0, &[109]), 3, 2),
    (Step::Flush(usize::MAX, 5), 5, 0),
    (Step::WantAcross(2, 3, &[54, 54]), 5, 0),
    (Step::Base(5, 1), 5, 0),
];

/// Whether a base is taken as it should while the journal is lent out.
fn is_based_while_lent(alloc: Global, primary: &mut PrimaryCore<MemJournal>) -> Result<bool, Fail> {
    match primary.begin_flush(1) {
        Ok(work) => is_based_while_written(alloc, primary, work),
        Err(_) => Err("the flush did not begin".into()),
    }
}

/// The same before a flush that has begun is written and ends.
fn is_based_while_written(
    alloc: Global,
    primary: &mut PrimaryCore<MemJournal>,
    work: Work<MemJournal>,
) -> Result<bool, Fail> {
    let other = other_step_of(alloc, 1, primary, &WHILE_WRITTEN);
    let ended = primary.end_flush(work.write());
    Ok(other?.is_none() && ended == Ok(3))
}

/// The same between the steps before and after it.
fn is_based_between(alloc: Global, primary: &mut PrimaryCore<MemJournal>) -> Result<bool, Fail> {
    let before = other_step_of(alloc, 1, primary, &BEFORE_A_WRITE)?;
    let based = is_based_while_lent(alloc, primary)?;
    let behind = other_step_of(alloc, 1, primary, &BEHIND_THE_WRITE)?;
    Ok(before.is_none() && based && behind.is_none())
}

/// The same of a fresh primary.
fn is_based_by_one(alloc: Global) -> Result<bool, Fail> {
    let mut primary = start(alloc, 1)?;
    is_based_between(alloc, &mut primary)
}

#[test]
fn a_base_is_taken_while_the_journal_is_written(rt: HostRuntime) -> Result<(), Fail> {
    assert!(rt; is_based_by_one(rt.alloc())?);
    Ok(())
}

/// A base of two pieces is taken behind another one while a commit is pending.
static TAKEN: [Line; 8] = [
    (Step::Commit(0, 0, &[Change::Insert(9000)], Ok(1)), 0, 1),
    (Step::Flush(1, 1), 1, 0),
    (Step::Base(1, 1), 1, 0),
    (Step::Commit(0, 1, &[Change::InsertAll(42)], Ok(2)), 1, 1),
    (Step::Flush(1, 2), 2, 0),
    (Step::Commit(0, 2, &[Change::Insert(9001)], Ok(3)), 2, 1),
    (Step::Base(2, 2), 2, 1),
    (Step::Pull(0, 2, 0, &[1173, 81]), 2, 1),
];

/// Whichever request for memory is refused: a base that was refused for memory is the one before,
/// and is taken when it is asked for again; and so a Pull is answered then.
#[test]
fn a_base_without_memory_is_the_one_before(rt: HostRuntime) -> Result<(), Fail> {
    expect_none(&rt, other_story(rt.alloc(), &[(1, &TAKEN)])?);
    Ok(())
}
