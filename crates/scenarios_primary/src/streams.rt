//! Commits on their way from the primary: when they are durable, their frames byte by byte, what
//! an Ask is answered, and which frames a Want.

use crate::primary_steps::{Change, Line, Step, expect_none, other_story};
use scenarios_common::worker_datagrams::{
    ASK, FRAME, HEAD, HEAD_OF_BOTH, PIECE, PULL, SECOND_FRAME,
};
use std::test::Fail;

/// A commit becomes durable.
const DURABLE: [Line; 5] = [
    (Step::Flush(usize::MAX, 0), 0, 0),
    (Step::Commit(0, 0, &[Change::Insert(7)], Ok(1)), 0, 1),
    (Step::Push(0, 0, None), 0, 1),
    (Step::Flush(0, 0), 0, 1),
    (Step::Flush(1, 1), 1, 0),
];

/// A frame is pushed, and an Ask alone is answered; also a Pull is not, since there is no image.
const ANSWERED: [Line; 9] = [
    (Step::Commit(0, 0, &[Change::Insert(7)], Ok(1)), 0, 1),
    (Step::Flush(usize::MAX, 1), 1, 0),
    (Step::Push(0, 0, Some(&FRAME)), 1, 0),
    (Step::Push(0, 1, None), 1, 0),
    (Step::Receive(&ASK, Some(&HEAD)), 1, 0),
    (Step::Receive(&FRAME, None), 1, 0),
    (Step::Receive(&PULL, None), 1, 0),
    (Step::Receive(&PIECE, None), 1, 0),
    (Step::Receive(b"garbage", None), 1, 0),
];

/// Each of two workers has a stream. The frame is the second of worker 1, and of commit 3; the Head
/// counts one frame of worker 0 and two of worker 1.
const TWO_WORKERS: [Line; 14] = [
    (Step::Commit(1, 0, &[Change::Insert(7)], Ok(1)), 0, 1),
    (Step::Commit(0, 0, &[Change::Insert(8)], Ok(2)), 0, 2),
    (Step::Commit(1, 0, &[Change::Insert(9)], Ok(3)), 0, 3),
    (Step::Commit(1, 0, &[Change::Insert(10)], Ok(4)), 0, 4),
    (Step::Flush(3, 3), 3, 1),
    (Step::Push(1, 1, Some(&SECOND_FRAME)), 3, 1),
    (Step::Push(1, 2, None), 3, 1),
    (Step::Push(0, 1, None), 3, 1),
    (Step::Receive(&ASK, Some(&HEAD_OF_BOTH)), 3, 1),
    (Step::Want(0, 0, 0, &[54]), 3, 1),
    (Step::Want(0, 1, 0, &[54, 54]), 3, 1),
    (Step::Want(1, 1, 1, &[54]), 3, 1),
    (Step::Want(0, 1, 2, &[]), 3, 1),
    (Step::Want(0, 2, 0, &[]), 3, 1),
];

/// A commit of 4096 rows takes a hundred frames, all of 1174 bytes but the last. While it is pending
/// none is sent; then sixteen at the most, to the replica that wants them, and none of a worker
/// that is not there.
const HUNDRED_FRAMES: [Line; 15] = [
    (Step::Commit(0, 0, &[Change::InsertAll(4096)], Ok(1)), 0, 1),
    (Step::Want(0, 0, 0, &[]), 0, 1),
    (Step::Flush(1, 1), 1, 0),
    (Step::Want(0, 0, 0, &[1174; 16]), 1, 0),
    (Step::Want(15, 0, 1, &[1174; 16]), 1, 0),
    (Step::Want(0, 0, 83, &[1174; 16]), 1, 0),
    (Step::Want(0, 0, 84, &FIFTEEN_AND_LAST), 1, 0),
    (Step::Want(0, 0, 90, &NINE_AND_LAST), 1, 0),
    (Step::Want(3, 0, 99, &[1062]), 1, 0),
    (Step::Want(0, 0, 100, &[]), 1, 0),
    (Step::Want(0, 0, 101, &[]), 1, 0),
    (Step::Want(0, 0, u64::MAX, &[]), 1, 0),
    (Step::Want(0, 1, 0, &[]), 1, 0),
    (Step::Want(0, 15, 0, &[]), 1, 0),
    (Step::Want(0, 0, 98, &[1174, 1062]), 1, 0),
];

/// The lengths of the last sixteen frames.
const FIFTEEN_AND_LAST: [usize; 16] = [
    1174, 1174, 1174, 1174, 1174, 1174, 1174, 1174, 1174, 1174, 1174, 1174, 1174, 1174, 1174, 1062,
];

/// The lengths of the last ten.
const NINE_AND_LAST: [usize; 10] = [1174, 1174, 1174, 1174, 1174, 1174, 1174, 1174, 1174, 1062];

/// Twenty commits of one row each have a frame each; a Want has the first sixteen of those that are
/// durable.
const TWENTY_COMMITS: [Line; 24] = [
    (Step::Commit(0, 0, &[Change::Insert(1)], Ok(1)), 0, 1),
    (Step::Commit(0, 0, &[Change::Insert(2)], Ok(2)), 0, 2),
    (Step::Commit(0, 0, &[Change::Insert(3)], Ok(3)), 0, 3),
    (Step::Commit(0, 0, &[Change::Insert(4)], Ok(4)), 0, 4),
    (Step::Commit(0, 0, &[Change::Insert(5)], Ok(5)), 0, 5),
    (Step::Commit(0, 0, &[Change::Insert(6)], Ok(6)), 0, 6),
    (Step::Commit(0, 0, &[Change::Insert(7)], Ok(7)), 0, 7),
    (Step::Commit(0, 0, &[Change::Insert(8)], Ok(8)), 0, 8),
    (Step::Commit(0, 0, &[Change::Insert(9)], Ok(9)), 0, 9),
    (Step::Commit(0, 0, &[Change::Insert(10)], Ok(10)), 0, 10),
    (Step::Commit(0, 0, &[Change::Insert(11)], Ok(11)), 0, 11),
    (Step::Commit(0, 0, &[Change::Insert(12)], Ok(12)), 0, 12),
    (Step::Commit(0, 0, &[Change::Insert(13)], Ok(13)), 0, 13),
    (Step::Commit(0, 0, &[Change::Insert(14)], Ok(14)), 0, 14),
    (Step::Commit(0, 0, &[Change::Insert(15)], Ok(15)), 0, 15),
    (Step::Commit(0, 0, &[Change::Insert(16)], Ok(16)), 0, 16),
    (Step::Commit(0, 0, &[Change::Insert(17)], Ok(17)), 0, 17),
    (Step::Commit(0, 0, &[Change::Insert(18)], Ok(18)), 0, 18),
    (Step::Commit(0, 0, &[Change::Insert(19)], Ok(19)), 0, 19),
    (Step::Commit(0, 0, &[Change::Insert(20)], Ok(20)), 0, 20),
    (Step::Flush(10, 10), 10, 10),
    (Step::Want(0, 0, 0, &[54; 10]), 10, 10),
    (Step::Flush(9, 19), 19, 1),
    (Step::Want(0, 0, 0, &[54; 16]), 19, 1),
];

static STORIES: [(u8, &[Line]); 5] = [
    (1, &DURABLE),
    (1, &ANSWERED),
    (2, &TWO_WORKERS),
    (1, &HUNDRED_FRAMES),
    (1, &TWENTY_COMMITS),
];

#[test]
fn frames_are_sent_to_the_byte(rt: HostRuntime) -> Result<(), Fail> {
    expect_none(&rt, other_story(rt.alloc(), &STORIES)?);
    Ok(())
}

/// A commit's frames are wanted once it is durable.
static WANTED: [Line; 3] = [
    (Step::Commit(0, 0, &[Change::InsertAll(42)], Ok(1)), 0, 1),
    (Step::Flush(1, 1), 1, 0),
    (Step::Want(0, 0, 0, &[1174, 54]), 1, 0),
];

/// Whichever request for memory is refused: a commit of two frames that was refused for memory has
/// changed nothing, a flush has moved nothing, and a Want is answered when it comes again.
#[test]
fn two_frames_without_memory_are_sent_at_last(rt: HostRuntime) -> Result<(), Fail> {
    expect_none(&rt, other_story(rt.alloc(), &[(1, &WANTED)])?);
    Ok(())
}
