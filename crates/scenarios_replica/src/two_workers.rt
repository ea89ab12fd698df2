//! A replica of two workers: whose frames it waits for, which Heads it takes, and in which order it
//! applies their commits.

use crate::replica::{Ran, Step, Story, other_step, other_story};
use dispatcher::{AskFault, Got};
use scenarios_common::wanted::NUMBERS;
use scenarios_common::worker_datagrams::{HEAD, Insert};
use std::test::Fail;

/// Commits 1 to 3, each in a frame of its own: of worker 0, and two of worker 1.
const FIRST: Insert = Insert {
    worker: 0,
    seq: 0,
    commit: 1,
    last: true,
    row: 7,
};

const SECOND: Insert = Insert {
    worker: 1,
    seq: 0,
    commit: 2,
    last: true,
    row: 8,
};

const THIRD: Insert = Insert {
    worker: 1,
    seq: 1,
    commit: 3,
    last: true,
    row: 9,
};

/// A frame of a worker that is not there.
const OF_WORKER_2: Insert = Insert {
    worker: 2,
    seq: 0,
    commit: 1,
    last: true,
    row: 7,
};

/// The report on so many rows, at a version.
const NO_ROWS_AT_0: &[u8] = b"version 0 queries 1\nquery 0 rows 1\n0\n";

const ONE_ROW_AT_1: &[u8] = b"version 1 queries 1\nquery 0 rows 1\n1\n";

const TWO_ROWS_AT_1: &[u8] = b"version 1 queries 1\nquery 0 rows 1\n2\n";

const TWO_ROWS_AT_2: &[u8] = b"version 2 queries 1\nquery 0 rows 1\n2\n";

const THREE_ROWS_AT_3: &[u8] = b"version 3 queries 1\nquery 0 rows 1\n3\n";

/// A Head has a count for each worker, and is taken once.
const HEADS: [Step<'static>; 9] = [
    Step::Open(0, 1),
    Step::Ask,
    Step::Get(&HEAD, Got::Ignored),
    Step::GetHead(0, 3, [1, 2], Got::Ignored),
    Step::GetHead(2, 3, [1, 2], Got::Ignored),
    Step::GetHead(1, 3, [1, 2], Got::Head(3)),
    Step::GetHead(1, 3, [1, 2], Got::Ignored),
    Step::AskRefused(AskFault::Busy),
    Step::Run(Ran::Waiting(0, 0)),
];

/// The least worker of which a frame is missing is named, though all of the other have come.
const WORKER_0_MISSING: [Step<'static>; 9] = [
    Step::Open(0, 1),
    Step::GetInsert(THIRD, Got::Stored),
    Step::Ask,
    Step::GetHead(1, 3, [1, 2], Got::Head(3)),
    Step::Run(Ran::Waiting(0, 0)),
    Step::GetInsert(SECOND, Got::Stored),
    Step::Run(Ran::Waiting(0, 0)),
    Step::GetInsert(FIRST, Got::Stored),
    Step::Run(Ran::Answered(THREE_ROWS_AT_3)),
];

/// Of that worker the first frame that is missing is named. A worker that is not there has none.
const WORKER_1_MISSING: [Step<'static>; 11] = [
    Step::GetInsert(FIRST, Got::Stored),
    Step::GetInsert(OF_WORKER_2, Got::Ignored),
    Step::Open(0, 1),
    Step::Ask,
    Step::GetHead(1, 3, [1, 2], Got::Head(3)),
    Step::Run(Ran::Waiting(1, 0)),
    Step::GetInsert(SECOND, Got::Stored),
    Step::Run(Ran::Waiting(1, 1)),
    Step::GetInsert(SECOND, Got::Repeat),
    Step::GetInsert(THIRD, Got::Stored),
    Step::Run(Ran::Answered(THREE_ROWS_AT_3)),
];

/// A batch is answered at the version that was fetched for it, though more has come; then at a
/// later one. What was applied is known still, and no Head goes back behind it.
const APPLIED: [Step<'static>; 24] = [
    Step::GetInsert(FIRST, Got::Stored),
    Step::GetInsert(THIRD, Got::Stored),
    Step::GetInsert(SECOND, Got::Stored),
    Step::Open(0, 1),
    Step::Ask,
    Step::GetHead(1, 0, [0, 0], Got::Head(0)),
    Step::Run(Ran::Answered(NO_ROWS_AT_0)),
    Step::Open(0, 1),
    Step::AskOf(2),
    Step::GetHead(2, 2, [1, 1], Got::Head(2)),
    Step::Run(Ran::Answered(TWO_ROWS_AT_2)),
    Step::Version(2),
    Step::GetInsert(FIRST, Got::Repeat),
    Step::GetInsert(SECOND, Got::Repeat),
    Step::GetInsert(THIRD, Got::Repeat),
    Step::Open(0, 1),
    Step::AskOf(3),
    Step::GetHead(3, 1, [1, 1], Got::Ignored),
    Step::GetHead(3, 3, [0, 9], Got::Ignored),
    Step::GetHead(3, 3, [9, 0], Got::Ignored),
    Step::GetHead(2, 3, [1, 2], Got::Ignored),
    Step::GetHead(3, 3, [1, 2], Got::Head(3)),
    Step::Run(Ran::Answered(THREE_ROWS_AT_3)),
    Step::Version(3),
];

/// At the version where it stands a batch is answered again.
const SAME_VERSION: [Step<'static>; 9] = [
    Step::GetInsert(FIRST, Got::Stored),
    Step::Open(0, 1),
    Step::Ask,
    Step::GetHead(1, 1, [1, 0], Got::Head(1)),
    Step::Run(Ran::Answered(ONE_ROW_AT_1)),
    Step::Open(0, 1),
    Step::AskOf(2),
    Step::GetHead(2, 1, [1, 0], Got::Head(1)),
    Step::Run(Ran::Answered(ONE_ROW_AT_1)),
];

/// The first of two frames of commit 1 of worker 1, and the last.
const FRONT: Insert = Insert {
    worker: 1,
    seq: 0,
    commit: 1,
    last: false,
    row: 7,
};

const LAST: Insert = Insert {
    worker: 1,
    seq: 1,
    commit: 1,
    last: true,
    row: 8,
};

/// A commit of two frames is applied once both have come.
const JOINED: [Step<'static>; 8] = [
    Step::Open(0, 1),
    Step::Ask,
    Step::GetHead(1, 1, [0, 2], Got::Head(1)),
    Step::GetInsert(LAST, Got::Stored),
    Step::Run(Ran::Waiting(1, 0)),
    Step::GetInsert(FRONT, Got::Stored),
    Step::Run(Ran::Answered(TWO_ROWS_AT_1)),
    Step::GetInsert(LAST, Got::Repeat),
];

/// A Head that counts the first alone is that of no list of commits, and nothing of the commit is
/// applied.
const PART: [Step<'static>; 7] = [
    Step::Open(0, 1),
    Step::Ask,
    Step::GetHead(1, 1, [0, 1], Got::Head(1)),
    Step::GetInsert(FRONT, Got::Stored),
    Step::Run(Ran::Inconsistent),
    Step::Run(Ran::Broken),
    Step::Version(0),
];

/// One number stands in two streams.
const NUMBER_TWICE: [Step<'static>; 7] = [
    Step::Open(0, 1),
    Step::Ask,
    Step::GetHead(1, 1, [1, 2], Got::Head(1)),
    Step::GetInsert(FIRST, Got::Stored),
    Step::GetInsert(FRONT, Got::Stored),
    Step::GetInsert(LAST, Got::Stored),
    Step::Run(Ran::Inconsistent),
];

/// A number is in no stream.
const NUMBER_MISSING: [Step<'static>; 6] = [
    Step::Open(0, 1),
    Step::Ask,
    Step::GetHead(1, 3, [0, 2], Got::Head(3)),
    Step::GetInsert(SECOND, Got::Stored),
    Step::GetInsert(THIRD, Got::Stored),
    Step::Run(Ran::Inconsistent),
];

/// Commit 2 of worker 1, which puts in the row of commit 1.
const SAME_ROW: Insert = Insert {
    worker: 1,
    seq: 0,
    commit: 2,
    last: true,
    row: 7,
};

/// The tables refuse it.
const ROW_TWICE: [Step<'static>; 7] = [
    Step::Open(0, 1),
    Step::Ask,
    Step::GetHead(1, 2, [1, 1], Got::Head(2)),
    Step::GetInsert(SAME_ROW, Got::Stored),
    Step::GetInsert(FIRST, Got::Stored),
    Step::Run(Ran::Inconsistent),
    Step::Get(&HEAD, Got::Broken),
];

static STORIES: [Story; 10] = [
    (2, &NUMBERS, &HEADS),
    (2, &NUMBERS, &WORKER_0_MISSING),
    (2, &NUMBERS, &WORKER_1_MISSING),
    (2, &NUMBERS, &APPLIED),
    (2, &NUMBERS, &SAME_VERSION),
    (2, &NUMBERS, &JOINED),
    (2, &NUMBERS, &PART),
    (2, &NUMBERS, &NUMBER_TWICE),
    (2, &NUMBERS, &NUMBER_MISSING),
    (2, &NUMBERS, &ROW_TWICE),
];

#[test]
fn a_replica_of_two_workers_answers_as_it_should(rt: HostRuntime) -> Result<(), Fail> {
    assert_eq!(rt; other_story(&rt, rt.alloc(), &STORIES)?, None);
    Ok(())
}

/// A worker's frame that is far ahead, and one that is just not.
const AHEAD: Insert = Insert {
    worker: 1,
    seq: 4096,
    commit: 2,
    last: true,
    row: 8,
};

const LAST_IN_WINDOW: Insert = Insert {
    worker: 1,
    seq: 4095,
    commit: 2,
    last: true,
    row: 8,
};

/// Each worker has a window of its own.
const WINDOWS: [Step<'static>; 6] = [
    Step::GetInsert(AHEAD, Got::Ahead),
    Step::GetInsert(FIRST, Got::Stored),
    Step::GetInsert(AHEAD, Got::Ahead),
    Step::GetInsert(LAST_IN_WINDOW, Got::Stored),
    Step::GetInsert(SECOND, Got::Stored),
    Step::GetInsert(AHEAD, Got::Stored),
];

/// As many workers as there may be: two of them have frames, and a Head of two counts is not one of
/// sixteen.
const SIXTEEN: [Step<'static>; 5] = [
    Step::GetInsert(THIRD, Got::Stored),
    Step::GetInsert(OF_WORKER_2, Got::Stored),
    Step::Open(0, 1),
    Step::Ask,
    Step::GetHead(1, 0, [0, 0], Got::Ignored),
];

static WINDOWS_OF_EACH: [Story; 2] = [(2, &NUMBERS, &WINDOWS), (16, &NUMBERS, &SIXTEEN)];

#[test]
fn each_worker_has_frames_of_its_own(rt: HostRuntime) -> Result<(), Fail> {
    assert_eq!(rt; other_story(&rt, rt.alloc(), &WINDOWS_OF_EACH)?, None);
    Ok(())
}

/// The run of a batch with the frames of both workers, twice.
const RUN_TWICE: [Step<'static>; 6] = [
    Step::Open(0, 1),
    Step::Ask,
    Step::GetHead(1, 1, [0, 2], Got::Head(1)),
    Step::GetInsert(LAST, Got::Stored),
    Step::GetInsert(FRONT, Got::Stored),
    Step::RunTwice(1, TWO_ROWS_AT_1),
];

/// Whichever request for memory is refused: a run that joins and merges frames can be run again, or
/// breaks the replica.
#[test]
fn a_merge_without_memory_stands_or_breaks(rt: HostRuntime) -> Result<(), Fail> {
    let other = other_step(&rt, rt.alloc(), 2, &NUMBERS, &RUN_TWICE)?;
    // A step before the run is answered otherwise only where memory is refused to it.
    if other.is_some_and(|index| index < 5) {
        return Err("out of memory".into());
    }
    assert_eq!(rt; other, None);
    Ok(())
}
