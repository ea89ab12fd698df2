//! A replica that has more commits to apply than it merges at once: 4,096 of them are a part.

use crate::replica::{Ran, Step, Story, other_story};
use dispatcher::Got;
use scenarios_common::wanted::NUMBERS;
use scenarios_common::worker_datagrams::{Based, Insert, Row};
use std::test::Fail;

/// The reports on so many rows, at that version.
const OF_4096: &[u8] = b"version 4096 queries 1\nquery 0 rows 1\n4096\n";

const OF_5000: &[u8] = b"version 5000 queries 1\nquery 0 rows 1\n5000\n";

const OF_8192: &[u8] = b"version 8192 queries 1\nquery 0 rows 1\n8192\n";

/// The commits of a part and of some of the next, of two workers in turn.
const MORE: [Step<'static>; 6] = [
    Step::Open(0, 1),
    Step::Ask,
    Step::GetCommits(5000),
    Step::GetHead(1, 5000, [2500, 2500], Got::Head(5000)),
    Step::Run(Ran::Answered(OF_5000)),
    Step::Version(5000),
];

/// The commits of one part, and then those of a second one: nothing is behind either.
const FULL: [Step<'static>; 9] = [
    Step::Open(0, 1),
    Step::Ask,
    Step::GetCommits(8192),
    Step::GetHead(1, 4096, [2048, 2048], Got::Head(4096)),
    Step::Run(Ran::Answered(OF_4096)),
    Step::Open(0, 1),
    Step::AskOf(2),
    Step::GetHead(2, 8192, [4096, 4096], Got::Head(8192)),
    Step::Run(Ran::Answered(OF_8192)),
];

/// The commits of two parts.
const TWO_FULL: [Step<'static>; 6] = [
    Step::Open(0, 1),
    Step::Ask,
    Step::GetCommits(8192),
    Step::GetHead(1, 8192, [4096, 4096], Got::Head(8192)),
    Step::Run(Ran::Answered(OF_8192)),
    Step::Version(8192),
];

/// The image at version 1, of one row, and the commits behind it.
const BASE: Based = Based {
    base: 1,
    pieces: 1,
    lows: [1, 0],
};

const BEHIND_AN_IMAGE: [Step<'static>; 7] = [
    Step::Open(0, 1),
    Step::Ask,
    Step::GetBase(1, 5000, BASE, [2500, 2500], Got::Head(5000)),
    Step::GetPiece(1, 0, Row::Last(0), Got::Stored),
    Step::GetCommits(5000),
    Step::Run(Ran::Answered(OF_5000)),
    Step::Version(5000),
];

/// A frame behind them, as that of commit 5001.
const NEXT: Insert = Insert {
    worker: 0,
    seq: 2500,
    commit: 5001,
    last: true,
    row: 5001,
};

/// A Head counts it, and is of the version before it.
const LEFT_OVER: [Step<'static>; 8] = [
    Step::Open(0, 1),
    Step::Ask,
    Step::GetCommits(5000),
    Step::GetInsert(NEXT, Got::Stored),
    Step::GetHead(1, 5000, [2501, 2500], Got::Head(5000)),
    Step::Run(Ran::Inconsistent),
    Step::Run(Ran::Broken),
    Step::Version(0),
];

/// It bears the number of the commit after it.
const NUMBER_MISSING: [Step<'static>; 7] = [
    Step::Open(0, 1),
    Step::Ask,
    Step::GetCommits(5000),
    Step::GetInsert(
        Insert {
            commit: 5002,
            ..NEXT
        },
        Got::Stored,
    ),
    Step::GetHead(1, 5001, [2501, 2500], Got::Head(5001)),
    Step::Run(Ran::Inconsistent),
    Step::Version(0),
];

/// It puts in a row that is there since the first part.
const ROW_TWICE: [Step<'static>; 7] = [
    Step::Open(0, 1),
    Step::Ask,
    Step::GetCommits(5000),
    Step::GetInsert(Insert { row: 7, ..NEXT }, Got::Stored),
    Step::GetHead(1, 5001, [2501, 2500], Got::Head(5001)),
    Step::Run(Ran::Inconsistent),
    Step::Run(Ran::Broken),
];

static STORIES: [Story; 7] = [
    (2, &NUMBERS, &MORE),
    (2, &NUMBERS, &FULL),
    (2, &NUMBERS, &TWO_FULL),
    (2, &NUMBERS, &BEHIND_AN_IMAGE),
    (2, &NUMBERS, &LEFT_OVER),
    (2, &NUMBERS, &NUMBER_MISSING),
    (2, &NUMBERS, &ROW_TWICE),
];

#[test]
fn a_replica_applies_more_commits_than_a_part_has(rt: HostRuntime) -> Result<(), Fail> {
    assert_eq!(rt; other_story(&rt, rt.alloc(), &STORIES)?, None);
    Ok(())
}
