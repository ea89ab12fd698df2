//! A replica that goes by image: which pieces it takes, what it asks for, what renewing leaves, and
//! what it makes of the image.

use crate::replica::{Ran, Step, Story, other_step, other_story};
use dispatcher::{AskFault, DumpFault, Got, OpenFault};
use queries::{Aggregate, Column, PlanFault};
use scenarios_common::wanted::NUMBERS;
use scenarios_common::worker_datagrams::{Based, Insert, Row};
use scenarios_plans_common::wishes::{COUNT, Wish};
use std::test::Fail;

/// The base 1, of one piece or of two: commit 1 is of worker 0.
const FIRST_BASE: Based = Based {
    base: 1,
    pieces: 1,
    lows: [1, 0],
};

const OF_TWO_PIECES: Based = Based {
    base: 1,
    pieces: 2,
    lows: [1, 0],
};

/// The base 2, of two pieces: commit 2 is of worker 1.
const SECOND_BASE: Based = Based {
    base: 2,
    pieces: 2,
    lows: [1, 1],
};

/// Commit 1 of worker 0, and commit 2 of worker 1.
const FIRST: Insert = Insert {
    worker: 0,
    seq: 0,
    commit: 1,
    last: true,
    row: 7,
};

const SECOND: Insert = Insert {
    worker: 1,
    seq: 0,
    commit: 2,
    last: true,
    row: 8,
};

/// The reports on so many rows, at a version.
const ONE_ROW_AT_1: &[u8] = b"version 1 queries 1\nquery 0 rows 1\n1\n";

const TWO_ROWS_AT_1: &[u8] = b"version 1 queries 1\nquery 0 rows 1\n2\n";

const ONE_ROW_AT_2: &[u8] = b"version 2 queries 1\nquery 0 rows 1\n1\n";

const TWO_ROWS_AT_2: &[u8] = b"version 2 queries 1\nquery 0 rows 1\n2\n";

const THREE_ROWS_AT_2: &[u8] = b"version 2 queries 1\nquery 0 rows 1\n3\n";

/// The piece is asked for before the frame that is not below the base. Then what the image stands for
/// is known, and its piece is of no use.
const BY_IMAGE: [Step<'static>; 15] = [
    Step::Open(0, 1),
    Step::GetPiece(1, 0, Row::Last(7), Got::Ignored),
    Step::Ask,
    Step::GetPiece(1, 0, Row::Last(7), Got::Ignored),
    Step::GetBase(1, 2, FIRST_BASE, [1, 1], Got::Head(2)),
    Step::Run(Ran::WaitingPiece(1, 0)),
    Step::GetPiece(1, 0, Row::Last(7), Got::Stored),
    Step::GetPiece(1, 0, Row::Last(7), Got::Repeat),
    Step::Run(Ran::Waiting(1, 0)),
    Step::GetInsert(SECOND, Got::Stored),
    Step::Run(Ran::Answered(TWO_ROWS_AT_2)),
    Step::GetPiece(1, 0, Row::Last(7), Got::Ignored),
    Step::GetInsert(FIRST, Got::Repeat),
    Step::GetInsert(SECOND, Got::Repeat),
    Step::Dump(b"version 2 rows 2\nacct 7 5 -1\nacct 8 5 -1\n"),
];

/// It goes by image though it has each frame; one below the base is kept until the image is applied.
const FRAMES_THERE: [Step<'static>; 10] = [
    Step::GetInsert(SECOND, Got::Stored),
    Step::Open(0, 1),
    Step::Ask,
    Step::GetBase(1, 2, FIRST_BASE, [1, 1], Got::Head(2)),
    Step::GetInsert(FIRST, Got::Stored),
    Step::GetInsert(FIRST, Got::Repeat),
    Step::Run(Ran::WaitingPiece(1, 0)),
    Step::GetPiece(1, 0, Row::Last(9), Got::Stored),
    Step::Run(Ran::Answered(TWO_ROWS_AT_2)),
    Step::Dump(b"version 2 rows 2\nacct 8 5 -1\nacct 9 5 -1\n"),
];

/// What it had applied does not count.
const APPLIED: [Step<'static>; 11] = [
    Step::GetInsert(FIRST, Got::Stored),
    Step::Open(0, 1),
    Step::Ask,
    Step::GetHead(1, 1, [1, 0], Got::Head(1)),
    Step::Run(Ran::Answered(ONE_ROW_AT_1)),
    Step::Open(0, 1),
    Step::AskOf(2),
    Step::GetBase(2, 2, SECOND_BASE, [1, 1], Got::Head(2)),
    Step::GetPiece(2, 1, Row::Last(9), Got::Stored),
    Step::GetPiece(2, 0, Row::Of(8), Got::Stored),
    Step::Run(Ran::Answered(TWO_ROWS_AT_2)),
];

/// A base that is not above the version: it goes by frames.
const AT_THE_BASE: [Step<'static>; 12] = [
    Step::GetInsert(FIRST, Got::Stored),
    Step::Open(0, 1),
    Step::Ask,
    Step::GetHead(1, 1, [1, 0], Got::Head(1)),
    Step::Run(Ran::Answered(ONE_ROW_AT_1)),
    Step::Open(0, 1),
    Step::AskOf(2),
    Step::GetBase(2, 2, FIRST_BASE, [1, 1], Got::Head(2)),
    Step::GetPiece(1, 0, Row::Last(7), Got::Ignored),
    Step::Run(Ran::Waiting(1, 0)),
    Step::GetInsert(SECOND, Got::Stored),
    Step::Run(Ran::Answered(TWO_ROWS_AT_2)),
];

/// A Head by image is ignored if a base count is below what was applied.
const GOES_BACK: [Step<'static>; 11] = [
    Step::GetInsert(FIRST, Got::Stored),
    Step::Open(0, 1),
    Step::Ask,
    Step::GetHead(1, 1, [1, 0], Got::Head(1)),
    Step::Run(Ran::Answered(ONE_ROW_AT_1)),
    Step::Open(0, 1),
    Step::AskOf(2),
    Step::GetBase(
        2,
        2,
        Based {
            lows: [0, 2],
            ..SECOND_BASE
        },
        [1, 2],
        Got::Ignored,
    ),
    Step::GetBase(1, 2, SECOND_BASE, [1, 1], Got::Ignored),
    Step::GetBase(2, 2, SECOND_BASE, [1, 1], Got::Head(2)),
    Step::Run(Ran::WaitingPiece(2, 0)),
];

static BY_IMAGES: [Story; 5] = [
    (2, &NUMBERS, &BY_IMAGE),
    (2, &NUMBERS, &FRAMES_THERE),
    (2, &NUMBERS, &APPLIED),
    (2, &NUMBERS, &AT_THE_BASE),
    (2, &NUMBERS, &GOES_BACK),
];

#[test]
fn a_replica_goes_by_image(rt: HostRuntime) -> Result<(), Fail> {
    assert_eq!(rt; other_story(&rt, rt.alloc(), &BY_IMAGES)?, None);
    Ok(())
}

/// It gives up the Head of a batch, and nothing else. Its next Ask is of the next request.
const RENEWED: [Step<'static>; 17] = [
    Step::RenewRefused(AskFault::Empty),
    Step::Open(0, 1),
    Step::RenewRefused(AskFault::Empty),
    Step::Ask,
    Step::RenewRefused(AskFault::NoHead),
    Step::GetHead(1, 0, [0, 0], Got::Head(0)),
    Step::RenewOf(2),
    Step::Request(2),
    Step::RenewRefused(AskFault::NoHead),
    Step::Run(Ran::WaitingHead),
    Step::AskOf(2),
    Step::GetHead(1, 0, [0, 0], Got::Ignored),
    Step::GetHead(2, 1, [1, 0], Got::Head(1)),
    Step::GetInsert(FIRST, Got::Stored),
    Step::Run(Ran::Answered(ONE_ROW_AT_1)),
    Step::RenewRefused(AskFault::Empty),
    Step::Request(2),
];

/// Pieces stay if the next Head has their base, and are ignored without a Head.
const PIECES_STAY: [Step<'static>; 12] = [
    Step::Open(0, 1),
    Step::Ask,
    Step::GetBase(1, 1, OF_TWO_PIECES, [1, 0], Got::Head(1)),
    Step::GetPiece(1, 0, Row::Of(7), Got::Stored),
    Step::Run(Ran::WaitingPiece(1, 1)),
    Step::RenewOf(2),
    Step::GetPiece(1, 0, Row::Of(7), Got::Ignored),
    Step::GetPiece(1, 1, Row::Last(8), Got::Ignored),
    Step::GetBase(2, 1, OF_TWO_PIECES, [1, 0], Got::Head(1)),
    Step::GetPiece(1, 0, Row::Of(7), Got::Repeat),
    Step::GetPiece(1, 1, Row::Last(8), Got::Stored),
    Step::Run(Ran::Answered(TWO_ROWS_AT_1)),
];

/// Another base forgets them, and they are never joined with its own.
const OTHER_BASE: [Step<'static>; 12] = [
    Step::Open(0, 1),
    Step::Ask,
    Step::GetBase(1, 1, OF_TWO_PIECES, [1, 0], Got::Head(1)),
    Step::GetPiece(1, 0, Row::Of(7), Got::Stored),
    Step::RenewOf(2),
    Step::GetBase(2, 2, SECOND_BASE, [1, 1], Got::Head(2)),
    Step::GetPiece(1, 0, Row::Of(7), Got::Ignored),
    Step::GetPiece(2, 1, Row::Last(9), Got::Stored),
    Step::Run(Ran::WaitingPiece(2, 0)),
    Step::GetPiece(2, 0, Row::Of(8), Got::Stored),
    Step::Run(Ran::Answered(TWO_ROWS_AT_2)),
    Step::Dump(b"version 2 rows 2\nacct 8 5 -1\nacct 9 5 -1\n"),
];

/// So does no base, also if the next one is theirs again.
const NO_BASE: [Step<'static>; 10] = [
    Step::Open(0, 1),
    Step::Ask,
    Step::GetBase(1, 1, OF_TWO_PIECES, [1, 0], Got::Head(1)),
    Step::GetPiece(1, 0, Row::Of(7), Got::Stored),
    Step::RenewOf(2),
    Step::GetHead(2, 1, [1, 0], Got::Head(1)),
    Step::Run(Ran::Waiting(0, 0)),
    Step::RenewOf(3),
    Step::GetBase(3, 1, OF_TWO_PIECES, [1, 0], Got::Head(1)),
    Step::Run(Ran::WaitingPiece(1, 0)),
];

/// Frames that came while a Head was held stay known, and only the image makes others known.
const FRAMES_STAY: [Step<'static>; 13] = [
    Step::Open(0, 1),
    Step::Ask,
    Step::GetBase(1, 2, FIRST_BASE, [1, 1], Got::Head(2)),
    Step::GetInsert(SECOND, Got::Stored),
    Step::RenewOf(2),
    Step::GetHead(2, 2, [1, 1], Got::Head(2)),
    Step::Run(Ran::Waiting(0, 0)),
    Step::RenewOf(3),
    Step::GetBase(3, 2, FIRST_BASE, [1, 1], Got::Head(2)),
    Step::GetInsert(SECOND, Got::Repeat),
    Step::GetPiece(1, 0, Row::Last(7), Got::Stored),
    Step::Run(Ran::Answered(TWO_ROWS_AT_2)),
    Step::GetInsert(FIRST, Got::Repeat),
];

/// A broken replica gives up nothing.
const BROKEN: [Step<'static>; 5] = [
    Step::Open(0, 1),
    Step::Ask,
    Step::GetHead(1, 5, [0, 0], Got::Head(5)),
    Step::Run(Ran::Inconsistent),
    Step::RenewRefused(AskFault::Broken),
];

static RENEWALS: [Story; 6] = [
    (2, &NUMBERS, &RENEWED),
    (2, &NUMBERS, &PIECES_STAY),
    (2, &NUMBERS, &OTHER_BASE),
    (2, &NUMBERS, &NO_BASE),
    (2, &NUMBERS, &FRAMES_STAY),
    (2, &NUMBERS, &BROKEN),
];

#[test]
fn a_replica_gives_a_head_up(rt: HostRuntime) -> Result<(), Fail> {
    assert_eq!(rt; other_story(&rt, rt.alloc(), &RENEWALS)?, None);
    Ok(())
}

/// Each piece is marked as the last one. That shows at the run, after all that is missing was asked
/// for.
const LAST_IN_THE_MIDDLE: [Step<'static>; 13] = [
    Step::Open(0, 1),
    Step::Ask,
    Step::GetBase(1, 2, OF_TWO_PIECES, [1, 1], Got::Head(2)),
    Step::GetPiece(1, 0, Row::Last(7), Got::Stored),
    Step::Run(Ran::WaitingPiece(1, 1)),
    Step::GetPiece(1, 1, Row::Last(9), Got::Stored),
    Step::Run(Ran::Waiting(1, 0)),
    Step::GetInsert(SECOND, Got::Stored),
    Step::Run(Ran::Inconsistent),
    Step::Version(0),
    Step::Run(Ran::Broken),
    Step::GetPiece(1, 0, Row::Last(7), Got::Broken),
    Step::DumpRefused(DumpFault::Broken),
];

/// No piece is marked so.
const NO_LAST: [Step<'static>; 6] = [
    Step::Open(0, 1),
    Step::Ask,
    Step::GetBase(1, 1, OF_TWO_PIECES, [1, 0], Got::Head(1)),
    Step::GetPiece(1, 1, Row::Of(8), Got::Stored),
    Step::GetPiece(1, 0, Row::Of(7), Got::Stored),
    Step::Run(Ran::Inconsistent),
];

/// Two pieces insert one row.
const ROW_TWICE: [Step<'static>; 6] = [
    Step::Open(0, 1),
    Step::Ask,
    Step::GetBase(1, 1, OF_TWO_PIECES, [1, 0], Got::Head(1)),
    Step::GetPiece(1, 0, Row::Of(7), Got::Stored),
    Step::GetPiece(1, 1, Row::Last(7), Got::Stored),
    Step::Run(Ran::Inconsistent),
];

/// A frame above the base inserts a row of the image.
const ROW_OF_IMAGE: [Step<'static>; 7] = [
    Step::Open(0, 1),
    Step::Ask,
    Step::GetBase(1, 2, FIRST_BASE, [1, 1], Got::Head(2)),
    Step::GetPiece(1, 0, Row::Last(8), Got::Stored),
    Step::GetInsert(SECOND, Got::Stored),
    Step::Run(Ran::Inconsistent),
    Step::Version(0),
];

/// The commit above the base is missing from the counts.
const NO_COMMIT: [Step<'static>; 5] = [
    Step::Open(0, 1),
    Step::Ask,
    Step::GetBase(1, 2, FIRST_BASE, [1, 0], Got::Head(2)),
    Step::GetPiece(1, 0, Row::Last(7), Got::Stored),
    Step::Run(Ran::Inconsistent),
];

/// The frame of commit 1 of worker 0: it inserts row 7 with the values 5 and -1, and adds a column of
/// the number 3 to the accounts.
const ADDED: [u8; 65] = [
    0x42, 0x44, 0x03, 0x01, 0x00, 0x41, 0x00, 0x00, 0x00, 0x00, 0x00, 0x00, 0x00, 0x00, 0x00, 0x00,
    0x00, 0x00, 0x00, 0x00, 0x00, 0x00, 0x01, 0x01, 0x00, 0x02, 0x01, 0x00, 0x00, 0x00, 0x00, 0x00,
    0x00, 0x00, 0x00, 0x07, 0x00, 0x10, 0x00, 0x00, 0x00, 0x00, 0x00, 0x00, 0x00, 0x05, 0xff, 0xff,
    0xff, 0xff, 0xff, 0xff, 0xff, 0xff, 0x04, 0x00, 0x00, 0x00, 0x00, 0x00, 0x00, 0x00, 0x00, 0x00,
    0x03,
];

/// The sum of the column that is added.
const SUM_ADDED: Wish<'static> = Wish {
    aggregates: &[Aggregate::Sum(Column::Own(2))],
    ..COUNT
};

/// The image lacks a column that a query of the batch names. That shows at the run.
const COLUMN_TAKEN: [Step<'static>; 16] = [
    Step::Get(&ADDED, Got::Stored),
    Step::Open(0, 1),
    Step::Ask,
    Step::GetHead(1, 1, [1, 0], Got::Head(1)),
    Step::Run(Ran::Answered(ONE_ROW_AT_1)),
    Step::Open(0, 1),
    Step::OpenWish(SUM_ADDED, 2),
    Step::AskOf(2),
    Step::GetBase(2, 2, SECOND_BASE, [1, 1], Got::Head(2)),
    Step::GetPiece(2, 0, Row::Of(7), Got::Stored),
    Step::OpenWish(SUM_ADDED, 1),
    Step::GetPiece(2, 1, Row::Last(8), Got::Stored),
    Step::Version(1),
    Step::Dump(b"version 1 rows 1\nacct 7 5 -1 3\n"),
    Step::Run(Ran::Inconsistent),
    Step::OpenWishRefused(SUM_ADDED, OpenFault::Broken),
];

/// If only a query names it that waits for the next batch, that batch's run shows it.
const COLUMN_TAKEN_LATER: [Step<'static>; 18] = [
    Step::Get(&ADDED, Got::Stored),
    Step::Open(0, 1),
    Step::Ask,
    Step::GetHead(1, 1, [1, 0], Got::Head(1)),
    Step::Run(Ran::Answered(ONE_ROW_AT_1)),
    Step::Open(0, 1),
    Step::AskOf(2),
    Step::OpenWish(SUM_ADDED, 1),
    Step::GetBase(2, 2, SECOND_BASE, [1, 1], Got::Head(2)),
    Step::GetPiece(2, 0, Row::Of(7), Got::Stored),
    Step::GetPiece(2, 1, Row::Last(8), Got::Stored),
    Step::Run(Ran::Answered(TWO_ROWS_AT_2)),
    Step::OpenWishRefused(SUM_ADDED, OpenFault::BadPlan(PlanFault::NoColumn)),
    Step::Dump(b"version 2 rows 2\nacct 7 5 -1\nacct 8 5 -1\n"),
    Step::AskOf(3),
    Step::GetBase(3, 2, SECOND_BASE, [1, 1], Got::Head(2)),
    Step::Run(Ran::Inconsistent),
    Step::Run(Ran::Broken),
];

static FORGED: [Story; 7] = [
    (2, &NUMBERS, &LAST_IN_THE_MIDDLE),
    (2, &NUMBERS, &NO_LAST),
    (2, &NUMBERS, &ROW_TWICE),
    (2, &NUMBERS, &ROW_OF_IMAGE),
    (2, &NUMBERS, &NO_COMMIT),
    (2, &NUMBERS, &COLUMN_TAKEN),
    (2, &NUMBERS, &COLUMN_TAKEN_LATER),
];

#[test]
fn forged_images_break_a_replica_as_they_are_applied(rt: HostRuntime) -> Result<(), Fail> {
    assert_eq!(rt; other_story(&rt, rt.alloc(), &FORGED)?, None);
    Ok(())
}

/// The one piece of the image at version 2, which adds the column and has row 9 with the values 5, -1
/// and 0.
const ADDING: [u8; 72] = [
    0x42, 0x44, 0x03, 0x05, 0x00, 0x48, 0x00, 0x00, 0x00, 0x00, 0x00, 0x00, 0x00, 0x02, 0x00, 0x00,
    0x00, 0x00, 0x00, 0x00, 0x00, 0x00, 0x01, 0x00, 0x02, 0x04, 0x00, 0x00, 0x00, 0x00, 0x00, 0x00,
    0x00, 0x00, 0x00, 0x00, 0x01, 0x00, 0x00, 0x00, 0x00, 0x00, 0x00, 0x00, 0x00, 0x09, 0x00, 0x18,
    0x00, 0x00, 0x00, 0x00, 0x00, 0x00, 0x00, 0x05, 0xff, 0xff, 0xff, 0xff, 0xff, 0xff, 0xff, 0xff,
    0x00, 0x00, 0x00, 0x00, 0x00, 0x00, 0x00, 0x00,
];

/// The base 2, of one piece.
const OF_ONE_PIECE: Based = Based {
    pieces: 1,
    ..SECOND_BASE
};

/// The image adds a column that the tables have, once.
const COLUMN_ADDED: [Step<'static>; 12] = [
    Step::Get(&ADDED, Got::Stored),
    Step::Open(0, 1),
    Step::Ask,
    Step::GetHead(1, 1, [1, 0], Got::Head(1)),
    Step::Run(Ran::Answered(ONE_ROW_AT_1)),
    Step::OpenWish(SUM_ADDED, 1),
    Step::AskOf(2),
    Step::GetBase(2, 2, OF_ONE_PIECE, [1, 1], Got::Head(2)),
    Step::Get(&ADDING, Got::Stored),
    Step::Run(Ran::Answered(b"version 2 queries 1\nquery 0 rows 1\n0\n")),
    Step::Dump(b"version 2 rows 1\nacct 9 5 -1 0\n"),
    Step::OpenWish(SUM_ADDED, 1),
];

/// And one that they have not.
const COLUMN_NEW: [Step<'static>; 8] = [
    Step::Open(0, 1),
    Step::OpenWishRefused(SUM_ADDED, OpenFault::BadPlan(PlanFault::NoColumn)),
    Step::Ask,
    Step::GetBase(1, 2, OF_ONE_PIECE, [1, 1], Got::Head(2)),
    Step::Get(&ADDING, Got::Stored),
    Step::OpenWishRefused(SUM_ADDED, OpenFault::BadPlan(PlanFault::NoColumn)),
    Step::Run(Ran::Answered(ONE_ROW_AT_2)),
    Step::OpenWish(SUM_ADDED, 1),
];

static COLUMNS: [Story; 2] = [(2, &NUMBERS, &COLUMN_ADDED), (2, &NUMBERS, &COLUMN_NEW)];

#[test]
fn an_image_brings_columns(rt: HostRuntime) -> Result<(), Fail> {
    assert_eq!(rt; other_story(&rt, rt.alloc(), &COLUMNS)?, None);
    Ok(())
}

/// The run of a batch by an image of two pieces, and by a frame above it, twice.
const RUN_TWICE: [Step<'static>; 8] = [
    Step::Open(0, 1),
    Step::Ask,
    Step::GetBase(1, 2, OF_TWO_PIECES, [1, 1], Got::Head(2)),
    Step::GetPiece(1, 1, Row::Last(9), Got::Stored),
    Step::GetInsert(SECOND, Got::Stored),
    Step::GetInsert(FIRST, Got::Stored),
    Step::GetPiece(1, 0, Row::Of(7), Got::Stored),
    Step::RunTwice(2, THREE_ROWS_AT_2),
];

/// Whichever request for memory is refused: a run by image can be run again, or breaks the replica.
#[test]
fn an_image_without_memory_stands_or_breaks(rt: HostRuntime) -> Result<(), Fail> {
    let other = other_step(&rt, rt.alloc(), 2, &NUMBERS, &RUN_TWICE)?;
    // A step before the run is answered otherwise only where memory is refused to it.
    if other.is_some_and(|index| index < 7) {
        return Err("out of memory".into());
    }
    assert_eq!(rt; other, None);
    Ok(())
}

/// The run of a batch by an image that adds a column, twice.
const RUN_WITH_COLUMN_TWICE: [Step<'static>; 5] = [
    Step::Open(0, 1),
    Step::Ask,
    Step::GetBase(1, 2, OF_ONE_PIECE, [1, 1], Got::Head(2)),
    Step::Get(&ADDING, Got::Stored),
    Step::RunTwice(2, ONE_ROW_AT_2),
];

/// The same by an image that brings a column.
#[test]
fn an_image_with_a_column_without_memory_stands_or_breaks(rt: HostRuntime) -> Result<(), Fail> {
    let other = other_step(&rt, rt.alloc(), 2, &NUMBERS, &RUN_WITH_COLUMN_TWICE)?;
    if other.is_some_and(|index| index < 4) {
        return Err("out of memory".into());
    }
    assert_eq!(rt; other, None);
    Ok(())
}
