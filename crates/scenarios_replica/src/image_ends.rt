//! Images at the ends of what numbers say: how far ahead a piece or a frame may be, and base counts,
//! pieces and versions up to the greatest number of 64 bits.

use crate::replica::{Ran, Step, Story, other_story};
use dispatcher::Got;
use scenarios_common::wanted::NUMBERS;
use scenarios_common::worker_datagrams::{Based, Insert, Row};
use std::test::Fail;

/// The base 1, whose image has as many pieces as a number can say.
const OF_MOST_PIECES: Based = Based {
    base: 1,
    pieces: u64::MAX,
    lows: [0, 0],
};

/// Pieces are kept up to 4096 past the first one that is missing; those that the image has not, and
/// those of another base, are ignored.
const FAR_PIECES: [Step<'static>; 17] = [
    Step::Open(0, 1),
    Step::Ask,
    Step::GetBase(1, 1, OF_MOST_PIECES, [0, 0], Got::Head(1)),
    Step::Run(Ran::WaitingPiece(1, 0)),
    Step::GetPiece(1, u64::MAX, Row::Last(7), Got::Ignored),
    Step::GetPiece(1, u64::MAX - 1, Row::Last(7), Got::Ahead),
    Step::GetPiece(1, 4096, Row::Of(7), Got::Ahead),
    Step::GetPiece(1, 4095, Row::Of(7), Got::Stored),
    Step::GetPiece(1, 4096, Row::Of(8), Got::Ahead),
    Step::GetPiece(2, 0, Row::Of(7), Got::Ignored),
    Step::GetPiece(u64::MAX, 0, Row::Of(7), Got::Ignored),
    Step::GetPiece(1, 1, Row::Of(8), Got::Stored),
    Step::GetPiece(1, 0, Row::Of(9), Got::Stored),
    Step::GetPiece(1, 4098, Row::Of(9), Got::Ahead),
    Step::GetPiece(1, 4097, Row::Of(9), Got::Stored),
    Step::GetPiece(1, 4095, Row::Of(7), Got::Repeat),
    Step::Run(Ran::WaitingPiece(1, 2)),
];

/// An image of two pieces has no third.
const NO_SUCH_PIECE: [Step<'static>; 8] = [
    Step::Open(0, 1),
    Step::Ask,
    Step::GetBase(
        1,
        1,
        Based {
            pieces: 2,
            ..OF_MOST_PIECES
        },
        [0, 0],
        Got::Head(1),
    ),
    Step::GetPiece(1, 2, Row::Last(7), Got::Ignored),
    Step::GetPiece(1, 4096, Row::Last(7), Got::Ignored),
    Step::GetPiece(1, u64::MAX, Row::Last(7), Got::Ignored),
    Step::GetPiece(1, 1, Row::Last(7), Got::Stored),
    Step::Run(Ran::WaitingPiece(1, 0)),
];

/// The base 1, up to which worker 0 has ten frames.
const OF_TEN_FRAMES: Based = Based {
    base: 1,
    pieces: 1,
    lows: [10, 0],
};

/// Frames are kept up to 4096 past the first one that is missing from the base count on, as long as the
/// Head is held. What was kept stays known.
const FAR_FRAMES: [Step<'static>; 17] = [
    Step::GetFrameAt(4096, Got::Ahead),
    Step::Open(0, 1),
    Step::Ask,
    Step::GetFrameAt(4096, Got::Ahead),
    Step::GetBase(1, 1, OF_TEN_FRAMES, [10, 0], Got::Head(1)),
    Step::GetFrameAt(4106, Got::Ahead),
    Step::GetFrameAt(4105, Got::Stored),
    Step::GetFrameAt(3, Got::Stored),
    Step::GetFrameAt(4106, Got::Ahead),
    Step::GetFrameAt(10, Got::Stored),
    Step::GetFrameAt(4107, Got::Ahead),
    Step::GetFrameAt(4106, Got::Stored),
    Step::RenewOf(2),
    Step::GetFrameAt(4105, Got::Repeat),
    Step::GetFrameAt(4096, Got::Ahead),
    Step::GetHead(2, 1, [10, 0], Got::Head(1)),
    Step::GetFrameAt(4096, Got::Ahead),
];

/// The base is the greatest number, and so is the base count of worker 0.
const GREATEST: Based = Based {
    base: u64::MAX,
    pieces: 1,
    lows: [u64::MAX, 0],
};

/// All frames below are known then, and that takes no room. There is none above.
const ALL_BELOW: [Step<'static>; 17] = [
    Step::Open(0, 1),
    Step::Ask,
    Step::GetBase(1, u64::MAX, GREATEST, [u64::MAX, 0], Got::Head(u64::MAX)),
    Step::GetFrameAt(u64::MAX, Got::Ahead),
    Step::GetFrameAt(u64::MAX - 1, Got::Stored),
    Step::GetFrameAt(5, Got::Stored),
    Step::GetPiece(u64::MAX, 0, Row::Last(7), Got::Stored),
    Step::Run(Ran::Answered(b"version 18446744073709551615 queries 1\nquery 0 rows 1\n1\n")),
    Step::Version(u64::MAX),
    Step::GetFrameAt(0, Got::Repeat),
    Step::GetFrameAt(u64::MAX - 2, Got::Repeat),
    Step::GetFrameAt(u64::MAX, Got::Ahead),
    Step::Open(0, 1),
    Step::AskOf(2),
    Step::GetHead(2, u64::MAX, [4, 0], Got::Ignored),
    Step::GetHead(2, u64::MAX, [u64::MAX, 0], Got::Head(u64::MAX)),
    Step::Run(Ran::Answered(b"version 18446744073709551615 queries 1\nquery 0 rows 1\n1\n")),
];

/// The commit of the greatest number.
const LAST_COMMIT: Insert = Insert {
    worker: 0,
    seq: 0,
    commit: u64::MAX,
    last: true,
    row: 8,
};

/// It is above a base that is one less.
const LAST_COMMIT_ABOVE: [Step<'static>; 7] = [
    Step::Open(0, 1),
    Step::Ask,
    Step::GetBase(
        1,
        u64::MAX,
        Based {
            base: u64::MAX - 1,
            pieces: 1,
            lows: [0, 0],
        },
        [1, 0],
        Got::Head(u64::MAX),
    ),
    Step::GetPiece(u64::MAX - 1, 0, Row::Last(7), Got::Stored),
    Step::Run(Ran::Waiting(0, 0)),
    Step::GetInsert(LAST_COMMIT, Got::Stored),
    Step::Run(Ran::Answered(b"version 18446744073709551615 queries 1\nquery 0 rows 1\n2\n")),
];

/// More commits are said to be above the base than there are frames of. That takes no room either.
const NO_COMMITS: [Step<'static>; 6] = [
    Step::Open(0, 1),
    Step::Ask,
    Step::GetBase(
        1,
        u64::MAX,
        Based {
            pieces: 1,
            ..OF_MOST_PIECES
        },
        [0, 0],
        Got::Head(u64::MAX),
    ),
    Step::GetPiece(1, 0, Row::Last(7), Got::Stored),
    Step::Run(Ran::Inconsistent),
    Step::Version(0),
];

/// More frames are said to be above the base than there can be: the first is wanted.
const MANY_FRAMES: [Step<'static>; 6] = [
    Step::Open(0, 1),
    Step::Ask,
    Step::GetBase(
        1,
        2,
        Based {
            base: 1,
            pieces: 1,
            lows: [u64::MAX - 1, 0],
        },
        [u64::MAX, 0],
        Got::Head(2),
    ),
    Step::GetPiece(1, 0, Row::Last(7), Got::Stored),
    Step::Run(Ran::Waiting(0, u64::MAX - 1)),
    Step::Version(0),
];

static STORIES: [Story; 7] = [
    (2, &NUMBERS, &FAR_PIECES),
    (2, &NUMBERS, &NO_SUCH_PIECE),
    (2, &NUMBERS, &FAR_FRAMES),
    (2, &NUMBERS, &ALL_BELOW),
    (2, &NUMBERS, &LAST_COMMIT_ABOVE),
    (2, &NUMBERS, &NO_COMMITS),
    (2, &NUMBERS, &MANY_FRAMES),
];

#[test]
fn numbers_of_images_go_to_their_ends(rt: HostRuntime) -> Result<(), Fail> {
    assert_eq!(rt; other_story(&rt, rt.alloc(), &STORIES)?, None);
    Ok(())
}
