//! Frames that come to a replica, in any order.

use crate::replica::{Ran, Step, Story, other_story};
use dispatcher::Got;
use scenarios_common::wanted::NUMBERS;
use scenarios_common::worker_datagrams::{
    FRAME, FRONT_OF_FRAME, HEAD_OF_9_FRAMES, PATCH_AND_DELETE,
};
use std::test::Fail;

/// Frames are kept within the window.
const WINDOW: [Step<'static>; 6] = [
    Step::GetFrameAt(4096, Got::Ahead),
    Step::GetFrameAt(4095, Got::Stored),
    Step::GetFrameAt(u64::MAX, Got::Ahead),
    Step::Get(&FRAME, Got::Stored),
    Step::GetFrameAt(4097, Got::Ahead),
    Step::GetFrameAt(4096, Got::Stored),
];

/// Ignored are frames of a table that is not there, of a worker that is not there, and one that ends
/// too early. One that patches octets where the table has numbers is kept: whether an entry fits is
/// known only as it is applied.
const UNFIT: [Step<'static>; 4] = [
    Step::GetFrameWith(27, 5, Got::Ignored),
    Step::GetFrameWith(6, 1, Got::Ignored),
    Step::Get(&PATCH_AND_DELETE, Got::Stored),
    Step::Get(&FRONT_OF_FRAME, Got::Ignored),
];

/// The first missing seq passes those that are known: a run names it, where more frames are
/// fetched than came; and the window begins there.
const MISSING: [Step<'static>; 12] = [
    Step::Open(0, 1),
    Step::Ask,
    Step::Get(&HEAD_OF_9_FRAMES, Got::Head(2)),
    Step::Run(Ran::Waiting(0, 0)),
    Step::GetFrameAt(1, Got::Stored),
    Step::Run(Ran::Waiting(0, 0)),
    Step::GetFrameAt(2, Got::Stored),
    Step::Run(Ran::Waiting(0, 0)),
    Step::GetFrameAt(0, Got::Stored),
    Step::Run(Ran::Waiting(0, 3)),
    Step::GetFrameAt(4099, Got::Ahead),
    Step::GetFrameAt(4098, Got::Stored),
];

static STORIES: [Story; 3] = [
    (1, &NUMBERS, &WINDOW),
    (1, &NUMBERS, &UNFIT),
    (1, &NUMBERS, &MISSING),
];

#[test]
fn frames_are_kept_within_the_window(rt: HostRuntime) -> Result<(), Fail> {
    assert_eq!(rt; other_story(&rt, rt.alloc(), &STORIES)?, None);
    Ok(())
}
