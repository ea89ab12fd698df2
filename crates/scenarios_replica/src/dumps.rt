//! The text of a replica's tables.

use crate::replica::{Ran, Step, Story, other_step, other_story};
use dispatcher::{DumpFault, Got};
use rows::Kind;
use scenarios_common::wanted::{NUMBERS, Table};
use scenarios_common::worker_datagrams::{FRAME, HEAD};
use std::test::Fail;

/// Accounts of two numbers, and sites of two bytes.
const ACCOUNTS_AND_SITES: [Table; 2] = [
    ("acct", &[Kind::Int, Kind::Int]),
    ("site", &[Kind::Octets(2)]),
];

/// The first frame of commit 1: it inserts row 1 of table 1 with the bytes 4e45, and row 9 of table 0
/// with the values 1 and 2.
const SITE_AND_ACCOUNT: [u8; 68] = [
    0x42, 0x44, 0x03, 0x01, 0x00, 0x44, 0x00, 0x00, 0x00, 0x00, 0x00, 0x00, 0x00, 0x00, 0x00, 0x00,
    0x00, 0x00, 0x00, 0x00, 0x00, 0x00, 0x01, 0x00, 0x00, 0x02, 0x01, 0x01, 0x00, 0x00, 0x00, 0x00,
    0x00, 0x00, 0x00, 0x01, 0x00, 0x02, 0x4e, 0x45, 0x01, 0x00, 0x00, 0x00, 0x00, 0x00, 0x00, 0x00,
    0x00, 0x09, 0x00, 0x10, 0x00, 0x00, 0x00, 0x00, 0x00, 0x00, 0x00, 0x01, 0x00, 0x00, 0x00, 0x00,
    0x00, 0x00, 0x00, 0x02,
];

/// The last one: it inserts row 7 of table 0 with the values -5 and 9223372036854775807.
const LOWER_ACCOUNT: [u8; 54] = [
    0x42, 0x44, 0x03, 0x01, 0x00, 0x36, 0x00, 0x00, 0x00, 0x00, 0x00, 0x00, 0x00, 0x00, 0x01, 0x00,
    0x00, 0x00, 0x00, 0x00, 0x00, 0x00, 0x01, 0x01, 0x00, 0x01, 0x01, 0x00, 0x00, 0x00, 0x00, 0x00,
    0x00, 0x00, 0x00, 0x07, 0x00, 0x10, 0xff, 0xff, 0xff, 0xff, 0xff, 0xff, 0xff, 0xfb, 0x7f, 0xff,
    0xff, 0xff, 0xff, 0xff, 0xff, 0xff,
];

/// The text of tables without rows, at version 0.
const NOTHING: &[u8] = b"version 0 rows 0\n";

/// Frames that came, and a version that was fetched, are told once a batch was run on them. The Head
/// is that of the two frames of one worker.
const THREE_ROWS: [Step<'static>; 9] = [
    Step::Dump(NOTHING),
    Step::Open(1, 1),
    Step::Ask,
    Step::GetHeadWith(63, 2, Got::Head(1)),
    Step::Get(&LOWER_ACCOUNT, Got::Stored),
    Step::Get(&SITE_AND_ACCOUNT, Got::Stored),
    Step::Dump(NOTHING),
    Step::Run(Ran::Answered(b"version 1 queries 1\nquery 0 rows 1\n1\n")),
    Step::Dump(b"version 1 rows 3\nacct 7 -5 9223372036854775807\nacct 9 1 2\nsite 1 x4e45\n"),
];

/// A replica is broken by frames of no list of commits: this one holds commit 2 where commit 1 is the
/// next.
const BROKEN: [Step<'static>; 7] = [
    Step::Open(0, 1),
    Step::Ask,
    Step::Get(&HEAD, Got::Head(1)),
    Step::GetFrameWith(22, 2, Got::Stored),
    Step::Dump(NOTHING),
    Step::Run(Ran::Inconsistent),
    Step::DumpRefused(DumpFault::Broken),
];

static STORIES: [Story; 2] = [
    (1, &ACCOUNTS_AND_SITES, &THREE_ROWS),
    (1, &NUMBERS, &BROKEN),
];

#[test]
fn dumps_tell_the_tables_at_the_version(rt: HostRuntime) -> Result<(), Fail> {
    assert_eq!(rt; other_story(&rt, rt.alloc(), &STORIES)?, None);
    Ok(())
}

/// A dump behind the run of a batch, and a run behind it.
const ONE_ROW: [Step<'static>; 7] = [
    Step::Open(0, 1),
    Step::Ask,
    Step::Get(&HEAD, Got::Head(1)),
    Step::Get(&FRAME, Got::Stored),
    Step::Run(Ran::Answered(b"version 1 queries 1\nquery 0 rows 1\n1\n")),
    Step::Dump(b"version 1 rows 1\nacct 7 5 -1\n"),
    Step::Run(Ran::NoBatch),
];

/// Whichever allocation is refused: a dump that is out of memory can be asked for again.
#[test]
fn a_dump_without_memory_changes_nothing(rt: HostRuntime) -> Result<(), Fail> {
    let other = other_step(&rt, rt.alloc(), 1, &NUMBERS, &ONE_ROW)?;
    // A step before the dump is answered otherwise only where memory is refused to it.
    if other.is_some_and(|index| index < 5) {
        return Err("out of memory".into());
    }
    assert_eq!(rt; other, None);
    Ok(())
}
