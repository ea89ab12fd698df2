//! Plans that are opened at a replica: which are refused, and why, what a refusal leaves, and how
//! many a batch takes.

use crate::replica::{Ran, Step, Story, other_step, other_story};
use dispatcher::{AskFault, Got, OpenFault};
use queries::{Aggregate, Column, PlanFault};
use scenarios_common::wanted::NUMBERS;
use scenarios_common::worker_datagrams::{FRAME, HEAD};
use scenarios_plans_common::wishes::{COUNT, MOST, SHOP, UNFIT, WISHES, Wish};
use std::test::Fail;

/// Without aggregates.
const NOTHING: Wish<'static> = Wish {
    aggregates: &[],
    ..COUNT
};

/// A plan that does not fit is refused for its first fault, and is not in the batch.
const REFUSED: [Step<'static>; 12] = [
    Step::OpenUnfit(&UNFIT),
    Step::AskRefused(AskFault::Empty),
    Step::Request(0),
    Step::Open(0, 1),
    Step::OpenUnfit(&UNFIT),
    Step::OpenWish(MOST, 2),
    Step::OpenUnfit(&UNFIT),
    Step::Ask,
    Step::Request(1),
    Step::GetHead(1, 0, [0, 0], Got::Head(0)),
    Step::Run(Ran::Answered(b"version 0 queries 2\nquery 0 rows 1\n0\nquery 1 rows 0\n")),
    Step::Version(0),
];

/// Broken stands before a full batch, and that before a plan that does not fit. The Head tells of
/// commits without frames, which breaks the replica.
const ORDER: [Step<'static>; 10] = [
    Step::Open(0, 1),
    Step::Ask,
    Step::GetHead(1, 5, [0, 0], Got::Head(5)),
    Step::OpenAll(64),
    Step::OpenRefused(0, OpenFault::BatchFull),
    Step::OpenWishRefused(NOTHING, OpenFault::BatchFull),
    Step::Run(Ran::Inconsistent),
    Step::OpenRefused(0, OpenFault::Broken),
    Step::OpenWishRefused(NOTHING, OpenFault::Broken),
    Step::Version(0),
];

/// A batch has 64 queries at the most. As many may wait beside it, for the next one.
const FULL: [Step<'static>; 12] = [
    Step::OpenAll(64),
    Step::OpenRefused(0, OpenFault::BatchFull),
    Step::Ask,
    Step::OpenAll(64),
    Step::OpenRefused(0, OpenFault::BatchFull),
    Step::GetHead(1, 0, [0, 0], Got::Head(0)),
    Step::RunAll(64),
    Step::OpenRefused(0, OpenFault::BatchFull),
    Step::AskOf(2),
    Step::GetHead(2, 0, [0, 0], Got::Head(0)),
    Step::RunAll(64),
    Step::AskRefused(AskFault::Empty),
];

/// Plans that join and group are answered where there is no row.
const NO_ROWS: [Step<'static>; 4] = [
    Step::OpenWishes(&WISHES),
    Step::Ask,
    Step::GetHead(1, 0, [0, 0], Got::Head(0)),
    Step::Run(Ran::Answered(
        b"version 0 queries 5
query 0 rows 0
query 1 rows 1
0 0
query 2 rows 0
query 3 rows 0
query 4 rows 1
-
",
    )),
];

static STORIES: [Story; 4] = [
    (2, SHOP, &REFUSED),
    (2, SHOP, &ORDER),
    (2, SHOP, &FULL),
    (2, SHOP, &NO_ROWS),
];

#[test]
fn plans_are_taken_or_refused_as_they_should(rt: HostRuntime) -> Result<(), Fail> {
    assert_eq!(rt; other_story(&rt, rt.alloc(), &STORIES)?, None);
    Ok(())
}

/// Accounts by their first number.
const GROUPED: Wish<'static> = Wish {
    groups: &[Column::Own(0)],
    aggregates: &[
        Aggregate::Count,
        Aggregate::Sum(Column::Own(1)),
        Aggregate::Min(Column::Own(1)),
    ],
    ..COUNT
};

/// The run of a batch with a plan that groups, twice.
const RUN_TWICE: [Step<'static>; 6] = [
    Step::OpenWish(GROUPED, 1),
    Step::Open(0, 2),
    Step::Ask,
    Step::Get(&HEAD, Got::Head(1)),
    Step::Get(&FRAME, Got::Stored),
    Step::RunTwice(
        1,
        b"version 1 queries 2\nquery 0 rows 1\n5 1 -1 -1\nquery 1 rows 1\n1\n",
    ),
];

/// Whichever request for memory is refused: a run that groups can be run again, or breaks the
/// replica.
#[test]
fn a_run_of_groups_without_memory_stands_or_breaks(rt: HostRuntime) -> Result<(), Fail> {
    let other = other_step(&rt, rt.alloc(), 1, &NUMBERS, &RUN_TWICE)?;
    // A step before the run is answered otherwise only where memory is refused to it.
    if other.is_some_and(|index| index < 5) {
        return Err("out of memory".into());
    }
    assert_eq!(rt; other, None);
    Ok(())
}

/// The frame of commit 1 of worker 0: it inserts row 7 with the values 5 and -1, and adds a column of
/// the number 3 to the accounts.
const ADDED: [u8; 65] = [
    0x42, 0x44, 0x03, 0x01, 0x00, 0x41, 0x00, 0x00, 0x00, 0x00, 0x00, 0x00, 0x00, 0x00, 0x00, 0x00,
    0x00, 0x00, 0x00, 0x00, 0x00, 0x00, 0x01, 0x01, 0x00, 0x02, 0x01, 0x00, 0x00, 0x00, 0x00, 0x00,
    0x00, 0x00, 0x00, 0x07, 0x00, 0x10, 0x00, 0x00, 0x00, 0x00, 0x00, 0x00, 0x00, 0x05, 0xff, 0xff,
    0xff, 0xff, 0xff, 0xff, 0xff, 0xff, 0x04, 0x00, 0x00, 0x00, 0x00, 0x00, 0x00, 0x00, 0x00, 0x00,
    0x03,
];

/// The run of a batch that brings a column, twice.
const RUN_WITH_COLUMN_TWICE: [Step<'static>; 6] = [
    Step::OpenWish(GROUPED, 1),
    Step::Open(0, 2),
    Step::Ask,
    Step::Get(&HEAD, Got::Head(1)),
    Step::Get(&ADDED, Got::Stored),
    Step::RunTwice(
        1,
        b"version 1 queries 2\nquery 0 rows 1\n5 1 -1 -1\nquery 1 rows 1\n1\n",
    ),
];

/// Whichever request for memory is refused: a run that brings a column can be run again, or breaks the
/// replica.
#[test]
fn a_run_with_a_column_without_memory_stands_or_breaks(rt: HostRuntime) -> Result<(), Fail> {
    let other = other_step(&rt, rt.alloc(), 1, &NUMBERS, &RUN_WITH_COLUMN_TWICE)?;
    if other.is_some_and(|index| index < 5) {
        return Err("out of memory".into());
    }
    assert_eq!(rt; other, None);
    Ok(())
}

/// The sum of the column that is added.
const SUM_ADDED: Wish<'static> = Wish {
    aggregates: &[Aggregate::Sum(Column::Own(2))],
    ..COUNT
};

/// A plan on a column is refused until the run that brings it, and the table then has it.
const OPENED_WITH_COLUMN: [Step<'static>; 11] = [
    Step::Get(&ADDED, Got::Stored),
    Step::OpenWishRefused(SUM_ADDED, OpenFault::BadPlan(PlanFault::NoColumn)),
    Step::Open(0, 1),
    Step::Ask,
    Step::Get(&HEAD, Got::Head(1)),
    Step::OpenWishRefused(SUM_ADDED, OpenFault::BadPlan(PlanFault::NoColumn)),
    Step::Run(Ran::Answered(b"version 1 queries 1\nquery 0 rows 1\n1\n")),
    Step::Dump(b"version 1 rows 1\nacct 7 5 -1 3\n"),
    Step::OpenWish(SUM_ADDED, 1),
    Step::AskOf(2),
    Step::Run(Ran::WaitingHead),
];

#[test]
fn plans_see_a_column_from_its_version_on(rt: HostRuntime) -> Result<(), Fail> {
    let other = other_step(&rt, rt.alloc(), 1, &NUMBERS, &OPENED_WITH_COLUMN)?;
    assert_eq!(rt; other, None);
    Ok(())
}
