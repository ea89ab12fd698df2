//! Batches of a replica, from the first query to the report.

use crate::replica::{Ran, Step, Story, other_step, other_story};
use dispatcher::{AskFault, Got, OpenFault, fed_replicas_stay_fed};
use queries::PlanFault;
use rows::Kind;
use scenarios_common::wanted::{NUMBERS, Table, bank};
use scenarios_common::worker_datagrams::{
    FRAME, HEAD, HEAD_AT_2, HEAD_OF_BASE, HEAD_OF_TWO, HEAD_WITHOUT_FRAMES, PATCH_AND_DELETE,
    PIECE, PULL, TWO_ROWS,
};
use scenarios_plans_common::wishes::{COUNT, Wish, plan_of};
use std::alloc::Global;
use std::test::Fail;

/// Accounts of a number and three bytes.
const WITH_BYTES: [Table; 1] = [("acct", &[Kind::Int, Kind::Octets(3)])];

/// The report on one row at version 1.
const ONE_ROW: &[u8] = b"version 1 queries 1\nquery 0 rows 1\n1\n";

/// An Ask is repeated until its Head.
const REPEATED_ASK: [Step<'static>; 8] = [
    Step::Open(0, 1),
    Step::Run(Ran::NoBatch),
    Step::Request(0),
    Step::Ask,
    Step::Request(1),
    Step::Ask,
    Step::Request(1),
    Step::Run(Ran::WaitingHead),
];

/// A Head of another replica, boot, request or number of workers is not its own.
const HEADS: [Step<'static>; 10] = [
    Step::Open(0, 1),
    Step::Ask,
    Step::GetHeadWith(6, 1, Got::Ignored),
    Step::GetHeadWith(14, 2, Got::Ignored),
    Step::GetHeadWith(22, 2, Got::Ignored),
    Step::Get(&HEAD_OF_TWO, Got::Ignored),
    Step::Get(&HEAD, Got::Head(1)),
    Step::Get(&HEAD, Got::Ignored),
    Step::Request(1),
    Step::AskRefused(AskFault::Busy),
];

/// The Head of replica 0, its boot 1 and request 2, at version 2 of two workers with one frame each.
/// Its base is 1, whose image has one piece; worker 0 has its frame up to the base.
const SECOND_HEAD_OF_BASE: [u8; 80] = [
    0x42, 0x44, 0x03, 0x03, 0x00, 0x50, 0x00, 0x00, 0x00, 0x00, 0x00, 0x00, 0x00, 0x00, 0x01, 0x00,
    0x00, 0x00, 0x00, 0x00, 0x00, 0x00, 0x02, 0x00, 0x00, 0x00, 0x00, 0x00, 0x00, 0x00, 0x02, 0x00,
    0x00, 0x00, 0x00, 0x00, 0x00, 0x00, 0x01, 0x00, 0x00, 0x00, 0x00, 0x00, 0x00, 0x00, 0x01, 0x02,
    0x00, 0x00, 0x00, 0x00, 0x00, 0x00, 0x00, 0x01, 0x00, 0x00, 0x00, 0x00, 0x00, 0x00, 0x00, 0x01,
    0x00, 0x00, 0x00, 0x00, 0x00, 0x00, 0x00, 0x00, 0x00, 0x00, 0x00, 0x00, 0x00, 0x00, 0x00, 0x01,
];

/// By a Head whose base is above the replica's version it goes by image. A Pull is not for replicas.
const ABOVE: [Step<'static>; 12] = [
    Step::Open(0, 1),
    Step::Ask,
    Step::Get(&PIECE, Got::Ignored),
    Step::Get(&HEAD_OF_BASE, Got::Head(2)),
    Step::Get(&PULL, Got::Ignored),
    Step::Get(&HEAD_OF_BASE, Got::Ignored),
    Step::Run(Ran::WaitingPiece(1, 0)),
    Step::Get(&PIECE, Got::Stored),
    Step::Run(Ran::Waiting(1, 0)),
    Step::RenewOf(2),
    Step::Get(&SECOND_HEAD_OF_BASE, Got::Head(2)),
    Step::Run(Ran::Waiting(1, 0)),
];

/// By one whose base is that version it does not.
const AT_VERSION: [Step<'static>; 9] = [
    Step::Open(0, 1),
    Step::Ask,
    Step::GetHead(1, 1, [1, 0], Got::Head(1)),
    Step::Get(&FRAME, Got::Stored),
    Step::Run(Ran::Answered(ONE_ROW)),
    Step::Open(0, 1),
    Step::AskOf(2),
    Step::Get(&SECOND_HEAD_OF_BASE, Got::Head(2)),
    Step::Run(Ran::Waiting(1, 0)),
];

/// A batch is answered at its version.
const ANSWERED: [Step<'static>; 12] = [
    Step::Open(0, 1),
    Step::Request(0),
    Step::Ask,
    Step::Get(&HEAD, Got::Head(1)),
    Step::Run(Ran::Waiting(0, 0)),
    Step::Get(&FRAME, Got::Stored),
    Step::Get(&FRAME, Got::Repeat),
    Step::Version(0),
    Step::Run(Ran::Answered(ONE_ROW)),
    Step::Version(1),
    Step::Request(1),
    Step::AskRefused(AskFault::Empty),
];

/// The rows that are left are counted.
const COUNTED: [Step<'static>; 6] = [
    Step::Open(0, 1),
    Step::Ask,
    Step::Get(&HEAD_AT_2, Got::Head(2)),
    Step::Get(&TWO_ROWS, Got::Stored),
    Step::Get(&PATCH_AND_DELETE, Got::Stored),
    Step::Run(Ran::Answered(b"version 2 queries 1\nquery 0 rows 1\n1\n")),
];

/// Frames of no list of commits break it: this one holds commit 2 where commit 1 is the next.
const NO_LIST: [Step<'static>; 10] = [
    Step::Open(0, 1),
    Step::Ask,
    Step::Get(&HEAD, Got::Head(1)),
    Step::GetFrameWith(22, 2, Got::Stored),
    Step::Run(Ran::Inconsistent),
    Step::OpenRefused(0, OpenFault::Broken),
    Step::Request(1),
    Step::AskRefused(AskFault::Broken),
    Step::Run(Ran::Broken),
    Step::Get(&FRAME, Got::Broken),
];

/// A version without its frames breaks it.
const NO_FRAMES: [Step<'static>; 5] = [
    Step::Open(0, 1),
    Step::Ask,
    Step::Get(&HEAD_WITHOUT_FRAMES, Got::Head(5)),
    Step::Run(Ran::Inconsistent),
    Step::Version(0),
];

/// A query of no table does not wait.
const NO_TABLE: [Step<'static>; 1] = [Step::OpenRefused(1, OpenFault::BadPlan(PlanFault::NoTable))];

/// At most 64 queries wait.
const MANY: [Step<'static>; 2] = [
    Step::OpenAll(64),
    Step::OpenRefused(0, OpenFault::BatchFull),
];

static STORIES: [Story; 10] = [
    (1, &NUMBERS, &REPEATED_ASK),
    (1, &NUMBERS, &HEADS),
    (2, &NUMBERS, &ABOVE),
    (2, &NUMBERS, &AT_VERSION),
    (1, &NUMBERS, &ANSWERED),
    (1, &WITH_BYTES, &COUNTED),
    (1, &NUMBERS, &NO_LIST),
    (1, &NUMBERS, &NO_FRAMES),
    (1, &NUMBERS, &NO_TABLE),
    (1, &NUMBERS, &MANY),
];

#[test]
fn batches_answer_as_they_should(rt: HostRuntime) -> Result<(), Fail> {
    assert_eq!(rt; other_story(&rt, rt.alloc(), &STORIES)?, None);
    Ok(())
}

/// The run of a batch with all its frames, twice.
const RUN_TWICE: [Step<'static>; 5] = [
    Step::Open(0, 1),
    Step::Ask,
    Step::Get(&HEAD, Got::Head(1)),
    Step::Get(&FRAME, Got::Stored),
    Step::RunTwice(1, ONE_ROW),
];

/// Whichever allocation is refused: a run that is out of memory can be run again, or breaks the
/// replica.
#[test]
fn a_run_without_memory_stands_or_breaks(rt: HostRuntime) -> Result<(), Fail> {
    let other = other_step(&rt, rt.alloc(), 1, &NUMBERS, &RUN_TWICE)?;
    // A step before the run is answered otherwise only where memory is refused to it.
    if other.is_some_and(|index| index < 4) {
        return Err("out of memory".into());
    }
    assert_eq!(rt; other, None);
    Ok(())
}

/// What a check answers of the plan that counts the rows of a table of the bank.
fn check_of(alloc: Global, table: u8) -> Result<Result<(), PlanFault>, Fail> {
    let schema = bank(alloc)?;
    let plan = plan_of(alloc, &Wish { table, ..COUNT })?;
    Ok(plan.check(&schema))
}

/// The laws of replicas can be called too.
#[test]
fn a_plan_fits_where_its_table_is_there(rt: HostRuntime) -> Result<(), Fail> {
    assert_eq!(rt; check_of(rt.alloc(), 1)?, Ok(()));
    assert_eq!(rt; check_of(rt.alloc(), 2)?, Err(PlanFault::NoTable));
    fed_replicas_stay_fed();
    Ok(())
}
