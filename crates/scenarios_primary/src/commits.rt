//! What commits answer: numbers, conflicts, transactions of another database; and what refused
//! memory leaves.

use crate::primary_steps::{Change, Line, Step, expect_none, other_story};
use primary::CommitFault;
use scenarios_common::wanted::{FIVE, Wanted};
use std::test::Fail;

/// Row 7 is put in and made durable, as commit 1.
const INSERT_7: Line = (Step::Commit(0, 0, &[Change::Insert(7)], Ok(1)), 0, 1);

const FLUSH: Line = (Step::Flush(usize::MAX, 1), 1, 0);

/// The commits of another database, where row 7 or 9 is durable as commit 1.
const ROW_7: [&[Wanted<'static>]; 1] = [&[Wanted::Insert(0, 7, &FIVE)]];

const ROW_9: [&[Wanted<'static>]; 1] = [&[Wanted::Insert(0, 9, &FIVE)]];

/// A commit is refused that conflicts, and one that changes nothing.
const REFUSED: [Line; 3] = [
    INSERT_7,
    (
        Step::Commit(
            0,
            0,
            &[Change::Insert(8), Change::Insert(7)],
            Err(CommitFault::Conflict(1)),
        ),
        0,
        1,
    ),
    (Step::Commit(0, 0, &[], Err(CommitFault::ReadOnly)), 0, 1),
];

/// A version that is not durable is foreign.
const NO_VERSION: [Line; 1] = [(Step::CommitOf(&ROW_7, &[Change::Insert(8)]), 0, 0)];

/// Where row 7 is there, an insert of it is foreign, and so is one with a delete behind it.
const ROW_THERE: [Line; 4] = [
    INSERT_7,
    FLUSH,
    (Step::CommitOf(&ROW_9, &[Change::Insert(7)]), 1, 0),
    (
        Step::CommitOf(&ROW_9, &[Change::Insert(7), Change::Delete(7)]),
        1,
        0,
    ),
];

/// Where row 9 is not there, what sets it, deletes it or replaces it is foreign.
const ROW_ABSENT: [Line; 5] = [
    INSERT_7,
    FLUSH,
    (Step::CommitOf(&ROW_9, &[Change::Set(9)]), 1, 0),
    (Step::CommitOf(&ROW_9, &[Change::Delete(9)]), 1, 0),
    (
        Step::CommitOf(&ROW_9, &[Change::Delete(9), Change::Insert(9)]),
        1,
        0,
    ),
];

/// A row is set.
const SET: [Line; 3] = [
    INSERT_7,
    FLUSH,
    (Step::Commit(0, 1, &[Change::Set(7)], Ok(2)), 1, 1),
];

/// Once the delete of a row is durable, it may be put in again.
const DELETED: [Line; 5] = [
    INSERT_7,
    FLUSH,
    (Step::Commit(0, 1, &[Change::Delete(7)], Ok(2)), 1, 1),
    (Step::Flush(1, 2), 2, 0),
    (Step::Commit(0, 2, &[Change::Insert(7)], Ok(3)), 2, 1),
];

/// A row is replaced.
const REPLACE_7: Line = (
    Step::Commit(0, 1, &[Change::Delete(7), Change::Insert(7)], Ok(2)),
    1,
    1,
);

/// A row is replaced, and one is undone.
const REPLACED: [Line; 4] = [
    INSERT_7,
    FLUSH,
    REPLACE_7,
    (
        Step::Commit(0, 1, &[Change::Insert(8), Change::Delete(8)], Ok(3)),
        1,
        2,
    ),
];

/// A second change of row 7 conflicts with the first, where that is pending and where it is
/// durable; one of row 8 does not.
const CONFLICTS: [Line; 7] = [
    (
        Step::Commit(0, 0, &[Change::Insert(7), Change::Insert(8)], Ok(1)),
        0,
        1,
    ),
    FLUSH,
    (Step::Commit(0, 1, &[Change::Set(7)], Ok(2)), 1, 1),
    (
        Step::Commit(0, 1, &[Change::Set(7)], Err(CommitFault::Conflict(2))),
        1,
        1,
    ),
    (Step::Commit(0, 1, &[Change::Set(8)], Ok(3)), 1, 2),
    (Step::Flush(2, 3), 3, 0),
    (
        Step::Commit(0, 1, &[Change::Delete(7)], Err(CommitFault::Conflict(2))),
        3,
        0,
    ),
];

static STORIES: [(u8, &[Line]); 8] = [
    (1, &REFUSED),
    (1, &NO_VERSION),
    (1, &ROW_THERE),
    (1, &ROW_ABSENT),
    (1, &SET),
    (1, &DELETED),
    (1, &REPLACED),
    (1, &CONFLICTS),
];

#[test]
fn commits_are_answered_by_what_stands(rt: HostRuntime) -> Result<(), Fail> {
    expect_none(&rt, other_story(rt.alloc(), &STORIES)?);
    Ok(())
}

/// Row 7 is replaced, and that is made durable.
static REPLACED_AND_DURABLE: [Line; 4] = [INSERT_7, FLUSH, REPLACE_7, (Step::Flush(1, 2), 2, 0)];

/// Whichever request for memory is refused: a commit that was refused for memory has changed
/// nothing, and a flush has moved nothing; each is answered when it is asked for again.
#[test]
fn a_commit_and_a_flush_without_memory_change_nothing(rt: HostRuntime) -> Result<(), Fail> {
    let other = other_story(rt.alloc(), &[(1, &REPLACED_AND_DURABLE)])?;
    expect_none(&rt, other);
    Ok(())
}
