//! A journal that is lent out while it is written: what a primary answers meanwhile, and how the flush
//! ends.

use crate::primary_steps::{Change, Line, Step, other_step_of, start};
use journal::MemJournal;
use primary::{CommitFault, FlushFault, PrimaryCore, Work};
use scenarios_common::worker_datagrams::{ASK, FRAME, HEAD_OF_NOTHING};
use std::alloc::Global;
use std::test::Fail;

/// Two commits are pending when a flush of the first one begins.
static BEFORE: [Line; 2] = [
    (Step::Commit(0, 0, &[Change::Insert(7)], Ok(1)), 0, 1),
    (Step::Commit(0, 0, &[Change::Insert(8)], Ok(2)), 0, 2),
];

/// While it is written: a commit is numbered after both, one of the same row conflicts, and what the
/// flush offers is not durable yet; no other flush begins. A base is of what is durable.
static MEANWHILE: [Line; 7] = [
    (Step::Commit(1, 0, &[Change::Insert(9)], Ok(3)), 0, 3),
    (
        Step::Commit(0, 0, &[Change::Insert(7)], Err(CommitFault::Conflict(1))),
        0,
        3,
    ),
    (
        Step::Commit(0, 1, &[Change::Set(7)], Err(CommitFault::Foreign)),
        0,
        3,
    ),
    (Step::FlushRefused(1, FlushFault::Busy), 0, 3),
    (Step::Push(0, 0, None), 0, 3),
    (Step::Base(0, 0), 0, 3),
    (Step::Receive(&ASK, Some(&HEAD_OF_NOTHING)), 0, 3),
];

/// Once it has ended, the commit that was offered is durable, and no other; the next flush takes the
/// rest.
static AFTER: [Line; 3] = [
    (Step::Push(0, 0, Some(&FRAME)), 1, 2),
    (Step::Push(0, 1, None), 1, 2),
    (Step::Flush(usize::MAX, 3), 3, 0),
];

/// Whether a flush of one commit begins, is written and ends as it should around those steps.
fn is_lent(alloc: Global, primary: &mut PrimaryCore<MemJournal>) -> Result<bool, Fail> {
    match primary.begin_flush(1) {
        Ok(work) => is_ended(alloc, primary, work),
        Err(_) => Err("the flush did not begin".into()),
    }
}

/// Whether a flush that has begun is written and ends as it should behind those steps.
fn is_ended(
    alloc: Global,
    primary: &mut PrimaryCore<MemJournal>,
    work: Work<MemJournal>,
) -> Result<bool, Fail> {
    let other = other_step_of(alloc, 2, primary, &MEANWHILE);
    let was_lent = primary.lent();
    let ended = primary.end_flush(work.write());
    let is_ended = was_lent && ended == Ok(1) && !primary.lent();
    Ok(other?.is_none() && is_ended)
}

/// The same between the steps before and after it.
fn is_lent_between(alloc: Global, primary: &mut PrimaryCore<MemJournal>) -> Result<bool, Fail> {
    let before = other_step_of(alloc, 2, primary, &BEFORE)?;
    let lent = is_lent(alloc, primary)?;
    let after = other_step_of(alloc, 2, primary, &AFTER)?;
    Ok(before.is_none() && lent && after.is_none())
}

/// The same of a fresh primary.
fn is_lent_by_one(alloc: Global) -> Result<bool, Fail> {
    let mut primary = start(alloc, 2)?;
    is_lent_between(alloc, &mut primary)
}

#[test]
fn a_primary_commits_while_its_journal_is_written(rt: HostRuntime) -> Result<(), Fail> {
    assert!(rt; is_lent_by_one(rt.alloc())?);
    Ok(())
}

/// Whether a flush that one primary began is refused by another one, which has its journal.
fn is_not_lent(one: &mut PrimaryCore<MemJournal>, other: &mut PrimaryCore<MemJournal>) -> bool {
    match one.begin_flush(0) {
        Ok(work) => {
            let ended = other.end_flush(work.write());
            ended == Err(FlushFault::NotLent) && one.lent() && !other.lent()
        }
        Err(_) => false,
    }
}

/// The same of another one without commits.
fn is_not_lent_to_other(alloc: Global, one: &mut PrimaryCore<MemJournal>) -> Result<bool, Fail> {
    let mut other = start(alloc, 1)?;
    Ok(is_not_lent(one, &mut other))
}

/// The same of primaries without commits.
fn is_not_lent_elsewhere(alloc: Global) -> Result<bool, Fail> {
    let mut one = start(alloc, 1)?;
    is_not_lent_to_other(alloc, &mut one)
}

#[test]
fn a_flush_does_not_end_where_it_did_not_begin(rt: HostRuntime) -> Result<(), Fail> {
    assert!(rt; is_not_lent_elsewhere(rt.alloc())?);
    Ok(())
}
