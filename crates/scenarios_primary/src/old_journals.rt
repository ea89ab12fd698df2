//! A primary on a journal of version 1: it marks it, once, and goes on behind the mark, whatever a
//! stop left or a store refused.

use crate::primary_starts::{
    CUT, DELETED, FAILED, FIRST_APPEND, FIRST_FLUSH, History, NONE, READ, RECOVERED, Started, live,
    other_history,
};
use crate::primary_steps::expect_none;
use journal::Form;
use scenarios_journal_common::failing_journal::{Failing, FailingJournal, Failure};
use scenarios_journal_common::journal_cases::{JOURNAL_HEADER, MARK, bytes_of, front};
use scenarios_journal_common::old_journal_cases::{
    Formed, MARK_AND_DELETE, OLD, OLD_CASES, OldCase,
};
use std::alloc::Global;
use std::test::Fail;

/// The bytes that stand in a journal of these once a primary was started on it: the new header where
/// none are kept, and the mark behind those of version 1.
fn marked(alloc: Global, bytes: &[u8], recovered: &Formed) -> Result<Vec<u8>, Fail> {
    let (kept, form) = match recovered {
        Ok((_, 0, _)) => (JOURNAL_HEADER.as_slice(), Form::New),
        Ok((_, kept, form)) => (front(bytes, *kept as usize), *form),
        Err(_) => (bytes, Form::New),
    };
    let mut left = Vec::from_slice(alloc, kept)?;
    if form == Form::Old {
        left.extend_from_slice(&MARK)?;
    }
    Ok(left)
}

/// What a start answers where that is recovered of the bytes.
fn started_on_old(recovered: &Formed) -> Started {
    match recovered {
        Ok((count, _, _)) => Started::Durable(*count as u64),
        Err(fault) => Started::Journal(*fault),
    }
}

/// Whether a primary starts on the bytes of a case of version 1, and then on what stands there.
fn starts_on_old(alloc: Global, case: &OldCase) -> Result<bool, Fail> {
    let (len, changes, behind, recovered) = case;
    let bytes = bytes_of(alloc, &(*len, *changes, *behind))?;
    let left = marked(alloc, &bytes, recovered)?;
    let journal = FailingJournal::of(bytes, NONE);
    starts_twice(alloc, journal, started_on_old(recovered), left.as_slice())
}

/// Whether a primary starts so on a journal, and then on what stands there, which is this both times.
fn starts_twice(
    alloc: Global,
    mut journal: FailingJournal,
    started: Started,
    left: &[u8],
) -> Result<bool, Fail> {
    for _ in 0..2 {
        let (found, is_lived) = live(alloc, journal, started, &[])?;
        journal = found;
        if !is_lived || journal.content() != left {
            return Ok(false);
        }
    }
    Ok(true)
}

/// The index of the first case of version 1 on which a primary starts otherwise.
fn other_old_case(alloc: Global) -> Result<Option<usize>, Fail> {
    for (index, case) in OLD_CASES.iter().enumerate() {
        if !starts_on_old(alloc, case)? {
            return Ok(Some(index));
        }
    }
    Ok(None)
}

#[test]
fn a_primary_marks_an_old_journal_once(rt: HostRuntime) -> Result<(), Fail> {
    assert_eq!(rt; other_old_case(rt.alloc())?, None);
    Ok(())
}

/// The mark is written again where its write failed, whatever that left of it: nothing, each of its
/// bytes, all; also where a torn end was cut away before.
static MARK_LOST: [History; 6] = [
    (
        (52, &OLD, &[]),
        FIRST_FLUSH,
        &[
            (Started::Store, &[], (52, &OLD, &[])),
            (Started::Durable(1), &[], (52, &OLD, &MARK)),
        ],
    ),
    (
        (52, &OLD, &[]),
        Failure {
            call: Failing::Append,
            calls_before: 0,
            bytes_left: 1,
        },
        &[
            (Started::Store, &[], (52, &OLD, &[0])),
            (Started::Durable(1), &[], (52, &OLD, &MARK)),
        ],
    ),
    (
        (52, &OLD, &[]),
        FIRST_APPEND,
        &[
            (Started::Store, &[], (52, &OLD, &[0, 0])),
            (Started::Durable(1), &[], (52, &OLD, &MARK)),
        ],
    ),
    (
        (52, &OLD, &[]),
        Failure {
            call: Failing::Append,
            calls_before: 0,
            bytes_left: 3,
        },
        &[
            (Started::Store, &[], (52, &OLD, &[0, 0, 0])),
            (Started::Durable(1), &[], (52, &OLD, &MARK)),
        ],
    ),
    (
        (52, &OLD, &[]),
        Failure {
            call: Failing::Append,
            calls_before: 0,
            bytes_left: 4,
        },
        &[
            (Started::Store, &[], (52, &OLD, &MARK)),
            (Started::Durable(1), &[], (52, &OLD, &MARK)),
        ],
    ),
    (
        (51, &OLD, &[]),
        FIRST_APPEND,
        &[
            (Started::Store, &[], (9, &OLD, &[0, 0])),
            (Started::Durable(0), &[], (9, &OLD, &MARK)),
        ],
    ),
];

/// A journal of version 1 that could not be read is as it was; a torn end of it that could not be cut
/// away is torn still.
static OLD_NOT_CUT: [History; 2] = [
    (
        (52, &OLD, &[0]),
        READ,
        &[
            (Started::Store, &[], (52, &OLD, &[0])),
            (Started::Durable(1), &[], (52, &OLD, &MARK)),
        ],
    ),
    (
        (52, &OLD, &[0, 0, 0, 0x15, 0, 0, 0, 0]),
        CUT,
        &[
            (Started::Store, &[], (52, &OLD, &[0, 0])),
            (Started::Durable(1), &[], (52, &OLD, &MARK)),
        ],
    ),
];

/// Commits behind the mark; a flush there that fails.
static BEHIND_MARK: [History; 2] = [
    (
        (52, &OLD, &[]),
        NONE,
        &[
            (Started::Durable(1), &DELETED, (52, &OLD, &MARK_AND_DELETE)),
            (
                Started::Durable(2),
                &RECOVERED,
                (52, &OLD, &MARK_AND_DELETE),
            ),
        ],
    ),
    (
        (9, &OLD, &[]),
        Failure {
            call: Failing::Append,
            calls_before: 1,
            bytes_left: 2,
        },
        &[
            (Started::Durable(0), &FAILED, (9, &OLD, &[0, 0, 0, 0, 0, 0])),
            (Started::Durable(0), &[], (9, &OLD, &MARK)),
        ],
    ),
];

#[test]
fn a_mark_that_a_store_refuses_is_written_again(rt: HostRuntime) -> Result<(), Fail> {
    expect_none(&rt, other_history(rt.alloc(), &MARK_LOST)?);
    expect_none(&rt, other_history(rt.alloc(), &OLD_NOT_CUT)?);
    expect_none(&rt, other_history(rt.alloc(), &BEHIND_MARK)?);
    Ok(())
}

static OLD_TORN: [History; 1] = [(
    (52, &OLD, &[0, 0, 0]),
    NONE,
    &[
        (Started::Durable(1), &DELETED, (52, &OLD, &MARK_AND_DELETE)),
        (Started::Durable(2), &[], (52, &OLD, &MARK_AND_DELETE)),
    ],
)];

/// Whichever request for memory is refused: a start that was refused for memory hands back a journal
/// that keeps what it kept, and the next one marks it.
#[test]
fn an_old_journal_without_memory_keeps_what_it_kept(rt: HostRuntime) -> Result<(), Fail> {
    expect_none(&rt, other_history(rt.alloc(), &OLD_TORN)?);
    Ok(())
}
