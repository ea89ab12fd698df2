//! A primary on a journal: what it starts with and what then stands there, whatever a stop left or a
//! store refused, and what becomes of commits whose records the journal did not take.

use crate::primary_steps::{Change, Line, Step, expect_none, other_step_of};
use journal::{JournalFault, JournalStore};
use primary::{CommitFault, FlushFault, PrimaryCore, StartFault};
use rows::Schema;
use scenarios_common::wanted::NUMBERS;
use scenarios_common::worker_datagrams::{
    ASK, FRAME, FRAME_OF_WORKER_1, HEAD_OF_NOTHING, HEAD_OF_WORKER_1,
};
use scenarios_journal_common::failing_journal::{Failing, FailingJournal, Failure, Refused};
use scenarios_journal_common::journal_cases::{
    Bytes, CASES, Case, DELETE_7, JOURNAL_HEADER, JOURNAL_RECORD, bytes_of, front,
};
use scenarios_journal_common::old_journal_cases::OLD;
use std::alloc::Global;
use std::test::Fail;

/// What a start answers.
#[derive(Clone, Copy, PartialEq)]
pub enum Started {
    /// So many commits are durable.
    Durable(u64),
    /// The store failed.
    Store,
    /// The bytes are refused.
    Journal(JournalFault),
}

/// A life of a primary: what its start answers, its steps, and the bytes that stand in its journal
/// when it ends.
pub type Life = (Started, &'static [Line], Bytes);

/// The bytes of a journal, the failure that it has, and the lives of primaries on it, one behind the
/// other.
pub type History = (Bytes, Failure, &'static [Life]);

/// A primary on a journal, or the journal and why there is none.
type Outcome = Result<PrimaryCore<FailingJournal>, (FailingJournal, StartFault<Refused>)>;

/// A primary of two workers, on a journal; asked for again where memory was refused.
fn start(alloc: Global, journal: FailingJournal) -> Result<Outcome, Fail> {
    let schema = Schema::new(alloc, &NUMBERS)?;
    start_with(alloc, journal, &schema)
}

/// The same of a schema.
fn start_with(alloc: Global, journal: FailingJournal, schema: &Schema) -> Result<Outcome, Fail> {
    match refused(start_once(alloc, journal, schema)?) {
        Ok(journal) => start_once(alloc, journal, schema),
        Err(outcome) => Ok(outcome),
    }
}

/// The journal that was handed back for want of memory, or else what was answered.
fn refused<C, J, F: Drop>(
    outcome: Result<C, (J, StartFault<F>)>,
) -> Result<J, Result<C, (J, StartFault<F>)>> {
    match outcome {
        Err((journal, StartFault::Memory)) => Ok(journal),
        outcome => Err(outcome),
    }
}

/// The same, asked for once.
fn start_once(alloc: Global, journal: FailingJournal, schema: &Schema) -> Result<Outcome, Fail> {
    if journal.faults() == u64::MAX {
        return Err("too many faults".into());
    }
    Ok(PrimaryCore::start(alloc, journal, schema, 2))
}

/// The journal behind a life on it, and whether that went so.
pub fn live(
    alloc: Global,
    journal: FailingJournal,
    started: Started,
    story: &[Line],
) -> Result<(FailingJournal, bool), Fail> {
    match start(alloc, journal)? {
        Ok(primary) => live_on(alloc, primary, started, story),
        Err((journal, fault)) => Ok((journal, is_fault(&fault, started))),
    }
}

/// The journal behind the life of a primary that was started, and whether that goes so.
fn live_on(
    alloc: Global,
    mut primary: PrimaryCore<FailingJournal>,
    started: Started,
    story: &[Line],
) -> Result<(FailingJournal, bool), Fail> {
    let is_lived = is_lived(alloc, &mut primary, started, story)?;
    Ok((journal_of(primary)?, is_lived))
}

/// Whether the life of a primary that was started goes so.
fn is_lived(
    alloc: Global,
    primary: &mut PrimaryCore<FailingJournal>,
    started: Started,
    story: &[Line],
) -> Result<bool, Fail> {
    primary.keeps_legal();
    let is_started = started == Started::Durable(primary.durable());
    let other = other_step_of(alloc, 2, primary, story)?;
    Ok(is_started && other.is_none())
}

/// The journal of a primary.
fn journal_of<J: JournalStore + Drop>(primary: PrimaryCore<J>) -> Result<J, Fail> {
    if primary.lent() {
        return Err("the journal is lent out".into());
    }
    Ok(primary.into_journal())
}

/// Whether this is why a start was refused.
fn is_fault(fault: &StartFault<Refused>, started: Started) -> bool {
    match fault {
        StartFault::Store(Refused) => started == Started::Store,
        StartFault::Journal(fault) => started == Started::Journal(*fault),
        StartFault::Memory => false,
    }
}

/// The index of the first life of a history that goes otherwise.
fn other_life(alloc: Global, history: &History) -> Result<Option<usize>, Fail> {
    let (bytes, failure, lives) = history;
    let journal = FailingJournal::of(bytes_of(alloc, bytes)?, *failure);
    other_life_on(alloc, journal, lives)
}

/// The same of these lives, on a journal.
fn other_life_on(
    alloc: Global,
    mut journal: FailingJournal,
    lives: &[Life],
) -> Result<Option<usize>, Fail> {
    for (index, (started, story, stands)) in lives.iter().enumerate() {
        let (left, is_lived) = live(alloc, journal, *started, story)?;
        journal = left;
        if !is_lived || !is_left(alloc, &journal, stands)? {
            return Ok(Some(index));
        }
    }
    Ok(None)
}

/// Whether these bytes stand in a journal.
fn is_left(alloc: Global, journal: &FailingJournal, stands: &Bytes) -> Result<bool, Fail> {
    let expected = bytes_of(alloc, stands)?;
    Ok(journal.content() == expected.as_slice())
}

/// The first of these histories that goes otherwise, and the index of its life.
pub fn other_history(alloc: Global, histories: &[History]) -> Result<Option<(usize, usize)>, Fail> {
    for (number, history) in histories.iter().enumerate() {
        if let Some(index) = other_life(alloc, history)? {
            return Ok(Some((number, index)));
        }
    }
    Ok(None)
}

/// No call fails: the failure comes behind more calls than are made.
pub const NONE: Failure = Failure {
    call: Failing::Any,
    calls_before: 1000,
    bytes_left: 0,
};

/// What a start answers where that is recovered of the bytes.
fn started_of(recovered: &Result<(usize, u64), JournalFault>) -> Started {
    match recovered {
        Ok((count, _)) => Started::Durable(*count as u64),
        Err(fault) => Started::Journal(*fault),
    }
}

/// The bytes that stand in a journal of these once a primary was started on it, where that is
/// recovered of them: those that are kept, and the header where none are; all where they are
/// refused.
fn standing<'a>(bytes: &'a [u8], recovered: &Result<(usize, u64), JournalFault>) -> &'a [u8] {
    match recovered {
        Ok((_, 0)) => &JOURNAL_HEADER,
        Ok((_, kept)) => front(bytes, *kept as usize),
        Err(_) => bytes,
    }
}

/// Whether a primary starts on the bytes of a case as is recovered of them.
fn starts_on(alloc: Global, case: &Case) -> Result<bool, Fail> {
    let (len, changes, behind, recovered) = case;
    let bytes = bytes_of(alloc, &(*len, *changes, *behind))?;
    starts_on_bytes(alloc, bytes.as_slice(), recovered)
}

/// Whether a primary starts on bytes as is recovered of them.
fn starts_on_bytes(
    alloc: Global,
    bytes: &[u8],
    recovered: &Result<(usize, u64), JournalFault>,
) -> Result<bool, Fail> {
    let journal = FailingJournal::of(Vec::from_slice(alloc, bytes)?, NONE);
    let (left, is_lived) = live(alloc, journal, started_of(recovered), &[])?;
    Ok(is_lived && left.content() == standing(bytes, recovered))
}

/// The index of the first case on which a primary starts otherwise.
fn other_case(alloc: Global) -> Result<Option<usize>, Fail> {
    for (index, case) in CASES.iter().enumerate() {
        if !starts_on(alloc, case)? {
            return Ok(Some(index));
        }
    }
    Ok(None)
}

#[test]
fn a_primary_starts_on_what_its_journal_keeps(rt: HostRuntime) -> Result<(), Fail> {
    assert_eq!(rt; other_case(rt.alloc())?, None);
    Ok(())
}

/// The first read fails.
pub const READ: Failure = Failure {
    call: Failing::ReadAll,
    calls_before: 0,
    bytes_left: 0,
};

/// The first cut fails, and leaves two bytes more than it was to.
pub const CUT: Failure = Failure {
    call: Failing::CutTo,
    calls_before: 0,
    bytes_left: 2,
};

/// The first cut fails, and leaves eight bytes more.
const LONGER_CUT: Failure = Failure {
    call: Failing::CutTo,
    calls_before: 0,
    bytes_left: 8,
};

/// The first append fails, and leaves two of its bytes.
pub const FIRST_APPEND: Failure = Failure {
    call: Failing::Append,
    calls_before: 0,
    bytes_left: 2,
};

/// The header is written again where its write failed, also in place of the three bytes that a stop
/// left of it, or of the five of one of version 1.
static HEADER_LOST: [History; 3] = [
    (
        (0, &[], &[]),
        FIRST_APPEND,
        &[
            (Started::Store, &[], (2, &[], &[])),
            (Started::Durable(0), &[], (9, &[], &[])),
        ],
    ),
    (
        (3, &[], &[]),
        FIRST_APPEND,
        &[
            (Started::Store, &[], (2, &[], &[])),
            (Started::Durable(0), &[], (9, &[], &[])),
        ],
    ),
    (
        (5, &OLD, &[]),
        FIRST_APPEND,
        &[
            (Started::Store, &[], (2, &[], &[])),
            (Started::Durable(0), &[], (9, &[], &[])),
        ],
    ),
];

/// A journal that could not be read is as it was.
static NOT_READ: [History; 2] = [
    (
        (52, &[], &[]),
        READ,
        &[
            (Started::Store, &[], (52, &[], &[])),
            (Started::Durable(1), &[], (52, &[], &[])),
        ],
    ),
    (
        (51, &[], &[]),
        READ,
        &[
            (Started::Store, &[], (51, &[], &[])),
            (Started::Durable(0), &[], (9, &[], &[])),
        ],
    ),
];

/// A torn end that could not be cut away is torn still, whatever is left of it, and nothing else is
/// lost.
static NOT_CUT: [History; 4] = [
    (
        (51, &[], &[]),
        CUT,
        &[
            (Started::Store, &[], (11, &[], &[])),
            (Started::Durable(0), &[], (9, &[], &[])),
        ],
    ),
    (
        (52, &[], &[0]),
        CUT,
        &[
            (Started::Store, &[], (52, &[], &[0])),
            (Started::Durable(1), &[], (52, &[], &[])),
        ],
    ),
    (
        (52, &[], &[0, 0, 0, 0x15, 0, 0, 0, 0]),
        CUT,
        &[
            (Started::Store, &[], (52, &[], &[0, 0])),
            (Started::Durable(1), &[], (52, &[], &[])),
        ],
    ),
    // What a stop behind 60 bytes leaves of two records, of which the second is cut to 8 bytes.
    (
        (
            52,
            &[],
            &[0, 0, 0, 0x27, 0, 0, 0, 0, 0, 0, 0, 0, 2, 0, 1, 1, 0],
        ),
        LONGER_CUT,
        &[
            (Started::Store, &[], (52, &[], &[0, 0, 0, 0x27, 0, 0, 0, 0])),
            (Started::Durable(1), &[], (52, &[], &[])),
        ],
    ),
];

#[test]
fn a_start_that_a_store_refuses_loses_nothing(rt: HostRuntime) -> Result<(), Fail> {
    expect_none(&rt, other_history(rt.alloc(), &HEADER_LOST)?);
    expect_none(&rt, other_history(rt.alloc(), &NOT_READ)?);
    expect_none(&rt, other_history(rt.alloc(), &NOT_CUT)?);
    Ok(())
}

/// Row 7 is put in by worker 0, as commit 1.
const INSERT_7: Line = (Step::Commit(0, 0, &[Change::Insert(7)], Ok(1)), 0, 1);

/// Once the journal has failed each commit and flush is refused for that, first of all; what was
/// durable is sent, and nothing else.
pub const FAILED: [Line; 12] = [
    (Step::Flush(0, 0), 0, 0),
    (Step::Flush(usize::MAX, 0), 0, 0),
    INSERT_7,
    (Step::Flush(0, 0), 0, 1),
    (Step::PendingText(&JOURNAL_RECORD), 0, 1),
    (Step::FlushRefused(1, FlushFault::Journal), 0, 1),
    (
        Step::Commit(0, 0, &[Change::Insert(8)], Err(CommitFault::Failed)),
        0,
        1,
    ),
    (Step::Commit(1, 0, &[], Err(CommitFault::Failed)), 0, 1),
    (Step::FlushRefused(1, FlushFault::Failed), 0, 1),
    (Step::FlushRefused(0, FlushFault::Failed), 0, 1),
    (Step::Base(0, 0), 0, 1),
    (Step::Receive(&ASK, Some(&HEAD_OF_NOTHING)), 0, 1),
];

/// The commit is made again and becomes durable, and a second one, which deletes its row.
const MADE_AGAIN: [Line; 7] = [
    INSERT_7,
    (Step::Flush(1, 1), 1, 0),
    (Step::PendingText(&[]), 1, 0),
    (Step::Push(0, 0, Some(&FRAME)), 1, 0),
    (Step::Commit(0, 1, &[Change::Delete(7)], Ok(2)), 1, 1),
    (Step::PendingText(&DELETE_7), 1, 1),
    (Step::Flush(5, 2), 2, 0),
];

/// Both are recovered: the row may be put in again, and the frames are there.
pub const RECOVERED: [Line; 3] = [
    (Step::Push(0, 0, Some(&FRAME)), 2, 0),
    (Step::Push(0, 2, None), 2, 0),
    (Step::Commit(0, 2, &[Change::Insert(7)], Ok(3)), 2, 1),
];

/// What is durable stays so behind a flush that failed. A base can be taken then; the next start has
/// all frames again.
const SECOND_FAILED: [Line; 9] = [
    INSERT_7,
    (Step::Flush(1, 1), 1, 0),
    (Step::Commit(0, 1, &[Change::Delete(7)], Ok(2)), 1, 1),
    (Step::FlushRefused(1, FlushFault::Journal), 1, 1),
    (Step::FlushRefused(1, FlushFault::Failed), 1, 1),
    (Step::Push(0, 0, Some(&FRAME)), 1, 1),
    (Step::Base(1, 1), 1, 1),
    (Step::Push(0, 0, None), 1, 1),
    (Step::FlushRefused(1, FlushFault::Failed), 1, 1),
];

/// Two commits, one of each worker, are offered at once.
const BOTH_FAILED: [Line; 3] = [
    INSERT_7,
    (Step::Commit(1, 0, &[Change::Insert(9)], Ok(2)), 0, 2),
    (Step::FlushRefused(2, FlushFault::Journal), 0, 2),
];

/// The frame is there.
const KEPT: [Line; 1] = [(Step::Push(0, 0, Some(&FRAME)), 1, 0)];

/// The first flush fails, and leaves two bytes of the record, or none, or all; then what was not
/// acknowledged and yet stands whole is kept. The second flush fails; and one of two records, of
/// which the first is whole.
static FLUSHES: [History; 5] = [
    (
        (0, &[], &[]),
        Failure {
            call: Failing::Append,
            calls_before: 1,
            bytes_left: 2,
        },
        &[
            (Started::Durable(0), &FAILED, (11, &[], &[])),
            (Started::Durable(0), &MADE_AGAIN, (52, &[], &DELETE_7)),
            (Started::Durable(2), &RECOVERED, (52, &[], &DELETE_7)),
        ],
    ),
    (
        (9, &[], &[]),
        FIRST_FLUSH,
        &[
            (Started::Durable(0), &FAILED, (9, &[], &[])),
            (Started::Durable(0), &[], (9, &[], &[])),
        ],
    ),
    (
        (0, &[], &[]),
        Failure {
            call: Failing::Append,
            calls_before: 1,
            bytes_left: 1000,
        },
        &[
            (Started::Durable(0), &FAILED, (52, &[], &[])),
            (Started::Durable(1), &KEPT, (52, &[], &[])),
        ],
    ),
    (
        (0, &[], &[]),
        Failure {
            call: Failing::Append,
            calls_before: 2,
            bytes_left: 10,
        },
        &[
            (
                Started::Durable(0),
                &SECOND_FAILED,
                (52, &[], &[0, 0, 0, 0x15, 0, 0, 0, 0, 0, 0]),
            ),
            (Started::Durable(1), &KEPT, (52, &[], &[])),
        ],
    ),
    (
        (0, &[], &[]),
        Failure {
            call: Failing::Append,
            calls_before: 1,
            bytes_left: 60,
        },
        &[
            (
                Started::Durable(0),
                &BOTH_FAILED,
                (
                    52,
                    &[],
                    &[0, 0, 0, 0x27, 1, 0, 0, 0, 0, 0, 0, 0, 2, 0, 1, 1, 0],
                ),
            ),
            (Started::Durable(1), &KEPT, (52, &[], &[])),
        ],
    ),
];

/// The first append fails and leaves nothing: on a journal with a header that is the first flush.
pub const FIRST_FLUSH: Failure = Failure {
    call: Failing::Append,
    calls_before: 0,
    bytes_left: 0,
};

#[test]
fn a_flush_that_the_journal_refuses_moves_nothing(rt: HostRuntime) -> Result<(), Fail> {
    expect_none(&rt, other_history(rt.alloc(), &FLUSHES)?);
    Ok(())
}

/// A commit is recovered with its worker: its frame is in the stream of that one, and counted there.
const OF_WORKER_1: [Line; 3] = [
    (Step::Push(1, 0, Some(&FRAME_OF_WORKER_1)), 1, 0),
    (Step::Push(0, 0, None), 1, 0),
    (Step::Receive(&ASK, Some(&HEAD_OF_WORKER_1)), 1, 0),
];

static WORKERS: [History; 1] = [(
    (52, &[(13, 1)], &[0, 0]),
    NONE,
    &[(Started::Durable(1), &OF_WORKER_1, (52, &[(13, 1)], &[]))],
)];

#[test]
fn a_commit_is_recovered_with_its_worker(rt: HostRuntime) -> Result<(), Fail> {
    expect_none(&rt, other_history(rt.alloc(), &WORKERS)?);
    Ok(())
}

/// A commit is made on a journal with a torn end, and is recovered.
pub const DELETED: [Line; 3] = [
    (Step::Commit(0, 1, &[Change::Delete(7)], Ok(2)), 1, 1),
    (Step::PendingText(&DELETE_7), 1, 1),
    (Step::Flush(1, 2), 2, 0),
];

static TORN: [History; 1] = [(
    (52, &[], &[0, 0, 0]),
    NONE,
    &[
        (Started::Durable(1), &DELETED, (52, &[], &DELETE_7)),
        (Started::Durable(2), &[], (52, &[], &DELETE_7)),
    ],
)];

static EMPTY: [History; 1] = [(
    (3, &[], &[]),
    NONE,
    &[(Started::Durable(0), &MADE_AGAIN, (52, &[], &DELETE_7))],
)];

/// The first flush fails, and what is refused for that is refused.
static FAILING_ONCE: [History; 1] = [(
    (9, &[], &[]),
    FIRST_FLUSH,
    &[(Started::Durable(0), &FAILED, (9, &[], &[]))],
)];

/// Whichever request for memory is refused: a start that was refused for memory hands back a journal
/// that keeps what it kept, and is answered when it is asked for again; so are the calls after it, also
/// where the journal fails.
#[test]
fn a_start_without_memory_loses_nothing(rt: HostRuntime) -> Result<(), Fail> {
    expect_none(&rt, other_history(rt.alloc(), &TORN)?);
    expect_none(&rt, other_history(rt.alloc(), &EMPTY)?);
    expect_none(&rt, other_history(rt.alloc(), &FAILING_ONCE)?);
    Ok(())
}
