//! A journal that fails: nothing of the round stands.

use crate::desks::{Round, WORKERS, go_so_after, setup, started};
use journal::JournalStore;
use primary::PrimaryCore;
use scenarios_journal_common::failing_journal::{Failing, FailingJournal, Failure};
use script::Setup;
use std::alloc::Global;
use std::sync::Wait;
use std::test::Fail;

/// The append after those of the start and of one flush.
const SECOND_FLUSH: Failure = Failure {
    call: Failing::Append,
    calls_before: 2,
    bytes_left: 0,
};

/// The first round stands; in the second the journal fails when it settles; after that nothing is taken.
const AT_THE_END: [Round; 3] = [
    (
        &[(
            "POST",
            "/jobs",
            b"job 0\ninsert acct 1 1 1\nend\n",
            200,
            b"job 0 ticket 1\n",
        )],
        true,
    ),
    (
        &[(
            "POST",
            "/jobs",
            b"job 0\ninsert acct 2 1 1\nend\n",
            200,
            b"job 0 ticket 2\n",
        )],
        false,
    ),
    (
        &[(
            "POST",
            "/jobs",
            b"job 0\ninsert acct 3 1 1\nend\n",
            500,
            b"journal\n",
        )],
        true,
    ),
];

/// In the second round a job has a condition, so the journal fails within a request, and what the one before
/// was told does not stand.
const WITHIN: [Round; 2] = [
    (
        &[(
            "POST",
            "/jobs",
            b"job 0\ninsert acct 1 1 1\nend\n",
            200,
            b"job 0 ticket 1\n",
        )],
        true,
    ),
    (
        &[
            (
                "POST",
                "/jobs",
                b"job 0\ninsert acct 2 1 1\nend\n",
                200,
                b"job 0 ticket 2\n",
            ),
            (
                "POST",
                "/jobs",
                b"job 0\nexpect acct 1 0 1\nset acct 1 0 2\nend\n",
                500,
                b"journal\n",
            ),
        ],
        false,
    ),
];

/// Whether rounds go so on a journal that fails at its second flush.
fn go_so<R: Wait>(rt: &R, alloc: Global, rounds: &[Round]) -> Result<bool, Fail> {
    let setup = setup(alloc)?;
    let are_so = go_so_with(rt, alloc, &setup, rounds);
    drop(setup);
    are_so
}

/// The same with this setup.
fn go_so_with<R: Wait>(
    rt: &R,
    alloc: Global,
    setup: &Setup,
    rounds: &[Round],
) -> Result<bool, Fail> {
    let journal = FailingJournal::of(Vec::new(alloc), SECOND_FLUSH);
    if journal.faults() == u64::MAX {
        drop(journal);
        return Err("too many faults".into());
    }
    let core = started(PrimaryCore::start(alloc, journal, &setup.schema, WORKERS))?;
    go_so_after(rt, alloc, core, setup, rounds)
}

#[test]
fn a_round_does_not_stand_whose_flush_fails(rt: HostRuntime) -> Result<(), Fail> {
    assert!(rt; go_so(&rt, rt.alloc(), &AT_THE_END)?);
    Ok(())
}

#[test]
fn what_was_told_before_a_fault_does_not_stand(rt: HostRuntime) -> Result<(), Fail> {
    assert!(rt; go_so(&rt, rt.alloc(), &WITHIN)?);
    Ok(())
}
