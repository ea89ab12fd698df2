//! A journal that fails while workers commit: it keeps what was answered by a ticket.

use crate::cores::{WORKERS, core_on};
use crate::crews::{Done, Outcome, ended_on_failing};
use crate::listed_jobs::{are_kept, guarded_insertions};
use journal::{JournalStore, recover};
use primary::PrimaryCore;
use rows::{Commit, Schema};
use scenarios_common::wanted::NUMBERS;
use scenarios_journal_common::failing_journal::{Failing, FailingJournal, Failure};
use sockets::{Job, WorkersFault};
use std::alloc::Global;
use std::sync::Wait;
use std::test::Fail;
use std::thread::Threads;

/// An append in the middle, of which so many bytes are written.
const IN_THE_MIDDLE: Failure = Failure {
    call: Failing::Append,
    calls_before: 20,
    bytes_left: 30,
};

/// Jobs of each worker, more than there are appends before that one.
const EACH: u32 = 40;

/// A primary on a journal that fails in the middle.
fn failing_core(alloc: Global) -> Result<PrimaryCore<FailingJournal>, Fail> {
    let journal = FailingJournal::of(Vec::new(alloc), IN_THE_MIDDLE);
    if journal.faults() == u64::MAX {
        return Err("too many faults".into());
    }
    core_on(alloc, journal)
}

/// Whether each worker found that the journal failed, after some answers, and a new start has the commit
/// of each ticket.
fn are_recovered(
    alloc: Global,
    outcome: &Outcome<FailingJournal>,
    jobs: &[Job],
) -> Result<bool, Fail> {
    if outcome.core.lent() || !matches!(outcome.result, Err(WorkersFault::Journal)) {
        return Ok(false);
    }
    let schema = Schema::new(alloc, &NUMBERS)?;
    match recover(alloc, outcome.core.journal().content(), &schema, WORKERS) {
        Ok(recovered) => Ok(have_commits(&outcome.done, jobs, &recovered.commits)),
        Err(_) => Err("the journal is refused".into()),
    }
}

/// Whether each worker found that the journal failed, and the commit of each of its tickets is among these.
fn have_commits(done: &[Done], jobs: &[Job], commits: &[Commit]) -> bool {
    for worker in 0..WORKERS {
        let Some(done) = done.get(worker as usize) else {
            return false;
        };
        let is_so = done.fault == Some(WorkersFault::Journal)
            && are_kept(jobs, worker, &done.answers, commits);
        if !is_so {
            return false;
        }
    }
    !commits.is_empty()
}

/// Whether these jobs are answered so on a new line.
fn are_answered<R: Threads + Wait + Sync>(
    rt: &R,
    alloc: Global,
    jobs: &[Job],
) -> Result<bool, Fail> {
    let core = failing_core(alloc)?;
    let outcome = ended_on_failing(rt, alloc, core, jobs)?;
    let are_recovered = are_recovered(alloc, &outcome, jobs);
    drop(outcome);
    are_recovered
}

#[test]
fn a_journal_that_fails_keeps_what_was_answered(rt: HostRuntime) -> Result<(), Fail> {
    let jobs = guarded_insertions(rt.alloc(), EACH)?;
    let are_answered = are_answered(&rt, rt.alloc(), &jobs)?;
    assert!(rt; are_answered);
    Ok(())
}
