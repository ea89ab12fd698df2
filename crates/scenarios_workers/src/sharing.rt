//! Jobs of one worker that share flushes: they are answered as if they were done one after the other.

use crate::alone::{answered_alone, answers_of};
use crate::cores::core_on;
use crate::crews::ended_on_failing;
use crate::listed_jobs::{Wish, push_job};
use journal::JournalStore;
use mvcc::TxFault;
use primary::PrimaryCore;
use scenarios_journal_common::failing_journal::{Failing, FailingJournal, Failure};
use sockets::{Job, JobAnswer, Refusal};
use std::alloc::{AllocError, Global};
use std::sync::Wait;
use std::test::Fail;
use std::thread::Threads;

/// Six jobs on one row, each of which needs what the one before did.
const ROUND: [&[Wish]; 6] = [
    &[Wish::Insert(7, 1, 2)],
    &[Wish::Set(7, 0, 3)],
    &[Wish::Insert(7, 4, 5)],
    &[Wish::Expect(7, 0, 3), Wish::Delete(7)],
    &[Wish::Insert(7, 6, 7)],
    &[Wish::Delete(7)],
];

/// How often they are done: 3,000 jobs in all.
const ROUNDS: u64 = 500;

/// The jobs of all rounds.
fn rounds(alloc: Global) -> Result<Vec<Job>, AllocError> {
    let mut jobs = Vec::new(alloc);
    for _ in 0..ROUNDS {
        for wishes in &ROUND {
            push_job(alloc, &mut jobs, 0, wishes)?;
        }
    }
    Ok(jobs)
}

/// What the jobs of one round are answered: the third inserts a row that is there, and each other one is the
/// next commit.
fn is_round(answers: &[JobAnswer], round: u64) -> bool {
    let before = 5 * (round % ROUNDS);
    let told = [
        JobAnswer::Ticket(before + 1),
        JobAnswer::Ticket(before + 2),
        JobAnswer::Refused(Refusal::Change {
            step: 0,
            fault: TxFault::Exists,
        }),
        JobAnswer::Ticket(before + 3),
        JobAnswer::Ticket(before + 4),
        JobAnswer::Ticket(before + 5),
    ];
    answers == told.as_slice()
}

/// Whether the jobs of all rounds are answered as if they were done one after the other.
fn are_in_order<R: Threads + Wait + Sync>(rt: &R, alloc: Global) -> Result<bool, Fail> {
    let jobs = rounds(alloc)?;
    let answers = answered_alone(rt, alloc, &jobs)?;
    Ok(answers.len() == jobs.len() && are_rounds(&answers))
}

/// Whether each round is answered so.
fn are_rounds(answers: &[JobAnswer]) -> bool {
    let mut round: u64 = 0;
    for six in answers.chunks(6) {
        if !is_round(six, round) {
            return false;
        }
        round = round.saturating_add(1);
    }
    true
}

#[test]
fn jobs_that_need_the_one_before_are_answered_in_order(rt: HostRuntime) -> Result<(), Fail> {
    assert!(rt; are_in_order(&rt, rt.alloc())?);
    Ok(())
}

/// The append after those of the start and of two flushes.
const THIRD_FLUSH: Failure = Failure {
    call: Failing::Append,
    calls_before: 3,
    bytes_left: 0,
};

/// As many jobs as two flushes can share, but for one; each inserts a row of its own.
const INDEPENDENT: u64 = 2047;

/// These jobs.
fn independent(alloc: Global) -> Result<Vec<Job>, AllocError> {
    let mut jobs = Vec::new(alloc);
    for row in 0..INDEPENDENT {
        push_job(alloc, &mut jobs, 0, &[Wish::Insert(row, 1, 2)])?;
    }
    Ok(jobs)
}

/// A primary on a journal that takes two flushes.
fn core_for_two_flushes(alloc: Global) -> Result<PrimaryCore<FailingJournal>, Fail> {
    let journal = FailingJournal::of(Vec::new(alloc), THIRD_FLUSH);
    if journal.faults() == u64::MAX {
        return Err("too many faults".into());
    }
    core_on(alloc, journal)
}

/// Whether they are answered with tickets from 1 on, on a journal that fails at the third flush.
fn are_two_flushes<R: Threads + Wait + Sync>(rt: &R, alloc: Global) -> Result<bool, Fail> {
    let jobs = independent(alloc)?;
    let answers = answered_in_two_flushes(rt, alloc, &jobs)?;
    Ok(are_tickets(&answers))
}

/// What these jobs are answered on such a journal.
fn answered_in_two_flushes<R: Threads + Wait + Sync>(
    rt: &R,
    alloc: Global,
    jobs: &[Job],
) -> Result<Vec<JobAnswer>, Fail> {
    let core = core_for_two_flushes(alloc)?;
    let outcome = ended_on_failing(rt, alloc, core, jobs)?;
    answers_of(outcome)
}

/// Whether these are the tickets from 1 on.
fn are_tickets(answers: &[JobAnswer]) -> bool {
    let mut number: u64 = 0;
    for answer in answers {
        number = number.saturating_add(1);
        if *answer != JobAnswer::Ticket(number) {
            return false;
        }
    }
    number == INDEPENDENT
}

#[test]
fn jobs_share_flushes(rt: HostRuntime) -> Result<(), Fail> {
    assert!(rt; are_two_flushes(&rt, rt.alloc())?);
    Ok(())
}
