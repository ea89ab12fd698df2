//! Whichever request for memory is refused: at most one worker ends before its last job, and the jobs of
//! the other are whole.

use crate::cores::{WORKERS, core_on};
use crate::crews::{Done, Outcome, ended_in_memory};
use crate::listed_jobs::{are_kept, insertions};
use journal::MemJournal;
use sockets::{Job, WorkersFault};
use std::alloc::Global;
use std::sync::Wait;
use std::test::Fail;
use std::thread::Threads;

/// Jobs of each worker.
const EACH: u32 = 3;

/// Whether these workers have an answer for each job, but for one at most, which was out of memory.
fn are_whole(done: &[Done]) -> bool {
    let mut without: usize = 0;
    for worker in done {
        if worker.fault == Some(WorkersFault::Memory) {
            without = without.saturating_add(1);
        } else if worker.fault.is_some() || worker.answers.len() != EACH as usize {
            return false;
        }
    }
    without <= 1
}

/// Whether no worker began.
fn are_idle(done: &[Done]) -> bool {
    done.iter().all(|worker| worker.fault.is_none() && worker.answers.is_empty())
}

/// Whether each answer is a ticket whose commit is durable.
fn are_durable(outcome: &Outcome<MemJournal>, jobs: &[Job]) -> bool {
    let commits = outcome.core.versions().commits();
    for worker in 0..WORKERS {
        let Some(done) = outcome.done.get(worker as usize) else {
            return false;
        };
        if !are_kept(jobs, worker, &done.answers, commits) {
            return false;
        }
    }
    true
}

/// Whether what is left may be so, whichever request was refused.
fn may_be(outcome: &Outcome<MemJournal>, jobs: &[Job]) -> bool {
    let is_so = match &outcome.result {
        Ok(answers) => answers.len() == jobs.len() && are_whole(&outcome.done),
        Err(WorkersFault::Memory) => are_idle(&outcome.done) || are_whole(&outcome.done),
        Err(_) => false,
    };
    is_so && are_durable(outcome, jobs)
}

/// Whether what is left once two workers have done these jobs on a new line may be so.
fn is_left<R: Threads + Wait + Sync>(rt: &R, alloc: Global, jobs: &[Job]) -> Result<bool, Fail> {
    let core = core_on(alloc, MemJournal::new(alloc))?;
    let outcome = ended_in_memory(rt, alloc, core, jobs)?;
    let may_be = may_be(&outcome, jobs);
    drop(outcome);
    Ok(may_be)
}

#[test]
fn a_worker_without_memory_leaves_the_jobs_of_the_other(rt: HostRuntime) -> Result<(), Fail> {
    let jobs = insertions(rt.alloc(), EACH)?;
    let is_left = is_left(&rt, rt.alloc(), &jobs)?;
    assert!(rt; is_left);
    Ok(())
}
