//! Jobs of one worker alone, on a new line.

use crate::cores::core_on;
use crate::crews::{Outcome, ended_in_memory};
use journal::{JournalStore, MemJournal};
use sockets::{Job, JobAnswer};
use std::alloc::Global;
use std::sync::Wait;
use std::test::Fail;
use std::thread::Threads;

/// What these jobs are answered on a new line of a new primary.
pub fn answered_alone<R: Threads + Wait + Sync>(
    rt: &R,
    alloc: Global,
    jobs: &[Job],
) -> Result<Vec<JobAnswer>, Fail> {
    let core = core_on(alloc, MemJournal::new(alloc))?;
    let outcome = ended_in_memory(rt, alloc, core, jobs)?;
    answers_of(outcome)
}

/// What the jobs were answered, if no fault ended a worker.
pub fn answers_of<J: JournalStore + Drop>(outcome: Outcome<J>) -> Result<Vec<JobAnswer>, Fail> {
    let Outcome { core, result, done } = outcome;
    drop(core);
    drop(done);
    match result {
        Ok(answers) => Ok(answers),
        Err(_) => Err("a fault".into()),
    }
}
