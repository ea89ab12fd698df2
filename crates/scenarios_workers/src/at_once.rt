//! Workers that run at once: each is held in turn until the other was answered.

ghost use Rattle.std.specs.Prelude.{◌≡◌};

use crate::cores::{core_on, some};
use crate::gates::{Counter, Meeting, Turnstile};
use crate::listed_jobs::{Wish, insertions, jobs_of};
use journal::{JournalStore, MemJournal};
use mvcc::TxFault;
use primary::PrimaryCore;
use shared::{Line, Origin, Start};
use sockets::{Gate, Job, JobAnswer, Refusal, WorkersFault, are_of_workers, run_workers};
use std::alloc::Global;
use std::marker::Brand;
use std::sync::Wait;
use std::test::Fail;
use std::thread::Threads;

/// What the jobs are answered on this line. `None` if a job is of no worker.
fn run_checked<
    L: Origin + Send + Sync,
    J: JournalStore + Drop + Send,
    R: Threads + Wait + Sync,
    G: Gate + Sync,
>(
    rt: &R,
    alloc: Global,
    line: &Line<L, J, &R>,
    workers: u8,
    jobs: &[Job],
    gate: &G,
) -> Option<Result<Vec<JobAnswer>, WorkersFault>>
    requires { workers ≡ L.workers }
{
    if workers == 0 || !are_of_workers(jobs, workers as usize) {
        return None;
    }
    Some(run_workers(rt, alloc, line, workers, jobs, gate))
}

/// What the jobs are answered on a line of this primary. `None` if there is no line, or a job is of no
/// worker.
fn ran<
    L: Origin + Send + Sync,
    J: JournalStore + Drop + Send,
    R: Threads + Wait + Sync,
    G: Gate + Sync,
>(
    rt: &R,
    alloc: Global,
    core: PrimaryCore<J>,
    start: Start,
    jobs: &[Job],
    gate: &G,
) -> Option<Result<Vec<JobAnswer>, WorkersFault>>
    requires book { start.opened.seen.book ≡ L.book }
    requires schema { core.primary.schema ≡ L.schema }
    requires workers { core.primary.workers ≡ L.workers }
    requires first { core.primary ≡ L.first }
    requires name { start.blank.name ≡ L.name }
    requires parts { start.blank.parts ≡ L.parts }
    requires seats { start.seats ≡ L.seats }
{
    let workers = core.workers();
    let Some(line) = some(Line::<L, J, &R>::new(alloc, rt, core, start)) else {
        return None;
    };
    let answers = run_checked(rt, alloc, &line, workers, jobs, gate);
    drop(line);
    answers
}

/// What the jobs are answered on a new line with so many seats.
fn answered<R: Threads + Wait + Sync, G: Gate + Sync>(
    rt: &R,
    alloc: Global,
    core: PrimaryCore<MemJournal>,
    seats: u8,
    jobs: &[Job],
    gate: &G,
) -> Option<Result<Vec<JobAnswer>, WorkersFault>> {
    if seats == 0 || seats > 2 {
        return None;
    }
    let Ok(start) = Start::new(seats) else {
        return None;
    };
    ran::<Brand, MemJournal, R, G>(rt, alloc, core, start, jobs, gate)
}

/// Whether each of two workers' ten jobs has a ticket while one worker is held, and no turns ran out.
fn is_passed<R: Threads + Wait + Sync>(rt: &R, alloc: Global, held: u8) -> Result<bool, Fail> {
    let jobs = insertions(alloc, 10)?;
    let gate = Turnstile::new(held);
    let are_passed = are_tickets(&answered_on_new(rt, alloc, 2, &jobs, &gate)?, 20);
    Ok(are_passed && gate.was_passed(20))
}

/// What the jobs are answered on a new line with so many seats, if no fault ended them.
fn answered_on_new<R: Threads + Wait + Sync, G: Gate + Sync>(
    rt: &R,
    alloc: Global,
    seats: u8,
    jobs: &[Job],
    gate: &G,
) -> Result<Vec<JobAnswer>, Fail> {
    let core = core_on(alloc, MemJournal::new(alloc))?;
    match answered(rt, alloc, core, seats, jobs, gate) {
        Some(Ok(answers)) => Ok(answers),
        _ => Err("not answered".into()),
    }
}

/// Whether there are so many answers, and each is a ticket.
fn are_tickets(answers: &[JobAnswer], count: usize) -> bool {
    answers.len() == count
        && answers
            .iter()
            .all(|answer| matches!(answer, JobAnswer::Ticket(_)))
}

#[test]
fn worker_0_is_held_until_worker_1_is_answered(rt: HostRuntime) -> Result<(), Fail> {
    assert!(rt; is_passed(&rt, rt.alloc(), 0)?);
    Ok(())
}

#[test]
fn worker_1_is_held_until_worker_0_is_answered(rt: HostRuntime) -> Result<(), Fail> {
    assert!(rt; is_passed(&rt, rt.alloc(), 1)?);
    Ok(())
}

/// Jobs of two workers, who both put in row 5 before one commits it: worker 1 is the first.
const STORY: [(u8, &[Wish]); 6] = [
    (0, &[Wish::Insert(5, 1, 1)]),
    (1, &[Wish::Insert(5, 2, 2)]),
    (0, &[Wish::Insert(6, 3, 3), Wish::Delete(99)]),
    (0, &[Wish::Insert(6, 4, 4), Wish::Set(6, 0, 7)]),
    (0, &[]),
    (0, &[Wish::Set(5, 1, 8), Wish::Delete(6)]),
];

/// What they are answered, in their order.
const TOLD: [JobAnswer; 6] = [
    JobAnswer::Conflict(1),
    JobAnswer::Ticket(1),
    JobAnswer::Refused(Refusal::Change {
        step: 1,
        fault: TxFault::Missing,
    }),
    JobAnswer::Ticket(2),
    JobAnswer::Refused(Refusal::NoChange),
    JobAnswer::Ticket(3),
];

/// Whether the story is answered as it is told.
fn is_told<R: Threads + Wait + Sync>(rt: &R, alloc: Global) -> Result<bool, Fail> {
    let jobs = jobs_of(alloc, &STORY)?;
    let answers = answered_on_new(rt, alloc, 2, &jobs, &Meeting::new())?;
    Ok(answers.as_slice() == TOLD.as_slice())
}

#[test]
fn jobs_are_answered_in_their_order(rt: HostRuntime) -> Result<(), Fail> {
    assert!(rt; is_told(&rt, rt.alloc())?);
    Ok(())
}

/// Whether two workers on a line with one seat are refused before any commit.
fn is_seatless<R: Threads + Wait + Sync>(rt: &R, alloc: Global) -> Result<bool, Fail> {
    let jobs = insertions(alloc, 1)?;
    let gate = Counter::new();
    let is_refused = is_refused(rt, alloc, &jobs, &gate)?;
    Ok(is_refused && gate.counts() == (0, 0))
}

/// Whether the jobs are refused on a new line with one seat.
fn is_refused<R: Threads + Wait + Sync, G: Gate + Sync>(
    rt: &R,
    alloc: Global,
    jobs: &[Job],
    gate: &G,
) -> Result<bool, Fail> {
    let core = core_on(alloc, MemJournal::new(alloc))?;
    let answers = answered(rt, alloc, core, 1, jobs, gate);
    Ok(matches!(answers, Some(Err(WorkersFault::NoSeat))))
}

#[test]
fn no_job_is_begun_if_a_seat_is_missing(rt: HostRuntime) -> Result<(), Fail> {
    assert!(rt; is_seatless(&rt, rt.alloc())?);
    Ok(())
}
