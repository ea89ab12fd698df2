//! Crews of two workers, and what is left once they have ended.

ghost use Rattle.std.specs.Prelude.{◌≡◌};

use crate::cores::{WORKERS, is_done, some};
use journal::{JournalStore, MemJournal};
use primary::PrimaryCore;
use scenarios_journal_common::failing_journal::FailingJournal;
use shared::{Line, Origin, Seat, Start};
use sockets::{Gate, Job, JobAnswer, OpenGate, Worker, WorkersFault, are_of_workers, run_crew};
use std::alloc::Global;
use std::marker::Brand;
use std::sync::Wait;
use std::test::Fail;
use std::thread::Threads;

/// How far a worker came.
#[derive(Drop)]
pub struct Done {
    pub answers: Vec<JobAnswer>,
    pub fault: Option<WorkersFault>,
}

/// What is left once all workers have ended.
#[derive(Drop)]
pub struct Outcome<J: JournalStore + Drop> {
    pub core: PrimaryCore<J>,
    /// What the run was answered.
    pub result: Result<Vec<JobAnswer>, WorkersFault>,
    /// How far each worker came.
    pub done: Vec<Done>,
}

/// Two workers, each at a seat of the line.
fn crew_of<L: Origin, J: JournalStore, R: Wait + Drop, W: Wait>(
    rt: &W,
    alloc: Global,
    line: &Line<L, J, R>,
) -> Option<Vec<Worker<L>>> {
    let mut crew = Vec::new(alloc);
    for _ in 0..WORKERS {
        if !has_joined(rt, alloc, line, &mut crew) {
            return None;
        }
    }
    Some(crew)
}

/// Has one worker more join, at a seat of the line. Whether there was a seat, and memory.
fn has_joined<L: Origin, J: JournalStore, R: Wait + Drop, W: Wait>(
    rt: &W,
    alloc: Global,
    line: &Line<L, J, R>,
    crew: &mut Vec<Worker<L>>,
) -> bool {
    match line.seat(rt) {
        Some(seat) => is_done(crew.push(Worker::new(alloc, seat))),
        None => false,
    }
}

/// The seats of the workers, and how far each came.
fn parted<L: Origin>(alloc: Global, crew: Vec<Worker<L>>) -> Option<(Vec<Seat<L>>, Vec<Done>)> {
    let mut seats = Vec::new(alloc);
    let mut done = Vec::new(alloc);
    for worker in crew {
        if !is_parted(alloc, worker, &mut seats, &mut done) {
            return None;
        }
    }
    Some((seats, done))
}

/// Notes how far a worker came, and leaves its seat. Whether there is memory for both.
fn is_parted<L: Origin>(
    alloc: Global,
    worker: Worker<L>,
    seats: &mut Vec<Seat<L>>,
    done: &mut Vec<Done>,
) -> bool {
    is_noted(alloc, &worker, done) && is_done(seats.push(worker.into_seat()))
}

/// Notes how far a worker came. Whether there is memory for it.
fn is_noted<L: Origin>(alloc: Global, worker: &Worker<L>, done: &mut Vec<Done>) -> bool {
    let Ok(answers) = worker.answers().to_vec(alloc) else {
        return false;
    };
    let fault = worker.fault();
    done.push(Done { answers, fault }).is_ok()
}

/// What a crew answers to these jobs. `None` if a job is of no worker of it, or it is too large.
fn ran<
    L: Origin + Send + Sync,
    J: JournalStore + Drop + Send,
    R: Threads + Wait + Sync,
    G: Gate + Sync,
>(
    rt: &R,
    alloc: Global,
    line: &Line<L, J, &R>,
    crew: &mut [Worker<L>],
    workers: u8,
    jobs: &[Job],
    gate: &G,
) -> Option<Result<Vec<JobAnswer>, WorkersFault>>
    requires { workers ≡ L.workers }
{
    let count = crew.len();
    if count > workers as usize || !are_of_workers(jobs, count) {
        return None;
    }
    Some(run_crew(rt, alloc, line, crew, jobs, gate))
}

/// What is left once two workers have done these jobs on a line of this primary. `None` if it is out of
/// memory before or after, or a job is of no worker.
fn ended<
    L: Origin + Send + Sync,
    J: JournalStore + Drop + Send,
    R: Threads + Wait + Sync,
    G: Gate + Sync,
>(
    rt: &R,
    alloc: Global,
    core: PrimaryCore<J>,
    start: Start,
    jobs: &[Job],
    gate: &G,
) -> Option<Outcome<J>>
    requires book { start.opened.seen.book ≡ L.book }
    requires schema { core.primary.schema ≡ L.schema }
    requires workers { core.primary.workers ≡ L.workers }
    requires first { core.primary ≡ L.first }
    requires name { start.blank.name ≡ L.name }
    requires parts { start.blank.parts ≡ L.parts }
    requires seats { start.seats ≡ L.seats }
    requires whole { L.parts ≡ L.seats }
{
    let workers = core.workers();
    let Some(line) = some(Line::<L, J, &R>::new(alloc, rt, core, start)) else {
        return None;
    };
    match ran_by_crew(rt, alloc, &line, workers, jobs, gate) {
        Some(run) => left(line, run),
        None => {
            drop(line);
            None
        }
    }
}

/// What a run was answered, the seats of its workers, and how far each came.
type Run<L> = (
    Result<Vec<JobAnswer>, WorkersFault>,
    Vec<Seat<L>>,
    Vec<Done>,
);

/// What two workers come to who do these jobs on this line.
fn ran_by_crew<
    L: Origin + Send + Sync,
    J: JournalStore + Drop + Send,
    R: Threads + Wait + Sync,
    G: Gate + Sync,
>(
    rt: &R,
    alloc: Global,
    line: &Line<L, J, &R>,
    workers: u8,
    jobs: &[Job],
    gate: &G,
) -> Option<Run<L>>
    requires { workers ≡ L.workers }
{
    let Some(mut crew) = crew_of(rt, alloc, line) else {
        return None;
    };
    match ran(rt, alloc, line, &mut crew, workers, jobs, gate) {
        Some(result) => run_of(alloc, crew, result),
        None => None,
    }
}

/// What a crew came to whose run was answered so.
fn run_of<L: Origin>(
    alloc: Global,
    crew: Vec<Worker<L>>,
    answered: Result<Vec<JobAnswer>, WorkersFault>,
) -> Option<Run<L>> {
    match parted(alloc, crew) {
        Some((seats, done)) => Some((answered, seats, done)),
        None => None,
    }
}

/// What is left of a line behind a run.
fn left<L: Origin, J: JournalStore + Drop, R: Wait + Drop>(
    line: Line<L, J, R>,
    run: Run<L>,
) -> Option<Outcome<J>>
    requires { L.parts ≡ L.seats }
{
    let (result, seats, done) = run;
    match some(line.end(seats)) {
        Some(core) => Some(Outcome { core, result, done }),
        None => None,
    }
}

/// What is left once two workers have done these jobs on a new line of this primary, whose journal is in
/// memory.
pub fn ended_in_memory<R: Threads + Wait + Sync>(
    rt: &R,
    alloc: Global,
    core: PrimaryCore<MemJournal>,
    jobs: &[Job],
) -> Result<Outcome<MemJournal>, Fail> {
    match Start::new(WORKERS) {
        Ok(start) => {
            let outcome = ended::<Brand, MemJournal, _, _>(rt, alloc, core, start, jobs, &OpenGate);
            found(outcome, "out of memory")
        }
        Err(_) => Err("start".into()),
    }
}

/// What was found, or why nothing was.
fn found<T: Drop>(value: Option<T>, why: &'static str) -> Result<T, Fail> {
    match value {
        Some(value) => Ok(value),
        None => Err(why.into()),
    }
}

/// The same on a journal that fails at one of its calls.
pub fn ended_on_failing<R: Threads + Wait + Sync>(
    rt: &R,
    alloc: Global,
    core: PrimaryCore<FailingJournal>,
    jobs: &[Job],
) -> Result<Outcome<FailingJournal>, Fail> {
    match Start::new(WORKERS) {
        Ok(start) => {
            let outcome = ended::<Brand, FailingJournal, _, _>(
                rt, alloc, core, start, jobs, &OpenGate,
            );
            found(outcome, "ended")
        }
        Err(_) => Err("start".into()),
    }
}
