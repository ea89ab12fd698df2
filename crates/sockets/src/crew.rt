//! Workers that commit concurrently, one thread each.

ghost use Rattle.std.specs.Prelude.{◌≡◌, ◌⊎◌, ◌<◌, ◌≤◌, List, length, All, IfOk, IfErr, vec_len};
ghost use mathlib.Core.List.{IsPrefix};
ghost use Rattle.rows.specs.declared.commit.Commit.{Commit};
ghost use Rattle.rows.specs.Shape.{shape_of};
ghost use Rattle.sockets.specs.Crews.{EachWorked, EachHasAnswered, FirstHasSeenAll, IsFirstFault, AreAnswered, first_list};
ghost use Rattle.sockets.specs.Work.{HasWorked};

use crate::ending::{first_fault, in_job_order, meet_all, zeros};
use crate::faults::WorkersFault;
use crate::gate::Gate;
use crate::job::Job;
use crate::job_answer::JobAnswer;
use crate::worker::Worker;
use journal::JournalStore;
use shared::{Line, Origin};
use std::alloc::Global;
use std::sync::Wait;
use std::thread;
use std::thread::Threads;

/// Lets this many workers do their jobs, each in a thread of its own and at a seat that the line
/// gives out for it, and answers all jobs in their order. Each job's worker has to be below that
/// number (`are_of_workers` tests this), and the number may not exceed that of the primary's
/// workers. It may wait. The seats are used up, so the line can no longer be ended; a caller that
/// keeps the seats hands a crew to `run_crew`.
///
/// Fails with the first of these: `Journal`, the journal failed for a worker; `Memory`, a worker
/// was out of memory, or there was none before any job was begun; `NoSeat`, the line has fewer
/// seats left than there are workers: no job was begun, and the remaining seats are used up. A
/// worker that ends by a fault leaves its further jobs undone, and the other workers do theirs;
/// which of them are committed is not reported.
pub fn run_workers<
    L: Origin + Send + Sync,
    J: JournalStore + Drop + Send,
    H: Wait + Drop + Send,
    R: Threads + Wait + Sync,
    G: Gate + Sync,
>(
    rt: &R,
    alloc: Global,
    line: &Line<L, J, H>,
    workers: u8,
    jobs: &[Job],
    gate: &G,
) -> Result<Vec<JobAnswer>, WorkersFault>
    requires some { 0 < workers }
    requires few { workers ≤ L.workers }
    requires there { All (λ job. job.worker < workers) jobs.now }
    ensures { IfOk result (λ answers. (list : List Commit)
        × AreAnswered L.workers (shape_of L.schema) L.first.durable list jobs.now answers.items) }
{
    let mut crew = crew_of(rt, alloc, line, workers)?;
    run_crew(rt, alloc, line, &mut crew, jobs, gate)
}

/// This many workers, each at a seat that was not given out before.
fn crew_of<L: Origin, J: JournalStore, H: Wait + Drop, W: Wait>(
    rt: &W,
    alloc: Global,
    line: &Line<L, J, H>,
    workers: u8,
) -> Result<Vec<Worker<L>>, WorkersFault>
    ensures count { IfOk result (λ crew. vec_len crew ≡ workers) }
    ensures new { IfOk result (λ crew. All (λ worker. worker.seat.list ≡ L.first.durable) crew.items) }
    ensures fault { IfErr result (λ fault. ¬ (fault ≡ WorkersFault.Journal)) }
{
    let Ok(mut crew) = Vec::with_capacity(alloc, workers as usize) else {
        return Err(WorkersFault::Memory);
    };
    for _ in 0..workers {
        match line.seat(rt) {
            Some(seat) => crew.push_reserved(Worker::new(alloc, seat)),
            None => return Err(WorkersFault::NoSeat),
        }
    }
    Ok(crew)
}

/// Lets each worker of a crew do its jobs in a thread of its own, and answers all jobs in their
/// order. A worker's number is its place in the crew; each job has to be of one of them
/// (`are_of_workers` tests this), and there may be no more of them than the primary has workers.
/// When all jobs are done, all their seats meet. It may wait. If no thread can be made, the workers
/// run one after the other.
///
/// Fails with the first of these: `Journal`, the journal failed for a worker; `Memory`, a worker
/// was out of memory, or there was none before any job was begun, and then the crew is unchanged. A
/// worker that ends by a fault leaves its further jobs undone, and the other workers do theirs. The
/// workers keep what each answered before. `NoSeat` never occurs.
pub fn run_crew<
    L: Origin + Send + Sync,
    J: JournalStore + Drop + Send,
    H: Wait + Drop + Send,
    R: Threads + Wait + Sync,
    G: Gate + Sync,
>(
    rt: &R,
    alloc: Global,
    line: &Line<L, J, H>,
    crew: &mut [Worker<L>],
    jobs: &[Job],
    gate: &G,
) -> Result<Vec<JobAnswer>, WorkersFault>
    requires few { length crew.old ≤ L.workers }
    requires there { All (λ job. job.worker < length crew.old) jobs.now }
    ensures worked { ((result ≡ Err WorkersFault.Memory) × (crew.new ≡ crew.old))
        ⊎ EachWorked L.workers (shape_of L.schema) jobs.now crew.old crew.new }
    ensures answered { IfOk result (λ answers. (first : List Commit) → All (λ worker. IsPrefix first worker.seat.list) crew.old
        → 0 < length crew.old
        → AreAnswered L.workers (shape_of L.schema) first (first_list crew.new) jobs.now answers.items) }
    ensures each { IfOk result (λ answers. EachHasAnswered jobs.now crew.new answers.items) }
    ensures seen { IfOk result (λ answers. FirstHasSeenAll crew.new) }
    ensures refused { IfErr result (λ fault. ((fault ≡ WorkersFault.Memory) × (crew.new ≡ crew.old)) ⊎ IsFirstFault crew.new fault) }
{
    let Ok(answers) = Vec::with_capacity(alloc, jobs.len()) else {
        return Err(WorkersFault::Memory);
    };
    let Ok(next) = zeros(alloc, crew.len()) else {
        return Err(WorkersFault::Memory);
    };
    work_at_once(rt, alloc, line, crew, jobs, gate);
    meet_all(crew);
    match first_fault(crew) {
        Some(fault) => Err(fault),
        None => Ok(in_job_order(crew, jobs, next, answers)),
    }
}

/// Lets each worker do its jobs in a thread of its own.
fn work_at_once<
    L: Origin + Send + Sync,
    J: JournalStore + Drop + Send,
    H: Wait + Drop + Send,
    R: Threads + Wait + Sync,
    G: Gate + Sync,
>(rt: &R, alloc: Global, line: &Line<L, J, H>, crew: &mut [Worker<L>], jobs: &[Job], gate: &G)
    requires { length crew.old ≤ L.workers }
    ensures { EachWorked L.workers (shape_of L.schema) jobs.now crew.old crew.new }
{
    let threads = crew.len().max(1);
    thread::for_each_mut(
        rt,
        crew,
        threads,
        &|number: usize, worker: &mut Worker<L>|
            requires { number < L.workers }
            ensures { HasWorked L.workers (shape_of L.schema) number jobs.entry.now worker.old worker.new }
        { worker.works(rt, alloc, line, number, jobs, gate) },
    );
}
