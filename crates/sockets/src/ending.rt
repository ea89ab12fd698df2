//! What is done after all workers of a crew have ended.

ghost use Rattle.std.specs.Prelude.{◌≡◌, ◌<◌, ◌≤◌, [], length, All, IfOk, MatchBool, MatchOption, vec_capacity, replicate};
ghost use Rattle.std.specs.List.{Any};
ghost use mathlib.Core.List.{IsPrefix};
ghost use Rattle.rows.specs.Shape.{shape_of};
ghost use Rattle.journal.specs.Recovery.{IsJournaled};
ghost use Rattle.sockets.specs.Crews.{EachHasAnswered, FirstHasSeenAll, IsFirstFault};
ghost use Rattle.sockets.specs.Inner.Jobs.{HasMet, EachMet, EachIsDone};

use crate::faults::WorkersFault;
use crate::job::Job;
use crate::job_answer::JobAnswer;
use crate::worker::Worker;
use shared::Origin;
use std::alloc::{AllocError, Global};

/// Lets all seats meet: the first has then seen everything that any of them has seen.
pub(crate) fn meet_all<L: Origin>(crew: &mut [Worker<L>])
    requires { All (λ worker. IsJournaled L.workers (shape_of L.schema) worker.seat.list) crew.old }
    ensures met { EachMet L.workers (shape_of L.schema) crew.old crew.new }
    ensures seen { FirstHasSeenAll crew.new }
{
    if crew.is_empty() {
        return;
    }
    let (front, others) = crew.split_at_mut(1);
    meet_first(&mut front[0], others);
}

/// Lets the first worker's seat meet each of the others.
fn meet_first<L: Origin>(first: &mut Worker<L>, others: &mut [Worker<L>])
    requires { IsJournaled L.workers (shape_of L.schema) first.old.seat.list }
    ensures first { HasMet L.workers (shape_of L.schema) first.old first.new }
    ensures met { EachMet L.workers (shape_of L.schema) others.old others.new }
    ensures seen { All (λ worker. IsPrefix worker.seat.list first.new.seat.list) others.new }
{
    for other in others {
        first.meets(other);
    }
}

/// Why workers ended: the first in the order of the faults.
pub(crate) fn first_fault<L: Origin>(crew: &[Worker<L>]) -> Option<WorkersFault>
    requires { All (λ worker. ¬ (worker.fault ≡ Some WorkersFault.NoSeat)) crew.now }
    ensures { MatchOption result (All (λ worker. worker.fault ≡ None) crew.now) (IsFirstFault crew.now) }
{
    if is_ended_by(crew, WorkersFault::Journal) {
        Some(WorkersFault::Journal)
    } else if is_ended_by(crew, WorkersFault::Memory) {
        Some(WorkersFault::Memory)
    } else {
        None
    }
}

/// Whether a worker ended by this fault.
fn is_ended_by<L: Origin>(crew: &[Worker<L>], fault: WorkersFault) -> bool
    ensures { MatchBool result (Any (λ worker. worker.fault ≡ Some fault) crew.now)
        (All (λ worker. ¬ (worker.fault ≡ Some fault)) crew.now) }
{
    crew.iter().any(|worker| worker.fault() == Some(fault))
}

/// This many zeros. Fails only if out of memory.
pub(crate) fn zeros(alloc: Global, count: usize) -> Result<Vec<usize>, AllocError>
    ensures { IfOk result (λ zeros. zeros.items ≡ replicate count 0) }
{
    Vec::from_elem(alloc, 0, count)
}

/// The answers of all jobs, in their order: that of each job is the next one of its worker.
pub(crate) fn in_job_order<L: Origin>(
    crew: &[Worker<L>],
    jobs: &[Job],
    next: Vec<usize>,
    answers: Vec<JobAnswer>,
) -> Vec<JobAnswer>
    requires there { All (λ job. job.worker < length crew.now) jobs.now }
    requires whole { EachIsDone jobs.now crew.now }
    requires next { next.items ≡ replicate (length crew.now) 0 }
    requires none { answers.items ≡ [] }
    requires room { length jobs.now ≤ vec_capacity answers }
    ensures count { length result.items ≡ length jobs.now }
    ensures each { EachHasAnswered jobs.now crew.now result.items }
{
    let mut next = next;
    let mut answers = answers;
    for job in jobs {
        let worker = job.worker as usize;
        let index = next[worker];
        answers.push_reserved(crew[worker].answers()[index]);
        next[worker] = index + 1;
    }
    answers
}
