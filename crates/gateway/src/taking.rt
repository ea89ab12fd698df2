//! Jobs that are taken at a seat, one after the other.

ghost use Rattle.std.specs.Prelude.{◌≡◌, ◌<◌, [], All, length};
ghost use Rattle.rows.specs.Shape.{shape_of};
ghost use Rattle.gateway.specs.Inner.Taking.{HasTaken};

use journal::JournalStore;
use shared::{Line, Origin};
use sockets::{Job, JobAnswer, JobSeat, OpenGate, WorkersFault};
use std::alloc::Global;
use std::sync::Wait;

/// How far jobs were taken.
#[derive(Clone, Copy)]
pub(crate) enum Taken {
    /// All are.
    All,
    /// Up to one that a fault ended.
    Failed(WorkersFault),
    /// A fault took back what jobs of before were told.
    Lost(WorkersFault),
}

/// Takes these jobs in their order, up to the first that a fault ends. What each is answered goes to `told`,
/// in room that is there. It may wait.
pub(crate) fn take_each<L: Origin, J: JournalStore + Drop, H: Wait + Drop, T: Wait>(
    rt: &T,
    alloc: Global,
    line: &Line<L, J, H>,
    job_seat: &mut JobSeat<L>,
    jobs: &[Job],
    told: &mut Vec<JobAnswer>,
) -> Taken
    requires workers { All (λ job. job.worker < L.workers) jobs.now }
    requires none { told.old.items ≡ [] }
    ensures { HasTaken L.workers (shape_of L.schema) jobs.now job_seat.old job_seat.new told.new.items result }
{
    for (index, job) in jobs.iter().enumerate() {
        let before = job_seat.taken();
        if told.reserve(1).is_err() {
            return Taken::Failed(WorkersFault::Memory);
        }
        match job_seat.takes(rt, alloc, line, index, job, &OpenGate) {
            Ok(answer) => told.push_reserved(answer),
            Err(fault) => {
                return if job_seat.taken() < before {
                    Taken::Lost(fault)
                } else {
                    Taken::Failed(fault)
                };
            }
        }
    }
    Taken::All
}
