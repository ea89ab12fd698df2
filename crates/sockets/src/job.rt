//! A job.

ghost use Rattle.std.specs.Prelude.{◌<◌, ◌↔◌, All, IsTrue};

use crate::step::Step;

/// What a worker has to commit: changes that are committed together, and the conditions for that,
/// in their order.
#[derive(Drop)]
pub struct Job {
    /// The worker that does the job, and commits it.
    pub worker: u8,
    pub steps: Vec<Step>,
}

impl Job {
    ghost use Rattle.std.specs.Prelude.{◌≡◌};
    ghost use Rattle.std.specs.List.{list_any};
    ghost use Rattle.sockets.specs.Changes.{is_condition};

    /// Whether one of its steps is a condition. Takes no memory.
    pub fn has_condition(&self) -> bool
        ensures { result ≡ list_any is_condition self.now.steps.items }
    {
        self.steps.iter().any(Step::is_condition)
    }
}

/// Whether each job belongs to one of this many workers. Takes no memory.
pub fn are_of_workers(jobs: &[Job], workers: usize) -> bool
    ensures { IsTrue result ↔ All (λ job. job.worker < workers) jobs.now }
{
    jobs.iter().all(|job| (job.worker as usize) < workers)
}
