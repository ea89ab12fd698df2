//! Jobs on their way from the input to their worker.

ghost use Rattle.std.specs.Prelude.{◌≡◌, map, IfOk};
ghost use Rattle.nodes.specs.Lines.{job_in, place_in};

use sockets::Job;
use std::alloc::{AllocError, Global};

/// Where a job stands: its number among all jobs, from 0, and the lines of the input on which it and its steps are.
#[derive(Drop)]
pub struct Place {
    pub number: u64,
    /// The line on which it begins.
    pub line: u64,
    /// The line of each step.
    pub step_lines: Vec<u64>,
}

/// A job that waits for its worker.
#[derive(Drop)]
pub struct Waiting {
    pub job: Job,
    pub place: Place,
}

/// Jobs that were taken together, and their places, in the same order.
#[derive(Drop)]
pub struct Taken {
    pub jobs: Vec<Job>,
    pub places: Vec<Place>,
}

/// These jobs, and their places beside them. Fails only if out of memory.
pub fn parted(alloc: Global, waiting: Vec<Waiting>) -> Result<Taken, AllocError>
    ensures { IfOk result (λ taken. (taken.jobs.items ≡ map job_in waiting.items)
        × (taken.places.items ≡ map place_in waiting.items)) }
{
    let mut jobs = Vec::new(alloc);
    let mut places = Vec::new(alloc);
    for Waiting { job, place } in waiting {
        jobs.push(job)?;
        places.push(place)?;
    }
    Ok(Taken { jobs, places })
}
