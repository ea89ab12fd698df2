//! Scenarios of workers of `sockets`, by its public calls: what the jobs of workers in threads are answered, and what
//! of them a journal keeps.
#![tactic(auto)]

#[cfg(test)]
mod alone;
#[cfg(test)]
mod at_once;
#[cfg(test)]
mod conditions;
#[cfg(test)]
mod cores;
#[cfg(test)]
mod crews;
#[cfg(test)]
mod failing;
#[cfg(test)]
mod gates;
#[cfg(test)]
mod job_seats;
#[cfg(test)]
mod listed_jobs;
#[cfg(test)]
mod refused_memory;
#[cfg(test)]
mod sharing;
