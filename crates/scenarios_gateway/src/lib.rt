//! Scenarios of `gateway`, by its public calls: what a primary answers to requests, round by round.
#![tactic(auto)]

#[cfg(test)]
mod desks;
#[cfg(test)]
mod failing;
#[cfg(test)]
mod failures;
#[cfg(test)]
mod jobs;
#[cfg(test)]
mod node_reports;
