//! Scenarios of `queue`, by its public calls: what a queue gives back and in which batches, and many
//! threads at once.
#![tactic(auto)]

#[cfg(test)]
mod batches;
#[cfg(test)]
mod numbered_plans;
#[cfg(test)]
mod threads;
