//! Scenarios of a line on a journal in a real file: commits that many threads make durable, each by
//! itself, alone and beside readers. What they take is printed, and `bench/commits` reads it.
#![tactic(auto)]

#[cfg(test)]
mod committing;
#[cfg(test)]
mod tellers;
