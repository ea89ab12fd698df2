//! Scenarios of `update_log`, `wire`, `intake` and `ordering`, by their public calls: how commits are cut
//! into frames, datagrams, known frames, merges.
#![tactic(auto)]

#[cfg(test)]
mod bases;
#[cfg(test)]
mod cuts;
#[cfg(test)]
mod datagrams;
#[cfg(test)]
mod intake_steps;
#[cfg(test)]
mod merges;
