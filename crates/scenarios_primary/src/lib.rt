//! Scenarios of `mvcc` and `primary`, by their public calls: versions, transactions, commits, starts,
//! streams.
#![tactic(auto)]

#[cfg(test)]
mod accounts;
#[cfg(test)]
mod bases;
#[cfg(test)]
mod commits;
#[cfg(test)]
mod images;
#[cfg(test)]
mod lending;
#[cfg(test)]
mod many_rows;
#[cfg(test)]
mod old_journals;
#[cfg(test)]
mod primary_starts;
#[cfg(test)]
mod primary_steps;
#[cfg(test)]
mod streams;
#[cfg(test)]
mod transactions;
#[cfg(test)]
mod versions;
