//! Scenarios of `plans` and `queries`, by their public calls: answers, which plans fit, drawn queries, ranges,
//! how often a store is asked.
#![tactic(auto)]

#[cfg(test)]
mod answers;
#[cfg(test)]
mod counted_store;
#[cfg(test)]
mod drawn_queries;
#[cfg(test)]
mod ranges;
#[cfg(test)]
mod reports;
#[cfg(test)]
mod scans;
