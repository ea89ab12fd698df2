//! Scenarios of `reports`, by its public calls: the parts of a report, its JSON, and bytes that are none.
#![tactic(auto)]

#[cfg(test)]
mod answered;
#[cfg(test)]
mod parts;
