//! Scenarios of `rows` and `store`, by their public calls: schemas, entries, values, plain stores.
#![tactic(auto)]

#[cfg(test)]
mod entries;
#[cfg(test)]
mod row_values;
#[cfg(test)]
mod schemas;
#[cfg(test)]
mod stores;
