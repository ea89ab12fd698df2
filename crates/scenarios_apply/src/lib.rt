//! Scenarios of `apply`, by its public calls: rows in blocks of columns, and in partitions.
#![tactic(auto)]

#[cfg(test)]
mod applying;
#[cfg(test)]
mod blocks;
#[cfg(test)]
mod column_stores;
#[cfg(test)]
mod column_values;
#[cfg(test)]
mod lending;
#[cfg(test)]
mod pieces;
