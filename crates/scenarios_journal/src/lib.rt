//! Scenarios of `journal`, by its public calls: what bytes keep, stores of them in memory and in
//! files, and what is left where a call of a device fails.
#![tactic(auto)]

#[cfg(test)]
mod failing_disk;
#[cfg(test)]
mod failing_files;
#[cfg(test)]
mod journal_bytes;
#[cfg(test)]
mod journal_files;
#[cfg(test)]
mod journal_stores;
#[cfg(test)]
mod long_journals;
#[cfg(test)]
mod old_journals;
