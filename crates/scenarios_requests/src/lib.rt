//! Scenarios of `requests`, by its public calls: jobs and batches of lines, however the lines arrive,
//! what comes after a line that does not read, and at which word it does not.
#![tactic(auto)]

#[cfg(test)]
mod batches;
#[cfg(test)]
mod failures;
#[cfg(test)]
mod jobs;
#[cfg(test)]
mod long_lines;
#[cfg(test)]
mod misread_lines;
#[cfg(test)]
mod misread_schemas;
#[cfg(test)]
mod pauses;
#[cfg(test)]
mod pieces;
#[cfg(test)]
mod readers;
#[cfg(test)]
mod slips;
#[cfg(test)]
mod transcripts;
