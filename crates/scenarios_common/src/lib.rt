//! What the crates of scenarios share: tables and entries that are wanted of them, datagrams byte by
//! byte, numbers drawn from a seed, and paths of files. No test stands here.
#![tactic(auto)]

pub mod drawn_numbers;
pub mod files;
pub mod wanted;
pub mod worker_datagrams;
