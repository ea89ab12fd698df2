//! What scenarios of queries share: plans that are wished for, and plain answers by another way. No
//! test stands here.
#![tactic(auto)]

pub mod plain_queries;
pub mod wishes;
