//! An analytic replica: it collects frames in any order, takes queries in batches, and answers each
//! batch on the rows after exactly the version that it fetched for it. Where that version has a base
//! above its own, it collects the pieces of the base's image in place of the frames below the base.
//!
//! Its state is what it knows: the frames that have arrived from each worker, the pieces that came of
//! one base's image, its tables at one version, the waiting queries, and at most one batch. Its caller
//! gives it the store for its tables, of any kind to which lists of commits can be applied. `specs/`
//! defines what each call answers and leaves (`Steps.antt`), pieces as frames and as commits
//! (`Images.antt`), the report of a batch (`Report.antt`), the text of tables (`TableText.antt`), where
//! frames and pieces are missing (`Gaps.antt`), and when everything that a replica knows belongs to one
//! list of commits (`Feeding.antt`). `plans` defines what a query is, when it fits, and what its answer
//! is. `Inner` only helps proofs.
//!
//! Promised: each call is exact, except that it may run out of memory. `fed_replicas_stay_fed` is
//! about replicas whose arriving datagrams are all true of one legal list of commits: such a
//! replica reports on rows of that list, and its dump is the text of the tables after exactly the
//! commits up to its version.
//!
//! It uses `intake` for the frames and pieces that arrive, `ordering` for the commits that they hold, part
//! by part, `plans` for the answers of queries, `rows` for the text of values, `wire`, and `store`. If a call fails
//! for lack of memory, its value is unchanged unless the call says otherwise.
#![tactic(auto)]

mod batch;
mod counting;
mod faults;
mod gaps;
mod laws;
mod merge;
mod outcome;
mod pieces;
mod replica_core;
mod sending;
mod table_text;

pub use faults::{AskFault, DumpFault, OpenFault};
pub use gaps::Gap;
pub use laws::fed_replicas_stay_fed;
pub use outcome::{Got, Run};
pub use replica_core::ReplicaCore;
