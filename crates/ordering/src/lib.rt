//! The merge of the frames of many workers by the numbers of their commits.
//!
//! Each worker's frames are in the order of its commits, and each frame contains its commit's
//! number. `specs/` defines which list of commits the frames of all workers hold together
//! (`Merging.antt`), which frames were cut from the commits between two versions (`Cutting.antt`),
//! and the laws of both (`Laws.antt`). `Inner` only helps proofs.
//!
//! For each commit the merge looks at the next frame of each worker. It never goes back to a frame,
//! and copies each entry once.
//!
//! Promised: `next_commits`, called until it reaches a version, gives the one list of commits that
//! the frames hold, part by part, or `Inconsistent` exactly if they hold none, except that it may run
//! out of memory. `parts_make_the_merge` states that the parts are together that list, and that frames
//! behind a part hold a list only if all do. `one_merge` states that there is no other such list, and
//! that merging the frames that were cut from commits gives these commits back.
//!
//! It uses `intake` for the frames that are kept. If a call fails for lack of memory, its value is
//! unchanged unless the call says otherwise.
#![tactic(auto)]

mod faults;
mod gathering;
mod laws;
mod merging;

pub use faults::OrderFault;
pub use laws::{one_merge, parts_make_the_merge};
pub use merging::next_commits;
