//! What has arrived of the workers' streams: which frames are known, and which are kept.
//!
//! Frames arrive in any order, some twice and some never. A frame is known once it has been stored,
//! and stays known; it is kept until it is dropped. `specs/` defines which seqs are known and which
//! is the first missing one (`Known.antt`), what has arrived from each worker (`State.antt`), what
//! each call answers and leaves (`Steps.antt`), which runs of frames are kept (`Kept.antt`), when
//! everything that has arrived belongs to the streams of one list of commits (`Streams.antt`), and
//! what preserves that (`Laws.antt`). `Inner` only helps proofs.
//!
//! An image of the tables stands for the frames below a base, one for each worker. Some calls take
//! such bases, by worker: what is missing, and how far ahead a frame may be, is then counted from
//! there on, and `gain` makes the frames below them known. A base is any number, and an intake has
//! none of its own: each call is given them. Without bases, as with bases of 0, a call is about all
//! frames.
//!
//! Taking a frame costs a look-up, and a step for each known seq that the first missing one passes;
//! each seq is passed once. With bases this needs `aim`. An intake holds, for each worker, the first
//! missing seq, the known ones above it, and the frames that were not dropped.
//!
//! The pieces of an image are numbered as frames are, so they are collected as the frames of one
//! worker; then `release` hands them out, and `forget` begins anew.
//!
//! Promised: each call is exact, except that it may run out of memory; only `new`, `take` and
//! `take_owned` need memory. `arrivals_stay_of_streams` states that an intake holds frames of a
//! list's streams if only frames of that list arrive, `arrivals_stay_of_a_list` the same of any list
//! of frames, `known_frames_stay_kept` which frames stay known and kept, `frames_are_gained` which
//! become known without arriving, and `first_missing_is_least` which seq is the first missing one.
//!
//! It uses `update_log` for frames. If a call fails for lack of memory, its value is unchanged
//! unless the call says otherwise.
#![tactic(auto)]

mod collector;
mod intake;
mod known_seqs;
mod laws;
mod taken;

pub use intake::Intake;
pub use laws::{
    arrivals_stay_of_a_list, arrivals_stay_of_streams, first_missing_is_least, frames_are_gained,
    known_frames_stay_kept,
};
pub use taken::Taken;
