//! The update log: a commit of any size is cut into frames, and the frames of a worker's commits
//! are its stream; an image of the tables is cut into pieces.
//!
//! A frame holds entries of one commit, a piece entries of one image, and each fits in one datagram
//! of at most 1200 bytes. `specs/` defines the parts into which entries are cut (`Parts.antt`: what
//! they are, and the function that computes them), the frames of a commit (`Frames.antt`), a
//! worker's stream and its frame counts (`Streams.antt`), and the laws of cutting and of streams
//! (`Laws.antt`).
//!
//! Promised: `cut` answers the frames of a commit, each of which a datagram can spell. `Streams`
//! are the streams of a list of commits that grows by one commit at a time. `extend` adds a
//! commit's frames or changes no stream; in two steps, `reserve` takes all the memory for that and
//! `add` needs none. For each frame the streams keep which of the commit's entries it has, not the
//! entries themselves: the caller keeps the commits, and `frame` lends a frame out of them. `count`
//! and `frame` take no memory. `one_cut` states that there is exactly one way to cut a commit, and
//! `pieces_are_cut` the same of an image, whose pieces `piece_len` measures. `streams_go_on` states
//! that a stream goes on with the frames that later commits have alone, shifted; so streams of the
//! later commits are enough to answer for these.
//!
//! It uses `rows` for entries and commits. If a call fails for lack of memory, its value is
//! unchanged unless the call says otherwise.
#![tactic(auto)]

mod cutting;
mod frame;
mod frame_ref;
mod laws;
pub mod limits;
mod next_frames;
mod span;
mod stream;
mod streams;
mod worked;

pub use cutting::{cut, part_count, piece_len};
pub use frame::Frame;
pub use frame_ref::FrameRef;
pub use laws::{one_cut, pieces_are_cut, streams_go_on};
pub use next_frames::NextFrames;
pub use streams::Streams;
pub use worked::worked_cuts;
