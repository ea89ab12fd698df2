//! What a line of threads publishes of the durable list, and the seats that read it without
//! waiting.
//!
//! A `Shown` is what readers see: the versions of a list of commits, with a token of the history
//! that the list is a beginning of. A `Publisher` keeps two copies of it: `push` adds a commit to
//! what will be published, and `publish` shows readers everything that was added, at once. A `Seat`
//! is a reader with a list of its own: contracts see the list of commits that it has seen. Each of
//! its reads enters what is published, takes that list if it is no shorter than the seat's own, and
//! answers from it. No read takes a lock or memory, and no call of a seat waits. `meet` brings two
//! seats to one list. `image` makes the image of the seat's list part by part, and enters what is
//! published for each part anew.
//!
//! Promised, whatever the schedule: a seat's list is one that a journal may be of, so it is legal,
//! and it begins with what it was before the call, even if the call is refused; a snapshot is the
//! length of the new list; an answer and each refusal are those of the definitions on that list, or
//! `Ahead` or `Unread` (`specs/Answers.antt`). An image is that of the tables after the seat's list,
//! which it leaves as it was. `publish` shows everything that was added so far, or
//! changes nothing (`specs/Publishing.antt`). Not promised: that a read enters, or finds the newest
//! list.
//!
//! It uses `history`, `mvcc` and `journal`, and `left_right` for the two copies. If a call fails
//! for lack of memory, its value is unchanged unless the call says otherwise, except that a seat
//! may have seen a longer list.
#![tactic(auto)]

mod answering;
mod faults;
mod line;
mod publisher;
mod seat;
mod shown;

pub use faults::{ImageFault, LineFault};
pub use line::{Line, Published, Sees};
pub use publisher::Publisher;
pub use seat::Seat;
pub use shown::{Publication, Shown};
