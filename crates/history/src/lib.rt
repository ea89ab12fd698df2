//! A list of commits that only grows, of which many threads know prefixes.
//!
//! A history is a log in memory that exists in proofs alone; at run time it is one word. `Opened`
//! is a new history. Its one `Keeper` knows all of it and adds commits; nobody else can add, so
//! adding cannot fail. A `Front` is a beginning of it: any thread may copy one, and of two fronts
//! the shorter is a beginning of the longer. What a keeper shows to others is a token without bytes
//! (`SeenHistory`), which is part of whatever is published; a front is made from it.
//!
//! Promised, whatever the schedule: the keeper's list grows by exactly the commit that is added;
//! each front of the history is a beginning of it (`confirm`); a front that follows or meets
//! another begins with what it was. A keeper and the fronts of its history share one name
//! (`Naming`).
//!
//! It uses `rows`, and `logbook` for the log. No call waits or takes memory.
#![tactic(auto)]

mod front;
mod keeper;
mod law;
mod naming;
mod opened;
mod pens;
mod stamp;
mod steps;

pub use front::Front;
pub use keeper::Keeper;
pub use law::{Law, SeenHistory};
pub use naming::Naming;
pub use opened::Opened;
pub use stamp::Stamp;
