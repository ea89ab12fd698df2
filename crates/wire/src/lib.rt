//! Datagrams between a primary and its replicas, to the byte.
//!
//! There are six kinds. A Frame carries entries of one commit from the primary; an Ask asks the
//! primary for the newest durable version; a Head answers an Ask; a Want asks for missing frames. A
//! Piece carries entries of an image of the tables at one version, and a Pull asks for missing
//! pieces. `specs/` defines their one spelling (`Spelling.antt`), what bytes are read as, with the
//! first fault (`Reading.antt`), and the laws of the format (`Laws.antt`).
//!
//! Promised: `read` answers the datagram that the bytes spell, lending its parts, and reads exactly
//! what is spelled. `write`, `write_frame` and `write_piece` write the one spelling, or report that
//! the buffer is too small. None of them takes memory. `one_spelling` states that different
//! datagrams have different spellings, and that no spelling is the beginning of another.
//!
//! It uses `rows` for entries, `update_log` for frames and `byteorder` for numbers.
#![tactic(auto)]

mod counts;
mod datagram;
mod faults;
mod fronts;
mod head;
mod kinds;
mod laws;
mod lengths;
mod lent_entries;
mod out;
mod packet;
mod reading;
mod writing;

pub use counts::Counts;
pub use datagram::Datagram;
pub use faults::{TooSmall, WireFault};
pub use head::Head;
pub use laws::one_spelling;
pub use lengths::ASK_LEN;
pub use lent_entries::LentEntries;
pub use out::{Out, To};
pub use packet::Packet;
pub use reading::read;
pub use writing::{write, write_frame, write_piece};
