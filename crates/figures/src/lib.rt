//! What the threads of a node count, for whoever asks how the node does.
//!
//! All threads of a node share its `Figures`, by `&`: each adds to them or sets them, and any may read them at any time.
//! What is read may be of different moments. No figure decides anything.
//!
//! It uses `sockets` for what jobs are answered and for what goes through a port.
#![tactic(auto)]

mod counts;
mod node_figures;
mod replica_figures;

pub use counts::{Datagrams, JobCounts};
pub use node_figures::{Figures, STATUSES};
pub use replica_figures::LastTold;
