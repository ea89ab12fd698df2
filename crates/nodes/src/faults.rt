//! Why a node ends before its work is done.

ghost use Rattle.std.specs.Prelude.{◌≡◌};

use requests::RequestFault;
use sockets::WorkersFault;
use std::io;

/// Why a node ends before its work is done. Whoever started it says so in its own words.
#[derive(Drop)]
pub enum NodeFault {
    Memory,
    /// The journal failed; the journal itself keeps what the system said.
    Journal,
    /// The input could not be read, or has a line that is none.
    Input(RequestFault),
    /// The output did not take a line.
    Output(io::Error),
    /// The system makes too few threads.
    Threads,
    /// The port failed at a receive; the port itself keeps what the system said.
    Socket,
    /// The clients that the node serves beside its replicas are served no longer, as the system said.
    Clients(io::Error),
    /// What such clients are to be answered does not stand. Nothing of it was sent.
    Unsettled,
    /// The replica is broken.
    Broken,
    /// A line of the input did not read, of which was told, and it or the job or batch that it was in was passed over;
    /// all else was done.
    Slipped,
    /// The turns or the time of a batch are used up.
    Unanswered,
}

/// Why a node ends, one of whose workers has ended so.
pub fn fault_of_worker(fault: WorkersFault) -> NodeFault
    ensures journal { fault ≡ WorkersFault.Journal → result ≡ NodeFault.Journal }
    ensures other { ¬ (fault ≡ WorkersFault.Journal) → result ≡ NodeFault.Memory }
{
    match fault {
        WorkersFault::Journal => NodeFault::Journal,
        _ => NodeFault::Memory,
    }
}
