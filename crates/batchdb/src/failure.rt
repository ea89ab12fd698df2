//! Why the program ends before its work is done.

ghost use Rattle.std.specs.Prelude.{◌<◌, ◌≤◌};

use nodes::NodeFault;
use requests::RequestFault;
use std::alloc::Global;
use std::io::Write;

/// What the exit status says where the work is not done.
#[derive(Clone, Copy)]
pub enum Status {
    /// A file, a socket, the journal or memory failed, or the replica is broken.
    Failed,
    /// The words, a script, a schema or the input do not read.
    NotRead,
    /// The turns or the time are used up, and a batch is not answered.
    Unanswered,
}

impl Status {
    /// The number of the exit status.
    pub fn code(self) -> u8
        ensures some { 0 < result }
        ensures most { result ≤ 3 }
    {
        match self {
            Status::Failed => 1,
            Status::NotRead => 2,
            Status::Unanswered => 3,
        }
    }
}

/// Why the program ends before its work is done.
#[derive(Drop)]
pub enum Failure {
    /// What this line says.
    Said { status: Status, line: String },
    Memory,
    /// All was said before.
    Told(Status),
}

impl Failure {
    /// A failure of this status, with its line; without one it is that of being out of memory.
    pub fn new(status: Status, line: Option<String>) -> Failure {
        match line {
            Some(line) => Failure::Said { status, line },
            None => Failure::Memory,
        }
    }

    /// Writes its line, which is lost where it cannot be written, and answers its exit status.
    pub fn tell<E: Write>(&self, errors: &mut E) -> u8
        ensures some { 0 < result }
        ensures most { result ≤ 3 }
    {
        match self {
            Failure::Said { status, line } => {
                let _ = writeln!(errors, "{line}");
                status.code()
            }
            Failure::Memory => {
                let _ = writeln!(errors, "batchdb: out of memory");
                Status::Failed.code()
            }
            Failure::Told(status) => status.code(),
        }
    }
}

/// What is said of a node that ended for such a fault, in this program's words. `Journal` and `Socket` are said where what
/// the system told is at hand.
pub fn failure_of(alloc: Global, fault: NodeFault) -> Failure {
    match fault {
        NodeFault::Memory | NodeFault::Input(RequestFault::Memory) => Failure::Memory,
        NodeFault::Input(RequestFault::Read(error)) => Failure::new(
            Status::Failed,
            format!(in alloc; "batchdb: standard input: {error}").ok(),
        ),
        NodeFault::Input(fault) => Failure::new(
            Status::NotRead,
            format!(in alloc; "batchdb: standard input: {fault}").ok(),
        ),
        NodeFault::Slipped => Failure::Told(Status::NotRead),
        NodeFault::Output(error) => Failure::new(
            Status::Failed,
            format!(in alloc; "batchdb: the output could not be written: {error}").ok(),
        ),
        NodeFault::Threads => Failure::new(
            Status::Failed,
            format!(in alloc; "batchdb: the system makes too few threads").ok(),
        ),
        NodeFault::Clients(error) => Failure::new(
            Status::Failed,
            format!(in alloc; "batchdb: http: {error}").ok(),
        ),
        // Where the journal has not failed, memory was missing.
        NodeFault::Unsettled => Failure::Memory,
        NodeFault::Broken => Failure::new(
            Status::Failed,
            format!(in alloc;
                "batchdb: the replica is broken; start it again with another BOOT"
            ).ok(),
        ),
        NodeFault::Unanswered => Failure::new(
            Status::Unanswered,
            format!(in alloc; "batchdb: no answer").ok(),
        ),
        NodeFault::Journal => {
            Failure::new(
                Status::Failed,
                format!(in alloc; "batchdb: the journal failed").ok(),
            )
        }
        NodeFault::Socket => {
            Failure::new(
                Status::Failed,
                format!(in alloc; "batchdb: the socket failed").ok(),
            )
        }
    }
}
