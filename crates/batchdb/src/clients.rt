//! Clients of nodes over HTTP.

ghost use Rattle.std.specs.Prelude.{◌≡◌, [], All, IfOk};
ghost use Rattle.hex.specs.Hex.{encode_lower};
ghost use Rattle.std.specs.String.{string_bytes};
ghost use Rattle.sha2.specs.Sha256.{sha256};

use crate::failure::Failure;
use crate::files::refused;
use crate::listening::bind_failure;
use crate::program::VERSION;
use figures::Figures;
use gateway::{
    JobDesk, Listening, NodeFacts, QueryListening, ServingFault, WorkerCount, serve_jobs,
};
use journal::FileJournal;
use nodes::{Host, NodeFault, Primary, Streams, Work};
use sha2::{Digest, Sha256};
use shared::{Line, Origin, Seat};
use sockets::UdpPort;
use std::alloc::{AllocError, Global};
use std::fs::File;
use std::io::{self, Read, Write};
use std::net::{Net, SocketAddr};
use std::random::RandomSource;
use std::rt::{Clock, Files};
use std::sync::Wait;
use std::sync::atomic::AtomicBool;
use std::thread::Threads;

/// What clients of a primary are served with, besides a line.
#[derive(Drop)]
pub struct JobClients {
    listening: Listening,
    /// The digest of the schema file.
    digest: String,
    /// The journal's file, of which the length is told.
    journal: File,
}

/// The seats at which clients of a primary are served.
#[derive(Drop)]
pub struct DeskSeats<L: Origin> {
    /// At which jobs are taken.
    pub jobs: Seat<L>,
    /// At which rows are read.
    pub rows: Seat<L>,
}

/// Listens for clients of a primary at an address; it says on which. Nobody is answered yet. The schema file has these bytes, and the
/// journal is at this path.
pub fn clients_at<T: Net + Files<File = File>, E: Write>(
    host: Host<'_, T>,
    address: SocketAddr,
    schema: &[u8],
    journal: &str,
    says: bool,
    errors: &mut E,
) -> Result<JobClients, Failure> {
    let Ok(digest) = digest_text(host.alloc, schema) else {
        return Err(Failure::Memory);
    };
    let journal = match File::open(host.rt, journal) {
        Ok(file) => file,
        Err(error) => return Err(refused(host.alloc, journal, "open", error)),
    };
    let listening = match Listening::at(host.rt, address) {
        Ok(listening) => listening,
        Err(error) => return Err(bind_failure(host.alloc, address, error)),
    };
    if says {
        say_address(listening.address(), errors);
    }
    Ok(JobClients {
        listening,
        digest,
        journal,
    })
}

/// Listens for clients of a replica at an address; it says on which. Nobody is answered yet.
pub fn queries_at<T: Net, E: Write>(
    host: Host<'_, T>,
    address: SocketAddr,
    says: bool,
    errors: &mut E,
) -> Result<QueryListening, Failure> {
    match QueryListening::at(host.rt, host.alloc, address) {
        Ok(listening) => {
            if says {
                say_address(listening.address(), errors);
            }
            Ok(listening)
        }
        Err(error) => Err(bind_failure(host.alloc, address, error)),
    }
}

/// Says where clients may connect.
fn say_address<E: Write>(address: io::Result<SocketAddr>, errors: &mut E) {
    if let Ok(address) = address {
        let _ = writeln!(errors, "http on {address}");
    }
}

/// The SHA-256 digest of bytes, as hexadecimal digits.
pub fn digest_text(alloc: Global, bytes: &[u8]) -> Result<String, AllocError>
    ensures { IfOk result (λ text. string_bytes text ≡ encode_lower (sha256 bytes.now)) }
{
    let mut hasher = Sha256::new();
    hasher.update(bytes);
    hex::encode(alloc, hasher.finalize())
}

/// Has a primary do its work, and serves its clients beside that. The seats at which they were served are left in `seats`.
pub fn run_with_clients<
    L: Origin + Send + Sync,
    T: Threads + Wait + Net + Clock + RandomSource + Sync,
    R: Read + Send,
    W: Write + Send,
    E: Write + Send,
>(
    host: Host<'_, T>,
    line: &Line<L, FileJournal, &T>,
    primary: &mut Primary<L, UdpPort>,
    work: &Work<'_>,
    streams: &mut Streams<R, W, E>,
    clients: JobClients,
    seats: &mut Option<DeskSeats<L>>,
) -> Result<(), NodeFault>
    requires workers { work.now.setup.now.workers ≡ L.workers }
    requires new { All (λ worker. worker.answers ≡ []) primary.old.crew.items }
{
    let JobClients {
        listening,
        digest,
        journal,
    } = clients;
    let facts = facts_of(digest.as_str(), &journal, work.figures);
    let Some(jobs) = line.seat(host.rt) else {
        return Err(NodeFault::Memory);
    };
    let Some(rows) = line.seat(host.rt) else {
        return Err(NodeFault::Memory);
    };
    let workers = WorkerCount::new(work.setup.workers);
    let desk = JobDesk::new(host.rt, host.alloc, line, work.setup, workers, jobs, rows);
    let desk = desk.with_facts(&facts);
    primary.run(
        host,
        line,
        work,
        streams,
        |is_over: &AtomicBool| serve_desk(host, listening, desk, seats, is_over),
    )
}

/// What is told of a primary.
fn facts_of<'a>(digest: &'a str, journal: &'a File, figures: &'a Figures) -> NodeFacts<'a> {
    NodeFacts {
        version: VERSION,
        schema: digest,
        journal: Some(journal),
        figures,
    }
}

/// Serves the clients of a desk until it is over, and then leaves its seats.
fn serve_desk<'a, L: Origin, H: Wait + Drop, T: Wait + Net + Clock + RandomSource>(
    host: Host<'_, T>,
    listening: Listening,
    desk: JobDesk<'a, L, FileJournal, H, T>,
    seats: &mut Option<DeskSeats<L>>,
    is_over: &AtomicBool,
) -> Result<(), NodeFault> {
    let (desk, served) = serve_jobs(host.rt, host.alloc, listening, desk, is_over);
    let (jobs, rows) = desk.into_seats();
    *seats = Some(DeskSeats { jobs, rows });
    match served {
        Ok(()) => Ok(()),
        Err(ServingFault::System(error)) => Err(NodeFault::Clients(error)),
        Err(ServingFault::Unsettled) => Err(NodeFault::Unsettled),
    }
}
