//! The primary.

ghost use Rattle.std.specs.Prelude.{◌≡◌, ◌<◌, ◌≤◌, IfOk};
ghost use Rattle.rows.specs.Limits.{workers_max};

use crate::clients::{DeskSeats, JobClients, clients_at, run_with_clients};
use crate::commands::{PrimaryWords, wrong};
use crate::failure::{Failure, failure_of};
use crate::files::{failed, file_bytes, len_of, refused, setup_in};
use crate::journal_file::{opened, recovering};
use crate::journal_reading::{name_of, read_ahead};
use crate::listening::{Addresses, listening, socket_failure};
use figures::Figures;
use journal::{FileFault, FileJournal, JournalFault};
use nodes::{Bases, Host, NodeFault, Pace, Primary, Streams, Work, read_jobs, while_saying};
use primary::{PrimaryCore, StartFault};
use rows::limits::WORKERS_MAX;
use script::Setup;
use shared::{Line, Origin, Start};
use sockets::UdpPort;
use std::alloc::Global;
use std::fs::File;
use std::io::{Read, Write};
use std::marker::Brand;
use std::net::Net;
use std::random::RandomSource;
use std::rt::{Clock, Files};
use std::sync::Wait;
use std::sync::atomic::AtomicBool;
use std::thread::Threads;

/// A seat for each worker, one to serve, one to look and one to take bases; and for clients over HTTP one for their jobs and one
/// for rows.
const SEATS: u8 = WORKERS_MAX + 5;

/// Runs a primary: does the jobs of the input, and serves its replicas; live, it does so at once, and
/// otherwise one after the other. A live one also serves clients over HTTP, if it is to.
pub fn run_primary<
    T: Threads + Wait + Net + Files<File = File> + Clock + RandomSource + Sync,
    R: Read + Send,
    W: Write + Send,
    E: Write + Send,
>(
    host: Host<'_, T>,
    words: PrimaryWords<'_>,
    streams: &mut Streams<R, W, E>,
) -> Result<(), Failure> {
    let schema = file_bytes(host.rt, host.alloc, words.schema)?;
    let setup = setup_in(host.alloc, schema.as_slice(), words.schema)?;
    if words.replicas.len() > setup.replicas as usize {
        return Err(wrong(host.alloc, "REPLICA", "more than the schema has replicas"));
    }
    let jobs = if words.is_live {
        None
    } else {
        let shows = words.pace.shows;
        let Streams { reader, errors, .. } = &mut *streams;
        match read_jobs(host, &setup, shows, reader, errors) {
            Ok(jobs) => Some(jobs),
            Err(fault) => return Err(failure_of(host.alloc, fault)),
        }
    };
    let core = started(host, &words, &setup, &mut streams.errors)?;
    let PrimaryWords {
        journal,
        listen,
        replicas,
        http,
        base,
        pace,
        ..
    } = words;
    let addresses = Addresses {
        listen,
        primary: None,
        replicas,
    };
    let errors = &mut streams.errors;
    let port = listening(host, addresses, pace.says, errors)?;
    let clients = match http {
        Some(address) => {
            let schema = schema.as_slice();
            Some(clients_at(host, address, schema, journal, pace.says, errors)?)
        }
        None => None,
    };
    let Ok(figures) = Figures::new(host.alloc, setup.replicas) else {
        return Err(Failure::Memory);
    };
    let work = Work {
        setup: &setup,
        jobs,
        pace,
        figures: &figures,
        bases: &Bases::new(base),
    };
    at_port(host, journal, core, port, clients, &work, streams)
}

/// A primary on the journal at a path; it says what the journal keeps.
fn started<T: Threads + Wait + Files<File = File> + Clock + Sync, E: Write + Send>(
    host: Host<'_, T>,
    words: &PrimaryWords<'_>,
    setup: &Setup,
    errors: &mut E,
) -> Result<PrimaryCore<FileJournal>, Failure>
    requires some { 0 < setup.now.workers }
    requires few { setup.now.workers ≤ workers_max }
    ensures { IfOk result (λ core. core.primary.workers ≡ setup.now.workers) }
{
    let Host { rt, alloc } = host;
    let path = words.journal;
    let journal = opened(rt, alloc, path, "another primary has the journal open")?;
    let len = len_of(rt, path);
    if words.pace.says {
        say_reading(alloc, path, len, errors);
    }
    match start_on(host, words, journal, setup, len, errors) {
        Ok(core) => {
            if words.pace.says {
                say_start(alloc, path, core.durable(), len, len_of(rt, path), errors);
            }
            Ok(core)
        }
        Err((_, StartFault::Store(fault))) => Err(journal_failure(
            alloc,
            path,
            "read or write",
            Some(fault),
        )),
        Err((_, StartFault::Journal(JournalFault::Memory))) => Err(Failure::Memory),
        Err((_, StartFault::Journal(fault))) => {
            Err(failed(alloc, path, format!(in alloc; "{fault}").ok()))
        }
        Err((_, StartFault::Memory)) => Err(Failure::Memory),
    }
}

/// A primary on this journal, whose file has so many bytes. If it is to, it says how far the file is read, and then for how
/// long the commits are recovered.
fn start_on<T: Threads + Wait + Files<File = File> + Clock + Sync, E: Write + Send>(
    host: Host<'_, T>,
    words: &PrimaryWords<'_>,
    journal: FileJournal,
    setup: &Setup,
    len: u64,
    errors: &mut E,
) -> Result<PrimaryCore<FileJournal>, (FileJournal, StartFault<FileFault>)>
    requires some { 0 < setup.now.workers }
    requires few { setup.now.workers ≤ workers_max }
    requires countable { journal.faults ≡ 0 }
    ensures { IfOk result (λ core. core.primary.workers ≡ setup.now.workers) }
{
    let Host { alloc, .. } = host;
    let path = words.journal;
    if words.pace.shows {
        read_ahead(host, path, len, errors);
    }
    let what = recovering(alloc, path, len);
    while_saying(host, words.pace.shows, what.as_str(), errors, move || {
        PrimaryCore::start(alloc, journal, &setup.schema, setup.workers)
    })
}

/// Says the program's version, and that the start reads a journal of so many bytes, if it has any.
fn say_reading<E: Write>(alloc: Global, path: &str, len: u64, errors: &mut E) {
    let version = crate::program::VERSION;
    let _ = writeln!(errors, "batchdb {version}");
    if len > 0 {
        let name = name_of(alloc, path);
        let _ = writeln!(errors, "journal {name}: reading {len} bytes");
    }
}

/// Says what a start found: what the journal keeps, whose file had so many bytes and now has others.
fn say_start<E: Write>(
    alloc: Global,
    path: &str,
    commits: u64,
    before: u64,
    after: u64,
    errors: &mut E,
) {
    let cut = before.saturating_sub(after);
    let name = name_of(alloc, path);
    let _ = writeln!(
        errors,
        "journal {name}: kept {commits} commits, {after} bytes, cut {cut}"
    );
}

/// What a journal that failed says.
fn journal_failure(alloc: Global, path: &str, call: &str, fault: Option<FileFault>) -> Failure {
    match fault {
        Some(FileFault::System(error)) => refused(alloc, path, call, error),
        Some(fault) => failed(alloc, path, format!(in alloc; "{fault}").ok()),
        None => failed(alloc, path, format!(in alloc; "the journal failed").ok()),
    }
}

/// Has a primary do its work at a socket, and serves its clients, on a line of its own.
fn at_port<
    T: Threads + Wait + Net + Clock + RandomSource + Sync,
    R: Read + Send,
    W: Write + Send,
    E: Write + Send,
>(
    host: Host<'_, T>,
    path: &str,
    core: PrimaryCore<FileJournal>,
    port: UdpPort,
    clients: Option<JobClients>,
    work: &Work<'_>,
    streams: &mut Streams<R, W, E>,
) -> Result<(), Failure>
    requires { core.primary.workers ≡ work.now.setup.now.workers }
{
    match named(host, core, port, clients, work, streams) {
        Ok(()) => Ok(()),
        Err(Ended::Journal(fault)) => Err(journal_failure(host.alloc, path, "write", fault)),
        Err(Ended::Otherwise(failure)) => Err(failure),
    }
}

/// Why a primary ended.
#[derive(Drop)]
enum Ended {
    /// Its journal failed, and said this last.
    Journal(Option<FileFault>),
    /// For another reason, which is said so.
    Otherwise(Failure),
}

/// What a primary does on a new line.
fn named<
    T: Threads + Wait + Net + Clock + RandomSource + Sync,
    R: Read + Send,
    W: Write + Send,
    E: Write + Send,
>(
    host: Host<'_, T>,
    core: PrimaryCore<FileJournal>,
    port: UdpPort,
    clients: Option<JobClients>,
    work: &Work<'_>,
    streams: &mut Streams<R, W, E>,
) -> Result<(), Ended>
    requires { core.primary.workers ≡ work.now.setup.now.workers }
{
    let Ok(start) = Start::new(SEATS) else {
        return Err(Ended::Otherwise(Failure::Memory));
    };
    on_line::<Brand, T, R, W, E>(host, core, start, port, clients, work, streams)
}

/// What a primary does on a line.
fn on_line<
    L: Origin + Send + Sync,
    T: Threads + Wait + Net + Clock + RandomSource + Sync,
    R: Read + Send,
    W: Write + Send,
    E: Write + Send,
>(
    host: Host<'_, T>,
    core: PrimaryCore<FileJournal>,
    start: Start,
    port: UdpPort,
    clients: Option<JobClients>,
    work: &Work<'_>,
    streams: &mut Streams<R, W, E>,
) -> Result<(), Ended>
    requires book { start.opened.seen.book ≡ L.book }
    requires schema { core.primary.schema ≡ L.schema }
    requires workers { core.primary.workers ≡ L.workers }
    requires setup { work.now.setup.now.workers ≡ L.workers }
    requires first { core.primary ≡ L.first }
    requires name { start.blank.name ≡ L.name }
    requires parts { start.blank.parts ≡ L.parts }
    requires seats { start.seats ≡ L.seats }
    requires whole { L.parts ≡ L.seats }
{
    let workers = core.workers();
    let what = publishing(host.alloc, core.durable());
    let errors = &mut streams.errors;
    let made = while_saying(
        host,
        work.pace.shows,
        what.as_str(),
        errors,
        move ||
            requires book { start.opened.seen.book ≡ L.book }
            requires schema { core.primary.schema ≡ L.schema }
            requires workers { core.primary.workers ≡ L.workers }
            requires first { core.primary ≡ L.first }
            requires name { start.blank.name ≡ L.name }
            requires parts { start.blank.parts ≡ L.parts }
            requires seats { start.seats ≡ L.seats }
        { Line::<L, FileJournal, &T>::new(host.alloc, host.rt, core, start) },
    );
    let Ok(line) = made else {
        return Err(Ended::Otherwise(Failure::Memory));
    };
    let mut primary = match Primary::at(host, &line, port, workers, work.pace) {
        Ok(primary) => primary,
        Err(fault) => return Err(Ended::Otherwise(failure_of(host.alloc, fault))),
    };
    let mut seats = None;
    let ran = match clients {
        Some(clients) => {
            run_with_clients(
                host,
                &line,
                &mut primary,
                work,
                streams,
                clients,
                &mut seats,
            )
        }
        None => primary.run(host, &line, work, streams, |_: &AtomicBool| Ok(())),
    };
    match ran {
        Ok(()) => Ok(()),
        Err(fault) => Err(ended_by(host.alloc, fault, line, primary, seats)),
    }
}

/// What is said of so many commits while they are published. Without memory for that, nothing is.
fn publishing(alloc: Global, commits: u64) -> String {
    let text = format!(in alloc; "publishing {commits} commits");
    text.unwrap_or(String::new(alloc))
}

/// Why a primary ended that ended for a fault: of its journal or its socket, what the system told of it. Clients were served at
/// the last seats.
fn ended_by<L: Origin, H: Wait + Drop>(
    alloc: Global,
    fault: NodeFault,
    line: Line<L, FileJournal, H>,
    primary: Primary<L, UdpPort>,
    desk: Option<DeskSeats<L>>,
) -> Ended
    requires { L.parts ≡ L.seats }
{
    match fault {
        NodeFault::Journal => Ended::Journal(last_fault(alloc, line, primary, desk)),
        NodeFault::Unsettled => match last_fault(alloc, line, primary, desk) {
            Some(fault) => Ended::Journal(Some(fault)),
            None => Ended::Otherwise(Failure::Memory),
        },
        NodeFault::Socket => Ended::Otherwise(socket_failure(alloc, primary.server.port())),
        fault => Ended::Otherwise(failure_of(alloc, fault)),
    }
}

/// What the journal of a primary said last, once its line has ended.
fn last_fault<L: Origin, H: Wait + Drop>(
    alloc: Global,
    line: Line<L, FileJournal, H>,
    primary: Primary<L, UdpPort>,
    desk: Option<DeskSeats<L>>,
) -> Option<FileFault>
    requires { L.parts ≡ L.seats }
{
    let mut seats = primary.into_seats(alloc).ok()?;
    if let Some(DeskSeats { jobs, rows }) = desk {
        seats.push(jobs).ok()?;
        seats.push(rows).ok()?;
    }
    last_fault_of(line.end(seats).ok()?)
}

/// What the journal of a primary said last.
fn last_fault_of(core: PrimaryCore<FileJournal>) -> Option<FileFault> {
    if core.lent() {
        return None;
    }
    core.into_journal().last_fault()
}
