//! The demonstration: a primary and two replicas in one process, over the loopback.

ghost use Rattle.std.specs.Prelude.{◌≡◌, ◌<◌, ◌≤◌};
ghost use Rattle.rows.specs.Limits.{workers_max};

use crate::failure::{Failure, Status, failure_of};
use crate::files::refused;
use crate::listening::{Addresses, listening, socket_failure};
use crate::printing::print;
use crate::replica_program::replica_of;
use apply::ColumnStore;
use journal::{JournalStore, MemJournal};
use nodes::{Host, NodeFault, Pace, Server, fault_of};
use primary::PrimaryCore;
use queries::Plan;
use queue::QueryQueue;
use rows::{ByteList, Row, RowId, Value};
use script::{Setup, read_plan, read_settings};
use shared::{Line, Origin, Seat, Start};
use sockets::{
    Change, Job, OpenGate, PrimaryNode, ReplicaNode, ServeFault, Step, UdpPort, are_of_workers,
    run_workers, serve_replica,
};
use std::alloc::{AllocError, Global};
use std::io::Write;
use std::marker::Brand;
use std::net::{Ipv4Addr, Net, SocketAddr};
use std::rt::Clock;
use std::sync::Wait;
use std::sync::atomic::{AtomicU64, Ordering};
use std::thread::{Threads, join};

/// The settings of the demonstration.
const SETTINGS: &str = "workers 2\nreplicas 2\ntable acct int int\n";

/// What each replica is asked.
const QUERY: &str = "query acct get count sum 0";

/// How many transactions each worker commits.
const EACH: u64 = 100;

/// How many turns each node has.
const TURNS: u64 = 1000;

/// Workers.
const WORKERS: u8 = 2;

/// A seat for each worker, and one to serve.
const SEATS: u8 = WORKERS + 1;

/// Commits 100 transactions with each of two workers, has each of two replicas answer a query, and writes
/// their reports and that their tables are the same.
pub fn run_demo<T: Threads + Wait + Net + Clock + Sync, W: Write>(
    host: Host<'_, T>,
    writer: &mut W,
) -> Result<(), Failure> {
    let Ok(setup) = read_settings(host.alloc, SETTINGS.as_bytes()) else {
        return Err(Failure::Memory);
    };
    let pair = pair_of(host, &setup);
    drop(setup);
    print_told(host.alloc, pair, writer)
}

/// What both replicas report of a new primary whose workers have done their jobs.
fn pair_of<T: Threads + Wait + Net + Clock + Sync>(
    host: Host<'_, T>,
    setup: &Setup,
) -> Result<(Reported, Reported), Failure>
    requires some { 0 < setup.now.workers }
    requires few { setup.now.workers ≤ workers_max }
{
    let Ok(jobs) = jobs(host.alloc) else {
        return Err(Failure::Memory);
    };
    let pair = pair_with(host, setup, &jobs);
    drop(jobs);
    pair
}

/// The same with these jobs.
fn pair_with<T: Threads + Wait + Net + Clock + Sync>(
    host: Host<'_, T>,
    setup: &Setup,
    jobs: &[Job],
) -> Result<(Reported, Reported), Failure>
    requires some { 0 < setup.now.workers }
    requires few { setup.now.workers ≤ workers_max }
{
    let journal = MemJournal::new(host.alloc);
    match some(PrimaryCore::start(host.alloc, journal, &setup.schema, setup.workers)) {
        Some(core) => named(host, core, setup, jobs),
        None => Err(Failure::Memory),
    }
}

/// What was made, if it was.
fn some<V: Drop, F: Drop>(made: Result<V, F>) -> Option<V> {
    match made {
        Ok(value) => Some(value),
        Err(_) => None,
    }
}

/// What both replicas report of a primary on a new line.
fn named<T: Threads + Wait + Net + Clock + Sync>(
    host: Host<'_, T>,
    core: PrimaryCore<MemJournal>,
    setup: &Setup,
    jobs: &[Job],
) -> Result<(Reported, Reported), Failure> {
    let Ok(start) = Start::new(SEATS) else {
        return Err(Failure::Memory);
    };
    on_line::<Brand, T>(host, core, start, setup, jobs)
}

/// A replica, and what it reported.
#[derive(Drop)]
struct Reported {
    node: ReplicaNode<ColumnStore, UdpPort>,
    report: Option<ByteList>,
}

/// The jobs of both workers.
fn jobs(alloc: Global) -> Result<Vec<Job>, AllocError> {
    let mut jobs = Vec::new(alloc);
    for worker in 0..WORKERS {
        for i in 0..EACH {
            jobs.push(job(alloc, worker, i)?)?;
        }
    }
    Ok(jobs)
}

/// The job of a worker that inserts one row.
fn job(alloc: Global, worker: u8, i: u64) -> Result<Job, AllocError> {
    let mut values = Vec::new(alloc);
    values.push(Value::Int((i % EACH) as i64))?;
    values.push(Value::Int(worker as i64))?;
    let mut steps = Vec::new(alloc);
    steps.push(Step::Change(Change::Insert {
        table: 0,
        row: RowId(1000 * worker as u64 + i % EACH),
        values: Row::from_vec(values),
    }))?;
    Ok(Job { worker, steps })
}

/// What both replicas report of a primary on a line that has done these jobs.
fn on_line<L: Origin + Send + Sync, T: Threads + Wait + Net + Clock + Sync>(
    host: Host<'_, T>,
    core: PrimaryCore<MemJournal>,
    start: Start,
    setup: &Setup,
    jobs: &[Job],
) -> Result<(Reported, Reported), Failure>
    requires book { start.opened.seen.book ≡ L.book }
    requires schema { core.primary.schema ≡ L.schema }
    requires workers { core.primary.workers ≡ L.workers }
    requires first { core.primary ≡ L.first }
    requires name { start.blank.name ≡ L.name }
    requires parts { start.blank.parts ≡ L.parts }
    requires seats { start.seats ≡ L.seats }
{
    let workers = core.workers();
    let Some(line) = some(Line::<L, MemJournal, &T>::new(host.alloc, host.rt, core, start)) else {
        return Err(Failure::Memory);
    };
    let pair = served_on(host, &line, workers, setup, jobs);
    drop(line);
    pair
}

/// The same on a line without commits.
fn served_on<
    L: Origin + Send + Sync,
    J: JournalStore + Drop + Send,
    H: Wait + Drop + Send + Sync,
    T: Threads + Wait + Net + Clock + Sync,
>(
    host: Host<'_, T>,
    line: &Line<L, J, H>,
    workers: u8,
    setup: &Setup,
    jobs: &[Job],
) -> Result<(Reported, Reported), Failure>
    requires { workers ≡ L.workers }
{
    do_all(host, line, workers, jobs)?;
    match line.seat(host.rt) {
        Some(seat) => reported_by_both(host, line, seat, setup),
        None => Err(Failure::Memory),
    }
}

/// Has the workers do their jobs.
fn do_all<
    L: Origin + Send + Sync,
    J: JournalStore + Drop + Send,
    H: Wait + Drop + Send,
    T: Threads + Wait + Sync,
>(host: Host<'_, T>, line: &Line<L, J, H>, workers: u8, jobs: &[Job]) -> Result<(), Failure>
    requires { workers ≡ L.workers }
{
    if workers == 0 || !are_of_workers(jobs, workers as usize) {
        return Err(Failure::Memory);
    }
    match run_workers(host.rt, host.alloc, line, workers, jobs, &OpenGate) {
        Ok(_) => Ok(()),
        Err(_) => Err(Failure::Memory),
    }
}

/// The ports of a primary and of its two replicas.
#[derive(Drop)]
struct Ports {
    primary: UdpPort,
    first: UdpPort,
    second: UdpPort,
}

/// Ports on the loopback that know each other.
fn open_ports<T: Net>(host: Host<'_, T>) -> Result<Ports, Failure> {
    let primary = port_of(host, None)?;
    let address = primary.local_addr().ok();
    let first = port_of(host, address)?;
    let second = port_of(host, address)?;
    let mut ports = Ports {
        primary,
        first,
        second,
    };
    introduce(host.alloc, &mut ports)?;
    Ok(ports)
}

/// Tells the primary's port where the replicas are.
fn introduce(alloc: Global, ports: &mut Ports) -> Result<(), Failure> {
    let mut addresses = Vec::new(alloc);
    for port in [&ports.first, &ports.second] {
        let address = match port.local_addr() {
            Ok(address) => address,
            Err(error) => return Err(refused(alloc, "127.0.0.1:0", "local address", error)),
        };
        if addresses.push(address).is_err() {
            return Err(Failure::Memory);
        }
    }
    ports.primary.set_replicas(addresses);
    Ok(())
}

/// A port on the loopback whose number the system chooses.
fn port_of<T: Net>(host: Host<'_, T>, primary: Option<SocketAddr>) -> Result<UdpPort, Failure> {
    let addresses = Addresses {
        listen: SocketAddr::from((Ipv4Addr::LOCALHOST, 0)),
        primary,
        replicas: Vec::new(host.alloc),
    };
    listening(host, addresses, false, &mut Vec::new(host.alloc))
}

/// What both replicas report of a primary that serves them.
fn reported_by_both<
    L: Origin + Send + Sync,
    J: JournalStore + Drop + Send,
    H: Wait + Drop + Send + Sync,
    T: Threads + Wait + Net + Clock + Sync,
>(
    host: Host<'_, T>,
    line: &Line<L, J, H>,
    seat: Seat<L>,
    setup: &Setup,
) -> Result<(Reported, Reported), Failure> {
    let Ports {
        primary,
        first,
        second,
    } = open_ports(host)?;
    let Ok(node) = PrimaryNode::new(host.alloc, seat, primary, WORKERS) else {
        return Err(Failure::Memory);
    };
    let pace = Pace {
        shows: false,
        turns: Some(TURNS),
        wait: None,
        says: false,
    };
    let mut server = Server::new(node, pace);
    let pair = reported_to(host, line, &mut server, first, second, setup);
    drop(server);
    pair
}

/// What both replicas report over these ports of a primary that this server serves.
fn reported_to<
    L: Origin + Send + Sync,
    J: JournalStore + Drop + Send,
    H: Wait + Drop + Send + Sync,
    T: Threads + Wait + Net + Clock + Sync,
>(
    host: Host<'_, T>,
    line: &Line<L, J, H>,
    server: &mut Server<L, UdpPort>,
    first: UdpPort,
    second: UdpPort,
    setup: &Setup,
) -> Result<(Reported, Reported), Failure> {
    let left = AtomicU64::new(2);
    let (served, pair) = join(
        host.rt,
        || server.serve_while(host, line, &left),
        || report_twice(host, setup, first, second, &left),
    );
    told_of(host.alloc, server.port(), served, pair)
}

/// What was told, or why the primary that served meanwhile has failed.
fn told_of<V: Drop>(
    alloc: Global,
    port: &UdpPort,
    served: Result<(), NodeFault>,
    told: Result<V, Failure>,
) -> Result<V, Failure> {
    match served {
        Ok(()) => told,
        Err(fault) => {
            drop(told);
            Err(failure_at(alloc, port, fault))
        }
    }
}

/// Why a primary has failed at this port.
fn failure_at(alloc: Global, port: &UdpPort, fault: NodeFault) -> Failure {
    match fault {
        NodeFault::Socket => socket_failure(alloc, port),
        fault => failure_of(alloc, fault),
    }
}

/// What two replicas report, each in a thread of its own.
fn report_twice<T: Threads + Wait + Sync>(
    host: Host<'_, T>,
    setup: &Setup,
    first: UdpPort,
    second: UdpPort,
    left: &AtomicU64,
) -> Result<(Reported, Reported), Failure> {
    let (one, other) = join(
        host.rt,
        || report_once(host, setup, 0, first, left),
        || report_once(host, setup, 1, second, left),
    );
    both(one, other)
}

/// Both, or the first failure.
fn both<V: Drop>(one: Result<V, Failure>, other: Result<V, Failure>) -> Result<(V, V), Failure> {
    match (one, other) {
        (Ok(one), Ok(other)) => Ok((one, other)),
        (Err(failure), _) => Err(failure),
        (_, Err(failure)) => Err(failure),
    }
}

/// What a replica reports. One node less is left then.
fn report_once<T: Threads + Wait + Sync>(
    host: Host<'_, T>,
    setup: &Setup,
    number: u8,
    port: UdpPort,
    left: &AtomicU64,
) -> Result<Reported, Failure> {
    let reported = report_of(host, setup, number, port);
    left.fetch_sub(1, Ordering::SeqCst);
    reported
}

/// What a replica reports within its turns.
fn report_of<T: Threads + Wait + Sync>(
    host: Host<'_, T>,
    setup: &Setup,
    number: u8,
    port: UdpPort,
) -> Result<Reported, Failure> {
    let Some(core) = replica_of(host.alloc, setup, number, 1) else {
        return Err(Failure::Memory);
    };
    let mut node = ReplicaNode::new(host.alloc, core, port);
    match answer(host, setup, &mut node) {
        Ok(report) => Ok(Reported { node, report }),
        Err(failure) => {
            drop(node);
            Err(failure)
        }
    }
}

/// What a replica answers to the query, if it does within its turns.
fn answer<T: Threads + Wait + Sync>(
    host: Host<'_, T>,
    setup: &Setup,
    node: &mut ReplicaNode<ColumnStore, UdpPort>,
) -> Result<Option<ByteList>, Failure> {
    let Ok(queue) = QueryQueue::new(host.alloc, 1) else {
        return Err(Failure::Memory);
    };
    let answered = answer_from(host, setup, node, &queue);
    drop(queue);
    answered
}

/// The same from this queue, which is empty.
fn answer_from<T: Threads + Wait + Sync>(
    host: Host<'_, T>,
    setup: &Setup,
    node: &mut ReplicaNode<ColumnStore, UdpPort>,
    queue: &QueryQueue,
) -> Result<Option<ByteList>, Failure> {
    let Some(mut pass) = queue.pass() else {
        return Err(Failure::Memory);
    };
    let plan = query(host.alloc, setup)?;
    // The queue has room for it.
    let _ = some(queue.put(host.rt, &mut pass, plan));
    let mut turns = Some(TURNS);
    match serve_replica(host.rt, host.alloc, node, queue, &mut pass, &mut turns) {
        Ok(report) => Ok(report),
        Err(ServeFault::Socket) => Err(socket_failure(host.alloc, node.port())),
        Err(fault) => Err(failure_of(host.alloc, fault_of(fault))),
    }
}

/// The query.
fn query(alloc: Global, setup: &Setup) -> Result<Plan, Failure> {
    match read_plan(alloc, QUERY.as_bytes(), setup) {
        Ok(Some(plan)) => Ok(plan),
        _ => Err(Failure::Memory),
    }
}

/// Writes what both replicas reported, if they did.
fn print_told<W: Write>(
    alloc: Global,
    told: Result<(Reported, Reported), Failure>,
    writer: &mut W,
) -> Result<(), Failure> {
    match told {
        Ok(pair) => {
            let printed = print_pair(alloc, &pair, writer);
            drop(pair);
            printed
        }
        Err(failure) => Err(failure),
    }
}

/// Writes what both replicas reported, and that their tables are the same.
fn print_pair<W: Write>(
    alloc: Global,
    pair: &(Reported, Reported),
    writer: &mut W,
) -> Result<(), Failure> {
    let (first, second) = pair;
    let (Some(one), Some(other)) = (&first.report, &second.report) else {
        return Err(Failure::new(
            Status::Unanswered,
            format!(in alloc; "batchdb: no answer within {TURNS} turns").ok(),
        ));
    };
    print(alloc, writer, b"replica 0\n")?;
    print(alloc, writer, one.as_slice())?;
    print(alloc, writer, b"replica 1\n")?;
    print(alloc, writer, other.as_slice())?;
    let (Ok(one), Ok(other)) = (first.node.core().dump(), second.node.core().dump()) else {
        return Err(Failure::Memory);
    };
    if one.as_slice() != other.as_slice() {
        return Err(Failure::new(
            Status::Failed,
            format!(in alloc; "batchdb: the tables of the replicas differ").ok(),
        ));
    }
    print(alloc, writer, b"same tables\n")
}
