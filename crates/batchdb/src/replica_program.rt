//! A replica.

use crate::clients::{digest_text, queries_at};
use crate::commands::{ReplicaWords, wrong};
use crate::failure::{Failure, Status, failure_of};
use crate::files::{file_bytes, setup_in};
use crate::listening::{Addresses, listening, socket_failure};
use crate::program::VERSION;
use apply::{ColumnStore, PARTITIONS};
use dispatcher::ReplicaCore;
use figures::Figures;
use gateway::{
    QueryListening, QueryServingFault, ReplicaFacts, gathering_of_clients, while_serving,
};
use gathering::Gathering;
use nodes::{Clients, Follower, Host, NodeFault, Streams, read_batches};
use rows::limits::{REPLICAS_MAX, WORKERS_MAX};
use script::Setup;
use sockets::{Drain, ReplicaNode, UdpPort};
use std::alloc::Global;
use std::fs::File;
use std::io::{Read, Write};
use std::net::Net;
use std::random::RandomSource;
use std::rt::{Clock, Files};
use std::sync::Wait;
use std::thread::Threads;

/// Runs a replica: has it answer the batches of the input, one after the other; live, it takes them while
/// it serves, and otherwise it has read all of them before.
pub fn run_replica<
    T: Threads + Wait + Net + Files<File = File> + Clock + RandomSource + Sync,
    R: Read + Send,
    W: Write + Send,
    E: Write + Send,
>(
    host: Host<'_, T>,
    words: &ReplicaWords<'_>,
    streams: &mut Streams<R, W, E>,
) -> Result<(), Failure> {
    let schema = file_bytes(host.rt, host.alloc, words.schema)?;
    let setup = setup_in(host.alloc, schema.as_slice(), words.schema)?;
    let number = match u8::try_from(words.number) {
        Ok(number) if number < setup.replicas => number,
        _ => return Err(wrong(host.alloc, "NUMBER", "no replica of the schema")),
    };
    let batches = if words.is_live {
        None
    } else {
        match read_batches(host.alloc, &setup, &mut streams.reader) {
            Ok(batches) => Some(batches),
            Err(fault) => return Err(failure_of(host.alloc, fault)),
        }
    };
    let (mut follower, drain) = follower_of(host, words, &setup, number, streams)?;
    let served = match words.http {
        Some(address) => {
            let clients = QueryClients {
                listening: queries_at(host, address, words.pace.says, &mut streams.errors)?,
                schema: schema.as_slice(),
                number,
                boot: words.boot,
            };
            serve_with(host, &setup, clients, &mut follower, drain, streams)?
        }
        None => follower.serve(host, &setup, drain, batches, streams, None),
    };
    match served {
        Ok(()) => {
            if words.http.is_some() && words.pace.says {
                say_used_up(&follower, &mut streams.errors);
            }
            Ok(())
        }
        Err(fault) => Err(ended_by(host.alloc, words, fault, &follower, &mut streams.errors)),
    }
}

/// What clients of a replica are served with.
#[derive(Drop)]
struct QueryClients<'a> {
    listening: QueryListening,
    /// The bytes of the schema file.
    schema: &'a [u8],
    number: u8,
    boot: u64,
}

/// Has a replica answer the batches of the input as they come, and those of its clients.
fn serve_with<
    T: Threads + Wait + Clock + RandomSource + Sync,
    R: Read + Send,
    W: Write,
    E: Write + Send,
>(
    host: Host<'_, T>,
    setup: &Setup,
    clients: QueryClients<'_>,
    follower: &mut Follower<ColumnStore, UdpPort>,
    drain: Option<Drain>,
    streams: &mut Streams<R, W, E>,
) -> Result<Result<(), NodeFault>, Failure> {
    let QueryClients {
        listening,
        schema,
        number,
        boot,
    } = clients;
    let Ok(digest) = digest_text(host.alloc, schema) else {
        return Err(Failure::Memory);
    };
    let Ok(gathering) = gathering_of_clients(host.alloc) else {
        return Err(Failure::Memory);
    };
    let Ok(figures) = Figures::new(host.alloc, 0) else {
        return Err(Failure::Memory);
    };
    let facts = facts_of(digest.as_str(), setup, number, boot, &figures);
    Ok(serve_over(
        host, follower, drain, streams, listening, &facts, &gathering,
    ))
}

/// What is told of a replica.
fn facts_of<'a>(
    digest: &'a str,
    setup: &'a Setup,
    number: u8,
    boot: u64,
    figures: &'a Figures,
) -> ReplicaFacts<'a> {
    ReplicaFacts {
        version: VERSION,
        schema: digest,
        setup,
        number,
        boot,
        figures,
    }
}

/// Has a replica answer, while its clients are served over a gathering.
fn serve_over<
    'a,
    T: Threads + Wait + Clock + RandomSource + Sync,
    R: Read + Send,
    W: Write,
    E: Write + Send,
>(
    host: Host<'a, T>,
    follower: &'a mut Follower<ColumnStore, UdpPort>,
    drain: Option<Drain>,
    streams: &'a mut Streams<R, W, E>,
    listening: QueryListening,
    facts: &'a ReplicaFacts<'a>,
    gathering: &'a Gathering,
) -> Result<(), NodeFault> {
    let follower = &mut *follower;
    let streams = &mut *streams;
    let clients = clients_over(gathering, facts);
    let served = while_serving(
        host.rt,
        host.alloc,
        listening,
        facts,
        gathering,
        move ||
            requires { Unit {0} }
        { follower.serve(host, facts.setup, drain, None, streams, Some(clients)) },
    );
    match served {
        Ok(served) => served,
        Err(QueryServingFault::Threads) => Err(NodeFault::Threads),
        Err(QueryServingFault::System(error)) => Err(NodeFault::Clients(error)),
    }
}

/// The clients whose requests wait in a gathering.
fn clients_over<'a>(gathering: &'a Gathering, facts: &'a ReplicaFacts<'a>) -> Clients<'a> {
    Clients {
        gathering,
        figures: facts.figures,
        schema: &facts.setup.schema,
    }
}

/// A replica's node at its socket, and the drain of that, if the system grants one.
fn follower_of<T: Net, R, W, E: Write>(
    host: Host<'_, T>,
    words: &ReplicaWords<'_>,
    setup: &Setup,
    number: u8,
    streams: &mut Streams<R, W, E>,
) -> Result<(Follower<ColumnStore, UdpPort>, Option<Drain>), Failure> {
    let Some(core) = replica_of(host.alloc, setup, number, words.boot) else {
        return Err(Failure::Memory);
    };
    let errors = &mut streams.errors;
    if words.pace.says {
        let _ = writeln!(errors, "batchdb {}", VERSION);
    }
    let addresses = Addresses {
        listen: words.listen,
        primary: Some(words.primary),
        replicas: Vec::new(host.alloc),
    };
    let mut port = listening(host, addresses, words.pace.says, errors)?;
    let drain = port.drain(host.alloc).ok();
    let node = ReplicaNode::new(host.alloc, core, port);
    let follower = Follower::new(host.alloc, node, words.pace, words.is_live);
    Ok((follower, drain))
}

/// A replica over an empty store. `None` when out of memory.
pub fn replica_of(
    alloc: Global,
    setup: &Setup,
    number: u8,
    boot: u64,
) -> Option<ReplicaCore<ColumnStore>> {
    let workers = setup.workers;
    if workers == 0 || workers > WORKERS_MAX || number >= REPLICAS_MAX {
        return None;
    }
    let store = ColumnStore::new(alloc, &setup.schema, PARTITIONS).ok()?;
    ReplicaCore::start(alloc, store, &setup.schema, workers, number, boot).ok()
}

/// What is said of a replica that ended for a fault.
fn ended_by<E: Write>(
    alloc: Global,
    words: &ReplicaWords<'_>,
    fault: NodeFault,
    follower: &Follower<ColumnStore, UdpPort>,
    errors: &mut E,
) -> Failure {
    match fault {
        NodeFault::Socket => socket_failure(alloc, follower.node().port()),
        NodeFault::Unanswered => unanswered(alloc, words, follower, errors),
        fault => failure_of(alloc, fault),
    }
}

/// What is said where the turns or the time of a batch are used up.
fn unanswered<E: Write>(
    alloc: Global,
    words: &ReplicaWords<'_>,
    follower: &Follower<ColumnStore, UdpPort>,
    errors: &mut E,
) -> Failure {
    let traffic = follower.node().traffic();
    if words.pace.says {
        say_used_up(follower, errors);
    }
    let Some(limit) = limit_text(alloc, words, follower) else {
        return Failure::Memory;
    };
    let primary = words.primary;
    let fits_none = traffic.stored == 0 && follower.node().expected().is_none();
    let line = if traffic.received > 0 && fits_none {
        format!(in alloc;
            "batchdb: no answer from {primary} within {limit}; {} datagrams came, and none fits SCHEMA and NUMBER",
            traffic.received
        )
    } else {
        format!(in alloc; "batchdb: no answer from {primary} within {limit}")
    };
    Failure::new(Status::Unanswered, line.ok())
}

/// Says what went through the port, once the turns or the time are used up.
fn say_used_up<E: Write>(follower: &Follower<ColumnStore, UdpPort>, errors: &mut E) {
    let traffic = follower.node().traffic();
    let _ = writeln!(
        errors,
        "turns used up: received {}, ignored {}, sent {}, lost {}",
        traffic.received, traffic.ignored, traffic.sent, traffic.lost
    );
}

/// The limit that was reached: so many seconds or turns.
fn limit_text(
    alloc: Global,
    words: &ReplicaWords<'_>,
    follower: &Follower<ColumnStore, UdpPort>,
) -> Option<String> {
    match words.pace.wait {
        Some(wait) if follower.has_turns() => match wait.as_secs() {
            1 => format!(in alloc; "1 second").ok(),
            seconds => format!(in alloc; "{seconds} seconds").ok(),
        },
        _ => format!(in alloc; "{} turns", words.pace.turns.unwrap_or(0)).ok(),
    }
}
