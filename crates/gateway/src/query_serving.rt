//! Clients of a replica, each served by a thread.

use crate::answering::seconds_of;
use crate::query_desk::QueryDesk;
use crate::replica_facts::ReplicaFacts;
use gathering::Gathering;
use service::{Door, Hall, Limits, Visits};
use std::alloc::{AllocError, Global};
use std::hash::RandomState;
use std::io;
use std::net::{Net, SocketAddr, TcpStream};
use std::random::RandomSource;
use std::rt::Clock;
use std::sync::Wait;
use std::sync::atomic::{AtomicBool, Ordering};
use std::thread::{Builder, Threads, scope, scope_env};

/// How many connections there are at once, at most: each has a thread.
const CONNECTIONS_MAX: usize = 64;

/// An address at which clients of a replica may connect; nobody is answered yet.
#[derive(Drop)]
pub struct QueryListening {
    door: Door,
}

impl QueryListening {
    /// Listens at an address; with port 0 the system chooses one. Fails as the system does, or out of memory.
    pub fn at<N: Net>(net: &N, alloc: Global, address: SocketAddr) -> io::Result<QueryListening> {
        let door = Door::open(net, alloc, address)?;
        Ok(QueryListening { door })
    }

    /// The address.
    pub fn address(&self) -> io::Result<SocketAddr> {
        self.door.local_addr()
    }
}

/// A gathering with a place for each client that is served at once. Fails only if out of memory.
pub fn gathering_of_clients(alloc: Global) -> Result<Gathering, AllocError> {
    Gathering::new(alloc, CONNECTIONS_MAX)
}

/// Why no client of a replica is served.
#[derive(Debug, thiserror::Error, Drop)]
pub enum QueryServingFault {
    #[error("the system makes too few threads")]
    Threads,
    /// It has no random numbers.
    #[error("{0}")]
    System(io::Error),
}

/// What the threads that serve clients share.
#[derive(Drop)]
struct Desk<'a> {
    hall: Hall<TcpStream>,
    keys: RandomState,
    facts: &'a ReplicaFacts<'a>,
    gathering: &'a Gathering,
    is_over: AtomicBool,
}

/// Does work while the clients of a replica are served, each by a thread of its own; the queries of all of them go through the
/// gathering, which has a place for each. The work is done in the thread that calls; once it has ended, and what waits to be
/// sent is sent, so has this call. Where the listener fails, the gathering is told.
///
/// Fails without any work, if the system makes too few threads or has no random numbers.
pub fn while_serving<T: Threads + Wait + Clock + RandomSource + Sync, A, F: FnOnce() -> A>(
    rt: &T,
    alloc: Global,
    listening: QueryListening,
    facts: &ReplicaFacts<'_>,
    gathering: &Gathering,
    work: F,
) -> Result<A, QueryServingFault>
    requires { F.pre work }
{
    let keys = match RandomState::new(rt) {
        Ok(keys) => keys,
        Err(error) => return Err(QueryServingFault::System(error)),
    };
    let desk = Desk {
        hall: Hall::new(alloc, CONNECTIONS_MAX),
        keys,
        facts,
        gathering,
        is_over: AtomicBool::new(false),
    };
    facts.figures.note_date(seconds_of(rt));
    let desk = &desk;
    scope(
        scope_env(),
        rt,
        move |scope| -> Result<A, QueryServingFault>
            requires { F.pre work }
        {
            let QueryListening { door } = listening;
            let mut are_made = true;
            for place in 0..CONNECTIONS_MAX {
                let thread = Builder::new().spawn_scoped(
                    scope,
                    move || serve_at(rt, alloc, desk, place),
                );
                if thread.is_err() {
                    are_made = false;
                    break;
                }
            }
            are_made = are_made
                && Builder::new()
                    .spawn_scoped(scope, move || hold(rt, desk, door))
                    .is_ok();
            let done = if are_made {
                Ok(work())
            } else {
                Err(QueryServingFault::Threads)
            };
            desk.is_over.store(true, Ordering::SeqCst);
            desk.hall.end(rt);
            done
        },
    )
}

/// Lets clients in until it is over. All threads are made by then, and each is free until it serves.
fn hold<T: Wait + Clock>(rt: &T, desk: &Desk<'_>, door: Door) {
    let mut door = door;
    for _ in rt.forever() {
        if desk.is_over.load(Ordering::SeqCst) {
            return;
        }
        if let Err(error) = door.turn(rt, &desk.hall) {
            desk.gathering.fail(rt, error);
            return;
        }
        desk.facts.figures.note_turned_away(door.refused());
        desk.facts.figures.note_date(seconds_of(rt));
    }
}

/// Serves one client after the other at a place, until it is over.
fn serve_at<T: Wait + Clock>(rt: &T, alloc: Global, desk: &Desk<'_>, place: usize) {
    let service = QueryDesk {
        rt,
        alloc,
        gathering: desk.gathering,
        place,
        facts: desk.facts,
    };
    let mut visits = Visits::new(alloc, desk.keys, Limits::of(CONNECTIONS_MAX), service);
    for _ in rt.forever() {
        let Some(mut stream) = desk.hall.next(rt) else {
            return;
        };
        desk.facts.figures.begin_connection();
        visits.serve(rt, &mut stream, &desk.is_over);
        desk.facts.figures.end_connection();
        desk.hall.leave(rt);
    }
}
