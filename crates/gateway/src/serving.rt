//! Clients of a primary, served by one thread.

ghost use Rattle.std.specs.Prelude.{◌≡◌};
ghost use Rattle.rows.specs.Shape.{shape_of};
ghost use Rattle.service.specs.Houses.{served_by};
ghost use Rattle.gateway.specs.Serving.{HasServed};

use crate::job_desk::JobDesk;
use journal::FileJournal;
use mio::net::TcpListener;
use service::{House, HouseFault, Limits};
use shared::Origin;
use std::alloc::Global;
use std::hash::RandomState;
use std::io;
use std::net::{Net, SocketAddr};
use std::random::RandomSource;
use std::rt::Clock;
use std::sync::Wait;
use std::sync::atomic::{AtomicBool, Ordering};

/// How many connections there are at once, at most.
const CONNECTIONS_MAX: usize = 256;

/// An address at which clients may connect; nobody is answered yet.
#[derive(Drop)]
pub struct Listening {
    listener: TcpListener,
}

impl Listening {
    /// Listens at an address; with port 0 the system chooses one. Fails as the system does.
    pub fn at<N: Net>(net: &N, address: SocketAddr) -> io::Result<Listening> {
        let listener = TcpListener::bind(net, address)?;
        Ok(Listening { listener })
    }

    /// The address.
    pub fn address(&self) -> io::Result<SocketAddr> {
        self.listener.local_addr()
    }
}

/// Why clients are served no longer.
#[derive(Debug, thiserror::Error, Drop)]
pub enum ServingFault {
    #[error("{0}")]
    System(io::Error),
    /// The answers of a round do not stand; nothing of it was sent.
    #[error("the answers of a round do not stand")]
    Unsettled,
}

/// Serves the clients that connect, round by round, until it is over. It may wait. Answers the desk, and why it ended if that
/// was before.
pub fn serve_jobs<'a, L: Origin, H: Wait + Drop, T: Wait + Clock + Net + RandomSource>(
    rt: &T,
    alloc: Global,
    listening: Listening,
    desk: JobDesk<'a, L, FileJournal, H, T>,
    is_over: &AtomicBool,
) -> (JobDesk<'a, L, FileJournal, H, T>, Result<(), ServingFault>)
    ensures { HasServed L.workers (shape_of L.schema) desk.entry result.0 result.1 }
{
    let keys = match RandomState::new(rt) {
        Ok(keys) => keys,
        Err(error) => return (desk, Err(ServingFault::System(error))),
    };
    let Listening { listener } = listening;
    let limits = Limits::of(CONNECTIONS_MAX);
    let mut house = match House::on(rt, alloc, keys, listener, limits, desk) {
        Ok(house) => house,
        Err((error, desk)) => return (desk, Err(ServingFault::System(error))),
    };
    let served = serve_on(rt, &mut house, is_over);
    (house.into_service(), served)
}

/// Serves the clients of a house until it is over.
fn serve_on<'a, L: Origin, H: Wait + Drop, T: Wait + Clock>(
    rt: &T,
    house: &mut House<JobDesk<'a, L, FileJournal, H, T>>,
    is_over: &AtomicBool,
) -> Result<(), ServingFault>
    ensures { HasServed L.workers (shape_of L.schema) (served_by house.old) (served_by house.new) result }
{
    for _ in rt.forever() {
        if is_over.load(Ordering::SeqCst) {
            return Ok(());
        }
        note_connections(house);
        match house.turn(rt) {
            Ok(()) => {}
            Err(HouseFault::Wait(error)) => return Err(ServingFault::System(error)),
            Err(HouseFault::Unsettled) => return Err(ServingFault::Unsettled),
        }
    }
    unreachable!()
}

/// Has a desk note how many connections there are.
fn note_connections<'a, L: Origin, H: Wait + Drop, T: Wait + Clock>(
    house: &House<JobDesk<'a, L, FileJournal, H, T>>,
) {
    let desk = house.service();
    desk.note_connections(house.connections(), house.counts().refused);
}
