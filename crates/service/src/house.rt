//! A listener and its connections, served by one thread in rounds.

ghost use Rattle.std.specs.Prelude.{◌≡◌, IfOk, MatchResult};
ghost use Rattle.service.specs.Denials.{WithDenials};

use crate::clock::millis_since;
use crate::limits::Limits;
use crate::listening_time::ListeningTime;
use crate::readiness::Readiness;
use crate::refused::refuse;
use crate::rounds::{Counts, Rounds};
use http_server::Settle;
use mio::net::{TcpListener, TcpStream};
use std::alloc::Global;
use std::hash::RandomState;
use std::io::{self, ErrorKind};
use std::net::{Net, SocketAddr};
use std::rt::Clock;
use std::time::Instant;

/// The longest wait of a turn, in milliseconds.
const WAIT_MILLIS: u64 = 100;

/// How many connections are taken in a turn, at most.
const ACCEPTS_MAX: u32 = 64;

/// Why a house serves no longer.
#[derive(Debug, thiserror::Error, Drop)]
pub enum HouseFault {
    #[error("the system refuses to wait for an event: {0}")]
    Wait(io::Error),
    /// Nothing of the round was sent.
    #[error("the answers of a round do not stand")]
    Unsettled,
}

/// A listener and its connections.
#[derive(Drop)]
pub struct House<S: Settle + Drop> {
    listener: TcpListener,
    readiness: Readiness,
    opened: Instant,
    /// The limits of connections count this time, and not the clock's.
    listening: ListeningTime,
    /// Whether a connection may wait of which the listener does not tell again.
    may_have_more: bool,
    rounds: Rounds<S, TcpStream>,
}

impl<S: Settle + Drop> House<S> {
    ghost use Rattle.service.specs.Houses.{served_by, HasTurned, HasFailed};

    /// Listens at an address; with port 0 the system chooses one. The names of fields are kept in
    /// maps with these keys. Fails if the system refuses a call, or out of memory.
    pub fn open<N: Net + Clock>(
        net: &N,
        alloc: Global,
        keys: RandomState,
        address: SocketAddr,
        limits: Limits,
        service: S,
    ) -> io::Result<House<S>>
        ensures { IfOk result (λ house. served_by house ≡ service) }
    {
        let listener = TcpListener::bind(net, address)?;
        match House::on(net, alloc, keys, listener, limits, service) {
            Ok(house) => Ok(house),
            Err((error, _)) => Err(error),
        }
    }

    /// The same at a listener that is bound already. If it fails, the service is handed back.
    pub fn on<N: Net + Clock>(
        net: &N,
        alloc: Global,
        keys: RandomState,
        mut listener: TcpListener,
        limits: Limits,
        service: S,
    ) -> Result<House<S>, (io::Error, S)>
        ensures { MatchResult result (λ house. served_by house ≡ service) (λ back. back.1 ≡ service) }
    {
        let (readiness, opened) = match readiness_of(net, alloc, &mut listener) {
            Ok(both) => both,
            Err(error) => return Err((error, service)),
        };
        Ok(House {
            listener,
            readiness,
            opened,
            listening: ListeningTime::new(),
            may_have_more: false,
            rounds: Rounds::new(alloc, keys, limits, service),
        })
    }

    /// The service; the connections are dropped. Takes no memory.
    pub fn into_service(self) -> S
        ensures { result ≡ served_by self }
    {
        let House { rounds, .. } = self;
        rounds.into_service()
    }

    /// The address at which it listens.
    pub fn local_addr(&self) -> io::Result<SocketAddr> {
        self.listener.local_addr()
    }

    /// One round: waits for an event, 100 ms at most, reads what has come, has it answered, has that
    /// settled, and sends; then ends the connections that are done or late. The time of a long round is
    /// no reason to end one.
    ///
    /// After a fault the house is good for nothing more.
    pub fn turn<R: Clock>(&mut self, rt: &R) -> Result<(), HouseFault>
        ensures { MatchResult result
            (λ _. HasTurned (WithDenials S.answers) S.settles (served_by self.old) (served_by self.new))
            (HasFailed (WithDenials S.answers) S.settles (served_by self.old) (served_by self.new)) }
    {
        let wait = if self.rounds.is_any_ready() || self.readiness.has_come {
            0
        } else {
            WAIT_MILLIS
        };
        if let Err(error) = self.readiness.wait(wait) {
            return Err(HouseFault::Wait(error));
        }
        let shown = millis_since(rt, &self.opened);
        let now = self.listening.count_turn(shown);
        self.rounds.note(&self.readiness);
        if self.readiness.has_come || self.may_have_more {
            self.accept(now);
        }
        if self.rounds.round(now, &mut self.readiness).is_err() {
            return Err(HouseFault::Unsettled);
        }
        self.rounds.clear(now);
        Ok(())
    }

    /// The service, lent.
    pub fn service(&self) -> &S
        ensures { result.now ≡ served_by self.now }
    {
        self.rounds.service()
    }

    /// How many connections there are.
    pub fn connections(&self) -> usize {
        self.rounds.connections()
    }

    pub fn counts(&self) -> Counts {
        self.rounds.counts()
    }

    /// Takes new connections in.
    fn accept(&mut self, now: u64)
        ensures { served_by self.new ≡ served_by self.old }
    {
        self.readiness.has_come = false;
        self.may_have_more = true;
        for _ in 0..ACCEPTS_MAX {
            match self.listener.accept() {
                Ok((socket, _)) => self.seat(socket, now),
                Err(error) => {
                    // Only after this one the listener tells of the next connection.
                    self.may_have_more = error.kind() != ErrorKind::WouldBlock;
                    return;
                }
            }
        }
    }

    /// Gives a connection a place, or says that there is none.
    fn seat(&mut self, mut socket: TcpStream, now: u64)
        ensures { served_by self.new ≡ served_by self.old }
    {
        let _ = socket.set_nodelay(true);
        let Ok(Some(place)) = self.rounds.free_place() else {
            refuse(&mut socket);
            self.rounds.count_refused();
            return;
        };
        if self.readiness.add(&mut socket, place).is_ok() {
            self.rounds.seat(place, socket, now);
        }
    }
}

/// What tells when a listener has a connection, and the time from which on a house counts.
fn readiness_of<N: Net + Clock>(
    net: &N,
    alloc: Global,
    listener: &mut TcpListener,
) -> io::Result<(Readiness, Instant)> {
    let readiness = Readiness::new(net, alloc, listener)?;
    Ok((readiness, Instant::now(net)?))
}
