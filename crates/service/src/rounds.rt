//! The connections of one thread.

ghost use Rattle.std.specs.Prelude.{◌≡◌, ◌⊎◌, [], ◌∷◌, ◌++◌, None, IfOk, IfSome, MatchResult};
ghost use Rattle.service.specs.Denials.{WithDenials};
ghost use Rattle.service.specs.Rounds.{HasEnded, IsLost};
ghost use Rattle.service.specs.Waits.{cleared};

use crate::arrivals::{Arrivals, note_ready};
use crate::clearing::{clear_all, is_any_ready, release_blocks};
use crate::guest::Guest;
use crate::held::Held;
use crate::limits::Limits;
use crate::round::{Unsettled, held_bytes, round};
use crate::socket::Socket;
use http_server::Settle;
use std::alloc::{AllocError, Global};
use std::hash::RandomState;

/// What happened so far; each counts up to the greatest number.
#[derive(Clone, Copy, PartialEq, Eq, Default)]
pub struct Counts {
    /// Rounds that were settled.
    pub rounds: u64,
    /// Connections for which there was no place.
    pub refused: u64,
    /// Connections that were ended.
    pub ended: u64,
}

/// Connections at numbered places, and the service that answers them.
#[derive(Drop)]
pub struct Rounds<S: Settle + Drop, T: Socket + Drop> {
    alloc: Global,
    keys: RandomState,
    limits: Limits,
    held: Held<S>,
    /// The connections and their sockets, at like places; those of a place that is empty are `None`.
    guests: Vec<Option<Guest>>,
    sockets: Vec<Option<T>>,
    counts: Counts,
}

impl<S: Settle + Drop, T: Socket + Drop> Rounds<S, T> {
    ghost use Rattle.service.specs.Places.{service_of, guests_of, limits_of, IsFree, IsFull};

    /// No connection. Takes no memory. The names of fields are kept in maps with these keys.
    pub fn new(alloc: Global, keys: RandomState, limits: Limits, service: S) -> Rounds<S, T>
        ensures service { service_of result ≡ service }
        ensures guests { guests_of result ≡ [] }
        ensures limits { limits_of result ≡ limits }
    {
        Rounds {
            alloc,
            keys,
            limits,
            held: Held {
                inner: service,
                calls: 0,
            },
            guests: Vec::new(alloc),
            sockets: Vec::new(alloc),
            counts: Counts::default(),
        }
    }

    /// A place for one connection more, if there is one: for `seat` at once. Fails only if out of
    /// memory.
    pub fn free_place(&mut self) -> Result<Option<usize>, AllocError>
        ensures service { service_of self.new ≡ service_of self.old }
        ensures free { IfOk result (λ found. IfSome found (IsFree (guests_of self.new))) }
        ensures full { IfOk result (λ found. found ≡ None → IsFull (limits_of self.old) (guests_of self.new)) }
        ensures kept { (guests_of self.new ≡ guests_of self.old) ⊎ (guests_of self.new ≡ guests_of self.old ++ None ∷ []) }
    {
        for place in 0..self.guests.len() {
            if self.guests[place].is_none() {
                return Ok(Some(place));
            }
        }
        let place = self.guests.len();
        if place >= self.limits.connections {
            return Ok(None);
        }
        self.guests.reserve(1)?;
        self.sockets.push(None)?;
        self.guests.push_reserved(None);
        Ok(Some(place))
    }

    /// Gives a socket a place, in place of what was there; it may have something to read. Without
    /// such a place it is dropped. Takes no memory.
    pub fn seat(&mut self, place: usize, socket: T, now: u64)
        ensures { service_of self.new ≡ service_of self.old }
    {
        if place >= self.guests.len() || place >= self.sockets.len() {
            return;
        }
        let guest = Guest::new(self.alloc, self.keys, self.limits.config, now);
        put_at(&mut self.guests, place, guest);
        put_at(&mut self.sockets, place, socket);
    }

    /// Counts a connection for which there was no place.
    pub fn count_refused(&mut self)
        ensures { service_of self.new ≡ service_of self.old }
    {
        self.counts.refused = self.counts.refused.saturating_add(1);
    }

    /// Notes that the connection at a place may have something to read, or take something. Takes no
    /// memory.
    pub fn note_ready(&mut self, place: usize)
        ensures { service_of self.new ≡ service_of self.old }
    {
        note_ready(&mut self.guests, place);
    }

    /// Notes which connections had something when it was last looked. Takes no memory.
    pub fn note<A: Arrivals>(&mut self, arrivals: &A)
        ensures { service_of self.new ≡ service_of self.old }
    {
        arrivals.note(&mut self.guests);
    }

    /// Whether a connection has something to do before any event comes.
    pub fn is_any_ready(&self) -> bool {
        is_any_ready(&self.guests, self.limits.held_bytes)
    }

    /// One round: reads what has come, has it answered, also at connections of which `arrivals` tells
    /// meanwhile, has that settled, and sends. Whether any connection was heard.
    ///
    /// Fails if the answers do not stand; then nothing of the round was sent, and the connections
    /// are good for nothing more.
    pub fn round<A: Arrivals>(&mut self, now: u64, arrivals: &mut A) -> Result<bool, Unsettled>
        ensures { MatchResult result
            (HasEnded (WithDenials S.answers) S.settles (service_of self.old) (service_of self.new)
            (guests_of self.old) (guests_of self.new))
            (λ _. IsLost (WithDenials S.answers) S.settles (service_of self.old) (service_of self.new)
            (guests_of self.old) (guests_of self.new)) }
    {
        let held_max = self.limits.held_bytes;
        let heard = round(
            &mut self.guests,
            &mut self.sockets,
            &mut self.held,
            now,
            held_max,
            arrivals,
        );
        if let Ok(true) = heard {
            self.counts.rounds = self.counts.rounds.saturating_add(1);
        }
        heard
    }

    /// Ends the connections that are done, have failed, or have waited for longer than they may; and those
    /// that hold bytes to spare, if all hold too many.
    pub fn clear(&mut self, now: u64)
        ensures service { service_of self.new ≡ service_of self.old }
        ensures guests { guests_of self.new ≡ cleared (limits_of self.old) now (guests_of self.old) }
    {
        release_blocks(&mut self.guests, self.limits.held_bytes);
        let ended = clear_all(&mut self.guests, &self.limits, now);
        self.counts.ended = self.counts.ended.saturating_add(ended);
        drop_without_guest(&mut self.sockets, &self.guests);
    }

    /// The socket at a place, if a connection is there.
    pub fn socket(&self, place: usize) -> Option<&T> {
        match self.sockets.get(place) {
            Some(Some(socket)) => Some(socket),
            _ => None,
        }
    }

    /// The service, lent.
    pub fn service(&self) -> &S
        ensures { result.now ≡ service_of self.now }
    {
        &self.held.inner
    }

    /// The service; the connections are dropped. Takes no memory.
    pub fn into_service(self) -> S
        ensures { result ≡ service_of self }
    {
        let Rounds { held, .. } = self;
        let Held { inner, .. } = held;
        inner
    }

    /// How many connections there are.
    pub fn connections(&self) -> usize {
        let mut count: usize = 0;
        for place in &self.guests {
            if place.is_some() {
                count = count.saturating_add(1);
            }
        }
        count
    }

    /// The most bytes of requests that each connection held at once, in all.
    pub fn held_bytes(&self) -> usize {
        held_bytes(&self.guests)
    }

    pub fn counts(&self) -> Counts {
        self.counts
    }
}

/// Gives a value a place, in place of what was there. Without such a place it is dropped.
fn put_at<T: Drop>(places: &mut [Option<T>], place: usize, value: T) {
    if place < places.len() {
        places[place] = Some(value);
    }
}

/// Drops the socket of each place without a connection.
fn drop_without_guest<T: Drop>(sockets: &mut [Option<T>], guests: &[Option<Guest>]) {
    for place in 0..sockets.len().min(guests.len()) {
        if guests[place].is_none() {
            sockets[place] = None;
        }
    }
}
