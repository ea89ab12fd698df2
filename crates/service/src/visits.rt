//! Connections that one thread serves one after another, each to its end.

ghost use Rattle.std.specs.Prelude.{◌≡◌};
ghost use Rattle.http_server.specs.Connection.{history};
ghost use Rattle.http_server.specs.Exchange.{Calls};
ghost use Rattle.service.specs.Denials.{WithDenials};
ghost use Rattle.service.specs.Rounds.{Leads};

use crate::clock::millis_since;
use crate::guest::{Guest, Heard, Told};
use crate::held::Held;
use crate::limits::Limits;
use crate::socket::Socket;
use crate::standing::Standing;
use http_server::Service;
use std::alloc::Global;
use std::hash::RandomState;
use std::rt::Clock;
use std::sync::atomic::{AtomicBool, Ordering};
use std::time::Instant;

/// The connections of one thread, and the service that answers them.
#[derive(Drop)]
pub struct Visits<S: Service + Drop> {
    alloc: Global,
    keys: RandomState,
    limits: Limits,
    held: Held<Standing<S>>,
}

impl<S: Service + Drop> Visits<S> {
    ghost use Rattle.service.specs.Places.{visited_of};

    /// Takes no memory. The names of fields are kept in maps with these keys.
    pub fn new(alloc: Global, keys: RandomState, limits: Limits, service: S) -> Visits<S>
        ensures { visited_of result ≡ service }
    {
        Visits {
            alloc,
            keys,
            limits,
            held: Held {
                inner: Standing { inner: service },
                calls: 0,
            },
        }
    }

    /// A connection of which nothing was read. Takes no memory.
    pub fn begin(&self, now: u64) -> Guest {
        Guest::new(self.alloc, self.keys, self.limits.config, now)
    }

    /// One step of a connection: sends what waits, then has what came answered, and reads once if nothing
    /// waits. Whether the connection goes on; if not, it is done, or has waited for longer than it may,
    /// or its socket has failed.
    ///
    /// The socket waits in its calls, but not for long: then it gives `WouldBlock`, and the next step
    /// looks at the time. The service may take long: a connection waits from the step on that follows its answer.
    pub fn step<T: Socket>(&mut self, guest: &mut Guest, socket: &mut T, now: u64) -> bool
        ensures { Calls (WithDenials S.answers) (visited_of self.old) (visited_of self.new)
            (history guest.old.connection).calls (history guest.new.connection).calls }
    {
        if !tell(guest, socket, now) {
            return false;
        }
        guest.note_time(now);
        if guest.is_late(&self.limits, now) {
            return false;
        }
        if guest.leaving.is_some() {
            guest.drain(socket);
            return !guest.is_gone;
        }
        self.hear(guest, socket, now)
    }

    /// Has what came answered, and then reads once, unless an answer waits. Whether the socket has not
    /// failed.
    fn hear<T: Socket>(&mut self, guest: &mut Guest, socket: &mut T, now: u64) -> bool
        ensures { Calls (WithDenials S.answers) (visited_of self.old) (visited_of self.new)
            (history guest.old.connection).calls (history guest.new.connection).calls }
    {
        // What waited had perhaps kept whole requests from being answered.
        guest.advance(&mut self.held, now, 0);
        if guest.connection.wants_write() {
            return true;
        }
        !matches!(
            guest.hear_once(socket, &mut self.held, now),
            Some(Heard::Failed)
        )
    }

    /// Serves a connection to its end; or until it is over, once nothing waits to be sent. It ends at
    /// once if the clock cannot tell the time.
    pub fn serve<R: Clock, T: Socket>(&mut self, rt: &R, socket: &mut T, is_over: &AtomicBool)
        ensures { Leads (WithDenials S.answers) (visited_of self.old) (visited_of self.new) }
    {
        let Ok(begun) = Instant::now(rt) else {
            return;
        };
        let mut guest = self.begin(0);
        self.serve_from(rt, &mut guest, socket, is_over, &begun);
    }

    /// The same of a connection that has begun.
    fn serve_from<R: Clock, T: Socket>(
        &mut self,
        rt: &R,
        guest: &mut Guest,
        socket: &mut T,
        is_over: &AtomicBool,
        begun: &Instant,
    )
        ensures { Leads (WithDenials S.answers) (visited_of self.old) (visited_of self.new) }
    {
        // A loop is proved to end, so this one counts its turns.
        for _ in 0..u64::MAX {
            if !self.step(guest, socket, millis_since(rt, begun)) {
                return;
            }
            if is_over.load(Ordering::SeqCst) && !guest.connection.wants_write() {
                return;
            }
        }
    }

    /// The service, lent.
    pub fn service(&self) -> &S
        ensures { result.now ≡ visited_of self.now }
    {
        &self.held.inner.inner
    }
}

/// Sends what waits, and ends the writing behind the last answer. Whether the connection goes on.
fn tell<T: Socket>(guest: &mut Guest, socket: &mut T, now: u64) -> bool
    ensures { (history guest.new.connection).calls ≡ (history guest.old.connection).calls }
{
    if guest.leaving.is_some() {
        return true;
    }
    let told = guest.tell(socket, now);
    goes_on(guest, socket, told)
}

/// The same, now that what waits was sent as far as it was taken.
fn goes_on<T: Socket>(guest: &mut Guest, socket: &mut T, told: Told) -> bool
    ensures { (history guest.new.connection) ≡ (history guest.old.connection) }
{
    match told {
        Told::Failed => false,
        Told::Blocked => true,
        Told::More => true,
        Told::All => {
            guest.leave_if_done(socket);
            !guest.is_gone
        }
    }
}
