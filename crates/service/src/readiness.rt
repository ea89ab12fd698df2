//! The readiness of a listener and its connections.

ghost use Rattle.std.specs.Prelude.{◌≡◌};
ghost use Rattle.service.specs.Rounds.{IsUnsent, sent_at};

use crate::arrivals::Arrivals;
use crate::guest::Guest;
use mio::event::Event;
use mio::net::{TcpListener, TcpStream};
use mio::{Events, Interest, Poll, Token};
use std::alloc::Global;
use std::io;
use std::net::Net;
use std::time::Duration;

/// The token of the listener; a connection's is its place and one more.
const LISTENER: usize = 0;

/// How many events a look takes, at most.
const EVENTS_MAX: usize = 256;

/// What tells when a listener has a connection, and its connections something to read or to take.
#[derive(Drop)]
pub(crate) struct Readiness {
    poll: Poll,
    events: Events,
    /// Whether the listener told of a connection, since this was last made false.
    pub(crate) has_come: bool,
}

impl Readiness {
    /// Of a listener, without a connection. Fails if the system refuses a call, or out of memory.
    pub(crate) fn new<N: Net>(
        net: &N,
        alloc: Global,
        listener: &mut TcpListener,
    ) -> io::Result<Readiness> {
        let poll = Poll::new(net)?;
        let events = Events::with_capacity(alloc, EVENTS_MAX)?;
        poll.registry()
            .register(listener, Token(LISTENER), Interest::READABLE)?;
        Ok(Readiness {
            poll,
            events,
            has_come: false,
        })
    }

    /// Tells of the connection at a place, too. Fails if the system refuses that.
    pub(crate) fn add(&mut self, socket: &mut TcpStream, place: usize) -> io::Result<()> {
        let interest = Interest::READABLE | Interest::WRITABLE;
        self.poll
            .registry()
            .register(socket, Token(place.saturating_add(1)), interest)
    }

    /// Waits until there is something to tell, so many milliseconds at most. Fails if the system refuses
    /// to wait; then it tells of nothing.
    pub(crate) fn wait(&mut self, millis: u64) -> io::Result<()> {
        self.poll
            .poll(&mut self.events, Some(Duration::from_millis(millis)))?;
        if self.events.iter().any(is_of_listener) {
            self.has_come = true;
        }
        Ok(())
    }
}

impl Arrivals for Readiness {
    fn look(&mut self) {
        // If the system refuses this, it refuses the wait of the next turn, too.
        let _ = self.wait(0);
    }

    fn note(&self, guests: &mut [Option<Guest>]) {
        for event in self.events.iter() {
            note_event(guests, event);
        }
    }
}

fn is_of_listener(event: &Event) -> bool {
    event.token() == Token(LISTENER)
}

/// Notes an event, if it is of one of these connections.
fn note_event(guests: &mut [Option<Guest>], event: &Event)
    ensures { IsUnsent guests.old guests.new }
{
    let Token(token) = event.token();
    if token == LISTENER || token > guests.len() {
        return;
    }
    note_at(&mut guests[token - 1], event);
}

/// Notes an event of the connection at a place.
fn note_at(place: &mut Option<Guest>, event: &Event)
    ensures { sent_at place.new ≡ sent_at place.old }
{
    let Some(guest) = place else {
        return;
    };
    if event.is_read_closed() || event.is_error() {
        guest.note_ending();
    } else {
        guest.note_ready();
    }
}
