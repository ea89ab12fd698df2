//! One round of all connections.

ghost use Rattle.std.specs.Prelude.{◌≡◌, true, false, map, MatchResult, IsFalse};
ghost use Rattle.http_server.specs.Connection.{history};
ghost use Rattle.service.specs.Denials.{WithDenials};
ghost use Rattle.service.specs.Rounds.{Leads, HasEnded, IsLost, IsUnsent, sent_at, calls_at};
ghost use Rattle.service.specs.Waits.{held_by, most_at};

use crate::arrivals::Arrivals;
use crate::guest::{Guest, Told};
use crate::held::Held;
use crate::socket::Socket;
use http_server::Settle;
use std::io::{Read, Write};

/// How often connections are heard before a round is settled, at most.
const HEARINGS_MAX: u32 = 4;

/// The answers of a round do not stand, and nothing of it was sent.
#[derive(Clone, Copy, Debug, PartialEq, Eq)]
pub struct Unsettled;

/// Hears each connection that may have something, then those that have something by now, has the round
/// settled, and sends. Whether any was heard. From so many bytes on that are held in all, only the
/// connection whose request began first is read. A round may take long: what it answers and sends has the
/// time of the next one.
pub(crate) fn round<S: Settle + Drop, T: Socket, A: Arrivals>(
    guests: &mut [Option<Guest>],
    sockets: &mut [Option<T>],
    service: &mut Held<S>,
    now: u64,
    held_max: usize,
    arrivals: &mut A,
) -> Result<bool, Unsettled>
    ensures { MatchResult result
        (HasEnded (WithDenials S.answers) S.settles service.old.inner service.new.inner guests.old guests.new)
        (λ _. IsLost (WithDenials S.answers) S.settles service.old.inner service.new.inner guests.old guests.new) }
{
    note_times(guests, now);
    if !hear(guests, sockets, service, now, held_max, arrivals) {
        return Ok(false);
    }
    settle_and_tell(guests, sockets, service, now)?;
    Ok(true)
}

/// Has settled what was heard, and then sends it.
fn settle_and_tell<S: Settle + Drop, T: Socket>(
    guests: &mut [Option<Guest>],
    sockets: &mut [Option<T>],
    service: &mut Held<S>,
    now: u64,
) -> Result<(), Unsettled>
    ensures { MatchResult result
        (λ _. S.settles service.old.inner true service.new.inner)
        (λ _. S.settles service.old.inner false service.new.inner × IsUnsent guests.old guests.new) }
{
    if !service.inner.settle() {
        return Err(Unsettled);
    }
    tell_all(guests, sockets, now);
    Ok(())
}

/// Notes the time of what the round before answered or sent, at each connection.
fn note_times(guests: &mut [Option<Guest>], now: u64)
    ensures { IsUnsent guests.old guests.new }
{
    for index in 0..guests.len() {
        note_time_at(&mut guests[index], now);
    }
}

fn note_time_at(place: &mut Option<Guest>, now: u64)
    ensures { sent_at place.new ≡ sent_at place.old }
{
    if let Some(guest) = place {
        guest.note_time(now);
    }
}

/// Hears each connection that may have something, and then those that have something by now, each once, so
/// that more share the round's settling. Whether there was one.
fn hear<S: Settle + Drop, T: Socket, A: Arrivals>(
    guests: &mut [Option<Guest>],
    sockets: &mut [Option<T>],
    service: &mut Held<S>,
    now: u64,
    held_max: usize,
    arrivals: &mut A,
) -> bool
    ensures calls { Leads (WithDenials S.answers) service.old.inner service.new.inner }
    ensures none { IsFalse result → service.new.inner ≡ service.old.inner }
    ensures unsent { IsUnsent guests.old guests.new }
{
    let mut is_any = false;
    for _ in 0..HEARINGS_MAX {
        if !hear_all(guests, sockets, service, now, held_max) {
            return is_any;
        }
        is_any = true;
        arrivals.look();
        arrivals.note(guests);
    }
    is_any
}

/// Hears each connection that may have something and was not heard in this round. Whether there was one.
fn hear_all<S: Settle + Drop, T: Socket>(
    guests: &mut [Option<Guest>],
    sockets: &mut [Option<T>],
    service: &mut Held<S>,
    now: u64,
    held_max: usize,
) -> bool
    ensures calls { Leads (WithDenials S.answers) service.old.inner service.new.inner }
    ensures none { IsFalse result → service.new.inner ≡ service.old.inner }
    ensures unsent { IsUnsent guests.old guests.new }
{
    let mut is_any = false;
    let mut held = held_bytes(guests);
    let first = first_reader(guests);
    let count = guests.len().min(sockets.len());
    for index in 0..count {
        let may_read = held < held_max || first == index;
        let before = most_at(&guests[index]);
        if hear_at(
            &mut guests[index],
            &mut sockets[index],
            service,
            now,
            may_read,
        ) {
            is_any = true;
        }
        held = held
            .saturating_sub(before)
            .saturating_add(most_at(&guests[index]));
    }
    is_any
}

/// Hears a connection, if it may have something and was not heard in this round. Whether it was heard.
fn hear_at<S: Settle + Drop, T: Socket>(
    place: &mut Option<Guest>,
    socket: &mut Option<T>,
    service: &mut Held<S>,
    now: u64,
    may_read: bool,
) -> bool
    ensures calls { Leads (WithDenials S.answers) service.old.inner service.new.inner }
    ensures none { IsFalse result → service.new.inner ≡ service.old.inner }
    ensures unsent { sent_at place.new ≡ sent_at place.old }
{
    let Some(guest) = place else {
        return false;
    };
    let Some(socket) = socket else {
        return false;
    };
    hear_guest(guest, socket, service, now, may_read)
}

/// The same of a connection and its socket.
fn hear_guest<S: Settle + Drop, T: Socket>(
    guest: &mut Guest,
    socket: &mut T,
    service: &mut Held<S>,
    now: u64,
    may_read: bool,
) -> bool
    ensures calls { Leads (WithDenials S.answers) service.old.inner service.new.inner }
    ensures none { IsFalse result → service.new.inner ≡ service.old.inner }
    ensures unsent { (history guest.new.connection).sent ≡ (history guest.old.connection).sent }
{
    if !guest.is_ready || guest.is_gone || guest.is_heard {
        return false;
    }
    if guest.leaving.is_some() {
        guest.drain(socket);
        return false;
    }
    guest.is_heard = true;
    let heard = guest.hear(socket, service, now, may_read);
    guest.note_heard(heard);
    true
}

/// Sends what waits at each connection that was heard.
fn tell_all<T: Socket>(guests: &mut [Option<Guest>], sockets: &mut [Option<T>], now: u64)
    ensures { map calls_at guests.new ≡ map calls_at guests.old }
{
    let count = guests.len().min(sockets.len());
    for index in 0..count {
        tell_at(&mut guests[index], &mut sockets[index], now);
    }
}

/// Sends what waits at a connection, if it was heard.
fn tell_at<T: Socket>(place: &mut Option<Guest>, socket: &mut Option<T>, now: u64)
    ensures { calls_at place.new ≡ calls_at place.old }
{
    let Some(guest) = place else {
        return;
    };
    let Some(socket) = socket else {
        return;
    };
    if guest.is_heard {
        tell_guest(guest, socket, now);
    }
}

/// Sends what waits at a connection.
fn tell_guest<T: Socket>(guest: &mut Guest, socket: &mut T, now: u64)
    ensures { (history guest.new.connection).calls ≡ (history guest.old.connection).calls }
{
    guest.is_heard = false;
    match guest.tell(socket, now) {
        Told::Failed => guest.is_gone = true,
        // The socket's next event says that it takes more.
        Told::Blocked => guest.is_ready = false,
        Told::More => guest.is_ready = true,
        Told::All => guest.leave_if_done(socket),
    }
}

/// The most bytes of requests that each connection held at once, in all: it keeps its largest block.
pub(crate) fn held_bytes(guests: &[Option<Guest>]) -> usize
    ensures { result ≡ held_by guests.now }
{
    let mut held: usize = 0;
    for place in guests {
        held = held.saturating_add(most_at(place));
    }
    held
}

fn most_at(place: &Option<Guest>) -> usize
    ensures { result ≡ most_at place.now }
{
    match place {
        Some(guest) => guest.most,
        None => 0,
    }
}

/// The index of the connection whose request began first; where none has begun, of one that may
/// have something. The number of connections, if there is none.
pub(crate) fn first_reader(guests: &[Option<Guest>]) -> usize {
    let mut first = guests.len();
    let mut earliest = u64::MAX;
    for index in 0..guests.len() {
        let Some(guest) = &guests[index] else {
            continue;
        };
        let begun = guest.begun.unwrap_or(u64::MAX);
        if begun < earliest
            || (first == guests.len() && (guest.is_ready || guest.begun.is_some()))
        {
            first = index;
            earliest = begun;
        }
    }
    first
}
