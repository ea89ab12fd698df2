//! Connections that end, and connections that have something to do.

ghost use Rattle.std.specs.Prelude.{◌≡◌, None, map};
ghost use Rattle.service.specs.Waits.{left_at, released, released_at};

use crate::guest::Guest;
use crate::limits::Limits;
use crate::round::{first_reader, held_bytes};

/// How many bytes a connection without a request may have held at most, where all hold too many.
const KEPT_BYTES: usize = 65_536;

/// Ends each connection that is gone, or has waited for longer than it may. How many.
pub(crate) fn clear_all(guests: &mut [Option<Guest>], limits: &Limits, now: u64) -> u64
    ensures { guests.new ≡ map (left_at limits.now now) guests.old }
{
    let mut ended: u64 = 0;
    for index in 0..guests.len() {
        if clear_at(&mut guests[index], limits, now) {
            ended = ended.saturating_add(1);
        }
    }
    ended
}

/// Ends the connection at a place, if it is gone, or has waited for longer than it may. Whether it ended one.
fn clear_at(place: &mut Option<Guest>, limits: &Limits, now: u64) -> bool
    ensures { place.new ≡ left_at limits.now now place.old }
{
    let is_over = match place {
        Some(guest) => guest.is_gone || guest.is_late(limits, now),
        None => false,
    };
    if is_over {
        empty(place);
    }
    is_over
}

/// Drops what is at a place. What that consists of is nothing to this function, and so not to its proof.
fn empty<T: Drop>(place: &mut Option<T>)
    ensures { place.new ≡ None }
{
    *place = None;
}

/// Marks connections as gone that hold a large block and no request, if all hold too many bytes.
pub(crate) fn release_blocks(guests: &mut [Option<Guest>], held_max: usize)
    ensures { guests.new ≡ released held_max guests.old }
{
    if held_bytes(guests) < held_max {
        return;
    }
    for index in 0..guests.len() {
        release_at(&mut guests[index]);
    }
}

/// Marks a connection as gone, if it holds a large block and no request.
fn release_at(place: &mut Option<Guest>)
    ensures { place.new ≡ released_at place.old }
{
    if let Some(guest) = place
        && guest.begun.is_none()
        && guest.most > KEPT_BYTES
        && !guest.connection.wants_write()
    {
        guest.is_gone = true;
    }
}

/// Whether a connection has something to do before any event comes.
pub(crate) fn is_any_ready(guests: &[Option<Guest>], held_max: usize) -> bool {
    let may_read = held_bytes(guests) < held_max;
    let first = first_reader(guests);
    for index in 0..guests.len() {
        if let Some(guest) = &guests[index]
            && guest.is_ready
            && (may_read
                || index == first
                || guest.connection.wants_write()
                || guest.leaving.is_some())
        {
            return true;
        }
    }
    false
}
