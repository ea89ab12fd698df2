//! Connections that have something by now.

ghost use Rattle.std.specs.Prelude.{◌≡◌};
ghost use Rattle.service.specs.Rounds.{IsUnsent, sent_at};

use crate::guest::Guest;

/// What tells which connections may have something to read, or take something.
pub trait Arrivals {
    /// Looks which have. It does not wait.
    fn look(&mut self);

    /// Notes those that had something at the last look, each at its place.
    fn note(&self, guests: &mut [Option<Guest>])
        ensures { IsUnsent guests.old guests.new };
}

/// Tells of no connection.
#[derive(Clone, Copy, PartialEq, Eq)]
pub struct NoArrivals;

impl Arrivals for NoArrivals {
    fn look(&mut self) {}

    fn note(&self, _guests: &mut [Option<Guest>]) {}
}

/// Notes that the connection at a place, if there is one, may have something to read, or take something.
pub fn note_ready(guests: &mut [Option<Guest>], place: usize)
    ensures { IsUnsent guests.old guests.new }
{
    if place >= guests.len() {
        return;
    }
    note_ready_at(&mut guests[place]);
}

fn note_ready_at(place: &mut Option<Guest>)
    ensures { sent_at place.new ≡ sent_at place.old }
{
    if let Some(guest) = place {
        guest.note_ready();
    }
}
