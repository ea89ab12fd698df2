//! The parts of a desk besides its core: how they are made, and how the shares are merged.

ghost use Rattle.std.specs.Prelude.{◌≡◌, ◌+◌, ◌<◌, ◌≤◌, [], length, map, sum, IfSome};
ghost use Rattle.std.specs.List.{AllByRecursion};
ghost use Rattle.desk.specs.Keeping.{HaveNumbersFrom};
ghost use Rattle.desk.specs.State.{IsNew};

use crate::origin::Origin;
use crate::roster::Roster;
use crate::seat::Seat;
use crate::telling::Telling;
use history::Opened;
use journal::JournalStore;
use primary::PrimaryCore;
use std::alloc::Global;
use std::sync::Wait;
use std::sync::ledger::{Book, Share};

/// The parts of a desk besides its core; `rest` is what is left of the ledger after each seat has
/// its share.
#[derive(Drop)]
pub(crate) struct Parts<L: Origin, R: Wait + Drop> {
    pub telling: Telling<L, R>,
    pub roster: Roster<L>,
    pub free: Vec<Seat<L>>,
    pub rest: Share<L>,
}

/// The parts of a desk for this primary and this many seats, with everything that is durable
/// published; `None` if out of memory.
pub(crate) fn open_parts<L: Origin, J: JournalStore, R: Wait + Drop>(
    alloc: Global,
    rt: R,
    core: &PrimaryCore<J>,
    opened: Opened,
    book: Book<L>,
    rest: Share<L>,
    seats: u8,
) -> Option<Parts<L, R>>
    requires opened { opened.seen.book ≡ L.book }
    requires schema { core.now.primary.schema ≡ L.schema }
    requires workers { core.now.primary.workers ≡ L.workers }
    requires first { core.now.primary.durable ≡ L.first.durable }
    requires book { book.total ≡ 0 }
    requires rest { (rest.parts ≡ seats) × (rest.amount ≡ 0) }
    requires seats { (0 < seats) × (seats ≡ L.seats) }
    ensures telling { IfSome result (λ p. (p.telling.all ≡ core.now.primary.durable) × (p.telling.shown ≡ core.now.primary.durable)) }
    ensures roster { IfSome result (λ p. p.roster.seats ≡ []) }
    ensures free { IfSome result (λ p. (length p.free.items ≡ seats) × AllByRecursion (IsNew L.first) p.free.items) }
    ensures numbers { IfSome result (λ p. HaveNumbersFrom 0 p.free.items) }
    ensures rest { IfSome result (λ p. (p.rest.parts ≡ 0) × (p.rest.amount ≡ 0)) }
{
    let telling = told::<L, J, R>(alloc, rt, core, opened, seats)?;
    let roster = Roster::new(alloc, book, seats).ok()?;
    let mut rest = rest;
    let free = manned(alloc, &telling, &mut rest, seats)?;
    Some(Parts {
        telling,
        roster,
        free,
        rest,
    })
}

/// A telling of everything that is durable, which is published; `None` if out of memory.
fn told<L: Origin, J: JournalStore, R: Wait + Drop>(
    alloc: Global,
    rt: R,
    core: &PrimaryCore<J>,
    opened: Opened,
    seats: u8,
) -> Option<Telling<L, R>>
    requires opened { opened.seen.book ≡ L.book }
    requires schema { core.now.primary.schema ≡ L.schema }
    requires workers { core.now.primary.workers ≡ L.workers }
    requires some { 0 < seats }
    ensures { IfSome result (λ t. (t.all ≡ core.now.primary.durable) × (t.shown ≡ core.now.primary.durable)) }
{
    core.keeps_legal();
    let versions = core.versions();
    let durable = versions.commits().split_at(core.durable() as usize).0;
    match Telling::new(alloc, rt, opened, versions.schema(), seats as usize) {
        Ok(mut telling) => {
            if telling.publish(durable) {
                Some(telling)
            } else {
                None
            }
        }
        Err(_) => None,
    }
}

/// This many seats, which have seen everything that is told; each takes one part of the ledger.
/// `None` if out of memory.
fn manned<L: Origin, R: Wait + Drop>(
    alloc: Global,
    telling: &Telling<L, R>,
    rest: &mut Share<L>,
    seats: u8,
) -> Option<Vec<Seat<L>>>
    requires rest { (rest.old.parts ≡ seats) × (rest.old.amount ≡ 0) }
    requires seats { seats ≡ L.seats }
    requires told { telling.now.all ≡ L.first.durable }
    ensures free { IfSome result (λ free. (length free.items ≡ seats) × AllByRecursion (IsNew L.first) free.items) }
    ensures numbers { IfSome result (λ free. HaveNumbersFrom 0 free.items) }
    ensures rest { IfSome result (λ free. (rest.new.parts ≡ 0) × (rest.new.amount ≡ 0)) }
{
    let mut free = Vec::with_capacity(alloc, seats as usize).ok()?;
    for number in 0..seats {
        let reading = telling.seat()?;
        let share = rest.split_off(1, 0);
        free.push_reserved(Seat {
            reading,
            number,
            last: 0,
            share,
        });
    }
    Some(free)
}

/// Confirms that these are all seats, those that were not given out and the others, and that the
/// shares of the latter are the number of commits; what is left of the ledger has none.
pub(crate) fn audit_all<L: Origin>(
    roster: Roster<L>,
    rest: Share<L>,
    free: Vec<Seat<L>>,
    seats: Vec<Seat<L>>,
)
    requires parts { L.parts ≡ L.seats }
    requires rest { (rest.parts ≡ 0) × (rest.amount ≡ 0) }
    requires free { AllByRecursion (IsNew L.first) free.items }
    requires all { L.seats ≤ length seats.items + length free.items }
    ensures all { length seats.items + length free.items ≡ L.seats }
    ensures counted { sum (map (λ seat. seat.share) seats.items) ≡ length roster.seats }
{
    let mut roster = roster;
    let mut all = merged(merged(rest, free), seats);
    roster.audit(&mut all);
}

/// A share merged with those of these seats.
fn merged<L: Origin>(rest: Share<L>, seats: Vec<Seat<L>>) -> Share<L>
    ensures parts { result.parts ≡ rest.parts + length seats.items }
    ensures within { result.parts ≤ L.parts }
    ensures amount { result.amount ≡ rest.amount + sum (map (λ seat. seat.share) seats.items) }
{
    let mut all = rest;
    for seat in seats {
        let Seat { share, .. } = seat;
        all.merge(share);
    }
    // A merge shows that a share has no more than all parts, also if there is no seat.
    let none = all.empty();
    all.merge(none);
    all
}
