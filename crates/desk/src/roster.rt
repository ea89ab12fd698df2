//! The seat of each commit.

ghost use Rattle.std.specs.Prelude.{◌≡◌, ◌+◌, ◌<◌, ◌≤◌, [], ◌∷◌, ◌++◌, length, IfOk, MatchBool};
ghost use Rattle.desk.specs.Keeping.{commit_count, last_number};
ghost use Rattle.desk.specs.Inner.Noted.{IsNoted};

use crate::origin::Origin;
use crate::seat::Seat;
use std::alloc::{AllocError, Global};
use std::marker::Model;
use std::sync::ledger::{Book, Share};

/// The seat of each commit since the line was made, the last number of each seat, and the book of
/// the ledger that counts these commits.
#[derive(Drop)]
pub(crate) struct Roster<L: Origin> {
    book: Book<L>,
    seats: Vec<u8>,
    lasts: Vec<u64>,
}

impl<L: Origin> Model for Roster<L> {
    ghost use Rattle.std.specs.Prelude.{◌-◌, vec_len, vec_capacity};
    ghost use Rattle.desk.specs.Inner.Noted.{Noted, IsNoted};

    ghost Value = { Noted };

    ghost view = { λ r. record {
      seats = r.seats.items;
      lasts = r.lasts.items;
      total = r.book.total;
      room = vec_capacity r.seats - vec_len r.seats;
    } };

    ghost invariant = { λ r. IsNoted L.first L.seats (record {
      seats = r.seats.items;
      lasts = r.lasts.items;
      total = r.book.total;
      room = vec_capacity r.seats - vec_len r.seats;
    }) };
}

impl<L: Origin> Roster<L> {
    /// A roster of this many seats, without commits. Fails only if out of memory.
    pub fn new(alloc: Global, book: Book<L>, count: u8) -> Result<Roster<L>, AllocError>
        requires count { count ≡ L.seats }
        requires none { book.total ≡ 0 }
        ensures none { IfOk result (λ roster. roster.seats ≡ []) }
        ensures noted { IfOk result (IsNoted L.first L.seats) }
    {
        let mut lasts = Vec::with_capacity(alloc, count as usize)?;
        for _ in 0..count {
            lasts.push_reserved(0);
        }
        Ok(Roster {
            book,
            seats: Vec::new(alloc),
            lasts,
        })
    }

    /// Takes memory for one more commit; answers whether there was any.
    pub fn reserve(&mut self) -> bool
        ensures same { (self.new.seats ≡ self.old.seats) × (self.new.lasts ≡ self.old.lasts) × (self.new.total ≡ self.old.total) }
        ensures room { MatchBool result (0 < self.new.room) (Unit {0}) }
    {
        self.seats.reserve(1).is_ok()
    }

    /// The last number of a seat.
    pub fn last(&self, seat: u8) -> u64
        requires { seat < L.seats }
        ensures last { result ≡ last_number L.first self.now.seats seat }
        ensures within { result ≤ commit_count L.first + length self.now.seats }
    {
        self.lasts[seat as usize]
    }

    /// Records that the next commit, of this number, belongs to the seat, whose share grows by it.
    /// Takes no memory.
    pub fn note(&mut self, seat: &mut Seat<L>, number: u64)
        requires room { 0 < self.old.room }
        requires next { number ≡ commit_count L.first + length self.old.seats + 1 }
        ensures seats { self.new.seats ≡ self.old.seats ++ seat.old.number ∷ [] }
        ensures noted { IsNoted L.first L.seats self.new }
        ensures seat { seat.new ≡ record seat.old { last = number; share = seat.old.share + 1 } }
    {
        let Roster { book, seats, lasts } = self;
        seats.push_reserved(seat.number);
        lasts[seat.number as usize] = number;
        book.add(&mut seat.share, 1);
        seat.last = number;
    }

    /// Confirms that the shares of all seats together are the number of commits. Nothing changes.
    pub fn audit(&mut self, all: &mut Share<L>)
        requires { all.old.parts ≡ L.parts }
        ensures same { self.new ≡ self.old }
        ensures all { all.old.amount ≡ length self.old.seats }
    {
        self.book.audit(all);
    }
}
