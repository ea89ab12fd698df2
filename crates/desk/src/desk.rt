//! The desk.

ghost use Rattle.std.specs.Prelude.{◌≡◌, ◌⊎◌, ◌+◌, ◌<◌, ◌≤◌, [], ◌∷◌, ◌++◌, length, map, sum, take};
ghost use Rattle.std.specs.Prelude.{Ok, Err, None, true, false, ◌&&◌, nat_lt, nat_le, is_some, is_none, IfOk, IfErr, IfSome, OnOk, OnErr};
ghost use Rattle.std.specs.Prelude.{ℕ, slice_get, IsOk, MatchBool, MatchOption, vec_capacity};
ghost use mathlib.Core.List.{IsPrefix};
ghost use Rattle.rows.specs.Shape.{shape_of};
ghost use Rattle.journal.specs.Recovery.{IsJournaled};
ghost use Rattle.primary.specs.Journaling.{IsUnchanged, IsFlushRefusal};
ghost use Rattle.primary.specs.Lending.{IsLentBy, EndsWritten, ended};
ghost use Rattle.primary.specs.Sending.{pushed, answers, pieces_of_base};
ghost use Rattle.primary.specs.Steps.{commit_answer, committed, based_at};
ghost use Rattle.wire.specs.Spelling.{spelling};
ghost use Rattle.desk.specs.Answers.{IsCommitRefusal, IsFlushed, TellsDurable, IsSettled, Stands, left_to_flush};
ghost use Rattle.desk.specs.Answers.{primary_of, packet_at, row_of, kept_from, IsBaseOf, IsReadable};
ghost use Rattle.desk.specs.Keeping.{IsKept, commit_count};
ghost use Rattle.desk.specs.State.{IsNew};

use crate::answers::{Flushed, Settled};
use crate::origin::Origin;
use crate::parts::{Parts, audit_all, open_parts};
use crate::roster::Roster;
use crate::row::fill_row;
use crate::seat::Seat;
use crate::telling::Telling;
use history::Opened;
use journal::JournalStore;
use mvcc::Transaction;
use primary::{CommitFault, Done, FlushFault, PrimaryCore, Ticket, Work};
use std::alloc::{AllocError, Global};
use std::marker::Model;
use std::sync::Wait;
use std::sync::ledger::{Blank, Share};
use wire::{Out, Packet};

/// What is under the lock of a line.
///
/// Contracts see the primary's core, what of the durable list is told and published, the seat of
/// each commit since the line was made, the last number of each seat, the sum of all shares, and
/// how many seats are not given out. `IsKept` specifies what holds of them whenever the lock is
/// taken.
#[derive(Drop)]
pub struct Desk<L: Origin, J: JournalStore, R: Wait + Drop> {
    core: PrimaryCore<J>,
    telling: Telling<L, R>,
    roster: Roster<L>,
    free: Vec<Seat<L>>,
    count: usize,
    rest: Share<L>,
}

impl<L: Origin, J: JournalStore, R: Wait + Drop> Model for Desk<L, J, R> {
    ghost use Rattle.std.specs.Prelude.{◌≡◌, length};
    ghost use Rattle.std.specs.List.{AllByRecursion};
    ghost use Rattle.desk.specs.State.{OnDesk, IsNew};
    ghost use Rattle.desk.specs.Keeping.{IsKept, HaveNumbersFrom};

    ghost Value = { OnDesk J };

    ghost view = { λ d. record {
      core = d.core;
      told = d.telling.all;
      shown = d.telling.shown;
      seats = d.roster.seats;
      lasts = d.roster.lasts;
      total = d.roster.total;
      free = length d.free.items;
    } };

    ghost invariant = { λ d. IsKept L.first L.seats (record {
      core = d.core;
      told = d.telling.all;
      shown = d.telling.shown;
      seats = d.roster.seats;
      lasts = d.roster.lasts;
      total = d.roster.total;
      free = length d.free.items;
    })
        × (L.first.schema ≡ L.schema) × (L.first.workers ≡ L.workers)
        × (d.count ≡ L.seats) × (d.rest.parts ≡ 0) × (d.rest.amount ≡ 0)
        × AllByRecursion (IsNew L.first) d.free.items × HaveNumbersFrom 0 d.free.items };
}

impl<L: Origin, J: JournalStore, R: Wait + Drop> Desk<L, J, R> {
    /// A desk for this primary, with this many seats; what is durable is told and published. If out
    /// of memory, it hands the primary back.
    pub fn new(
        alloc: Global,
        rt: R,
        core: PrimaryCore<J>,
        opened: Opened,
        blank: Blank,
        seats: u8,
    ) -> Result<Desk<L, J, R>, PrimaryCore<J>>
        requires book { opened.seen.book ≡ L.book }
        requires schema { core.primary.schema ≡ L.schema }
        requires workers { core.primary.workers ≡ L.workers }
        requires first { core.primary ≡ L.first }
        requires name { blank.name ≡ L.name }
        requires parts { blank.parts ≡ L.parts }
        requires seats { (blank.parts ≡ seats) × (seats ≡ L.seats) }
        requires some { 0 < seats }
        ensures ok { IfOk result (λ desk. (desk.core ≡ core) × (desk.told ≡ core.primary.durable) × (desk.shown ≡ core.primary.durable)
            × (desk.free ≡ seats) × (desk.seats ≡ [])) }
        ensures err { IfErr result (λ back. back ≡ core) }
    {
        let (book, rest) = blank.open::<L>();
        let Some(parts) = open_parts::<L, J, R>(alloc, rt, &core, opened, book, rest, seats) else {
            return Err(core);
        };
        let Parts {
            telling,
            roster,
            free,
            rest,
        } = parts;
        Ok(Desk {
            core,
            telling,
            roster,
            free,
            count: seats as usize,
            rest,
        })
    }

    /// What holds whenever the lock is taken. It does nothing: its contract is the law.
    pub fn keeps(&self)
        ensures { IsKept L.first L.seats self.now }
    {
        // A look at a field makes the invariant known to the proof.
        let _ = &self.core;
    }

    /// A seat that is not given out yet; `None` if all are. It has seen what was durable when the
    /// line was made, and its number is how many seats are left then, so no two seats of a line have
    /// the same number. Takes no memory.
    pub fn seat(&mut self) -> Option<Seat<L>>
        ensures given { MatchOption result ((self.old.free ≡ 0) × (self.new ≡ self.old))
            (λ seat. IsNew L.first seat × (self.old.free ≡ self.new.free + 1) × (self.new ≡ record self.old { free = self.new.free })) }
        ensures number { IfSome result (λ seat. seat.number ≡ self.new.free) }
        ensures legal { IfSome result (λ seat. IsJournaled L.workers (shape_of L.schema) seat.list) }
    {
        let seat = self.free.pop()?;
        seat.keeps_legal();
        Some(seat)
    }

    /// Publishes what is durable; answers whether there was memory for it.
    fn publish(&mut self) -> bool
        ensures same { self.new ≡ record self.old { told = self.new.told; shown = self.new.shown } }
        ensures later { IsPrefix self.old.told self.new.told }
        ensures durable { IsPrefix self.new.told self.new.core.primary.durable }
        ensures all { MatchBool result
            ((self.new.told ≡ self.new.core.primary.durable) × (self.new.shown ≡ self.new.core.primary.durable)) (Unit {0}) }
    {
        let Desk { core, telling, .. } = self;
        core.keeps_legal();
        let commits = core.versions().commits();
        let durable = commits.split_at(core.durable() as usize).0;
        telling.publish(durable)
    }

    /// Publishes what is durable, and shows it to the seat; answers whether there was memory for
    /// it.
    fn catch_up(&mut self, seat: &mut Seat<L>) -> bool
        ensures same { self.new ≡ record self.old { told = self.new.told; shown = self.new.shown } }
        ensures seat { seat.new ≡ record seat.old { list = seat.new.list } }
        ensures later { IsPrefix seat.old.list seat.new.list }
        ensures durable { IsPrefix seat.new.list self.new.core.primary.durable }
        ensures all { MatchBool result ((seat.new.list ≡ self.new.core.primary.durable) × (self.new.shown ≡ self.new.core.primary.durable))
            (seat.new.list ≡ seat.old.list) }
        ensures legal { IsJournaled L.workers (shape_of L.schema) seat.new.list }
    {
        self.telling.confirm(&seat.reading);
        if !self.publish() {
            seat.keeps_legal();
            return false;
        }
        self.telling.teach(&mut seat.reading);
        seat.keeps_legal();
        true
    }

    /// Commits a transaction for a worker, as the core does. The commit is recorded under the
    /// seat's number, and the seat's share grows by it. Memory to record it is taken first.
    ///
    /// Fails as the core does, or with `Memory`; it then hands the transaction back, and nothing
    /// has changed.
    pub fn commit(
        &mut self,
        seat: &mut Seat<L>,
        transaction: Transaction,
        worker: u8,
    ) -> Result<Ticket, (Transaction, CommitFault)>
        requires { worker < L.workers }
        ensures ok { IfOk result (λ ticket. (commit_answer self.old.core.primary worker transaction ≡ Ok ticket.number)
            × (ticket.worker ≡ worker) × (ticket.entries ≡ transaction.entries)
            × (self.new.core.primary ≡ committed self.old.core.primary worker transaction.entries)) }
        ensures carried { IfOk result (λ ticket. (self.new.seats ≡ self.old.seats ++ seat.old.number ∷ [])
            × (seat.new ≡ record seat.old { last = ticket.number; share = seat.old.share + 1 })) }
        ensures above { IfOk result (λ ticket. (transaction.snapshot < ticket.number) × (seat.old.last < ticket.number)) }
        ensures refused { IfErr result (λ refusal. (refusal.0 ≡ transaction) × (self.new ≡ self.old) × (seat.new ≡ seat.old)
            × ((refusal.1 ≡ CommitFault.Memory) ⊎ (commit_answer self.old.core.primary worker transaction ≡ Err refusal.1))) }
        ensures seen { IfErr result (λ refusal. IsCommitRefusal L.schema seat.old.list transaction refusal.1) }
        ensures journal { self.new.core.journal ≡ self.old.core.journal }
        ensures kept { (self.new.told ≡ self.old.told) × (self.new.shown ≡ self.old.shown) × (self.new.free ≡ self.old.free) }
        ensures legal { IsJournaled L.workers (shape_of L.schema) seat.new.list }
    {
        seat.keeps_legal();
        self.telling.confirm(&seat.reading);
        // The number that is recorded for a seat is the seat's own, since no two seats have the
        // same number.
        if !self.roster.reserve() || self.roster.last(seat.number) != seat.last {
            return Err((transaction, CommitFault::Memory));
        }
        match self.core.commit(transaction, worker) {
            Ok(ticket) => {
                self.roster.note(seat, ticket.number);
                Ok(ticket)
            }
            Err(refusal) => Err(refusal),
        }
    }

    /// The state of a ticket's commit, after what is durable was published and the seat has seen
    /// it.
    ///
    /// `Settled`: the commit is in the seat's list, at its number; `Lost`: another one is;
    /// `NotYet`: the list is the whole durable one, and shorter than the number; `Unpublished`: the
    /// list is shorter, and there was no memory to publish what is durable.
    pub fn settle(&mut self, seat: &mut Seat<L>, ticket: &Ticket) -> Settled
        ensures legal { IsJournaled L.workers (shape_of L.schema) seat.new.list }
        ensures later { IsPrefix seat.old.list seat.new.list }
        ensures seat { seat.new ≡ record seat.old { list = seat.new.list } }
        ensures answer { IsSettled seat.new.list ticket.now result }
        ensures all { result ≡ Settled.NotYet → seat.new.list ≡ self.new.core.primary.durable }
        ensures same { self.new ≡ record self.old { told = self.new.told; shown = self.new.shown } }
    {
        let all = self.catch_up(seat);
        if ticket.number > seat.len() {
            return if all {
                Settled::NotYet
            } else {
                Settled::Unpublished
            };
        }
        if self.stands(ticket) {
            Settled::Settled(ticket.number)
        } else {
            Settled::Lost
        }
    }

    /// Whether the ticket's commit is the durable commit of its number; there is one.
    fn stands(&self, ticket: &Ticket) -> bool
        requires { ticket.now.number ≤ length self.now.core.primary.durable }
        ensures { MatchBool result (Stands self.now.core.primary.durable ticket.now) (¬ Stands self.now.core.primary.durable ticket.now) }
    {
        rows::laws::equal_is_same();
        match self.core.versions().commit_at(ticket.number) {
            None => false,
            Some(commit) => commit.worker == ticket.worker && commit.entries == ticket.entries,
        }
    }

    /// The packet of that `seq` of the worker's stream of the durable list, if it is kept, after that
    /// list was published and the seat has seen it. Fails only if out of memory.
    pub fn push(
        &mut self,
        seat: &mut Seat<L>,
        worker: u8,
        seq: u64,
    ) -> Result<Option<Packet>, AllocError>
        ensures legal { IsJournaled L.workers (shape_of L.schema) seat.new.list }
        ensures ok { IfOk result (λ packet. (seat.new.list ≡ self.new.core.primary.durable)
            × (packet ≡ pushed (primary_of L.schema L.workers seat.new.list self.new.core.primary.base) worker seq)) }
        ensures base { IfOk result (λ _. IsBaseOf (shape_of L.schema) seat.new.list self.new.core.primary.base) }
        ensures readable { IfOk result (λ _. IsReadable L.workers (shape_of L.schema) seat.new.list) }
        ensures err { OnErr result (seat.new ≡ seat.old) }
        ensures later { IsPrefix seat.old.list seat.new.list }
        ensures seat { seat.new ≡ record seat.old { list = seat.new.list } }
        ensures same { self.new ≡ record self.old { told = self.new.told; shown = self.new.shown } }
    {
        if !self.catch_up(seat) {
            return Err(AllocError);
        }
        self.core.keeps_legal();
        Ok(self.core.push(worker, seq))
    }

    /// Puts the packets of the worker's stream of the durable list from the seq `from` on, or from the
    /// first frame on that is kept if that is a later one, into an empty row, in order: as many as
    /// the stream has, and at most `most`, for which the row has room; after that list was published
    /// and the seat has seen it. Answers the seq of the first packet. Fails only if out of memory;
    /// the row is then still empty.
    pub fn push_row(
        &mut self,
        seat: &mut Seat<L>,
        worker: u8,
        from: u64,
        most: usize,
        row: &mut Vec<Packet>,
    ) -> Result<u64, AllocError>
        requires empty { row.old.items ≡ [] }
        requires room { most ≤ vec_capacity row.old }
        ensures legal { IsJournaled L.workers (shape_of L.schema) seat.new.list }
        ensures start { IfOk result (λ start. start ≡ kept_from seat.new.list self.new.core.primary.base worker from) }
        ensures ok { IfOk result (λ start. (seat.new.list ≡ self.new.core.primary.durable)
            × (row.new.items ≡ row_of seat.new.list worker start most)) }
        ensures each { IfOk result (λ start. (index : ℕ) → index < most
            → slice_get row.new.items index ≡ packet_at seat.new.list worker (start + index)) }
        ensures few { length row.new.items ≤ most }
        ensures below { IfOk result (λ start. start + length row.new.items ≤ u64.MAX) }
        ensures base { IfOk result (λ _. IsBaseOf (shape_of L.schema) seat.new.list self.new.core.primary.base) }
        ensures readable { IfOk result (λ _. IsReadable L.workers (shape_of L.schema) seat.new.list) }
        ensures err { OnErr result ((row.new.items ≡ []) × (seat.new ≡ seat.old)) }
        ensures later { IsPrefix seat.old.list seat.new.list }
        ensures seat { seat.new ≡ record seat.old { list = seat.new.list } }
        ensures same { self.new ≡ record self.old { told = self.new.told; shown = self.new.shown } }
    {
        if !self.catch_up(seat) {
            return Err(AllocError);
        }
        self.core.keeps_legal();
        let start = from.max(self.core.low(worker));
        fill_row(&self.core, worker, start, most, row);
        Ok(start)
    }

    /// What the primary sends for bytes that arrived, after what is durable was published and the
    /// seat has seen it. Fails only if out of memory.
    pub fn on_bytes(&mut self, seat: &mut Seat<L>, bytes: &[u8]) -> Result<Vec<Out>, AllocError>
        ensures legal { IsJournaled L.workers (shape_of L.schema) seat.new.list }
        ensures ok { IfOk result (λ outs. (seat.new.list ≡ self.new.core.primary.durable)
            × (outs.items ≡ answers (primary_of L.schema L.workers seat.new.list self.new.core.primary.base) bytes.now)) }
        ensures base { IfOk result (λ _. IsBaseOf (shape_of L.schema) seat.new.list self.new.core.primary.base) }
        ensures readable { IfOk result (λ _. IsReadable L.workers (shape_of L.schema) seat.new.list) }
        ensures later { IsPrefix seat.old.list seat.new.list }
        ensures seat { seat.new ≡ record seat.old { list = seat.new.list } }
        ensures same { self.new ≡ record self.old { told = self.new.told; shown = self.new.shown } }
    {
        if !self.catch_up(seat) {
            return Err(AllocError);
        }
        self.core.keeps_legal();
        self.core.on_bytes(bytes)
    }

    /// Publishes what is durable, and shows it to the seat, before a base is made of it. Answers the base
    /// and how many pieces it has if it is the core's base already; otherwise `None`: the pieces are to be
    /// made (`Seat::base_pieces`), for which the lock can be released, and put in place (`put_base`).
    ///
    /// Fails only if out of memory.
    pub fn open_base(&mut self, seat: &mut Seat<L>) -> Result<Option<(u64, u64)>, AllocError>
        ensures legal { IsJournaled L.workers (shape_of L.schema) seat.new.list }
        ensures shown { OnOk result ((seat.new.list ≡ self.new.core.primary.durable)
            × (self.new.shown ≡ self.new.core.primary.durable)) }
        ensures stands { IfOk result (λ taken. IfSome taken (λ base. (self.new.core.primary.base ≡ length seat.new.list)
            × (base ≡ (length seat.new.list, length (pieces_of_base (shape_of L.schema) seat.new.list (length seat.new.list)))))) }
        ensures missing { IfOk result (λ taken. taken ≡ None → ¬ (self.new.core.primary.base ≡ length seat.new.list)) }
        ensures later { IsPrefix seat.old.list seat.new.list }
        ensures seat { seat.new ≡ record seat.old { list = seat.new.list } }
        ensures same { self.new ≡ record self.old { told = self.new.told; shown = self.new.shown } }
    {
        if !self.catch_up(seat) {
            return Err(AllocError);
        }
        let (base, pieces) = self.core.base();
        if base == seat.len() {
            return Ok(Some((base, pieces)));
        }
        Ok(None)
    }

    /// Puts the base of what the seat has seen in place, of which these are the pieces
    /// (`Seat::base_pieces`). If the core has a later base, nothing is done.
    ///
    /// Fails only if out of memory; nothing has then changed.
    pub fn put_base(&mut self, seat: &Seat<L>, pieces: Vec<Packet>) -> Result<(), AllocError>
        requires { pieces.items ≡ map spelling (pieces_of_base (shape_of L.schema) seat.now.list (length seat.now.list)) }
        ensures ok { OnOk result (self.new.core.primary ≡ based_at self.old.core.primary (length seat.now.list)) }
        ensures err { OnErr result (self.new ≡ self.old) }
        ensures kept { self.new ≡ record self.old { core = record self.old.core { primary = self.new.core.primary } } }
    {
        self.telling.confirm(&seat.reading);
        self.core.put_base(seat.len(), pieces)
    }

    /// The core, if every seat that was given out is handed in: beyond the commits with which the
    /// line was made, it then has as many as the shares of these seats together. Otherwise
    /// everything is handed back.
    pub fn end(self, seats: Vec<Seat<L>>) -> Result<PrimaryCore<J>, (Desk<L, J, R>, Vec<Seat<L>>)>
        requires { L.parts ≡ L.seats }
        ensures ok { IfOk result (λ core. (core ≡ self.core) × (length seats.items + self.free ≡ L.seats)
            × (commit_count core.primary ≡ commit_count L.first + sum (map (λ seat. seat.share) seats.items))) }
        ensures missing { IfErr result (λ back. (back.0 ≡ self) × (back.1.items ≡ seats.items)
            × (length seats.items + self.free < L.seats)) }
    {
        if seats.len() + self.free.len() < self.count {
            return Err((self, seats));
        }
        Ok(self.into_core(seats))
    }

    /// The core, if these are all seats that were given out.
    fn into_core(self, seats: Vec<Seat<L>>) -> PrimaryCore<J>
        requires parts { L.parts ≡ L.seats }
        requires all { L.seats ≤ length seats.items + self.free }
        ensures core { result ≡ self.core }
        ensures all { length seats.items + self.free ≡ L.seats }
        ensures counted { commit_count result.primary ≡ commit_count L.first + sum (map (λ seat. seat.share) seats.items) }
    {
        let Desk {
            core,
            roster,
            free,
            rest,
            ..
        } = self;
        audit_all(roster, rest, free, seats);
        core
    }

    /// How many commits are durable after the first `count` pending ones are (all, if there are
    /// fewer): the target of a flush that is asked for now. Takes no memory.
    pub fn flush_target(&self, count: usize) -> u64
        ensures { result ≡ length self.now.core.primary.durable + length (take count self.now.core.primary.pending) }
    {
        self.core.keeps_legal();
        self.core.durable() + count.min(self.core.pending()) as u64
    }

    /// Whether a flush with this target has to wait: another flush has the journal, and that many
    /// commits are not durable yet.
    pub fn must_wait(&self, target: u64) -> bool
        ensures { result ≡ (is_none self.now.core.journal && nat_lt (length self.now.core.primary.durable) target) }
    {
        self.core.lent() && self.core.durable() < target
    }

    /// Begins a flush of the first `count` pending commits, as the core does, or of none if the
    /// target has been reached meanwhile by another flush. The lock can be released while the
    /// records are written.
    pub fn begin_flush(&mut self, target: u64, count: usize) -> Result<Work<J>, FlushFault>
        ensures ok { IfOk result
            (IsLentBy J.is_honest J.standing J.fault_count self.old.core (left_to_flush self.old.core.primary target count)) }
        ensures lent { OnOk result (self.new ≡ record self.old { core = record self.old.core { journal = None } }) }
        ensures refused { IfErr result (λ fault. ¬ (fault ≡ FlushFault.Journal)
            × IsFlushRefusal self.old.core (left_to_flush self.old.core.primary target count) fault self.new.core.primary) }
        ensures same { OnErr result (IsUnchanged J.is_honest J.standing J.fault_count self.old.core.journal self.new.core.journal) }
        ensures kept { self.new ≡ record self.old { core = self.new.core } }
    {
        let left = if self.core.durable() < target {
            count
        } else {
            0
        };
        self.core.begin_flush(left)
    }
}

impl<L: Origin, J: JournalStore + Drop, R: Wait + Drop> Desk<L, J, R> {
    /// Publishes what is durable, this many commits, and shows it to the seat.
    fn flushed(&mut self, seat: &mut Seat<L>, durable: u64) -> Flushed
        requires { durable ≡ length self.old.core.primary.durable }
        ensures legal { IsJournaled L.workers (shape_of L.schema) seat.new.list }
        ensures answer { IsFlushed seat.old.list seat.new.list result }
        ensures all { TellsDurable self.new.core.primary.durable seat.new.list result }
        ensures later { IsPrefix seat.old.list seat.new.list }
        ensures seat { seat.new ≡ record seat.old { list = seat.new.list } }
        ensures same { self.new ≡ record self.old { told = self.new.told; shown = self.new.shown } }
    {
        if self.catch_up(seat) {
            Flushed::Published(durable)
        } else {
            Flushed::Unpublished(durable)
        }
    }

    /// The answer of a flush whose commits became durable before it could begin, while another
    /// flush has the journal: what is durable is published. `None` if no flush has the journal, or
    /// the commits are not durable.
    pub fn flushed_before(&mut self, seat: &mut Seat<L>, target: u64) -> Option<Flushed>
        ensures legal { IsJournaled L.workers (shape_of L.schema) seat.new.list }
        ensures flushed { IfSome result (IsFlushed seat.old.list seat.new.list) }
        ensures all { IfSome result (TellsDurable self.new.core.primary.durable seat.new.list) }
        ensures durable { IfSome result (λ _. (self.old.core.journal ≡ None) × (target ≤ length self.old.core.primary.durable)) }
        ensures none { result ≡ None → (seat.new ≡ seat.old) × (self.new ≡ self.old)
            × (is_none self.old.core.journal && nat_le target (length self.old.core.primary.durable) ≡ false) }
        ensures same { self.new ≡ record self.old { told = self.new.told; shown = self.new.shown } }
        ensures later { IsPrefix seat.old.list seat.new.list }
        ensures seat { seat.new ≡ record seat.old { list = seat.new.list } }
    {
        let durable = self.core.durable();
        if self.core.lent() && target <= durable {
            Some(self.flushed(seat, durable))
        } else {
            seat.keeps_legal();
            None
        }
    }

    /// Ends the flush that this desk began, as the core does, and publishes what is then durable.
    pub fn end_flush(&mut self, seat: &mut Seat<L>, done: Done<J>) -> Result<Flushed, FlushFault>
        ensures legal { IsJournaled L.workers (shape_of L.schema) seat.new.list }
        ensures not_lent { is_some self.old.core.journal ≡ true
            → (result ≡ Err FlushFault.NotLent) × (self.new ≡ self.old) }
        ensures ended { self.old.core.journal ≡ None → self.new.core ≡ ended self.old.core done }
        ensures answer { self.old.core.journal ≡ None → MatchBool done.taken (IsOk result) (result ≡ Err FlushFault.Journal) }
        ensures written { self.old.core.journal ≡ None
            → EndsWritten J.is_honest J.standing J.fault_count self.old.core done self.new.core }
        ensures flushed { IfOk result (IsFlushed seat.old.list seat.new.list) }
        ensures all { IfOk result (TellsDurable self.new.core.primary.durable seat.new.list) }
        ensures kept { self.new ≡ record self.old { core = self.new.core; told = self.new.told; shown = self.new.shown } }
        ensures refused { IfErr result (λ fault. (seat.new ≡ seat.old) × (self.new ≡ record self.old { core = self.new.core })) }
        ensures later { IsPrefix seat.old.list seat.new.list }
        ensures seat { seat.new ≡ record seat.old { list = seat.new.list } }
    {
        match self.core.end_flush(done) {
            Ok(durable) => Ok(self.flushed(seat, durable)),
            Err(fault) => {
                seat.keeps_legal();
                Err(fault)
            }
        }
    }
}
