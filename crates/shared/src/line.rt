//! The line: the lock, and the calls that take it.

ghost use Rattle.std.specs.Prelude.{◌≡◌, ◌+◌, ◌<◌, ◌≤◌, ℕ, [], length, map, sum, slice_get, IfOk, IfErr, IfSome, OnOk, OnErr, MatchResult};
ghost use mathlib.Core.List.{IsPrefix};
ghost use Rattle.rows.specs.Shape.{shape_of};
ghost use Rattle.journal.specs.Recovery.{IsJournaled};
ghost use Rattle.primary.specs.Sending.{pushed, answers, pieces_of_base};
ghost use Rattle.desk.specs.Answers.{IsCommitRefusal, IsFlushed, IsSettled, IsReadable, IsBaseOf, primary_of, packet_at};
ghost use Rattle.desk.specs.Answers.{row_of, kept_from};
ghost use Rattle.desk.specs.Keeping.{commit_count};
ghost use Rattle.desk.specs.State.{IsNew};

use crate::faults::NewFault;
use crate::start::Start;
use desk::{Desk, Flushed, Origin, Seat, Settled};
use journal::JournalStore;
use mvcc::Transaction;
use primary::{CommitFault, FlushFault, PrimaryCore, Ticket};
use std::alloc::{AllocError, Global};
use std::sync::{Condvar, Mutex, Wait};
use wire::{Out, Packet};

/// A primary for many threads, each with a seat.
///
/// `L` is the line's name. `R` is the handle with which it waits for readers of what is published.
/// `desk::specs::Keeping` specifies what holds under the lock each time it is taken.
#[derive(Drop)]
pub struct Line<L: Origin, J: JournalStore, R: Wait + Drop> {
    alloc: Global,
    desk: Mutex<Desk<L, J, R>>,
    /// Notified each time a flush has ended.
    written: Condvar,
}

impl<L: Origin, J: JournalStore, R: Wait + Drop> Line<L, J, R> {
    /// A line for this primary, with the seats that `start` names; what is durable is published.
    /// Fails with `Memory` if out of memory, and then hands the primary back.
    pub fn new(
        alloc: Global,
        rt: R,
        core: PrimaryCore<J>,
        start: Start,
    ) -> Result<Line<L, J, R>, (PrimaryCore<J>, NewFault)>
        requires book { start.opened.seen.book ≡ L.book }
        requires schema { core.primary.schema ≡ L.schema }
        requires workers { core.primary.workers ≡ L.workers }
        requires first { core.primary ≡ L.first }
        requires name { start.blank.name ≡ L.name }
        requires parts { start.blank.parts ≡ L.parts }
        requires seats { start.seats ≡ L.seats }
        ensures { IfErr result (λ refusal. (refusal.0 ≡ core) × (refusal.1 ≡ NewFault.Memory)) }
    {
        let Start {
            opened,
            blank,
            seats,
        } = start;
        match Desk::new(alloc, rt, core, opened, blank, seats) {
            Ok(desk) => Ok(Line {
                alloc,
                desk: Mutex::new(desk),
                written: Condvar::new(),
            }),
            Err(core) => Err((core, NewFault::Memory)),
        }
    }

    /// A seat that was not given out yet; `None` if all were. It has seen what was durable when the
    /// line was made, and has no ticket. It may wait; takes no memory.
    pub fn seat<W: Wait>(&self, rt: &W) -> Option<Seat<L>>
        ensures new { IfSome result (IsNew L.first) }
        ensures legal { IfSome result (λ seat. IsJournaled L.workers (shape_of L.schema) seat.list) }
    {
        self.desk.lock(rt).seat()
    }

    /// Commits a transaction for a worker: the commit is pending, and the ticket has its number,
    /// worker and entries. It may wait.
    ///
    /// Fails with the first of these, and hands the transaction back: `Failed`, the journal failed;
    /// `ReadOnly`, it has no entries; `Foreign`, it is not of this primary; `Conflict` with the
    /// number of the last commit after its snapshot that touches one of its rows; `NumbersUsedUp`.
    /// `Memory` precedes these if there is no memory to record the commit's seat. If the conflict
    /// is with a commit that is still pending, flush before the transaction is begun again: a
    /// snapshot has only durable commits.
    pub fn commit<W: Wait>(
        &self,
        rt: &W,
        seat: &mut Seat<L>,
        transaction: Transaction,
        worker: u8,
    ) -> Result<Ticket, (Transaction, CommitFault)>
        requires { worker < L.workers }
        ensures ok { IfOk result (λ ticket. (ticket.worker ≡ worker) × (ticket.entries ≡ transaction.entries)) }
        ensures above { IfOk result (λ ticket. (transaction.snapshot < ticket.number) × (seat.old.last < ticket.number)) }
        ensures seat { MatchResult result (λ ticket. seat.new ≡ record seat.old { last = ticket.number; share = seat.old.share + 1 })
            (λ refusal. seat.new ≡ seat.old) }
        ensures refused { IfErr result (λ refusal. (refusal.0 ≡ transaction)
            × IsCommitRefusal L.schema seat.old.list transaction refusal.1) }
        ensures legal { IsJournaled L.workers (shape_of L.schema) seat.new.list }
    {
        self.desk.lock(rt).commit(seat, transaction, worker)
    }

    /// The state of a ticket's commit, after what is durable was published. It may wait.
    ///
    /// `Settled`: the commit is durable; `Lost`: another commit is durable under its number;
    /// `NotYet`: the durable list is shorter than its number; `Unpublished`: the seat's list is
    /// shorter, and there was no memory to publish what is durable.
    pub fn settle<W: Wait>(&self, rt: &W, seat: &mut Seat<L>, ticket: &Ticket) -> Settled
        ensures legal { IsJournaled L.workers (shape_of L.schema) seat.new.list }
        ensures later { IsPrefix seat.old.list seat.new.list }
        ensures seat { seat.new ≡ record seat.old { list = seat.new.list } }
        ensures answer { IsSettled seat.new.list ticket.now result }
    {
        self.desk.lock(rt).settle(seat, ticket)
    }

    /// The packet of that `seq` of the worker's stream of what is durable, if the stream has it and
    /// it is kept, after what is durable was published. It may wait. Fails only if out of memory,
    /// and then hands nothing out.
    pub fn push<W: Wait>(
        &self,
        rt: &W,
        seat: &mut Seat<L>,
        worker: u8,
        seq: u64,
    ) -> Result<Option<Packet>, AllocError>
        ensures legal { IsJournaled L.workers (shape_of L.schema) seat.new.list }
        ensures ok { IfOk result (λ packet. (base : ℕ) × IsBaseOf (shape_of L.schema) seat.new.list base
            × (packet ≡ pushed (primary_of L.schema L.workers seat.new.list base) worker seq)) }
        ensures readable { IfOk result (λ _. IsReadable L.workers (shape_of L.schema) seat.new.list) }
        ensures later { IsPrefix seat.old.list seat.new.list }
        ensures seat { seat.new ≡ record seat.old { list = seat.new.list } }
    {
        self.desk.lock(rt).push(seat, worker, seq)
    }

    /// The packets of the worker's stream of what is durable from the seq `from` on, or from the first
    /// frame on that is kept if that is a later one, in order: as many as the stream has, and at most
    /// `most`. They replace what the row contains, after what is durable was published, and the lock
    /// is taken once for all of them. So if the row is shorter than `most`, the stream ends there. It
    /// answers the seq of the first packet, which is also where the stream ends if there is none: if
    /// that is above `from`, the frames between were dropped. It may wait; takes memory for the row
    /// only if the row has no room for `most`. Fails only if out of memory; the row is then empty.
    pub fn push_row<W: Wait>(
        &self,
        rt: &W,
        seat: &mut Seat<L>,
        worker: u8,
        from: u64,
        most: usize,
        row: &mut Vec<Packet>,
    ) -> Result<u64, AllocError>
        ensures legal { IsJournaled L.workers (shape_of L.schema) seat.new.list }
        ensures ok { IfOk result (λ start. (base : ℕ) × IsBaseOf (shape_of L.schema) seat.new.list base
            × (start ≡ kept_from seat.new.list base worker from) × (row.new.items ≡ row_of seat.new.list worker start most)) }
        ensures each { IfOk result (λ start. (index : ℕ) → index < most
            → slice_get row.new.items index ≡ packet_at seat.new.list worker (start + index)) }
        ensures few { length row.new.items ≤ most }
        ensures below { IfOk result (λ start. start + length row.new.items ≤ u64.MAX) }
        ensures readable { OnOk result (IsReadable L.workers (shape_of L.schema) seat.new.list) }
        ensures err { OnErr result (row.new.items ≡ []) }
        ensures later { IsPrefix seat.old.list seat.new.list }
        ensures seat { seat.new ≡ record seat.old { list = seat.new.list } }
    {
        row.clear();
        if row.reserve(most).is_err() {
            seat.keeps_legal();
            return Err(AllocError);
        }
        self.desk.lock(rt).push_row(seat, worker, from, most, row)
    }

    /// What the primary sends for bytes that arrived, after what is durable was published: to an
    /// Ask one Head, to a Want those of the frames that it names, 16 at most, that are kept, to a Pull
    /// of its own base the pieces that it names, 16 at most, to anything else nothing. It may wait.
    /// Fails only if out of memory, and then hands nothing out.
    pub fn on_bytes<W: Wait>(
        &self,
        rt: &W,
        seat: &mut Seat<L>,
        bytes: &[u8],
    ) -> Result<Vec<Out>, AllocError>
        ensures legal { IsJournaled L.workers (shape_of L.schema) seat.new.list }
        ensures ok { IfOk result (λ outs. (base : ℕ) × IsBaseOf (shape_of L.schema) seat.new.list base
            × (outs.items ≡ answers (primary_of L.schema L.workers seat.new.list base) bytes.now)) }
        ensures readable { IfOk result (λ _. IsReadable L.workers (shape_of L.schema) seat.new.list) }
        ensures later { IsPrefix seat.old.list seat.new.list }
        ensures seat { seat.new ≡ record seat.old { list = seat.new.list } }
    {
        self.desk.lock(rt).on_bytes(seat, bytes)
    }

    /// Publishes what is durable, and makes it the primary's base: the frames of these commits are
    /// dropped, and the tables after them are kept in pieces. Answers the base, which is how many
    /// commits are durable, and how many pieces it has. It may wait. The pieces are made of what is
    /// published while commits, flushes and reads go on, and only put in place under the lock; if another
    /// call has taken a later base meanwhile, that one stays.
    ///
    /// Fails only if out of memory; the base is then the one before.
    pub fn take_base<W: Wait>(&self, rt: &W, seat: &mut Seat<L>) -> Result<(u64, u64), AllocError>
        ensures legal { IsJournaled L.workers (shape_of L.schema) seat.new.list }
        ensures base { IfOk result (λ taken. taken.0 ≡ length seat.new.list) }
        ensures pieces { IfOk result (λ taken. taken.1 ≡ length (pieces_of_base (shape_of L.schema) seat.new.list taken.0)) }
        ensures later { IsPrefix seat.old.list seat.new.list }
        ensures seat { seat.new ≡ record seat.old { list = seat.new.list } }
    {
        if let Some(taken) = self.desk.lock(rt).open_base(seat)? {
            return Ok(taken);
        }
        // What is published can be read as long as the line is there, so only memory can be missing.
        let Ok(pieces) = seat.base_pieces(self.alloc) else {
            return Err(AllocError);
        };
        let taken = (seat.len(), pieces.as_slice().len() as u64);
        self.desk.lock(rt).put_base(seat, pieces)?;
        Ok(taken)
    }

    /// The primary, if every seat that was given out is handed in. Beyond the commits with which
    /// the line was made, it then has as many as these seats got tickets. Otherwise everything is
    /// handed back.
    pub fn end(self, seats: Vec<Seat<L>>) -> Result<PrimaryCore<J>, (Line<L, J, R>, Vec<Seat<L>>)>
        requires { L.parts ≡ L.seats }
        ensures ok { IfOk result (λ core. commit_count core.primary ≡ commit_count L.first + sum (map (λ seat. seat.share) seats.items)) }
        ensures missing { IfErr result (λ back. (back.1.items ≡ seats.items) × (length seats.items < L.seats)) }
    {
        let Line {
            alloc,
            desk,
            written,
        } = self;
        match desk.into_inner().end(seats) {
            Ok(core) => Ok(core),
            Err((desk, seats)) => Err((
                Line {
                    alloc,
                    desk: Mutex::new(desk),
                    written,
                },
                seats,
            )),
        }
    }
}

impl<L: Origin, J: JournalStore + Drop, R: Wait + Drop> Line<L, J, R> {
    /// Makes the first `count` commits durable that are pending when it is called (all, if there
    /// are fewer), of whichever seats, and publishes them: answers `Published` with how many are
    /// then durable, or `Unpublished` if there was no memory to publish them. One flush writes at a
    /// time, in one append; the others wait for it, and write nothing if it has made their commits
    /// durable. Commits, reads and answers continue meanwhile.
    ///
    /// Fails with `Failed` if the journal failed before, or with `Memory`, and then nothing has
    /// changed; or with `Journal` if the journal did not take the records: this flush has made no
    /// commit durable, and each commit and flush answers `Failed` until the primary is restarted.
    pub fn flush<W: Wait>(
        &self,
        rt: &W,
        seat: &mut Seat<L>,
        count: usize,
    ) -> Result<Flushed, FlushFault>
        ensures legal { IsJournaled L.workers (shape_of L.schema) seat.new.list }
        ensures flushed { IfOk result (IsFlushed seat.old.list seat.new.list) }
        ensures refused { OnErr result (seat.new ≡ seat.old) }
        ensures not_busy { IfErr result (λ fault. ¬ (fault ≡ FlushFault.Busy)) }
        ensures later { IsPrefix seat.old.list seat.new.list }
        ensures seat { seat.new ≡ record seat.old { list = seat.new.list } }
    {
        seat.keeps_legal();
        let desk = self.desk.lock(rt);
        let target = desk.flush_target(count);
        // One flush has the journal at a time. Most of those that wait for it find, all at once,
        // that it has written their commits too.
        let mut desk = self.written.wait_while(
            rt,
            desk,
            |desk: &mut Desk<L, J, R>| desk.must_wait(target),
        );
        if let Some(flushed) = desk.flushed_before(seat, target) {
            return Ok(flushed);
        }
        // However this flush ends, those that wait for it are notified then.
        let _ended = Ended(&self.written);
        let begun = desk.begin_flush(target, count);
        // The lock is released while the journal is written.
        drop(desk);
        match begun {
            Ok(work) => {
                let done = work.write();
                self.desk.lock(rt).end_flush(seat, done)
            }
            Err(fault) => Err(fault),
        }
    }
}

/// Notifies all flushes that wait when it is dropped.
struct Ended<'a>(&'a Condvar);

impl Drop for Ended<'_> {
    fn drop(self) {
        let Ended(written) = self;
        written.notify_all();
    }
}
