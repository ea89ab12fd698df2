//! The durable list and the pending list.

ghost use Rattle.std.specs.Prelude.{◌≡◌, ◌<◌, ◌≤◌, ◌^◌, ◌++◌, ℕ, length, map, take, Ok, IfOk, IfErr, OnOk, OnErr};
ghost use Rattle.std.specs.List.{AllByRecursion};
ghost use Rattle.rows.specs.Faults.{IsFaultOf};
ghost use Rattle.rows.specs.Limits.{workers_max};
ghost use Rattle.rows.specs.Shape.{shape_of};
ghost use Rattle.update_log.specs.Frames.{IsSendable};
ghost use Rattle.update_log.specs.Streams.{stream_of};
ghost use Rattle.journal.specs.Recovery.{IsJournaled};
ghost use Rattle.journal.specs.Text.{records_from};
ghost use Rattle.wire.specs.Spelling.{IsAsk, HasDatagramSpelling, spelling};
ghost use Rattle.primary.specs.Journaling.{AreNumbered, offered};
ghost use Rattle.primary.specs.Sending.{low_of, pushed, wanted, frame_to, pieces_of_base, pulled, piece_to, head_for, answers};
ghost use Rattle.primary.specs.Steps.{started_primary, commit_answer, committed, flushed, failed_primary, based, based_at};

use crate::faults::CommitFault;
use crate::judging::judge;
use crate::keeping::{keep, streams_of, versions_of};
use crate::pieces::{piece_packets, pulled_outs};
use crate::sending::{frame_packet, wanted_outs};
use crate::tail::Tail;
use crate::ticket::Ticket;
use journal::records;
use mvcc::{Transaction, Versions};
use rows::{Commit, Schema};
use std::alloc::{AllocError, Global};
use std::marker::Model;
use update_log::{one_cut, pieces_are_cut};
use wire::{Datagram, Head, Out, Packet, To, read};

/// A primary without its journal: the durable list of commits, the pending list, whether the
/// journal has failed, and the base.
///
/// The versions contain the commits; the tail knows for each frame behind the base which entries of
/// its commit it has. Both contain the pending commits too, after the durable ones. The pieces of the
/// base are kept as they are sent.
#[derive(Drop)]
pub struct Lists {
    alloc: Global,
    versions: Versions,
    tail: Tail,
    pieces: Vec<Packet>,
    durable: usize,
    workers: u8,
    failed: bool,
}

impl Model for Lists {
    ghost use Rattle.primary.specs.State.{Primary};
    ghost use Rattle.primary.specs.Inner.Parts.{primary_of};
    ghost use Rattle.primary.specs.Inner.Invariant.{AreLists};

    ghost Value = { Primary };

    ghost view = { λ p. primary_of p.versions p.durable p.workers p.failed p.tail.base };

    ghost invariant = { λ p. AreLists p.versions p.tail p.pieces.items p.durable p.workers };
}

impl Lists {
    /// These commits, durable, for a schema and 1 to 16 workers. Fails only if out of memory.
    pub fn of(
        alloc: Global,
        schema: &Schema,
        workers: u8,
        commits: &[Commit],
    ) -> Result<Lists, AllocError>
        requires some { 0 < workers }
        requires few { workers ≤ workers_max }
        requires journaled { IsJournaled workers (shape_of schema.now) commits.now }
        requires numbered { AreNumbered commits.now }
        ensures { IfOk result (λ lists. lists ≡ started_primary schema.now workers commits.now) }
    {
        let versions = versions_of(alloc, schema, workers, commits)?;
        let streams = streams_of(alloc, commits)?;
        Ok(Lists {
            alloc,
            versions,
            tail: Tail::of(streams),
            pieces: Vec::new(alloc),
            durable: commits.len(),
            workers,
            failed: false,
        })
    }

    /// What holds for the lists, as `PrimaryCore::keeps_legal` states it. It does nothing.
    pub fn keeps_legal(&self)
        ensures all { IsJournaled self.now.workers (shape_of self.now.schema) (self.now.durable ++ self.now.pending) }
        ensures durable { IsJournaled self.now.workers (shape_of self.now.schema) self.now.durable }
        ensures numbered { AreNumbered (self.now.durable ++ self.now.pending) }
        ensures sendable { (worker : ℕ) → AllByRecursion IsSendable (stream_of self.now.durable worker) }
        ensures some_workers { 0 < self.now.workers }
        ensures few_workers { self.now.workers ≤ workers_max }
        ensures based { self.now.base ≤ length self.now.durable }
        ensures pieces { length (pieces_of_base (shape_of self.now.schema) self.now.durable self.now.base) < 2 ^ 64 }
        ensures pieces_spelled { AllByRecursion HasDatagramSpelling
            (pieces_of_base (shape_of self.now.schema) self.now.durable self.now.base) }
    {
        one_cut();
        pieces_are_cut();
        rows::laws::images_rebuild_tables();
        self.versions.schema().keeps_limits();
        self.versions.keeps_defined();
        // A look at the length makes its range known to the proof.
        let _ = self.pieces.as_slice().len();
    }

    /// How many commits are durable.
    pub fn durable(&self) -> u64
        ensures { result ≡ length self.now.durable }
    {
        self.durable as u64
    }

    /// How many commits are pending.
    pub fn pending(&self) -> usize
        ensures { result ≡ length self.now.pending }
    {
        self.versions.commits().len() - self.durable
    }

    /// How many workers there are, 1 to 16.
    pub fn workers(&self) -> u8
        ensures count { result ≡ self.now.workers }
        ensures some { 0 < result }
        ensures few { result ≤ workers_max }
    {
        self.workers
    }

    /// The versions of the durable list followed by the pending one.
    pub fn versions(&self) -> &Versions
        ensures { result.now ≡ record { schema = self.now.schema; commits = self.now.durable ++ self.now.pending } }
    {
        &self.versions
    }

    /// Whether the journal has failed.
    pub fn has_failed(&self) -> bool
        ensures { result ≡ self.now.failed }
    {
        self.failed
    }

    /// Commits a transaction for a worker, as `PrimaryCore::commit` specifies.
    pub fn commit(
        &mut self,
        transaction: Transaction,
        worker: u8,
    ) -> Result<Ticket, (Transaction, CommitFault)>
        requires { worker < self.old.workers }
        ensures ok { IfOk result (λ ticket. (commit_answer self.old worker transaction ≡ Ok ticket.number) × (ticket.worker ≡ worker)
            × (ticket.entries ≡ transaction.entries) × (self.new ≡ committed self.old worker transaction.entries)) }
        ensures refused { IfErr result (λ refusal. (refusal.0 ≡ transaction) × (self.new ≡ self.old)
            × IsFaultOf (commit_answer self.old worker transaction) CommitFault.Memory refusal.1) }
    {
        let number = match judge(
            &self.versions,
            &self.tail,
            self.durable,
            self.workers,
            self.failed,
            worker,
            &transaction,
        ) {
            Ok(number) => number,
            Err(fault) => return Err((transaction, fault)),
        };
        let kept = keep(
            &mut self.versions,
            &mut self.tail,
            worker,
            transaction.entries(),
        );
        match kept {
            Ok(()) => Ok(Ticket {
                number,
                worker,
                entries: transaction.into_entries(),
            }),
            Err(_) => Err((transaction, CommitFault::Memory)),
        }
    }

    /// The records of the first `count` pending commits, or of all if there are fewer. Fails only
    /// if out of memory.
    pub fn records(&self, count: usize) -> Result<Vec<u8>, AllocError>
        ensures ok { IfOk result (λ bytes. bytes.items ≡ offered self.now count) }
        ensures err { OnErr result (0 < length (take count self.now.pending)) }
    {
        let moved = count.min(self.pending());
        if moved == 0 {
            return Ok(Vec::new(self.alloc));
        }
        let commits = &self.versions.commits()[self.durable..self.durable + moved];
        records(self.alloc, commits, self.durable as u64 + 1)
    }

    /// Moves the first `count` pending commits, or all if there are fewer, to the durable list.
    pub fn acknowledge(&mut self, count: usize)
        ensures { self.new ≡ flushed self.old count }
    {
        let moved = count.min(self.pending());
        self.durable += moved;
    }

    /// Records that the journal has failed.
    pub fn fail(&mut self)
        ensures { self.new ≡ failed_primary self.old }
    {
        self.failed = true;
    }

    /// Makes what is durable the base, as `PrimaryCore::take_base` specifies.
    pub fn take_base(&mut self) -> Result<(u64, u64), AllocError>
        ensures ok { IfOk result (λ taken. (self.new ≡ based self.old) × (taken.0 ≡ self.new.base)
            × (taken.1 ≡ length (pieces_of_base (shape_of self.new.schema) self.new.durable self.new.base))) }
        ensures err { OnErr result ((self.new ≡ self.old) × (self.old.base < length self.old.durable)) }
    {
        if self.tail.base < self.durable {
            rows::laws::images_rebuild_tables();
            self.versions.schema().keeps_limits();
            let base = self.durable as u64;
            let image = self.versions.image(base)?;
            let pieces = piece_packets(self.alloc, base, &image)?;
            self.put_base(base, pieces)?;
        }
        Ok(self.base())
    }

    /// Puts a base in place, as `PrimaryCore::put_base` specifies.
    pub fn put_base(&mut self, base: u64, pieces: Vec<Packet>) -> Result<(), AllocError>
        requires within { base ≤ length self.old.durable }
        requires pieces { pieces.items ≡ map spelling (pieces_of_base (shape_of self.old.schema) self.old.durable base) }
        ensures ok { OnOk result (self.new ≡ based_at self.old base) }
        ensures err { OnErr result ((self.new ≡ self.old) × (self.old.base < base)) }
    {
        let base = base as usize;
        if self.tail.base < base {
            let commits = self.versions.commits();
            let tail = self.tail.moved(self.alloc, commits, base)?;
            self.pieces = pieces;
            self.tail = tail;
        }
        Ok(())
    }

    /// The base, and how many pieces it has. Takes no memory.
    pub fn base(&self) -> (u64, u64)
        ensures base { result.0 ≡ self.now.base }
        ensures pieces { result.1 ≡ length (pieces_of_base (shape_of self.now.schema) self.now.durable self.now.base) }
    {
        (self.tail.base as u64, self.pieces.as_slice().len() as u64)
    }

    /// How many frames of the worker are not kept, as `PrimaryCore::low` specifies.
    pub fn low(&self, worker: u8) -> u64
        ensures { result ≡ low_of self.now worker }
    {
        self.tail.low(worker)
    }

    /// The packet of that `seq` of the worker's stream of the durable list, if the stream has it and
    /// it is kept. Takes no memory.
    pub fn push(&self, worker: u8, seq: u64) -> Option<Packet>
        ensures { result ≡ pushed self.now worker seq }
    {
        let durable = self.durable as u64;
        frame_packet(&self.tail, self.versions.commits(), durable, worker, seq)
    }

    /// What is sent for bytes that arrived, as `PrimaryCore::on_bytes` specifies.
    pub fn on_bytes(&self, bytes: &[u8]) -> Result<Vec<Out>, AllocError>
        ensures ok { IfOk result (λ outs. outs.items ≡ answers self.now bytes.now) }
        ensures err { OnErr result (0 < length (answers self.now bytes.now)) }
    {
        match read(bytes) {
            Ok(
                Datagram::Ask {
                    replica,
                    boot,
                    request,
                },
            ) => {
                let mut outs = Vec::new(self.alloc);
                outs.push(self.head(replica, boot, request))?;
                Ok(outs)
            }
            Ok(
                Datagram::Want {
                    replica,
                    worker,
                    from,
                },
            ) => self.wanted(replica, worker, from),
            Ok(
                Datagram::Pull {
                    replica,
                    base,
                    from,
                },
            ) => self.pulled(replica, base, from),
            Ok(Datagram::Frame { .. } | Datagram::Head(_) | Datagram::Piece { .. }) | Err(_) => {
                Ok(Vec::new(self.alloc))
            }
        }
    }

    /// The frames that answer a Want.
    fn wanted(&self, replica: u8, worker: u8, from: u64) -> Result<Vec<Out>, AllocError>
        ensures ok { IfOk result (λ outs. outs.items ≡ map (frame_to replica) (wanted self.now worker from)) }
        ensures err { OnErr result (0 < length (map (frame_to replica) (wanted self.now worker from))) }
    {
        let durable = self.durable as u64;
        wanted_outs(
            self.alloc,
            &self.tail,
            self.versions.commits(),
            durable,
            replica,
            worker,
            from,
        )
    }

    /// The Pieces that answer a Pull.
    fn pulled(&self, replica: u8, base: u64, from: u64) -> Result<Vec<Out>, AllocError>
        ensures ok { IfOk result (λ outs. outs.items ≡ map (piece_to replica) (pulled self.now base from)) }
        ensures err { OnErr result (0 < length (map (piece_to replica) (pulled self.now base from))) }
    {
        if base != self.tail.base as u64 {
            return Ok(Vec::new(self.alloc));
        }
        pulled_outs(self.alloc, &self.pieces, replica, from)
    }

    /// The Head that answers an Ask. Takes no memory.
    fn head(&self, replica: u8, boot: u64, request: u64) -> Out
        requires { IsAsk replica boot request }
        ensures { result ≡ record { to = To.Replica replica; packet = spelling (Datagram.Head (head_for self.now replica boot request)) } }
    {
        pieces_are_cut();
        let version = self.durable as u64;
        let head = Head {
            replica,
            boot,
            request,
            version,
            base: self.tail.base as u64,
            pieces: self.pieces.as_slice().len() as u64,
            lows: self.tail.low_counts(self.workers),
            counts: self.tail.counts(version, self.workers),
        };
        Out {
            to: To::Replica(replica),
            packet: Packet::of(&Datagram::Head(head)),
        }
    }
}
