//! A primary that runs, between two events.

ghost use Rattle.std.specs.Prelude.{◌≡◌, ◌^◌, ◌<◌, ◌≤◌, ◌++◌, ℕ, length, true, false, Ok, IfOk, IfErr, OnErr};
ghost use Rattle.std.specs.List.{AllByRecursion};
ghost use Rattle.rows.specs.Faults.{IsFaultOf};
ghost use Rattle.rows.specs.Limits.{workers_max};
ghost use Rattle.rows.specs.Shape.{shape_of};
ghost use Rattle.update_log.specs.Frames.{IsSendable};
ghost use Rattle.update_log.specs.Streams.{stream_of};
ghost use Rattle.wire.specs.Spelling.{HasDatagramSpelling};
ghost use Rattle.journal.specs.Recovery.{IsJournaled};
ghost use Rattle.journal.specs.Text.{journal_text, records_from};
ghost use Rattle.primary.specs.Journaling.{IsFormOf, IsFlushRefusal, CountsFlushFault, AreNumbered};
ghost use Rattle.primary.specs.Sending.{pushed, pieces_of_base, answers};
ghost use Rattle.primary.specs.Steps.{commit_answer, committed, flushed, based};
ghost use Rattle.world.specs.Inner.Running.{IsAtHome, core_of, journal_in};

use journal::MemJournal;
use mvcc::{Transaction, Versions};
use primary::{CommitFault, FlushFault, PrimaryCore, Ticket};
use std::alloc::AllocError;
use std::marker::Model;
use wire::{Out, Packet};

/// A primary's core whose journal is not lent out, and contains the text of what is durable unless
/// it failed: an event that flushes takes the journal back before it ends.
#[derive(Drop)]
pub struct RunningPrimary {
    core: PrimaryCore<MemJournal>,
}

impl Model for RunningPrimary {
    ghost use Rattle.world.specs.Inner.Running.{Running, IsAtHome, journal_in};

    ghost Value = { Running };

    ghost view = { λ p. record { primary = p.core.primary; journal = journal_in p.core.journal; form = p.core.form } };

    ghost invariant = { λ p. IsAtHome p.core };
}

impl RunningPrimary {
    /// The primary of this core.
    pub fn of(core: PrimaryCore<MemJournal>) -> RunningPrimary
        requires { IsAtHome core }
        ensures { result ≡ record { primary = core.primary; journal = journal_in core.journal; form = core.form } }
    {
        RunningPrimary { core }
    }

    /// What a core guarantees about its lists, and about the content of the journal unless that
    /// failed. It does nothing: its contract is the law.
    pub fn keeps_legal(&self)
        ensures all { IsJournaled self.now.primary.workers (shape_of self.now.primary.schema)
            (self.now.primary.durable ++ self.now.primary.pending) }
        ensures durable { IsJournaled self.now.primary.workers (shape_of self.now.primary.schema) self.now.primary.durable }
        ensures numbered { AreNumbered (self.now.primary.durable ++ self.now.primary.pending) }
        ensures sendable { (worker : ℕ) → AllByRecursion IsSendable (stream_of self.now.primary.durable worker) }
        ensures some_workers { 0 < self.now.primary.workers }
        ensures few_workers { self.now.primary.workers ≤ workers_max }
        ensures based { self.now.primary.base ≤ length self.now.primary.durable }
        ensures pieces { length
            (pieces_of_base (shape_of self.now.primary.schema) self.now.primary.durable self.now.primary.base) < 2 ^ 64 }
        ensures pieces_spelled { AllByRecursion HasDatagramSpelling
            (pieces_of_base (shape_of self.now.primary.schema) self.now.primary.durable self.now.primary.base) }
        ensures form { IsFormOf self.now.form self.now.primary.durable }
        ensures written { self.now.primary.failed ≡ false → self.now.journal.bytes
            ≡ journal_text self.now.form self.now.primary.workers (shape_of self.now.primary.schema) self.now.primary.durable }
    {
        self.core.keeps_legal();
    }

    /// How many commits are durable.
    pub fn durable(&self) -> u64
        ensures { result ≡ length self.now.primary.durable }
    {
        self.core.durable()
    }

    /// The versions of the durable list followed by the pending one.
    pub fn versions(&self) -> &Versions
        ensures { result.now ≡ record {
          schema = self.now.primary.schema;
          commits = self.now.primary.durable ++ self.now.primary.pending;
        } }
    {
        self.core.versions()
    }

    /// The journal, for reading.
    pub fn journal(&self) -> &MemJournal
        ensures { result.now ≡ self.now.journal }
    {
        self.core.journal()
    }

    /// The records of the pending commits. Fails only if out of memory.
    pub fn pending_text(&self) -> Result<Vec<u8>, AllocError>
        ensures { IfOk result (λ bytes. bytes.items ≡ records_from (length self.now.primary.durable) self.now.primary.pending) }
    {
        self.core.pending_text()
    }

    /// Commits a transaction, as the core does.
    pub fn commit(
        &mut self,
        transaction: Transaction,
        worker: u8,
    ) -> Result<Ticket, (Transaction, CommitFault)>
        requires { worker < self.old.primary.workers }
        ensures ok { IfOk result (λ ticket. (commit_answer self.old.primary worker transaction ≡ Ok ticket.number)
            × (ticket.worker ≡ worker) × (ticket.entries ≡ transaction.entries)
            × (self.new.primary ≡ committed self.old.primary worker transaction.entries)) }
        ensures refused { IfErr result (λ refusal. (refusal.0 ≡ transaction) × (self.new.primary ≡ self.old.primary)
            × IsFaultOf (commit_answer self.old.primary worker transaction) CommitFault.Memory refusal.1) }
        ensures journal { self.new.journal ≡ self.old.journal }
        ensures form { self.new.form ≡ self.old.form }
    {
        self.core.commit(transaction, worker)
    }

    /// Flushes, as the core does: begins a flush, writes it and ends it.
    pub fn flush(&mut self, count: usize) -> Result<u64, FlushFault>
        ensures ok { IfOk result (λ durable. (self.old.primary.failed ≡ false) × (self.new.primary ≡ flushed self.old.primary count)
            × (durable ≡ length self.new.primary.durable)) }
        ensures refused { IfErr result (λ fault. IsFlushRefusal (core_of self.old) count fault self.new.primary) }
        ensures faults { CountsFlushFault result 0 0 }
        ensures form { self.new.form ≡ self.old.form }
    {
        self.core.flush(count)
    }

    /// Makes what is durable the base, as the core does.
    pub fn take_base(&mut self) -> Result<(u64, u64), AllocError>
        ensures ok { IfOk result (λ taken. (self.new.primary ≡ based self.old.primary) × (taken.0 ≡ self.new.primary.base)
            × (taken.1 ≡ length (pieces_of_base (shape_of self.new.primary.schema) self.new.primary.durable self.new.primary.base))) }
        ensures err { OnErr result ((self.new.primary ≡ self.old.primary)
            × (self.old.primary.base < length self.old.primary.durable)) }
        ensures journal { self.new.journal ≡ self.old.journal }
        ensures form { self.new.form ≡ self.old.form }
    {
        self.core.take_base()
    }

    /// The packet of that frame of the durable list, if the stream has it and it is kept.
    pub fn push(&self, worker: u8, seq: u64) -> Option<Packet>
        ensures { result ≡ pushed self.now.primary worker seq }
    {
        self.core.push(worker, seq)
    }

    /// What the primary sends for bytes that arrived. Fails only if out of memory, and only if
    /// something is to be sent.
    pub fn on_bytes(&self, bytes: &[u8]) -> Result<Vec<Out>, AllocError>
        ensures ok { IfOk result (λ outs. outs.items ≡ answers self.now.primary bytes.now) }
        ensures err { OnErr result (0 < length (answers self.now.primary bytes.now)) }
    {
        self.core.on_bytes(bytes)
    }
}
