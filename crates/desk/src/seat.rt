//! A seat of a line.

ghost use Rattle.std.specs.Prelude.{◌≡◌, ◌==◌, [], length, map, IfOk, IfErr};
ghost use mathlib.Core.List.{IsPrefix};
ghost use Rattle.rows.specs.Shape.{shape_of};
ghost use Rattle.journal.specs.Recovery.{IsJournaled};
ghost use Rattle.mvcc.specs.Transactions.{get_answer, insert_answer, set_answer, delete_answer, add_column_answer};
ghost use Rattle.wire.specs.Spelling.{spelling};
ghost use Rattle.primary.specs.Sending.{pieces_of_base};
ghost use Rattle.published.specs.declared.faults.LineFault.TheVariants.{Unread};
ghost use Rattle.published.specs.Answers.{IsAnswer, IsChange};

use crate::origin::Origin;
use mvcc::Transaction;
use primary::piece_packets;
use published::{ImageFault, LineFault};
use rows::{RowId, Value};
use std::alloc::Global;
use std::marker::Model;
use std::sync::ledger::Share;
use wire::Packet;

/// How many rows are gone over while what is published is entered for a part of an image: some
/// milliseconds, for which whoever publishes waits.
const IMAGE_PART_ROWS: usize = 10_000;

/// A seat of a line: a reader of what is published, with the number under which its commits are
/// recorded, the number of its newest ticket, and its share of the line's commits. One thread at a
/// time uses it. None of its own calls waits or takes a lock.
///
/// Contracts see these, and the list of commits that it has seen: one that a journal may be of,
/// which only grows.
#[derive(Drop)]
pub struct Seat<L: Origin> {
    pub(crate) reading: published::Seat<L>,
    pub(crate) number: u8,
    pub(crate) last: u64,
    pub(crate) share: Share<L>,
}

impl<L: Origin> Model for Seat<L> {
    ghost use Rattle.std.specs.Prelude.{◌≡◌, ◌<◌};
    ghost use Rattle.desk.specs.State.{SeatState};

    ghost Value = { SeatState };

    ghost view = { λ s. record { list = s.reading; number = s.number; last = s.last; share = s.share.amount } };

    ghost invariant = { λ s. (s.number < L.seats) × (s.share.parts ≡ 1) };
}

impl<L: Origin> Seat<L> {
    /// How many commits it has seen. Takes no memory.
    pub fn len(&self) -> u64
        ensures { result ≡ length self.now.list }
    {
        self.reading.front().len()
    }

    /// Whether it has seen no commit. Takes no memory.
    pub fn is_empty(&self) -> bool
        ensures { result ≡ (length self.now.list == 0) }
    {
        self.reading.front().is_empty()
    }

    /// The list that it has seen is one that a journal may be of. It does nothing: its contract is the
    /// law.
    pub fn keeps_legal(&self)
        ensures { IsJournaled L.workers (shape_of L.schema) self.now.list }
    {
        let _ = self.reading.front();
    }

    /// Begins a transaction. Its snapshot is the newest published version, or a newer one that the
    /// seat has seen. Takes no memory.
    ///
    /// Fails with `Unread` if what is published cannot be entered.
    pub fn begin(&mut self, alloc: Global) -> Result<Transaction, LineFault>
        ensures legal { IsJournaled L.workers (shape_of L.schema) self.new.list }
        ensures later { IsPrefix self.old.list self.new.list }
        ensures same { self.new ≡ record self.old { list = self.new.list } }
        ensures begun { IfOk result (λ t. t ≡ record { snapshot = length self.new.list; entries = [] }) }
        ensures refused { IfErr result (λ fault. fault ≡ Unread) }
    {
        self.reading.begin(alloc)
    }

    /// The value of a column of a row, as the transaction sees it. Takes no memory.
    ///
    /// Fails with the first of these: `Unread`, what is published cannot be entered, or is shorter than
    /// what the seat has seen; `Ahead`, the transaction's snapshot is above the seat's list; `Tx`, the
    /// transaction's own refusal.
    pub fn value(
        &mut self,
        transaction: &Transaction,
        table: u8,
        row: RowId,
        column: usize,
    ) -> Result<Value, LineFault>
        ensures legal { IsJournaled L.workers (shape_of L.schema) self.new.list }
        ensures later { IsPrefix self.old.list self.new.list }
        ensures same { self.new ≡ record self.old { list = self.new.list } }
        ensures answer { IsAnswer transaction.now.snapshot (length self.new.list)
            (get_answer (shape_of L.schema) self.new.list transaction.now table row.0 column) result }
    {
        self.reading.value(transaction, table, row, column)
    }

    /// Inserts a row into a table of the transaction.
    ///
    /// Fails as `value` does, or if out of memory; the transaction is then unchanged.
    pub fn insert(
        &mut self,
        transaction: &mut Transaction,
        table: u8,
        row: RowId,
        values: &[Value],
    ) -> Result<(), LineFault>
        ensures legal { IsJournaled L.workers (shape_of L.schema) self.new.list }
        ensures later { IsPrefix self.old.list self.new.list }
        ensures same { self.new ≡ record self.old { list = self.new.list } }
        ensures answer { IsChange (length self.new.list)
            (insert_answer (shape_of L.schema) self.new.list transaction.old table row.0 values.now)
            transaction.old transaction.new result }
    {
        self.reading.insert(transaction, table, row, values)
    }

    /// Sets one column of a row to another value in the transaction.
    ///
    /// Fails as `value` does, or if out of memory; the transaction is then unchanged.
    pub fn set(
        &mut self,
        transaction: &mut Transaction,
        table: u8,
        row: RowId,
        column: usize,
        value: Value,
    ) -> Result<(), LineFault>
        ensures legal { IsJournaled L.workers (shape_of L.schema) self.new.list }
        ensures later { IsPrefix self.old.list self.new.list }
        ensures same { self.new ≡ record self.old { list = self.new.list } }
        ensures answer { IsChange (length self.new.list)
            (set_answer (shape_of L.schema) self.new.list transaction.old table row.0 column value)
            transaction.old transaction.new result }
    {
        self.reading.set(transaction, table, row, column, value)
    }

    /// Deletes a row from a table of the transaction.
    ///
    /// Fails as `value` does, or if out of memory; the transaction is then unchanged.
    pub fn delete(
        &mut self,
        transaction: &mut Transaction,
        table: u8,
        row: RowId,
    ) -> Result<(), LineFault>
        ensures legal { IsJournaled L.workers (shape_of L.schema) self.new.list }
        ensures later { IsPrefix self.old.list self.new.list }
        ensures same { self.new ≡ record self.old { list = self.new.list } }
        ensures answer { IsChange (length self.new.list)
            (delete_answer (shape_of L.schema) self.new.list transaction.old table row.0)
            transaction.old transaction.new result }
    {
        self.reading.delete(transaction, table, row)
    }

    /// Adds a column to a table in the transaction, behind the others, with this value in each row.
    ///
    /// Fails as `value` does, or if out of memory; the transaction is then unchanged.
    pub fn add_column(
        &mut self,
        transaction: &mut Transaction,
        table: u8,
        default: Value,
    ) -> Result<(), LineFault>
        ensures legal { IsJournaled L.workers (shape_of L.schema) self.new.list }
        ensures later { IsPrefix self.old.list self.new.list }
        ensures same { self.new ≡ record self.old { list = self.new.list } }
        ensures answer { IsChange (length self.new.list)
            (add_column_answer (shape_of L.schema) self.new.list transaction.old table default)
            transaction.old transaction.new result }
    {
        self.reading.add_column(transaction, table, default)
    }

    /// The pieces of the base of what the seat has seen, as they are sent (`Desk::put_base`); none if it
    /// has seen no commit. The image is read part by part of what is published, so whoever publishes
    /// meanwhile waits for one part at most. The seat has then seen what it had seen.
    ///
    /// Fails with `Unread` if what is published cannot be entered, or is shorter than what the seat has
    /// seen; or with `Memory`.
    pub fn base_pieces(&mut self, alloc: Global) -> Result<Vec<Packet>, ImageFault>
        ensures legal { IsJournaled L.workers (shape_of L.schema) self.new.list }
        ensures same { self.new ≡ self.old }
        ensures pieces { IfOk result (λ pieces. pieces.items
            ≡ map spelling (pieces_of_base (shape_of L.schema) self.old.list (length self.old.list))) }
    {
        let base = self.len();
        self.keeps_legal();
        if base == 0 {
            return Ok(Vec::new(alloc));
        }
        let image = self.reading.image(alloc, IMAGE_PART_ROWS)?;
        piece_packets(alloc, base, &image).map_err(|_| ImageFault::Memory)
    }

    /// Both seats take the longer of their lists. Takes no memory.
    pub fn meet(&mut self, other: &mut Seat<L>)
        ensures one { self.new.list ≡ other.new.list }
        ensures legal { IsJournaled L.workers (shape_of L.schema) self.new.list }
        ensures mine { IsPrefix self.old.list self.new.list }
        ensures theirs { IsPrefix other.old.list other.new.list }
        ensures same { (self.new ≡ record self.old { list = self.new.list }) × (other.new ≡ record other.old { list = other.new.list }) }
    {
        self.reading.meet(&mut other.reading);
    }
}
