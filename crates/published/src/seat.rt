//! A seat: a reader of its own, and the list of commits that it has seen.

ghost use Rattle.std.specs.Prelude.{◌≡◌, [], ◌++◌, length, true, Some, is_some, IfOk, IfErr, IfSome, OnOk, MatchBool, MatchOption};
ghost use Rattle.std.specs.List.{AllByRecursion};
ghost use mathlib.Core.List.{IsPrefix};
ghost use Rattle.journal.specs.Recovery.{IsJournaled};
ghost use Rattle.rows.specs.Commits.{tables_after};
ghost use Rattle.rows.specs.Image.{image_of};
ghost use Rattle.rows.specs.Shape.{shape_of, AreTables};
ghost use Rattle.rows.specs.Spelling.{HasSpelling};
ghost use Rattle.mvcc.specs.ImageParts.{image_rest, IsLaterPlace};
ghost use Rattle.mvcc.specs.Transactions.{get_answer, insert_answer, set_answer, delete_answer, add_column_answer};
ghost use Rattle.published.specs.declared.faults.LineFault.TheVariants.{Unread};
ghost use Rattle.published.specs.Answers.{IsAnswer, IsChange};
ghost use Rattle.published.specs.Publishing.{IsOfLine};

use crate::answering::{add_column_to, delete_from, insert_into, set_in, value_of};
use crate::faults::{ImageFault, LineFault};
use crate::line::{Line, Published, Sees};
use crate::shown::Shown;
use history::Front;
use left_right::reader::{Reader, Reading};
use mvcc::{ImagePlace, Transaction};
use rows::{Entry, RowId, Value};
use std::alloc::Global;
use std::marker::Model;

/// A seat of a line. One thread at a time uses it, and none of its calls waits or takes a lock.
///
/// Contracts see the list of commits that it has seen: one that a journal may be of, which only grows.
#[derive(Drop)]
pub struct Seat<L: Line> {
    reader: Option<Reader<Shown, (), Published<L>>>,
    front: Front<L>,
}

impl<L: Line> Model for Seat<L> {
    ghost use Rattle.std.specs.Prelude.{◌≡◌, List, true, is_some};
    ghost use Rattle.rows.specs.Shape.{shape_of};
    ghost use Rattle.rows.specs.declared.commit.Commit.{Commit};
    ghost use Rattle.journal.specs.Recovery.{IsJournaled};

    ghost Value = { List Commit };

    ghost view = { λ s. s.front };

    ghost invariant = { λ s. (is_some s.reader ≡ true) × IsJournaled L.workers (shape_of L.schema) s.front };
}

impl<L: Line> Seat<L> {
    /// A seat with this reader, which has seen this list.
    pub fn new(reader: Reader<Shown, (), Published<L>>, front: Front<L>) -> Seat<L>
        requires { IsJournaled L.workers (shape_of L.schema) front }
        ensures { result ≡ front }
    {
        Seat {
            reader: Some(reader),
            front,
        }
    }

    /// The list that it has seen, lent.
    pub fn front(&self) -> &Front<L>
        ensures list { result.now ≡ self.now }
        ensures legal { IsJournaled L.workers (shape_of L.schema) self.now }
    {
        &self.front
    }

    /// Takes another list that was seen of the line, which begins with its own.
    pub fn learn(&mut self, front: Front<L>)
        requires begins { IsPrefix self.old front }
        requires legal { IsJournaled L.workers (shape_of L.schema) front }
        ensures { self.new ≡ front }
    {
        self.front = front;
    }

    /// Begins a transaction. Its snapshot is the newest published version, or a newer one that the
    /// seat has seen. Takes no memory.
    ///
    /// Fails with `Unread` if what is published cannot be entered.
    pub fn begin(&mut self, alloc: Global) -> Result<Transaction, LineFault>
        ensures legal { IsJournaled L.workers (shape_of L.schema) self.new }
        ensures later { IsPrefix self.old self.new }
        ensures begun { IfOk result (λ t. t ≡ record { snapshot = length self.new; entries = [] }) }
        ensures refused { IfErr result (λ fault. fault ≡ Unread) }
    {
        let Seat { reader, front } = self;
        let Some(reading) = entered(reader) else {
            return Err(LineFault::Unread);
        };
        follow(front, &reading);
        *reader = Some(reading.leave());
        Ok(Transaction::begin(alloc, front.len()))
    }

    /// The value of a column of a row, as the transaction sees it. Takes no memory.
    ///
    /// Fails with the first of these: `Unread`, what is published cannot be entered, or is shorter
    /// than what the seat has seen; `Ahead`, the transaction's snapshot is above the seat's list;
    /// `Tx`, the transaction's own refusal.
    pub fn value(
        &mut self,
        transaction: &Transaction,
        table: u8,
        row: RowId,
        column: usize,
    ) -> Result<Value, LineFault>
        ensures legal { IsJournaled L.workers (shape_of L.schema) self.new }
        ensures later { IsPrefix self.old self.new }
        ensures answer { IsAnswer transaction.now.snapshot (length self.new)
            (get_answer (shape_of L.schema) self.new transaction.now table row.0 column) result }
    {
        let Seat { reader, front } = self;
        let Some(reading) = read(reader, front) else {
            return Err(LineFault::Unread);
        };
        let answer = value_of(&reading.get().versions, transaction, table, row, column);
        *reader = Some(reading.leave());
        answer
    }

    /// Inserts a row into a table of the transaction.
    ///
    /// Fails as `value` does, or if out of memory; the transaction is then unchanged.
    pub fn insert(
        &mut self,
        transaction: &mut Transaction,
        table: u8,
        row: RowId,
        values: &[Value],
    ) -> Result<(), LineFault>
        ensures legal { IsJournaled L.workers (shape_of L.schema) self.new }
        ensures later { IsPrefix self.old self.new }
        ensures answer { IsChange (length self.new)
            (insert_answer (shape_of L.schema) self.new transaction.old table row.0 values.now)
            transaction.old transaction.new result }
    {
        let Seat { reader, front } = self;
        let Some(reading) = read(reader, front) else {
            return Err(LineFault::Unread);
        };
        let answer = insert_into(&reading.get().versions, transaction, table, row, values);
        *reader = Some(reading.leave());
        answer
    }

    /// Sets one column of a row to another value in the transaction.
    ///
    /// Fails as `value` does, or if out of memory; the transaction is then unchanged.
    pub fn set(
        &mut self,
        transaction: &mut Transaction,
        table: u8,
        row: RowId,
        column: usize,
        value: Value,
    ) -> Result<(), LineFault>
        ensures legal { IsJournaled L.workers (shape_of L.schema) self.new }
        ensures later { IsPrefix self.old self.new }
        ensures answer { IsChange (length self.new)
            (set_answer (shape_of L.schema) self.new transaction.old table row.0 column value)
            transaction.old transaction.new result }
    {
        let Seat { reader, front } = self;
        let Some(reading) = read(reader, front) else {
            return Err(LineFault::Unread);
        };
        let answer = set_in(
            &reading.get().versions,
            transaction,
            table,
            row,
            column,
            value,
        );
        *reader = Some(reading.leave());
        answer
    }

    /// Deletes a row from a table of the transaction.
    ///
    /// Fails as `value` does, or if out of memory; the transaction is then unchanged.
    pub fn delete(
        &mut self,
        transaction: &mut Transaction,
        table: u8,
        row: RowId,
    ) -> Result<(), LineFault>
        ensures legal { IsJournaled L.workers (shape_of L.schema) self.new }
        ensures later { IsPrefix self.old self.new }
        ensures answer { IsChange (length self.new)
            (delete_answer (shape_of L.schema) self.new transaction.old table row.0)
            transaction.old transaction.new result }
    {
        let Seat { reader, front } = self;
        let Some(reading) = read(reader, front) else {
            return Err(LineFault::Unread);
        };
        let answer = delete_from(&reading.get().versions, transaction, table, row);
        *reader = Some(reading.leave());
        answer
    }

    /// Adds a column to a table in the transaction, behind the others, with this value in each row.
    ///
    /// Fails as `value` does, or if out of memory; the transaction is then unchanged.
    pub fn add_column(
        &mut self,
        transaction: &mut Transaction,
        table: u8,
        default: Value,
    ) -> Result<(), LineFault>
        ensures legal { IsJournaled L.workers (shape_of L.schema) self.new }
        ensures later { IsPrefix self.old self.new }
        ensures answer { IsChange (length self.new)
            (add_column_answer (shape_of L.schema) self.new transaction.old table default)
            transaction.old transaction.new result }
    {
        let Seat { reader, front } = self;
        let Some(reading) = read(reader, front) else {
            return Err(LineFault::Unread);
        };
        let answer = add_column_to(&reading.get().versions, transaction, table, default);
        *reader = Some(reading.leave());
        answer
    }

    /// The image of the tables after the commits that the seat has seen (`mvcc::Versions::image`). What is
    /// published is entered anew for each part of it, of one table and of at most this many rows that
    /// were ever written, so whoever publishes waits for the time of one part at most. What is published
    /// meanwhile is not followed: the seat has then seen what it had seen.
    ///
    /// Fails with `Unread` as `value` does, or with `Memory`.
    pub fn image(&mut self, alloc: Global, most: usize) -> Result<Vec<Entry>, ImageFault>
        ensures legal { IsJournaled L.workers (shape_of L.schema) self.new }
        ensures same { self.new ≡ self.old }
        ensures image { IfOk result (λ image. image.items
            ≡ image_of (shape_of L.schema) (tables_after (shape_of L.schema) self.old (length self.old))) }
        ensures spelled { IfOk result (λ image. AllByRecursion HasSpelling image.items) }
    {
        rows::laws::images_rebuild_tables();
        let Seat { reader, front } = self;
        let mut image = Vec::new(alloc);
        let mut place = Some(ImagePlace::first());
        while let Some(begin) = place {
            place = push_part(reader, front, begin, most, &mut image)?;
        }
        Ok(image)
    }

    /// Both seats take the longer of their lists. Takes no memory.
    pub fn meet(&mut self, other: &mut Seat<L>)
        ensures one { self.new ≡ other.new }
        ensures mine { IsPrefix self.old self.new }
        ensures theirs { IsPrefix other.old other.new }
        ensures legal { IsJournaled L.workers (shape_of L.schema) self.new }
    {
        self.front.meet(&mut other.front);
    }
}

/// Enters what is published; `None` if it cannot be entered, and then the reader is there again.
fn entered<L: Line>(
    reader: &mut Option<Reader<Shown, (), Published<L>>>,
) -> Option<Reading<Shown, (), Published<L>>>
    requires { is_some reader.old ≡ true }
    ensures { MatchOption result (is_some reader.new ≡ true) (λ r. IsOfLine L.book L.schema L.workers r.part.value) }
{
    match reader.take()?.enter_as::<Sees<L>>() {
        Ok(reading) => Some(reading),
        Err(back) => {
            *reader = Some(back);
            None
        }
    }
}

/// Takes the list that was entered, unless the seat has seen a longer one; answers whether it did.
fn follow<L: Line>(front: &mut Front<L>, reading: &Reading<Shown, (), Published<L>>) -> bool
    requires seen { IsOfLine L.book L.schema L.workers reading.now.part.value }
    requires legal { IsJournaled L.workers (shape_of L.schema) front.old }
    ensures legal { IsJournaled L.workers (shape_of L.schema) front.new }
    ensures taken { MatchBool result (front.new ≡ reading.now.part.value.versions.commits) (front.new ≡ front.old) }
    ensures later { IsPrefix front.old front.new }
{
    let shown = reading.get();
    let entered = Front::of(&shown.seen, shown.versions.len());
    front.follow(entered)
}

/// Enters what is published, and takes its list. `None` if it cannot be entered, or is shorter than
/// what the seat has seen; the latter never happens, since what a seat has seen was published
/// before.
fn read<L: Line>(
    reader: &mut Option<Reader<Shown, (), Published<L>>>,
    front: &mut Front<L>,
) -> Option<Reading<Shown, (), Published<L>>>
    requires there { is_some reader.old ≡ true }
    requires legal { IsJournaled L.workers (shape_of L.schema) front.old }
    ensures legal { IsJournaled L.workers (shape_of L.schema) front.new }
    ensures later { IsPrefix front.old front.new }
    ensures seen { MatchOption result (is_some reader.new ≡ true)
        (λ r. IsOfLine L.book L.schema L.workers r.part.value × (front.new ≡ r.part.value.versions.commits)) }
{
    let reading = entered(reader)?;
    if !follow(front, &reading) {
        *reader = Some(reading.leave());
        return None;
    }
    Some(reading)
}

/// Enters what is published, and adds the next part of the image of the tables after the commits of the
/// front. Answers the place where the image goes on; `None` if this was its last part.
fn push_part<L: Line>(
    reader: &mut Option<Reader<Shown, (), Published<L>>>,
    front: &Front<L>,
    place: ImagePlace,
    most: usize,
    image: &mut Vec<Entry>,
) -> Result<Option<ImagePlace>, ImageFault>
    requires there { is_some reader.old ≡ true }
    requires legal { IsJournaled L.workers (shape_of L.schema) front.now }
    ensures there { is_some reader.new ≡ true }
    ensures tables { OnOk result (AreTables (shape_of L.schema)) }
    ensures part { IfOk result (λ next.
        image.new.items
        ++ image_rest (shape_of L.schema) (tables_after (shape_of L.schema) front.now (length front.now)) next
        ≡ image.old.items
        ++ image_rest (shape_of L.schema) (tables_after (shape_of L.schema) front.now (length front.now)) (Some place)) }
    ensures later { IfOk result (λ next. IfSome next (IsLaterPlace place)) }
{
    let mut newest = front.again();
    let Some(reading) = read(reader, &mut newest) else {
        return Err(ImageFault::Unread);
    };
    let versions = &reading.get().versions;
    versions.schema().keeps_limits();
    let part = versions.push_image_part(front.len(), place, most, image);
    *reader = Some(reading.leave());
    match part {
        Ok(next) => Ok(next),
        Err(_) => Err(ImageFault::Memory),
    }
}
