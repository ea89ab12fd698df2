//! The transaction of a job.

ghost use Rattle.std.specs.Prelude.{◌≡◌, [], length, true, IfOk, IfErr, MatchResult};
ghost use mathlib.Core.List.{IsPrefix};
ghost use Rattle.rows.specs.Shape.{shape_of};
ghost use Rattle.journal.specs.Recovery.{IsJournaled};
ghost use Rattle.mvcc.specs.Transactions.{get_answer};
ghost use Rattle.published.specs.Answers.{IsAnswer, IsChange};
ghost use Rattle.sockets.specs.Answers.{IsDraft};
ghost use Rattle.sockets.specs.Changes.{change_answer, condition_answer, has_value, is_missing, refused_at, step_answer};
ghost use Rattle.sockets.specs.Inner.Jobs.{IsStop, IsStopped};

use crate::change::Change;
use crate::refusal::Refusal;
use crate::step::Step;
use mvcc::{Transaction, TxFault};
use rows::{RowId, Value};
use shared::{LineFault, Origin, Seat};
use std::alloc::Global;
use std::thread;

/// How often a call that could not read what is published is repeated, at most.
pub const TRIES_AGAIN: u32 = 1000;

/// Why a job has no transaction.
#[derive(Clone, Copy)]
pub(crate) enum Stop {
    Refused(Refusal),
    /// Out of memory.
    Memory,
}

/// The transaction that these steps make, on the newest published version or a newer one that the
/// seat has seen: each change is made and each condition looked at in the transaction as the steps
/// before left it.
///
/// Fails with the refusal of the first step that is refused.
pub(crate) fn drafted<L: Origin>(
    alloc: Global,
    seat: &mut Seat<L>,
    steps: &[Step],
) -> Result<Transaction, Stop>
    ensures legal { IsJournaled L.workers (shape_of L.schema) seat.new.list }
    ensures later { IsPrefix seat.old.list seat.new.list }
    ensures same { seat.new ≡ record seat.old { list = seat.new.list } }
    ensures drafted { MatchResult result (IsDraft (shape_of L.schema) (length seat.old.list) seat.new.list steps.now)
        (IsStopped (shape_of L.schema) (length seat.old.list) seat.new.list steps.now) }
{
    let mut transaction = match begun(alloc, seat) {
        Ok(transaction) => transaction,
        Err(_) => return Err(Stop::Refused(Refusal::Unread)),
    };
    for (number, step) in steps.iter().enumerate() {
        match take_step(seat, &mut transaction, number, step) {
            Ok(()) => {}
            Err(stop) => return Err(stop),
        }
    }
    Ok(transaction)
}

/// Begins a transaction on the newest version that is published, or on a newer one that the seat has seen,
/// and tries again up to 1000 times if what is published cannot be entered. It has no entries.
///
/// Fails with `Unread` if it never could be.
pub fn begun<L: Origin>(alloc: Global, seat: &mut Seat<L>) -> Result<Transaction, LineFault>
    ensures legal { IsJournaled L.workers (shape_of L.schema) seat.new.list }
    ensures later { IsPrefix seat.old.list seat.new.list }
    ensures same { seat.new ≡ record seat.old { list = seat.new.list } }
    ensures begun { IfOk result (λ t. t ≡ record { snapshot = length seat.new.list; entries = [] }) }
    ensures refused { IfErr result (λ fault. fault ≡ LineFault.Unread) }
{
    for _ in 0..TRIES_AGAIN {
        if let Ok(transaction) = seat.begin(alloc) {
            return Ok(transaction);
        }
        thread::yield_now();
    }
    seat.begin(alloc)
}

/// The value of a column of a row, as the transaction sees it. It tries again up to 1000 times if what
/// is published cannot be read. Takes no memory.
///
/// Fails as `Seat::value` does, with `Unread` if what is published could never be read.
pub fn looked<L: Origin>(
    seat: &mut Seat<L>,
    transaction: &Transaction,
    table: u8,
    row: RowId,
    column: usize,
) -> Result<Value, LineFault>
    ensures legal { IsJournaled L.workers (shape_of L.schema) seat.new.list }
    ensures later { IsPrefix seat.old.list seat.new.list }
    ensures same { seat.new ≡ record seat.old { list = seat.new.list } }
    ensures answer { IsAnswer transaction.now.snapshot (length seat.new.list)
        (get_answer (shape_of L.schema) seat.new.list transaction.now table row.0 column) result }
{
    for _ in 0..TRIES_AGAIN {
        let found = seat.value(transaction, table, row, column);
        if !matches!(found, Err(LineFault::Unread)) {
            return found;
        }
        thread::yield_now();
    }
    seat.value(transaction, table, row, column)
}

/// Takes the step of that number into a transaction: makes its change, or looks whether its condition
/// holds.
///
/// A refusal leaves the transaction unchanged.
fn take_step<L: Origin>(
    seat: &mut Seat<L>,
    transaction: &mut Transaction,
    number: usize,
    step: &Step,
) -> Result<(), Stop>
    ensures legal { IsJournaled L.workers (shape_of L.schema) seat.new.list }
    ensures later { IsPrefix seat.old.list seat.new.list }
    ensures same { seat.new ≡ record seat.old { list = seat.new.list } }
    ensures answer { MatchResult result
        (λ _. step_answer (shape_of L.schema) seat.new.list number transaction.old step.now ≡ Ok transaction.new)
        (IsStop (step_answer (shape_of L.schema) seat.new.list number transaction.old step.now)) }
{
    match step {
        Step::Change(change) => take_change(seat, transaction, number, change),
        Step::Expect {
            table,
            row,
            column,
            value,
        } => expect(seat, transaction, number, *table, *row, *column, value),
        Step::Absent { table, row } => miss(seat, transaction, number, *table, *row),
    }
}

/// Looks whether a column of a row has this value, as the condition of that number asks.
fn expect<L: Origin>(
    seat: &mut Seat<L>,
    transaction: &Transaction,
    number: usize,
    table: u8,
    row: RowId,
    column: usize,
    value: &Value,
) -> Result<(), Stop>
    ensures legal { IsJournaled L.workers (shape_of L.schema) seat.new.list }
    ensures later { IsPrefix seat.old.list seat.new.list }
    ensures same { seat.new ≡ record seat.old { list = seat.new.list } }
    ensures answer { let holds = has_value value.now (get_answer (shape_of L.schema) seat.new.list transaction.now table row.0 column) in
        MatchResult result (λ _. holds ≡ true) (IsStop (condition_answer number holds transaction.now)) }
{
    match looked(seat, transaction, table, row, column) {
        Ok(found) => {
            if found == *value {
                Ok(())
            } else {
                Err(Stop::Refused(Refusal::Condition { step: number }))
            }
        }
        Err(LineFault::Tx(_)) => Err(Stop::Refused(Refusal::Condition { step: number })),
        Err(_) => Err(Stop::Refused(Refusal::Unread)),
    }
}

/// Looks whether a row is not in a table, as the condition of that number asks.
fn miss<L: Origin>(
    seat: &mut Seat<L>,
    transaction: &Transaction,
    number: usize,
    table: u8,
    row: RowId,
) -> Result<(), Stop>
    ensures legal { IsJournaled L.workers (shape_of L.schema) seat.new.list }
    ensures later { IsPrefix seat.old.list seat.new.list }
    ensures same { seat.new ≡ record seat.old { list = seat.new.list } }
    ensures answer { let holds = is_missing (get_answer (shape_of L.schema) seat.new.list transaction.now table row.0 0) in
        MatchResult result (λ _. holds ≡ true) (IsStop (condition_answer number holds transaction.now)) }
{
    match looked(seat, transaction, table, row, 0) {
        Err(LineFault::Tx(TxFault::Missing)) => Ok(()),
        Err(LineFault::Tx(_)) => Err(Stop::Refused(Refusal::Condition { step: number })),
        Err(_) => Err(Stop::Refused(Refusal::Unread)),
        Ok(_) => Err(Stop::Refused(Refusal::Condition { step: number })),
    }
}

/// Makes the change of the step of that number.
fn take_change<L: Origin>(
    seat: &mut Seat<L>,
    transaction: &mut Transaction,
    number: usize,
    change: &Change,
) -> Result<(), Stop>
    ensures legal { IsJournaled L.workers (shape_of L.schema) seat.new.list }
    ensures later { IsPrefix seat.old.list seat.new.list }
    ensures same { seat.new ≡ record seat.old { list = seat.new.list } }
    ensures answer { let made = refused_at number (change_answer (shape_of L.schema) seat.new.list transaction.old change.now) in
        MatchResult result (λ _. made ≡ Ok transaction.new) (IsStop made) }
{
    match make_change(seat, transaction, change) {
        Ok(()) => Ok(()),
        Err(LineFault::Tx(TxFault::Memory)) => Err(Stop::Memory),
        Err(LineFault::Tx(fault)) => Err(Stop::Refused(Refusal::Change {
            step: number,
            fault,
        })),
        Err(_) => Err(Stop::Refused(Refusal::Unread)),
    }
}

/// Makes a change in a transaction, and tries again up to 1000 times if what is published cannot be
/// read.
///
/// Fails as the seat's call does, with `Unread` if what is published could never be read. A refusal
/// leaves the transaction unchanged.
fn make_change<L: Origin>(
    seat: &mut Seat<L>,
    transaction: &mut Transaction,
    change: &Change,
) -> Result<(), LineFault>
    ensures legal { IsJournaled L.workers (shape_of L.schema) seat.new.list }
    ensures later { IsPrefix seat.old.list seat.new.list }
    ensures same { seat.new ≡ record seat.old { list = seat.new.list } }
    ensures answer { IsChange (length seat.new.list) (change_answer (shape_of L.schema) seat.new.list transaction.old change.now)
        transaction.old transaction.new result }
{
    for _ in 0..TRIES_AGAIN {
        let made = make_once(seat, transaction, change);
        if !matches!(made, Err(LineFault::Unread)) {
            return made;
        }
        thread::yield_now();
    }
    make_once(seat, transaction, change)
}

/// Makes a change, if what is published can be read.
fn make_once<L: Origin>(
    seat: &mut Seat<L>,
    transaction: &mut Transaction,
    change: &Change,
) -> Result<(), LineFault>
    ensures legal { IsJournaled L.workers (shape_of L.schema) seat.new.list }
    ensures later { IsPrefix seat.old.list seat.new.list }
    ensures same { seat.new ≡ record seat.old { list = seat.new.list } }
    ensures answer { IsChange (length seat.new.list) (change_answer (shape_of L.schema) seat.new.list transaction.old change.now)
        transaction.old transaction.new result }
{
    match change {
        Change::Insert { table, row, values } => {
            seat.insert(transaction, *table, *row, values.as_slice())
        }
        Change::Set {
            table,
            row,
            column,
            value,
        } => seat.set(transaction, *table, *row, *column, *value),
        Change::Delete { table, row } => seat.delete(transaction, *table, *row),
        Change::AddColumn { table, default } => seat.add_column(transaction, *table, *default),
    }
}
