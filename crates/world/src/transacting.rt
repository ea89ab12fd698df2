//! The steps of transactions: each event is one call on one of them, or on the primary.

ghost use Rattle.std.specs.Prelude.{◌≡◌, ◌<◌, ◌≤◌, ℕ, length, None, Some, Ok, IfSome, IfErr, OnOk, slice_set, vec_len};
ghost use Rattle.std.specs.Option.{option_map};
ghost use Rattle.rows.specs.Faults.{IsFaultOf};
ghost use Rattle.rows.specs.Shape.{shape_of};
ghost use Rattle.world.specs.Inner.Invariant.{IsReady};
ghost use Rattle.world.specs.Inner.CoreSteps.{HappensBeside, ChangesTransaction, change_answer};
ghost use Rattle.world.specs.Steps.{open_transaction};

use crate::cores::Cores;
use crate::naming::{change_output, commit_output, look_output};
use crate::primary_node::PrimaryNode;
use mvcc::{Transaction, TxFault, Versions};
use primary::CommitFault;
use rows::RowId;
use script::{Event, Output};

impl Cores {
    /// Begins a transaction on what is durable.
    pub fn begin(&mut self) -> Output
        ensures { HappensBeside self.old Event.Begin result self.new }
    {
        let PrimaryNode::Running(primary) = &self.primary else {
            return Output::Stopped;
        };
        let number = self.transactions.len() as u64;
        let snapshot = primary.durable();
        let transaction = Transaction::begin(self.alloc, snapshot);
        match self.transactions.push(Some(transaction)) {
            Ok(()) => Output::Tx { number, snapshot },
            Err(_) => Output::Memory,
        }
    }

    /// Changes a transaction: an event inserts a row, sets a column, deletes a row or adds a column.
    pub fn change(&mut self, number: u64, event: &Event) -> Output
        requires ready { IsReady self.old }
        requires changes { ChangesTransaction number event.now }
        ensures { HappensBeside self.old event.now result self.new }
    {
        let PrimaryNode::Running(primary) = &self.primary else {
            return Output::Stopped;
        };
        let Some(mut transaction) = take_open(&mut self.transactions, number) else {
            return Output::NoTx;
        };
        let changed = make_change(&mut transaction, primary.versions(), event);
        put_back(&mut self.transactions, number, transaction);
        change_output(changed)
    }

    /// Looks at one column of a row, as the transaction sees it.
    pub fn get(&self, number: u64, table: u8, row: RowId, column: u8) -> Output
        requires { IsReady self.now }
        ensures { HappensBeside self.now (Event.Get number table row column) result self.now }
    {
        let PrimaryNode::Running(primary) = &self.primary else {
            return Output::Stopped;
        };
        match find_open(self.transactions.as_slice(), number) {
            None => Output::NoTx,
            Some(transaction) => {
                look_output(transaction.get(primary.versions(), table, row, column as usize))
            }
        }
    }

    /// Commits a transaction for a worker.
    pub fn commit(&mut self, number: u64, worker: u8) -> Output
        requires { worker < self.old.primary.workers }
        ensures { HappensBeside self.old (Event.Commit number worker) result self.new }
    {
        let PrimaryNode::Running(primary) = &mut self.primary else {
            return Output::Stopped;
        };
        let Some(transaction) = take_open(&mut self.transactions, number) else {
            return Output::NoTx;
        };
        match primary.commit(transaction, worker) {
            Ok(ticket) => Output::Ticket(ticket.number),
            Err((transaction, CommitFault::Memory)) => {
                put_back(&mut self.transactions, number, transaction);
                Output::Memory
            }
            Err((_, fault)) => commit_output(fault),
        }
    }

    /// Gives up a transaction.
    pub fn abort(&mut self, number: u64) -> Output
        ensures { HappensBeside self.old (Event.Abort number) result self.new }
    {
        let PrimaryNode::Running(_) = &self.primary else {
            return Output::Stopped;
        };
        match take_open(&mut self.transactions, number) {
            None => Output::NoTx,
            Some(_) => Output::Accepted,
        }
    }
}

/// The call of the transaction that an event stands for which changes one.
fn make_change(
    transaction: &mut Transaction,
    versions: &Versions,
    event: &Event,
) -> Result<(), TxFault>
    requires known { transaction.old.snapshot ≤ length versions.now.commits }
    requires changes { (number : ℕ) × ChangesTransaction number event.now }
    ensures ok { OnOk result
        (change_answer (shape_of versions.now.schema) versions.now.commits event.now transaction.old ≡ Ok transaction.new) }
    ensures refused { IfErr result (λ fault. (transaction.new ≡ transaction.old)
        × IsFaultOf (change_answer (shape_of versions.now.schema) versions.now.commits event.now transaction.old)
        TxFault.Memory fault) }
{
    match event {
        Event::Insert {
            table,
            row,
            values,
            ..
        } => transaction.insert(versions, *table, *row, values.as_slice()),
        Event::Set {
            table,
            row,
            column,
            value,
            ..
        } => transaction.set(versions, *table, *row, *column as usize, *value),
        Event::Delete { table, row, .. } => transaction.delete(versions, *table, *row),
        Event::AddColumn { table, default, .. } => {
            transaction.add_column(versions, *table, *default)
        }
        _ => unreachable!(),
    }
}

/// The open transaction of that number, lent; `None` if there is none.
fn find_open(transactions: &[Option<Transaction>], number: u64) -> Option<&Transaction>
    ensures { option_map (λ t. t.now) result ≡ open_transaction transactions.now number }
{
    match transactions.get(number as usize) {
        Some(Some(transaction)) => Some(transaction),
        Some(None) | None => None,
    }
}

/// Takes the open transaction of that number out of its slot; `None` if there is none.
fn take_open(transactions: &mut Vec<Option<Transaction>>, number: u64) -> Option<Transaction>
    ensures taken { result ≡ open_transaction transactions.old.items number }
    ensures left { transactions.new.items ≡ slice_set transactions.old.items number None }
    ensures within { IfSome result (λ _. number < vec_len transactions.new) }
{
    if number >= transactions.len() as u64 {
        return None;
    }
    std::mem::replace(&mut transactions[number as usize], None)
}

/// Puts a transaction back into its slot.
fn put_back(transactions: &mut Vec<Option<Transaction>>, number: u64, transaction: Transaction)
    requires { number < vec_len transactions.old }
    ensures { transactions.new.items ≡ slice_set transactions.old.items number (Some transaction) }
{
    transactions[number as usize] = Some(transaction);
}
