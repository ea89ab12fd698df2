//! Clerks, each at a seat of one line, who move amounts between rows.

ghost use Rattle.std.specs.Prelude.{◌<◌, ◌≤◌};

use crate::outcomes::{made, told};
use journal::JournalStore;
use mvcc::Transaction;
use primary::{CommitFault, FlushFault, Ticket};
use rows::{RowId, Value};
use scenarios_common::drawn_numbers::draw;
use shared::{Flushed, Line, Origin, Seat, Settled};
use std::alloc::Global;
use std::sync::Wait;

/// Rows between which amounts are moved.
pub const ROWS: u64 = 100;

/// Of every so many transfers of a clerk the first is followed by a base.
const BASES_EVERY: u32 = 8;

/// Tries of one transfer, at most.
const TRIES: u32 = 100_000;

/// What became of a try.
#[derive(Clone, Copy, PartialEq)]
enum Tried {
    /// It is durable, and was settled.
    Settled,
    /// Another commit came first.
    Again,
    /// The journal has failed.
    Failed,
    /// It was answered otherwise than ever may be.
    Wrong,
}

/// Who moves amounts, at a seat, for one of the first two workers.
#[derive(Drop)]
pub struct Clerk<L: Origin> {
    pub seat: Seat<L>,
    pub number: u8,
    /// What the rows and amounts are drawn from.
    pub state: u64,
    /// Of the transfers that were settled.
    pub tickets: Vec<Ticket>,
    /// Whether the journal has failed.
    pub has_failed: bool,
}

/// The first number of a row, as a transaction sees it.
fn amount<L: Origin>(seat: &mut Seat<L>, transaction: &Transaction, row: u64) -> Option<i64> {
    match seat.value(transaction, 0, RowId(row), 0) {
        Ok(Value::Int(amount)) => Some(amount),
        _ => None,
    }
}

/// Adds to the first number of a row.
fn add<L: Origin>(
    seat: &mut Seat<L>,
    transaction: &mut Transaction,
    row: u64,
    more: i64,
) -> Option<()> {
    let sum = amount(seat, transaction, row)?.wrapping_add(more);
    seat.set(transaction, 0, RowId(row), 0, Value::Int(sum))
        .ok()
}

/// Whether an amount is moved from a row to another.
fn moves<L: Origin>(
    seat: &mut Seat<L>,
    transaction: &mut Transaction,
    from: u64,
    to: u64,
    amount: i64,
) -> bool {
    add(seat, transaction, from, amount.wrapping_neg()).is_some()
        && add(seat, transaction, to, amount).is_some()
}

/// Whether all rows are put in, each with the numbers 0 and 0.
fn puts_in_all<L: Origin>(seat: &mut Seat<L>, transaction: &mut Transaction) -> bool {
    for row in 0..ROWS {
        let values = [Value::Int(0), Value::Int(0)];
        if seat.insert(transaction, 0, RowId(row), &values).is_err() {
            return false;
        }
    }
    true
}

/// The sum of all rows, as a transaction sees them.
fn sum_seen<L: Origin>(seat: &mut Seat<L>, transaction: &Transaction) -> Option<i64> {
    let mut sum: i64 = 0;
    for row in 0..ROWS {
        sum = sum.wrapping_add(amount(seat, transaction, row)?);
    }
    Some(sum)
}

/// The sum of all rows, in a transaction that begins now.
pub fn sum_of_all<L: Origin>(alloc: Global, seat: &mut Seat<L>) -> Option<i64> {
    match made(seat.begin(alloc)) {
        Some(transaction) => sum_seen(seat, &transaction),
        None => None,
    }
}

impl<L: Origin> Clerk<L> {
    /// The worker, by the clerk's number.
    fn worker(&self) -> u8
        ensures { result ≤ 1 }
    {
        self.number % 2
    }

    /// A transaction that moves an amount from a row to another.
    fn transfer(&mut self, alloc: Global) -> Option<Transaction> {
        let from = draw(&mut self.state, ROWS as usize) as u64;
        let further = draw(&mut self.state, ROWS as usize - 1) as u64;
        let to = from.wrapping_add(1).wrapping_add(further) % ROWS;
        let amount = draw(&mut self.state, 9) as i64;
        let Some(mut transaction) = made(self.seat.begin(alloc)) else {
            return None;
        };
        if !moves(&mut self.seat, &mut transaction, from, to, amount) {
            return None;
        }
        Some(transaction)
    }

    /// Makes all that is pending durable.
    fn flushes<J: JournalStore + Drop, R: Wait + Drop, W: Wait>(
        &mut self,
        rt: &W,
        line: &Line<L, J, R>,
    ) -> Tried {
        match line.flush(rt, &mut self.seat, usize::MAX) {
            Ok(Flushed::Published(_)) => Tried::Settled,
            Err(FlushFault::Failed) => Tried::Failed,
            Err(FlushFault::Journal) => Tried::Failed,
            _ => Tried::Wrong,
        }
    }

    /// Keeps a ticket; what the flush came to, if there is memory for it.
    fn keeps(&mut self, ticket: Ticket, flushed: Tried) -> Tried {
        if self.tickets.push(ticket).is_err() {
            return Tried::Wrong;
        }
        flushed
    }

    /// Makes a ticket's commit durable, and keeps the ticket if it is settled under its number.
    fn settles<J: JournalStore + Drop, R: Wait + Drop, W: Wait>(
        &mut self,
        rt: &W,
        line: &Line<L, J, R>,
        ticket: Ticket,
    ) -> Tried {
        let flushed = self.flushes(rt, line);
        let settled = line.settle(rt, &mut self.seat, &ticket);
        if settled == Settled::Settled(ticket.number) {
            return self.keeps(ticket, flushed);
        }
        // It may be pending only where the journal failed.
        if settled == Settled::NotYet && flushed == Tried::Failed {
            return Tried::Failed;
        }
        Tried::Wrong
    }

    /// Makes all that is pending durable, where another commit came first.
    fn gives_way<J: JournalStore + Drop, R: Wait + Drop, W: Wait>(
        &mut self,
        rt: &W,
        line: &Line<L, J, R>,
    ) -> Tried {
        match self.flushes(rt, line) {
            Tried::Settled => Tried::Again,
            other => other,
        }
    }

    /// The ticket of a transfer's commit, or why there is none: its commit was refused, or it could not be made.
    fn commits<J: JournalStore + Drop, R: Wait + Drop, W: Wait>(
        &mut self,
        rt: &W,
        alloc: Global,
        line: &Line<L, J, R>,
    ) -> Result<Ticket, Option<CommitFault>>
        requires { 1 < L.workers }
    {
        let Some(transaction) = self.transfer(alloc) else {
            return Err(None);
        };
        let worker = self.worker();
        match told(line.commit(rt, &mut self.seat, transaction, worker)) {
            Ok(ticket) => Ok(ticket),
            Err(fault) => Err(Some(fault)),
        }
    }

    /// Tries a transfer. Where another commit came first, all is made durable, so that the next try
    /// begins behind it.
    fn tries<J: JournalStore + Drop, R: Wait + Drop, W: Wait>(
        &mut self,
        rt: &W,
        alloc: Global,
        line: &Line<L, J, R>,
    ) -> Tried
        requires { 1 < L.workers }
    {
        match self.commits(rt, alloc, line) {
            Ok(ticket) => self.settles(rt, line, ticket),
            Err(Some(CommitFault::Conflict(_))) => self.gives_way(rt, line),
            Err(Some(CommitFault::Failed)) => Tried::Failed,
            Err(_) => Tried::Wrong,
        }
    }

    /// Tries transfers until one is settled, or refused for good.
    fn tries_again<J: JournalStore + Drop, R: Wait + Drop, W: Wait>(
        &mut self,
        rt: &W,
        alloc: Global,
        line: &Line<L, J, R>,
    ) -> Tried
        requires { 1 < L.workers }
    {
        for _ in 0..TRIES {
            match self.tries(rt, alloc, line) {
                Tried::Again => {}
                tried => return tried,
            }
        }
        Tried::Wrong
    }

    /// Whether a base is taken, of all that the clerk has then seen.
    fn takes_base<J: JournalStore, R: Wait + Drop, W: Wait>(
        &mut self,
        rt: &W,
        line: &Line<L, J, R>,
    ) -> bool {
        match line.take_base(rt, &mut self.seat) {
            Ok((base, pieces)) => base == self.seat.len() && pieces > 0,
            Err(_) => false,
        }
    }

    /// Makes so many transfers, or as many as it can until the journal fails, and takes a base now and
    /// then. It answers whether each answer was one that may be.
    pub fn works<J: JournalStore + Drop, R: Wait + Drop, W: Wait>(
        &mut self,
        rt: &W,
        alloc: Global,
        line: &Line<L, J, R>,
        count: u32,
    ) -> bool
        requires { 1 < L.workers }
    {
        for number in 0..count {
            match self.tries_again(rt, alloc, line) {
                Tried::Settled => {}
                Tried::Failed => {
                    self.has_failed = true;
                    return true;
                }
                _ => return false,
            }
            if number % BASES_EVERY == 0 && !self.takes_base(rt, line) {
                return false;
            }
        }
        true
    }

    /// Puts in all rows, each with the numbers 0 and 0, by one commit that is made durable.
    pub fn opens<J: JournalStore + Drop, R: Wait + Drop, W: Wait>(
        &mut self,
        rt: &W,
        alloc: Global,
        line: &Line<L, J, R>,
    ) -> bool
        requires { 1 < L.workers }
    {
        let Some(transaction) = self.opening(alloc) else {
            return false;
        };
        let worker = self.worker();
        match made(line.commit(rt, &mut self.seat, transaction, worker)) {
            Some(ticket) => self.settles(rt, line, ticket) == Tried::Settled,
            None => false,
        }
    }

    /// A transaction that puts in all rows.
    fn opening(&mut self, alloc: Global) -> Option<Transaction> {
        let Some(mut transaction) = made(self.seat.begin(alloc)) else {
            return None;
        };
        if !puts_in_all(&mut self.seat, &mut transaction) {
            return None;
        }
        Some(transaction)
    }

    /// Whether a commit and a flush are refused because the journal has failed.
    pub fn is_refused<J: JournalStore + Drop, R: Wait + Drop, W: Wait>(
        &mut self,
        rt: &W,
        alloc: Global,
        line: &Line<L, J, R>,
    ) -> bool
        requires { 1 < L.workers }
    {
        match self.commits(rt, alloc, line) {
            Err(Some(CommitFault::Failed)) => {
                line.flush(rt, &mut self.seat, usize::MAX) == Err(FlushFault::Failed)
            }
            _ => false,
        }
    }
}
