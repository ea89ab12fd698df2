//! Tellers, each at a seat of one line, who commit or read.

ghost use Rattle.std.specs.Prelude.{◌<◌, ◌≤◌};

use journal::JournalStore;
use mvcc::{Transaction, TxFault};
use rows::{RowId, Value};
use shared::{Flushed, Line, LineFault, Origin, Seat, Settled};
use std::alloc::Global;
use std::sync::Wait;
use std::sync::atomic::{AtomicU64, Ordering};
use std::thread;

/// Workers of the primary.
pub const WORKERS: u8 = 16;

/// Who commits or reads, at a seat.
#[derive(Drop)]
pub struct Teller<L: Origin> {
    pub seat: Seat<L>,
    pub number: u64,
    /// Commits that it makes. One that makes none reads until no other has commits left.
    pub commits: u64,
    /// Transactions that it read.
    pub reads: u64,
    /// Whether each of its answers was one that may be.
    pub is_right: bool,
}

impl<L: Origin> Teller<L> {
    /// The worker, by the teller's number.
    fn worker(&self) -> u8
        ensures { result < 16 }
    {
        (self.number % 16) as u8
    }

    /// A transaction that inserts one row.
    fn insertion(&mut self, alloc: Global, row: u64) -> Option<Transaction> {
        let Ok(mut transaction) = self.seat.begin(alloc) else {
            return None;
        };
        let values = [Value::Int(5), Value::Int(-1)];
        if self
            .seat
            .insert(&mut transaction, 0, RowId(row), &values)
            .is_err()
        {
            return None;
        }
        Some(transaction)
    }

    /// Commits a row, and makes it durable; whether its ticket was settled under its number.
    fn commits_row<J: JournalStore + Drop, R: Wait + Drop, W: Wait>(
        &mut self,
        rt: &W,
        alloc: Global,
        line: &Line<L, J, R>,
        row: u64,
    ) -> bool
        requires { 15 < L.workers }
    {
        let Some(transaction) = self.insertion(alloc, row) else {
            return false;
        };
        let worker = self.worker();
        let Ok(ticket) = line.commit(rt, &mut self.seat, transaction, worker) else {
            return false;
        };
        match line.flush(rt, &mut self.seat, usize::MAX) {
            Ok(Flushed::Published(_)) => {
                line.settle(rt, &mut self.seat, &ticket) == Settled::Settled(ticket.number)
            }
            _ => false,
        }
    }

    /// Commits its rows, one by one. Whether each was settled.
    fn commits_all<J: JournalStore + Drop, R: Wait + Drop, W: Wait>(
        &mut self,
        rt: &W,
        alloc: Global,
        line: &Line<L, J, R>,
    ) -> bool
        requires { 15 < L.workers }
    {
        let first = self.number.wrapping_mul(self.commits);
        for i in 0..self.commits {
            if !self.commits_row(rt, alloc, line, first.wrapping_add(i)) {
                return false;
            }
        }
        true
    }

    /// Reads a row in a transaction of its own. Whether it was read as it was put in, or is not there.
    fn reads_row(&mut self, alloc: Global) -> bool {
        let Ok(transaction) = self.seat.begin(alloc) else {
            return false;
        };
        matches!(
            self.seat.value(&transaction, 0, RowId(0), 0),
            Ok(Value::Int(5)) | Err(LineFault::Tx(TxFault::Missing))
        )
    }

    /// Reads until no other has commits left. Whether each read was right. It gives up its processor
    /// between two reads, so that it seldom loses it inside one.
    fn reads_on<W: Wait>(&mut self, rt: &W, alloc: Global, left: &AtomicU64) -> bool {
        for _ in rt.forever() {
            if left.load(Ordering::SeqCst) == 0 {
                return true;
            }
            if !self.reads_row(alloc) {
                return false;
            }
            self.reads = self.reads.saturating_add(1);
            thread::yield_now();
        }
        unreachable!()
    }

    /// Commits its rows and tells that it has none left, or reads.
    pub fn works<J: JournalStore + Drop, R: Wait + Drop, W: Wait>(
        &mut self,
        rt: &W,
        alloc: Global,
        line: &Line<L, J, R>,
        left: &AtomicU64,
    )
        requires { 15 < L.workers }
    {
        if self.commits == 0 {
            self.is_right = self.reads_on(rt, alloc, left);
        } else {
            self.is_right = self.commits_all(rt, alloc, line);
            left.fetch_sub(1, Ordering::SeqCst);
        }
    }
}
