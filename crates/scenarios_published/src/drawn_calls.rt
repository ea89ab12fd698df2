//! Drawn calls of three seats on one thread, while commits are published: each answers what a
//! transaction on plain versions answers.

ghost use Rattle.std.specs.Prelude.{◌≡◌, ◌<◌, ◌^◌, length};
ghost use Rattle.rows.specs.Shape.{shape_of};
ghost use Rattle.journal.specs.Recovery.{IsJournaled};

use crate::telling::Telling;
use crate::transfers::{accounts, transfers};
use history::Opened;
use mvcc::{Transaction, TxFault, Versions};
use published::{Line, LineFault, Seat};
use rows::{Commit, RowId, Schema, Value};
use scenarios_common::drawn_numbers::draw;
use std::alloc::Global;
use std::marker::Brand;
use std::sync::Wait;
use std::test::Fail;

/// Commits that are published.
const COMMITS: u64 = 300;

/// Calls that are drawn.
const CALLS: usize = 5000;

/// A seat, a transaction that it began, and the same transaction on plain versions.
#[derive(Drop)]
struct Player<L: Line> {
    seat: Seat<L>,
    transaction: Transaction,
    plain: Transaction,
}

/// What a transaction's refusal is called at a seat.
fn at_seat<T>(answer: Result<T, TxFault>) -> Result<T, LineFault> {
    answer.map_err(LineFault::Tx)
}

impl<L: Line> Player<L> {
    /// Begins anew, and answers whether that is at the newest of the plain versions.
    fn begins(&mut self, alloc: Global, versions: &Versions) -> bool {
        let Ok(transaction) = self.seat.begin(alloc) else {
            return false;
        };
        self.transaction = transaction;
        self.plain = Transaction::begin(alloc, versions.len());
        self.transaction.snapshot() == versions.len()
    }

    /// Whether the transactions answer the same value of a row, and have as many entries.
    fn reads(&mut self, versions: &Versions, row: u64, column: usize) -> bool {
        let Player {
            seat,
            transaction,
            plain,
        } = self;
        if plain.snapshot() > versions.len() {
            return false;
        }
        let answer = seat.value(transaction, 0, RowId(row), column);
        answer == at_seat(plain.get(versions, 0, RowId(row), column))
            && transaction.entries() == plain.entries()
    }

    /// Whether an insert is answered the same.
    fn inserts(&mut self, versions: &Versions, row: u64, value: i64) -> bool {
        let Player {
            seat,
            transaction,
            plain,
        } = self;
        if plain.snapshot() > versions.len() {
            return false;
        }
        let values = [Value::Int(value)];
        let answer = seat.insert(transaction, 0, RowId(row), &values);
        answer == at_seat(plain.insert(versions, 0, RowId(row), &values))
    }

    /// Whether a change of a row is answered the same.
    fn sets(&mut self, versions: &Versions, row: u64, column: usize, value: i64) -> bool {
        let Player {
            seat,
            transaction,
            plain,
        } = self;
        if plain.snapshot() > versions.len() {
            return false;
        }
        let answer = seat.set(transaction, 0, RowId(row), column, Value::Int(value));
        answer == at_seat(plain.set(versions, 0, RowId(row), column, Value::Int(value)))
    }

    /// Whether a delete is answered the same.
    fn deletes(&mut self, versions: &Versions, row: u64) -> bool {
        let Player {
            seat,
            transaction,
            plain,
        } = self;
        if plain.snapshot() > versions.len() {
            return false;
        }
        let answer = seat.delete(transaction, 0, RowId(row));
        answer == at_seat(plain.delete(versions, 0, RowId(row)))
    }

    /// Whether a transaction that began on a list longer by one is refused as ahead, by each call.
    fn is_ahead(&mut self, alloc: Global, versions: &Versions) -> bool {
        let mut ahead = Transaction::begin(alloc, versions.len().saturating_add(1));
        let value = self.seat.value(&ahead, 0, RowId(0), 0);
        let delete = self.seat.delete(&mut ahead, 0, RowId(0));
        value == Err(LineFault::Ahead)
            && delete == Err(LineFault::Ahead)
            && ahead.entries().is_empty()
    }

    /// Whether a call that is drawn is answered the same.
    fn plays(&mut self, alloc: Global, versions: &Versions, state: &mut u64) -> bool {
        let row = draw(state, 4) as u64;
        let column = draw(state, 2);
        let value = draw(state, 9) as i64;
        match draw(state, 12) {
            0 | 1 => self.begins(alloc, versions),
            2 => self.is_ahead(alloc, versions),
            3 | 4 => self.inserts(versions, row, value),
            5 | 6 => self.sets(versions, row, column, value),
            7 => self.deletes(versions, row),
            _ => self.reads(versions, row, column),
        }
    }
}

/// Brings the first player's seat and another one to one list, and answers whether they hold as many
/// commits.
fn meet<L: Line>(players: &mut [Player<L>]) -> bool {
    if players.len() < 2 {
        return false;
    }
    let (first, others) = players.split_at_mut(1);
    first[0].seat.meet(&mut others[0].seat);
    first[0].seat.front().len() == others[0].seat.front().len()
}

/// Tells the next commit and publishes it, to plain versions as well. `None` if it is out of memory.
fn published_to_both<L: Line, R: Wait + Drop>(
    telling: Telling<L, R>,
    versions: &mut Versions,
) -> Option<Telling<L, R>> {
    let index = telling.told();
    let mut telling = telling.told_next()?;
    if let Some(commit) = telling.commits().get(index) {
        if versions.apply(commit).is_err() {
            return None;
        }
    }
    if !telling.publish() {
        return None;
    }
    Some(telling)
}

/// Three players, each with a transaction that began on nothing. `None` if it is out of memory.
fn players_of<L: Line, R: Wait + Drop>(
    alloc: Global,
    telling: &Telling<L, R>,
) -> Option<Vec<Player<L>>> {
    let mut players = Vec::new(alloc);
    for _ in 0..3 {
        let player = Player {
            seat: telling.seat()?,
            transaction: Transaction::begin(alloc, 0),
            plain: Transaction::begin(alloc, 0),
        };
        if players.push(player).is_err() {
            return None;
        }
    }
    Some(players)
}

/// The number of the first drawn call that is answered otherwise. `None` if it is out of memory.
fn other_answered<L: Line, R: Wait>(
    rt: &R,
    alloc: Global,
    opened: Opened,
    schema: &Schema,
    commits: Vec<Commit>,
    workers: u8,
) -> Option<usize>
    requires book { opened.seen.book ≡ L.book }
    requires schema { schema.now ≡ L.schema }
    requires workers { workers ≡ L.workers }
    requires legal { IsJournaled workers (shape_of schema.now) commits.items }
{
    let Ok(mut versions) = Versions::new(alloc, schema) else {
        return None;
    };
    let mut telling = Telling::<L, &R>::new(alloc, rt, opened, schema, commits, 3)?;
    let mut players = players_of(alloc, &telling)?;
    let mut state = 7;
    for number in 0..CALLS {
        if draw(&mut state, 16) == 0 {
            telling = published_to_both(telling, &mut versions)?;
        }
        if !plays(alloc, &versions, players.as_mut_slice(), &mut state) {
            return Some(number);
        }
    }
    Some(CALLS)
}

/// Whether a drawn call of one of the players is answered the same.
fn plays<L: Line>(
    alloc: Global,
    versions: &Versions,
    players: &mut [Player<L>],
    state: &mut u64,
) -> bool {
    if draw(state, 20) == 0 {
        return meet(players);
    }
    match players.get_mut(draw(state, 3)) {
        Some(player) => player.plays(alloc, versions, state),
        None => false,
    }
}

#[test]
fn drawn_calls_are_answered_as_by_plain_versions(rt: HostRuntime) -> Result<(), Fail> {
    let schema = accounts(rt.alloc())?;
    let commits = transfers(rt.alloc(), &schema, COMMITS)?;
    let opened = Opened::new().ok_or("history")?;
    let number = other_answered::<Brand, _>(&rt, rt.alloc(), opened, &schema, commits, 1);
    assert_eq!(rt; number, Some(CALLS));
    Ok(())
}
