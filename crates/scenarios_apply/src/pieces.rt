//! Rows that are put into a piece and taken out of it: in rising order, in falling order, drawn.

ghost use Rattle.std.specs.Prelude.{◌≡◌};
ghost use Rattle.rows.specs.Shape.{row_width};

use apply::Piece;
use rows::Kind;
use scenarios_common::drawn_numbers::draw;
use scenarios_common::wanted::{FIVE, SIX};
use std::alloc::{AllocError, Global};
use std::test::Fail;
use store::TableRows;

/// Identifiers of rows.
const ROWS: usize = 4000;

/// The order in which rows are turned: put in if they are not there, and taken out if they are.
#[derive(Clone, Copy)]
enum Order {
    Rising,
    Falling,
    Drawn,
}

/// Rows of two numbers.
#[derive(Drop)]
struct Accounts {
    piece: Piece,
    ghost wide: { row_width piece.kinds ≡ 16 },
}

impl Accounts {
    /// No row yet. Fails only when out of memory.
    fn new(alloc: Global) -> Result<Accounts, AllocError> {
        let piece = Piece::empty(alloc, &[Kind::Int, Kind::Int])?;
        Ok(Accounts { piece })
    }

    /// Puts in a row, and answers whether it is new. Fails only when out of memory.
    fn put(&mut self, alloc: Global, row: u64) -> Result<bool, AllocError> {
        self.piece.insert(alloc, row, &FIVE)
    }

    /// Takes a row out, after its first number was changed, and answers whether it was there.
    fn take(&mut self, row: u64) -> bool {
        let changed = self.piece.patch(row, 0, &SIX);
        self.piece.remove(row) && changed
    }

    /// Puts a row in if it is not there, and takes it out if it is. Where memory was refused, nothing has
    /// changed, and it is asked for once more.
    fn turn(&mut self, alloc: Global, row: u64) -> bool {
        if self.take(row) {
            return true;
        }
        match self.put(alloc, row) {
            Ok(new) => new,
            Err(_) => !self.piece.contains(row) && matches!(self.put(alloc, row), Ok(true)),
        }
    }
}

/// Turns so many rows, one after the other, and tells which are there by then; `None` if memory is
/// refused twice.
fn turned(
    alloc: Global,
    accounts: &mut Accounts,
    order: Order,
    count: usize,
) -> Option<[bool; ROWS]> {
    let mut there = [false; ROWS];
    let mut state = 1;
    for step in 0..count {
        let row = match order {
            Order::Rising => step % ROWS,
            Order::Falling => ROWS - 1 - step % ROWS,
            Order::Drawn => draw(&mut state, ROWS),
        };
        if !accounts.turn(alloc, row as u64) {
            return None;
        }
        there[row] = !there[row];
    }
    Some(there)
}

/// Whether just the rows that were put in and not taken out are there.
fn are_there(alloc: Global, order: Order, count: usize) -> Result<bool, AllocError> {
    let mut accounts = Accounts::new(alloc)?;
    let Some(there) = turned(alloc, &mut accounts, order, count) else {
        return Err(AllocError);
    };
    for row in 0..ROWS {
        if accounts.piece.contains(row as u64) != there[row] {
            return Ok(false);
        }
    }
    Ok(!accounts.piece.contains(ROWS as u64) && !accounts.piece.contains(u64::MAX))
}

#[test]
fn rows_in_order_are_there(rt: HostRuntime) -> Result<(), Fail> {
    assert!(rt; are_there(rt.alloc(), Order::Rising, ROWS)?);
    assert!(rt; are_there(rt.alloc(), Order::Falling, ROWS)?);
    Ok(())
}

#[test]
fn rows_that_were_taken_out_in_order_are_gone(rt: HostRuntime) -> Result<(), Fail> {
    assert!(rt; are_there(rt.alloc(), Order::Rising, 2 * ROWS - 1)?);
    assert!(rt; are_there(rt.alloc(), Order::Falling, 2 * ROWS - 1)?);
    Ok(())
}

#[test]
fn drawn_rows_are_there(rt: HostRuntime) -> Result<(), Fail> {
    assert!(rt; are_there(rt.alloc(), Order::Drawn, 5 * ROWS)?);
    Ok(())
}

#[test]
fn rows_without_memory_are_put_in_when_asked_again(rt: HostRuntime) -> Result<(), Fail> {
    assert!(rt; are_there(rt.alloc(), Order::Drawn, 1500)?);
    Ok(())
}
