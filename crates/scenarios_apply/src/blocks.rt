//! A block of rows of a number and three bytes.

ghost use Rattle.std.specs.Prelude.{◌≡◌, [], ◌∷◌, length};
ghost use Rattle.rows.specs.declared.kind.Kind.TheVariants.{Int, Octets as OctetsOf};
ghost use Rattle.rows.specs.Shape.{row_width};

use apply::Block;
use rows::{Kind, Octets, Value};
use std::alloc::{AllocError, Global};
use std::test::Fail;

/// A row of 5 and `abc`.
const FIVE_ABC: [u8; 11] = *b"\0\0\0\0\0\0\0\x05abc";

/// Rows of a number and three bytes.
#[derive(Drop)]
struct Sheet {
    block: Block,
    ghost wide: { row_width block.kinds ≡ 11 },
    ghost two: { length block.kinds ≡ 2 },
    ghost kinds: { block.kinds ≡ Int ∷ OctetsOf 3 ∷ [] },
}

impl Sheet {
    /// No row yet. Fails only when out of memory.
    fn new(alloc: Global) -> Result<Sheet, AllocError> {
        let block = Block::new(alloc, &[Kind::Int, Kind::Octets(3)])?;
        Ok(Sheet { block })
    }

    /// Puts in a row of 5 and `abc`; whether it was not there, and there is memory.
    fn put(&mut self, row: u64) -> bool {
        !self.block.contains(row) && self.block.insert(row, &FIVE_ABC).is_ok()
    }

    /// Writes three bytes over a row's, and answers whether the row is there.
    fn write(&mut self, row: u64, bytes: &[u8; 3]) -> bool {
        let kinds = [Kind::Int, Kind::Octets(3)];
        self.block.patch(&kinds, row, 8, bytes)
    }

    /// Takes a row out, and answers whether it was there.
    fn take(&mut self, row: u64) -> bool {
        self.block.remove(row)
    }

    /// The value of a column of the row at an index; `None` past the last one.
    fn value(&self, at: usize, column: usize) -> Option<Value> {
        if at < self.block.len() && column < 2 {
            Some(self.block.value(at, column))
        } else {
            None
        }
    }

    /// Whether it has these rows, and the bytes of each are the ones beside it.
    fn has(&self, ids: &[u64], bytes: &[&[u8; 3]]) -> bool {
        if self.block.ids() != ids {
            return false;
        }
        for (at, expected) in bytes.iter().enumerate() {
            let octets = Octets::from_slice(expected.as_slice()).map(Value::Octets);
            if self.value(at, 0) != Some(Value::Int(5)) || self.value(at, 1) != octets {
                return false;
            }
        }
        true
    }
}

/// Whether rows stand in rising order with what was written to them, also once one is taken out and
/// they are parted. Fails only when out of memory.
fn are_kept(alloc: Global) -> Result<bool, AllocError> {
    let mut sheet = Sheet::new(alloc)?;
    let put = sheet.put(7) && sheet.put(3) && sheet.put(9) && sheet.write(7, b"xyz");
    if !put || !sheet.has(&[3, 7, 9], &[b"abc", b"xyz", b"abc"]) {
        return Ok(false);
    }
    let taken = sheet.take(3) && !sheet.take(3) && !sheet.write(3, b"xyz");
    Ok(taken && sheet.has(&[7, 9], &[b"xyz", b"abc"]))
}

/// Whether the rows from the second on are copied, and the others are left once these are dropped.
fn are_parted(alloc: Global) -> Result<bool, AllocError> {
    let mut sheet = Sheet::new(alloc)?;
    let put = sheet.put(3) && sheet.put(9) && sheet.write(9, b"xyz");
    if !put || sheet.block.len() != 2 {
        return Ok(false);
    }
    let tail = Sheet {
        block: sheet.block.tail(alloc, 1)?,
    };
    sheet.block.truncate(1);
    Ok(tail.has(&[9], &[b"xyz"]) && sheet.has(&[3], &[b"abc"]))
}

#[test]
fn a_block_has_its_rows_in_rising_order(rt: HostRuntime) -> Result<(), Fail> {
    assert!(rt; are_kept(rt.alloc())?);
    Ok(())
}

#[test]
fn a_block_is_parted(rt: HostRuntime) -> Result<(), Fail> {
    assert!(rt; are_parted(rt.alloc())?);
    Ok(())
}
