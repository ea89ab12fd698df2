//! The blocks of a table's rows, in order.

ghost use Rattle.std.specs.Prelude.{◌≡◌, ◌+◌, ◌/◌, ◌<◌, ◌≤◌, ◌^◌, length, take, true, false, [], Some, IfOk, IfSome, OnOk, OnErr, is_some};
ghost use Rattle.std.specs.Prelude.{slice_index_or, not, if◌then◌else◌};
ghost use Rattle.std.specs.Prelude.{vec_capacity};
ghost use Rattle.std.specs.List.{list_all};
ghost use Rattle.std.specs.Map.{keys_of};
ghost use Rattle.rows.specs.Shape.{row_width, is_good};
ghost use Rattle.rows.specs.Values.{values_of};
ghost use Rattle.rows.specs.Tables.{is_present, with_row, with_patch, without_row};
ghost use Rattle.store.specs.Lent.{rows_from, column_in, AreLent};
ghost use Rattle.apply.specs.Blocks.{cell_in};
ghost use Rattle.apply.specs.Orders.{AllUnder, Rising, place_in};
ghost use Rattle.apply.specs.Inner.Joins.{joined, ends_from, end_before, AllHaveRows, AreBlocks, IsHome};
ghost use Rattle.apply.specs.Limits.{rows_max};

use crate::block::Block;
use rows::{Kind, Value};
use std::alloc::{AllocError, Global};
use store::Lent;

/// How many rows a block has at most, apart from the one that it takes when it is cut.
const BLOCK_ROWS: usize = 512;

/// The index of the block that contains a row, or into which it would be inserted: the last one
/// that begins at or below it, or else the first.
pub fn home_of(blocks: &[Block], row: u64) -> usize
    requires some { 0 < length blocks.now }
    requires rows { AllHaveRows blocks.now }
    requires rise { Rising (joined blocks.now) }
    ensures { IsHome blocks.now result row }
{
    let mut low = 0;
    let mut high = blocks.len();
    while low + 1 < high {
        let middle = low + (high - low) / 2;
        if blocks[middle].ids()[0] <= row {
            low = middle;
        } else {
            high = middle;
        }
    }
    low
}

/// Whether a row is there.
pub fn contains(blocks: &[Block], row: u64) -> bool
    requires rows { AllHaveRows blocks.now }
    requires rise { Rising (joined blocks.now) }
    ensures { result ≡ is_present (joined blocks.now) row }
{
    if blocks.is_empty() {
        return false;
    }
    blocks[home_of(blocks, row)].contains(row)
}

/// How many rows there are before a block, computed from the number of rows up to the end of each
/// block.
pub fn rows_before(ends: &[usize], block: usize) -> usize
    requires { block ≤ length ends.now }
    ensures { result ≡ end_before ends.now block }
{
    if block == 0 { 0 } else { ends[block - 1] }
}

/// Updates the number of rows up to the end of each block, from one block on.
fn renew_ends(ends: &mut Vec<usize>, blocks: &[Block], from: usize)
    requires within { from ≤ length blocks.now }
    requires before { take from ends.old.items ≡ ends_from 0 (take from blocks.now) }
    requires room { length blocks.now ≤ vec_capacity ends.old }
    requires few { length (joined blocks.now) < 2 ^ 64 }
    ensures { ends.new.items ≡ ends_from 0 blocks.now }
{
    ends.truncate(from);
    let mut rows = rows_before(ends.as_slice(), from);
    for k in from..blocks.len() {
        rows += blocks[k].len();
        ends.push_reserved(rows);
    }
}

/// How many rows have an identifier below this one, computed from the number of rows up to the end
/// of each block.
pub fn place(blocks: &[Block], ends: &[usize], row: u64) -> usize
    requires rows { AllHaveRows blocks.now }
    requires rise { Rising (joined blocks.now) }
    requires ends { ends.now ≡ ends_from 0 blocks.now }
    requires few { length (joined blocks.now) < 2 ^ 64 }
    ensures { result ≡ place_in (joined blocks.now) row }
{
    if blocks.is_empty() {
        return 0;
    }
    let home = home_of(blocks, row);
    rows_before(ends, home) + blocks[home].place(row)
}

/// The greatest identifier; 0 if there is no row.
pub fn greatest(blocks: &[Block]) -> u64
    requires rows { AllHaveRows blocks.now }
    requires rise { Rising (joined blocks.now) }
    ensures { AllUnder (result + 1) (joined blocks.now) }
{
    if blocks.is_empty() {
        return 0;
    }
    let ids = blocks[blocks.len() - 1].ids();
    ids[ids.len() - 1]
}

/// The position of a row among all rows, computed from the number of rows up to the end of each
/// block; `None` if it is not there.
pub fn find(blocks: &[Block], ends: &[usize], row: u64) -> Option<usize>
    requires rows { AllHaveRows blocks.now }
    requires rise { Rising (joined blocks.now) }
    requires ends { ends.now ≡ ends_from 0 blocks.now }
    requires few { length (joined blocks.now) < 2 ^ 64 }
    ensures found { is_some result ≡ is_present (joined blocks.now) row }
    ensures place { IfSome result (λ at. at ≡ place_in (joined blocks.now) row) }
{
    if blocks.is_empty() {
        return None;
    }
    let home = home_of(blocks, row);
    match blocks[home].find(row) {
        Some(at) => Some(rows_before(ends, home) + at),
        None => None,
    }
}

/// The index of the block that has the row at a position, computed from the number of rows up to
/// the end of each block.
fn block_at(ends: &[usize], at: usize) -> usize
    requires { at < end_before ends.now (length ends.now) }
    ensures within { result < length ends.now }
    ensures below { end_before ends.now result ≤ at }
    ensures above { at < slice_index_or ends.now result 0 }
{
    let mut low = 0;
    let mut high = ends.len();
    while low + 1 < high {
        let middle = low + (high - low) / 2;
        if ends[middle - 1] <= at {
            low = middle;
        } else {
            high = middle;
        }
    }
    low
}

/// The block that has the row at a position, and the index of the row in it, computed from the
/// number of rows up to the end of each block.
fn index_of(blocks: &[Block], ends: &[usize], at: usize) -> (usize, usize)
    requires ends { ends.now ≡ ends_from 0 blocks.now }
    requires within { at < length (joined blocks.now) }
    ensures block { result.0 < length blocks.now }
    ensures index { (d : _) → result.1 < length (slice_index_or blocks.now result.0 d).rows }
    ensures position { at ≡ length (joined (take result.0 blocks.now)) + result.1 }
{
    let _ = blocks;
    let block = block_at(ends, at);
    (block, at - rows_before(ends, block))
}

/// The value of one column of the row at a position, computed from the number of rows up to the end
/// of each block.
pub fn value(blocks: &[Block], ends: &[usize], kinds: &[Kind], at: usize, column: usize) -> Value
    requires blocks { AreBlocks kinds.now blocks.now }
    requires ends { ends.now ≡ ends_from 0 blocks.now }
    requires within { at < length (joined blocks.now) }
    requires column { column < length kinds.now }
    ensures { Some result ≡ cell_in (joined blocks.now) at column }
{
    let _ = kinds;
    let (block, index) = index_of(blocks, ends, at);
    blocks[block].value(index, column)
}

/// The identifiers of the rows of a block from that at a position on, lent; the position is among
/// all rows, and computed from the number of rows up to the end of each block.
pub fn ids_from<'a>(blocks: &'a [Block], ends: &[usize], at: usize) -> &'a [u64]
    requires ends { ends.now ≡ ends_from 0 blocks.now }
    requires within { at < length (joined blocks.now) }
    ensures value { result.now ≡ keys_of (rows_from (joined blocks.now) at (length result.now)) }
    ensures some { 0 < length result.now }
{
    let (block, index) = index_of(blocks, ends, at);
    let (_, ids) = blocks[block].ids().split_at(index);
    ids
}

/// The values of one column of this many rows from a position on, lent, computed from the number of
/// rows up to the end of each block; `None` if they are not all in one block.
pub fn column_from<'a>(
    blocks: &'a [Block],
    ends: &[usize],
    kinds: &[Kind],
    at: usize,
    count: usize,
    column: usize,
) -> Option<Lent<'a>>
    requires blocks { AreBlocks kinds.now blocks.now }
    requires ends { ends.now ≡ ends_from 0 blocks.now }
    requires within { at < length (joined blocks.now) }
    requires column { column < length kinds.now }
    ensures { IfSome result (AreLent (column_in (rows_from (joined blocks.now) at count) column)) }
{
    let _ = kinds;
    let (block, index) = index_of(blocks, ends, at);
    if blocks[block].len() - index < count {
        return None;
    }
    Some(blocks[block].column_from(index, count, column))
}

/// Inserts a row that is not there, given by its bytes, in its block. Fails only if out of memory,
/// and then the blocks are unchanged.
fn insert_row(
    blocks: &mut [Block],
    kinds: &[Kind],
    home: usize,
    row: u64,
    bytes: &[u8],
) -> Result<(), AllocError>
    requires blocks { AreBlocks kinds.now blocks.old }
    requires home { IsHome blocks.old home row }
    requires absent { is_present (joined blocks.old) row ≡ false }
    requires wide { row_width kinds.now ≤ length bytes.now }
    ensures ok { OnOk result (joined blocks.new ≡ with_row (joined blocks.old) row (values_of kinds.now bytes.now)) }
    ensures err { OnErr result (joined blocks.new ≡ joined blocks.old) }
    ensures blocks { AreBlocks kinds.now blocks.new }
    ensures front { take home blocks.new ≡ take home blocks.old }
    ensures len { length blocks.new ≡ length blocks.old }
{
    let _ = kinds;
    blocks[home].insert(row, bytes)
}

/// Inserts a row, given by its bytes, and answers whether it is new; if there is one of that
/// identifier, nothing changes. There may be no blocks yet, and a full block is cut first. Fails only
/// if out of memory, and only for a new row; the rows are then unchanged.
pub fn put_row(
    alloc: Global,
    blocks: &mut Vec<Block>,
    ends: &mut Vec<usize>,
    kinds: &[Kind],
    row: u64,
    bytes: &[u8],
) -> Result<bool, AllocError>
    requires blocks { AreBlocks kinds.now blocks.old.items }
    requires ends { ends.old.items ≡ ends_from 0 blocks.old.items }
    requires few { length (joined blocks.old.items) < rows_max }
    requires good { list_all is_good kinds.now ≡ true }
    requires wide { row_width kinds.now ≤ length bytes.now }
    ensures new { IfOk result (λ new. is_present (joined blocks.old.items) row ≡ not new) }
    ensures rows { IfOk result (λ new. joined blocks.new.items ≡ (if new
        then with_row (joined blocks.old.items) row (values_of kinds.now bytes.now) else joined blocks.old.items)) }
    ensures absent { OnErr result (is_present (joined blocks.old.items) row ≡ false) }
    ensures err { OnErr result (joined blocks.new.items ≡ joined blocks.old.items) }
    ensures blocks { AreBlocks kinds.now blocks.new.items }
    ensures ends { ends.new.items ≡ ends_from 0 blocks.new.items }
{
    if blocks.is_empty() {
        ends.reserve(1)?;
        let block = block_of(alloc, kinds, row, bytes)?;
        if blocks.push(block).is_err() {
            return Err(AllocError);
        }
        ends.push_reserved(1);
        return Ok(true);
    }
    let home = home_of(blocks.as_slice(), row);
    if blocks[home].contains(row) {
        return Ok(false);
    }
    ends.reserve(1)?;
    let at = roomy_home(alloc, blocks, kinds, home, row)?;
    let put = insert_row(blocks.as_mut_slice(), kinds, at, row, bytes);
    renew_ends(ends, blocks.as_slice(), home.min(at));
    put?;
    Ok(true)
}

/// A block of one row, given by its bytes. Fails only if out of memory.
fn block_of(alloc: Global, kinds: &[Kind], row: u64, bytes: &[u8]) -> Result<Block, AllocError>
    requires good { list_all is_good kinds.now ≡ true }
    requires wide { row_width kinds.now ≤ length bytes.now }
    ensures { IfOk result (λ block. block ≡ record { kinds = kinds.now; rows = with_row [] row (values_of kinds.now bytes.now) }) }
{
    let mut block = Block::new(alloc, kinds)?;
    block.insert(row, bytes)?;
    Ok(block)
}

/// Puts bytes in place of one column's of a row in these blocks, and answers whether the row is
/// there. If it is not, or if the bytes are not exactly one column's, nothing changes.
pub fn patch_row(blocks: &mut [Block], kinds: &[Kind], row: u64, offset: u16, bytes: &[u8]) -> bool
    requires { AreBlocks kinds.now blocks.old }
    ensures there { result ≡ is_present (joined blocks.old) row }
    ensures rows { joined blocks.new ≡ with_patch kinds.now (joined blocks.old) row offset bytes.now }
    ensures blocks { AreBlocks kinds.now blocks.new }
    ensures ends { ends_from 0 blocks.new ≡ ends_from 0 blocks.old }
    ensures len { length blocks.new ≡ length blocks.old }
{
    if blocks.is_empty() {
        return false;
    }
    let home = home_of(blocks, row);
    blocks[home].patch(kinds, row, offset, bytes)
}

/// Deletes a row from its block, and answers whether it was there; the block is dropped if it
/// becomes empty. If the row was not there, nothing changes.
fn take_row(blocks: &mut Vec<Block>, kinds: &[Kind], home: usize, row: u64) -> bool
    requires blocks { AreBlocks kinds.now blocks.old.items }
    requires home { IsHome blocks.old.items home row }
    ensures there { result ≡ is_present (joined blocks.old.items) row }
    ensures absent { result ≡ false → blocks.new.items ≡ blocks.old.items }
    ensures rows { joined blocks.new.items ≡ without_row (joined blocks.old.items) row }
    ensures blocks { AreBlocks kinds.now blocks.new.items }
    ensures front { take home blocks.new.items ≡ take home blocks.old.items }
    ensures within { home ≤ length blocks.new.items }
    ensures fewer { length blocks.new.items ≤ length blocks.old.items }
{
    let _ = kinds;
    if !blocks[home].remove(row) {
        return false;
    }
    if blocks[home].len() == 0 {
        let _ = blocks.remove(home);
    }
    true
}

/// Deletes a row, and answers whether it was there; a block that becomes empty is dropped. If the
/// row was not there, nothing changes.
pub fn remove_row(blocks: &mut Vec<Block>, ends: &mut Vec<usize>, kinds: &[Kind], row: u64) -> bool
    requires blocks { AreBlocks kinds.now blocks.old.items }
    requires ends { ends.old.items ≡ ends_from 0 blocks.old.items }
    requires few { length (joined blocks.old.items) ≤ rows_max }
    ensures there { result ≡ is_present (joined blocks.old.items) row }
    ensures rows { joined blocks.new.items ≡ without_row (joined blocks.old.items) row }
    ensures blocks { AreBlocks kinds.now blocks.new.items }
    ensures ends { ends.new.items ≡ ends_from 0 blocks.new.items }
{
    if blocks.is_empty() {
        return false;
    }
    let home = home_of(blocks.as_slice(), row);
    if !take_row(blocks, kinds, home, row) {
        return false;
    }
    renew_ends(ends, blocks.as_slice(), home);
    true
}

/// Makes room for a row in its block, and answers the index of the block into which it would be
/// inserted then. The rows do not change. Fails only if out of memory, and then the blocks are
/// unchanged.
fn roomy_home(
    alloc: Global,
    blocks: &mut Vec<Block>,
    kinds: &[Kind],
    home: usize,
    row: u64,
) -> Result<usize, AllocError>
    requires blocks { AreBlocks kinds.now blocks.old.items }
    requires home { IsHome blocks.old.items home row }
    ensures home { IfOk result (λ at. IsHome blocks.new.items at row) }
    ensures rows { joined blocks.new.items ≡ joined blocks.old.items }
    ensures blocks { AreBlocks kinds.now blocks.new.items }
    ensures front { take home blocks.new.items ≡ take home blocks.old.items }
    ensures some { length blocks.old.items ≤ length blocks.new.items }
    ensures more { length blocks.new.items ≤ length blocks.old.items + 1 }
    ensures err { OnErr result (blocks.new.items ≡ blocks.old.items) }
{
    if !make_room(alloc, blocks, kinds, home, row)? {
        return Ok(home);
    }
    Ok(home_of(blocks.as_slice(), row))
}

/// Makes room for a row in its block, and answers whether it was full: if so, its last rows become a
/// block of their own. If the row is after all rows of the block, or before them, one row is
/// separated from the others, so that rows which arrive in order leave full blocks; otherwise half of
/// them are. The rows do not change. Fails only if out of memory, and then the blocks are unchanged.
fn make_room(
    alloc: Global,
    blocks: &mut Vec<Block>,
    kinds: &[Kind],
    home: usize,
    row: u64,
) -> Result<bool, AllocError>
    requires blocks { AreBlocks kinds.now blocks.old.items }
    requires within { home < length blocks.old.items }
    ensures kept { IfOk result (λ cut. cut ≡ false → blocks.new.items ≡ blocks.old.items) }
    ensures rows { joined blocks.new.items ≡ joined blocks.old.items }
    ensures blocks { AreBlocks kinds.now blocks.new.items }
    ensures front { take home blocks.new.items ≡ take home blocks.old.items }
    ensures some { length blocks.old.items ≤ length blocks.new.items }
    ensures more { length blocks.new.items ≤ length blocks.old.items + 1 }
    ensures err { OnErr result (blocks.new.items ≡ blocks.old.items) }
{
    let _ = kinds;
    let rows = blocks[home].len();
    if rows < BLOCK_ROWS {
        return Ok(false);
    }
    let cut = cut_at(rows, blocks[home].place(row));
    let tail = blocks[home].tail(alloc, cut)?;
    if blocks.insert(home + 1, tail).is_err() {
        return Err(AllocError);
    }
    blocks[home].truncate(cut);
    Ok(true)
}

/// Where to cut a full block, for a row that is to be at a given place in it.
fn cut_at(rows: usize, place: usize) -> usize
    requires { 1 < rows }
    ensures within { (0 < result) × (result < rows) }
    ensures first { place ≡ 0 → result ≡ 1 }
    ensures last { rows ≤ place → result + 1 ≡ rows }
    ensures half { 0 < place → place < rows → result ≡ rows / 2 }
{
    if place == 0 {
        1
    } else if place >= rows {
        rows - 1
    } else {
        rows / 2
    }
}
