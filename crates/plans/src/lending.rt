//! Blocks of the rows that a store lends.

ghost use Rattle.std.specs.Prelude.{◌≡◌, ℕ, ◌+◌, ◌<◌, ◌≤◌, ◌^◌, [], true, length, IfSome};
ghost use Rattle.std.specs.Map.{keys_of};
ghost use Rattle.rows.specs.Tables.{rows_of};
ghost use Rattle.store.specs.Lent.{rows_in, rows_from};
ghost use Rattle.plans.specs.Inner.BlockRows.{IsBlock, IsFrom, AreFound};
ghost use Rattle.plans.specs.Inner.Pieces.{AreAtMost};

use crate::block::Block;
use store::{Store, rows_stand_in_order};

/// A block of at most so many of the rows of a piece, from an index on, as a store lends them, and
/// its last identifier; without rows only if the piece has none from there on, and then `last`.
/// `None` if the store does not lend them, or if their identifiers do not rise from `last` on, which
/// is the last one before the index.
pub fn lent_block<'s, S: Store>(
    store: &'s S,
    table: u8,
    pieces: usize,
    piece: usize,
    from: usize,
    last: u64,
    most: usize,
) -> Option<(Block<'s>, u64)>
    requires whole { S.is_whole store.now ≡ true }
    requires some { 0 < pieces }
    requires within { from ≤ length (rows_in (rows_of (S.tables store.now) table) pieces piece) }
    requires before { AreAtMost (rows_in (rows_of (S.tables store.now) table) pieces piece) from last }
    requires more { 0 < most }
    requires few { most < 2 ^ 32 }
    ensures block { IfSome result (λ found. IsBlock (S.tables store.now) found.0) }
    ensures place { IfSome result (λ found. IsFrom found.0 table pieces piece from) }
    ensures within { IfSome result (λ found. from + length found.0.ids.now
        ≤ length (rows_in (rows_of (S.tables store.now) table) pieces piece)) }
    ensures last { IfSome result (λ found. AreAtMost (rows_in (rows_of (S.tables store.now) table) pieces piece)
        (from + length found.0.ids.now) found.1) }
    ensures all { IfSome result (λ found. found.0.ids.now ≡ []
        → length (rows_in (rows_of (S.tables store.now) table) pieces piece) ≤ from) }
{
    let Some(lent) = store.ids_from(table, pieces, piece, from) else {
        return None;
    };
    let count = lent.len().min(most);
    let (ids, _) = lent.split_at(count);
    let Some(end) = last_rising(store, table, pieces, piece, from, last, ids) else {
        return None;
    };
    let block = Block {
        table,
        lends: true,
        pieces,
        piece,
        from,
        ids,
    };
    Some((block, end))
}

/// The last of these identifiers, if they rise from `last` on; `last` if there is none.
fn last_rising<S: Store>(
    store: &S,
    table: u8,
    pieces: usize,
    piece: usize,
    from: usize,
    last: u64,
    ids: &[u64],
) -> Option<u64>
    requires lent { ids.now ≡ keys_of (rows_from (rows_in (rows_of (S.tables store.now) table) pieces piece) from (length ids.now)) }
    requires within { from ≤ length (rows_in (rows_of (S.tables store.now) table) pieces piece) }
    requires before { AreAtMost (rows_in (rows_of (S.tables store.now) table) pieces piece) from last }
    ensures last { IfSome result
        (AreAtMost (rows_in (rows_of (S.tables store.now) table) pieces piece) (from + length ids.now)) }
    ensures found { IfSome result (λ end. AreFound (rows_of (S.tables store.now) table)
        (rows_in (rows_of (S.tables store.now) table) pieces piece) from ids.now (length ids.now)) }
{
    let _ = store;
    let _ = (table, pieces, piece);
    rows_stand_in_order();
    let mut end = last;
    for i in 0..ids.len() {
        let id = ids[i];
        if !rises(from, i, end, id) {
            return None;
        }
        end = id;
    }
    Some(end)
}

/// Whether an identifier is above the one before it, if there is one before its index.
fn rises(from: usize, i: usize, last: u64, id: u64) -> bool
    ensures { result ≡ true → 0 < from + i → last < id }
{
    (from == 0 && i == 0) || last < id
}
