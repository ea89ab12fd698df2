//! Scanning a table piece by piece, each piece for all plans of a batch.

ghost use Rattle.std.specs.Prelude.{◌≡◌, ◌<◌, true, Ok, length, IfOk, IfSome};
ghost use Rattle.std.specs.List.{AllByRecursion};
ghost use Rattle.rows.specs.Tables.{shape_in};
ghost use Rattle.queries.specs.Checking.{checked};
ghost use Rattle.plans.specs.Inner.Scans.{AreClasses};
ghost use Rattle.plans.specs.Inner.Together.{IsOfPiece};

use crate::groups::Groups;
use crate::lending::lent_block;
use crate::scan::Scan;
use queries::Plan;
use std::alloc::{AllocError, Global};
use store::Store;

/// How many rows a block has at most. Positions in a block are numbers of 32 bits, and the columns of
/// a block should stay in a processor's cache.
const BLOCK_MAX: usize = 4096;

/// What is computed of the rows of a piece.
#[derive(Drop)]
pub struct PieceGroups {
    /// The groups of each plan on the table; none of the others.
    pub groups: Vec<Groups>,
    /// How many rows the piece has.
    pub rows: usize,
}

/// What is computed, for all plans on a table, of the rows of a piece; `None` if the store does not
/// lend their identifiers, or not in rising order. Fails only if out of memory, or of numbers for
/// groups.
pub fn scan_piece<S: Store>(
    alloc: Global,
    store: &S,
    plans: &[Plan],
    classes: &[usize],
    table: u8,
    pieces: usize,
    piece: usize,
) -> Result<Option<PieceGroups>, AllocError>
    requires whole { S.is_whole store.now ≡ true }
    requires checked { AllByRecursion (λ plan. checked (shape_in (S.tables store.now)) plan ≡ Ok tt) plans.now }
    requires classes { AreClasses plans.now classes.now }
    requires within { piece < pieces }
    ensures { IfOk result (λ found. IfSome found (IsOfPiece (S.tables store.now) plans.now table pieces piece)) }
{
    // So many rows fit a number.
    let len = store.len(table);
    let mut scan = Scan::new(alloc, plans)?;
    let mut from = 0;
    let mut last = 0;
    while let Some((block, next)) = lent_block(store, table, pieces, piece, from, last, BLOCK_MAX) {
        if block.ids.is_empty() {
            let groups = scan.groups(alloc, plans, classes, table)?;
            return Ok(Some(PieceGroups { groups, rows: from }));
        }
        scan.add(alloc, store, plans, classes, &block)?;
        from += block.ids.len();
        last = next;
    }
    let _ = len;
    Ok(None)
}
