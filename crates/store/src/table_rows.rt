//! The interface to the rows of one table.

ghost use Rattle.std.specs.Prelude.{◌≡◌, ◌≤◌, ◌++◌, ◌∷◌, [], length, take, true, false, not, if◌then◌else◌, IfOk, OnOk, OnErr};
ghost use Rattle.rows.specs.Shape.{AreColumns, row_width};
ghost use Rattle.rows.specs.Tables.{is_present, with_row, with_patch, without_row, with_column};
ghost use Rattle.rows.specs.Values.{kind_of, values_of};

use rows::{Kind, Value};
use std::alloc::{AllocError, Global};

/// The rows of one table, and the changes that entries make of them.
///
/// Contracts see a table: the kinds of its columns, which are allowed for a table, and its rows. A
/// call that fails, or answers `false`, changes nothing.
pub trait TableRows: Drop {
    ghost use Rattle.rows.specs.Tables.{Table};

    /// The table that it is.
    ghost table: { Self → Table };

    /// A table with columns of these kinds, and without rows. Fails only if out of memory.
    fn empty(alloc: Global, kinds: &[Kind]) -> Result<Self, AllocError>
        requires { AreColumns kinds.now }
        ensures { IfOk result (λ made. table made ≡ record { kinds = kinds.now; rows = [] }) };

    /// The kinds of its columns, lent.
    fn kinds(&self) -> &[Kind]
        ensures value { result.now ≡ (table self.now).kinds }
        ensures columns { AreColumns result.now };

    /// Inserts a row, given by its bytes, and answers whether it is new. Fails only if out of
    /// memory, and only for a new row.
    fn insert(&mut self, alloc: Global, row: u64, bytes: &[u8]) -> Result<bool, AllocError>
        requires { row_width (table self.old).kinds ≤ length bytes.now }
        ensures new { IfOk result (λ new. is_present (table self.old).rows row ≡ not new) }
        ensures ok { IfOk result (λ new. table self.new ≡ (if new
            then record {
              kinds = (table self.old).kinds;
              rows = with_row (table self.old).rows row (values_of (table self.old).kinds bytes.now);
            }
            else table self.old)) }
        ensures absent { OnErr result (is_present (table self.old).rows row ≡ false) }
        ensures err { OnErr result (table self.new ≡ table self.old) };

    /// Puts bytes in place of one column's of a row, and answers whether the row is there. If the
    /// bytes are not exactly one column's, nothing changes. Takes no memory.
    fn patch(&mut self, row: u64, offset: u16, bytes: &[u8]) -> bool
        ensures there { result ≡ is_present (table self.old).rows row }
        ensures rows { table self.new ≡ record {
          kinds = (table self.old).kinds;
          rows = with_patch (table self.old).kinds (table self.old).rows row offset bytes.now;
        } }
        ensures absent { result ≡ false → table self.new ≡ table self.old };

    /// Deletes a row, and answers whether it was there. Takes no memory.
    fn remove(&mut self, row: u64) -> bool
        ensures there { result ≡ is_present (table self.old).rows row }
        ensures rows { table self.new ≡ record { kinds = (table self.old).kinds; rows = without_row (table self.old).rows row } }
        ensures absent { result ≡ false → table self.new ≡ table self.old };

    /// Adds a column with this value in each row; the table may have that column. Fails only if out
    /// of memory.
    fn add_column(&mut self, alloc: Global, default: Value) -> Result<(), AllocError>
        requires { AreColumns ((table self.old).kinds ++ kind_of default ∷ []) }
        ensures ok { OnOk result (table self.new ≡ record {
          kinds = (table self.old).kinds ++ kind_of default ∷ [];
          rows = with_column default (table self.old).rows;
        }) }
        ensures err { OnErr result (table self.new ≡ table self.old) };

    /// Deletes all rows, and all columns but the first so many, which a table may have. Takes no
    /// memory.
    fn clear(&mut self, columns: usize)
        requires { AreColumns (take columns (table self.old).kinds) }
        ensures { table self.new ≡ record { kinds = take columns (table self.old).kinds; rows = [] } };
}
