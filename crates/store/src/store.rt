//! The interface to a store of rows.

ghost use Rattle.std.specs.Prelude.{◌≡◌, ℕ, ◌+◌, ◌<◌, ◌≤◌, [], length, true, Ok, Some, is_some, IsSome, IfSome, OnOk, OnErr, IfErr};
ghost use Rattle.std.specs.Prelude.{slice_get};
ghost use Rattle.std.specs.Map.{keys_of};
ghost use Rattle.std.specs.Option.{option_map};
ghost use Rattle.rows.specs.Tables.{shape_in, kinds_of, rows_of, row_at, is_row_at, RowsAreOfKinds, apply_entry};
ghost use Rattle.store.specs.Changes.{column_of, id_in, IsAboveAllBefore, fault_kind};
ghost use Rattle.store.specs.Lent.{rows_in, rows_from, column_in, AreLent};

use crate::lent::Lent;
use rows::{Entry, Kind, RowId, Value};

/// A store of rows: a map from a table and a row to the row's values, and the way to change it.
///
/// Contracts see its tables, and whether it is whole. Its answers are those of its tables only
/// while it is whole, and a store that is no longer whole is never whole again. All calls except
/// `change` take no memory.
pub trait Store {
    ghost use Rattle.std.specs.Prelude.{ℕ, List, Bool, Option};
    ghost use Rattle.rows.specs.declared.value.Value.{Value};
    ghost use Rattle.rows.specs.Shape.{Shape};
    ghost use Rattle.rows.specs.Tables.{Tables};

    /// Where a row of a table is. It may be used only until the next change.
    type Place: Copy + Send;

    /// Why a change was refused.
    type Fault: Drop + Send;

    /// Its tables, each with the kinds of its columns and its rows.
    ghost tables: { Self → Tables };

    /// Whether its tables are as its changes made them.
    ghost is_whole: { Self → Bool };

    /// The kinds of each table's columns when it was made. No call changes them.
    ghost base_shape: { Self → Shape };

    /// The values of the row of a table at a place.
    ghost values_at: { Self → ℕ → Self.Place → Option (List Value) };

    /// The number of a fault.
    ghost kind_of: { Self.Fault → ℕ };

    /// Whether its tables are as its changes made them.
    fn whole(&self) -> bool
        ensures { result ≡ is_whole self.now };

    /// While the store is whole, each row has a value for each of its table's columns, of the
    /// column's kind. It does nothing: its contract is the law.
    fn keeps_kinds(&self)
        ensures { is_whole self.now ≡ true → RowsAreOfKinds (tables self.now) };

    /// The place of a row of a table; `None` if the row or the table is not there.
    fn find(&self, table: u8, row: RowId) -> Option<Self::Place>
        ensures found { is_whole self.now ≡ true → is_some result ≡ is_row_at (tables self.now) table row.0 }
        ensures place { is_whole self.now ≡ true
            → IfSome result (λ place. values_at self.now table place ≡ row_at (rows_of (tables self.now) table) row.0) };

    /// The value of one column of the row at a place, columns being counted from 0.
    fn value(&self, table: u8, place: Self::Place, column: usize) -> Value
        requires whole { is_whole self.now ≡ true }
        requires there { IsSome (column_of (values_at self.now table place) column) }
        ensures { Some result ≡ column_of (values_at self.now table place) column };

    /// The kinds of a table's columns, lent; `None` if there is no table of that number.
    fn kinds(&self, table: u8) -> Option<&[Kind]>
        ensures { is_whole self.now ≡ true → option_map (λ kinds. kinds.now) result ≡ slice_get (shape_in (tables self.now)) table };

    /// The kind of a column of a table, columns being counted from 0; `None` if the table or the
    /// column is not there.
    fn column_kind(&self, table: u8, column: usize) -> Option<Kind>
        ensures { is_whole self.now ≡ true → result ≡ slice_get (kinds_of (tables self.now) table) column }
    {
        match self.kinds(table) {
            None => None,
            Some(kinds) => kinds.get(column).copied(),
        }
    }

    /// How many rows a table has; 0 if there is no table of that number.
    fn len(&self, table: u8) -> usize
        ensures { is_whole self.now ≡ true → result ≡ length (rows_of (tables self.now) table) };

    /// The identifier of the row at an index of the table's order, which rises, counted from 0.
    fn id_at(&self, table: u8, i: usize) -> RowId
        requires whole { is_whole self.now ≡ true }
        requires within { i < length (rows_of (tables self.now) table) }
        ensures value { Some result.0 ≡ id_in (rows_of (tables self.now) table) i }
        ensures rises { IsAboveAllBefore (rows_of (tables self.now) table) i result.0 };

    /// In how many pieces it lends the rows of a table, a row being in the piece whose number is the
    /// remainder of its identifier, divided by this.
    fn pieces(&self) -> usize
        ensures { 0 < result }
    {
        1
    }

    /// The identifiers of rows of a piece of a table, of so many pieces, in rising order and side by
    /// side: from an index among the piece's rows on, and none only if there is no row from there
    /// on. `None` if the store does not lend them.
    fn ids_from(&self, table: u8, pieces: usize, piece: usize, from: usize) -> Option<&[u64]>
        requires whole { is_whole self.now ≡ true }
        requires some { 0 < pieces }
        ensures value { IfSome result (λ ids. ids.now
            ≡ keys_of (rows_from (rows_in (rows_of (tables self.now) table) pieces piece) from (length ids.now))) }
        ensures all { IfSome result (λ ids. ids.now ≡ [] → length (rows_in (rows_of (tables self.now) table) pieces piece) ≤ from) }
    {
        let _ = (table, pieces, piece, from);
        None
    }

    /// The values of one column of this many rows of a piece of a table, of so many pieces, from an
    /// index among the piece's rows on; columns are counted from 0. `None` if the store does not
    /// lend them, as it may if they are not side by side.
    fn column_from(
        &self,
        table: u8,
        pieces: usize,
        piece: usize,
        from: usize,
        count: usize,
        column: usize,
    ) -> Option<Lent<'_>>
        requires whole { is_whole self.now ≡ true }
        requires some { 0 < pieces }
        ensures { IfSome result
            (AreLent (column_in (rows_from (rows_in (rows_of (tables self.now) table) pieces piece) from count) column)) }
    {
        let _ = (table, pieces, piece, from, count, column);
        None
    }

    /// Makes one change, or refuses it and changes nothing.
    ///
    /// The kind of the fault is that of the first of these that applies: 5 Broken, the store is not
    /// whole; 3 Unfit, the entry does not fit the tables; 1 Exists, an insert of a row that is
    /// there; 2 Missing, a patch or a delete of a row that is not there; 4 Memory.
    fn change(&mut self, entry: &Entry) -> Result<(), Self::Fault>
        ensures ok { OnOk result (apply_entry (tables self.old) entry.now ≡ Ok (tables self.new)) }
        ensures only_whole { OnOk result (is_whole self.old ≡ true) }
        ensures err { OnErr result (tables self.new ≡ tables self.old) }
        ensures refused { IfErr result
            (λ fault. kind_of fault ≡ fault_kind (is_whole self.old) (apply_entry (tables self.old) entry.now)) }
        ensures whole { is_whole self.new ≡ is_whole self.old }
        ensures base { base_shape self.new ≡ base_shape self.old };

    /// The number of a fault: 1 Exists, 2 Missing, 3 Unfit, 4 Memory, 5 Broken.
    fn kind(fault: &Self::Fault) -> u8
        ensures { result ≡ kind_of fault.now };
}
