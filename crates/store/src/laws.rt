//! Laws of the order of a table's rows, and of the columns that tables began with.

ghost use Rattle.store.specs.Laws.{IndexedRowIsFound, OpeningBegins, EntryKeepsFirst, CommitsKeepFirst};

use rows::laws;

/// The row at an index of a table's order is the one that `find` finds by the identifier of
/// `id_at`. It does nothing: its contract is the law.
pub fn rows_stand_in_order()
    ensures { IndexedRowIsFound }
{}

/// Tables keep the columns that they began with: entries and commits add columns behind them. It
/// does nothing: its contract is the law.
pub fn first_columns_stay()
    ensures opening { OpeningBegins }
    ensures entry { EntryKeepsFirst }
    ensures commits { CommitsKeepFirst }
{
    laws::changes_tell_kinds();
}
