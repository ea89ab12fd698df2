//! The columns by which a plan groups, which contracts see as a list.

ghost use Rattle.std.specs.Prelude.{◌≡◌};

use crate::column::Column;
use std::marker::Model;

/// The columns by which a plan groups, in order.
#[derive(Clone, Drop)]
pub struct ColumnList {
    items: Vec<Column>,
}

impl Model for ColumnList {
    ghost use Rattle.std.specs.Prelude.{List};
    ghost use Rattle.queries.specs.declared.column.Column.{Column};

    ghost Value = { List Column };

    ghost view = { λ list. list.items.items };
}

impl ColumnList {
    /// The list of these. Takes no memory.
    pub fn from_vec(items: Vec<Column>) -> ColumnList
        ensures { result ≡ items.items }
    {
        ColumnList { items }
    }

    /// All of them, lent. Takes no memory.
    pub fn as_slice(&self) -> &[Column]
        ensures { result.now ≡ self.now }
    {
        self.items.as_slice()
    }
}
