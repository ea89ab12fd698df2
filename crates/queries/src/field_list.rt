//! The fields of a line of a report, which contracts see as a list.

ghost use Rattle.std.specs.Prelude.{◌≡◌, slice_get, slice_set};

use crate::field::Field;
use std::marker::Model;

/// The fields of a line, in order.
#[derive(Clone, Drop)]
pub struct FieldList {
    items: Vec<Field>,
}

impl Model for FieldList {
    ghost use Rattle.std.specs.Prelude.{List};
    ghost use Rattle.queries.specs.declared.field.Field.{Field};

    ghost Value = { List Field };

    ghost view = { λ list. list.items.items };
}

impl FieldList {
    /// The list of these fields. Takes no memory.
    pub fn from_vec(items: Vec<Field>) -> FieldList
        ensures { result ≡ items.items }
    {
        FieldList { items }
    }

    /// The fields, lent. Takes no memory.
    pub fn as_slice(&self) -> &[Field]
        ensures { result.now ≡ self.now }
    {
        self.items.as_slice()
    }

    /// The field of that number, from 0; `None` if there is none. Takes no memory.
    pub fn get(&self, index: usize) -> Option<Field>
        ensures { result ≡ slice_get self.now index }
    {
        self.items.get(index).copied()
    }

    /// Replaces a field. If there is no such field, nothing changes. Takes no memory.
    pub fn set(&mut self, index: usize, field: Field)
        ensures { self.new ≡ slice_set self.old index field }
    {
        if let Some(old) = self.items.get_mut(index) {
            *old = field;
        }
    }
}
