//! The answer of a query, which contracts see as a list of lines, each a list of fields.

ghost use Rattle.std.specs.Prelude.{◌≡◌, length};

use crate::field_list::FieldList;
use std::marker::Model;

/// The answer of a query: a line for each group, in rising order of the groups' values.
#[derive(Clone, Drop)]
pub struct Answer {
    lines: Vec<FieldList>,
}

impl Model for Answer {
    ghost use Rattle.std.specs.Prelude.{List};
    ghost use Rattle.queries.specs.declared.field.Field.{Field};

    ghost Value = { List (List Field) };

    ghost view = { λ answer. answer.lines.items };
}

impl Answer {
    /// The answer of these lines. Takes no memory.
    pub fn from_vec(lines: Vec<FieldList>) -> Answer
        ensures { result ≡ lines.items }
    {
        Answer { lines }
    }

    /// The lines, lent. Takes no memory.
    pub fn as_slice(&self) -> &[FieldList]
        ensures { result.now ≡ self.now }
    {
        self.lines.as_slice()
    }

    /// How many lines there are. Takes no memory.
    pub fn len(&self) -> usize
        ensures { result ≡ length self.now }
    {
        self.lines.len()
    }
}
