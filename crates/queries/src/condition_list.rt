//! The conditions of a plan, which contracts see as a list.

ghost use Rattle.std.specs.Prelude.{◌≡◌};

use crate::condition::Condition;
use std::marker::Model;

/// The conditions of a plan, in order.
#[derive(Clone, Drop)]
pub struct ConditionList {
    items: Vec<Condition>,
}

impl Model for ConditionList {
    ghost use Rattle.std.specs.Prelude.{List};
    ghost use Rattle.queries.specs.declared.condition.Condition.{Condition};

    ghost Value = { List Condition };

    ghost view = { λ list. list.items.items };
}

impl ConditionList {
    /// The list of these. Takes no memory.
    pub fn from_vec(items: Vec<Condition>) -> ConditionList
        ensures { result ≡ items.items }
    {
        ConditionList { items }
    }

    /// All of them, lent. Takes no memory.
    pub fn as_slice(&self) -> &[Condition]
        ensures { result.now ≡ self.now }
    {
        self.items.as_slice()
    }
}
