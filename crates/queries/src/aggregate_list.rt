//! The aggregates of a plan, which contracts see as a list.

ghost use Rattle.std.specs.Prelude.{◌≡◌};

use crate::aggregate::Aggregate;
use std::marker::Model;

/// The aggregates of a plan, in order.
#[derive(Clone, Drop)]
pub struct AggregateList {
    items: Vec<Aggregate>,
}

impl Model for AggregateList {
    ghost use Rattle.std.specs.Prelude.{List};
    ghost use Rattle.queries.specs.declared.aggregate.Aggregate.{Aggregate};

    ghost Value = { List Aggregate };

    ghost view = { λ list. list.items.items };
}

impl AggregateList {
    /// The list of these. Takes no memory.
    pub fn from_vec(items: Vec<Aggregate>) -> AggregateList
        ensures { result ≡ items.items }
    {
        AggregateList { items }
    }

    /// All of them, lent. Takes no memory.
    pub fn as_slice(&self) -> &[Aggregate]
        ensures { result.now ≡ self.now }
    {
        self.items.as_slice()
    }
}
