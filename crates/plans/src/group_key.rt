//! The values by which a row is grouped.

ghost use Rattle.std.specs.Prelude.{◌≡◌, refl, [], ◌∷◌, ◌++◌, OnOk, OnErr};
ghost use Rattle.std.specs.Cmp.{partial_equiv_from_equiv, eq_by_cmp_equiv, po};
ghost use Rattle.std.specs.Ordering.{eq_by_cmp, as_partial_cmp};
ghost use Rattle.queries.specs.Order.{group_cmp};
ghost use Rattle.plans.specs.Inner.TotalOrder.{group_cmp_total};

use crate::comparing::compare_groups;
use rows::Value;
use std::alloc::AllocError;
use std::cmp::Ordering;
use std::marker::Model;

/// The values by which a row is grouped, which contracts see as a list. They are ordered by the
/// first values that differ.
#[derive(Drop)]
pub struct GroupKey {
    values: Vec<Value>,
}

impl Model for GroupKey {
    ghost use Rattle.std.specs.Prelude.{List};
    ghost use Rattle.rows.specs.declared.value.Value.{Value as ColumnValue};

    ghost Value = { List ColumnValue };

    ghost view = { λ key. key.values.items };
}

impl GroupKey {
    /// The group of these values. Takes no memory.
    pub fn from_vec(values: Vec<Value>) -> GroupKey
        ensures { result ≡ values.items }
    {
        GroupKey { values }
    }

    /// The values, lent. Takes no memory.
    pub fn as_slice(&self) -> &[Value]
        ensures { result.now ≡ self.now }
    {
        self.values.as_slice()
    }

    /// Takes all values out; their room stays. Takes no memory.
    pub fn clear(&mut self)
        ensures { self.new ≡ [] }
    {
        self.values.clear();
    }

    /// Puts a value behind the others. Fails only if out of memory, and changes nothing then.
    pub fn push(&mut self, value: Value) -> Result<(), AllocError>
        ensures ok { OnOk result (self.new ≡ self.old ++ value ∷ []) }
        ensures err { OnErr result (self.new ≡ self.old) }
    {
        self.values.push(value)?;
        Ok(())
    }
}

impl PartialEq for GroupKey {
    ghost eq = { eq_by_cmp group_cmp };

    ghost laws = { partial_equiv_from_equiv (eq_by_cmp_equiv group_cmp_total) };

    fn eq(&self, other: &GroupKey) -> bool {
        self.cmp(other).is_eq()
    }
}

impl Eq for GroupKey {
    ghost laws = { eq_by_cmp_equiv group_cmp_total };
}

impl PartialOrd for GroupKey {
    ghost partial_cmp = { as_partial_cmp group_cmp };

    ghost laws = { po group_cmp_total (λ x y. refl) };

    fn partial_cmp(&self, other: &GroupKey) -> Option<Ordering> {
        Some(self.cmp(other))
    }
}

impl Ord for GroupKey {
    ghost cmp = { group_cmp };

    ghost total = { group_cmp_total };

    ghost matches_partial_cmp = { λ x y. refl };

    ghost matches_eq = { λ x y. refl };

    fn cmp(&self, other: &GroupKey) -> Ordering {
        compare_groups(self.as_slice(), other.as_slice())
    }
}
