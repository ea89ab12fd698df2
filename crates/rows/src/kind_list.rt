//! The kinds of a table's columns, which contracts see as a list.

ghost use Rattle.std.specs.Prelude.{◌≡◌, ◌-◌, ◌++◌, ◌∷◌, [], length, take, IfOk};

use crate::kind::Kind;
use std::alloc::{AllocError, Global};
use std::marker::Model;

/// The kinds of a table's columns, in order.
#[derive(Clone, Drop)]
pub struct KindList {
    items: Vec<Kind>,
}

impl Model for KindList {
    ghost use Rattle.std.specs.Prelude.{List};
    ghost use Rattle.rows.specs.declared.kind.Kind.{Kind};

    ghost Value = { List Kind };

    ghost view = { λ k. k.items.items };
}

impl KindList {
    /// A list of these kinds. Fails only if out of memory.
    pub fn from_slice(alloc: Global, kinds: &[Kind]) -> Result<KindList, AllocError>
        ensures { IfOk result (λ list. list ≡ kinds.now) }
    {
        Ok(KindList {
            items: Vec::from_slice(alloc, kinds)?,
        })
    }

    /// These kinds, with one more behind them. Fails only if out of memory.
    pub fn with(&self, alloc: Global, kind: Kind) -> Result<KindList, AllocError>
        ensures { IfOk result (λ list. list ≡ self.now ++ kind ∷ []) }
    {
        let mut items = Vec::with_capacity(alloc, self.items.len() + 1)?;
        items.extend_from_slice(self.items.as_slice())?;
        items.push(kind)?;
        Ok(KindList { items })
    }

    /// Takes the last kind away; if there is none, nothing changes.
    pub fn pop(&mut self)
        ensures { self.new ≡ take (length self.old - 1) self.old }
    {
        let _ = self.items.pop();
    }

    /// Takes away all kinds but the first so many; if there are no more, nothing changes.
    pub fn truncate(&mut self, len: usize)
        ensures { self.new ≡ take len self.old }
    {
        self.items.truncate(len);
    }

    /// The kinds, lent.
    pub fn as_slice(&self) -> &[Kind]
        ensures { result.now ≡ self.now }
    {
        self.items.as_slice()
    }
}
