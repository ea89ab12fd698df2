//! The datagrams that were sent, as outputs report them.

ghost use Rattle.std.specs.Prelude.{◌≡◌, [], ◌∷◌, ◌++◌, length, OnOk, OnErr, IfOk};

use std::alloc::{AllocError, Global};
use std::marker::Model;

/// A datagram that was sent: its index in the list of all that were ever sent, from 0, and its
/// length in bytes.
#[derive(Clone, Copy, PartialEq, Eq)]
pub struct Sent {
    pub index: u64,
    pub len: usize,
}

/// The datagrams that one event sent, in order. Contracts see the list.
#[derive(Drop)]
pub struct SentList {
    items: Vec<Sent>,
}

impl Model for SentList {
    ghost use Rattle.std.specs.Prelude.{List};
    ghost use Rattle.script.specs.declared.sent.Sent.{Sent};

    ghost Value = { List Sent };

    ghost view = { λ s. s.items.items };
}

impl SentList {
    /// The list of these. Takes no memory.
    pub fn from_vec(items: Vec<Sent>) -> SentList
        ensures { result ≡ items.items }
    {
        SentList { items }
    }

    /// The list of one. Fails only if out of memory.
    pub fn of_one(alloc: Global, sent: Sent) -> Result<SentList, AllocError>
        ensures { IfOk result (λ list. list ≡ sent ∷ []) }
    {
        let mut items = Vec::new(alloc);
        items.push(sent)?;
        Ok(SentList::from_vec(items))
    }

    /// The datagrams, lent.
    pub fn as_slice(&self) -> &[Sent]
        ensures { result.now ≡ self.now }
    {
        self.items.as_slice()
    }
}
