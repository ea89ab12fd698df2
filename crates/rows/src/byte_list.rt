//! Bytes, which contracts see as a list.

ghost use Rattle.std.specs.Prelude.{◌≡◌, ◌==◌, length, nat_eq};
ghost use Rattle.std.specs.Cmp.{partial_equiv_from_equiv};
ghost use Rattle.std.specs.Cmp.Lexicographic.{pointwise, nat_list_eq_equiv};

use std::marker::Model;

/// An owned list of bytes: a row's data in an entry.
///
/// Contracts see the list itself, so two entries with the same bytes are equal wherever their
/// memory is. It is made from a `Vec` and converted back without taking memory.
#[derive(Clone, Drop)]
pub struct ByteList {
    items: Vec<u8>,
}

impl Model for ByteList {
    ghost use Rattle.std.specs.Prelude.{List, ℕ};

    ghost Value = { List ℕ };

    ghost view = { λ b. b.items.items };
}

impl ByteList {
    /// The list of these bytes. Takes no memory.
    pub fn from_vec(items: Vec<u8>) -> ByteList
        ensures { result ≡ items.items }
    {
        ByteList { items }
    }

    /// The bytes as a `Vec`. Takes no memory.
    pub fn into_vec(self) -> Vec<u8>
        ensures { result.items ≡ self }
    {
        self.items
    }

    /// The bytes, lent.
    pub fn as_slice(&self) -> &[u8]
        ensures { result.now ≡ self.now }
    {
        self.items.as_slice()
    }

    /// How many bytes there are.
    pub fn len(&self) -> usize
        ensures { result ≡ length self.now }
    {
        self.items.len()
    }

    /// Whether there is no byte.
    pub fn is_empty(&self) -> bool
        ensures { result ≡ (length self.now == 0) }
    {
        self.items.is_empty()
    }
}

impl PartialEq for ByteList {
    ghost eq = { λ list other. pointwise nat_eq list other };

    ghost laws = { partial_equiv_from_equiv nat_list_eq_equiv };

    fn eq(&self, other: &ByteList) -> bool {
        self.as_slice() == other.as_slice()
    }
}

impl Eq for ByteList {
    ghost laws = { nat_list_eq_equiv };
}
