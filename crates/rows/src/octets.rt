//! The bytes of one column's value.

ghost use Rattle.std.specs.Prelude.{◌≡◌, ◌≤◌, length, None, Some, nat_lt, nat_eq, if◌then◌else◌};
ghost use Rattle.std.specs.Cmp.{partial_equiv_from_equiv};
ghost use Rattle.std.specs.Cmp.Lexicographic.{pointwise, nat_list_eq_equiv};
ghost use Rattle.rows.specs.Limits.{octets_max};

use crate::limits::OCTETS_MAX;
use std::marker::Model;

/// Up to 64 bytes, stored inline: the value of an `Octets` column.
///
/// Contracts see the list of the bytes, so two values with the same bytes are equal.
#[derive(Clone, Copy, Debug)]
pub struct Octets {
    buffer: [u8; OCTETS_MAX],
    len: usize,
}

impl Model for Octets {
    ghost use Rattle.std.specs.Prelude.{List, ℕ, length, take};
    ghost use Rattle.std.proofs.Common.{arith, sym, length-take-le};
    ghost use Rattle.rows.specs.Inner.Padded.{padded, IsPadded};

    ghost Value = { List ℕ };

    ghost view = { λ o. take o.len o.buffer };

    ghost invariant = { λ o. IsPadded o.buffer o.len };

    ghost inverse = { λ bytes. record { buffer = padded bytes; len = length bytes } };

    ghost inverse_ok = { λ o kept i. record {
      buffer = sym kept.zeros i;
      len = length-take-le o.len o.buffer (omega (arith, kept.few, kept.whole)) i;
    } };
}

impl Octets {
    /// These bytes; `None` exactly if there are more than 64. Takes no memory.
    pub fn from_slice(bytes: &[u8]) -> Option<Octets>
        ensures { result ≡ (if nat_lt octets_max (length bytes.now) then None else Some bytes.now) }
    {
        if bytes.len() > OCTETS_MAX {
            return None;
        }
        let mut buffer = [0; OCTETS_MAX];
        buffer[..bytes.len()].copy_from_slice(bytes);
        Some(Octets {
            buffer,
            len: bytes.len(),
        })
    }

    /// The bytes, lent. Takes no memory.
    pub fn as_slice(&self) -> &[u8]
        ensures bytes { result.now ≡ self.now }
        ensures few { length result.now ≤ octets_max }
    {
        &self.buffer[..self.len]
    }
}

impl PartialEq for Octets {
    ghost eq = { λ o p. pointwise nat_eq o p };

    ghost laws = { partial_equiv_from_equiv nat_list_eq_equiv };

    fn eq(&self, other: &Octets) -> bool {
        self.as_slice() == other.as_slice()
    }
}

impl Eq for Octets {
    ghost laws = { nat_list_eq_equiv };
}
