//! The bytes of a row after a commit.

ghost use Rattle.std.specs.Prelude.{◌≡◌};
ghost use Rattle.std.specs.Option.{option_map};

use rows::ByteList;
use std::marker::Model;

/// Bytes that are stored inline, at most: those for which a `Kept` has room beside its tag and
/// their number.
const INLINE_MAX: usize = 30;

/// A row's bytes, or that the row is not there. Short rows are stored inline: most rows are narrow,
/// and a memory block of their own would cost more than they do.
///
/// Contracts see the list of the bytes, or `None` if the row is not there.
#[derive(Drop)]
pub struct KeptBytes {
    kept: Kept,
}

/// Where bytes are kept.
#[derive(Drop)]
enum Kept {
    Absent,
    Inline { len: u8, buffer: [u8; INLINE_MAX] },
    Apart(ByteList),
}

impl Model for KeptBytes {
    ghost use Rattle.std.specs.Prelude.{◌≤◌, List, ℕ, Option};
    ghost use Rattle.mvcc.specs.Inner.KeptBytes.{bytes_in, inline_len};

    ghost Value = { Option (List ℕ) };

    ghost view = { λ b. bytes_in b.kept };

    ghost invariant = { λ b. inline_len b.kept ≤ 30 };
}

impl KeptBytes {
    /// These bytes, or that the row is not there. Takes no memory.
    pub fn of(bytes: Option<ByteList>) -> KeptBytes
        ensures { result ≡ bytes }
    {
        let Some(bytes) = bytes else {
            return KeptBytes { kept: Kept::Absent };
        };
        let len = bytes.len();
        if len > INLINE_MAX {
            return KeptBytes {
                kept: Kept::Apart(bytes),
            };
        }
        let mut buffer = [0; INLINE_MAX];
        buffer[..len].copy_from_slice(bytes.as_slice());
        KeptBytes {
            kept: Kept::Inline {
                len: len as u8,
                buffer,
            },
        }
    }

    /// The bytes, lent; `None` if the row is not there. Takes no memory.
    pub fn lend(&self) -> Option<&[u8]>
        ensures { option_map (λ b. b.now) result ≡ self.now }
    {
        match &self.kept {
            Kept::Absent => None,
            Kept::Inline { len, buffer } => Some(&buffer[..*len as usize]),
            Kept::Apart(bytes) => Some(bytes.as_slice()),
        }
    }
}
