//! Reading an entry from the front of bytes.

ghost use Rattle.std.specs.Prelude.{◌≡◌, ℕ, List, ◌++◌, length, Some, IfSome, slice_index, true};
ghost use Rattle.std.specs.Option.{option_map};
ghost use Rattle.rows.specs.declared.entry.Entry.{Entry};
ghost use Rattle.rows.specs.Reading.{entry_at, row_entry_at, column_entry_at, column_at_front, kind_coded, insert_at, patch_at};
ghost use Rattle.rows.specs.Reading.{is_row_code, seen, IsSpelledAt};
ghost use Rattle.rows.specs.Spelling.{HasSpelling, entry_spelling};

use crate::codes::{ADD_COLUMN_CODE, DELETE_CODE, INSERT_CODE, PATCH_CODE};
use crate::entry_ref::EntryRef;
use crate::kind::Kind;
use crate::limits::{OCTETS_MAX, ROW_WIDTH_MAX, TABLES_MAX};
use crate::row::first_value;
use crate::row_id::RowId;
use byteorder::{BigEndian, ByteOrder};

/// The entry at the front of the bytes, with its data lent, and how many bytes it takes; `None`
/// exactly if none is spelled there. Takes no memory.
pub fn read_entry(bytes: &[u8]) -> Option<(EntryRef<'_>, usize)>
    ensures exact { option_map seen result ≡ entry_at bytes.now }

    // Exactly what is spelled is found.
    ensures spelled { IfSome result (λ found. IsSpelledAt bytes.now (seen found)) }
    ensures only { (entry : Entry) (rest : List ℕ) → HasSpelling entry → bytes.now ≡ entry_spelling entry ++ rest
        → option_map seen result ≡ Some (entry, length (entry_spelling entry)) }
{
    front_entry(bytes)
}

/// The entry at the front of the bytes, test by test.
fn front_entry(bytes: &[u8]) -> Option<(EntryRef<'_>, usize)>
    ensures { option_map seen result ≡ entry_at bytes.now }
{
    if bytes.is_empty() {
        return None;
    }
    if is_row_code(bytes[0]) {
        return front_row_entry(bytes);
    }
    if bytes[0] == ADD_COLUMN_CODE {
        return front_column_entry(bytes);
    }
    None
}

/// The entry of a row at the front of the bytes, test by test.
fn front_row_entry(bytes: &[u8]) -> Option<(EntryRef<'_>, usize)>
    requires { is_row_code (slice_index bytes.now 0) ≡ true }
    ensures { option_map seen result ≡ row_entry_at bytes.now }
{
    if bytes.len() < 10 || bytes[1] as usize >= TABLES_MAX {
        return None;
    }
    let (front, rest) = bytes.split_at(10);
    let table = front[1];
    let row = RowId(BigEndian::read_u64(&front[2..]));
    match front[0] {
        INSERT_CODE => read_insert(table, row, rest),
        PATCH_CODE => read_patch(table, row, rest),
        _ => Some((EntryRef::Delete { table, row }, 10)),
    }
}

/// The added column at the front of the bytes, test by test.
fn front_column_entry(bytes: &[u8]) -> Option<(EntryRef<'_>, usize)>
    ensures { option_map seen result ≡ column_entry_at bytes.now }
{
    if bytes.len() < 2 || bytes[1] as usize >= TABLES_MAX {
        return None;
    }
    let table = bytes[1];
    let (_, rest) = bytes.split_at(2);
    read_column(table, rest)
}

/// The part of an added column after its table: the kind and the value.
fn read_column(table: u8, rest: &[u8]) -> Option<(EntryRef<'_>, usize)>
    ensures { option_map seen result ≡ column_at_front table rest.now }
{
    if rest.is_empty() || rest[0] as usize > OCTETS_MAX {
        return None;
    }
    let kind = kind_coded(rest[0]);
    let (_, content) = rest.split_at(1);
    if content.len() < kind.width() {
        return None;
    }
    let default = first_value(kind, content);
    Some((EntryRef::AddColumn { table, default }, 3 + kind.width()))
}

/// The kind that a byte stands for.
fn kind_coded(code: u8) -> Kind
    ensures { result ≡ kind_coded code }
{
    if code == 0 {
        Kind::Int
    } else {
        Kind::Octets(code)
    }
}

/// Whether an entry that begins with this byte names a row.
fn is_row_code(code: u8) -> bool
    ensures { result ≡ is_row_code code }
{
    code == INSERT_CODE || code == PATCH_CODE || code == DELETE_CODE
}

/// The part of an insert after its row: the size and the data.
fn read_insert(table: u8, row: RowId, rest: &[u8]) -> Option<(EntryRef<'_>, usize)>
    ensures { option_map seen result ≡ insert_at table row.0 rest.now }
{
    if rest.len() < 2 {
        return None;
    }
    let (front, data) = rest.split_at(2);
    let size = BigEndian::read_u16(front) as usize;
    if size == 0 || size > ROW_WIDTH_MAX || data.len() < size {
        return None;
    }
    let (bytes, _) = data.split_at(size);
    Some((EntryRef::Insert { table, row, bytes }, 12 + size))
}

/// The part of a patch after its row: the offset, the size and the data.
fn read_patch(table: u8, row: RowId, rest: &[u8]) -> Option<(EntryRef<'_>, usize)>
    ensures { option_map seen result ≡ patch_at table row.0 rest.now }
{
    if rest.len() < 4 {
        return None;
    }
    let (front, data) = rest.split_at(4);
    let offset = BigEndian::read_u16(front);
    let size = BigEndian::read_u16(&front[2..]) as usize;
    if size == 0
        || size > OCTETS_MAX
        || offset as usize + size > ROW_WIDTH_MAX
        || data.len() < size
    {
        return None;
    }
    let (bytes, _) = data.split_at(size);
    Some((
        EntryRef::Patch {
            table,
            row,
            offset,
            bytes,
        },
        14 + size,
    ))
}
