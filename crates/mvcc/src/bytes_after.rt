//! What an entry makes of a row's bytes.

ghost use Rattle.std.specs.Prelude.{◌≡◌, IfOk};
ghost use Rattle.std.specs.Option.{option_map};
ghost use Rattle.mvcc.specs.Inner.RowBytes.{wide, inserted_bytes, patched_bytes, bytes_after_one};

use rows::{ByteList, Entry};
use std::alloc::{AllocError, Global};

/// The bytes of a row after one of its entries, given its bytes before, and those of its table's
/// blank row, which stand behind them. Fails only if out of memory.
pub fn bytes_after_one(
    alloc: Global,
    blank: &[u8],
    entry: &Entry,
    was: Option<&[u8]>,
) -> Result<Option<ByteList>, AllocError>
    ensures { IfOk result (λ row. row ≡ bytes_after_one blank.now entry.now (option_map (λ b. b.now) was.entry)) }
{
    match entry {
        Entry::Insert { bytes, .. } => inserted_bytes(alloc, bytes, was),
        Entry::Patch { offset, bytes, .. } => match was {
            None => Ok(None),
            Some(row) => {
                let row = patched_wide(alloc, *offset, bytes.as_slice(), blank, row)?;
                Ok(Some(row))
            }
        },
        Entry::Delete { .. } => Ok(None),
        Entry::AddColumn { .. } => match was {
            None => Ok(None),
            Some(row) => Ok(Some(ByteList::from_vec(Vec::from_slice(alloc, row)?))),
        },
    }
}

/// The bytes of a row after an insert of these bytes: these, if the row was not there.
fn inserted_bytes(
    alloc: Global,
    bytes: &ByteList,
    was: Option<&[u8]>,
) -> Result<Option<ByteList>, AllocError>
    ensures { IfOk result (λ row. row ≡ inserted_bytes bytes.now (option_map (λ b. b.now) was.entry)) }
{
    match was {
        None => Ok(Some(bytes.clone()?)),
        Some(row) => Ok(Some(ByteList::from_vec(Vec::from_slice(alloc, row)?))),
    }
}

/// The bytes of a row and, behind them, of the blank row, after others were put at an offset among
/// them; if they would not end within these, nothing is put.
fn patched_wide(
    alloc: Global,
    offset: u16,
    bytes: &[u8],
    blank: &[u8],
    row: &[u8],
) -> Result<ByteList, AllocError>
    ensures { IfOk result (λ after. after ≡ patched_bytes offset bytes.now (wide blank.now row.now)) }
{
    if blank.len() <= row.len() {
        return patched_bytes(alloc, offset, bytes, row);
    }
    let mut wide = Vec::with_capacity(alloc, blank.len())?;
    wide.extend_from_slice(row)?;
    wide.extend_from_slice(&blank[row.len()..])?;
    patched_bytes(alloc, offset, bytes, wide.as_slice())
}

/// The bytes of a row after others were put at an offset among them; if they would not end within
/// the row, nothing is put.
fn patched_bytes(
    alloc: Global,
    offset: u16,
    bytes: &[u8],
    row: &[u8],
) -> Result<ByteList, AllocError>
    ensures { IfOk result (λ after. after ≡ patched_bytes offset bytes.now row.now) }
{
    let mut after = Vec::with_capacity(alloc, row.len())?;
    let offset = offset as usize;
    let end = offset + bytes.len();
    if end <= row.len() {
        after.extend_from_slice(&row[..offset])?;
        after.extend_from_slice(bytes)?;
        after.extend_from_slice(&row[end..])?;
    } else {
        after.extend_from_slice(row)?;
    }
    Ok(ByteList::from_vec(after))
}
