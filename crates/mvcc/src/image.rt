//! The entries of an image.

ghost use Rattle.std.specs.Prelude.{◌≡◌, ◌++◌, true, IfSome, IfOk, OnOk};
ghost use Rattle.std.specs.List.{list_all};
ghost use Rattle.std.specs.Option.{option_map};
ghost use Rattle.rows.specs.Image.{zero_of, columns_image};
ghost use Rattle.rows.specs.Shape.{is_good};
ghost use Rattle.rows.specs.Spelling.{AreBytes};
ghost use Rattle.mvcc.specs.Inner.Images.{found, inserts_of};
ghost use Rattle.mvcc.specs.Inner.RowBytes.{wide};

use rows::limits::OCTETS_MAX;
use rows::{ByteList, Entry, Kind, RowId, Value, first_value};
use std::alloc::{AllocError, Global};

/// Adds to an image an entry for each column of these kinds that was added to a table. Fails only if
/// out of memory.
pub fn push_columns(image: &mut Vec<Entry>, table: u8, added: &[Kind]) -> Result<(), AllocError>
    requires { list_all is_good added.now ≡ true }
    ensures { OnOk result (image.new.items ≡ image.old.items ++ columns_image table added.now) }
{
    for kind in added {
        let default = zero_of(*kind);
        image.push(Entry::AddColumn { table, default })?;
    }
    Ok(())
}

/// Zeros as the value of a column of this kind.
fn zero_of(kind: Kind) -> Value
    requires { is_good kind ≡ true }
    ensures { result ≡ zero_of kind }
{
    first_value(kind, &[0; OCTETS_MAX])
}

/// Adds to an image the insert of a row, if the row is there, with its bytes and behind them those of
/// its table's blank row. Fails only if out of memory.
pub fn push_row(
    alloc: Global,
    image: &mut Vec<Entry>,
    table: u8,
    row: RowId,
    blank: &[u8],
    bytes: Option<&[u8]>,
) -> Result<(), AllocError>
    ensures insert { OnOk result
        (image.new.items ≡ image.old.items ++ inserts_of table (found blank.now row.0 (option_map (λ b. b.now) bytes.entry))) }
    ensures bytes { IfSome (option_map (λ b. b.now) bytes.entry) (λ b. AreBytes (wide blank.now b)) }
{
    let Some(bytes) = bytes else {
        return Ok(());
    };
    let bytes = wide_bytes(alloc, blank, bytes)?;
    image.push(Entry::Insert { table, row, bytes })?;
    Ok(())
}

/// The bytes of a row with those of its table's blank row behind them, in room for exactly these.
/// Fails only if out of memory.
fn wide_bytes(alloc: Global, blank: &[u8], row: &[u8]) -> Result<ByteList, AllocError>
    ensures wide { IfOk result (λ bytes. bytes ≡ wide blank.now row.now) }
    ensures bytes { AreBytes (wide blank.now row.now) }
{
    let mut bytes = Vec::with_capacity(alloc, row.len().max(blank.len()))?;
    bytes.extend_from_slice(row)?;
    if row.len() < blank.len() {
        let (_, behind) = blank.split_at(row.len());
        bytes.extend_from_slice(behind)?;
    }
    Ok(ByteList::from_vec(bytes))
}
