//! Writing the one spelling of an entry.

ghost use Rattle.std.specs.Prelude.{◌≡◌, ◌+◌, ◌≤◌, ◌++◌, ◌∷◌, [], length, drop};
ghost use Rattle.byteorder.specs.Endian.{big_bytes};
ghost use Rattle.rows.specs.Spelling.{insert_code, patch_code, entry_front, entry_spelling, HasSpelling, IsColumnValue};
ghost use Rattle.rows.specs.Values.{value_bytes};

use crate::codes::{ADD_COLUMN_CODE, DELETE_CODE, INSERT_CODE, PATCH_CODE};
use crate::entry::Entry;
use crate::limits::{OCTETS_MAX, ROW_WIDTH_MAX};
use crate::row_id::RowId;
use crate::value::Value;
use byteorder::{BigEndian, ByteOrder};

/// How many bytes the spelling of an entry takes: 12 and its data for an insert, 14 and its data
/// for a patch, 10 for a delete, 3 and the value's width for an added column.
pub fn entry_len(entry: &Entry) -> usize
    requires { HasSpelling entry.now }
    ensures { result ≡ length (entry_spelling entry.now) }
{
    match entry {
        Entry::Insert { bytes, .. } => 12 + bytes.len(),
        Entry::Patch { bytes, .. } => 14 + bytes.len(),
        Entry::Delete { .. } => 10,
        Entry::AddColumn { default, .. } => 3 + default.kind().width(),
    }
}

/// Writes the spelling of an entry to the front of the buffer, and answers its length. The bytes
/// after it do not change. Takes no memory.
pub fn write_entry(entry: &Entry, buffer: &mut [u8]) -> usize
    requires spelled { HasSpelling entry.now }
    requires room { length (entry_spelling entry.now) ≤ length buffer.old }
    ensures len { result ≡ length (entry_spelling entry.now) }
    ensures written { buffer.new ≡ entry_spelling entry.now ++ drop result buffer.old }
{
    match entry {
        Entry::Insert { table, row, bytes } => write_insert(*table, *row, bytes.as_slice(), buffer),
        Entry::Patch {
            table,
            row,
            offset,
            bytes,
        } => write_patch(*table, *row, *offset, bytes.as_slice(), buffer),
        Entry::Delete { table, row } => write_delete(*table, *row, buffer),
        Entry::AddColumn { table, default } => write_column(*table, *default, buffer),
    }
}

/// Writes the spelling of an insert to the front of the buffer, and answers its length.
fn write_insert(table: u8, row: RowId, bytes: &[u8], buffer: &mut [u8]) -> usize
    requires size { length bytes.now ≤ ROW_WIDTH_MAX }
    requires room { 12 + length bytes.now ≤ length buffer.old }
    ensures len { result ≡ 12 + length bytes.now }
    ensures written { buffer.new
        ≡ entry_spelling (Entry.Insert table row bytes.now) ++ drop result buffer.old }
{
    let size = bytes.len();
    buffer[..12].copy_from_slice(&insert_head(table, row, size as u16));
    buffer[12..12 + size].copy_from_slice(bytes);
    12 + size
}

/// Writes the spelling of a patch to the front of the buffer, and answers its length.
fn write_patch(table: u8, row: RowId, offset: u16, bytes: &[u8], buffer: &mut [u8]) -> usize
    requires size { length bytes.now ≤ OCTETS_MAX }
    requires room { 14 + length bytes.now ≤ length buffer.old }
    ensures len { result ≡ 14 + length bytes.now }
    ensures written { buffer.new
        ≡ entry_spelling (Entry.Patch table row offset bytes.now) ++ drop result buffer.old }
{
    let size = bytes.len();
    buffer[..14].copy_from_slice(&patch_head(table, row, offset, size as u16));
    buffer[14..14 + size].copy_from_slice(bytes);
    14 + size
}

/// Writes the spelling of a delete to the front of the buffer, and answers its length.
fn write_delete(table: u8, row: RowId, buffer: &mut [u8]) -> usize
    requires { 10 ≤ length buffer.old }
    ensures len { result ≡ 10 }
    ensures written { buffer.new ≡ entry_spelling (Entry.Delete table row) ++ drop result buffer.old }
{
    buffer[..10].copy_from_slice(&entry_front(DELETE_CODE, table, row));
    10
}

/// Writes the spelling of an added column to the front of the buffer, and answers its length.
fn write_column(table: u8, default: Value, buffer: &mut [u8]) -> usize
    requires spelled { IsColumnValue default }
    requires room { 3 + length (value_bytes default) ≤ length buffer.old }
    ensures len { result ≡ 3 + length (value_bytes default) }
    ensures written { buffer.new ≡ entry_spelling (Entry.AddColumn table default) ++ drop result buffer.old }
{
    match default {
        Value::Int(number) => {
            buffer[..3].copy_from_slice(&[ADD_COLUMN_CODE, table, 0]);
            buffer[3..11].copy_from_slice(&number.to_be_bytes());
            11
        }
        Value::Octets(octets) => {
            let bytes = octets.as_slice();
            let width = bytes.len();
            buffer[..3].copy_from_slice(&[ADD_COLUMN_CODE, table, width as u8]);
            buffer[3..3 + width].copy_from_slice(bytes);
            3 + width
        }
    }
}

/// The ten bytes that begin every entry of one row: its kind, the table, and the row.
fn entry_front(code: u8, table: u8, row: RowId) -> [u8; 10]
    ensures { result ≡ entry_front code table row.0 }
{
    let mut front = [0; 10];
    front[0] = code;
    front[1] = table;
    BigEndian::write_u64(&mut front[2..], row.0);
    front
}

/// The twelve bytes before an insert's data.
fn insert_head(table: u8, row: RowId, size: u16) -> [u8; 12]
    ensures { result ≡ entry_front insert_code table row.0 ++ big_bytes 2 size }
{
    let mut head = [0; 12];
    head[..10].copy_from_slice(&entry_front(INSERT_CODE, table, row));
    BigEndian::write_u16(&mut head[10..], size);
    head
}

/// The fourteen bytes before a patch's data.
fn patch_head(table: u8, row: RowId, offset: u16, size: u16) -> [u8; 14]
    ensures { result ≡ entry_front patch_code table row.0 ++ big_bytes 2 offset ++ big_bytes 2 size }
{
    let mut head = [0; 14];
    head[..10].copy_from_slice(&entry_front(PATCH_CODE, table, row));
    BigEndian::write_u16(&mut head[10..], offset);
    BigEndian::write_u16(&mut head[12..], size);
    head
}
