//! The header of a journal.

ghost use Rattle.std.specs.Prelude.{◌≡◌, ◌+◌, ◌≤◌, ◌∷◌, [], ◌++◌, length, IfOk};
ghost use Rattle.rows.specs.Shape.{shape_of};
ghost use Rattle.journal.specs.declared.form.Form.TheVariants.{New};
ghost use Rattle.journal.specs.Text.{journal_magic, version_code, header, table_header};

use crate::form::Form;
use arrayvec::ArrayVec;
use rows::limits::{COLUMNS_MAX, TABLES_MAX};
use rows::{Kind, Schema};
use std::alloc::{AllocError, Global};

/// The first bytes of each journal.
const JOURNAL_MAGIC: [u8; 3] = *b"BDJ";

/// Bytes of a table's part in a header, at most.
const TABLE_LEN_MAX: usize = 1 + COLUMNS_MAX;

/// Bytes of a header, at most.
pub const HEADER_LEN_MAX: usize = 6 + TABLES_MAX * TABLE_LEN_MAX;

/// The header of a new journal for this schema and this number of workers. Fails only if out of
/// memory.
pub fn header_bytes(alloc: Global, workers: u8, schema: &Schema) -> Result<Vec<u8>, AllocError>
    ensures { IfOk result (λ bytes. bytes.items ≡ header New workers (shape_of schema.now)) }
{
    let header = header_of(Form::New, workers, schema);
    Vec::from_slice(alloc, header.as_slice())
}

/// The header of a text of this form, stored inline. Takes no memory.
pub fn header_of(form: Form, workers: u8, schema: &Schema) -> ArrayVec<u8, HEADER_LEN_MAX>
    ensures { result.items ≡ header form workers (shape_of schema.now) }
{
    let tables = table_count(schema);
    let mut bytes = front(form, workers, tables);
    for table in 0..schema.len() {
        if let Some(kinds) = schema.kinds(table) {
            push_table(&mut bytes, kinds);
        }
    }
    bytes
}

/// How many tables a schema has; there are at most 16.
fn table_count(schema: &Schema) -> u8
    ensures count { result ≡ length (shape_of schema.now) }
    ensures few { result ≤ TABLES_MAX }
{
    schema.keeps_limits();
    schema.len() as u8
}

/// The part of the header before the tables.
fn front(form: Form, workers: u8, tables: u8) -> ArrayVec<u8, HEADER_LEN_MAX>
    ensures { result.items ≡ journal_magic ++ (version_code form ∷ workers ∷ tables ∷ []) }
{
    let mut bytes = ArrayVec::new();
    bytes.push(JOURNAL_MAGIC[0]);
    bytes.push(JOURNAL_MAGIC[1]);
    bytes.push(JOURNAL_MAGIC[2]);
    bytes.push(version_code(form));
    bytes.push(workers);
    bytes.push(tables);
    bytes
}

/// The version in the header of a text.
fn version_code(form: Form) -> u8
    ensures { result ≡ version_code form }
{
    match form {
        Form::New => b'2',
        Form::Old | Form::Marked(_) => b'1',
    }
}

/// Adds a table's part: how many columns, and a byte for each.
fn push_table(bytes: &mut ArrayVec<u8, HEADER_LEN_MAX>, kinds: &[Kind])
    requires few { length kinds.now ≤ COLUMNS_MAX }
    requires room { length bytes.old.items + TABLE_LEN_MAX ≤ HEADER_LEN_MAX }
    ensures items { bytes.new.items ≡ bytes.old.items ++ table_header kinds.now }
    ensures len { length bytes.new.items ≤ length bytes.old.items + TABLE_LEN_MAX }
{
    bytes.push(kinds.len() as u8);
    for kind in kinds {
        bytes.push(kind.code());
    }
}
