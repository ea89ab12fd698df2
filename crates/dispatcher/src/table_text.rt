//! The text of a store's tables.

ghost use Rattle.std.specs.Prelude.{◌≡◌, [], ◌++◌, ◌<◌, length, true, IfOk, OnOk};
ghost use Rattle.std.specs.Option.{unwrap_or};
ghost use Rattle.rows.specs.Tables.{kinds_of, rows_of};
ghost use Rattle.dispatcher.specs.TableText.{names_of, row_count, table_text};
ghost use Rattle.dispatcher.specs.Inner.Walk.{columns_text, row_text_at, rows_text_at};

use rows::{Schema, append_number, append_value};
use std::alloc::{AllocError, Global};
use store::{Store, rows_stand_in_order};

/// The text of a whole store's tables at this version: a line `version V rows N`, N being the
/// number of rows of all tables; then for each table in the schema's order, and for each of its
/// rows in rising identifier, a line of the table's name, the row's identifier and its values,
/// separated by one space. Numbers are decimal, octets `x` and lower-case hexadecimal. Each line
/// ends with 0a. Fails only if out of memory.
pub fn table_text<S: Store>(
    alloc: Global,
    store: &S,
    schema: &Schema,
    version: u64,
) -> Result<Vec<u8>, AllocError>
    requires whole { S.is_whole store.now ≡ true }
    requires many { length (S.tables store.now) ≡ length schema.now }
    ensures { IfOk result (λ text. text.items ≡ table_text (names_of schema.now) version (S.tables store.now)) }
{
    let tables = table_count(schema);
    let mut text = Vec::new(alloc);
    text.extend_from_slice(b"version ")?;
    append_number(&mut text, version)?;
    text.extend_from_slice(b" rows ")?;
    append_number(&mut text, row_count(store, tables))?;
    text.push(b'\n')?;
    for table in 0..tables {
        append_table(&mut text, store, schema, table)?;
    }
    Ok(text)
}

/// How many tables a schema has.
fn table_count(schema: &Schema) -> u8
    ensures { result ≡ length schema.now }
{
    schema.keeps_limits();
    schema.len() as u8
}

/// How many rows all tables of a store have together; there are `tables` of them. The sum has 128
/// bits, since each table may have as many rows as a `usize` counts.
fn row_count<S: Store>(store: &S, tables: u8) -> u128
    requires whole { S.is_whole store.now ≡ true }
    requires all { tables ≡ length (S.tables store.now) }
    ensures { result ≡ row_count (S.tables store.now) }
{
    let mut count: u128 = 0;
    for table in 0..tables {
        count += store.len(table) as u128;
    }
    count
}

/// Appends the lines of a table's rows, in rising identifier; nothing if there is no table of that
/// number.
fn append_table<S: Store>(
    text: &mut Vec<u8>,
    store: &S,
    schema: &Schema,
    table: u8,
) -> Result<(), AllocError>
    requires whole { S.is_whole store.now ≡ true }
    ensures { OnOk result (text.new.items ≡ text.old.items ++ rows_text_at (names_of schema.now) (S.tables store.now) table) }
{
    let Some(name) = schema.name(table as usize) else {
        return Ok(());
    };
    let columns = column_count(store, table);
    for i in 0..store.len(table) {
        append_row(text, store, table, name, columns, i)?;
    }
    Ok(())
}

/// How many columns a table of a store has; 0 if there is no table of that number.
fn column_count<S: Store>(store: &S, table: u8) -> usize
    requires { S.is_whole store.now ≡ true }
    ensures { result ≡ length (kinds_of (S.tables store.now) table) }
{
    match store.kinds(table) {
        Some(kinds) => kinds.len(),
        None => 0,
    }
}

/// Appends the line of the row at an index of a table's order, with this table name and this number
/// of columns.
fn append_row<S: Store>(
    text: &mut Vec<u8>,
    store: &S,
    table: u8,
    name: &str,
    columns: usize,
    i: usize,
) -> Result<(), AllocError>
    requires whole { S.is_whole store.now ≡ true }
    requires columns { columns ≡ length (kinds_of (S.tables store.now) table) }
    requires within { i < length (rows_of (S.tables store.now) table) }
    ensures { OnOk result (text.new.items ≡ text.old.items ++ row_text_at name.now (rows_of (S.tables store.now) table) i) }
{
    store.keeps_kinds();
    rows_stand_in_order();
    let id = store.id_at(table, i);
    let Some(place) = store.find(table, id) else {
        unreachable!();
    };
    text.extend_from_slice(name.as_bytes())?;
    text.push(b' ')?;
    append_number(text, id.0)?;
    append_columns(text, store, table, place, columns)?;
    text.push(b'\n')?;
    Ok(())
}

/// Appends the values of the row at a place, each after a space. They are read in place.
fn append_columns<S: Store>(
    text: &mut Vec<u8>,
    store: &S,
    table: u8,
    place: S::Place,
    columns: usize,
) -> Result<(), AllocError>
    requires whole { S.is_whole store.now ≡ true }
    requires all { columns ≡ length (unwrap_or (S.values_at store.now table place) []) }
    ensures { OnOk result (text.new.items ≡ text.old.items ++ columns_text (unwrap_or (S.values_at store.now table place) [])) }
{
    for column in 0..columns {
        text.push(b' ')?;
        append_value(text, &store.value(table, place, column))?;
    }
    Ok(())
}
