//! Paths of rows.

use rows::{RowId, Schema};

/// A row of a table.
#[derive(Clone, Copy)]
pub(crate) struct RowPlace {
    pub table: u8,
    pub row: RowId,
}

/// What a path says of a row.
pub(crate) enum RowPath {
    Row(RowPlace),
    NoTable,
    /// It is no path of a row.
    None,
}

/// What a path says of a row of these tables: it is `/tables/NAME/ROW`, where ROW is a number without more
/// zeros than it needs.
pub(crate) fn row_path_of(schema: &Schema, path: &str) -> RowPath {
    let Some(rest) = path.strip_prefix("/tables/") else {
        return RowPath::None;
    };
    let Some((name, number)) = rest.split_once('/') else {
        return RowPath::None;
    };
    let Some(row) = row_of(number) else {
        return RowPath::None;
    };
    match schema.table_named(name).map(u8::try_from) {
        Some(Ok(table)) => RowPath::Row(RowPlace { table, row }),
        _ => RowPath::NoTable,
    }
}

/// The row of this number, if it is one.
fn row_of(number: &str) -> Option<RowId> {
    let bytes = number.as_bytes();
    let has_zero = bytes.len() > 1 && bytes.first() == Some(&b'0');
    if has_zero || !bytes.iter().all(|byte| byte.is_ascii_digit()) {
        return None;
    }
    match number.parse::<u64>() {
        Ok(number) => Some(RowId(number)),
        Err(_) => None,
    }
}
