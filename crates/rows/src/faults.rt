use thiserror::Error;

/// Why a list of tables is not a schema, or why none could be made from it.
///
/// The first that applies is reported: no table, too many tables, and then table by table an empty
/// name, a name twice, no column, too many columns, a bad width, a row too wide. Out of memory is
/// last.
#[derive(Clone, Copy, Debug, PartialEq, Eq, Error)]
pub enum SchemaFault {
    #[error("too many tables")]
    TooManyTables,
    #[error("too many columns")]
    TooManyColumns,
    #[error("row too wide")]
    RowTooWide,
    #[error("a column of no bytes, or of more than 64")]
    BadWidth,
    #[error("table name given twice")]
    NameTwice,
    #[error("no table, an empty table name, or a table without columns")]
    Empty,
    #[error("out of memory")]
    Memory,
}

/// Why an entry does not fit a schema.
#[derive(Clone, Copy, Debug, PartialEq, Eq, Error)]
pub enum EntryFault {
    /// The schema has no table of that number.
    #[error("no such table")]
    NoTable,
    /// An insert's data does not have the width of the table's rows; or there is no room for an added
    /// column, since it has no bytes, the table has 16, or a row would take more than 512 bytes.
    #[error("the data has not the row's width")]
    WrongSize,
    /// A patch's offset and size are not exactly those of one column's bytes.
    #[error("the data is not exactly one column's bytes")]
    NotAColumn,
}
