use thiserror::Error;

/// Why a call of a transaction is refused: the first that applies, in the order `Unfit`, then
/// `Exists` or `Missing`, `TooManyEntries`, `Memory`.
#[derive(Clone, Copy, Debug, PartialEq, Eq, Error)]
pub enum TxFault {
    /// The row to insert is there, as the transaction sees it.
    #[error("the row exists")]
    Exists,
    /// The row is not there, as the transaction sees it.
    #[error("no such row")]
    Missing,
    /// The table or the column is not there, or a value is not of its column's kind; or there is no
    /// room in the table for a column more.
    #[error("the values do not fit the table")]
    Unfit,
    /// The transaction has as many entries as one may have.
    #[error("too many entries")]
    TooManyEntries,
    #[error("out of memory")]
    Memory,
}
