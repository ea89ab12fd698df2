//! Looks at what is durable.

use mvcc::TxFault;
use rows::{RowId, Schema, Value, append_number, append_value};
use shared::{LineFault, Origin, Seat};
use sockets::{begun, looked};
use std::alloc::{AllocError, Global};

/// What is looked at: the value of a column of a row.
#[derive(Clone, Copy)]
pub struct Look {
    pub table: u8,
    pub row: RowId,
    pub column: usize,
}

/// The line of a look: what was asked for, and then the value; or `missing`, if there is no such row; `unfit`, if
/// there is no such column; `unread`, if what is published could not be read. Fails only if out of memory.
pub fn look_line<L: Origin>(
    alloc: Global,
    seat: &mut Seat<L>,
    schema: &Schema,
    look: &Look,
) -> Result<Vec<u8>, AllocError> {
    let found = match begun(alloc, seat) {
        Ok(transaction) => looked(seat, &transaction, look.table, look.row, look.column),
        Err(_) => Err(LineFault::Unread),
    };
    let mut line = Vec::new(alloc);
    push_asked(&mut line, schema, look)?;
    push_found(&mut line, found)?;
    line.push(b'\n')?;
    Ok(line)
}

/// Pushes what was asked for.
fn push_asked(line: &mut Vec<u8>, schema: &Schema, look: &Look) -> Result<(), AllocError> {
    line.extend_from_slice(b"get ")?;
    line.extend_from_slice(schema.name(look.table as usize).unwrap_or("?").as_bytes())?;
    line.push(b' ')?;
    append_number(line, look.row.0)?;
    line.push(b' ')?;
    append_number(line, look.column as u64)?;
    line.push(b' ')?;
    Ok(())
}

/// Pushes what was found.
fn push_found(line: &mut Vec<u8>, found: Result<Value, LineFault>) -> Result<(), AllocError> {
    match found {
        Ok(value) => {
            line.extend_from_slice(b"value ")?;
            append_value(line, &value)
        }
        Err(LineFault::Tx(TxFault::Missing)) => line.extend_from_slice(b"missing"),
        Err(LineFault::Tx(_)) => line.extend_from_slice(b"unfit"),
        Err(_) => line.extend_from_slice(b"unread"),
    }
}
