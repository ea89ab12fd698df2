//! Rows as they are durable.

ghost use Rattle.http_server.specs.Response.{IsBlank};

use crate::answering::{answer, answer_json, answer_later};
use crate::row_path::RowPlace;
use http::StatusCode;
use http_server::Response;
use mvcc::TxFault;
use rows::limits::COLUMNS_MAX;
use rows::{Schema, Value, append_number, append_value};
use shared::{LineFault, Origin, Seat};
use sockets::{begun, looked};
use std::alloc::{AllocError, Global};

/// What was found of a row.
#[derive(Drop)]
enum Found {
    /// Its values, at this version.
    Row(u64, Vec<Value>),
    Missing,
    /// What is published could not be read.
    Unread,
}

/// Answers a row as it is durable, at the newest version that is published: as a text, or as JSON.
pub(crate) fn tell_row<L: Origin>(
    alloc: Global,
    seat: &mut Seat<L>,
    schema: &Schema,
    place: RowPlace,
    as_json: bool,
    response: &mut Response,
)
    requires { IsBlank response.old }
{
    let found = match found_at(alloc, seat, place) {
        Ok(Found::Row(version, values)) => Ok((version, values)),
        Ok(Found::Missing) => {
            answer(response, StatusCode::NOT_FOUND, b"missing\n");
            return;
        }
        Ok(Found::Unread) => Err(AllocError),
        Err(error) => Err(error),
    };
    let Ok((version, values)) = found else {
        answer_later(response, b"memory\n");
        return;
    };
    let name = schema.name(place.table as usize).unwrap_or("?");
    if as_json {
        match json_of(alloc, name, place, version, &values) {
            Ok(text) => answer_json(response, &text),
            Err(_) => answer_later(response, b"memory\n"),
        }
        return;
    }
    match text_of(alloc, name, place, version, &values) {
        Ok(text) => answer(response, StatusCode::OK, &text),
        Err(_) => answer_later(response, b"memory\n"),
    }
}

/// What is found of a row at the newest version. Fails only if out of memory.
fn found_at<L: Origin>(
    alloc: Global,
    seat: &mut Seat<L>,
    place: RowPlace,
) -> Result<Found, AllocError> {
    let Ok(transaction) = begun(alloc, seat) else {
        return Ok(Found::Unread);
    };
    let version = seat.len();
    let mut values = Vec::new(alloc);
    for column in 0..COLUMNS_MAX {
        match looked(seat, &transaction, place.table, place.row, column) {
            Ok(value) => values.push(value)?,
            Err(LineFault::Tx(TxFault::Missing)) => return Ok(Found::Missing),
            // There is no such column, so these are all.
            Err(LineFault::Tx(_)) => break,
            Err(_) => return Ok(Found::Unread),
        }
    }
    Ok(Found::Row(version, values))
}

/// The version, and the row as in a table text.
fn text_of(
    alloc: Global,
    name: &str,
    place: RowPlace,
    version: u64,
    values: &[Value],
) -> Result<Vec<u8>, AllocError> {
    let mut text = Vec::new(alloc);
    text.extend_from_slice(b"version ")?;
    append_number(&mut text, version)?;
    text.push(b'\n')?;
    text.extend_from_slice(name.as_bytes())?;
    text.push(b' ')?;
    append_number(&mut text, place.row.0)?;
    for value in values {
        text.push(b' ')?;
        append_value(&mut text, value)?;
    }
    text.push(b'\n')?;
    Ok(text)
}

/// The same as JSON. Each number of the row is a string, since numbers of JSON readers end at 2^53.
fn json_of(
    alloc: Global,
    name: &str,
    place: RowPlace,
    version: u64,
    values: &[Value],
) -> Result<Vec<u8>, AllocError> {
    let mut text = Vec::new(alloc);
    text.extend_from_slice(b"{\"version\":")?;
    append_number(&mut text, version)?;
    text.extend_from_slice(b",\"table\":\"")?;
    text.extend_from_slice(name.as_bytes())?;
    text.extend_from_slice(b"\",\"row\":\"")?;
    append_number(&mut text, place.row.0)?;
    text.extend_from_slice(b"\",\"values\":[")?;
    let mut is_first = true;
    for value in values {
        let front: &[u8] = if is_first { b"\"" } else { b",\"" };
        is_first = false;
        text.extend_from_slice(front)?;
        append_value(&mut text, value)?;
        text.push(b'"')?;
    }
    text.extend_from_slice(b"]}\n")?;
    Ok(text)
}
