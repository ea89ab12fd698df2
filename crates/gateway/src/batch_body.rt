//! Queries of a request's body.

use crate::body::{BodyFault, unread};
use requests::{BatchReader, Batched, LineFault, Query, RequestFault};
use script::Setup;
use std::alloc::Global;

/// The queries of a body, in their order: 1 to 64. Behind an empty line nothing may stand but comments.
pub(crate) fn queries_of(
    alloc: Global,
    setup: &Setup,
    body: &[u8],
) -> Result<Vec<Query>, BodyFault> {
    let mut rest = body;
    let mut reader = BatchReader::new(alloc);
    let Some(queries) = next_batch(alloc, setup, &mut reader, &mut rest)? else {
        return Err(unread(format!(in alloc; "line 1: no plan\n").ok()));
    };
    match next_batch(alloc, setup, &mut reader, &mut rest)? {
        None => Ok(queries),
        Some(others) => {
            let line = match others.first() {
                Some(query) => query.line,
                None => 1,
            };
            let why = LineFault::WrongPlace;
            Err(unread(format!(in alloc; "line {line}: {why}\n").ok()))
        }
    }
}

/// The next batch of a body, if one is left.
fn next_batch(
    alloc: Global,
    setup: &Setup,
    reader: &mut BatchReader,
    rest: &mut &[u8],
) -> Result<Option<Vec<Query>>, BodyFault> {
    for _ in 0..u64::MAX {
        match reader.next(setup, rest) {
            Ok(Batched::Batch(queries)) => return Ok(Some(queries)),
            Ok(Batched::NotYet) => {}
            Ok(Batched::End) => return Ok(None),
            Err(RequestFault::Memory) => return Err(BodyFault::Memory),
            Err(fault) => return Err(unread(format!(in alloc; "{fault}\n").ok())),
        }
    }
    Ok(None)
}
