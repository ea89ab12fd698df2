//! Lines of output, written at once.

use crate::failure::{Failure, failure_of};
use std::alloc::Global;
use std::io::Write;

/// Writes a text and flushes it.
pub fn print<W: Write>(alloc: Global, writer: &mut W, text: &[u8]) -> Result<(), Failure> {
    match nodes::print(writer, text) {
        Ok(()) => Ok(()),
        Err(fault) => Err(failure_of(alloc, fault)),
    }
}
