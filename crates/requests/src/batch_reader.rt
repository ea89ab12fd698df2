//! Batches of queries, line by line.

use crate::batch_assembly::{BatchAssembly, Query};
use crate::faults::RequestFault;
use crate::lines::{Input, InputFault, LINES_MAX, Lines};
use script::Setup;
use std::alloc::Global;
use std::io::Read;

/// What came of the input.
#[derive(Drop)]
pub enum Batched {
    /// A batch, of 1 to 64 queries.
    Batch(Vec<Query>),
    /// No whole batch yet.
    NotYet,
    /// The input has ended.
    End,
}

/// Input that is read as batches, each ended by an empty line or by the end of the input.
#[derive(Drop)]
pub struct BatchReader {
    alloc: Global,
    lines: Lines,
    assembly: BatchAssembly,
}

impl BatchReader {
    ghost use Rattle.std.specs.Prelude.{IfOk};
    ghost use Rattle.requests.specs.Batches.{IsBatched};

    /// Input of which nothing was read. Takes no memory.
    pub fn new(alloc: Global) -> BatchReader {
        BatchReader {
            alloc,
            lines: Lines::new(alloc),
            assembly: BatchAssembly::new(alloc),
        }
    }

    /// The next batch, on the tables of this setup. `NotYet` if the reader says that a read would have to wait,
    /// and after 1,000 lines that end no batch, so that a caller can see whether it is to end while comments or
    /// skipped lines stream in.
    ///
    /// Fails with `Line` if a line is no plan, does not fit the tables or is one too many, with `Read` if
    /// the reader failed, and with `Memory`. The next call continues: after `Line` behind the batch of that
    /// line, after `Read` where the reader failed. If memory was refused for a line, its batch is skipped,
    /// too.
    pub fn next<R: Read>(&mut self, setup: &Setup, reader: &mut R) -> Result<Batched, RequestFault>
        ensures { IfOk result IsBatched }
    {
        for _ in 0..LINES_MAX {
            match self.lines.next(reader) {
                Ok(Input::Line(line)) => {
                    match self.assembly.take_line(self.alloc, setup, line.as_slice()) {
                        Ok(Some(queries)) => return Ok(Batched::Batch(queries)),
                        Ok(None) => {}
                        Err(fault) => return Err(fault),
                    }
                }
                Ok(Input::NotYet) => return Ok(Batched::NotYet),
                Ok(Input::End) => {
                    return match self.assembly.take_end(self.alloc) {
                        Some(queries) => Ok(Batched::Batch(queries)),
                        None => Ok(Batched::End),
                    };
                }
                Err(InputFault::TooLong(_front)) => match self.assembly.take_too_long() {
                    Ok(()) => {}
                    Err(fault) => return Err(fault),
                },
                Err(InputFault::Read(error)) => return Err(RequestFault::Read(error)),
                Err(InputFault::Memory) => return Err(RequestFault::Memory),
            }
        }
        Ok(Batched::NotYet)
    }
}
