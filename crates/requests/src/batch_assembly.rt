//! Lines that come together as batches.

ghost use Rattle.std.specs.Prelude.{◌≤◌, vec_len};
ghost use Rattle.requests.specs.Limits.{batch_queries_max};

use crate::faults::{LineFault, RequestFault, Skipped};
use crate::misread::Misread;
use crate::query_line::{misread_query_line, read_query_line};
use queries::Plan;
use script::Setup;
use std::alloc::Global;
use std::mem;

/// Queries of a batch, at most.
pub const BATCH_QUERIES_MAX: usize = 64;

/// A query of a batch.
#[derive(Drop)]
pub struct Query {
    /// The number of its line, counted from 1 over all lines of the input.
    pub line: u64,
    pub plan: Plan,
}

/// The lines of batches so far: the batch that has begun, and how many lines there were.
#[derive(Drop)]
pub struct BatchAssembly {
    /// Lines that were taken in.
    count: u64,
    /// The queries of the batch so far.
    queries: Vec<Query>,
    /// Whether the batch is skipped, since a line of it does not read.
    is_skipped: bool,
    ghost few: { vec_len queries ≤ batch_queries_max },
}

impl BatchAssembly {
    ghost use Rattle.std.specs.Prelude.{IfOk, IfSome};
    ghost use Rattle.requests.specs.Batches.{IsBatch};

    /// No line yet. Takes no memory.
    pub fn new(alloc: Global) -> BatchAssembly {
        BatchAssembly {
            count: 0,
            queries: Vec::new(alloc),
            is_skipped: false,
        }
    }

    /// Takes in the next line; the batch that it ends, if it does.
    pub fn take_line(
        &mut self,
        alloc: Global,
        setup: &Setup,
        line: &[u8],
    ) -> Result<Option<Vec<Query>>, RequestFault>
        ensures { IfOk result (λ some. IfSome some (λ queries. IsBatch queries.items)) }
    {
        self.count = self.count.saturating_add(1);
        if line.is_empty() {
            return Ok(self.take_end(alloc));
        }
        if self.is_skipped || line.starts_with(b"#") {
            return Ok(None);
        }
        match read_query_line(alloc, setup, line) {
            Ok(Ok(plan)) => match self.add(plan) {
                Ok(()) => Ok(None),
                Err(fault) => Err(fault),
            },
            Ok(Err(why)) => Err(self.fault(why, misread_query_line(alloc, setup, line))),
            Err(_) => Err(self.out_of_memory()),
        }
    }

    /// Takes in the next line, which is too long.
    pub fn take_too_long(&mut self) -> Result<(), RequestFault> {
        self.count = self.count.saturating_add(1);
        if self.is_skipped {
            return Ok(());
        }
        Err(self.fault(LineFault::TooLong, Misread::Unknown))
    }

    /// Takes in an empty line or the end of the input, and gives the batch that has begun, if it has a query.
    pub fn take_end(&mut self, alloc: Global) -> Option<Vec<Query>>
        ensures { IfSome result (λ queries. IsBatch queries.items) }
    {
        self.is_skipped = false;
        if self.queries.is_empty() {
            return None;
        }
        Some(mem::replace(&mut self.queries, Vec::new(alloc)))
    }

    /// Adds the query of the newest line to the batch.
    fn add(&mut self, plan: Plan) -> Result<(), RequestFault> {
        if self.queries.len() >= BATCH_QUERIES_MAX {
            return Err(self.fault(LineFault::TooManyQueries, Misread::Unknown));
        }
        let query = Query {
            line: self.count,
            plan,
        };
        if self.queries.push(query).is_err() {
            return Err(self.out_of_memory());
        }
        Ok(())
    }

    /// The fault of the newest line, whose batch is skipped.
    fn fault(&mut self, why: LineFault, misread: Misread) -> RequestFault {
        self.skip();
        RequestFault::Line {
            line: self.count,
            why,
            misread,
            skipped: Skipped::Batch,
        }
    }

    /// The fault of the newest line if memory was refused for it, whose batch is skipped.
    fn out_of_memory(&mut self) -> RequestFault {
        self.skip();
        RequestFault::Memory
    }

    /// Skips the batch of the newest line.
    fn skip(&mut self) {
        self.queries.clear();
        self.is_skipped = true;
    }
}
