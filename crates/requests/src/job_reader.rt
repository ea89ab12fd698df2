//! Jobs, line by line.

use crate::dialect::Dialect;
use crate::faults::RequestFault;
use crate::job_assembly::JobAssembly;
use crate::lines::{Input, InputFault, LINES_MAX, Lines};
use crate::request::Requested;
use script::Setup;
use std::alloc::Global;
use std::io::Read;

/// Input that is read as jobs.
#[derive(Drop)]
pub struct JobReader {
    alloc: Global,
    lines: Lines,
    assembly: JobAssembly,
}

impl JobReader {
    ghost use Rattle.std.specs.Prelude.{◌≡◌, IfOk};
    ghost use Rattle.requests.specs.Readers.{dialect_of};
    ghost use Rattle.requests.specs.Requests.{IsRequested};

    /// Input of which nothing was read. Takes no memory.
    pub fn new(alloc: Global, dialect: Dialect) -> JobReader
        ensures { dialect_of result ≡ dialect }
    {
        JobReader {
            alloc,
            lines: Lines::new(alloc),
            assembly: JobAssembly::new(alloc, dialect),
        }
    }

    /// The next request, on the tables and workers of this setup. `NotYet` if the reader says that a read
    /// would have to wait, and after 1,000 lines without a request, so that a caller can see whether it is to
    /// end while comments or skipped lines stream in.
    ///
    /// Fails with `Line` if a line does not read, with `Read` if the reader failed, and with `Memory`. The
    /// next call continues: after `Line` behind what was skipped, after `Read` where the reader failed. If
    /// memory was refused for a line of a job, that job is skipped, too.
    ///
    /// A line whose first word is `job` begins the next job, also in a job and where one is skipped. A job
    /// that it breaks off has the fault `WrongPlace`. If the line does not read either, the next call fails
    /// with its own fault: there is one for each job that is lost.
    pub fn next<R: Read>(
        &mut self,
        setup: &Setup,
        reader: &mut R,
    ) -> Result<Requested, RequestFault>
        ensures requested { IfOk result (IsRequested setup.now (dialect_of self.old)) }
        ensures dialect { dialect_of self.new ≡ dialect_of self.old }
    {
        if let Some(fault) = self.assembly.take_owed() {
            return Err(fault);
        }
        for _ in 0..LINES_MAX {
            match self.lines.next(reader) {
                Ok(Input::Line(line)) => {
                    match self.assembly.take_line(self.alloc, setup, line.as_slice()) {
                        Ok(Some(request)) => return Ok(Requested::Request(request)),
                        Ok(None) => {}
                        Err(fault) => return Err(fault),
                    }
                }
                Ok(Input::NotYet) => return Ok(Requested::NotYet),
                Ok(Input::End) => {
                    return match self.assembly.take_end() {
                        Ok(()) => Ok(Requested::End),
                        Err(fault) => Err(fault),
                    };
                }
                Err(InputFault::TooLong(front)) => {
                    match self.assembly.take_too_long(self.alloc, front.as_slice()) {
                        Ok(()) => {}
                        Err(fault) => return Err(fault),
                    }
                }
                Err(InputFault::Read(error)) => return Err(RequestFault::Read(error)),
                Err(InputFault::Memory) => return Err(RequestFault::Memory),
            }
        }
        Ok(Requested::NotYet)
    }
}
