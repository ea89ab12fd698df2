//! Jobs of a request's body.

ghost use Rattle.std.specs.Prelude.{◌<◌, length, IfOk};

use requests::{Dialect, JobReader, LineFault, Request, RequestFault, Requested};
use script::Setup;
use sockets::Job;
use std::alloc::Global;

/// Why a body has no jobs that can be done.
#[derive(Drop)]
pub(crate) enum BodyFault {
    /// It does not read. This text, which is ASCII, says where and why.
    Unread(Vec<u8>),
    Memory,
}

/// All jobs of a body, in their order: one at least. None is done if one does not read.
pub(crate) fn jobs_of(alloc: Global, setup: &Setup, body: &[u8]) -> Result<Vec<Job>, BodyFault>
    ensures { IfOk result (λ jobs. 0 < length jobs.items) }
{
    let mut rest = body;
    let mut reader = JobReader::new(alloc, Dialect::Live);
    let mut jobs = Vec::new(alloc);
    for _ in 0..u64::MAX {
        match reader.next(setup, &mut rest) {
            Ok(
                Requested::Request(
                    Request::Job {
                        job,
                        step_lines: _lines,
                        ..
                    },
                ),
            ) => {
                if jobs.push(job).is_err() {
                    return Err(BodyFault::Memory);
                }
            }
            Ok(Requested::Request(Request::Get { line, .. } | Request::Base { line })) => {
                let why = LineFault::NoJobLine;
                return Err(unread(format!(in alloc; "line {line}: {why}\n").ok()));
            }
            Ok(Requested::NotYet) => {}
            Ok(Requested::End) => break,
            Err(RequestFault::Memory) => return Err(BodyFault::Memory),
            Err(fault) => return Err(unread(format!(in alloc; "{fault}\n").ok())),
        }
    }
    if jobs.is_empty() {
        return Err(unread(format!(in alloc; "line 1: no job\n").ok()));
    }
    Ok(jobs)
}

/// The fault of a body that does not read, with this text, for which there may be no memory. It shows a word of the body, whose
/// bytes may be any: those that are not ASCII are shown as `?`.
pub(crate) fn unread(text: Option<String>) -> BodyFault {
    match text {
        Some(text) => {
            let mut text = text.into_bytes();
            for byte in text.as_mut_slice() {
                if !byte.is_ascii() {
                    *byte = b'?';
                }
            }
            BodyFault::Unread(text)
        }
        None => BodyFault::Memory,
    }
}
