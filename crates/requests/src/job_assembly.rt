//! Lines that come together as jobs.
//!
//! A line whose first word is `job` always begins the next job, whether it reads or not. So each such line is
//! one job, and a job that lacks its `end` is lost alone.

ghost use Rattle.std.specs.Prelude.{◌≡◌, true, vec_len};
ghost use Rattle.std.specs.List.{list_all};
ghost use Rattle.requests.specs.Dialects.{has_step};

use crate::dialect::Dialect;
use crate::faults::{LineFault, RequestFault, Skipped};
use crate::job_line::{JobLine, begins_job, read_job_line};
use crate::job_words::{misplaced, misread_job_line};
use crate::misread::Misread;
use crate::request::Request;
use crate::word_fault::WordFault;
use script::Setup;
use sockets::{Job, Step};
use std::alloc::Global;
use std::mem;

/// Where the next line of jobs comes.
#[derive(Clone, Copy, PartialEq, Eq)]
enum JobState {
    /// Between two jobs.
    Outside,
    /// In a job, whose lines so far are read.
    Inside,
    /// In a job that is skipped, since a line of it does not read.
    Skipped,
}

/// The lines of jobs so far: the job that has begun, and how many lines there were.
#[derive(Drop)]
pub struct JobAssembly {
    dialect: Dialect,
    /// Lines that were taken in.
    count: u64,
    state: JobState,
    /// The worker of the newest job, and the number of its first line.
    worker: u8,
    first_line: u64,
    /// The steps of that job so far, and the number of the line of each.
    steps: Vec<Step>,
    step_lines: Vec<u64>,
    /// The fault of the newest line's own job, if the fault of the job that this line broke off came first.
    owed: Option<RequestFault>,
    ghost permitted: { list_all (has_step dialect) steps.items ≡ true },
    ghost lined: { vec_len step_lines ≡ vec_len steps },
}

impl JobAssembly {
    ghost use Rattle.std.specs.Prelude.{IfOk, IfSome};
    ghost use Rattle.requests.specs.Inner.Assemblies.{dialect_of};
    ghost use Rattle.requests.specs.Requests.{IsRequestOf};
    ghost use Rattle.requests.specs.Dialects.{IsLineOf};

    /// No line yet. Takes no memory.
    pub fn new(alloc: Global, dialect: Dialect) -> JobAssembly
        ensures { dialect_of result ≡ dialect }
    {
        JobAssembly {
            dialect,
            count: 0,
            state: JobState::Outside,
            worker: 0,
            first_line: 0,
            steps: Vec::new(alloc),
            step_lines: Vec::new(alloc),
            owed: None,
        }
    }

    /// The fault that is owed, which is owed no longer. Ask before each line and before the end of the input.
    pub fn take_owed(&mut self) -> Option<RequestFault>
        ensures { dialect_of self.new ≡ dialect_of self.old }
    {
        self.owed.take()
    }

    /// Takes in the next line; the request that it ends, if it does.
    pub fn take_line(
        &mut self,
        alloc: Global,
        setup: &Setup,
        line: &[u8],
    ) -> Result<Option<Request>, RequestFault>
        ensures request { IfOk result (λ some. IfSome some (IsRequestOf setup.now.workers (dialect_of self.old))) }
        ensures dialect { dialect_of self.new ≡ dialect_of self.old }
    {
        self.count = self.count.saturating_add(1);
        if self.still_skips(line) {
            return Ok(None);
        }
        match read_job_line(alloc, setup, self.dialect, line) {
            Ok(Ok(said)) => self.take_said(alloc, setup, line, said),
            Ok(Err(reason)) => {
                let misread = misread_job_line(alloc, setup.workers, self.dialect, line, reason);
                Err(self.fault(alloc, line, LineFault::of_reason(reason), misread))
            }
            Err(_) => Err(self.out_of_memory(alloc, line)),
        }
    }

    /// Takes in the next line, of which only the front is known, since it is too long.
    pub fn take_too_long(&mut self, alloc: Global, front: &[u8]) -> Result<(), RequestFault>
        ensures { dialect_of self.new ≡ dialect_of self.old }
    {
        self.count = self.count.saturating_add(1);
        if self.still_skips(front) {
            return Ok(());
        }
        Err(self.fault(alloc, front, LineFault::TooLong, Misread::Unknown))
    }

    /// Takes in the end of the input. Fails inside a job.
    pub fn take_end(&mut self) -> Result<(), RequestFault>
        ensures { dialect_of self.new ≡ dialect_of self.old }
    {
        let state = self.state;
        self.state = JobState::Outside;
        if state == JobState::Inside {
            return Err(RequestFault::Line {
                line: self.count.saturating_add(1),
                why: LineFault::NoEnd,
                misread: Misread::Unknown,
                skipped: Skipped::Job,
            });
        }
        Ok(())
    }

    /// Whether the newest line, which begins with these bytes, is skipped with its job. What is skipped of a
    /// job ends with its `end`, or before the line that begins the next job.
    fn still_skips(&mut self, line: &[u8]) -> bool
        ensures { dialect_of self.new ≡ dialect_of self.old }
    {
        if self.state != JobState::Skipped {
            return false;
        }
        let is_next = begins_job(line);
        if is_next || line == b"end".as_slice() {
            self.state = JobState::Outside;
        }
        !is_next
    }

    /// Takes in what the newest line says.
    fn take_said(
        &mut self,
        alloc: Global,
        setup: &Setup,
        line: &[u8],
        said: JobLine,
    ) -> Result<Option<Request>, RequestFault>
        requires { IsLineOf (dialect_of self.old) said }
        ensures request { IfOk result (λ some. IfSome some (IsRequestOf setup.now.workers (dialect_of self.old))) }
        ensures dialect { dialect_of self.new ≡ dialect_of self.old }
    {
        match (said, self.state) {
            (JobLine::Nothing, _) => Ok(None),
            (JobLine::Job(worker), JobState::Outside) => {
                self.begin(worker);
                Ok(None)
            }
            (JobLine::Job(worker), JobState::Inside) => {
                self.begin(worker);
                Err(self.broken_off(alloc))
            }
            (JobLine::Step(step), JobState::Inside) => match self.add(step) {
                Ok(()) => Ok(None),
                Err(fault) => Err(fault),
            },
            (JobLine::End, JobState::Inside) => match self.finish(alloc, setup.workers) {
                Ok(request) => Ok(Some(request)),
                Err(fault) => Err(fault),
            },
            (JobLine::Get { table, row, column }, JobState::Outside) => Ok(Some(Request::Get {
                table,
                row,
                column,
                line: self.count,
            })),
            (JobLine::Base, JobState::Outside) => Ok(Some(Request::Base { line: self.count })),
            (_, _) => {
                let misread = misplaced(alloc, line, self.place());
                Err(self.fault(alloc, line, LineFault::WrongPlace, misread))
            }
        }
    }

    /// Where the newest line stands, which is the wrong place.
    fn place(&self) -> WordFault {
        match self.state {
            JobState::Inside => WordFault::Inside,
            JobState::Outside | JobState::Skipped => WordFault::Outside,
        }
    }

    /// Begins a job of this worker on the newest line.
    fn begin(&mut self, worker: u8)
        ensures { dialect_of self.new ≡ dialect_of self.old }
    {
        self.state = JobState::Inside;
        self.worker = worker;
        self.first_line = self.count;
        self.steps.clear();
        self.step_lines.clear();
    }

    /// Adds a step of the newest line to the job. If memory is refused, the rest of the job is skipped.
    fn add(&mut self, step: Step) -> Result<(), RequestFault>
        requires { has_step (dialect_of self.old) step ≡ true }
        ensures { dialect_of self.new ≡ dialect_of self.old }
    {
        // Room comes first, so that a step is never without its line.
        if self.steps.reserve(1).is_err() || self.step_lines.reserve(1).is_err() {
            self.state = JobState::Skipped;
            return Err(RequestFault::Memory);
        }
        self.steps.push_reserved(step);
        self.step_lines.push_reserved(self.count);
        Ok(())
    }

    /// The job that has begun, whole.
    fn finish(&mut self, alloc: Global, workers: u8) -> Result<Request, RequestFault>
        ensures request { IfOk result (IsRequestOf workers (dialect_of self.old)) }
        ensures dialect { dialect_of self.new ≡ dialect_of self.old }
    {
        self.state = JobState::Outside;
        // The setup may be another than the one with which the job began.
        if self.worker >= workers {
            return Err(RequestFault::Line {
                line: self.first_line,
                why: LineFault::BadWords,
                misread: Misread::Unknown,
                skipped: Skipped::Job,
            });
        }
        let steps = mem::replace(&mut self.steps, Vec::new(alloc));
        let step_lines = mem::replace(&mut self.step_lines, Vec::new(alloc));
        Ok(Request::Job {
            job: Job {
                worker: self.worker,
                steps,
            },
            line: self.first_line,
            step_lines,
        })
    }

    /// The fault of the newest line, which begins with these bytes, and what is skipped with it; or first that
    /// of the job that this line breaks off.
    fn fault(
        &mut self,
        alloc: Global,
        line: &[u8],
        why: LineFault,
        misread: Misread,
    ) -> RequestFault
        ensures { dialect_of self.new ≡ dialect_of self.old }
    {
        let skipped = if self.state == JobState::Inside || begins_job(line) {
            Skipped::Job
        } else {
            Skipped::Line
        };
        let own = RequestFault::Line {
            line: self.count,
            why,
            misread,
            skipped,
        };
        self.skip(alloc, line, own)
    }

    /// The fault of the newest line if memory was refused for it, in the same way.
    fn out_of_memory(&mut self, alloc: Global, line: &[u8]) -> RequestFault
        ensures { dialect_of self.new ≡ dialect_of self.old }
    {
        self.skip(alloc, line, RequestFault::Memory)
    }

    /// Skips a line that begins with these bytes, and with it the job that it is in or begins. The fault to
    /// report: this one of its own, or that of the job that it breaks off, and then its own is owed.
    fn skip(&mut self, alloc: Global, line: &[u8], own: RequestFault) -> RequestFault
        ensures { dialect_of self.new ≡ dialect_of self.old }
    {
        match (self.state, begins_job(line)) {
            (JobState::Inside, true) => {
                self.state = JobState::Skipped;
                self.owed = Some(own);
                self.broken_off(alloc)
            }
            (JobState::Inside, false) | (_, true) => {
                self.state = JobState::Skipped;
                own
            }
            (_, false) => own,
        }
    }

    /// The fault of a job that the newest line breaks off, since it begins the next one.
    fn broken_off(&self, alloc: Global) -> RequestFault {
        RequestFault::Line {
            line: self.count,
            why: LineFault::WrongPlace,
            misread: misplaced(alloc, b"job", WordFault::NoEnd),
            skipped: Skipped::Job,
        }
    }
}
