//! Jobs of requests, taken at a seat and made durable at the end of a round.

ghost use Rattle.std.specs.Prelude.{◌≡◌, ◌<◌, ◌↔◌, List, length, [], false, All, IsTrue};
ghost use Rattle.http_server.specs.Response.{IsBlank};
ghost use Rattle.rows.specs.Shape.{shape_of};
ghost use Rattle.sockets.specs.declared.job_answer.JobAnswer.{JobAnswer as Answer};
ghost use Rattle.gateway.specs.Jobs.{AnswersJobs, IsTicket, SettlesJobs, TakesJobs, Tells};

use crate::answering::{
    answer, answer_later, answer_page, answer_use_get, answer_use_post, seconds_of, stamp,
    wants_json,
};
use crate::body::{BodyFault, jobs_of};
use crate::node_facts::NodeFacts;
use crate::primary_page::PRIMARY_PAGE;
use crate::reporting::{report_of, tell_report};
use crate::row_path::{RowPath, row_path_of};
use crate::row_reading::tell_row;
use crate::taking::{Taken, take_each};
use crate::worker_count::WorkerCount;
use bytes::Bytes;
use http::{Request, StatusCode};
use http_server::{Response, Settle};
use journal::{FileJournal, JournalStore};
use requests::answer_lines_of;
use script::Setup;
use shared::{Line, Origin, Seat};
use sockets::{JobAnswer, JobSeat, WorkersFault, are_of_workers};
use std::alloc::{AllocError, Global};
use std::marker::Model;
use std::rt::Clock;
use std::sync::Wait;

/// What answers the requests of a primary's clients.
///
/// Contracts see the seat at which jobs are taken, and whether a fault took back what was told.
#[derive(Drop)]
pub struct JobDesk<'a, L: Origin, J: JournalStore + Drop, H: Wait + Drop, T: Wait> {
    rt: &'a T,
    alloc: Global,
    line: &'a Line<L, J, H>,
    setup: &'a Setup,
    workers: WorkerCount<L>,
    job_seat: JobSeat<L>,
    /// At which rows are read.
    looking: Seat<L>,
    /// Whether a fault took back what requests of this round were told. Nothing of it is sent then.
    has_lost: bool,
    /// What it tells of its node, and where it counts what it does.
    facts: Option<&'a NodeFacts<'a>>,
}

impl<'a, L: Origin, J: JournalStore + Drop, H: Wait + Drop, T: Wait> Model
    for JobDesk<'a, L, J, H, T> {
    ghost use Rattle.gateway.specs.Jobs.{DeskState};

    ghost Value = { DeskState };

    ghost view = { λ d. record { job_seat = d.job_seat; has_lost = d.has_lost } };
}

impl<'a, L: Origin, J: JournalStore + Drop, H: Wait + Drop, T: Wait> JobDesk<'a, L, J, H, T> {
    /// At two seats of this line, which has these workers, and opened tables of this setup: at the first jobs
    /// are taken, at the other rows are read. Takes no memory.
    pub fn new(
        rt: &'a T,
        alloc: Global,
        line: &'a Line<L, J, H>,
        setup: &'a Setup,
        workers: WorkerCount<L>,
        seat: Seat<L>,
        looking: Seat<L>,
    ) -> JobDesk<'a, L, J, H, T>
        ensures { result ≡ record { job_seat = record { seat = seat; answers = []; pending = [] }; has_lost = false } }
    {
        JobDesk {
            rt,
            alloc,
            line,
            setup,
            workers,
            job_seat: JobSeat::new(alloc, seat),
            looking,
            has_lost: false,
            facts: None,
        }
    }

    /// The same, which also tells these facts of its node, and counts what it does. Takes no memory.
    pub fn with_facts(self, facts: &'a NodeFacts<'a>) -> JobDesk<'a, L, J, H, T>
        ensures { result ≡ self.entry }
    {
        JobDesk {
            facts: Some(facts),
            ..self
        }
    }

    /// Its seats: that at which jobs were taken, and that at which rows were read. Takes no memory.
    pub fn into_seats(self) -> (Seat<L>, Seat<L>)
        ensures { result.0 ≡ self.entry.job_seat.seat }
    {
        let JobDesk {
            job_seat,
            looking,
            ..
        } = self;
        (job_seat.into_seat(), looking)
    }

    /// Answers a request. What it tells of jobs stands only once the round has settled. It may wait.
    ///
    /// `POST /jobs` takes the jobs of the body, in their order: 200 with a line for each if all have
    /// tickets, 409 with these lines if one has none; 400 and nothing is done if the body does not read
    /// or has no job; 503 if memory was refused, and 500 if the journal failed: jobs may then be done.
    ///
    /// `GET /tables/NAME/ROW` answers the row at the newest durable version that is published, as a text or,
    /// if `Accept` names it, as JSON; 404 if there is no such table or row. `GET /status` and `GET /metrics` answer
    /// what the desk tells of its node, if it has facts, and `GET /` a page for people. Any other path is answered 404, another method 405.
    pub fn take(&mut self, request: &Request<Bytes>, response: &mut Response)
        requires { IsBlank response.old }
        ensures { AnswersJobs L.workers (shape_of L.schema) self.old request.now response.new self.new }
    {
        let path = request.uri().path();
        if path != "/jobs" {
            self.tell_path(path, request, response);
            return;
        }
        if request.method().as_str() != "POST" {
            tell_no_post(response);
            return;
        }
        self.take_jobs(request.body().as_slice(), response);
    }

    /// Answers a request for another path than that of jobs.
    fn tell_path(&mut self, path: &str, request: &Request<Bytes>, response: &mut Response)
        requires { IsBlank response.old }
        ensures { self.new ≡ self.old }
    {
        if let (Some(report), Some(facts)) = (report_of(path), self.facts) {
            let method = request.method().as_str();
            tell_report(
                self.alloc,
                &mut self.looking,
                facts,
                report,
                method,
                response,
            );
            return;
        }
        if path == "/" {
            tell_page(request.method().as_str(), response);
            return;
        }
        match row_path_of(&self.setup.schema, path) {
            RowPath::Row(place) => {
                let method = request.method().as_str();
                if method == "GET" || method == "HEAD" {
                    let as_json = wants_json(request);
                    tell_row(
                        self.alloc,
                        &mut self.looking,
                        &self.setup.schema,
                        place,
                        as_json,
                        response,
                    );
                } else {
                    answer_use_get(response);
                }
            }
            RowPath::NoTable => answer(response, StatusCode::NOT_FOUND, b"no such table\n"),
            RowPath::None => answer(response, StatusCode::NOT_FOUND, b"no such path\n"),
        }
    }

    /// Takes the jobs of a body.
    fn take_jobs(&mut self, body: &[u8], response: &mut Response)
        requires { IsBlank response.old }
        ensures { self.new.has_lost ≡ false → (self.old.has_lost ≡ false)
            × ((told : List Answer) × TakesJobs L.workers (shape_of L.schema) self.old.job_seat self.new.job_seat told
            × Tells told response.new) }
    {
        let jobs = match jobs_of(self.alloc, self.setup, body) {
            Ok(jobs) => jobs,
            Err(fault) => {
                tell_unread(fault, response);
                return;
            }
        };
        if !are_of_workers(&jobs, self.workers.count() as usize) {
            // A job's worker is one of the setup's, and these are the line's.
            tell_fault(WorkersFault::NoSeat, response);
            return;
        }
        let mut told = Vec::new(self.alloc);
        let taken = take_each(
            self.rt,
            self.alloc,
            self.line,
            &mut self.job_seat,
            &jobs,
            &mut told,
        );
        match taken {
            Taken::All => tell(self.alloc, &told, response),
            Taken::Failed(fault) => tell_fault(fault, response),
            Taken::Lost(fault) => {
                self.has_lost = true;
                tell_fault(fault, response);
            }
        }
    }

    /// Makes durable what was taken in a round. Whether what was told of it stands. It may wait.
    pub fn settle_round(&mut self) -> bool
        ensures { SettlesJobs L.workers (shape_of L.schema) self.old result self.new }
    {
        if self.has_lost {
            return false;
        }
        match self.job_seat.settles(self.rt, self.line) {
            Ok(()) => {
                self.note_round();
                self.job_seat.clear();
                true
            }
            Err(_) => false,
        }
    }

    /// Counts a round that stands, if it has jobs, and what these were answered.
    fn note_round(&self) {
        let answers = self.job_seat.answers();
        if let Some(facts) = self.facts
            && !answers.is_empty()
        {
            facts.figures.note_round();
            facts.figures.note_jobs(answers);
        }
    }

    /// Counts an answer by its status.
    fn note_answer(&self, response: &Response) {
        if let Some(facts) = self.facts {
            facts.figures.note_status(response.status.as_u16());
        }
    }

    /// The seconds since 1970, if they were noted; 0 otherwise.
    fn date(&self) -> u64 {
        match self.facts {
            Some(facts) => facts.figures.date(),
            None => 0,
        }
    }

    /// Notes the time, how many connections there are, and for how many there was no place so far.
    pub(crate) fn note_connections(&self, connections: usize, turned_away: u64)
    where
        T: Clock,
    {
        if let Some(facts) = self.facts {
            facts.figures.note_date(seconds_of(self.rt));
            facts
                .figures
                .note_connections(connections as u64, turned_away);
        }
    }
}

/// Tells what jobs are answered, of which there is one at least.
fn tell(alloc: Global, told: &[JobAnswer], response: &mut Response)
    requires blank { IsBlank response.old }
    requires some { 0 < length told.now }
    ensures { Tells told.now response.new }
{
    let Ok(text) = answer_lines_of(alloc, told) else {
        answer_later(response, b"memory\n");
        return;
    };
    let status = if are_tickets(told) {
        StatusCode::OK
    } else {
        StatusCode::CONFLICT
    };
    answer(response, status, &text);
}

/// Whether each job has a ticket.
fn are_tickets(told: &[JobAnswer]) -> bool
    ensures { IsTrue result ↔ All IsTicket told.now }
{
    told.iter().all(is_ticket)
}

/// Whether a job has a ticket.
fn is_ticket(answer: &JobAnswer) -> bool
    ensures { IsTrue result ↔ IsTicket answer.now }
{
    matches!(answer, JobAnswer::Ticket(_))
}

/// Answers with the page of a primary, if the method is one that reads.
fn tell_page(method: &str, response: &mut Response)
    requires { IsBlank response.old }
{
    if method == "GET" || method == "HEAD" {
        answer_page(response, PRIMARY_PAGE);
    } else {
        answer_use_get(response);
    }
}

/// Tells that a path takes POST alone.
fn tell_no_post(response: &mut Response)
    requires { IsBlank response.old }
    ensures { Tells [] response.new }
{
    answer_use_post(response);
}

/// Tells that a body has no jobs that can be done.
fn tell_unread(fault: BodyFault, response: &mut Response)
    requires { IsBlank response.old }
    ensures { Tells [] response.new }
{
    match fault {
        BodyFault::Unread(text) => answer(response, StatusCode::BAD_REQUEST, &text),
        BodyFault::Memory => answer_later(response, b"memory\n"),
    }
}

/// Tells of a fault that ended jobs.
fn tell_fault(fault: WorkersFault, response: &mut Response)
    requires { IsBlank response.old }
    ensures { (told : List Answer) → Tells told response.new }
{
    match fault {
        WorkersFault::Journal => answer(response, StatusCode::INTERNAL_SERVER_ERROR, b"journal\n"),
        _ => answer_later(response, b"memory\n"),
    }
}

impl<'a, L: Origin, H: Wait + Drop, T: Wait> Settle for JobDesk<'a, L, FileJournal, H, T> {
    ghost answers = { AnswersJobs L.workers (shape_of L.schema) };

    ghost settles = { SettlesJobs L.workers (shape_of L.schema) };

    fn call(
        &mut self,
        request: &Request<Bytes>,
        response: &mut Response,
    ) -> Result<(), AllocError> {
        self.take(request, response);
        self.note_answer(response);
        stamp(self.alloc, response, self.date());
        Ok(())
    }

    fn settle(&mut self) -> bool {
        self.settle_round()
    }
}
