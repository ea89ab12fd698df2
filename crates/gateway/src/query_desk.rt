//! Queries of requests, asked at a place of a gathering.

ghost use Rattle.http_server.specs.Response.{IsBlank};
ghost use Rattle.gateway.specs.Inner.Queries.{TellsJson, TellsQueries};

use crate::answering::{
    answer, answer_json, answer_later, answer_page, answer_use_get, answer_use_post, stamp,
    wants_json,
};
use crate::batch_body::queries_of;
use crate::body::BodyFault;
use crate::replica_facts::ReplicaFacts;
use crate::replica_page::REPLICA_PAGE;
use crate::replica_path::{ReplicaPath, replica_path_of};
use crate::replica_reports::{replica_metrics, replica_status, replica_tables};
use bytes::Bytes;
use gathering::{Answer, Gathering};
use http::{Request, StatusCode};
use http_server::{Response, Service};
use reports::json_of;
use std::alloc::{AllocError, Global};
use std::sync::Wait;

/// What answers the requests of a replica's clients in one thread.
#[derive(Drop)]
pub(crate) struct QueryDesk<'a, T: Wait> {
    pub rt: &'a T,
    pub alloc: Global,
    pub gathering: &'a Gathering,
    /// The thread's place there.
    pub place: usize,
    pub facts: &'a ReplicaFacts<'a>,
}

impl<'a, T: Wait> QueryDesk<'a, T> {
    /// Answers a request. It may wait.
    fn take(&self, request: &Request<Bytes>, response: &mut Response)
        requires { IsBlank response.old }
    {
        let method = request.method().as_str();
        let path = replica_path_of(request.uri().path());
        match path {
            ReplicaPath::None => answer(response, StatusCode::NOT_FOUND, b"no such path\n"),
            ReplicaPath::Batches if method == "POST" => self.take_batch(request, response),
            ReplicaPath::Batches => answer_use_post(response),
            _ if method == "GET" || method == "HEAD" => self.tell(path, response),
            _ => answer_use_get(response),
        }
    }

    /// Answers what is told of the replica.
    fn tell(&self, path: ReplicaPath, response: &mut Response)
        requires { IsBlank response.old }
    {
        let told = match path {
            ReplicaPath::Status => replica_status(self.rt, self.alloc, self.facts, self.gathering),
            ReplicaPath::Metrics => {
                replica_metrics(self.rt, self.alloc, self.facts, self.gathering)
            }
            ReplicaPath::Tables => replica_tables(self.rt, self.alloc, self.facts, self.gathering),
            _ => {
                answer_page(response, REPLICA_PAGE);
                return;
            }
        };
        match (told, path) {
            (Ok(text), ReplicaPath::Status) => answer_json(response, &text),
            (Ok(text), _) => answer(response, StatusCode::OK, &text),
            (Err(_), _) => answer_later(response, b"memory\n"),
        }
    }

    /// Asks the queries of a body, and answers their report.
    fn take_batch(&self, request: &Request<Bytes>, response: &mut Response)
        requires { IsBlank response.old }
    {
        let body = request.body().as_slice();
        let queries = match queries_of(self.alloc, self.facts.setup, body) {
            Ok(queries) => queries,
            Err(BodyFault::Unread(text)) => {
                answer(response, StatusCode::BAD_REQUEST, &text);
                return;
            }
            Err(BodyFault::Memory) => {
                answer_later(response, b"memory\n");
                return;
            }
        };
        let told = self.gathering.ask(self.rt, self.place, queries);
        tell_answer(self.alloc, told, wants_json(request), response);
    }
}

/// Answers a request for queries by what it was told: its report as a text or as JSON, or why it has none.
fn tell_answer(alloc: Global, told: Answer, as_json: bool, response: &mut Response)
    requires { IsBlank response.old }
    ensures { TellsQueries told as_json response.new }
{
    match told {
        Answer::Report(report) => {
            if as_json {
                tell_json(alloc, report.as_slice(), response);
            } else {
                answer(response, StatusCode::OK, report.as_slice());
            }
        }
        Answer::Unfit(why) => answer(response, StatusCode::BAD_REQUEST, why.as_bytes()),
        Answer::Late => answer_later(response, b"late\n"),
        Answer::Memory => answer_later(response, b"memory\n"),
        Answer::Broken => {
            answer(response, StatusCode::INTERNAL_SERVER_ERROR, b"broken\n");
        }
    }
}

/// Answers a report as JSON.
fn tell_json(alloc: Global, report: &[u8], response: &mut Response)
    requires { IsBlank response.old }
    ensures { TellsJson report.now response.new }
{
    match json_of(alloc, report) {
        Ok(text) => answer_json(response, &text),
        Err(_) => answer_later(response, b"memory\n"),
    }
}

impl<'a, T: Wait> Service for QueryDesk<'a, T> {
    ghost answers = { λ _ _ _ _. Unit {0} };

    fn call(
        &mut self,
        request: &Request<Bytes>,
        response: &mut Response,
    ) -> Result<(), AllocError> {
        self.take(request, response);
        self.facts.figures.note_status(response.status.as_u16());
        stamp(self.alloc, response, self.facts.figures.date());
        Ok(())
    }
}
