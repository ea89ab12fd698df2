//! What a primary tells of itself.

ghost use Rattle.http_server.specs.Response.{IsBlank};

use crate::answering::{answer, answer_json, answer_later, answer_use_get};
use crate::metrics_text::metrics_text;
use crate::node_facts::NodeFacts;
use crate::status_text::status_text;
use http::StatusCode;
use http_server::Response;
use shared::{Origin, Seat};
use sockets::begun;
use std::alloc::Global;

/// What is told of a node.
#[derive(Clone, Copy)]
pub(crate) enum Report {
    Status,
    Metrics,
}

/// Which report a path names, if it names one.
pub(crate) fn report_of(path: &str) -> Option<Report> {
    if path == "/status" {
        Some(Report::Status)
    } else if path == "/metrics" {
        Some(Report::Metrics)
    } else {
        None
    }
}

/// Answers a request for a report, if its method is one that reads.
pub(crate) fn tell_report<L: Origin>(
    alloc: Global,
    seat: &mut Seat<L>,
    facts: &NodeFacts<'_>,
    report: Report,
    method: &str,
    response: &mut Response,
)
    requires { IsBlank response.old }
{
    if method != "GET" && method != "HEAD" {
        answer_use_get(response);
        return;
    }
    let durable = durable_at(alloc, seat);
    let text = match report {
        Report::Status => status_text(alloc, facts, durable),
        Report::Metrics => metrics_text(alloc, facts, durable),
    };
    match (text, report) {
        (Ok(text), Report::Status) => answer_json(response, &text),
        (Ok(text), Report::Metrics) => answer(response, StatusCode::OK, &text),
        (Err(_), _) => answer_later(response, b"memory\n"),
    }
}

/// How many commits are durable: as many as are published, or, if that cannot be read, as were known before.
fn durable_at<L: Origin>(alloc: Global, seat: &mut Seat<L>) -> u64 {
    let _ = begun(alloc, seat);
    seat.len()
}
