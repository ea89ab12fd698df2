//! The figures of a primary, in the text format of Prometheus.

use crate::node_facts::NodeFacts;
use crate::status_text::push_seconds;
use figures::{Figures, STATUSES};
use rows::append_number;
use std::alloc::{AllocError, Global};

/// The figures of a primary on which so many commits are durable. Fails only if out of memory.
pub(crate) fn metrics_text(
    alloc: Global,
    facts: &NodeFacts<'_>,
    durable: u64,
) -> Result<Vec<u8>, AllocError> {
    let figures = facts.figures;
    let mut text = Vec::new(alloc);
    let name = "batchdb_durable_commits";
    push_head(&mut text, name, "Commits that are durable.", "gauge")?;
    push_line(&mut text, name, durable)?;
    let name = "batchdb_journal_bytes";
    push_head(&mut text, name, "Bytes of the journal.", "gauge")?;
    push_line(&mut text, name, facts.journal_bytes())?;
    push_jobs(&mut text, figures)?;
    let name = "batchdb_rounds_total";
    push_head(
        &mut text,
        name,
        "Rounds of requests over HTTP that had jobs and stand.",
        "counter",
    )?;
    push_line(&mut text, name, figures.rounds())?;
    push_replicas(&mut text, figures)?;
    push_statuses(&mut text, figures)?;
    push_connections(&mut text, figures)?;
    push_datagrams(&mut text, figures)?;
    Ok(text)
}

/// Pushes how many jobs were answered, and how.
fn push_jobs(text: &mut Vec<u8>, figures: &Figures) -> Result<(), AllocError> {
    let name = "batchdb_jobs_total";
    let jobs = figures.jobs();
    push_head(text, name, "Jobs that were answered.", "counter")?;
    push_labelled(text, name, "answer", "ticket", jobs.ticket)?;
    push_labelled(text, name, "answer", "conflict", jobs.conflict)?;
    push_labelled(text, name, "answer", "refused", jobs.refused)
}

/// Pushes what each replica was told last, and how long ago, of those that have asked.
fn push_replicas(text: &mut Vec<u8>, figures: &Figures) -> Result<(), AllocError> {
    let name = "batchdb_replica_version";
    push_head(
        text,
        name,
        "The version that a replica was told last.",
        "gauge",
    )?;
    for replica in 0..figures.replicas() {
        if let Some(told) = figures.last_told(replica) {
            push_replica(text, name, replica)?;
            append_number(text, told.version)?;
            text.push(b'\n')?;
        }
    }
    let name = "batchdb_replica_seconds";
    push_head(text, name, "Seconds since a replica was told it.", "gauge")?;
    for replica in 0..figures.replicas() {
        if let Some(told) = figures.last_told(replica) {
            push_replica(text, name, replica)?;
            push_seconds(text, &told)?;
            text.push(b'\n')?;
        }
    }
    Ok(())
}

/// Pushes how many requests over HTTP were answered with each status.
pub(crate) fn push_statuses(text: &mut Vec<u8>, figures: &Figures) -> Result<(), AllocError> {
    let name = "batchdb_http_requests_total";
    push_head(
        text,
        name,
        "Requests over HTTP that read and were not denied.",
        "counter",
    )?;
    for (index, status) in STATUSES.iter().enumerate() {
        push_front(text, name, "status")?;
        append_number(text, *status)?;
        text.extend_from_slice(b"\"} ")?;
        append_number(text, figures.answered(index))?;
        text.push(b'\n')?;
    }
    Ok(())
}

/// Pushes how many connections there are, and how many found no place.
pub(crate) fn push_connections(text: &mut Vec<u8>, figures: &Figures) -> Result<(), AllocError> {
    let name = "batchdb_http_connections";
    push_head(text, name, "Connections over HTTP.", "gauge")?;
    push_line(text, name, figures.connections().max(1))?;
    let name = "batchdb_http_refused_total";
    push_head(
        text,
        name,
        "Connections over HTTP for which there was no place.",
        "counter",
    )?;
    push_line(text, name, figures.turned_away())
}

/// Pushes how many datagrams went through the node's port.
pub(crate) fn push_datagrams(text: &mut Vec<u8>, figures: &Figures) -> Result<(), AllocError> {
    let name = "batchdb_datagrams_total";
    let datagrams = figures.datagrams();
    push_head(text, name, "Datagrams of the replicas' port.", "counter")?;
    push_labelled(text, name, "direction", "received", datagrams.received)?;
    push_labelled(text, name, "direction", "ignored", datagrams.ignored)?;
    push_labelled(text, name, "direction", "sent", datagrams.sent)?;
    push_labelled(text, name, "direction", "lost", datagrams.lost)
}

/// Pushes what a figure is: what it means, and whether it only rises.
pub(crate) fn push_head(
    text: &mut Vec<u8>,
    name: &str,
    help: &str,
    kind: &str,
) -> Result<(), AllocError> {
    text.extend_from_slice(b"# HELP ")?;
    text.extend_from_slice(name.as_bytes())?;
    text.push(b' ')?;
    text.extend_from_slice(help.as_bytes())?;
    text.extend_from_slice(b"\n# TYPE ")?;
    text.extend_from_slice(name.as_bytes())?;
    text.push(b' ')?;
    text.extend_from_slice(kind.as_bytes())?;
    text.push(b'\n')?;
    Ok(())
}

/// Pushes the line of a figure.
pub(crate) fn push_line(text: &mut Vec<u8>, name: &str, number: u64) -> Result<(), AllocError> {
    text.extend_from_slice(name.as_bytes())?;
    text.push(b' ')?;
    append_number(text, number)?;
    text.push(b'\n')?;
    Ok(())
}

/// Pushes the line of a figure that has a label of this value.
fn push_labelled(
    text: &mut Vec<u8>,
    name: &str,
    label: &str,
    value: &str,
    number: u64,
) -> Result<(), AllocError> {
    push_front(text, name, label)?;
    text.extend_from_slice(value.as_bytes())?;
    text.extend_from_slice(b"\"} ")?;
    append_number(text, number)?;
    text.push(b'\n')?;
    Ok(())
}

/// Pushes what stands in a line before the number of a replica.
fn push_replica(text: &mut Vec<u8>, name: &str, replica: usize) -> Result<(), AllocError> {
    push_front(text, name, "replica")?;
    append_number(text, replica as u64)?;
    text.extend_from_slice(b"\"} ")
}

/// Pushes what stands in a line before the value of a label.
fn push_front(text: &mut Vec<u8>, name: &str, label: &str) -> Result<(), AllocError> {
    text.extend_from_slice(name.as_bytes())?;
    text.push(b'{')?;
    text.extend_from_slice(label.as_bytes())?;
    text.extend_from_slice(b"=\"")
}
