//! What a replica tells of itself.

use crate::metrics_text::{push_connections, push_datagrams, push_head, push_line, push_statuses};
use crate::replica_facts::ReplicaFacts;
use crate::status_text::push_member;
use gathering::{Gathering, Tables};
use rows::limits::TABLES_MAX;
use rows::{Kind, Schema, append_number};
use std::alloc::{AllocError, Global};
use std::sync::Wait;

/// The status of a replica, as JSON. Fails only if out of memory.
pub(crate) fn replica_status<T: Wait>(
    rt: &T,
    alloc: Global,
    facts: &ReplicaFacts<'_>,
    gathering: &Gathering,
) -> Result<Vec<u8>, AllocError> {
    let figures = facts.figures;
    let mut text = Vec::new(alloc);
    text.extend_from_slice(b"{\"node\":\"replica\",\"version\":\"")?;
    text.extend_from_slice(facts.version.as_bytes())?;
    text.extend_from_slice(b"\",\"schema\":\"")?;
    text.extend_from_slice(facts.schema.as_bytes())?;
    push_member(&mut text, b"\",\"replica\":", facts.number as u64)?;
    // (a string, since numbers of JSON readers end at 2^53)
    push_member(&mut text, b",\"boot\":\"", facts.boot)?;
    push_member(&mut text, b"\",\"applied\":", figures.applied())?;
    push_member(&mut text, b",\"batches\":", figures.batches())?;
    push_member(&mut text, b",\"queries\":", figures.queries())?;
    push_member(
        &mut text,
        b",\"connections\":",
        figures.connections().max(1),
    )?;
    push_member(&mut text, b",\"waiting\":", gathering.len(rt) as u64)?;
    let broken: &[u8] = if gathering.is_broken(rt) {
        b",\"broken\":true}\n"
    } else {
        b",\"broken\":false}\n"
    };
    text.extend_from_slice(broken)?;
    Ok(text)
}

/// The figures of a replica, in Prometheus' text format. Fails only if out of memory.
pub(crate) fn replica_metrics<T: Wait>(
    rt: &T,
    alloc: Global,
    facts: &ReplicaFacts<'_>,
    gathering: &Gathering,
) -> Result<Vec<u8>, AllocError> {
    let figures = facts.figures;
    let mut text = Vec::new(alloc);
    let name = "batchdb_applied_commits";
    push_head(
        &mut text,
        name,
        "The version of the newest report.",
        "gauge",
    )?;
    push_line(&mut text, name, figures.applied())?;
    let name = "batchdb_batches_total";
    push_head(&mut text, name, "Batches that were answered.", "counter")?;
    push_line(&mut text, name, figures.batches())?;
    let name = "batchdb_queries_total";
    push_head(&mut text, name, "Queries of these batches.", "counter")?;
    push_line(&mut text, name, figures.queries())?;
    let name = "batchdb_waiting_requests";
    push_head(
        &mut text,
        name,
        "Requests that wait for the next batch.",
        "gauge",
    )?;
    push_line(&mut text, name, gathering.len(rt) as u64)?;
    push_statuses(&mut text, figures)?;
    push_connections(&mut text, figures)?;
    push_datagrams(&mut text, figures)?;
    Ok(text)
}

/// The tables of a replica at the version of its newest report, or, before the first, as they are opened. Fails only if out of memory.
pub(crate) fn replica_tables<T: Wait>(
    rt: &T,
    alloc: Global,
    facts: &ReplicaFacts<'_>,
    gathering: &Gathering,
) -> Result<Vec<u8>, AllocError> {
    match gathering.tables(rt)? {
        Some(Tables { version, schema }) => tables_text(alloc, version, &schema),
        None => tables_text(alloc, 0, &facts.setup.schema),
    }
}

/// A version, and each table in a line as in the schema file. Fails only if out of memory.
fn tables_text(alloc: Global, version: u64, schema: &Schema) -> Result<Vec<u8>, AllocError> {
    let mut text = Vec::new(alloc);
    text.extend_from_slice(b"version ")?;
    append_number(&mut text, version)?;
    text.push(b'\n')?;
    for table in 0..TABLES_MAX {
        let (Some(name), Some(kinds)) = (schema.name(table), schema.kinds(table)) else {
            break;
        };
        text.extend_from_slice(b"table ")?;
        text.extend_from_slice(name.as_bytes())?;
        for kind in kinds {
            match kind {
                Kind::Int => text.extend_from_slice(b" int")?,
                Kind::Octets(width) => {
                    text.extend_from_slice(b" bytes")?;
                    append_number(&mut text, *width as u64)?;
                }
            }
        }
        text.push(b'\n')?;
    }
    Ok(text)
}
