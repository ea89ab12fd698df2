//! The status of a primary, as JSON.

use crate::node_facts::NodeFacts;
use figures::LastTold;
use rows::append_number;
use std::alloc::{AllocError, Global};

/// How many milliseconds a tenth of a second has.
const TENTH_MILLIS: u64 = 100;

/// The status of a primary on which so many commits are durable. Fails only if out of memory.
pub(crate) fn status_text(
    alloc: Global,
    facts: &NodeFacts<'_>,
    durable: u64,
) -> Result<Vec<u8>, AllocError> {
    let figures = facts.figures;
    let jobs = figures.jobs();
    let mut text = Vec::new(alloc);
    text.extend_from_slice(b"{\"node\":\"primary\",\"version\":\"")?;
    text.extend_from_slice(facts.version.as_bytes())?;
    text.extend_from_slice(b"\",\"schema\":\"")?;
    text.extend_from_slice(facts.schema.as_bytes())?;
    push_member(&mut text, b"\",\"durable\":", durable)?;
    push_member(&mut text, b",\"journal_bytes\":", facts.journal_bytes())?;
    push_member(
        &mut text,
        b",\"connections\":",
        figures.connections().max(1),
    )?;
    push_member(&mut text, b",\"jobs\":{\"ticket\":", jobs.ticket)?;
    push_member(&mut text, b",\"conflict\":", jobs.conflict)?;
    push_member(&mut text, b",\"refused\":", jobs.refused)?;
    push_member(&mut text, b"},\"rounds\":", figures.rounds())?;
    text.extend_from_slice(b",\"replicas\":[")?;
    for replica in 0..figures.replicas() {
        let front: &[u8] = if replica == 0 {
            b"{\"replica\":"
        } else {
            b",{\"replica\":"
        };
        push_member(&mut text, front, replica as u64)?;
        if let Some(told) = figures.last_told(replica) {
            push_member(&mut text, b",\"version\":", told.version)?;
            text.extend_from_slice(b",\"seconds\":")?;
            push_seconds(&mut text, &told)?;
        }
        text.push(b'}')?;
    }
    text.extend_from_slice(b"]}\n")?;
    Ok(text)
}

/// Pushes the seconds since a replica was told a version, with tenths, rounded down.
pub(crate) fn push_seconds(text: &mut Vec<u8>, told: &LastTold) -> Result<(), AllocError> {
    let tenths = told.millis / TENTH_MILLIS;
    append_number(text, tenths / 10)?;
    text.push(b'.')?;
    append_number(text, tenths % 10)
}

/// Pushes what stands before a number, and the number.
pub(crate) fn push_member(text: &mut Vec<u8>, front: &[u8], number: u64) -> Result<(), AllocError> {
    text.extend_from_slice(front)?;
    append_number(text, number)
}
