//! The reports of some of the queries of a report.

ghost use Rattle.std.specs.Prelude.{◌≡◌, ℕ, ◌+◌, ◌≤◌, List, ◌++◌, length, take, drop, decimal, map, sum, OnOk, MatchResult};
ghost use Rattle.queries.specs.declared.field.Field.{Field};
ghost use Rattle.queries.specs.Report.{report_text, queries_text};
ghost use Rattle.reports.specs.Parts.{report_parts};
ghost use Rattle.reports.specs.Inner.Pieces.{report_head, query_head};

use crate::faults::PartFault;
use crate::reading::{Query, behind_queries, query_of, report_head};
use rows::append_number;
use std::alloc::{AllocError, Global};

/// The report of `count` of a report's queries, those from the number `from` on, which counts from
/// 0: the same version, and these queries' answers in their order, numbered from 0. What else the
/// report has is only read over. Takes time and memory by the length of the report.
///
/// Fails with `NoReport` if the bytes are seen to be no report of `from + count` queries, and with
/// `Memory`. Bytes are no report if they lack a first line, or a part of these queries and of those
/// before them; the words of their lines and what comes after them are not looked at, and neither is
/// how many queries the first line tells of.
pub fn part_of(
    alloc: Global,
    report: &[u8],
    from: usize,
    count: usize,
) -> Result<Vec<u8>, PartFault>
    ensures { (version : ℕ) (answers : List (List (List Field))) → report.now ≡ report_text version answers
        → from + count ≤ length answers
        → MatchResult result (λ part. part.items ≡ report_text version (take count (drop from answers)))
        (λ fault. fault ≡ PartFault.Memory) }
{
    let Some(head) = report_head(report) else {
        return Err(PartFault::NoReport);
    };
    let Some(queries) = behind_queries(head.rest, from) else {
        return Err(PartFault::NoReport);
    };
    part_at(alloc, head.number, queries, count)
}

/// The reports of a report's queries, shared out: of as many as the first number says, then of as many behind these as the
/// next one says, and so on; each as `part_of` gives it. What the report has behind all these is not looked at. Takes time and
/// memory by the length of the report.
///
/// Fails as `part_of` does.
pub fn parts_of(alloc: Global, report: &[u8], counts: &[usize]) -> Result<Vec<Vec<u8>>, PartFault>
    ensures { (version : ℕ) (answers : List (List (List Field))) → report.now ≡ report_text version answers
        → sum counts.now ≤ length answers
        → MatchResult result (λ parts. map (λ part. part.items) parts.items ≡ report_parts version counts.now answers)
        (λ fault. fault ≡ PartFault.Memory) }
{
    let Some(head) = report_head(report) else {
        return Err(PartFault::NoReport);
    };
    let mut parts = Vec::new(alloc);
    let mut rest = head.rest;
    for index in 0..counts.len() {
        let count = counts[index];
        let Some(more) = behind_queries(rest, count) else {
            return Err(PartFault::NoReport);
        };
        let part = part_at(alloc, head.number, rest, count)?;
        parts.push(part)?;
        rest = more;
    }
    Ok(parts)
}

/// The report of the first queries of a text, at the version of this word.
fn part_at(
    alloc: Global,
    version: &[u8],
    queries: &[u8],
    count: usize,
) -> Result<Vec<u8>, PartFault>
    ensures { (number first : ℕ) (answers : List (List (List Field))) → version.now ≡ decimal number
        → queries.now ≡ queries_text first answers → count ≤ length answers
        → MatchResult result (λ part. part.items ≡ report_text number (take count answers)) (λ fault. fault ≡ PartFault.Memory) }
{
    let mut part = Vec::new(alloc);
    append_head(&mut part, version, count)?;
    append_queries(&mut part, queries, count)?;
    Ok(part)
}

/// Appends the first line of a report of so many queries, at the version of this word.
fn append_head(part: &mut Vec<u8>, version: &[u8], count: usize) -> Result<(), AllocError>
    ensures { OnOk result (part.new.items ≡ part.old.items ++ report_head version.now count) }
{
    part.extend_from_slice(b"version ")?;
    part.extend_from_slice(version)?;
    part.extend_from_slice(b" queries ")?;
    append_number(part, count)?;
    part.push(b'\n')?;
    Ok(())
}

/// Appends the parts of the first queries of a text, numbered from 0.
fn append_queries(part: &mut Vec<u8>, text: &[u8], count: usize) -> Result<(), PartFault>
    ensures { (first : ℕ) (answers : List (List (List Field))) → text.now ≡ queries_text first answers → count ≤ length answers
        → MatchResult result (λ _. part.new.items ≡ part.old.items ++ queries_text 0 (take count answers))
        (λ fault. fault ≡ PartFault.Memory) }
{
    let mut rest = text;
    for index in 0..count {
        let Some(query) = query_of(rest) else {
            return Err(PartFault::NoReport);
        };
        append_query(part, index, &query)?;
        rest = query.rest;
    }
    Ok(())
}

/// Appends the part of a query under another number.
fn append_query(part: &mut Vec<u8>, index: usize, query: &Query<'_>) -> Result<(), AllocError>
    ensures { OnOk result (part.new.items ≡ part.old.items ++ (query_head index query.now.count ++ query.now.lines.now)) }
{
    part.extend_from_slice(b"query ")?;
    append_number(part, index)?;
    part.extend_from_slice(b" rows ")?;
    append_number(part, query.count)?;
    part.push(b'\n')?;
    part.extend_from_slice(query.lines)
}
