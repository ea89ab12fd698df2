//! A report as JSON.

ghost use Rattle.std.specs.Prelude.{◌≡◌, ℕ, List, ◌++◌, length, map, OnOk, MatchResult};
ghost use Rattle.std.specs.List.{flat_map, join_with_byte};
ghost use Rattle.rows.specs.Text.{words_text};
ghost use Rattle.queries.specs.declared.field.Field.{Field};
ghost use Rattle.queries.specs.Report.{report_text, queries_text, field_text};
ghost use Rattle.reports.specs.Json.{line_json, answer_json, json_text};
ghost use Rattle.reports.specs.Inner.Pieces.{lines_text, comma_before, byte_json};

use crate::faults::PartFault;
use crate::reading::{Query, cut, query_of, report_head};
use std::alloc::{AllocError, Global};

/// A report as JSON, in one line with its end: `{"version":V,"queries":[Q,..]}`, V a number, each Q
/// `{"rows":[L,..]}` with the lines of a query's answer, in the order of the queries, and each L the
/// array of the words of its line, as strings. Takes time and memory by the length of the report.
///
/// Fails with `NoReport` if the bytes are seen to be no report, and with `Memory`. Bytes are no
/// report if they lack the first line, or a part of as many queries as it tells of, or if more comes
/// after them; which words their lines have is not looked at.
pub fn json_of(alloc: Global, report: &[u8]) -> Result<Vec<u8>, PartFault>
    ensures { (version : ℕ) (answers : List (List (List Field))) → report.now ≡ report_text version answers
        → MatchResult result (λ json. json.items ≡ json_text version answers) (λ fault. fault ≡ PartFault.Memory) }
{
    let Some(head) = report_head(report) else {
        return Err(PartFault::NoReport);
    };
    let mut json = Vec::new(alloc);
    json.extend_from_slice(b"{\"version\":")?;
    json.extend_from_slice(head.number)?;
    json.extend_from_slice(b",\"queries\":[")?;
    append_answers(&mut json, head.rest, head.count)?;
    json.extend_from_slice(b"]}\n")?;
    Ok(json)
}

/// Appends the answers of so many queries, with commas between them.
fn append_answers(json: &mut Vec<u8>, text: &[u8], count: u64) -> Result<(), PartFault>
    ensures { (first : ℕ) (answers : List (List (List Field))) → text.now ≡ queries_text first answers → length answers ≡ count
        → MatchResult result (λ _. json.new.items ≡ json.old.items ++ join_with_byte 44 (map answer_json answers))
        (λ fault. fault ≡ PartFault.Memory) }
{
    let mut rest = text;
    for index in 0..count {
        let Some(query) = query_of(rest) else {
            return Err(PartFault::NoReport);
        };
        append_comma(json, index)?;
        append_answer(json, &query)?;
        rest = query.rest;
    }
    if !rest.is_empty() {
        return Err(PartFault::NoReport);
    }
    Ok(())
}

/// Appends the answer of a query.
fn append_answer(json: &mut Vec<u8>, query: &Query<'_>) -> Result<(), PartFault>
    ensures { (lines : List (List Field)) → length lines ≡ query.now.count → query.now.lines.now ≡ lines_text lines
        → MatchResult result (λ _. json.new.items ≡ json.old.items ++ answer_json lines) (λ fault. fault ≡ PartFault.Memory) }
{
    json.extend_from_slice(b"{\"rows\":[")?;
    append_lines(json, query.lines, query.count)?;
    json.extend_from_slice(b"]}")?;
    Ok(())
}

/// Appends so many lines, with commas between them.
fn append_lines(json: &mut Vec<u8>, text: &[u8], count: u64) -> Result<(), PartFault>
    ensures { (lines : List (List Field)) → length lines ≡ count → text.now ≡ lines_text lines
        → MatchResult result (λ _. json.new.items ≡ json.old.items ++ join_with_byte 44 (map line_json lines))
        (λ fault. fault ≡ PartFault.Memory) }
{
    let mut rest = text;
    for index in 0..count {
        let Some((line, more)) = cut(rest, b'\n') else {
            return Err(PartFault::NoReport);
        };
        append_comma(json, index)?;
        append_line(json, line)?;
        rest = more;
    }
    Ok(())
}

/// Appends what comes before a value of this index.
fn append_comma(json: &mut Vec<u8>, index: u64) -> Result<(), AllocError>
    ensures { OnOk result (json.new.items ≡ json.old.items ++ comma_before index) }
{
    if index != 0 {
        json.push(b',')?;
    }
    Ok(())
}

/// Appends a line.
fn append_line(json: &mut Vec<u8>, line: &[u8]) -> Result<(), AllocError>
    ensures { (fields : List Field) → line.now ≡ words_text (map field_text fields)
        → OnOk result (json.new.items ≡ json.old.items ++ line_json fields) }
{
    if line.is_empty() {
        json.extend_from_slice(b"[]")?;
        return Ok(());
    }
    json.extend_from_slice(b"[\"")?;
    append_words(json, line)?;
    json.extend_from_slice(b"\"]")?;
    Ok(())
}

/// Appends the words of a line, each but the first behind the end of one string and the beginning of
/// the next.
fn append_words(json: &mut Vec<u8>, line: &[u8]) -> Result<(), AllocError>
    ensures { OnOk result (json.new.items ≡ json.old.items ++ flat_map byte_json line.now) }
{
    for byte in line {
        if *byte == b' ' {
            json.extend_from_slice(b"\",\"")?;
        } else {
            json.push(*byte)?;
        }
    }
    Ok(())
}
