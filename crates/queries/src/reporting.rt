//! The text of answers.

ghost use Rattle.std.specs.Prelude.{◌≡◌, ◌++◌, map, IfOk, OnOk};
ghost use Rattle.rows.specs.Text.{line_text};
ghost use Rattle.queries.specs.Report.{report_text, query_text, field_text};

use crate::answer::Answer;
use crate::field::Field;
use rows::{append_number, append_value};
use std::alloc::{AllocError, Global};

/// The text of answers on the tables at this version: a line `version V queries N`; for each answer
/// a line `query I rows R`, I from 0, and its R lines, whose fields are separated by one space.
/// Numbers are decimal, octets `x` and lower-case hexadecimal, and the least and the greatest of no
/// rows are `-`. Each line ends with 0a. Fails only if out of memory.
pub fn report(alloc: Global, version: u64, answers: &[Answer]) -> Result<Vec<u8>, AllocError>
    ensures { IfOk result (λ text. text.items ≡ report_text version answers.now) }
{
    let mut text = Vec::new(alloc);
    text.extend_from_slice(b"version ")?;
    append_number(&mut text, version)?;
    text.extend_from_slice(b" queries ")?;
    append_number(&mut text, answers.len())?;
    text.push(b'\n')?;
    for (index, answer) in answers.iter().enumerate() {
        append_answer(&mut text, index, answer)?;
    }
    Ok(text)
}

/// Appends the part of a query.
fn append_answer(text: &mut Vec<u8>, index: usize, answer: &Answer) -> Result<(), AllocError>
    ensures { OnOk result (text.new.items ≡ text.old.items ++ query_text index answer.now) }
{
    text.extend_from_slice(b"query ")?;
    append_number(text, index)?;
    text.extend_from_slice(b" rows ")?;
    append_number(text, answer.len())?;
    text.push(b'\n')?;
    for line in answer.as_slice() {
        append_line(text, line.as_slice())?;
    }
    Ok(())
}

/// Appends a line of these fields.
fn append_line(text: &mut Vec<u8>, fields: &[Field]) -> Result<(), AllocError>
    ensures { OnOk result (text.new.items ≡ text.old.items ++ line_text (map field_text fields.now)) }
{
    for (index, field) in fields.iter().enumerate() {
        if index != 0 {
            text.push(b' ')?;
        }
        append_field(text, field)?;
    }
    text.push(b'\n')?;
    Ok(())
}

/// Appends a field.
fn append_field(text: &mut Vec<u8>, field: &Field) -> Result<(), AllocError>
    ensures { OnOk result (text.new.items ≡ text.old.items ++ field_text field.now) }
{
    match field {
        Field::Stored(value) => append_value(text, value),
        Field::Number(number) => append_number(text, *number),
        Field::Absent => text.extend_from_slice(b"-"),
    }
}
