//! The report that `queries` writes of answers is the one that the other tests split.

use crate::parts::REPORT;
use queries::{Answer, Field, FieldList, report};
use rows::{Octets, Value};
use std::alloc::{AllocError, Global};
use std::test::Fail;

/// The line of a group: its two bytes, a count, the least value and the greatest one.
fn group(alloc: Global, bytes: [u8; 2], numbers: [i128; 3]) -> Result<FieldList, AllocError> {
    let Some(octets) = Octets::from_slice(&bytes) else {
        return Err(AllocError);
    };
    let [count, least, greatest] = numbers;
    let fields = [
        Field::Stored(Value::Octets(octets)),
        Field::Number(count),
        Field::Number(least),
        Field::Number(greatest),
    ];
    Ok(FieldList::from_vec(Vec::from_slice(alloc, &fields)?))
}

/// The answer of the first query.
fn groups(alloc: Global) -> Result<Answer, AllocError> {
    let mut lines = Vec::new(alloc);
    lines.push(group(alloc, *b"NE", [2, -70, 100])?)?;
    lines.push(group(alloc, *b"SW", [1, 50, 50])?)?;
    Ok(Answer::from_vec(lines))
}

/// The answer of the last one.
fn no_rows(alloc: Global) -> Result<Answer, AllocError> {
    let fields = Vec::from_slice(alloc, &[Field::Number(0), Field::Absent])?;
    let mut lines = Vec::new(alloc);
    lines.push(FieldList::from_vec(fields))?;
    Ok(Answer::from_vec(lines))
}

/// The report of the three answers, at version 7.
fn reported(alloc: Global) -> Result<Vec<u8>, AllocError> {
    let answers = [
        groups(alloc)?,
        Answer::from_vec(Vec::new(alloc)),
        no_rows(alloc)?,
    ];
    report(alloc, 7, &answers)
}

#[test]
fn answers_are_reported_so(rt: HostRuntime) -> Result<(), Fail> {
    let text = reported(rt.alloc())?;
    assert!(rt; text.as_slice() == REPORT);
    Ok(())
}
