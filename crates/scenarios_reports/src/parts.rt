//! A report of three queries, its parts and its JSON, and bytes that are no report.

use reports::{PartFault, json_of, part_of};
use std::alloc::Global;
use std::test::Fail;

/// A query of two groups, one without any, and one of no rows.
pub const REPORT: &[u8] =
    b"version 7 queries 3\nquery 0 rows 2\nx4e45 2 -70 100\nx5357 1 50 50\nquery 1 rows 0\n\
query 2 rows 1\n0 -\n";

/// Queries of it: the first, how many, and their report.
const PARTS: [(usize, usize, &[u8]); 7] = [
    (0, 3, REPORT),
    (
        0,
        1,
        b"version 7 queries 1\nquery 0 rows 2\nx4e45 2 -70 100\nx5357 1 50 50\n",
    ),
    (1, 1, b"version 7 queries 1\nquery 0 rows 0\n"),
    (
        1,
        2,
        b"version 7 queries 2\nquery 0 rows 0\nquery 1 rows 1\n0 -\n",
    ),
    (2, 1, b"version 7 queries 1\nquery 0 rows 1\n0 -\n"),
    (0, 0, b"version 7 queries 0\n"),
    (3, 0, b"version 7 queries 0\n"),
];

/// Reports, and their JSON.
const JSON: [(&[u8], &[u8]); 4] = [
    (
        REPORT,
        b"{\"version\":7,\"queries\":[{\"rows\":[[\"x4e45\",\"2\",\"-70\",\"100\"],[\"x5357\",\"1\",\"50\",\"50\"]]},\
{\"rows\":[]},{\"rows\":[[\"0\",\"-\"]]}]}\n",
    ),
    (
        b"version 18446744073709551615 queries 0\n",
        b"{\"version\":18446744073709551615,\"queries\":[]}\n",
    ),
    (
        b"version 0 queries 1\nquery 0 rows 2\n\n\n",
        b"{\"version\":0,\"queries\":[{\"rows\":[[],[]]}]}\n",
    ),
    (
        b"version 0 queries 1\nquery 0 rows 1\n5\n",
        b"{\"version\":0,\"queries\":[{\"rows\":[[\"5\"]]}]}\n",
    ),
];

/// Bytes that are no report, and have no part of one query.
const NONE: [&[u8]; 9] = [
    b"",
    b"versions 7 queries 1\nquery 0 rows 0\n",
    b"version 7 queries one\nquery 0 rows 0\n",
    b"version 7 queries 1",
    b"version 7 queries 1\n",
    b"version 7 queries 1\nquery 0 rows\n",
    b"version 7 queries 1\nquery 0 rows 2\n1\n",
    b"version 7 queries 1\nquery 0 rows 1\n1",
    b"version 7 queries 1\nquery 0 rows 18446744073709551616\n",
];

/// Whether these queries' report is this one.
fn is_part(alloc: Global, from: usize, count: usize, wanted: &[u8]) -> Result<bool, PartFault> {
    let part = part_of(alloc, REPORT, from, count)?;
    Ok(part.as_slice() == wanted)
}

/// The first part that is another one.
fn other_part(alloc: Global) -> Result<Option<usize>, PartFault> {
    for (index, (from, count, wanted)) in PARTS.iter().enumerate() {
        if !is_part(alloc, *from, *count, wanted)? {
            return Ok(Some(index));
        }
    }
    Ok(None)
}

/// Whether a report's JSON is this one.
fn is_json(alloc: Global, report: &[u8], wanted: &[u8]) -> Result<bool, PartFault> {
    let json = json_of(alloc, report)?;
    Ok(json.as_slice() == wanted)
}

/// The first report whose JSON is another one.
fn other_json(alloc: Global) -> Result<Option<usize>, PartFault> {
    for (index, (report, wanted)) in JSON.iter().enumerate() {
        if !is_json(alloc, report, wanted)? {
            return Ok(Some(index));
        }
    }
    Ok(None)
}

/// Why there is no part of one query.
fn fault_of_part(alloc: Global, bytes: &[u8]) -> Option<PartFault> {
    part_of(alloc, bytes, 0, 1).err()
}

/// Why there is no JSON.
fn fault_of_json(alloc: Global, bytes: &[u8]) -> Option<PartFault> {
    json_of(alloc, bytes).err()
}

/// The first bytes of which something was made, or that failed otherwise.
fn first_taken(alloc: Global) -> Option<usize> {
    for (index, bytes) in NONE.iter().enumerate() {
        if fault_of_part(alloc, bytes) != Some(PartFault::NoReport)
            || fault_of_json(alloc, bytes) != Some(PartFault::NoReport)
        {
            return Some(index);
        }
    }
    None
}

#[test]
fn each_part_is_a_report_of_its_own(rt: HostRuntime) -> Result<(), Fail> {
    assert_eq!(rt; other_part(rt.alloc())?, None);
    Ok(())
}

#[test]
fn reports_are_json(rt: HostRuntime) -> Result<(), Fail> {
    assert_eq!(rt; other_json(rt.alloc())?, None);
    Ok(())
}

#[test]
fn other_bytes_are_no_report(rt: HostRuntime) {
    let alloc = rt.alloc();
    assert_eq!(rt; first_taken(alloc), None);
    // More queries than there are, and more bytes than a report.
    assert_eq!(rt;
        part_of(alloc, REPORT, 2, 2).err(),
        Some(PartFault::NoReport)
    );
    assert_eq!(rt;
        part_of(alloc, REPORT, 4, 0).err(),
        Some(PartFault::NoReport)
    );
    assert_eq!(rt;
        fault_of_json(alloc, b"version 7 queries 0\nquery 0 rows 0\n"),
        Some(PartFault::NoReport)
    );
}

/// Whether a call that was refused memory gives what it gives otherwise, if it is made again.
fn is_given_again(alloc: Global) -> Result<bool, PartFault> {
    let is_part = match is_part(alloc, 0, 3, REPORT) {
        Err(PartFault::Memory) => is_part(alloc, 0, 3, REPORT)?,
        answer => answer?,
    };
    let [(report, wanted), ..] = JSON;
    let is_json = match is_json(alloc, report, wanted) {
        Err(PartFault::Memory) => is_json(alloc, report, wanted)?,
        answer => answer?,
    };
    Ok(is_part && is_json)
}

#[test]
fn reports_without_memory_are_given_when_asked_again(rt: HostRuntime) -> Result<(), Fail> {
    assert!(rt; is_given_again(rt.alloc())?);
    Ok(())
}
