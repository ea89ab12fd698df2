//! Bytes of journals, and what is recovered of them.

use journal::JournalFault;
use std::alloc::Global;
use std::test::Fail;

/// The journal of two workers and of accounts, each two numbers, that has one commit: worker 0
/// inserts row 7 with the values 5 and -1.
pub const JOURNAL: [u8; 52] = [
    0x42, 0x44, 0x4a, 0x32, 0x02, 0x01, 0x02, 0x00, 0x00, 0x00, 0x00, 0x00, 0x27, 0x00, 0x00, 0x00,
    0x00, 0x00, 0x00, 0x00, 0x00, 0x01, 0x00, 0x01, 0x01, 0x00, 0x00, 0x00, 0x00, 0x00, 0x00, 0x00,
    0x00, 0x07, 0x00, 0x10, 0x00, 0x00, 0x00, 0x00, 0x00, 0x00, 0x00, 0x05, 0xff, 0xff, 0xff, 0xff,
    0xff, 0xff, 0xff, 0xff,
];

/// How many of these bytes are its header.
pub const HEADER_LEN: usize = 9;

/// Its header.
pub const JOURNAL_HEADER: [u8; 9] = [0x42, 0x44, 0x4a, 0x32, 0x02, 0x01, 0x02, 0x00, 0x00];

/// The record of its commit.
pub const JOURNAL_RECORD: [u8; 43] = [
    0x00, 0x00, 0x00, 0x27, 0x00, 0x00, 0x00, 0x00, 0x00, 0x00, 0x00, 0x00, 0x01, 0x00, 0x01, 0x01,
    0x00, 0x00, 0x00, 0x00, 0x00, 0x00, 0x00, 0x00, 0x07, 0x00, 0x10, 0x00, 0x00, 0x00, 0x00, 0x00,
    0x00, 0x00, 0x05, 0xff, 0xff, 0xff, 0xff, 0xff, 0xff, 0xff, 0xff,
];

/// How many commits and how many bytes are kept, of version 2, or why the bytes are refused.
pub type Outcome = Result<(usize, u64), JournalFault>;

/// The mark behind which a journal of version 1 goes on as version 2.
pub const MARK: [u8; 4] = [0; 4];

/// The record of commit 2: worker 0 deletes row 7 of table 0.
pub const DELETE_7: [u8; 25] = [
    0, 0, 0, 0x15, 0, 0, 0, 0, 0, 0, 0, 0, 2, 0, 1, 3, 0, 0, 0, 0, 0, 0, 0, 0, 7,
];

/// The same of row 8, which is not there.
pub const DELETE_8: [u8; 25] = [
    0, 0, 0, 0x15, 0, 0, 0, 0, 0, 0, 0, 0, 2, 0, 1, 3, 0, 0, 0, 0, 0, 0, 0, 0, 8,
];

/// The same of table 1, which the schema has not.
const DELETE_OF_TABLE_1: [u8; 25] = [
    0, 0, 0, 0x15, 0, 0, 0, 0, 0, 0, 0, 0, 2, 0, 1, 3, 1, 0, 0, 0, 0, 0, 0, 0, 7,
];

/// The delete of row 7 with a byte behind its entry that its length counts.
const DELETE_AND_A_BYTE: [u8; 26] = [
    0, 0, 0, 0x16, 0, 0, 0, 0, 0, 0, 0, 0, 2, 0, 1, 3, 0, 0, 0, 0, 0, 0, 0, 0, 7, 0,
];

/// A record of no entries.
const NO_ENTRIES: [u8; 15] = [0, 0, 0, 0x0b, 0, 0, 0, 0, 0, 0, 0, 0, 1, 0, 0];

/// The record of commit 2: worker 0 adds a column of one byte to table 0. It is the shortest.
pub const ADD_BYTE: [u8; 19] = [
    0, 0, 0, 0x0f, 0, 0, 0, 0, 0, 0, 0, 0, 2, 0, 1, 4, 0, 1, 0x61,
];

/// The same as commit 1.
pub const ADD_BYTE_FIRST: [u8; 19] = [
    0, 0, 0, 0x0f, 0, 0, 0, 0, 0, 0, 0, 0, 1, 0, 1, 4, 0, 1, 0x61,
];

/// The same for table 1, which the schema has not.
const ADD_BYTE_TO_TABLE_1: [u8; 19] = [
    0, 0, 0, 0x0f, 0, 0, 0, 0, 0, 0, 0, 0, 2, 0, 1, 4, 1, 1, 0x61,
];

/// The same for table 16, which no schema has.
const ADD_BYTE_TO_TABLE_16: [u8; 19] = [
    0, 0, 0, 0x0f, 0, 0, 0, 0, 0, 0, 0, 0, 2, 0, 1, 4, 16, 1, 0x61,
];

/// A column of two bytes, of which one is there.
const ADD_TWO_BYTES_CUT: [u8; 19] = [
    0, 0, 0, 0x0f, 0, 0, 0, 0, 0, 0, 0, 0, 2, 0, 1, 4, 0, 2, 0x61,
];

/// A column of a number, of which one byte is there.
const ADD_NUMBER_CUT: [u8; 19] = [
    0, 0, 0, 0x0f, 0, 0, 0, 0, 0, 0, 0, 0, 2, 0, 1, 4, 0, 0, 0x61,
];

/// No entry, in as many bytes as the shortest takes.
const ADD_BYTE_UNCOUNTED: [u8; 19] = [
    0, 0, 0, 0x0f, 0, 0, 0, 0, 0, 0, 0, 0, 2, 0, 0, 4, 0, 1, 0x61,
];

/// A column of two bytes without either, in bytes that are fewer than a record has.
const ADD_NO_BYTES: [u8; 18] = [0, 0, 0, 0x0e, 0, 0, 0, 0, 0, 0, 0, 0, 2, 0, 1, 4, 0, 2];

/// Commit 2 adds the column, and commit 3 puts one byte into it in row 7.
const ADD_BYTE_AND_SET: [u8; 49] = [
    0, 0, 0, 0x0f, 0, 0, 0, 0, 0, 0, 0, 0, 2, 0, 1, 4, 0, 1, 0x61, // commit 2
    0, 0, 0, 0x1a, 0, 0, 0, 0, 0, 0, 0, 0, 3, 0, 1, // commit 3
    2, 0, 0, 0, 0, 0, 0, 0, 0, 7, 0, 16, 0, 1, 0x62,
];

/// The same in one commit.
pub const ADD_BYTE_AND_SET_AT_ONCE: [u8; 34] = [
    0, 0, 0, 0x1e, 0, 0, 0, 0, 0, 0, 0, 0, 2, 0, 2, 4, 0, 1, 0x61, // the column
    2, 0, 0, 0, 0, 0, 0, 0, 0, 7, 0, 16, 0, 1, 0x62,
];

/// And the other way round.
const SET_AND_ADD_BYTE: [u8; 34] = [
    0, 0, 0, 0x1e, 0, 0, 0, 0, 0, 0, 0, 0, 2, 0, 2, // the front
    2, 0, 0, 0, 0, 0, 0, 0, 0, 7, 0, 16, 0, 1, 0x62, // the byte
    4, 0, 1, 0x61,
];

/// Commit 2 adds the column, and commit 3 inserts row 8 with a value for it.
const ADD_BYTE_AND_INSERT: [u8; 63] = [
    0, 0, 0, 0x0f, 0, 0, 0, 0, 0, 0, 0, 0, 2, 0, 1, 4, 0, 1, 0x61, // commit 2
    0, 0, 0, 0x28, 0, 0, 0, 0, 0, 0, 0, 0, 3, 0, 1, // commit 3
    1, 0, 0, 0, 0, 0, 0, 0, 0, 8, 0, 17, // row 8
    0, 0, 0, 0, 0, 0, 0, 5, 0, 0, 0, 0, 0, 0, 0, 6, 0x62,
];

/// The same without one.
const ADD_BYTE_AND_INSERT_OLD: [u8; 62] = [
    0, 0, 0, 0x0f, 0, 0, 0, 0, 0, 0, 0, 0, 2, 0, 1, 4, 0, 1, 0x61, // commit 2
    0, 0, 0, 0x27, 0, 0, 0, 0, 0, 0, 0, 0, 3, 0, 1, // commit 3
    1, 0, 0, 0, 0, 0, 0, 0, 0, 8, 0, 16, // row 8
    0, 0, 0, 0, 0, 0, 0, 5, 0, 0, 0, 0, 0, 0, 0, 6,
];

/// Bytes: so many of the journal's, with others at these offsets, and then these.
pub type Bytes = (usize, &'static [(usize, u8)], &'static [u8]);

/// The same, and what is recovered of them.
pub type Case = (usize, &'static [(usize, u8)], &'static [u8], Outcome);

/// Bytes of all kinds that `recover` tells apart, of version 2.
pub static CASES: [Case; 50] = [
    (52, &[], &[], Ok((1, 52))),
    // What a stop leaves of the record, and of the header.
    (51, &[], &[], Ok((0, 9))),
    (9, &[], &[], Ok((0, 9))),
    (8, &[], &[], Ok((0, 0))),
    (3, &[], &[], Ok((0, 0))),
    (0, &[], &[], Ok((0, 0))),
    // Other versions, and another number of workers.
    (4, &[(3, 0x33)], &[], Err(JournalFault::OtherHeader)),
    (52, &[(3, 0x33)], &[], Err(JournalFault::OtherHeader)),
    (52, &[(3, 0x30)], &[], Err(JournalFault::OtherHeader)),
    (52, &[(4, 1)], &[], Err(JournalFault::OtherHeader)),
    (0, &[], &[0], Err(JournalFault::OtherHeader)),
    // The commit number 2, the worker 2, the operations 05 and 00; the first of them that is looked for.
    (52, &[(21, 2)], &[], Err(JournalFault::OutOfOrder(9))),
    (52, &[(21, 0)], &[], Err(JournalFault::OutOfOrder(9))),
    (52, &[(13, 2)], &[], Err(JournalFault::Illegal(9))),
    (52, &[(24, 5)], &[], Err(JournalFault::Damaged(9))),
    (52, &[(24, 0)], &[], Err(JournalFault::Damaged(9))),
    (52, &[(21, 2), (24, 5)], &[], Err(JournalFault::Damaged(9))),
    (
        52,
        &[(13, 2), (21, 2)],
        &[],
        Err(JournalFault::OutOfOrder(9)),
    ),
    // Lengths that no record has, and lengths that one has.
    (
        9,
        &[],
        &[0xff, 0xff, 0xff, 0xff],
        Err(JournalFault::Damaged(9)),
    ),
    (9, &[], &MARK, Err(JournalFault::Damaged(9))),
    (52, &[], &MARK, Err(JournalFault::Damaged(52))),
    (9, &[], &[0, 0, 0, 0x0e], Err(JournalFault::Damaged(9))),
    (9, &[], &[0, 0, 0, 0x0f], Ok((0, 9))),
    (9, &[], &[0, 0, 0, 0x14], Ok((0, 9))),
    (9, &[], &[0x00, 0x20, 0xc0, 0x0b], Ok((0, 9))),
    (
        9,
        &[],
        &[0x00, 0x20, 0xc0, 0x0c],
        Err(JournalFault::Damaged(9)),
    ),
    (9, &[], &NO_ENTRIES, Err(JournalFault::Damaged(9))),
    // No entry, and one too many, in bytes of one.
    (52, &[(23, 0)], &[], Err(JournalFault::Damaged(9))),
    (52, &[(23, 2)], &[], Err(JournalFault::Damaged(9))),
    // A second record.
    (52, &[], &DELETE_7, Ok((2, 77))),
    (52, &[], &[0], Ok((1, 52))),
    (52, &[], &DELETE_AND_A_BYTE, Err(JournalFault::Damaged(52))),
    (52, &[], &DELETE_8, Err(JournalFault::Illegal(52))),
    (52, &[], &DELETE_OF_TABLE_1, Err(JournalFault::Illegal(52))),
    (52, &[(12, 0x28)], &DELETE_7, Err(JournalFault::Damaged(9))),
    // An added column; the operation 04 in place of an insert, whose bytes are then too many.
    (9, &[], &ADD_BYTE_FIRST, Ok((1, 28))),
    (52, &[], &ADD_BYTE, Ok((2, 71))),
    (52, &[(24, 4)], &[], Err(JournalFault::Damaged(9))),
    (52, &[], &ADD_TWO_BYTES_CUT, Err(JournalFault::Damaged(52))),
    (52, &[], &ADD_NUMBER_CUT, Err(JournalFault::Damaged(52))),
    (52, &[], &ADD_BYTE_UNCOUNTED, Err(JournalFault::Damaged(52))),
    (52, &[], &ADD_NO_BYTES, Err(JournalFault::Damaged(52))),
    (
        52,
        &[],
        &ADD_BYTE_TO_TABLE_16,
        Err(JournalFault::Damaged(52)),
    ),
    (
        52,
        &[],
        &ADD_BYTE_TO_TABLE_1,
        Err(JournalFault::Illegal(52)),
    ),
    (52, &[], &ADD_BYTE_FIRST, Err(JournalFault::OutOfOrder(52))),
    // What is behind an added column has it, and what is before it has it not.
    (52, &[], &ADD_BYTE_AND_SET, Ok((3, 101))),
    (52, &[], &ADD_BYTE_AND_SET_AT_ONCE, Ok((2, 86))),
    (52, &[], &SET_AND_ADD_BYTE, Err(JournalFault::Illegal(52))),
    (52, &[], &ADD_BYTE_AND_INSERT, Ok((3, 115))),
    (
        52,
        &[],
        &ADD_BYTE_AND_INSERT_OLD,
        Err(JournalFault::Illegal(71)),
    ),
];

/// The first of these bytes, so many; all, where there are fewer.
pub fn front(bytes: &[u8], len: usize) -> &[u8] {
    bytes.split_at(len.min(bytes.len())).0
}

/// Puts other bytes at these offsets, where there are such.
fn change(bytes: &mut [u8], changes: &[(usize, u8)]) {
    for (index, byte) in changes {
        if *index < bytes.len() {
            bytes[*index] = *byte;
        }
    }
}

/// These bytes.
pub fn bytes_of(alloc: Global, bytes: &Bytes) -> Result<Vec<u8>, Fail> {
    let (len, changes, behind) = bytes;
    let mut bytes = Vec::from_slice(alloc, front(&JOURNAL, *len))?;
    change(&mut bytes, changes);
    bytes.extend_from_slice(behind)?;
    Ok(bytes)
}
