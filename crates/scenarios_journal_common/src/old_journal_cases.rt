//! Bytes of journals of version 1, without the mark and with it, and what is recovered of them.

use crate::journal_cases::{
    ADD_BYTE, ADD_BYTE_AND_SET_AT_ONCE, ADD_BYTE_FIRST, DELETE_7, DELETE_8, MARK,
};
use journal::{Form, JournalFault};

/// How many commits and how many bytes are kept, and the form of the text, or why the bytes are
/// refused.
pub type Formed = Result<(usize, u64, Form), JournalFault>;

/// The record of commit 1: worker 0 adds a column of numbers to table 0, which is 3 in each row.
const ADD_NUMBER: [u8; 26] = [
    0, 0, 0, 0x16, 0, 0, 0, 0, 0, 0, 0, 0, 1, 0, 1, 4, 0, 0, 0, 0, 0, 0, 0, 0, 0, 3,
];

/// The mark, and that record.
const MARK_AND_NUMBER: [u8; 30] = [
    0, 0, 0, 0, // the mark
    0, 0, 0, 0x16, 0, 0, 0, 0, 0, 0, 0, 0, 1, 0, 1, 4, 0, 0, 0, 0, 0, 0, 0, 0, 0, 3,
];

/// The mark, and the record of a column of one byte as commit 2.
const MARK_AND_BYTE: [u8; 23] = [
    0, 0, 0, 0, // the mark
    0, 0, 0, 0x0f, 0, 0, 0, 0, 0, 0, 0, 0, 2, 0, 1, 4, 0, 1, 0x61,
];

/// A column of six bytes as commit 2, whose record has the length 20; and one of seven.
const ADD_SIX: [u8; 24] = [
    0, 0, 0, 0x14, 0, 0, 0, 0, 0, 0, 0, 0, 2, 0, 1, 4, 0, 6, 0x61, 0x61, 0x61, 0x61, 0x61, 0x61,
];

const ADD_SEVEN: [u8; 25] = [
    0, 0, 0, 0x15, 0, 0, 0, 0, 0, 0, 0, 0, 2, 0, 1, 4, 0, 7, 0x61, 0x61, 0x61, 0x61, 0x61, 0x61,
    0x61,
];

/// Commit 1 inserts row 7, and adds a column of one byte behind that.
const INSERT_AND_BYTE: [u8; 47] = [
    0, 0, 0, 0x2b, 0, 0, 0, 0, 0, 0, 0, 0, 1, 0, 2, // the front
    1, 0, 0, 0, 0, 0, 0, 0, 0, 7, 0, 16, // row 7
    0, 0, 0, 0, 0, 0, 0, 5, 0, 0, 0, 0, 0, 0, 0, 6, // its data
    4, 0, 1, 0x61,
];

/// The mark and the delete of row 7; the delete and the mark; the mark twice.
pub const MARK_AND_DELETE: [u8; 29] = [
    0, 0, 0, 0, // the mark
    0, 0, 0, 0x15, 0, 0, 0, 0, 0, 0, 0, 0, 2, 0, 1, 3, 0, 0, 0, 0, 0, 0, 0, 0, 7,
];

const DELETE_AND_MARK: [u8; 29] = [
    0, 0, 0, 0x15, 0, 0, 0, 0, 0, 0, 0, 0, 2, 0, 1, 3, 0, 0, 0, 0, 0, 0, 0, 0, 7, 0, 0, 0, 0,
];

const TWO_MARKS: [u8; 8] = [0; 8];

/// The change that makes the journal one of version 1.
pub const OLD: [(usize, u8); 1] = [(3, 0x31)];

/// Bytes, and what is recovered of them, with the form of the text.
pub type OldCase = (usize, &'static [(usize, u8)], &'static [u8], Formed);

/// Bytes of journals of version 1, without the mark and with it.
pub static OLD_CASES: [OldCase; 44] = [
    (52, &OLD, &[], Ok((1, 52, Form::Old))),
    (52, &OLD, &MARK, Ok((1, 56, Form::Marked(1)))),
    // What a stop leaves of the mark, of the record, and of the header.
    (52, &OLD, &[0, 0, 0], Ok((1, 52, Form::Old))),
    (52, &OLD, &[0], Ok((1, 52, Form::Old))),
    (51, &OLD, &[], Ok((0, 9, Form::Old))),
    (9, &OLD, &[], Ok((0, 9, Form::Old))),
    (8, &OLD, &[], Ok((0, 0, Form::New))),
    (4, &OLD, &[], Ok((0, 0, Form::New))),
    // Another number of workers; another number, worker and operation.
    (
        52,
        &[(3, 0x31), (4, 1)],
        &[],
        Err(JournalFault::OtherHeader),
    ),
    (
        52,
        &[(3, 0x31), (21, 2)],
        &[],
        Err(JournalFault::OutOfOrder(9)),
    ),
    (
        52,
        &[(3, 0x31), (13, 2)],
        &[],
        Err(JournalFault::Illegal(9)),
    ),
    (
        52,
        &[(3, 0x31), (24, 5)],
        &[],
        Err(JournalFault::Damaged(9)),
    ),
    // The mark behind the header alone, and twice; in the part of version 2; behind two records.
    (9, &OLD, &MARK, Ok((0, 13, Form::Marked(0)))),
    (9, &OLD, &TWO_MARKS, Err(JournalFault::Damaged(13))),
    (52, &OLD, &TWO_MARKS, Err(JournalFault::Damaged(56))),
    (
        52,
        &OLD,
        &[0, 0, 0, 0, 0, 0, 0],
        Ok((1, 56, Form::Marked(1))),
    ),
    (52, &OLD, &MARK_AND_DELETE, Ok((2, 81, Form::Marked(1)))),
    (52, &OLD, &DELETE_AND_MARK, Ok((2, 81, Form::Marked(2)))),
    (52, &OLD, &DELETE_7, Ok((2, 77, Form::Old))),
    (52, &OLD, &DELETE_8, Err(JournalFault::Illegal(52))),
    // Lengths before the mark.
    (52, &OLD, &[0, 0, 0, 1], Err(JournalFault::Damaged(52))),
    (52, &OLD, &[0, 0, 0, 0x0e], Err(JournalFault::Damaged(52))),
    (52, &OLD, &[0, 0, 0, 0x0f], Err(JournalFault::Damaged(52))),
    (52, &OLD, &[0, 0, 0, 0x14], Err(JournalFault::Damaged(52))),
    (52, &OLD, &[0, 0, 0, 0x15], Ok((1, 52, Form::Old))),
    (52, &OLD, &[0x00, 0x20, 0xc0, 0x0b], Ok((1, 52, Form::Old))),
    (
        52,
        &OLD,
        &[0x00, 0x20, 0xc0, 0x0c],
        Err(JournalFault::Damaged(52)),
    ),
    // Lengths behind it.
    (
        52,
        &OLD,
        &[0, 0, 0, 0, 0, 0, 0, 0x0e],
        Err(JournalFault::Damaged(56)),
    ),
    (
        52,
        &OLD,
        &[0, 0, 0, 0, 0, 0, 0, 0x0f],
        Ok((1, 56, Form::Marked(1))),
    ),
    (
        52,
        &OLD,
        &[0, 0, 0, 0, 0, 0, 0, 0x14],
        Ok((1, 56, Form::Marked(1))),
    ),
    (
        52,
        &OLD,
        &[0, 0, 0, 0, 0, 0, 0, 0x15],
        Ok((1, 56, Form::Marked(1))),
    ),
    (
        52,
        &OLD,
        &[0, 0, 0, 0, 0x00, 0x20, 0xc0, 0x0c],
        Err(JournalFault::Damaged(56)),
    ),
    // An added column before the mark, also where the length is that of a record of version 1.
    (9, &OLD, &ADD_BYTE_FIRST, Err(JournalFault::Damaged(9))),
    (9, &OLD, &ADD_NUMBER, Err(JournalFault::Damaged(9))),
    (9, &OLD, &INSERT_AND_BYTE, Err(JournalFault::Damaged(9))),
    (52, &OLD, &ADD_BYTE, Err(JournalFault::Damaged(52))),
    (52, &OLD, &ADD_SIX, Err(JournalFault::Damaged(52))),
    (52, &OLD, &ADD_SEVEN, Err(JournalFault::Damaged(52))),
    (
        52,
        &OLD,
        &ADD_BYTE_AND_SET_AT_ONCE,
        Err(JournalFault::Damaged(52)),
    ),
    // And behind it.
    (9, &OLD, &MARK_AND_NUMBER, Ok((1, 39, Form::Marked(0)))),
    (52, &OLD, &MARK_AND_BYTE, Ok((2, 75, Form::Marked(1)))),
    // The same without a mark, in version 2.
    (9, &[], &ADD_NUMBER, Ok((1, 35, Form::New))),
    (52, &[], &ADD_SIX, Ok((2, 76, Form::New))),
    (52, &[], &ADD_SEVEN, Ok((2, 77, Form::New))),
];
