//! Reading a record from the front of bytes.

ghost use Rattle.std.specs.Prelude.{◌≡◌, ◌+◌, ◌≤◌, false, length, is_some, IfOk};
ghost use Rattle.std.specs.List.{list_all};
ghost use Rattle.byteorder.specs.Endian.{big_number};
ghost use Rattle.rows.specs.Entries.{row_of};
ghost use Rattle.journal.specs.Recovery.{is_record_len, is_torn, may_follow, record_len_min};
ghost use Rattle.journal.specs.Inner.Reading.{commit_in, following, record_at};

use crate::form::Form;
use crate::numbered_commit::NumberedCommit;
use crate::text::{ENTRY_LEN_MAX, RECORD_FRONT_LEN};
use byteorder::{BigEndian, ByteOrder};
use rows::limits::COMMIT_ENTRIES_MAX;
use rows::{Commit, ENTRY_LEN_MIN, Entry, read_entries};
use std::alloc::{AllocError, Global};

/// Bytes of an entry of version 1, at least: those of a delete.
const OLD_ENTRY_LEN_MIN: usize = 1 + 1 + 8;

/// Bytes of a record after its length, at most: those of 4096 inserts of the widest rows.
const RECORD_LEN_MAX: usize = RECORD_FRONT_LEN + COMMIT_ENTRIES_MAX * ENTRY_LEN_MAX;

/// Whether a crash may have left these bytes at the end of a text of this form.
pub fn is_torn(form: Form, bytes: &[u8]) -> bool
    ensures { result ≡ is_torn form bytes.now }
{
    bytes.len() < 4 || (is_record_len(form, body_len(bytes)) && bytes.len() < 4 + body_len(bytes))
}

/// How many bytes follow the four bytes of a record's length.
pub fn body_len(bytes: &[u8]) -> usize
    requires { 4 ≤ length bytes.now }
    ensures value { result ≡ big_number 4 bytes.now }
    ensures few { result ≤ 4294967295 }
{
    BigEndian::read_u32(bytes) as usize
}

/// Whether a record may have this length.
fn is_record_len(form: Form, len: usize) -> bool
    ensures { result ≡ is_record_len form len }
{
    len >= record_len_min(form) && len <= RECORD_LEN_MAX
}

/// Bytes of a record after its length, at least: those of one added column of one byte, or of one
/// delete in version 1.
fn record_len_min(form: Form) -> usize
    ensures { result ≡ record_len_min form }
{
    match form {
        Form::Old => RECORD_FRONT_LEN + OLD_ENTRY_LEN_MIN,
        Form::New | Form::Marked(_) => RECORD_FRONT_LEN + ENTRY_LEN_MIN,
    }
}

/// The commit whose record is at the front of the bytes, at the end of a text of this form, and its
/// number; `None` if they are damaged. Fails only if out of memory.
pub fn read_record(
    alloc: Global,
    form: Form,
    bytes: &[u8],
) -> Result<Option<NumberedCommit>, AllocError>
    requires { is_torn form bytes.now ≡ false }
    ensures { IfOk result (λ found. found ≡ record_at form bytes.now) }
{
    let len = body_len(bytes);
    if !is_record_len(form, len) {
        return Ok(None);
    }
    let (_, rest) = bytes.split_at(4);
    let (body, _) = rest.split_at(len);
    Ok(following(form, read_body(alloc, body)?))
}

/// A commit that was read, if it may stand at the end of a text of this form.
fn following(form: Form, found: Option<NumberedCommit>) -> Option<NumberedCommit>
    ensures { result ≡ following form found }
{
    match found {
        Some(found) if may_follow(form, &found.commit) => Some(found),
        _ => None,
    }
}

/// Whether a commit may stand at the end of a text of this form.
fn may_follow(form: Form, commit: &Commit) -> bool
    ensures { result ≡ may_follow form commit.now }
{
    match form {
        Form::Old => are_old(commit.entries.as_slice()),
        Form::New | Form::Marked(_) => true,
    }
}

/// Whether version 1 has all these entries: none adds a column.
fn are_old(entries: &[Entry]) -> bool
    ensures { result ≡ list_all (λ entry. is_some (row_of entry)) entries.now }
{
    for entry in entries {
        if entry.row().is_none() {
            return false;
        }
    }
    true
}

/// The commit in the body of a record, after its length, and its number; `None` if it is damaged.
fn read_body(alloc: Global, body: &[u8]) -> Result<Option<NumberedCommit>, AllocError>
    requires { RECORD_FRONT_LEN ≤ length body.now }
    ensures { IfOk result (λ found. found ≡ commit_in body.now) }
{
    let (front, rest) = body.split_at(RECORD_FRONT_LEN);
    let count = BigEndian::read_u16(&front[9..]);
    if count == 0 || count as usize > COMMIT_ENTRIES_MAX {
        return Ok(None);
    }
    let number = BigEndian::read_u64(&front[1..]);
    let worker = front[0];
    match read_entries(alloc, count, rest)? {
        None => Ok(None),
        Some(entries) => Ok(Some(NumberedCommit {
            number,
            commit: Commit { worker, entries },
        })),
    }
}
