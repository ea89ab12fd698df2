//! Recovery: which commits the bytes of a journal keep.

ghost use Rattle.std.specs.Prelude.{◌≡◌, ◌+◌, ◌<◌, ◌++◌, [], length, true, false, IfOk, IfErr, MatchOption, MatchResult};
ghost use Rattle.std.specs.Bool.{MatchBool};
ghost use Rattle.rows.specs.Shape.{shape_of};
ghost use Rattle.rows.specs.Tables.{Tables};
ghost use Rattle.journal.specs.declared.form.Form.TheVariants.{New, Old};
ghost use Rattle.journal.specs.Text.{header, mark};
ghost use Rattle.journal.specs.Recovery.{IsBeginning, is_torn, IsRecovered, IsRefusal};
ghost use Rattle.journal.specs.Inner.Presence.{IsPresenceOf};
ghost use Rattle.journal.specs.Inner.Progress.{IsNextCommit, IsStop, IsAccepted, IsHeaderForm};

use crate::faults::JournalFault;
use crate::form::Form;
use crate::header::header_of;
use crate::present_rows::PresentRows;
use crate::reading::{body_len, is_torn, read_record};
use crate::recovered::Recovered;
use crate::text::MARK;
use rows::{Commit, Schema};
use std::alloc::{AllocError, Global};

/// The commits that the bytes of a journal keep, for this schema and this number of workers: those
/// of the longest text that a journal may have and that begins the bytes. A torn record after it,
/// or a torn mark, is not kept, and bytes that end within the header keep nothing.
///
/// Fails with `OtherHeader` if the bytes do not begin like such a journal, and otherwise with the
/// first of these after the kept commits, with its offset: `Damaged`; `OutOfOrder`; `Illegal`.
/// `Memory` means that there was no memory for the commits, or for the identifiers of the rows that
/// they make; the bytes then begin with the header. It goes over the bytes once.
pub fn recover(
    alloc: Global,
    bytes: &[u8],
    schema: &Schema,
    workers: u8,
) -> Result<Recovered, JournalFault>
    ensures { MatchResult result
        (λ recovered. IsRecovered workers (shape_of schema.now) bytes.now recovered.form recovered.commits.items recovered.bytes_kept)
        (IsRefusal workers (shape_of schema.now) bytes.now) }
{
    let new_header = header_of(Form::New, workers, schema);
    let old_header = header_of(Form::Old, workers, schema);
    let new = new_header.as_slice();
    let old = old_header.as_slice();
    if begins(new, bytes) {
        let (_, rest) = bytes.split_at(new.len());
        return recover_records(alloc, Form::New, bytes, rest, schema, workers);
    }
    if begins(old, bytes) {
        let (_, rest) = bytes.split_at(old.len());
        return recover_records(alloc, Form::Old, bytes, rest, schema, workers);
    }
    if begins(bytes, new) {
        return Ok(nothing_kept(alloc));
    }
    if begins(bytes, old) {
        return Ok(nothing_kept(alloc));
    }
    Err(JournalFault::OtherHeader)
}

/// What is recovered of bytes that end within the header.
fn nothing_kept(alloc: Global) -> Recovered
    ensures { (result.commits.items ≡ []) × (result.form ≡ New) × (result.bytes_kept ≡ 0) }
{
    Recovered {
        commits: Vec::new(alloc),
        form: Form::New,
        bytes_kept: 0,
    }
}

/// Whether bytes begin with these others.
fn begins(front: &[u8], bytes: &[u8]) -> bool
    ensures { MatchBool result (IsBeginning front.now bytes.now) (¬ IsBeginning front.now bytes.now) }
{
    bytes.starts_with(front)
}

/// The recovered commits of a journal that has these bytes after its header, which is that of this
/// form.
fn recover_records(
    alloc: Global,
    header_form: Form,
    bytes: &[u8],
    behind_header: &[u8],
    schema: &Schema,
    workers: u8,
) -> Result<Recovered, JournalFault>
    requires form { IsHeaderForm header_form }
    requires bytes { bytes.now ≡ header header_form workers (shape_of schema.now) ++ behind_header.now }
    ensures { MatchResult result
        (λ recovered. IsRecovered workers (shape_of schema.now) bytes.now recovered.form recovered.commits.items recovered.bytes_kept)
        (IsRefusal workers (shape_of schema.now) bytes.now) }
{
    rows::laws::entries_are_read_as_spelled();
    let Ok(mut present) = PresentRows::new(alloc, schema) else {
        return Err(JournalFault::Memory);
    };
    let mut form = header_form;
    let mut commits = Vec::new(alloc);
    let mut rest = behind_header;
    while !is_torn(form, rest) {
        if let Some(behind) = behind_mark(form, rest) {
            form = Form::Marked(commits.len() as u64);
            rest = behind;
            continue;
        }
        let offset = (bytes.len() - rest.len()) as u64;
        let number = commits.len() as u64 + 1;
        match next_commit(alloc, &mut present, form, workers, number, offset, rest) {
            Err(fault) => return Err(fault),
            Ok((commit, behind)) => {
                if commits.push(commit).is_err() {
                    return Err(JournalFault::Memory);
                }
                rest = behind;
            }
        }
    }
    Ok(Recovered {
        commits,
        form,
        bytes_kept: (bytes.len() - rest.len()) as u64,
    })
}

/// What stands behind the mark, if it is at the front of the bytes, and a text of this form may go on
/// with it.
fn behind_mark<'a>(form: Form, bytes: &'a [u8]) -> Option<&'a [u8]>
    ensures { MatchOption result
        (form ≡ Old → ¬ IsBeginning mark bytes.now)
        (λ behind. (form ≡ Old) × (bytes.now ≡ mark ++ behind.now)) }
{
    match form {
        Form::Old if begins(&MARK, bytes) => {
            let (_, behind) = bytes.split_at(MARK.len());
            Some(behind)
        }
        _ => None,
    }
}

/// The commit of that number, whose record is at the front of the rest, behind a text of this form,
/// and the bytes after it; the rows that are present are then those after it. Otherwise why there
/// is none, by the offset of the rest.
fn next_commit<'a>(
    alloc: Global,
    present: &mut PresentRows,
    form: Form,
    workers: u8,
    number: u64,
    offset: u64,
    rest: &'a [u8],
) -> Result<(Commit, &'a [u8]), JournalFault>
    requires { is_torn form rest.now ≡ false }
    ensures ok { IfOk result (λ next. (tables : Tables) → IsPresenceOf tables present.old
        → IsNextCommit form workers number tables present.new rest.now next.0 next.1.now) }
    ensures err { IfErr result (λ fault. (tables : Tables) → IsPresenceOf tables present.old
        → IsStop form workers number tables offset rest.now fault) }
{
    rows::laws::entries_are_read_as_spelled();
    rows::laws::numbers_are_read_as_spelled();
    let found = match read_record(alloc, form, rest) {
        Err(_) => return Err(JournalFault::Memory),
        Ok(None) => return Err(JournalFault::Damaged(offset)),
        Ok(Some(found)) => found,
    };
    if found.number != number {
        return Err(JournalFault::OutOfOrder(offset));
    }
    match accepts(present, workers, &found.commit) {
        Err(_) => Err(JournalFault::Memory),
        Ok(false) => Err(JournalFault::Illegal(offset)),
        Ok(true) => {
            let (_, behind) = rest.split_at(4 + body_len(rest));
            Ok((found.commit, behind))
        }
    }
}

/// Whether a commit is legal after those whose rows are present: its worker exists, and each of its
/// entries is defined where it stands. The rows that are present are then those after it. If the
/// commit is not legal, or there is no memory, they must not be used again.
fn accepts(present: &mut PresentRows, workers: u8, commit: &Commit) -> Result<bool, AllocError>
    ensures { IfOk result (λ accepted. (tables : Tables) → IsPresenceOf tables present.old
        → IsAccepted accepted workers tables present.new commit.now) }
{
    if commit.worker >= workers {
        return Ok(false);
    }
    present.apply(commit.entries.as_slice())
}
