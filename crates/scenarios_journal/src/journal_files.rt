//! A journal in a real file: written, opened again, locked, and cut at each of its bytes.

use crate::journal_bytes::outcome;
use journal::{FileJournal, JournalStore, OpenFault};
use scenarios_common::files::fresh_path;
use scenarios_journal_common::journal_cases::{
    JOURNAL, JOURNAL_HEADER, JOURNAL_RECORD, Outcome, front,
};
use std::alloc::Global;
use std::env::temp_dir;
use std::fs;
use std::os::unix::fs::PermissionsExt;
use std::test::Fail;

/// Appends bytes to a journal in a file.
fn append(journal: &mut FileJournal, bytes: &[u8]) -> Result<(), Fail> {
    if journal.faults() == u64::MAX {
        return Err("too many faults".into());
    }
    journal.reserve(bytes.len())?;
    Ok(journal.append(bytes)?)
}

/// Cuts a journal in a file to so many bytes.
fn cut_to(journal: &mut FileJournal, len: u64) -> Result<(), Fail> {
    if journal.faults() == u64::MAX {
        return Err("too many faults".into());
    }
    Ok(journal.cut_to(len)?)
}

/// The bytes of a journal in a file.
fn read(alloc: Global, journal: &mut FileJournal) -> Result<Vec<u8>, Fail> {
    if journal.faults() == u64::MAX {
        return Err("too many faults".into());
    }
    let mut list = Vec::from_slice(alloc, &[1, 2, 3])?;
    match journal.read_all(&mut list) {
        Ok(()) => Ok(list),
        Err(Some(fault)) => Err(fault.into()),
        Err(None) => Err("out of memory".into()),
    }
}

/// Writes the journal to a new file, in two appends.
fn write(rt: &HostRuntime, path: &str) -> Result<(), Fail> {
    let mut journal = FileJournal::open(rt, path)?;
    append_both(&mut journal)
}

/// Appends the header and the record.
fn append_both(journal: &mut FileJournal) -> Result<(), Fail> {
    append(journal, &JOURNAL_HEADER)?;
    append(journal, &JOURNAL_RECORD)
}

/// What is recovered of a journal in a file, which is to have these bytes.
fn recovered(alloc: Global, journal: &mut FileJournal, bytes: &[u8]) -> Result<Outcome, Fail> {
    let found = read(alloc, journal)?;
    if found.as_slice() != bytes {
        return Err("other bytes".into());
    }
    outcome(alloc, &found)
}

/// What is recovered of the journal that is written to a new file, which is opened again for that.
fn reopened(rt: &HostRuntime, path: &str) -> Result<Outcome, Fail> {
    write(rt, path)?;
    let mut journal = FileJournal::open(rt, path)?;
    recovered(rt.alloc(), &mut journal, &JOURNAL)
}

/// Whether the file is refused since another journal has it open.
fn is_locked(rt: &HostRuntime, path: &str) -> bool {
    matches!(FileJournal::open(rt, path), Err(OpenFault::Locked))
}

/// Whether the file is refused while a journal has it open, and whether it is afterwards.
fn are_locked(rt: &HostRuntime, path: &str) -> Result<(bool, bool), Fail> {
    let journal = FileJournal::open(rt, path)?;
    let while_open = is_locked(rt, path);
    drop(journal);
    Ok((while_open, is_locked(rt, path)))
}

/// What is recovered of a file that has this beginning of the journal. What stands behind the kept
/// bytes is then cut away, and all that is missing appended.
fn repaired(rt: &HostRuntime, path: &str, front: &[u8]) -> Result<Outcome, Fail> {
    fs::write(rt, path, front)?;
    let mut journal = FileJournal::open(rt, path)?;
    repair(rt.alloc(), &mut journal, front)
}

/// The same of a journal that is open.
fn repair(alloc: Global, journal: &mut FileJournal, front: &[u8]) -> Result<Outcome, Fail> {
    let recovered = recovered(alloc, journal, front)?;
    if let Ok((_, kept)) = recovered {
        cut_to(journal, kept)?;
        append(journal, behind(&JOURNAL, kept as usize))?;
    }
    Ok(recovered)
}

/// What is behind the first of these bytes, so many.
fn behind(bytes: &[u8], len: usize) -> &[u8] {
    bytes.split_at(len.min(bytes.len())).1
}

/// What is to be recovered of so many bytes of the journal.
fn expected(len: usize) -> Outcome {
    if len < 9 {
        Ok((0, 0))
    } else if len < 52 {
        Ok((0, 9))
    } else {
        Ok((1, 52))
    }
}

/// Whether that is recovered of so many bytes of the journal, and it is made whole again.
fn is_repaired(rt: &HostRuntime, path: &str, len: usize) -> Result<bool, Fail> {
    if repaired(rt, path, front(&JOURNAL, len))? != expected(len) {
        return Ok(false);
    }
    let bytes = fs::read(rt, path)?;
    Ok(bytes.as_slice() == JOURNAL.as_slice())
}

/// The first number of bytes of which something else is recovered, or that is not made whole again.
fn other_cut(rt: &HostRuntime, path: &str) -> Result<Option<usize>, Fail> {
    for len in 0..53 {
        if !is_repaired(rt, path, len)? {
            return Ok(Some(len));
        }
    }
    Ok(None)
}

/// What is recovered of a new file, whether it is locked, and the first cut that goes otherwise.
type Found = (Outcome, (bool, bool), Option<usize>);

/// What is found of a file of this path, which is removed at last.
fn found_at(rt: &HostRuntime, path: &str) -> Result<Found, Fail> {
    let kept = reopened(rt, path)?;
    let locked = are_locked(rt, path)?;
    let cut = other_cut(rt, path)?;
    fs::remove_file(rt, path)?;
    Ok((kept, locked, cut))
}

#[test]
fn a_file_keeps_a_journal(rt: HostRuntime) -> Result<(), Fail> {
    let path = fresh_path(&rt, "kept")?;
    let found = found_at(&rt, path.as_str())?;
    assert_eq!(rt; found, (Ok((1, 52)), (true, false), None));
    Ok(())
}

/// Who may do what with the file of a new journal, as the system's number of it.
fn new_mode(rt: &HostRuntime, path: &str) -> Result<u32, Fail> {
    let _journal = FileJournal::open(rt, path)?;
    let mode = fs::metadata(rt, path)?.permissions().mode();
    fs::remove_file(rt, path)?;
    Ok(mode & 0o777)
}

#[test]
fn a_new_file_is_its_owners_alone(rt: HostRuntime) -> Result<(), Fail> {
    let path = fresh_path(&rt, "owned")?;
    let mode = new_mode(&rt, path.as_str())?;
    assert_eq!(rt; mode, 0o600);
    Ok(())
}

#[test]
fn a_folder_is_no_journal(rt: HostRuntime) -> Result<(), Fail> {
    let folder = temp_dir(&rt)?;
    let opened = FileJournal::open(&rt, folder.as_str());
    assert!(rt; matches!(opened, Err(OpenFault::System(_))));
    Ok(())
}
