//! A journal in a file that cannot be written, in one that has no room left for a record, and in one
//! of which one call fails.

ghost use Rattle.std.specs.Prelude.{◌≡◌, true};

use crate::failing_disk::FailingDisk;
use journal::{Disk, FileFault, FileJournal, JournalStore};
use scenarios_common::files::fresh_path;
use scenarios_journal_common::journal_cases::{
    HEADER_LEN, JOURNAL, JOURNAL_HEADER, JOURNAL_RECORD,
};
use std::alloc::Global;
use std::fs::{self, File, OpenOptions};
use std::io::{self, ErrorKind};
use std::test::Fail;

/// How a call on a journal ended.
#[derive(Clone, Copy, PartialEq)]
enum End {
    Done,
    Unsettled,
    System,
    Memory,
}

/// How a call ended that answered this.
fn end_of(answer: Result<(), FileFault>) -> End {
    match answer {
        Ok(()) => End::Done,
        Err(FileFault::Unsettled) => End::Unsettled,
        Err(FileFault::System(_)) => End::System,
    }
}

/// Appends bytes, and answers how that ended.
fn append<D: Disk>(journal: &mut FileJournal<D>, bytes: &[u8]) -> Result<End, Fail> {
    if journal.faults() == u64::MAX {
        return Err("too many faults".into());
    }
    journal.reserve(bytes.len())?;
    Ok(end_of(journal.append(bytes)))
}

/// Cuts the journal to so many bytes, and answers how that ended.
fn cut_to<D: Disk>(journal: &mut FileJournal<D>, len: usize) -> Result<End, Fail>
    requires { D.is_honest ≡ true → len ≡ 0 }
{
    if journal.faults() == u64::MAX {
        return Err("too many faults".into());
    }
    Ok(end_of(journal.cut_to(len as u64)))
}

/// Reads the journal, and answers how that ended.
fn read<D: Disk>(journal: &mut FileJournal<D>, list: &mut Vec<u8>) -> Result<End, Fail> {
    if journal.faults() == u64::MAX {
        return Err("too many faults".into());
    }
    Ok(match journal.read_all(list) {
        Ok(()) => End::Done,
        Err(Some(fault)) => end_of(Err(fault)),
        Err(None) => End::Memory,
    })
}

/// How these calls end on a file that cannot be written, and how many faults there were: it is read,
/// a record is appended and another, it is cut, and read again.
fn ends_unwritten(rt: &HostRuntime, path: &str) -> Result<([End; 5], u64), Fail> {
    let mut journal = open_to_read(rt, path)?;
    let mut list = Vec::new(rt.alloc());
    ends_on_unwritten(&mut journal, &mut list)
}

/// A journal in a file that cannot be written.
fn open_to_read(rt: &HostRuntime, path: &str) -> Result<FileJournal, Fail> {
    let file = OpenOptions::new().read(true).open(rt, path)?;
    let len = file.metadata()?.len();
    Ok(FileJournal::on(file, len))
}

/// How these calls end on a journal in a file that cannot be written. The list is left with what was
/// read.
fn ends_on_unwritten(
    journal: &mut FileJournal,
    list: &mut Vec<u8>,
) -> Result<([End; 5], u64), Fail> {
    let before = read(journal, list)?;
    if list.as_slice() != JOURNAL.as_slice() {
        return Err("other bytes".into());
    }
    let first = append(journal, &JOURNAL_RECORD)?;
    let second = append(journal, &JOURNAL_RECORD)?;
    let cut = cut_to(journal, HEADER_LEN)?;
    let after = read(journal, list)?;
    Ok(([before, first, second, cut, after], journal.faults()))
}

/// A write that fails is a fault of the system, and the next is not tried. A cut is, and fails as
/// well; so the bytes are not read either, though they could be.
#[test]
fn a_file_that_cannot_be_written_has_faults(rt: HostRuntime) -> Result<(), Fail> {
    let path = fresh_path(&rt, "unwritten")?;
    fs::write(&rt, path.as_str(), JOURNAL)?;
    let ended = ends_unwritten(&rt, path.as_str())?;
    let bytes = fs::read(&rt, path.as_str())?;
    fs::remove_file(&rt, path.as_str())?;
    let ends = [
        End::Done,
        End::System,
        End::Unsettled,
        End::System,
        End::System,
    ];
    assert!(rt; ended == (ends, 4));
    assert_eq!(rt; bytes.as_slice(), JOURNAL.as_slice());
    Ok(())
}

/// Why a call failed, as a journal keeps it.
#[derive(Clone, Copy, PartialEq)]
enum Reason {
    None,
    Unsettled,
    /// The system's number of the error; none where the error is not the system's.
    System(Option<i32>),
}

/// The reason that a journal keeps.
fn reason_of<D: Disk>(journal: &FileJournal<D>) -> Reason {
    match journal.last_fault() {
        None => Reason::None,
        Some(FileFault::Unsettled) => Reason::Unsettled,
        Some(FileFault::System(error)) => Reason::System(error.raw_os_error()),
    }
}

/// What a journal in a file that cannot be written keeps as its last fault: at first, after an append,
/// after another one, and after a cut.
fn reasons_unwritten(rt: &HostRuntime, path: &str) -> Result<[Reason; 4], Fail> {
    let mut journal = open_to_read(rt, path)?;
    reasons_on_unwritten(&mut journal)
}

/// The same of such a journal.
fn reasons_on_unwritten(journal: &mut FileJournal) -> Result<[Reason; 4], Fail> {
    let first = reason_of(journal);
    let _ = append(journal, &JOURNAL_RECORD)?;
    let written = reason_of(journal);
    let _ = append(journal, &JOURNAL_RECORD)?;
    let again = reason_of(journal);
    let _ = cut_to(journal, HEADER_LEN)?;
    Ok([first, written, again, reason_of(journal)])
}

/// The number of the system's error where a file is not open for writing (EBADF).
const NOT_OPEN_FOR_WRITING: i32 = 9;

/// The number of the system's error where a file that is not open for writing is to be cut (EINVAL).
const NOT_TO_BE_CUT: i32 = 22;

/// A journal keeps the system's reason of the newest fault, and that a call was not tried.
#[test]
fn the_reason_of_the_last_fault_is_kept(rt: HostRuntime) -> Result<(), Fail> {
    let path = fresh_path(&rt, "reason")?;
    fs::write(&rt, path.as_str(), JOURNAL)?;
    let reasons = reasons_unwritten(&rt, path.as_str())?;
    fs::remove_file(&rt, path.as_str())?;
    let wanted = [
        Reason::None,
        Reason::System(Some(NOT_OPEN_FOR_WRITING)),
        Reason::Unsettled,
        Reason::System(Some(NOT_TO_BE_CUT)),
    ];
    assert!(rt; reasons == wanted);
    Ok(())
}

/// The length of the longest file that the system makes of this one, found by halving. What it
/// gains are holes, which take no room.
fn longest(file: &File) -> u64 {
    let mut taken = 0;
    let mut refused = 1 << 63;
    for _ in 0..63 {
        let middle = taken / 2 + refused / 2;
        if file.set_len(middle).is_ok() {
            taken = middle;
        } else {
            refused = middle;
        }
    }
    taken
}

/// Makes the file one that begins with the journal's header, and ends so many bytes before it could
/// be no longer. Answers its length.
fn lengthen(rt: &HostRuntime, path: &str, room: u64) -> Result<u64, Fail> {
    fs::write(rt, path, &JOURNAL_HEADER)?;
    let file = OpenOptions::new().read(true).write(true).open(rt, path)?;
    let len = longest(&file).saturating_sub(room);
    file.set_len(len)?;
    Ok(len)
}

/// How these calls end on a file that has room for 20 more bytes, and how many faults there were: a
/// record is appended and another, it is cut to its header, the record is appended, and it is read.
/// The list is left with what was read.
fn ends_unsettled(
    rt: &HostRuntime,
    path: &str,
    list: &mut Vec<u8>,
) -> Result<([End; 5], u64), Fail> {
    let len = lengthen(rt, path, 20)?;
    let mut journal = FileJournal::open(rt, path)?;
    ends_on_full(rt, path, len, &mut journal, list)
}

/// The same of a journal in a file of that length.
fn ends_on_full(
    rt: &HostRuntime,
    path: &str,
    len: u64,
    journal: &mut FileJournal,
    list: &mut Vec<u8>,
) -> Result<([End; 5], u64), Fail> {
    let first = append(journal, &JOURNAL_RECORD)?;
    let left = fs::metadata(rt, path)?.len();
    let second = append(journal, &JOURNAL_RECORD)?;
    if left < len || fs::metadata(rt, path)?.len() != left {
        return Err("another length".into());
    }
    let cut = cut_to(journal, HEADER_LEN)?;
    let third = append(journal, &JOURNAL_RECORD)?;
    let after = read(journal, list)?;
    Ok(([first, second, cut, third, after], journal.faults()))
}

/// Behind what a write left that failed nothing is appended, until it was cut away.
#[test]
fn a_write_that_failed_is_cleared_away(rt: HostRuntime) -> Result<(), Fail> {
    let path = fresh_path(&rt, "unsettled")?;
    let mut list = Vec::new(rt.alloc());
    let ended = ends_unsettled(&rt, path.as_str(), &mut list)?;
    let bytes = fs::read(&rt, path.as_str())?;
    fs::remove_file(&rt, path.as_str())?;
    let ends = [End::System, End::Unsettled, End::Done, End::Done, End::Done];
    assert!(rt; ended == (ends, 2));
    assert_eq!(rt;
        (list.as_slice(), bytes.as_slice()),
        (JOURNAL.as_slice(), JOURNAL.as_slice())
    );
    Ok(())
}

/// What a journal does in a file of which one call fails.
struct Story {
    /// How many calls go well before that one.
    calls_before: u64,
    /// How many bytes it leaves of those to append, or besides those to keep.
    bytes_left: usize,
    /// How these end: the journal is appended, its record once more, all is cut away, the journal is
    /// appended, and all is read.
    ends: [End; 5],
    /// Whether the journal stands then, or nothing.
    stands: bool,
    faults: u64,
}

/// No call fails; each append, the cut, and their syncs fail in turn, and leave nothing, a part, or
/// all. Each append and the cut are two calls: the change and its sync.
const STORIES: [Story; 8] = [
    Story {
        calls_before: 99,
        bytes_left: 0,
        ends: [End::Done, End::Done, End::Done, End::Done, End::Done],
        stands: true,
        faults: 0,
    },
    Story {
        calls_before: 0,
        bytes_left: 20,
        ends: [End::System, End::Unsettled, End::Done, End::Done, End::Done],
        stands: true,
        faults: 2,
    },
    Story {
        calls_before: 1,
        bytes_left: 0,
        ends: [End::System, End::Unsettled, End::Done, End::Done, End::Done],
        stands: true,
        faults: 2,
    },
    Story {
        calls_before: 2,
        bytes_left: 0,
        ends: [End::Done, End::System, End::Done, End::Done, End::Done],
        stands: true,
        faults: 1,
    },
    Story {
        calls_before: 2,
        bytes_left: 43,
        ends: [End::Done, End::System, End::Done, End::Done, End::Done],
        stands: true,
        faults: 1,
    },
    Story {
        calls_before: 4,
        bytes_left: 5,
        ends: [End::Done, End::Done, End::System, End::Unsettled, End::Done],
        stands: false,
        faults: 2,
    },
    Story {
        calls_before: 5,
        bytes_left: 0,
        ends: [End::Done, End::Done, End::System, End::Unsettled, End::Done],
        stands: false,
        faults: 2,
    },
    Story {
        calls_before: 6,
        bytes_left: 52,
        ends: [End::Done, End::Done, End::Done, End::System, End::Done],
        stands: false,
        faults: 1,
    },
];

/// How the story's calls end, and how many faults there were. The list is left with what was read.
fn ends_of(alloc: Global, story: &Story, list: &mut Vec<u8>) -> Result<([End; 5], u64), Fail> {
    let disk = FailingDisk::new(alloc, story.calls_before, story.bytes_left);
    let mut journal = FileJournal::on(disk, 0);
    ends_on(&mut journal, list)
}

/// The same of a journal in such a file.
fn ends_on(
    journal: &mut FileJournal<FailingDisk>,
    list: &mut Vec<u8>,
) -> Result<([End; 5], u64), Fail> {
    let first = append(journal, &JOURNAL)?;
    let second = append(journal, &JOURNAL_RECORD)?;
    let cut = cut_to(journal, 0)?;
    let third = append(journal, &JOURNAL)?;
    let after = read(journal, list)?;
    Ok(([first, second, cut, third, after], journal.faults()))
}

/// In an honest file too, what a call that failed left is never read as what was acknowledged.
#[test]
fn what_a_failed_call_left_is_not_read(rt: HostRuntime) -> Result<(), Fail> {
    let mut list = Vec::new(rt.alloc());
    for story in &STORIES {
        let ended = ends_of(rt.alloc(), story, &mut list)?;
        assert!(rt; ended == (story.ends, story.faults));
        let standing = if story.stands {
            JOURNAL.as_slice()
        } else {
            &[]
        };
        assert_eq!(rt; list.as_slice(), standing);
    }
    Ok(())
}

/// A file that says that it has almost as many bytes as a length can tell, and keeps none of them. It
/// fails where it is to have more.
#[derive(Drop)]
struct VastDisk;

impl Disk for VastDisk {
    ghost use Rattle.std.specs.Prelude.{[], false};

    ghost content = { λ _. [] };

    ghost synced = { λ _. [] };

    ghost is_honest = { false };

    fn append(&mut self, len: u64, bytes: &[u8]) -> io::Result<()> {
        match len.checked_add(bytes.len() as u64) {
            Some(_) => Ok(()),
            None => Err(io::Error::from(ErrorKind::Other)),
        }
    }

    fn cut_to(&mut self, _len: u64) -> io::Result<()> {
        Ok(())
    }

    fn sync(&mut self) -> io::Result<()> {
        Ok(())
    }

    fn read(&self, _list: &mut [u8]) -> io::Result<()> {
        Ok(())
    }
}

/// An append for which no length is left is refused before anything is written: the next one, which
/// ends at the greatest length, is taken, and none behind that.
#[test]
fn an_append_past_the_greatest_length_changes_nothing(_rt: HostRuntime) -> Result<(), Fail> {
    let mut journal = FileJournal::on(VastDisk, u64::MAX - 3);
    let ends = [
        append(&mut journal, &[0; 4])?,
        append(&mut journal, &[0; 3])?,
        append(&mut journal, &[0; 1])?,
    ];
    if ends != [End::System, End::Done, End::System] || journal.faults() != 2 {
        return Err("an append ended otherwise".into());
    }
    Ok(())
}
