//! A journal, looked at, dumped and cut.

ghost use Rattle.std.specs.Prelude.{◌≡◌, IfOk};

use crate::commands::JournalWords;
use crate::failure::{Failure, Status};
use crate::files::{failed, len_of, refused, setup_at};
use crate::journal_reading::{journal_bytes, name_of};
use crate::printing::print;
use journal::{FileFault, FileJournal, JournalFault, JournalStore, OpenFault, Recovered, recover};
use nodes::{Host, Progress, while_saying};
use requests::shown;
use rows::{
    Commit, Entry, Kind, KindList, RowId, Schema, append_number, append_value, column_at,
    first_value,
};
use script::Setup;
use std::alloc::{AllocError, Global};
use std::fs::File;
use std::io::Write;
use std::rt::{Clock, Files};
use std::sync::Wait;
use std::thread::Threads;

/// Tells what a journal keeps, prints its commits as jobs, or cuts it.
pub fn run_journal<
    T: Threads + Wait + Files<File = File> + Clock + Sync,
    W: Write,
    E: Write + Send,
>(
    host: Host<'_, T>,
    words: &JournalWords<'_>,
    writer: &mut W,
    errors: &mut E,
) -> Result<(), Failure> {
    let Host { rt, alloc } = host;
    let setup = setup_at(rt, alloc, words.schema)?;
    let bytes = journal_bytes(host, words.journal, words.shows, errors)?;
    let looking = Looking {
        host,
        words,
        setup: &setup,
        bytes: bytes.as_slice(),
    };
    match words.cut {
        Some(len) => cut(&looking, len, writer, errors),
        None if words.dumps => dump(&looking, writer, errors),
        None => {
            let kept = kept_of(&looking, looking.bytes, errors)?;
            tell(alloc, &kept, bytes.len(), writer)
        }
    }
}

/// A journal that is looked at: its words and its bytes.
#[derive(Drop)]
struct Looking<'a, T> {
    host: Host<'a, T>,
    words: &'a JournalWords<'a>,
    setup: &'a Setup,
    bytes: &'a [u8],
}

/// What these bytes keep. If it is to, it says each second for how long they are recovered.
fn kept_of<T: Threads + Wait + Clock + Sync, E: Write + Send>(
    looking: &Looking<'_, T>,
    bytes: &[u8],
    errors: &mut E,
) -> Result<Recovered, Failure> {
    let alloc = looking.host.alloc;
    match recovered(looking, bytes, errors) {
        Ok(recovered) => Ok(recovered),
        Err(JournalFault::Memory) => Err(Failure::Memory),
        Err(fault) => Err(failed(
            alloc,
            looking.words.journal,
            format!(in alloc; "{fault}").ok(),
        )),
    }
}

/// What is recovered of these bytes.
fn recovered<T: Threads + Wait + Clock + Sync, E: Write + Send>(
    looking: &Looking<'_, T>,
    bytes: &[u8],
    errors: &mut E,
) -> Result<Recovered, JournalFault> {
    let Host { alloc, .. } = looking.host;
    let what = recovering(alloc, looking.words.journal, bytes.len() as u64);
    let setup = looking.setup;
    while_saying(
        looking.host,
        looking.words.shows,
        what.as_str(),
        errors,
        || recover(alloc, bytes, &setup.schema, setup.workers),
    )
}

/// What is said of a journal of so many bytes while it is recovered. Without memory for that, nothing is.
pub fn recovering(alloc: Global, path: &str, len: u64) -> String {
    let name = name_of(alloc, path);
    let text = format!(in alloc; "journal {name}: recovering {len} bytes");
    text.unwrap_or(String::new(alloc))
}

/// Tells what a journal of so many bytes keeps.
fn tell<W: Write>(
    alloc: Global,
    kept: &Recovered,
    len: usize,
    writer: &mut W,
) -> Result<(), Failure> {
    let text = format!(in alloc;
        "kept {} commits, {} bytes, torn {}\n",
        kept.commits.len(),
        kept.bytes_kept,
        torn(kept, len)
    );
    match text {
        Ok(text) => print(alloc, writer, text.as_bytes()),
        Err(_) => Err(Failure::Memory),
    }
}

/// Tells the same before a dump, and the version of the journal at its end, in a comment to whoever reads
/// the jobs.
fn tell_dumped<W: Write>(
    alloc: Global,
    kept: &Recovered,
    len: usize,
    writer: &mut W,
) -> Result<(), Failure> {
    let text = format!(in alloc;
        "# kept {} commits, {} bytes, torn {}, version {}\n",
        kept.commits.len(),
        kept.bytes_kept,
        torn(kept, len),
        kept.form.version()
    );
    match text {
        Ok(text) => print(alloc, writer, text.as_bytes()),
        Err(_) => Err(Failure::Memory),
    }
}

/// How many of so many bytes are torn.
fn torn(kept: &Recovered, len: usize) -> u64 {
    (len as u64).saturating_sub(kept.bytes_kept)
}

/// Cuts a journal to so many bytes if that is sure, and tells what it keeps then. It is cut at the end of a
/// record only.
fn cut<T: Threads + Wait + Files<File = File> + Clock + Sync, W: Write, E: Write + Send>(
    looking: &Looking<'_, T>,
    len: u64,
    writer: &mut W,
    errors: &mut E,
) -> Result<(), Failure> {
    let Host { rt, alloc } = looking.host;
    let bytes = looking.bytes;
    let path = looking.words.journal;
    let Some((front, behind)) = parted(bytes, len) else {
        return Err(failed(
            alloc,
            path,
            format!(in alloc; "it has {} bytes only", bytes.len()).ok(),
        ));
    };
    let left = kept_of(looking, front, errors)?;
    if left.bytes_kept < len {
        return Err(failed(
            alloc,
            path,
            format!(in alloc;
                "no record ends at byte {len}; the last one before it ends at byte {}",
                left.bytes_kept
            )
            .ok(),
        ));
    }
    let count = left.commits.len();
    if !looking.words.is_sure {
        return Err(unsure(looking, behind.len(), count, errors));
    }
    cut_file(rt, alloc, path, bytes.len() as u64, len)?;
    tell(alloc, &left, front.len(), writer)
}

/// What is said before a journal is cut: what that would drop, and how many commits it would leave.
fn unsure<T: Threads + Wait + Clock + Sync, E: Write + Send>(
    looking: &Looking<'_, T>,
    dropped: usize,
    left: usize,
    errors: &mut E,
) -> Failure {
    let alloc = looking.host.alloc;
    let what = match recovered(looking, looking.bytes, errors) {
        Ok(all) => format!(in alloc;
            "{dropped} bytes, which keep {} commits,",
            all.commits.len().saturating_sub(left)
        ),
        Err(JournalFault::Memory) => return Failure::Memory,
        // How many commits they keep is not known.
        Err(_) => format!(in alloc; "{dropped} bytes"),
    };
    let (Ok(what), Some(path)) = (what, shown(alloc, looking.words.journal)) else {
        return Failure::Memory;
    };
    Failure::new(
        Status::NotRead,
        format!(in alloc;
            "batchdb: {path}: this would drop {what} and leave {left} commits; say --yes to do it"
        ).ok(),
    )
}

/// So many bytes from the front, and the others; `None` where there are fewer.
fn parted(bytes: &[u8], len: u64) -> Option<(&[u8], &[u8])> {
    let len = usize::try_from(len).ok()?;
    if len > bytes.len() {
        return None;
    }
    Some(bytes.split_at(len))
}

/// Cuts the journal in a file, which nobody else may have open, and which has as many bytes as were looked at.
fn cut_file<T: Files<File = File>>(
    rt: &T,
    alloc: Global,
    path: &str,
    seen: u64,
    len: u64,
) -> Result<(), Failure> {
    let mut journal = opened(rt, alloc, path, "a primary has the journal open")?;
    if len_of(rt, path) != seen {
        return Err(failed(
            alloc,
            path,
            format!(in alloc; "it was written to meanwhile; look at it again").ok(),
        ));
    }
    match journal.cut_to(len) {
        Ok(()) => Ok(()),
        Err(FileFault::System(error)) => Err(refused(alloc, path, "cut", error)),
        Err(fault) => Err(failed(alloc, path, format!(in alloc; "{fault}").ok())),
    }
}

/// The journal in a file; `locked` is said where another process has it open.
pub fn opened<T: Files<File = File>>(
    rt: &T,
    alloc: Global,
    path: &str,
    locked: &str,
) -> Result<FileJournal, Failure>
    ensures { IfOk result (λ journal. journal.faults ≡ 0) }
{
    match FileJournal::open(rt, path) {
        Ok(journal) => Ok(journal),
        Err(OpenFault::Locked) => Err(failed(alloc, path, format!(in alloc; "{locked}").ok())),
        Err(OpenFault::System(error)) => Err(refused(alloc, path, "open", error)),
    }
}

/// Prints the commits of a journal, from one on, as jobs that a primary does again. All are of worker 0, so that
/// they are done one after the other. Values are those of the columns that a table has where the entry stands.
/// If it is to, it says once a second how many commits it has gone through.
fn dump<T: Threads + Wait + Clock + Sync, W: Write, E: Write + Send>(
    looking: &Looking<'_, T>,
    writer: &mut W,
    errors: &mut E,
) -> Result<(), Failure> {
    let Host { alloc, .. } = looking.host;
    let setup = looking.setup;
    let words = looking.words;
    let recovered = kept_of(looking, looking.bytes, errors)?;
    tell_dumped(alloc, &recovered, looking.bytes.len(), writer)?;
    let Ok(mut kinds) = opening_kinds(alloc, &setup.schema) else {
        return Err(Failure::Memory);
    };
    let count = recovered.commits.len();
    let mut progress = Progress::begin(looking.host, words.shows);
    for (index, commit) in recovered.commits.iter().enumerate() {
        if progress.is_due() {
            let _ = writeln!(errors, "dumped {index} of {count} commits");
        }
        let mut text = Vec::new(alloc);
        match push_job(
            alloc,
            &mut text,
            &setup.schema,
            &mut kinds,
            index as u64,
            commit,
        ) {
            Ok(()) if index as u64 + 1 >= words.from => print(alloc, writer, text.as_slice())?,
            // The columns that it adds are those of the commits behind it.
            Ok(()) => {}
            Err(_) => return Err(Failure::Memory),
        }
    }
    Ok(())
}

/// The kinds of each table's columns before the first commit.
fn opening_kinds(alloc: Global, schema: &Schema) -> Result<Vec<KindList>, AllocError> {
    let mut kinds = Vec::new(alloc);
    for table in 0..schema.len() {
        kinds.push(KindList::from_slice(alloc, schema.kinds(table).unwrap_or(&[]))?)?;
    }
    Ok(kinds)
}

/// Puts the kind of the column that an entry adds behind those of its table.
fn add_kind(alloc: Global, kinds: &mut [KindList], entry: &Entry) -> Result<(), AllocError> {
    if let Entry::AddColumn { table, default } = entry
        && let Some(columns) = kinds.get_mut(*table as usize)
    {
        *columns = columns.with(alloc, default.kind())?;
    }
    Ok(())
}

/// Pushes the lines of the job that makes a commit, behind a comment that has its number and worker. The
/// kinds are those of the tables' columns before the commit, and then those after it.
fn push_job(
    alloc: Global,
    text: &mut Vec<u8>,
    schema: &Schema,
    kinds: &mut [KindList],
    index: u64,
    commit: &Commit,
) -> Result<(), AllocError> {
    text.extend_from_slice(b"# commit ")?;
    append_number(text, index.saturating_add(1))?;
    text.extend_from_slice(b" of worker ")?;
    append_number(text, commit.worker)?;
    text.extend_from_slice(b"\njob 0\n")?;
    for entry in commit.entries.as_slice() {
        push_change(text, schema, kinds, entry)?;
        add_kind(alloc, kinds, entry)?;
    }
    text.extend_from_slice(b"end\n")
}

/// Pushes the line of the change that makes an entry, in tables with columns of these kinds.
fn push_change(
    text: &mut Vec<u8>,
    schema: &Schema,
    kinds: &[KindList],
    entry: &Entry,
) -> Result<(), AllocError> {
    match entry {
        Entry::Insert { table, row, bytes } => {
            push_front(text, schema, "insert", *table, *row)?;
            push_values(text, kinds_of(kinds, *table), bytes.as_slice())?;
        }
        Entry::Patch {
            table,
            row,
            offset,
            bytes,
        } => {
            push_front(text, schema, "set", *table, *row)?;
            if let Some((column, kind)) = column_at(
                kinds_of(kinds, *table),
                *offset as usize,
                bytes.len(),
            ) {
                text.extend_from_slice(b" ")?;
                append_number(text, column as u64)?;
                push_values(text, &[kind], bytes.as_slice())?;
            }
        }
        Entry::Delete { table, row } => push_front(text, schema, "delete", *table, *row)?,
        Entry::AddColumn { table, default } => {
            push_name(text, schema, "column", *table)?;
            text.extend_from_slice(b" ")?;
            append_value(text, default)?;
        }
    }
    text.extend_from_slice(b"\n")
}

/// Pushes the name of a change, its table and its row.
fn push_front(
    text: &mut Vec<u8>,
    schema: &Schema,
    change: &str,
    table: u8,
    row: RowId,
) -> Result<(), AllocError> {
    push_name(text, schema, change, table)?;
    text.extend_from_slice(b" ")?;
    append_number(text, row.0)
}

/// Pushes the name of a change, and its table.
fn push_name(
    text: &mut Vec<u8>,
    schema: &Schema,
    change: &str,
    table: u8,
) -> Result<(), AllocError> {
    text.extend_from_slice(change.as_bytes())?;
    text.extend_from_slice(b" ")?;
    text.extend_from_slice(schema.name(table as usize).unwrap_or("").as_bytes())
}

/// The kinds of a table's columns.
fn kinds_of(kinds: &[KindList], table: u8) -> &[Kind] {
    match kinds.get(table as usize) {
        Some(columns) => columns.as_slice(),
        None => &[],
    }
}

/// Pushes the values of columns of these kinds, which these bytes are.
fn push_values(text: &mut Vec<u8>, kinds: &[Kind], bytes: &[u8]) -> Result<(), AllocError> {
    let mut rest = bytes;
    for kind in kinds {
        if !kind.is_good() || kind.width() > rest.len() {
            return Ok(());
        }
        text.extend_from_slice(b" ")?;
        append_value(text, &first_value(*kind, rest))?;
        let (_, after) = rest.split_at(kind.width());
        rest = after;
    }
    Ok(())
}
