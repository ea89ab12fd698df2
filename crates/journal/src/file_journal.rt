//! A journal in a file.

ghost use Rattle.std.specs.Prelude.{◌≡◌, ◌+◌, ◌^◌, ◌<◌, ◌≤◌, [], ◌++◌, length, take, drop, true, false, Err, IfOk, IsErr, OnOk, OnErr};
ghost use Rattle.std.specs.Prelude.{is_some, nat_lt};
ghost use Rattle.journal.specs.Storing.{CountsFault, IsPartlyAppended, IsPartlyCut, faults_max};

use crate::disk::Disk;
use crate::faults::{FileFault, OpenFault};
use crate::journal_store::JournalStore;
use std::alloc::AllocError;
use std::fs::{File, Files, OpenOptions, TryLockError};
use std::io::{self, ErrorKind};
use std::marker::Model;
use std::os::unix::fs::OpenOptionsExt;
use std::path::Path;

/// Who may read and write a file that is made for a journal: only its owner, since it has all the
/// data.
const FILE_MODE: u32 = 0o600;

/// A journal in a file: a locked file of the operating system, or another `Disk`.
///
/// Contracts see the bytes that are known to be there; the journal is as honest as its file, and no
/// file of the operating system counts as honest. An append that is answered Ok was written and
/// synced. After a write or a truncation that failed, it appends nothing until `cut_to` or
/// `read_all` has cleared away what that left: the bytes after the last ones that are known to be
/// there.
#[derive(Drop)]
pub struct FileJournal<D: Disk = File> {
    disk: D,
    /// How many bytes are known to be there.
    len: u64,
    /// Whether others may follow them.
    unsettled: bool,
    faults: u64,
    /// The newest fault.
    last_fault: Option<FileFault>,
}

impl<D: Disk> Model for FileJournal<D> {
    ghost use Rattle.std.specs.Prelude.{◌≡◌, ◌++◌, take, drop, true, is_some, nat_lt};
    ghost use Rattle.journal.specs.State.{FileState};
    ghost use Rattle.journal.specs.Inner.Settling.{StandsIn};

    ghost Value = { FileState };

    ghost view = { λ j. record {
      bytes = take j.len (D.synced j.disk);
      left_behind = drop j.len (D.content j.disk) ++ drop j.len (D.synced j.disk);
      unsettled = j.unsettled;
      faults = j.faults;
    } };

    ghost invariant = { λ j. (D.is_honest ≡ true → StandsIn j.len j.unsettled (D.content j.disk) (D.synced j.disk))
        × (is_some j.last_fault ≡ nat_lt 0 j.faults) };
}

impl FileJournal<File> {
    /// Opens the journal at a path; makes the file if there is none, which only its owner may read
    /// and write. The content of the file is then synced, and so is the folder that has its name.
    ///
    /// Fails with `Locked` if another journal has the file open, and with `System` if the system
    /// refuses to make, open, lock or sync it.
    pub fn open<R: Files<File = File>>(
        files: &R,
        path: &str,
    ) -> Result<FileJournal<File>, OpenFault>
        ensures { IfOk result (λ journal. journal.faults ≡ 0) }
    {
        let file = open_file(files, path).map_err(OpenFault::System)?;
        lock(&file)?;
        let len = sync(files, path, &file).map_err(OpenFault::System)?;
        Ok(FileJournal::on(file, len))
    }
}

impl<D: Disk> FileJournal<D> {
    /// The journal in a file that has `len` bytes, all of which were synced.
    pub fn on(disk: D, len: u64) -> FileJournal<D>
        requires len { D.is_honest ≡ true → len ≡ length (D.content disk) }
        requires synced { D.is_honest ≡ true → D.synced disk ≡ D.content disk }
        ensures { result ≡ record {
          bytes = take len (D.synced disk);
          left_behind = drop len (D.content disk) ++ drop len (D.synced disk);
          unsettled = false;
          faults = 0;
        } }
    {
        FileJournal {
            disk,
            len,
            unsettled: false,
            faults: 0,
            last_fault: None,
        }
    }

    /// Why the newest call that failed did; `None` exactly while none has failed. With this a
    /// program can print the system's words when a primary reports only that its journal failed.
    /// Takes no memory.
    pub fn last_fault(&self) -> Option<FileFault>
        ensures { is_some result ≡ nat_lt 0 self.now.faults }
    {
        self.last_fault
    }

    /// Counts a fault, and keeps it.
    fn fault(&mut self, fault: FileFault) -> FileFault
        requires { self.old.faults < faults_max }
        ensures counted { self.new ≡ record self.old { faults = self.old.faults + 1 } }
        ensures same { result ≡ fault }
    {
        self.faults += 1;
        self.last_fault = Some(fault);
        fault
    }

    /// The length of the file after an append of that many bytes. Fails with `Unsettled` if an
    /// earlier write or truncation failed, and with `System` if no length is that large; then the
    /// fault is counted, and nothing else changes.
    fn end_after(&mut self, count: usize) -> Result<u64, FileFault>
        requires { self.old.faults < faults_max }
        ensures ok { OnOk result (self.new ≡ self.old) }
        ensures settled { OnOk result (self.old.unsettled ≡ false) }
        ensures unsettled { self.old.unsettled ≡ true → result ≡ Err FileFault.Unsettled }
        ensures end { D.is_honest ≡ true → IfOk result (λ end. end ≡ length self.old.bytes + count) }
        ensures err { OnErr result (self.new ≡ record self.old { faults = self.old.faults + 1 }) }
    {
        if self.unsettled {
            return Err(self.fault(FileFault::Unsettled));
        }
        let Some(end) = self.len.checked_add(count as u64) else {
            let error = io::Error::from(ErrorKind::FileTooLarge);
            return Err(self.fault(FileFault::System(error)));
        };
        Ok(end)
    }
}

/// Appends bytes to a file and syncs them. If it fails, some beginning of them may follow the old
/// bytes.
fn append_synced<D: Disk>(disk: &mut D, len: u64, bytes: &[u8]) -> io::Result<()>
    requires { D.is_honest ≡ true → len ≡ length (D.content disk.old) }
    ensures ok { D.is_honest ≡ true → OnOk result (D.content disk.new ≡ D.content disk.old ++ bytes.now) }
    ensures err { D.is_honest ≡ true → OnErr result (IsPartlyAppended (D.content disk.old) bytes.now (D.content disk.new)) }
    ensures synced { D.is_honest ≡ true → OnOk result (D.synced disk.new ≡ D.content disk.new) }
    ensures kept { D.is_honest ≡ true → OnErr result (D.synced disk.new ≡ D.synced disk.old) }
{
    disk.append(len, bytes)?;
    disk.sync()
}

/// Truncates a file and syncs that. If it fails, some beginning of the old bytes is left, which is
/// not shorter than `len`.
fn cut_synced<D: Disk>(disk: &mut D, len: u64) -> io::Result<()>
    requires { D.is_honest ≡ true → len ≤ length (D.content disk.old) }
    ensures ok { D.is_honest ≡ true → OnOk result (D.content disk.new ≡ take len (D.content disk.old)) }
    ensures err { D.is_honest ≡ true → OnErr result (IsPartlyCut len (D.content disk.old) (D.content disk.new)) }
    ensures synced { D.is_honest ≡ true → OnOk result (D.synced disk.new ≡ D.content disk.new) }
    ensures kept { D.is_honest ≡ true → OnErr result (D.synced disk.new ≡ D.synced disk.old) }
{
    disk.cut_to(len)?;
    disk.sync()
}

/// The file at a path, for reading and writing; it is made if there is none.
fn open_file<R: Files<File = File>>(files: &R, path: &str) -> io::Result<File> {
    OpenOptions::new()
        .read(true)
        .write(true)
        .create(true)
        .mode(FILE_MODE)
        .open(files, path)
}

/// Takes the file's lock, which ends with the file.
fn lock(file: &File) -> Result<(), OpenFault> {
    match file.try_lock() {
        Ok(()) => Ok(()),
        Err(TryLockError::WouldBlock) => Err(OpenFault::Locked),
        Err(TryLockError::Error(error)) => Err(OpenFault::System(error)),
    }
}

/// Syncs the file and the folder that has its name: what an earlier process wrote and did not sync
/// must not be lost after it was read. Answers how many bytes the file has.
fn sync<R: Files<File = File>>(files: &R, path: &str, file: &File) -> io::Result<u64> {
    file.sync_all()?;
    File::open(files, folder_of(path))?.sync_all()?;
    Ok(file.metadata()?.len())
}

/// The path of the folder that has the name of the file at a path.
fn folder_of(path: &str) -> &str {
    match Path::new(path).parent() {
        Some(folder) if !folder.as_str().is_empty() => folder.as_str(),
        Some(_) | None => ".",
    }
}

impl<D: Disk> JournalStore for FileJournal<D> {
    ghost use Rattle.journal.specs.Storing.{room_max};

    type Fault = FileFault;

    ghost standing = { λ j. j.bytes };

    ghost left_behind = { λ j. j.left_behind };

    ghost room = { λ _. room_max };

    ghost fault_count = { λ j. j.faults };

    ghost is_honest = { λ _. D.is_honest };

    /// A file needs no room reserved.
    fn reserve(&mut self, _count: usize) -> Result<(), AllocError> {
        Ok(())
    }

    /// Appends the bytes, and syncs them. Fails with `Unsettled` if an earlier write or truncation
    /// failed, and with `System`. After `Unsettled`, or if no length is that large, only the fault is
    /// counted, and nothing else changes.
    fn append(&mut self, bytes: &[u8]) -> Result<(), FileFault>
        requires { self.old.faults < faults_max }
        ensures ok { D.is_honest ≡ true → OnOk result (self.new.bytes ≡ self.old.bytes ++ bytes.now) }
        ensures err { D.is_honest ≡ true → OnErr result (IsPartlyAppended self.old.bytes bytes.now self.new.bytes) }
        ensures settled { D.is_honest ≡ true → OnOk result (self.new.left_behind ≡ []) }
        ensures faults { CountsFault result self.old.faults self.new.faults }
        ensures unsettled { self.old.unsettled ≡ true
            → (result ≡ Err FileFault.Unsettled) × (self.new ≡ record self.old { faults = self.old.faults + 1 }) }
        ensures too_large { D.is_honest ≡ true → 2 ^ 64 ≤ length self.old.bytes + length bytes.now
            → IsErr result × (self.new ≡ record self.old { faults = self.old.faults + 1 }) }
    {
        let end = self.end_after(bytes.len())?;
        match append_synced(&mut self.disk, self.len, bytes) {
            Ok(()) => {
                self.len = end;
                Ok(())
            }
            Err(error) => {
                self.unsettled = true;
                Err(self.fault(FileFault::System(error)))
            }
        }
    }

    /// Truncates the file to this many bytes, and syncs that. Whatever an earlier write left is
    /// then gone.
    fn cut_to(&mut self, len: u64) -> Result<(), FileFault> {
        self.len = self.len.min(len);
        match cut_synced(&mut self.disk, self.len) {
            Ok(()) => {
                self.unsettled = false;
                Ok(())
            }
            Err(error) => {
                self.unsettled = true;
                Err(self.fault(FileFault::System(error)))
            }
        }
    }

    /// Reads the whole file. First it truncates what an earlier write that failed may have left
    /// after the bytes that are known to be there: it was not synced, so reading it proves nothing.
    fn read_all(&mut self, list: &mut Vec<u8>) -> Result<(), Option<FileFault>> {
        if self.unsettled {
            if let Err(fault) = self.cut_to(self.len) {
                return Err(Some(fault));
            }
        }
        list.clear();
        if list.resize(self.len as usize, 0).is_err() {
            return Err(None);
        }
        match self.disk.read(list) {
            Ok(()) => Ok(()),
            Err(error) => Err(Some(self.fault(FileFault::System(error)))),
        }
    }

    fn faults(&self) -> u64 {
        self.faults
    }
}
