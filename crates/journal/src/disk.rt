//! What a journal needs of the file that contains it.

ghost use Rattle.std.specs.Prelude.{◌≡◌, ℕ, ◌≤◌, List, ◌++◌, length, take, Bool, true, OnOk, OnErr};
ghost use Rattle.journal.specs.Storing.{IsPartlyAppended, IsPartlyCut};

use std::fs::File;
use std::io;
use std::os::unix::fs::FileExt;

/// A file that can contain a journal.
///
/// Contracts see its bytes, those that it had when it was last synced, and whether files of its
/// type are honest: whether their bytes are what their answers say. No contract can know that of a
/// file of the operating system, so none counts as honest.
pub trait Disk {
    ghost use Rattle.std.specs.Prelude.{ℕ, List, Bool};

    /// The bytes of the file.
    ghost content: { Self → List ℕ };

    /// The bytes that it had when it was last synced: a loss of power may bring them back.
    ghost synced: { Self → List ℕ };

    /// Whether the bytes are what the answers say.
    ghost is_honest: { Bool };

    /// Writes bytes after those of the file, whose length is `len`. If it fails, some beginning of
    /// them may follow the old bytes.
    fn append(&mut self, len: u64, bytes: &[u8]) -> io::Result<()>
        requires { is_honest ≡ true → len ≡ length (content self.old) }
        ensures ok { is_honest ≡ true → OnOk result (content self.new ≡ content self.old ++ bytes.now) }
        ensures err { is_honest ≡ true → OnErr result (IsPartlyAppended (content self.old) bytes.now (content self.new)) }
        ensures synced { is_honest ≡ true → synced self.new ≡ synced self.old };

    /// Truncates the file to its first `len` bytes. If it fails, some beginning of the old bytes is
    /// left, which is not shorter than `len`.
    fn cut_to(&mut self, len: u64) -> io::Result<()>
        requires { is_honest ≡ true → len ≤ length (content self.old) }
        ensures ok { is_honest ≡ true → OnOk result (content self.new ≡ take len (content self.old)) }
        ensures err { is_honest ≡ true → OnErr result (IsPartlyCut len (content self.old) (content self.new)) }
        ensures synced { is_honest ≡ true → synced self.new ≡ synced self.old };

    /// Syncs the bytes of the file, and how many they are.
    fn sync(&mut self) -> io::Result<()>
        ensures content { is_honest ≡ true → content self.new ≡ content self.old }
        ensures ok { is_honest ≡ true → OnOk result (synced self.new ≡ content self.old) }
        ensures err { is_honest ≡ true → OnErr result (synced self.new ≡ synced self.old) };

    /// Fills the list with the first bytes of the file, as many as the list has.
    fn read(&self, list: &mut [u8]) -> io::Result<()>
        requires { is_honest ≡ true → length list.old ≤ length (content self.now) }
        ensures len { length list.new ≡ length list.old }
        ensures ok { is_honest ≡ true → OnOk result (list.new ≡ take (length list.old) (content self.now)) };
}

impl Disk for File {
    ghost use Rattle.std.specs.Prelude.{[], false};

    ghost content = { λ _. [] };

    ghost synced = { λ _. [] };

    ghost is_honest = { false };

    fn append(&mut self, len: u64, bytes: &[u8]) -> io::Result<()> {
        self.write_all_at(bytes, len)
    }

    fn cut_to(&mut self, len: u64) -> io::Result<()> {
        self.set_len(len)
    }

    fn sync(&mut self) -> io::Result<()> {
        self.sync_data()
    }

    fn read(&self, list: &mut [u8]) -> io::Result<()> {
        self.read_exact_at(list, 0)
    }
}
