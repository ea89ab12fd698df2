//! The interface to what keeps a journal's bytes.

ghost use Rattle.std.specs.Prelude.{◌≡◌, ℕ, ◌<◌, ◌≤◌, List, [], ◌++◌, length, take, Bool, true, OnOk, OnErr};
ghost use Rattle.journal.specs.Storing.{IsPartlyAppended, IsPartlyCut, CountsFault, CountsFaultOrMemory, faults_max};

use std::alloc::AllocError;

/// What keeps the bytes of a journal.
///
/// Contracts see the bytes that stand, what failed calls left behind them, how much room is
/// reserved, how many faults there were, and whether the store is honest: whether its bytes are
/// what its answers say. Statements about the bytes hold for honest stores, and no contract can
/// know whether a real device is honest. After an Ok of `append`, `cut_to` or `read_all` the store
/// is settled: nothing is left behind. Each fault is counted: a call fails with one only if the
/// count grew. All calls but `reserve` and `read_all` take no memory.
pub trait JournalStore {
    ghost use Rattle.std.specs.Prelude.{ℕ, List, Bool};

    /// Why a call failed.
    type Fault: Drop + Send;

    /// The bytes that stand: those that its answers account for.
    ghost standing: { Self → List ℕ };

    /// What failed calls left behind them.
    ghost left_behind: { Self → List ℕ };

    /// How many bytes an append may have.
    ghost room: { Self → ℕ };

    /// How many faults there were.
    ghost fault_count: { Self → ℕ };

    /// Whether the bytes are what the answers say.
    ghost is_honest: { Self → Bool };

    /// Reserves room for an append of this many bytes. Fails only if out of memory. The bytes that
    /// stand do not change.
    fn reserve(&mut self, count: usize) -> Result<(), AllocError>
        ensures room { OnOk result (count ≤ room self.new) }
        ensures standing { is_honest self.old ≡ true → standing self.new ≡ standing self.old }
        ensures left { is_honest self.old ≡ true → left_behind self.new ≡ left_behind self.old }
        ensures faults { fault_count self.new ≡ fault_count self.old }
        ensures honest { is_honest self.new ≡ is_honest self.old };

    /// Appends bytes to those that stand, in the room that was reserved for them. They are
    /// acknowledged if it answers Ok; if it fails, some beginning of them may be left. Takes no
    /// memory.
    fn append(&mut self, bytes: &[u8]) -> Result<(), Self::Fault>
        requires room { length bytes.now ≤ room self.old }
        requires countable { fault_count self.old < faults_max }
        ensures ok { is_honest self.old ≡ true → OnOk result (standing self.new ≡ standing self.old ++ bytes.now) }
        ensures err { is_honest self.old ≡ true
            → OnErr result (IsPartlyAppended (standing self.old) bytes.now (standing self.new)) }
        ensures settled { is_honest self.old ≡ true → OnOk result (left_behind self.new ≡ []) }
        ensures faults { CountsFault result (fault_count self.old) (fault_count self.new) }
        ensures honest { is_honest self.new ≡ is_honest self.old };

    /// Keeps the first `len` of the bytes that stand, and no others. If it fails, some beginning of
    /// the bytes is left, which is not shorter than `len`. The room does not become less. Takes no
    /// memory.
    fn cut_to(&mut self, len: u64) -> Result<(), Self::Fault>
        requires within { is_honest self.old ≡ true → len ≤ length (standing self.old) }
        requires countable { fault_count self.old < faults_max }
        ensures ok { is_honest self.old ≡ true → OnOk result (standing self.new ≡ take len (standing self.old)) }
        ensures err { is_honest self.old ≡ true → OnErr result (IsPartlyCut len (standing self.old) (standing self.new)) }
        ensures room { room self.old ≤ room self.new }
        ensures settled { is_honest self.old ≡ true → OnOk result (left_behind self.new ≡ []) }
        ensures faults { CountsFault result (fault_count self.old) (fault_count self.new) }
        ensures honest { is_honest self.new ≡ is_honest self.old };

    /// Reads the bytes that stand into a list, whatever it contained before. Fails with `None` if
    /// out of memory; after either failure nothing is known of the list. The bytes that stand do
    /// not change.
    fn read_all(&mut self, list: &mut Vec<u8>) -> Result<(), Option<Self::Fault>>
        requires { fault_count self.old < faults_max }
        ensures ok { is_honest self.old ≡ true → OnOk result (list.new.items ≡ standing self.old) }
        ensures standing { is_honest self.old ≡ true → standing self.new ≡ standing self.old }
        ensures settled { is_honest self.old ≡ true → OnOk result (left_behind self.new ≡ []) }
        ensures faults { CountsFaultOrMemory result (fault_count self.old) (fault_count self.new) }
        ensures honest { is_honest self.new ≡ is_honest self.old };

    /// How many faults there were. Takes no memory.
    fn faults(&self) -> u64
        ensures { result ≡ fault_count self.now };
}
