//! Runs of entries, and of commits.

ghost use Rattle.std.specs.Prelude.{◌≡◌, ◌==◌, length, true, Ok, OnOk, IfErr, nat_lt, if◌then◌else◌};
ghost use Rattle.rows.specs.Tables.{apply_entries};
ghost use Rattle.rows.specs.Commits.{apply_commits};
ghost use Rattle.store.specs.Changes.{StopsAt};
ghost use Rattle.store.specs.Faults.{FailsAs, have_entries, number_of};

use crate::faults::{ApplyFault, StoreFault};
use crate::store::Store;
use rows::{Commit, Entry};

/// Makes the changes of a list of entries in their order, up to the first that is refused.
///
/// Fails with the number of that entry, counted from 0, and the fault with which the store refuses
/// it. The changes of the entries before it have then been made, and no others. A store that is not
/// whole refuses the first entry.
pub fn run<S: Store>(store: &mut S, entries: &[Entry]) -> Result<(), (usize, S::Fault)>
    ensures ok { OnOk result (apply_entries (S.tables store.old) entries.now ≡ Ok (S.tables store.new)) }
    ensures err { IfErr result (λ stop. StopsAt (S.is_whole store.old) (S.tables store.old)
        (S.tables store.new) entries.now stop.0 (S.kind_of stop.1)) }
    ensures whole { S.is_whole store.new ≡ S.is_whole store.old }
    ensures base { S.base_shape store.new ≡ S.base_shape store.old }
{
    for (i, entry) in entries.iter().enumerate() {
        match store.change(entry) {
            Ok(()) => {}
            Err(fault) => return Err((i, fault)),
        }
    }
    Ok(())
}

/// Makes all changes of these commits in their order, up to the first that is refused.
///
/// Fails with `Inconsistent` if a change is refused, or with `Memory`, only if there is an entry to
/// apply.
pub fn run_commits<S: Store>(store: &mut S, commits: &[Commit]) -> Result<(), ApplyFault>
    requires { S.is_whole store.old ≡ true }
    ensures ok { OnOk result (apply_commits (S.tables store.old) commits.now ≡ Ok (S.tables store.new)) }
    ensures err { IfErr result (FailsAs true (have_entries commits.now) (apply_commits (S.tables store.old) commits.now)) }
    ensures whole { S.is_whole store.new ≡ true }
    ensures base { S.base_shape store.new ≡ S.base_shape store.old }
{
    for commit in commits {
        run_commit(store, commit.entries.as_slice())?;
    }
    Ok(())
}

/// Makes the changes of one commit's entries in their order, up to the first that is refused.
fn run_commit<S: Store>(store: &mut S, entries: &[Entry]) -> Result<(), ApplyFault>
    requires { S.is_whole store.old ≡ true }
    ensures ok { OnOk result (apply_entries (S.tables store.old) entries.now ≡ Ok (S.tables store.new)) }
    ensures err { IfErr result (FailsAs true (nat_lt 0 (length entries.now)) (apply_entries (S.tables store.old) entries.now)) }
    ensures whole { S.is_whole store.new ≡ true }
    ensures base { S.base_shape store.new ≡ S.base_shape store.old }
{
    match run(store, entries) {
        Ok(()) => Ok(()),
        Err((_, fault)) => Err(fault_of(S::kind(&fault))),
    }
}

/// Why commits were not applied to a whole store that refused a change with a fault of this number.
fn fault_of(kind: u8) -> ApplyFault
    ensures { result ≡ (if kind == number_of StoreFault.Memory then ApplyFault.Memory else ApplyFault.Inconsistent) }
{
    if kind == StoreFault::Memory.number() {
        ApplyFault::Memory
    } else {
        ApplyFault::Inconsistent
    }
}
