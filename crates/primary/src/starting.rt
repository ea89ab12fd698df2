//! Starting on a journal: recovery, and truncating or completing what a crash left.

ghost use Rattle.std.specs.Prelude.{◌≡◌, ◌<◌, ◌≤◌, ◌++◌, ℕ, length, take, true, IfOk, IfErr, OnOk, OnErr};
ghost use Rattle.rows.specs.Limits.{workers_max};
ghost use Rattle.rows.specs.Shape.{shape_of};
ghost use Rattle.journal.specs.Recovery.{IsRecovered};
ghost use Rattle.journal.specs.Storing.{IsPartlyAppended, IsPartlyCut, faults_max};
ghost use Rattle.journal.specs.Text.{journal_text};
ghost use Rattle.primary.specs.Inner.Opening.{IsOfStore, IsPartlyRepaired};
ghost use Rattle.primary.specs.Journaling.{IsKeptOf, IsFormOf, KeepsSame, IsStartRefusal, LeavesBytes, CountsStartFault, AreNumbered};
ghost use Rattle.primary.specs.Steps.{started_primary};

use crate::faults::StartFault;
use crate::lists::Lists;
use journal::{Form, JournalFault, JournalStore, Recovered, recover};
use rows::Schema;
use std::alloc::Global;
use update_log::one_cut;

/// What a start makes of a journal: the lists of the commits that it keeps, and the form of its text.
#[derive(Drop)]
pub struct Opened {
    pub lists: Lists,
    pub form: Form,
}

/// The lists of the commits that a journal keeps. What is torn after them is truncated; then a new
/// header is written where nothing is kept, and the mark behind a text of version 1. All memory is
/// taken before that. If it fails, the journal keeps the same commits, and its bytes are changed
/// only if it could not be truncated or written.
pub fn open<J: JournalStore>(
    alloc: Global,
    journal: &mut J,
    schema: &Schema,
    workers: u8,
) -> Result<Opened, StartFault<J::Fault>>
    requires some { 0 < workers }
    requires few { workers ≤ workers_max }
    requires countable { J.fault_count journal.old < faults_max }
    ensures ok { IfOk result (λ opened. opened.lists ≡ started_primary schema.now workers opened.lists.durable) }
    ensures form { IfOk result (λ opened. IsFormOf opened.form opened.lists.durable) }
    ensures kept { J.is_honest journal.old ≡ true → IfOk result (λ opened.
        IsKeptOf workers (shape_of schema.now) (J.standing journal.old) opened.lists.durable opened.form) }
    ensures text { J.is_honest journal.old ≡ true → IfOk result (λ opened.
        J.standing journal.new ≡ journal_text opened.form workers (shape_of schema.now) opened.lists.durable) }
    ensures refused { IfErr result
        (IsStartRefusal workers (shape_of schema.now) (J.is_honest journal.old) (J.standing journal.old)) }
    ensures same { J.is_honest journal.old ≡ true
        → OnErr result (KeepsSame workers (shape_of schema.now) (J.standing journal.old) (J.standing journal.new)) }
    ensures leaves { J.is_honest journal.old ≡ true
        → IfErr result (λ fault. LeavesBytes fault (J.standing journal.old) (J.standing journal.new)) }
    ensures no_fault { OnOk result (J.fault_count journal.new ≡ J.fault_count journal.old) }
    ensures faults { IfErr result (λ fault. CountsStartFault fault (J.fault_count journal.old) (J.fault_count journal.new)) }
    ensures honest { J.is_honest journal.new ≡ J.is_honest journal.old }
{
    journal::laws::stops_are_recovered();
    journal::laws::starts_go_on();
    journal::laws::texts_grow();
    let bytes = standing(alloc, journal)?;
    let recovered = kept(alloc, &bytes, schema, workers)?;
    let Ok(lists) = Lists::of(alloc, schema, workers, &recovered.commits) else {
        return Err(StartFault::Memory);
    };
    let Ok(missing) = recovered.missing_text(alloc, schema, workers) else {
        return Err(StartFault::Memory);
    };
    repair(journal, &bytes, &missing, recovered.bytes_kept)?;
    let form = recovered.form.started(recovered.commits.len() as u64);
    Ok(Opened { lists, form })
}

/// The bytes on a journal. They do not change.
fn standing<J: JournalStore>(
    alloc: Global,
    journal: &mut J,
) -> Result<Vec<u8>, StartFault<J::Fault>>
    requires { J.fault_count journal.old < faults_max }
    ensures ok { J.is_honest journal.old ≡ true → IfOk result (λ bytes. bytes.items ≡ J.standing journal.old) }
    ensures err { IfErr result IsOfStore }
    ensures same { J.is_honest journal.old ≡ true → J.standing journal.new ≡ J.standing journal.old }
    ensures no_fault { OnOk result (J.fault_count journal.new ≡ J.fault_count journal.old) }
    ensures faults { IfErr result (λ fault. CountsStartFault fault (J.fault_count journal.old) (J.fault_count journal.new)) }
    ensures honest { J.is_honest journal.new ≡ J.is_honest journal.old }
{
    let mut bytes = Vec::new(alloc);
    match journal.read_all(&mut bytes) {
        Ok(()) => Ok(bytes),
        Err(Some(fault)) => Err(StartFault::Store(fault)),
        Err(None) => Err(StartFault::Memory),
    }
}

/// The commits that the bytes of a journal keep.
fn kept<F>(
    alloc: Global,
    bytes: &[u8],
    schema: &Schema,
    workers: u8,
) -> Result<Recovered, StartFault<F>>
    ensures kept { IfOk result (λ recovered.
        IsRecovered workers (shape_of schema.now) bytes.now recovered.form recovered.commits.items recovered.bytes_kept) }
    ensures numbered { IfOk result (λ recovered. AreNumbered recovered.commits.items) }
    ensures refused { IfErr result (IsStartRefusal workers (shape_of schema.now) true bytes.now) }
    ensures no_fault { (count : ℕ) → IfErr result (λ fault. CountsStartFault fault count count) }
{
    one_cut();
    // A look at the length makes its range known to the proof: no list has more commits than bytes.
    let _ = bytes.len();
    match recover(alloc, bytes, schema, workers) {
        Ok(recovered) => Ok(recovered),
        Err(JournalFault::Memory) => Err(StartFault::Memory),
        Err(fault) => Err(StartFault::Journal(fault)),
    }
}

/// Truncates a journal of these bytes behind the kept ones, and appends what is missing. Room for
/// that is taken first.
fn repair<J: JournalStore>(
    journal: &mut J,
    bytes: &[u8],
    missing: &[u8],
    bytes_kept: u64,
) -> Result<(), StartFault<J::Fault>>
    requires standing { J.is_honest journal.old ≡ true → bytes.now ≡ J.standing journal.old }
    requires within { bytes_kept ≤ length bytes.now }
    requires countable { J.fault_count journal.old < faults_max }
    ensures ok { J.is_honest journal.old ≡ true → OnOk result (J.standing journal.new ≡ take bytes_kept bytes.now ++ missing.now) }
    ensures partly { J.is_honest journal.old ≡ true
        → OnErr result (IsPartlyRepaired missing.now bytes.now bytes_kept (J.standing journal.new)) }
    ensures leaves { J.is_honest journal.old ≡ true
        → IfErr result (λ fault. LeavesBytes fault (J.standing journal.old) (J.standing journal.new)) }
    ensures err { IfErr result IsOfStore }
    ensures no_fault { OnOk result (J.fault_count journal.new ≡ J.fault_count journal.old) }
    ensures faults { IfErr result (λ fault. CountsStartFault fault (J.fault_count journal.old) (J.fault_count journal.new)) }
    ensures honest { J.is_honest journal.new ≡ J.is_honest journal.old }
{
    if journal.reserve(missing.len()).is_err() {
        return Err(StartFault::Memory);
    }
    if bytes_kept < bytes.len() as u64 {
        journal.cut_to(bytes_kept).map_err(StartFault::Store)?;
    }
    if missing.is_empty() {
        return Ok(());
    }
    journal.append(missing).map_err(StartFault::Store)
}
