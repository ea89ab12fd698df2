//! The pieces of an image.

ghost use Rattle.std.specs.Prelude.{◌≡◌, ◌<◌, ◌≤◌, ◌++◌, ℕ, List, true, false, [], ◌∷◌, length, take, None, Some, Ok, vec_capacity, ◌⊎◌};
ghost use Rattle.std.specs.Prelude.{IsSome, IfOk, IfErr, OnOk, OnErr, IsErr};
ghost use Rattle.std.specs.Option.{option_map};
ghost use Rattle.rows.specs.declared.entry.Entry.{Entry as EntryOf};
ghost use Rattle.update_log.specs.declared.frame.Frame.{Frame as FrameOf};
ghost use Rattle.intake.specs.Kept.{AreKept, frames_between};
ghost use Rattle.intake.specs.State.{frame_of};
ghost use Rattle.intake.specs.Steps.{taken, lacking};
ghost use Rattle.store.specs.declared.faults.ApplyFault.TheVariants as ApplyFaultOf;
ghost use Rattle.wire.specs.Reading.{reading};
ghost use Rattle.wire.specs.declared.datagram.Datagram.TheVariants as DatagramOf;
ghost use Rattle.dispatcher.specs.State.{no_pieces};
ghost use Rattle.ordering.specs.Merging.{AreMarked};
ghost use Rattle.dispatcher.specs.Gaps.{gaps_from};
ghost use Rattle.dispatcher.specs.Images.{image_commits, piece_frame};
ghost use Rattle.dispatcher.specs.Inner.Held.{entries_in, waiting_entries, commits_in};
ghost use Rattle.dispatcher.specs.Inner.Parts.{IsPartDone};
ghost use Rattle.rows.specs.Commits.{apply_commits};
ghost use Rattle.store.specs.Faults.{FailsAs, have_entries};
ghost use Rattle.dispatcher.specs.Protocol.{pieces_for};

use crate::gaps::{Gap, push_gaps};
use intake::{Intake, Taken, arrivals_stay_of_a_list, known_frames_stay_kept};
use rows::{ByteList, Commit, Entry, EntryList, RowId};
use std::alloc::{AllocError, Global};
use std::marker::{Model, Sync};
use std::thread::Threads;
use store::{ApplyFault, ApplyStore};
use update_log::Frame;
use wire::{Datagram, read};

/// The pieces that came of the image at one base, by their numbers.
///
/// A piece waits as the datagram that brought it, which takes a quarter of the room of its entries: each
/// of these has a block of memory of its own. In the intake it is a frame of worker 0 whose seq is its
/// number, with one entry, whose data is the datagram. Contracts see the pieces as frames with their own
/// entries.
#[derive(Drop)]
pub struct Pieces {
    base: u64,
    intake: Intake,
}

impl Model for Pieces {
    ghost use Rattle.dispatcher.specs.State.{Pieces};
    ghost use Rattle.dispatcher.specs.Inner.Held.{AreKeptPieces, pieces_in};

    ghost Value = { Pieces };

    ghost view = { λ p. record { base = p.base; arrivals = pieces_in p.intake } };

    ghost invariant = { λ p. AreKeptPieces p.intake };
}

impl Pieces {
    /// No piece. Fails only if out of memory.
    pub fn new(alloc: Global) -> Result<Pieces, AllocError>
        ensures { IfOk result (λ pieces. pieces ≡ no_pieces 0) }
    {
        Ok(Pieces {
            base: 0,
            intake: Intake::new(alloc, 1)?,
        })
    }

    /// The answer to a piece, if there is memory.
    pub fn would_take(&self, number: u64) -> Taken
        ensures { (piece : FrameOf) → piece.worker ≡ 0 → piece.seq ≡ number → result ≡ (taken self.now.arrivals [] piece).0 }
    {
        self.intake.would_take(&[], 0, number)
    }

    /// Takes the piece that these bytes spell, and keeps a copy of them.
    pub fn take(&mut self, alloc: Global, base: u64, number: u64, last: bool, bytes: &[u8]) -> Taken
        ensures base { self.new.base ≡ self.old.base }
        ensures takes { (entries : List EntryOf) → reading bytes.now ≡ Ok (DatagramOf.Piece base number last entries)
            → ((result ≡ Taken.Memory) × (self.new.arrivals ≡ self.old.arrivals)
            × ((taken self.old.arrivals [] (piece_frame base number last entries)).0 ≡ Taken.Stored))
            ⊎ (taken self.old.arrivals [] (piece_frame base number last entries) ≡ (result, self.new.arrivals)) }
    {
        known_frames_stay_kept();
        match self.would_take(number) {
            Taken::Stored => {}
            taken => return taken,
        }
        let Ok(entries) = waiting(alloc, bytes) else {
            return Taken::Memory;
        };
        self.intake.take_owned(
            &[],
            Frame {
                worker: 0,
                seq: number,
                commit: base,
                last,
                entries,
            },
        )
    }

    /// The number of the first that is missing of an image of so many pieces.
    pub fn first_missing(&self, pieces: u64) -> Option<u64>
        ensures { result ≡ option_map (λ (missing : ℕ × ℕ). missing.1) (lacking self.now.arrivals [] (pieces ∷ [])) }
    {
        match self.intake.first_missing(&[pieces]) {
            None => None,
            Some((_, number)) => Some(number),
        }
    }

    /// Pushes the gaps in an image of so many pieces, by number, until there are `most`.
    pub fn push_gaps(&self, pieces: u64, stride: u64, most: usize, gaps: &mut Vec<Gap>)
        requires few { length gaps.old.items ≤ most }
        requires room { most ≤ vec_capacity gaps.old }
        ensures gaps { gaps.new.items ≡ take most (gaps.old.items ++ gaps_from stride 0 self.now.arrivals [] (pieces ∷ [])) }
        ensures capacity { vec_capacity gaps.new ≡ vec_capacity gaps.old }
    {
        push_gaps(&self.intake, &[], &[pieces], stride, most, gaps);
    }

    /// Forgets those of another base, and is for this one.
    pub fn begin(&mut self, base: u64)
        ensures { self.new ≡ pieces_for base self.old }
    {
        if self.base != base {
            self.forget(base);
        }
    }

    /// Forgets all, and is for this base.
    pub fn forget(&mut self, base: u64)
        ensures { self.new ≡ no_pieces base }
    {
        self.intake.forget();
        self.base = base;
    }

    /// Whether of the first so many pieces, which are there, the last alone is marked as such.
    pub fn are_marked(&self, pieces: u64) -> bool
        requires { lacking self.now.arrivals [] (pieces ∷ []) ≡ None }
        ensures marked { result ≡ true → AreMarked (frames_between self.now.arrivals 0 0 pieces) }
        ensures not { result ≡ false → ¬ (AreMarked (frames_between self.now.arrivals 0 0 pieces)) }
    {
        known_frames_stay_kept();
        are_marked(&self.intake, pieces)
    }

    /// Applies the first so many pieces, which are there, to a store, each as a commit of its entries, and forgets all, but for
    /// their base. It applies as many at once as an empty list has room for, so what is applied is not kept beside its rows.
    ///
    /// `Inconsistent` only if they cannot be applied; `Memory` also where there is no room for the entries of a piece. After a
    /// fault some of them may be applied.
    pub fn apply_to<S: ApplyStore, R: Threads + Sync>(
        &mut self,
        rt: &R,
        alloc: Global,
        pieces: u64,
        part: &mut Vec<Commit>,
        store: &mut S,
    ) -> Result<(), ApplyFault>
        requires there { lacking self.old.arrivals [] (pieces ∷ []) ≡ None }
        requires whole { S.is_whole store.old ≡ true }
        requires empty { part.old.items ≡ [] }
        requires room { 0 < vec_capacity part.old }
        ensures ok { OnOk result (apply_commits (S.tables store.old) (image_commits (frames_between self.old.arrivals 0 0 pieces))
            ≡ Ok (S.tables store.new)) }
        ensures stays_whole { OnOk result (S.is_whole store.new ≡ true) }
        ensures err { IfErr result (λ fault. fault ≡ ApplyFaultOf.Inconsistent
            → IsErr (apply_commits (S.tables store.old) (image_commits (frames_between self.old.arrivals 0 0 pieces)))) }
        ensures base { S.base_shape store.new ≡ S.base_shape store.old }
        ensures left { self.new ≡ no_pieces self.old.base }
    {
        known_frames_stay_kept();
        let applied = apply_each(rt, alloc, &mut self.intake, pieces, part, store);
        self.intake.forget();
        applied
    }
}

/// What stands for the entries of a piece while it waits, of the bytes that spell it. Fails only if out
/// of memory.
fn waiting(alloc: Global, bytes: &[u8]) -> Result<EntryList, AllocError>
    ensures { IfOk result (λ entries. waiting_entries entries ≡ entries_in (reading bytes.now)) }
{
    let bytes = ByteList::from_vec(Vec::from_slice(alloc, bytes)?);
    let mut entries = EntryList::new(alloc);
    entries.reserve_exact(1)?;
    entries.push(Entry::Insert {
        table: 0,
        row: RowId(0),
        bytes,
    })?;
    Ok(entries)
}

/// The entries of a piece that waited. Fails only if out of memory.
fn came(alloc: Global, waiting: &[Entry]) -> Result<EntryList, AllocError>
    ensures { IfOk result (λ entries. entries ≡ waiting_entries waiting.now) }
{
    match waiting.first() {
        Some(Entry::Insert { bytes, .. }) => entries_spelled(alloc, bytes.as_slice()),
        _ => Ok(EntryList::new(alloc)),
    }
}

/// The entries of the piece that these bytes spell. Fails only if out of memory.
fn entries_spelled(alloc: Global, bytes: &[u8]) -> Result<EntryList, AllocError>
    ensures { IfOk result (λ entries. entries ≡ entries_in (reading bytes.now)) }
{
    match read(bytes) {
        Ok(Datagram::Piece { entries, .. }) => entries.to_list(alloc),
        _ => Ok(EntryList::new(alloc)),
    }
}

/// A piece that is kept.
fn piece_at(intake: &Intake, number: u64) -> &Frame
    requires { IsSome (frame_of intake.now 0 number) }
    ensures { frame_of intake.now 0 number ≡ Some result.now }
{
    match intake.frame(0, number) {
        None => unreachable!(),
        Some(piece) => piece,
    }
}

/// Whether of the first so many pieces the last alone is marked as such.
fn are_marked(intake: &Intake, pieces: u64) -> bool
    requires { AreKept intake.now 0 0 pieces }
    ensures marked { result ≡ true → AreMarked (frames_between intake.now 0 0 pieces) }
    ensures not { result ≡ false → ¬ (AreMarked (frames_between intake.now 0 0 pieces)) }
{
    for number in 0..pieces {
        let piece = piece_at(intake, number);
        if piece.last != (number + 1 == pieces) {
            return false;
        }
    }
    true
}

/// Applies the first so many pieces to a store, each as a commit of its entries; as many at once as an empty list has room for.
fn apply_each<S: ApplyStore, R: Threads + Sync>(
    rt: &R,
    alloc: Global,
    intake: &mut Intake,
    pieces: u64,
    part: &mut Vec<Commit>,
    store: &mut S,
) -> Result<(), ApplyFault>
    requires worker { 0 < length intake.old }
    requires there { AreKept intake.old 0 0 pieces }
    requires whole { S.is_whole store.old ≡ true }
    requires empty { part.old.items ≡ [] }
    requires room { 0 < vec_capacity part.old }
    ensures ok { OnOk result (apply_commits (S.tables store.old) (commits_in (frames_between intake.old 0 0 pieces))
        ≡ Ok (S.tables store.new)) }
    ensures stays_whole { OnOk result (S.is_whole store.new ≡ true) }
    ensures err { IfErr result (λ fault. fault ≡ ApplyFaultOf.Inconsistent
        → IsErr (apply_commits (S.tables store.old) (commits_in (frames_between intake.old 0 0 pieces)))) }
    ensures base { S.base_shape store.new ≡ S.base_shape store.old }
    ensures workers { length intake.new ≡ length intake.old }
{
    arrivals_stay_of_a_list();
    for number in 0..pieces {
        let Some(piece) = intake.release(0, number) else {
            unreachable!()
        };
        let Ok(entries) = came(alloc, piece.entries.as_slice()) else {
            return Err(ApplyFault::Memory);
        };
        part.push_reserved(Commit { worker: 0, entries });
        match apply_part(rt, number + 1 == pieces, part, store) {
            Ok(()) => {}
            Err(fault) => return Err(fault),
        }
    }
    Ok(())
}

/// Applies these commits to a store and empties the list, if it has no more room or they are the last.
fn apply_part<S: ApplyStore, R: Threads + Sync>(
    rt: &R,
    is_last: bool,
    part: &mut Vec<Commit>,
    store: &mut S,
) -> Result<(), ApplyFault>
    requires { S.is_whole store.old ≡ true }
    ensures ok { OnOk result (IsPartDone is_last (vec_capacity part.old) (S.tables store.old) part.old.items (S.tables store.new)
        part.new.items) }
    ensures stays_whole { OnOk result (S.is_whole store.new ≡ true) }
    ensures err { IfErr result (FailsAs (S.is_whole store.old) (have_entries part.old.items)
        (apply_commits (S.tables store.old) part.old.items)) }
    ensures broken { OnErr result (S.is_whole store.new ≡ false) }
    ensures base { S.base_shape store.new ≡ S.base_shape store.old }
    ensures capacity { vec_capacity part.new ≡ vec_capacity part.old }
{
    if part.len() < part.capacity() && !is_last {
        return Ok(());
    }
    match store.apply_all(rt, part) {
        Ok(()) => {
            part.clear();
            Ok(())
        }
        Err(fault) => Err(fault),
    }
}
