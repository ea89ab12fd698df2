//! The replica's core: bytes and values in, bytes and values out.

ghost use Rattle.std.specs.Prelude.{◌≡◌, ℕ, ◌<◌, ◌≤◌, ◌^◌, ◌-◌, [], Some, true, false, Ok, Err, OnOk, IfOk, IfErr, IsOk};
ghost use Rattle.std.specs.Prelude.{take, vec_capacity, All, slice_get};
ghost use Rattle.std.specs.List.{AllByRecursion};
ghost use Rattle.std.specs.Option.{option_map};
ghost use Rattle.rows.specs.Faults.{IsFaultOf};
ghost use Rattle.rows.specs.Limits.{workers_max, replicas_max};
ghost use Rattle.rows.specs.Shape.{shape_of};
ghost use Rattle.rows.specs.Tables.{opening, shape_in};
ghost use Rattle.queries.specs.Checking.{checked};
ghost use Rattle.intake.specs.Steps.{lacking};
ghost use Rattle.wire.specs.Reading.{reading};
ghost use Rattle.wire.specs.declared.datagram.Datagram.TheVariants as DatagramOf;
ghost use Rattle.dispatcher.specs.State.{Replica, protocol_of};
ghost use Rattle.dispatcher.specs.Images.{piece_frame};
ghost use Rattle.dispatcher.specs.Protocol.{is_own, by_image, bases_at, fetched_for, fetched_in, lacking_piece, pull_for, want_for};
ghost use Rattle.dispatcher.specs.Gaps.{gaps_of, piece_gaps_of, image_base_of};
ghost use Rattle.dispatcher.specs.Steps.{started_replica, opened, asked, renewed, received, frame_comes, piece_comes, goes_on};
ghost use Rattle.dispatcher.specs.Steps.{own_head_comes, MayTake, readiness_of, at_fetched, BatchFits, MayRun, dumped};
ghost use Rattle.dispatcher.specs.Inner.Held.{fetched_of};
ghost use Rattle.dispatcher.specs.Inner.Merging.{CanGoOn, merging_of};
ghost use Rattle.dispatcher.specs.Inner.Parts.{CatchesUp, Applies, Reaches, AppliesImage, MayAnswerBatch};

use crate::batch::{Batch, Fetched, bases_for, wants_piece};
use crate::counting::copy_of;
use crate::faults::{AskFault, CatchUpFault, DumpFault, OpenFault, catch_up_fault};
use crate::gaps::{Gap, push_gaps};
use crate::merge::{Merge, apply_merge, begun_merge};
use crate::outcome::{Got, Run, got_of};
use crate::pieces::Pieces;
use crate::sending::{ask_out, pull_out, want_out};
use crate::table_text::table_text;
use intake::{Intake, Taken, frames_are_gained, known_frames_stay_kept};
use ordering::{OrderFault, one_merge, parts_make_the_merge};
use plans::answer_batch;
use queries::{Plan, report};
use rows::laws::changes_tell_kinds;
use rows::limits::WAITING_QUERIES_MAX;
use rows::{ByteList, Kind, Schema};
use std::alloc::{AllocError, Global};
use std::marker::{Model, Sync};
use std::thread::Threads;
use store::ApplyStore;
use update_log::Frame;
use wire::{Counts, Datagram, Head, LentEntries, Out, read};

/// How many pieces of an image are applied at once: some 40,000 rows of two numbers.
const PART_PIECES: usize = 1024;

/// A replica of one primary, on a store of its own.
///
/// Contracts see what has arrived from each worker and of an image, the tables of its store and their
/// version, the waiting queries, and its batch; they see nothing of the pieces and the tables of a
/// broken replica.
#[derive(Drop)]
pub struct ReplicaCore<S: ApplyStore + Sync> {
    alloc: Global,
    store: S,
    schema: Schema,
    workers: u8,
    number: u8,
    boot: u64,
    request: u64,
    intake: Intake,

    /// How many frames of each worker have been applied to the tables.
    applied: Counts,

    /// The pieces that came of the image at the base of the newest Head that was taken.
    pieces: Pieces,
    version: u64,
    waiting: Vec<Plan>,
    batch: Option<Batch>,
    broken: bool,
}

impl<S: ApplyStore + Sync> Model for ReplicaCore<S> {
    ghost use Rattle.dispatcher.specs.State.{Replica};

    ghost Value = { Replica };

    ghost use Rattle.dispatcher.specs.Inner.Invariant.{replica_of, IsCore};

    ghost view = { replica_of S.tables S.base_shape };

    ghost invariant = { IsCore S.is_whole S.tables S.base_shape };
}

impl<S: ApplyStore + Sync> ReplicaCore<S> {
    /// A replica without frames or queries, at version 0, for this many workers, on a whole store
    /// that was made with the tables of the schema and has no rows. Fails only if out of memory; the
    /// store is then dropped.
    pub fn start(
        alloc: Global,
        store: S,
        schema: &Schema,
        workers: u8,
        number: u8,
        boot: u64,
    ) -> Result<ReplicaCore<S>, AllocError>
    where
        S: Drop,
        requires whole { S.is_whole store ≡ true }
        requires tables { S.tables store ≡ opening (shape_of schema.now) }
        requires base { S.base_shape store ≡ shape_of schema.now }
        requires some_workers { 1 ≤ workers }
        requires few_workers { workers ≤ workers_max }
        requires number { number < replicas_max }
        ensures { IfOk result (λ replica. replica ≡ started_replica schema.now workers number boot) }
    {
        Ok(ReplicaCore {
            alloc,
            store,
            schema: schema.clone()?,
            workers,
            number,
            boot,
            request: 0,
            intake: Intake::new(alloc, workers)?,
            applied: Counts::zeros(workers),
            pieces: Pieces::new(alloc)?,
            version: 0,
            waiting: Vec::new(alloc),
            batch: None,
            broken: false,
        })
    }

    /// The number of its newest request; 0 before the first.
    pub fn request(&self) -> u64
        ensures { result ≡ self.now.request }
    {
        self.request
    }

    /// The version of its tables; for a broken replica the last version at which they were whole.
    pub fn version(&self) -> u64
        ensures { result ≡ self.now.version }
    {
        self.version
    }

    /// The kinds of a table's columns at its version, lent: those of the schema, and behind them those that were added. `None` if
    /// there is no table of that number, or the replica is broken. Takes no memory.
    pub fn kinds(&self, table: u8) -> Option<&[Kind]>
        ensures { option_map (λ kinds. kinds.now) result ≡ slice_get (shape_in self.now.tables) table }
    {
        if self.broken {
            return None;
        }
        self.store.kinds(table)
    }

    /// Whether `open` would take this query now. Takes no memory.
    ///
    /// Fails with the fault with which `open` would fail if there is enough memory.
    pub fn may_open(&self, plan: &Plan) -> Result<(), OpenFault>
        ensures ok { OnOk result (IsOk (opened self.now plan.now)) }
        ensures refused { IfErr result (λ fault. opened self.now plan.now ≡ Err fault) }
    {
        if self.broken {
            return Err(OpenFault::Broken);
        }
        if self.waiting.len() >= WAITING_QUERIES_MAX {
            return Err(OpenFault::BatchFull);
        }
        match plan.check_on(&self.store) {
            Ok(()) => Ok(()),
            Err(fault) => Err(OpenFault::BadPlan(fault)),
        }
    }

    /// Takes a query for the next batch, and answers how many now wait.
    ///
    /// Fails with the first of these, and changes nothing: `Broken`; `BatchFull`, 64 wait;
    /// `BadPlan`, the plan does not fit its tables, with its first fault; `Memory`.
    pub fn open(&mut self, plan: Plan) -> Result<usize, OpenFault>
        ensures ok { IfOk result (λ count. opened self.old plan ≡ Ok (count, self.new)) }
        ensures refused { IfErr result (λ fault. (self.new ≡ self.old) × IsFaultOf (opened self.old plan) OpenFault.Memory fault) }
    {
        self.may_open(&plan)?;
        match self.waiting.push(plan) {
            Ok(()) => Ok(self.waiting.len()),
            Err(_) => Err(OpenFault::Memory),
        }
    }

    /// Whether `ask` would ask now. Takes no memory.
    ///
    /// Fails with the fault with which `ask` would fail.
    pub fn may_ask(&self) -> Result<(), AskFault>
        ensures ok { OnOk result (IsOk (asked self.now)) }
        ensures refused { IfErr result (λ fault. asked self.now ≡ Err fault) }
    {
        if self.broken {
            return Err(AskFault::Broken);
        }
        match &self.batch {
            Some(batch) => {
                if batch.fetched.is_some() {
                    return Err(AskFault::Busy);
                }
            }
            None => {
                if self.waiting.is_empty() {
                    return Err(AskFault::Empty);
                }
            }
        }
        Ok(())
    }

    /// Asks for the newest durable version. Without a batch, it makes one of all waiting queries
    /// and increments the request number; while nothing is fetched for the batch, it repeats the
    /// same Ask. Takes no memory.
    ///
    /// Fails with the first of these, and changes nothing: `Broken`; `Busy`, the batch has its
    /// version; `Empty`, there is no batch and no query waits.
    pub fn ask(&mut self) -> Result<Out, AskFault>
        requires { self.old.request < 2 ^ 64 - 1 }
        ensures ok { IfOk result (λ out. asked self.old ≡ Ok (out, self.new)) }
        ensures refused { IfErr result (λ fault. (self.new ≡ self.old) × (asked self.old ≡ Err fault)) }
    {
        self.may_ask()?;
        if self.batch.is_none() {
            let plans = std::mem::replace(&mut self.waiting, Vec::new(self.alloc));
            self.request += 1;
            self.batch = Some(Batch {
                plans,
                fetched: None,
            });
        }
        Ok(ask_out(self.number, self.boot, self.request))
    }

    /// Gives up the version that was fetched for the batch, increments the request number, and asks
    /// for the newest durable version. What came is kept. For a batch that lacks frames or pieces
    /// which the primary does not keep any more. Takes no memory.
    ///
    /// Fails with the first of these, and changes nothing: `Broken`; `Empty`, there is no batch;
    /// `NoHead`, no version was fetched for it yet.
    pub fn renew(&mut self) -> Result<Out, AskFault>
        requires { self.old.request < 2 ^ 64 - 1 }
        ensures ok { IfOk result (λ out. renewed self.old ≡ Ok (out, self.new)) }
        ensures refused { IfErr result (λ fault. (self.new ≡ self.old) × (renewed self.old ≡ Err fault)) }
    {
        if self.broken {
            return Err(AskFault::Broken);
        }
        match &mut self.batch {
            None => return Err(AskFault::Empty),
            Some(batch) => {
                if batch.fetched.is_none() {
                    return Err(AskFault::NoHead);
                }
                batch.fetched = None;
            }
        }
        self.request += 1;
        Ok(ask_out(self.number, self.boot, self.request))
    }

    /// Takes bytes that arrived. A frame of an existing worker, the tables of whose entries exist,
    /// is kept if it is not known and not 4096 or more past its worker's first missing frame;
    /// otherwise it is not copied. A Head is taken if the batch waits for one; if its replica, boot,
    /// request and number of workers are the replica's own; and if neither its version nor a count
    /// goes back. If its base is above the replica's version, the batch goes by image: pieces of that
    /// base are then kept as frames are, and those of another base are forgotten; of frames the window
    /// begins at the base, and no base count may go back. Everything else is ignored. `Memory` is
    /// answered only if a frame or a piece would be kept.
    pub fn on_bytes(&mut self, bytes: &[u8]) -> Got
        ensures { MayTake self.old (received self.old bytes.now) result self.new }
    {
        if self.broken {
            return Got::Broken;
        }
        match read(bytes) {
            Ok(
                Datagram::Frame {
                    worker,
                    seq,
                    commit,
                    last,
                    entries,
                },
            ) => self.take_frame(worker, seq, commit, last, &entries),
            Ok(Datagram::Head(head)) => {
                if !self.is_own(&head) {
                    return Got::Ignored;
                }
                self.take_head(head)
            }
            Ok(
                Datagram::Piece {
                    base,
                    number,
                    last,
                    entries,
                },
            ) => self.take_piece(base, number, last, &entries, bytes),
            _ => Got::Ignored,
        }
    }

    /// Runs the batch: applies every commit up to the version that was fetched for it, and answers
    /// all its queries on those rows. It may use threads. Frames that have been applied are no longer
    /// kept. If the batch goes by image, the tables are first made anew of its pieces; each frame below
    /// its base is then known, and the pieces are no longer kept.
    ///
    /// If out of memory, it answers `Memory`: the batch and the known frames are unchanged, and the
    /// tables are at the old version or at the fetched one. If changes were being applied, it
    /// answers `Broken` instead. After `Inconsistent` or `Broken` the replica is broken for good.
    pub fn run<R: Threads + Sync>(&mut self, rt: &R) -> Run
        ensures { MayRun self.old result self.new }
    {
        if self.broken {
            return Run::Broken;
        }
        let Some(batch) = &self.batch else {
            return Run::NoBatch;
        };
        let Some(fetched) = &batch.fetched else {
            return Run::WaitingHead;
        };
        if let Some(number) = missing_piece(self.version, &self.pieces, fetched) {
            return Run::WaitingPiece {
                number,
                pull: pull_out(self.number, fetched.base, number),
            };
        }
        known_frames_stay_kept();
        if let Some((worker, seq)) = missing_frame(self.version, &self.intake, fetched) {
            return Run::Waiting {
                worker,
                seq,
                want: want_out(self.number, worker, seq),
            };
        }
        let fetched = fetched.copied();
        match self.catch_up(rt, &fetched) {
            Ok(()) => self.answer(rt),
            Err(CatchUpFault::Inconsistent) => Run::Inconsistent,
            Err(CatchUpFault::Memory) => Run::Memory,
            Err(CatchUpFault::Broken) => Run::Broken,
        }
    }

    /// The gaps in what the batch waits for, by worker and seq, and at most `most`, for which there is
    /// room: the places from which on frames below the counts that were fetched for it are missing, and
    /// from its bases on, if it goes by image. A gap covers `stride` seqs, and what it covers is not
    /// named again. Only seqs are named whose frames would be kept if they came, so none 4096 or more
    /// past its worker's first missing one. There are none before a version is fetched. Takes no memory.
    pub fn gaps(&self, stride: u64, most: usize, gaps: &mut Vec<Gap>)
        requires empty { gaps.old.items ≡ [] }
        requires room { most ≤ vec_capacity gaps.old }
        ensures gaps { gaps.new.items ≡ take most (gaps_of stride self.now) }
        ensures of_workers { All (λ gap. gap.worker < workers_max) gaps.new.items }
        ensures capacity { vec_capacity gaps.new ≡ vec_capacity gaps.old }
    {
        if self.broken {
            return;
        }
        let Some(batch) = &self.batch else {
            return;
        };
        if let Some(fetched) = &batch.fetched {
            push_gaps(
                &self.intake,
                fetched.bases_at(self.version),
                fetched.counts.as_slice(),
                stride,
                most,
                gaps,
            );
        }
    }

    /// The same of the pieces of the image that the batch goes by: the numbers from which on pieces are
    /// missing, each as a gap of worker 0. There are none if it does not go by image. Takes no memory.
    pub fn piece_gaps(&self, stride: u64, most: usize, gaps: &mut Vec<Gap>)
        requires empty { gaps.old.items ≡ [] }
        requires room { most ≤ vec_capacity gaps.old }
        ensures gaps { gaps.new.items ≡ take most (piece_gaps_of stride self.now) }
        ensures capacity { vec_capacity gaps.new ≡ vec_capacity gaps.old }
    {
        if self.broken {
            return;
        }
        let Some(batch) = &self.batch else {
            return;
        };
        if let Some(fetched) = &batch.fetched
            && fetched.is_by_image(self.version)
        {
            self.pieces.push_gaps(fetched.pieces, stride, most, gaps);
        }
    }

    /// The Want that asks for the frames of a gap. Takes no memory.
    pub fn want(&self, gap: Gap) -> Out
        requires { gap.worker < workers_max }
        ensures { result ≡ want_for self.now.number gap.worker gap.seq }
    {
        want_out(self.number, gap.worker, gap.seq)
    }

    /// The Pull that asks for the pieces of a gap in the image at this base. Takes no memory.
    pub fn pull(&self, base: u64, gap: Gap) -> Out
        ensures { result ≡ pull_for self.now.number base gap.seq }
    {
        pull_out(self.number, base, gap.seq)
    }

    /// The base of the image that the batch goes by; `None` if it does not go by one. Takes no memory.
    pub fn image_base(&self) -> Option<u64>
        ensures { result ≡ image_base_of self.now }
    {
        if self.broken {
            return None;
        }
        let Some(batch) = &self.batch else {
            return None;
        };
        match &batch.fetched {
            Some(fetched) if fetched.is_by_image(self.version) => Some(fetched.base),
            _ => None,
        }
    }

    /// The text of its tables at its version: a line `version V rows N`, N being the number of rows
    /// of all tables; then for each table in the schema's order, and for each of its rows in rising
    /// identifier, a line of the table's name, the row's identifier and its values, separated by
    /// one space. Numbers are decimal, octets `x` and lower-case hexadecimal. Each line ends with
    /// 0a.
    ///
    /// Fails with the first of these: `Broken`; `Memory`.
    pub fn dump(&self) -> Result<Vec<u8>, DumpFault>
        ensures ok { IfOk result (λ text. dumped self.now ≡ Ok text.items) }
        ensures refused { IfErr result (λ fault. IsFaultOf (dumped self.now) DumpFault.Memory fault) }
    {
        if self.broken {
            return Err(DumpFault::Broken);
        }
        match table_text(self.alloc, &self.store, &self.schema, self.version) {
            Ok(text) => Ok(text),
            Err(_) => Err(DumpFault::Memory),
        }
    }

    /// Takes a frame.
    fn take_frame(
        &mut self,
        worker: u8,
        seq: u64,
        commit: u64,
        last: bool,
        entries: &LentEntries<'_>,
    ) -> Got
        requires { self.old.broken ≡ false }
        ensures { let frame : Frame = record { worker = worker; seq = seq; commit = commit; last = last; entries = entries.now } in
            MayTake self.old (frame_comes self.old frame) result self.new }
    {
        known_frames_stay_kept();
        if worker >= self.workers {
            return Got::Ignored;
        }
        if !entries.have_table(self.schema.len()) {
            return Got::Ignored;
        }
        let bases = bases_for(self.version, &self.batch);
        match self.intake.would_take(bases, worker, seq) {
            Taken::Stored => {}
            taken => return got_of(taken),
        }
        let Ok(entries) = entries.to_list(self.alloc) else {
            return Got::Memory;
        };
        let frame = Frame {
            worker,
            seq,
            commit,
            last,
            entries,
        };
        got_of(self.intake.take_owned(bases, frame))
    }

    /// Takes the piece that these bytes spell.
    fn take_piece(
        &mut self,
        base: u64,
        number: u64,
        last: bool,
        entries: &LentEntries<'_>,
        bytes: &[u8],
    ) -> Got
        requires whole { self.old.broken ≡ false }
        requires spelled { reading bytes.now ≡ Ok (DatagramOf.Piece base number last entries.now) }
        ensures { MayTake self.old (piece_comes self.old (piece_frame base number last entries.now)) result self.new }
    {
        if !wants_piece(self.version, &self.batch, base, number) {
            return Got::Ignored;
        }
        if !entries.have_table(self.schema.len()) {
            return Got::Ignored;
        }
        got_of(self.pieces.take(self.alloc, base, number, last, bytes))
    }

    /// Whether a Head answers its newest request.
    fn is_own(&self, head: &Head) -> bool
        ensures { result ≡ is_own (protocol_of self.now) head.now }
    {
        head.replica == self.number && head.boot == self.boot && head.request == self.request
    }

    /// Whether a Head has a count for each worker, and goes on from what the replica has applied.
    fn goes_on(&self, head: &Head) -> bool
        ensures { result ≡ goes_on self.now head.now }
    {
        if head.counts.as_slice().len() != self.workers as usize {
            return false;
        }
        if head.base > self.version {
            return head.base <= head.version
                && self.applied.are_within(&head.lows)
                && head.lows.are_within(&head.counts);
        }
        head.version >= self.version && self.applied.are_within(&head.counts)
    }

    /// Takes a Head for its own replica, boot and request.
    fn take_head(&mut self, head: Head) -> Got
        requires { self.old.broken ≡ false }
        ensures { own_head_comes self.old head ≡ (result, self.new) }
    {
        if !self.goes_on(&head) {
            return Got::Ignored;
        }
        match &mut self.batch {
            Some(batch) => {
                if batch.fetched.is_some() {
                    return Got::Ignored;
                }
                let Head {
                    version,
                    base,
                    pieces,
                    lows,
                    counts,
                    ..
                } = head;
                let fetched = Fetched {
                    version,
                    base,
                    pieces,
                    lows,
                    counts,
                };
                self.intake.aim(fetched.bases_at(self.version));
                self.pieces.begin(base);
                batch.fetched = Some(fetched);
                Got::Head(version)
            }
            None => Got::Ignored,
        }
    }

    /// Catches up with what was fetched for the batch, for which nothing is missing, and is then at that
    /// version. The first part of the commits is merged before the first change: if that runs out of memory,
    /// nothing has changed.
    fn catch_up<R: Threads + Sync>(&mut self, rt: &R, fetched: &Fetched) -> Result<(), CatchUpFault>
        requires { fetched_in (readiness_of self.old) ≡ Some (fetched_of fetched.now) }
        ensures { CatchesUp self.old (fetched_of fetched.now) result self.new }
    {
        if fetched.is_by_image(self.version) {
            self.catch_up_by_image(rt, fetched)
        } else {
            self.catch_up_by_frames(rt, fetched)
        }
    }

    /// By the commits above its version.
    fn catch_up_by_frames<R: Threads + Sync>(
        &mut self,
        rt: &R,
        fetched: &Fetched,
    ) -> Result<(), CatchUpFault>
        requires ready { fetched_in (readiness_of self.old) ≡ Some (fetched_of fetched.now) }
        requires by_frames { by_image self.old.version (fetched_of fetched.now) ≡ false }
        ensures { CatchesUp self.old (fetched_of fetched.now) result self.new }
    {
        known_frames_stay_kept();
        parts_make_the_merge();
        match begun_merge(
            self.alloc,
            &self.intake,
            self.applied.as_slice(),
            self.version,
            fetched,
        ) {
            Ok(mut merge) => self.apply(rt, &mut merge, fetched),
            Err(OrderFault::Inconsistent) => {
                self.broken = true;
                Err(CatchUpFault::Inconsistent)
            }
            Err(OrderFault::Memory) => Err(CatchUpFault::Memory),
        }
    }

    /// By the image at the base, and the commits above the base.
    fn catch_up_by_image<R: Threads + Sync>(
        &mut self,
        rt: &R,
        fetched: &Fetched,
    ) -> Result<(), CatchUpFault>
        requires ready { fetched_in (readiness_of self.old) ≡ Some (fetched_of fetched.now) }
        requires by_image { by_image self.old.version (fetched_of fetched.now) ≡ true }
        ensures { CatchesUp self.old (fetched_of fetched.now) result self.new }
    {
        known_frames_stay_kept();
        parts_make_the_merge();
        if !self.pieces.are_marked(fetched.pieces) {
            self.broken = true;
            return Err(CatchUpFault::Inconsistent);
        }
        match begun_merge(
            self.alloc,
            &self.intake,
            fetched.lows.as_slice(),
            fetched.base,
            fetched,
        ) {
            Ok(mut merge) => self.apply_image(rt, &mut merge, fetched),
            Err(OrderFault::Inconsistent) => {
                self.broken = true;
                Err(CatchUpFault::Inconsistent)
            }
            Err(OrderFault::Memory) => Err(CatchUpFault::Memory),
        }
    }

    /// Makes the tables anew of the pieces, part by part, and applies the commits behind them. If there is no
    /// room for a part of the pieces, nothing has changed.
    fn apply_image<R: Threads + Sync>(
        &mut self,
        rt: &R,
        merge: &mut Merge,
        fetched: &Fetched,
    ) -> Result<(), CatchUpFault>
        requires ready { fetched_in (readiness_of self.old) ≡ Some (fetched_of fetched.now) }
        requires by_image { by_image self.old.version (fetched_of fetched.now) ≡ true }
        requires goes_on { CanGoOn self.old.arrivals fetched.now.counts fetched.now.version merge.old }
        ensures { AppliesImage self.old (fetched_of fetched.now) (merging_of self.old.arrivals fetched.now.counts merge.old) result
            self.new }
    {
        changes_tell_kinds();
        let Ok(mut part) = Vec::with_capacity(self.alloc, PART_PIECES) else {
            return Err(CatchUpFault::Memory);
        };
        self.store.clear();
        match self
            .pieces
            .apply_to(rt, self.alloc, fetched.pieces, &mut part, &mut self.store)
        {
            Ok(()) => self.apply(rt, merge, fetched),
            Err(fault) => {
                self.broken = true;
                Err(catch_up_fault(fault))
            }
        }
    }

    /// Applies the commits that a merge has taken and those behind them, part by part, and is then at the
    /// version that was fetched, with its frames applied and no longer kept. If that fails, or a query of the
    /// batch does not fit the tables then, it is broken.
    fn apply<R: Threads + Sync>(
        &mut self,
        rt: &R,
        merge: &mut Merge,
        fetched: &Fetched,
    ) -> Result<(), CatchUpFault>
        requires whole { self.old.broken ≡ false }
        requires fetched { fetched_for self.old.batch ≡ Some (fetched_of fetched.now) }
        requires goes_on { CanGoOn self.old.arrivals fetched.now.counts fetched.now.version merge.old }
        ensures { Applies self.old (fetched_of fetched.now) self.old.tables (merging_of self.old.arrivals fetched.now.counts merge.old)
            result self.new }
    {
        changes_tell_kinds();
        one_merge();
        match apply_merge(
            self.alloc,
            rt,
            &self.intake,
            fetched,
            merge,
            &mut self.store,
        ) {
            Ok(()) => self.reach(fetched),
            Err(fault) => {
                self.broken = true;
                Err(fault)
            }
        }
    }

    /// Is at the version that was fetched, whose commits its tables have; it is broken if a query of the
    /// batch does not fit them.
    fn reach(&mut self, fetched: &Fetched) -> Result<(), CatchUpFault>
        requires whole { self.old.broken ≡ false }
        requires fetched { fetched_for self.old.batch ≡ Some (fetched_of fetched.now) }
        ensures { Reaches self.old (fetched_of fetched.now) result self.new }
    {
        if !self.batch_fits() {
            self.broken = true;
            return Err(CatchUpFault::Inconsistent);
        }
        self.move_to(fetched);
        Ok(())
    }

    /// Whether each query of the batch fits the tables as they are.
    fn batch_fits(&self) -> bool
        requires { self.now.broken ≡ false }
        ensures fits { result ≡ true → BatchFits self.now.tables self.now.batch }
        ensures not { result ≡ false → ¬ (BatchFits self.now.tables self.now.batch) }
    {
        match &self.batch {
            None => true,
            Some(batch) => all_fit(&self.store, &batch.plans),
        }
    }

    /// Is at the version that was fetched, whose commits its tables have.
    fn move_to(&mut self, fetched: &Fetched)
        requires whole { self.old.broken ≡ false }
        requires fetched { fetched_for self.old.batch ≡ Some (fetched_of fetched.now) }
        ensures { self.new ≡ at_fetched self.old (fetched_of fetched.now) self.old.tables }
    {
        known_frames_stay_kept();
        frames_are_gained();
        self.intake.gain(fetched.bases_at(self.version));
        self.intake.drop_below(fetched.counts.as_slice());
        self.pieces.forget(0);
        self.version = fetched.version;
        self.applied = copy_of(&fetched.counts);
    }

    /// Answers the batch on the tables as they are, which its queries fit, and ends it.
    fn answer<R: Threads + Sync>(&mut self, rt: &R) -> Run
        requires whole { self.old.broken ≡ false }
        requires fits { BatchFits self.old.tables self.old.batch }
        ensures { MayAnswerBatch self.old result self.new }
    {
        let Some(batch) = &self.batch else {
            return Run::NoBatch;
        };
        let Ok(answers) = answer_batch(rt, self.alloc, &self.store, &batch.plans) else {
            return Run::Memory;
        };
        let Ok(text) = report(self.alloc, self.version, &answers) else {
            return Run::Memory;
        };
        self.batch = None;
        Run::Answered(ByteList::from_vec(text))
    }
}

/// The number of the first piece that is missing of the image that a batch of a replica at this version
/// goes by.
fn missing_piece(version: u64, pieces: &Pieces, fetched: &Fetched) -> Option<u64>
    ensures { result ≡ option_map (λ (missing : ℕ × ℕ). missing.1) (lacking_piece version pieces.now (fetched_of fetched.now)) }
{
    if !fetched.is_by_image(version) {
        return None;
    }
    pieces.first_missing(fetched.pieces)
}

/// The first frame that such a batch lacks.
fn missing_frame(version: u64, intake: &Intake, fetched: &Fetched) -> Option<(u8, u64)>
    ensures { result ≡ lacking intake.now (bases_at version (fetched_of fetched.now)) fetched.now.counts }
{
    intake.first_missing_from(fetched.bases_at(version), fetched.counts.as_slice())
}

/// Whether each of these queries fits the tables of a store.
fn all_fit<S: ApplyStore>(store: &S, plans: &[Plan]) -> bool
    requires { S.is_whole store.now ≡ true }
    ensures fits { result ≡ true → AllByRecursion (λ plan. checked (shape_in (S.tables store.now)) plan ≡ Ok tt) plans.now }
    ensures not { result ≡ false → ¬ (AllByRecursion (λ plan. checked (shape_in (S.tables store.now)) plan ≡ Ok tt) plans.now) }
{
    for plan in plans {
        if plan.check_on(store).is_err() {
            return false;
        }
    }
    true
}
