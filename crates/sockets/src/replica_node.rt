//! A replica's node: it asks, receives, runs, and reports.

ghost use Rattle.std.specs.Prelude.{◌≡◌, ◌<◌, ◌⊎◌, ◌∷◌, [], true, None, Err, Some, IfOk, IfErr, OnOk, IsOk, All};
ghost use Rattle.std.specs.List.{Contains};
ghost use Rattle.rows.specs.Limits.{workers_max};
ghost use Rattle.update_log.specs.Limits.{want_frames_max};
ghost use Rattle.dispatcher.specs.Gaps.{gaps_of, piece_gaps_of, image_base_of};
ghost use Rattle.wire.specs.Reading.{reading};
ghost use Rattle.dispatcher.specs.Steps.{asked, received, MayTake};
ghost use Rattle.dispatcher.specs.declared.faults.AskFault.TheVariants as asks;
ghost use Rattle.sockets.specs.Traffic.{no_traffic, with_heard};
ghost use Rattle.sockets.specs.Replicas.{DoesReplica, OffersOf, failures, handed, report_of, turn_of, counted_as, frames_at, expected_of};
ghost use Rattle.sockets.specs.Inner.Steps.{report_in, heard_as, OpensOf};
ghost use Rattle.sockets.specs.declared.faults.ServeFault.TheVariants.{Broken};
ghost use Rattle.sockets.specs.declared.turned.Turned.TheVariants.{Waits, Idle};

use crate::faults::ServeFault;
use crate::fetched_image::{FetchedImage, ImageCount};
use crate::port::{Patience, Port};
use crate::sending::send;
use crate::sums::sum_of;
use crate::traffic::{Counted, Traffic};
use crate::turned::Turned;
use crate::turns::{BUFFER_LEN, ROUND_DATAGRAMS};
use crate::under_way::{UnderWay, WANTS_MAX};
use dispatcher::{AskFault, Gap, Got, OpenFault, ReplicaCore, Run};
use queries::Plan;
use rows::ByteList;
use std::alloc::Global;
use std::marker::{Model, Sync};
use std::mem;
use std::thread::Threads;
use store::ApplyStore;
use update_log::limits::WANT_FRAMES_MAX;
use wire::{Datagram, read};

/// How many rounds of receives a turn has, at most.
const TURN_ROUNDS: usize = 64;

/// A replica and its port, with what went through the port.
///
/// Contracts see the replica, the port, what went through it, and how many frames the newest Head
/// told of.
#[derive(Drop)]
pub struct ReplicaNode<S: ApplyStore + Sync, P: Port> {
    core: ReplicaCore<S>,
    port: P,
    buffer: [u8; BUFFER_LEN],
    traffic: Traffic,
    /// How many frames there were at the newest Head that was taken.
    expected: Option<u64>,
    under_way: UnderWay,
    image: ImageCount,
    /// Room for the gaps that are asked for, in frames or in pieces.
    gaps: Vec<Gap>,
    alloc: Global,
}

impl<S: ApplyStore + Sync, P: Port> Model for ReplicaNode<S, P> {
    ghost use Rattle.sockets.specs.State.{ReplicaState};

    ghost Value = { ReplicaState P };

    ghost view = { λ n. record { core = n.core; port = n.port; traffic = n.traffic; expected = n.expected } };
}

impl<S: ApplyStore + Sync, P: Port> ReplicaNode<S, P> {
    /// The node of a replica at a port. Takes no memory.
    pub fn new(alloc: Global, core: ReplicaCore<S>, port: P) -> ReplicaNode<S, P>
        ensures { result ≡ record { core = core; port = port; traffic = no_traffic; expected = None } }
    {
        ReplicaNode {
            core,
            port,
            buffer: [0u8; BUFFER_LEN],
            traffic: Traffic::none(),
            expected: None,
            under_way: UnderWay::nothing(),
            image: ImageCount::none(),
            gaps: Vec::new(alloc),
            alloc,
        }
    }

    /// The replica, lent. Takes no memory.
    pub fn core(&self) -> &ReplicaCore<S>
        ensures { result.now ≡ self.now.core }
    {
        &self.core
    }

    /// The port, lent. Takes no memory.
    pub fn port(&self) -> &P
        ensures { result.now ≡ self.now.port }
    {
        &self.port
    }

    /// The port, lent to be changed. Takes no memory.
    pub fn port_mut(&mut self) -> &mut P
        ensures { result.now ≡ self.old.port }
    {
        &mut self.port
    }

    /// What went through the port. Takes no memory.
    pub fn traffic(&self) -> Traffic
        ensures { result ≡ self.now.traffic }
    {
        self.traffic
    }

    /// How many frames there were of all workers at the newest Head that was taken, if one was; the
    /// replica has as many of them as `traffic` has stored, if it was new when the node was made and goes
    /// by no image. Takes no memory.
    pub fn expected(&self) -> Option<u64>
        ensures { result ≡ self.now.expected }
    {
        self.expected
    }

    /// What came of the image by which the newest Head had its batch go, as this node counted it; `None` if that
    /// went by none, or if this was asked before. Takes no memory.
    pub fn take_image(&mut self) -> Option<FetchedImage>
        ensures { self.new ≡ self.old }
    {
        self.image.take()
    }

    /// Offers queries to the replica, in order; one that does not fit its tables is dropped, and so are
    /// those after the 64th that waits.
    ///
    /// Fails with `Broken` if the replica is broken, or with `Memory`; those so far are then opened, and
    /// the others are dropped.
    pub fn offer_all(&mut self, plans: Vec<Plan>) -> Result<(), ServeFault>
        ensures offers { OffersOf P.is_honest P.came P.sent P.fault_count self.old self.new plans.items result }
        ensures broken { IfErr result (λ fault. fault ≡ Broken → self.new.core.broken ≡ true) }
    {
        open_all(&mut self.core, plans)
    }

    /// One turn: it asks while nothing is fetched for the batch, of which it makes one if queries wait. It
    /// then runs the batch, which may use threads, sends Pulls of the pieces that are missing of the image
    /// that it goes by, or else Wants of frames that are missing, and receives, and waits at most 10 ms while
    /// nothing arrives; this some rounds, if datagrams keep arriving. An Ask is repeated only once its Head
    /// is late, and a Want or Pull only once its answer is: after as many datagrams as come in two round
    /// trips and some more, or if nothing arrives. Up to 16 are under way, each for other frames or pieces.
    /// If 16 in a row for the first place that is missing were in vain, it gives up the version that was
    /// fetched and asks for the newest one: the primary may not keep any more what is missing. A datagram
    /// for which there is no memory counts as lost, and so does one that cannot be sent.
    ///
    /// Fails with `Socket` if a receive failed; with `Broken` if the replica is broken; with `Memory` if
    /// the batch could not be answered: it is then still there, and the call may be repeated.
    pub fn turn<R: Threads + Sync>(&mut self, rt: &R) -> Result<Turned, ServeFault>
        ensures does { DoesReplica P.is_honest P.came P.sent P.fault_count self.old self.new
            (failures result) (report_of result) [] (turn_of result) }
        ensures idle { IfOk result (λ turned. turned ≡ Idle → asked self.old.core ≡ Err asks.Empty) }
        ensures waits { IfOk result (λ turned. turned ≡ Waits → IsOk (asked self.old.core) ⊎ (asked self.old.core ≡ Err asks.Busy)) }
        ensures broken { IfErr result (λ fault. fault ≡ Broken → self.new.core.broken ≡ true) }
        ensures told { self.old.core.broken ≡ true → result ≡ Err Broken }
    {
        match self.ask() {
            Ok(()) => self.turn_of_batch(rt),
            Err(AskFault::Busy) => self.turn_of_batch(rt),
            Err(AskFault::Empty) => self.idle_turn(rt),
            Err(AskFault::Broken) => Err(ServeFault::Broken),
            // No call that asks answers this.
            Err(AskFault::NoHead) => Err(ServeFault::Broken),
        }
    }

    /// Asks for the newest version, if it may and none is asked for, and sends the Ask. It asks for nothing after
    /// the request whose number is the greatest of 64 bits.
    fn ask(&mut self) -> Result<(), AskFault>
        ensures does { DoesReplica P.is_honest P.came P.sent P.fault_count self.old self.new 0 [] [] 0 }
        ensures ok { OnOk result (IsOk (asked self.old.core)) }
        ensures refused { IfErr result (λ fault. (self.new ≡ self.old) × (asked self.old.core ≡ Err fault)) }
    {
        if let Err(fault) = self.core.may_ask() {
            return Err(fault);
        }
        if self.core.request() == u64::MAX || !self.under_way.may_ask() {
            return Ok(());
        }
        match self.core.ask() {
            Ok(out) => {
                // One that is lost is sent again once its Head is late.
                send(&mut self.port, &mut self.traffic, out);
                self.under_way.note_ask();
                Ok(())
            }
            Err(fault) => Err(fault),
        }
    }

    /// What is left of a turn with a batch.
    fn turn_of_batch<R: Threads + Sync>(&mut self, rt: &R) -> Result<Turned, ServeFault>
        ensures does { DoesReplica P.is_honest P.came P.sent P.fault_count self.old self.new
            (failures result) (report_of result) [] (turn_of result) }
        ensures not_idle { IfOk result (λ turned. ¬ (turned ≡ Idle)) }
        ensures broken { IfErr result (λ fault. fault ≡ Broken → self.new.core.broken ≡ true) }
    {
        match self.run_and_hear(rt) {
            Ok(Some(report)) => Ok(Turned::Answered(report)),
            Ok(None) => Ok(Turned::Waits),
            Err(fault) => Err(fault),
        }
    }

    /// What is left of a turn without a batch.
    fn idle_turn<R: Threads + Sync>(&mut self, rt: &R) -> Result<Turned, ServeFault>
        ensures does { DoesReplica P.is_honest P.came P.sent P.fault_count self.old self.new
            (failures result) (report_of result) [] (turn_of result) }
        ensures idle { IfOk result (λ turned. ¬ (turned ≡ Waits)) }
        ensures broken { IfErr result (λ fault. fault ≡ Broken → self.new.core.broken ≡ true) }
    {
        match self.run_and_hear(rt) {
            Ok(Some(report)) => Ok(Turned::Answered(report)),
            Ok(None) => Ok(Turned::Idle),
            Err(fault) => Err(fault),
        }
    }

    /// Runs the batch and receives, round after round, until the batch is answered or nothing arrived
    /// any more; one round, if there is no batch.
    fn run_and_hear<R: Threads + Sync>(&mut self, rt: &R) -> Result<Option<ByteList>, ServeFault>
        ensures does { DoesReplica P.is_honest P.came P.sent P.fault_count self.old self.new
            (failures result) (handed result) [] (turn_of result) }
        ensures broken { IfErr result (λ fault. fault ≡ Broken → self.new.core.broken ≡ true) }
    {
        for _ in 0..TURN_ROUNDS {
            let lacks = match self.run(rt) {
                Ok(Ran::Answered(report)) => return Ok(Some(report)),
                Ok(Ran::Lacks(lacks)) => lacks,
                Err(fault) => return Err(fault),
            };
            self.send_again(lacks);
            match self.hear_round() {
                Ok(true) => {}
                Ok(false) => return Ok(None),
                Err(fault) => return Err(fault),
            }
            if let Lack::Nothing = lacks {
                return Ok(None);
            }
        }
        Ok(None)
    }

    /// Runs the batch.
    fn run<R: Threads + Sync>(&mut self, rt: &R) -> Result<Ran, ServeFault>
        ensures does { DoesReplica P.is_honest P.came P.sent P.fault_count self.old self.new 0 (report_in result) [] 1 }
        ensures no_failure { failures result ≡ 0 }
        ensures broken { IfErr result (λ fault. fault ≡ Broken → self.new.core.broken ≡ true) }
    {
        match self.core.run(rt) {
            Run::Answered(report) => Ok(Ran::Answered(report)),
            Run::WaitingPiece { .. } => Ok(Ran::Lacks(Lack::Pieces)),
            Run::Waiting { .. } => Ok(Ran::Lacks(Lack::Frames)),
            Run::NoBatch => Ok(Ran::Lacks(Lack::Nothing)),
            Run::WaitingHead => Ok(Ran::Lacks(Lack::Head)),
            Run::Inconsistent => Err(ServeFault::Broken),
            Run::Broken => Err(ServeFault::Broken),
            Run::Memory => Err(ServeFault::Memory),
        }
    }

    /// Sends the Ask again if its Head is late; or Pulls of the pieces that are missing, or Wants of the frames that are.
    fn send_again(&mut self, lack: Lack)
        ensures { DoesReplica P.is_honest P.came P.sent P.fault_count self.old self.new 0 [] [] 0 }
    {
        match lack {
            Lack::Nothing => {}
            Lack::Head => {
                let _ = self.ask();
            }
            Lack::Pieces => self.send_pulls(),
            Lack::Frames => self.send_wants(),
        }
    }

    /// Sends Wants of the frames that are missing, those that may be sent.
    fn send_wants(&mut self)
        ensures { DoesReplica P.is_honest P.came P.sent P.fault_count self.old self.new 0 [] [] 0 }
    {
        if !self.under_way.may_look(false) {
            return;
        }
        let mut gaps = mem::replace(&mut self.gaps, Vec::new(self.alloc));
        gaps.clear();
        // Without memory for them none are sent in this round.
        if gaps.reserve(WANTS_MAX).is_ok() {
            self.core.gaps(WANT_FRAMES_MAX, WANTS_MAX, &mut gaps);
            self.under_way.keep(gaps.as_slice(), false);
            self.send_each(gaps.as_slice());
        }
        self.gaps = gaps;
    }

    /// Sends Pulls of the pieces that are missing of the image that the batch goes by, those that may be sent.
    fn send_pulls(&mut self)
        ensures { DoesReplica P.is_honest P.came P.sent P.fault_count self.old self.new 0 [] [] 0 }
    {
        let Some(base) = self.core.image_base() else {
            return;
        };
        if !self.under_way.may_look(true) {
            return;
        }
        let mut gaps = mem::replace(&mut self.gaps, Vec::new(self.alloc));
        gaps.clear();
        if gaps.reserve(WANTS_MAX).is_ok() {
            self.core.piece_gaps(WANT_FRAMES_MAX, WANTS_MAX, &mut gaps);
            self.under_way.keep(gaps.as_slice(), true);
            self.pull_each(base, gaps.as_slice());
        }
        self.gaps = gaps;
    }

    /// Gives up the version that was fetched, and asks for the newest one; not after the request whose number is the
    /// greatest of 64 bits.
    fn renew(&mut self)
        ensures { DoesReplica P.is_honest P.came P.sent P.fault_count self.old self.new 0 [] [] 0 }
    {
        if self.core.request() == u64::MAX {
            return;
        }
        if let Ok(out) = self.core.renew() {
            // One that is lost is sent again once its Head is late.
            send(&mut self.port, &mut self.traffic, out);
            self.under_way.note_renewal();
        }
    }

    /// Sends a Want for each of these gaps for which one may be sent; or asks for another version, if the first was asked
    /// for in vain.
    fn send_each(&mut self, gaps: &[Gap])
        requires of_workers { All (λ gap. gap.worker < workers_max) gaps.now }
        requires named { All (Contains (gaps_of want_frames_max self.old.core)) gaps.now }
        ensures { DoesReplica P.is_honest P.came P.sent P.fault_count self.old self.new 0 [] [] 0 }
    {
        if self.under_way.is_in_vain() {
            self.renew();
            return;
        }
        for gap in gaps {
            self.send_want(*gap);
        }
    }

    /// Sends a Want for a gap, if one may be sent.
    fn send_want(&mut self, gap: Gap)
        requires of_worker { gap.worker < workers_max }
        requires named { Contains (gaps_of want_frames_max self.old.core) gap }
        ensures does { DoesReplica P.is_honest P.came P.sent P.fault_count self.old self.new 0 [] [] 0 }
        ensures core { self.new.core ≡ self.old.core }
    {
        if let Some(place) = self.under_way.place_for(gap) {
            // One that is lost is sent again once its answer is late.
            let want = self.core.want(gap);
            send(&mut self.port, &mut self.traffic, want);
            self.under_way.note_want(place, gap);
        }
    }

    /// Sends a Pull for each of these gaps for which one may be sent; or asks for another version, if the first was asked
    /// for in vain.
    fn pull_each(&mut self, base: u64, gaps: &[Gap])
        requires image { image_base_of self.old.core ≡ Some base }
        requires named { All (Contains (piece_gaps_of want_frames_max self.old.core)) gaps.now }
        ensures { DoesReplica P.is_honest P.came P.sent P.fault_count self.old self.new 0 [] [] 0 }
    {
        if self.under_way.is_in_vain() {
            self.renew();
            return;
        }
        for gap in gaps {
            self.send_pull(base, *gap);
        }
    }

    /// Sends a Pull for a gap, if one may be sent.
    fn send_pull(&mut self, base: u64, gap: Gap)
        requires image { image_base_of self.old.core ≡ Some base }
        requires named { Contains (piece_gaps_of want_frames_max self.old.core) gap }
        ensures does { DoesReplica P.is_honest P.came P.sent P.fault_count self.old self.new 0 [] [] 0 }
        ensures core { self.new.core ≡ self.old.core }
    {
        if let Some(place) = self.under_way.place_for(gap) {
            // One that is lost is sent again once its answer is late.
            let pull = self.core.pull(base, gap);
            send(&mut self.port, &mut self.traffic, pull);
            self.under_way.note_want(place, gap);
        }
    }

    /// Receives a datagram, for which it waits at most 10 ms, and those behind it that are there; no more than
    /// 16, and none behind the Head that it waits for. Answers false if nothing arrived.
    fn hear_round(&mut self) -> Result<bool, ServeFault>
        ensures does { DoesReplica P.is_honest P.came P.sent P.fault_count self.old self.new (failures result) [] [] 0 }
        ensures broken { IfErr result (λ fault. fault ≡ Broken → self.new.core.broken ≡ true) }
    {
        match self.hear(Patience::Waits) {
            Ok(Heard::Datagram) => {}
            Ok(Heard::Head) => return Ok(true),
            Ok(Heard::Nothing) => {
                self.under_way.note_silence();
                return Ok(false);
            }
            Err(fault) => return Err(fault),
        }
        for _ in 1..ROUND_DATAGRAMS {
            match self.hear(Patience::Takes) {
                Ok(Heard::Datagram) => {}
                Ok(Heard::Head) => return Ok(true),
                Ok(Heard::Nothing) => return Ok(true),
                Err(fault) => return Err(fault),
            }
        }
        Ok(true)
    }

    /// Receives one datagram.
    fn hear(&mut self, patience: Patience) -> Result<Heard, ServeFault>
        ensures does { DoesReplica P.is_honest P.came P.sent P.fault_count self.old self.new (failures result) [] [] 0 }
        ensures broken { IfErr result (λ fault. fault ≡ Broken → self.new.core.broken ≡ true) }
    {
        if self.port.faults() == u64::MAX {
            return Ok(Heard::Nothing);
        }
        match self.port.recv(&mut self.buffer, patience) {
            Ok(Some(len)) => {
                let bytes = &self.buffer[..len];
                let got = take(&mut self.core, &mut self.traffic, &mut self.expected, bytes);
                self.under_way.note(&self.buffer[..len], got);
                let base = self.core.image_base();
                self.image.note(base, &self.buffer[..len], got);
                outcome_of(got)
            }
            Ok(None) => Ok(Heard::Nothing),
            Err(_) => Err(ServeFault::Socket),
        }
    }
}

/// Offers queries to a replica, in order; one that does not fit its tables is dropped.
fn open_all<S: ApplyStore + Sync>(
    replica: &mut ReplicaCore<S>,
    plans: Vec<Plan>,
) -> Result<(), ServeFault>
    ensures opens { OpensOf replica.old replica.new plans.items result }
    ensures broken { IfErr result (λ fault. fault ≡ Broken → replica.new.broken ≡ true) }
{
    for plan in plans {
        match replica.open(plan) {
            Ok(_) => {}
            Err(OpenFault::BadPlan(_)) => {}
            Err(OpenFault::BatchFull) => {}
            Err(OpenFault::Broken) => return Err(ServeFault::Broken),
            Err(OpenFault::Memory) => return Err(ServeFault::Memory),
        }
    }
    Ok(())
}

/// What a run of the batch lacks.
#[derive(Clone, Copy)]
enum Lack {
    /// Nothing: there is no batch.
    Nothing,
    /// The Head that answers its Ask.
    Head,
    /// Pieces of the image that it goes by.
    Pieces,
    /// Frames.
    Frames,
}

/// The outcome of a run of the batch.
#[derive(Drop)]
enum Ran {
    /// The report.
    Answered(ByteList),
    /// There is none yet.
    Lacks(Lack),
}

/// The outcome of a receive.
enum Heard {
    /// Nothing arrived.
    Nothing,
    /// A datagram.
    Datagram,
    /// The Head that was awaited.
    Head,
}

/// Hands bytes that arrived to the replica, and counts them.
fn take<S: ApplyStore + Sync>(
    replica: &mut ReplicaCore<S>,
    traffic: &mut Traffic,
    expected: &mut Option<u64>,
    bytes: &[u8],
) -> Got
    ensures takes { MayTake replica.old (received replica.old bytes.now) result replica.new }
    ensures counts { traffic.new ≡ with_heard traffic.old (counted_as result) }
    ensures expects { expected.new ≡ expected_of expected.old bytes.now result }
{
    let got = replica.on_bytes(bytes);
    traffic.note_heard(counted_of(got));
    if let Got::Head(_) = got {
        *expected = frames_told(bytes);
    }
    got
}

/// How a datagram is counted, by the replica's answer.
fn counted_of(got: Got) -> Counted
    ensures { result ≡ counted_as got }
{
    match got {
        Got::Stored => Counted::Stored,
        Got::Ignored => Counted::Ignored,
        _ => Counted::Other,
    }
}

/// How many frames there are of all workers at a Head.
fn frames_told(bytes: &[u8]) -> Option<u64>
    ensures { result ≡ frames_at (reading bytes.now) }
{
    match read(bytes) {
        Ok(Datagram::Head(head)) => Some(sum_of(head.counts.as_slice())),
        _ => None,
    }
}

/// What was heard of bytes that the replica answered so.
fn outcome_of(got: Got) -> Result<Heard, ServeFault>
    ensures { result ≡ heard_as got }
{
    match got {
        Got::Broken => Err(ServeFault::Broken),
        Got::Head(_) => Ok(Heard::Head),
        _ => Ok(Heard::Datagram),
    }
}
