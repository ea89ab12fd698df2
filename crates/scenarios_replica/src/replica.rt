//! What is done with a replica, step by step, and what it answers.

use dispatcher::{AskFault, DumpFault, Got, OpenFault, ReplicaCore, Run};
use queries::PlanFault;
use rows::Schema;
use scenarios_common::wanted::Table;
use scenarios_common::worker_datagrams::{
    Based, FRAME, HEAD, Insert, Row, ask_of, changed, frame_at, frame_of, head_of, head_of_base,
    piece_of, pull_of, want_of,
};
use scenarios_plans_common::wishes::{COUNT, Wish, plan_of};
use std::alloc::{AllocError, Global};
use std::test::Fail;
use std::thread::Threads;
use store::PlainStore;
use wire::{Out, To};

/// What is done with replica 0, in its boot 1, and last what it answers.
pub enum Step<'a> {
    /// A query that counts the rows of this table is opened, and so many wait then.
    Open(u8, usize),
    /// Such queries of table 0 are opened until so many wait.
    OpenAll(usize),
    /// A query that counts the rows of this table is not taken.
    OpenRefused(u8, OpenFault),
    /// The query that is wished for is opened, and so many wait then.
    OpenWish(Wish<'a>, usize),
    /// These queries are opened, where none waits.
    OpenWishes(&'a [Wish<'a>]),
    /// The query that is wished for is not taken.
    OpenWishRefused(Wish<'a>, OpenFault),
    /// None of these queries is taken: each has this fault.
    OpenUnfit(&'a [(Wish<'a>, PlanFault)]),
    /// It asks for a version: its first Ask is on the way to the primary.
    Ask,
    /// It asks for a version, by the request of this number.
    AskOf(u64),
    /// It asks for none.
    AskRefused(AskFault),
    /// It gives up its version, and asks by the request of this number.
    RenewOf(u64),
    /// It gives up none.
    RenewRefused(AskFault),
    /// These bytes come.
    Get(&'a [u8], Got),
    /// Frame 0 comes as the frame of another seq.
    GetFrameAt(u64, Got),
    /// Frame 0 comes with another byte at this index of the datagram.
    GetFrameWith(usize, u8, Got),
    /// The Head of its request at version 1 comes with another byte at this index.
    GetHeadWith(usize, u8, Got),
    /// This frame comes.
    GetInsert(Insert, Got),
    /// The frames of the first so many commits come, of worker 0 and worker 1 in turn, each of which puts
    /// in the row of its commit's number. They are kept.
    GetCommits(u64),
    /// The Head of a request comes, at a version, of two workers with these counts.
    GetHead(u64, u64, [u64; 2], Got),
    /// The Head of a request comes, at a version, with a base, of two workers with these counts.
    GetBase(u64, u64, Based, [u64; 2], Got),
    /// The piece of a base with this number comes, which has a row.
    GetPiece(u64, u64, Row, Got),
    /// The batch is run.
    Run(Ran<'a>),
    /// The batch is run twice, as refused memory leaves it: with this report once, at a version.
    RunTwice(u64, &'a [u8]),
    /// A batch of so many queries that count rows is run at version 0, where there are none.
    RunAll(usize),
    /// It is asked for the number of its newest request.
    Request(u64),
    /// It is asked for its version.
    Version(u64),
    /// This is the text of its tables.
    Dump(&'a [u8]),
    /// The text of its tables is not told.
    DumpRefused(DumpFault),
}

/// What becomes of a run.
#[derive(Clone, Copy)]
pub enum Ran<'a> {
    NoBatch,
    WaitingHead,
    /// The piece of this base with this number is missing, and a Pull of it is on the way.
    WaitingPiece(u64, u64),
    /// The frame of this worker with this seq is missing, and a Want of it is on the way.
    Waiting(u8, u64),
    /// This is the report.
    Answered(&'a [u8]),
    Inconsistent,
    Broken,
}

/// How many workers there are, the tables of a replica, and what is done with it.
pub type Story = (u8, &'static [Table], &'static [Step<'static>]);

/// The first of these stories that goes otherwise, and the index of its step; each begins at a
/// fresh replica.
pub fn other_story<R: Threads + Sync>(
    rt: &R,
    alloc: Global,
    stories: &[Story],
) -> Result<Option<(usize, usize)>, Fail> {
    for (number, (workers, tables, story)) in stories.iter().enumerate() {
        if let Some(index) = other_step(rt, alloc, *workers, tables, story)? {
            return Ok(Some((number, index)));
        }
    }
    Ok(None)
}

/// The index of the first step that a fresh replica answers otherwise.
pub fn other_step<R: Threads + Sync>(
    rt: &R,
    alloc: Global,
    workers: u8,
    tables: &[Table],
    story: &[Step<'_>],
) -> Result<Option<usize>, Fail> {
    let mut replica = fresh(alloc, workers, tables)?;
    Ok(other_step_of(rt, alloc, &mut replica, story))
}

/// A fresh replica of so many workers, of these tables.
fn fresh(alloc: Global, workers: u8, tables: &[Table]) -> Result<ReplicaCore<PlainStore>, Fail> {
    if workers == 0 || workers > 16 {
        return Err("no such number of workers".into());
    }
    let schema = Schema::new(alloc, tables)?;
    let store = PlainStore::new(alloc, &schema)?;
    Ok(ReplicaCore::start(alloc, store, &schema, workers, 0, 1)?)
}

/// The index of the first step that a replica answers otherwise.
fn other_step_of<R: Threads + Sync>(
    rt: &R,
    alloc: Global,
    replica: &mut ReplicaCore<PlainStore>,
    story: &[Step<'_>],
) -> Option<usize> {
    for (index, step) in story.iter().enumerate() {
        if !is_answered(rt, alloc, replica, step) {
            return Some(index);
        }
    }
    None
}

/// Whether it answers one step as it should.
fn is_answered<R: Threads + Sync>(
    rt: &R,
    alloc: Global,
    replica: &mut ReplicaCore<PlainStore>,
    step: &Step<'_>,
) -> bool {
    match step {
        Step::Open(table, count) => opens(alloc, replica, &count_of(*table), Ok(*count)),
        Step::OpenAll(count) => are_opened(alloc, replica, *count),
        Step::OpenRefused(table, fault) => opens(alloc, replica, &count_of(*table), Err(*fault)),
        Step::OpenWish(wish, count) => opens(alloc, replica, wish, Ok(*count)),
        Step::OpenWishes(wishes) => open_in_turn(alloc, replica, wishes),
        Step::OpenWishRefused(wish, fault) => opens(alloc, replica, wish, Err(*fault)),
        Step::OpenUnfit(unfit) => are_unfit(alloc, replica, unfit),
        Step::Ask => asks(replica, 1),
        Step::AskOf(request) => asks(replica, *request),
        Step::AskRefused(fault) => is_ask_refused(replica, *fault),
        Step::RenewOf(request) => renews(replica, *request),
        Step::RenewRefused(fault) => is_renew_refused(replica, *fault),
        Step::Get(bytes, answer) => gets(replica, bytes, *answer),
        Step::GetFrameAt(seq, answer) => gets(replica, &frame_at(*seq), *answer),
        Step::GetFrameWith(index, byte, answer) => {
            gets(replica, &changed(FRAME, *index, *byte), *answer)
        }
        Step::GetHeadWith(index, byte, answer) => {
            gets(replica, &changed(HEAD, *index, *byte), *answer)
        }
        Step::GetInsert(insert, answer) => gets(replica, &frame_of(*insert), *answer),
        Step::GetCommits(count) => gets_commits(replica, *count),
        Step::GetHead(request, version, counts, answer) => {
            gets(replica, &head_of(*request, *version, *counts), *answer)
        }
        Step::GetBase(request, version, based, counts, answer) => gets(
            replica,
            &head_of_base(*request, *version, *based, *counts),
            *answer,
        ),
        Step::GetPiece(base, number, row, answer) => {
            gets(replica, &piece_of(*base, *number, *row), *answer)
        }
        Step::Run(ran) => runs(rt, replica, ran),
        Step::RunTwice(version, report) => runs_twice(rt, replica, *version, report),
        Step::RunAll(count) => runs_all(rt, alloc, replica, *count),
        Step::Request(number) => replica.request() == *number,
        Step::Version(number) => replica.version() == *number,
        Step::Dump(text) => dumps(replica, text),
        Step::DumpRefused(fault) => is_dump_refused(replica, *fault),
    }
}

/// Nothing is said of the answer, which keeps the bytes out of the proof of a step.
fn gets(replica: &mut ReplicaCore<PlainStore>, bytes: &[u8], answer: Got) -> bool {
    replica.on_bytes(bytes) == answer
}

/// Whether it keeps the frames of the first so many commits, of two workers in turn.
fn gets_commits(replica: &mut ReplicaCore<PlainStore>, count: u64) -> bool {
    for before in 0..count {
        let insert = Insert {
            worker: (before % 2) as u8,
            seq: before / 2,
            commit: before + 1,
            last: true,
            row: before + 1,
        };
        if !gets(replica, &frame_of(insert), Got::Stored) {
            return false;
        }
    }
    true
}

/// The query that counts the rows of a table.
fn count_of(table: u8) -> Wish<'static> {
    Wish { table, ..COUNT }
}

/// Whether it answers so where a query is opened. Where it is out of memory for the plan, the answer
/// is another.
fn opens(
    alloc: Global,
    replica: &mut ReplicaCore<PlainStore>,
    wish: &Wish<'_>,
    answer: Result<usize, OpenFault>,
) -> bool {
    match plan_of(alloc, wish) {
        Ok(plan) => replica.open(plan) == answer,
        Err(_) => false,
    }
}

/// Whether queries of table 0 are opened, where none waits, until so many do.
fn are_opened(alloc: Global, replica: &mut ReplicaCore<PlainStore>, count: usize) -> bool {
    for waiting in 0..count {
        if !opens(alloc, replica, &COUNT, Ok(waiting + 1)) {
            return false;
        }
    }
    true
}

/// Whether these queries are opened, where none waits.
fn open_in_turn(alloc: Global, replica: &mut ReplicaCore<PlainStore>, wishes: &[Wish<'_>]) -> bool {
    for (waiting, wish) in wishes.iter().enumerate() {
        if !opens(alloc, replica, wish, Ok(waiting + 1)) {
            return false;
        }
    }
    true
}

/// Whether each of these queries is refused for its fault.
fn are_unfit(
    alloc: Global,
    replica: &mut ReplicaCore<PlainStore>,
    unfit: &[(Wish<'_>, PlanFault)],
) -> bool {
    for (wish, fault) in unfit {
        if !opens(alloc, replica, wish, Err(OpenFault::BadPlan(*fault))) {
            return false;
        }
    }
    true
}

/// Whether it sends the Ask of that request. No replica of these tests makes more than a few.
fn asks(replica: &mut ReplicaCore<PlainStore>, request: u64) -> bool {
    if replica.request() > 9 {
        return false;
    }
    match replica.ask() {
        Ok(out) => is_to_primary(&out, &ask_of(request)),
        Err(_) => false,
    }
}

/// Whether it asks for no version for this reason.
fn is_ask_refused(replica: &mut ReplicaCore<PlainStore>, fault: AskFault) -> bool {
    if replica.request() > 9 {
        return false;
    }
    match replica.ask() {
        Ok(_) => false,
        Err(found) => found == fault,
    }
}

/// Whether it gives up its version, and sends the Ask of that request.
fn renews(replica: &mut ReplicaCore<PlainStore>, request: u64) -> bool {
    if replica.request() > 9 {
        return false;
    }
    match replica.renew() {
        Ok(out) => is_to_primary(&out, &ask_of(request)),
        Err(_) => false,
    }
}

/// Whether it gives up no version for this reason.
fn is_renew_refused(replica: &mut ReplicaCore<PlainStore>, fault: AskFault) -> bool {
    if replica.request() > 9 {
        return false;
    }
    match replica.renew() {
        Ok(_) => false,
        Err(found) => found == fault,
    }
}

/// Whether this becomes of a run.
fn runs<R: Threads + Sync>(rt: &R, replica: &mut ReplicaCore<PlainStore>, ran: &Ran<'_>) -> bool {
    match replica.run(rt) {
        Run::NoBatch => matches!(ran, Ran::NoBatch),
        Run::WaitingHead => matches!(ran, Ran::WaitingHead),
        Run::WaitingPiece { number, pull } => is_waiting_for_piece(ran, number, &pull),
        Run::Waiting { worker, seq, want } => is_waiting(ran, worker, seq, &want),
        Run::Answered(text) => is_report(ran, text.as_slice()),
        Run::Inconsistent => matches!(ran, Ran::Inconsistent),
        Run::Broken => matches!(ran, Ran::Broken),
        Run::Memory => false,
    }
}

/// Whether that frame is to be missing, and this is the Want of it.
fn is_waiting(ran: &Ran<'_>, worker: u8, seq: u64, want: &Out) -> bool {
    match ran {
        Ran::Waiting(expected, first) => {
            worker == *expected && seq == *first && is_to_primary(want, &want_of(0, worker, seq))
        }
        _ => false,
    }
}

/// Whether that piece is to be missing, and this is the Pull of it.
fn is_waiting_for_piece(ran: &Ran<'_>, number: u64, pull: &Out) -> bool {
    match ran {
        Ran::WaitingPiece(base, first) => {
            number == *first && is_to_primary(pull, &pull_of(0, *base, number))
        }
        _ => false,
    }
}

/// Whether this is to be the report.
fn is_report(ran: &Ran<'_>, text: &[u8]) -> bool {
    match ran {
        Ran::Answered(report) => text == *report,
        _ => false,
    }
}

/// Whether the batch is answered with this report and is then none, at this version; or stands where
/// memory is refused, and is answered when it is run again; or the replica breaks and stays at its
/// version.
fn runs_twice<R: Threads + Sync>(
    rt: &R,
    replica: &mut ReplicaCore<PlainStore>,
    version: u64,
    report: &[u8],
) -> bool {
    match replica.run(rt) {
        Run::Answered(text) if text.as_slice() == report => {
            runs(rt, replica, &Ran::NoBatch) && replica.version() == version
        }
        Run::Memory => runs(rt, replica, &Ran::Answered(report)) && replica.version() == version,
        Run::Broken => runs(rt, replica, &Ran::Broken) && replica.version() == 0,
        _ => false,
    }
}

/// Whether this is the text of its tables. Where memory is refused it is asked for once more.
fn dumps(replica: &ReplicaCore<PlainStore>, text: &[u8]) -> bool {
    match replica.dump() {
        Ok(found) => found.as_slice() == text,
        Err(DumpFault::Memory) => dumps_now(replica, text),
        Err(DumpFault::Broken) => false,
    }
}

/// Whether this is the text of its tables, the first time that it is asked for.
fn dumps_now(replica: &ReplicaCore<PlainStore>, text: &[u8]) -> bool {
    match replica.dump() {
        Ok(found) => found.as_slice() == text,
        Err(_) => false,
    }
}

/// Whether the text of its tables is not told, for this reason.
fn is_dump_refused(replica: &ReplicaCore<PlainStore>, fault: DumpFault) -> bool {
    match replica.dump() {
        Ok(_) => false,
        Err(found) => found == fault,
    }
}

/// Whether the batch is answered with the report of so many counts of no rows, at version 0.
fn runs_all<R: Threads + Sync>(
    rt: &R,
    alloc: Global,
    replica: &mut ReplicaCore<PlainStore>,
    count: usize,
) -> bool {
    match report_of_counts(alloc, count) {
        Ok(report) => runs(rt, replica, &Ran::Answered(report.as_bytes())),
        Err(_) => false,
    }
}

/// The report of so many counts of no rows, at version 0.
fn report_of_counts(alloc: Global, count: usize) -> Result<String, AllocError> {
    let mut report = format!(in alloc; "version 0 queries {count}\n")?;
    for number in 0..count {
        write!(report, "query {number} rows 1\n0\n")?;
    }
    Ok(report)
}

/// Whether these bytes are on their way to the primary.
fn is_to_primary(out: &Out, bytes: &[u8]) -> bool {
    out.to == To::Primary && out.packet.bytes() == bytes
}
