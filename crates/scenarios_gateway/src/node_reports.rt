//! What a desk tells of its node.

ghost use Rattle.std.specs.Prelude.{◌≡◌};

use crate::desks::{Round, WORKERS, desk_at, made, rounds_go_so, setup, started};
use figures::Figures;
use gateway::{NodeFacts, WorkerCount};
use journal::{JournalStore, MemJournal};
use primary::PrimaryCore;
use script::Setup;
use shared::{Line, Origin, Start};
use std::alloc::Global;
use std::fs::File;
use std::marker::Brand;
use std::sync::Wait;
use std::test::Fail;

/// Requests for the status before and after jobs, of which one is refused.
const STATUS: [Round; 3] = [
    (
        &[
            (
                "GET",
                "/status",
                b"",
                200,
                b"{\"node\":\"primary\",\"version\":\"1.2.3\",\"schema\":\"ab\",\"durable\":0,\"journal_bytes\":0,\
\"connections\":1,\"jobs\":{\"ticket\":0,\"conflict\":0,\"refused\":0},\"rounds\":0,\"replicas\":[{\"replica\":0}]}\n",
            ),
            ("POST", "/status", b"", 405, b"use GET\n"),
            ("PUT", "/metrics", b"", 405, b"use GET\n"),
            ("GET", "/status/", b"", 404, b"no such path\n"),
        ],
        true,
    ),
    (
        &[(
            "POST",
            "/jobs",
            b"job 0\ninsert acct 1 1 1\nend\njob 0\ninsert acct 1 1 1\nend\n",
            409,
            b"job 0 ticket 1\njob 1 refused\n",
        )],
        true,
    ),
    (
        &[(
            "HEAD",
            "/status",
            b"",
            200,
            b"{\"node\":\"primary\",\"version\":\"1.2.3\",\"schema\":\"ab\",\"durable\":1,\"journal_bytes\":0,\
\"connections\":1,\"jobs\":{\"ticket\":1,\"conflict\":0,\"refused\":1},\"rounds\":1,\"replicas\":[{\"replica\":0}]}\n",
        )],
        true,
    ),
];

/// What is told of a node without a journal in a file.
fn facts_of<'a>(figures: &'a Figures) -> NodeFacts<'a> {
    let journal: Option<&'a File> = None;
    NodeFacts {
        version: "1.2.3",
        schema: "ab",
        journal,
        figures,
    }
}

/// Whether a desk tells these, on a line of this primary.
fn tells_so<L: Origin, J: JournalStore + Drop, R: Wait>(
    rt: &R,
    alloc: Global,
    core: PrimaryCore<J>,
    start: Start,
    setup: &Setup,
    figures: &Figures,
) -> Option<bool>
    requires book { start.opened.seen.book ≡ L.book }
    requires schema { core.primary.schema ≡ L.schema }
    requires workers { core.primary.workers ≡ L.workers }
    requires first { core.primary ≡ L.first }
    requires name { start.blank.name ≡ L.name }
    requires parts { start.blank.parts ≡ L.parts }
    requires seats { start.seats ≡ L.seats }
{
    let count = core.workers();
    let Some(line) = made(Line::<L, J, &R>::new(alloc, rt, core, start)) else {
        return None;
    };
    tells_so_on(rt, alloc, &line, setup, WorkerCount::new(count), figures)
}

/// The same on this line.
fn tells_so_on<'a, 'b, L: Origin, J: JournalStore + Drop, R: Wait>(
    rt: &'a R,
    alloc: Global,
    line: &'a Line<L, J, &'b R>,
    setup: &'a Setup,
    workers: WorkerCount<L>,
    figures: &'a Figures,
) -> Option<bool> {
    let facts = facts_of(figures);
    let Some(desk) = desk_at(rt, alloc, line, setup, workers) else {
        return None;
    };
    let mut desk = desk.with_facts(&facts);
    let tells = rounds_go_so(alloc, &mut desk, &STATUS);
    drop(desk);
    tells
}

/// Whether a desk tells these of a primary that is started with this setup.
fn tells_with<R: Wait>(rt: &R, alloc: Global, setup: &Setup) -> Result<bool, Fail> {
    let journal = MemJournal::new(alloc);
    let core = started(PrimaryCore::start(alloc, journal, &setup.schema, WORKERS))?;
    tells_of(rt, alloc, core, setup)
}

/// The same of this primary.
fn tells_of<R: Wait>(
    rt: &R,
    alloc: Global,
    core: PrimaryCore<MemJournal>,
    setup: &Setup,
) -> Result<bool, Fail> {
    let Some(figures) = made(Figures::new(alloc, setup.replicas)) else {
        drop(core);
        return Err("no desk".into());
    };
    let tells = tells_after(rt, alloc, core, setup, &figures);
    drop(figures);
    tells
}

/// The same with these figures, on a line of its own.
fn tells_after<R: Wait>(
    rt: &R,
    alloc: Global,
    core: PrimaryCore<MemJournal>,
    setup: &Setup,
    figures: &Figures,
) -> Result<bool, Fail> {
    let Some(start) = made(Start::new(2)) else {
        drop(core);
        return Err("start".into());
    };
    match tells_so::<Brand, MemJournal, R>(rt, alloc, core, start, setup, figures) {
        Some(tells) => Ok(tells),
        None => Err("no desk".into()),
    }
}

/// The same of a primary that is started.
fn tells<R: Wait>(rt: &R, alloc: Global) -> Result<bool, Fail> {
    let setup = setup(alloc)?;
    let tells = tells_with(rt, alloc, &setup);
    drop(setup);
    tells
}

#[test]
fn a_desk_tells_how_its_node_does(rt: HostRuntime) -> Result<(), Fail> {
    assert!(rt; tells(&rt, rt.alloc())?);
    Ok(())
}
