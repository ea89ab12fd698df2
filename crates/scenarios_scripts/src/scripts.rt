//! Scripts from their text to what they print, and what the crate `world` gives its callers.

use rows::{Kind, Schema};
use scenarios_common::wanted::NUMBERS;
use std::alloc::{AllocError, Global};
use std::process::Abort;
use std::test::Fail;
use std::thread::Threads;
use world::{
    Echo, Event, Node, Output, Setup, allowed_runs_are_exact, read_script, run, run_script,
    stops_keep_what_stands, worked_scripts,
};

/// What a script prints.
pub fn printed<R: Threads + Sync>(rt: &R, alloc: Global, script: &[u8]) -> Result<Vec<u8>, Fail> {
    printed_with(rt, alloc, Echo::No, script)
}

/// What a script prints, with its events or without.
fn printed_with<R: Threads + Sync>(
    rt: &R,
    alloc: Global,
    echo: Echo,
    script: &[u8],
) -> Result<Vec<u8>, Fail> {
    let mut reader = script;
    let mut text = Vec::new(alloc);
    run_script(rt, alloc, echo, &mut reader, &mut text)?;
    Ok(text)
}

/// One table of two numbers.
pub const SETTINGS: &str = "workers 1\nreplicas 1\ntable acct int int\n";

/// Two tables, one with a column of bytes.
const TWO_TABLES: &str = "workers 1\nreplicas 1\ntable acct int int\ntable item int bytes2\n";

/// Refuses what the events behind these settings print, unless it is what stands beside them; and
/// what they print where events are shown, unless each event stands there as it is written here.
pub fn expect<R: Abort + Threads + Sync>(
    rt: &R,
    alloc: Global,
    settings: &str,
    story: &[(&str, &str)],
) -> Result<(), Fail> {
    let script = script_of(alloc, settings, story)?;
    assert!(rt; is_printed(rt, alloc, Echo::No, script.as_bytes(), story)?);
    assert!(rt; is_printed(rt, alloc, Echo::Events, script.as_bytes(), story)?);
    Ok(())
}

/// The script of these settings and events.
pub fn script_of(
    alloc: Global,
    settings: &str,
    story: &[(&str, &str)],
) -> Result<String, AllocError> {
    let mut script = String::from_str(alloc, settings)?;
    for (event, _) in story {
        push_line(&mut script, "", event)?;
    }
    Ok(script)
}

/// Whether the script prints what stands beside its events.
fn is_printed<R: Threads + Sync>(
    rt: &R,
    alloc: Global,
    echo: Echo,
    script: &[u8],
    story: &[(&str, &str)],
) -> Result<bool, Fail> {
    let text = printed_with(rt, alloc, echo, script)?;
    Ok(is_text_of(alloc, echo, story, text.as_slice())?)
}

/// Whether this text is what stands beside these events.
pub fn is_text_of(
    alloc: Global,
    echo: Echo,
    story: &[(&str, &str)],
    text: &[u8],
) -> Result<bool, AllocError> {
    let mut expected = String::new(alloc);
    for (event, answer) in story {
        if echo == Echo::Events {
            push_line(&mut expected, "> ", event)?;
        }
        push_line(&mut expected, "", answer)?;
    }
    Ok(text == expected.as_bytes())
}

/// Adds a line.
pub fn push_line(text: &mut String, front: &str, line: &str) -> Result<(), AllocError> {
    text.push_str(front)?;
    text.push_str(line)?;
    text.push_str("\n")
}

/// Events, each beside what it answers.
const STORY: [(&str, &str); 36] = [
    ("begin", "tx 0 at 0"),
    ("insert 0 acct 7 5 -1", "ok"),
    ("insert 0 acct 7 0 0", "exists"),
    ("insert 0 acct 8 5", "unfit"),
    (
        "insert 0 acct 8 9223372036854775807 -9223372036854775808",
        "ok",
    ),
    ("insert 1 acct 9 0 0", "no tx"),
    ("begin", "tx 1 at 0"),
    ("insert 1 acct 7 1 1", "ok"),
    ("commit 0 0", "ticket 1"),
    ("commit 0 0", "no tx"),
    ("commit 1 0", "conflict 1"),
    ("push 0 0", "no frame"),
    ("begin", "tx 2 at 0"),
    ("commit 2 0", "read only"),
    ("flush 4294967295", "durable 1"),
    ("push 0 1", "no frame"),
    ("push 0 0", "sent 0 82"),
    ("run 0", "no batch"),
    ("ask 0", "empty"),
    ("open 0 query acct get count", "opened 1"),
    ("open 0 query acct get count", "opened 2"),
    ("ask 0", "sent 1 23"),
    ("ask 0", "sent 2 23"),
    ("run 0", "waiting head"),
    ("deliver 1 r0", "ignored"),
    ("deliver 0 p", "ignored"),
    ("deliver 9 p", "never sent"),
    ("show 9", "never sent"),
    ("deliver 2 p", "sent 3 64"),
    ("deliver 3 r0", "head 1"),
    ("deliver 3 r0", "ignored"),
    ("ask 0", "busy"),
    ("run 0", "waiting 0 0\nsent 4 16"),
    ("deliver 0 r0", "stored"),
    ("deliver 0 r0", "repeat"),
    (
        "run 0",
        "version 1 queries 2\nquery 0 rows 1\n2\nquery 1 rows 1\n2",
    ),
];

/// Values are of their columns' kinds.
const KINDS: [(&str, &str); 7] = [
    ("begin", "tx 0 at 0"),
    ("insert 0 item 7 5 xab", "unfit"),
    ("insert 0 item 7 5 xabcdef", "unfit"),
    ("insert 0 item 7 xabcd 5", "unfit"),
    ("insert 0 item 7 5 5", "unfit"),
    ("insert 0 acct 7 5 xabcd", "unfit"),
    ("insert 0 item 7 5 xabcd", "ok"),
];

/// A value of bytes is sent as it is.
const BYTES: [(&str, &str); 6] = [
    ("begin", "tx 0 at 0"),
    ("insert 0 item 7 5 xabcd", "ok"),
    ("commit 0 0", "ticket 1"),
    ("flush 1", "durable 1"),
    ("push 0 0", "sent 0 48"),
    (
        "show 0",
        "424403010030000000000000000000000000000000000101000101010000000000000007000a0000000000000005abcd",
    ),
];

/// A report counts each table.
const REPORT: [(&str, &str); 13] = [
    ("begin", "tx 0 at 0"),
    ("insert 0 item 7 5 xabcd", "ok"),
    ("insert 0 item 8 5 xabcd", "ok"),
    ("commit 0 0", "ticket 1"),
    ("flush 1", "durable 1"),
    ("push 0 0", "sent 0 70"),
    ("deliver 0 r0", "stored"),
    ("open 0 query acct get count", "opened 1"),
    ("open 0 query item get count", "opened 2"),
    ("ask 0", "sent 1 23"),
    ("deliver 1 p", "sent 2 64"),
    ("deliver 2 r0", "head 1"),
    (
        "run 0",
        "version 1 queries 2\nquery 0 rows 1\n0\nquery 1 rows 1\n2",
    ),
];

#[test]
fn events_answer_as_they_should(rt: HostRuntime) -> Result<(), Fail> {
    expect(&rt, rt.alloc(), SETTINGS, &STORY)?;
    for story in [KINDS.as_slice(), BYTES.as_slice(), REPORT.as_slice()] {
        expect(&rt, rt.alloc(), TWO_TABLES, story)?;
    }
    Ok(())
}

/// The events of a commit whose frame is shown. The last line may lack its end.
const SHOWN: &str = "workers 1\nreplicas 1\ntable acct int int\n\
    begin\ninsert 0 acct 7 5 -1\ncommit 0 0\nflush 1\npush 0 0\nshow 0";

/// How that frame is shown.
const FRAME: &str = "\
    42440301003600000000000000000000000000000000010100010100000000000000000700100000000000000005ffffffffffffffff\n";

#[test]
fn a_frame_is_shown_to_the_byte(rt: HostRuntime) -> Result<(), Fail> {
    let text = printed(&rt, rt.alloc(), SHOWN.as_bytes())?;
    assert!(rt; text.as_slice().ends_with(FRAME.as_bytes()));
    Ok(())
}

/// Settings and two events.
const TWO_EVENTS: &str = "workers 1\nreplicas 1\ntable acct int int\npush 0 3\ndeliver 2 p\n";

/// Whether these are the settings and events of that script.
fn are_read(setup: &Setup, events: &[Event]) -> bool {
    let are_events = matches!(
        events,
        [
            Event::Push { worker: 0, seq: 3 },
            Event::Deliver {
                index: 2,
                node: Node::Primary
            }
        ]
    );
    are_events
        && setup.workers == 1
        && setup.replicas == 1
        && setup.schema.name(0) == Some("acct")
        && setup.schema.kinds(0) == Some([Kind::Int, Kind::Int].as_slice())
}

/// Whether that script reads as them.
fn reads_as_its_events(alloc: Global) -> Result<bool, Fail> {
    let (setup, events) = read_script(alloc, TWO_EVENTS.as_bytes())?;
    Ok(are_read(&setup, events.as_slice()))
}

/// A base, events of a replica, and of bytes by themselves.
const MORE_EVENTS: &str = "workers 1\nreplicas 2\ntable acct int int\n\
    base\nrenew 1\nversion 1\ndump 0\nrestart 1 18446744073709551615\nraw r1 00ff0a\nraw p -\n";

/// Whether that script reads as them.
fn reads_as_more_events(alloc: Global) -> Result<bool, Fail> {
    let (_, events) = read_script(alloc, MORE_EVENTS.as_bytes())?;
    Ok(match events.as_slice() {
        [
            Event::Base,
            Event::Renew { replica: 1 },
            Event::Version { replica: 1 },
            Event::Dump { replica: 0 },
            Event::Restart {
                replica: 1,
                boot: u64::MAX,
            },
            Event::Raw {
                node: Node::Replica(1),
                bytes,
            },
            Event::Raw {
                node: Node::Primary,
                bytes: none,
            },
        ] => bytes.as_slice() == [0, 255, 10].as_slice() && none.is_empty(),
        _ => false,
    })
}

/// Whether a run on this schema answers each event, a base before any commit among them.
fn answers_each_event<R: Threads + Sync>(
    rt: &R,
    alloc: Global,
    schema: Schema,
) -> Result<bool, Fail> {
    let setup = Setup {
        schema,
        workers: 1,
        replicas: 1,
    };
    let outputs = run(
        rt,
        alloc,
        &setup,
        &[
            Event::Begin,
            Event::Base,
            Event::Show { index: 0 },
            Event::Renew { replica: 0 },
        ],
    )?;
    Ok(matches!(
        outputs.as_slice(),
        [
            Output::Tx {
                number: 0,
                snapshot: 0
            },
            Output::Based { base: 0, pieces: 0 },
            Output::NeverSent,
            Output::Empty
        ]
    ))
}

/// The laws can be called too.
#[test]
fn scripts_are_read_and_events_run(rt: HostRuntime) -> Result<(), Fail> {
    allowed_runs_are_exact();
    stops_keep_what_stands();
    worked_scripts();
    assert!(rt; reads_as_its_events(rt.alloc())?);
    assert!(rt; reads_as_more_events(rt.alloc())?);
    let schema = Schema::new(rt.alloc(), &NUMBERS)?;
    assert!(rt; answers_each_event(&rt, rt.alloc(), schema)?);
    Ok(())
}
