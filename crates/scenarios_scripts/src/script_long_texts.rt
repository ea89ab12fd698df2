//! Scripts with long answers: a line that comes late and is longer than what is gathered before a
//! write, and a batch of as many queries as there may be.

use crate::scripts::{SETTINGS, printed, push_line};
use std::alloc::{AllocError, Global};
use std::test::Fail;
use std::thread::Threads;
use world::{Echo, RunFault, run_script};

/// A script, what it prints, and what it prints with its events.
#[derive(Drop)]
struct Story {
    script: String,
    plain: String,
    echoed: String,
}

impl Story {
    /// A script of these settings alone.
    fn new(alloc: Global, settings: &str) -> Result<Story, AllocError> {
        Ok(Story {
            script: String::from_str(alloc, settings)?,
            plain: String::new(alloc),
            echoed: String::new(alloc),
        })
    }

    /// One event more, and the lines that it answers.
    fn add(&mut self, event: &str, answer: &str) -> Result<(), AllocError> {
        push_line(&mut self.script, "", event)?;
        push_line(&mut self.plain, "", answer)?;
        push_line(&mut self.echoed, "> ", event)?;
        push_line(&mut self.echoed, "", answer)
    }

    /// What it prints, with its events or without.
    fn text(&self, echo: Echo) -> &str {
        match echo {
            Echo::No => self.plain.as_str(),
            Echo::Events => self.echoed.as_str(),
        }
    }
}

/// One table of the widest rows.
const WIDE: &str = "workers 1\nreplicas 1\n\
    table wide bytes64 bytes64 bytes64 bytes64 bytes64 bytes64 bytes64 bytes64\n";

/// How many columns it has.
const COLUMNS: usize = 8;

/// The word of a value of a column, behind a space.
const VALUE: &str =
    " x0123456789abcdef0123456789abcdef0123456789abcdef0123456789abcdef0123456789abcdef0123456789abcdef0123456789abcdef0123456789abcdef";

/// How many rows there are. Two go in a frame, and the text of all is more than 20,000 bytes: no room
/// for a shorter line is enough for it.
const ROWS: usize = 21;

/// How many bytes each of the frames has.
const FRAMES: [usize; 11] = [
    1074, 1074, 1074, 1074, 1074, 1074, 1074, 1074, 1074, 1074, 550,
];

/// The words of a row behind these.
fn row_words(alloc: Global, front: &str, row: usize) -> Result<String, AllocError> {
    let mut words = format!(in alloc; "{front} {row}")?;
    for _ in 0..COLUMNS {
        words.push_str(VALUE)?;
    }
    Ok(words)
}

/// One commit of wide rows, in frames that are sent and stored.
fn add_wide_commit(alloc: Global, story: &mut Story) -> Result<(), AllocError> {
    story.add("begin", "tx 0 at 0")?;
    for row in 0..ROWS {
        let event = row_words(alloc, "insert 0 wide", row)?;
        story.add(event.as_str(), "ok")?;
    }
    story.add("commit 0 0", "ticket 1")?;
    story.add("flush 1", "durable 1")?;
    for (seq, len) in FRAMES.iter().enumerate() {
        let event = format!(in alloc; "push 0 {seq}")?;
        let answer = format!(in alloc; "sent {seq} {len}")?;
        story.add(event.as_str(), answer.as_str())?;
        let event = format!(in alloc; "deliver {seq} r0")?;
        story.add(event.as_str(), "stored")?;
    }
    Ok(())
}

/// The story of wide rows, which ends with the text of them all.
fn wide_story(alloc: Global) -> Result<Story, AllocError> {
    let mut story = Story::new(alloc, WIDE)?;
    add_wide_commit(alloc, &mut story)?;
    story.add("open 0 query wide get count", "opened 1")?;
    story.add("ask 0", "sent 11 23")?;
    story.add("deliver 11 p", "sent 12 64")?;
    story.add("deliver 12 r0", "head 1")?;
    story.add("run 0", "version 1 queries 1\nquery 0 rows 1\n21")?;
    let mut dump = String::from_str(alloc, "version 1 rows 21")?;
    for row in 0..ROWS {
        let line = row_words(alloc, "\nwide", row)?;
        dump.push_str(line.as_str())?;
    }
    story.add("dump 0", dump.as_str())?;
    Ok(story)
}

/// Whether a story prints what it should, or nothing where it is out of memory; one event of it may
/// be out of memory too.
fn is_whole_or_not_begun<R: Threads + Sync>(
    rt: &R,
    alloc: Global,
    story: &Story,
    echo: Echo,
    text: &mut Vec<u8>,
) -> Result<bool, RunFault> {
    let mut reader = story.script.as_bytes();
    match run_script(rt, alloc, echo, &mut reader, text) {
        Ok(()) => Ok(text.as_slice() == story.text(echo).as_bytes() || has_memory_line(text)),
        Err(RunFault::Memory) => Ok(text.is_empty()),
        Err(fault) => Err(fault),
    }
}

/// Whether a line of the text tells of being out of memory, or of a replica that broke for it.
fn has_memory_line(text: &[u8]) -> bool {
    text.split(|byte| *byte == b'\n').any(|line| line == b"memory".as_slice()
        || line == b"broken".as_slice())
}

/// A late line that is longer than what is gathered before a write is written whole. Whichever
/// request for memory is refused, nothing is written or all is: there is room for it before.
#[test]
fn a_late_long_line_without_memory_is_whole_or_not_begun(rt: HostRuntime) -> Result<(), Fail> {
    let story = wide_story(rt.alloc())?;
    let mut text = Vec::with_capacity(rt.alloc(), 60_000)?;
    assert!(rt; is_whole_or_not_begun(&rt, rt.alloc(), &story, Echo::No, &mut text)?);
    Ok(())
}

/// The same with the events.
#[test]
fn a_late_long_line_behind_its_event_without_memory_is_whole_or_not_begun(
    rt: HostRuntime,
) -> Result<(), Fail> {
    let story = wide_story(rt.alloc())?;
    let mut text = Vec::with_capacity(rt.alloc(), 60_000)?;
    assert!(rt; is_whole_or_not_begun(&rt, rt.alloc(), &story, Echo::Events, &mut text)?);
    Ok(())
}

/// How many queries a batch may have.
const QUERIES: usize = 64;

/// The story of a batch of as many queries as there may be.
fn batch_story(alloc: Global) -> Result<Story, AllocError> {
    let mut story = Story::new(alloc, SETTINGS)?;
    let mut report = format!(in alloc; "version 0 queries {QUERIES}")?;
    for query in 0..QUERIES {
        let answer = format!(in alloc; "opened {}", query + 1)?;
        story.add("open 0 query acct get count sum 0", answer.as_str())?;
        let line = format!(in alloc; "\nquery {query} rows 1\n0 0")?;
        report.push_str(line.as_str())?;
    }
    story.add("open 0 query acct get count", "batch full")?;
    story.add("ask 0", "sent 0 23")?;
    story.add("deliver 0 p", "sent 1 64")?;
    story.add("deliver 1 r0", "head 0")?;
    story.add("run 0", report.as_str())?;
    Ok(story)
}

/// With ample memory a batch of as many queries as there may be is answered whole.
#[test]
fn a_full_batch_is_answered(rt: HostRuntime) -> Result<(), Fail> {
    let story = batch_story(rt.alloc())?;
    let text = printed(&rt, rt.alloc(), story.script.as_bytes())?;
    assert_eq!(rt; text.as_slice(), story.plain.as_bytes());
    Ok(())
}
