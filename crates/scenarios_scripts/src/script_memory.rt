//! What a script prints where a request for memory is refused.

use crate::scripts::{SETTINGS, expect, is_text_of, printed, push_line, script_of};
use std::alloc::{AllocError, Global};
use std::test::Fail;
use std::thread::Threads;
use world::{Echo, RunFault, run_script};

/// Events, each beside the lines that it answers.
type Events = &'static [(&'static str, &'static str)];

/// Events with a run that changes tables, at an index. A restart behind it forgets what it left of them.
struct Story {
    events: Events,
    run: usize,
    /// What that run and the looks behind it answer where it was out of memory and yet changed the
    /// replica: it brought the tables to the fetched version, or broke the replica on the way there.
    cut_short: [&'static [&'static str]; 2],
}

/// Every kind of event: changes of the primary, of what was sent, and of a replica, and looks at
/// them, each beside the lines that it answers.
const EACH_KIND: [(&str, &str); 41] = [
    ("begin", "tx 0 at 0"),
    ("insert 0 acct 7 5 -1", "ok"),
    ("commit 0 0", "ticket 1"),
    ("flush 1", "durable 1"),
    ("base", "base 1 pieces 1"),
    ("begin", "tx 1 at 1"),
    ("begin", "tx 2 at 1"),
    ("set 1 acct 7 1 6", "ok"),
    ("delete 2 acct 7", "ok"),
    ("get 1 acct 7 1", "value 6"),
    ("abort 2", "ok"),
    ("commit 1 0", "ticket 2"),
    ("flush 1", "durable 2"),
    ("begin", "tx 3 at 2"),
    ("insert 3 acct 8 7 -1", "ok"),
    ("commit 3 0", "ticket 3"),
    ("stop 43", "stopped"),
    ("push 0 1", "stopped"),
    ("start", "durable 3"),
    ("push 0 0", "sent 0 54"),
    ("deliver 0 r0", "stored"),
    ("open 0 query acct get count", "opened 1"),
    (
        "open 0 query acct join 0 acct where 0 > 0 and j1 < 9 by 0 j1 get count sum 1 min j0",
        "opened 2",
    ),
    ("renew 0", "empty"),
    ("ask 0", "sent 1 23"),
    ("renew 0", "no head"),
    ("deliver 1 p", "sent 2 64"),
    ("deliver 2 r0", "head 3"),
    ("push 0 1", "sent 3 48"),
    ("deliver 3 r0", "stored"),
    ("deliver 3 r0", "repeat"),
    ("run 0", "waiting 0 2\nsent 4 16"),
    ("show 4", "42440304001000000000000000000002"),
    ("raw p 42440304001000000000000000000002", "sent 5 54"),
    (
        "raw r0 42440301003600000000000000000200000000000000030100010100000000000000000800100000000000000007ffffffffffffffff",
        "stored",
    ),
    (
        "run 0",
        "version 3 queries 2\nquery 0 rows 1\n2\nquery 1 rows 1\n7 6 1 -1 5",
    ),
    ("version 0", "version 3"),
    ("dump 0", "version 3 rows 2\nacct 7 5 6\nacct 8 7 -1"),
    ("restart 0 2", "boot 2"),
    ("version 0", "version 0"),
    ("dump 0", "version 0 rows 0"),
];

static STORY: Story = Story {
    events: &EACH_KIND,
    run: 35,
    cut_short: [
        &[
            "memory",
            "version 3",
            "version 3 rows 2\nacct 7 5 6\nacct 8 7 -1",
        ],
        &["broken", "version 0", "broken"],
    ],
};

/// A replica goes by image, which adds a column, and by a frame above it. It gives a Head up before. The
/// frame below the base comes when it is known.
const BY_IMAGE: [(&str, &str); 30] = [
    ("begin", "tx 0 at 0"),
    ("insert 0 acct 7 5 -1", "ok"),
    ("column 0 acct 3", "ok"),
    ("commit 0 0", "ticket 1"),
    ("flush 1", "durable 1"),
    ("push 0 0", "sent 0 65"),
    ("base", "base 1 pieces 1"),
    ("begin", "tx 1 at 1"),
    ("insert 1 acct 8 6 -2 9", "ok"),
    ("commit 1 0", "ticket 2"),
    ("flush 1", "durable 2"),
    ("open 0 query acct get count", "opened 1"),
    ("ask 0", "sent 1 23"),
    ("deliver 1 p", "sent 2 64"),
    ("deliver 2 r0", "head 2"),
    ("renew 0", "sent 3 23"),
    ("deliver 3 p", "sent 4 64"),
    ("deliver 4 r0", "head 2"),
    ("run 0", "waiting piece 0\nsent 5 23"),
    ("deliver 5 p", "sent 6 72"),
    ("deliver 6 r0", "stored"),
    ("run 0", "waiting 0 1\nsent 7 16"),
    ("deliver 7 p", "sent 8 62"),
    ("deliver 8 r0", "stored"),
    ("run 0", "version 2 queries 1\nquery 0 rows 1\n2"),
    ("deliver 0 r0", "repeat"),
    ("version 0", "version 2"),
    ("dump 0", "version 2 rows 2\nacct 7 5 -1 3\nacct 8 6 -2 9"),
    ("restart 0 2", "boot 2"),
    ("version 0", "version 0"),
];

static IMAGE: Story = Story {
    events: &BY_IMAGE,
    run: 24,
    cut_short: [
        &[
            "memory",
            "repeat",
            "version 2",
            "version 2 rows 2\nacct 7 5 -1 3\nacct 8 6 -2 9",
        ],
        &["broken", "broken", "version 0", "broken"],
    ],
};

/// With ample memory each event answers as it should.
#[test]
fn the_stories_answer_as_they_should(rt: HostRuntime) -> Result<(), Fail> {
    expect(&rt, rt.alloc(), SETTINGS, STORY.events)?;
    expect(&rt, rt.alloc(), SETTINGS, IMAGE.events)
}

/// The script of the story without the event of that index.
fn script_without(alloc: Global, story: &Story, index: usize) -> Result<String, AllocError> {
    let (before, behind) = story.events.split_at(index.min(story.events.len()));
    let mut script = script_of(alloc, SETTINGS, before)?;
    let (_, behind) = behind.split_at(behind.len().min(1));
    let rest = script_of(alloc, "", behind)?;
    script.push_str(rest.as_str())?;
    Ok(script)
}

/// The first line of the text that tells of out of memory.
fn line_of_memory(text: &[u8]) -> Option<usize> {
    text.split(|byte| *byte == b'\n')
        .position(|line| line == b"memory".as_slice())
}

/// The index of the event of the story whose answer begins at that line.
fn event_at(story: &Story, line: usize) -> usize {
    let mut lines = 0usize;
    for (index, (_, answer)) in story.events.iter().enumerate() {
        if lines >= line {
            return index;
        }
        for _ in answer.as_bytes().split(|byte| *byte == b'\n') {
            lines = lines.saturating_add(1);
        }
    }
    story.events.len()
}

/// Whether the text is that other text with a line put in at that index.
fn has_one_more_line(text: &[u8], index: usize, other: &[u8]) -> bool {
    let mut others = other.split(|byte| *byte == b'\n');
    for (at, line) in text.split(|byte| *byte == b'\n').enumerate() {
        if at != index && others.next() != Some(line) {
            return false;
        }
    }
    others.next().is_none()
}

/// Whether a text is what the story answers without one event, with the line `memory` for that one.
/// One request is refused at the most, so that memory is ample then.
fn is_allowed_without<R: Threads + Sync>(
    rt: &R,
    alloc: Global,
    story: &Story,
    text: &[u8],
    line: usize,
) -> Result<bool, Fail> {
    let script = script_without(alloc, story, event_at(story, line))?;
    let other = printed(rt, alloc, script.as_bytes())?;
    Ok(has_one_more_line(text, line, other.as_slice()))
}

/// Whether a text is what the story answers, with these answers from that run on.
fn is_cut_short(
    alloc: Global,
    story: &Story,
    text: &[u8],
    answers: &[&str],
) -> Result<bool, AllocError> {
    let mut expected = String::new(alloc);
    for (index, (_, answer)) in story.events.iter().enumerate() {
        match answers.get(index.wrapping_sub(story.run)) {
            Some(other) => push_line(&mut expected, "", other)?,
            None => push_line(&mut expected, "", answer)?,
        }
    }
    Ok(text == expected.as_bytes())
}

/// Whether a text is what the story answers, or one of those.
fn is_allowed<R: Threads + Sync>(
    rt: &R,
    alloc: Global,
    story: &Story,
    text: &[u8],
) -> Result<bool, Fail> {
    for answers in &story.cut_short {
        if is_cut_short(alloc, story, text, answers)? {
            return Ok(true);
        }
    }
    match line_of_memory(text) {
        Some(line) => is_allowed_without(rt, alloc, story, text, line),
        None => Ok(is_text_of(alloc, Echo::No, story.events, text)?),
    }
}

/// Whether this script of the story ends as it may: out of memory with nothing written, or with a
/// text that is allowed.
fn ends_as_allowed<R: Threads + Sync>(rt: &R, alloc: Global, story: &Story) -> Result<bool, Fail> {
    let script = script_of(alloc, SETTINGS, story.events)?;
    let mut reader = script.as_bytes();
    let mut text = Vec::with_capacity(alloc, 1000)?;
    match run_script(rt, alloc, Echo::No, &mut reader, &mut text) {
        Ok(()) => is_allowed(rt, alloc, story, text.as_slice()),
        Err(RunFault::Memory) => Ok(text.is_empty()),
        Err(fault) => Err(fault.into()),
    }
}

/// Whichever request for memory is refused: the run of the script writes nothing and says so, or
/// the event that was out of memory has changed nothing but what a run of a replica may change.
#[test]
fn an_event_without_memory_changes_nothing(rt: HostRuntime) -> Result<(), Fail> {
    assert!(rt; ends_as_allowed(&rt, rt.alloc(), &STORY)?);
    Ok(())
}

/// So it is where a replica goes by image.
#[test]
fn an_image_without_memory_changes_nothing(rt: HostRuntime) -> Result<(), Fail> {
    assert!(rt; ends_as_allowed(&rt, rt.alloc(), &IMAGE)?);
    Ok(())
}
