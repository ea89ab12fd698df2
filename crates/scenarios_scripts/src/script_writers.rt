//! What a script's run writes and answers, where the reader or the writer has its faults.

use crate::scripts::SETTINGS;
use std::alloc::Global;
use std::io;
use std::io::{ErrorKind, Read, Write};
use std::test::Fail;
use std::thread::Threads;
use world::{Echo, RunFault, run_script};

/// A writer that takes a few bytes at once.
#[derive(Drop)]
struct Narrow {
    text: Vec<u8>,
    /// How many bytes it takes at once.
    step: usize,
    /// How many bytes it takes before it fails.
    room: usize,
    /// Whether it is interrupted before each write.
    is_interrupted: bool,
    /// Whether the next write is interrupted.
    interrupts: bool,
    /// Whether it can be flushed.
    can_flush: bool,
    /// How often it was flushed.
    flushes: usize,
}

impl Write for Narrow {
    fn write(&mut self, buf: &[u8]) -> io::Result<usize> {
        if self.interrupts {
            self.interrupts = false;
            return Err(ErrorKind::Interrupted.into());
        }
        self.interrupts = self.is_interrupted;
        let left = self.room.saturating_sub(self.text.len());
        if left == 0 {
            return Err(ErrorKind::BrokenPipe.into());
        }
        let count = buf.len().min(self.step).min(left);
        self.text.extend_from_slice(&buf[..count])?;
        Ok(count)
    }

    fn flush(&mut self) -> io::Result<()> {
        self.flushes = self.flushes.saturating_add(1);
        if self.can_flush {
            Ok(())
        } else {
            Err(ErrorKind::BrokenPipe.into())
        }
    }
}

/// A writer that takes so many bytes at once, and so many before it fails.
fn writer_taking(alloc: Global, step: usize, room: usize) -> Narrow {
    Narrow {
        text: Vec::new(alloc),
        step,
        room,
        is_interrupted: false,
        interrupts: false,
        can_flush: true,
        flushes: 0,
    }
}

/// A script, and what it prints.
const SCRIPT: &str = "workers 1\nreplicas 1\ntable acct int int\nbegin\nrun 0\nshow 0\n";

const PRINTED: &str = "tx 0 at 0\nno batch\nnever sent\n";

const ECHOED: &str = "> begin\ntx 0 at 0\n> run 0\nno batch\n> show 0\nnever sent\n";

/// Whether the script ends so, and has written that beginning of the text and no more.
fn ends_with<R: Threads + Sync>(
    rt: &R,
    writer: &mut Narrow,
    alloc: Global,
    echo: Echo,
    text: &str,
    ends: Result<(), RunFault>,
) -> bool {
    let mut reader = SCRIPT.as_bytes();
    let end = run_script(rt, alloc, echo, &mut reader, writer);
    let text = text.as_bytes();
    let count = text.len().min(writer.room);
    end == ends && writer.text.as_slice() == &text[..count]
}

/// A writer may take any number of bytes at once.
#[test]
fn a_text_is_written_whole_by_short_writes(rt: HostRuntime) -> Result<(), Fail> {
    for step in [1usize, 2, 7, 100] {
        let mut writer = writer_taking(rt.alloc(), step, 1000);
        let is_whole = ends_with(&rt, &mut writer, rt.alloc(), Echo::No, PRINTED, Ok(()));
        assert!(rt; is_whole, "{step}");
        let mut writer = writer_taking(rt.alloc(), step, 1000);
        let is_whole = ends_with(&rt, &mut writer, rt.alloc(), Echo::Events, ECHOED, Ok(()));
        assert!(rt; is_whole, "{step}");
    }
    Ok(())
}

/// Where a write fails, what was written is a beginning of the text, and the run ends with that
/// fault.
#[test]
fn a_failed_write_leaves_a_beginning(rt: HostRuntime) -> Result<(), Fail> {
    for room in [0usize, 1, 10, 29] {
        let mut writer = writer_taking(rt.alloc(), 4, room);
        let fault = Err(RunFault::Write);
        let is_beginning = ends_with(&rt, &mut writer, rt.alloc(), Echo::No, PRINTED, fault);
        assert!(rt; is_beginning, "{room}");
    }
    Ok(())
}

/// A write that was interrupted is tried again.
#[test]
fn an_interrupted_write_is_tried_again(rt: HostRuntime) -> Result<(), Fail> {
    let mut writer = writer_taking(rt.alloc(), 4, 1000);
    writer.is_interrupted = true;
    writer.interrupts = true;
    assert!(rt; ends_with(&rt, &mut writer, rt.alloc(), Echo::No, PRINTED, Ok(())));
    Ok(())
}

/// A writer that takes nothing, and says so.
#[derive(Drop)]
struct Full;

impl Write for Full {
    fn write(&mut self, _buf: &[u8]) -> io::Result<usize> {
        Ok(0)
    }

    fn flush(&mut self) -> io::Result<()> {
        Ok(())
    }
}

/// A write that takes no byte is a failed write, and is not tried again.
#[test]
fn a_write_of_no_byte_fails(rt: HostRuntime) -> Result<(), Fail> {
    for echo in [Echo::No, Echo::Events] {
        let mut reader = SCRIPT.as_bytes();
        let end = run_script(&rt, rt.alloc(), echo, &mut reader, &mut Full);
        assert_eq!(rt; end, Err(RunFault::Write), "{echo:?}");
    }
    Ok(())
}

/// The text is flushed once, behind its last byte; where that fails the run ends with that fault.
#[test]
fn a_failed_flush_is_told(rt: HostRuntime) -> Result<(), Fail> {
    let mut writer = writer_taking(rt.alloc(), 100, 1000);
    assert!(rt; ends_with(&rt, &mut writer, rt.alloc(), Echo::No, PRINTED, Ok(())));
    assert_eq!(rt; writer.flushes, 1);
    let mut writer = writer_taking(rt.alloc(), 100, 1000);
    writer.can_flush = false;
    assert!(rt;
        ends_with(
            &rt,
            &mut writer,
            rt.alloc(),
            Echo::No,
            PRINTED,
            Err(RunFault::Write)
        )
    );
    Ok(())
}

/// A reader that fails behind so many bytes of the script.
#[derive(Drop)]
struct Torn {
    read: usize,
    end: usize,
}

impl Read for Torn {
    fn read(&mut self, buf: &mut [u8]) -> io::Result<usize> {
        let script = SCRIPT.as_bytes();
        if self.read >= self.end || self.read >= script.len() || buf.is_empty() {
            return Err(ErrorKind::BrokenPipe.into());
        }
        buf[0] = script[self.read];
        self.read += 1;
        Ok(1)
    }
}

/// A script that is not read to its end is not run, also where what was read is a script.
#[test]
fn a_failed_read_writes_nothing(rt: HostRuntime) -> Result<(), Fail> {
    for end in [0usize, 10, 45, SCRIPT.len()] {
        let mut reader = Torn { read: 0, end };
        let mut text = Vec::new(rt.alloc());
        let end_of_run = run_script(&rt, rt.alloc(), Echo::No, &mut reader, &mut text);
        assert_eq!(rt; end_of_run, Err(RunFault::Read), "{end}");
        assert!(rt; text.is_empty(), "{end}");
    }
    Ok(())
}

/// How many lines of 109 bytes a long text has, behind five others; it is more than 8192 bytes.
const SHOWN: usize = 90;

/// A script that prints a long text: one datagram, again and again.
fn long_script(alloc: Global) -> Result<String, Fail> {
    let mut script = String::from_str(alloc, SETTINGS)?;
    script.push_str("begin\ninsert 0 acct 7 5 -1\ncommit 0 0\nflush 1\npush 0 0\n")?;
    for _ in 0..SHOWN {
        script.push_str("show 0\n")?;
    }
    Ok(script)
}

/// The datagram of that script: a frame of worker 0, seq 0, commit 1, with one insert.
const FRAME: &str =
    "42440301003600000000000000000000000000000000010100010100000000000000000700100000000000000005ffffffffffffffff\n";

/// Whether a text is what that script prints.
fn is_long_text(text: &[u8]) -> bool {
    let front = b"tx 0 at 0\nok\nticket 1\ndurable 1\nsent 0 54\n".as_slice();
    if !text.starts_with(front) {
        return false;
    }
    let mut rest = &text[front.len()..];
    for _ in 0..SHOWN {
        if !rest.starts_with(FRAME.as_bytes()) {
            return false;
        }
        rest = &rest[FRAME.len()..];
    }
    rest.is_empty()
}

/// What a long script prints, and how it ends.
fn ends_long<R: Threads + Sync>(
    rt: &R,
    alloc: Global,
    text: &mut Vec<u8>,
) -> Result<Result<(), RunFault>, Fail> {
    let script = long_script(alloc)?;
    let mut reader = script.as_bytes();
    Ok(run_script(rt, alloc, Echo::No, &mut reader, text))
}

/// A text longer than what is written at once is whole.
#[test]
fn a_long_text_is_whole(rt: HostRuntime) -> Result<(), Fail> {
    let mut text = Vec::new(rt.alloc());
    assert_eq!(rt; ends_long(&rt, rt.alloc(), &mut text)?, Ok(()));
    assert!(rt; is_long_text(text.as_slice()));
    Ok(())
}

/// Whichever request for memory is refused: nothing is written, or the text to its end, in which
/// one event may have been out of memory.
#[test]
fn a_long_text_without_memory_is_whole_or_not_begun(rt: HostRuntime) -> Result<(), Fail> {
    let mut text = Vec::with_capacity(rt.alloc(), 20000)?;
    match ends_long(&rt, rt.alloc(), &mut text)? {
        Ok(()) => assert!(rt; text.ends_with(b"\n")),
        Err(RunFault::Memory) => assert!(rt; text.is_empty()),
        Err(fault) => return Err(fault.into()),
    }
    Ok(())
}
