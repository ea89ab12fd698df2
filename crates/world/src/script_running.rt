//! A script from a reader to a writer.

ghost use Rattle.std.specs.Prelude.{◌≡◌, ◌≢◌, ◌<◌, ◌≤◌, List, ℕ, IfErr, OnOk, OnErr, Err};
ghost use Rattle.std.specs.List.{AllByRecursion};
ghost use Rattle.std.specs.Io.KnownBytes.{Appends, Keeps};
ghost use Rattle.rows.specs.Limits.{workers_max, replicas_max};
ghost use Rattle.script.specs.declared.output.Output.{Output as OutputOf};
ghost use Rattle.script.specs.Events.{IsPossible};
ghost use Rattle.script.specs.Scripts.{IsScriptFault};
ghost use Rattle.script.specs.Writing.{IsPartlyWritten};
ghost use Rattle.world.specs.Cores.{new_opening};
ghost use Rattle.world.specs.Theorem.{KeepsPromises};
ghost use Rattle.world.specs.Scripts.{WasRead, IsPrinted, run_text};

use crate::faults::RunFault;
use crate::simulator::run;
use script::{
    Event, Output, Reason, ScriptFault, Setup, WriteFault, read_script, write_echoed_text_of,
    write_text_of,
};
use std::alloc::Global;
use std::io::{ErrorKind, Read, Write};
use std::marker::Sync;
use std::thread::Threads;

/// What precedes the lines of an event's output.
#[derive(Clone, Copy, Debug, PartialEq, Eq)]
pub enum Echo {
    /// Nothing.
    No,
    /// The event's own line, after `> `.
    Events,
}

/// Reads a script to its end, runs all its events, and then writes the text of their outputs and
/// flushes it. It may use threads.
///
/// The contract specifies what was read and written as far as the types of the reader and the
/// writer do. No clause states whether they failed. It is tested that the answer is `Read` or
/// `Write` only if they did, and `Write` if the flush fails.
pub fn run_script<T: Threads + Sync, R: Read, W: Write>(
    rt: &T,
    alloc: Global,
    echo: Echo,
    reader: &mut R,
    writer: &mut W,
) -> Result<(), RunFault>
    ensures printed { OnOk result ((script text : List ℕ)
        × WasRead (R.remaining reader.old) (R.remaining reader.new) script
        × IsPrinted echo script text
        × Appends (W.contents writer.old) (W.contents writer.new) text) }
    ensures interrupted { result ≡ Err RunFault.Write → (script text : List ℕ)
        × WasRead (R.remaining reader.old) (R.remaining reader.new) script
        × IsPrinted echo script text
        × IsPartlyWritten (W.contents writer.old) (W.contents writer.new) text }
    ensures faulty { (line : ℕ) (reason : Reason) → result ≡ Err (RunFault.Script line reason)
        → (script : List ℕ) × WasRead (R.remaining reader.old) (R.remaining reader.new) script
        × IsScriptFault script (ScriptFault.At line reason) }
    ensures unwritten { IfErr result (λ fault. fault ≢ RunFault.Write
        → Keeps (W.contents writer.old) (W.contents writer.new)) }
{
    let mut script = Vec::new(alloc);
    if let Err(fault) = reader.read_to_end(&mut script) {
        return Err(match fault.kind() {
            ErrorKind::OutOfMemory => RunFault::Memory,
            _ => RunFault::Read,
        });
    }
    play(rt, alloc, echo, script.as_slice(), writer)
}

/// Runs all events of a script, and then writes the text of their outputs and flushes it.
fn play<T: Threads + Sync, W: Write>(
    rt: &T,
    alloc: Global,
    echo: Echo,
    script: &[u8],
    writer: &mut W,
) -> Result<(), RunFault>
    ensures printed { OnOk result ((text : List ℕ) × IsPrinted echo script.now text
        × Appends (W.contents writer.old) (W.contents writer.new) text) }
    ensures interrupted { result ≡ Err RunFault.Write → (text : List ℕ) × IsPrinted echo script.now text
        × IsPartlyWritten (W.contents writer.old) (W.contents writer.new) text }
    ensures faulty { (line : ℕ) (reason : Reason) → result ≡ Err (RunFault.Script line reason)
        → IsScriptFault script.now (ScriptFault.At line reason) }
    ensures unwritten { IfErr result (λ fault. fault ≢ RunFault.Write
        → Keeps (W.contents writer.old) (W.contents writer.new)) }
{
    let (setup, events) = match read_script(alloc, script) {
        Ok(read) => read,
        Err(ScriptFault::At { line, reason }) => return Err(RunFault::Script { line, reason }),
        Err(ScriptFault::Memory) => return Err(RunFault::Memory),
    };
    play_events(rt, alloc, echo, &setup, events.as_slice(), writer)
}

/// Runs events, and then writes the text of their outputs and flushes it.
fn play_events<T: Threads + Sync, W: Write>(
    rt: &T,
    alloc: Global,
    echo: Echo,
    setup: &Setup,
    events: &[Event],
    writer: &mut W,
) -> Result<(), RunFault>
    requires some { 0 < setup.now.workers }
    requires workers { setup.now.workers ≤ workers_max }
    requires replicas { setup.now.replicas ≤ replicas_max }
    requires possible { AllByRecursion (IsPossible setup.now.workers setup.now.replicas) events.now }
    ensures printed { OnOk result ((outputs : List OutputOf) × KeepsPromises (new_opening setup.now) events.now outputs
        × Appends (W.contents writer.old) (W.contents writer.new) (run_text echo setup.now events.now outputs)) }
    ensures interrupted { result ≡ Err RunFault.Write → (outputs : List OutputOf)
        × KeepsPromises (new_opening setup.now) events.now outputs
        × IsPartlyWritten (W.contents writer.old) (W.contents writer.new) (run_text echo setup.now events.now outputs) }
    ensures other { (line : ℕ) (reason : Reason) → ¬ (result ≡ Err (RunFault.Script line reason)) }
    ensures unwritten { IfErr result (λ fault. fault ≢ RunFault.Write
        → Keeps (W.contents writer.old) (W.contents writer.new)) }
{
    let Ok(outputs) = run(rt, alloc, setup, events) else {
        return Err(RunFault::Memory);
    };
    write_out(alloc, echo, writer, setup, events, outputs.as_slice())
}

/// Writes the text of a run and flushes it.
fn write_out<W: Write>(
    alloc: Global,
    echo: Echo,
    writer: &mut W,
    setup: &Setup,
    events: &[Event],
    outputs: &[Output],
) -> Result<(), RunFault>
    ensures written { OnOk result (Appends (W.contents writer.old) (W.contents writer.new)
        (run_text echo setup.now events.now outputs.now)) }
    ensures interrupted { result ≡ Err RunFault.Write → IsPartlyWritten (W.contents writer.old) (W.contents writer.new)
        (run_text echo setup.now events.now outputs.now) }
    ensures other { (line : ℕ) (reason : Reason) → ¬ (result ≡ Err (RunFault.Script line reason)) }
    ensures unwritten { IfErr result (λ fault. fault ≢ RunFault.Write
        → Keeps (W.contents writer.old) (W.contents writer.new)) }
{
    match write_run(alloc, echo, writer, setup, events, outputs) {
        Ok(()) => match writer.flush() {
            Ok(()) => Ok(()),
            Err(_) => Err(RunFault::Write),
        },
        Err(WriteFault::Write) => Err(RunFault::Write),
        Err(WriteFault::Memory) => Err(RunFault::Memory),
    }
}

/// Writes the text of a run.
fn write_run<W: Write>(
    alloc: Global,
    echo: Echo,
    writer: &mut W,
    setup: &Setup,
    events: &[Event],
    outputs: &[Output],
) -> Result<(), WriteFault>
    ensures written { OnOk result (Appends (W.contents writer.old) (W.contents writer.new)
        (run_text echo setup.now events.now outputs.now)) }
    ensures interrupted { result ≡ Err WriteFault.Write → IsPartlyWritten (W.contents writer.old) (W.contents writer.new)
        (run_text echo setup.now events.now outputs.now) }
    ensures unwritten { result ≡ Err WriteFault.Memory → Keeps (W.contents writer.old) (W.contents writer.new) }
{
    match echo {
        Echo::No => write_text_of(alloc, writer, outputs),
        Echo::Events => write_echoed_text_of(alloc, writer, &setup.schema, events, outputs),
    }
}
