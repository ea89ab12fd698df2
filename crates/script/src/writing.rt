//! Writing the text of outputs to a writer, in pieces.

ghost use Rattle.std.specs.Prelude.{◌≡◌, ℕ, ◌+◌, ◌<◌, ◌≤◌, [], length, max, slice_get, vec_capacity, Err, IfOk, OnOk, OnErr};
ghost use Rattle.std.specs.Io.KnownBytes.{Appends, Keeps};
ghost use Rattle.script.specs.declared.event.Event.{Event as EventOf};
ghost use Rattle.script.specs.declared.output.Output.{Output as OutputOf};
ghost use Rattle.script.specs.EventText.{echoed_one, echoed_text};
ghost use Rattle.script.specs.OutputText.{output_text, outputs_text};
ghost use Rattle.script.specs.Writing.{IsWrittenBut, IsPartlyWritten};

use crate::event::Event;
use crate::event_text::push_echoed;
use crate::faults::WriteFault;
use crate::output::Output;
use crate::output_text::push_output;
use rows::Schema;
use std::alloc::{AllocError, Global};
use std::io;
use std::io::{ErrorKind, Write};

/// How many bytes of a text are collected before they are written.
const PIECE: usize = 8192;

/// Writes the text of outputs: one line each, except two for a run that waits for a frame, and all
/// lines of a report or of the text of tables. The writer is not flushed.
///
/// Fails with `Memory` before anything is written; with `Write`, some beginning of the text was
/// written.
pub fn write_text_of<W: Write>(
    alloc: Global,
    writer: &mut W,
    outputs: &[Output],
) -> Result<(), WriteFault>
    ensures written { OnOk result (Appends (W.contents writer.old) (W.contents writer.new) (outputs_text outputs.now)) }
    ensures interrupted { result ≡ Err WriteFault.Write
        → IsPartlyWritten (W.contents writer.old) (W.contents writer.new) (outputs_text outputs.now) }
    ensures unwritten { result ≡ Err WriteFault.Memory → Keeps (W.contents writer.old) (W.contents writer.new) }
{
    let Ok(mut text) = room_for(alloc, outputs) else {
        return Err(WriteFault::Memory);
    };
    match write_outputs(writer, &mut text, outputs) {
        Ok(()) => Ok(()),
        Err(_) => Err(WriteFault::Write),
    }
}

/// Writes the text of events and of their outputs: the line of each event after `> `, and then the
/// lines of its output, as far as both lists go. Tables have their names in the schema. The writer
/// is not flushed.
///
/// Fails with `Memory` before anything is written; with `Write`, some beginning of the text was
/// written.
pub fn write_echoed_text_of<W: Write>(
    alloc: Global,
    writer: &mut W,
    schema: &Schema,
    events: &[Event],
    outputs: &[Output],
) -> Result<(), WriteFault>
    ensures written { OnOk result (Appends (W.contents writer.old) (W.contents writer.new)
        (echoed_text schema.now events.now outputs.now)) }
    ensures interrupted { result ≡ Err WriteFault.Write
        → IsPartlyWritten (W.contents writer.old) (W.contents writer.new) (echoed_text schema.now events.now outputs.now) }
    ensures unwritten { result ≡ Err WriteFault.Memory → Keeps (W.contents writer.old) (W.contents writer.new) }
{
    let Ok(mut text) = room_for_echoed(alloc, schema, events, outputs) else {
        return Err(WriteFault::Memory);
    };
    match write_echoed(writer, &mut text, schema, events, outputs) {
        Ok(()) => Ok(()),
        Err(_) => Err(WriteFault::Write),
    }
}

/// An empty text with room for a piece and, after it, the lines of any one of these outputs: each
/// is put there once, for its length. So it cannot run out of memory once something is written.
fn room_for(alloc: Global, outputs: &[Output]) -> Result<Vec<u8>, AllocError>
    ensures empty { IfOk result (λ text. text.items ≡ []) }
    ensures room { IfOk result (λ text. (index : ℕ) (output : OutputOf) → slice_get outputs.now index ≡ Some output
        → PIECE + length (output_text output) ≤ vec_capacity text) }
{
    let mut text = Vec::new(alloc);
    let mut longest = 0;
    for output in outputs {
        text.clear();
        push_output(&mut text, output)?;
        longest = longer(longest, text.len());
    }
    text.clear();
    text.reserve(PIECE + longest)?;
    Ok(text)
}

/// The same for events and outputs.
fn room_for_echoed(
    alloc: Global,
    schema: &Schema,
    events: &[Event],
    outputs: &[Output],
) -> Result<Vec<u8>, AllocError>
    ensures empty { IfOk result (λ text. text.items ≡ []) }
    ensures room { IfOk result (λ text. (index : ℕ) (event : EventOf) (output : OutputOf)
        → slice_get events.now index ≡ Some event → slice_get outputs.now index ≡ Some output
        → PIECE + length (echoed_one schema.now event output) ≤ vec_capacity text) }
{
    let mut text = Vec::new(alloc);
    let mut longest = 0;
    let len = if events.len() < outputs.len() {
        events.len()
    } else {
        outputs.len()
    };
    for index in 0..len {
        text.clear();
        push_echoed(&mut text, schema, &events[index], &outputs[index])?;
        longest = longer(longest, text.len());
    }
    text.clear();
    text.reserve(PIECE + longest)?;
    Ok(text)
}

/// The greater of two lengths.
fn longer(one: usize, other: usize) -> usize
    ensures { result ≡ max one other }
{
    if one < other { other } else { one }
}

/// Writes the text of outputs through an empty text that has room.
fn write_outputs<W: Write>(writer: &mut W, text: &mut Vec<u8>, outputs: &[Output]) -> io::Result<()>
    requires { text.old.items ≡ [] }
    ensures written { OnOk result (Appends (W.contents writer.old) (W.contents writer.new) (outputs_text outputs.now)) }
    ensures interrupted { OnErr result (IsPartlyWritten (W.contents writer.old) (W.contents writer.new) (outputs_text outputs.now)) }
{
    for output in outputs {
        push_output(text, output)?;
        write_piece(writer, text)?;
    }
    write_bytes(writer, text.as_slice())
}

/// The same for events and outputs.
fn write_echoed<W: Write>(
    writer: &mut W,
    text: &mut Vec<u8>,
    schema: &Schema,
    events: &[Event],
    outputs: &[Output],
) -> io::Result<()>
    requires { text.old.items ≡ [] }
    ensures written { OnOk result (Appends (W.contents writer.old) (W.contents writer.new)
        (echoed_text schema.now events.now outputs.now)) }
    ensures interrupted { OnErr result (IsPartlyWritten (W.contents writer.old) (W.contents writer.new)
        (echoed_text schema.now events.now outputs.now)) }
{
    let len = if events.len() < outputs.len() {
        events.len()
    } else {
        outputs.len()
    };
    for index in 0..len {
        push_echoed(text, schema, &events[index], &outputs[index])?;
        write_piece(writer, text)?;
    }
    write_bytes(writer, text.as_slice())
}

/// Writes a text and empties it, if it is at least a piece. What is kept is shorter.
fn write_piece<W: Write>(writer: &mut W, text: &mut Vec<u8>) -> io::Result<()>
    ensures kept { OnOk result (length text.new.items < PIECE) }
    ensures written { OnOk result (IsWrittenBut (W.contents writer.old) (W.contents writer.new) text.old.items text.new.items) }
    ensures interrupted { OnErr result (IsPartlyWritten (W.contents writer.old) (W.contents writer.new) text.old.items) }
{
    if text.len() >= PIECE {
        write_bytes(writer, text.as_slice())?;
        text.clear();
    }
    Ok(())
}

/// Writes these bytes. If that fails, some beginning of them was written, and `write_all` does not
/// report which.
fn write_bytes<W: Write>(writer: &mut W, bytes: &[u8]) -> io::Result<()>
    ensures written { OnOk result (Appends (W.contents writer.old) (W.contents writer.new) bytes.now) }
    ensures interrupted { OnErr result (IsPartlyWritten (W.contents writer.old) (W.contents writer.new) bytes.now) }
{
    let mut rest = bytes;
    // A writer that is interrupted again and again is eventually given up.
    for _ in 0..u64::MAX {
        if rest.is_empty() {
            return Ok(());
        }
        match writer.write(rest) {
            Ok(0) => return Err(ErrorKind::WriteZero.into()),
            Ok(count) => rest = &rest[count..],
            Err(fault) => {
                if fault.kind() != ErrorKind::Interrupted {
                    return Err(fault);
                }
            }
        }
    }
    Err(ErrorKind::TimedOut.into())
}
