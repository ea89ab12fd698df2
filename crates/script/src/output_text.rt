//! The lines of outputs.

ghost use Rattle.std.specs.Prelude.{◌≡◌, ◌++◌, OnOk};
ghost use Rattle.std.specs.List.{flat_map};
ghost use Rattle.script.specs.OutputText.{output_text, sent_text, word_of, numbered, waiting_text, fault_number};

use crate::lines::{Word, push_line};
use crate::output::Output;
use crate::sent::Sent;
use queries::PlanFault;
use rows::append_hex;
use std::alloc::AllocError;

/// Adds the lines of an output.
pub fn push_output(text: &mut Vec<u8>, output: &Output) -> Result<(), AllocError>
    ensures { OnOk result (text.new.items ≡ text.old.items ++ output_text output.now) }
{
    match output {
        Output::Tx { number, snapshot } => push_tx(text, *number, *snapshot),
        Output::Value(value) => push_line(text, "value", &[Word::Value(value)]),
        Output::Ticket(number) => push_numbered(text, "ticket", *number),
        Output::Conflict(number) => push_numbered(text, "conflict", *number),
        Output::Durable(count) => push_numbered(text, "durable", *count),
        Output::Based { base, pieces } => push_based(text, *base, *pieces),
        Output::Head(version) => push_numbered(text, "head", *version),
        Output::Opened(count) => push_numbered(text, "opened", *count as u64),
        Output::BadPlan(fault) => push_numbered(text, "bad plan", fault_number(*fault)),
        Output::Sent(list) => push_all_sent(text, list.as_slice()),
        Output::Shown(bytes) => {
            append_hex(text, bytes.as_slice())?;
            text.push(b'\n')?;
            Ok(())
        }
        Output::WaitingPiece { number, pull } => {
            push_numbered(text, "waiting piece", *number)?;
            push_sent(text, pull)
        }
        Output::Waiting { worker, seq, want } => {
            push_waiting(text, *worker, *seq)?;
            push_sent(text, want)
        }
        Output::Report(report) => text.extend_from_slice(report.as_slice()),
        Output::Version(version) => push_numbered(text, "version", *version),
        Output::Dump(dump) => text.extend_from_slice(dump.as_slice()),
        Output::Boot(boot) => push_numbered(text, "boot", *boot),
        other => push_line(text, word_of(other), &[]),
    }
}

/// Adds a line of a word and a number.
fn push_numbered(text: &mut Vec<u8>, word: &str, number: u64) -> Result<(), AllocError>
    ensures { OnOk result (text.new.items ≡ text.old.items ++ numbered word.now number) }
{
    push_line(text, word, &[Word::Number(number)])
}

fn push_tx(text: &mut Vec<u8>, number: u64, snapshot: u64) -> Result<(), AllocError>
    ensures { OnOk result (text.new.items ≡ text.old.items ++ output_text (Output.Tx number snapshot)) }
{
    let words = [
        Word::Number(number),
        Word::Text("at"),
        Word::Number(snapshot),
    ];
    push_line(text, "tx", &words)
}

fn push_based(text: &mut Vec<u8>, base: u64, pieces: u64) -> Result<(), AllocError>
    ensures { OnOk result (text.new.items ≡ text.old.items ++ output_text (Output.Based base pieces)) }
{
    let words = [
        Word::Number(base),
        Word::Text("pieces"),
        Word::Number(pieces),
    ];
    push_line(text, "base", &words)
}

fn push_waiting(text: &mut Vec<u8>, worker: u8, seq: u64) -> Result<(), AllocError>
    ensures { OnOk result (text.new.items ≡ text.old.items ++ waiting_text worker seq) }
{
    let words = [Word::Number(u64::from(worker)), Word::Number(seq)];
    push_line(text, "waiting", &words)
}

/// Adds a line for each datagram that was sent.
fn push_all_sent(text: &mut Vec<u8>, list: &[Sent]) -> Result<(), AllocError>
    ensures { OnOk result (text.new.items ≡ text.old.items ++ flat_map sent_text list.now) }
{
    for sent in list {
        push_sent(text, sent)?;
    }
    Ok(())
}

fn push_sent(text: &mut Vec<u8>, sent: &Sent) -> Result<(), AllocError>
    ensures { OnOk result (text.new.items ≡ text.old.items ++ sent_text sent.now) }
{
    let words = [Word::Number(sent.index), Word::Number(sent.len as u64)];
    push_line(text, "sent", &words)
}

/// The number of a plan's fault.
fn fault_number(fault: PlanFault) -> u64
    ensures { result ≡ fault_number fault }
{
    match fault {
        PlanFault::NoTable => 1,
        PlanFault::NoColumn => 2,
        PlanFault::WrongKind => 3,
        PlanFault::TooMany => 4,
        PlanFault::NoAggregate => 5,
    }
}

/// The words of an output that has nothing else; none for one that has.
fn word_of(output: &Output) -> &'static str
    ensures { result.now ≡ word_of output.now }
{
    match output {
        Output::Accepted => "ok",
        Output::Exists => "exists",
        Output::Missing => "missing",
        Output::Unfit => "unfit",
        Output::TooManyEntries => "too many entries",
        Output::NoTx => "no tx",
        Output::ReadOnly => "read only",
        Output::NumbersUsedUp => "numbers used up",
        Output::Foreign => "foreign",
        Output::Failed => "failed",
        Output::Stopped => "stopped",
        Output::Running => "running",
        Output::NoFrame => "no frame",
        Output::NeverSent => "never sent",
        Output::Stored => "stored",
        Output::Repeat => "repeat",
        Output::Ahead => "ahead",
        Output::Ignored => "ignored",
        Output::BatchFull => "batch full",
        Output::Busy => "busy",
        Output::Empty => "empty",
        Output::NoHead => "no head",
        Output::NoBatch => "no batch",
        Output::WaitingHead => "waiting head",
        Output::Inconsistent => "inconsistent",
        Output::Broken => "broken",
        Output::Memory => "memory",
        Output::BootUsed => "boot used",
        Output::Forged => "forged",
        Output::Tx { .. } => "",
        Output::Value(_) => "",
        Output::Ticket(_) => "",
        Output::Conflict(_) => "",
        Output::Durable(_) => "",
        Output::Based { .. } => "",
        Output::Sent(_) => "",
        Output::Head(_) => "",
        Output::Shown(_) => "",
        Output::Opened(_) => "",
        Output::BadPlan(_) => "",
        Output::WaitingPiece { .. } => "",
        Output::Waiting { .. } => "",
        Output::Report(_) => "",
        Output::Version(_) => "",
        Output::Dump(_) => "",
        Output::Boot(_) => "",
    }
}
