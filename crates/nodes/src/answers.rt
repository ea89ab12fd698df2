//! The lines that answer jobs.

ghost use Rattle.std.specs.Prelude.{◌≡◌, ◌++◌, ◌≤◌, length, take, map, IfOk, OnOk};
ghost use Rattle.std.specs.Io.KnownBytes.{Appends};
ghost use Rattle.std.specs.List.{AllZip};
ghost use Rattle.rows.specs.Shape.{shape_of};
ghost use Rattle.sockets.specs.Answers.{IsJobAnswer};
ghost use Rattle.requests.specs.AnswerLines.{answer_line, numbered_lines, refused_line};
ghost use Rattle.nodes.specs.Lines.{answer_lines, number_of};

use crate::faults::NodeFault;
use crate::printing::print;
use crate::waiting::Place;
use requests::push_answer_line;
use shared::Origin;
use sockets::{Job, JobAnswer, Refusal, Worker};
use std::alloc::{AllocError, Global};
use std::io::Write;

/// Pushes the line of what the job of this number is answered. The answer is one of that job, by the list of
/// commits that the worker's seat has seen. No other function makes the line of a ticket or of a conflict: so a ticket
/// that is read belongs to a commit that is durable under its number, with the job's worker and the entries that its
/// steps make.
pub fn push_answer<L: Origin>(
    text: &mut Vec<u8>,
    worker: &Worker<L>,
    number: u64,
    job: &Job,
    answer: JobAnswer,
) -> Result<(), AllocError>
    requires { IsJobAnswer (shape_of L.schema) 0 worker.now.seat.list job.now answer }
    ensures { OnOk result (text.new.items ≡ text.old.items ++ answer_line number answer) }
{
    push_answer_line(text, number, answer)
}

/// Writes the lines of what the first of these jobs are answered, in their order: as many as the worker has
/// answered. Each place has the number of the job beside it.
///
/// Fails with `Output` if the writer fails, and then a beginning of the lines may be written; with `Memory` if
/// out of memory, and then nothing is.
pub fn tell_answers<L: Origin, W: Write>(
    alloc: Global,
    worker: &Worker<L>,
    jobs: &[Job],
    places: &[Place],
    writer: &mut W,
) -> Result<(), NodeFault>
    requires each { length places.now ≡ length jobs.now }
    requires few { length worker.now.answers ≤ length jobs.now }
    requires answered { AllZip (IsJobAnswer (shape_of L.schema) 0 worker.now.seat.list)
        (take (length worker.now.answers) jobs.now) worker.now.answers }
    ensures { OnOk result (Appends (W.contents writer.old) (W.contents writer.new)
        (answer_lines (map number_of places.now) worker.now.answers)) }
{
    let mut text = Vec::new(alloc);
    let answers = worker.answers();
    for index in 0..answers.len() {
        let number = places[index].number;
        match push_answer(&mut text, worker, number, &jobs[index], answers[index]) {
            Ok(()) => {}
            Err(_) => return Err(NodeFault::Memory),
        }
    }
    print(writer, text.as_slice())
}

/// Writes the lines of what all these jobs are answered, in their order; their numbers count from 0. The worker's seat
/// has seen what all of them rest on.
///
/// Fails as `tell_answers` does.
pub fn tell_all<L: Origin, W: Write>(
    alloc: Global,
    worker: &Worker<L>,
    jobs: &[Job],
    answers: &[JobAnswer],
    writer: &mut W,
) -> Result<(), NodeFault>
    requires { AllZip (IsJobAnswer (shape_of L.schema) 0 worker.now.seat.list) jobs.now answers.now }
    ensures { OnOk result (Appends (W.contents writer.old) (W.contents writer.new) (numbered_lines 0 answers.now)) }
{
    let mut text = Vec::new(alloc);
    for index in 0..answers.len() {
        match push_answer(
            &mut text,
            worker,
            index as u64,
            &jobs[index],
            answers[index],
        ) {
            Ok(()) => {}
            Err(_) => return Err(NodeFault::Memory),
        }
    }
    print(writer, text.as_slice())
}

/// Writes the line of the job of this number, which did not read.
pub fn tell_unread<W: Write>(alloc: Global, number: u64, writer: &mut W) -> Result<(), NodeFault>
    ensures { OnOk result (Appends (W.contents writer.old) (W.contents writer.new) (refused_line number)) }
{
    match unread_line(alloc, number) {
        Ok(line) => print(writer, line.as_slice()),
        Err(_) => Err(NodeFault::Memory),
    }
}

/// The line of a job that did not read: it is refused.
fn unread_line(alloc: Global, number: u64) -> Result<Vec<u8>, AllocError>
    ensures { IfOk result (λ line. line.items ≡ refused_line number) }
{
    let mut line = Vec::new(alloc);
    push_answer_line(&mut line, number, JobAnswer::Refused(Refusal::Unread))?;
    Ok(line)
}
