//! Jobs of which all are known before the first is done.

ghost use Rattle.std.specs.Prelude.{◌≡◌, List, [], length, take, All, OnOk};
ghost use Rattle.std.specs.List.{AllZip};
ghost use Rattle.std.specs.Io.KnownBytes.{Appends};
ghost use Rattle.rows.specs.declared.commit.Commit.{Commit};
ghost use Rattle.rows.specs.Shape.{shape_of};
ghost use Rattle.sockets.specs.Answers.{IsJobAnswer};
ghost use Rattle.sockets.specs.Crews.{AreAnswered};
ghost use Rattle.sockets.specs.Work.{jobs_of};
ghost use Rattle.sockets.specs.declared.job_answer.JobAnswer.{JobAnswer};
ghost use Rattle.requests.specs.AnswerLines.{numbered_lines};
ghost use Rattle.nodes.specs.Inner.Crews.{AreFirst};

use crate::answers::{push_answer, tell_all};
use crate::faults::{NodeFault, fault_of_worker};
use crate::host::Host;
use crate::printing::print;
use journal::JournalStore;
use shared::{Line, Origin};
use sockets::{Gate, Job, Worker, are_of_workers, run_crew};
use std::alloc::{AllocError, Global};
use std::io::Write;
use std::sync::Wait;
use std::thread::Threads;

/// Has a crew do all jobs, the jobs of each worker in a thread of its own, and writes what they are answered, in
/// the order of the jobs. Where a worker failed, what was answered before is told, one worker after the other. The
/// gate is notified of each commit.
///
/// Fails with `Journal` if the journal failed, with `Memory` if out of memory or if a job is of no worker of the
/// crew, and with `Output` if the writer failed.
pub fn do_all<
    L: Origin + Send + Sync,
    J: JournalStore + Drop + Send,
    H: Wait + Drop + Send,
    T: Threads + Wait + Sync,
    W: Write,
    G: Gate + Sync,
>(
    host: Host<'_, T>,
    line: &Line<L, J, H>,
    crew: &mut [Worker<L>],
    workers: u8,
    jobs: &[Job],
    gate: &G,
    writer: &mut W,
) -> Result<(), NodeFault>
    requires workers { workers ≡ L.workers }
    requires new { All (λ worker. worker.answers ≡ []) crew.old }
    ensures { OnOk result ((list : List Commit) × (answers : List JobAnswer)
        × AreAnswered L.workers (shape_of L.schema) [] list jobs.now answers
        × Appends (W.contents writer.old) (W.contents writer.new) (numbered_lines 0 answers)) }
{
    let count = crew.len();
    if count == 0 || count > workers as usize || !are_of_workers(jobs, count) {
        return Err(NodeFault::Memory);
    }
    let fault = match run_crew(host.rt, host.alloc, line, crew, jobs, gate) {
        Ok(answers) => return tell_all(host.alloc, &crew[0], jobs, answers.as_slice(), writer),
        Err(fault) => fault,
    };
    tell_some(host.alloc, jobs, crew, writer)?;
    Err(fault_of_worker(fault))
}

/// Writes what was answered before a worker failed, one worker after the other.
fn tell_some<L: Origin, W: Write>(
    alloc: Global,
    jobs: &[Job],
    crew: &[Worker<L>],
    writer: &mut W,
) -> Result<(), NodeFault>
    requires { AreFirst (shape_of L.schema) jobs.now crew.now }
{
    let mut text = Vec::new(alloc);
    for number in 0..crew.len() {
        match push_first(&mut text, &crew[number], number, jobs) {
            Ok(()) => {}
            Err(_) => return Err(NodeFault::Memory),
        }
    }
    print(writer, text.as_slice())
}

/// Pushes the lines of what a worker of that number has answered: its first jobs of these.
fn push_first<L: Origin>(
    text: &mut Vec<u8>,
    worker: &Worker<L>,
    number: usize,
    jobs: &[Job],
) -> Result<(), AllocError>
    requires { AllZip (IsJobAnswer (shape_of L.schema) 0 worker.now.seat.list)
        (take (length worker.now.answers) (jobs_of number jobs.now)) worker.now.answers }
{
    let answers = worker.answers();
    let mut place: usize = 0;
    for index in 0..jobs.len() {
        if place >= answers.len() {
            return Ok(());
        }
        if jobs[index].worker as usize != number {
            continue;
        }
        push_answer(text, worker, index as u64, &jobs[index], answers[place])?;
        place += 1;
    }
    Ok(())
}
