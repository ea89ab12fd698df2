//! A primary that takes jobs while it serves.

ghost use Rattle.std.specs.Prelude.{◌≡◌, ◌<◌, ◌≤◌, ◌↔◌, length, All, IsTrue};

use crate::answers::{tell_answers, tell_unread};
use crate::bases::{Bases, base_line, while_keeping};
use crate::ending::Ending;
use crate::faults::{NodeFault, fault_of_worker};
use crate::host::Host;
use crate::job_primary::{Primary, Work};
use crate::lane::Lane;
use crate::looking::{Look, look_line};
use crate::printing::print;
use crate::saying::{say_end, say_refusals, say_slip};
use crate::server::Server;
use crate::streams::Streams;
use crate::threads::try_threads;
use crate::waiting::{Place, Taken, Waiting, parted};
use figures::Figures;
use journal::JournalStore;
use requests::{Dialect, JobReader, Request, RequestFault, Requested, Skipped};
use rows::Schema;
use script::Setup;
use shared::{Line, Origin, Seat};
use sockets::{Job, OpenGate, Port, Worker};
use std::alloc::{AllocError, Global};
use std::io::{Read, Write};
use std::rt::Clock;
use std::sync::atomic::{AtomicBool, Ordering};
use std::sync::{Mutex, Wait};
use std::thread::{Builder, Threads, for_each_mut, join, scope, scope_env};

/// What the threads of a live primary share: the jobs that wait for each worker, and the streams.
#[derive(Drop)]
struct Live<'a, W, E> {
    lanes: Vec<Lane<Waiting>>,
    ending: Ending,
    /// Whether all threads of the node have ended, but for what is done beside it.
    is_over: AtomicBool,
    figures: &'a Figures,
    bases: &'a Bases,
    output: Mutex<W>,
    errors: Mutex<E>,
    says: bool,
}

/// Takes jobs from the input, has the worker of each do it in a thread of its own, and serves meanwhile; once the input
/// has ended and all jobs are done it serves until its turns are used up. What each job is answered is written as soon as it
/// is known. A line that does not read is told on `errors`; a job with such a line is refused. Beside all that, and until
/// it has ended, this thread does something else.
///
/// Fails with `Threads` if the system makes too few threads; otherwise as the first thread that does: `Journal`,
/// `Memory`, `Output`, `Socket`, `Input` if the input cannot be read, and as what is done beside it does; and with `Slipped` if
/// all went well but for lines that did not read.
pub fn serve_live<
    L: Origin + Send + Sync,
    J: JournalStore + Drop + Send,
    H: Wait + Drop + Send + Sync,
    P: Port + Drop + Send,
    T: Threads + Wait + Clock + Sync,
    R: Read + Send,
    W: Write + Send,
    E: Write + Send,
    F: FnOnce(&AtomicBool) -> Result<(), NodeFault>,
>(
    host: Host<'_, T>,
    line: &Line<L, J, H>,
    primary: &mut Primary<L, P>,
    work: &Work<'_>,
    streams: &mut Streams<R, W, E>,
    beside: F,
) -> Result<(), NodeFault>
    requires workers { work.now.setup.now.workers ≡ L.workers }
    requires beside { F.IsAlwaysCallable beside }
{
    let Streams {
        reader,
        writer,
        errors,
    } = streams;
    let workers = primary.crew.len();
    let Ok(lanes) = lanes_of(host.alloc, workers) else {
        return Err(NodeFault::Memory);
    };
    let live = Live {
        lanes,
        ending: Ending::of(workers as u64),
        is_over: AtomicBool::new(false),
        figures: work.figures,
        bases: work.bases,
        output: Mutex::new(writer),
        errors: Mutex::new(errors),
        says: work.pace.says,
    };
    if try_threads(host, workers.saturating_add(3)).is_err() {
        return Err(NodeFault::Threads);
    }
    run_beside(host, line, primary, work.setup, reader, &live, beside);
    live.ending.into_result()
}

/// Runs the threads of the node, and does something else meanwhile, in the thread that calls: it need not be such as may be sent
/// to a thread. If the system makes no thread, nothing is done.
fn run_beside<
    'a,
    L: Origin + Send + Sync,
    J: JournalStore + Drop + Send,
    H: Wait + Drop + Send + Sync,
    P: Port + Drop + Send,
    T: Threads + Wait + Clock + Sync,
    R: Read + Send,
    W: Write + Send,
    E: Write + Send,
    F: FnOnce(&AtomicBool) -> Result<(), NodeFault>,
>(
    host: Host<'a, T>,
    line: &'a Line<L, J, H>,
    primary: &'a mut Primary<L, P>,
    setup: &'a Setup,
    reader: &'a mut R,
    live: &'a Live<'a, W, E>,
    beside: F,
)
    requires workers { setup.now.workers ≡ L.workers }
    requires beside { F.IsAlwaysCallable beside }
{
    let primary = &mut *primary;
    let reader = &mut *reader;
    scope(
        scope_env(),
        host.rt,
        move |scope|
            requires workers { setup.now.workers ≡ L.workers }
            requires beside { F.IsAlwaysCallable beside }
        {
            let others = Builder::new().spawn_scoped(
                scope,
                move ||
                    requires { setup.now.workers ≡ L.workers }
                {
                    run_threads(host, line, primary, setup, reader, live);
                    live.is_over.store(true, Ordering::SeqCst);
                },
            );
            match others {
                Ok(_) => do_beside(host, live, beside),
                Err(_) => live.ending.note(host.rt, NodeFault::Threads),
            }
        },
    );
}

/// Does something beside the threads of the node, which end if it fails.
fn do_beside<T: Wait, W, E, F: FnOnce(&AtomicBool) -> Result<(), NodeFault>>(
    host: Host<'_, T>,
    live: &Live<'_, W, E>,
    beside: F,
)
    requires { F.IsAlwaysCallable beside }
{
    if let Err(fault) = beside(&live.is_over) {
        live.stop(host, fault);
    }
}

/// Serves, does the jobs of each worker, takes what comes from the input, and takes bases, each in a thread of its own, until
/// all have ended.
fn run_threads<
    L: Origin + Send + Sync,
    J: JournalStore + Drop + Send,
    H: Wait + Drop + Send + Sync,
    P: Port + Drop + Send,
    T: Threads + Wait + Clock + Sync,
    R: Read + Send,
    W: Write + Send,
    E: Write + Send,
>(
    host: Host<'_, T>,
    line: &Line<L, J, H>,
    primary: &mut Primary<L, P>,
    setup: &Setup,
    reader: &mut R,
    live: &Live<'_, W, E>,
)
    requires { setup.now.workers ≡ L.workers }
{
    let Primary {
        server,
        crew,
        looking,
        keeping,
    } = primary;
    let crew = crew.as_mut_slice();
    if crew.len() > setup.workers as usize {
        live.ending.note(host.rt, NodeFault::Memory);
        return;
    }
    while_keeping(
        host,
        line,
        keeping,
        live.says,
        live.bases,
        &live.errors,
        ||
            requires { length crew.now ≤ L.workers }
        {
            // Two of the clauses ask for nothing; with one, the proof has at hand what may be sent to a thread.
            join(
                host.rt,
                ||
                    requires { Unit {0} }
                { serve(host, line, server, live) },
                ||
                    requires { length crew.now ≤ L.workers }
                {
                    join(
                        host.rt,
                        ||
                            requires { length crew.now ≤ L.workers }
                        { work(host, line, crew, live) },
                        ||
                            requires { Unit {0} }
                        { read_on(host, line, looking, setup, reader, live) },
                    );
                },
            );
        },
    );
}

/// Has each worker do its jobs in a thread of its own, until no more come.
fn work<
    L: Origin + Send + Sync,
    J: JournalStore + Drop + Send,
    H: Wait + Drop + Send + Sync,
    T: Threads + Wait + Sync,
    W: Write + Send,
    E: Write + Send,
>(host: Host<'_, T>, line: &Line<L, J, H>, crew: &mut [Worker<L>], live: &Live<'_, W, E>)
    requires { length crew.old ≤ L.workers }
{
    let threads = crew.len().max(1);
    for_each_mut(
        host.rt,
        crew,
        threads,
        &|number: usize, worker: &mut Worker<L>|
            requires { number < L.workers }
        { work_off(host, line, worker, number, live) },
    );
}

/// A lane for each worker.
fn lanes_of(alloc: Global, workers: usize) -> Result<Vec<Lane<Waiting>>, AllocError> {
    let mut lanes = Vec::new(alloc);
    for _ in 0..workers {
        lanes.push(Lane::new(alloc))?;
    }
    Ok(lanes)
}

impl<W, E> Live<'_, W, E> {
    /// Has all threads end at once, for this reason if there was none before.
    fn stop<T: Wait>(&self, host: Host<'_, T>, fault: NodeFault) {
        self.ending.stop(host.rt, fault);
        self.end_all(host);
    }

    /// Says to all workers that no more jobs come.
    fn end_all<T: Wait>(&self, host: Host<'_, T>) {
        for lane in &self.lanes {
            lane.end(host.rt);
        }
    }
}

/// Serves the replicas.
fn serve<
    L: Origin,
    J: JournalStore,
    H: Wait + Drop,
    P: Port + Drop,
    T: Wait + Clock,
    W: Write,
    E: Write,
>(host: Host<'_, T>, line: &Line<L, J, H>, server: &mut Server<L, P>, live: &Live<'_, W, E>) {
    if let Err(fault) = server.serve_on(
        host,
        line,
        live.bases,
        &live.ending,
        live.figures,
        &live.errors,
    ) {
        live.stop(host, fault);
    }
}

/// Does the jobs of a worker, until no more come.
fn work_off<L: Origin, J: JournalStore + Drop, H: Wait + Drop, T: Wait, W: Write, E: Write>(
    host: Host<'_, T>,
    line: &Line<L, J, H>,
    worker: &mut Worker<L>,
    number: usize,
    live: &Live<'_, W, E>,
)
    requires { number < L.workers }
{
    if let Err(fault) = do_jobs(host, line, worker, number, live) {
        live.stop(host, fault);
    }
    live.ending.finish();
}

/// Does the jobs that wait for a worker, all of them, and then those that came meanwhile.
fn do_jobs<L: Origin, J: JournalStore + Drop, H: Wait + Drop, T: Wait, W: Write, E: Write>(
    host: Host<'_, T>,
    line: &Line<L, J, H>,
    worker: &mut Worker<L>,
    number: usize,
    live: &Live<'_, W, E>,
) -> Result<(), NodeFault>
    requires { number < L.workers }
{
    let Some(lane) = live.lanes.get(number) else {
        return Ok(());
    };
    for _ in host.rt.forever() {
        let taken = match lane.take(host.rt, host.alloc) {
            Ok(waiting) => parted(host.alloc, waiting),
            Err(error) => Err(error),
        };
        let Ok(taken) = taken else {
            return Err(NodeFault::Memory);
        };
        if taken.jobs.is_empty() || live.ending.is_stopped() {
            return Ok(());
        }
        do_taken(host, line, worker, number, &taken, live)?;
    }
    unreachable!()
}

/// Does jobs that a worker has taken, as many at once as may share a flush, and writes what these are answered before
/// it goes on.
fn do_taken<L: Origin, J: JournalStore + Drop, H: Wait + Drop, T: Wait, W: Write, E: Write>(
    host: Host<'_, T>,
    line: &Line<L, J, H>,
    worker: &mut Worker<L>,
    number: usize,
    taken: &Taken,
    live: &Live<'_, W, E>,
) -> Result<(), NodeFault>
    requires { number < L.workers }
{
    let mut jobs = taken.jobs.as_slice();
    let mut places = taken.places.as_slice();
    for _ in 0..taken.jobs.len() {
        if jobs.is_empty() || live.ending.is_stopped() {
            return Ok(());
        }
        let count = together(jobs).min(jobs.len()).min(places.len());
        let (first, others) = jobs.split_at(count);
        let (first_places, other_places) = places.split_at(count);
        do_together(host, line, worker, number, first, first_places, live)?;
        jobs = others;
        places = other_places;
    }
    Ok(())
}

/// How many of these jobs may be done at once: the first, and those behind it without a condition. One with a condition
/// begins only after those before it are settled, so their answers need not wait for it.
fn together(jobs: &[Job]) -> usize {
    let (_, others) = jobs.split_at(1.min(jobs.len()));
    match others.iter().position(Job::has_condition) {
        Some(place) => place.saturating_add(1),
        None => jobs.len(),
    }
}

/// Does jobs of a worker, and writes what they are answered; also where the worker failed, what was answered before is
/// told.
fn do_together<L: Origin, J: JournalStore + Drop, H: Wait + Drop, T: Wait, W: Write, E: Write>(
    host: Host<'_, T>,
    line: &Line<L, J, H>,
    worker: &mut Worker<L>,
    number: usize,
    jobs: &[Job],
    places: &[Place],
    live: &Live<'_, W, E>,
) -> Result<(), NodeFault>
    requires { number < L.workers }
{
    // The jobs of a lane are those of its worker; a look makes that known to the proof.
    if !are_all_of(jobs, number) || places.len() != jobs.len() {
        return Err(NodeFault::Memory);
    }
    worker.works(host.rt, host.alloc, line, number, jobs, &OpenGate);
    live.figures.note_jobs(worker.answers());
    {
        let mut output = live.output.lock(host.rt);
        tell_answers(host.alloc, worker, jobs, places, &mut *output)?;
    }
    if live.says {
        let mut errors = live.errors.lock(host.rt);
        say_refusals(&mut *errors, worker.answers(), places);
    }
    match worker.fault() {
        None => Ok(()),
        Some(fault) => Err(fault_of_worker(fault)),
    }
}

/// Whether all of these jobs are of the worker of that number.
fn are_all_of(jobs: &[Job], number: usize) -> bool
    ensures { IsTrue result ↔ All (λ job. job.worker ≡ number) jobs.now }
{
    jobs.iter().all(|job| job.worker as usize == number)
}

/// Takes what comes from the input, until it ends or all threads are to. Then the workers do what came, and end.
fn read_on<
    L: Origin,
    J: JournalStore,
    H: Wait + Drop,
    T: Wait + Clock,
    R: Read,
    W: Write,
    E: Write,
>(
    host: Host<'_, T>,
    line: &Line<L, J, H>,
    looking: &mut Seat<L>,
    setup: &Setup,
    reader: &mut R,
    live: &Live<'_, W, E>,
) {
    match take_requests(host, line, looking, setup, reader, live) {
        Ok(()) => {}
        // What cannot be answered is not begun.
        Err(fault @ NodeFault::Output(_)) => live.ending.stop(host.rt, fault),
        Err(fault) => live.ending.note(host.rt, fault),
    }
    live.end_all(host);
}

/// Hands each job of the input to its worker, answers each look, and takes each base.
fn take_requests<
    L: Origin,
    J: JournalStore,
    H: Wait + Drop,
    T: Wait + Clock,
    R: Read,
    W: Write,
    E: Write,
>(
    host: Host<'_, T>,
    line: &Line<L, J, H>,
    looking: &mut Seat<L>,
    setup: &Setup,
    reader: &mut R,
    live: &Live<'_, W, E>,
) -> Result<(), NodeFault> {
    let mut requests = JobReader::new(host.alloc, Dialect::Live);
    let mut number: u64 = 0;
    for _ in host.rt.forever() {
        if live.ending.is_stopped() {
            return Ok(());
        }
        match requests.next(setup, reader) {
            Ok(
                Requested::Request(
                    Request::Job {
                        job,
                        line,
                        step_lines,
                    },
                ),
            ) => {
                let place = Place {
                    number,
                    line,
                    step_lines,
                };
                number = number.saturating_add(1);
                hand_on(host, Waiting { job, place }, live)?;
            }
            Ok(
                Requested::Request(
                    Request::Get {
                        table,
                        row,
                        column,
                        ..
                    },
                ),
            ) => {
                let look = Look { table, row, column };
                tell_look(host, looking, &look, &setup.schema, live)?;
            }
            Ok(Requested::Request(Request::Base { .. })) => {
                tell_base(host, line, looking, live)?;
            }
            Ok(Requested::NotYet) => {}
            Ok(Requested::End) => {
                if live.says {
                    say_end(host, &live.errors);
                }
                return Ok(());
            }
            Err(fault) => {
                if pass_over(host, fault, number, live)? {
                    number = number.saturating_add(1);
                }
            }
        }
    }
    unreachable!()
}

/// Hands a job to its worker.
fn hand_on<T: Wait, W, E>(
    host: Host<'_, T>,
    waiting: Waiting,
    live: &Live<'_, W, E>,
) -> Result<(), NodeFault> {
    // The worker is one of the setup's, since the line of the job reads.
    let Some(lane) = live.lanes.get(waiting.job.worker as usize) else {
        return Err(NodeFault::Memory);
    };
    match lane.put(host.rt, waiting) {
        Ok(()) => Ok(()),
        Err(_) => Err(NodeFault::Memory),
    }
}

/// Writes the line of a look at what is durable.
fn tell_look<L: Origin, T: Wait, W: Write, E>(
    host: Host<'_, T>,
    looking: &mut Seat<L>,
    look: &Look,
    schema: &Schema,
    live: &Live<'_, W, E>,
) -> Result<(), NodeFault> {
    let Ok(line) = look_line(host.alloc, looking, schema, look) else {
        return Err(NodeFault::Memory);
    };
    let mut output = live.output.lock(host.rt);
    print(&mut *output, line.as_slice())
}

/// Takes a base, and writes its line.
fn tell_base<L: Origin, J: JournalStore, H: Wait + Drop, T: Wait + Clock, W: Write, E: Write>(
    host: Host<'_, T>,
    line: &Line<L, J, H>,
    looking: &mut Seat<L>,
    live: &Live<'_, W, E>,
) -> Result<(), NodeFault> {
    let taken = live
        .bases
        .take(host, line, looking, live.says, &live.errors);
    let Ok(line) = base_line(host.alloc, &taken) else {
        return Err(NodeFault::Memory);
    };
    let mut output = live.output.lock(host.rt);
    print(&mut *output, line.as_bytes())
}

/// Tells of a line that does not read, and answers the job that it is in, which has this number. Whether it is in one.
/// Fails if the reader cannot go on behind it.
fn pass_over<T: Wait, W: Write, E: Write>(
    host: Host<'_, T>,
    fault: RequestFault,
    number: u64,
    live: &Live<'_, W, E>,
) -> Result<bool, NodeFault> {
    let RequestFault::Line { skipped, .. } = &fault else {
        return Err(NodeFault::Input(fault));
    };
    live.ending.slip();
    say_slip(host, &fault, &live.errors);
    if !matches!(skipped, Skipped::Job) {
        return Ok(false);
    }
    live.figures.note_unread();
    let mut output = live.output.lock(host.rt);
    tell_unread(host.alloc, number, &mut *output)?;
    Ok(true)
}
