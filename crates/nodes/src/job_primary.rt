//! A primary that does jobs, and serves its replicas.

ghost use Rattle.std.specs.Prelude.{◌≡◌, [], All, IfOk};

use crate::bases::{Bases, while_keeping};
use crate::crew_jobs::do_all;
use crate::ending::Ending;
use crate::faults::NodeFault;
use crate::host::Host;
use crate::job_progress::JobProgress;
use crate::live::serve_live;
use crate::pace::Pace;
use crate::progress::Progress;
use crate::server::Server;
use crate::streams::Streams;
use figures::Figures;
use journal::JournalStore;
use requests::{Dialect, JobReader, Request, RequestFault, Requested};
use rows::limits::WORKERS_MAX;
use script::Setup;
use shared::{Line, Origin, Seat};
use sockets::{Job, Port, PrimaryNode, Worker};
use std::alloc::{AllocError, Global};
use std::io::{Read, Write};
use std::rt::Clock;
use std::sync::atomic::AtomicBool;
use std::sync::{Mutex, Wait};
use std::thread::Threads;

/// For how many jobs that are read the clock is looked at once.
const JOBS_A_LOOK: usize = 1024;

/// A primary's threads: each has a seat of its line.
#[derive(Drop)]
pub struct Primary<L: Origin, P: Port + Drop> {
    /// It serves the replicas.
    pub server: Server<L, P>,
    /// They do the jobs; each has the number of its place.
    pub crew: Vec<Worker<L>>,
    /// At which it looks at what is durable.
    pub looking: Seat<L>,
    /// At which bases are taken. One thread alone takes them; the lock is what lets it have the seat.
    pub keeping: Mutex<Seat<L>>,
}

/// What a primary is to do.
#[derive(Drop)]
pub struct Work<'a> {
    pub setup: &'a Setup,
    /// The jobs of the input; `None`: they are taken while it serves.
    pub jobs: Option<Vec<Job>>,
    pub pace: Pace,
    /// What its threads count.
    pub figures: &'a Figures,
    pub bases: &'a Bases,
}

impl<L: Origin, P: Port + Drop> Primary<L, P> {
    /// A primary of so many workers at new seats of a line. It pushes what becomes durable from then on. Fails with `Memory` if
    /// out of memory, if the line has too few seats, or if there are more workers than there may be.
    pub fn at<J: JournalStore, H: Wait + Drop, T: Wait>(
        host: Host<'_, T>,
        line: &Line<L, J, H>,
        port: P,
        workers: u8,
        pace: Pace,
    ) -> Result<Primary<L, P>, NodeFault>
        ensures { IfOk result (λ primary. All (λ worker. worker.answers ≡ []) primary.crew.items) }
    {
        if workers > WORKERS_MAX {
            return Err(NodeFault::Memory);
        }
        let Some(seat) = line.seat(host.rt) else {
            return Err(NodeFault::Memory);
        };
        let Ok(mut node) = PrimaryNode::new(host.alloc, seat, port, workers) else {
            return Err(NodeFault::Memory);
        };
        if node.pass_durable(host.rt, line).is_err() {
            return Err(NodeFault::Memory);
        }
        let (Some(looking), Some(keeping)) = (line.seat(host.rt), line.seat(host.rt)) else {
            return Err(NodeFault::Memory);
        };
        Ok(Primary {
            server: Server::new(node, pace),
            crew: crew_of(host, line, workers)?,
            looking,
            keeping: Mutex::new(keeping),
        })
    }

    /// Does its work: jobs of before first, and then it serves; or jobs as they come, while it serves. A thread beside it takes
    /// bases while it serves. In the second case alone
    /// `beside` is called too, in the thread that calls this. It is to end once the flag that it is given is set: all other
    /// threads of the node have ended then. Its fault ends the node.
    pub fn run<
        J: JournalStore + Drop + Send,
        H: Wait + Drop + Send + Sync,
        T: Threads + Wait + Clock + Sync,
        R: Read + Send,
        W: Write + Send,
        E: Write + Send,
        F: FnOnce(&AtomicBool) -> Result<(), NodeFault>,
    >(
        &mut self,
        host: Host<'_, T>,
        line: &Line<L, J, H>,
        work: &Work<'_>,
        streams: &mut Streams<R, W, E>,
        beside: F,
    ) -> Result<(), NodeFault>
    where
        L: Send + Sync,
        P: Send,
        requires workers { work.now.setup.now.workers ≡ L.workers }
        requires new { All (λ worker. worker.answers ≡ []) self.old.crew.items }
        requires beside { F.IsAlwaysCallable beside }
    {
        let Some(jobs) = &work.jobs else {
            return serve_live(host, line, self, work, streams, beside);
        };
        let Streams { writer, errors, .. } = streams;
        self.do_jobs(host, line, work, jobs, writer, errors)?;
        let errors = Mutex::new(errors);
        let errors = &errors;
        let Primary {
            server,
            keeping,
            ..
        } = self;
        let Work {
            bases,
            figures,
            pace,
            ..
        } = work;
        let ending = Ending::of(0);
        while_keeping(
            host,
            line,
            keeping,
            pace.says,
            bases,
            errors,
            ||
                requires { Unit {0} }
            {
                if let Err(fault) = server.serve(host, line, bases, figures, errors) {
                    ending.note(host.rt, fault);
                }
            },
        );
        ending.into_result()
    }

    /// Does jobs of before, and says meanwhile how many are done, if it is to.
    fn do_jobs<
        J: JournalStore + Drop + Send,
        H: Wait + Drop + Send,
        T: Threads + Wait + Clock + Sync,
        W: Write,
        E: Write + Send,
    >(
        &mut self,
        host: Host<'_, T>,
        line: &Line<L, J, H>,
        work: &Work<'_>,
        jobs: &[Job],
        writer: &mut W,
        errors: &mut E,
    ) -> Result<(), NodeFault>
    where
        L: Send + Sync,
        requires workers { work.now.setup.now.workers ≡ L.workers }
        requires new { All (λ worker. worker.answers ≡ []) self.old.crew.items }
    {
        let progress = JobProgress::begin(host, work.pace.shows, jobs.len(), errors);
        let workers = work.setup.workers;
        do_all(host, line, &mut self.crew, workers, jobs, &progress, writer)
    }

    /// All its seats, to end the line with. Fails only if out of memory; the seats are then gone.
    pub fn into_seats(self, alloc: Global) -> Result<Vec<Seat<L>>, AllocError> {
        let Primary {
            server,
            crew,
            looking,
            keeping,
        } = self;
        let mut seats = Vec::with_capacity(alloc, crew.len().saturating_add(3))?;
        seats.push(server.into_seat())?;
        seats.push(looking)?;
        seats.push(keeping.into_inner())?;
        for worker in crew {
            seats.push(worker.into_seat())?;
        }
        Ok(seats)
    }
}

/// All jobs of the input, in their order. If it is to, it says once a second how many were read. Fails with `Input` at the
/// first line that does not read, and where the input could not be read; with `Memory` if out of memory.
pub fn read_jobs<T: Clock, R: Read, E: Write>(
    host: Host<'_, T>,
    setup: &Setup,
    shows: bool,
    reader: &mut R,
    errors: &mut E,
) -> Result<Vec<Job>, NodeFault> {
    let mut requests = JobReader::new(host.alloc, Dialect::Jobs);
    let mut jobs = Vec::new(host.alloc);
    let mut progress = Progress::begin(host, shows);
    for _ in 0..u64::MAX {
        match requests.next(setup, reader) {
            Ok(
                Requested::Request(
                    Request::Job {
                        job,
                        step_lines: _lines,
                        ..
                    },
                ),
            ) => {
                if jobs.push(job).is_err() {
                    return Err(NodeFault::Memory);
                }
                say_read(&mut progress, jobs.len(), errors);
            }
            // There are no looks and no bases among jobs that are read before.
            Ok(Requested::Request(Request::Get { .. } | Request::Base { .. })) => {}
            Ok(Requested::NotYet) => {}
            Ok(Requested::End) => return Ok(jobs),
            Err(RequestFault::Memory) => return Err(NodeFault::Memory),
            Err(fault) => return Err(NodeFault::Input(fault)),
        }
    }
    Ok(jobs)
}

/// Says how many jobs were read, once a second. It looks at the clock only once for many jobs.
fn say_read<T: Clock, E: Write>(progress: &mut Progress<'_, T>, count: usize, errors: &mut E) {
    if count % JOBS_A_LOOK == 0 && progress.is_due() {
        let rate = progress.rate(count as u64);
        let _ = writeln!(errors, "read {count} jobs, {rate} a second");
    }
}

/// This many workers, each at a seat that was not given out before. Fails as `Primary::at` does.
fn crew_of<L: Origin, J: JournalStore, H: Wait + Drop, T: Wait>(
    host: Host<'_, T>,
    line: &Line<L, J, H>,
    workers: u8,
) -> Result<Vec<Worker<L>>, NodeFault>
    ensures { IfOk result (λ crew. All (λ worker. worker.answers ≡ []) crew.items) }
{
    let mut crew = Vec::new(host.alloc);
    for _ in 0..workers {
        let Some(seat) = line.seat(host.rt) else {
            return Err(NodeFault::Memory);
        };
        match crew.push(Worker::new(host.alloc, seat)) {
            Ok(()) => {}
            Err(_) => return Err(NodeFault::Memory),
        }
    }
    Ok(crew)
}
