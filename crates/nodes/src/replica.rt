//! A replica that answers the batches of its input.

use crate::batches::{Batches, ROOM};
use crate::clients::Clients;
use crate::ending::Ending;
use crate::faults::NodeFault;
use crate::follower::Follower;
use crate::host::Host;
use crate::saying::{say_end, say_slip};
use crate::streams::Streams;
use requests::{BatchReader, Batched, Query, RequestFault};
use script::Setup;
use sockets::{Drain, Port};
use std::alloc::{AllocError, Global};
use std::io::{Read, Write};
use std::rt::Clock;
use std::sync::atomic::{AtomicBool, Ordering};
use std::sync::{Mutex, Wait};
use std::thread::{Builder, Threads, scope, scope_env};
use std::time::Duration;
use store::ApplyStore;

/// How long it is from one look of a drain to the next, in milliseconds.
const DRAIN_MILLIS: u64 = 2;

/// All batches of the input, in their order. Fails with `Input` at the first line that does not read, and where the input
/// could not be read; with `Memory` if out of memory.
pub fn read_batches<R: Read>(
    alloc: Global,
    setup: &Setup,
    reader: &mut R,
) -> Result<Vec<Vec<Query>>, NodeFault> {
    let mut input = BatchReader::new(alloc);
    let mut batches = Vec::new(alloc);
    for _ in 0..u64::MAX {
        match input.next(setup, reader) {
            Ok(Batched::Batch(queries)) => {
                if batches.push(queries).is_err() {
                    return Err(NodeFault::Memory);
                }
            }
            Ok(Batched::NotYet) => {}
            Ok(Batched::End) => return Ok(batches),
            Err(RequestFault::Memory) => return Err(NodeFault::Memory),
            Err(fault) => return Err(NodeFault::Input(fault)),
        }
    }
    Ok(batches)
}

impl<S: ApplyStore + Sync, P: Port + Drop> Follower<S, P> {
    /// Answers these batches, or, live, those of the input, and then ends. A thread beside it has the drain of its port
    /// look every 2 ms; if there is none, or the system makes no thread for it, what its socket cannot hold while the node is
    /// at work is lost, and is asked for again.
    ///
    /// Live, it answers clients too, and goes on for them, also where the input has ended, until its turns are used up.
    ///
    /// Fails as `Follower::follow` does, and live also with `Threads`, `Input` and `Slipped`.
    pub fn serve<T: Threads + Wait + Clock + Sync, R: Read + Send, W: Write, E: Write + Send>(
        &mut self,
        host: Host<'_, T>,
        setup: &Setup,
        drain: Option<Drain>,
        batches: Option<Vec<Vec<Query>>>,
        streams: &mut Streams<R, W, E>,
        clients: Option<Clients<'_>>,
    ) -> Result<(), NodeFault> {
        let served = match drain {
            // (a clause that asks for nothing, with which the proof has at hand what may be sent to a thread)
            Some(drain) => while_draining(
                host,
                drain,
                ||
                    requires { Unit {0} }
                { self.answer_either(host, setup, batches, streams, clients) },
            ),
            None => self.answer_either(host, setup, batches, streams, clients),
        };
        if let Some(Clients { gathering, .. }) = clients {
            gathering.end(host.rt, matches!(served, Err(NodeFault::Broken)));
        }
        served
    }

    /// Answers these batches, or, live, those of the input and of clients.
    fn answer_either<T: Threads + Wait + Clock + Sync, R: Read + Send, W: Write, E: Write + Send>(
        &mut self,
        host: Host<'_, T>,
        setup: &Setup,
        batches: Option<Vec<Vec<Query>>>,
        streams: &mut Streams<R, W, E>,
        clients: Option<Clients<'_>>,
    ) -> Result<(), NodeFault> {
        match batches {
            Some(batches) => self.answer(host, batches, streams),
            None => self.answer_live(host, setup, streams, clients),
        }
    }

    /// Answers these batches, and then ends. Fails as `Follower::follow` does.
    fn answer<T: Threads + Wait + Clock + Sync, R, W: Write, E: Write>(
        &mut self,
        host: Host<'_, T>,
        all: Vec<Vec<Query>>,
        streams: &mut Streams<R, W, E>,
    ) -> Result<(), NodeFault> {
        let Ok(batches) = put_all(host, all) else {
            return Err(NodeFault::Memory);
        };
        let ending = Ending::of(0);
        let Streams { writer, errors, .. } = streams;
        match self.follow(host, &batches, None, &ending, writer, &Mutex::new(errors)) {
            Ok(()) => ending.into_result(),
            Err(fault) => Err(fault),
        }
    }

    /// Takes batches from the input in a thread of its own, and answers them meanwhile, until the input ends and each is
    /// answered. A line that does not read is told on `errors`, and its batch is not answered.
    ///
    /// Fails with `Threads` if the system makes too few threads, and otherwise as `Follower::follow` does; with `Input` if
    /// the input cannot be read, and with `Slipped` if all went well but for lines that did not read.
    fn answer_live<T: Threads + Wait + Clock + Sync, R: Read + Send, W: Write, E: Write + Send>(
        &mut self,
        host: Host<'_, T>,
        setup: &Setup,
        streams: &mut Streams<R, W, E>,
        clients: Option<Clients<'_>>,
    ) -> Result<(), NodeFault> {
        let Ok(batches) = Batches::new(host.alloc, ROOM) else {
            return Err(NodeFault::Memory);
        };
        let Streams {
            reader,
            writer,
            errors,
        } = streams;
        let live = LiveReplica::new(batches, reader, errors, self.says(), clients);
        self.answer_while_reading(host, setup, writer, &live);
        live.ending.into_result()
    }

    /// Answers what comes, while another thread takes it from the input.
    fn answer_while_reading<
        'a,
        T: Threads + Wait + Clock + Sync,
        R: Read + Send,
        W: Write,
        E: Write + Send,
    >(
        &'a mut self,
        host: Host<'a, T>,
        setup: &'a Setup,
        writer: &'a mut W,
        live: &'a LiveReplica<'a, R, E>,
    ) {
        let follower = &mut *self;
        let writer = &mut *writer;
        // (the same clause)
        while_reading(
            host,
            setup,
            live,
            move ||
                requires { Unit {0} }
            { follower.answer_all(host, writer, live) },
        );
    }

    /// Answers what comes, until no more does.
    fn answer_all<T: Threads + Wait + Clock + Sync, R, W: Write, E: Write>(
        &mut self,
        host: Host<'_, T>,
        writer: &mut W,
        live: &LiveReplica<'_, R, E>,
    ) {
        let batches = &live.batches;
        let followed = self.follow(
            host,
            batches,
            live.clients,
            &live.ending,
            writer,
            &live.errors,
        );
        if let Err(fault) = followed {
            live.ending.stop(host.rt, fault);
        }
        live.batches.end(host.rt);
    }
}

/// Batches that wait, all of which are there. Fails only if out of memory.
fn put_all<T: Wait>(host: Host<'_, T>, all: Vec<Vec<Query>>) -> Result<Batches, AllocError> {
    let mut room: usize = 0;
    for batch in &all {
        room = room.saturating_add(batch.len());
    }
    let batches = Batches::new(host.alloc, room)?;
    for batch in all {
        batches.put(host, batch)?;
    }
    batches.end(host.rt);
    Ok(batches)
}

/// Does work while another thread has a drain look, if the system makes one.
fn while_draining<T: Threads + Wait + Clock + Sync, A, F: FnOnce() -> A>(
    host: Host<'_, T>,
    drain: Drain,
    work: F,
) -> A
    requires { F.pre work }
{
    let is_over = AtomicBool::new(false);
    let over = &is_over;
    scope(
        scope_env(),
        host.rt,
        move |scope| -> A
            requires { F.pre work }
        {
            let _ = Builder::new().spawn_scoped(scope, move || drain_until(host, drain, over));
            let done = work();
            over.store(true, Ordering::SeqCst);
            done
        },
    )
}

/// Has a drain look until it is over.
fn drain_until<T: Wait + Clock>(host: Host<'_, T>, drain: Drain, over: &AtomicBool) {
    let mut drain = drain;
    for _ in host.rt.forever() {
        if over.load(Ordering::SeqCst) {
            return;
        }
        drain.look();
        host.rt.sleep(Duration::from_millis(DRAIN_MILLIS));
    }
}

/// Does work while another thread takes what comes from the input. If the system makes no thread it does neither: one after
/// the other, nothing would be answered before the input ends.
fn while_reading<
    'a,
    T: Threads + Wait + Clock + Sync,
    R: Read + Send,
    E: Write + Send,
    F: FnOnce(),
>(host: Host<'a, T>, setup: &'a Setup, live: &'a LiveReplica<'a, R, E>, work: F)
    requires { F.pre work }
{
    scope(
        scope_env(),
        host.rt,
        move |scope|
            requires { F.pre work }
        {
            match Builder::new().spawn_scoped(scope, move || read_on(host, setup, live)) {
                Ok(_) => work(),
                Err(_) => live.ending.note(host.rt, NodeFault::Threads),
            }
        },
    )
}

/// What the threads of a live replica share.
#[derive(Drop)]
struct LiveReplica<'a, R, E> {
    batches: Batches,
    clients: Option<Clients<'a>>,
    ending: Ending,
    /// One thread alone reads. The lock is what lets it have the reader.
    reader: Mutex<R>,
    errors: Mutex<E>,
    says: bool,
}

impl<'a, R, E> LiveReplica<'a, R, E> {
    /// Of a node that has taken nothing, with these batches and clients.
    fn new(
        batches: Batches,
        reader: R,
        errors: E,
        says: bool,
        clients: Option<Clients<'a>>,
    ) -> LiveReplica<'a, R, E> {
        LiveReplica {
            batches,
            clients,
            ending: Ending::of(0),
            reader: Mutex::new(reader),
            errors: Mutex::new(errors),
            says,
        }
    }
}

/// Takes what comes from the input, until it ends or the node is to.
fn read_on<T: Wait, R: Read, E: Write>(
    host: Host<'_, T>,
    setup: &Setup,
    live: &LiveReplica<'_, R, E>,
) {
    let mut reader = live.reader.lock(host.rt);
    if let Err(fault) = take_batches(host, setup, &mut *reader, live) {
        live.ending.note(host.rt, fault);
    }
    live.batches.end(host.rt);
}

/// Puts each batch of the input in.
fn take_batches<T: Wait, R: Read, E: Write>(
    host: Host<'_, T>,
    setup: &Setup,
    reader: &mut R,
    live: &LiveReplica<'_, R, E>,
) -> Result<(), NodeFault> {
    let mut input = BatchReader::new(host.alloc);
    for _ in host.rt.forever() {
        if live.ending.is_stopped() {
            return Ok(());
        }
        match input.next(setup, reader) {
            Ok(Batched::Batch(queries)) => {
                if live.batches.put(host, queries).is_err() {
                    return Err(NodeFault::Memory);
                }
            }
            Ok(Batched::NotYet) => {}
            Ok(Batched::End) => {
                if live.says {
                    say_end(host, &live.errors);
                }
                return Ok(());
            }
            Err(fault) => pass_over(host, fault, live)?,
        }
    }
    unreachable!()
}

/// Tells of a line that does not read, whose batch is passed over. Fails if the reader cannot go on behind it.
fn pass_over<T: Wait, R, E: Write>(
    host: Host<'_, T>,
    fault: RequestFault,
    live: &LiveReplica<'_, R, E>,
) -> Result<(), NodeFault> {
    if !matches!(fault, RequestFault::Line { .. }) {
        return Err(NodeFault::Input(fault));
    }
    live.ending.slip();
    say_slip(host, &fault, &live.errors);
    Ok(())
}
