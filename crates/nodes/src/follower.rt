//! A replica that answers batches, turn by turn, and says what it does.

ghost use Rattle.std.specs.Prelude.{◌≡◌, true, false, Err};
ghost use Rattle.dispatcher.specs.Steps.{asked};
ghost use Rattle.dispatcher.specs.declared.faults.AskFault.TheVariants as asks;

use crate::bases::millis_since;
use crate::batches::{Batches, Next, Taker};
use crate::clients::Clients;
use crate::ending::Ending;
use crate::faults::NodeFault;
use crate::host::Host;
use crate::pace::Pace;
use crate::printing::print;
use crate::saying::{say_slip, was_just_now};
use crate::tables::tables_of;
use dispatcher::{AskFault, OpenFault, ReplicaCore};
use gathering::Gathering;
use queries::{Aggregate, AggregateList, ColumnList, ConditionList, Plan, PlanFault};
use requests::{BATCH_QUERIES_MAX, LineFault, Misread, Query, RequestFault, Skipped, elements_of};
use rows::ByteList;
use sockets::{Port, ReplicaNode, ServeFault, Turned, take_turn};
use std::alloc::{AllocError, Global};
use std::io::Write;
use std::rt::Clock;
use std::sync::{Mutex, Wait};
use std::thread::Threads;
use std::time::{Duration, Instant};
use store::ApplyStore;

/// For how long a request is waited for at once, in milliseconds.
const REQUEST_MILLIS: u64 = 10;

/// How many datagrams come, at most, while no batch waits, until no more are received: a frame is kept, and costs memory.
const IDLE_DATAGRAMS_MAX: u64 = 65_536;

/// Whose batch is under way.
#[derive(Clone, Copy)]
enum UnderWay {
    Nothing,
    /// One of the input.
    Input,
    /// One of clients.
    Clients,
    /// One of clients that were answered before it was, since memory was refused for it.
    Nobody,
}

/// A replica's node, with its pace, and how far it came with its batches.
#[derive(Drop)]
pub struct Follower<S: ApplyStore + Sync, P: Port + Drop> {
    node: ReplicaNode<S, P>,
    pace: Pace,
    /// Whether its turns are counted anew for each batch.
    is_live: bool,
    /// How many turns are left.
    left: Option<u64>,
    /// How many turns it goes on for its clients once the input has ended.
    left_for_clients: Option<u64>,
    under_way: UnderWay,
    /// How many queries the batch under way has.
    queries: u64,
    /// Whether the batch before was one of the input, so that clients come next.
    prefers_clients: bool,
    /// Whether nothing arrived in the turn before, or it answered a batch.
    is_quiet: bool,
    /// When the batch under way began, and when something was said of it last.
    begun_at: Option<Instant>,
    told_at: Option<Instant>,
    /// How many batches of the input it has answered.
    answered: u64,
    /// How many datagrams had come when a batch was answered last.
    received: u64,
    /// A batch that waits until the replica has its columns; empty if none does.
    held: Vec<Query>,
}

impl<S: ApplyStore + Sync, P: Port + Drop> Follower<S, P> {
    /// Of a node that has served no turn.
    pub fn new(
        alloc: Global,
        node: ReplicaNode<S, P>,
        pace: Pace,
        is_live: bool,
    ) -> Follower<S, P> {
        Follower {
            node,
            pace,
            is_live,
            left: pace.turns,
            left_for_clients: pace.turns,
            under_way: UnderWay::Nothing,
            queries: 0,
            prefers_clients: false,
            is_quiet: false,
            begun_at: None,
            told_at: None,
            answered: 0,
            received: 0,
            held: Vec::new(alloc),
        }
    }

    /// The node, lent.
    pub fn node(&self) -> &ReplicaNode<S, P> {
        &self.node
    }

    /// Whether it has turns left.
    pub fn has_turns(&self) -> bool {
        self.left != Some(0)
    }

    /// Whether it says what it does.
    pub fn says(&self) -> bool {
        self.pace.says
    }

    /// Serves until all batches are answered and no more come, or the node is to end, and writes each report. With clients it
    /// goes on once the input has ended, until its turns are used up; each client is answered by the report of its own queries.
    ///
    /// Fails with `Unanswered` if the turns or the time of a batch of the input are used up; with `Input` if a query does not fit
    /// the tables, also after the newest columns came, unless it is live: then that batch is passed over, of which is told; with
    /// `Memory` if memory is refused for a batch of the input: clients for whose batch it is are told so, and it goes on; with
    /// `Clients`, `Socket`, `Broken` and `Output`.
    pub(crate) fn follow<T: Threads + Wait + Clock + Sync, W: Write, E: Write>(
        &mut self,
        host: Host<'_, T>,
        batches: &Batches,
        clients: Option<Clients<'_>>,
        ending: &Ending,
        writer: &mut W,
        errors: &Mutex<E>,
    ) -> Result<(), NodeFault> {
        let mut taker = Taker::new(host.alloc);
        for _ in host.rt.forever() {
            if ending.is_stopped() || self.is_over(host, batches, clients)? {
                return Ok(());
            }
            if let Err(fault) = self.step(host, batches, &mut taker, clients, writer, errors) {
                self.pass_over(host, fault, clients, ending, errors)?;
            }
            if let UnderWay::Input = self.under_way {
                self.say_waiting(host, errors);
            }
        }
        unreachable!()
    }

    /// Begins the next batch if none is under way, and serves one turn. Fails where the batch under way cannot be answered.
    fn step<T: Threads + Wait + Clock + Sync, W: Write, E: Write>(
        &mut self,
        host: Host<'_, T>,
        batches: &Batches,
        taker: &mut Taker,
        clients: Option<Clients<'_>>,
        writer: &mut W,
        errors: &Mutex<E>,
    ) -> Result<(), NodeFault> {
        match self.under_way {
            UnderWay::Nothing => {
                self.await_request(host, clients);
                self.begin_next(host, batches, taker, clients)?;
            }
            UnderWay::Nobody => self.await_request(host, clients),
            UnderWay::Input | UnderWay::Clients => {}
        }
        if self.is_full() {
            self.rest(host, clients);
            return Ok(());
        }
        self.count_turn(host, clients)?;
        if self.turn(host, clients, writer, errors)? {
            self.under_way = UnderWay::Nothing;
            // A client that was answered may soon ask again.
            self.is_quiet = true;
        }
        Ok(())
    }

    /// Whether it is to end: no batch of the input is left, and it has no clients, or its turns for them are used up. Fails where
    /// clients are served no longer.
    fn is_over<T: Wait>(
        &mut self,
        host: Host<'_, T>,
        batches: &Batches,
        clients: Option<Clients<'_>>,
    ) -> Result<bool, NodeFault> {
        if let Some(Clients { gathering, .. }) = clients
            && let Some(fault) = gathering.take_fault(host.rt)
        {
            return Err(NodeFault::Clients(fault));
        }
        if let UnderWay::Input = self.under_way {
            return Ok(false);
        }
        if !batches.is_over(host.rt) {
            return Ok(false);
        }
        match clients {
            Some(_) => Ok(!take_turn(&mut self.left_for_clients)),
            None => Ok(true),
        }
    }

    /// Waits for a request of a client, for a moment, if nothing arrived in the turn before or it answered a batch: in a turn the
    /// node would wait for datagrams alone.
    fn await_request<T: Wait + Clock>(&self, host: Host<'_, T>, clients: Option<Clients<'_>>) {
        if let Some(Clients { gathering, .. }) = clients
            && self.is_quiet
        {
            gathering.wait(host.rt, Duration::from_millis(REQUEST_MILLIS));
        }
    }

    /// Whether it receives nothing for now: no batch waits, and as much has come since the last one as it takes while none does. What
    /// comes now the socket loses; it is asked for once a batch waits.
    fn is_full(&self) -> bool {
        let received = self.node.traffic().received.saturating_sub(self.received);
        matches!(self.under_way, UnderWay::Nothing) && received >= IDLE_DATAGRAMS_MAX
    }

    /// Lets a moment pass in which it receives nothing; with clients, the wait for a request is that moment.
    fn rest<T: Wait + Clock>(&mut self, host: Host<'_, T>, clients: Option<Clients<'_>>) {
        self.is_quiet = true;
        if clients.is_none() {
            host.rt.sleep(Duration::from_millis(REQUEST_MILLIS));
        }
    }

    /// Begins the next batch, of the input or of clients, if one waits; in turn, where both wait.
    fn begin_next<T: Wait + Clock>(
        &mut self,
        host: Host<'_, T>,
        batches: &Batches,
        taker: &mut Taker,
        clients: Option<Clients<'_>>,
    ) -> Result<(), NodeFault> {
        if self.prefers_clients && self.begin_gathered(host, clients)? {
            return Ok(());
        }
        match batches.next(host, taker) {
            Ok(Next::Batch(queries)) => {
                self.prefers_clients = true;
                self.under_way = UnderWay::Input;
                self.begin(host, queries)
            }
            Ok(Next::NotYet | Next::Ended) => {
                self.begin_gathered(host, clients)?;
                Ok(())
            }
            Err(_) => Err(NodeFault::Memory),
        }
    }

    /// Begins a batch of the requests of clients that wait, if any does. Whether one is begun. If it fails, it is one of clients that
    /// is under way.
    fn begin_gathered<T: Wait + Clock>(
        &mut self,
        host: Host<'_, T>,
        clients: Option<Clients<'_>>,
    ) -> Result<bool, NodeFault> {
        let Some(Clients { gathering, .. }) = clients else {
            return Ok(false);
        };
        self.under_way = UnderWay::Clients;
        let Ok(queries) = gathered(host, self.node.core(), gathering) else {
            return Err(NodeFault::Memory);
        };
        if queries.is_empty() {
            self.under_way = UnderWay::Nothing;
            return Ok(false);
        }
        self.prefers_clients = false;
        self.begin(host, queries)?;
        Ok(true)
    }

    /// Uses up a turn and the time of the batch under way. Where none is left, a batch of the input fails; clients are turned
    /// away, those that wait too, and the turns are counted anew until the replica has the answer, which nobody gets.
    fn count_turn<T: Wait + Clock>(
        &mut self,
        host: Host<'_, T>,
        clients: Option<Clients<'_>>,
    ) -> Result<(), NodeFault> {
        match (self.under_way, clients) {
            (UnderWay::Input, _) if !self.may_go_on(host) => Err(NodeFault::Unanswered),
            (UnderWay::Clients | UnderWay::Nobody, Some(Clients { gathering, .. }))
                if !self.may_go_on(host) => {
                gathering.turn_away(host.rt);
                self.left = self.pace.turns;
                self.begun_at = Instant::now(host.rt).ok();
                Ok(())
            }
            _ => Ok(()),
        }
    }

    /// Passes over the batch under way, and tells why: of a query that does not fit the tables also after the newest columns came the
    /// client whose it is, or, live, who reads the errors; of memory that was refused the clients. All else ends the node.
    fn pass_over<T: Wait, E: Write>(
        &mut self,
        host: Host<'_, T>,
        fault: NodeFault,
        clients: Option<Clients<'_>>,
        ending: &Ending,
        errors: &Mutex<E>,
    ) -> Result<(), NodeFault> {
        let slip = match fault {
            NodeFault::Input(slip) => slip,
            NodeFault::Memory => return self.give_up(host, clients),
            fault => return Err(fault),
        };
        if let (UnderWay::Clients, Some(Clients { gathering, .. })) = (self.under_way, clients) {
            self.under_way = UnderWay::Nothing;
            match format!(in host.alloc; "{slip}\n") {
                Ok(why) => gathering.refuse(host.rt, why.as_str()),
                Err(_) => gathering.answer_memory(host.rt),
            }
            return Ok(());
        }
        if !self.is_live {
            return Err(NodeFault::Input(slip));
        }
        self.under_way = UnderWay::Nothing;
        ending.slip();
        say_slip(host, &slip, errors);
        Ok(())
    }

    /// Answers the clients whose batch is under way that memory was refused. What the replica was asked of it is still answered
    /// before the next batch, but to nobody. Fails with `Memory` where it is no batch of clients.
    fn give_up<T: Wait>(
        &mut self,
        host: Host<'_, T>,
        clients: Option<Clients<'_>>,
    ) -> Result<(), NodeFault> {
        match (self.under_way, clients) {
            (UnderWay::Clients | UnderWay::Nobody, Some(Clients { gathering, .. })) => {
                gathering.answer_memory(host.rt);
                self.held = Vec::new(host.alloc);
                self.under_way = if has_queries(self.node.core()) {
                    UnderWay::Nobody
                } else {
                    UnderWay::Nothing
                };
                // It waits for a moment before it tries again.
                self.is_quiet = true;
                Ok(())
            }
            _ => Err(NodeFault::Memory),
        }
    }

    /// Opens a batch. One that does not fit the replica's tables is held, and a query of the node's own goes first: with
    /// its answer the replica has the newest columns.
    fn begin<T: Clock>(&mut self, host: Host<'_, T>, queries: Vec<Query>) -> Result<(), NodeFault> {
        if self.is_live {
            self.left = self.pace.turns;
        }
        self.queries = queries.len() as u64;
        self.begun_at = Instant::now(host.rt).ok();
        self.told_at = self.begun_at;
        match refused(self.node.core(), queries.as_slice()) {
            None => self.open(host.alloc, queries),
            Some((query, _)) => {
                let own = count_of(host.alloc, query.plan.table)?;
                self.held = queries;
                self.offer(own)
            }
        }
    }

    /// Opens the batch that was held. Fails if it does not fit the replica's tables now.
    fn go_on(&mut self, alloc: Global) -> Result<(), NodeFault> {
        let queries = std::mem::replace(&mut self.held, Vec::new(alloc));
        match refused(self.node.core(), queries.as_slice()) {
            None => self.open(alloc, queries),
            Some((query, fault)) => Err(NodeFault::Input(RequestFault::Line {
                line: query.line,
                why: LineFault::BadPlan(fault),
                misread: misread_of(alloc, self.node.core(), &query.plan),
                skipped: Skipped::Batch,
            })),
        }
    }

    /// Opens these queries, which fit.
    fn open(&mut self, alloc: Global, queries: Vec<Query>) -> Result<(), NodeFault> {
        let mut plans = Vec::new(alloc);
        for Query { plan, .. } in queries {
            if plans.push(plan).is_err() {
                return Err(NodeFault::Memory);
            }
        }
        self.offer(plans)
    }

    fn offer(&mut self, plans: Vec<Plan>) -> Result<(), NodeFault> {
        match self.node.offer_all(plans) {
            Ok(()) => Ok(()),
            Err(fault) => Err(fault_of(fault)),
        }
    }

    /// Whether the batch under way has a turn and time left; it uses up a turn.
    fn may_go_on<T: Clock>(&mut self, host: Host<'_, T>) -> bool {
        if self.node.core().request() == u64::MAX || !take_turn(&mut self.left) {
            return false;
        }
        let Some(wait) = self.pace.wait else {
            return true;
        };
        match &self.begun_at {
            Some(instant) => match instant.elapsed(host.rt) {
                Ok(elapsed) => elapsed < wait,
                Err(_) => true,
            },
            None => true,
        }
    }

    /// Serves one turn, and hands on the report if a batch is answered. Whether one is.
    fn turn<T: Threads + Wait + Clock + Sync, W: Write, E: Write>(
        &mut self,
        host: Host<'_, T>,
        clients: Option<Clients<'_>>,
        writer: &mut W,
        errors: &Mutex<E>,
    ) -> Result<bool, NodeFault> {
        let received = self.node.traffic().received;
        let turned = self.node.turn(host.rt);
        let traffic = self.node.traffic();
        self.is_quiet = traffic.received == received;
        if let Some(Clients { figures, .. }) = clients {
            figures.note_traffic(traffic);
        }
        let report = match turned {
            Ok(Turned::Answered(report)) => report,
            Ok(_) => return Ok(false),
            Err(fault) => return Err(fault_of(fault)),
        };
        self.received = traffic.received;
        self.say_image(host, errors);
        if !self.held.is_empty() {
            self.go_on(host.alloc)?;
            return Ok(false);
        }
        if let UnderWay::Nobody = self.under_way {
            return Ok(true);
        }
        if let Some(clients) = clients {
            note_report(host, self.node.core(), self.queries, clients);
        }
        match (self.under_way, clients) {
            (UnderWay::Clients, Some(Clients { gathering, .. })) => {
                gathering.answer(host.rt, report.as_slice());
            }
            _ => self.tell(host, &report, writer, errors)?,
        }
        Ok(true)
    }

    /// Writes a report.
    fn tell<T: Wait, W: Write, E: Write>(
        &mut self,
        host: Host<'_, T>,
        report: &ByteList,
        writer: &mut W,
        errors: &Mutex<E>,
    ) -> Result<(), NodeFault> {
        print(writer, report.as_slice())?;
        self.answered = self.answered.saturating_add(1);
        if self.pace.says {
            let version = self.node.core().version();
            let mut errors = errors.lock(host.rt);
            let _ = writeln!(&mut *errors, "batch {} at version {version}", self.answered);
        }
        Ok(())
    }

    /// Says which image was fetched for the batch that was answered, if it went by one.
    fn say_image<T: Wait + Clock, E: Write>(&mut self, host: Host<'_, T>, errors: &Mutex<E>) {
        let Some(image) = self.node.take_image() else {
            return;
        };
        if !self.pace.says {
            return;
        }
        let millis = millis_since(host, &self.begun_at);
        let mut errors = errors.lock(host.rt);
        let _ = writeln!(
            &mut *errors,
            "image {} pieces {} bytes {} in {millis} ms",
            image.base, image.pieces, image.bytes
        );
    }

    /// Says what came while a batch waits, once a second.
    fn say_waiting<T: Wait + Clock, E: Write>(&mut self, host: Host<'_, T>, errors: &Mutex<E>) {
        if !self.pace.shows || self.told_at.is_none() || was_just_now(host, &self.told_at) {
            return;
        }
        self.told_at = Instant::now(host.rt).ok();
        let traffic = self.node.traffic();
        let number = self.answered.saturating_add(1);
        let mut errors = errors.lock(host.rt);
        let _ = match self.node.expected() {
            Some(expected) => writeln!(
                &mut *errors,
                "batch {number} waits: received {}, ignored {}, has {} frames, needs {expected}",
                traffic.received, traffic.ignored, traffic.stored
            ),
            None => writeln!(
                &mut *errors,
                "batch {number} waits: received {}, ignored {}, has no version",
                traffic.received, traffic.ignored
            ),
        };
    }
}

/// Why a node that serves no longer ends.
pub fn fault_of(fault: ServeFault) -> NodeFault {
    match fault {
        ServeFault::Socket => NodeFault::Socket,
        ServeFault::Broken => NodeFault::Broken,
        ServeFault::Memory => NodeFault::Memory,
    }
}

/// Notes a report of so many queries that a replica has made: its version, and the tables as they are then. If there is no memory for
/// these, those that were noted before stay, with their version.
fn note_report<T: Wait, S: ApplyStore + Sync>(
    host: Host<'_, T>,
    replica: &ReplicaCore<S>,
    queries: u64,
    clients: Clients<'_>,
) {
    let Clients {
        gathering,
        figures,
        schema,
    } = clients;
    figures.note_batch(replica.version(), queries);
    if let Some(tables) = tables_of(host.alloc, schema, replica) {
        gathering.note_tables(host.rt, tables);
    }
}

/// Whether a replica has a batch, or queries that wait for one, or is broken: the next batch that it is asked has not its own queries
/// alone.
fn has_queries<S: ApplyStore + Sync>(replica: &ReplicaCore<S>) -> bool
    ensures none { result ≡ false → asked replica.now ≡ Err asks.Empty }
    ensures some { result ≡ true → ¬ (asked replica.now ≡ Err asks.Empty) }
{
    match replica.may_ask() {
        Err(AskFault::Empty) => false,
        _ => true,
    }
}

/// The queries of requests that wait, for one batch: of the first, and of those behind it while they fit beside it. One that does not
/// fit the replica's tables is a batch by itself. There are none if no request waits. Fails only if out of memory.
fn gathered<T: Wait, S: ApplyStore + Sync>(
    host: Host<'_, T>,
    replica: &ReplicaCore<S>,
    gathering: &Gathering,
) -> Result<Vec<Query>, AllocError> {
    let mut queries = match gathering.take(host.rt, BATCH_QUERIES_MAX)? {
        Some(first) => first.into_queries(),
        None => return Ok(Vec::new(host.alloc)),
    };
    if refused(replica, queries.as_slice()).is_some() {
        return Ok(queries);
    }
    for _ in 0..BATCH_QUERIES_MAX {
        let room = BATCH_QUERIES_MAX.saturating_sub(queries.len());
        let Some(next) = gathering.take(host.rt, room)? else {
            break;
        };
        if refused(replica, next.queries.as_slice()).is_some() {
            gathering.put_back(host.rt, next)?;
            break;
        }
        for query in next.into_queries() {
            queries.push(query)?;
        }
    }
    Ok(queries)
}

/// The first of these queries that does not fit the replica's tables, and its fault.
fn refused<'q, S: ApplyStore + Sync>(
    replica: &ReplicaCore<S>,
    queries: &'q [Query],
) -> Option<(&'q Query, PlanFault)> {
    for query in queries {
        if let Err(OpenFault::BadPlan(fault)) = replica.may_open(&query.plan) {
            return Some((query, fault));
        }
    }
    None
}

/// The word at which a plan does not fit the replica's tables; `Unknown` if out of memory.
fn misread_of<S: ApplyStore + Sync>(
    alloc: Global,
    replica: &ReplicaCore<S>,
    plan: &Plan,
) -> Misread {
    let Ok(elements) = elements_of(alloc, plan) else {
        return Misread::Unknown;
    };
    for element in &elements {
        if let Err(OpenFault::BadPlan(fault)) = replica.may_open(element.plan()) {
            return element.misread(alloc, fault);
        }
    }
    Misread::Unknown
}

/// A batch of one query that counts the rows of a table.
fn count_of(alloc: Global, table: u8) -> Result<Vec<Plan>, NodeFault> {
    let mut aggregates = Vec::new(alloc);
    let mut plans = Vec::new(alloc);
    if aggregates.push(Aggregate::Count).is_err() {
        return Err(NodeFault::Memory);
    }
    let plan = Plan {
        table,
        join: None,
        conditions: ConditionList::from_vec(Vec::new(alloc)),
        groups: ColumnList::from_vec(Vec::new(alloc)),
        aggregates: AggregateList::from_vec(aggregates),
    };
    match plans.push(plan) {
        Ok(()) => Ok(plans),
        Err(_) => Err(NodeFault::Memory),
    }
}
