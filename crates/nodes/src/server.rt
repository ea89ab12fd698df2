//! A primary that serves, turn by turn, and says what it does.

use crate::bases::{Bases, Kept, millis_since};
use crate::ending::Ending;
use crate::faults::NodeFault;
use crate::host::Host;
use crate::pace::Pace;
use crate::saying::was_just_now;
use figures::Figures;
use journal::JournalStore;
use rows::limits::REPLICAS_MAX;
use shared::{Line, Origin, Seat};
use sockets::{Port, PrimaryNode, take_turn};
use std::io::Write;
use std::rt::Clock;
use std::sync::atomic::{AtomicU64, Ordering};
use std::sync::{Mutex, Wait};
use std::time::Instant;

/// A primary's node, with its pace, and what it has said of it.
#[derive(Drop)]
pub struct Server<L: Origin, P: Port + Drop> {
    node: PrimaryNode<L, P>,
    pace: Pace,
    /// How many commits were said to be durable, and when.
    told: u64,
    told_at: Option<Instant>,
    /// When it began, if the clock tells.
    begun_at: Option<Instant>,
    /// How many frames are kept.
    kept: Kept,
}

impl<L: Origin, P: Port + Drop> Server<L, P> {
    /// Of a node that has served no turn.
    pub fn new(node: PrimaryNode<L, P>, pace: Pace) -> Server<L, P> {
        Server {
            node,
            pace,
            told: 0,
            told_at: None,
            begun_at: None,
            kept: Kept::all(),
        }
    }

    /// The node's port, lent.
    pub fn port(&self) -> &P {
        self.node.port()
    }

    /// The node's seat.
    pub fn into_seat(self) -> Seat<L> {
        let Server { node, .. } = self;
        node.into_seat()
    }

    /// Serves until the turns are used up.
    pub fn serve<J: JournalStore, H: Wait + Drop, T: Wait + Clock, E: Write>(
        &mut self,
        host: Host<'_, T>,
        line: &Line<L, J, H>,
        bases: &Bases,
        figures: &Figures,
        errors: &Mutex<E>,
    ) -> Result<(), NodeFault> {
        self.serve_turns(host, line, bases, &Ending::of(0), figures, errors)
    }

    /// Serves until the node ends: at once if it is stopped, and otherwise, once all that came is done, until the
    /// turns are used up.
    pub fn serve_on<J: JournalStore, H: Wait + Drop, T: Wait + Clock, E: Write>(
        &mut self,
        host: Host<'_, T>,
        line: &Line<L, J, H>,
        bases: &Bases,
        ending: &Ending,
        figures: &Figures,
        errors: &Mutex<E>,
    ) -> Result<(), NodeFault> {
        for _ in host.rt.forever() {
            if ending.is_stopped() {
                return Ok(());
            }
            if ending.is_done() {
                break;
            }
            self.turn(host, line, bases, figures, errors)?;
        }
        if ending.has_failed(host.rt) {
            return Ok(());
        }
        self.serve_turns(host, line, bases, ending, figures, errors)
    }

    /// Serves until the turns are used up, or the node is stopped.
    fn serve_turns<J: JournalStore, H: Wait + Drop, T: Wait + Clock, E: Write>(
        &mut self,
        host: Host<'_, T>,
        line: &Line<L, J, H>,
        bases: &Bases,
        ending: &Ending,
        figures: &Figures,
        errors: &Mutex<E>,
    ) -> Result<(), NodeFault> {
        let mut left = self.pace.turns;
        for _ in host.rt.forever() {
            if ending.is_stopped() {
                return Ok(());
            }
            if !take_turn(&mut left) {
                self.say_traffic(host, errors);
                return Ok(());
            }
            self.turn(host, line, bases, figures, errors)?;
        }
        unreachable!()
    }

    /// Serves until no node is left that it serves, or the turns are used up. It has no base taken.
    pub fn serve_while<J: JournalStore, H: Wait + Drop, T: Wait + Clock>(
        &mut self,
        host: Host<'_, T>,
        line: &Line<L, J, H>,
        left: &AtomicU64,
    ) -> Result<(), NodeFault> {
        let unsaid = Mutex::new(Vec::new(host.alloc));
        let bases = Bases::new(0);
        let figures = Figures::without_replicas(host.alloc);
        let mut turns = self.pace.turns;
        for _ in host.rt.forever() {
            if left.load(Ordering::SeqCst) == 0 || !take_turn(&mut turns) {
                return Ok(());
            }
            self.turn(host, line, &bases, &figures, &unsaid)?;
        }
        unreachable!()
    }

    /// Serves one turn, notes what it did, and says it; and has a base taken if one is due.
    fn turn<J: JournalStore, H: Wait + Drop, T: Wait + Clock, E: Write>(
        &mut self,
        host: Host<'_, T>,
        line: &Line<L, J, H>,
        bases: &Bases,
        figures: &Figures,
        errors: &Mutex<E>,
    ) -> Result<(), NodeFault> {
        if self.node.turn(host.rt, line).is_err() {
            return Err(NodeFault::Socket);
        }
        bases.look(host.rt, &mut self.kept, self.node.passed());
        figures.note_time(self.millis(host));
        figures.note_traffic(self.node.traffic());
        self.note_asked(host, figures, errors);
        if self.pace.says {
            self.say_durable(host, errors);
        }
        Ok(())
    }

    /// How many milliseconds ago it began; 0 if the clock does not tell.
    fn millis<T: Clock>(&mut self, host: Host<'_, T>) -> u64 {
        if self.begun_at.is_none() {
            self.begun_at = Instant::now(host.rt).ok();
        }
        millis_since(host, &self.begun_at)
    }

    /// Notes which replicas have asked, and says it.
    fn note_asked<T: Wait, E: Write>(
        &mut self,
        host: Host<'_, T>,
        figures: &Figures,
        errors: &Mutex<E>,
    ) {
        for replica in 0..REPLICAS_MAX {
            if let Some(version) = self.node.take_asked(replica) {
                figures.note_told(replica, version);
                if self.pace.says {
                    let mut errors = errors.lock(host.rt);
                    let _ = writeln!(&mut *errors, "replica {replica} asked at version {version}");
                }
            }
        }
    }

    /// Says how many commits are durable, if that has changed and was not said a moment ago.
    fn say_durable<T: Wait + Clock, E: Write>(&mut self, host: Host<'_, T>, errors: &Mutex<E>) {
        let durable = self.node.durable();
        if durable == self.told || was_just_now(host, &self.told_at) {
            return;
        }
        let mut errors = errors.lock(host.rt);
        let _ = writeln!(&mut *errors, "durable {durable}");
        self.told = durable;
        self.told_at = Instant::now(host.rt).ok();
    }

    /// Says what went through its port, once the turns are used up.
    fn say_traffic<T: Wait, E: Write>(&self, host: Host<'_, T>, errors: &Mutex<E>) {
        if !self.pace.says {
            return;
        }
        let traffic = self.node.traffic();
        let mut errors = errors.lock(host.rt);
        let _ = writeln!(
            &mut *errors,
            "turns used up: received {}, ignored {}, sent {}, lost {}",
            traffic.received, traffic.ignored, traffic.sent, traffic.lost
        );
    }
}
