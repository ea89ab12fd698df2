//! The bases of a primary: when one is taken, and by whom.

ghost use Rattle.std.specs.Prelude.{◌≡◌, ◌*◌, ◌<◌, ◌≤◌, ◌↔◌, IsTrue, min};

use crate::host::Host;
use journal::JournalStore;
use shared::{Line, Origin, Seat};
use std::alloc::{AllocError, Global};
use std::io::Write;
use std::rt::Clock;
use std::sync::{Condvar, Mutex, Wait};
use std::thread::{Builder, Threads, scope, scope_env};
use std::time::Instant;

/// For each piece of the newest base more frames than this many are kept when the next one is taken: so of what replicas are
/// sent, pieces are a tenth at most.
const FRAMES_A_PIECE: u64 = 10;

/// What is known of the bases that were taken.
#[derive(Drop)]
struct Known {
    /// Whether one is to be taken.
    is_due: bool,
    /// Whether none is taken any more.
    has_ended: bool,
    /// How many were taken, or could not be.
    tried: u64,
    /// The newest, and how many pieces it has.
    base: u64,
    pieces: u64,
}

/// The bases of a primary. The thread that pushes frames finds that one is due, and another takes it, so that replicas are
/// served meanwhile.
#[derive(Drop)]
pub struct Bases {
    /// At least so many frames are kept when one is due; 0: none ever is.
    least: u64,
    known: Mutex<Known>,
    changed: Condvar,
}

/// How many frames a primary keeps, as the thread that pushes them counts.
#[derive(Clone, Copy)]
pub struct Kept {
    /// How many bases had been tried when it looked last.
    tried: u64,
    /// How many frames had been passed when it first saw the newest one.
    before: u64,
}

impl Kept {
    /// Of a primary whose base is 0.
    pub fn all() -> Kept {
        Kept {
            tried: 0,
            before: 0,
        }
    }
}

impl Bases {
    /// Of a primary whose base is 0: one is taken once at least so many frames are kept, or never if that is 0.
    pub fn new(least: u64) -> Bases {
        Bases {
            least,
            known: Mutex::new(Known {
                is_due: false,
                has_ended: false,
                tried: 0,
                base: 0,
                pieces: 0,
            }),
            changed: Condvar::new(),
        }
    }

    /// Has a base taken if one is due, where so many frames have been passed.
    pub fn look<R: Wait>(&self, rt: &R, kept: &mut Kept, passed: u64) {
        if self.least == 0 {
            return;
        }
        let mut known = self.known.lock(rt);
        if known.tried != kept.tried {
            kept.tried = known.tried;
            kept.before = passed;
        }
        let count = passed.saturating_sub(kept.before);
        if known.is_due || !is_due(self.least, known.pieces, count) {
            return;
        }
        known.is_due = true;
        drop(known);
        self.changed.notify_all();
    }

    /// Makes what is durable the base, and says it if that is asked for: answers the base, and how many pieces it has. Fails
    /// only if out of memory; the base is then the one before.
    pub fn take<L: Origin, J: JournalStore, H: Wait + Drop, T: Wait + Clock, E: Write>(
        &self,
        host: Host<'_, T>,
        line: &Line<L, J, H>,
        seat: &mut Seat<L>,
        says: bool,
        errors: &Mutex<E>,
    ) -> Result<(u64, u64), AllocError> {
        let begun_at = Instant::now(host.rt).ok();
        let taken = line.take_base(host.rt, seat);
        self.note(host.rt, &taken);
        if says {
            say_base(host, &taken, &begun_at, errors);
        }
        taken
    }

    /// Notes that a base was taken, or could not be.
    fn note<R: Wait>(&self, rt: &R, taken: &Result<(u64, u64), AllocError>) {
        let mut known = self.known.lock(rt);
        known.is_due = false;
        known.tried = known.tried.wrapping_add(1);
        match taken {
            // (two that are taken at once may end in the other order)
            Ok((base, pieces)) if *base >= known.base => {
                known.base = *base;
                known.pieces = *pieces;
            }
            _ => {}
        }
    }

    /// Waits until a base is due; false once none is taken any more.
    fn wait<R: Wait>(&self, rt: &R) -> bool {
        let known = self.known.lock(rt);
        let known = self.changed.wait_while(rt, known, |known: &mut Known| {
            !known.is_due && !known.has_ended
        });
        !known.has_ended
    }

    /// Says that none is taken any more.
    fn end<R: Wait>(&self, rt: &R) {
        let mut known = self.known.lock(rt);
        known.has_ended = true;
        drop(known);
        self.changed.notify_all();
    }

    /// Takes a base each time one is due, until none is taken any more. One thread alone has the seat.
    fn keep<L: Origin, J: JournalStore, H: Wait + Drop, T: Wait + Clock, E: Write>(
        &self,
        host: Host<'_, T>,
        line: &Line<L, J, H>,
        seat: &Mutex<Seat<L>>,
        says: bool,
        errors: &Mutex<E>,
    ) {
        let mut seat = seat.lock(host.rt);
        for _ in host.rt.forever() {
            if !self.wait(host.rt) {
                return;
            }
            // Where memory is missing for one, the next is due once as many frames more are kept.
            let _ = self.take(host, line, &mut *seat, says, errors);
        }
    }
}

/// Whether a base is due where so many frames are kept, and the newest one has so many pieces.
fn is_due(least: u64, pieces: u64, kept: u64) -> bool
    ensures { IsTrue result ↔ ((least ≤ kept) × (min u64.MAX (pieces * 10) < kept)) }
{
    least <= kept && pieces.saturating_mul(FRAMES_A_PIECE) < kept
}

/// Says that a base was taken, and how long that took, or that there is no memory for it.
fn say_base<T: Wait + Clock, E: Write>(
    host: Host<'_, T>,
    taken: &Result<(u64, u64), AllocError>,
    begun_at: &Option<Instant>,
    errors: &Mutex<E>,
) {
    let millis = millis_since(host, begun_at);
    let mut errors = errors.lock(host.rt);
    let _ = match taken {
        Ok((base, pieces)) => writeln!(&mut *errors, "base {base} pieces {pieces} in {millis} ms"),
        Err(_) => writeln!(&mut *errors, "no base: out of memory"),
    };
}

/// The line of a base that was taken, or that could not be. Fails only if out of memory.
pub fn base_line(
    alloc: Global,
    taken: &Result<(u64, u64), AllocError>,
) -> Result<String, AllocError> {
    match taken {
        Ok((base, pieces)) => format!(in alloc; "base {base} pieces {pieces}\n"),
        Err(_) => format!(in alloc; "base memory\n"),
    }
}

/// How many milliseconds there are since an instant; 0 if the clock does not tell.
pub fn millis_since<T: Clock>(host: Host<'_, T>, instant: &Option<Instant>) -> u64 {
    let Some(instant) = instant else {
        return 0;
    };
    match instant.elapsed(host.rt) {
        Ok(elapsed) => u64::try_from(elapsed.as_millis()).unwrap_or(u64::MAX),
        Err(_) => 0,
    }
}

/// Does work while another thread takes a base each time one is due. If the system makes no thread for that, none is taken.
pub fn while_keeping<
    'a,
    L: Origin + Send + Sync,
    J: JournalStore + Drop + Send,
    H: Wait + Drop + Send + Sync,
    T: Threads + Wait + Clock + Sync,
    E: Write + Send,
    F: FnOnce(),
>(
    host: Host<'a, T>,
    line: &'a Line<L, J, H>,
    seat: &'a Mutex<Seat<L>>,
    says: bool,
    bases: &'a Bases,
    errors: &'a Mutex<E>,
    work: F,
)
    requires { F.pre work }
{
    scope(
        scope_env(),
        host.rt,
        move |scope|
            requires { F.pre work }
        {
            let _ = Builder::new().spawn_scoped(
                scope,
                move || bases.keep(host, line, seat, says, errors),
            );
            work();
            bases.end(host.rt);
        },
    )
}
