//! Work that cannot tell how far it has come: another thread says meanwhile for how long it has gone on.

ghost use Rattle.std.specs.Prelude.{◌≡◌};

use crate::host::Host;
use std::io::Write;
use std::rt::Clock;
use std::sync::{Condvar, Mutex, Wait};
use std::thread::{Threads, scope, scope_env};
use std::time::{Duration, Instant};

/// How long it is until something is said, and said again, in seconds.
const PAUSE_SECONDS: u64 = 1;

/// Work, of which another thread says what it is until it is over, and where that is said.
#[derive(Drop)]
struct Watch<'a, T, E> {
    host: Host<'a, T>,
    what: &'a str,
    is_over: Mutex<bool>,
    changed: Condvar,
    errors: Mutex<E>,
}

impl<'a, T: Wait + Clock, E: Write> Watch<'a, T, E> {
    /// Of work that goes on.
    fn new(host: Host<'a, T>, what: &'a str, errors: E) -> Watch<'a, T, E> {
        Watch {
            host,
            what,
            is_over: Mutex::new(false),
            changed: Condvar::new(),
            errors: Mutex::new(errors),
        }
    }

    /// Says that the work is over.
    fn end(&self) {
        let mut is_over = self.is_over.lock(self.host.rt);
        *is_over = true;
        drop(is_over);
        self.changed.notify_all();
    }

    /// Waits for a second, or until the work is over. Whether it is.
    fn is_over_soon(&self) -> bool {
        let rt = self.host.rt;
        let is_over = self.is_over.lock(rt);
        let pause = Duration::from_secs(PAUSE_SECONDS);
        let (is_over, _) = self
            .changed
            .wait_timeout_while(rt, is_over, pause, |is_over: &mut bool| !*is_over);
        *is_over
    }

    /// Says each second what is done, and for how long, until it is over. If the clock cannot tell, it says nothing.
    fn say_seconds(&self) {
        let rt = self.host.rt;
        let Ok(begun_at) = Instant::now(rt) else {
            return;
        };
        for _ in rt.forever() {
            if self.is_over_soon() {
                return;
            }
            let Ok(elapsed) = begun_at.elapsed(rt) else {
                return;
            };
            let mut errors = self.errors.lock(rt);
            let _ = writeln!(&mut *errors, "{} for {} s", self.what, elapsed.as_secs());
        }
    }
}

/// Does work, and answers what it does. Meanwhile, if it is to, it says each second what is done, and for how many seconds it
/// has been. If the system makes no thread that could say so, nothing is said.
pub fn while_saying<'a, T: Threads + Wait + Clock + Sync, E: Write + Send, A, F: FnOnce() -> A>(
    host: Host<'a, T>,
    shows: bool,
    what: &'a str,
    errors: &mut E,
    work: F,
) -> A
    requires { F.pre work }
    ensures { F.post work result }
{
    if !shows {
        return work();
    }
    let watch = Watch::new(host, what, errors);
    watched(&watch, work)
}

/// Does work, and answers what it does. Meanwhile another thread says each second what is done.
fn watched<T: Threads + Wait + Clock + Sync, E: Write + Send, A, F: FnOnce() -> A>(
    watch: &Watch<'_, T, E>,
    work: F,
) -> A
    requires { F.pre work }
    ensures { F.post work result }
{
    scope(
        scope_env(),
        watch.host.rt,
        move |scope| -> A
            requires { F.pre work }
            ensures { F.post work result }
        {
            let _ = scope.spawn(move || watch.say_seconds());
            let done = work();
            watch.end();
            done
        },
    )
}
