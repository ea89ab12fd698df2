//! Whether the system makes threads.

use crate::host::Host;
use std::io;
use std::sync::Wait;
use std::sync::atomic::{AtomicBool, Ordering};
use std::thread::{Builder, Threads, scope, scope_env, yield_now};

/// Whether the system makes so many threads that run at once: it makes them, and lets them end. Where one
/// cannot be made, `join` would do one after the other what is to be done at once, and a live node would not
/// serve before its input ended. Another process may take threads right after this; then a node does just that.
///
/// Fails as the system does.
pub fn try_threads<T: Threads + Wait + Sync>(host: Host<'_, T>, count: usize) -> io::Result<()> {
    let is_over = AtomicBool::new(false);
    let over = &is_over;
    let rt = host.rt;
    scope(scope_env(), rt, |scope| {
        let mut tried = Ok(());
        for _ in 0..count {
            let made = Builder::new().spawn_scoped(scope, move || wait_for(rt, over));
            if let Err(error) = made {
                tried = Err(error);
                break;
            }
        }
        over.store(true, Ordering::SeqCst);
        tried
    })
}

/// Waits until it is over.
fn wait_for<T: Wait>(rt: &T, over: &AtomicBool) {
    for _ in rt.forever() {
        if over.load(Ordering::SeqCst) {
            return;
        }
        yield_now();
    }
}
