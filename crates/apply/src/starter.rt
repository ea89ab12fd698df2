//! A handle for threads that threads may share.

use std::marker::PhantomData;
use std::thread::Threads;

/// Starts threads by the leave of a handle of type `R`, of which it contains nothing. So threads may
/// share it, which a method of a trait cannot know of a handle that it is passed.
#[derive(Drop)]
pub struct Starter<R> {
    leave: PhantomData<R>,
}

impl<R: Threads> Starter<R> {
    /// A handle by the leave of this one.
    pub fn new(rt: &R) -> Starter<R> {
        let _ = rt;
        Starter { leave: PhantomData }
    }
}

impl<R: Threads> Threads for Starter<R> {}
