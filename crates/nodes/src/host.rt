//! What a node has of the process that it runs in.

use std::alloc::{AllocError, Global};

/// The runtime of a process, lent, and its allocator.
pub struct Host<'a, T> {
    pub rt: &'a T,
    pub alloc: Global,
}

impl<'a, T> Clone for Host<'a, T> {
    ghost use Rattle.std.specs.Prelude.{◌≡◌, ⊤};

    ghost is_clone = { λ host copy. copy ≡ host };

    ghost is_infallible = { λ _. ⊤ };

    fn clone(&self) -> Result<Host<'a, T>, AllocError> {
        Ok(*self)
    }
}

impl<'a, T> Copy for Host<'a, T> {}
