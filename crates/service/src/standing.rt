//! A service whose answers stand at once.

ghost use Rattle.std.specs.Prelude.{◌≡◌};

use bytes::Bytes;
use http::Request;
use http_server::{Response, Service, Settle};
use std::alloc::AllocError;

/// A `Service` as a `Settle` that has nothing to settle.
#[derive(Drop)]
pub(crate) struct Standing<S: Service + Drop> {
    pub(crate) inner: S,
}

impl<S: Service + Drop> Settle for Standing<S> {
    ghost answers = { λ old request response new. S.answers old.inner request response new.inner };

    ghost settles = { λ old stands new. new ≡ old };

    fn call(
        &mut self,
        request: &Request<Bytes>,
        response: &mut Response,
    ) -> Result<(), AllocError> {
        self.inner.call(request, response)
    }

    fn settle(&mut self) -> bool {
        true
    }
}
