//! A `Settle` that connections can call.

ghost use Rattle.http_server.specs.Response.{IsBlank};
ghost use Rattle.service.specs.Denials.{WithDenials};

use crate::admission::{denial_of, deny};
use bytes::Bytes;
use http::Request;
use http_server::{Response, Service, Settle};
use std::alloc::AllocError;

/// Hands each call on that is not denied, and counts the calls. It stays within this crate, which
/// sends nothing before the round has ended.
#[derive(Drop)]
pub(crate) struct Held<S: Settle + Drop> {
    pub(crate) inner: S,
    /// How many requests were answered, up to the greatest number.
    pub(crate) calls: u64,
}

impl<S: Settle + Drop> Service for Held<S> {
    ghost answers = { λ old request response new. WithDenials S.answers old.inner request response new.inner };

    fn call(
        &mut self,
        request: &Request<Bytes>,
        response: &mut Response,
    ) -> Result<(), AllocError> {
        match denial_of(request) {
            Some(denial) => deny(denial, response)?,
            None => self.inner.call(request, response)?,
        }
        self.calls = self.calls.saturating_add(1);
        Ok(())
    }
}
