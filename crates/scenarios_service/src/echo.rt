//! A service that sends back what it is sent.

use bytes::{BufMut, Bytes};
use http::Request;
use http_server::{Response, Service, Settle};
use std::alloc::AllocError;

/// Answers the body of each request, and counts what it answered and settled.
#[derive(Drop)]
pub struct Echo {
    pub answered: u64,
    /// How many of these had been answered at the last settling.
    pub settled: u64,
    /// How many settlings succeed.
    pub settlings_left: u64,
}

impl Echo {
    /// All of whose settlings succeed.
    pub fn new() -> Echo {
        Echo {
            answered: 0,
            settled: 0,
            settlings_left: u64::MAX,
        }
    }
}

impl Settle for Echo {
    ghost answers = { λ _ _ _ _. Unit {0} };

    ghost settles = { λ _ _ _. Unit {0} };

    fn call(
        &mut self,
        request: &Request<Bytes>,
        response: &mut Response,
    ) -> Result<(), AllocError> {
        send_back(request, response)?;
        self.answered = self.answered.saturating_add(1);
        Ok(())
    }

    fn settle(&mut self) -> bool {
        self.settled = self.answered;
        let stands = self.settlings_left > 0;
        self.settlings_left = self.settlings_left.saturating_sub(1);
        stands
    }
}

impl Service for Echo {
    ghost answers = { λ _ _ _ _. Unit {0} };

    fn call(
        &mut self,
        request: &Request<Bytes>,
        response: &mut Response,
    ) -> Result<(), AllocError> {
        send_back(request, response)?;
        self.answered = self.answered.saturating_add(1);
        Ok(())
    }
}

fn send_back(request: &Request<Bytes>, response: &mut Response) -> Result<(), AllocError> {
    response.body.put_slice(request.body().as_slice())
}
