use crate::span::Span;
use std::marker::Model;

/// The frames of a commit before they are in its worker's stream: `Streams::reserve` finds which of
/// the commit's entries each has and makes room for them, and `Streams::add` adds them.
///
/// Contracts see the worker and which entries the frames have.
#[derive(Drop)]
pub struct NextFrames {
    pub(crate) worker: u8,
    pub(crate) spans: Vec<Span>,
}

impl Model for NextFrames {
    ghost use Rattle.std.specs.Prelude.{◌<◌};
    ghost use Rattle.rows.specs.Limits.{workers_max};
    ghost use Rattle.update_log.specs.State.{Next};

    ghost Value = { Next };

    ghost view = { λ n. record { worker = n.worker; spans = n.spans.items } };

    ghost invariant = { λ n. n.worker < workers_max };
}
