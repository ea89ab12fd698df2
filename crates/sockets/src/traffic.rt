//! How many datagrams went through a node's port.

ghost use Rattle.std.specs.Prelude.{◌≡◌};
ghost use Rattle.sockets.specs.Traffic.{no_traffic, with_heard, with_sent};

/// How many datagrams went through a node's port. Each count stays at the greatest number of 64 bits.
#[derive(Clone, Copy, Debug, PartialEq, Eq)]
pub struct Traffic {
    /// Those that arrived.
    pub received: u64,
    /// Those of them that were frames which a replica did not know.
    pub stored: u64,
    /// Those of them that a replica ignored, or that a primary answered by nothing.
    pub ignored: u64,
    /// Those that were to be sent.
    pub sent: u64,
    /// Those of them that could not be sent.
    pub lost: u64,
}

/// What became of a datagram that arrived, as far as it is counted.
#[derive(Clone, Copy, PartialEq, Eq)]
pub enum Counted {
    Stored,
    Ignored,
    Other,
}

impl Traffic {
    /// Nothing.
    pub fn none() -> Traffic
        ensures { result ≡ no_traffic }
    {
        Traffic {
            received: 0,
            stored: 0,
            ignored: 0,
            sent: 0,
            lost: 0,
        }
    }

    /// Counts a datagram that arrived.
    pub(crate) fn note_heard(&mut self, counted: Counted)
        ensures { self.new ≡ with_heard self.old counted }
    {
        self.received = self.received.saturating_add(1);
        match counted {
            Counted::Stored => self.stored = self.stored.saturating_add(1),
            Counted::Ignored => self.ignored = self.ignored.saturating_add(1),
            Counted::Other => {}
        }
    }

    /// Counts a datagram that was to be sent.
    pub(crate) fn note_sent(&mut self, is_lost: bool)
        ensures { self.new ≡ with_sent self.old is_lost }
    {
        self.sent = self.sent.saturating_add(1);
        if is_lost {
            self.lost = self.lost.saturating_add(1);
        }
    }
}
