//! The time in which connections are listened to.

ghost use Rattle.std.specs.Prelude.{◌≡◌, ◌≤◌, ◌+◌};
ghost use Rattle.service.specs.Waits.{after_turn};

/// How many milliseconds of a turn count, at most: its wait of 100 ms, and a round as they commonly are. The
/// second for which a client is read after its last answer has four such turns at least, and in these all is
/// read that is read of it.
const TURN_MILLIS_MAX: u64 = 250;

/// How long connections were listened to, in milliseconds. A turn that answers others for long counts as a
/// short one: its work is no reason to end a client to which nobody listened meanwhile.
#[derive(Clone, Copy, PartialEq, Eq)]
pub(crate) struct ListeningTime {
    /// What the clock showed at most.
    pub(crate) shown: u64,
    /// How long connections were listened to until then.
    pub(crate) listened: u64,
}

impl ListeningTime {
    /// Begins when the clock shows 0.
    pub(crate) fn new() -> ListeningTime {
        ListeningTime {
            shown: 0,
            listened: 0,
        }
    }

    /// Counts a turn that took until the clock shows this. How long connections were listened to by then.
    ///
    /// A clock that goes back counts nothing.
    pub(crate) fn count_turn(&mut self, shown: u64) -> u64
        ensures turn { self.new ≡ after_turn self.old shown }
        ensures listened { result ≡ self.new.listened }
        ensures onward { self.old.listened ≤ result }
        ensures bounded { result ≤ self.old.listened + 250 }
    {
        let turn = shown.saturating_sub(self.shown).min(TURN_MILLIS_MAX);
        self.shown = self.shown.max(shown);
        self.listened = self.listened.saturating_add(turn);
        self.listened
    }
}
