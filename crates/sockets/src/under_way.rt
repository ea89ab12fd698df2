//! What a replica's node has under way: its Ask, and its Wants or Pulls that are not answered yet.

use byteorder::{BigEndian, ByteOrder};
use dispatcher::{Gap, Got};
use rows::limits::WORKERS_MAX;
use update_log::limits::WANT_FRAMES_MAX;

/// How many Wants may be under way, at the least and at the most. A socket of Linux holds some 270 short frames and 90
/// long ones, if it is asked for no more.
const WANTS_LEAST: usize = 4;

pub const WANTS_MAX: usize = 16;

/// After how many datagrams more an answer is late, at the least and at the most.
const LATE_LEAST: u64 = 8;

const LATE_MOST: u64 = 256;

/// How often in a row one place is asked for before another version is.
const TRIES_MAX: u32 = 16;

/// For how many quiet turns answers are awaited, at most, before they are late for the first time.
const PATIENCE_MAX: u32 = 16;

/// After how many quiet turns more they are late again, at most. So one place is asked for over a second at least before
/// another version is, and its answer may take that long.
const QUIET_STEP_MAX: u32 = 8;

/// Where the kind of a datagram stands in its bytes, and the kinds of a frame and of a piece; where a frame's worker stands,
/// where its seq does, and how many bytes there are up to its end.
const KIND_AT: usize = 3;

const FRAME_KIND: u8 = 1;

const PIECE_KIND: u8 = 5;

const WORKER_AT: usize = 6;

const SEQ_AT: usize = 7;

const FRONT_LEN: usize = 15;

/// An Ask that is under way, by how many datagrams had come: when it was sent, and when its answer is late.
#[derive(Clone, Copy)]
struct Asked {
    sent: u64,
    late: u64,
    /// Whether an earlier one of the same request was late. Its Head may be the answer to that one.
    is_repeated: bool,
}

/// A Want or Pull that is under way, and when its answer is late, by how many datagrams have come.
#[derive(Clone, Copy)]
struct Wanted {
    gap: Gap,
    late: u64,
}

impl Wanted {
    /// Whether the frame or piece on which a gap begins is among those that answer it.
    fn covers(&self, gap: Gap) -> bool {
        gap.worker == self.gap.worker
            && gap.seq >= self.gap.seq
            && gap.seq - self.gap.seq < WANT_FRAMES_MAX
    }
}

/// Whether these bytes are a piece's, if they are a datagram's.
pub fn is_piece(bytes: &[u8]) -> bool {
    bytes.get(KIND_AT) == Some(&PIECE_KIND)
}

/// What a replica's node has under way, and when its answers are late.
///
/// Time is counted in datagrams that come, which needs no clock: while frames are pushed, as many come between
/// an Ask and its Head as a round trip takes, and an answer is late after twice as many and 8 more. Where
/// nothing comes it is counted in quiet turns.
#[derive(Drop)]
pub struct UnderWay {
    /// How many datagrams have come.
    came: u64,
    /// How many come in a round trip, times 8: a mean, in which each new one counts for an eighth.
    round_trip: u64,
    asked: Option<Asked>,
    wants: [Option<Wanted>; WANTS_MAX],
    /// How many turns in a row nothing new has come, while an answer was awaited.
    quiet: u32,
    /// After how many of them Wants and Pulls are late for the first time: not more than a round trip takes, since it is
    /// not known whether what came last answers the first one that was sent, or one that was sent again.
    patience: u32,
    /// After how many of them they are late next.
    late_quiet: u32,
    /// Whether they are Pulls.
    are_pulls: bool,
    /// The first place that was missing when it was looked last, and how many Wants or Pulls were sent for it in a row.
    first: Option<Gap>,
    tries: u32,
    /// How many Wants may be under way: half as many once an answer is late, since a receiver may have been given more than
    /// it could hold, and one more each time that as many were answered.
    window: usize,
    /// How many were answered since that has changed.
    answered: usize,
    /// For each worker the seq behind the greatest one of its frames that came. A frame below it that is missing is
    /// lost, or late; one above it may have been pushed and be on its way.
    seen: [u64; WORKERS_MAX as usize],
    /// For each worker until how many datagrams have come the frames above `seen` are awaited without a Want. Each
    /// frame that comes meanwhile shows that they are pushed, and puts this off.
    pushed_until: [u64; WORKERS_MAX as usize],
    /// How many datagrams had come when it was looked last where frames are missing.
    looked_at: Option<u64>,
}

impl UnderWay {
    /// Nothing.
    pub fn nothing() -> UnderWay {
        UnderWay {
            came: 0,
            round_trip: 0,
            asked: None,
            wants: [None; WANTS_MAX],
            quiet: 0,
            patience: 1,
            late_quiet: 1,
            are_pulls: false,
            first: None,
            tries: 0,
            window: WANTS_LEAST,
            answered: 0,
            seen: [0; WORKERS_MAX as usize],
            pushed_until: [0; WORKERS_MAX as usize],
            looked_at: None,
        }
    }

    /// Notes that these bytes came, which the replica answered so.
    pub fn note(&mut self, bytes: &[u8], got: Got) {
        // A piece that is known answers a Pull that was repeated too early. Such answers would make others late.
        if matches!(got, Got::Repeat) && is_piece(bytes) {
            return;
        }
        self.came = self.came.saturating_add(1);
        match got {
            Got::Head(_) => {
                self.end_quiet();
                self.note_head();
            }
            Got::Stored => {
                self.end_quiet();
                self.note_frame(bytes);
            }
            Got::Repeat | Got::Ahead => self.note_frame(bytes),
            _ => {}
        }
    }

    /// Notes that something new came. If turns were quiet before, an answer may take as many. Three quarters of them are
    /// awaited, so that this goes back to one where answers are lost and do not take long.
    fn end_quiet(&mut self) {
        if self.quiet > 0 {
            self.patience = (self.quiet.saturating_mul(3) / 4).clamp(1, PATIENCE_MAX);
        }
        self.quiet = 0;
        self.late_quiet = self.patience;
    }

    /// Notes that a frame came with these bytes, if it is one. Pieces are sent for a Pull alone.
    fn note_frame(&mut self, bytes: &[u8]) {
        if bytes.len() < FRONT_LEN || bytes[KIND_AT] != FRAME_KIND {
            return;
        }
        let worker = bytes[WORKER_AT] as usize;
        let (_, behind) = bytes.split_at(SEQ_AT);
        let next = BigEndian::read_u64(behind).saturating_add(1);
        let until = self.late_after_wants();
        let seen = self.seen.get_mut(worker);
        let pushed_until = self.pushed_until.get_mut(worker);
        if let (Some(seen), Some(pushed_until)) = (seen, pushed_until) {
            if next > *seen {
                *seen = next;
                if self.came < *pushed_until {
                    *pushed_until = until;
                }
            }
        }
    }

    /// Whether the frame on which a gap begins is lost, as far as can be told: frames behind it have come, or none of its
    /// worker does any more. A piece comes only if it is asked for.
    fn is_lost(&self, gap: Gap) -> bool {
        if self.are_pulls {
            return true;
        }
        let worker = gap.worker as usize;
        match (self.seen.get(worker), self.pushed_until.get(worker)) {
            (Some(seen), Some(until)) => gap.seq < *seen || *until <= self.came,
            _ => true,
        }
    }

    /// Notes that nothing came in a turn: an Ask that is under way is late, and no frame is on its way any more. Wants and
    /// Pulls are late after some such turns in a row, each time after more.
    pub fn note_silence(&mut self) {
        let has_wants = self.wants.iter().any(Option::is_some);
        let is_awaiting = has_wants || self.asked.is_some();
        if let Some(asked) = &mut self.asked {
            asked.late = 0;
        }
        self.pushed_until = [0; WORKERS_MAX as usize];
        self.looked_at = None;
        if !is_awaiting {
            self.quiet = 0;
            self.late_quiet = self.patience;
            return;
        }
        self.quiet = self.quiet.saturating_add(1);
        if self.quiet < self.late_quiet {
            return;
        }
        self.late_quiet = self.quiet.saturating_add(self.quiet.min(QUIET_STEP_MAX));
        if has_wants {
            self.narrow();
        }
        self.wants = [None; WANTS_MAX];
    }

    /// Whether an Ask may be sent: none is under way, or its answer is late.
    pub fn may_ask(&self) -> bool {
        match &self.asked {
            Some(asked) => asked.late <= self.came,
            None => true,
        }
    }

    /// Notes that an Ask was sent.
    pub fn note_ask(&mut self) {
        self.asked = Some(Asked {
            sent: self.came,
            late: self.late_after(0),
            is_repeated: self.asked.is_some(),
        });
    }

    /// Notes that the Head of the Ask came, which tells of frames that were not awaited before. They may be on their way.
    fn note_head(&mut self) {
        if let Some(asked) = self.asked {
            if !asked.is_repeated {
                self.learn(self.came.saturating_sub(asked.sent));
            }
        }
        self.asked = None;
        self.wants = [None; WANTS_MAX];
        self.first = None;
        self.pushed_until = [self.late_after_wants(); WORKERS_MAX as usize];
        self.looked_at = None;
    }

    /// Whether it is to be looked where frames are missing, or pieces: a quarter of the Wants may be answered since it
    /// was looked last, or more may be under way now.
    pub fn may_look(&self, for_pieces: bool) -> bool {
        if for_pieces != self.are_pulls {
            return true;
        }
        let Some(at) = self.looked_at else {
            return true;
        };
        let count = self.wants.iter().flatten().count() as u64;
        let some = (count / 4)
            .saturating_add(1)
            .saturating_mul(WANT_FRAMES_MAX);
        // Frames that were awaited without a Want are so no longer.
        let are_lost = self
            .pushed_until
            .iter()
            .any(|until| at < *until && *until <= self.came);
        are_lost || at.saturating_add(some) <= self.came
    }

    /// Forgets the Wants or Pulls that are answered, since no gap begins among their frames or pieces, and those that are
    /// late. Those of the other kind are forgotten.
    pub fn keep(&mut self, gaps: &[Gap], are_pieces: bool) {
        if are_pieces != self.are_pulls {
            self.are_pulls = are_pieces;
            self.wants = [None; WANTS_MAX];
            self.first = None;
        }
        let first = gaps.first().copied();
        if first != self.first {
            self.first = first;
            self.tries = 0;
        }
        self.looked_at = Some(self.came);
        let mut is_late = false;
        for wanted in &mut self.wants {
            let Some(want) = wanted else {
                continue;
            };
            if !gaps.iter().any(|gap| want.covers(*gap)) {
                self.answered = self.answered.saturating_add(1);
                *wanted = None;
            } else if want.late <= self.came {
                is_late = true;
                *wanted = None;
            }
        }
        if is_late {
            self.narrow();
        } else {
            self.widen();
        }
    }

    /// Lets half as many Wants be under way.
    fn narrow(&mut self) {
        self.window = (self.window / 2).max(WANTS_LEAST);
        self.answered = 0;
    }

    /// Lets one Want more be under way, if as many were answered.
    fn widen(&mut self) {
        if self.answered >= self.window {
            self.window = self.window.saturating_add(1).min(WANTS_MAX);
            self.answered = 0;
        }
    }

    /// Whether one Want or Pull more would be sent for a place that was asked for so often in a row that another version is
    /// to be asked for instead.
    pub fn is_in_vain(&self) -> bool {
        match self.first {
            Some(first) => self.tries >= TRIES_MAX && self.place_for(first).is_some(),
            None => false,
        }
    }

    /// Notes that another version is asked for, in place of the one that was fetched.
    pub fn note_renewal(&mut self) {
        self.note_ask();
        self.wants = [None; WANTS_MAX];
        self.first = None;
        self.looked_at = None;
    }

    /// The place of a Want or Pull for this gap, if one may be sent: its frame is lost, as far as can be told, none is under
    /// way that it would repeat, and no more are than may be.
    pub fn place_for(&self, gap: Gap) -> Option<usize> {
        if !self.is_lost(gap) {
            return None;
        }
        let mut place = None;
        let mut count: usize = 0;
        for (index, wanted) in self.wants.iter().enumerate() {
            match wanted {
                Some(want) => {
                    if want.covers(gap) {
                        return None;
                    }
                    count = count.saturating_add(1);
                }
                None => place = Some(index),
            }
        }
        if count < self.window { place } else { None }
    }

    /// Notes that a Want or Pull for this gap was sent.
    pub fn note_want(&mut self, place: usize, gap: Gap) {
        if self.first == Some(gap) {
            self.tries = self.tries.saturating_add(1);
        }
        let late = self.late_after_wants();
        if let Some(wanted) = self.wants.get_mut(place) {
            *wanted = Some(Wanted { gap, late });
        }
    }

    /// When the answer to one Want more would be late, which comes after those of the Wants under way.
    fn late_after_wants(&self) -> u64 {
        let count = self.wants.iter().flatten().count() as u64;
        self.late_after(count.saturating_add(1).saturating_mul(WANT_FRAMES_MAX))
    }

    /// When an answer is late that is sent now, if so many datagrams of other answers come before its last one.
    fn late_after(&self, others: u64) -> u64 {
        let twice = self.round_trip / 4;
        let most = twice.saturating_add(LATE_LEAST).min(LATE_MOST);
        self.came.saturating_add(most).saturating_add(others)
    }

    /// Takes into the mean that so many datagrams came in a round trip.
    fn learn(&mut self, datagrams: u64) {
        let others = self.round_trip - self.round_trip / 8;
        self.round_trip = others.saturating_add(datagrams);
    }
}
