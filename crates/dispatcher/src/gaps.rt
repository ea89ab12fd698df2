//! Where frames are missing.

ghost use Rattle.std.specs.Prelude.{◌≡◌, ◌++◌, ◌<◌, ◌≤◌, length, take, slice_index, vec_capacity};
ghost use Rattle.intake.specs.State.{known_of};
ghost use Rattle.dispatcher.specs.Gaps.{gaps_between, gaps_from};

use intake::{Intake, Taken, first_missing_is_least};

/// A place in a worker's stream from which on frames are missing.
#[derive(Clone, Copy, PartialEq, Eq)]
pub struct Gap {
    pub worker: u8,
    /// The first of them.
    pub seq: u64,
}

/// Pushes the gaps from these bases to before these counts, by worker and seq, until there are
/// `most`. The bases are by worker, 0 for a worker without one.
pub fn push_gaps(
    intake: &Intake,
    bases: &[u64],
    counts: &[u64],
    stride: u64,
    most: usize,
    gaps: &mut Vec<Gap>,
)
    requires few { length gaps.old.items ≤ most }
    requires room { most ≤ vec_capacity gaps.old }
    ensures gaps { gaps.new.items ≡ take most (gaps.old.items ++ gaps_from stride 0 intake.now bases.now counts.now) }
    ensures capacity { vec_capacity gaps.new ≡ vec_capacity gaps.old }
{
    for worker in 0..counts.len() {
        if worker >= intake.workers() as usize {
            return;
        }
        push_gaps_of(
            intake,
            bases,
            worker as u8,
            counts[worker],
            stride,
            most,
            gaps,
        );
    }
}

/// Pushes the gaps of a worker from its base to before its count, until there are `most`. It looks at the
/// seqs that would be kept if they came, of which there are 4096 at most.
fn push_gaps_of(
    intake: &Intake,
    bases: &[u64],
    worker: u8,
    count: u64,
    stride: u64,
    most: usize,
    gaps: &mut Vec<Gap>,
)
    requires worker { worker < length intake.now }
    requires few { length gaps.old.items ≤ most }
    requires room { most ≤ vec_capacity gaps.old }
    ensures gaps { gaps.new.items
        ≡ take most (gaps.old.items ++ gaps_between stride worker (known_of intake.now worker) (slice_index bases.now worker) count) }
    ensures capacity { vec_capacity gaps.new ≡ vec_capacity gaps.old }
{
    first_missing_is_least();
    let first = intake.contiguous_from(bases, worker);
    let mut covered: u64 = 0;
    for ahead in 0..count.saturating_sub(first) {
        if gaps.len() >= most {
            return;
        }
        if covered > 0 {
            covered -= 1;
            continue;
        }
        let seq = first + ahead;
        match intake.would_take(bases, worker, seq) {
            Taken::Stored => {
                gaps.push_reserved(Gap { worker, seq });
                covered = stride.saturating_sub(1);
            }
            Taken::Ahead => return,
            Taken::Repeat | Taken::Memory => {}
        }
    }
}
