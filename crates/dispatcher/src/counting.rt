//! Frame counts, by worker.

ghost use Rattle.std.specs.Prelude.{◌≡◌};

use wire::Counts;

/// A copy of the counts. Takes no memory.
pub fn copy_of(counts: &Counts) -> Counts
    ensures { result ≡ counts.now }
{
    let mut copy = Counts::new();
    for count in counts.as_slice() {
        copy.push(*count);
    }
    copy
}
