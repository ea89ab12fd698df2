//! Sums of frame counts.

ghost use Rattle.std.specs.Prelude.{◌≡◌, sum, min};

/// The sum of these numbers, or the greatest of 64 bits if it is above that.
pub fn sum_of(numbers: &[u64]) -> u64
    ensures { result ≡ min u64.MAX (sum numbers.now) }
{
    let mut sum: u64 = 0;
    for number in numbers {
        sum = sum.saturating_add(*number);
    }
    sum
}
