//! Adding rows to what is kept of their groups.

ghost use Rattle.std.specs.Prelude.{◌≡◌, ℕ, ◌+◌, ◌^◌, ◌<◌, ◌≤◌, ℤ, ◌+ℤ◌, length, Option, slice_index_or};
ghost use Rattle.plans.specs.Inner.Picked.{picked, total, ArePlaces, AreWithin, IsWithin};

/// Adds to each count the number of rows of its group. No count is above `rows` before.
pub fn add_counts(counts: &mut [u64], numbers: &[u32], rows: usize)
    requires places { ArePlaces (length counts.old) numbers.now }
    requires within { (n : ℕ) (d : ℕ) → n < length counts.old → slice_index_or counts.old n d ≤ rows }
    requires few { rows + length numbers.now < 2 ^ 64 }
    ensures counts { (n : ℕ) (d : ℕ) → n < length counts.old
        → slice_index_or counts.new n d ≡ slice_index_or counts.old n d + length (picked n numbers.now numbers.now) }
    ensures within { (n : ℕ) (d : ℕ) → n < length counts.old → slice_index_or counts.new n d ≤ rows + length numbers.now }
{
    for i in 0..numbers.len() {
        counts[numbers[i] as usize] += 1;
    }
    let _ = rows;
}

/// Adds to each sum the values of the rows of its group. Each sum is one of at most `rows` numbers
/// before.
pub fn add_sums(sums: &mut [i128], numbers: &[u32], values: &[i64], rows: usize)
    requires same { length numbers.now ≡ length values.now }
    requires places { ArePlaces (length sums.old) numbers.now }
    requires within { AreWithin rows sums.old }
    requires few { rows + length numbers.now < 2 ^ 64 }
    ensures sums { (n : ℕ) (d : ℤ) → n < length sums.old
        → slice_index_or sums.new n d ≡ slice_index_or sums.old n d +ℤ total (picked n numbers.now values.now) }
    ensures within { AreWithin (rows + length numbers.now) sums.new }
{
    for i in 0..numbers.len() {
        let place = numbers[i] as usize;
        sums[place] = sum_with(sums[place], values[i], rows + i);
    }
}

/// A sum of at most `rows` numbers of 64 bits, with one number more.
fn sum_with(sum: i128, number: i64, rows: usize) -> i128
    requires within { IsWithin rows sum }
    requires few { rows < 2 ^ 64 }
    ensures sum { result ≡ sum +ℤ number }
    ensures within { IsWithin (rows + 1) result }
{
    let _ = rows;
    sum + i128::from(number)
}
