//! Numbers that look random, drawn from a seed.

ghost use Rattle.std.specs.Prelude.{◌<◌, length};

/// The next number that is drawn, below this.
pub fn draw(state: &mut u64, below: usize) -> usize
    requires { 0 < below }
    ensures { result < below }
{
    *state = state
        .wrapping_mul(6364136223846793005)
        .wrapping_add(1442695040888963407);
    (*state >> 33) as usize % below
}

/// One of these, drawn.
pub fn pick<T: Copy>(state: &mut u64, items: &[T]) -> T
    requires { 0 < length items.now }
{
    items[draw(state, items.len())]
}
