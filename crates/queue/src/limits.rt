//! The limit of a batch.

ghost use Rattle.std.specs.Prelude.{◌≡◌};
ghost use Rattle.queue.specs.Limits.{batch_plans_max};

/// Plans of a batch, at most: as many as may wait at a replica.
pub const BATCH_PLANS_MAX: usize = 64;

/// The limit is the number that the definitions name. It does nothing: its contract says so.
pub fn is_as_defined()
    ensures { BATCH_PLANS_MAX ≡ batch_plans_max }
{}
