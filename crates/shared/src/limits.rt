//! The limit of a line.

ghost use Rattle.std.specs.Prelude.{◌≡◌};
ghost use Rattle.shared.specs.Limits.{seats_max};

/// Seats of a line, at most.
pub const SEATS_MAX: u8 = 32;

/// The limit is the number that the definitions name. It does nothing: its contract says so.
pub fn is_as_defined()
    ensures { SEATS_MAX ≡ seats_max }
{}
