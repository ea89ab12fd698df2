//! Laws of the definitions.

ghost use Rattle.plans.specs.Laws.{GroupsRise, GroupsStay};

pub use queries::laws::{each_part_fits, plans_still_fit};

/// The groups of an answer rise, and they are those of its rows. It does nothing: its contract is
/// the law.
pub fn groups_rise()
    ensures rise { GroupsRise }
    ensures stay { GroupsStay }
{}
