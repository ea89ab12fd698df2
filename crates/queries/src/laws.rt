//! Laws of the definitions.

ghost use Rattle.queries.specs.Laws.{EachPartFits, PlanStillFits};

/// The tables of a plan that fits are there, and no part of it has a fault. It does nothing: its
/// contract is the law.
pub fn each_part_fits()
    ensures { EachPartFits }
{}

/// A plan that fits still fits if a table of the schema gets one more column, after the others. It
/// does nothing: its contract is the law.
pub fn plans_still_fit()
    ensures { PlanStillFits }
{}
