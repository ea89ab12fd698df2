//! Worked answers.

ghost use Rattle.queries.specs.Worked.{WorkedAnswers};

/// The definition of the plain answer gives the answers of worked plans. It does nothing: its
/// contract is what the checker computes.
pub fn worked_answers()
    ensures { WorkedAnswers }
{}
