//! What the proofs of a step take from the crates below.

ghost use Rattle.world.specs.Inner.StepLaws.{StepLaws};

/// What is known of the tables that a transaction sees, and of the datagrams that are sent. It does
/// nothing: its contract is the law.
pub fn steps_are_told()
    ensures { StepLaws }
{
    rows::laws::changes_tell_kinds();
    rows::laws::entries_are_defined_one_by_one();
    wire::one_spelling();
}
