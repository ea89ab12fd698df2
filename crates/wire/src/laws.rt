//! Laws of the format.

ghost use Rattle.wire.specs.Laws.{SpellingsAreOneToOne, IsPrefixFree, SpelledAreRead};

use rows::laws;

/// Datagrams that have spellings and share one are equal, no spelling is a proper beginning of
/// another, and each spelling is read as its datagram. It does nothing: its contract is the law.
pub fn one_spelling()
    ensures one_to_one { SpellingsAreOneToOne }
    ensures prefix_free { IsPrefixFree }
    ensures read { SpelledAreRead }
{
    laws::entries_are_read_as_spelled();
}
