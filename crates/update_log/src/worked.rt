//! Cuts that are worked out on the definitions alone.

ghost use Rattle.std.specs.Prelude.{◌≡◌, ◌∷◌, [], ◌++◌, map, length};
ghost use Rattle.update_log.specs.Parts.{frame_len, part_len, parts_of, pieces_of, piece_front_len};
ghost use Rattle.update_log.specs.Worked.{inserts, deletes, columns};

/// What the definition of a commit's parts gives for 42 inserts of two numbers, and for 38 with 11
/// deletes: how many entries each part has, and how many bytes its frame. The same of an image's
/// pieces for 5 added columns and 41 inserts, and for no entry. No code takes part.
pub fn worked_cuts()
    ensures counts { map length (parts_of (inserts 42)) ≡ 41 ∷ 1 ∷ [] }
    ensures bytes { map frame_len (parts_of (inserts 42)) ≡ 1174 ∷ 54 ∷ [] }
    ensures whole { map frame_len (parts_of (inserts 38 ++ deletes 11)) ≡ 1200 ∷ [] }
    ensures pieces { map length (pieces_of (columns 5 ++ inserts 41)) ≡ 45 ∷ 1 ∷ [] }
    ensures piece_bytes { map (part_len piece_front_len) (pieces_of (columns 5 ++ inserts 41)) ≡ 1200 ∷ 53 ∷ [] }
    ensures empty { map (part_len piece_front_len) (pieces_of []) ≡ 25 ∷ [] }
{}
