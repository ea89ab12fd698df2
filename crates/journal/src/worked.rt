//! Journals that are worked out on the definitions alone.

ghost use Rattle.std.specs.Prelude.{◌≡◌, ◌++◌, ◌∷◌, [], true, false};
ghost use Rattle.journal.specs.declared.form.Form.TheVariants.{New, Old, Marked};
ghost use Rattle.journal.specs.Recovery.{is_torn, record_len_min, record_len_max};
ghost use Rattle.journal.specs.Text.{header, mark, record_of, journal_text};
ghost use Rattle.journal.specs.Worked.{pairs, pairs_header, accounts, accounts_header};
ghost use Rattle.journal.specs.Worked.{one_insert, one_insert_record, delete_and_patch, delete_and_patch_record};
ghost use Rattle.journal.specs.Worked.{add_byte, add_byte_record, add_number, add_number_record, old_accounts_header};

/// What the definition of the journal's text specifies byte by byte: for headers of both versions,
/// for the records of an insert, of a delete with a patch, and of two added columns, and for
/// journals of one commit, of both versions, and with the mark before and behind it; and how many
/// bytes a record has after its length, at least and at most. No code takes part.
pub fn worked_journal()
    ensures octets { header New 1 pairs ≡ pairs_header }
    ensures ints { header New 2 accounts ≡ accounts_header }
    ensures old { header Old 2 accounts ≡ old_accounts_header }
    ensures insert { record_of 1 one_insert ≡ one_insert_record }
    ensures delete_and_patch { record_of 5 delete_and_patch ≡ delete_and_patch_record }
    ensures add_byte { record_of 2 add_byte ≡ add_byte_record }
    ensures add_number { record_of 1 add_number ≡ add_number_record }
    ensures journal { journal_text New 2 accounts (one_insert ∷ []) ≡ accounts_header ++ one_insert_record }
    ensures old_journal { journal_text Old 2 accounts (one_insert ∷ []) ≡ old_accounts_header ++ one_insert_record }
    ensures marked { journal_text (Marked 1) 2 accounts (one_insert ∷ []) ≡ old_accounts_header ++ one_insert_record ++ mark }
    ensures marked_first { journal_text (Marked 0) 2 accounts (add_number ∷ []) ≡ old_accounts_header ++ mark ++ add_number_record }
    ensures torn_length { is_torn Old (0 ∷ 0 ∷ 0 ∷ 21 ∷ []) ≡ true }
    ensures damaged_length { is_torn Old (0 ∷ 0 ∷ 0 ∷ 20 ∷ []) ≡ false }
    ensures torn_new { is_torn (Marked 1) (0 ∷ 0 ∷ 0 ∷ 15 ∷ []) ≡ true }
    ensures damaged_new { is_torn (Marked 1) (0 ∷ 0 ∷ 0 ∷ 14 ∷ []) ≡ false }
    ensures second_mark { is_torn (Marked 1) mark ≡ false }
    ensures old_shortest { record_len_min Old ≡ 21 }
    ensures shortest { record_len_min New ≡ 15 }
    ensures longest { record_len_max ≡ 2146315 }
{}
