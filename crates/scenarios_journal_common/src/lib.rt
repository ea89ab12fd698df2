//! What scenarios of journals share: bytes of journals with what is recovered of them, and a journal
//! of which one call fails. No test stands here.
#![tactic(auto)]

pub mod failing_journal;
pub mod journal_cases;
pub mod old_journal_cases;
